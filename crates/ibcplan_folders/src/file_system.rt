//! What folders are read and written through.
use std::fs::Files;

/// Files and folders, and memory for what they hold.
pub trait FileSystem: Files + AllocGlobal + Clone + Drop {}

impl<R: Files + AllocGlobal + Clone + Drop> FileSystem for R {}
