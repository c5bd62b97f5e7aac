//! What the program asks of the system.
use std::fs::{File, Files};
use std::rt::Runtime;
use std::sync::Wait;
use std::thread::Threads;

/// Files, streams, memory, and threads, which it may wait for and which may use it.
pub trait Host: Runtime
    + Files<File = File>
    + AllocGlobal
    + Threads
    + Wait
    + Copy
    + Send
    + Sync
    + 'static {}

impl<
    R: Runtime + Files<File = File> + AllocGlobal + Threads + Wait + Copy + Send + Sync + 'static,
> Host for R {}
