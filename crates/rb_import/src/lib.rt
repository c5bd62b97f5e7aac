//! The script that a setup and the answers of nodes make (`rb_import_check`, `rb_import_merge`), with its notices
//! (`rb_import_notices`), and its text.
#![tactic(auto)]

mod chains;
mod clients;
mod composing;
mod config;
mod made;
mod opening;
mod paths;
mod read;
mod shares;

pub use composing::{Composed, Made, compose, make};
