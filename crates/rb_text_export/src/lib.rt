//! Other texts of a report: the commands that a relayer runs, and JSON.
#![tactic(auto)]

mod commands;
mod json;
mod packet_commands;
mod windows;
mod words;

pub use commands::commands_of;
pub use json::{json_of_turn, push_report};
pub use windows::Setting;
