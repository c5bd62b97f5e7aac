//! What the program and its operator say to each other: the command line; why there is no result, with the status that the
//! program ends with, what is wrong with a file or a word, and what to do about it; how far a run is; the files that it reads;
//! and setups of other relayers' configurations.
#![tactic(auto)]

mod advice;
mod certify_request;
mod command_line;
mod error;
mod explain_request;
mod explained;
mod follow_request;
mod given;
mod health_request;
mod input;
mod input_error;
mod messages_request;
mod progress;
mod request;
mod setting_up;
mod setup_request;
mod shown;
pub mod status;
mod worker_count;

pub use command_line::{no_memory, request_of};
pub use error::{ProgramError, Turns};
pub use explained::Explained;
pub use follow_request::Following;
pub use given::{Given, Import};
pub use input::{Input, STANDARD_INPUT, bytes_of};
pub use input_error::InputError;
pub use progress::Progress;
pub use request::{Invocation, ScriptOutput, WantedTurns};
pub use setting_up::setup_for;
pub use shown::{ShownName, shown_text};
pub use worker_count::WorkerCount;
