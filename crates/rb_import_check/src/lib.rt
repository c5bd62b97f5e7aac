//! Answers of nodes on one chain or one client, checked against one another and put in order; or the first
//! contradiction.
#![tactic(auto)]

mod accord;
mod chain;
mod client;
mod error;
mod error_text;
mod hexadecimal;
mod laws;
mod parts;
mod repeat;
mod saved;
mod sets;
mod signed;
mod verdicts;

pub use accord::judge_records;
pub use chain::{Commit, SeenChain, seen_chain};
pub use client::{SeenClient, Stored, seen_client};
pub use error::{CheckError, CheckErrorName, HeaderHashes, ImportError};
pub use hexadecimal::Hexadecimal;
pub use laws::{contradictions_stay, verified_votes_are_given};
pub use saved::{Saved, SavedAnswers, SavedError, read_saved};
pub use sets::{SeenSet, SeenSets};
pub use signed::{Signatures, is_bad};
pub use verdicts::has_verdicts;
