//! Which votes an update sends: few, and with power enough for both tests of its step.
#![tactic(auto)]

pub mod laws;
mod order;
mod sending;
mod superfluous;
mod voter;
mod voters;

pub use sending::{sent_count, sent_votes};
pub use voter::{Needed, Voter};
pub use voters::Voters;
