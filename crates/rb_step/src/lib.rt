//! The light-client verifier (ICS 7; CometBFT light client): whether a client accepts a header on the word
//! of a consensus state that it trusts, at a moment or throughout a window; and a client's view of the
//! chain that it tracks.
#![tactic(auto)]

mod carried;
mod charge;
mod checks;
pub mod laws;
mod power;
mod sent;
mod step;
mod verdict;
mod view;

pub use carried::{carried_votes, least_votes};
pub use charge::charge_for;
pub use checks::{is_adjacent, is_trusted, times_allow, times_fault};
pub use power::{is_signed_by_two_thirds, signed_power};
pub use sent::SentVotes;
pub use step::{accepts_in, verify};
pub use verdict::{Reason, Verdict};
pub use view::{ClientView, are_known};
