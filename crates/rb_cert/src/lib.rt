//! The certifier: whether a planner's answer is right, judged by its labels alone. It trusts nothing in the
//! answer, and goes by the step rule and plain sums. Where threads may be started, `certify_par` checks the
//! steps by several of them.
#![tactic(auto)]

mod accepted;
mod judgement;
mod labels;
pub mod laws;
mod places;
mod refused;
mod target;
mod ties;
mod trusted;
mod updates;
mod verdict;
mod voters;

pub use judgement::{certify, certify_par};
pub use verdict::{Judgement, Reason};
