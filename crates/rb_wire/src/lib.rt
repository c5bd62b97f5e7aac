//! A single-producer, single-consumer queue: a lane that carries items from one thread to one other, in
//! their order, with no lock and no waiting. Contracts name the items that were sent and those that were
//! taken.
#![tactic(auto)]

mod calls;
mod ends;
mod refusal;

pub use calls::lane;
pub use ends::{Finished, Rx, Tx};
pub use refusal::{LaneFull, NoMemory};
