//! The next requests to nodes, for the updates of clients and for the pending packets of paths. A search by
//! halves chooses heights: it judges steps by the step rule (`rb_step`), over the answers in the folders.
#![tactic(auto)]

mod asking;
mod chain;
mod client;
mod judged;
pub mod laws;
mod packets;
mod path;
mod records;
mod steps;

pub use asking::wanted_of;
