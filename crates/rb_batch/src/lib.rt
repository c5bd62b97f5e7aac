//! Transaction packing: messages cut into the fewest consecutive transactions that keep within the limits
//! of gas and count, each as full as it can be from the first one on.
#![tactic(auto)]

mod apart;
mod cutting;
mod error;
pub mod laws;
mod limits;
mod message;
mod transaction;

pub use apart::cut_apart;
pub use cutting::cut;
pub use error::BatchError;
pub use limits::Limits;
pub use message::Msg;
pub use transaction::Transaction;
