//! The parts of the relayer state machine's state: the light store of each chain, which may be shared
//! (`books`), clients with the heights that they have stored and their open batches (`clients`), and
//! paths with their packets (`paths`, `views`); what is known of both, as plain data (`snapshot`); and the
//! floors of the chains, below which nothing is needed any more (`floors`).
//!
//! Chains, clients and paths are named by their places in the script. A change comes in three calls: a
//! `refuse_` call says why it would be refused, a `make_` or `set_apart` call makes room for it, and a
//! `put_` call, or one with a name of its own, makes the change, which then cannot fail.
#![tactic(auto)]

pub mod books;
mod client;
pub mod clients;
pub mod floors;
mod mark;
mod opened;
mod over;
mod packets;
mod path;
pub mod paths;
mod settling;
pub mod snapshot;
pub mod views;

pub use client::{ClientState, goes_back};
pub use mark::Mark;
pub use opened::OpenBatch;
pub use path::PathState;
pub use settling::settled_messages;
pub use snapshot::{ClientSnapshot, PathSnapshot};
