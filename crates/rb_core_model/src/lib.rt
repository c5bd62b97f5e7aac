//! Events and the relayer state machine's definitions and laws: what happens to a relayer (`Event`), the log
//! entry of that (`Entry`), the reply (`Reply`) and the errors (`CoreError`); the definitions of the
//! machine's state and of what an event makes of it, with their laws in `laws`; and the pending messages of
//! a part of a path (`scan`).
#![tactic(auto)]

mod entry;
mod error;
mod event;
pub mod laws;
mod path_scan;
mod ready;
mod reply;
pub mod rules;
mod scanning;
mod scans;
mod shared_entry;

pub use entry::Entry;
pub use error::CoreError;
pub use event::Event;
pub use path_scan::Scan;
pub use ready::Ready;
pub use reply::Reply;
pub use scanning::scan;
pub use scans::Scans;
pub use shared_entry::{SharedEntry, share_entries};
