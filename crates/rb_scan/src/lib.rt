//! Pending packet messages (ICS 4): which messages a path owes, from which height on each can be proved,
//! which of them are ready, and which can go.
#![tactic(auto)]

mod bars;
pub mod laws;
mod message;
mod packet;
mod path;
mod readiness;
mod scan;
mod sequence;
mod table;

pub use bars::{Bars, going};
pub use message::{Kind, PacketMsg};
pub use packet::Packet;
pub use path::{Order, PathView, is_path};
pub use readiness::{ready, ready_beyond, wanted};
pub use scan::{owed, owed_part};
pub use sequence::Sequence;
