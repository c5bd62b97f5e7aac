//! Answers of nodes on a whole setup, merged: the packets of its paths, and as much of its chains and
//! clients as light stores have room for.
#![tactic(auto)]

mod counterparties;
mod errors;
mod kept;
mod left_out;
mod lowest;
mod packets;
mod path;
mod pending;
mod room;
mod seen;
mod sequences;
mod sets;
mod sources;
mod surplus;

pub use counterparties::{Counterparties, several_counterparties};
pub use errors::{ImportErrors, Refusals};
pub use kept::KeptSets;
pub use left_out::{LeftOutPacket, PacketLack};
pub use packets::{Searches, SeenPacket, expiry_at, searches_of};
pub use path::{SeenPath, seen_path};
pub use pending::{first_of, is_pending};
pub use seen::{SeenSetup, answers_at, seen_in};
pub use sources::{OtherSource, other_source};
pub use surplus::{MAX_PACKETS, Surplus};
