//! Packets (ICS 4): what chains store of them, what transactions tell of them, which answers of nodes prove the claim of a
//! packet message (ICS 23), and the text of such a message; of a plan's packet messages, what is asked for their proofs, and
//! their texts by what was answered.
#![tactic(auto)]

mod answer;
mod asking;
mod attribute;
mod claim;
mod due;
mod due_text;
mod ends;
mod error;
mod event;
mod facts;
mod json;
mod judging;
mod message;
mod packet;
mod packet_text;
mod proving;
mod stored;
mod transactions;
mod values;

pub use asking::{file_name, query_of};
pub use claim::{Claim, key_of};
pub use due::{DueMessage, ProofRequest, request_of};
pub use due_text::message_text;
pub use ends::{Ends, ends_of};
pub use error::PacketError;
pub use event::{PacketBytes, PacketWay};
pub use facts::{PacketFacts, PathAnswer, facts_of, read_path_answer};
pub use judging::{ProofError, Proven, judge};
pub use message::{Action, PacketMessage, packet_message_text};
pub use packet::ChannelPacket;
pub use rb_import_answers::RevisionHeight;
pub use transactions::{Transactions, read_transactions};
