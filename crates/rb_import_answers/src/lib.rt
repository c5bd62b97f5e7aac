//! Answers of nodes, as CometBFT's RPC and ibc-go's REST gateway give them: signed headers, with the hash that their
//! commit votes for, pages of validators, client states, consensus states, the events of packets and which packets are
//! pending; verdicts on signatures; or what is wrong with an answer, and where.
#![tactic(auto)]

mod answer;
mod attributes;
mod client;
mod commit;
mod duration;
mod header;
mod header_encoding;
mod header_fields;
pub mod header_laws;
mod number;
mod packets;
mod pending;
mod query;
mod revision;
mod root;
mod said;
mod status;
mod transactions;
mod unread;
mod validators;
mod verdicts;

pub use answer::{MAX_ANSWER_BYTES, NodeAnswer, read_answer};
pub use client::{ConsensusPage, ConsensusState, TendermintClientState, TrustLevel};
pub use commit::{BlockIdFlag, Cast, CommitVote, Signature, SignedHeader};
pub use header_fields::{BlockHeader, BlockId, HeaderBytes, header_hash};
pub use packets::{PacketEvent, PacketKind, PacketPage, RevisionHeight};
pub use pending::{Pending, SequencePage};
pub use query::OtherQuery;
pub use revision::revision_of;
pub use said::{plain_text, said_in, type_in};
pub use status::NodeStatus;
pub use validators::ValidatorsPage;
pub use verdicts::{CommitVerdict, Verdicts};
