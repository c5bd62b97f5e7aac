//! Requests to nodes and gateways: the contents of folders, and which requests they answer; lists of requests,
//! each once and without an answer, with the reasons; the lines that say them; and the search by halves for the
//! heights to which a client's updates should go, over whoever judges steps.
#![tactic(auto)]

mod answered;
mod content;
mod gap;
mod judge;
mod keys;
pub mod laws;
mod lines;
mod packet_lines;
mod reason;
mod request;
mod searching;
mod wanted;

pub use answered::{PartKind, first_part, has_all, next_part};
pub use content::{Content, Folder, Folders, content_of};
pub use gap::Gap;
pub use judge::{Judge, StepJudgement};
pub use lines::{RequestLine, own_id};
pub use packet_lines::SEQUENCES_A_PART;
pub use reason::{End, Missing, PathEnd, SearchReason};
pub use request::{Owner, Query, Request, is_named};
pub use searching::{Aim, Question, SearchOutcome, search};
pub use wanted::{MOST_REQUESTS, NextRequests};
