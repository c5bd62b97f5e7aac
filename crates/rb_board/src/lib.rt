//! A replicated log: one writer (`Pen`) appends events to a core's log and publishes it, and readers (`Desk`) look at
//! beginnings of that log. Readers take no lock and never wait. And worker threads, their orders and results: a worker reads
//! the log by a desk, does its jobs on that, and hands its results over; it writes nothing. A `Team` is the supervisor's
//! side of them.
#![tactic(auto)]

mod desk;
mod error;
mod finding;
mod inbox;
mod note;
mod opening;
mod order;
mod pen;
mod replica;
mod rule;
mod seeing;
mod slots;
mod team;
mod worker;
mod working;

pub use desk::Desk;
pub use error::DeskError;
pub use finding::{Finding, Findings};
pub use inbox::Inbox;
pub use note::Note;
pub use opening::open;
pub use order::{Order, Orders};
pub use pen::Pen;
pub use team::Team;
pub use worker::Worker;
pub use working::{work, worker_loop};
