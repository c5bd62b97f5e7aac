//! The phases of a turn, for a relayer over any state machine that takes events in: events are taken in, paths scanned,
//! clients planned and batches settled, by the calling thread or by results that workers found; and the report of the turn.
//! Scripts that were read are scripts as turns tell them (`read_scripts_are_scripts`). Definitions and proofs say how turns
//! lead from one standing to the next, and what is said of an answer for a client in a turn.
#![tactic(auto)]

mod clients;
mod crew;
mod found;
mod machine;
mod observing;
mod outcome;
mod planning;
mod relayer;
mod report;
mod scanning;
mod scripts;
mod settling;
mod tables;
mod taking;

pub use crew::Crew;
pub use found::{Found, Nothing};
pub use machine::Machine;
pub use observing::{Heard, hear_all};
pub use planning::{draft_of, drafts_of, plan_all, table_for, view_of};
pub use relayer::Relayer;
pub use report::{
    BatchReport, ClientReport, Outcome, PlanReport, PlannedReport, PricedUpdate, RefusedEvent,
    Report, SendingReport, SettlementReport, TurnReport,
};
pub use scanning::scan_all;
pub use scripts::read_scripts_are_scripts;
pub use settling::settle_turn;
pub use tables::no_tables;
