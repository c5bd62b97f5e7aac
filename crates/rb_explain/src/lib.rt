//! Explanations: what came of each client in a turn, and why: what it goes by, and why its plan is as it is, its
//! goal unreachable, or no goal there.
#![tactic(auto)]

mod client;
mod heights;
mod idle;
mod reach;
mod ready;
mod refresh;
mod refused;
mod run;
mod seeing;
mod stays;
mod turn;
mod waiting;
mod wanted;

pub use client::{ClientExplanation, StoredHeight, Why};
pub use heights::KnownHeight;
pub use idle::{IdleReason, idle_reason};
pub use rb_explain_plan::{
    Charges, PlanExplanation, Power, PricedList, StepExplanation, UnreachableExplanation,
};
pub use refresh::Refresh;
pub use refused::Subject;
pub use run::{Listener, explain_script};
pub use stays::Stay;
pub use turn::TurnExplanation;
pub use waiting::WaitingMessage;
pub use wanted::{Detail, Wanted};
