//! The planner: it finds the exact labelling, and the list of client updates that meets a goal and comes first. And planning for
//! one client by the table of its book's steps: its goal, the least list of updates that meets it, the packet messages that
//! follow and the batch of them (`answer`, `draft`).
#![tactic(auto)]

mod answering;
mod drafting;
mod labels;
mod offers;
mod planner;
mod planning;

pub use answering::answer;
pub use drafting::draft;
pub use labels::label;
pub use planning::{plan, plan_by};
