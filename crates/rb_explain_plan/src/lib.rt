//! Why a list of updates is as it is. Each step is told with the step rule's answer over the whole window and
//! the powers that it goes by; beside a plan stand the direct step, the fewest updates and the list that a light
//! client's bisection makes; for an unreachable goal, the steps that were tried.
#![tactic(auto)]

mod bisecting;
mod charges;
mod fewest_updates;
mod plan;
mod power;
mod prices;
mod step;
mod steps;
mod unreachable;

pub use bisecting::bisection;
pub use charges::{Charges, charges_of};
pub use fewest_updates::fewest;
pub use plan::{PlanExplanation, explain_plan};
pub use power::Power;
pub use prices::{PricedList, priced};
pub use step::{StepExplanation, explain_step};
pub use unreachable::{UnreachableExplanation, explain_unreachable};
