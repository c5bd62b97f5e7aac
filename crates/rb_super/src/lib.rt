//! The driver: supervisors lead a relayer through the turns of a script, alone or with workers. Runs of
//! whole scripts, and the judgement of answers that others made (`judge`). And laws of a script's turns over
//! definitions alone: a script has one report and an answer one verdict; whoever goes through a turn by the
//! supervisor's rule, alone or with workers in any schedule, gives that report (`laws`); scripts that were read are
//! ones that these laws speak of (`scripts`); what waits goes in time and in few updates (`waiting`); what may be
//! forgotten of how things stand changes no report, as long as no event speaks of what was forgotten (`forgetting`).
#![tactic(auto)]

pub mod forgetting;
mod found;
mod head;
mod judging;
pub mod laws;
mod orders;
mod parallel;
mod run;
pub mod scripts;
mod supervisor;
pub mod waiting;

pub use judging::judge;
pub use parallel::ParallelSupervisor;
pub use run::{run_by_team, run_by_workers, run_script, run_to_end};
pub use supervisor::Supervisor;
