//! What no contract of step tables, the planner and the certifier says, by their public calls: tables as they are made, by
//! one thread and by many, and added to in any order beside tables that are made anew; plans, and the verdicts of
//! certificates. They are tables of cases.
#![tactic(auto)]

#[cfg(test)]
mod cert;
#[cfg(test)]
mod gang;
#[cfg(test)]
mod graph;
#[cfg(test)]
mod kept;
#[cfg(test)]
mod plan;
#[cfg(test)]
mod same;
#[cfg(test)]
mod steps;
