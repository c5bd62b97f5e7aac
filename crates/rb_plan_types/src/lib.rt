//! Lists of client updates: what a planner answers, what a list costs, the labels that prove an answer,
//! and their laws. And when a light client is refreshed, and to which time: so that it doesn't expire where one turn
//! could have kept it, and seldom.
#![tactic(auto)]

mod answer;
mod batch;
mod cost;
mod labelling;
pub mod laws;
mod refresh;
pub mod refresh_laws;
mod terms;
mod update;

pub use answer::Answer;
pub use batch::{gas_of, proof_height};
pub use cost::Cost;
pub use labelling::{Label, Labelling, are_labels, top_reachable};
pub use refresh::{needed_time, refresh_moment};
pub use terms::Terms;
pub use update::Update;
