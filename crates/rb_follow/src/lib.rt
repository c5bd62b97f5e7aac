//! Turns as they come: a `TurnFollower` reads each from a document of its own, leads a relayer through it and
//! answers by its report, or by the fault of the document, which then changes nothing. From version 3 on it
//! forgets what no plan needs any more (`tidying`). `follow_over` goes over an input to its end: its documents
//! end by lines `---`.
#![tactic(auto)]

mod answer;
mod driver;
mod error;
mod follower;
mod following;
mod gathering;
mod journal;
mod labels;
pub mod laws;
mod numbers;
mod setup;
mod tidying;
mod told;
mod turns;

pub use answer::{Answer, TurnRefusal};
pub use driver::Driver;
pub use error::FollowError;
pub use follower::TurnFollower;
pub use following::{Watcher, follow_on, follow_over};
pub use gathering::Gathering;
pub use journal::{Journal, NoJournal};
pub use setup::check_setup;
pub use told::{Form, greeting, json_of_fault};
