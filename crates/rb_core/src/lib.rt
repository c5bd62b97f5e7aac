//! The relayer state machine: `Core`, which judges events, takes them in, and shows clients and paths; and
//! `Follower`, which replays the events that a core has judged (`Told`). A follower doesn't compare again
//! what a scan or a plan was made for, and doesn't judge again what was received, written or cleared; it
//! judges the rest, since taking it in asks for it.
//!
//! A core begins with nothing, with what is left when it begins anew, or with a `Snapshot` that fits.
//!
//! A core is the fold of its log: its state is what the definitions of `rb_core_model` make of the events
//! that it has taken in, from which its views, replies and refusals follow.
#![tactic(auto)]

mod client_views;
mod copies;
mod fitting;
mod follower;
mod following;
mod judging;
mod machine;
mod path_views;
mod refusing;
mod snapshot;
mod state;
mod taking;
mod told;

pub use follower::Follower;
pub use machine::Core;
pub use refusing::MAX_EVENTS;
pub use snapshot::Snapshot;
pub use told::Told;
