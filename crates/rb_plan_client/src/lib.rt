//! The parts of the whole plan of one client: its goal, the packet messages that go with updates, the plan
//! and the draft of it, when the client has a goal next, and all that such a plan is made from
//! (`JobView`). `rb_plan` puts them together.
#![tactic(auto)]

mod batch;
mod drafts;
mod goal;
mod job;
pub mod laws;
mod leaving;
mod message;
mod next;
mod planned;
mod task;
mod waiting;

pub use batch::{Batch, Sending};
pub use drafts::{Draft, copy_answer};
pub use goal::{goal_of, is_apart, newer_height};
pub use job::{JobView, NextPlan, same_config, same_heights};
pub use leaving::{bars_of, ready_messages, too_big_messages};
pub use message::Message;
pub use next::next_once_taken;
pub use planned::{Plan, Planned};
pub use task::{PathTask, same_messages};
pub use waiting::{first_press, press_moment, sending_reach};
