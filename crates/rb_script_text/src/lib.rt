//! The text of a script: one that the reader (`rb_script_read`) reads as that script. And what other texts are made of: moments
//! (RFC 3339, in UTC), lengths of time, identifiers, and the parts of JSON.
#![tactic(auto)]

mod events;
mod json;
mod length;
mod members;
mod moment;
mod names;
mod same;
mod same_config;
mod same_event;
mod tables;
mod text;
mod turns;

pub use json::{
    push_boolean, push_comma, push_escaped, push_name, push_number, push_number_or_null,
    push_string, push_text,
};
pub use length::{SECOND, push_length};
pub use members::{format_of, kind_name, push_goal, push_next, push_refusal};
pub use moment::{clock_at, moments_are_read, push_instant, push_moment};
pub use names::{chain_name, client_name, path_name};
pub use text::{TextError, text_of_script};
