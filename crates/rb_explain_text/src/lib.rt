//! Explanations as text, for a person, as JSON, for a program, and as a picture in SVG.
#![tactic(auto)]

mod arcs;
mod bands;
mod columns;
mod json;
mod moments;
mod packets;
mod picture;
mod pieces;
mod refusals;
mod steps;
mod svg;
mod text;

pub use json::{put_json, put_json_beginning, put_json_end};
pub use moments::push_time;
pub use packets::message_lines;
pub use picture::picture_of;
pub use pieces::put;
pub use steps::{answer_name, push_count};
pub use text::{push_client, push_heading, put_text};
