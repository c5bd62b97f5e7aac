//! Words and members of JSON that reports and explanations have in common.
ghost use Rattle.std.specs.Prelude.{◌≡◌, ◌++◌, OnOk, string_bytes};
ghost use Rattle.rb_script_text.specs.Json.{json_text, more_text};
ghost use Rattle.rb_script_text.specs.Members.{format_of, goal_json, kind_name, next_members, refusal_members};

use crate::json::{push_name, push_number, push_text};
use crate::moment::push_moment;
use rb_base::Moment;
use rb_scan::Kind;
use rb_script_types::{Goal, Refusal, Version};
use std::alloc::AllocError;

/// The word for a message of this kind.
pub fn kind_name(kind: Kind) -> &'static str
    ensures { result.now ≡ kind_name kind }
{
    match kind {
        Kind::Receive => "recv",
        Kind::Acknowledge => "ack",
        Kind::Timeout => "timeout",
    }
}

/// The number of the format of JSON: that of versions 1 and 2 is 1.
pub fn format_of(version: Version) -> u64
    ensures { result ≡ format_of version }
{
    match version {
        Version::One | Version::Two => 1,
        Version::Three => 3,
        Version::Four => 4,
    }
}

/// Adds why something is refused, behind other members.
pub fn push_refusal(text: &mut String, refusal: &Refusal) -> Result<(), AllocError>
    ensures { OnOk result (string_bytes text.new ≡ string_bytes text.old ++ more_text (refusal_members refusal.now)) }
{
    push_number(text, true, "number", u64::from(refusal.number()))?;
    push_text(text, true, "name", refusal.name())
}

/// Adds a goal as an object.
pub fn push_goal(text: &mut String, goal: Goal) -> Result<(), AllocError>
    ensures { OnOk result (string_bytes text.new ≡ string_bytes text.old ++ json_text (goal_json goal)) }
{
    text.push_str("{")?;
    match goal {
        Goal::AtLeast(height) => push_number(text, false, "at_least", height.get())?,
        Goal::Exactly(height) => push_number(text, false, "exactly", height.get())?,
    }
    text.push_str("}")
}

/// Adds when a client has a goal next, from version 3 on.
pub fn push_next(
    text: &mut String,
    version: Version,
    next: Option<Moment>,
) -> Result<(), AllocError>
    ensures { OnOk result (string_bytes text.new ≡ string_bytes text.old ++ more_text (next_members version next)) }
{
    match (version, next) {
        (Version::Three | Version::Four, Some(moment)) => {
            push_name(text, true, "next")?;
            text.push_str("\"")?;
            push_moment(text, moment)?;
            text.push_str("\"")
        }
        _ => Ok(()),
    }
}
