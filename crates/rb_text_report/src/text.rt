//! A line for each client.
ghost use Rattle.std.specs.Prelude.{◌≡◌, ◌++◌, IfOk, OnOk, string_bytes};
ghost use Rattle.std.specs.List.{flat_map};
ghost use Rattle.rb_text_report.specs.Lines.{distance_text, expiry_text, line_text, moment_part, state_text};

use crate::expiry::Expiry;
use crate::health::ClientHealth;
use rb_script_text::{push_instant, push_length};
use std::alloc::{AllocError, Global};

/// A line for each client: whether its newest consensus state is live, when it expires, and how long after the window, or
/// before the window's end, that is.
pub fn text_of(alloc: Global, clients: &[ClientHealth]) -> Result<String, AllocError>
    ensures { IfOk result (λ text. string_bytes text ≡ flat_map line_text clients.now) }
{
    let mut text = String::new(alloc);
    for health in clients {
        push_line(&mut text, health)?;
    }
    Ok(text)
}

#[tactic(auto, unfolding(crate::specs::Lines::line_text))]
fn push_line(text: &mut String, health: &ClientHealth) -> Result<(), AllocError>
    ensures { OnOk result (string_bytes text.new ≡ string_bytes text.old ++ line_text health.now) }
{
    let id = health.client.id.as_str();
    write!(text, "client {id} ")?;
    match health.expiry {
        Some(expiry) => push_expiry(text, expiry)?,
        None => text.push_str("nothing stored")?,
    }
    text.push_str("\n")
}

#[tactic(auto, unfolding(crate::specs::Lines::expiry_text))]
fn push_expiry(text: &mut String, expiry: Expiry) -> Result<(), AllocError>
    ensures { OnOk result (string_bytes text.new ≡ string_bytes text.old ++ expiry_text expiry) }
{
    let height = expiry.height;
    push_moment(text, &expiry)?;
    push_distance(text, &expiry)?;
    write!(text, ", height {height}")
}

/// Adds whether it is live, and when it expires.
#[tactic(auto, unfolding(crate::specs::Lines::moment_part))]
fn push_moment(text: &mut String, expiry: &Expiry) -> Result<(), AllocError>
    ensures { OnOk result (string_bytes text.new ≡ string_bytes text.old ++ moment_part expiry.now) }
{
    push_state(text, expiry)?;
    push_instant(text, expiry.expires)?;
    text.push_str(", ")
}

fn push_state(text: &mut String, expiry: &Expiry) -> Result<(), AllocError>
    ensures { OnOk result (string_bytes text.new ≡ string_bytes text.old ++ state_text expiry.now) }
{
    if expiry.is_live() {
        text.push_str("live, expires ")
    } else {
        text.push_str("expired, at ")
    }
}

/// Adds how far the moment of an expiry is from the window's end.
#[tactic(auto, unfolding(crate::specs::Lines::distance_text))]
fn push_distance(text: &mut String, expiry: &Expiry) -> Result<(), AllocError>
    ensures { OnOk result (string_bytes text.new ≡ string_bytes text.old ++ distance_text expiry.now) }
{
    if expiry.expires > expiry.until {
        push_length(text, expiry.expires - expiry.until)?;
        text.push_str(" after the window")
    } else {
        push_length(text, expiry.until - expiry.expires)?;
        text.push_str(" before the window's end")
    }
}
