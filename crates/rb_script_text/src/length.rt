//! Lengths of time as texts.
ghost use Rattle.std.specs.Prelude.{◌≡◌, ◌++◌, OnOk, string_bytes};
ghost use Rattle.rb_script_text.specs.Lengths.{length_text, two_units};

use std::alloc::AllocError;

/// The nanoseconds of a second.
pub const SECOND: u128 = 1_000_000_000;

/// The seconds of a minute.
const MINUTE: u128 = 60;

/// The seconds of an hour.
const HOUR: u128 = 3_600;

/// The seconds of a day.
const DAY: u128 = 86_400;

/// Adds a length of time in nanoseconds: by its two greatest units, or by the nanoseconds below a second.
#[tactic(auto, unfolding(crate::specs::Lengths::length_text))]
pub fn push_length(text: &mut String, length: u128) -> Result<(), AllocError>
    ensures { OnOk result (string_bytes text.new ≡ string_bytes text.old ++ length_text length) }
{
    let seconds = length / SECOND;
    if seconds >= DAY {
        push_two(text, seconds / DAY, "d", seconds % DAY / HOUR, "h")
    } else if seconds >= HOUR {
        push_two(text, seconds / HOUR, "h", seconds % HOUR / MINUTE, "min")
    } else if seconds >= MINUTE {
        push_two(text, seconds / MINUTE, "min", seconds % MINUTE, "s")
    } else if seconds >= 1 {
        write!(text, "{seconds} s")
    } else {
        write!(text, "{length} ns")
    }
}

/// Adds a number of one unit, and of a smaller one where that isn't 0.
fn push_two(
    text: &mut String,
    first: u128,
    unit: &str,
    second: u128,
    smaller: &str,
) -> Result<(), AllocError>
    ensures { OnOk result (string_bytes text.new ≡ string_bytes text.old ++ two_units first unit.now second smaller.now) }
{
    if second == 0 {
        write!(text, "{first} {unit}")
    } else {
        write!(text, "{first} {unit} {second} {smaller}")
    }
}
