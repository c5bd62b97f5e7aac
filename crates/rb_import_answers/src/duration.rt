//! Durations, as protocol buffers stand in JSON: seconds with up to nine digits of a fraction.
ghost use Rattle.std.specs.Prelude.{◌≡◌, option_map};
ghost use Rattle.std.specs.List.{list_all};
ghost use Rattle.rb_import_answers.specs.Durations.{nanoseconds_of, before_s, seconds_of, whole, part, is_decimal, unit_of};

use rb_import_json::number_of;

/// Nanoseconds of a second.
const SECOND: u64 = 1_000_000_000;

/// The nanoseconds of a duration such as `806400s` or `0.5s`, where they are below 2^64.
#[tactic(auto, unfolding(crate::specs::Durations::nanoseconds_of))]
pub fn nanoseconds_of(text: &str) -> Option<u64>
    ensures { result ≡ nanoseconds_of text.now }
{
    seconds_of(before_s(text)?)
}

/// The text before a last `s`.
fn before_s(text: &str) -> Option<&str>
    ensures { option_map (λ t. t.now) result ≡ before_s text.now }
{
    text.strip_suffix('s')
}

/// The nanoseconds of decimal seconds.
#[tactic(auto, unfolding(crate::specs::Durations::seconds_of))]
fn seconds_of(number: &str) -> Option<u64>
    ensures { result ≡ seconds_of number.now }
{
    match number.split_once('.') {
        Some((seconds, fraction)) => whole(seconds)?.checked_add(part(fraction)?),
        None => whole(number),
    }
}

/// The nanoseconds of whole seconds.
#[tactic(auto, unfolding(crate::specs::Durations::whole))]
fn whole(digits: &str) -> Option<u64>
    ensures { result ≡ whole digits.now }
{
    number_of(digits)?.checked_mul(SECOND)
}

/// The nanoseconds of the digits of a fraction.
#[tactic(auto, unfolding(crate::specs::Durations::part))]
fn part(digits: &str) -> Option<u64>
    ensures { result ≡ part digits.now }
{
    if digits.is_empty() {
        return Some(0);
    }
    if !are_decimal(digits.as_bytes()) {
        return None;
    }
    number_of(digits)?.checked_mul(unit_of(digits.len())?)
}

/// Whether each byte is a decimal digit.
fn are_decimal(digits: &[u8]) -> bool
    ensures { result ≡ list_all is_decimal digits.now }
{
    for digit in digits {
        if *digit < b'0' || b'9' < *digit {
            return false;
        }
    }
    true
}

/// The nanoseconds of one in the last of so many places behind a point.
#[tactic(auto, unfolding(crate::specs::Durations::unit_of))]
fn unit_of(places: usize) -> Option<u64>
    ensures { result ≡ unit_of places }
{
    match places {
        0 => Some(1_000_000_000),
        1 => Some(100_000_000),
        2 => Some(10_000_000),
        3 => Some(1_000_000),
        4 => Some(100_000),
        5 => Some(10_000),
        6 => Some(1_000),
        7 => Some(100),
        8 => Some(10),
        9 => Some(1),
        _ => None,
    }
}
