//! Numbers that documents begin with.
ghost use Rattle.std.specs.Prelude.{◌≡◌, IfOk, string_bytes};
ghost use Rattle.std.specs.Option.{option_map};
ghost use Rattle.rb_follow.specs.Numbers.{number_text, is_digit_first, is_number_over, has_number, numbered};

use std::alloc::{AllocError, Global};

/// What a document begins with that has this number.
pub(crate) fn number_text(alloc: Global, number: u64) -> Result<String, AllocError>
    ensures { IfOk result (λ text. string_bytes text ≡ number_text number) }
{
    format!(in alloc; "turn = {number}")
}

fn is_digit_first(bytes: &[u8]) -> bool
    ensures { result ≡ is_digit_first bytes.now }
{
    match bytes.first() {
        Some(byte) => 48 <= *byte && *byte <= 57,
        None => false,
    }
}

/// Whether a number is over, behind which this stands.
fn is_number_over(bytes: &[u8]) -> bool
    ensures { result ≡ is_number_over bytes.now }
{
    match bytes.first() {
        Some(byte) => *byte == b'\n' || *byte == b'\r' || *byte == b' ',
        None => true,
    }
}

/// Whether a document begins with a number.
fn has_number(document: &[u8]) -> bool
    ensures { result ≡ has_number document.now }
{
    if !document.starts_with(b"turn = ".as_slice()) {
        return false;
    }
    is_digit_first(&document[7..])
}

/// Whether a document begins with a number, and what stands behind it, where that is the one that is due; none where
/// it begins with another.
pub(crate) fn numbered<'a>(due: &str, document: &'a [u8]) -> Option<(bool, &'a [u8])>
    ensures { option_map (λ (has, rest). (has, rest.now)) result ≡ numbered due.now document.now }
{
    if !has_number(document) {
        return Some((false, document));
    }
    let due = due.as_bytes();
    if !document.starts_with(due) {
        return None;
    }
    let rest = &document[due.len()..];
    if is_number_over(rest) {
        Some((true, rest))
    } else {
        None
    }
}
