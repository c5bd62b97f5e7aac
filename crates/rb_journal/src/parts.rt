//! The parts of a journal.
ghost use Rattle.std.specs.Prelude.{◌≡◌, ℕ, ◌++◌, List, length, take, string_bytes, IfOk, MatchOption, true};
ghost use Rattle.std.specs.Str.{bytes_eq};
ghost use Rattle.rb_journal.specs.Parts.{heading, closing, closing_length, digest_holds, part_end, state_part, IsWhole};

use sha2::{Digest, Sha256};
use std::alloc::{AllocError, Global};

/// The line that ends each part.
pub(crate) const MARK: &str = "# ---\n";

/// The line that a journal begins with.
pub(crate) fn heading(digests: bool) -> &'static str
    ensures { result.now ≡ heading digests }
{
    if digests {
        "# ibcplan journal 2\n"
    } else {
        "# ibcplan journal\n"
    }
}

fn digest_lines(alloc: Global, bytes: &[u8]) -> Result<String, AllocError>
    ensures { IfOk result (λ text. string_bytes text ≡ closing true bytes.now) }
{
    let digest = Sha256::digest(bytes);
    let digits = hex::encode(alloc, digest.as_slice())?;
    format!(in alloc; "# {digits}\n# ---\n")
}

/// What ends a part, after these bytes of it.
pub(crate) fn closing(alloc: Global, digests: bool, bytes: &[u8]) -> Result<String, AllocError>
    ensures { IfOk result (λ text. string_bytes text ≡ closing digests bytes.now) }
{
    if digests {
        digest_lines(alloc, bytes)
    } else {
        String::from_str(alloc, MARK)
    }
}

/// How many bytes end a part.
pub(crate) fn closing_length(digests: bool) -> usize
    ensures { result ≡ closing_length digests }
{
    if digests { 73 } else { 6 }
}

/// Whether the digest that a part ends with is that of the bytes before.
pub(crate) fn digest_holds(alloc: Global, part: &[u8]) -> Result<bool, AllocError>
    ensures { IfOk result (λ holds. holds ≡ digest_holds part.now) }
{
    let (bytes, end) = part.split_at(part.len().saturating_sub(closing_length(true)));
    let wanted = closing(alloc, true, bytes)?;
    Ok(end == wanted.as_bytes())
}

/// How many bytes the first part has, with the line that ends it, if it is whole.
pub(crate) fn part_end(bytes: &[u8]) -> Option<usize>
    ensures { result ≡ part_end bytes.now }
{
    let mut line_start = 0;
    for (place, byte) in bytes.iter().enumerate() {
        if *byte == b'\n' {
            if &bytes[line_start..=place] == MARK.as_bytes() {
                return Some(place + 1);
            }
            line_start = place + 1;
        }
    }
    None
}

/// The first part of a journal, with the line that ends it, and what stands behind it, if the part is whole.
pub fn split_part(bytes: &[u8]) -> Option<(&[u8], &[u8])>
    ensures { MatchOption result (part_end bytes.now ≡ None) (λ (part, rest). (bytes.now ≡ part.now ++ rest.now) × IsWhole part.now) }
{
    let end = part_end(bytes)?;
    Some(bytes.split_at(end))
}

/// Whether a part begins as the first one of a journal does, with digests or without.
pub fn is_opening(digests: bool, part: &[u8]) -> bool
    ensures { result ≡ bytes_eq (heading digests) (take (length (heading digests)) part.now) }
{
    part.starts_with(heading(digests).as_bytes())
}

/// What the part of a state begins with, and the line behind the state.
const STATE: &str = "# ibcplan journal 3\nstate = '''\n";

const STATE_END: &str = "'''\n";

/// The part that a journal which was begun anew has before its setup: the state that it goes on from.
pub fn state_part(alloc: Global, state: &str) -> Result<String, AllocError>
    ensures { IfOk result (λ part. string_bytes part ≡ state_part state.now) }
{
    let mut part = String::new(alloc);
    part.push_str(STATE)?;
    part.push_str(state)?;
    part.push_str(STATE_END)?;
    let end = closing(alloc, true, part.as_bytes())?;
    part.push_str(end.as_str())?;
    Ok(part)
}

/// The state of such a part; None of another.
pub fn state_in(part: &[u8]) -> Option<&[u8]>
    ensures { MatchOption result ((state : List ℕ) → part.now ≡ state_part state → ⊥) (λ state. (other : List ℕ) → part.now ≡ state_part other → state.now ≡ other) }
{
    let rest = part.strip_prefix(STATE.as_bytes())?;
    let end = rest
        .len()
        .saturating_sub(closing_length(true) + STATE_END.len());
    Some(&rest[..end])
}
