//! Varints: those that are hashed, and those that are read.
ghost use Rattle.std.specs.Prelude.{◌≡◌, ◌≤◌, List, ℕ, ◌++◌, option_map};
ghost use Rattle.rb_ics23.specs.Varint.{counted, varint, varint_at, natural_at};

use sha2::Digest;

/// Adds a number to what is hashed, as a base-128 varint.
#[tactic(auto)]
fn hash_varint<D: Digest>(hasher: &mut D, number: u64)
    ensures { (m : List ℕ) → D.holds hasher.old m → D.holds hasher.new (m ++ varint number) }
{
    if number < 128 {
        hasher.update([number as u8].as_slice());
    } else {
        hasher.update([(number % 128 + 128) as u8].as_slice());
        hash_varint(hasher, number / 128);
    }
}

/// Adds bytes to what is hashed, behind their count.
#[tactic(auto, unfolding(crate::specs::Varint::counted))]
pub fn hash_counted<D: Digest>(hasher: &mut D, bytes: &[u8])
    ensures { (m : List ℕ) → D.holds hasher.old m → D.holds hasher.new (m ++ counted bytes.now) }
{
    hash_varint(hasher, bytes.len() as u64);
    hasher.update(bytes);
}

/// The number that begins here, in at most so many bytes, and what is behind it.
#[tactic(auto, unfolding(crate::specs::Varint::varint_at))]
pub fn varint_at(digits: u8, bytes: &[u8]) -> Option<(u64, &[u8])>
    ensures { option_map (λ x. (x.0, x.1.now)) result ≡ varint_at digits bytes.now }
{
    if digits == 0 {
        return None;
    }
    let [first, rest @ ..] = bytes else {
        return None;
    };
    if *first < 128 {
        return Some((u64::from(*first), rest));
    }
    let (high, rest) = varint_at(digits - 1, rest)?;
    if high >= 1 << 57 {
        return None;
    }
    Some((u64::from(*first) - 128 + 128 * high, rest))
}

/// The signed number that begins here, if it is 0 or more, and what is behind it.
#[tactic(auto, unfolding(crate::specs::Varint::natural_at))]
pub fn natural_at(bytes: &[u8]) -> Option<(u64, &[u8])>
    ensures { option_map (λ x. (x.0, x.1.now)) result ≡ natural_at bytes.now }
{
    let (number, rest) = varint_at(10, bytes)?;
    if number % 2 == 1 {
        return None;
    }
    Some((number / 2, rest))
}
