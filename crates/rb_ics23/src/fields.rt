//! Fields of protocol buffers, in the order of their tags; one that is empty is left out.
ghost use Rattle.std.specs.Prelude.{◌≡◌, option_map};
ghost use Rattle.rb_ics23.specs.Fields.{part, field, number};

use crate::varint::varint_at;

/// The bytes of a field, or none where another stands here, and what is behind it.
#[tactic(auto, unfolding(crate::specs::Fields::field))]
pub fn field(tag: u8, bytes: &[u8]) -> Option<(&[u8], &[u8])>
    ensures { option_map (λ x. (x.0.now, x.1.now)) result ≡ field tag bytes.now }
{
    let [first, behind @ ..] = bytes else {
        return Some((bytes, bytes));
    };
    if *first != tag {
        return Some((&bytes[..0], bytes));
    }
    part(behind)
}

/// Bytes behind their count, which is not 0, and what is behind them.
#[tactic(auto, unfolding(crate::specs::Fields::part))]
fn part(bytes: &[u8]) -> Option<(&[u8], &[u8])>
    ensures { option_map (λ x. (x.0.now, x.1.now)) result ≡ part bytes.now }
{
    let (count, rest) = varint_at(10, bytes)?;
    if count == 0 || count > rest.len() as u64 {
        return None;
    }
    Some(rest.split_at(count as usize))
}

/// The number of a field, or 0 where another stands here, and what is behind it.
#[tactic(auto, unfolding(crate::specs::Fields::number))]
pub fn number(tag: u8, bytes: &[u8]) -> Option<(u64, &[u8])>
    ensures { option_map (λ x. (x.0, x.1.now)) result ≡ number tag bytes.now }
{
    let [first, behind @ ..] = bytes else {
        return Some((0, bytes));
    };
    if *first != tag {
        return Some((0, bytes));
    }
    let (number, rest) = varint_at(10, behind)?;
    if number == 0 {
        return None;
    }
    Some((number, rest))
}
