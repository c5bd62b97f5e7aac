//! The identifiers of ports and channels (ICS 24).
ghost use Rattle.std.specs.Prelude.{◌≡◌, ◌≤◌, ◌-◌, ◌++◌, length, replicate, IsTrue, ◌↔◌, SomeIff};
ghost use Rattle.rb_base.specs.Identifier.{IsIdentifierByte};
ghost use Rattle.rb_script_types.specs.EndIds.{IsEndId};

use std::fmt;
use std::marker::Model;

/// The most characters of the identifier of a port or a channel.
const MAX_LENGTH: usize = 128;

/// The identifier of a port, or of a channel: 1 to 128 characters out of letters, digits and
/// `. _ + - # [ ] < >` (ICS 24 for the characters and for the length of a port's; own choice of one length for both).
#[derive(Clone, Copy, PartialEq, Eq)]
pub struct EndId {
    bytes: [u8; MAX_LENGTH],
    len: usize,
}

impl Model for EndId {
    ghost use Rattle.std.specs.Prelude.{◌≡◌, ◌-◌, ◌≤◌, ◌++◌, ℕ, List, length, take, drop, replicate};
    ghost use Rattle.std.proofs.Common.{arith, length-take-le};
    ghost use Rattle.rb_script_types.specs.EndIds.{IsEndId, padded_back};

    ghost Value = { List ℕ };

    ghost view = { λ i. take i.len i.bytes };

    ghost invariant = { λ i. (i.len ≤ 128) × (length i.bytes ≡ 128) × (drop i.len i.bytes ≡ replicate (128 - i.len) 0) × IsEndId (take i.len i.bytes) };

    ghost inverse = { λ text. record { bytes = text ++ replicate (128 - length text) 0; len = length text } };

    ghost inverse_ok = { λ i h k. record { bytes = padded_back i.len i.bytes h.0 h.1 h.2 k; len = length-take-le i.len i.bytes (Prim.omega (arith, h.0, h.1)) k } };
}

impl EndId {
    /// The identifier of this text, where it is well formed.
    pub fn new(text: &str) -> Option<EndId>
        ensures { SomeIff result (IsEndId text.now) text.now }
    {
        let text = text.as_bytes();
        if text.is_empty()
            || text.len() > MAX_LENGTH
            || !text.iter().all(|byte| is_identifier_byte(*byte))
        {
            return None;
        }
        Some(EndId {
            bytes: padded(text),
            len: text.len(),
        })
    }

    /// The characters, each of one byte.
    fn as_bytes(&self) -> &[u8]
        ensures text { result.now ≡ self.now }
        ensures form { IsEndId self.now }
    {
        &self.bytes[..self.len]
    }

    /// The text.
    pub fn as_str(&self) -> &str
        ensures text { result.now ≡ self.now }
        ensures form { IsEndId self.now }
    {
        str::from_utf8(self.as_bytes()).unwrap()
    }
}

fn is_identifier_byte(byte: u8) -> bool
    ensures { IsTrue result ↔ IsIdentifierByte byte }
{
    char::from(byte).is_ascii_alphanumeric() || b"._+-#[]<>".contains(&byte)
}

/// The text, with zeros after it.
fn padded(text: &[u8]) -> [u8; MAX_LENGTH]
    requires { length text.now ≤ 128 }
    ensures { result ≡ text.now ++ replicate (128 - length text.now) 0 }
{
    let mut bytes = [0; MAX_LENGTH];
    bytes[..text.len()].copy_from_slice(text);
    bytes
}

impl fmt::Display for EndId {
    ghost use Rattle.std.specs.Prelude.{Some};

    ghost output = { λ id. Some id };

    fn fmt<W: fmt::Write>(&self, f: &mut fmt::Formatter<W>) -> fmt::Result {
        write!(f, "{}", self.as_str())
    }
}
