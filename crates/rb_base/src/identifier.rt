//! The text of an identifier, held inline.
ghost use Rattle.std.specs.Prelude.{◌≡◌, ◌↔◌, ◌≤◌, ◌-◌, ◌++◌, length, replicate, IsTrue, SomeIff};
ghost use Rattle.rb_base.specs.Identifier.{IsIdentifier, IsIdentifierByte};

use std::marker::Model;

/// The most characters of an identifier.
const MAX_LENGTH: usize = 64;

/// 1 to 64 characters out of letters, digits and `. _ + - # [ ] < >`.
#[derive(Clone, Copy, PartialEq, Eq, PartialOrd, Ord)]
pub struct Identifier {
    bytes: [u8; MAX_LENGTH],
    len: usize,
}

impl Model for Identifier {
    ghost use Rattle.std.specs.Prelude.{◌≡◌, ◌-◌, ◌≤◌, ◌++◌, ℕ, List, length, take, drop, replicate};
    ghost use Rattle.std.proofs.Common.{arith, length-take-le};
    ghost use Rattle.rb_base.specs.Identifier.{IsIdentifier, padded_back};

    ghost Value = { List ℕ };

    ghost view = { λ i. take i.len i.bytes };

    ghost invariant = { λ i. (i.len ≤ 64) × (length i.bytes ≡ 64) × (drop i.len i.bytes ≡ replicate (64 - i.len) 0) × IsIdentifier (take i.len i.bytes) };

    ghost inverse = { λ text. record { bytes = text ++ replicate (64 - length text) 0; len = length text } };

    ghost inverse_ok = { λ i h k. record { bytes = padded_back i.len i.bytes h.0 h.1 h.2 k; len = length-take-le i.len i.bytes (Prim.omega (arith, h.0, h.1)) k } };
}

impl Identifier {
    /// The identifier of this text, where it is well formed.
    pub fn new(text: &str) -> Option<Identifier>
        ensures { SomeIff result (IsIdentifier text.now) text.now }
    {
        let text = text.as_bytes();
        if text.is_empty()
            || text.len() > MAX_LENGTH
            || !text.iter().all(|byte| is_identifier_byte(*byte))
        {
            return None;
        }
        Some(Identifier {
            bytes: padded(text),
            len: text.len(),
        })
    }

    /// The characters, each of one byte.
    pub fn as_bytes(&self) -> &[u8]
        ensures text { result.now ≡ self.now }
        ensures form { IsIdentifier self.now }
    {
        &self.bytes[..self.len]
    }

    /// The text.
    pub fn as_str(&self) -> &str
        ensures text { result.now ≡ self.now }
        ensures form { IsIdentifier self.now }
    {
        str::from_utf8(self.as_bytes()).unwrap()
    }
}

fn is_identifier_byte(byte: u8) -> bool
    ensures { IsTrue result ↔ IsIdentifierByte byte }
{
    char::from(byte).is_ascii_alphanumeric() || b"._+-#[]<>".contains(&byte)
}

/// The text, with zeros after it.
fn padded(text: &[u8]) -> [u8; MAX_LENGTH]
    requires { length text.now ≤ 64 }
    ensures { result ≡ text.now ++ replicate (64 - length text.now) 0 }
{
    let mut bytes = [0; MAX_LENGTH];
    bytes[..text.len()].copy_from_slice(text);
    bytes
}
