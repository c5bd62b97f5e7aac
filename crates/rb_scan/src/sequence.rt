//! The numbers that the packets of a path are sent under.
ghost use Rattle.std.specs.Prelude.{◌≡◌, SomeIff};
ghost use Rattle.rb_scan.specs.Sequence.{IsSequence};

use std::fmt;
use std::marker::Model;

/// The sequence of a packet on its path (ICS 4): 1 to 2^63 - 1.
#[derive(Clone, Copy, Debug, PartialEq, Eq, PartialOrd, Ord)]
pub struct Sequence {
    number: u64,
}

impl Model for Sequence {
    ghost use Rattle.std.specs.Prelude.{ℕ};
    ghost use Rattle.rb_scan.specs.Sequence.{IsSequence};

    ghost Value = { ℕ };

    ghost view = { λ s. s.number };

    ghost invariant = { λ s. IsSequence s.number };

    ghost inverse = { λ n. record { number = n } };
}

impl Sequence {
    /// The greatest sequence.
    pub const MAX: u64 = i64::MAX as u64;

    /// The sequence of this number, where it is in range.
    pub fn new(number: u64) -> Option<Sequence>
        ensures { SomeIff result (IsSequence number) number }
    {
        if number == 0 || number > Self::MAX {
            return None;
        }
        Some(Sequence { number })
    }

    /// The number.
    pub fn get(self) -> u64
        ensures value { result ≡ self }
        ensures range { IsSequence self }
    {
        self.number
    }
}

impl fmt::Display for Sequence {
    ghost use Rattle.std.specs.Prelude.{Some};
    ghost use Rattle.std.specs.Fmt.{decimal};

    ghost output = { λ sequence. Some (decimal sequence) };

    fn fmt<W: fmt::Write>(&self, f: &mut fmt::Formatter<W>) -> fmt::Result {
        write!(f, "{}", self.number)
    }
}
