//! Heights, moments and lengths of time: numbers in their ranges.
ghost use Rattle.std.specs.Prelude.{◌≡◌, SomeIff};
ghost use Rattle.rb_base.specs.Amount.{IsHeight, IsMoment, IsPeriod};

use std::fmt;
use std::marker::Model;

/// The height of a block: 1 to 2^63 - 1.
#[derive(Clone, Copy, Debug, PartialEq, Eq, PartialOrd, Ord)]
pub struct Height {
    number: u64,
}

impl Model for Height {
    ghost use Rattle.std.specs.Prelude.{ℕ};
    ghost use Rattle.rb_base.specs.Amount.{IsHeight};

    ghost Value = { ℕ };

    ghost view = { λ h. h.number };

    ghost invariant = { λ h. IsHeight h.number };

    ghost inverse = { λ n. record { number = n } };
}

impl Height {
    /// The greatest height.
    pub const MAX: u64 = i64::MAX as u64;

    /// The height of this number, where it is in range.
    pub fn new(number: u64) -> Option<Height>
        ensures { SomeIff result (IsHeight number) number }
    {
        if number == 0 || number > Self::MAX {
            return None;
        }
        Some(Height { number })
    }

    /// The number.
    pub fn get(self) -> u64
        ensures value { result ≡ self }
        ensures range { IsHeight self }
    {
        self.number
    }
}

impl fmt::Display for Height {
    ghost use Rattle.std.specs.Prelude.{Some};
    ghost use Rattle.std.specs.Fmt.{decimal};

    ghost output = { λ height. Some (decimal height) };

    fn fmt<W: fmt::Write>(&self, f: &mut fmt::Formatter<W>) -> fmt::Result {
        write!(f, "{}", self.number)
    }
}

/// A moment: nanoseconds since 1970-01-01T00:00:00Z, 0 to 10^20.
#[derive(Clone, Copy, Debug, PartialEq, Eq, PartialOrd, Ord)]
pub struct Moment {
    nanoseconds: u128,
}

impl Model for Moment {
    ghost use Rattle.std.specs.Prelude.{ℕ};
    ghost use Rattle.rb_base.specs.Amount.{IsMoment};

    ghost Value = { ℕ };

    ghost view = { λ m. m.nanoseconds };

    ghost invariant = { λ m. IsMoment m.nanoseconds };

    ghost inverse = { λ n. record { nanoseconds = n } };
}

impl Moment {
    /// The nanoseconds of the last moment.
    pub const MAX: u128 = 100_000_000_000_000_000_000;

    /// The moment so many nanoseconds after 1970-01-01T00:00:00Z, where it is in range.
    pub fn new(nanoseconds: u128) -> Option<Moment>
        ensures { SomeIff result (IsMoment nanoseconds) nanoseconds }
    {
        if nanoseconds > Self::MAX {
            return None;
        }
        Some(Moment { nanoseconds })
    }

    /// Nanoseconds since 1970-01-01T00:00:00Z.
    pub fn nanoseconds(self) -> u128
        ensures value { result ≡ self }
        ensures range { IsMoment self }
    {
        self.nanoseconds
    }
}

/// A length of time: 1 to 2^63 - 1 nanoseconds.
#[derive(Clone, Copy, PartialEq, Eq, PartialOrd, Ord)]
pub struct Period {
    nanoseconds: u64,
}

impl Model for Period {
    ghost use Rattle.std.specs.Prelude.{ℕ};
    ghost use Rattle.rb_base.specs.Amount.{IsPeriod};

    ghost Value = { ℕ };

    ghost view = { λ p. p.nanoseconds };

    ghost invariant = { λ p. IsPeriod p.nanoseconds };

    ghost inverse = { λ n. record { nanoseconds = n } };
}

impl Period {
    /// The nanoseconds of the longest period.
    pub const MAX: u64 = i64::MAX as u64;

    /// The period of so many nanoseconds, where it is in range.
    pub fn new(nanoseconds: u64) -> Option<Period>
        ensures { SomeIff result (IsPeriod nanoseconds) nanoseconds }
    {
        if nanoseconds == 0 || nanoseconds > Self::MAX {
            return None;
        }
        Some(Period { nanoseconds })
    }

    /// The length in nanoseconds.
    pub fn nanoseconds(self) -> u64
        ensures value { result ≡ self }
        ensures range { IsPeriod self }
    {
        self.nanoseconds
    }
}
