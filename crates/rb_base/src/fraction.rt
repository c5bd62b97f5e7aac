//! Trust levels.
ghost use Rattle.std.specs.Prelude.{◌≡◌, ◌↔◌, ◌+◌, ◌*◌, ◌/◌, ◌-◌, ◌^◌, ◌<◌, ◌≤◌, IsErrOf, IsTrue};
ghost use Rattle.std.specs.Result.{OkIff};
ghost use Rattle.rb_base.specs.Fraction.{IsTrustLevel, Exceeds, one_third, two_thirds};

use crate::error::BaseError;
use std::marker::Model;

/// A fraction of a voting power, from a third to one: a client's trust level (CometBFT light
/// client).
#[derive(Clone, Copy, PartialEq, Eq)]
pub struct Fraction {
    numerator: u64,
    denominator: u64,
}

impl Model for Fraction {
    ghost use Rattle.rb_base.specs.Fraction.{Ratio, IsTrustLevel};

    ghost Value = { Ratio };

    ghost view = { λ f. record { numerator = f.numerator; denominator = f.denominator } };

    ghost invariant = { λ f. IsTrustLevel f.numerator f.denominator };

    ghost inverse = { λ r. record { numerator = r.numerator; denominator = r.denominator } };
}

impl Fraction {
    /// `numerator / denominator`; `BadFraction` where it isn't from a third to one.
    pub fn new(numerator: u64, denominator: u64) -> Result<Fraction, BaseError>
        ensures ok { OkIff result (IsTrustLevel numerator denominator)
            (record { numerator = numerator; denominator = denominator }) }
        ensures bad_fraction { IsErrOf result BaseError.BadFraction ↔ (¬ IsTrustLevel numerator denominator) }
    {
        let is_level = denominator > 0
            && 3 * u128::from(numerator) >= u128::from(denominator)
            && numerator <= denominator;
        if !is_level {
            return Err(BaseError::BadFraction);
        }
        Ok(Fraction {
            numerator,
            denominator,
        })
    }

    /// One third, the trust level of a client that names none.
    pub fn one_third() -> Fraction
        ensures { result ≡ one_third }
    {
        Fraction {
            numerator: 1,
            denominator: 3,
        }
    }

    /// Two thirds, which a header's own set has to exceed.
    pub fn two_thirds() -> Fraction
        ensures { result ≡ two_thirds }
    {
        Fraction {
            numerator: 2,
            denominator: 3,
        }
    }

    /// The number above the line.
    pub fn numerator(self) -> u64
        ensures { result ≡ self.numerator }
    {
        self.numerator
    }

    /// The number below the line, which isn't 0.
    pub fn denominator(self) -> u64
        ensures value { result ≡ self.denominator }
        ensures positive { 0 < result }
    {
        self.denominator
    }

    /// Whether `power` is more than this fraction of `total`. Equality is not more.
    pub fn is_exceeded_by(self, power: u64, total: u64) -> bool
        ensures { IsTrue result ↔ Exceeds power total self }
    {
        u128::from(power) * u128::from(self.denominator)
            > u128::from(total) * u128::from(self.numerator)
    }

    /// The least power that is more than this fraction of `total`.
    pub fn least_above(self, total: u64) -> u64
        requires { total < 2 ^ 64 - 1 }
        ensures value { result ≡ total * self.numerator / self.denominator + 1 }
        ensures bound { result ≤ total + 1 }
    {
        let part = u128::from(total) * u128::from(self.numerator) / u128::from(self.denominator);
        part as u64 + 1
    }
}
