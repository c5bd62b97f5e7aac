//! What a transaction pays.
ghost use Rattle.std.specs.Prelude.{◌≡◌, ◌<◌, ◌^◌, SomeIff};
ghost use Rattle.rb_import_setup.specs.Fees.{IsRatio, fee_amount, gas_limit, times_up};

use std::marker::Model;

/// A number from 0 on, as a numerator and a denominator below 2^63.
#[derive(Clone, Copy, Debug, PartialEq, Eq)]
pub struct Ratio {
    numerator: u64,
    denominator: u64,
}

impl Model for Ratio {
    ghost use Rattle.rb_import_setup.specs.Fees as fees;

    ghost Value = { fees.Ratio };

    ghost view = { λ r. record { numerator = r.numerator; denominator = r.denominator } };

    ghost invariant = { λ r. fees.IsRatio r.numerator r.denominator };

    ghost inverse = { λ r. record { numerator = r.numerator; denominator = r.denominator } };
}

impl Ratio {
    /// The greatest numerator and denominator.
    pub const MAX: u64 = i64::MAX as u64;

    /// `numerator / denominator`, if both are in range.
    pub fn new(numerator: u64, denominator: u64) -> Option<Ratio>
        ensures { SomeIff result (IsRatio numerator denominator) (record { numerator = numerator; denominator = denominator }) }
    {
        if numerator > Self::MAX || denominator == 0 || denominator > Self::MAX {
            return None;
        }
        Some(Ratio {
            numerator,
            denominator,
        })
    }

    /// So many times this number, rounded up.
    fn times_up(self, count: u64) -> u128
        ensures value { result ≡ times_up count self }
        ensures range { result < 2 ^ 127 }
    {
        let product = u128::from(count) * u128::from(self.numerator);
        let denominator = u128::from(self.denominator);
        (product + (denominator - 1)) / denominator
    }
}

/// The most gas that a transaction may take whose messages take so much: the gas times a factor, rounded up, below 2^64.
pub fn gas_limit(gas: u64, factor: Ratio) -> u64
    ensures { result ≡ gas_limit gas factor }
{
    u64::try_from(factor.times_up(gas)).unwrap_or(u64::MAX)
}

/// The coins that so much gas costs at a price of one, rounded up.
pub fn fee_amount(gas_limit: u64, price: Ratio) -> u128
    ensures { result ≡ fee_amount gas_limit price }
{
    price.times_up(gas_limit)
}
