//! What updates cost.
ghost use Rattle.std.specs.Prelude.{◌≡◌, ◌<◌, ◌*◌, ◌^◌, ◌/◌};
ghost use Rattle.rb_import_setup.specs.HermesFees.{IsLeastUnit, fees_of, unit_of};

/// The gas of an update, of each commit vote, and of each validator of the two sets: a guess.
pub(crate) const GAS: (u64, u64, u64) = (80_000, 3_000, 200);

/// The gas of a transaction by itself: a guess.
pub(crate) const TRANSACTION_GAS: u64 = 20_000;

/// The greatest number of a fee.
const MAX_FEE: u128 = 1_000_000_000;

/// In the power of ten of this exponent no amount is too great.
const GREATEST_EXPONENT: u32 = 24;

/// The fees of an update by a price: each gas times the price, in the least power of ten that makes them no number that is too
/// great. They are the gas where there is no price.
pub(crate) fn fees_of(price: u64) -> (u64, u64, u64)
    ensures { result ≡ fees_of price }
{
    if price == 0 {
        return GAS;
    }
    let (update, vote, validator) = GAS;
    let unit = unit_of(u128::from(update) * u128::from(price));
    (
        fee_in(unit, update, price),
        fee_in(unit, vote, price),
        fee_in(unit, validator, price),
    )
}

/// The least power of ten in which an amount isn't too great.
#[tactic(auto, unfolding(crate::specs::HermesFees::unit_of))]
fn unit_of(amount: u128) -> u128
    requires { amount < 10 ^ 33 }
    ensures value { result ≡ unit_of amount }
    ensures least { IsLeastUnit amount result }
{
    let mut unit: u128 = 1;
    for _exponent in 0..GREATEST_EXPONENT {
        if amount / unit <= MAX_FEE {
            return unit;
        }
        unit *= 10;
    }
    unit
}

/// The fee of so much gas in a unit.
fn fee_in(unit: u128, gas: u64, price: u64) -> u64
    requires unit { 0 < unit }
    requires fits { gas * price / unit < 2 ^ 64 }
    ensures { result ≡ gas * price / unit }
{
    (u128::from(gas) * u128::from(price) / unit) as u64
}
