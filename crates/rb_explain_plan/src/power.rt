//! Powers, and what they have to be more than.
ghost use Rattle.std.specs.Prelude.{◌<◌, ◌+◌, ◌-◌, ◌^◌};
ghost use Rattle.rb_explain_plan.specs.Halves.{IsHalved};
ghost use Rattle.rb_explain_plan.specs.Power.{IsThreshold, IsPower};

use rb_base::Fraction;

/// The power that signed, that of the whole set, and the threshold: the rule asks for more than it.
#[derive(Clone, Copy, PartialEq, Eq)]
pub struct Power {
    pub signed: u64,
    pub total: u64,
    pub threshold: u64,
}

/// Halves the powers between one that isn't more than the fraction of the total and one that is, or is above the total.
#[tactic(auto, using(crate::proofs::Thresholds::halved_down, crate::proofs::Thresholds::halved_up))]
fn halve(fraction: Fraction, total: u64, within: u64, beyond: u64) -> (u64, u64)
    requires halved { IsHalved total within beyond fraction }
    requires apart { within + 1 < beyond }
    ensures halved { IsHalved total result.0 result.1 fraction }
    ensures nearer { result.1 - result.0 < beyond - within }
{
    let middle = within + (beyond - within) / 2;
    if fraction.is_exceeded_by(middle, total) {
        (within, middle)
    } else {
        (middle, beyond)
    }
}

/// The greatest power that isn't more than the fraction of the total.
#[tactic(auto, using(crate::proofs::Thresholds::halved_first, crate::proofs::Thresholds::halved_end))]
fn threshold(fraction: Fraction, total: u64) -> u64
    requires { total < 2 ^ 60 }
    ensures { IsThreshold total fraction result }
{
    let mut within = 0;
    let mut beyond = total + 1;
    'halves: while beyond - within > 1 {
        let (lower, upper) = halve(fraction, total, within, beyond);
        within = lower;
        beyond = upper;
    }
    within
}

/// So much signed power of so much, with what the fraction asks for.
pub(crate) fn power_of(fraction: Fraction, signed: u64, total: u64) -> Power
    requires { total < 2 ^ 60 }
    ensures { IsPower signed total fraction result }
{
    Power {
        signed,
        total,
        threshold: threshold(fraction, total),
    }
}
