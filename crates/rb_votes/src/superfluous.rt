//! Votes without the superfluous ones.
ghost use Rattle.std.specs.Prelude.{◌≡◌, ◌≤◌, ◌↔◌, [], IsTrue, length, sum_by, take};
ghost use Rattle.rb_votes.specs.Power.{power_of};
ghost use Rattle.rb_votes.specs.Votes.{thinned};

use crate::voter::{Needed, Power, Voter};
use crate::voters::Voters;
use std::alloc::Allocator;

/// Takes out, from the last back, each vote without which the others pass. They have these powers together.
pub(crate) fn thin<A: Allocator>(
    votes: &mut Vec<Voter, A>,
    own_total: u128,
    trusted_total: u128,
    needed: Needed,
)
    requires own { own_total ≡ sum_by (λ v. v.own) votes.old.items }
    requires trusted { trusted_total ≡ sum_by (λ v. v.trusted) votes.old.items }
    ensures { votes.new.items ≡ thinned needed [] votes.old.items }
{
    let mut own = own_total;
    let mut trusted = trusted_total;
    for i in (0..votes.len()).rev() {
        let voter = votes[i];
        let own_left = own - u128::from(voter.own);
        let trusted_left = trusted - u128::from(voter.trusted);
        if is_enough(needed, own_left, trusted_left) {
            votes.remove(i);
            own = own_left;
            trusted = trusted_left;
        }
    }
}

/// How many of the first so many are left once each went, from the last back, without which the others pass.
pub(crate) fn thinned_len(voters: &Voters<'_>, count: usize, needed: Needed) -> usize
    requires { count ≤ length voters.now.list }
    ensures count { result ≡ length (thinned needed [] (take count voters.now.list)) }
    ensures within { result ≤ count }
{
    let mut own = total(voters, count, Power::Own);
    let mut trusted = total(voters, count, Power::Trusted);
    let mut left = count;
    for i in (0..count).rev() {
        let voter = voters.get(i);
        let own_left = own - u128::from(voter.own);
        let trusted_left = trusted - u128::from(voter.trusted);
        if is_enough(needed, own_left, trusted_left) {
            left -= 1;
            own = own_left;
            trusted = trusted_left;
        }
    }
    left
}

/// Whether so much power of the two sets passes both tests.
fn is_enough(needed: Needed, own: u128, trusted: u128) -> bool
    ensures { IsTrue result ↔ ((needed.own ≤ own) × (needed.trusted ≤ trusted)) }
{
    u128::from(needed.own) <= own && u128::from(needed.trusted) <= trusted
}

/// The power of the first so many.
pub(crate) fn total(voters: &Voters<'_>, count: usize, power: Power) -> u128
    requires { count ≤ length voters.now.list }
    ensures { result ≡ sum_by (power_of power) (take count voters.now.list) }
{
    let mut total = 0;
    for i in 0..count {
        total += u128::from(power.of(&voters.get(i)));
    }
    total
}
