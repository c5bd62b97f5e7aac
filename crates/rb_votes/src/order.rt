//! Voters by their power: those whose votes are the fewest that have what is needed.
ghost use Rattle.std.specs.Prelude.{◌≡◌, ◌+◌, ◌-◌, ◌≤◌, List, length, sum_by, take, drop};
ghost use Rattle.std.specs.List.Sorted.{IsPermutation};
ghost use Rattle.rb_votes.specs.declared.voter.Voter.{Voter};
ghost use Rattle.rb_votes.specs.Places.{StandByPlace};
ghost use Rattle.rb_votes.specs.Power.{power_in, power_of};
ghost use Rattle.rb_votes.specs.Votes.{least_prefix, fewest_then};

use crate::voter::{Needed, Power};
use crate::voters::Voters;

/// Brings the voters to the front whose votes are the fewest that have the needed power, and of the others the
/// fewest that have what these lack of the other power; and answers how many they are.
pub(crate) fn bring_fewest(
    voters: &mut Voters<'_>,
    power: Power,
    other: Power,
    needed: Needed,
) -> usize
    ensures fewest { (given : List Voter) → StandByPlace given → IsPermutation given voters.old.list
        → take result voters.new.list ≡ fewest_then (power_of power) (power_in power needed) (power_of other) (power_in other needed) given }
    ensures same { IsPermutation voters.old.list voters.new.list }
    ensures within { result ≤ length voters.new.list }
{
    voters.sort_from(0, power);
    let first = prefix_end(&*voters, 0, power, power.needed(&needed));
    let lacking = lacking(&*voters, first, other, other.needed(&needed));
    voters.sort_from(first, other);
    prefix_end(&*voters, first, other, lacking)
}

/// Where those end, from an index on, that it takes to have the needed power.
fn prefix_end(voters: &Voters<'_>, start: usize, power: Power, needed: u64) -> usize
    requires { start ≤ length voters.now.list }
    ensures end { result ≡ start + length (least_prefix (power_of power) needed (drop start voters.now.list)) }
    ensures within { result ≤ length voters.now.list }
{
    let mut left = needed;
    for i in start..voters.len() {
        if left == 0 {
            return i;
        }
        left = left.saturating_sub(power.of(&voters.get(i)));
    }
    voters.len()
}

/// What the first so many lack of the power.
fn lacking(voters: &Voters<'_>, count: usize, power: Power, needed: u64) -> u64
    requires { count ≤ length voters.now.list }
    ensures { result ≡ needed - sum_by (power_of power) (take count voters.now.list) }
{
    let mut left = needed;
    for i in 0..count {
        left = left.saturating_sub(power.of(&voters.get(i)));
    }
    left
}
