//! The votes that are sent, and how many they are.
ghost use Rattle.std.specs.Prelude.{◌≡◌, ◌≤◌, [], List, IfOk, length, take};
ghost use Rattle.std.specs.List.Sorted.{IsPermutation};
ghost use Rattle.rb_votes.specs.declared.voter.Voter.{Voter};
ghost use Rattle.rb_votes.specs.Places.{StandByPlace};
ghost use Rattle.rb_votes.specs.Power.{power_in, power_of};
ghost use Rattle.rb_votes.specs.Votes.{fewest_then, thinned, sent_votes};

use crate::order::bring_fewest;
use crate::superfluous::{thin, thinned_len, total};
use crate::voter::{Needed, Power, Voter};
use crate::voters::Voters;
use std::alloc::{AllocError, Allocator};

/// The votes to send of these voters, so that they pass where all do. The voters come to stand in another order.
pub fn sent_votes<A: Allocator + Copy>(
    alloc: A,
    voters: &mut Voters<'_>,
    needed: Needed,
) -> Result<Vec<Voter, A>, AllocError>
    ensures { (given : List Voter) → StandByPlace given → IsPermutation given voters.old.list
        → IfOk result (λ votes. votes.items ≡ sent_votes needed given) }
{
    let own_first = fewest_votes(alloc, &mut *voters, Power::Own, Power::Trusted, needed)?;
    let trusted_first = fewest_votes(alloc, voters, Power::Trusted, Power::Own, needed)?;
    if own_first.len() <= trusted_first.len() {
        Ok(own_first)
    } else {
        Ok(trusted_first)
    }
}

/// The votes that have the needed power, the fewest by one power first, without superfluous ones.
fn fewest_votes<A: Allocator + Copy>(
    alloc: A,
    voters: &mut Voters<'_>,
    power: Power,
    other: Power,
    needed: Needed,
) -> Result<Vec<Voter, A>, AllocError>
    ensures votes { (given : List Voter) → StandByPlace given → IsPermutation given voters.old.list
        → IfOk result (λ votes. votes.items
        ≡ thinned needed [] (fewest_then (power_of power) (power_in power needed) (power_of other) (power_in other needed) given)) }
    ensures same { IsPermutation voters.old.list voters.new.list }
{
    let count = bring_fewest(&mut *voters, power, other, needed);
    let mut votes = first_votes(alloc, &*voters, count)?;
    let own = total(&*voters, count, Power::Own);
    let trusted = total(&*voters, count, Power::Trusted);
    thin(&mut votes, own, trusted, needed);
    Ok(votes)
}

/// The first so many.
fn first_votes<A: Allocator + Copy>(
    alloc: A,
    voters: &Voters<'_>,
    count: usize,
) -> Result<Vec<Voter, A>, AllocError>
    requires { count ≤ length voters.now.list }
    ensures { IfOk result (λ votes. votes.items ≡ take count voters.now.list) }
{
    let mut votes = Vec::with_capacity(alloc, count)?;
    for i in 0..count {
        votes.push(voters.get(i))?;
    }
    Ok(votes)
}

/// How many votes `sent_votes` sends of these voters. Takes no memory.
pub fn sent_count(voters: &mut Voters<'_>, needed: Needed) -> usize
    ensures count { (given : List Voter) → StandByPlace given → IsPermutation given voters.old.list
        → result ≡ length (sent_votes needed given) }
    ensures within { result ≤ length voters.old.list }
{
    let own_first = fewest_count(&mut *voters, Power::Own, Power::Trusted, needed);
    let trusted_first = fewest_count(voters, Power::Trusted, Power::Own, needed);
    own_first.min(trusted_first)
}

/// How many votes have the needed power, the fewest by one power first, without superfluous ones.
fn fewest_count(voters: &mut Voters<'_>, power: Power, other: Power, needed: Needed) -> usize
    ensures count { (given : List Voter) → StandByPlace given → IsPermutation given voters.old.list
        → result ≡ length (thinned needed [] (fewest_then (power_of power) (power_in power needed) (power_of other) (power_in other needed) given)) }
    ensures same { IsPermutation voters.old.list voters.new.list }
    ensures within { result ≤ length voters.old.list }
{
    let count = bring_fewest(&mut *voters, power, other, needed);
    thinned_len(&*voters, count, needed)
}
