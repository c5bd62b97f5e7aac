//! The powers of a set's members, each beside its column.
ghost use Rattle.std.specs.Prelude.{◌≡◌, ◌*◌, ◌+◌, ◌<◌, ◌≤◌, ℕ, All, IfOk, IsTrue, sum_by, length, IfSome};
ghost use Rattle.rb_lanes.specs.Lanes.{member_total, max_total, max_columns, IsSpread};

use crate::plane::Plane;
use crate::powers::Powers;
use crate::sums::{masked_sum_from, member_sum};
use std::alloc::{AllocError, Allocator, Global};
use std::marker::Model;

/// Powers, each beside its column: those of a set's members. Where at least half of the columns from
/// the first to the last have one, they are kept a second time by column, and summed eight columns a
/// step.
#[derive(Drop)]
pub struct Tally<A: Allocator = Global> {
    members: Vec<(u32, u64), A>,
    first: usize,
    /// One more than the last column.
    end: usize,
    /// The powers by column, from the first on.
    powers: Option<Powers<A>>,
}

impl<A: Allocator> Model for Tally<A> {
    ghost use Rattle.std.specs.Prelude.{◌<◌, ◌≤◌, ℕ, List, All, IfSome, sum_by};
    ghost use Rattle.rb_lanes.specs.Lanes.{IsSpread, max_total};

    ghost Value = { List (ℕ × ℕ) };

    ghost view = { λ t. t.members.items };

    ghost invariant = { λ t. (sum_by (λ (m : ℕ × ℕ). m.1) t.members.items ≤ max_total)
        × All (λ (m : ℕ × ℕ). (t.first ≤ m.0) × (m.0 < t.end)) t.members.items
        × IfSome t.powers (λ powers. IsSpread powers t.first t.members.items) };
}

/// The lowest column, the greatest number where there is none.
fn lowest(members: &[(u32, u64)]) -> u32
    ensures { All (λ (m : ℕ × ℕ). result ≤ m.0) members.now }
{
    let mut lowest = u32::MAX;
    for (column, _) in members {
        lowest = lowest.min(*column);
    }
    lowest
}

/// One more than the highest column, 0 where there is none.
fn end(members: &[(u32, u64)]) -> u32
    requires { All (λ (m : ℕ × ℕ). m.0 < max_columns) members.now }
    ensures above { All (λ (m : ℕ × ℕ). m.0 < result) members.now }
    ensures range { result ≤ max_columns }
{
    let mut end = 0;
    for (column, _) in members {
        if end <= *column {
            end = *column + 1;
        }
    }
    end
}

/// The powers by column, from the first column on to the end, where at least half of these have one.
fn powers_of<A: Allocator>(
    alloc: A,
    members: &[(u32, u64)],
    first: usize,
    end: usize,
) -> Result<Option<Powers<A>>, AllocError>
    requires columns { All (λ (m : ℕ × ℕ). (first ≤ m.0) × (m.0 < end)) members.now }
    requires order { first ≤ end }
    requires total { sum_by (λ (m : ℕ × ℕ). m.1) members.now ≤ max_total }
    ensures { IfOk result (λ found. IfSome found (λ powers. IsSpread powers first members.now)) }
{
    let columns = end - first;
    if columns / 2 > members.len() {
        return Ok(None);
    }
    let mut powers = Powers::zeros(alloc, columns)?;
    for (column, power) in members {
        powers.add(*column as usize - first, *power);
    }
    Ok(Some(powers))
}

impl<A: Allocator + Copy> Tally<A> {
    /// The tally of these powers, whose columns are below 65,536, and which add up to
    /// `MAX_TOTAL` at most. Its only error is want of memory.
    pub fn new(alloc: A, members: Vec<(u32, u64), A>) -> Result<Tally<A>, AllocError>
        requires columns { All (λ (m : ℕ × ℕ). m.0 < max_columns) members.items }
        requires total { sum_by (λ (m : ℕ × ℕ). m.1) members.items ≤ max_total }
        ensures { IfOk result (λ tally. tally ≡ members.items) }
    {
        let end = end(members.as_slice()) as usize;
        let first = (lowest(members.as_slice()) as usize).min(end);
        let powers = powers_of(alloc, members.as_slice(), first, end)?;
        Ok(Tally {
            members,
            first,
            end,
            powers,
        })
    }
}

impl<A: Allocator> Tally<A> {
    /// The powers, each beside its column.
    pub fn members(&self) -> &[(u32, u64)]
        ensures { result.now ≡ self.now }
    {
        self.members.as_slice()
    }

    /// The sum of the powers whose column's bit is set.
    pub fn sum(&self, plane: &Plane<A>) -> u64
        ensures { result ≡ member_total self.now plane.now }
    {
        match &self.powers {
            Some(powers) => masked_sum_from(powers, plane, self.first),
            None => member_sum(self.members.as_slice(), plane),
        }
    }

    /// Whether all columns of the one are below those of the other: then they have none in common.
    pub fn is_apart(&self, other: &Tally<A>) -> bool
        ensures { IsTrue result → All (λ (m : ℕ × ℕ). All (λ (o : ℕ × ℕ). ¬ (m.0 ≡ o.0)) other.now) self.now }
    {
        self.end <= other.first || other.end <= self.first
    }
}
