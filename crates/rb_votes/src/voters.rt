//! Voters in little room.
ghost use Rattle.std.specs.Prelude.{◌≡◌, ◌<◌, ◌≤◌, [], ◌∷◌, ◌++◌, List, length, take, drop, map, get_or};
ghost use Rattle.std.specs.List.Sorted.{IsPermutation};
ghost use Rattle.rb_votes.specs.declared.voter.Voter.{Voter};
ghost use Rattle.rb_votes.specs.Places.{StandByPlace};
ghost use Rattle.rb_votes.specs.Power.{power_of};
ghost use Rattle.rb_votes.specs.Voters.{power_at, voter_at};
ghost use Rattle.rb_votes.specs.Votes.{falling};

use crate::voter::{Power, Voter};
use arrayvec::ArrayVec;
use rb_valset::{MAX_MEMBERS, Validator};
use std::cmp::Reverse;
use std::marker::Model;

/// A voter's places in the header's own set and in the trusted set.
#[derive(Clone, Copy, Default)]
struct Seat {
    own: u16,
    trusted: u16,
}

/// The voters of a header, no more than a set has members. Each takes four bytes, so that a plan needs
/// little stack.
#[derive(Drop)]
pub struct Voters<'a> {
    own: &'a [Validator],
    trusted: &'a [Validator],
    seats: ArrayVec<Seat, MAX_MEMBERS>,
}

impl<'a> Model for Voters<'a> {
    ghost use Rattle.std.specs.Prelude.{map};
    ghost use Rattle.rb_votes.specs.Voters as specs;

    ghost Value = { specs.Voters };

    ghost view = { λ s. record {
      own = s.own.now;
      trusted = s.trusted.now;
      list = map (λ seat. specs.voter_at s.own.now s.trusted.now seat.own seat.trusted) s.seats.items;
    } };
}

impl<'a> Voters<'a> {
    /// No voters yet of a header whose own set and trusted set have these members.
    pub fn new(own: &'a [Validator], trusted: &'a [Validator]) -> Self
        ensures own { result.own ≡ own.now }
        ensures trusted { result.trusted ≡ trusted.now }
        ensures none { result.list ≡ [] }
    {
        Voters {
            own,
            trusted,
            seats: ArrayVec::new(),
        }
    }

    /// Adds the voter at these places of the two sets; one whose place is past the end of the trusted set is
    /// no member of it.
    pub fn push(&mut self, place: usize, trusted_place: usize)
        requires room { length self.old.list < 10000 }
        requires place { place < 65536 }
        requires trusted_place { trusted_place < 65536 }
        ensures { self.new ≡ record self.old { list = self.old.list ++ voter_at self.old.own self.old.trusted place trusted_place ∷ [] } }
    {
        self.seats.push(Seat {
            own: place as u16,
            trusted: trusted_place as u16,
        });
    }

    /// How many they are.
    pub(crate) fn len(&self) -> usize
        ensures { result ≡ length self.now.list }
    {
        self.seats.len()
    }

    /// The voter that stands there.
    pub(crate) fn get(&self, index: usize) -> Voter
        requires { index < length self.now.list }
        ensures { result ≡ get_or self.now.list index result }
    {
        voter_at(self.own, self.trusted, self.seats[index])
    }

    /// Sorts those from an index on by power falling, ties by place.
    pub(crate) fn sort_from(&mut self, start: usize, power: Power)
        requires { start ≤ length self.old.list }
        ensures first { take start self.new.list ≡ take start self.old.list }
        ensures same { IsPermutation self.old.list self.new.list }
        ensures falling { (given : List Voter) → StandByPlace given → IsPermutation given (drop start self.old.list)
            → drop start self.new.list ≡ falling (power_of power) given }
    {
        let (own, trusted) = (self.own, self.trusted);
        sort_seats(self.seats.as_mut_slice(), start, own, trusted, power);
    }
}

/// Sorts the voters in these seats, from an index on, by power falling, ties by place.
fn sort_seats(
    seats: &mut [Seat],
    start: usize,
    own: &[Validator],
    trusted: &[Validator],
    power: Power,
)
    requires { start ≤ length seats.old }
    ensures first { take start seats.new ≡ take start seats.old }
    ensures same { IsPermutation seats.old seats.new }
    ensures falling { (given : List Voter) → StandByPlace given
        → IsPermutation given (map (λ seat. voter_at own.now trusted.now seat.own seat.trusted) (drop start seats.old))
        → map (λ seat. voter_at own.now trusted.now seat.own seat.trusted) (drop start seats.new) ≡ falling (power_of power) given }
{
    seats[start..].sort_unstable_by_key(|seat: &Seat| -> (Reverse<u64>, usize) {
        let voter = voter_at(own, trusted, *seat);
        (Reverse(power.of(&voter)), voter.place)
    });
}

/// The voter in this seat.
fn voter_at(own: &[Validator], trusted: &[Validator], seat: Seat) -> Voter
    ensures { result ≡ voter_at own.now trusted.now seat.own seat.trusted }
{
    Voter {
        place: usize::from(seat.own),
        own: power_at(own, seat.own),
        trusted: power_at(trusted, seat.trusted),
    }
}

/// The power of the member at this place, 0 where there is none.
fn power_at(members: &[Validator], place: u16) -> u64
    ensures { result ≡ power_at members.now place }
{
    match members.get(usize::from(place)) {
        Some(member) => member.power(),
        None => 0,
    }
}
