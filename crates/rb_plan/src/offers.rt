//! The labelled records from which steps are tried: of those that name one set the cheapest.
ghost use Rattle.std.specs.Prelude.{◌≡◌, ◌↔◌, ◌<◌, ◌≤◌, IsTrue, All, IfOk, OnOk, Some, IfSome, IsSomeAnd, length, set, slice_get};
ghost use Rattle.std.specs.Option.{option_flatten};
ghost use Rattle.rb_plan_types.specs.Order.{IsCheaper};
ghost use Rattle.rb_plan.specs.Offers.{IsOffer, NamesSame, IsTakenIn, IsAdded, next_slot};

use crate::planner::Planner;
use rb_plan_types::{Cost, Label};
use std::alloc::{AllocError, Allocator};

/// A label, and the place of its record.
#[derive(Clone, Copy)]
pub struct Offer {
    pub place: usize,
    pub label: Label,
}

/// Whether the cost is lower than that of the offer at a place.
fn is_cheaper(cost: Cost, offers: &[Offer], at: usize) -> bool
    requires { at < length offers.now }
    ensures { IsSomeAnd (slice_get offers.now at) (λ o. IsTrue result ↔ IsCheaper cost o.label.cost) }
{
    cost.is_cheaper_than(offers[at].label.cost)
}

/// Where the offer of a slot was put, if one was.
fn kept_at(by_set: &[Option<usize>], slot: usize) -> Option<usize>
    ensures { result ≡ option_flatten (slice_get by_set.now slot) }
{
    match by_set.get(slot) {
        Some(at) => *at,
        None => None,
    }
}

/// Keeps where the offer of a slot is put.
fn keep_at(by_set: &mut [Option<usize>], slot: usize, at: usize)
    ensures { by_set.new ≡ set by_set.old slot (Some at) }
{
    if slot < by_set.len() {
        by_set[slot] = Some(at);
    }
}

/// Where the offer of a slot belongs among so many, so that they come by rising slot: a row of the
/// table is read fastest in the order of its sets.
fn place_for(by_set: &[Option<usize>], slot: usize, offers: usize) -> usize
    ensures { result ≤ offers }
{
    for lower in (0..slot).rev() {
        if let Some(at) = kept_at(by_set, lower) {
            return offers.min(at.saturating_add(1));
        }
    }
    0
}

/// Keeps where the offer of a slot was put in: those of the higher slots have moved up.
fn keep_put_in(by_set: &mut [Option<usize>], slot: usize, at: usize) {
    for higher in slot..by_set.len() {
        if let Some(at) = kept_at(by_set, higher) {
            keep_at(by_set, higher, at.saturating_add(1));
        }
    }
    keep_at(by_set, slot, at);
}

/// Keeps where the cheapest offer stands: one of this cost was put in at a place, or took the place of
/// another there.
fn keep_cheapest(cheapest: &mut usize, offers: &[Offer], at: usize, cost: Cost, moved: bool) {
    if moved && at <= *cheapest {
        *cheapest = cheapest.saturating_add(1);
    }
    if *cheapest >= offers.len() || is_cheaper(cost, offers, *cheapest) {
        *cheapest = at;
    }
}

impl<A: Allocator + Copy> Planner<'_, A> {
    /// Whether two records name the same next set.
    fn names_same(&self, place: usize, other: usize) -> bool
        requires place { place < length self.now.book.records }
        requires other { other < length self.now.book.records }
        ensures { IsTrue result → NamesSame self.now.book place other × NamesSame self.now.book other place }
    {
        let records = self.records();
        records[place].record().next() == records[other].record().next()
    }

    /// The slot of the set that the record at a place names as its next: the set's place, or the
    /// number of sets where the book doesn't know it.
    fn next_slot(&self, place: usize) -> usize
        requires { place < length self.now.book.records }
        ensures { IsSomeAnd (slice_get self.now.book.records place) (λ k. result ≡ next_slot self.now.book k) }
    {
        let known = self.records()[place];
        match self.book().set_place(known.record().next()) {
            Some(set) => set,
            None => self.book().sets().len(),
        }
    }

    /// The place of an offer whose record names the same set as the record at a place, if it stands
    /// at the place given.
    fn same_set(&self, offers: &[Offer], at: Option<usize>, place: usize) -> Option<usize>
        requires offers { All (IsOffer self.now.book) offers.now }
        requires place { place < length self.now.book.records }
        ensures { IfSome result (λ at. IsSomeAnd (slice_get offers.now at)
            (λ o. NamesSame self.now.book o.place place × NamesSame self.now.book place o.place)) }
    {
        let at = at?;
        if at < offers.len() && self.names_same(offers[at].place, place) {
            return Some(at);
        }
        None
    }

    /// Where an offer stands whose record names the same set as the record at a place, or else the slot of
    /// that set. The cheapest offer is looked at first.
    fn find_same(
        &self,
        offers: &[Offer],
        by_set: &[Option<usize>],
        cheapest: usize,
        place: usize,
    ) -> Result<usize, usize>
        requires offers { All (IsOffer self.now.book) offers.now }
        requires place { place < length self.now.book.records }
        ensures { IfOk result (λ at. IsSomeAnd (slice_get offers.now at)
            (λ o. NamesSame self.now.book o.place place × NamesSame self.now.book place o.place)) }
    {
        if let Some(at) = self.same_set(offers, Some(cheapest), place) {
            return Ok(at);
        }
        let slot = self.next_slot(place);
        self.same_set(offers, kept_at(by_set, slot), place)
            .ok_or(slot)
    }

    /// Puts an offer in where none names its set, which has this slot.
    fn put_in(
        &self,
        offers: &mut Vec<Offer, A>,
        by_set: &mut [Option<usize>],
        cheapest: &mut usize,
        slot: usize,
        offer: Offer,
    ) -> Result<(), AllocError>
        ensures { OnOk result (IsTakenIn self.now.book offers.old.items offer offers.new.items) }
    {
        let cost = offer.label.cost;
        let at = place_for(by_set, slot, offers.len());
        offers.insert(at, offer)?;
        keep_put_in(by_set, slot, at);
        keep_cheapest(cheapest, offers.as_slice(), at, cost, true);
        Ok(())
    }

    /// Puts an offer in the place of one whose record names the same set, where it costs less.
    fn take_cheaper(
        &self,
        offers: &mut Vec<Offer, A>,
        cheapest: &mut usize,
        at: usize,
        offer: Offer,
    )
        requires { IsSomeAnd (slice_get offers.old.items at)
            (λ o. NamesSame self.now.book o.place offer.place × NamesSame self.now.book offer.place o.place) }
        ensures { IsTakenIn self.now.book offers.old.items offer offers.new.items }
    {
        let cost = offer.label.cost;
        if is_cheaper(cost, offers.as_slice(), at) {
            offers[at] = offer;
            keep_cheapest(cheapest, offers.as_slice(), at, cost, false);
        }
    }

    /// Takes an offer in. Where there is one whose record names the same set, the cheaper of the two
    /// stays; `by_set` tells by the set's slot where to look for it, and `cheapest` where the cheapest
    /// of all stands.
    fn take_in(
        &self,
        offers: &mut Vec<Offer, A>,
        by_set: &mut [Option<usize>],
        cheapest: &mut usize,
        offer: Offer,
    ) -> Result<(), AllocError>
        requires offers { All (IsOffer self.now.book) offers.now.items }
        requires offer { IsOffer self.now.book offer }
        ensures { OnOk result (IsTakenIn self.now.book offers.old.items offer offers.new.items) }
    {
        match self.find_same(offers.as_slice(), by_set, *cheapest, offer.place) {
            Ok(at) => {
                self.take_cheaper(offers, cheapest, at, offer);
                Ok(())
            }
            Err(slot) => self.put_in(offers, by_set, cheapest, slot, offer),
        }
    }

    /// Adds the offer of a record above all others. The one before is taken in only now, since a
    /// record right below a header is judged by another rule.
    pub fn add_offer(
        &self,
        offers: &mut Vec<Offer, A>,
        by_set: &mut [Option<usize>],
        cheapest: &mut usize,
        offer: Offer,
    ) -> Result<(), AllocError>
        requires offers { All (IsOffer self.now.book) offers.now.items }
        ensures { OnOk result (IsAdded self.now.book offers.old.items offer offers.new.items) }
    {
        if let Some(last) = offers.pop() {
            self.take_in(offers, by_set, cheapest, last)?;
        }
        offers.push(offer)?;
        Ok(())
    }
}
