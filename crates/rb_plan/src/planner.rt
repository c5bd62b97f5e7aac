//! What the planner looks up.
ghost use Rattle.std.specs.Prelude.{◌≡◌, ◌↔◌, ◌<◌, ◌+◌, Contains, IfSome, IsSomeAnd, IsTrue, length, slice_get};
ghost use Rattle.rb_book.specs.Book.{heights_of};
ghost use Rattle.rb_graph.specs.StepTable.{IsStepFee};
ghost use Rattle.rb_step.specs.Fee.{fee_limit};
ghost use Rattle.rb_step.specs.LightClient.{IsOrderly, IsSource};
ghost use Rattle.rb_step.specs.View.{IsView, client_of};
ghost use Rattle.rb_plan_types.specs.Lookups.{AreAllKnown};
ghost use Rattle.rb_plan.specs.Offers.{target_of};

use rb_base::{Height, Ties};
use rb_book::{ChainBook, Record, RecordAt, record_place};
use rb_graph::{Graph, Target};
use rb_step::ClientView;
use rb_step::laws::views_are_orderly;
use std::alloc::{Allocator, Global};
use std::marker::Model;

/// A client's view, with the step table and the records of its book.
#[derive(Drop)]
pub struct Planner<'a, A: Allocator = Global> {
    view: &'a ClientView<'a, A>,
    graph: &'a Graph<A>,
    records: &'a [RecordAt],
}

impl<'a, A: Allocator> Model for Planner<'a, A> {
    ghost use Rattle.std.specs.Prelude.{◌≡◌};
    ghost use Rattle.rb_book.specs.Book.{heights_of};
    ghost use Rattle.rb_step.specs.LightClient.{IsOrderly};
    ghost use Rattle.rb_step.specs.View.{View, IsView, client_of};
    ghost use Rattle.rb_plan_types.specs.Lookups.{AreAllKnown};

    ghost Value = { View };

    ghost view = { λ p. p.view.now };

    ghost invariant = { λ p. (p.graph.now ≡ p.view.now.book) × (p.records.now ≡ p.view.now.book.records)
        × IsOrderly (client_of p.view.now) × AreAllKnown (client_of p.view.now) (heights_of p.view.now.book)
        × IsView p.view.now };
}

impl<'a, A: Allocator + Copy> Planner<'a, A> {
    /// The planner over the view. `graph` is the table of the view's book.
    pub fn new(view: &'a ClientView<'a, A>, graph: &'a Graph<A>) -> Planner<'a, A>
        requires { graph.now ≡ view.now.book }
        ensures { result ≡ view.entry.now }
    {
        views_are_orderly();
        Planner {
            view,
            graph,
            records: view.book().records(),
        }
    }

    /// The book.
    pub fn book(&self) -> &'a ChainBook<A>
        ensures { result.now ≡ self.now.book }
    {
        self.graph.book()
    }

    /// The known records, by rising height.
    pub fn records(&self) -> &'a [RecordAt]
        ensures value { result.now ≡ self.now.book.records }
        ensures known { AreAllKnown (client_of self.now) (heights_of self.now.book) }
        ensures orderly { IsOrderly (client_of self.now) }
        ensures view { IsView self.now }
    {
        self.records
    }

    /// Which heights come first in lists of updates that are equally cheap.
    pub fn ties(&self) -> Ties
        ensures { result ≡ (client_of self.now).ties }
    {
        self.view.ties()
    }

    /// The heights that the client has stored, rising.
    pub fn stored(&self) -> &'a [Height]
        ensures { result.now ≡ self.now.stored }
    {
        self.view.stored()
    }

    /// Whether the height is stored. It is looked for at a place among the stored ones first.
    fn is_stored(&self, height: Height, at: usize) -> bool
        ensures { IsTrue result ↔ Contains (client_of self.now).stored height }
    {
        let stored = self.stored();
        if at < stored.len() && stored[at] == height {
            return true;
        }
        self.view.is_stored(height)
    }

    /// Whether a record doesn't expire in the window (ICS 7, trusting period).
    fn outlives(&self, known: &Record) -> bool
        ensures { IsTrue result ↔ self.now.window.until < known.now.time + self.now.options.period }
    {
        let period = u128::from(self.view.options().period().nanoseconds());
        known.time().nanoseconds() + period > self.view.window().until().nanoseconds()
    }

    /// Whether the height of the record at a place is stored and live before any update. It is looked for
    /// at the place `stored` among the stored heights first.
    pub fn is_source_at(&self, place: usize, stored: usize) -> bool
        requires { place < length self.now.book.records }
        ensures { IsSomeAnd (slice_get self.now.book.records place) (λ k. IsTrue result ↔ IsSource (client_of self.now) k.height) }
    {
        let records = self.records();
        let known = records[place];
        if self.outlives(known.record()) {
            self.is_stored(known.height(), stored)
        } else {
            false
        }
    }

    /// The height, for single steps into it.
    pub fn target(&self, height: Height) -> Target<'a, A>
        ensures target { result ≡ target_of self.now height }
        ensures orderly { IsOrderly (client_of self.now) }
    {
        let view = self.view;
        self.graph
            .target(height, view.options(), view.window(), view.fees())
    }

    /// The height of the record at a place, for single steps into it. The header there is looked for at
    /// the place `header` first.
    pub fn target_at(&self, place: usize, header: usize) -> Target<'a, A>
        requires { place < length self.now.book.records }
        ensures target { IsSomeAnd (slice_get self.now.book.records place) (λ k. result ≡ target_of self.now k.height) }
        ensures orderly { IsOrderly (client_of self.now) }
    {
        let view = self.view;
        let (options, window, fees) = (view.options(), view.window(), view.fees());
        self.graph.target_at(place, header, options, window, fees)
    }

    /// The fee of the step from the record at a trusted height to the target, where the client
    /// accepts it.
    pub fn fee_from(&self, target: &Target<'_, A>, trusted: Height) -> Option<u64>
        requires { target.now.book ≡ self.now.book }
        ensures value { IsStepFee target.now trusted result }
        ensures bound { IfSome result (λ fee. fee < fee_limit) }
    {
        match record_place(self.records(), trusted) {
            Ok(place) => target.fee_from(place),
            Err(_) => None,
        }
    }
}
