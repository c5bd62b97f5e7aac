//! The exact labelling: known heights in rising order, each labelled from the labels below it.
ghost use Rattle.std.specs.Prelude.{◌≡◌, ◌<◌, IfOk, IsFalse, IsSomeAnd, All, length, slice_get};
ghost use Rattle.rb_step.specs.View.{client_of};
ghost use Rattle.rb_plan_types.specs.Labelling.{IsLabelling, IsExact, label_of};
ghost use Rattle.rb_plan_types.specs.Order.{CostsAtMost};
ghost use Rattle.rb_plan_types.specs.Raised.{IsCheaperOf, IsCheapestStep, IsRaised};
ghost use Rattle.rb_plan.specs.Offers.{IsOffer, IsLowered, IsReached, OffersLead, target_of};

use crate::offers::Offer;
use crate::planner::Planner;
use rb_base::Height;
use rb_graph::{Graph, Target};
use rb_plan_types::{Cost, Label, Labelling};
use rb_step::ClientView;
use std::alloc::{AllocError, Allocator};

/// The cheaper of the two, the first one where they cost the same.
fn cheaper(best: Option<Cost>, cost: Cost) -> Cost
    ensures { IsCheaperOf best cost result }
{
    match best {
        Some(best) if !cost.is_cheaper_than(best) => best,
        _ => cost,
    }
}

/// Whether a step from a height of this cost could lead to less than the least cost so far.
fn can_lower(best: Option<Cost>, cost: Cost) -> bool
    ensures { IsFalse result → IsSomeAnd best (λ b. CostsAtMost b cost) }
{
    match best {
        Some(best) => cost.is_cheaper_than(best),
        None => true,
    }
}

impl<A: Allocator + Copy> Planner<'_, A> {
    /// The least cost so far, or that of the step from the offer to the target where the client accepts
    /// it and it costs less. A step costs more than the height that it is from, by as much as the fewest
    /// votes do that any step to the target carries: where that isn't less, the step isn't asked for.
    fn with_step(&self, target: &Target<'_, A>, best: Option<Cost>, offer: Offer) -> Option<Cost>
        requires offer { IsOffer self.now.book offer }
        requires target { target.now ≡ target_of self.now target.now.height }
        ensures { IsLowered (client_of self.now) target.now.height offer best result }
    {
        if !can_lower(best, offer.label.cost) {
            return best;
        }
        let least = target.least_fee_from(offer.place);
        let lowest = offer.label.cost.after_update(least);
        if !can_lower(best, lowest) {
            return best;
        }
        match target.fee_from(offer.place) {
            Some(fee) => Some(cheaper(best, offer.label.cost.after_update(fee))),
            None => best,
        }
    }

    /// The cost of the step to the target from the offer at a place, where there is one and the client
    /// accepts the step.
    fn step_at(&self, target: &Target<'_, A>, offers: &[Offer], at: usize) -> Option<Cost>
        requires offers { All (IsOffer self.now.book) offers.now }
        requires target { target.now ≡ target_of self.now target.now.height }
        ensures { IsReached (client_of self.now) offers.now target.now.height result }
    {
        match offers.get(at) {
            Some(offer) => self.with_step(target, None, *offer),
            None => None,
        }
    }

    /// The least cost at which an accepted step leads to the height from an offer. The step from the
    /// offer at place `first` is asked for before the others: where that offer is the cheapest, few of
    /// the others can lead to less.
    fn cheapest_step(&self, target: &Target<'_, A>, offers: &[Offer], first: usize) -> Option<Cost>
        requires offers { All (IsOffer self.now.book) offers.now }
        requires target { target.now ≡ target_of self.now target.now.height }
        ensures { OffersLead (client_of self.now) offers.now target.now.height
            (λ label. IsCheapestStep (client_of self.now) label target.now.height result) }
    {
        let mut best = self.step_at(target, offers, first);
        for offer in offers {
            best = self.with_step(target, best, *offer);
        }
        best
    }

    /// The cost of the height of the record at a place by the offers below it, of which the one at
    /// place `first` is tried first; so many headers and stored heights are below the height, as far as is known.
    fn cost_of(
        &self,
        offers: &[Offer],
        first: usize,
        place: usize,
        headers: usize,
        stored: usize,
    ) -> Option<Cost>
        requires offers { All (IsOffer self.now.book) offers.now }
        requires place { place < length self.now.book.records }
        ensures { IsSomeAnd (slice_get self.now.book.records place) (λ k. OffersLead (client_of self.now) offers.now k.height
            (λ label. IsRaised (client_of self.now) label k.height result)) }
    {
        if self.is_source_at(place, stored) {
            return Some(Cost::ZERO);
        }
        let target = self.target_at(place, headers);
        self.cheapest_step(&target, offers, first)
    }

    /// How many headers there are up to the height, where so many are below it.
    fn headers_up_to(&self, below: usize, height: Height) -> usize {
        match self.book().headers().get(below) {
            Some(header) if header.height() == height => below.saturating_add(1),
            _ => below,
        }
    }

    /// How many stored heights there are up to the height, where so many are below it.
    fn stored_up_to(&self, below: usize, height: Height) -> usize {
        match self.stored().get(below) {
            Some(stored) if *stored == height => below.saturating_add(1),
            _ => below,
        }
    }

    /// The exact labelling.
    pub fn label(&self, alloc: A) -> Result<Labelling<A>, AllocError>
        ensures exact { IfOk result (λ labelling. IsExact (client_of self.now) (label_of labelling)) }
        ensures labelling { IfOk result IsLabelling }
    {
        let records = self.records();
        let mut labels = Vec::new(alloc);
        let mut offers = Vec::new(alloc);
        let (mut cheapest, mut headers, mut stored) = (0, 0, 0);
        let mut by_set = vec![in alloc; None; self.book().sets().len() + 1]?;
        for place in 0..records.len() {
            let height = records[place].height();
            if let Some(cost) = self.cost_of(offers.as_slice(), cheapest, place, headers, stored) {
                let label = Label { height, cost };
                let offer = Offer { place, label };
                self.add_offer(&mut offers, by_set.as_mut_slice(), &mut cheapest, offer)?;
                labels.push(label)?;
            }
            headers = self.headers_up_to(headers, height);
            stored = self.stored_up_to(stored, height);
        }
        Ok(Labelling::new(labels)?)
    }
}

/// The exact labelling of the view's client: each height that some acceptable list of updates
/// leaves stored and live, with the least cost of such a list. `graph` is the table of the view's
/// book, as `Graph::is_of` tells.
pub fn label<A: Allocator + Copy>(
    alloc: A,
    view: &ClientView<A>,
    graph: &Graph<A>,
) -> Result<Labelling<A>, AllocError>
    requires { graph.now ≡ view.now.book }
    ensures exact { IfOk result (λ labelling. IsExact (client_of view.now) (label_of labelling)) }
    ensures labelling { IfOk result IsLabelling }
{
    Planner::new(view, graph).label(alloc)
}
