//! The list of updates that a light client's bisection makes.
ghost use Rattle.std.specs.Prelude.{◌≡◌, ◌<◌, ◌↔◌, IsTrue, IfOk, IfSome, IfNone, MatchOption, Contains, List};
ghost use Rattle.rb_graph.specs.StepTable.{IsStepFee};
ghost use Rattle.rb_step.specs.LightClient.{Update as AnyUpdate, IsAcceptable, IsStoredAfter};
ghost use Rattle.rb_step.specs.View.{client_of};
ghost use Rattle.rb_explain_plan.specs.Search.{IsSoFar, IsNearer, target_of};
ghost use Rattle.rb_explain_plan.specs.Bisection.{IsBisection, middle};

use rb_base::Height;
use rb_book::{ChainBook, Header, record_place};
use rb_graph::Graph;
use rb_plan_types::Update;
use rb_step::ClientView;
use std::alloc::{AllocError, Allocator};

/// The highest header above the trusted height and up to the middle between it and the height that was
/// tried.
fn middle<A: Allocator + Copy>(
    book: &ChainBook<A>,
    trusted: Height,
    tried: Height,
) -> Option<Height>
    ensures { result ≡ middle book.now trusted tried }
{
    let half = (trusted.get() + tried.get()) / 2;
    let headers = book.headers();
    let count = headers.partition_point(|header| header.height().get() <= half);
    if count == 0 {
        return None;
    }
    let highest = headers[count - 1].height();
    if trusted < highest {
        Some(highest)
    } else {
        None
    }
}

/// The fee of the step from a trusted height, where the client accepts it, by the table of its book.
fn fee_from<A: Allocator + Copy>(
    view: &ClientView<'_, A>,
    graph: &Graph<A>,
    trusted: Height,
    height: Height,
) -> Option<u64>
    requires { graph.now ≡ view.now.book }
    ensures { IsStepFee (target_of view.now height) trusted result }
{
    let target = graph.target(height, view.options(), view.window(), view.fees());
    match record_place(view.book().records(), trusted) {
        Ok(place) => target.fee_from(place),
        Err(_) => None,
    }
}

/// Whether the client accepts that step.
#[tactic(auto, using(crate::proofs::Bisected::accepted_by_fee, crate::proofs::Bisected::refused_by_fee))]
fn accepts<A: Allocator + Copy>(
    view: &ClientView<'_, A>,
    graph: &Graph<A>,
    trusted: Height,
    height: Height,
) -> bool
    requires { graph.now ≡ view.now.book }
    ensures { IsTrue result ↔ (client_of view.now).Accepts trusted height }
{
    match fee_from(view, graph, trusted, height) {
        Some(_) => true,
        None => false,
    }
}

/// A bisection on its way: from which height to which one it leads, its updates so far, the height that is trusted after these,
/// and the height that is tried next.
#[derive(Drop)]
struct Search<A: Allocator> {
    first: Height,
    wanted: Height,
    updates: Vec<Update, A>,
    trusted: Height,
    tried: Height,
}

/// Tries the next height of a bisection; none where its step is refused and there is no header to try.
#[tactic(auto, using(crate::proofs::Bisected::nearer_accepted))]
fn advance<A: Allocator + Copy>(
    view: &ClientView<'_, A>,
    graph: &Graph<A>,
    search: Search<A>,
) -> Result<Option<Search<A>>, AllocError>
    requires table { graph.now ≡ view.now.book }
    requires so_far { IsSoFar (client_of view.now) view.now.book search.wanted search.first search.updates.items search.trusted search.tried }
    requires below { search.trusted < search.wanted }
    ensures first { IfOk result (λ o. IfSome o (λ s. s.first ≡ search.first)) }
    ensures wanted { IfOk result (λ o. IfSome o (λ s. s.wanted ≡ search.wanted)) }
    ensures so_far { IfOk result (λ o. IfSome o (λ s. IsSoFar (client_of view.now) view.now.book search.wanted search.first s.updates.items s.trusted s.tried)) }
    ensures nearer { IfOk result (λ o. IfSome o (λ s. IsNearer search.wanted search.trusted search.tried s.trusted s.tried)) }
    ensures stuck { IfOk result (λ o. IfNone o ((us : List AnyUpdate) → IsBisection (client_of view.now) view.now.book search.first search.wanted us → ⊥)) }
{
    let Search {
        first,
        wanted,
        mut updates,
        trusted,
        tried,
    } = search;
    if accepts(view, graph, trusted, tried) {
        updates.push(Update::new(tried, trusted))?;
        return Ok(Some(Search {
            first,
            wanted,
            updates,
            trusted: tried,
            tried: wanted,
        }));
    }
    match middle(view.book(), trusted, tried) {
        Some(lower) => Ok(Some(Search {
            first,
            wanted,
            updates,
            trusted,
            tried: lower,
        })),
        None => Ok(None),
    }
}

/// The updates by which a light client that trusts a stored height bisects up to a header: it tries the
/// header at once, where a step is refused the highest header up to the middle of the two heights, and after each
/// accepted step again the header (CometBFT light client, skipping verification). None where a
/// step is refused and there is no header to try. `graph` is the table of the view's book.
#[tactic(auto, using(crate::proofs::Bisected::so_far_first, crate::proofs::Bisected::nearer_smaller))]
pub fn bisection<A: Allocator + Copy>(
    alloc: A,
    view: &ClientView<'_, A>,
    graph: &Graph<A>,
    trusted: Height,
    wanted: Height,
) -> Result<Option<Vec<Update, A>>, AllocError>
    requires { graph.now ≡ view.now.book }
    ensures bisected { let is_one = IsBisection (client_of view.now) view.now.book trusted wanted
        in IfOk result (λ list. MatchOption list ((us : List AnyUpdate) → is_one us → ⊥) (λ us. is_one us.items)) }
    ensures acceptable { Contains (client_of view.now).stored trusted
        → IfOk result (λ list. IfSome list (λ us. IsAcceptable (client_of view.now) us.items)) }
    ensures arrives { Contains (client_of view.now).stored trusted
        → IfOk result (λ list. IfSome list (λ us. IsStoredAfter (client_of view.now) us.items wanted)) }
{
    let mut search = Search {
        first: trusted,
        wanted,
        updates: Vec::new(alloc),
        trusted,
        tried: wanted,
    };
    'halves: while search.trusted.get() < wanted.get() {
        match advance(view, graph, search)? {
            Some(next) => search = next,
            None => return Ok(None),
        }
    }
    if search.trusted == wanted {
        Ok(Some(search.updates))
    } else {
        Ok(None)
    }
}
