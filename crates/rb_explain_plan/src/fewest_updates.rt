//! The fewest updates that meet a goal.
ghost use Rattle.std.specs.Prelude.{◌≡◌, ℕ, ◌+◌, ◌*◌, ◌<◌, ◌≤◌, ◌^◌, List, Some, None, true, is_some, All, IfOk, IfSome, IsTrue, length, max};
ghost use Rattle.rb_valset.specs.Validator.{Member};
ghost use Rattle.rb_valset.specs.ValidatorSet.{max_members};
ghost use Rattle.rb_step.specs.LightClient.{total_fee};
ghost use Rattle.rb_step.specs.View.{client_of};
ghost use Rattle.rb_plan_types.specs.Least.{IsLeast, IsUnreachable};
ghost use Rattle.rb_explain_plan.specs.Fewest.{IsFewest, IsCheapestOfFewest};
ghost use Rattle.rb_explain_plan.specs.Greatest.{most_members, most_for_one};

use crate::charges::charges_of;
use crate::prices::{priced, total_fee};
use rb_base::FeeTable;
use rb_book::ChainBook;
use rb_graph::Graph;
use rb_plan::plan;
use rb_plan_types::{Answer, Update};
use rb_script_types::Goal;
use rb_step::ClientView;
use rb_valset::ValidatorSet;
use std::alloc::{AllocError, Allocator};

/// The client with other fees.
fn with_fees<'a, A: Allocator + Copy>(view: &ClientView<'a, A>, fees: FeeTable) -> ClientView<'a, A>
    ensures { result ≡ record view.now { fees = fees } }
{
    ClientView::new(
        view.options(),
        fees,
        view.stored(),
        view.window(),
        view.book(),
    )
}

/// The fees with so much more for each update; none where that is above the limit of fee tables.
fn raised(fees: FeeTable, more: u128) -> Option<FeeTable>
    ensures raised { IfSome result (λ table. table ≡ record fees { base = fees.base + more }) }
    ensures too_big { result ≡ None → 10 ^ 9 < fees.base + more }
{
    if more > u128::from(FeeTable::MAX) {
        return None;
    }
    let charges = charges_of(&fees);
    let base = charges.base + more as u64;
    FeeTable::new(base, charges.signature, charges.validator).ok()
}

/// The least list that meets a goal by these fees, where the goal can be met.
fn least_by<A: Allocator + Copy>(
    alloc: A,
    view: &ClientView<'_, A>,
    graph: &Graph<A>,
    goal: Goal,
    fees: FeeTable,
) -> Result<Vec<Update, A>, AllocError>
    requires table { graph.now ≡ view.now.book }
    requires met { IsUnreachable (client_of view.now) goal → ⊥ }
    ensures { IfOk result (λ us. IsLeast (client_of (record view.now { fees = fees })) goal us.items) }
{
    let view = with_fees(view, fees);
    match plan(alloc, &view, graph, goal)? {
        Answer::Plan { updates, .. } => Ok(updates),
        Answer::Unreachable { .. } => unreachable!(),
    }
}

/// The fewest updates that meet a goal that can be met, whatever they cost: the least list where each is free.
fn fewest_at_any_fee<A: Allocator + Copy>(
    alloc: A,
    view: &ClientView<'_, A>,
    graph: &Graph<A>,
    goal: Goal,
) -> Result<Vec<Update, A>, AllocError>
    requires table { graph.now ≡ view.now.book }
    requires met { IsUnreachable (client_of view.now) goal → ⊥ }
    ensures { IfOk result (λ us. IsFewest (client_of view.now) goal us.items) }
{
    let Ok(free) = FeeTable::new(0, 0, 0) else {
        unreachable!();
    };
    let updates = least_by(alloc, view, graph, goal, free)?;
    Ok(updates)
}

/// The fewest updates that meet a goal that can be met: where each costs more than the whole of a list with the fewest, the least list
/// is the cheapest of the fewest.
fn fewest_by_few<A: Allocator + Copy>(
    alloc: A,
    view: &ClientView<'_, A>,
    graph: &Graph<A>,
    goal: Goal,
) -> Result<Vec<Update, A>, AllocError>
    requires table { graph.now ≡ view.now.book }
    requires met { IsUnreachable (client_of view.now) goal → ⊥ }
    ensures fewest { IfOk result (λ us. IsFewest (client_of view.now) goal us.items) }
    ensures cheapest { let client = client_of view.now
        in IfOk result (λ us. view.now.fees.base + total_fee client us.items + 1 ≤ 10 ^ 9 → IsCheapestOfFewest client goal us.items) }
{
    let few = priced(view, fewest_at_any_fee(alloc, view, graph, goal)?);
    let dearer = raised(view.fees(), few.fee + 1);
    match dearer {
        Some(fees) => {
            let updates = least_by(alloc, view, graph, goal, fees)?;
            Ok(updates)
        }
        None => Ok(few.updates),
    }
}

/// The greater one of a number and the number of a set's members.
fn or_size<A: Allocator + Copy>(most: usize, set: &ValidatorSet<A>) -> usize
    ensures greater { result ≡ max most (length set.now) }
    ensures most { most ≤ result }
    ensures size { length set.now ≤ result }
    ensures range { most ≤ max_members → result ≤ max_members }
{
    let size = set.size();
    if size > most { size } else { most }
}

/// The most members that a set of the book has.
fn most_members<A: Allocator + Copy>(book: &ChainBook<A>) -> usize
    ensures greatest { result ≡ most_members book.now.sets }
    ensures most { All (λ (set : List Member). length set ≤ result) book.now.sets }
    ensures range { result ≤ max_members }
{
    let sets = book.sets();
    let mut most = 0;
    for set in sets {
        most = or_size(most, set);
    }
    most
}

/// What one update costs at most by the client's fees.
#[tactic(auto, using(crate::proofs::Bounds::fee_at_most))]
fn most_for_one<A: Allocator + Copy>(view: &ClientView<'_, A>) -> u64
    ensures charge { result ≡ most_for_one view.now }
    ensures most { (trusted height : ℕ) → (client_of view.now).fee trusted height ≤ result }
{
    let members = most_members(view.book()) as u64;
    view.fees().charge(members, 2 * members)
}

/// More than so much for each of so many.
fn past_any(most: u64, count: usize) -> u128
    ensures { result ≡ most * count + 1 }
{
    u128::from(most) * count as u128 + 1
}

/// Whether no list with fewer updates than so many costs more than a fee, where one update costs at most so much.
fn fewer_cost_no_more(most: u64, count: usize, fee: u128) -> bool
    requires { fee < 2 ^ 127 }
    ensures { IsTrue result → most * count ≤ fee + most }
{
    u128::from(most) * (count as u128) <= fee + u128::from(most)
}

/// Whether the least list that meets a goal has so few updates, or costs so much, that none with fewer updates can meet it.
fn is_fewest<A: Allocator + Copy>(view: &ClientView<'_, A>, goal: &Goal, least: &[Update]) -> bool
    requires { IsLeast (client_of view.now) goal.now least.now }
    ensures { IsTrue result → IsFewest (client_of view.now) goal.now least.now }
{
    if least.len() <= 1 {
        return true;
    }
    let fee = total_fee(view, least);
    fewer_cost_no_more(most_for_one(view), least.len(), fee)
}

/// An acceptable list with the fewest updates that meet a goal, which the planner finds by other fees: where each update costs more
/// than any list that is no longer than the least one, the cheapest list is the cheapest of the fewest. `least` is the least list that
/// meets the goal.
#[tactic(auto, using(crate::proofs::Shifted::can_be_met))]
fn fewest_by_fees<A: Allocator + Copy>(
    alloc: A,
    view: &ClientView<'_, A>,
    graph: &Graph<A>,
    goal: Goal,
    least: &[Update],
) -> Result<Vec<Update, A>, AllocError>
    requires table { graph.now ≡ view.now.book }
    requires least { IsLeast (client_of view.now) goal least.now }
    ensures fewest { IfOk result (λ us. IsFewest (client_of view.now) goal us.items) }
    ensures cheapest { let client = client_of view.now
        in IfOk result (λ us. view.now.fees.base + total_fee client us.items + 1 ≤ 10 ^ 9 → IsCheapestOfFewest client goal us.items) }
{
    let more = past_any(most_for_one(view), least.len());
    let dearer = raised(view.fees(), more);
    match dearer {
        Some(fees) => {
            let updates = least_by(alloc, view, graph, goal, fees)?;
            Ok(updates)
        }
        None => fewest_by_few(alloc, view, graph, goal),
    }
}

/// An acceptable list with the fewest updates that meet a goal. Where the fee table's base, the list's fee and 1 are
/// at most 10^9 together, none with as few updates costs less. `least` is the least list that meets the goal: it has
/// the fewest updates where it has one at most, or costs as much as any list with fewer. Else a list is searched if that is
/// wanted, in the time of one to three plans; none is answered if it isn't. `graph` is the table of the view's book.
pub fn fewest<A: Allocator + Copy>(
    alloc: A,
    view: &ClientView<'_, A>,
    graph: &Graph<A>,
    goal: Goal,
    least: &[Update],
    is_searched: bool,
) -> Result<Option<Vec<Update, A>>, AllocError>
    requires table { graph.now ≡ view.now.book }
    requires least { IsLeast (client_of view.now) goal least.now }
    ensures fewest { IfOk result (λ o. IfSome o (λ us. IsFewest (client_of view.now) goal us.items)) }
    ensures cheapest { let client = client_of view.now
        in IfOk result (λ o. IfSome o (λ us. view.now.fees.base + total_fee client us.items + 1 ≤ 10 ^ 9 → IsCheapestOfFewest client goal us.items)) }
    ensures searched { is_searched ≡ true → IfOk result (λ o. is_some o ≡ true) }
{
    if is_fewest(view, &goal, least) {
        let updates = Vec::from_slice(alloc, least)?;
        return Ok(Some(updates));
    }
    if !is_searched {
        return Ok(None);
    }
    let updates = fewest_by_fees(alloc, view, graph, goal, least)?;
    Ok(Some(updates))
}
