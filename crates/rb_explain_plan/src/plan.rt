//! A plan, and the lists beside it.
ghost use Rattle.std.specs.Prelude.{◌≡◌, ◌↔◌, true, is_some, IfOk, IfSome, IsTrue};
ghost use Rattle.rb_plan_types.specs.Least.{IsLeast};
ghost use Rattle.rb_step.specs.View.{client_of};
ghost use Rattle.rb_explain_plan.specs.Plan.{IsBisected, IsFewestPriced, IsOnlyStep, IsPlanExplained, last_height};

use crate::bisecting::bisection;
use crate::fewest_updates::fewest;
use crate::prices::{PricedList, priced};
use crate::step::StepExplanation;
use crate::steps::{direct_step, explain_steps};
use rb_base::Height;
use rb_graph::Graph;
use rb_plan_types::{Update, proof_height};
use rb_script_types::Goal;
use rb_step::ClientView;
use std::alloc::{AllocError, Allocator, Global};

/// Why a plan is as it is: its updates with their steps, the highest height that was stored and live before them, the one step
/// from there to the last update's height, the fewest updates that meet the goal, unless these aren't known and weren't searched, and
/// those by which a light client bisects from the highest stored and live height to the last update's.
#[derive(Drop)]
pub struct PlanExplanation<A: Allocator = Global> {
    pub steps: Vec<Option<StepExplanation>, A>,
    pub newest: Option<Height>,
    pub direct: Option<StepExplanation>,
    pub fewest: Option<PricedList<A>>,
    pub bisection: Option<PricedList<A>>,
}

impl<A: Allocator> PlanExplanation<A> {
    /// Whether the plan is the one step from the highest height that was stored and live.
    pub fn is_only_step(&self) -> bool
        ensures { IsTrue result ↔ IsOnlyStep self.now }
    {
        match (self.steps.as_slice(), &self.direct) {
            ([Some(only)], Some(direct)) => *only == *direct,
            _ => false,
        }
    }
}

/// The height of the last update.
fn last_height(updates: &[Update]) -> Option<Height>
    ensures { result ≡ last_height updates.now }
{
    let last = updates.last()?;
    Some(last.height())
}

/// The fewest updates, with their fee, beside the least list; none where they would have to be searched, and aren't.
fn fewest_list<A: Allocator + Copy>(
    alloc: A,
    view: &ClientView<'_, A>,
    graph: &Graph<A>,
    goal: Goal,
    least: &[Update],
    is_searched: bool,
) -> Result<Option<PricedList<A>>, AllocError>
    requires table { graph.now ≡ view.now.book }
    requires least { IsLeast (client_of view.now) goal least.now }
    ensures fewest { IfOk result (λ o. IfSome o (IsFewestPriced view.now goal)) }
    ensures searched { is_searched ≡ true → IfOk result (λ o. is_some o ≡ true) }
{
    match fewest(alloc, view, graph, goal, least, is_searched)? {
        Some(updates) => Ok(Some(priced(view, updates))),
        None => Ok(None),
    }
}

/// The updates by which a light client bisects from one height to another, with their fee.
fn bisected<A: Allocator + Copy>(
    alloc: A,
    view: &ClientView<'_, A>,
    graph: &Graph<A>,
    from: &Option<Height>,
    to: &Option<Height>,
) -> Result<Option<PricedList<A>>, AllocError>
    requires { graph.now ≡ view.now.book }
    ensures { IfOk result (IsBisected view.now from.now to.now) }
{
    let (Some(from), Some(to)) = (*from, *to) else {
        return Ok(None);
    };
    match bisection(alloc, view, graph, from, to)? {
        Some(updates) => Ok(Some(priced(view, updates))),
        None => Ok(None),
    }
}

/// Why the updates of the least list that meets a goal are as they are; the fewest updates are searched, if that is wanted, where they
/// aren't known at once. `graph` is the table of the view's book.
pub fn explain_plan<A: Allocator + Copy>(
    alloc: A,
    view: &ClientView<'_, A>,
    graph: &Graph<A>,
    goal: Goal,
    updates: &[Update],
    is_searched: bool,
) -> Result<PlanExplanation<A>, AllocError>
    requires table { graph.now ≡ view.now.book }
    requires least { IsLeast (client_of view.now) goal updates.now }
    ensures { IfOk result (IsPlanExplained view.now goal updates.now is_searched) }
{
    let newest = proof_height(view, &[]);
    let last = last_height(updates);
    let steps = explain_steps(alloc, view, updates)?;
    let direct = direct_step(view, &newest, &last);
    let fewest = fewest_list(alloc, view, graph, goal, updates, is_searched)?;
    let bisection = bisected(alloc, view, graph, &newest, &last)?;
    Ok(PlanExplanation {
        steps,
        newest,
        direct,
        fewest,
        bisection,
    })
}
