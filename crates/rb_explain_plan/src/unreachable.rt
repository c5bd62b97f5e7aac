//! A goal that no list of updates meets.
ghost use Rattle.std.specs.Prelude.{◌≡◌, IfOk};
ghost use Rattle.rb_explain_plan.specs.Unreachable.{IsFirstOf, IsFirstWanted, IsUnreachableExplained, bases, has_expired, tried, updates_to};

use crate::step::StepExplanation;
use crate::steps::explain_steps;
use rb_base::Height;
use rb_book::ChainBook;
use rb_plan_types::{Label, Update};
use rb_script_types::Goal;
use rb_step::ClientView;
use std::alloc::{AllocError, Allocator, Global};

/// Why a goal can't be reached: the lowest header that it wants, if the book has one, and the steps that were
/// tried to it, the highest reached heights first, and behind them what is stored and has expired; up to so many.
#[derive(Drop)]
pub struct UnreachableExplanation<A: Allocator = Global> {
    pub wanted: Option<Height>,
    pub tried: Vec<Update, A>,
    pub steps: Vec<Option<StepExplanation>, A>,
}

impl<A: Allocator> UnreachableExplanation<A> {
    fn new(
        wanted: Option<Height>,
        tried: Vec<Update, A>,
        steps: Vec<Option<StepExplanation>, A>,
    ) -> UnreachableExplanation<A>
        ensures wanted { result.wanted ≡ wanted }
        ensures tried { result.tried.items ≡ tried.items }
        ensures steps { result.steps.items ≡ steps.items }
    {
        UnreachableExplanation {
            wanted,
            tried,
            steps,
        }
    }
}

/// The first height that a goal wants, if there was one, or else this one, if the goal wants it.
fn first_of(first: Option<Height>, goal: &Goal, height: Height) -> Option<Height>
    ensures { IsFirstOf goal.now first height result }
{
    match first {
        Some(first) => Some(first),
        None if goal.wants(height) => Some(height),
        None => None,
    }
}

/// The lowest header that a goal wants.
fn first_wanted<A: Allocator + Copy>(book: &ChainBook<A>, goal: &Goal) -> Option<Height>
    ensures { IsFirstWanted book.now goal.now result }
{
    let headers = book.headers();
    let mut first = None;
    for header in headers {
        first = first_of(first, goal, header.height());
    }
    first
}

/// Whether the record at a height expires by the end of the window.
fn has_expired<A: Allocator + Copy>(view: &ClientView<'_, A>, height: Height) -> bool
    ensures { result ≡ has_expired view.now height }
{
    let period = u128::from(view.options().period().nanoseconds());
    let until = view.window().until().nanoseconds();
    match view.book().record(height) {
        Some(record) => record.time().nanoseconds() + period <= until,
        None => false,
    }
}

/// The heights from which steps are tried: what is reached, the highest first, and then what is stored and has expired, the
/// highest first.
fn bases<A: Allocator + Copy>(
    alloc: A,
    view: &ClientView<'_, A>,
    labels: &[Label],
) -> Result<Vec<Height, A>, AllocError>
    ensures { IfOk result (λ heights. heights.items ≡ bases view.now labels.now) }
{
    let reached = labels.iter().rev().map(|label| label.height);
    let stored = view.stored().iter().rev().copied();
    let expired = stored.filter(|height| has_expired(view, *height));
    reached.chain(expired).collect(alloc)
}

/// The updates to a height from the first of these that lie below it, up to so many.
fn updates_to<A: Allocator + Copy>(
    alloc: A,
    heights: &[Height],
    wanted: Height,
    most: usize,
) -> Result<Vec<Update, A>, AllocError>
    ensures { IfOk result (λ updates. updates.items ≡ updates_to heights.now most wanted) }
{
    heights
        .iter()
        .copied()
        .filter(|height| *height < wanted)
        .take(most)
        .map(|height| Update::new(wanted, height))
        .collect(alloc)
}

/// The updates that are tried; none where no header is wanted.
fn tried<A: Allocator + Copy>(
    alloc: A,
    view: &ClientView<'_, A>,
    labels: &[Label],
    wanted: &Option<Height>,
    most: usize,
) -> Result<Vec<Update, A>, AllocError>
    ensures { IfOk result (λ updates. updates.items ≡ tried view.now labels.now most wanted.now) }
{
    match *wanted {
        Some(wanted) => {
            let heights = bases(alloc, view, labels)?;
            updates_to(alloc, heights.as_slice(), wanted, most)
        }
        None => Ok(Vec::new(alloc)),
    }
}

/// Why no list of updates meets a goal, by the labels of the heights that are reached; up to so many steps.
pub fn explain_unreachable<A: Allocator + Copy>(
    alloc: A,
    view: &ClientView<'_, A>,
    labels: &[Label],
    goal: Goal,
    most: usize,
) -> Result<UnreachableExplanation<A>, AllocError>
    ensures { IfOk result (IsUnreachableExplained view.now goal labels.now most) }
{
    let wanted = first_wanted(view.book(), &goal);
    let tried = tried(alloc, view, labels, &wanted, most)?;
    let steps = explain_steps(alloc, view, tried.as_slice())?;
    let explanation = UnreachableExplanation::new(wanted, tried, steps);
    Ok(explanation)
}
