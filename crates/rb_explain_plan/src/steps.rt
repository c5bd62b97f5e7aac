//! Lists of steps, each explained.
ghost use Rattle.std.specs.Prelude.{IfOk};
ghost use Rattle.std.specs.List.{AllZip};
ghost use Rattle.rb_explain_plan.specs.Steps.{IsExplainedUpdate, IsDirect};

use crate::step::{StepExplanation, explain_step};
use rb_base::Height;
use rb_plan_types::Update;
use rb_step::ClientView;
use std::alloc::{AllocError, Allocator};

/// The step of each update; none of one that the book doesn't know.
pub(crate) fn explain_steps<A: Allocator + Copy>(
    alloc: A,
    view: &ClientView<'_, A>,
    updates: &[Update],
) -> Result<Vec<Option<StepExplanation>, A>, AllocError>
    ensures { IfOk result (λ steps. AllZip (IsExplainedUpdate view.now) updates.now steps.items) }
{
    let mut steps = Vec::with_capacity(alloc, updates.len())?;
    for update in updates {
        steps.push(explain_step(view, update.trusted(), update.height()))?;
    }
    Ok(steps)
}

/// The step from one height to another, where there are both.
pub(crate) fn direct_step<A: Allocator + Copy>(
    view: &ClientView<'_, A>,
    from: &Option<Height>,
    to: &Option<Height>,
) -> Option<StepExplanation>
    ensures { IsDirect view.now from.now to.now result }
{
    match (*from, *to) {
        (Some(from), Some(to)) => explain_step(view, from, to),
        _ => None,
    }
}
