//! The checks of the updates.
ghost use Rattle.std.specs.Prelude.{◌≡◌, Some, OnOk, IfOk, IfErr, IfSome, IfNone};
ghost use Rattle.rb_step.specs.LightClient.{IsAcceptable};
ghost use Rattle.rb_step.specs.View.{IsView, client_of};
ghost use Rattle.rb_script_types.specs.declared.goal.Goal.{Goal};
ghost use Rattle.rb_plan_types.specs.Goal.{Meets};
ghost use Rattle.rb_plan_types.specs.Order.{cost_of};
ghost use Rattle.rb_plan_types.specs.Labelling.{Labels, label_of};
ghost use Rattle.rb_cert.specs.Checks.{IsFirstOf, AreTight};
ghost use Rattle.rb_cert.specs.Places.{IsPlaceOf, AreMarked, IsAllowedFrom};
ghost use Rattle.rb_cert.specs.Accepted.{AreAccepted};

use crate::accepted::{AcceptedSteps, accepts_again};
use crate::labels::is_labelled;
use crate::places::{Places, place_of};
use crate::verdict::Reason;
use rb_plan_types::{Cost, Labelling, Update};
use rb_script_types::Goal;
use rb_step::ClientView;
use std::alloc::Allocator;

/// 603: each update trusts a height that is stored or an earlier update's, and its step is
/// accepted. Linear in the updates: what is stored after the earlier ones is marked by the places
/// of its records, and the votes for a header are counted once for each next set.
pub(crate) fn check_accepted<A: Allocator + Copy>(
    view: &ClientView<'_, A>,
    updates: &[Update],
) -> Result<(), Reason>
    ensures ok { OnOk result (IsAcceptable (client_of view.now) updates.now) }
    ensures err { IfErr result (λ r. (label : Labels) (goal : Goal) → IsFirstOf 3 (client_of view.now) label goal (Some updates.now) r) }
{
    let mut stored = stored_places(view);
    let mut accepted = AcceptedSteps::none();
    for (index, update) in updates.iter().enumerate() {
        match accepted_place(view, &stored, *update, &mut accepted) {
            Some(place) => stored.insert(place),
            None => return Err(Reason::PlanNotAccepted(index)),
        }
    }
    Ok(())
}

/// The places of the records of the stored heights.
fn stored_places<A: Allocator + Copy>(view: &ClientView<'_, A>) -> Places
    ensures marked { AreMarked result.words view.now.book.records view.now.stored }
    ensures view { IsView view.now }
{
    let records = view.book().records();
    let mut stored = Places::none();
    for height in view.stored() {
        if let Some(place) = place_of(records, *height) {
            stored.insert(place);
        }
    }
    stored
}

/// The place of the record of the update's height, if the update trusts a height whose place is
/// stored, and its step is accepted.
fn accepted_place<A: Allocator + Copy>(
    view: &ClientView<'_, A>,
    stored: &Places,
    update: Update,
    accepted: &mut AcceptedSteps,
) -> Option<usize>
    requires { AreAccepted accepted.old.words view.now }
    ensures some { IfSome result (λ place. IsPlaceOf view.now.book.records update.height place
        × IsAllowedFrom stored.now.words view.now.book.records (client_of view.now) update) }
    ensures none { IfNone result (¬ IsAllowedFrom stored.now.words view.now.book.records (client_of view.now) update) }
    ensures accepted { AreAccepted accepted.new.words view.now }
{
    let records = view.book().records();
    let trusted = place_of(records, update.trusted())?;
    let place = place_of(records, update.height())?;
    if stored.contains(trusted)
        && accepts_again(view, &records[trusted], update.height(), place, accepted)
    {
        Some(place)
    } else {
        None
    }
}

/// 607: the updates leave a height stored and live that the goal wants.
pub(crate) fn check_met<A: Allocator + Copy>(
    view: &ClientView<'_, A>,
    goal: &Goal,
    updates: &[Update],
) -> Result<(), Reason>
    ensures ok { OnOk result (Meets (client_of view.now) goal.now updates.now) }
    ensures err { IfErr result (λ r. (label : Labels) → IsFirstOf 4 (client_of view.now) label goal.now (Some updates.now) r) }
{
    for height in view.stored() {
        if goal.wants(*height) && view.is_live(*height) {
            return Ok(());
        }
    }
    for update in updates {
        if goal.wants(update.height()) && view.is_live(update.height()) {
            return Ok(());
        }
    }
    Err(Reason::GoalMissed)
}

/// 604: the updates up to each one cost what its height is labelled. Answers what all cost. It
/// stops at the first update that doesn't, so that no sum is more than a label and a fee.
pub(crate) fn check_tight<A: Allocator + Copy>(
    view: &ClientView<'_, A>,
    labelling: &Labelling<A>,
    updates: &[Update],
) -> Result<Cost, Reason>
    ensures ok { OnOk result (AreTight (client_of view.now) (label_of labelling.now) updates.now) }
    ensures total { IfOk result (λ total. total ≡ cost_of (client_of view.now) updates.now) }
    ensures err { IfErr result (λ r. (goal : Goal) → IsFirstOf 5 (client_of view.now) (label_of labelling.now) goal (Some updates.now) r) }
{
    let mut total = Cost::ZERO;
    for (index, update) in updates.iter().enumerate() {
        total = total.after_update(view.fee(update.trusted(), update.height()));
        if !is_labelled(labelling, update.height(), total) {
            return Err(Reason::PlanNotTight(index));
        }
    }
    Ok(total)
}
