//! When a client has a goal next.
ghost use Rattle.std.specs.Prelude.{◌≡◌, IfOk, max, map};
ghost use Rattle.std.specs.List.{reduce};
ghost use Rattle.std.specs.Option.{option_copied};
ghost use Rattle.rb_scan.specs.Expiry.{lesser};
ghost use Rattle.rb_step.specs.LightClient.{Update};
ghost use Rattle.rb_plan_client.specs.Draft.{planned_updates};
ghost use Rattle.rb_plan_client.specs.Next.{IsNextWithin};
ghost use Rattle.rb_plan_client.specs.Task.{greater, newest_after, is_overtaken, refresh_moment, if_later, no_earlier, gain_moment, first_press, next_by, next_moment};

use crate::goal::{reach_record, terms_of};
use crate::job::JobView;
use crate::planned::Planned;
use crate::waiting::{earlier, first_beyond, lesser};
use rb_base::{Height, Moment};
use rb_book::Record;
use rb_plan_types::{Update, proof_height, refresh_moment as moment_of_refresh};
use rb_script_types::RefreshTo;
use std::alloc::{AllocError, Allocator};

/// The greatest height of updates.
fn highest(updates: &[Update]) -> Option<Height>
    ensures { result ≡ reduce max (map (λ (u : Update). u.height) updates.now) }
{
    updates.iter().map(|update| update.height()).max()
}

/// The greater of two heights, or the only one.
pub(crate) fn greater(height: Option<Height>, other: Option<Height>) -> Option<Height>
    ensures { result ≡ greater height other }
{
    match (height, other) {
        (Some(height), Some(other)) => Some(height.max(other)),
        (height, other) => height.or(other),
    }
}

/// The record of the greatest height that the client has stored once updates are taken.
fn newest_after<'a, A: Allocator + Copy>(
    job: &'a JobView<A>,
    updates: &[Update],
) -> Option<&'a Record>
    ensures { option_copied result ≡ newest_after job.now.task updates.now }
{
    let stored = job.stored().last().copied();
    job.book().record(greater(stored, highest(updates))?)
}

/// Whether the highest known record is later.
fn is_overtaken<A: Allocator + Copy>(job: &JobView<A>, newest: &Record) -> bool
    ensures { result ≡ is_overtaken job.now.task newest.now }
{
    match job.book().records().last() {
        Some(entry) => newest.time() < entry.record().time(),
        None => false,
    }
}

/// The moment, in nanoseconds since 1970-01-01T00:00:00Z, from which on the client is due for a refresh
/// once updates are taken, where a later record is known.
fn refresh_moment<A: Allocator + Copy>(job: &JobView<A>, updates: &[Update]) -> Option<u128>
    ensures { result ≡ refresh_moment job.now.task updates.now }
{
    let newest = newest_after(job, updates)?;
    let refresh = job.config().refresh;
    if refresh != 0 && is_overtaken(job, newest) {
        Some(newest.time().nanoseconds() + u128::from(refresh))
    } else {
        None
    }
}

/// A moment that is still to come, and at which a window can end.
fn if_later<A: Allocator + Copy>(job: &JobView<A>, moment: Option<u128>) -> Option<Moment>
    ensures { result ≡ if_later job.now.task moment }
{
    let moment = moment?;
    if job.window().until().nanoseconds() < moment {
        Moment::new(moment)
    } else {
        None
    }
}

/// The first moment after the window at which a message that waits presses, or the client is due for a
/// refresh by age, once updates are taken.
fn next_by_age<A: Allocator + Copy>(
    job: &JobView<A>,
    reach: Option<Height>,
    first: &Option<u128>,
    updates: &[Update],
) -> Option<Moment>
    requires { first.now ≡ first_press job.now.task reach }
    ensures { result ≡ lesser (if_later job.now.task (first_press job.now.task reach)) (if_later job.now.task (refresh_moment job.now.task updates.now)) }
{
    let pressing = if_later(job, *first);
    let refreshing = if_later(job, refresh_moment(job, updates));
    earlier(pressing, refreshing)
}

/// A moment, or the window's end where that is later, if a window can end then.
fn no_earlier<A: Allocator + Copy>(job: &JobView<A>, moment: Option<u128>) -> Option<Moment>
    ensures { result ≡ no_earlier job.now.task moment }
{
    let moment = Moment::new(moment?)?;
    Some(moment.max(job.window().until()))
}

/// The moment from which on a refresh by gain is needed once updates are taken, by what can be reached now.
fn gain_moment<A: Allocator + Copy>(
    job: &JobView<A>,
    reach: Option<Height>,
    updates: &[Update],
) -> Option<u128>
    ensures { result ≡ gain_moment job.now.task reach updates.now }
{
    let newest = newest_after(job, updates)?;
    let reached = reach_record(job, reach)?;
    moment_of_refresh(terms_of(job), newest.time(), reached.time())
}

/// The first moment, from the window's end on, at which a message presses beyond the proof height, or a refresh by
/// gain is needed, once updates are taken.
fn next_by_gain<A: Allocator + Copy>(
    alloc: A,
    job: &JobView<A>,
    reach: &Option<Height>,
    proof: &Option<Height>,
    updates: &[Update],
) -> Result<Option<Moment>, AllocError>
    ensures { IfOk result (λ next. next ≡ next_by job.now.task reach.now proof.now updates.now RefreshTo.Newer) }
{
    let pressing = first_beyond(alloc, job, proof, reach)?;
    let refreshing = gain_moment(job, *reach, updates);
    Ok(no_earlier(job, lesser(pressing, refreshing)))
}

/// The updates that are planned for a client: none where it has no goal, or where no list meets it.
fn planned_updates<A: Allocator>(planned: &Option<Planned<A>>) -> &[Update]
    ensures { result.now ≡ planned_updates planned.now }
{
    let Some(planned) = planned else {
        return &[];
    };
    match planned.plan() {
        Some(plan) => plan.updates(),
        None => &[],
    }
}

/// The first moment at which a client has a goal next, once what is planned for it is taken, by how it is refreshed.
pub fn next_once_taken<A: Allocator + Copy>(
    alloc: A,
    job: &JobView<A>,
    reach: &Option<Height>,
    first: &Option<u128>,
    planned: &Option<Planned<A>>,
) -> Result<Option<Moment>, AllocError>
    requires { first.now ≡ first_press job.now.task reach.now }
    ensures { IfOk result (IsNextWithin job.now.task reach.now (planned_updates planned.now)) }
{
    let updates = planned_updates(planned);
    match job.config().refresh_to {
        RefreshTo::Lowest | RefreshTo::Highest => Ok(next_by_age(job, *reach, first, updates)),
        RefreshTo::Newer => {
            let proof = proof_height(&job.view(), updates);
            next_by_gain(alloc, job, reach, &proof, updates)
        }
    }
}
