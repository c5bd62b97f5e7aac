//! Refreshes by gain.
ghost use Rattle.std.specs.Prelude.{◌≡◌};
ghost use Rattle.std.specs.Option.{option_copied};
ghost use Rattle.rb_plan_client.specs.Task.{is_due, newest_stored};
ghost use Rattle.rb_super_turn.specs.Views.{outcome_view};
ghost use Rattle.rb_explain.specs.Refresh.{is_aged, is_live, is_pressed, refresh_by, refresh_in, refresh_to};

use rb_base::Height;
use rb_book::Record;
use rb_plan_client::{JobView, newer_height};
use rb_script_types::RefreshTo;
use rb_super_turn::Outcome;
use std::alloc::Allocator;

/// A refresh of a client: the height that it needs, or one above it; None where it waits for a newer header. And
/// whether it is urgent: from two thirds of the trusting period on.
#[derive(Clone, Copy, PartialEq, Eq)]
pub struct Refresh {
    pub height: Option<Height>,
    pub is_urgent: bool,
}

/// The record of the client's greatest stored height.
fn newest_stored<A: Allocator + Copy>(job: &JobView<A>) -> Option<&Record>
    ensures { option_copied result ≡ newest_stored job.now.task }
{
    job.book().record(*job.stored().last()?)
}

/// Whether that record is due for a refresh by the end of the window.
fn is_due<A: Allocator + Copy>(job: &JobView<A>) -> bool
    ensures { result ≡ is_due job.now.task }
{
    let refresh = job.config().refresh;
    let until = job.window().until().nanoseconds();
    match newest_stored(job) {
        Some(newest) => refresh != 0 && newest.time().nanoseconds() + u128::from(refresh) <= until,
        None => false,
    }
}

/// Whether that record is so old by the end of the window that a refresh is urgent.
fn is_pressed<A: Allocator + Copy>(job: &JobView<A>) -> bool
    ensures { result ≡ is_pressed job.now.task }
{
    let period = job.config().options.period().nanoseconds();
    let age = u128::from(period - period / 3);
    let until = job.window().until().nanoseconds();
    match newest_stored(job) {
        Some(newest) => job.config().refresh != 0 && newest.time().nanoseconds() + age <= until,
        None => false,
    }
}

/// Whether that record would be refreshed by its age alone.
pub(crate) fn is_aged<A: Allocator + Copy>(job: &JobView<A>) -> bool
    ensures { result ≡ is_aged job.now.task }
{
    match job.config().refresh_to {
        RefreshTo::Lowest | RefreshTo::Highest => is_due(job),
        RefreshTo::Newer => is_due(job) || is_pressed(job),
    }
}

/// A refresh with the height that it needs, if there is one; None where none is needed, and none would be by the age
/// alone.
fn refresh_to<A: Allocator + Copy>(job: &JobView<A>, height: Option<Height>) -> Option<Refresh>
    ensures { result ≡ refresh_to job.now.task height }
{
    if height.is_some() || is_aged(job) {
        let is_urgent = is_pressed(job);
        Some(Refresh { height, is_urgent })
    } else {
        None
    }
}

/// Whether that record doesn't expire in the window.
fn is_live<A: Allocator + Copy>(job: &JobView<A>) -> bool
    ensures { result ≡ is_live job.now.task }
{
    let period = u128::from(job.config().options.period().nanoseconds());
    let until = job.window().until().nanoseconds();
    match newest_stored(job) {
        Some(newest) => until < newest.time().nanoseconds() + period,
        None => false,
    }
}

/// The refresh of a client that can be brought to `reach` at most; nothing is told where it has expired, or is refreshed by
/// age.
fn refresh_by<A: Allocator + Copy>(job: &JobView<A>, reach: Option<Height>) -> Option<Refresh>
    ensures { result ≡ refresh_by job.now.task reach job.now.task.config.refresh_to }
{
    match job.config().refresh_to {
        RefreshTo::Lowest | RefreshTo::Highest => None,
        RefreshTo::Newer if is_live(job) => refresh_to(job, newer_height(job, reach)),
        RefreshTo::Newer => None,
    }
}

/// The same beside an outcome: nothing is told while a batch is open.
pub(crate) fn refresh_of<A: Allocator + Copy>(
    job: &JobView<A>,
    outcome: &Outcome<A>,
    reach: &Option<Height>,
) -> Option<Refresh>
    ensures { result ≡ refresh_in job.now.task (outcome_view outcome.now) reach.now }
{
    match outcome {
        Outcome::Held(_) => None,
        Outcome::Idle(_) | Outcome::Planned(_) => refresh_by(job, *reach),
    }
}
