//! What a client is to be brought to.
ghost use Rattle.std.specs.Prelude.{◌≡◌, ◌≢◌, Some, None, false, nat_le, find, map};
ghost use Rattle.std.specs.Option.{option_copied, option_map, option_map_or};
ghost use Rattle.rb_book.specs.Book.{time_of};
ghost use Rattle.rb_scan.specs.Owed.{wanted};
ghost use Rattle.rb_script_types.specs.Goal.{height_in};
ghost use Rattle.rb_plan_client.specs.Task.{Message, newest_stored, is_due, is_fresh, lowest_fresh, fresh_reach, terms_of, reach_record, gain_time, newer_height, refresh_height, is_apart, due_messages, first_goal, asked_in_reach, joined_goal, goal_of};

use crate::job::JobView;
use crate::message::Message;
use crate::next::greater;
use rb_base::Height;
use rb_book::{Record, RecordAt};
use rb_plan_types::{Terms, needed_time};
use rb_script_types::{Goal, RefreshTo};
use std::alloc::Allocator;

/// The record of the client's greatest stored height.
fn newest_stored<A: Allocator + Copy>(job: &JobView<A>) -> Option<&Record>
    ensures { option_copied result ≡ newest_stored job.now.task }
{
    job.book().record(*job.stored().last()?)
}

/// Whether that record is due for a refresh by the end of the window: as many nanoseconds after its
/// time as the client is set up with, 0 being never.
fn is_due<A: Allocator + Copy>(job: &JobView<A>) -> bool
    ensures { result ≡ is_due job.now.task }
{
    let refresh = job.config().refresh;
    let until = job.window().until().nanoseconds();
    match newest_stored(job) {
        Some(newest) => refresh != 0 && newest.time().nanoseconds() + u128::from(refresh) <= until,
        None => false,
    }
}

/// Whether a record of the book is not due for a refresh by then.
fn is_fresh<A: Allocator + Copy>(job: &JobView<A>, entry: &RecordAt) -> bool
    ensures { result ≡ is_fresh job.now.task entry.now }
{
    let time = entry.record().time().nanoseconds();
    job.window().until().nanoseconds() < time + u128::from(job.config().refresh)
}

/// The lowest record of the book that is fresh.
fn first_fresh<A: Allocator + Copy>(job: &JobView<A>) -> Option<&RecordAt>
    ensures { option_copied result ≡ find (is_fresh job.now.task) job.now.task.book.records }
{
    job.book()
        .records()
        .iter()
        .find(|entry| is_fresh(job, entry))
}

/// The height of the lowest fresh record.
fn lowest_fresh<A: Allocator + Copy>(job: &JobView<A>) -> Option<Height>
    ensures { result ≡ lowest_fresh job.now.task }
{
    Some(first_fresh(job)?.height())
}

/// The reach, where its record is fresh.
fn fresh_reach<A: Allocator + Copy>(job: &JobView<A>, reach: Option<Height>) -> Option<Height>
    ensures { result ≡ fresh_reach job.now.task reach }
{
    let height = reach?;
    let time = job.book().record(height)?.time().nanoseconds();
    if job.window().until().nanoseconds() < time + u128::from(job.config().refresh) {
        Some(height)
    } else {
        None
    }
}

/// The height to which the client is refreshed by age; None where it is not due, or no record is fresh.
fn height_by_age<A: Allocator + Copy>(
    job: &JobView<A>,
    reach: Option<Height>,
    to: RefreshTo,
) -> Option<Height>
    requires { to ≢ RefreshTo.Newer }
    ensures { result ≡ refresh_height job.now.task reach to }
{
    if !is_due(job) {
        return None;
    }
    match to {
        RefreshTo::Highest => fresh_reach(job, reach).or(lowest_fresh(job)),
        _ => lowest_fresh(job),
    }
}

/// What a refresh by gain goes by.
pub(crate) fn terms_of<A: Allocator + Copy>(job: &JobView<A>) -> Terms
    ensures { result ≡ terms_of job.now.task }
{
    let config = job.config();
    Terms {
        period: config.options.period().nanoseconds(),
        refresh: config.refresh,
    }
}

/// The record of the greatest height that the client can be brought to.
pub(crate) fn reach_record<A: Allocator + Copy>(
    job: &JobView<A>,
    reach: Option<Height>,
) -> Option<&Record>
    ensures { option_copied result ≡ reach_record job.now.task reach }
{
    job.book().record(reach?)
}

/// The time that a refresh by gain needs, in nanoseconds since 1970-01-01T00:00:00Z.
fn gain_time<A: Allocator + Copy>(job: &JobView<A>, reach: Option<Height>) -> Option<u128>
    ensures { result ≡ gain_time job.now.task reach }
{
    let newest = newest_stored(job)?;
    let reached = reach_record(job, reach)?;
    needed_time(
        terms_of(job),
        newest.time(),
        reached.time(),
        job.window().until(),
    )
}

/// The lowest record of the book of this time or a later one.
fn first_since<A: Allocator + Copy>(job: &JobView<A>, time: u128) -> Option<&RecordAt>
    ensures { option_copied result ≡ find (λ k. nat_le time (time_of k)) job.now.task.book.records }
{
    job.book()
        .records()
        .iter()
        .find(|entry| time <= entry.record().time().nanoseconds())
}

/// The height that a refresh by gain needs, or one above it; None where none is needed.
pub fn newer_height<A: Allocator + Copy>(job: &JobView<A>, reach: Option<Height>) -> Option<Height>
    ensures { result ≡ newer_height job.now.task reach }
{
    Some(first_since(job, gain_time(job, reach)?)?.height())
}

/// Whether the client's updates go in transactions of their own: where it is refreshed by gain, and a refresh is needed.
pub fn is_apart<A: Allocator + Copy>(job: &JobView<A>, reach: &Option<Height>) -> bool
    ensures { result ≡ is_apart job.now.task reach.now }
{
    match job.config().refresh_to {
        RefreshTo::Lowest | RefreshTo::Highest => false,
        RefreshTo::Newer => newer_height(job, *reach).is_some(),
    }
}

/// The greatest floor of messages, from which all of them can be proved.
fn wanted(messages: &[Message]) -> Option<Height>
    ensures { result ≡ wanted (map (λ (m : Message). m.packet) messages.now) }
{
    messages
        .iter()
        .map(|message| message.packet())
        .map(|packet| packet.floor)
        .max()
}

/// The first of the client's needs: what was asked for, else the height that messages want, else a refresh by age.
fn first_goal<A: Allocator + Copy>(
    job: &JobView<A>,
    reach: Option<Height>,
    wanted: Option<Height>,
    to: RefreshTo,
) -> Option<Goal>
    requires by_age { to ≢ RefreshTo.Newer }
    requires its_own { to ≡ job.now.task.config.refresh_to }
    ensures { result ≡ first_goal job.now.task reach wanted }
{
    if let Some(asked) = job.asked() {
        return Some(asked);
    }
    if let Some(height) = wanted {
        return Some(Goal::AtLeast(height));
    }
    Some(Goal::AtLeast(height_by_age(job, reach, to)?))
}

/// Whether a goal's height is in reach.
fn is_in_reach(goal: &Goal, reach: Option<Height>) -> bool
    ensures { result ≡ option_map_or (λ r. nat_le (height_in goal.now) r) reach false }
{
    let height = goal.height();
    match reach {
        Some(reach) => height <= reach,
        None => false,
    }
}

/// What was asked for, where the client can be brought so high.
fn asked_in_reach<A: Allocator + Copy>(job: &JobView<A>, reach: Option<Height>) -> Option<Goal>
    ensures { result ≡ asked_in_reach job.now.task reach }
{
    let asked = job.asked()?;
    if is_in_reach(&asked, reach) {
        Some(asked)
    } else {
        None
    }
}

/// At least a height, if there is one.
fn at_least(height: Option<Height>) -> Option<Goal>
    ensures { result ≡ option_map (λ h. Goal.AtLeast h) height }
{
    Some(Goal::AtLeast(height?))
}

/// What was asked for, joined with the height that is needed beside it.
fn joined_with(asked: Goal, needed: Option<Height>) -> Option<Goal>
    ensures { result ≡ joined_goal (Some asked) None needed }
{
    match asked {
        Goal::Exactly(_) => Some(asked),
        Goal::AtLeast(height) => at_least(greater(Some(height), needed)),
    }
}

/// One goal of what was asked for, the height that messages want, and the height that a refresh needs.
fn joined_goal(asked: Option<Goal>, wanted: Option<Height>, refresh: Option<Height>) -> Option<Goal>
    ensures { result ≡ joined_goal asked wanted refresh }
{
    let needed = greater(wanted, refresh);
    match asked {
        Some(asked) => joined_with(asked, needed),
        None => at_least(needed),
    }
}

/// What the client is to be brought to. By age it is the first of its needs: what was asked for, the height that proves
/// the due messages, a refresh. By gain it is one goal of all of them, or else what was asked for out of reach. The
/// reach is the greatest height that the client can be brought to.
pub fn goal_of<A: Allocator + Copy>(
    job: &JobView<A>,
    reach: &Option<Height>,
    due: &[Message],
) -> Option<Goal>
    requires { due.now ≡ due_messages job.now.task reach.now }
    ensures { result ≡ goal_of job.now.task reach.now }
{
    let wanted = wanted(due);
    match job.config().refresh_to {
        RefreshTo::Newer => {
            let asked = asked_in_reach(job, *reach);
            joined_goal(asked, wanted, newer_height(job, *reach)).or(job.asked())
        }
        to => first_goal(job, *reach, wanted, to),
    }
}
