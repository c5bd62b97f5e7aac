//! Messages that wait for others to go with them.
ghost use Rattle.std.specs.Prelude.{◌≡◌, ◌+◌, ◌-◌, nat_le, IfOk, fold, map, find};
ghost use Rattle.std.specs.Option.{option_map, option_copied};
ghost use Rattle.rb_book.specs.Book.{height_of, time_of};
ghost use Rattle.rb_scan.specs.Expiry.{lesser};
ghost use Rattle.rb_plan_client.specs.Task.{is_live, near_reach, since, press_moment, moments_beyond, first_beyond, first_press, presses, sending_reach};

use crate::job::JobView;
use crate::leaving::packets_beyond;
use crate::task::PathTask;
use rb_base::{Height, Moment};
use rb_book::RecordAt;
use rb_scan::PacketMsg;
use rb_script_types::Waits;
use std::alloc::{AllocError, Allocator};

/// Whether the record at a height is known, and doesn't expire in the window.
fn is_live<A: Allocator + Copy>(job: &JobView<A>, height: Height) -> bool
    ensures { result ≡ is_live job.now.task height }
{
    let Some(record) = job.book().record(height) else {
        return false;
    };
    let period = u128::from(job.config().options.period().nanoseconds());
    job.window().until().nanoseconds() < record.time().nanoseconds() + period
}

/// The greatest stored height, where it is live: up to it messages can be proved with no update.
pub(crate) fn near_reach<A: Allocator + Copy>(job: &JobView<A>) -> Option<Height>
    ensures { result ≡ near_reach job.now.task }
{
    let newest = *job.stored().last()?;
    if is_live(job, newest) {
        Some(newest)
    } else {
        None
    }
}

/// The lowest record of the book at a height or above it.
fn first_from<A: Allocator + Copy>(job: &JobView<A>, floor: Height) -> Option<&RecordAt>
    ensures { option_copied result ≡ find (λ k. nat_le floor (height_of k)) job.now.task.book.records }
{
    let book = job.book();
    book.records().get(book.lower_count(floor))
}

/// The time of the lowest known height at or above a floor.
fn proved_since<A: Allocator + Copy>(job: &JobView<A>, floor: Height) -> Option<Moment>
    ensures { result ≡ option_map time_of (find (λ k. nat_le floor (height_of k)) job.now.task.book.records) }
{
    Some(first_from(job, floor)?.record().time())
}

/// The earlier of two moments, or the only one.
pub(crate) fn earlier(moment: Option<Moment>, other: Option<Moment>) -> Option<Moment>
    ensures { result ≡ lesser moment other }
{
    match (moment, other) {
        (Some(moment), Some(other)) => Some(moment.min(other)),
        (moment, other) => moment.or(other),
    }
}

/// When a message came to be provable: the time of the lowest known height at or above its floor, or that of the block
/// that wrote what it proves, where it is told and earlier.
fn since<A: Allocator + Copy>(job: &JobView<A>, message: &PacketMsg) -> Option<Moment>
    ensures { result ≡ since job.now.task message.now }
{
    earlier(message.since, proved_since(job, message.floor))
}

/// The lesser of two numbers, or the only one.
pub(crate) fn lesser(number: Option<u128>, other: Option<u128>) -> Option<u128>
    ensures { result ≡ lesser number other }
{
    match (number, other) {
        (Some(number), Some(other)) => Some(number.min(other)),
        (number, other) => number.or(other),
    }
}

/// When a message has waited, in nanoseconds since 1970-01-01T00:00:00Z.
fn waited<A: Allocator + Copy>(job: &JobView<A>, wait: u64, message: &PacketMsg) -> Option<u128>
    ensures { result ≡ option_map (λ moment. moment + wait) (since job.now.task message.now) }
{
    match since(job, message) {
        Some(moment) => Some(moment.nanoseconds() + u128::from(wait)),
        None => None,
    }
}

/// From when on a message would have waited once its packet may have expired.
fn too_late(wait: u64, message: &PacketMsg) -> Option<u128>
    ensures { result ≡ option_map (λ moment. moment - wait) message.now.expires }
{
    match message.expires {
        Some(moment) => Some(moment.nanoseconds().saturating_sub(u128::from(wait))),
        None => None,
    }
}

/// The moment, in nanoseconds since 1970-01-01T00:00:00Z, from which on a message waits for no other: at once where it may
/// not wait; else once it has waited since it came to be provable, or, for a receive, so long before its packet may have
/// expired.
pub fn press_moment<A: Allocator + Copy>(
    job: &JobView<A>,
    waits: &Waits,
    message: &PacketMsg,
) -> Option<u128>
    ensures { result ≡ press_moment job.now.task waits.now message.now }
{
    let wait = waits.of(message.kind);
    if wait == 0 {
        Some(0)
    } else {
        lesser(waited(job, wait, message), too_late(wait, message))
    }
}

/// The first moment at which one of these messages presses, or an earlier one.
fn first_of<A: Allocator + Copy>(
    job: &JobView<A>,
    waits: &Waits,
    messages: &[PacketMsg],
    first: Option<u128>,
) -> Option<u128>
    ensures { result ≡ fold lesser first (map (press_moment job.now.task waits.now) messages.now) }
{
    let mut first = first;
    for message in messages {
        first = lesser(first, press_moment(job, waits, message));
    }
    first
}

/// The same of the messages of a path that are ready at `reach`, but not at `low`.
fn first_on<A: Allocator + Copy>(
    alloc: A,
    job: &JobView<A>,
    low: &Option<Height>,
    reach: &Option<Height>,
    path: &PathTask<A>,
    first: Option<u128>,
) -> Result<Option<u128>, AllocError>
    ensures { IfOk result (λ found. found ≡ fold lesser first (moments_beyond job.now.task low.now reach.now path.now)) }
{
    let far = packets_beyond(alloc, job, low, reach, path)?;
    let waits = path.waits();
    Ok(first_of(job, &waits, far.as_slice(), first))
}

/// The first moment, in nanoseconds since 1970-01-01T00:00:00Z, at which a message presses that is ready at `reach`,
/// but not at `low`.
pub(crate) fn first_beyond<A: Allocator + Copy>(
    alloc: A,
    job: &JobView<A>,
    low: &Option<Height>,
    reach: &Option<Height>,
) -> Result<Option<u128>, AllocError>
    ensures { IfOk result (λ first. first ≡ first_beyond job.now.task low.now reach.now) }
{
    let mut first = None;
    for path in job.paths() {
        first = first_on(alloc, job, low, reach, path, first)?;
    }
    Ok(first)
}

/// The first moment, in nanoseconds since 1970-01-01T00:00:00Z, at which a message presses that only an
/// update brings across.
pub fn first_press<A: Allocator + Copy>(
    alloc: A,
    job: &JobView<A>,
    reach: &Option<Height>,
) -> Result<Option<u128>, AllocError>
    ensures { IfOk result (λ first. first ≡ first_press job.now.task reach.now) }
{
    first_beyond(alloc, job, &near_reach(job), reach)
}

/// The height up to which messages go: the reach where one presses, else the near reach.
pub fn sending_reach<A: Allocator + Copy>(
    job: &JobView<A>,
    reach: Option<Height>,
    first: &Option<u128>,
) -> Option<Height>
    requires { first.now ≡ first_press job.now.task reach }
    ensures { result ≡ sending_reach job.now.task reach }
{
    match *first {
        Some(moment) if moment <= job.window().until().nanoseconds() => reach,
        _ => near_reach(job),
    }
}
