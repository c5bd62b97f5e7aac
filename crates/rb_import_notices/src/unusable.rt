//! Notices of what can't be used in the windows of the last turn: expired records, headers from the future, and goals for
//! which there is no header.
ghost use Rattle.std.specs.Prelude.{◌≡◌};
ghost use Rattle.rb_import_notices.specs.Unusable.{count_ahead, future_headers, has_expired, have_expired, is_from_future, is_missed, is_unseen, last_goals, lowest_ahead, no_header_meets, no_record_meets, nothing_trusted, unseen_goal, wants};

use crate::notice::Notice;
use rb_base::{Height, Period, Window};
use rb_import_check::{Commit, Stored};
use rb_import_merge::SeenSetup;
use rb_import_setup::ImportSetup;
use rb_script_types::{Asked, Goal};
use std::fmt;

/// That all of so many records have expired, in words.
#[derive(Clone, Copy)]
pub struct Expired {
    pub records: usize,
}

impl fmt::Display for Expired {
    fn fmt<W: fmt::Write>(&self, f: &mut fmt::Formatter<W>) -> fmt::Result {
        match self.records {
            0 => f.write_str("it has stored no consensus state"),
            1 => f.write_str("its stored consensus state has expired at the window's end"),
            records => write!(
                f,
                "all {records} stored consensus states have expired at the window's end"
            ),
        }
    }
}

/// The height of a goal, and which one it wants, in words.
pub fn wanted_height(goal: Goal) -> (u64, &'static str) {
    match goal {
        Goal::Exactly(height) => (height.get(), "at the goal's"),
        Goal::AtLeast(height) => (height.get(), "at or above the goal's"),
    }
}

/// The client at a place, where none of its records is trusted to the end of its window in the last turn.
pub fn nothing_trusted(setup: &ImportSetup, seen: &SeenSetup<'_>, client: usize) -> Option<Notice>
    ensures { result ≡ nothing_trusted setup.now seen.now client }
{
    let turn = setup.turns.last()?;
    let judging = seen.clients.get(client)?;
    let records = seen.records.get(client)?.as_slice();
    let window = setup.window_of(client, turn.window);
    let is_due = have_expired(judging.period, &window, records);
    is_due.then_some(Notice::NothingTrusted {
        client,
        expired: records.len(),
    })
}

/// Whether all records of a client have expired at a window's end.
fn have_expired(period: Period, window: &Window, records: &[Stored<'_>]) -> bool
    ensures { result ≡ have_expired period window.now records.now }
{
    records
        .iter()
        .all(|record| has_expired(period, window, record))
}

/// Whether a record has expired at a window's end (ICS 7; CometBFT light client, `HeaderExpired`).
fn has_expired(period: Period, window: &Window, stored: &Stored<'_>) -> bool
    ensures { result ≡ has_expired period window.now stored.now }
{
    let last = window.until().nanoseconds();
    stored.state.time.nanoseconds() + u128::from(period.nanoseconds()) <= last
}

/// The client at a place, where it takes headers for such from the future at the beginning of its window in the last turn.
pub fn future_headers(setup: &ImportSetup, seen: &SeenSetup<'_>, client: usize) -> Option<Notice>
    ensures { result ≡ future_headers setup.now seen.now client }
{
    let turn = setup.turns.last()?;
    let own = setup.clients.get(client)?;
    let judging = seen.clients.get(client)?;
    let commits = seen.chains.get(own.tracks)?.commits.as_slice();
    let window = setup.window_of(client, turn.window);
    let lowest = lowest_ahead(judging.drift, &window, commits)?;
    Some(Notice::FutureHeaders {
        client,
        headers: count_ahead(judging.drift, &window, commits),
        lowest,
    })
}

/// The lowest height of the headers that are from the future to a client with this clock drift.
fn lowest_ahead(drift: u64, window: &Window, commits: &[Commit<'_>]) -> Option<u64>
    ensures { result ≡ lowest_ahead drift window.now commits.now }
{
    commits
        .iter()
        .filter(|commit| is_from_future(drift, window, commit))
        .map(|commit| commit.header.height.get())
        .min()
}

/// How many headers are from the future to a client with this clock drift.
fn count_ahead(drift: u64, window: &Window, commits: &[Commit<'_>]) -> usize
    ensures { result ≡ count_ahead drift window.now commits.now }
{
    commits
        .iter()
        .filter(|commit| is_from_future(drift, window, commit))
        .count()
}

/// Whether a header is ahead of a window's first moment by a clock drift or more (ICS 7).
fn is_from_future(drift: u64, window: &Window, commit: &Commit<'_>) -> bool
    ensures { result ≡ is_from_future drift window.now commit.now }
{
    let first = window.from().nanoseconds();
    first + u128::from(drift) <= commit.header.time.nanoseconds()
}

/// The goals of the last turn.
pub fn last_goals(setup: &ImportSetup) -> &[Asked]
    ensures { result.now ≡ last_goals setup.now }
{
    match setup.turns.last() {
        Some(turn) => turn.goals.as_slice(),
        None => &[],
    }
}

/// The goal at a place in the last turn, where nothing of its heights was seen. A chain without any header is told of by
/// itself.
pub fn unseen_goal(setup: &ImportSetup, seen: &SeenSetup<'_>, place: usize) -> Option<Notice>
    ensures { result ≡ unseen_goal setup.now seen.now place }
{
    let asked = last_goals(setup).get(place)?;
    let client = setup.clients.get(asked.client)?;
    let chain = seen.chains.get(client.tracks)?;
    let records = seen.records.get(asked.client)?;
    let is_due = is_missed(&asked.goal, chain.commits.as_slice(), records.as_slice());
    is_due.then_some(Notice::UnseenGoal { goal: place })
}

/// Whether a chain has headers, and neither one of these nor a record is of a height that a goal wants.
fn is_missed(goal: &Goal, commits: &[Commit<'_>], records: &[Stored<'_>]) -> bool
    ensures { result ≡ is_missed goal.now commits.now records.now }
{
    !commits.is_empty() && is_unseen(goal, commits, records)
}

/// Whether neither a header nor a record is of a height that a goal wants.
fn is_unseen(goal: &Goal, commits: &[Commit<'_>], records: &[Stored<'_>]) -> bool
    ensures { result ≡ is_unseen goal.now commits.now records.now }
{
    no_header_meets(*goal, commits) && no_record_meets(*goal, records)
}

/// Whether no header is of a height that a goal wants.
fn no_header_meets(goal: Goal, commits: &[Commit<'_>]) -> bool
    ensures { result ≡ no_header_meets goal commits.now }
{
    commits
        .iter()
        .all(|commit| !wants(goal, commit.header.height))
}

/// Whether no record is.
fn no_record_meets(goal: Goal, records: &[Stored<'_>]) -> bool
    ensures { result ≡ no_record_meets goal records.now }
{
    records
        .iter()
        .all(|record| !wants(goal, record.state.height))
}

/// Whether a goal wants a height.
fn wants(goal: Goal, height: Height) -> bool
    ensures { result ≡ wants goal height }
{
    goal.wants(height)
}
