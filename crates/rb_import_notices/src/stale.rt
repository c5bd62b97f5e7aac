//! Notices of clients that are due for a refresh, and for which no header serves.
ghost use Rattle.std.specs.Prelude.{◌≡◌, ◌+◌, ◌≤◌, nat_le};
ghost use Rattle.rb_import_notices.specs.Stale.{are_stale, none_serves, nothing_fresh, terms_of};

use crate::notice::Notice;
use rb_base::{Moment, Window};
use rb_import_check::{Commit, SeenClient, Stored};
use rb_import_merge::SeenSetup;
use rb_import_setup::{ClientSetup, ImportSetup};
use rb_plan_types::{Terms, needed_time};

/// The client at a place, where it is due for a refresh by the end of its window in the last turn, and no header serves.
pub fn nothing_fresh(setup: &ImportSetup, seen: &SeenSetup<'_>, client: usize) -> Option<Notice>
    ensures { result ≡ nothing_fresh setup.now seen.now client }
{
    let turn = setup.turns.last()?;
    let own = setup.clients.get(client)?;
    let chain = seen.chains.get(own.tracks)?;
    let judging = seen.clients.get(client)?;
    let records = seen.records.get(client)?;
    let is_due = are_stale(
        terms_of(own, judging),
        &setup.window_of(client, turn.window),
        chain.commits.as_slice(),
        records.as_slice(),
    );
    is_due.then_some(Notice::NothingFresh { client })
}

fn terms_of(client: &ClientSetup, seen: &SeenClient<'_>) -> Terms
    ensures { result ≡ terms_of client.now seen.now }
{
    let period = seen.period.nanoseconds();
    Terms {
        period,
        refresh: client.terms.refresh.unwrap_or(period / 3),
    }
}

/// Whether a client that is refreshed is due for it at a window's end, and no header serves.
fn are_stale(terms: Terms, window: &Window, commits: &[Commit<'_>], records: &[Stored<'_>]) -> bool
    ensures { result ≡ are_stale terms window.now commits.now records.now }
{
    match records.last() {
        Some(newest) => {
            let stored = newest.state.time;
            terms.refresh != 0
                && is_due(terms, window, stored)
                && none_serves(terms, window, stored, commits)
        }
        None => false,
    }
}

/// Whether a consensus state of this time is due for a refresh by a window's end.
fn is_due(terms: Terms, window: &Window, stored: Moment) -> bool
    ensures { result ≡ nat_le (stored + terms.refresh) window.now.until }
{
    stored.nanoseconds() + u128::from(terms.refresh) <= window.until().nanoseconds()
}

fn none_serves(terms: Terms, window: &Window, stored: Moment, commits: &[Commit<'_>]) -> bool
    ensures { result ≡ none_serves terms window.now stored commits.now }
{
    commits.iter().all(|commit| needed_time(
        terms,
        stored,
        commit.header.time,
        window.until(),
    ).is_none())
}
