//! Notices of searches for a path's packets that aren't there.
ghost use Rattle.std.specs.Prelude.{◌≡◌};
ghost use Rattle.rb_import_notices.specs.Unsearched.{are_missing, missing_searches, searches_of};

use crate::notice::Notice;
use rb_import_check::{Saved, SavedAnswers};
use rb_import_merge::{Searches, first_of, is_pending, searches_of};
use rb_import_setup::ImportSetup;

/// The names of the events that are lacking, behind a space.
pub fn lacking_names(searches: Searches) -> &'static str {
    let Searches {
        lacks_sent,
        lacks_received,
        lacks_cleared,
        ..
    } = searches;
    match (lacks_sent, lacks_received, lacks_cleared) {
        (true, true, true) => " send_packet, recv_packet, acknowledge_packet or timeout_packet",
        (true, true, false) => " send_packet or recv_packet",
        (true, false, true) => " send_packet, acknowledge_packet or timeout_packet",
        (true, false, false) => " send_packet",
        (false, true, true) => " recv_packet, acknowledge_packet or timeout_packet",
        (false, true, false) => " recv_packet",
        (false, false, true) => " acknowledge_packet or timeout_packet",
        (false, false, false) => "",
    }
}

/// The path at a place, where packets of it may be pending, and searches for them aren't there.
pub fn missing_searches(setup: &ImportSetup, answers: &SavedAnswers, place: usize) -> Option<Notice>
    ensures { result ≡ missing_searches setup.now answers.now place }
{
    let path = setup.paths.get(place)?;
    let saved = answers.paths.get(place)?.as_slice();
    let searches = searches_in(saved);
    let is_due = are_missing(searches) && is_pending(saved, first_of(path, saved));
    is_due.then_some(Notice::MissingSearches {
        path: place,
        searches,
    })
}

/// Of what a path's answers tell nothing.
fn searches_in(saved: &[Saved]) -> Searches
    ensures { result ≡ searches_of saved.now }
{
    searches_of(saved)
}

/// Whether fewer answers are empty than kinds of events are lacking.
fn are_missing(searches: Searches) -> bool
    ensures { result ≡ are_missing searches }
{
    searches.are_missing()
}
