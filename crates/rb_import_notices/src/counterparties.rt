//! Notices of paths from whose source packets were sent to several destinations.
ghost use Rattle.std.specs.Prelude.{◌≡◌};
ghost use Rattle.rb_import_merge.specs.Packets.{events_of};
ghost use Rattle.rb_import_notices.specs.Counterparties.{has_several, sent_to_several};

use crate::notice::Notice;
use rb_import_check::{Saved, SavedAnswers};
use rb_import_merge::{answers_at, several_counterparties};
use rb_import_setup::{ImportSetup, PathSetup};

/// The path at a place, where packets from its source were sent to several destinations, and the setup names none.
pub fn sent_to_several(setup: &ImportSetup, answers: &SavedAnswers, place: usize) -> Option<Notice>
    ensures { result ≡ sent_to_several setup.now answers.now place }
{
    let path = setup.paths.get(place)?;
    let is_due = has_several(path, answers_at(&answers.paths, place));
    is_due.then_some(Notice::SeveralCounterparties { path: place })
}

/// The destination that is taken of a path's packets, and another one; empty texts where there aren't two.
pub fn ends_of<'a>(path: &PathSetup, saved: &'a [Saved]) -> (&'a str, &'a str) {
    match several_counterparties(path, saved) {
        Some(ends) => (ends.taken, ends.other),
        None => ("", ""),
    }
}

/// Whether the setup names no counterparty of a path, and packets were sent from its source to several destinations.
fn has_several(path: &PathSetup, saved: &[Saved]) -> bool
    ensures { result ≡ has_several path.now (events_of saved.now) }
{
    several_counterparties(path, saved).is_some()
}
