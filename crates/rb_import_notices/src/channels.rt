//! Notices of paths with another source than those that packets came from.
ghost use Rattle.std.specs.Prelude.{◌≡◌};
ghost use Rattle.rb_import_notices.specs.Channels.{is_of_others, other_channel};

use crate::notice::Notice;
use rb_import_check::{Saved, SavedAnswers};
use rb_import_merge::{answers_at, other_source};
use rb_import_setup::{ImportSetup, PathSetup};

/// The path at a place, where its answers tell of packets, but of none from the source that the setup names.
pub fn other_channel(setup: &ImportSetup, answers: &SavedAnswers, place: usize) -> Option<Notice>
    ensures { result ≡ other_channel setup.now answers.now place }
{
    let path = setup.paths.get(place)?;
    let is_due = is_of_others(path, answers_at(&answers.paths, place));
    is_due.then_some(Notice::OtherChannel { path: place })
}

/// The source that the setup names for a path, and that of the first packet; empty texts where the setup names none, or its own.
pub fn sources_of<'a>(path: &'a PathSetup, saved: &'a [Saved]) -> (&'a str, &'a str) {
    match other_source(path, saved) {
        Some(sources) => (sources.named, sources.told),
        None => ("", ""),
    }
}

/// Whether the setup names a path's source, and the answers tell of packets, but of none from it.
fn is_of_others(path: &PathSetup, saved: &[Saved]) -> bool
    ensures { result ≡ is_of_others path.now saved.now }
{
    other_source(path, saved).is_some()
}
