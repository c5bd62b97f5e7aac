//! Notices of chains of which some commits have no verdict on their signatures, or none has.
ghost use Rattle.std.specs.Prelude.{◌≡◌};
ghost use Rattle.rb_import_check.specs.Verdicts.{has_verdicts};
ghost use Rattle.rb_import_merge.specs.Seen.{answers_at};
ghost use Rattle.rb_import_notices.specs.Verified.{is_unverified, not_verified, unverified_at, unverified_commits};

use crate::headers::lacks_headers;
use crate::notice::Notice;
use rb_import_check::{Commit, SavedAnswers, has_verdicts};
use rb_import_merge::{SeenSetup, answers_at};

/// The chain at a place, where its answers hold verdicts, but none on some commit.
pub fn not_verified(answers: &SavedAnswers, seen: &SeenSetup<'_>, chain: usize) -> Option<Notice>
    ensures { result ≡ not_verified answers.now seen.now chain }
{
    if !hold_verdicts(answers, chain) {
        return None;
    }
    match unverified_at(seen, chain) {
        0 => None,
        headers => Some(Notice::NotVerified { chain, headers }),
    }
}

/// Whether the answers on the chain at a place hold verdicts.
fn hold_verdicts(answers: &SavedAnswers, place: usize) -> bool
    ensures { result ≡ has_verdicts (answers_at answers.now.chains.items place) }
{
    has_verdicts(answers_at(&answers.chains, place))
}

/// How many headers of the chain at a place have no verdict on their commits.
fn unverified_at(seen: &SeenSetup<'_>, place: usize) -> usize
    ensures { result ≡ unverified_at seen.now place }
{
    match seen.chains.get(place) {
        Some(chain) => chain
            .commits
            .iter()
            .filter(|commit| is_unverified(commit))
            .count(),
        None => 0,
    }
}

fn is_unverified(commit: &Commit<'_>) -> bool
    ensures { result ≡ is_unverified commit.now }
{
    commit.verdict.is_none()
}

/// The chain at a place, where it has headers and its answers hold no verdicts.
pub fn unverified_commits(
    answers: &SavedAnswers,
    seen: &SeenSetup<'_>,
    chain: usize,
) -> Option<Notice>
    ensures { result ≡ unverified_commits answers.now seen.now chain }
{
    let is_due = !lacks_headers(seen, chain) && !hold_verdicts(answers, chain);
    is_due.then_some(Notice::UnverifiedCommits { chain })
}
