//! Notices of chains of which some commits aren't canonical yet.
ghost use Rattle.std.specs.Prelude.{◌≡◌};
ghost use Rattle.rb_import_notices.specs.Canonical.{highest_in, is_uncanonical, not_canonical, uncanonical_in};

use crate::notice::Notice;
use rb_import_check::Commit;
use rb_import_merge::SeenSetup;

/// The chain at a place, where some of its commits aren't canonical.
pub fn not_canonical(seen: &SeenSetup<'_>, chain: usize) -> Option<Notice>
    ensures { result ≡ not_canonical seen.now chain }
{
    let commits = seen.chains.get(chain)?.commits.as_slice();
    let highest = highest_in(commits)?;
    Some(Notice::NotCanonical {
        chain,
        commits: uncanonical_in(commits),
        highest,
    })
}

/// How many of these commits aren't canonical.
fn uncanonical_in(commits: &[Commit<'_>]) -> usize
    ensures { result ≡ uncanonical_in commits.now }
{
    commits
        .iter()
        .filter(|commit| is_uncanonical(commit))
        .count()
}

/// The greatest height of those of these commits that aren't canonical.
fn highest_in(commits: &[Commit<'_>]) -> Option<u64>
    ensures { result ≡ highest_in commits.now }
{
    commits
        .iter()
        .filter(|commit| is_uncanonical(commit))
        .map(|commit| commit.header.height.get())
        .max()
}

/// Whether a commit isn't canonical.
fn is_uncanonical(commit: &Commit<'_>) -> bool
    ensures { result ≡ is_uncanonical commit.now }
{
    !commit.header.is_canonical
}
