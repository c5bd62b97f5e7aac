//! Notices of a chain's headers: there is none, no answers make their sets, or too few validators signed them.
ghost use Rattle.std.specs.Prelude.{◌≡◌};
ghost use Rattle.rb_import_notices.specs.Headers.{counted, is_tracked, lacks_headers, missing_headers, missing_sets, unsigned_headers};

use crate::notice::Notice;
use rb_import_check::Commit;
use rb_import_merge::SeenSetup;
use rb_import_setup::ImportSetup;

/// The chain at a place, where a client tracks it and there is no header of it.
pub fn missing_headers(setup: &ImportSetup, seen: &SeenSetup<'_>, chain: usize) -> Option<Notice>
    ensures { result ≡ missing_headers setup.now seen.now chain }
{
    let is_due = is_tracked(setup, chain) && lacks_headers(seen, chain);
    is_due.then_some(Notice::MissingHeaders { chain })
}

/// Whether a client tracks the chain at a place.
fn is_tracked(setup: &ImportSetup, chain: usize) -> bool
    ensures { result ≡ is_tracked setup.now chain }
{
    setup.clients.iter().any(|client| client.tracks == chain)
}

/// Whether no header was seen of the chain at a place.
pub fn lacks_headers(seen: &SeenSetup<'_>, chain: usize) -> bool
    ensures { result ≡ lacks_headers seen.now chain }
{
    match seen.chains.get(chain) {
        Some(of) => of.commits.is_empty(),
        None => true,
    }
}

/// The chain at a place, where headers of it are left out for want of their sets.
pub fn missing_sets(seen: &SeenSetup<'_>, chain: usize) -> Option<Notice>
    ensures { result ≡ missing_sets seen.now chain }
{
    let (headers, highest) = counted(seen.chains.get(chain)?.bare.as_slice())?;
    Some(Notice::MissingSets {
        chain,
        headers,
        highest,
    })
}

/// The chain at a place, where headers of it are left out that too few validators signed.
pub fn unsigned_headers(seen: &SeenSetup<'_>, chain: usize) -> Option<Notice>
    ensures { result ≡ unsigned_headers seen.now chain }
{
    let (headers, highest) = counted(seen.chains.get(chain)?.unsigned.as_slice())?;
    Some(Notice::UnsignedHeaders {
        chain,
        headers,
        highest,
    })
}

/// How many headers these are, and the height of the last; none where there are none.
fn counted(commits: &[Commit<'_>]) -> Option<(usize, u64)>
    ensures { result ≡ counted commits.now }
{
    let last = commits.last()?;
    Some((commits.len(), last.header.height.get()))
}
