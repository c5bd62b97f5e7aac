//! Notices of what there is no room for: headers and sets of a chain, records of a client, packets of a path.
ghost use Rattle.std.specs.Prelude.{◌≡◌};
ghost use Rattle.rb_import_notices.specs.Excess.{headers_without_set, lacks_set, too_many_headers, too_many_packets, too_many_records, too_many_sets};

use crate::notice::Notice;
use rb_import_check::Commit;
use rb_import_merge::SeenSetup;

/// The chain at a place, where headers of it are left out.
pub fn too_many_headers(seen: &SeenSetup<'_>, chain: usize) -> Option<Notice>
    ensures { result ≡ too_many_headers seen.now chain }
{
    match seen.headers_left_out(chain) {
        0 => None,
        left_out => Some(Notice::TooManyHeaders { chain, left_out }),
    }
}

/// The chain at a place, where sets of it are left out.
pub fn too_many_sets(seen: &SeenSetup<'_>, chain: usize) -> Option<Notice>
    ensures { result ≡ too_many_sets seen.now chain }
{
    match seen.sets_left_out(chain) {
        0 => None,
        left_out => Some(Notice::TooManySets {
            chain,
            left_out,
            headers: headers_without_set(seen, chain),
        }),
    }
}

/// How many headers of the chain at a place aren't written, since their sets aren't.
fn headers_without_set(seen: &SeenSetup<'_>, place: usize) -> usize
    ensures { result ≡ headers_without_set seen.now place }
{
    match seen.chains.get(place) {
        Some(chain) => chain
            .commits
            .iter()
            .filter(|commit| lacks_set(seen, place, commit))
            .count(),
        None => 0,
    }
}

/// Whether the set of a commit's header isn't written of the chain at a place.
fn lacks_set(seen: &SeenSetup<'_>, place: usize, commit: &Commit<'_>) -> bool
    ensures { result ≡ lacks_set seen.now place commit.now }
{
    !seen.is_written(place, &commit.header.set)
}

/// The client at a place, where some of its records are left out.
pub fn too_many_records(seen: &SeenSetup<'_>, client: usize) -> Option<Notice>
    ensures { result ≡ too_many_records seen.now client }
{
    match seen.left_out(client) {
        0 => None,
        left_out => Some(Notice::TooManyRecords { client, left_out }),
    }
}

/// The path at a place, where it has no room for some of its packets.
pub fn too_many_packets(seen: &SeenSetup<'_>, path: usize) -> Option<Notice>
    ensures { result ≡ too_many_packets seen.now path }
{
    let surplus = seen.paths.get(path)?.surplus?;
    Some(Notice::TooManyPackets { path, surplus })
}
