//! About how much of a script each client brings.
ghost use Rattle.std.specs.Prelude.{◌≡◌, ◌≤◌, ◌*◌, ◌++◌, ◌∷◌, [], All, Contains, IfNone, IfOk, IfSome, OnOk, map};
ghost use Rattle.rb_import_merge.specs.Errors.{IsNamedIn};
ghost use Rattle.rb_import.specs.Shares.{IsLargest, capped, chain_size, client_size, header_size, headers_size, path_size, paths_size, serves, set_size_at, sets_size, share_of, shares_of, shown, states_size, total};

use rb_import_check::{Commit, SeenChain};
use rb_import_merge::{KeptSets, SeenSetup};
use rb_import_setup::{ClientSetup, ImportSetup, PathSetup};
use std::alloc::{AllocError, Global};

/// About how many bytes a member of a set is in a script.
const MEMBER_BYTES: u64 = 80;

/// The same of a header without its votes.
const HEADER_BYTES: u64 = 300;

/// The same of a stored consensus state.
const STATE_BYTES: u64 = 250;

/// The same of an event of a packet.
const PACKET_BYTES: u64 = 100;

/// A client, by its identifier, and about how many bytes of a script it brings.
#[derive(Clone, Copy)]
struct Share<'a> {
    id: &'a str,
    size: u64,
}

/// The identifier of a client of the setup that brings no less to a script than any other; `-`, which stands for the script,
/// where the setup has no client.
pub fn largest_id<'a>(
    alloc: Global,
    setup: &'a ImportSetup,
    seen: &SeenSetup<'_>,
) -> Result<&'a str, AllocError>
    ensures largest { IfOk result (λ id. IsLargest setup.entry.now seen.now id.now) }
    ensures named { IfOk result (λ id. IsNamedIn setup.entry.now id.now) }
{
    let shares = shares_of(alloc, setup, seen)?;
    match largest_of(shares.as_slice()) {
        Some(share) => Ok(share.id),
        None => Ok("-"),
    }
}

/// One of these clients that brings no less than any other.
fn largest_of<'a, 's>(shares: &'s [Share<'a>]) -> Option<&'s Share<'a>>
    ensures there { IfSome result (λ share. Contains shares.entry.now share.now) }
    ensures most { IfSome result (λ share. All (λ s. s.size ≤ share.now.size) shares.entry.now) }
    ensures none { IfNone result (shares.entry.now ≡ []) }
{
    shares.iter().max_by_key(|share| share.size)
}

/// How much each client brings.
fn shares_of<'a>(
    alloc: Global,
    setup: &'a ImportSetup,
    seen: &SeenSetup<'_>,
) -> Result<Vec<Share<'a>>, AllocError>
    ensures { IfOk result (λ shares. map shown shares.items ≡ shares_of setup.entry.now seen.now) }
{
    let mut shares = Vec::new(alloc);
    for (place, client) in setup.clients.iter().enumerate() {
        add_share(alloc, setup, seen, place, client, &mut shares)?;
    }
    Ok(shares)
}

/// Adds how much the client at a place brings.
fn add_share<'a>(
    alloc: Global,
    setup: &ImportSetup,
    seen: &SeenSetup<'_>,
    place: usize,
    client: &'a ClientSetup,
    shares: &mut Vec<Share<'a>>,
) -> Result<(), AllocError>
    ensures { OnOk result (map shown shares.new.items ≡ map shown shares.old.items ++ share_of setup.now seen.now (place, client.entry.now) ∷ []) }
{
    let size = client_size(alloc, setup, seen, place, client)?;
    let id = client.id.as_str();
    shares.push(Share { id, size })?;
    Ok(())
}

/// About how many bytes the client at a place brings: its stored consensus states, what the script has of the chain that it
/// tracks, and the packets of the paths that it serves.
fn client_size(
    alloc: Global,
    setup: &ImportSetup,
    seen: &SeenSetup<'_>,
    place: usize,
    client: &ClientSetup,
) -> Result<u64, AllocError>
    ensures { IfOk result (λ size. size ≡ client_size setup.now seen.now place client.now) }
{
    let chain = chain_size(alloc, seen, client.tracks)?;
    let paths = paths_size(alloc, setup, seen, place)?;
    Ok(
        states_size(seen, place)
            .saturating_add(chain)
            .saturating_add(paths),
    )
}

/// The size of so many things, each of so many bytes.
fn times(bytes: u64, count: usize) -> u64
    ensures { result ≡ capped (bytes * count) }
{
    bytes.saturating_mul(count as u64)
}

/// The sum of sizes.
fn total(sizes: &[u64]) -> u64
    ensures { result ≡ total sizes.now }
{
    let mut sum: u64 = 0;
    for size in sizes {
        sum = sum.saturating_add(*size);
    }
    sum
}

/// The size of the consensus states of the client at a place.
fn states_size(seen: &SeenSetup<'_>, place: usize) -> u64
    ensures { result ≡ states_size seen.now place }
{
    match seen.records.get(place) {
        Some(records) => times(STATE_BYTES, records.len()),
        None => 0,
    }
}

/// The size of the sets and the headers of the chain at a place.
fn chain_size(alloc: Global, seen: &SeenSetup<'_>, place: usize) -> Result<u64, AllocError>
    ensures { IfOk result (λ size. size ≡ chain_size seen.now place) }
{
    match (seen.chains.get(place), seen.sets.get(place)) {
        (Some(chain), Some(kept)) => {
            let sets = sets_size(alloc, chain, kept)?;
            let headers = headers_size(alloc, chain)?;
            Ok(sets.saturating_add(headers))
        }
        _ => Ok(0),
    }
}

/// The size of the sets of a chain that are written.
fn sets_size(alloc: Global, chain: &SeenChain<'_>, kept: &KeptSets) -> Result<u64, AllocError>
    ensures { IfOk result (λ size. size ≡ sets_size chain.now kept.now) }
{
    let sizes: Vec<u64> = kept
        .places
        .iter()
        .map(|place| set_size_at(chain, *place))
        .collect(alloc)?;
    Ok(total(sizes.as_slice()))
}

/// The size of a chain's set at a place.
fn set_size_at(chain: &SeenChain<'_>, place: usize) -> u64
    ensures { result ≡ set_size_at chain.now place }
{
    match chain.sets.sets.get(place) {
        Some(seen) => times(MEMBER_BYTES, seen.set.size()),
        None => 0,
    }
}

/// The size of the headers of a chain.
fn headers_size(alloc: Global, chain: &SeenChain<'_>) -> Result<u64, AllocError>
    ensures { IfOk result (λ size. size ≡ headers_size chain.now) }
{
    let sizes: Vec<u64> = chain
        .commits
        .iter()
        .map(|commit| header_size(commit))
        .collect(alloc)?;
    Ok(total(sizes.as_slice()))
}

/// The size of a header, with a byte for each vote.
fn header_size(commit: &Commit<'_>) -> u64
    ensures { result ≡ header_size commit.now }
{
    HEADER_BYTES.saturating_add(commit.header.signatures.len() as u64)
}

/// The size of the packets of the paths that the client at a place serves.
fn paths_size(
    alloc: Global,
    setup: &ImportSetup,
    seen: &SeenSetup<'_>,
    place: usize,
) -> Result<u64, AllocError>
    ensures { IfOk result (λ size. size ≡ paths_size setup.now seen.now place) }
{
    let mut sizes = Vec::new(alloc);
    for (number, path) in setup.paths.iter().enumerate() {
        sizes.push(path_size(seen, place, number, path))?;
    }
    Ok(total(sizes.as_slice()))
}

/// The size of the packets of the path at a number, if the client at a place serves it.
fn path_size(seen: &SeenSetup<'_>, place: usize, number: usize, path: &PathSetup) -> u64
    ensures { result ≡ path_size seen.now place (number, path.now) }
{
    match seen.paths.get(number) {
        Some(seen) if serves(place, path) => times(PACKET_BYTES, seen.packets.len()),
        _ => 0,
    }
}

/// Whether the client at a place serves a path.
fn serves(place: usize, path: &PathSetup) -> bool
    ensures { result ≡ serves place path.now }
{
    path.config.forward == place || path.config.back == place
}
