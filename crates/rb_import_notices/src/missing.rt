//! Notices of the sets that records name as their next and that aren't written.
ghost use Rattle.std.specs.Prelude.{◌≡◌, slice_get};
ghost use Rattle.rb_import_notices.specs.Missing.{is_left_out, is_unseen, left_out_in, missing_next_set, next_height, next_in, next_sets_told, unseen_in, was_seen};

use crate::notice::Notice;
use crate::starts::{Starts, starts_at};
use rb_import_check::Stored;
use rb_import_merge::SeenSetup;
use rb_import_setup::ImportSetup;
use std::fmt;

/// Of how many records of a chain no answer has the next sets, and what to fetch for the highest; and of how many they are
/// left out. Shown as what ends a line.
#[derive(Clone, Copy)]
pub struct NextSets<'a> {
    pub chain: &'a str,
    pub unseen: usize,
    pub next: Option<u64>,
    pub left_out: usize,
}

impl fmt::Display for NextSets<'_> {
    fn fmt<W: fmt::Write>(&self, f: &mut fmt::Formatter<W>) -> fmt::Result {
        let NextSets {
            chain,
            unseen,
            next,
            left_out,
        } = *self;
        if let Some(next) = next {
            write!(
                f,
                "; no answer has those of {unseen} consensus states: fetch all pages of /validators?height={next}&per_page=100, for the highest of them, into files *.json of the folder {chain}"
            )?;
        }
        if left_out != 0 {
            write!(
                f,
                "; those of {left_out} consensus states are of sets of {chain} that are left out"
            )?;
        }
        Ok(())
    }
}

/// The client at a place, where the next sets of some of its written records that could be of use aren't written.
pub fn missing_next_set(setup: &ImportSetup, seen: &SeenSetup<'_>, client: usize) -> Option<Notice>
    ensures { result ≡ missing_next_set setup.now seen.now client }
{
    let own = setup.clients.get(client)?;
    let records = seen.records.get(client)?.as_slice();
    let starts = starts_at(setup, seen, client, own);
    next_sets_told(
        client,
        unseen_in(seen, own.tracks, starts, records),
        next_in(seen, own.tracks, starts, records),
        left_out_in(seen, own.tracks, starts, records),
    )
}

/// The client at a place, where the next sets of so many of its records weren't seen, or of so many are left out.
fn next_sets_told(
    client: usize,
    unseen: usize,
    next: Option<u64>,
    left_out: usize,
) -> Option<Notice>
    ensures { result ≡ next_sets_told client unseen next left_out }
{
    if unseen == 0 && left_out == 0 {
        return None;
    }
    Some(Notice::MissingNextSet {
        client,
        unseen,
        next,
        left_out,
    })
}

/// Of how many of these records, of these heights, no answer on the chain at a place has the next set.
#[tactic(auto, unfolding(crate::specs::Missing::unseen_in))]
fn unseen_in(seen: &SeenSetup<'_>, chain: usize, starts: Starts, records: &[Stored<'_>]) -> usize
    ensures { result ≡ unseen_in seen.now chain starts records.now }
{
    records
        .iter()
        .filter(|record| is_unseen(seen, chain, starts, record))
        .count()
}

/// The height of the next set of the highest of those of these records whose next set no answer on the chain at a place has.
#[tactic(auto, unfolding(crate::specs::Missing::next_in))]
fn next_in(
    seen: &SeenSetup<'_>,
    chain: usize,
    starts: Starts,
    records: &[Stored<'_>],
) -> Option<u64>
    ensures { result ≡ next_in seen.now chain starts records.now }
{
    records
        .iter()
        .filter(|record| is_unseen(seen, chain, starts, record))
        .map(|record| next_height(record))
        .max()
}

/// The height of a record's next set.
fn next_height(stored: &Stored<'_>) -> u64
    ensures { result ≡ next_height stored.now }
{
    stored.state.height.get().saturating_add(1)
}

/// Of how many of these records, of these heights, the next set was seen of the chain at a place, and isn't written.
#[tactic(auto, unfolding(crate::specs::Missing::left_out_in))]
fn left_out_in(seen: &SeenSetup<'_>, chain: usize, starts: Starts, records: &[Stored<'_>]) -> usize
    ensures { result ≡ left_out_in seen.now chain starts records.now }
{
    records
        .iter()
        .filter(|record| is_left_out(seen, chain, starts, record))
        .count()
}

/// Whether a record is of these heights, and no answer on the chain at a place has its next set.
fn is_unseen(seen: &SeenSetup<'_>, chain: usize, starts: Starts, stored: &Stored<'_>) -> bool
    ensures { result ≡ is_unseen seen.now chain starts stored.now }
{
    starts.has(stored) && !was_seen(seen, chain, &stored.state.next)
}

/// Whether a record is of these heights, and its next set was seen of the chain at a place, and isn't written.
fn is_left_out(seen: &SeenSetup<'_>, chain: usize, starts: Starts, stored: &Stored<'_>) -> bool
    ensures { result ≡ is_left_out seen.now chain starts stored.now }
{
    starts.has(stored)
        && was_seen(seen, chain, &stored.state.next)
        && !seen.is_written(chain, &stored.state.next)
}

/// Whether the set of this hash was seen of the chain at a place.
fn was_seen(seen: &SeenSetup<'_>, chain: usize, hash: &[u8; 32]) -> bool
    ensures { result ≡ was_seen (slice_get seen.now.chains.items chain) hash.now }
{
    seen.has_set(chain, hash)
}
