//! Which sets of a chain a script has: those that its headers and records name, as many as the chain's book has room
//! for; where there are more, the lowest are left out.
ghost use Rattle.std.specs.Prelude.{[], Any, Contains, IfOk, OnOk};
ghost use Rattle.rb_import_check.specs.Sets.{IsPlaceOf};
ghost use Rattle.rb_import_merge.specs.Room.{AtEachPlace};
ghost use Rattle.rb_import_merge.specs.Sets.{AreKeptSets, Gains, IsNamed, IsNextOfRecord, KeepsHighestOf, NamesNext, NamesSet};

use crate::kept::KeptSets;
use rb_book::MAX_SETS;
use rb_import_check::{SeenChain, SeenSets, Stored};
use rb_import_setup::ImportSetup;
use std::alloc::{AllocError, Global};

/// Of each chain the sets that its headers and the records of its clients name, and that its book has room for.
pub fn kept_sets<'a>(
    alloc: Global,
    setup: &ImportSetup,
    chains: &[SeenChain<'a>],
    records: &[Vec<Stored<'a>>],
) -> Result<Vec<KeptSets>, AllocError>
    ensures { IfOk result (λ kept. AtEachPlace (AreKeptSets setup.now records.now) chains.now kept.items) }
{
    let mut kept = Vec::with_capacity(alloc, chains.len())?;
    for (place, chain) in chains.iter().enumerate() {
        let named = named_places(alloc, setup, records, place, chain)?;
        let highest = highest_of(alloc, named)?;
        kept.push(highest)?;
    }
    Ok(kept)
}

/// Of sets at these places the highest, as many as a book has room for.
fn highest_of(alloc: Global, named: Vec<usize>) -> Result<KeptSets, AllocError>
    ensures { IfOk result (KeepsHighestOf (Contains named.items)) }
{
    let mut named = named;
    named.sort_unstable();
    named.dedup();
    let left_out = named.len().saturating_sub(MAX_SETS);
    let (_, highest) = named.split_at(left_out);
    let places = Vec::from_slice(alloc, highest)?;
    Ok(KeptSets { places, left_out })
}

/// The places of the sets that the headers of the chain at a place name, and the records of its clients.
fn named_places(
    alloc: Global,
    setup: &ImportSetup,
    records: &[Vec<Stored<'_>>],
    place: usize,
    chain: &SeenChain<'_>,
) -> Result<Vec<usize>, AllocError>
    ensures { IfOk result (λ places. Gains (IsNamed setup.now records.now place chain.now) [] places.items) }
{
    let mut places = Vec::new(alloc);
    add_of_headers(chain, &mut places)?;
    add_of_clients(setup, records, place, &chain.sets, &mut places)?;
    Ok(places)
}

/// Adds the places of the sets that the headers of a chain name.
fn add_of_headers(chain: &SeenChain<'_>, places: &mut Vec<usize>) -> Result<(), AllocError>
    ensures { OnOk result (Gains (λ p. Any (NamesSet chain.now.sets.sets.items p) chain.now.commits.items) places.old.items places.new.items) }
{
    for commit in &chain.commits {
        add_place(&chain.sets, &commit.header.set, places)?;
        add_place(&chain.sets, &commit.header.next, places)?;
    }
    Ok(())
}

/// Adds the places of the sets that records of clients name which track the chain at a place.
fn add_of_clients(
    setup: &ImportSetup,
    records: &[Vec<Stored<'_>>],
    place: usize,
    sets: &SeenSets<'_>,
    places: &mut Vec<usize>,
) -> Result<(), AllocError>
    ensures { OnOk result (Gains (IsNextOfRecord setup.now records.now place sets.now.sets.items) places.old.items places.new.items) }
{
    for (number, client) in setup.clients.iter().enumerate() {
        if client.tracks == place {
            if let Some(written) = records.get(number) {
                add_of_records(sets, written.as_slice(), places)?;
            }
        }
    }
    Ok(())
}

/// Adds the places of the sets that records name.
fn add_of_records(
    sets: &SeenSets<'_>,
    records: &[Stored<'_>],
    places: &mut Vec<usize>,
) -> Result<(), AllocError>
    ensures { OnOk result (Gains (λ p. Any (NamesNext sets.now.sets.items p) records.now) places.old.items places.new.items) }
{
    for record in records {
        add_place(sets, &record.state.next, places)?;
    }
    Ok(())
}

/// Adds the place of the set of this hash, if it was seen.
fn add_place(
    sets: &SeenSets<'_>,
    hash: &[u8; 32],
    places: &mut Vec<usize>,
) -> Result<(), AllocError>
    ensures { OnOk result (Gains (IsPlaceOf sets.now.sets.items hash.now) places.old.items places.new.items) }
{
    if let Some(place) = sets.place_of(hash) {
        places.push(place)?;
    }
    Ok(())
}
