//! The events of chains: their sets and headers.
ghost use Rattle.std.specs.Prelude.{◌≡◌, ◌++◌, IfOk, OnOk, map, option_map, slice_get};
ghost use Rattle.std.specs.List.{enumerate_from};
ghost use Rattle.rb_import.specs.Events.{chain_events, chains_events, header_at, header_events, header_in, set_at, set_events, sets_of, vote_at, vote_by};

use rb_book::{Header, Record, Vote};
use rb_import_answers::{BlockIdFlag, CommitVerdict, Signature};
use rb_import_check::{Commit, SeenChain, is_bad};
use rb_import_merge::{KeptSets, SeenSetup};
use rb_script_types::Observation;
use std::alloc::{AllocError, Global};

/// Adds the events of each chain: its sets and its headers.
#[tactic(auto, unfolding(crate::specs::Events::chains_events))]
pub(crate) fn push_chains(
    alloc: Global,
    events: &mut Vec<Observation>,
    seen: &SeenSetup<'_>,
) -> Result<(), AllocError>
    ensures { OnOk result (events.new.items ≡ events.old.items ++ chains_events seen.now) }
{
    for (place, chain) in seen.chains.iter().enumerate() {
        push_chain(alloc, events, seen, place, chain)?;
    }
    Ok(())
}

#[tactic(auto, using(crate::proofs::Added::added), unfolding(crate::specs::Events::chain_events))]
fn push_chain(
    alloc: Global,
    events: &mut Vec<Observation>,
    seen: &SeenSetup<'_>,
    place: usize,
    chain: &SeenChain<'_>,
) -> Result<(), AllocError>
    ensures { OnOk result (events.new.items ≡ events.old.items ++ chain_events seen.now (place, chain.now)) }
{
    push_sets_of(events, seen, place, chain)?;
    push_headers(alloc, events, seen, place, chain.commits.as_slice())
}

/// Adds the sets of a chain that its light store has room for.
fn push_sets_of(
    events: &mut Vec<Observation>,
    seen: &SeenSetup<'_>,
    place: usize,
    chain: &SeenChain<'_>,
) -> Result<(), AllocError>
    ensures { OnOk result (events.new.items ≡ events.old.items ++ sets_of place chain.now (slice_get seen.now.sets.items place)) }
{
    match seen.sets.get(place) {
        Some(kept) => push_sets(events, place, chain, kept),
        None => Ok(()),
    }
}

/// Adds these sets of a chain, the last one first.
fn push_sets(
    events: &mut Vec<Observation>,
    place: usize,
    chain: &SeenChain<'_>,
    kept: &KeptSets,
) -> Result<(), AllocError>
    ensures { OnOk result (events.new.items ≡ events.old.items ++ set_events place chain.now kept.now) }
{
    for number in kept.places.iter().rev() {
        push_set(events, place, chain, *number)?;
    }
    Ok(())
}

fn push_set(
    events: &mut Vec<Observation>,
    place: usize,
    chain: &SeenChain<'_>,
    number: usize,
) -> Result<(), AllocError>
    ensures { OnOk result (events.new.items ≡ events.old.items ++ set_at place chain.now number) }
{
    match chain.sets.sets.get(number) {
        Some(seen) => {
            let set = seen.set.copy()?;
            events.push(Observation::SetSeen { chain: place, set })?;
            Ok(())
        }
        None => Ok(()),
    }
}

#[tactic(auto, unfolding(crate::specs::Events::header_events))]
fn push_headers(
    alloc: Global,
    events: &mut Vec<Observation>,
    seen: &SeenSetup<'_>,
    place: usize,
    commits: &[Commit<'_>],
) -> Result<(), AllocError>
    ensures { OnOk result (events.new.items ≡ events.old.items ++ header_events seen.now place commits.now) }
{
    for commit in commits {
        push_header(alloc, events, seen, place, commit)?;
    }
    Ok(())
}

/// Adds the header of a commit, where there is an event of its own set.
fn push_header(
    alloc: Global,
    events: &mut Vec<Observation>,
    seen: &SeenSetup<'_>,
    place: usize,
    commit: &Commit<'_>,
) -> Result<(), AllocError>
    ensures { OnOk result (events.new.items ≡ events.old.items ++ header_at seen.now place commit.now) }
{
    if seen.is_written(place, &commit.header.set) {
        let header = header_of(alloc, commit)?;
        events.push(Observation::HeaderSeen {
            chain: place,
            header,
        })?;
        Ok(())
    } else {
        Ok(())
    }
}

#[tactic(auto, unfolding(crate::specs::Events::votes_in))]
fn header_of(alloc: Global, commit: &Commit<'_>) -> Result<Header, AllocError>
    ensures { IfOk result (λ header. header ≡ header_in commit.now) }
{
    let header = commit.header;
    let record = Record::new(header.time, header.root, header.next);
    let votes = votes_of(alloc, commit.verdict, header.signatures.as_slice())?;
    Ok(Header::new(header.height, record, header.set, votes))
}

/// The votes of a commit, in set order, of which its verdict calls some bad.
fn votes_of(
    alloc: Global,
    verdict: Option<&CommitVerdict>,
    signatures: &[Signature],
) -> Result<Vec<Vote>, AllocError>
    ensures { IfOk result (λ votes. votes.items ≡ map (vote_at (option_map (λ v. v.now) verdict.entry)) (enumerate_from 0 signatures.now)) }
{
    let mut votes = Vec::with_capacity(alloc, signatures.len())?;
    for (place, signature) in signatures.iter().enumerate() {
        votes.push(vote_by(is_bad(verdict, place as u64), signature.flag))?;
    }
    Ok(votes)
}

/// A vote by its flag; a vote for the block may be bad.
fn vote_by(is_bad: bool, flag: BlockIdFlag) -> Vote
    ensures { result ≡ vote_by is_bad flag }
{
    match flag {
        BlockIdFlag::Commit if is_bad => Vote::Bad,
        BlockIdFlag::Commit => Vote::Commit,
        BlockIdFlag::Nil => Vote::Nil,
        BlockIdFlag::Absent => Vote::Absent,
    }
}
