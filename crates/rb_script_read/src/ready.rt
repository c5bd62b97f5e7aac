//! The validator sets of a turn, read and hashed before its other events, by several threads at once.
ghost use Rattle.std.specs.Prelude.{◌≡◌, ◌<◌, ◌++◌, All, IfOk, IfSome, length, option_to_list};
ghost use Rattle.toml.specs.View.{view, items_view};
ghost use Rattle.rb_script_toml.specs.Faults.{Gives};
ghost use Rattle.rb_script_toml.specs.Fields.{section_view};
ghost use Rattle.rb_script_read.specs.Ready.{AreReady, AreReadyAt, AreReadyIn, IsReady, validators_at};

use crate::set::needed_validators;
use rayon::prelude::*;
use rb_script_toml::{RunError, Section, child_path, element_path, section_at};
use rb_valset::{Known, ValidatorSet};
use std::alloc::{AllocError, Global};
use std::thread::Threads;
use toml::Value;

/// A set that was read before its turn's other events: its place among these, and the set or its fault.
#[derive(Drop)]
pub struct ReadySet {
    pub place: usize,
    pub set: Result<ValidatorSet, RunError>,
}

/// The sets among the events of the turn of this index, by place from the last one down, each read by one of
/// at most so many threads.
#[tactic(auto, using(crate::proofs::ReadyLemmas::readies))]
pub(crate) fn sets_of_turn<R: Threads + Sync>(
    rt: &R,
    alloc: Global,
    index: usize,
    turn: &Value,
    threads: usize,
) -> Result<Vec<ReadySet>, AllocError>
    ensures { IfOk result (λ sets. AreReadyAt index (view turn.now) sets.items) }
{
    let path = element_path(alloc, "turn", index)?;
    match section_at(alloc, path.as_str(), turn) {
        Ok(section) => sets_in(rt, &section, threads),
        Err(_) => Ok(Vec::new(alloc)),
    }
}

/// The sets among the events of a turn.
#[tactic(auto, using(crate::proofs::ReadyLemmas::readies))]
fn sets_in<R: Threads + Sync>(
    rt: &R,
    section: &Section<'_>,
    threads: usize,
) -> Result<Vec<ReadySet>, AllocError>
    ensures { IfOk result (λ sets. AreReadyIn (section_view section.now) sets.items) }
{
    let alloc = section.alloc;
    let path = child_path(alloc, section.path, "event")?;
    match section.items("event") {
        Ok(events) => ready_sets(rt, alloc, path.as_str(), events, threads),
        Err(_) => Ok(Vec::new(alloc)),
    }
}

/// The sets among the events at a path.
fn ready_sets<R: Threads + Sync>(
    rt: &R,
    alloc: Global,
    path: &str,
    events: &[Value],
    threads: usize,
) -> Result<Vec<ReadySet>, AllocError>
    ensures { IfOk result (λ sets. AreReady path.now (items_view events.now) sets.items) }
{
    let places = places_of_sets(alloc, events)?;
    let share = places.len() / threads.max(1);
    sets_at(rt, alloc, path, events, places.as_slice(), share)
}

/// The sets of the events at these places, of which each thread reads so many at least, and makes each validator
/// once.
fn sets_at<R: Threads + Sync>(
    rt: &R,
    alloc: Global,
    path: &str,
    events: &[Value],
    places: &[usize],
    share: usize,
) -> Result<Vec<ReadySet>, AllocError>
    requires { All (λ place. place < length events.now) places.now }
    ensures { IfOk result (λ sets. AreReady path.now (items_view events.now) sets.items) }
{
    places
        .par_iter()
        .with_min_len(share)
        .map_init(
            || Known::new(alloc),
            |known: &mut Known, place: &usize| -> ReadySet
                requires { place.now < length events.now }
                ensures { IsReady path.entry.now (items_view events.entry.now) result }
            { ready_set(alloc, path, events, *place, known) },
        )
        .collect(rt, alloc)
}

/// Takes the next set, where it is that of the event at a place.
pub fn take_set(ready: &mut Vec<ReadySet>, place: usize) -> Option<ReadySet>
    ensures taken { ready.old.items ≡ ready.new.items ++ option_to_list result }
    ensures place { IfSome result (λ set. set.place ≡ place) }
{
    match ready.last() {
        Some(next) if next.place == place => ready.pop(),
        _ => None,
    }
}

/// The places of the events that are sets, from the last one down.
fn places_of_sets(alloc: Global, events: &[Value]) -> Result<Vec<usize>, AllocError>
    ensures { IfOk result (λ places. All (λ place. place < length events.now) places.items) }
{
    let mut places = Vec::new(alloc);
    for place in (0..events.len()).rev() {
        if is_set(&events[place]) {
            places.push(place)?;
        }
    }
    Ok(places)
}

pub(crate) fn is_set(event: &Value) -> bool {
    match event.get("kind") {
        Some(kind) => kind.as_str() == Some("set"),
        None => false,
    }
}

#[tactic(auto, using(crate::proofs::ReadyLemmas::readies))]
fn ready_set(
    alloc: Global,
    path: &str,
    events: &[Value],
    place: usize,
    known: &mut Known,
) -> ReadySet
    requires { place < length events.now }
    ensures { IsReady path.now (items_view events.now) result }
{
    let set = set_at(alloc, path, place, &events[place], known);
    ReadySet { place, set }
}

/// The set of the event of this index at a path.
#[tactic(auto, using(rb_script_toml::proofs::Steps::steps))]
pub(crate) fn set_at(
    alloc: Global,
    path: &str,
    index: usize,
    event: &Value,
    known: &mut Known,
) -> Result<ValidatorSet, RunError>
    ensures { Gives (λ s. s) result (validators_at path.now index (view event.now)) }
{
    let path = element_path(alloc, path, index)?;
    let section = section_at(alloc, path.as_str(), event)?;
    needed_validators(&section, known)
}
