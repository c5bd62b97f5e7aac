//! What a follower forgets at the end of a turn, and events that speak of it.
ghost use Rattle.std.specs.Prelude.{◌≡◌, codes, slice_index_or};
ghost use Rattle.rb_core_model.specs.Seen.{observed};
ghost use Rattle.rb_script_config.specs.Setups.{setup_view};
ghost use Rattle.rb_script_toml.specs.Faults.{Gives, IsFault};
ghost use Rattle.rb_script_toml.specs.KeyPaths.{element};
ghost use Rattle.rb_script_types.specs.Script.{turn_view};
ghost use Rattle.rb_super_turn.specs.Phases.{standing_in};
ghost use Rattle.rb_follow.specs.Drivers.{core_of};
ghost use Rattle.rb_follow.specs.Tidying as tidying;

use crate::driver::Driver;
use rb_base::Gate;
use rb_script_config::Setup;
use rb_script_toml::{FaultName, RunError, element_path, fault_at};
use rb_script_types::{Observation, Turn, Version};
use std::alloc::Global;

/// How many records of a chain, or packets of a path, go at least where a follower forgets.
const LEAST_TO_GO: usize = 256;

/// Whether it is worth while to forget what lies below the floors.
pub(crate) fn forgets<G: Gate + Send + Sync + Drop + 'static>(
    version: Version,
    driver: &Driver<G>,
) -> bool
    ensures { result ≡ tidying.forgets version (standing_in (core_of driver.now)) }
{
    match version {
        Version::One | Version::Two => false,
        Version::Three | Version::Four => driver.has_many_to_forget(LEAST_TO_GO),
    }
}

/// The height up to which the chain at a place was forgotten, or the sequence from which on the path at a place
/// goes on; 0 where there is none.
fn forgotten_of(forgotten: &[u64], chain: usize) -> u64
    ensures { result ≡ slice_index_or forgotten.now chain 0 }
{
    forgotten.get(chain).copied().unwrap_or(0)
}

/// Raises each floor to what it was before, if that is greater.
pub(crate) fn raise(before: &[u64], floors: &mut Vec<u64>)
    ensures { floors.new.items ≡ tidying.raised before.now floors.old.items }
{
    for chain in 0..floors.len() {
        floors[chain] = floors[chain].max(forgotten_of(before, chain));
    }
}

/// Whether an observation is of a header or a stored consensus state below the height up to which its chain
/// was forgotten, or of a packet that was.
fn speaks_of(setup: &Setup, forgotten: &[u64], firsts: &[u64], observation: &Observation) -> bool
    ensures { result ≡ tidying.speaks_of (setup_view setup.now) forgotten.now firsts.now (observed observation.now) }
{
    match observation {
        Observation::HeaderSeen { chain, header } => {
            header.height().get() < forgotten_of(forgotten, *chain)
        }
        Observation::StoredSeen { client, height, .. } => {
            let chain = match setup.clients.as_slice().get(*client) {
                Some(client) => client.tracks,
                None => 0,
            };
            height.get() < forgotten_of(forgotten, chain)
        }
        Observation::Sent { path, sequence, .. }
        | Observation::Received { path, sequence, .. }
        | Observation::AckWritten { path, sequence, .. }
        | Observation::Cleared { path, sequence } => is_gone(setup, firsts, *path, sequence.get()),
        _ => false,
    }
}

/// Whether the packet of this sequence was forgotten of a path: the path goes on from a later one, and began
/// with none that is later.
fn is_gone(setup: &Setup, firsts: &[u64], path: usize, sequence: u64) -> bool
    ensures { result ≡ tidying.is_gone (setup_view setup.now) firsts.now path sequence }
{
    match setup.paths.as_slice().get(path) {
        Some(config) => config.first.get() <= sequence && sequence < forgotten_of(firsts, path),
        None => false,
    }
}

/// The fault of an event that speaks of what was forgotten.
fn spoken_at(alloc: Global, index: usize) -> RunError
    ensures { IsFault result FaultName.Forgotten (element (codes "event") index) }
{
    match element_path(alloc, "event", index) {
        Ok(path) => fault_at(alloc, path.as_str(), FaultName::Forgotten),
        Err(_) => RunError::NoMemory,
    }
}

/// The first event of a turn that speaks of what was forgotten, by its place.
fn first_spoken(setup: &Setup, forgotten: &[u64], firsts: &[u64], turn: &Turn) -> Option<usize>
    ensures { result ≡ tidying.first_spoken (setup_view setup.now) forgotten.now firsts.now (turn_view turn.now) }
{
    turn.events.iter().position(|observation| speaks_of(setup, forgotten, firsts, observation))
}

/// Refuses the first event of a turn that speaks of what was forgotten.
pub(crate) fn check_spoken(
    alloc: Global,
    setup: &Setup,
    forgotten: &[u64],
    firsts: &[u64],
    turn: &Turn,
) -> Result<(), RunError>
    ensures { Gives (λ u. u) result (tidying.check_spoken (tidying.first_spoken (setup_view setup.now) forgotten.now firsts.now (turn_view turn.now))) }
{
    match first_spoken(setup, forgotten, firsts, turn) {
        Some(index) => Err(spoken_at(alloc, index)),
        None => Ok(()),
    }
}
