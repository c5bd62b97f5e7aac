//! The script of a setup and of what was seen.
ghost use Rattle.std.specs.Prelude.{◌≡◌, ◌<◌, ◌++◌, IfOk, IsErrOf, Ok, OnOk, length, map};
ghost use Rattle.std.specs.List.{enumerate_from};
ghost use Rattle.rb_script_types.specs.Script.{IsReadScript, script_view, turn_view};
ghost use Rattle.rb_script_read.specs.Work.{little};
ghost use Rattle.rb_import.specs.Events.{events_in};
ghost use Rattle.rb_import.specs.Reading.{IsTooMuch};
ghost use Rattle.rb_import.specs.Scripts.{script_in, turn_in, turn_with};

use crate::chains::push_chains;
use crate::clients::push_clients;
use crate::config::config_of;
use crate::paths::push_paths;
use crate::read::{has_room, is_read_script};
use rb_import_check::SavedAnswers;
use rb_import_merge::SeenSetup;
use rb_import_setup::{ImportSetup, TurnSetup};
use rb_script_read::check_work;
use rb_script_toml::RunError;
use rb_script_types::{Observation, Script, Turn};
use std::alloc::{AllocError, AllocFailed, Global};

/// Why there is no script.
#[derive(Clone, Copy)]
pub enum MakeError {
    /// It would have more events than are read, ask for too much, or have a number outside the range that scripts have.
    TooBig,
    /// A growth was refused.
    NoMemory,
}

impl From<AllocError> for MakeError {
    ghost use Rattle.std.specs.Prelude.{◌≡◌};
    ghost use Rattle.rb_import.specs.declared.made.MakeError.TheVariants.{NoMemory};

    ghost from_gives = { λ _ e. e ≡ NoMemory };

    fn from(_: AllocError) -> MakeError {
        MakeError::NoMemory
    }
}

impl<T: Drop> From<AllocFailed<T>> for MakeError {
    ghost use Rattle.std.specs.Prelude.{◌≡◌};
    ghost use Rattle.rb_import.specs.declared.made.MakeError.TheVariants.{NoMemory};

    ghost from_gives = { λ _ e. e ≡ NoMemory };

    fn from(_: AllocFailed<T>) -> MakeError {
        MakeError::NoMemory
    }
}

/// The script of version 4 that a setup, the answers of nodes and what was seen in them make: all events in its last turn.
/// It is one that the reader of scripts could have given; `TooBig` where it isn't.
pub fn script_of_seen(
    alloc: Global,
    setup: &ImportSetup,
    answers: &SavedAnswers,
    seen: &SeenSetup<'_>,
) -> Result<Script, MakeError>
    ensures script { IfOk result (λ script. script_view script ≡ script_in setup.now answers.now seen.now) }
    ensures form { IfOk result (λ script. IsReadScript (script_view script)) }
    ensures little { IfOk result (λ script. little (script_view script).config (script_view script).turns ≡ Ok tt) }
    ensures too_big { IsErrOf result MakeError.TooBig → IsTooMuch (script_in setup.now answers.now seen.now) }
{
    let script = composed(alloc, setup, answers, seen)?;
    judge(alloc, &script)?;
    Ok(script)
}

/// Refuses a script that its reader wouldn't give.
fn judge(alloc: Global, script: &Script) -> Result<(), MakeError>
    ensures form { OnOk result (IsReadScript (script_view script.now)) }
    ensures little { OnOk result (little (script_view script.now).config (script_view script.now).turns ≡ Ok tt) }
    ensures too_big { IsErrOf result MakeError.TooBig → IsTooMuch (script_view script.now) }
{
    if !has_room(script.turns.as_slice()) || !is_read_script(script) {
        return Err(MakeError::TooBig);
    }
    match check_work(alloc, script) {
        Ok(()) => Ok(()),
        Err(RunError::Fault(_)) => Err(MakeError::TooBig),
        Err(RunError::NoMemory | RunError::Device) => Err(MakeError::NoMemory),
    }
}

/// The script, as it may be.
#[tactic(auto, unfolding(crate::specs::Scripts::script_in))]
fn composed(
    alloc: Global,
    setup: &ImportSetup,
    answers: &SavedAnswers,
    seen: &SeenSetup<'_>,
) -> Result<Script, MakeError>
    ensures script { IfOk result (λ script. script_view script ≡ script_in setup.now answers.now seen.now) }
    ensures too_big { IsErrOf result MakeError.TooBig → IsTooMuch (script_in setup.now answers.now seen.now) }
{
    let config = config_of(alloc, setup, answers, seen)?;
    let turns = turns_of(alloc, setup, seen)?;
    Ok(Script { config, turns })
}

fn turns_of(
    alloc: Global,
    setup: &ImportSetup,
    seen: &SeenSetup<'_>,
) -> Result<Vec<Turn>, AllocError>
    ensures { IfOk result (λ turns. map turn_view turns.items ≡ map (turn_in setup.now seen.now) (enumerate_from 0 setup.now.turns.items)) }
{
    let mut turns = Vec::with_capacity(alloc, setup.turns.len())?;
    for (place, turn) in setup.turns.iter().enumerate() {
        let turn = turn_at(alloc, setup, seen, place, turn)?;
        turns.push(turn)?;
    }
    Ok(turns)
}

/// The turn at a place, which has what was seen where it is the last one.
fn turn_at(
    alloc: Global,
    setup: &ImportSetup,
    seen: &SeenSetup<'_>,
    place: usize,
    turn: &TurnSetup,
) -> Result<Turn, AllocError>
    requires { place < length setup.now.turns.items }
    ensures { IfOk result (λ made. turn_view made ≡ turn_in setup.now seen.now (place, turn.now)) }
{
    let events = if place + 1 == setup.turns.len() {
        events_of(alloc, setup, seen)?
    } else {
        Vec::new(alloc)
    };
    turn_with(alloc, turn, events)
}

fn turn_with(alloc: Global, turn: &TurnSetup, events: Vec<Observation>) -> Result<Turn, AllocError>
    ensures { IfOk result (λ made. turn_view made ≡ turn_with events.items turn.now) }
{
    Ok(Turn {
        window: turn.window,
        windows: Vec::from_slice(alloc, turn.windows.as_slice())?,
        goals: Vec::from_slice(alloc, turn.goals.as_slice())?,
        events,
        settlements: Vec::from_slice(alloc, turn.settlements.as_slice())?,
        taken: false,
    })
}

/// What was seen of each chain, each client and each path.
#[tactic(auto, using(crate::proofs::Added::added), unfolding(crate::specs::Events::events_in))]
fn events_of(
    alloc: Global,
    setup: &ImportSetup,
    seen: &SeenSetup<'_>,
) -> Result<Vec<Observation>, AllocError>
    ensures { IfOk result (λ events. events.items ≡ events_in setup.now seen.now) }
{
    let mut events = Vec::new(alloc);
    push_chains(alloc, &mut events, seen)?;
    push_clients(&mut events, seen)?;
    push_paths(&mut events, setup, seen)?;
    Ok(events)
}
