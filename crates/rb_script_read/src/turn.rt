//! The turns of a script.
ghost use Rattle.std.specs.Prelude.{◌≡◌, ◌+◌, ◌-◌, ◌≤◌, IfOk, Ok, OnOk, SomeIff};
ghost use Rattle.toml.specs.View.{view, items_view};
ghost use Rattle.rb_script_types.specs.Script.{turn_view};
ghost use Rattle.rb_script_toml.specs.Faults.{Gives};
ghost use Rattle.rb_script_toml.specs.Fields.{section_view, only};
ghost use Rattle.rb_script_read.specs.Turns.{turn, turn_at, turn_keys, is_taken, windows_in, frame, head_view, opening, reading_view};
ghost use Rattle.rb_script_read.specs.Ready.{AreReadyAt, AreReadyIn, events_of};
ghost use Rattle.rb_script_read.specs.NextTurns.{next_turn_view, reading_after};
ghost use Rattle.rb_script_config.specs.Setups.{setup_view};

use crate::event::read_events;
use crate::names::{Naming, SetNames};
use crate::ready::ReadySet;
use crate::turn_names::TurnNames;
use rb_base::Window;
use rb_script_config::{Setup, read_goals, read_settlements, read_windows};
use rb_script_toml::{FaultName, RunError, Section, child_path, element_path, section_at};
use rb_script_types::{MAX_ENTRIES, Turn, Version};
use std::alloc::{AllocError, Global};
use toml::Value;

/// What a turn's own keys hold, and the room that it leaves.
#[derive(Clone, Copy)]
pub struct TurnHead<'a> {
    pub window: Window,
    pub windows: &'a [Value],
    pub goals: &'a [Value],
    pub events: &'a [Value],
    pub settlements: &'a [Value],
    pub taken: bool,
    pub room: usize,
}

/// What the turns before leave to the next: the names that they gave, and room for so many windows of hosts,
/// goals, events and settlements.
#[derive(Drop)]
pub struct Reading {
    pub names: SetNames,
    pub room: usize,
}

/// A turn that was read, and what reading it changes for the next: the names that it gives, and the room
/// that it leaves.
#[derive(Drop)]
pub struct NextTurn {
    pub turn: Turn,
    pub change: ReadingChange,
}

/// What reading a turn changes for the next.
#[derive(Drop)]
pub struct ReadingChange {
    pub namings: Vec<Naming>,
    pub room: usize,
}

impl Reading {
    /// Before the first turn: no name was given, and there is room for all goals, events and settlements.
    pub fn opening(alloc: Global) -> Reading
        ensures { reading_view result ≡ opening }
    {
        Reading {
            names: SetNames::new(alloc),
            room: MAX_ENTRIES,
        }
    }

    /// Goes on behind a turn that was read: what it gave names to is known to the next. An error comes only where
    /// a growth is refused.
    pub fn take(&mut self, change: ReadingChange) -> Result<(), AllocError>
        ensures { OnOk result (reading_view self.new ≡ reading_after (reading_view self.old) change) }
    {
        let ReadingChange { namings, room } = change;
        self.names.add_all(namings.as_slice())?;
        self.room = room;
        Ok(())
    }
}

fn only_turn_keys(version: Version, section: &Section<'_>) -> Result<(), RunError>
    ensures { Gives (λ u. u) result (only (turn_keys version) (section_view section.now)) }
{
    match version {
        Version::One | Version::Two => {
            section.only(&["from", "until", "goal", "event", "settle"])
        }
        Version::Three => section.only(&["from", "until", "goal", "event", "settle", "taken"]),
        Version::Four => section.only(&[
            "from", "until", "window", "goal", "event", "settle", "taken",
        ]),
    }
}

/// Whether every batch that is open after the turn's settlements is taken whole.
fn is_taken(version: Version, section: &Section<'_>) -> Result<bool, RunError>
    ensures { Gives (λ b. b) result (is_taken version (section_view section.now)) }
{
    match version {
        Version::One | Version::Two => Ok(false),
        Version::Three | Version::Four => section.flag("taken"),
    }
}

/// The windows of hosts.
fn windows_in<'a>(version: Version, section: &Section<'a>) -> Result<&'a [Value], RunError>
    ensures { Gives (λ vs. items_view vs.now) result (windows_in version (section_view section.now)) }
{
    match version {
        Version::One | Version::Two | Version::Three => Ok(&[]),
        Version::Four => section.items("window"),
    }
}

/// How much room is left of so much after so many windows of hosts, goals, events and settlements, if they fit.
fn room_after(
    room: usize,
    windows: usize,
    goals: usize,
    events: usize,
    settlements: usize,
) -> Option<usize>
    ensures { SomeIff result (windows + goals + events + settlements ≤ room) (room - (windows + goals + events + settlements)) }
{
    room.checked_sub(windows)?
        .checked_sub(goals)?
        .checked_sub(events)?
        .checked_sub(settlements)
}

#[tactic(auto, using(rb_script_toml::proofs::Steps::steps, rb_script_toml::proofs::Steps::counted), unfolding(crate::specs::Turns::frame))]
pub(crate) fn read_head<'a>(
    version: Version,
    section: Section<'a>,
    room: usize,
) -> Result<TurnHead<'a>, RunError>
    ensures read { Gives head_view result (frame version room (section_view section.entry)) }
    ensures events { IfOk result (λ head. events_of (section_view section.entry) ≡ Ok (items_view head.events.now)) }
{
    only_turn_keys(version, &section)?;
    let from = section.time("from")?;
    let until = section.time("until")?;
    let windows = windows_in(version, &section)?;
    let goals = section.items("goal")?;
    let events = section.items("event")?;
    let settlements = section.items("settle")?;
    let taken = is_taken(version, &section)?;
    let Some(room) = room_after(
        room,
        windows.len(),
        goals.len(),
        events.len(),
        settlements.len(),
    ) else {
        return Err(section.fault(FaultName::TooManyEvents));
    };
    match Window::new(from, until) {
        Ok(window) => Ok(TurnHead {
            window,
            windows,
            goals,
            events,
            settlements,
            taken,
            room,
        }),
        Err(_) => Err(section.fault(FaultName::BadWindow)),
    }
}

/// Reads a turn from its table, after those before it, which stay as they are. Some of its sets may be ready.
#[tactic(auto, using(rb_script_toml::proofs::Steps::steps, crate::proofs::ReadyLemmas::readies), unfolding(crate::specs::Turns::turn))]
pub(crate) fn read_turn(
    section: &Section<'_>,
    setup: &Setup,
    reading: &Reading,
    ready: Vec<ReadySet>,
) -> Result<NextTurn, RunError>
    requires ready { AreReadyIn (section_view section.now) ready.items }
    ensures { Gives (next_turn_view (reading_view reading.now)) result (turn (setup_view setup.now) (reading_view reading.now) (section_view section.now)) }
{
    let frame = read_head(setup.version, *section, reading.room)?;
    let path = child_path(section.alloc, section.path, "window")?;
    let windows = read_windows(section.alloc, path.as_str(), frame.windows, &setup.chains)?;
    let path = child_path(section.alloc, section.path, "goal")?;
    let goals = read_goals(section.alloc, path.as_str(), frame.goals, &setup.clients)?;
    let path = child_path(section.alloc, section.path, "event")?;
    let mut names = TurnNames::after(&reading.names);
    let events = read_events(path.as_str(), frame.events, setup, &mut names, ready)?;
    let path = child_path(section.alloc, section.path, "settle")?;
    let settlements = read_settlements(
        section.alloc,
        path.as_str(),
        frame.settlements,
        &setup.clients,
    )?;
    let turn = Turn {
        window: frame.window,
        windows,
        goals,
        events,
        settlements,
        taken: frame.taken,
    };
    let change = ReadingChange {
        namings: names.into_namings(),
        room: frame.room,
    };
    Ok(NextTurn { turn, change })
}

/// Reads the turn of this number, after those before it. Some of its sets may be ready.
#[tactic(auto, using(rb_script_toml::proofs::Steps::steps, crate::proofs::ReadyLemmas::readies))]
pub(crate) fn read_turn_at(
    index: usize,
    value: &Value,
    setup: &Setup,
    reading: &mut Reading,
    ready: Vec<ReadySet>,
) -> Result<Turn, RunError>
    requires ready { AreReadyAt index (view value.now) ready.items }
    ensures { Gives (λ t. (turn_view t, reading_view reading.new)) result (turn_at (setup_view setup.now) index (reading_view reading.old) (view value.now)) }
{
    let alloc = reading.names.alloc;
    let path = element_path(alloc, "turn", index)?;
    let section = section_at(alloc, path.as_str(), value)?;
    let next = read_turn(&section, setup, reading, ready)?;
    reading.take(next.change)?;
    Ok(next.turn)
}
