//! The turns of a setup, which have no events.
ghost use Rattle.std.specs.Prelude.{◌≡◌, [], codes, map};
ghost use Rattle.toml.specs.View.{view, items_view};
ghost use Rattle.rb_script_toml.specs.Faults.{Gives};
ghost use Rattle.rb_script_toml.specs.Fields.{section_view, only, at_element, elements};
ghost use Rattle.rb_import_setup.specs.Turns.{frame, frame_view, turn, turn_keys, turn_view};

use crate::setup::{ClientSetup, TurnSetup};
use rb_base::{ChainId, Window};
use rb_script_config::{Directory, read_goals, read_settlements, read_windows};
use rb_script_toml::{FaultName, RunError, Section, child_path, element_path, section_at};
use std::alloc::Global;
use toml::Value;

/// What a turn's own keys hold.
#[derive(Clone, Copy)]
struct Frame<'a> {
    window: Window,
    windows: &'a [Value],
    goals: &'a [Value],
    settlements: &'a [Value],
}

fn only_turn_keys(section: &Section<'_>) -> Result<(), RunError>
    ensures { Gives (λ u. u) result (only turn_keys (section_view section.now)) }
{
    section.only(&["from", "until", "window", "goal", "settle"])
}

#[tactic(auto, using(rb_script_toml::proofs::Steps::steps), unfolding(crate::specs::Turns::frame))]
fn read_frame<'a>(section: Section<'a>) -> Result<Frame<'a>, RunError>
    ensures { Gives frame_view result (frame (section_view section.entry)) }
{
    only_turn_keys(&section)?;
    let from = section.time("from")?;
    let until = section.time("until")?;
    let windows = section.items("window")?;
    let goals = section.items("goal")?;
    let settlements = section.items("settle")?;
    match Window::new(from, until) {
        Ok(window) => Ok(Frame {
            window,
            windows,
            goals,
            settlements,
        }),
        Err(_) => Err(section.fault(FaultName::BadWindow)),
    }
}

#[tactic(auto, using(rb_script_toml::proofs::Steps::steps), unfolding(crate::specs::Turns::turn))]
fn read_turn(
    section: &Section<'_>,
    chains: &Directory<ChainId>,
    clients: &Directory<ClientSetup>,
    before: &[TurnSetup],
) -> Result<TurnSetup, RunError>
    ensures { Gives turn_view result (turn chains.now clients.now (map turn_view before.now) (section_view section.now)) }
{
    let frame = read_frame(*section)?;
    let path = child_path(section.alloc, section.path, "window")?;
    let windows = read_windows(section.alloc, path.as_str(), frame.windows, chains)?;
    let path = child_path(section.alloc, section.path, "goal")?;
    let goals = read_goals(section.alloc, path.as_str(), frame.goals, clients)?;
    let path = child_path(section.alloc, section.path, "settle")?;
    let settlements = read_settlements(section.alloc, path.as_str(), frame.settlements, clients)?;
    Ok(TurnSetup {
        window: frame.window,
        windows,
        goals,
        settlements,
    })
}

#[tactic(auto, using(rb_script_toml::proofs::Steps::steps))]
fn read_turn_at(
    alloc: Global,
    value: &Value,
    chains: &Directory<ChainId>,
    clients: &Directory<ClientSetup>,
    before: &[TurnSetup],
) -> Result<TurnSetup, RunError>
    ensures { Gives turn_view result (at_element (turn chains.now clients.now) (codes "turn") (map turn_view before.now) (view value.now)) }
{
    let path = element_path(alloc, "turn", before.len())?;
    let section = section_at(alloc, path.as_str(), value)?;
    read_turn(&section, chains, clients, before)
}

/// Reads the turns of these clients, hosted by these chains.
pub fn read_turns(
    alloc: Global,
    items: &[Value],
    chains: &Directory<ChainId>,
    clients: &Directory<ClientSetup>,
) -> Result<Vec<TurnSetup>, RunError>
    ensures { Gives (λ v. map turn_view v.items) result (elements (turn chains.now clients.now) (codes "turn") [] (items_view items.now)) }
{
    let mut turns = Vec::with_capacity(alloc, items.len())?;
    for value in items {
        let turn = read_turn_at(alloc, value, chains, clients, turns.as_slice())?;
        turns.push(turn)?;
    }
    Ok(turns)
}
