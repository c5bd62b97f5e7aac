//! The script of a text.
ghost use Rattle.std.specs.Prelude.{◌≡◌, IfOk, map};
ghost use Rattle.toml.specs.View.{items_view, table_view};
ghost use Rattle.rb_script_types.specs.Script.{IsReadScript, script_view, turn_view};
ghost use Rattle.rb_script_toml.specs.Faults.{Gives};
ghost use Rattle.rb_script_toml.specs.Documents.{whole};
ghost use Rattle.rb_script_read.specs.Turns.{turns_of, reading_view};
ghost use Rattle.rb_script_config.specs.Setups.{setup_view};
ghost use Rattle.rb_script_read.specs.Scripts.{script, script_of};

use crate::plain::read_plain;
use crate::ready::sets_of_turn;
use crate::turn::{Reading, read_turn_at};
use crate::work::check_work;
use rb_script_config::{Setup, read_setup, read_tables};
use rb_script_toml::{RunError, Section, read_table};
use rb_script_types::{Script, Turn};
use std::alloc::Global;
use std::thread::Threads;
use toml::{Table, Value};

#[tactic(auto, using(crate::proofs::ReadyLemmas::readies))]
fn read_turns(
    alloc: Global,
    items: &[Value],
    setup: &Setup,
    reading: &mut Reading,
) -> Result<Vec<Turn>, RunError>
    ensures { Gives (λ v. (map turn_view v.items, reading_view reading.new)) result (turns_of (setup_view setup.now) (reading_view reading.old) (items_view items.now)) }
{
    let mut turns = Vec::with_capacity(alloc, items.len())?;
    for value in items {
        let turn = read_turn_at(turns.len(), value, setup, reading, Vec::new(alloc))?;
        turns.push(turn)?;
    }
    Ok(turns)
}

/// Does what `read_turns` does, with the sets of each turn read by so many threads.
fn read_turns_by<R: Threads + Sync>(
    rt: &R,
    alloc: Global,
    items: &[Value],
    setup: &Setup,
    reading: &mut Reading,
    threads: usize,
) -> Result<Vec<Turn>, RunError>
    ensures { Gives (λ v. (map turn_view v.items, reading_view reading.new)) result (turns_of (setup_view setup.now) (reading_view reading.old) (items_view items.now)) }
{
    let mut turns = Vec::with_capacity(alloc, items.len())?;
    for value in items {
        let place = turns.len();
        let ready = sets_of_turn(rt, alloc, place, value, threads)?;
        let turn = read_turn_at(place, value, setup, reading, ready)?;
        turns.push(turn)?;
    }
    Ok(turns)
}

#[tactic(auto, using(rb_script_toml::proofs::Steps::steps), unfolding(crate::specs::Scripts::script))]
fn read_document(alloc: Global, table: &Table) -> Result<Script, RunError>
    ensures { Gives script_view result (script (whole (table_view table.now))) }
{
    let section = Section {
        alloc,
        path: "",
        table,
    };
    let tables = read_tables(section)?;
    let setup = read_setup(alloc, tables)?;
    let turns = read_turns(alloc, tables.turns, &setup, &mut Reading::opening(alloc))?;
    let script = Script {
        config: setup.into_config(),
        turns,
    };
    check_work(alloc, &script)?;
    Ok(script)
}

#[tactic(auto, using(rb_script_toml::proofs::Steps::steps), unfolding(crate::specs::Scripts::script))]
fn read_document_by<R: Threads + Sync>(
    rt: &R,
    alloc: Global,
    table: &Table,
    threads: usize,
) -> Result<Script, RunError>
    ensures { Gives script_view result (script (whole (table_view table.now))) }
{
    let section = Section {
        alloc,
        path: "",
        table,
    };
    let tables = read_tables(section)?;
    let setup = read_setup(alloc, tables)?;
    let mut reading = Reading::opening(alloc);
    let turns = read_turns_by(rt, alloc, tables.turns, &setup, &mut reading, threads)?;
    let script = Script {
        config: setup.into_config(),
        turns,
    };
    check_work(alloc, &script)?;
    Ok(script)
}

/// Reads the script that a text holds, or answers the first fault of the text, in the order of
/// docs/FORMATS.md: the text as a whole, then each table by its keys, then what concerns several of
/// them, last how much all turns ask to be planned. In every script that it gives, identifiers differ, and what is named is there. `NoMemory`
/// is answered where a growth is refused.
#[tactic(auto, using(rb_script_toml::proofs::Steps::steps), unfolding(crate::specs::Scripts::script_of))]
pub fn read_script(alloc: Global, bytes: &[u8]) -> Result<Script, RunError>
    ensures read { Gives script_view result (script_of bytes.now) }
    ensures form { IfOk result (λ s. IsReadScript (script_view s)) }
{
    if let Ok(script) = read_plain(alloc, bytes) {
        return Ok(script);
    }
    let table = read_table(alloc, bytes)?;
    read_document(alloc, &table)
}

/// Does what `read_script` does, with the validator sets of each turn hashed by at most so many threads at
/// once.
#[tactic(auto, using(rb_script_toml::proofs::Steps::steps), unfolding(crate::specs::Scripts::script_of))]
pub fn read_script_by<R: Threads + Sync>(
    rt: &R,
    alloc: Global,
    bytes: &[u8],
    threads: usize,
) -> Result<Script, RunError>
    ensures read { Gives script_view result (script_of bytes.now) }
    ensures form { IfOk result (λ s. IsReadScript (script_view s)) }
{
    if threads <= 1 {
        if let Ok(script) = read_plain(alloc, bytes) {
            return Ok(script);
        }
    }
    let table = read_table(alloc, bytes)?;
    read_document_by(rt, alloc, &table, threads)
}
