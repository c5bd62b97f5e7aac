//! A turn that is a document of its own.
ghost use Rattle.std.specs.Prelude.{IfOk, length};
ghost use Rattle.toml.specs.View.{table_view};
ghost use Rattle.rb_script_types.specs.Script.{turn_view, IsReadTurn};
ghost use Rattle.rb_script_toml.specs.Faults.{Gives};
ghost use Rattle.rb_script_toml.specs.Documents.{whole};
ghost use Rattle.rb_script_config.specs.Setups.{setup_view};
ghost use Rattle.rb_script_read.specs.Turns.{turn, reading_view};
ghost use Rattle.rb_script_read.specs.NextTurns.{next_turn_view, in_document, IsInDocument, turn_of_document};

use crate::turn::{NextTurn, Reading, read_turn};
use rb_script_config::Setup;
use rb_script_toml::{Fault, RunError, Section, read_table};
use std::alloc::Global;
use toml::Table;

/// An error of reading a document's top table: what is at the table itself is at the document, `-`.
#[tactic(auto, using(crate::proofs::DocumentsLemmas::documents))]
fn in_document(alloc: Global, error: RunError) -> RunError
    ensures { IsInDocument error result }
{
    match error {
        RunError::Fault(fault) if fault.path.is_empty() => match String::from_str(alloc, "-") {
            Ok(path) => RunError::Fault(Fault { path, ..fault }),
            Err(_) => RunError::NoMemory,
        },
        error => error,
    }
}

#[tactic(auto, using(crate::proofs::DocumentsLemmas::documents, crate::proofs::ReadyLemmas::readies))]
fn read_top(
    alloc: Global,
    table: &Table,
    setup: &Setup,
    reading: &Reading,
) -> Result<NextTurn, RunError>
    ensures { Gives (next_turn_view (reading_view reading.now)) result (in_document (turn (setup_view setup.now) (reading_view reading.now) (whole (table_view table.now)))) }
{
    let section = Section {
        alloc,
        path: "",
        table,
    };
    match read_turn(&section, setup, reading, Vec::new(alloc)) {
        Ok(next) => Ok(next),
        Err(error) => Err(in_document(alloc, error)),
    }
}

/// Reads the turn whose keys stand at the top of a document, after the turns that left this reading, which
/// stays as it is; `Reading::take` goes on behind the turn. `Fault` is the first of: those of a text
/// (`rb_script_toml::read_table`), then those of a turn of a script, by paths within the turn, `-` for the
/// turn itself. `NoMemory` is answered where a growth is refused.
#[tactic(auto, using(rb_script_toml::proofs::Steps::steps), unfolding(crate::specs::NextTurns::turn_of_document))]
pub fn read_turn_document(
    alloc: Global,
    bytes: &[u8],
    setup: &Setup,
    reading: &Reading,
) -> Result<NextTurn, RunError>
    ensures read { Gives (next_turn_view (reading_view reading.now)) result (turn_of_document (setup_view setup.now) (reading_view reading.now) bytes.now) }
    ensures form { IfOk result (λ n. IsReadTurn (length setup.now.chains) (length setup.now.clients) (length setup.now.paths) (turn_view n.turn)) }
{
    let table = read_table(alloc, bytes)?;
    read_top(alloc, &table, setup, reading)
}
