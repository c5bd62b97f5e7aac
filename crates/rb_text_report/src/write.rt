//! Writing a report.
ghost use Rattle.std.specs.Prelude.{◌≡◌, false, map, OnOk, OnErr, IfErr};
ghost use Rattle.std.specs.Io.KnownBytes.{Appends};
ghost use Rattle.rb_base.specs.Sink.{AppendsBeginning};
ghost use Rattle.rb_super_turn.specs.Views.{turn_report_view, report_view};
ghost use Rattle.rb_text_report.specs.Report.{text, first_line, turn_text, numbered_lines};
ghost use Rattle.rb_text_report.specs.Written.{IsWriteError};

use crate::report::push_turn;
use rb_base::{ChainId, Device, PathId, Sink, write_whole};
use rb_script_toml::RunError;
use rb_script_types::Version;
use rb_super_turn::{Report, TurnReport};
use std::alloc::Global;

/// Writes all of the bytes, or fails with the writer.
pub fn put<W: Sink>(writer: &mut W, bytes: &[u8]) -> Result<(), RunError>
    requires { W.is_broken writer.old ≡ false }
    ensures written { OnOk result (Appends (W.taken writer.old) (W.taken writer.new) bytes.now) }
    ensures works { OnOk result (W.is_broken writer.new ≡ false) }
    ensures begun { OnErr result (AppendsBeginning (W.taken writer.old) (W.taken writer.new) bytes.now) }
    ensures failed { IfErr result (λ e. IsWriteError e (W.is_broken writer.new)) }
{
    match write_whole(writer, bytes) {
        Ok(()) => Ok(()),
        Err(Device) => Err(RunError::Device),
    }
}

/// Writes the lines of a turn, by its number from 1, with the identifiers of the chains and of the
/// paths by their places.
#[tactic(auto, using(crate::proofs::Beginnings::beginnings))]
fn put_turn<W: Sink>(
    alloc: Global,
    version: Version,
    chains: &[ChainId],
    paths: &[PathId],
    number: u64,
    turn: &TurnReport,
    writer: &mut W,
) -> Result<(), RunError>
    requires { W.is_broken writer.old ≡ false }
    ensures written { OnOk result (Appends (W.taken writer.old) (W.taken writer.new) (turn_text version chains.now paths.now number (turn_report_view turn.now))) }
    ensures works { OnOk result (W.is_broken writer.new ≡ false) }
    ensures begun { OnErr result (AppendsBeginning (W.taken writer.old) (W.taken writer.new) (turn_text version chains.now paths.now number (turn_report_view turn.now))) }
    ensures failed { IfErr result (λ e. IsWriteError e (W.is_broken writer.new)) }
{
    let mut text = String::new(alloc);
    push_turn(&mut text, version, chains, paths, number, turn)?;
    put(writer, text.as_bytes())
}

/// Writes the lines of the turns, which are numbered from 1.
#[tactic(auto, using(crate::proofs::Beginnings::beginnings))]
fn put_turns<W: Sink>(
    alloc: Global,
    version: Version,
    chains: &[ChainId],
    paths: &[PathId],
    turns: &[TurnReport],
    writer: &mut W,
) -> Result<(), RunError>
    requires { W.is_broken writer.old ≡ false }
    ensures written { OnOk result (Appends (W.taken writer.old) (W.taken writer.new) (numbered_lines (turn_text version chains.now paths.now) 1 (map turn_report_view turns.now))) }
    ensures works { OnOk result (W.is_broken writer.new ≡ false) }
    ensures begun { OnErr result (AppendsBeginning (W.taken writer.old) (W.taken writer.new) (numbered_lines (turn_text version chains.now paths.now) 1 (map turn_report_view turns.now))) }
    ensures failed { IfErr result (λ e. IsWriteError e (W.is_broken writer.new)) }
{
    let mut number = 0;
    for turn in turns {
        number += 1;
        put_turn(alloc, version, chains, paths, number, turn, writer)?;
    }
    Ok(())
}

/// The first line of a report: the format of versions 1 and 2 is one.
pub fn first_line(version: Version) -> &'static [u8]
    ensures { result.now ≡ first_line version }
{
    match version {
        Version::One | Version::Two => b"ibcplan 1\n",
        Version::Three => b"ibcplan 3\n",
        Version::Four => b"ibcplan 4\n",
    }
}

/// Writes the text of a report, which is made turn by turn. `Device` where the writer fails, and
/// `NoMemory` where a growth is refused; either way a beginning of the text was taken. The writer
/// must not have failed before.
#[tactic(auto, using(crate::proofs::Beginnings::beginnings))]
pub fn write_report<W: Sink>(alloc: Global, report: &Report, writer: &mut W) -> Result<(), RunError>
    requires { W.is_broken writer.old ≡ false }
    ensures written { OnOk result (Appends (W.taken writer.old) (W.taken writer.new) (text report.now.version report.now.chains.items report.now.paths.items (report_view report.now))) }
    ensures works { OnOk result (W.is_broken writer.new ≡ false) }
    ensures begun { OnErr result (AppendsBeginning (W.taken writer.old) (W.taken writer.new) (text report.now.version report.now.chains.items report.now.paths.items (report_view report.now))) }
    ensures failed { IfErr result (λ e. IsWriteError e (W.is_broken writer.new)) }
{
    let chains = report.chains.as_slice();
    let paths = report.paths.as_slice();
    let turns = report.turns.as_slice();
    put(writer, first_line(report.version))?;
    put_turns(alloc, report.version, chains, paths, turns, writer)?;
    put(writer, b"end\n")
}
