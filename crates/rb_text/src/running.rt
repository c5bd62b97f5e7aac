//! The run over a text: read it, run it, write its report.
ghost use Rattle.std.specs.Prelude.{◌≡◌, ◌≤◌, ◌↔◌, ◌⊎◌, Err, true, false, map, IfOk, OnOk, OnErr, IsErrOf};
ghost use Rattle.rb_script_types.specs.Script.{script_view, IsReadScript};
ghost use Rattle.rb_script_types.specs.declared.config.PathConfig.{PathConfig};
ghost use Rattle.rb_script_toml.specs.declared.fault.Fault.{Fault as CodeFault};
ghost use Rattle.rb_script_toml.specs.Faults.{fault_view};
ghost use Rattle.rb_script_read.specs.Scripts.{script_of};
ghost use Rattle.rb_super_turn.specs.AsEvents.{as_events};
ghost use Rattle.rb_super_turn.specs.Script as relayed;
ghost use Rattle.rb_super_turn.specs.Turns.{IsReportOf};
ghost use Rattle.rb_super_turn.specs.Views.{report_view};
ghost use Rattle.rb_text.specs.Headline.{WritesReport, WritesThisReport, BeginsReport};
ghost use Rattle.rb_text.specs.Reports.{WritesReportOf, BeginsReportOf};

use crate::threads::shares_of;
use rb_base::{Gate, Sink};
use rb_script_read::read_script_by;
use rb_script_toml::RunError;
use rb_script_types::Script;
use rb_super::{run_by_workers, run_script, run_to_end};
use rb_super_turn::{Report, read_scripts_are_scripts};
use rb_text_report::write_report;
use std::alloc::{AllocError, Global};
use std::sync::{Arc, Wait};
use std::thread::Threads;

/// Runs a script by so many workers in threads of their own, at most 64, or by none: the calling thread
/// then does all. The report doesn't go by how many they are, nor by the gate. AllocError where a growth
/// is refused. It may wait for workers and for the gate; what is said holds if it returns.
pub fn report_of<
    R: Threads + Wait + Copy + Send + Sync + 'static,
    G: Gate + Send + Sync + Drop + 'static,
>(
    rt: &R,
    alloc: Global,
    script: Script,
    workers: usize,
    gate: &Arc<G, Global>,
) -> Result<Report, AllocError>
    requires script { IsReadScript (script_view script) }
    requires workers { workers ≤ 64 }
    ensures kept { relayed.IsScript (as_events (script_view script)) }
    ensures version { IfOk result (λ report. report.version ≡ script.config.version) }
    ensures chains { IfOk result (λ report. report.chains.items ≡ script.config.chains.items) }
    ensures paths { IfOk result (λ report. report.paths.items ≡ map (λ (p : PathConfig). p.id) script.config.paths.items) }
    ensures turns { IfOk result (λ report. IsReportOf (as_events (script_view script)) (report_view report)) }
{
    read_scripts_are_scripts(&script);
    if workers == 0 {
        run_script(rt, alloc, script, &**gate)
    } else {
        run_by_workers(rt, alloc, script, workers, gate)
    }
}

/// Runs a script by at most so many threads, at most 64: they make its step tables, and workers its plans, too, each where this saves time; with 0
/// the calling thread does all. What is said of `report_of` holds here, too.
fn report_by<
    R: Threads + Wait + Copy + Send + Sync + 'static,
    G: Gate + Send + Sync + Drop + 'static,
>(
    rt: &R,
    alloc: Global,
    script: Script,
    threads: usize,
    gate: &Arc<G, Global>,
) -> Result<Report, AllocError>
    requires script { IsReadScript (script_view script) }
    requires threads { threads ≤ 64 }
    ensures kept { relayed.IsScript (as_events (script_view script)) }
    ensures version { IfOk result (λ report. report.version ≡ script.config.version) }
    ensures chains { IfOk result (λ report. report.chains.items ≡ script.config.chains.items) }
    ensures paths { IfOk result (λ report. report.paths.items ≡ map (λ (p : PathConfig). p.id) script.config.paths.items) }
    ensures turns { IfOk result (λ report. IsReportOf (as_events (script_view script)) (report_view report)) }
{
    read_scripts_are_scripts(&script);
    if threads == 0 {
        return report_of(rt, alloc, script, 0, gate);
    }
    let shares = shares_of(alloc, &script)?;
    if shares.plans {
        return report_of(rt, alloc, script, threads, gate);
    }
    let (report, _) = run_to_end(rt, alloc, script, shares.table_threads(threads), &**gate)?;
    Ok(report)
}

/// Reads the script that the bytes hold, runs it, and writes its report, which doesn't go by how many
/// workers there are, at most 64 (`rb_super::run_by_workers`; with 0 the calling thread does all), nor by
/// the gate. `Fault` is the first fault of bytes that hold no script, and nothing is then written;
/// `Device` is answered where the writer fails, `NoMemory` where a growth is refused, and a beginning of
/// the report, or nothing, was then taken. It may wait for workers and for the gate; what is said holds
/// if it returns. The writer must not have failed before. What it took is said where a contract can name
/// its bytes, as those of a list in memory.
pub fn run_over<
    R: Threads + Wait + Copy + Send + Sync + 'static,
    W: Sink,
    G: Gate + Send + Sync + Drop + 'static,
>(
    rt: &R,
    alloc: Global,
    bytes: &[u8],
    writer: &mut W,
    workers: usize,
    gate: &Arc<G, Global>,
) -> Result<(), RunError>
    requires works { W.is_broken writer.old ≡ false }
    requires workers { workers ≤ 64 }
    ensures report { OnOk result (WritesReport bytes.now (W.taken writer.old) (W.taken writer.new)) }
    ensures fault { (f : CodeFault) → IsErrOf result (RunError.Fault f) → script_of bytes.now ≡ Err (fault_view f) }
    ensures nothing_written { (f : CodeFault) → IsErrOf result (RunError.Fault f) → writer.new ≡ writer.old }
    ensures device { IsErrOf result RunError.Device ↔ (W.is_broken writer.new ≡ true) }
    ensures begun { OnErr result ((writer.new ≡ writer.old) ⊎ BeginsReport bytes.now (W.taken writer.old) (W.taken writer.new)) }
{
    let _report = report_over(rt, alloc, bytes, writer, workers, gate)?;
    Ok(())
}

/// Does what `run_over` does, and answers the report that was written, with the identifiers of its chains and paths.
pub fn report_over<
    R: Threads + Wait + Copy + Send + Sync + 'static,
    W: Sink,
    G: Gate + Send + Sync + Drop + 'static,
>(
    rt: &R,
    alloc: Global,
    bytes: &[u8],
    writer: &mut W,
    workers: usize,
    gate: &Arc<G, Global>,
) -> Result<Report, RunError>
    requires works { W.is_broken writer.old ≡ false }
    requires workers { workers ≤ 64 }
    ensures report { IfOk result (λ report. WritesThisReport bytes.now (W.taken writer.old) (W.taken writer.new) report.chains.items report.paths.items (report_view report)) }
    ensures fault { (f : CodeFault) → IsErrOf result (RunError.Fault f) → script_of bytes.now ≡ Err (fault_view f) }
    ensures nothing_written { (f : CodeFault) → IsErrOf result (RunError.Fault f) → writer.new ≡ writer.old }
    ensures device { IsErrOf result RunError.Device ↔ (W.is_broken writer.new ≡ true) }
    ensures begun { OnErr result ((writer.new ≡ writer.old) ⊎ BeginsReport bytes.now (W.taken writer.old) (W.taken writer.new)) }
{
    let script = read_script_by(rt, alloc, bytes, workers)?;
    write_report_of(rt, alloc, script, writer, workers, gate)
}

/// Runs a script, writes its report as `run_over` does, and answers it. `Device` is answered where the
/// writer fails, `NoMemory` where a growth is refused, and a beginning of the report, or nothing, was then
/// taken.
pub fn write_report_of<
    R: Threads + Wait + Copy + Send + Sync + 'static,
    W: Sink,
    G: Gate + Send + Sync + Drop + 'static,
>(
    rt: &R,
    alloc: Global,
    script: Script,
    writer: &mut W,
    workers: usize,
    gate: &Arc<G, Global>,
) -> Result<Report, RunError>
    requires script { IsReadScript (script_view script) }
    requires works { W.is_broken writer.old ≡ false }
    requires workers { workers ≤ 64 }
    ensures report { IfOk result (λ report. WritesReportOf (script_view script) (W.taken writer.old) (W.taken writer.new) report.chains.items report.paths.items (report_view report)) }
    ensures no_fault { (f : CodeFault) → ¬ IsErrOf result (RunError.Fault f) }
    ensures device { IsErrOf result RunError.Device ↔ (W.is_broken writer.new ≡ true) }
    ensures begun { OnErr result ((writer.new ≡ writer.old) ⊎ BeginsReportOf (script_view script) (W.taken writer.old) (W.taken writer.new)) }
{
    let report = report_by(rt, alloc, script, workers, gate)?;
    write_report(alloc, &report, writer)?;
    Ok(report)
}
