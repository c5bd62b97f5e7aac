//! Certifying: read the certificate, judge it for a script, and write the verdict.
ghost use Rattle.std.specs.Prelude.{◌≡◌, ◌↔◌, ◌⊎◌, Ok, true, false, IfOk, OnErr, OnOk, IfErr, IsErrOf};
ghost use Rattle.std.specs.Io.KnownBytes.{Appends};
ghost use Rattle.rb_base.specs.Sink.{AppendsBeginning};
ghost use Rattle.rb_script_toml.specs.declared.fault.Fault.{Fault as CodeFault};
ghost use Rattle.rb_script_toml.specs.Faults.{fault_view};
ghost use Rattle.rb_super_turn.specs.Report.{Report};
ghost use Rattle.rb_script_types.specs.Script.{script_view, IsReadScript};
ghost use Rattle.rb_super_turn.specs.AsEvents.{as_events};
ghost use Rattle.rb_super_turn.specs.Turns.{IsReportOf};
ghost use Rattle.rb_text_report.specs.VerdictLine.{verdict_line};
ghost use Rattle.rb_text.specs.Verdicts.{Case, case_of, IsReportedCase, IsFaultFor, WritesVerdict, BeginsVerdict, IsCertified};
ghost use Rattle.rb_text_report.specs.Written.{IsWriteError};

use crate::case::{judge_case, read_case};
use rb_base::Sink;
use rb_cert::Judgement;
use rb_script_toml::RunError;
use rb_script_types::Script;
use rb_text_report::{is_yes, push_verdict, put};
use std::alloc::Global;
use std::thread::Threads;

/// Writes the line of a verdict.
#[tactic(auto, using(rb_text_report::proofs::Beginnings::beginnings))]
fn put_verdict<W: Sink>(alloc: Global, verdict: &Judgement, writer: &mut W) -> Result<(), RunError>
    requires { W.is_broken writer.old ≡ false }
    ensures written { OnOk result (Appends (W.taken writer.old) (W.taken writer.new) (verdict_line verdict.now)) }
    ensures works { OnOk result (W.is_broken writer.new ≡ false) }
    ensures begun { OnErr result (AppendsBeginning (W.taken writer.old) (W.taken writer.new) (verdict_line verdict.now)) }
    ensures failed { IfErr result (λ e. IsWriteError e (W.is_broken writer.new)) }
{
    let mut text = String::new(alloc);
    push_verdict(&mut text, verdict)?;
    put(writer, text.as_bytes())
}

/// Judges the certificate that a text holds for a script, and writes the verdict as one line: `yes`, or
/// `no` with the number, the name and the numbers of the first reason that holds. The verdict is the
/// certifier's, for the view and the goal that a run of the script plans the client by in the
/// certificate's turn. Ok tells whether it is yes: then the labelling is sound and the answer right.
///
/// `Fault` is the first fault of the certificate, then that the script doesn't have its turn or its
/// client, then that the client is held or idle in that turn; nothing is then written. `Device` is
/// answered where the writer fails, `NoMemory` where a growth is refused, and a beginning of the line,
/// or nothing, was then taken. The writer must not have failed before.
pub fn certify_script<R: Threads + Sync, W: Sink>(
    rt: &R,
    alloc: Global,
    script: Script,
    certificate: &[u8],
    writer: &mut W,
) -> Result<bool, RunError>
    requires script { IsReadScript (script_view script) }
    requires works { W.is_broken writer.old ≡ false }
    ensures verdict { IfOk result (λ yes. WritesVerdict (script_view script) certificate.now yes (W.taken writer.old) (W.taken writer.new)) }
    ensures right { result ≡ Ok true → IsCertified (script_view script) certificate.now }
    ensures accepts { (case : Case) (report : Report) → case_of (script_view script) certificate.now ≡ Ok case → IsReportOf (as_events case.script) report
        → IsReportedCase report case → IfOk result (λ yes. yes ≡ true) }
    ensures fault { (f : CodeFault) → IsErrOf result (RunError.Fault f) → IsFaultFor (script_view script) certificate.now (fault_view f) }
    ensures nothing_written { (f : CodeFault) → IsErrOf result (RunError.Fault f) → writer.new ≡ writer.old }
    ensures device { IsErrOf result RunError.Device ↔ (W.is_broken writer.new ≡ true) }
    ensures begun { OnErr result ((writer.new ≡ writer.old) ⊎ BeginsVerdict (script_view script) certificate.now (W.taken writer.old) (W.taken writer.new)) }
{
    let case = read_case(alloc, script, certificate)?;
    let verdict = judge_case(rt, alloc, case)?;
    put_verdict(alloc, &verdict, writer)?;
    Ok(is_yes(&verdict))
}
