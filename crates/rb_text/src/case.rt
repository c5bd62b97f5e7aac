//! What is judged: a certificate for a script.
ghost use Rattle.std.specs.Prelude.{◌≡◌, ◌<◌, Ok, Some, None, length, IfOk, IsErrOf};
ghost use Rattle.rb_script_toml.specs.declared.fault.Fault.{Fault as CodeFault};
ghost use Rattle.rb_script_toml.specs.Faults.{Gives, fault_view};
ghost use Rattle.rb_super_turn.specs.Report.{Report};
ghost use Rattle.rb_script_types.specs.Script.{IsReadScript, script_view};
ghost use Rattle.rb_super_turn.specs.AsEvents.{as_events};
ghost use Rattle.rb_super_turn.specs.Turns.{IsReportOf};
ghost use Rattle.rb_text_report.specs.Certificates.{certificate_view};
ghost use Rattle.rb_text.specs.Verdicts.{case_view, case_in, case_of, IsVerdictOf, IsRightCase, IsReportedCase, no_goal};

use rb_cert::Judgement;
use rb_script_config::place_of;
use rb_script_toml::{FaultName, RunError, fault_at};
use rb_script_types::Script;
use rb_super::judge;
use rb_text_report::{Certificate, read_certificate};
use std::alloc::Global;
use std::thread::Threads;

/// A script, a certificate, and the places of the certificate's turn and client in the script.
#[derive(Drop)]
pub struct Case {
    pub script: Script,
    pub certificate: Certificate,
    pub turn: usize,
    pub client: usize,
}

/// Looks up the certificate's turn, and then its client.
#[tactic(auto, using(rb_script_toml::proofs::Steps::steps), unfolding(crate::specs::Verdicts::case_in))]
fn case_in(alloc: Global, script: Script, certificate: Certificate) -> Result<Case, RunError>
    ensures read { Gives case_view result (case_in (script_view script) (certificate_view certificate)) }
    ensures script { IfOk result (λ c. c.script ≡ script) }
    ensures turn { IfOk result (λ c. c.turn < length script.turns.items) }
    ensures client { IfOk result (λ c. c.client < length script.config.clients.items) }
{
    let turn = certificate.turn.saturating_sub(1) as usize;
    if turn >= script.turns.len() {
        return Err(fault_at(alloc, "turn", FaultName::NoSuchTurn));
    }
    match place_of(
        certificate.client.as_str(),
        script.config.clients.as_slice(),
    ) {
        Some(client) => Ok(Case {
            script,
            certificate,
            turn,
            client,
        }),
        None => Err(fault_at(alloc, "client", FaultName::UnknownIdentifier)),
    }
}

/// Reads the certificate, and looks up what it names in the script; or answers the first fault.
#[tactic(auto, using(rb_script_toml::proofs::Steps::steps), unfolding(crate::specs::Verdicts::case_of))]
pub(crate) fn read_case(alloc: Global, script: Script, certificate: &[u8]) -> Result<Case, RunError>
    ensures read { Gives case_view result (case_of (script_view script) certificate.now) }
    ensures script { IfOk result (λ c. c.script ≡ script) }
    ensures turn { IfOk result (λ c. c.turn < length c.script.turns.items) }
    ensures client { IfOk result (λ c. c.client < length c.script.config.clients.items) }
{
    let certificate = read_certificate(alloc, certificate)?;
    case_in(alloc, script, certificate)
}

/// The verdict on the certificate's answer; a fault where its client is held or idle in its turn.
pub(crate) fn judge_case<R: Threads + Sync>(
    rt: &R,
    alloc: Global,
    case: Case,
) -> Result<Judgement, RunError>
    requires script { IsReadScript (script_view case.script) }
    requires turn { case.turn < length case.script.turns.items }
    requires client { case.client < length case.script.config.clients.items }
    ensures judged { IfOk result (λ verdict. IsVerdictOf (case_view case) (Some verdict)) }
    ensures right { result ≡ Ok Judgement.Yes → IsRightCase (case_view case) }
    ensures accepts { (report : Report) → IsReportOf (as_events (script_view case.script)) report
        → IsReportedCase report (case_view case)
        → IfOk result (λ verdict. verdict ≡ Judgement.Yes) }
    ensures fault { (f : CodeFault) → IsErrOf result (RunError.Fault f) → fault_view f ≡ no_goal }
    ensures no_goal { (f : CodeFault) → IsErrOf result (RunError.Fault f) → IsVerdictOf (case_view case) None }
    ensures works { ¬ IsErrOf result RunError.Device }
{
    let Case {
        script,
        certificate,
        turn,
        client,
    } = case;
    match judge(rt, alloc, script, turn, client, &certificate.answer)? {
        Some(verdict) => Ok(verdict),
        None => Err(fault_at(alloc, "client", FaultName::NoGoal)),
    }
}
