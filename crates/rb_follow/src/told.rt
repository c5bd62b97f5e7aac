//! Answers as texts.
ghost use Rattle.std.specs.Prelude.{◌≡◌, ◌++◌, false, codes, IfOk, IfErr, OnOk, OnErr, string_bytes};
ghost use Rattle.std.specs.Io.KnownBytes.{Appends};
ghost use Rattle.rb_base.specs.Sink.{AppendsBeginning};
ghost use Rattle.rb_script_toml.specs.Faults.{fault_line, fault_view};
ghost use Rattle.rb_super_turn.specs.Views.{turn_report_view};
ghost use Rattle.rb_text_report.specs.Report.{turn_text};
ghost use Rattle.rb_text_report.specs.Written.{IsWriteError};
ghost use Rattle.rb_script_text.specs.Json.{json_text, more_text};
ghost use Rattle.rb_follow.specs.Answers.{mark, answer_view, refusal_view, whole_text, greeting, head_text};
ghost use Rattle.rb_follow.specs.FaultJson.{fault_json, named_members, order_members, placed_members, refusal_json, refusal_line, turn_members};
ghost use Rattle.rb_follow.specs.Followers.{out_of_order};

use crate::answer::{Answer, TurnRefusal};
use rb_base::{ChainId, Device, PathId, Sink, write_whole};
use rb_script_text::{push_escaped, push_name, push_number, push_text};
use rb_script_toml::{Fault, RunError};
use rb_script_types::Version;
use rb_super_turn::TurnReport;
use rb_text_export::json_of_turn;
use rb_text_report::{first_line, push_turn};
use std::alloc::{AllocError, Global};

/// The number of the fault that a document begins with another number than the one that is due.
const OUT_OF_ORDER: u64 = 1035;

/// What answers are written as: lines of a report, with a line `---` after each answer, or objects of JSON, each
/// on a line, behind a greeting. Either with the labels of heights, or without.
#[derive(Clone, Copy, PartialEq, Eq)]
pub enum Form {
    Text { has_labels: bool },
    Json { has_labels: bool },
}

impl Form {
    ghost use Rattle.std.specs.Prelude.{◌≡◌};
    ghost use Rattle.rb_follow.specs.Answers.{has_labels};

    /// Whether the labels of heights are written.
    pub(crate) fn has_labels(self) -> bool
        ensures { result ≡ has_labels self }
    {
        match self {
            Form::Text { has_labels } | Form::Json { has_labels } => has_labels,
        }
    }
}

/// An object of JSON, and a line feed: the program, the format of answers in a version, and the versions of scripts that
/// it takes.
pub fn greeting(version: Version) -> &'static [u8]
    ensures { result.now ≡ greeting version }
{
    match version {
        Version::One | Version::Two => {
            b"{\"ibcplan\": 1, \"program\": \"ibcplan 0.1.0\", \"scripts\": [1, 2, 3, 4]}\n"
        }
        Version::Three => {
            b"{\"ibcplan\": 3, \"program\": \"ibcplan 0.1.0\", \"scripts\": [1, 2, 3, 4]}\n"
        }
        Version::Four => {
            b"{\"ibcplan\": 4, \"program\": \"ibcplan 0.1.0\", \"scripts\": [1, 2, 3, 4]}\n"
        }
    }
}

/// What stands before the answers: the first line of a report, or the greeting.
pub(crate) fn head(form: Form, version: Version) -> &'static [u8]
    ensures { result.now ≡ head_text form version }
{
    match form {
        Form::Text { .. } => first_line(version),
        Form::Json { .. } => greeting(version),
    }
}

/// The lines of a turn's report, and the line `---`.
fn text_of_turn(
    alloc: Global,
    version: Version,
    chains: &[ChainId],
    paths: &[PathId],
    number: u64,
    report: &TurnReport,
) -> Result<String, AllocError>
    ensures { IfOk result (λ text. string_bytes text ≡ turn_text version chains.now paths.now number (turn_report_view report.now) ++ mark) }
{
    let mut text = String::new(alloc);
    push_turn(&mut text, version, chains, paths, number, report)?;
    text.push_str("---\n")?;
    Ok(text)
}

/// The line of a fault, and the line `---`.
fn text_of_fault(alloc: Global, fault: &Fault) -> Result<String, AllocError>
    ensures { IfOk result (λ text. string_bytes text ≡ fault_line (fault_view fault.now) ++ codes "\n" ++ mark) }
{
    let mut text = String::new(alloc);
    write!(text, "{fault}\n---\n")?;
    Ok(text)
}

/// Adds a fault, and the number of its document, if it has one, as an object of JSON.
fn push_fault(text: &mut String, number: Option<u64>, fault: &Fault) -> Result<(), AllocError>
    ensures { OnOk result (string_bytes text.new ≡ string_bytes text.old ++ json_text (fault_json number (fault_view fault.now))) }
{
    text.push_str("{")?;
    push_number(text, false, "fault", u64::from(fault.name.number()))?;
    push_placed(text, number, fault)?;
    text.push_str("}")
}

/// Adds what is wrong, and where, and the number of the document, if it has one.
fn push_placed(text: &mut String, number: Option<u64>, fault: &Fault) -> Result<(), AllocError>
    ensures { OnOk result (string_bytes text.new ≡ string_bytes text.old ++ more_text (placed_members number (fault_view fault.now))) }
{
    push_named(text, fault)?;
    push_document(text, number)
}

/// Adds what is wrong, and where. Paths of faults have no control character.
fn push_named(text: &mut String, fault: &Fault) -> Result<(), AllocError>
    ensures { OnOk result (string_bytes text.new ≡ string_bytes text.old ++ more_text (named_members (fault_view fault.now))) }
{
    push_text(text, true, "name", fault.name.name())?;
    push_name(text, true, "path")?;
    push_escaped(text, fault.path.as_str())
}

/// Adds the number of a document, if it has one.
fn push_document(text: &mut String, number: Option<u64>) -> Result<(), AllocError>
    ensures { OnOk result (string_bytes text.new ≡ string_bytes text.old ++ more_text (turn_members number)) }
{
    match number {
        Some(number) => push_number(text, true, "turn", number),
        None => Ok(()),
    }
}

/// A fault, and the number of its document, if it has one, as an object of JSON, and a line feed.
pub fn json_of_fault(
    alloc: Global,
    number: Option<u64>,
    fault: &Fault,
) -> Result<String, AllocError>
    ensures { IfOk result (λ text. string_bytes text ≡ json_text (fault_json number (fault_view fault.now)) ++ codes "\n") }
{
    let mut text = String::new(alloc);
    push_fault(&mut text, number, fault)?;
    text.push_str("\n")?;
    Ok(text)
}

/// Adds that a document begins with another number than this one, which is due, as an object of JSON.
fn push_out_of_order(text: &mut String, due: u64) -> Result<(), AllocError>
    ensures { OnOk result (string_bytes text.new ≡ string_bytes text.old ++ json_text (refusal_json (out_of_order due))) }
{
    text.push_str("{")?;
    push_number(text, false, "fault", OUT_OF_ORDER)?;
    push_order(text, due)?;
    text.push_str("}")
}

/// Adds what is wrong then, and the number that is due.
fn push_order(text: &mut String, due: u64) -> Result<(), AllocError>
    ensures { OnOk result (string_bytes text.new ≡ string_bytes text.old ++ more_text (order_members due)) }
{
    push_text(text, true, "name", "OutOfOrder")?;
    push_text(text, true, "path", "turn")?;
    push_number(text, true, "turn", due)
}

/// The same, and a line feed.
fn json_of_order(alloc: Global, due: u64) -> Result<String, AllocError>
    ensures { IfOk result (λ text. string_bytes text ≡ json_text (refusal_json (out_of_order due)) ++ codes "\n") }
{
    let mut text = String::new(alloc);
    push_out_of_order(&mut text, due)?;
    text.push_str("\n")?;
    Ok(text)
}

/// The line of a refusal, and the line `---`.
fn text_of_refusal(alloc: Global, refusal: &TurnRefusal) -> Result<String, AllocError>
    ensures { IfOk result (λ text. string_bytes text ≡ refusal_line (refusal_view refusal.now) ++ codes "\n" ++ mark) }
{
    match refusal {
        TurnRefusal::Fault { fault, .. } => text_of_fault(alloc, fault),
        TurnRefusal::OutOfOrder { .. } => {
            String::from_str(alloc, "fault 1035 OutOfOrder at turn\n---\n")
        }
    }
}

/// A refusal as an object of JSON, and a line feed.
fn json_of_refusal(alloc: Global, refusal: &TurnRefusal) -> Result<String, AllocError>
    ensures { IfOk result (λ text. string_bytes text ≡ json_text (refusal_json (refusal_view refusal.now)) ++ codes "\n") }
{
    match refusal {
        TurnRefusal::Fault { number, fault } => json_of_fault(alloc, *number, fault),
        TurnRefusal::OutOfOrder { due } => json_of_order(alloc, *due),
    }
}

/// What is told of an answer, in a form.
fn text_of(
    alloc: Global,
    version: Version,
    chains: &[ChainId],
    paths: &[PathId],
    answer: &Answer,
    form: Form,
) -> Result<String, AllocError>
    ensures { IfOk result (λ text. string_bytes text ≡ whole_text form version chains.now paths.now (answer_view answer.now)) }
{
    match (form, answer) {
        (Form::Text { .. }, Answer::Planned { number, report }) => {
            text_of_turn(alloc, version, chains, paths, *number, report)
        }
        (Form::Text { .. }, Answer::Refused(refusal)) => text_of_refusal(alloc, refusal),
        (Form::Json { .. }, Answer::Planned { number, report }) => {
            json_of_turn(alloc, *number, version, chains, paths, report)
        }
        (Form::Json { .. }, Answer::Refused(refusal)) => json_of_refusal(alloc, refusal),
    }
}

/// Writes all of the bytes, or fails with the writer.
pub(crate) fn put<W: Sink>(writer: &mut W, bytes: &[u8]) -> Result<(), RunError>
    requires { W.is_broken writer.old ≡ false }
    ensures written { OnOk result (Appends (W.taken writer.old) (W.taken writer.new) bytes.now) }
    ensures works { OnOk result (W.is_broken writer.new ≡ false) }
    ensures begun { OnErr result (AppendsBeginning (W.taken writer.old) (W.taken writer.new) bytes.now) }
    ensures failed { IfErr result (λ e. IsWriteError e (W.is_broken writer.new)) }
{
    match write_whole(writer, bytes) {
        Ok(()) => Ok(()),
        Err(Device) => Err(RunError::Device),
    }
}

/// Writes what is told of an answer, with the identifiers of the chains and the paths by their places, whole or as the writer takes it: of a
/// writer that holds nothing back who reads has it at once. `Device` where the writer fails, and `NoMemory`
/// where a growth is refused; either way a beginning of the answer was taken. The writer must not have failed
/// before.
#[tactic(auto, using(rb_text_report::proofs::Beginnings::beginnings))]
pub(crate) fn put_told<W: Sink>(
    alloc: Global,
    version: Version,
    chains: &[ChainId],
    paths: &[PathId],
    answer: &Answer,
    form: Form,
    writer: &mut W,
) -> Result<(), RunError>
    requires { W.is_broken writer.old ≡ false }
    ensures written { OnOk result (Appends (W.taken writer.old) (W.taken writer.new) (whole_text form version chains.now paths.now (answer_view answer.now))) }
    ensures works { OnOk result (W.is_broken writer.new ≡ false) }
    ensures begun { OnErr result (AppendsBeginning (W.taken writer.old) (W.taken writer.new) (whole_text form version chains.now paths.now (answer_view answer.now))) }
    ensures failed { IfErr result (λ e. IsWriteError e (W.is_broken writer.new)) }
{
    let text = text_of(alloc, version, chains, paths, answer, form)?;
    put(writer, text.as_bytes())
}
