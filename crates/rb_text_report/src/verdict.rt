//! The line of a verdict.
ghost use Rattle.std.specs.Prelude.{◌≡◌, ◌++◌, OnOk, string_bytes};
ghost use Rattle.rb_text_report.specs.VerdictLine.{numbers_text, verdict_line, is_yes};

use rb_cert::{Judgement, Reason};
use std::alloc::AllocError;

/// Whether a verdict is yes.
pub fn is_yes(verdict: &Judgement) -> bool
    ensures { result ≡ is_yes verdict.now }
{
    match verdict {
        Judgement::Yes => true,
        Judgement::No(_) => false,
    }
}

/// Adds the numbers of a reason, each after a blank.
fn push_numbers(text: &mut String, reason: Reason) -> Result<(), AllocError>
    ensures { OnOk result (string_bytes text.new ≡ string_bytes text.old ++ numbers_text reason) }
{
    match reason {
        Reason::SourceLabel(height) | Reason::GoalLabelled(height) => write!(text, " {height}"),
        Reason::LabelTooHigh { trusted, height } => write!(text, " {trusted} {height}"),
        Reason::PlanNotAccepted(update)
        | Reason::PlanNotTight(update)
        | Reason::NotTheTie(update) => write!(text, " {update}"),
        Reason::GoalMissed => Ok(()),
    }
}

fn push_reason(text: &mut String, reason: &Reason) -> Result<(), AllocError>
    ensures { OnOk result (string_bytes text.new ≡ string_bytes text.old ++ verdict_line (Judgement.No reason.now)) }
{
    let number = reason.number();
    let name = reason.name();
    write!(text, "no {number} {name}")?;
    push_numbers(text, *reason)?;
    text.push_str("\n")
}

/// Adds the line of a verdict.
pub fn push_verdict(text: &mut String, verdict: &Judgement) -> Result<(), AllocError>
    ensures { OnOk result (string_bytes text.new ≡ string_bytes text.old ++ verdict_line verdict.now) }
{
    match verdict {
        Judgement::Yes => text.push_str("yes\n"),
        Judgement::No(reason) => push_reason(text, reason),
    }
}
