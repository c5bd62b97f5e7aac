//! The script of a setup and of answers, and its text.
ghost use Rattle.std.specs.Prelude.{◌≡◌, ◌≤◌, ◌++◌, length, IfOk, IfErr, Ok, string_bytes};
ghost use Rattle.rb_script_types.specs.Script.{IsReadScript, script_view};
ghost use Rattle.rb_script_read.specs.Work.{little};
ghost use Rattle.rb_import_setup.specs.Documents.{max_bytes};
ghost use Rattle.rb_import_check.specs.Errors.{IsTooBig};
ghost use Rattle.rb_import_merge.specs.Errors.{IsToldIn, OfEach};
ghost use Rattle.rb_import_merge.specs.Seen.{HoldsOfSeen};
ghost use Rattle.rb_import_notices.specs.Whole.{AreNoticesOf};
ghost use Rattle.rb_import.specs.Openings.{Opens, hold_verdicts, opening_of};
ghost use Rattle.rb_import.specs.Reading.{IsTooMuch};
ghost use Rattle.rb_import.specs.Reasons.{HasReasonOfScript, IsOfSizeOf, NamesLargest};
ghost use Rattle.rb_import.specs.Scripts.{IsFitting, IsMadeOf, script_in};
ghost use Rattle.rb_import.specs.Texts.{heading};

use crate::made::{MakeError, script_of_seen};
use crate::opening::opening_of;
use crate::shares::largest_id;
use rb_import_check::{CheckErrorName, ImportError, SavedAnswers, Signatures};
use rb_import_merge::{ImportErrors, SeenSetup, seen_in};
use rb_import_notices::{Notices, notices_of};
use rb_import_setup::ImportSetup;
use rb_script_text::{TextError, text_of_script};
use rb_script_types::Script;
use std::alloc::{AllocError, Global};

/// A script, and what isn't among the answers that it was made of or isn't in it of them.
#[derive(Drop)]
pub struct Made<'a> {
    pub script: Script,
    pub notices: Notices<'a>,
}

/// A script's text, and what isn't among the answers that it was made of or isn't written of them.
#[derive(Drop)]
pub struct Composed<'a> {
    pub text: String,
    pub notices: Notices<'a>,
}

/// The script of version 4 that a setup and the answers of its chains, clients and paths make, and what isn't among
/// the answers, though the script stands without it, or isn't in it, since no book has room for it. All problems of
/// answers are answered: of the chains, of the clients, then of the paths, each in order; where there is none,
/// `ScriptTooBig`, where the script would have more events than are read, or ask for too much, of the client that brings
/// the most. `NoMemory` comes where a growth is refused.
pub fn make<'a>(
    alloc: Global,
    setup: &'a ImportSetup,
    signatures: Signatures,
    answers: &'a SavedAnswers,
) -> Result<Made<'a>, ImportErrors<'a>>
    ensures script { IfOk result (λ made. HoldsOfSeen setup.entry.now signatures answers.entry.now (λ seen.
        AreNoticesOf setup.entry.now answers.entry.now seen made.notices × IsMadeOf setup.entry.now answers.entry.now seen made.script)) }
    ensures form { IfOk result (λ made. IsReadScript (script_view made.script)) }
    ensures little { IfOk result (λ made. little (script_view made.script).config (script_view made.script).turns ≡ Ok tt) }
    ensures reason { IfErr result (OfEach (HasReasonOfScript setup.entry.now signatures answers.entry.now)) }
    ensures told { IfErr result (OfEach (IsToldIn setup.entry.now)) }
    ensures big { IfErr result (OfEach (λ e. IsTooBig e → HoldsOfSeen setup.entry.now signatures answers.entry.now (λ seen. NamesLargest setup.entry.now seen e × IsTooMuch (script_in setup.entry.now answers.entry.now seen)))) }
{
    let seen = seen_in(alloc, setup, signatures, answers)?;
    made_of(alloc, setup, answers, &seen)
}

/// The text of that script, which begins with a line that says who verified signatures, or that nobody did. Where it
/// would have more bytes than are read, that is `ScriptTooBig`, too.
pub fn compose<'a>(
    alloc: Global,
    setup: &'a ImportSetup,
    signatures: Signatures,
    answers: &'a SavedAnswers,
) -> Result<Composed<'a>, ImportErrors<'a>>
    ensures size { IfOk result (λ script. length (string_bytes script.text) ≤ max_bytes) }
    ensures opening { IfOk result (λ script. Opens (hold_verdicts answers.entry.now) (string_bytes script.text)) }
    ensures script { IfOk result (λ script. HoldsOfSeen setup.entry.now signatures answers.entry.now (λ seen.
        AreNoticesOf setup.entry.now answers.entry.now seen script.notices × IsFitting setup.entry.now answers.entry.now seen (string_bytes script.text))) }
    ensures reason { IfErr result (OfEach (HasReasonOfScript setup.entry.now signatures answers.entry.now)) }
    ensures told { IfErr result (OfEach (IsToldIn setup.entry.now)) }
    ensures big { IfErr result (OfEach (λ e. IsTooBig e → HoldsOfSeen setup.entry.now signatures answers.entry.now (λ seen. NamesLargest setup.entry.now seen e))) }
{
    let seen = seen_in(alloc, setup, signatures, answers)?;
    composed_of(alloc, setup, answers, &seen)
}

/// The script of what was seen, and its notices.
fn made_of<'a>(
    alloc: Global,
    setup: &'a ImportSetup,
    answers: &'a SavedAnswers,
    seen: &SeenSetup<'a>,
) -> Result<Made<'a>, ImportErrors<'a>>
    ensures notices { IfOk result (λ made. AreNoticesOf setup.entry.now answers.entry.now seen.now made.notices) }
    ensures script { IfOk result (λ made. IsMadeOf setup.entry.now answers.entry.now seen.now made.script) }
    ensures form { IfOk result (λ made. IsReadScript (script_view made.script)) }
    ensures little { IfOk result (λ made. little (script_view made.script).config (script_view made.script).turns ≡ Ok tt) }
    ensures size { IfErr result (OfEach (IsOfSizeOf setup.entry.now seen.now)) }
    ensures too_much { IfErr result (OfEach (λ _. IsTooMuch (script_in setup.entry.now answers.entry.now seen.now))) }
    ensures told { IfErr result (OfEach (IsToldIn setup.entry.now)) }
{
    let notices = notices_of(alloc, setup, answers, seen)?;
    match script_of_seen(alloc, setup, answers, seen) {
        Ok(script) => Ok(Made { script, notices }),
        Err(MakeError::NoMemory) => Err(ImportErrors::NoMemory),
        Err(MakeError::TooBig) => Err(too_big(alloc, setup, seen)),
    }
}

/// The text of the script of what was seen, and its notices.
fn composed_of<'a>(
    alloc: Global,
    setup: &'a ImportSetup,
    answers: &'a SavedAnswers,
    seen: &SeenSetup<'a>,
) -> Result<Composed<'a>, ImportErrors<'a>>
    ensures notices { IfOk result (λ script. AreNoticesOf setup.entry.now answers.entry.now seen.now script.notices) }
    ensures text { IfOk result (λ script. IsFitting setup.entry.now answers.entry.now seen.now (string_bytes script.text)) }
    ensures size { IfErr result (OfEach (IsOfSizeOf setup.entry.now seen.now)) }
    ensures told { IfErr result (OfEach (IsToldIn setup.entry.now)) }
{
    let Made { script, notices } = made_of(alloc, setup, answers, seen)?;
    let text = text_of(alloc, setup, answers, seen, &script)?;
    Ok(Composed { text, notices })
}

/// The text of a script of what was seen, which begins with the line on signatures and with who wrote it.
fn text_of<'a>(
    alloc: Global,
    setup: &'a ImportSetup,
    answers: &SavedAnswers,
    seen: &SeenSetup<'_>,
    script: &Script,
) -> Result<String, ImportErrors<'a>>
    requires { IsMadeOf setup.now answers.now seen.now script.now }
    ensures text { IfOk result (λ text. IsFitting setup.entry.now answers.now seen.now (string_bytes text)) }
    ensures size { IfErr result (OfEach (IsOfSizeOf setup.entry.now seen.now)) }
    ensures told { IfErr result (OfEach (IsToldIn setup.entry.now)) }
{
    let head = head_of(alloc, answers, seen)?;
    match text_of_script(alloc, script, head.as_str()) {
        Ok(text) => Ok(text),
        Err(TextError::NoMemory) => Err(ImportErrors::NoMemory),
        Err(_) => Err(too_big(alloc, setup, seen)),
    }
}

/// What a script's text begins with: the line on signatures, and who wrote it.
fn head_of(
    alloc: Global,
    answers: &SavedAnswers,
    seen: &SeenSetup<'_>,
) -> Result<String, AllocError>
    ensures { IfOk result (λ head. string_bytes head ≡ opening_of answers.now seen.now ++ heading) }
{
    let mut head = opening_of(alloc, answers, seen)?;
    head.push_str("# Written by ibcplan import.\n")?;
    Ok(head)
}

/// That a script would be too big, told of the client that brings the most to it.
fn too_big<'a>(alloc: Global, setup: &'a ImportSetup, seen: &SeenSetup<'_>) -> ImportErrors<'a>
    ensures size { OfEach (IsOfSizeOf setup.entry.now seen.now) result }
    ensures told { OfEach (IsToldIn setup.entry.now) result }
{
    match largest_id(alloc, setup, seen) {
        Ok(largest) => {
            let problem = ImportError::of(CheckErrorName::ScriptTooBig, largest);
            ImportErrors::alone(alloc, problem)
        }
        Err(error) => error.into(),
    }
}
