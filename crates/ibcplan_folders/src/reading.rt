//! The answers that files hold, by their bytes. Several threads read those of many files; none of them sees a folder.
ghost use Rattle.std.specs.Prelude.{◌≡◌, IfOk, true};
ghost use Rattle.sha2.specs.Sha256.{sha256};
ghost use Rattle.rb_import_answers.specs.Answers.{answer_view, told_in, verdicts_file, without_votes};
ghost use Rattle.rb_import_check.specs.Saved.{is_commit};
ghost use Rattle.ibcplan_folders.specs.Files.{HasVerdicts, TellsIn};
ghost use Rattle.ibcplan_folders.specs.Folders.{AreAnswersBehind, AreAnswersOf, IsAnswerOf};

use ibcplan_cli::{ProgramError, shown_text};
use rayon::prelude::*;
use rb_import_check::{Saved, SavedError, read_saved};
use rb_import_json::{FieldError, FieldErrorName};
use std::alloc::{AllocError, Global};
use std::thread::Threads;

/// The most bytes of files whose answers are read together, unless one file is larger. They have no more objects than one
/// answer may have, so reading them takes no more memory.
pub const MAX_GROUP_BYTES: usize = 1_048_576;

/// The fewest files that are worth a thread.
const MIN_SHARE: usize = 4;

/// A file of a folder: what to call it, its name there and its bytes.
#[derive(Drop)]
pub struct FileBytes<'n> {
    pub place: String,
    pub name: &'n str,
    pub bytes: Vec<u8>,
}

/// Whether the votes of commits are kept; a script needs their flags and addresses alone.
#[derive(Clone, Copy)]
pub enum Votes {
    Kept,
    LeftOut,
}

/// How answers are read: of a client's records those of this revision and of later ones, and with votes or without. Where
/// commits are judged they have their files' digests.
#[derive(Clone, Copy)]
pub struct Reading {
    pub since: u64,
    pub votes: Votes,
    pub is_judged: bool,
}

/// Answers, and behind them those that files hold.
pub fn with_answers<'a, R: Threads + Sync>(
    rt: &R,
    alloc: Global,
    reading: Reading,
    answers: Vec<Saved>,
    files: &[FileBytes<'_>],
) -> Result<Vec<Saved>, ProgramError<'a>>
    ensures { IfOk result (λ all. AreAnswersBehind reading files.now answers.items all.items) }
{
    let mut answers = answers;
    let mut more = answers_in(rt, alloc, reading, files)?;
    match answers.append(&mut more) {
        Ok(()) => Ok(answers),
        Err(_) => Err(ProgramError::NoMemory),
    }
}

/// The answers that files hold, one each and in their order.
fn answers_in<'a, R: Threads + Sync>(
    rt: &R,
    alloc: Global,
    reading: Reading,
    files: &[FileBytes<'_>],
) -> Result<Vec<Saved>, ProgramError<'a>>
    ensures { IfOk result (λ saved. AreAnswersOf reading files.now saved.items) }
{
    let read: Result<Result<Vec<Saved>, ProgramError<'a>>, AllocError> = files
        .par_iter()
        .with_min_len(MIN_SHARE)
        .map(
            |file: &FileBytes| -> Result<Saved, ProgramError>
                ensures { IfOk result (IsAnswerOf reading file.now) }
            { answer_in(alloc, reading, file) },
        )
        .collect(rt, alloc);
    read.unwrap_or(Err(ProgramError::NoMemory))
}

/// The answer that a file holds.
fn answer_in<'a>(
    alloc: Global,
    reading: Reading,
    file: &FileBytes<'_>,
) -> Result<Saved, ProgramError<'a>>
    ensures answer { IfOk result (IsAnswerOf reading file.now) }
    ensures verdicts { IfOk result (λ saved. HasVerdicts saved.answer → file.now.name.now ≡ verdicts_file) }
{
    let place = file.place.as_str();
    let bytes = file.bytes.as_slice();
    let Reading {
        since,
        votes,
        is_judged,
    } = reading;
    let saved = saved_of(alloc, place, file.name, bytes, since, is_judged)?;
    match votes {
        Votes::Kept => Ok(saved),
        Votes::LeftOut => Ok(without_votes(alloc, saved)),
    }
}

fn without_votes(alloc: Global, saved: Saved) -> Saved
    ensures file { result.file ≡ saved.file }
    ensures digest { result.digest ≡ saved.digest }
    ensures answer { answer_view result.answer ≡ without_votes (answer_view saved.answer) }
{
    let Saved {
        file,
        digest,
        answer,
    } = saved;
    Saved {
        file,
        digest,
        answer: answer.without_votes(alloc),
    }
}

/// The answer that the bytes of a file of this name hold, of a client's records those of this revision and of later
/// ones. Verdicts count only in the file `verdicts.json`.
fn saved_of<'a>(
    alloc: Global,
    file: &str,
    name: &str,
    bytes: &[u8],
    since: u64,
    is_judged: bool,
) -> Result<Saved, ProgramError<'a>>
    ensures digest { IfOk result (λ saved. is_judged ≡ true → is_commit (answer_view saved.answer) ≡ true → saved.digest ≡ sha256 bytes.now) }
    ensures answer { IfOk result (λ saved. TellsIn name.now since bytes.now (answer_view saved.answer)) }
    ensures verdicts { IfOk result (λ saved. HasVerdicts saved.answer → name.now ≡ verdicts_file) }
{
    let Ok(shown) = shown_text(alloc, file) else {
        return Err(ProgramError::NoMemory);
    };
    match read_saved(alloc, shown, bytes, since, is_judged) {
        Ok(saved) => Ok(in_file(saved, name)),
        Err(SavedError::NoMemory) => Err(out_of_memory(alloc, file)),
        Err(SavedError::Invalid { file, flaw, said }) => {
            Err(refused_file(alloc, file.as_str(), flaw, said.as_str()))
        }
    }
}

/// An answer as the file of a name has it.
#[tactic(auto, using(crate::proofs::Files::naming))]
fn in_file(saved: Saved, name: &str) -> Saved
    ensures digest { result.digest ≡ saved.digest }
    ensures commit { is_commit (answer_view result.answer) ≡ true → is_commit (answer_view saved.answer) ≡ true }
    ensures answer { answer_view result.answer ≡ told_in name.now (answer_view saved.answer) }
    ensures verdicts { HasVerdicts result.answer → name.now ≡ verdicts_file }
{
    let Saved {
        file,
        digest,
        answer,
    } = saved;
    Saved {
        file,
        digest,
        answer: answer.in_file(name),
    }
}

/// Why a file holds no answer.
fn refused_file<'a>(alloc: Global, file: &str, flaw: FieldError, said: &str) -> ProgramError<'a> {
    let Ok(said) = said_words(alloc, flaw.name, said) else {
        return ProgramError::NoMemory;
    };
    let advice = flaw.name.advice();
    refused(format!(in alloc; "refused {flaw}\n{file}: {advice}{said}"))
}

/// What a node said in the place of an answer, or which client it told of, if it said something, as an end of the line
/// that refuses it.
fn said_words(alloc: Global, flaw: FieldErrorName, said: &str) -> Result<String, AllocError> {
    match flaw {
        _ if said.is_empty() => Ok(String::new(alloc)),
        FieldErrorName::UnsupportedClient => format!(in alloc; "; this one is \"{said}\""),
        _ => format!(in alloc; "; it said \"{said}\""),
    }
}

/// That there is no memory to read the answer in a file, which is then refused as others are.
pub fn out_of_memory<'a>(alloc: Global, file: &str) -> ProgramError<'a> {
    let Ok(file) = shown_text(alloc, file) else {
        return ProgramError::NoMemory;
    };
    refused(format!(in alloc;
        "refused OutOfMemory at -\n{file}: the system gives no memory to read it (as `ulimit -v` bounds it); give more, or ask for fewer on a page (per_page=20)"
    ))
}

pub fn refused<'a>(text: Result<String, AllocError>) -> ProgramError<'a> {
    match text {
        Ok(text) => ProgramError::RefusedAnswers(text),
        Err(_) => ProgramError::NoMemory,
    }
}
