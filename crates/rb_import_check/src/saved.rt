//! The answers that were saved, by what they are of.
ghost use Rattle.std.specs.Prelude.{◌≡◌, ◌≤◌, true, Ok, Err, length, All, IfOk, IfErr, string_bytes};
ghost use Rattle.sha2.specs.Sha256.{sha256};
ghost use Rattle.rb_import_answers.specs.Answers.{answer_view, told};
ghost use Rattle.rb_import_answers.specs.Said.{IsPlain};
ghost use Rattle.rb_import_check.specs.Saved.{IsFlawOf, is_commit, said_with};

use rb_import_answers::{NodeAnswer, read_answer, said_in, type_in};
use rb_import_json::{AnswerError, FieldError, FieldErrorName};
use sha2::{Digest, Sha256};
use std::alloc::{AllocError, Global};

/// An answer, the name of the file that it was saved in, and of a commit that verdicts stand beside the SHA-256 of that
/// file's content, by which they know it; else zeros.
#[derive(Drop)]
pub struct Saved {
    pub file: String,
    pub digest: [u8; 32],
    pub answer: NodeAnswer,
}

/// The answers of each chain, of each client and of each path of a setup, in its order.
#[derive(Drop)]
pub struct SavedAnswers {
    pub chains: Vec<Vec<Saved>>,
    pub clients: Vec<Vec<Saved>>,
    pub paths: Vec<Vec<Saved>>,
}

/// Why a saved answer isn't taken.
#[derive(Drop)]
pub enum SavedError {
    /// The file's content has a flaw; where that is an error that the node answered, what the node said of it, and where it
    /// is a client that isn't supported, its type.
    Invalid {
        file: String,
        flaw: FieldError,
        said: String,
    },
    /// A growth was refused.
    NoMemory,
}

/// Reads the answer that a file holds, without a client's records of a revision before this one; its flaw is the first one
/// that its content has. A commit has its digest where verdicts stand beside it.
pub fn read_saved(
    alloc: Global,
    file: String,
    bytes: &[u8],
    since: u64,
    is_judged: bool,
) -> Result<Saved, SavedError>
    ensures file { IfOk result (λ saved. saved.file ≡ file) }
    ensures digest { IfOk result (λ saved. is_judged ≡ true → is_commit (answer_view saved.answer) ≡ true → saved.digest ≡ sha256 bytes.now) }
    ensures answer { IfOk result (λ saved. told since bytes.now ≡ Ok (answer_view saved.answer)) }
    ensures flaw { IfErr result (IsFlawOf since file bytes.now) }
{
    match read_answer(alloc, bytes, since) {
        Ok(answer) => Ok(Saved {
            file,
            digest: digest_of(&answer, bytes, is_judged),
            answer,
        }),
        Err(AnswerError::Invalid(flaw)) => Err(flawed(alloc, file, bytes, since, flaw)),
        Err(AnswerError::NoMemory) => Err(SavedError::NoMemory),
    }
}

/// The SHA-256 of a commit's file, where verdicts stand beside it.
fn digest_of(answer: &NodeAnswer, bytes: &[u8], is_judged: bool) -> [u8; 32]
    ensures { is_judged ≡ true → is_commit (answer_view answer.now) ≡ true → result ≡ sha256 bytes.now }
{
    match answer {
        NodeAnswer::Commit(_) if is_judged => Sha256::digest(bytes),
        _ => [0; 32],
    }
}

/// The flaw that a file's content has, without a client's records of a revision before this one.
fn flawed(alloc: Global, file: String, bytes: &[u8], since: u64, flaw: FieldError) -> SavedError
    requires { told since bytes.now ≡ Err flaw }
    ensures { IsFlawOf since file bytes.now result }
{
    match said_of(alloc, bytes, flaw) {
        Ok(said) => SavedError::Invalid { file, flaw, said },
        Err(_) => SavedError::NoMemory,
    }
}

/// What a node said, where the flaw is an error that it answered; the client's type, where the flaw is that it isn't
/// supported; else nothing.
fn said_of(alloc: Global, bytes: &[u8], flaw: FieldError) -> Result<String, AllocError>
    ensures text { IfOk result (λ said. string_bytes said ≡ said_with flaw.name bytes.now) }
    ensures plain { IfOk result (λ said. All IsPlain (string_bytes said)) }
    ensures short { IfOk result (λ said. length (string_bytes said) ≤ 200) }
{
    match flaw.name {
        FieldErrorName::NodeError => said_in(alloc, bytes),
        FieldErrorName::UnsupportedClient => type_in(alloc, bytes),
        _ => Ok(String::new(alloc)),
    }
}
