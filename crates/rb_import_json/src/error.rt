//! What is wrong with an answer, and where.
ghost use Rattle.std.specs.Prelude.{◌≡◌};

use crate::field_path::FieldPath;
use std::alloc::{AllocError, AllocFailed};
use std::fmt;
use thiserror::Error;

/// What is wrong with an answer.
#[derive(Clone, Copy)]
pub enum FieldErrorName {
    /// It has more bytes than are read.
    TooBig,
    /// It has more objects or values than are read, by its bytes `{`, `[` and `,`.
    TooManyValues,
    /// Not UTF-8, or not JSON.
    NotJson,
    /// Nothing but white space.
    Empty,
    /// It begins as a page in HTML does.
    ErrorPage,
    /// It begins as gzip does.
    Compressed,
    /// It begins as an object of JSON does, and doesn't end as one.
    CutShort,
    /// JSON, and no answer that is known.
    UnknownShape,
    /// The node answered that it has an error.
    NodeError,
    /// A field that is needed isn't there.
    MissingField,
    /// A value of another type.
    WrongType,
    /// A text that is no number, or one outside its range.
    BadNumber,
    /// Not the hexadecimal digits of a hash or an address.
    BadHex,
    /// Not the base64 text of a hash, a key, a signature or an attribute.
    BadBase64,
    /// Not a time, or one outside the range.
    BadTime,
    /// Not a duration in seconds, or one outside its range.
    BadDuration,
    /// Not an identifier of a chain.
    BadIdentifier,
    /// A flag of a signature that isn't known.
    BadFlag,
    /// A key that is neither of ed25519 nor of secp256k1.
    ForeignKey,
    /// A voting power that no validator has.
    BadPower,
    /// A trust level that isn't from a third to one.
    BadTrust,
    /// A light client that isn't Tendermint's.
    UnsupportedClient,
    /// A client that is frozen.
    FrozenClient,
    /// The commit is of another height than the header.
    OtherHeight,
    /// Verdicts of another version than is read.
    BadVersion,
    /// Places of votes that don't rise, or are no places of votes.
    BadPlace,
}

impl FieldErrorName {
    ghost use Rattle.rb_import_json.specs.Advice.{field_error_advice};
    ghost use Rattle.rb_import_json.specs.Names.{field_error_name};

    /// The name.
    pub fn name(self) -> &'static str
        ensures { result.now ≡ field_error_name self }
    {
        match self {
            FieldErrorName::TooBig => "TooBig",
            FieldErrorName::TooManyValues => "TooManyValues",
            FieldErrorName::NotJson => "NotJson",
            FieldErrorName::Empty => "Empty",
            FieldErrorName::ErrorPage => "ErrorPage",
            FieldErrorName::Compressed => "Compressed",
            FieldErrorName::CutShort => "CutShort",
            FieldErrorName::UnknownShape => "UnknownShape",
            FieldErrorName::NodeError => "NodeError",
            FieldErrorName::MissingField => "MissingField",
            FieldErrorName::WrongType => "WrongType",
            FieldErrorName::BadNumber => "BadNumber",
            FieldErrorName::BadHex => "BadHex",
            FieldErrorName::BadBase64 => "BadBase64",
            FieldErrorName::BadTime => "BadTime",
            FieldErrorName::BadDuration => "BadDuration",
            FieldErrorName::BadIdentifier => "BadIdentifier",
            FieldErrorName::BadFlag => "BadFlag",
            FieldErrorName::ForeignKey => "ForeignKey",
            FieldErrorName::BadPower => "BadPower",
            FieldErrorName::BadTrust => "BadTrust",
            FieldErrorName::UnsupportedClient => "UnsupportedClient",
            FieldErrorName::FrozenClient => "FrozenClient",
            FieldErrorName::OtherHeight => "OtherHeight",
            FieldErrorName::BadVersion => "BadVersion",
            FieldErrorName::BadPlace => "BadPlace",
        }
    }

    /// What belongs there, or what to do.
    pub fn advice(self) -> &'static str
        ensures { result.now ≡ field_error_advice self }
    {
        match self {
            FieldErrorName::TooBig => {
                "an answer has at most 16,777,216 bytes; ask for fewer of them on a page (per_page=20)"
            }
            FieldErrorName::TooManyValues => {
                "an answer has at most 400,000 of the byte { and 1,200,000 of { [ and , in all; ask for fewer on a page (per_page=20)"
            }
            FieldErrorName::NotJson =>
                "this is no JSON in UTF-8; save the node's answer as it came",
            FieldErrorName::Empty => "it is empty; ask the node again",
            FieldErrorName::ErrorPage => {
                "it begins with '<': an error page? what stands before the node may answer so; ask it again, or another node"
            }
            FieldErrorName::Compressed => {
                "it is compressed with gzip; unpack it (gunzip), or save it as `curl --compressed` does"
            }
            FieldErrorName::CutShort => {
                "it begins with '{' and doesn't end with '}': was it cut short? ask the node again"
            }
            FieldErrorName::UnknownShape => {
                "import reads no answer of this shape (docs/IMPORT.md lists those it reads); ask the node again, or take the file away"
            }
            FieldErrorName::NodeError =>
                "the node answered an error; ask it again, or another node",
            FieldErrorName::MissingField => "this field has to be there; ask the node again",
            FieldErrorName::WrongType => "a value of another type belongs here; ask the node again",
            FieldErrorName::BadNumber =>
                "a text of decimal digits belongs here, of a number in range",
            FieldErrorName::BadHex => {
                "hexadecimal digits belong here: 64 of a set's hash, 40 of an address, at most 128 of another hash"
            }
            FieldErrorName::BadBase64 => {
                "base64 belongs here: of 32 bytes for a key, of 64 for a signature, of 1 to 64 for a root"
            }
            FieldErrorName::BadTime => "a time as 2026-11-22T10:00:00Z belongs here, from 1970 on",
            FieldErrorName::BadDuration => "seconds as 806400s belong here, at most 2^63 - 1 ns",
            FieldErrorName::BadIdentifier => "an identifier of 1 to 64 characters belongs here",
            FieldErrorName::BadFlag => "a flag is 1 (absent), 2 (commit) or 3 (nil)",
            FieldErrorName::ForeignKey => "only ed25519 and secp256k1 keys are supported",
            FieldErrorName::BadPower => "a voting power is from 1 to 2^60 - 1",
            FieldErrorName::BadTrust => "a trust level is from a third to one",
            FieldErrorName::UnsupportedClient => "only Tendermint light clients are supported",
            FieldErrorName::FrozenClient => "the client is frozen, so that no update helps it",
            FieldErrorName::OtherHeight => "the commit has to be of the header's height",
            FieldErrorName::BadVersion => {
                "only verdicts of version 1 are read; make them again with this release's tools/verify_commits"
            }
            FieldErrorName::BadPlace => {
                "places of votes rise from 0 on, and are below the number of votes; make the verdicts again with tools/verify_commits"
            }
        }
    }
}

/// What is wrong with an answer, and where.
#[derive(Clone, Copy)]
pub struct FieldError {
    pub name: FieldErrorName,
    pub place: FieldPath,
}

impl fmt::Display for FieldError {
    ghost use Rattle.std.specs.Prelude.{Some};
    ghost use Rattle.rb_import_json.specs.Names.{flaw_text};

    ghost output = { λ flaw. Some (flaw_text flaw) };

    fn fmt<W: fmt::Write>(&self, f: &mut fmt::Formatter<W>) -> fmt::Result {
        let name = self.name.name();
        let place = self.place;
        write!(f, "{name} at {place}")
    }
}

impl fmt::Debug for FieldError {
    fn fmt<W: fmt::Write>(&self, f: &mut fmt::Formatter<W>) -> fmt::Result {
        fmt::Display::fmt(self, f)
    }
}

/// Why an answer isn't taken.
#[derive(Clone, Copy, Debug, Error)]
pub enum AnswerError {
    /// It has a flaw.
    #[error("{0}")]
    Invalid(FieldError),
    /// A growth was refused.
    #[error("no memory")]
    NoMemory,
}

impl From<FieldError> for AnswerError {
    ghost use Rattle.std.specs.Prelude.{◌≡◌};
    ghost use Rattle.rb_import_json.specs.declared.error.AnswerError.TheVariants.{Invalid};

    ghost from_gives = { λ flaw e. e ≡ Invalid flaw };

    fn from(flaw: FieldError) -> AnswerError {
        AnswerError::Invalid(flaw)
    }
}

impl From<AllocError> for AnswerError {
    ghost use Rattle.std.specs.Prelude.{◌≡◌};
    ghost use Rattle.rb_import_json.specs.declared.error.AnswerError.TheVariants.{NoMemory};

    ghost from_gives = { λ _ e. e ≡ NoMemory };

    fn from(_: AllocError) -> AnswerError {
        AnswerError::NoMemory
    }
}

impl<T: Drop> From<AllocFailed<T>> for AnswerError {
    ghost use Rattle.std.specs.Prelude.{◌≡◌};
    ghost use Rattle.rb_import_json.specs.declared.error.AnswerError.TheVariants.{NoMemory};

    ghost from_gives = { λ _ e. e ≡ NoMemory };

    fn from(_: AllocFailed<T>) -> AnswerError {
        AnswerError::NoMemory
    }
}
