//! Why a message isn't made.
use rb_base::Height;
use rb_import_check::{Hexadecimal, ImportError};
use std::alloc::{AllocError, AllocFailed};
use std::fmt;

/// Why the message of an update isn't made.
#[derive(Clone, Copy)]
pub enum MessageError<'a> {
    /// The answers contradict each other.
    Answers(ImportError<'a>),
    /// No answers have the header of this height with its set and votes of more than two thirds of it.
    MissingHeader {
        chain: &'a str,
        height: Height,
    },
    /// The header of this height isn't that of the script.
    OtherHeader {
        chain: &'a str,
        height: Height,
        file: &'a str,
    },
    /// No answers have the set that the consensus state of this height names.
    MissingSet {
        chain: &'a str,
        height: Height,
    },
    /// The header's commit lacks votes that the update needs; the first of them is this validator's.
    MissingVotes {
        chain: &'a str,
        height: Height,
        file: &'a str,
        validator: [u8; 20],
    },
    /// A growth was refused.
    NoMemory,
}

impl fmt::Display for MessageError<'_> {
    fn fmt<W: fmt::Write>(&self, f: &mut fmt::Formatter<W>) -> fmt::Result {
        match self {
            MessageError::Answers(error) => write!(f, "{error}"),
            MessageError::MissingHeader { chain, height } => write!(
                f,
                "refused MissingHeader at {chain} {height}\nno answers have this header with its set and votes of more than two thirds of it; fetch /commit?height={height} and all pages of /validators?height={height}&per_page=100 into files *.json of the folder {chain}"
            ),
            MessageError::OtherHeader {
                chain,
                height,
                file,
            } => write!(
                f,
                "refused OtherHeader at {chain} {height}\n{file}: the script has another header of this height; import these answers anew"
            ),
            MessageError::MissingSet { chain, height } => write!(
                f,
                "refused MissingSet at {chain} {height}\nno answers have the next validators of this height; fetch all pages of /validators?per_page=100 of the height after it into files *.json of the folder {chain}"
            ),
            MessageError::MissingVotes {
                chain,
                height,
                file,
                validator,
            } => {
                let validator = Hexadecimal { bytes: validator };
                write!(
                    f,
                    "refused MissingVotes at {chain} {height}\n{file}: the update needs the vote of the validator {validator}, which this commit lacks; give the answers that the script was made of, or import these answers anew"
                )
            }
            MessageError::NoMemory => f.write_str("no memory"),
        }
    }
}

impl From<AllocError> for MessageError<'_> {
    ghost use Rattle.std.specs.Prelude.{◌≡◌};
    ghost use Rattle.rb_messages.specs.declared.error.MessageError.TheVariants.{NoMemory};

    ghost from_gives = { λ _ e. e ≡ NoMemory };

    fn from(_: AllocError) -> Self {
        MessageError::NoMemory
    }
}

impl<T: Drop> From<AllocFailed<T>> for MessageError<'_> {
    ghost use Rattle.std.specs.Prelude.{◌≡◌};
    ghost use Rattle.rb_messages.specs.declared.error.MessageError.TheVariants.{NoMemory};

    ghost from_gives = { λ _ e. e ≡ NoMemory };

    fn from(_: AllocFailed<T>) -> Self {
        MessageError::NoMemory
    }
}
