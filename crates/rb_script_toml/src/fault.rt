//! Why a run gave no result: a fault of its input, want of memory, or a writer that failed.
ghost use Rattle.std.specs.Prelude.{◌≡◌};
ghost use Rattle.rb_script_toml.specs.Faults.{number_of, name_of, status_of};

use std::alloc::{AllocError, AllocFailed};
use std::fmt;
use thiserror::Error;

/// What is wrong with a text.
#[derive(Clone, Copy, Debug, PartialEq, Eq)]
pub enum FaultName {
    /// Not UTF-8, or not TOML.
    NotToml,
    /// A key that is needed isn't there.
    MissingKey,
    /// A key that the table doesn't have.
    UnknownKey,
    /// A value of another type, or an array of another length.
    WrongType,
    /// A version that isn't known.
    BadVersion,
    /// A number outside its range.
    OutOfRange,
    /// An identifier or the name of a set is ill formed.
    BadIdentifier,
    /// An `id` that stands earlier in the same array.
    DuplicateIdentifier,
    /// No chain, client or path has the identifier.
    UnknownIdentifier,
    /// Not 64 hexadecimal digits.
    BadHex,
    /// Not a time, or one outside its range.
    BadTime,
    /// Another letter than `C`, `N`, `A` and `B`.
    BadVotes,
    /// A kind of event that isn't known.
    BadKind,
    /// A path's order is neither `ordered` nor `unordered`.
    BadOrder,
    /// Two chains that have to differ are one.
    SameChain,
    /// A client doesn't fit its path.
    WrongClient,
    /// More chains, clients, paths or turns than are allowed.
    TooManyObjects,
    /// More goals, events and settlements than are allowed.
    TooManyEvents,
    /// The name of a set that no earlier event of the chain gave.
    UnknownSetName,
    /// The name of a set that an earlier event of the chain gave.
    DuplicateSetName,
    /// A goal with both or none of its two keys, or a client's second goal in a turn.
    TwoGoals,
    /// Validators of which no set is made.
    BadSet,
    /// A turn that ends before it begins.
    BadWindow,
    /// A number of a client's limits is outside its range.
    BadLimit,
    /// A number of fees or gas is outside its range.
    BadFee,
    /// A certificate of a turn that the script doesn't have.
    NoSuchTurn,
    /// A certificate's answer is not known, or doesn't fit its updates.
    BadAnswer,
    /// A certificate for a client that has no goal in the turn.
    NoGoal,
    /// The heights of a certificate's labels don't rise.
    LabelOrder,
    /// A text of more bytes than are read.
    InputTooBig,
    /// A trust level that isn't from a third to one.
    BadTrust,
    /// More labels or messages to be planned, over all turns, than are allowed.
    TooMuchToPlan,
    /// An event about a height, or a packet, that `follow` has forgotten.
    Forgotten,
    /// More `{`, `[` and `.` outside strings and comments than are read: each may open a table or an array.
    TooManyTables,
}

impl FaultName {
    /// The number of the fault.
    pub fn number(self) -> u16
        ensures { result ≡ number_of self }
    {
        1001 + self as u16
    }

    /// The name of the fault.
    pub fn name(self) -> &'static str
        ensures { result.now ≡ name_of self }
    {
        match self {
            FaultName::NotToml => "NotToml",
            FaultName::MissingKey => "MissingKey",
            FaultName::UnknownKey => "UnknownKey",
            FaultName::WrongType => "WrongType",
            FaultName::BadVersion => "BadVersion",
            FaultName::OutOfRange => "OutOfRange",
            FaultName::BadIdentifier => "BadIdentifier",
            FaultName::DuplicateIdentifier => "DuplicateIdentifier",
            FaultName::UnknownIdentifier => "UnknownIdentifier",
            FaultName::BadHex => "BadHex",
            FaultName::BadTime => "BadTime",
            FaultName::BadVotes => "BadVotes",
            FaultName::BadKind => "BadKind",
            FaultName::BadOrder => "BadOrder",
            FaultName::SameChain => "SameChain",
            FaultName::WrongClient => "WrongClient",
            FaultName::TooManyObjects => "TooManyObjects",
            FaultName::TooManyEvents => "TooManyEvents",
            FaultName::UnknownSetName => "UnknownSetName",
            FaultName::DuplicateSetName => "DuplicateSetName",
            FaultName::TwoGoals => "TwoGoals",
            FaultName::BadSet => "BadSet",
            FaultName::BadWindow => "BadWindow",
            FaultName::BadLimit => "BadLimit",
            FaultName::BadFee => "BadFee",
            FaultName::NoSuchTurn => "NoSuchTurn",
            FaultName::BadAnswer => "BadAnswer",
            FaultName::NoGoal => "NoGoal",
            FaultName::LabelOrder => "LabelOrder",
            FaultName::InputTooBig => "InputTooBig",
            FaultName::BadTrust => "BadTrust",
            FaultName::TooMuchToPlan => "TooMuchToPlan",
            FaultName::Forgotten => "Forgotten",
            FaultName::TooManyTables => "TooManyTables",
        }
    }
}

/// A fault of a text, and the path of what is wrong: keys joined by points, an element of an array
/// as its number from 0 in brackets, `-` for the whole text.
#[derive(Debug, Drop)]
pub struct Fault {
    pub name: FaultName,
    pub path: String,
    /// Of a text that isn't TOML: where and why, in lines for a person, if memory sufficed for them.
    pub reason: Option<String>,
    /// Of a value of another type: the type that it has, as TOML names it.
    pub found: Option<&'static str>,
}

impl Fault {
    ghost use Rattle.std.specs.Prelude.{◌≡◌, string_bytes};
    ghost use Rattle.rb_script_toml.specs.Faults.{fault_view};

    /// The fault of this name at a path.
    pub fn new(name: FaultName, path: String) -> Fault
        ensures { fault_view result ≡ record { name = name; path = string_bytes path } }
    {
        Fault {
            name,
            path,
            reason: None,
            found: None,
        }
    }

    /// The fault that a value of this type stands at a path where one of another belongs.
    pub fn wrong_type(path: String, found: &'static str) -> Fault
        ensures { fault_view result ≡ record { name = FaultName.WrongType; path = string_bytes path } }
    {
        Fault {
            name: FaultName::WrongType,
            path,
            reason: None,
            found: Some(found),
        }
    }
}

impl fmt::Display for Fault {
    ghost use Rattle.std.specs.Prelude.{Some};
    ghost use Rattle.rb_script_toml.specs.Faults.{fault_line, fault_view};

    ghost output = { λ fault. Some (fault_line (fault_view fault)) };

    fn fmt<W: fmt::Write>(&self, f: &mut fmt::Formatter<W>) -> fmt::Result {
        let number = self.name.number();
        let name = self.name.name();
        let path = self.path.as_str();
        write!(f, "fault {number} {name} at {path}")
    }
}

/// Why a run gave no result.
#[derive(Debug, Drop, Error)]
pub enum RunError {
    /// The input was refused.
    #[error("{0}")]
    Fault(Fault),
    /// A growth was refused.
    #[error("no memory")]
    NoMemory,
    /// The writer failed.
    #[error("device")]
    Device,
}

impl RunError {
    /// The status that a program ends with: 1 where the input was refused, else 4.
    pub fn status(&self) -> u8
        ensures { result ≡ status_of self.now }
    {
        match self {
            RunError::Fault(_) => 1,
            RunError::NoMemory | RunError::Device => 4,
        }
    }
}

impl From<AllocError> for RunError {
    ghost use Rattle.std.specs.Prelude.{◌≡◌};
    ghost use Rattle.rb_script_toml.specs.declared.fault.RunError.TheVariants.{NoMemory};

    ghost from_gives = { λ _ e. e ≡ NoMemory };

    fn from(_: AllocError) -> RunError {
        RunError::NoMemory
    }
}

impl<T: Drop> From<AllocFailed<T>> for RunError {
    ghost use Rattle.std.specs.Prelude.{◌≡◌};
    ghost use Rattle.rb_script_toml.specs.declared.fault.RunError.TheVariants.{NoMemory};

    ghost from_gives = { λ _ e. e ≡ NoMemory };

    fn from(_: AllocFailed<T>) -> RunError {
        RunError::NoMemory
    }
}
