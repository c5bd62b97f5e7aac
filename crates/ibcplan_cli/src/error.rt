//! Why the program gave no result: the line that says so, and what to do about it.
ghost use Rattle.std.specs.Prelude.{◌≡◌, true, false, None};
ghost use Rattle.rb_script_toml.specs.Faults.{status_of};
ghost use Rattle.ibcplan_cli.specs.Failures.{failure_status, IsFailureStatus, told_fault, is_unwritten, error_fault, is_device};

use crate::advice::{advice_for, setup_advice_for};
use crate::input::Input;
use crate::input_error::{InputError, input_error_of};
use crate::shown::{ShownName, shown_text};
use crate::status;
use rb_import_setup::NamedClient;
use rb_script_toml::{Fault, RunError};
use std::alloc::Global;
use std::{fmt, io};
use thiserror::Error;

const LONE_SETUP: &str =
    "it is a setup: give the folder of the answers of nodes behind it, or the script that import makes of both";

const OTHER_SCRIPT: &str = "it is a script, which has its events: leave the folder out";

/// How many turns the script of a file has, told as which is the last.
#[derive(Clone, Copy, Debug)]
pub struct Turns<'a> {
    pub file: ShownName<'a>,
    pub count: usize,
}

impl fmt::Display for Turns<'_> {
    fn fmt<W: fmt::Write>(&self, f: &mut fmt::Formatter<W>) -> fmt::Result {
        let Turns { file, count } = *self;
        if count == 0 {
            write!(f, "{file} has no turns")
        } else {
            write!(f, "the last turn of {file} is {count}")
        }
    }
}

/// Why there is no result, or not the whole one.
#[derive(Debug, Drop, Error)]
pub enum ProgramError<'a> {
    /// A file can't be read.
    #[error("device\n{file}: {error}\n{advice}")]
    Unreadable {
        file: ShownName<'a>,
        error: io::Error,
        advice: &'static str,
    },
    /// A file or a folder of answers can't be read.
    #[error("device\n{file}: {error}\nThe folder of answers has a folder for each client, each path and each chain that is tracked, and each of these holds the answers in files *.json.")]
    UnreadableAnswers {
        file: String,
        error: io::Error,
    },
    /// A journal can't be read or written.
    #[error("device\n{file}: {error}\n{advice}")]
    JournalFails {
        file: ShownName<'a>,
        error: io::Error,
        advice: &'static str,
    },
    /// A file can't be the journal.
    #[error("error: invalid value '{file}' for '--journal <FILE>': {reason}\n\nFor more information, try '--help'.")]
    NoJournal {
        file: ShownName<'a>,
        reason: &'static str,
    },
    /// A part of a journal isn't as it was written.
    #[error("error: invalid value '{file}' for '--journal <FILE>': its part at byte {place} isn't as it was written, so nothing is answered\n\nPut a whole copy of the file there, or begin another journal (docs/OPERATING.md).")]
    DamagedJournal {
        file: ShownName<'a>,
        place: usize,
    },
    /// Answers are refused.
    #[error("{0}")]
    RefusedAnswers(String),
    /// The content of a file is refused.
    #[error("{fault}\n{flaw}")]
    Refused {
        fault: Fault,
        flaw: InputError<'a>,
    },
    /// The script doesn't have the turn that was asked for.
    #[error("error: invalid value '{turn}' for '--turn <N>': {turns}\n\nFor more information, try '--help'.")]
    NoSuchTurn {
        turn: u64,
        turns: Turns<'a>,
    },
    /// The script doesn't have the client that was asked for.
    #[error("error: invalid value '{client}' for '--client <ID>': {file} has no such client\n\nFor more information, try '--help'.")]
    NoSuchClient {
        client: ShownName<'a>,
        file: ShownName<'a>,
    },
    /// A setup stands without its folder, or a script with one.
    #[error("error: invalid value '{file}' for '<SCRIPT>': {reason}\n\nFor more information, try '--help'.")]
    WrongFile {
        file: ShownName<'a>,
        reason: &'static str,
    },
    /// A configuration makes no setup for a client.
    #[error("error: invalid value '{client}' for '<CLIENT>...': {reason}\n\nFor more information, try '--help'.")]
    BadClient {
        client: NamedClient,
        reason: &'static str,
    },
    /// A file or a folder can't be made.
    #[error("device\n{file}: {error}\nGive the path of a folder that isn't there, within one that can be written; what was made may be only a beginning.")]
    Unmade {
        file: String,
        error: io::Error,
    },
    /// Standard output fails.
    #[error("device\nstandard output: {error}\nIt can't be written; what it took may be only a beginning.")]
    Unwritten {
        error: io::Error,
    },
    /// Memory is wanting.
    #[error("no memory\nThe system gives no more (as `ulimit -v` bounds it); what standard output took may be only a beginning.")]
    NoMemory,
}

impl<'a> ProgramError<'a> {
    /// Why a run over an input gave no result.
    pub fn of_run(error: RunError, input: &Input<'a>) -> ProgramError<'a>
        ensures status { failure_status result ≡ status_of error }
        ensures fault { told_fault result ≡ error_fault error }
        ensures device { is_unwritten result ≡ is_device error }
    {
        match error {
            RunError::Fault(mut fault) => {
                let advice = advice_for(fault.name, fault.path.as_str());
                let flaw = input_error_of(&mut fault, input, advice);
                ProgramError::Refused { fault, flaw }
            }
            RunError::Device => ProgramError::untaken(),
            RunError::NoMemory => ProgramError::NoMemory,
        }
    }

    /// That a setup stands where a script belongs.
    pub fn of_lone_setup(input: &Input<'a>) -> ProgramError<'a>
        ensures status { failure_status result ≡ 2 }
        ensures fault { told_fault result ≡ None }
        ensures device { is_unwritten result ≡ false }
    {
        ProgramError::WrongFile {
            file: input.name(),
            reason: LONE_SETUP,
        }
    }

    /// That a script stands where a setup belongs.
    pub fn of_other_script(input: &Input<'a>) -> ProgramError<'a>
        ensures status { failure_status result ≡ 2 }
        ensures fault { told_fault result ≡ None }
        ensures device { is_unwritten result ≡ false }
    {
        ProgramError::WrongFile {
            file: input.name(),
            reason: OTHER_SCRIPT,
        }
    }

    /// Why a setup gave no result.
    pub fn of_setup(error: RunError, input: &Input<'a>) -> ProgramError<'a>
        ensures status { failure_status result ≡ status_of error }
        ensures fault { told_fault result ≡ error_fault error }
        ensures device { is_unwritten result ≡ is_device error }
    {
        match error {
            RunError::Fault(mut fault) => {
                let advice = setup_advice_for(fault.name, fault.path.as_str());
                let flaw = input_error_of(&mut fault, input, advice);
                ProgramError::Refused { fault, flaw }
            }
            error => ProgramError::of_run(error, input),
        }
    }

    /// Standard output takes nothing, and gives no reason.
    pub fn untaken() -> ProgramError<'a>
        ensures status { failure_status result ≡ 4 }
        ensures fault { told_fault result ≡ None }
        ensures device { is_unwritten result ≡ true }
    {
        let error = io::Error::from(io::ErrorKind::WriteZero);
        ProgramError::Unwritten { error }
    }

    /// The failure, with the reason that standard output gave where it fails.
    pub fn because_of(self, reason: Option<io::Error>) -> ProgramError<'a>
        ensures { failure_status result ≡ failure_status self.entry }
    {
        match (self, reason) {
            (ProgramError::Unwritten { .. }, Some(error)) => ProgramError::Unwritten { error },
            (failure, _) => failure,
        }
    }

    /// That the journal in a file fails, and what to do.
    pub fn of_journal(
        file: ShownName<'a>,
        error: io::Error,
        advice: &'static str,
    ) -> ProgramError<'a>
        ensures status { failure_status result ≡ 4 }
        ensures fault { told_fault result ≡ None }
        ensures device { is_unwritten result ≡ false }
    {
        if error.kind() == io::ErrorKind::OutOfMemory {
            return ProgramError::NoMemory;
        }
        ProgramError::JournalFails {
            file,
            error,
            advice,
        }
    }

    /// Why a file or a folder of answers isn't read.
    pub fn of_file(alloc: Global, file: &str, error: io::Error) -> ProgramError<'a> {
        match shown_text(alloc, file) {
            Ok(file) if error.kind() != io::ErrorKind::OutOfMemory => {
                ProgramError::UnreadableAnswers { file, error }
            }
            _ => ProgramError::NoMemory,
        }
    }

    /// Why a file or a folder isn't made.
    pub fn of_new_file(alloc: Global, file: &str, error: io::Error) -> ProgramError<'a> {
        match shown_text(alloc, file) {
            Ok(file) if error.kind() != io::ErrorKind::OutOfMemory => {
                ProgramError::Unmade { file, error }
            }
            _ => ProgramError::NoMemory,
        }
    }

    /// The status that the program ends with.
    pub fn status(&self) -> u8
        ensures status { result ≡ failure_status self.now }
        ensures known { IsFailureStatus result }
    {
        match self {
            ProgramError::Refused { .. } | ProgramError::RefusedAnswers(_) => status::REFUSED,
            ProgramError::NoSuchTurn { .. }
            | ProgramError::NoSuchClient { .. }
            | ProgramError::WrongFile { .. }
            | ProgramError::BadClient { .. }
            | ProgramError::NoJournal { .. }
            | ProgramError::DamagedJournal { .. } => status::COMMAND_LINE,
            ProgramError::Unreadable { .. }
            | ProgramError::JournalFails { .. }
            | ProgramError::UnreadableAnswers { .. }
            | ProgramError::Unmade { .. }
            | ProgramError::Unwritten { .. }
            | ProgramError::NoMemory => status::FAILED,
        }
    }
}
