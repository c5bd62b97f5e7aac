//! The files that the program reads.
ghost use Rattle.std.specs.Prelude.{◌≡◌, ℕ, List};

use crate::error::ProgramError;
use crate::shown::ShownName;
use rb_script_toml::MAX_BYTES;
use std::alloc::Global;
use std::fs::{File, Files};
use std::io;
use std::io::Read;
use std::marker::Model;

/// A file is read up to one byte past what a text, or the answer of a node, may have, so that the
/// reader can tell that it is too big.
const MOST_BYTES: u64 = MAX_BYTES as u64 + 1;

/// The path that stands for standard input.
pub const STANDARD_INPUT: &str = "-";

/// A file's path and bytes, which clauses see as the bytes.
#[derive(Drop)]
pub struct Input<'a> {
    path: &'a str,
    bytes: Vec<u8>,
}

impl<'a> Model for Input<'a> {
    ghost Value = { List ℕ };

    ghost view = { λ input. input.bytes.items };
}

impl<'a> Input<'a> {
    ghost use Rattle.std.specs.Prelude.{false, None};
    ghost use Rattle.ibcplan_cli.specs.Failures.{failure_status, told_fault, is_unwritten};

    /// Reads a file, or standard input.
    pub fn read<R: Files + io::Input + AllocGlobal>(
        rt: &R,
        path: &'a str,
    ) -> Result<Input<'a>, ProgramError<'a>> {
        match bytes_at(rt, path) {
            Ok(bytes) => Ok(Input { path, bytes }),
            Err(error) if error.kind() == io::ErrorKind::OutOfMemory => {
                Err(ProgramError::NoMemory)
            }
            Err(error) => Err(ProgramError::Unreadable {
                file: name_of(path),
                error,
                advice: advice_for(path),
            }),
        }
    }

    /// That standard input can't be read.
    pub fn unread(error: io::Error) -> ProgramError<'a>
        ensures status { failure_status result ≡ 4 }
        ensures fault { told_fault result ≡ None }
        ensures device { is_unwritten result ≡ false }
    {
        if error.kind() == io::ErrorKind::OutOfMemory {
            return ProgramError::NoMemory;
        }
        ProgramError::Unreadable {
            file: name_of(STANDARD_INPUT),
            error,
            advice: advice_for(STANDARD_INPUT),
        }
    }

    /// These bytes, which a file begins with.
    pub fn beginning(path: &'a str, bytes: Vec<u8>) -> Input<'a>
        ensures { result ≡ bytes.items }
    {
        Input { path, bytes }
    }

    /// What to call the file.
    pub fn name(&self) -> ShownName<'a> {
        name_of(self.path)
    }

    /// The bytes.
    pub fn bytes(&self) -> &[u8]
        ensures { result.now ≡ self.now }
    {
        self.bytes.as_slice()
    }
}

fn name_of<'a>(path: &'a str) -> ShownName<'a> {
    let name = match path {
        STANDARD_INPUT => "standard input",
        "" => "'' (an empty name)",
        path => path,
    };
    ShownName { name }
}

/// What to do where the file can't be read.
fn advice_for(path: &str) -> &'static str {
    if path == STANDARD_INPUT {
        "It is closed, or can't be read: redirect a file into it, or give the path of one."
    } else {
        "Give the path of a file that can be read, or - for standard input."
    }
}

fn bytes_at<R: Files + io::Input + AllocGlobal>(rt: &R, path: &str) -> io::Result<Vec<u8>> {
    if path == STANDARD_INPUT {
        bytes_of(rt.alloc(), rt.reader())
    } else {
        bytes_of(rt.alloc(), File::open(rt, path)?)
    }
}

/// The bytes of a reader, up to one past what a text may have.
pub fn bytes_of<R: Read + Drop>(alloc: Global, reader: R) -> io::Result<Vec<u8>> {
    let mut bytes = Vec::new(alloc);
    reader.take(MOST_BYTES).read_to_end(&mut bytes)?;
    Ok(bytes)
}
