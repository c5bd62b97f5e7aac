//! Texts that come one after the other on standard input, each ended by a line `---`.
use crate::host::Host;
use ibcplan_cli::{Input, ProgramError, STANDARD_INPUT, bytes_of};
use rb_follow::Gathering;
use rb_script_toml::MAX_BYTES;
use std::alloc::{AllocError, Global};
use std::io;
use std::io::{Cursor, Read};

/// How many bytes are read at once.
const PIECE: usize = 4096;

/// A text, and what was read of standard input behind it.
#[derive(Drop)]
pub struct FirstText<'a> {
    pub text: Input<'a>,
    pub rest: Vec<u8>,
}

/// The text in a file, or the first one of standard input.
pub fn first_text<'a, R: Host>(rt: &R, path: &'a str) -> Result<FirstText<'a>, ProgramError<'a>> {
    let alloc = rt.alloc();
    if path != STANDARD_INPUT {
        let text = Input::read(rt, path)?;
        return Ok(FirstText {
            text,
            rest: Vec::new(alloc),
        });
    }
    let mut gathering = Gathering::new(alloc);
    match gather_first(alloc, &mut rt.reader(), &mut gathering) {
        Ok(rest) => match Vec::from_slice(alloc, gathering.document()) {
            Ok(bytes) => Ok(FirstText {
                text: Input::beginning(path, bytes),
                rest,
            }),
            Err(_) => Err(ProgramError::NoMemory),
        },
        Err(error) => Err(Input::unread(error)),
    }
}

/// The text that standard input ends with, behind the first one, of which this was read.
pub fn last_text<'a, R: Host>(rt: &R, read: Vec<u8>) -> Result<Input<'a>, ProgramError<'a>> {
    let alloc = rt.alloc();
    let bytes = match bytes_of(alloc, Cursor::new(read).chain(rt.reader())) {
        Ok(bytes) => bytes,
        Err(error) => return Err(Input::unread(error)),
    };
    match without_mark(alloc, bytes) {
        Ok(bytes) => Ok(Input::beginning(STANDARD_INPUT, bytes)),
        Err(_) => Err(ProgramError::NoMemory),
    }
}

/// Gathers the first text of an input, and answers what was read behind it. One that is too big is only begun.
fn gather_first<I: Read>(
    alloc: Global,
    input: &mut I,
    gathering: &mut Gathering,
) -> io::Result<Vec<u8>> {
    let mut piece = [0u8; PIECE];
    for _ in 0..u64::MAX {
        match input.read(&mut piece) {
            Ok(0) => break,
            Ok(count) => {
                let read = &piece[..count];
                match gathering.gather(read) {
                    Ok(Some(end)) => return copied(alloc, &read[end..]),
                    Ok(None) if gathering.document().len() > MAX_BYTES => break,
                    Ok(None) => {}
                    Err(_) => return Err(io::Error::from(io::ErrorKind::OutOfMemory)),
                }
            }
            Err(error) if error.kind() == io::ErrorKind::Interrupted => {}
            Err(error) => return Err(error),
        }
    }
    let _ = gathering.finish();
    Ok(Vec::new(alloc))
}

fn copied(alloc: Global, bytes: &[u8]) -> io::Result<Vec<u8>> {
    match Vec::from_slice(alloc, bytes) {
        Ok(copy) => Ok(copy),
        Err(_) => Err(io::Error::from(io::ErrorKind::OutOfMemory)),
    }
}

/// A text without the line `---` that it may end with.
fn without_mark(alloc: Global, bytes: Vec<u8>) -> Result<Vec<u8>, AllocError> {
    let mut gathering = Gathering::new(alloc);
    match gathering.gather(bytes.as_slice())? {
        Some(end) if end < bytes.len() => return Ok(bytes), // such a line within it is no TOML
        Some(_) => {}
        None => {
            let _ = gathering.finish();
        }
    }
    Vec::from_slice(alloc, gathering.document())
}
