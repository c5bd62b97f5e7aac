//! The command line read, and what is told of it where it asks for nothing.
use crate::error::ProgramError;
use crate::request::{Invocation, read_request};
use crate::shown::shown_text;
use crate::status;
use clap::error::ErrorKind;
use std::alloc::{AllocError, Global};

/// The request of the command line's words. Where they make none, the help that they ask for, or what is
/// wrong with them, is shown; the error is the status to end with.
pub fn request_of<'a, R: Print + Eprint + AllocGlobal>(
    rt: &R,
    words: &'a [String],
) -> Result<Invocation<'a>, u8> {
    match read_request(rt.alloc(), words) {
        Ok(request) => Ok(request),
        Err(message) => Err(show(rt, &with_shown_words(rt.alloc(), words, message))),
    }
}

/// The message about these words with the words as messages show them.
fn with_shown_words(alloc: Global, words: &[String], message: clap::Error) -> clap::Error {
    match shown_words(alloc, words) {
        Ok(shown) => message_about(alloc, shown.as_slice(), message),
        Err(error) => clap::Error::from(error),
    }
}

/// What is wrong with these words, or that message where nothing is.
fn message_about(alloc: Global, words: &[String], message: clap::Error) -> clap::Error {
    match read_request(alloc, words) {
        Ok(_) => message,
        Err(shown) => shown,
    }
}

/// The words as messages show them.
fn shown_words(alloc: Global, words: &[String]) -> Result<Vec<String>, AllocError> {
    let mut shown = Vec::with_capacity(alloc, words.len())?;
    for word in words {
        shown.push(shown_text(alloc, word.as_str())?)?;
    }
    Ok(shown)
}

/// Shows the help that was asked for, or what is wrong with the command line.
fn show<R: Print + Eprint>(rt: &R, message: &clap::Error) -> u8 {
    if message.kind() == ErrorKind::OutOfMemory {
        return no_memory(rt);
    }
    match message.print(rt) {
        Ok(()) if message.use_stderr() => status::COMMAND_LINE,
        Ok(()) => status::DONE,
        Err(error) => {
            let _ = eprintln!(rt; "{}", ProgramError::Unwritten { error });
            status::FAILED
        }
    }
}

/// Ends for want of memory.
pub fn no_memory<R: Eprint>(rt: &R) -> u8 {
    let _ = eprintln!(rt; "{}", ProgramError::NoMemory);
    status::FAILED
}
