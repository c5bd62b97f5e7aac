//! What a script comes from: its own file, or the setup and the answers of nodes of which `import` makes it.
use crate::request::{flag, path};
use clap::{Arg, ArgMatches, Command};
use std::alloc::{AllocError, Global};

pub(crate) const SCRIPT: &str = "SCRIPT";

pub(crate) const FOLDER: &str = "FOLDER";

const ALL_OR_NOTHING: &str = "all-or-nothing";

const VERIFIED: &str = "verified";

/// A setup, and the folder of the answers of nodes.
#[derive(Clone, Copy)]
pub struct Import<'a> {
    pub setup: &'a str,
    pub folder: &'a str,
    /// Whether nothing is made where some of the answers are refused.
    pub is_all_or_nothing: bool,
    /// Whether only votes with a good verdict count.
    pub is_verified: bool,
}

/// Where a script comes from.
#[derive(Clone, Copy)]
pub enum Given<'a> {
    /// The file of this path has it.
    Script(&'a str),
    /// `import` makes it.
    Setup(Import<'a>),
}

/// The option that nothing is made of answers of which some are refused.
pub(crate) fn all_or_nothing<'a>(alloc: Global) -> Arg<'a> {
    let help = "Writes nothing where answers of one client or path are refused";
    flag(alloc, ALL_OR_NOTHING, help)
}

/// The option that only verified votes count.
pub(crate) fn verified<'a>(alloc: Global) -> Arg<'a> {
    let help = "Takes only headers that more than 2/3 of their set signed, by good verdicts";
    flag(alloc, VERIFIED, help)
}

/// A command that takes a script, or a setup and a folder. How a setup is imported is asked for where the last word that a
/// setup needs is there.
pub(crate) fn given_command<'a>(
    alloc: Global,
    name: &'a str,
    about: &'a str,
    examples: &'a str,
    last: &'a str,
) -> Result<Command<'a>, AllocError> {
    let folder = Arg::new(alloc, FOLDER).help(
        "The folder of the answers of nodes, where a setup of import stands in the place of SCRIPT",
    );
    Command::new(alloc, name)
        .about(about)
        .after_help(examples)
        .arg(path(alloc, SCRIPT, "The script's file; - for standard input"))?
        .arg(folder)?
        .arg(all_or_nothing(alloc).requires_arg(last)?)?
        .arg(verified(alloc).requires_arg(last)?)
}

/// What is imported of the setup in a file and the answers in a folder.
pub(crate) fn import_of<'a>(given: &ArgMatches<'a>, setup: &'a str, folder: &'a str) -> Import<'a> {
    Import {
        setup,
        folder,
        is_all_or_nothing: given.get_flag(ALL_OR_NOTHING),
        is_verified: given.get_flag(VERIFIED),
    }
}

/// Where the script of a command comes from, or none where a word is missing.
pub(crate) fn given_of<'a>(given: &ArgMatches<'a>) -> Option<Given<'a>> {
    let file = given.get_str(SCRIPT)?;
    match given.get_str(FOLDER) {
        Some(folder) => Some(Given::Setup(import_of(given, file, folder))),
        None => Some(Given::Script(file)),
    }
}
