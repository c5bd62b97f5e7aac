//! The command line of `follow`.
use crate::request::{Invocation, JSON, flag};
use crate::worker_count::WorkerCount;
use clap::{Arg, ArgAction, ArgMatches, Command, value_parser};
use std::alloc::{AllocError, Global};

pub(crate) const FOLLOW: &str = "follow";

const SETUP: &str = "SETUP";

const JOURNAL: &str = "journal";

const WORKERS: &str = "workers";

const QUIET: &str = "quiet";

const NO_LABELS: &str = "no-labels";

/// How a follower answers, and by how many workers.
#[derive(Clone, Copy)]
pub struct Following {
    pub workers: WorkerCount,
    pub is_json: bool,
    /// Whether standard error gets no line about documents that are refused.
    pub is_quiet: bool,
    /// Whether the answers have the labels of heights.
    pub has_labels: bool,
}

const AFTER_FOLLOW: &str = "Examples (in the folder of the repository):
  ./ibcplan follow examples/follow/setup.toml < examples/follow/turns.txt
  ./ibcplan follow --json --workers 4 setup.toml
  ./ibcplan follow setup.toml --journal journal.toml

SETUP is a script without turns; - for the first document of standard input. Each
turn comes on standard input as a document of TOML with the turn's keys at its top,
ended by a line ---. The answer, the turn's report or its fault, is written at once,
with a line --- after it; with --json it is an object on a line, and the first line
tells the program and its format. A document with a fault changes nothing. The
answers are the report that plan writes for the script of the setup and the turns.
From version 3 on heights and packets that no plan needs are forgotten, and an event
of one is a fault (1033): leave it out.

With --journal each turn is on the disk before it is answered. The file is a script
that plan reads, until it is long: then it is begun anew, with what follow knows.
Where it has turns their answers come first, and then those to new ones; its setup
is then taken, and SETUP needn't be given.

Standard error says more of documents that are no TOML. Whoever pipes it has to read
it, or give --quiet: a full pipe stops the process.";

pub(crate) fn follow_command<'a>(alloc: Global) -> Result<Command<'a>, AllocError> {
    Command::new(alloc, FOLLOW)
        .about("Answers turns as they come on standard input, each by its report")
        .after_help(AFTER_FOLLOW)
        .arg(setup(alloc)?)?
        .arg(journal(alloc))?
        .arg(workers(alloc))?
        .arg(flag(alloc, JSON, "Writes each answer as JSON"))?
        .arg(flag(
            alloc,
            NO_LABELS,
            "Leaves the labels out of the answers: where a chain has many headers they are most of them",
        ))?
        .arg(flag(
            alloc,
            QUIET,
            "Writes no lines to standard error about documents that are refused",
        ))
}

/// The workers of a follower: none where the option isn't given.
fn workers<'a>(alloc: Global) -> Arg<'a> {
    Arg::new(alloc, WORKERS)
        .long(WORKERS)
        .value_name("K")
        .value_parser(value_parser!(usize).range(1..=64))
        .help(
            "How many threads make step tables, scan the paths and plan for the clients, 1 to 64; without it none but the program's own",
        )
}

/// The setup of a follower, which may come from its journal.
fn setup<'a>(alloc: Global) -> Result<Arg<'a>, AllocError> {
    Arg::new(alloc, SETUP)
        .help(
            "The file of a script without turns, - for the first document of standard input; the journal's own where none is given",
        )
        .required_unless_present(JOURNAL)
}

fn journal<'a>(alloc: Global) -> Arg<'a> {
    Arg::new(alloc, JOURNAL)
        .long(JOURNAL)
        .value_name("FILE")
        .action(ArgAction::Set)
        .help("Stores each turn in this file before it is answered, and goes on from there")
}

/// The request of `follow`, or none where a word is missing.
pub(crate) fn follow_of<'a>(given: &ArgMatches<'a>) -> Option<Invocation<'a>> {
    let workers = match given.get_one(WORKERS) {
        Some(count) => WorkerCount::new(count)?,
        None => WorkerCount::none(),
    };
    let following = Following {
        workers,
        is_json: given.get_flag(JSON),
        is_quiet: given.get_flag(QUIET),
        has_labels: !given.get_flag(NO_LABELS),
    };
    let setup = given.get_str(SETUP);
    if let Some(journal) = given.get_str(JOURNAL) {
        return Some(Invocation::FollowJournal {
            setup,
            journal,
            following,
        });
    }
    Some(Invocation::Follow {
        setup: setup?,
        following,
    })
}
