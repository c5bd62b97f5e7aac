//! The command lines of `explain` and `picture`.
use crate::given::{FOLDER, given_command};
use crate::request::{JSON, ScriptOutput, flag, last, turn, turns_of};
use clap::{Arg, ArgAction, ArgMatches, Command};
use std::alloc::{AllocError, Global};

pub(crate) const EXPLAIN: &str = "explain";

pub(crate) const PICTURE: &str = "picture";

const CLIENT: &str = "client";

const ALL: &str = "all";

const AFTER_EXPLAIN: &str = "Examples (in the folder of the repository):
  ./ibcplan explain examples/cheap_detour.toml
  ./ibcplan explain --last --client zone-on-hub examples/two_clients.toml
  ./ibcplan explain --all --json examples/two_clients.toml | jq .

Without --last or --turn it explains every turn, without --client every client.";

const AFTER_PICTURE: &str = "Examples (in the folder of the repository):
  ./ibcplan picture examples/cheap_detour.toml > picture.svg
  ./ibcplan picture --turn 6 --client hub-on-zone examples/waiting.toml > picture.svg

It draws one turn, the last one without --turn, and every client of it without
--client. Browsers show it.";

pub(crate) fn explain_command<'a>(alloc: Global) -> Result<Command<'a>, AllocError> {
    let about =
        "Writes why each plan is as it is: its steps with their powers, and the lists beside it";
    given_command(alloc, EXPLAIN, about, AFTER_EXPLAIN, FOLDER)?
        .arg(turn(alloc))?
        .arg(last(alloc)?)?
        .arg(client(alloc))?
        .arg(flag(
            alloc,
            ALL,
            "Tells all steps, and not 20 lines of them for each client",
        ))?
        .arg(flag(alloc, JSON, "Writes the explanation as JSON"))
}

pub(crate) fn picture_command<'a>(alloc: Global) -> Result<Command<'a>, AllocError> {
    let about =
        "Draws a turn as SVG: heights, sets, updates, what is refused, a bisection, messages";
    given_command(alloc, PICTURE, about, AFTER_PICTURE, FOLDER)?
        .arg(turn(alloc))?
        .arg(last(alloc)?)?
        .arg(client(alloc))
}

/// The option for a client by its identifier.
fn client<'a>(alloc: Global) -> Arg<'a> {
    Arg::new(alloc, CLIENT)
        .long(CLIENT)
        .value_name("ID")
        .action(ArgAction::Set)
        .help("Writes those of this client alone")
}

/// What `explain` is to write.
pub(crate) fn explanation_of<'a>(given: &ArgMatches<'a>) -> ScriptOutput<'a> {
    ScriptOutput::Explanation {
        turns: turns_of(given),
        client: given.get_str(CLIENT),
        is_whole: given.get_flag(ALL),
        is_json: given.get_flag(JSON),
    }
}

/// What `picture` is to write.
pub(crate) fn picture_of<'a>(given: &ArgMatches<'a>) -> ScriptOutput<'a> {
    ScriptOutput::Picture {
        turns: turns_of(given),
        client: given.get_str(CLIENT),
    }
}
