//! The command line: what the program is asked to do.
use crate::certify_request::{CERTIFY, certify_command, certify_flaw, certify_of};
use crate::explain_request::{
    EXPLAIN, PICTURE, explain_command, explanation_of, picture_command, picture_of,
};
use crate::follow_request::{FOLLOW, Following, follow_command, follow_of};
use crate::given::{
    FOLDER, Given, Import, all_or_nothing, given_command, given_of, import_of, verified,
};
use crate::health_request::{HEALTH, health_command, health_of};
use crate::messages_request::{MESSAGES, messages_command, messages_of};
use crate::setup_request::{HERMES, SETUP_COMMAND, clients_of, setup_command};
use crate::worker_count::WorkerCount;
use clap::error::ErrorKind;
use clap::{Arg, ArgAction, ArgMatches, Command, Error, value_parser};
use rb_import_setup::NamedClient;
use rb_script_types::MAX_TURNS;
use std::alloc::{AllocError, Global};

/// What the program is asked to do, with the paths of its files.
#[derive(Drop)]
pub enum Invocation<'a> {
    /// Write something about a script.
    Script {
        given: Given<'a>,
        wanted: ScriptOutput<'a>,
    },
    /// Write the messages of the last turn of the script in a file, or of that which the setup in it makes, of the answers in
    /// a folder, into a new folder.
    Messages {
        import: Import<'a>,
        output: &'a str,
    },
    /// Write the script that a setup and the answers in a folder make.
    Import(Import<'a>),
    /// Write a setup for clients, of the configuration of Hermes.
    Setup {
        config: &'a str,
        clients: Vec<NamedClient>,
    },
    /// Write what is to be fetched next for a setup, by the answers in a folder.
    Want {
        setup: &'a str,
        folder: &'a str,
    },
    /// Answer turns as they come, of a setup.
    Follow {
        setup: &'a str,
        following: Following,
    },
    /// The same, and store each turn in a journal before it is answered; of the journal's own setup where none is given.
    FollowJournal {
        setup: Option<&'a str>,
        journal: &'a str,
        following: Following,
    },
    /// Judge a certificate.
    Certify {
        given: Given<'a>,
        certificate: &'a str,
        is_json: bool,
    },
    /// The same of a script and a certificate that both come on standard input.
    CertifyInput {
        is_json: bool,
    },
    /// Write which program this is, and what it reads and writes, as JSON.
    Version,
}

impl Invocation<'_> {
    /// Whether what is written is JSON; faults of texts are then, too.
    pub fn is_json(&self) -> bool {
        match self {
            Invocation::Script { wanted, .. } => wanted.is_json(),
            Invocation::Follow { following, .. } | Invocation::FollowJournal { following, .. } => {
                following.is_json
            }
            Invocation::Certify { is_json, .. } | Invocation::CertifyInput { is_json } => *is_json,
            Invocation::Version => true,
            Invocation::Messages { .. }
            | Invocation::Import(_)
            | Invocation::Setup { .. }
            | Invocation::Want { .. } => false,
        }
    }
}

/// What is to be written about a script.
#[derive(Clone, Copy)]
pub enum ScriptOutput<'a> {
    /// Its report, by so many workers.
    Report {
        workers: WorkerCount,
        is_strict: bool,
    },
    /// Its report as JSON, by so many workers.
    Json {
        workers: WorkerCount,
        is_strict: bool,
    },
    /// The commands for its plans.
    Commands {
        turns: WantedTurns,
    },
    /// Why its plans are as they are; of one client, where it is given; all of their steps, or the first ones.
    Explanation {
        turns: WantedTurns,
        client: Option<&'a str>,
        is_whole: bool,
        is_json: bool,
    },
    /// A drawing of one of its turns: the last one, where none is given; of one client, where it is given.
    Picture {
        turns: WantedTurns,
        client: Option<&'a str>,
    },
    /// When each of its clients expires; as metrics, or as lines.
    Health {
        are_metrics: bool,
    },
}

impl ScriptOutput<'_> {
    /// How many threads may read the script.
    pub fn threads(&self) -> usize {
        match self {
            ScriptOutput::Report { workers, .. } | ScriptOutput::Json { workers, .. } =>
                workers.count(),
            _ => 0,
        }
    }

    fn is_json(&self) -> bool {
        match self {
            ScriptOutput::Json { .. } => true,
            ScriptOutput::Explanation { is_json, .. } => *is_json,
            _ => false,
        }
    }
}

/// The turns of a script that are wanted.
#[derive(Clone, Copy)]
pub enum WantedTurns {
    /// All of them.
    Every,
    /// The last one.
    Last,
    /// The one with a number, from 1.
    Numbered(u64),
}

const PLAN: &str = "plan";

const RUN: &str = "run";

const COMMANDS: &str = "commands";

pub(crate) const JSON: &str = "json";

const WORKERS: &str = "workers";

const STRICT: &str = "strict";

const TURN: &str = "turn";

const LAST: &str = "last";

const IMPORT: &str = "import";

const WANT: &str = "want";

const SETUP: &str = "SETUP";

const VERSION: &str = "--version";

const AS_JSON: &str = "--json";

const AFTER_HELP: &str = "Examples (in the folder of the repository):
  ./ibcplan plan examples/smallest.toml
  ./ibcplan run --workers 4 examples/hundred_headers.toml
  ./ibcplan certify examples/smallest.toml examples/smallest.certificate

Results go to standard output; what went wrong goes to standard error. With --json
a fault of a text is an object on standard output, too.

ibcplan --version --json tells the program, its format and the versions of scripts
that it reads as JSON.

Exit status:
  0  done; of certify: the plan is the cheapest
  1  the content of a file is refused
  2  the command line is wrong
  3  of certify: it isn't the plan (the cheapest, and the first among equals), or
     its labels don't show it; standard output says why
  4  no memory, or a file or an output that fails
  5  of ./ibcplan: the program isn't built, and can't be
  6  of plan and run with --strict: the report is written, and a window, an event
     or a settlement in it is refused; unless it is JSON, its lines that begin
     with 'refused' say which
  7  of import, and where a setup and a folder stand in the place of a script: what
     is asked for is written, but without the clients and the paths whose answers
     are refused; standard error says which. Of messages also that a packet message
     is left out, or that proofs are to be asked for first

In the place of a script a setup and the folder of the answers of nodes may stand:
then it is the script that import makes of them, with the same notices.";

const AFTER_PLAN: &str = "Examples (in the folder of the repository):
  ./ibcplan plan examples/smallest.toml
  ./ibcplan plan - < examples/smallest.toml > report.txt
  ./ibcplan plan examples/import/setup.toml examples/import/answers
  ./ibcplan plan --json examples/two_clients.toml | jq .
  ./ibcplan plan --strict examples/lost_client.toml || echo \"exit status $?\"";

const AFTER_RUN: &str = "Examples (in the folder of the repository):
  ./ibcplan run examples/packets.toml
  ./ibcplan run --workers 4 examples/hundred_headers.toml
  ./ibcplan run --strict --workers 4 examples/hundred_headers.toml
  ./ibcplan run --json --workers 4 examples/hundred_headers.toml | jq .

It writes what plan writes, whatever the number of threads. Measure before you
use it: where a plan takes less than a second or two, plan is faster.";

const AFTER_COMMANDS: &str = "Examples (in the folder of the repository):
  ./ibcplan commands examples/smallest.toml
  ./ibcplan commands --last examples/hundred_headers.toml > updates.sh
  ./ibcplan commands --turn 1 examples/two_clients.toml

Without --last or --turn it writes those of every turn, of which only the last
turn's are to be run. Each turn's begin with a comment that says until when they
are valid.";

const AFTER_IMPORT: &str = "Examples (in the folder of the repository):
  ./ibcplan import examples/import/setup.toml examples/import/answers > script.toml
  ./ibcplan import --all-or-nothing setup.toml answers > script.toml
  ./ibcplan import --verified setup.toml answers > script.toml

FOLDER has a folder for each client, each path and each chain that is tracked, by
its identifier, with saved answers in files *.json. To have signatures verified, run
tools/verify_commits FOLDER before: it writes verdicts.json in each chain's folder.
With --verified, headers are left out unless verdicts call the votes of more than
2/3 of their set good.

Where answers of a client or a path are refused, it is left out, and the others
are written (exit status 7). With a chain go all clients that track it, with a
client the paths that it serves and the goals that name it. Where no client is
left, nothing is written (exit status 1).";

const AFTER_WANT: &str = "Examples (in the folder of the repository):
  ./ibcplan want setup.toml answers
  relayer/ibcplan-relayer fetch setup.toml answers

It writes a line for each answer that is to be fetched next, at most 30 for each
node and each gateway: get, the chain whose node is to be asked, the path, and the
file in FOLDER; then lines that say why. It writes nothing where no more is needed. A request that a node refused
is not written again where its file is there with the ending .refused.";

/// A word that has to be given: the path of a file or of a folder.
pub(crate) fn path<'a>(alloc: Global, name: &'static str, help: &'static str) -> Arg<'a> {
    Arg::new(alloc, name).required(true).help(help)
}

/// An option without a value.
pub(crate) fn flag<'a>(alloc: Global, name: &'static str, help: &'static str) -> Arg<'a> {
    Arg::new(alloc, name)
        .long(name)
        .action(ArgAction::SetTrue)
        .help(help)
}

fn json<'a>(alloc: Global) -> Arg<'a> {
    flag(alloc, JSON, "Writes the report as JSON")
}

fn strict<'a>(alloc: Global) -> Arg<'a> {
    flag(
        alloc,
        STRICT,
        "Ends with status 6 where an event, a window or a settlement is refused",
    )
}

fn workers<'a>(alloc: Global) -> Arg<'a> {
    Arg::new(alloc, WORKERS)
        .long(WORKERS)
        .value_name("K")
        .value_parser(value_parser!(usize).range(1..=64))
        .default_value("1")
        .help("How many threads make step tables, scan the paths and plan for the clients, 1 to 64")
}

pub(crate) fn turn<'a>(alloc: Global) -> Arg<'a> {
    Arg::new(alloc, TURN)
        .long(TURN)
        .value_name("N")
        .value_parser(value_parser!(u64).range(1..=MAX_TURNS as i64))
        .help("Writes those of this turn alone, from 1")
}

pub(crate) fn last<'a>(alloc: Global) -> Result<Arg<'a>, AllocError> {
    flag(alloc, LAST, "Writes those of the last turn alone").conflicts_with(TURN)
}

fn plan_command<'a>(alloc: Global) -> Result<Command<'a>, AllocError> {
    let about =
        "Writes the report of a script: for each turn and client the cheapest list of updates";
    given_command(alloc, PLAN, about, AFTER_PLAN, FOLDER)?
        .arg(json(alloc))?
        .arg(strict(alloc))
}

fn run_command<'a>(alloc: Global) -> Result<Command<'a>, AllocError> {
    let about = "Writes the report of a script as plan does, by several threads";
    given_command(alloc, RUN, about, AFTER_RUN, FOLDER)?
        .arg(workers(alloc))?
        .arg(json(alloc))?
        .arg(strict(alloc))
}

fn commands_command<'a>(alloc: Global) -> Result<Command<'a>, AllocError> {
    let about = "Writes the commands (of Hermes) that submit the updates of a script's plans";
    given_command(alloc, COMMANDS, about, AFTER_COMMANDS, FOLDER)?
        .arg(turn(alloc))?
        .arg(last(alloc)?)
}

fn import_command<'a>(alloc: Global) -> Result<Command<'a>, AllocError> {
    Command::new(alloc, IMPORT)
        .about("Writes the script that the saved answers of nodes make")
        .after_help(AFTER_IMPORT)
        .arg(path(
            alloc,
            SETUP,
            "A script without events; - for standard input",
        ))?
        .arg(path(alloc, FOLDER, "The folder of the answers of nodes"))?
        .arg(all_or_nothing(alloc))?
        .arg(verified(alloc))
}

fn want_command<'a>(alloc: Global) -> Result<Command<'a>, AllocError> {
    Command::new(alloc, WANT)
        .about("Writes which answers of nodes are to be fetched next")
        .after_help(AFTER_WANT)
        .arg(path(
            alloc,
            SETUP,
            "A script without events; - for standard input",
        ))?
        .arg(path(alloc, FOLDER, "The folder of the answers that are there"))
}

/// The command with one more subcommand.
fn with_more<'a>(
    command: Command<'a>,
    more: Result<Command<'a>, AllocError>,
) -> Result<Command<'a>, AllocError> {
    command.subcommand(more?)
}

fn with_plans<'a>(alloc: Global, command: Command<'a>) -> Result<Command<'a>, AllocError> {
    let command = with_more(command, plan_command(alloc))?;
    let command = with_more(command, run_command(alloc))?;
    with_more(command, commands_command(alloc))
}

fn with_answers<'a>(alloc: Global, command: Command<'a>) -> Result<Command<'a>, AllocError> {
    let command = with_more(command, messages_command(alloc))?;
    let command = with_more(command, setup_command(alloc))?;
    with_more(command, want_command(alloc))
}

fn with_explanations<'a>(alloc: Global, command: Command<'a>) -> Result<Command<'a>, AllocError> {
    let command = with_more(command, explain_command(alloc))?;
    let command = with_more(command, picture_command(alloc))?;
    with_more(command, health_command(alloc))
}

fn with_others<'a>(alloc: Global, command: Command<'a>) -> Result<Command<'a>, AllocError> {
    let command = with_more(command, import_command(alloc))?;
    let command = with_more(command, follow_command(alloc))?;
    with_more(command, certify_command(alloc))
}

/// The command without its subcommands.
fn bare_command<'a>(alloc: Global) -> Command<'a> {
    Command::new(alloc, "ibcplan")
        .version("0.1.0")
        .about("Plans the cheapest light-client updates of an IBC relayer")
        .after_help(AFTER_HELP)
        .subcommand_required(true)
        .arg_required_else_help(true)
}

/// The subcommands are in the order in which the help lists them.
fn command_line<'a>(alloc: Global) -> Result<Command<'a>, AllocError> {
    let command = with_plans(alloc, bare_command(alloc))?;
    let command = with_answers(alloc, command)?;
    let command = with_explanations(alloc, command)?;
    with_others(alloc, command)
}

/// What `plan` or `run` is to write, or none where a word is missing.
fn plan_of<'a>(name: &str, given: &ArgMatches<'_>) -> Option<ScriptOutput<'a>> {
    let is_strict = given.get_flag(STRICT);
    let workers = if name == RUN {
        WorkerCount::new(given.get_one(WORKERS)?)?
    } else {
        WorkerCount::none()
    };
    if given.get_flag(JSON) {
        return Some(ScriptOutput::Json { workers, is_strict });
    }
    Some(ScriptOutput::Report { workers, is_strict })
}

/// The turns whose commands are wanted.
pub(crate) fn turns_of(given: &ArgMatches<'_>) -> WantedTurns {
    if given.get_flag(LAST) {
        return WantedTurns::Last;
    }
    match given.get_one(TURN) {
        Some(turn) => WantedTurns::Numbered(turn),
        None => WantedTurns::Every,
    }
}

/// The request of `import` or `want`, or none where a word is missing.
fn folder_task_of<'a>(name: &str, given: &ArgMatches<'a>) -> Option<Invocation<'a>> {
    let setup = given.get_str(SETUP)?;
    let folder = given.get_str(FOLDER)?;
    if name == WANT {
        return Some(Invocation::Want { setup, folder });
    }
    Some(Invocation::Import(import_of(given, setup, folder)))
}

/// What a command is to write about a script, or none where a word is missing.
fn wanted_of<'a>(name: &str, given: &ArgMatches<'a>) -> Option<ScriptOutput<'a>> {
    if name == COMMANDS {
        let turns = turns_of(given);
        Some(ScriptOutput::Commands { turns })
    } else if name == EXPLAIN {
        Some(explanation_of(given))
    } else if name == PICTURE {
        Some(picture_of(given))
    } else if name == HEALTH {
        Some(health_of(given))
    } else {
        plan_of(name, given)
    }
}

/// The request of a command that takes a script, or none where a word is missing.
fn script_task_of<'a>(name: &str, given: &ArgMatches<'a>) -> Option<Invocation<'a>> {
    let wanted = wanted_of(name, given)?;
    let given = given_of(given)?;
    Some(Invocation::Script { given, wanted })
}

/// The request of a command by its name, or none where a word is missing.
fn named_task_of<'a>(name: &str, given: &ArgMatches<'a>) -> Option<Invocation<'a>> {
    if name == IMPORT || name == WANT {
        folder_task_of(name, given)
    } else if name == FOLLOW {
        follow_of(given)
    } else if name == CERTIFY {
        certify_of(given)
    } else if name == MESSAGES {
        messages_of(given)
    } else {
        script_task_of(name, given)
    }
}

/// The request of words that were parsed, or none where one is missing.
fn task_of<'a>(matches: &ArgMatches<'a>) -> Option<Invocation<'a>> {
    let (name, given) = matches.subcommand()?;
    named_task_of(name, given)
}

/// The request of `setup`, or none where another is asked for.
fn setup_of<'a>(alloc: Global, matches: &ArgMatches<'a>) -> Result<Option<Invocation<'a>>, Error> {
    let Some(given) = matches.subcommand_matches(SETUP_COMMAND) else {
        return Ok(None);
    };
    let Some(config) = given.get_str(HERMES) else {
        return Ok(None);
    };
    let clients = clients_of(alloc, given)?;
    Ok(Some(Invocation::Setup { config, clients }))
}

/// The request of words that were parsed by the command.
fn request_of_words<'a>(
    alloc: Global,
    command: &mut Command<'a>,
    matches: &ArgMatches<'a>,
) -> Result<Invocation<'a>, Error> {
    if let Some(request) = setup_of(alloc, matches)? {
        return Ok(request);
    }
    match task_of(matches) {
        Some(request) => Ok(request),
        None => Err(flaw_of(alloc, command, matches)?),
    }
}

/// What is wrong with words that make no request.
fn flaw_of(
    alloc: Global,
    command: &mut Command<'_>,
    matches: &ArgMatches<'_>,
) -> Result<Error, AllocError> {
    match matches.subcommand_matches(CERTIFY) {
        Some(given) => certify_flaw(alloc, given),
        None => command.error(ErrorKind::MissingSubcommand, "a command is missing"),
    }
}

/// Whether the words ask which program this is, as JSON.
fn asks_for_version(words: &[String]) -> bool {
    if words.len() != 3 {
        return false;
    }
    let (first, second) = (words[1].as_str(), words[2].as_str());
    (first == VERSION && second == AS_JSON) || (first == AS_JSON && second == VERSION)
}

/// Reads the command line. An error is the text to show: what is wrong, or the help that was asked
/// for.
pub fn read_request<'a>(alloc: Global, words: &'a [String]) -> Result<Invocation<'a>, Error> {
    if asks_for_version(words) {
        return Ok(Invocation::Version);
    }
    let mut command = command_line(alloc)?.bin_name("ibcplan")?;
    let matches = command.try_get_matches_from_mut(words)?;
    request_of_words(alloc, &mut command, &matches)
}
