//! The command line of `setup`.
use clap::error::ErrorKind;
use clap::{Arg, ArgAction, ArgMatches, Command, Error};
use rb_import_setup::NamedClient;
use std::alloc::{AllocError, Global};

pub(crate) const SETUP_COMMAND: &str = "setup";

pub(crate) const HERMES: &str = "hermes";

const CLIENT: &str = "CLIENT";

/// How many clients a command line may name, as many as a setup may have.
const MOST_CLIENTS: usize = 256;

const AFTER_SETUP: &str = "Examples (in the folder of the repository):
  ./ibcplan setup --hermes examples/hermes/config.toml zone-1:07-tendermint-3:hub-4 > setup.toml
  ./ibcplan setup --hermes ~/.hermes/config.toml HOST:ID:CHAIN HOST:ID:CHAIN

CLIENT is HOST:ID:CHAIN: the chain that hosts the client, its identifier there, and
the chain that it tracks. What the configuration doesn't tell is a guess, or left to
be written; the first lines say what.";

pub(crate) fn setup_command<'a>(alloc: Global) -> Result<Command<'a>, AllocError> {
    Command::new(alloc, SETUP_COMMAND)
        .about("Writes a setup for clients, of the configuration of Hermes")
        .after_help(AFTER_SETUP)
        .arg(config(alloc))?
        .arg(clients(alloc))
}

fn config<'a>(alloc: Global) -> Arg<'a> {
    Arg::new(alloc, HERMES)
        .long(HERMES)
        .value_name("CONFIG")
        .action(ArgAction::Set)
        .required(true)
        .help("The file of Hermes' configuration; - for standard input")
}

fn clients<'a>(alloc: Global) -> Arg<'a> {
    Arg::new(alloc, CLIENT)
        .action(ArgAction::Append)
        .num_args(1..=MOST_CLIENTS)
        .required(true)
        .help("A client, as HOST:ID:CHAIN")
}

/// The clients that the words name.
pub(crate) fn clients_of(alloc: Global, given: &ArgMatches<'_>) -> Result<Vec<NamedClient>, Error> {
    let mut clients = Vec::new(alloc);
    for word in given.get_strs(CLIENT).unwrap_or(&[]) {
        match NamedClient::of_word(word) {
            Some(client) => clients.push(client)?,
            None => return Err(bad_client(alloc, word)?),
        }
    }
    Ok(clients)
}

/// What is wrong where a word names no client.
fn bad_client(alloc: Global, word: &str) -> Result<Error, AllocError> {
    let reason = format!(in alloc;
        "invalid value '{word}' for '<CLIENT>...': HOST:ID:CHAIN belongs here, of two chains"
    )?;
    setup_command(alloc)?
        .bin_name("ibcplan setup")?
        .error(ErrorKind::ValueValidation, reason.as_str())
}
