//! The command line of `health`.
use crate::given::{FOLDER, given_command};
use crate::request::{ScriptOutput, flag};
use clap::{ArgMatches, Command};
use std::alloc::{AllocError, Global};

pub(crate) const HEALTH: &str = "health";

const PROMETHEUS: &str = "prometheus";

const AFTER_HEALTH: &str = "Examples (in the folder of the repository):
  ./ibcplan health examples/two_clients.toml
  ./ibcplan health --prometheus script.toml > ibcplan.prom

It goes by the consensus states that the clients have stored after the last turn, and
by the last moment of the window that is then in force.";

pub(crate) fn health_command<'a>(alloc: Global) -> Result<Command<'a>, AllocError> {
    let about = "Writes when each client expires, and whether it is live";
    given_command(alloc, HEALTH, about, AFTER_HEALTH, FOLDER)?.arg(flag(
        alloc,
        PROMETHEUS,
        "Writes the moments as metrics, in the text format of Prometheus",
    ))
}

/// What `health` is to write.
pub(crate) fn health_of<'a>(given: &ArgMatches<'_>) -> ScriptOutput<'a> {
    ScriptOutput::Health {
        are_metrics: given.get_flag(PROMETHEUS),
    }
}
