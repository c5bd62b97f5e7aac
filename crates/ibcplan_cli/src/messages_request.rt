//! The command line of `messages`.
use crate::given::{FOLDER, SCRIPT, all_or_nothing, import_of, verified};
use crate::request::{Invocation, path};
use clap::{ArgMatches, Command};
use std::alloc::{AllocError, Global};

pub(crate) const MESSAGES: &str = "messages";

const DIR: &str = "DIR";

const AFTER_MESSAGES: &str = "Examples (in the folder of the repository):
  ./ibcplan messages script.toml answers messages
  PROGRAM_1=simd OPTIONS_1='--from relayer --yes' sh messages/send.sh
  ./ibcplan messages setup.toml answers messages
  ./ibcplan messages --verified setup.toml answers messages

FOLDER is that of the answers of which import made the script. DIR is new: it gets a
file for each update of the last turn, in the order of the transactions, as
'tx ibc client update CLIENT FILE' of the chains' programs reads it, and send.sh. A
line for each message tells its file, its client and its transaction.

In the place of SCRIPT the setup of import may stand, which is imported first, with
the same options, notices and exit status.
Hosts whose chains have signer, fee_denom and gas_price there get transactions with
the updates and the packet messages, as 'tx sign' reads them. Where a proof isn't
there, nothing is made (exit status 7): lines as those of want tell what to ask. A
packet message whose proof fails is left out (exit status 7); standard error says why.";

pub(crate) fn messages_command<'a>(alloc: Global) -> Result<Command<'a>, AllocError> {
    let about =
        "Writes the messages of a script's or a setup's last turn, and a shell file that sends them";
    Command::new(alloc, MESSAGES)
        .about(about)
        .after_help(AFTER_MESSAGES)
        .arg(path(
            alloc,
            SCRIPT,
            "The script's or the setup's file; - for standard input",
        ))?
        .arg(path(alloc, FOLDER, "The folder of the answers of nodes"))?
        .arg(path(alloc, DIR, "The folder that is made"))?
        .arg(all_or_nothing(alloc))?
        .arg(verified(alloc))
}

/// The request of `messages`, or none where a word is missing.
pub(crate) fn messages_of<'a>(given: &ArgMatches<'a>) -> Option<Invocation<'a>> {
    let (file, folder) = (given.get_str(SCRIPT)?, given.get_str(FOLDER)?);
    Some(Invocation::Messages {
        import: import_of(given, file, folder),
        output: given.get_str(DIR)?,
    })
}
