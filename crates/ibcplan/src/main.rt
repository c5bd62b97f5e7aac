//! ibcplan plans the client updates of an IBC relayer's script, and judges plans that others made.
//! What it does stands in `rb_text`, `rb_follow`, `rb_import`, `rb_text_export`, `rb_text_report` and `rb_messages`, its command line, its
//! statuses and its words for the operator in `ibcplan_cli`, its folders in `ibcplan_folders`; here each request is done, and the
//! status of a plan with `--strict` goes by whether its report tells of something refused.
#![tactic(auto)]

mod explain;
mod first_text;
mod following;
mod forms;
mod given;
mod host;
mod journal;
mod messages;
mod parcel;
mod perform;
mod reporting;
mod searching;

use host::Host;
use ibcplan_cli::{no_memory, request_of, status};
use std::io::IsTerminal;
use std::process::ExitCode;
use std::{env, io};

const NOT_UTF_8: &str = "error: the command line isn't UTF-8

Rename the file, or give it as standard input: ibcplan plan - < FILE
For more information, try '--help'.";

/// Does what the command line asks for, and answers the status to end with. Where somebody watches
/// what goes to standard error, it says there how far a long run is, and how many events were refused.
fn run<R: Host>(rt: &R, is_watched: bool) -> io::Result<u8> {
    let words: Vec<String> = env::args(rt)?.collect(rt.alloc())?;
    Ok(match request_of(rt, words.as_slice()) {
        Ok(request) => perform::perform(rt, request, is_watched),
        Err(status) => status,
    })
}

fn main(rt: HostRuntime) -> ExitCode {
    let status = match run(&rt, rt.stderr().is_terminal()) {
        Ok(status) => status,
        Err(error) if error.kind() == io::ErrorKind::InvalidData => {
            let _ = eprintln!(rt; "{NOT_UTF_8}");
            status::COMMAND_LINE
        }
        Err(_) => no_memory(&rt),
    };
    ExitCode::from(status)
}
