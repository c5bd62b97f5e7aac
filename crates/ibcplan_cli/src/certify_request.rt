//! The command line of `certify`.
use crate::given::{FOLDER, Given, SCRIPT, given_command, import_of};
use crate::input::STANDARD_INPUT;
use crate::request::{Invocation, JSON, flag};
use clap::error::ErrorKind;
use clap::{Arg, ArgMatches, Command, Error};
use std::alloc::{AllocError, Global};

pub(crate) const CERTIFY: &str = "certify";

const CERT: &str = "CERT";

const USAGE: &str = "ibcplan certify [OPTIONS] <SCRIPT> <CERT> | <SETUP> <FOLDER> <CERT> | -";

const AFTER_CERTIFY: &str = "Examples (in the folder of the repository):
  ./ibcplan certify examples/smallest.toml examples/smallest.certificate
  ./ibcplan certify examples/smallest.toml - < examples/smallest.certificate
  ./ibcplan certify setup.toml answers plan.certificate
  (cat examples/smallest.toml; echo ---; cat examples/smallest.certificate) |
    ./ibcplan certify -

It writes yes (exit status 0), or no and the reason (exit status 3). Where both texts
come from standard input, the script is first, and a line --- ends it.";

pub(crate) fn certify_command<'a>(alloc: Global) -> Result<Command<'a>, AllocError> {
    let about = "Judges whether a plan is the cheapest for a script, or whether there is none";
    given_command(alloc, CERTIFY, about, AFTER_CERTIFY, CERT)?
        .override_usage(USAGE)
        .arg(certificate(alloc))?
        .arg(flag(alloc, JSON, "Writes the verdict as JSON"))
}

/// The certificate, which may stand behind a script on standard input.
fn certificate<'a>(alloc: Global) -> Arg<'a> {
    Arg::new(alloc, CERT).help(
        "The certificate's file: a plan that anybody made; - for standard input; without it SCRIPT has to be -, and both come from there",
    )
}

/// The request of `certify`: of two words the second is the certificate, of three the first two are a setup and a folder. None
/// where no certificate is given beside a file, or standard input is to be both.
pub(crate) fn certify_of<'a>(given: &ArgMatches<'a>) -> Option<Invocation<'a>> {
    let file = given.get_str(SCRIPT)?;
    let is_json = given.get_flag(JSON);
    let (script, certificate) = match (given.get_str(FOLDER), given.get_str(CERT)) {
        (Some(folder), Some(certificate)) => {
            (Given::Setup(import_of(given, file, folder)), certificate)
        }
        (Some(certificate), None) => (Given::Script(file), certificate),
        (None, _) if file == STANDARD_INPUT => return Some(Invocation::CertifyInput { is_json }),
        (None, _) => return None,
    };
    if file == STANDARD_INPUT && certificate == STANDARD_INPUT {
        return None;
    }
    Some(Invocation::Certify {
        given: script,
        certificate,
        is_json,
    })
}

/// What is wrong with the words of `certify` that make no request.
pub(crate) fn certify_flaw(alloc: Global, given: &ArgMatches<'_>) -> Result<Error, AllocError> {
    let mut command = certify_command(alloc)?.bin_name("ibcplan certify")?;
    if given.get_str(FOLDER).is_some() {
        command.error(
            ErrorKind::ArgumentConflict,
            "only one of <SCRIPT> and <CERT> can be standard input\n\n  certify - takes both from there, one after the other",
        )
    } else {
        command.error(
            ErrorKind::MissingRequiredArgument,
            "the following required arguments were not provided:\n  <CERT>",
        )
    }
}
