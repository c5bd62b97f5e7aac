//! Setups of the configuration of another relayer.
use crate::error::ProgramError;
use crate::input::Input;
use rb_import_setup::{HermesError, NamedClient, setup_of};
use std::alloc::Global;

const UNKNOWN: &str = "the configuration lacks one of its chains";

const LONG: &str = "HOST.ID has more than 64 characters";

/// The setup for clients that the configuration of Hermes makes.
pub fn setup_for<'a>(
    alloc: Global,
    config: &Input<'a>,
    clients: &[NamedClient],
) -> Result<String, ProgramError<'a>> {
    match setup_of(alloc, config.bytes(), clients) {
        Ok(text) => Ok(text),
        Err(error) => Err(failure_of(error, config)),
    }
}

fn failure_of<'a>(error: HermesError, config: &Input<'a>) -> ProgramError<'a> {
    match error {
        HermesError::Config(error) => ProgramError::of_run(error, config),
        HermesError::UnknownChain(client) => ProgramError::BadClient {
            client,
            reason: UNKNOWN,
        },
        HermesError::LongIdentifier(client) => ProgramError::BadClient {
            client,
            reason: LONG,
        },
        HermesError::NoMemory => ProgramError::NoMemory,
    }
}
