//! Why no setup is made.
use crate::hermes_client::NamedClient;
use rb_script_toml::RunError;
use std::alloc::{AllocError, AllocFailed};

/// Why no setup is made.
#[derive(Drop)]
pub enum HermesError {
    /// The configuration has a fault.
    Config(RunError),
    /// The configuration lacks the host or the tracked chain of a client.
    UnknownChain(NamedClient),
    /// The host and the identifier of a client make no identifier.
    LongIdentifier(NamedClient),
    /// A growth was refused.
    NoMemory,
}

impl From<RunError> for HermesError {
    ghost use Rattle.std.specs.Prelude.{◌≡◌};
    ghost use Rattle.rb_import_setup.specs.declared.hermes_error.HermesError.TheVariants.{Config};

    ghost from_gives = { λ error e. e ≡ Config error };

    fn from(error: RunError) -> HermesError {
        HermesError::Config(error)
    }
}

impl From<AllocError> for HermesError {
    ghost use Rattle.std.specs.Prelude.{◌≡◌};
    ghost use Rattle.rb_import_setup.specs.declared.hermes_error.HermesError.TheVariants.{NoMemory};

    ghost from_gives = { λ _ e. e ≡ NoMemory };

    fn from(_: AllocError) -> HermesError {
        HermesError::NoMemory
    }
}

impl<T: Drop> From<AllocFailed<T>> for HermesError {
    ghost use Rattle.std.specs.Prelude.{◌≡◌};
    ghost use Rattle.rb_import_setup.specs.declared.hermes_error.HermesError.TheVariants.{NoMemory};

    ghost from_gives = { λ _ e. e ≡ NoMemory };

    fn from(_: AllocFailed<T>) -> HermesError {
        HermesError::NoMemory
    }
}
