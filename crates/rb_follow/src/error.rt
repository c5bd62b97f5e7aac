//! Why following ended before its input did.
use rb_script_toml::RunError;
use std::alloc::AllocError;
use std::io;
use thiserror::Error;

/// Why following ended before its input did.
#[derive(Debug, Drop, Error)]
pub enum FollowError {
    /// The setup was refused, a growth was, or the writer failed. A fault is always one of the setup: those of
    /// documents are answered.
    #[error("{0}")]
    Run(RunError),
    /// The input failed.
    #[error("{0}")]
    Input(io::Error),
    /// The journal failed; the document that it was to store isn't answered.
    #[error("{0}")]
    Journal(io::Error),
}

impl From<RunError> for FollowError {
    ghost use Rattle.std.specs.Prelude.{◌≡◌};
    ghost use Rattle.rb_follow.specs.declared.error.FollowError.TheVariants.{Run};

    ghost from_gives = { λ error e. e ≡ Run error };

    fn from(error: RunError) -> FollowError {
        FollowError::Run(error)
    }
}

impl From<AllocError> for FollowError {
    ghost use Rattle.std.specs.Prelude.{◌≡◌};
    ghost use Rattle.rb_script_toml.specs.declared.fault.RunError.TheVariants.{NoMemory};
    ghost use Rattle.rb_follow.specs.declared.error.FollowError.TheVariants.{Run};

    ghost from_gives = { λ _ e. e ≡ Run NoMemory };

    fn from(_: AllocError) -> FollowError {
        FollowError::Run(RunError::NoMemory)
    }
}
