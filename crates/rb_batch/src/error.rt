//! The refusals of this crate.
use std::alloc::{AllocError, AllocFailed};
use thiserror::Error;

/// Why messages were not cut into transactions.
#[derive(Clone, Copy, Debug, PartialEq, Eq, Error)]
pub enum BatchError {
    /// The message at this index is over the gas limit alone, the transaction gas counted.
    #[error("701 TooBig {0}")]
    TooBig(usize),
    /// Memory for the transactions was refused.
    #[error("no memory")]
    NoMemory,
}

impl From<AllocError> for BatchError {
    ghost use Rattle.std.specs.Prelude.{◌≡◌};
    ghost use Rattle.rb_batch.specs.declared.error.BatchError.TheVariants.{NoMemory};

    ghost from_gives = { λ _ e. e ≡ NoMemory };

    fn from(_error: AllocError) -> BatchError {
        BatchError::NoMemory
    }
}

impl<T: Drop> From<AllocFailed<T>> for BatchError {
    ghost use Rattle.std.specs.Prelude.{◌≡◌};
    ghost use Rattle.rb_batch.specs.declared.error.BatchError.TheVariants.{NoMemory};

    ghost from_gives = { λ _ e. e ≡ NoMemory };

    fn from(_error: AllocFailed<T>) -> BatchError {
        BatchError::NoMemory
    }
}
