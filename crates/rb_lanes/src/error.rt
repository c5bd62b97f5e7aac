//! The refusals of this crate.
ghost use Rattle.std.specs.Prelude.{◌≡◌};

use std::alloc::{AllocError, AllocFailed};
use thiserror::Error;

/// Why an address got no column.
#[derive(Clone, Copy, Debug, PartialEq, Eq, Error)]
pub enum LanesError {
    /// There are 65,536 columns, and the address has none of them.
    #[error("301 ColumnsFull")]
    ColumnsFull,
    /// A growth was refused.
    #[error("NoMemory")]
    NoMemory,
}

impl From<AllocError> for LanesError {
    ghost use Rattle.rb_lanes.specs.declared.error.LanesError.TheVariants.{NoMemory};

    ghost from_gives = { λ _ e. e ≡ NoMemory };

    fn from(_error: AllocError) -> LanesError {
        LanesError::NoMemory
    }
}

impl<T: Drop> From<AllocFailed<T>> for LanesError {
    ghost use Rattle.rb_lanes.specs.declared.error.LanesError.TheVariants.{NoMemory};

    ghost from_gives = { λ _ e. e ≡ NoMemory };

    fn from(_error: AllocFailed<T>) -> LanesError {
        LanesError::NoMemory
    }
}
