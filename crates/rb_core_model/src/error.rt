//! Why an event isn't taken in, or a view isn't given.
use rb_script_types::Refusal;
use std::alloc::AllocError;
use thiserror::Error;

/// Why an event isn't taken in, or a view isn't given. Nothing has changed then.
#[derive(Clone, Copy, Debug, PartialEq, Eq, Error)]
pub enum CoreError {
    /// The event or the view is refused, for this reason.
    #[error("{0}")]
    Refused(Refusal),
    /// Memory was refused, or something has as many owners as can be counted.
    #[error("no memory")]
    NoMemory,
}

impl From<Refusal> for CoreError {
    ghost use Rattle.std.specs.Prelude.{◌≡◌};
    ghost use Rattle.rb_core_model.specs.declared.error.CoreError.TheVariants.{Refused};

    ghost from_gives = { λ refusal error. error ≡ Refused refusal };

    fn from(refusal: Refusal) -> CoreError {
        CoreError::Refused(refusal)
    }
}

impl From<AllocError> for CoreError {
    ghost use Rattle.std.specs.Prelude.{◌≡◌};
    ghost use Rattle.rb_core_model.specs.declared.error.CoreError.TheVariants.{NoMemory};

    ghost from_gives = { λ _ error. error ≡ NoMemory };

    fn from(_error: AllocError) -> CoreError {
        CoreError::NoMemory
    }
}
