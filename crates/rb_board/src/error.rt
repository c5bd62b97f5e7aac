//! Why a desk has no answer.
use rb_core_model::CoreError;
use rb_script_types::Refusal;
use thiserror::Error;

/// Why a desk has no answer.
#[derive(Clone, Copy, Debug, PartialEq, Eq, Error)]
pub enum DeskError {
    /// The pen is gone.
    #[error("the board is closed")]
    Closed,
    /// Fewer events are published than the desk was told of.
    #[error("fewer events are published than the desk was told of")]
    Behind,
    /// The core refuses it.
    #[error("{0}")]
    Refused(Refusal),
    /// A growth was refused.
    #[error("no memory")]
    NoMemory,
}

impl From<CoreError> for DeskError {
    ghost use Rattle.std.specs.Prelude.{◌≡◌};
    ghost use Rattle.rb_board.specs.Unseen.{of_core};

    ghost from_gives = { λ error given. given ≡ of_core error };

    fn from(error: CoreError) -> DeskError {
        match error {
            CoreError::Refused(refusal) => DeskError::Refused(refusal),
            CoreError::NoMemory => DeskError::NoMemory,
        }
    }
}
