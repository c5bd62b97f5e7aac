//! The refusals of this crate.
use thiserror::Error;

/// Why a value was refused.
#[derive(Clone, Copy, Debug, PartialEq, Eq, Error)]
pub enum BaseError {
    /// A window ends before it begins.
    #[error("101 WindowOrder")]
    WindowOrder,
    /// A trust level isn't from a third to one.
    #[error("102 BadFraction")]
    BadFraction,
    /// A number of a fee table is above 10^9.
    #[error("103 FeeTooBig")]
    FeeTooBig,
}
