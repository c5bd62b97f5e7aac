//! Typed access to the JSON of nodes' answers: an object's fields by their types, or what is wrong and
//! where.
#![tactic(auto)]

mod error;
mod field_path;
mod object;
mod scalar;

pub use error::{AnswerError, FieldError, FieldErrorName};
pub use field_path::{FieldPath, Key, Segment};
pub use object::Object;
pub use scalar::{Bytes, number_of};
