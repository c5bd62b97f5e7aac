//! Typed access to tables of TOML: what a key holds, by its type and its range, or the fault and the path
//! where it doesn't; and the table that a text holds.
#![tactic(auto)]

mod document;
mod fault;
mod field;
mod key_path;
mod marks;
mod section;

pub use document::{MAX_BYTES, read_table};
pub use fault::{Fault, FaultName, RunError};
pub use field::{Field, MAX_NUMBER, is_identifier};
pub use key_path::{KeyPath, child_path, element_path, is_active};
pub use marks::{MAX_MARKS, count_marks};
pub use section::{Section, fault_at, section_at};
