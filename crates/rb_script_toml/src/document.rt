//! The table that a text holds.
ghost use Rattle.std.specs.Prelude.{codes};
ghost use Rattle.toml.specs.View.{table_view};
ghost use Rattle.rb_script_toml.specs.Faults.{Gives, IsFault};
ghost use Rattle.rb_script_toml.specs.Documents.{document, whole};

use crate::fault::{Fault, FaultName, RunError};
use crate::marks::{MAX_MARKS, count_marks};
use crate::section::fault_at;
use std::alloc::Global;
use toml::Table;
use toml::de::Error;

/// The most bytes of a text.
pub const MAX_BYTES: usize = 16_777_216;

/// Why a text is refused that isn't TOML, with where and why as the parser tells it.
fn not_toml(alloc: Global, error: &Error) -> RunError
    ensures { IsFault result FaultName.NotToml (codes "-") }
{
    let Ok(path) = String::from_str(alloc, "-") else {
        return RunError::NoMemory;
    };
    RunError::Fault(Fault {
        name: FaultName::NotToml,
        path,
        reason: format!(in alloc; "{error}").ok(),
        found: None,
    })
}

/// Reads the table of a text: TOML (version 1.1) in UTF-8, of at most 16,777,216 bytes, and at most 7,200,000 marks
/// ([`count_marks`]). `Fault` is `InputTooBig` where it has more bytes, else `TooManyTables` where it has more marks,
/// else `NotToml`, and each is at `-`, the whole text; `NoMemory` is answered where a growth is
/// refused.
#[tactic(auto, using(crate::proofs::Steps::steps), unfolding(crate::specs::Documents::document))]
pub fn read_table(alloc: Global, bytes: &[u8]) -> Result<Table, RunError>
    ensures read { Gives (λ t. whole (table_view t)) result (document bytes.now) }
{
    if bytes.len() > MAX_BYTES {
        return Err(fault_at(alloc, "-", FaultName::InputTooBig));
    }
    if count_marks(bytes) > MAX_MARKS {
        return Err(fault_at(alloc, "-", FaultName::TooManyTables));
    }
    match toml::table_from_slice(alloc, bytes) {
        Ok(table) => Ok(table),
        Err(error) => {
            if error.is_memory() {
                return Err(RunError::NoMemory);
            }
            Err(not_toml(alloc, &error))
        }
    }
}
