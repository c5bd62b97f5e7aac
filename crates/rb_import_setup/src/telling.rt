//! Setups told from scripts.
use rb_script_toml::{RunError, read_table};
use std::alloc::{AllocError, Global};
use toml::{Table, Value};

/// Whether a text is a setup, and no script: its version is 1, and none of its turns has a key `event`. A text without a
/// table is none.
pub fn is_setup(alloc: Global, bytes: &[u8]) -> Result<bool, AllocError> {
    match read_table(alloc, bytes) {
        Ok(table) => Ok(is_of_setup(&table)),
        Err(RunError::NoMemory) => Err(AllocError),
        Err(RunError::Fault(_) | RunError::Device) => Ok(false),
    }
}

/// Whether a table is that of a setup.
fn is_of_setup(table: &Table) -> bool {
    let version = table.get("version").and_then(Value::as_integer);
    version == Some(1) && !turns_of(table).iter().any(|turn| has_event(turn))
}

/// The turns of a table.
fn turns_of(table: &Table) -> &[Value] {
    match table.get("turn").and_then(Value::as_array) {
        Some(turns) => turns.as_slice(),
        None => &[],
    }
}

fn has_event(turn: &Value) -> bool {
    match turn.as_table() {
        Some(table) => table.get("event").is_some(),
        None => false,
    }
}
