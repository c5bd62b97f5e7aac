//! The parts of a journal as texts.
ghost use Rattle.std.specs.Prelude.{◌≡◌, ℕ, ◌≤◌, ◌++◌, List, true, false, length, string_bytes, option_map, IfOk, IfErr};
ghost use Rattle.toml.specs.Data.{get_member};
ghost use Rattle.toml.specs.Text.{IsDocumentText};
ghost use Rattle.toml.specs.View.{view, table_view, items_view};
ghost use Rattle.rb_script_toml.specs.Documents.{max_bytes, document, whole};
ghost use Rattle.rb_script_toml.specs.Faults.{Fails};
ghost use Rattle.rb_journal.specs.Parts.{gap, closing};
ghost use Rattle.rb_journal.specs.Refusals.{IsRefusal, HasNoText, MakesNoPart, MakesNoOpening, HasNoScript};
ghost use Rattle.rb_journal.specs.Entries.{script_of, only_table, turn_in, IsWritable, IsTooMuch, IsPart, IsOpening, IsVerbatimPart, IsEntry, RestoresScript, UnrestoredScript, Restores, Unrestored};

use crate::depth::table_fits;
use crate::parts::{closing, closing_length, heading, part_end};
use crate::verbatim::{behind_bar, verbatim_document, verbatim_part};
use rb_script_toml::{
    FaultName, MAX_BYTES, MAX_MARKS, RunError, count_marks, fault_at, read_table,
};
use std::alloc::{AllocError, Global};
use toml::{Table, Value, table_to_string};

/// The line that a turn begins with.
const GAP: &str = "\n";

const TURN: &str = "turn";

/// The most levels of a text.
const MAX_DEPTH: usize = 80;

/// The text of a table. `NotToml` where a date-time of it is none or it nests too deep, `InputTooBig` where the
/// text has more bytes than a script may have, and `TooManyTables` where it may open more tables and arrays.
fn text_of(alloc: Global, table: &Table) -> Result<String, RunError>
    ensures written { IfOk result (λ text. IsDocumentText false (table_view table.now) (string_bytes text)) }
    ensures writable { IfOk result (λ _. IsWritable (table_view table.now)) }
    ensures refused { IfErr result (λ e. IsWritable (table_view table.now) → IsTooMuch e) }
    ensures unwritten { IfErr result (λ e. IsRefusal (HasNoText (table_view table.now)) e) }
    ensures fits { IfOk result (λ text. length (string_bytes text) ≤ max_bytes) }
    ensures read { IfOk result (λ text. document (string_bytes text) ≡ Ok (whole (table_view table.now))) }
{
    if !table_fits(table, MAX_DEPTH) {
        return Err(fault_at(alloc, "-", FaultName::NotToml));
    }
    let text = match table_to_string(alloc, table) {
        Ok(text) => text,
        Err(toml::ser::Error::DateInvalid) => return Err(fault_at(alloc, "-", FaultName::NotToml)),
        Err(_) => return Err(RunError::NoMemory),
    };
    if text.len() > MAX_BYTES {
        return Err(fault_at(alloc, "-", FaultName::InputTooBig));
    }
    if count_marks(text.as_bytes()) > MAX_MARKS {
        return Err(fault_at(alloc, "-", FaultName::TooManyTables));
    }
    Ok(text)
}

/// A part of a journal: a line, the text of a table, and what ends it. `InputTooBig` where it has more bytes than a
/// script may have, and `NotToml` where a line of the table looks like the last.
fn part_of(alloc: Global, digests: bool, before: &str, table: &Table) -> Result<String, RunError>
    ensures part { IfOk result (λ part. IsPart digests before.now (table_view table.now) (string_bytes part)) }
    ensures refused { IfErr result (λ e. IsRefusal (MakesNoPart digests before.now (table_view table.now)) e) }
{
    let text = text_of(alloc, table)?;
    let mut part = String::new(alloc);
    part.push_str(before)?;
    part.push_str(text.as_str())?;
    let end = closing(alloc, digests, part.as_bytes())?;
    part.push_str(end.as_str())?;
    if part.len() > MAX_BYTES {
        return Err(fault_at(alloc, "-", FaultName::InputTooBig));
    }
    match part_end(part.as_bytes()) {
        Some(end) if end == part.len() => Ok(part),
        _ => Err(fault_at(alloc, "-", FaultName::NotToml)),
    }
}

/// A script of one turn.
fn script_of(alloc: Global, turn: Table) -> Result<Table, AllocError>
    ensures { IfOk result (λ script. table_view script ≡ script_of (table_view turn)) }
{
    let turns = Vec::from_array(alloc, [Value::Table(turn)])?;
    let key = String::from_str(alloc, TURN)?;
    let mut script = Table::new(alloc);
    script.insert(key, Value::Array(turns))?;
    Ok(script)
}

fn value_at<'a>(table: &'a Table, key: &str) -> Option<&'a Value>
    ensures { option_map (λ v. view v.now) result ≡ get_member key.now (table_view table.now) }
{
    table.get(key)
}

/// The table in an array of one.
fn only_table(values: &[Value]) -> Option<&Table>
    ensures { option_map (λ t. table_view t.now) result ≡ only_table (items_view values.now) }
{
    if values.len() != 1 {
        return None;
    }
    values[0].as_table()
}

/// The turn of a script that has one turn, and no other key.
fn turn_in(script: &Table) -> Option<&Table>
    ensures { option_map (λ t. table_view t.now) result ≡ turn_in (table_view script.now) }
{
    if script.len() != 1 {
        return None;
    }
    let value = value_at(script, TURN)?;
    let turns = value.as_array()?;
    only_table(turns.as_slice())
}

/// The first part of a journal, with digests or without: the setup without turns that a text of TOML holds, in the
/// order of its keys. `Fault` is the text's, `NotToml` where a line of it looks like the one that ends a part, and
/// `InputTooBig` or `TooManyTables` where the part is more than a script may be.
pub fn opening_text(alloc: Global, digests: bool, setup: &[u8]) -> Result<String, RunError>
    ensures written { IfOk result (λ part. IsOpening digests setup.now (string_bytes part)) }
    ensures refused { IfErr result (λ e. MakesNoOpening digests setup.now e) }
{
    let mut table = read_table(alloc, setup)?;
    let _ = table.remove(TURN);
    part_of(alloc, digests, heading(digests), &table)
}

/// The part of a journal for a document with the keys of a turn at its top: the turn of a script, or, where that is
/// more than a script may be, the document as it came. `Fault` is the document's.
pub fn entry_text(alloc: Global, digests: bool, bytes: &[u8]) -> Result<Vec<u8>, RunError>
    ensures written { IfOk result (λ part. IsEntry digests bytes.now part.items) }
    ensures printed { IfOk result (λ part. IsVerbatimPart digests bytes.now part.items → HasNoScript digests bytes.now) }
    ensures refused { IfErr result (λ e. Fails e (document bytes.now)) }
{
    let turn = read_table(alloc, bytes)?;
    let script = script_of(alloc, turn)?;
    match part_of(alloc, digests, GAP, &script) {
        Ok(part) => Ok(part.into_bytes()),
        Err(RunError::Fault(_)) => Ok(verbatim_part(alloc, digests, bytes)?),
        Err(_) => Err(RunError::NoMemory),
    }
}

fn behind_gap(part: &[u8]) -> &[u8]
    ensures { (rest : List ℕ) → part.now ≡ gap ++ rest → result.now ≡ rest }
{
    part.strip_prefix(GAP.as_bytes()).unwrap_or(part)
}

/// What stands between the first line of a turn and the lines that end it.
fn inner(digests: bool, part: &[u8]) -> &[u8]
    ensures { (text : List ℕ) → part.now ≡ gap ++ (text ++ closing digests (gap ++ text)) → result.now ≡ text }
{
    let rest = behind_gap(part);
    &rest[..rest.len().saturating_sub(closing_length(digests))]
}

/// The document of a part that is a script: the text of its turn. `NotToml` where the part isn't a script of one turn
/// and of nothing else.
fn script_document(alloc: Global, digests: bool, part: &[u8]) -> Result<String, RunError>
    ensures restored { IfOk result (λ text. RestoresScript digests part.now (string_bytes text)) }
    ensures unrestored { IfErr result (λ e. UnrestoredScript digests part.now e) }
{
    let script = read_table(alloc, inner(digests, part))?;
    match turn_in(&script) {
        Some(turn) => text_of(alloc, turn),
        None => Err(fault_at(alloc, "-", FaultName::NotToml)),
    }
}

/// A document that reads as the one that a part of a journal was made of: that one itself, or its turn in the order of
/// its keys. `NotToml` where the part is neither.
pub fn document_text(alloc: Global, digests: bool, part: &[u8]) -> Result<Vec<u8>, RunError>
    ensures restored { IfOk result (λ text. Restores digests part.now text.items) }
    ensures unrestored { IfErr result (λ e. Unrestored digests part.now e) }
{
    match behind_bar(part) {
        Some(lines) => Ok(verbatim_document(alloc, digests, lines)?),
        None => Ok(script_document(alloc, digests, part)?.into_bytes()),
    }
}
