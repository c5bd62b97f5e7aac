//! Where a value stands in a text.
ghost use Rattle.std.specs.Prelude.{◌≡◌, ◌++◌, IfOk, OnOk, flat_map, string_bytes};
ghost use Rattle.std.specs.Str.{chars};
ghost use Rattle.rb_script_toml.specs.Faults.{IsFault};
ghost use Rattle.rb_script_toml.specs.KeyPaths.{child, element, below, place_path, shown, shown_key, is_active};

use crate::fault::{Fault, FaultName, RunError};
use itoa::Buffer;
use std::alloc::{AllocError, Global};

/// The most bytes of a key that a path shows.
const MAX_SHOWN: usize = 64;

/// A key of a table, by the table's path, which is empty for the whole text.
#[derive(Clone, Copy)]
pub struct KeyPath<'a> {
    pub table: &'a str,
    pub key: &'a str,
}

impl KeyPath<'_> {
    /// The fault of this name at this key.
    pub fn fault(&self, alloc: Global, name: FaultName) -> RunError
        ensures { IsFault result name (place_path self.now) }
    {
        self.fault_at(alloc, &[], name)
    }

    /// The fault of this name at an element below this key, by its indices.
    pub fn fault_at(&self, alloc: Global, indices: &[usize], name: FaultName) -> RunError
        ensures { IsFault result name (below (place_path self.now) indices.now) }
    {
        match self.path(alloc, indices) {
            Ok(path) => RunError::Fault(Fault::new(name, path)),
            Err(_) => RunError::NoMemory,
        }
    }

    /// The fault that a value of this type stands at an element below this key, by its indices, where
    /// one of another type belongs.
    pub fn wrong_type(&self, alloc: Global, indices: &[usize], found: &'static str) -> RunError
        ensures { IsFault result FaultName.WrongType (below (place_path self.now) indices.now) }
    {
        match self.path(alloc, indices) {
            Ok(path) => RunError::Fault(Fault::wrong_type(path, found)),
            Err(_) => RunError::NoMemory,
        }
    }

    fn path(&self, alloc: Global, indices: &[usize]) -> Result<String, AllocError>
        ensures { IfOk result (λ text. string_bytes text ≡ below (place_path self.now) indices.now) }
    {
        let mut text = child_path(alloc, self.table, self.key)?;
        for index in indices {
            write!(text, "[{index}]")?;
        }
        Ok(text)
    }
}

/// The path of a key below a table's path.
pub fn child_path(alloc: Global, table: &str, key: &str) -> Result<String, AllocError>
    ensures { IfOk result (λ text. string_bytes text ≡ child table.now key.now) }
{
    if table.is_empty() {
        String::from_str(alloc, key)
    } else {
        format!(in alloc; "{table}.{key}")
    }
}

/// The path of an element of an array. Each event asks for one, so it is made without a format.
pub fn element_path(alloc: Global, array: &str, index: usize) -> Result<String, AllocError>
    ensures { IfOk result (λ text. string_bytes text ≡ element array.now index) }
{
    let mut digits = Buffer::new();
    let mut path = String::with_capacity(alloc, 32)?;
    path.push_str(array)?;
    path.push_str("[")?;
    path.push_str(digits.format(index))?;
    path.push_str("]")?;
    Ok(path)
}

/// A key as a path shows it, so that a path is one line of no great length: quotes stand for an empty key,
/// and for one of more than 64 bytes its length, as `<70 bytes>`; of others characters that would do
/// something to a terminal are written `\u{..}`.
pub fn shown_key(alloc: Global, key: &str) -> Result<String, AllocError>
    ensures { IfOk result (λ text. string_bytes text ≡ shown_key key.now) }
{
    let length = key.len();
    if length == 0 {
        return String::from_str(alloc, "\"\"");
    }
    if length > MAX_SHOWN {
        return format!(in alloc; "<{length} bytes>");
    }
    shown(alloc, key)
}

/// A text of which characters that would do something to a terminal are written `\u{..}`.
fn shown(alloc: Global, key: &str) -> Result<String, AllocError>
    ensures { IfOk result (λ text. string_bytes text ≡ flat_map shown (chars key.now)) }
{
    let mut text = String::new(alloc);
    for character in key.chars() {
        push_shown(&mut text, character)?;
    }
    Ok(text)
}

/// Whether a character does something to a terminal: a control character, one that ends a line or a
/// paragraph, or one that turns the direction of a text (Unicode: Cc, Zl, Zp, Bidi_Control).
pub fn is_active(character: char) -> bool
    ensures { result ≡ is_active character }
{
    character.is_control()
        || matches!(
            character,
            '\u{61c}'
                | '\u{200e}'..='\u{200f}'
                | '\u{2028}'..='\u{202e}'
                | '\u{2066}'..='\u{2069}'
        )
}

fn push_shown(text: &mut String, character: char) -> Result<(), AllocError>
    ensures { OnOk result (string_bytes text.new ≡ string_bytes text.old ++ shown character) }
{
    if is_active(character) {
        let code = u32::from(character);
        write!(text, "\\u{{{code:x}}}")
    } else {
        text.push(character)
    }
}
