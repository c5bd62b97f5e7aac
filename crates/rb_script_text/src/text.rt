//! The text of a script.
ghost use Rattle.std.specs.Prelude.{◌≡◌, ◌≤◌, ◌++◌, IfOk, List, length, ℕ, Ok, string_bytes};
ghost use Rattle.rb_script_types.specs.Script.{script_view};
ghost use Rattle.rb_script_toml.specs.Documents.{max_bytes};
ghost use Rattle.rb_script_read.specs.Scripts.{script_of};

use crate::same::is_same_script;
use crate::tables::push_config;
use crate::turns::push_turns;
use rb_script_read::read_script;
use rb_script_toml::{MAX_BYTES, RunError};
use rb_script_types::Script;
use std::alloc::{AllocError, AllocFailed, Global};
use thiserror::Error;

/// Why a script has no text.
#[derive(Clone, Copy, Debug, PartialEq, Eq, Error)]
pub enum TextError {
    /// A growth was refused.
    #[error("no memory")]
    NoMemory,
    /// The text has more bytes than are read.
    #[error("the text would be too big")]
    TooBig,
    /// No text is read as this script.
    #[error("the script has no text")]
    Unprinted,
}

impl From<AllocError> for TextError {
    ghost use Rattle.std.specs.Prelude.{◌≡◌};
    ghost use Rattle.rb_script_text.specs.declared.text.TextError.TheVariants.{NoMemory};

    ghost from_gives = { λ _ e. e ≡ NoMemory };

    fn from(_: AllocError) -> TextError {
        TextError::NoMemory
    }
}

/// The text of a script, behind what it is to begin with: lines of comment. It is read back and compared, so the reader
/// takes it for this script. `TooBig` where it would have more bytes than are read; `Unprinted` where no text is read
/// as this script, as of one that asks for too much; `NoMemory` where a growth is refused.
pub fn text_of_script(alloc: Global, script: &Script, opening: &str) -> Result<String, TextError>
    ensures read { IfOk result (λ text. script_of (string_bytes text) ≡ Ok (script_view script.now)) }
    ensures opening { IfOk result (λ text. (tables : List ℕ) × (string_bytes text ≡ opening.now ++ tables)) }
    ensures size { IfOk result (λ text. length (string_bytes text) ≤ max_bytes) }
{
    let tables = tables_of(alloc, script)?;
    let text = with_opening(alloc, opening, &tables)?;
    if text.len() > MAX_BYTES {
        return Err(TextError::TooBig);
    }
    judge(alloc, text.as_str(), script)?;
    Ok(text)
}

/// A text of what it begins with and of tables.
fn with_opening(alloc: Global, opening: &str, tables: &String) -> Result<String, AllocError>
    ensures { IfOk result (λ text. string_bytes text ≡ opening.now ++ string_bytes tables.now) }
{
    let mut text = String::from_str(alloc, opening)?;
    text.push_str(tables.as_str())?;
    Ok(text)
}

/// The tables of a script.
fn tables_of(alloc: Global, script: &Script) -> Result<String, AllocError> {
    let mut text = String::new(alloc);
    push_config(&mut text, &script.config)?;
    push_turns(alloc, &mut text, script)?;
    Ok(text)
}

/// Refuses a text that isn't read as this script.
fn judge(alloc: Global, text: &str, script: &Script) -> Result<(), TextError>
    ensures { IfOk result (λ _. script_of text.now ≡ Ok (script_view script.now)) }
{
    match read_script(alloc, text.as_bytes()) {
        Ok(read) => {
            if is_same_script(&read, script) {
                Ok(())
            } else {
                Err(TextError::Unprinted)
            }
        }
        Err(RunError::NoMemory) => Err(TextError::NoMemory),
        Err(_) => Err(TextError::Unprinted),
    }
}
