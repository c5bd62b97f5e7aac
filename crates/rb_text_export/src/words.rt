//! Words of a shell.
ghost use Rattle.std.specs.Prelude.{◌≡◌, ◌++◌, OnOk, string_bytes};
ghost use Rattle.std.specs.List.{list_any};
ghost use Rattle.rb_text_export.specs.Commands.{has_meaning, option_text, word};

use std::alloc::AllocError;

/// Adds an option, and an identifier as its word.
#[tactic(auto, using(crate::proofs::Added::added), unfolding(crate::specs::Commands::option_text))]
pub(crate) fn push_option(text: &mut String, option: &str, id: &str) -> Result<(), AllocError>
    ensures { OnOk result (string_bytes text.new ≡ string_bytes text.old ++ option_text option.now id.now) }
{
    text.push_str(option)?;
    push_word(text, id)
}

/// Adds an identifier as a word of a shell: in single quotes where it has a character that a shell
/// gives a meaning. Identifiers have no single quote.
fn push_word(text: &mut String, id: &str) -> Result<(), AllocError>
    ensures { OnOk result (string_bytes text.new ≡ string_bytes text.old ++ word id.now) }
{
    if has_meanings(id) {
        write!(text, "'{id}'")
    } else {
        text.push_str(id)
    }
}

/// Whether a shell gives a character of an identifier a meaning.
fn has_meanings(id: &str) -> bool
    ensures { result ≡ list_any has_meaning id.now }
{
    id.as_bytes().iter().any(|byte| has_meaning(*byte))
}

/// Whether a character of identifiers has a meaning in a shell: of a comment, a pattern or a
/// redirection.
fn has_meaning(byte: u8) -> bool
    ensures { result ≡ has_meaning byte }
{
    matches!(byte, b'#' | b'[' | b']' | b'<' | b'>')
}
