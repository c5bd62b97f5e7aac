//! JSON (RFC 8259): the parts of arrays and objects. Texts have no character that JSON escapes, unless they are escaped.
ghost use Rattle.std.specs.Prelude.{◌≡◌, ◌++◌, OnOk, string_bytes};
ghost use Rattle.std.specs.Fmt.{decimal};
ghost use Rattle.rb_script_text.specs.Json.{boolean_text, comma_if, escape, escaped, json_text, name_text, number_or_null, string_text};

use std::alloc::AllocError;

/// Adds what stands between a value and the one before it, if there is one.
pub fn push_comma(text: &mut String, is_later: bool) -> Result<(), AllocError>
    ensures { OnOk result (string_bytes text.new ≡ string_bytes text.old ++ comma_if is_later) }
{
    if is_later {
        text.push_str(", ")
    } else {
        Ok(())
    }
}

/// Adds the name of a member, up to where its value stands.
#[tactic(auto, unfolding(crate::specs::Json::name_text))]
pub fn push_name(text: &mut String, is_later: bool, name: &str) -> Result<(), AllocError>
    ensures { OnOk result (string_bytes text.new ≡ string_bytes text.old ++ name_text is_later name.now) }
{
    push_comma(text, is_later)?;
    write!(text, "\"{name}\": ")
}

/// Adds a member that is a number.
pub fn push_number(
    text: &mut String,
    is_later: bool,
    name: &str,
    number: u64,
) -> Result<(), AllocError>
    ensures { OnOk result (string_bytes text.new ≡ string_bytes text.old ++ name_text is_later name.now ++ decimal number) }
{
    push_name(text, is_later, name)?;
    write!(text, "{number}")
}

/// Adds a text as a string.
pub fn push_string(text: &mut String, characters: &str) -> Result<(), AllocError>
    ensures { OnOk result (string_bytes text.new ≡ string_bytes text.old ++ string_text characters.now) }
{
    text.push_str("\"")?;
    text.push_str(characters)?;
    text.push_str("\"")
}

/// Adds a member that is a text.
pub fn push_text(
    text: &mut String,
    is_later: bool,
    name: &str,
    characters: &str,
) -> Result<(), AllocError>
    ensures { OnOk result (string_bytes text.new ≡ string_bytes text.old ++ name_text is_later name.now ++ string_text characters.now) }
{
    push_name(text, is_later, name)?;
    push_string(text, characters)
}

/// Adds a member that is true or false.
pub fn push_boolean(
    text: &mut String,
    is_later: bool,
    name: &str,
    value: bool,
) -> Result<(), AllocError>
    ensures { OnOk result (string_bytes text.new ≡ string_bytes text.old ++ (name_text is_later name.now ++ boolean_text value)) }
{
    push_name(text, is_later, name)?;
    text.push_str(if value { "true" } else { "false" })
}

/// Adds a member that is a number of up to 128 bits, or null.
pub fn push_number_or_null(
    text: &mut String,
    is_later: bool,
    name: &str,
    number: Option<u128>,
) -> Result<(), AllocError>
    ensures { OnOk result (string_bytes text.new ≡ string_bytes text.old ++ name_text is_later name.now ++ json_text (number_or_null number)) }
{
    push_name(text, is_later, name)?;
    match number {
        Some(number) => write!(text, "{number}"),
        None => text.push_str("null"),
    }
}

/// Adds a text as a string, with its quotation marks and backslashes escaped. It has no control character.
pub fn push_escaped(text: &mut String, value: &str) -> Result<(), AllocError>
    ensures { OnOk result (string_bytes text.new ≡ string_bytes text.old ++ string_text (escaped value.now)) }
{
    text.push_str("\"")?;
    push_characters(text, value)?;
    text.push_str("\"")
}

fn push_characters(text: &mut String, value: &str) -> Result<(), AllocError>
    ensures { OnOk result (string_bytes text.new ≡ string_bytes text.old ++ escaped value.now) }
{
    for character in value.chars() {
        push_character(text, character)?;
    }
    Ok(())
}

fn push_character(text: &mut String, character: char) -> Result<(), AllocError>
    ensures { OnOk result (string_bytes text.new ≡ string_bytes text.old ++ escape character) }
{
    if character == '"' || character == '\\' {
        text.push_str("\\")?;
    }
    text.push(character)
}
