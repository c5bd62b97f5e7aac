//! Members as protojson writes them. None of their values has a character that JSON escapes.
ghost use Rattle.std.specs.Prelude.{◌≡◌, ◌++◌, true, OnOk, string_bytes};
ghost use Rattle.std.specs.Fmt.{decimal};
ghost use Rattle.base64.specs.Engines.{standard};
ghost use Rattle.base64.specs.GeneralPurpose.{encode_of};
ghost use Rattle.rb_script_text.specs.Json.{json_text, more_text, name_text, string_text};
ghost use Rattle.rb_packets.specs.Values.{height_json, height_member};

use base64::engine::general_purpose::STANDARD;
use rb_import_answers::RevisionHeight;
use rb_script_text::push_name;
use std::alloc::AllocError;

/// Adds a member that is a number of 64 bits.
pub(crate) fn push_number(
    text: &mut String,
    is_later: bool,
    name: &str,
    number: u64,
) -> Result<(), AllocError>
    ensures { OnOk result (string_bytes text.new ≡ string_bytes text.old ++ name_text is_later name.now ++ string_text (decimal number)) }
{
    push_name(text, is_later, name)?;
    write!(text, "\"{number}\"")
}

/// Adds a member of bytes, in base64, behind others.
pub(crate) fn push_bytes(text: &mut String, name: &str, bytes: &[u8]) -> Result<(), AllocError>
    ensures { OnOk result (string_bytes text.new ≡ string_bytes text.old ++ name_text true name.now ++ string_text (encode_of standard bytes.now)) }
{
    push_name(text, true, name)?;
    text.push_str("\"")?;
    STANDARD.encode_string(bytes, text)?;
    text.push_str("\"")
}

/// Adds a member that is a height, behind others.
pub(crate) fn push_height(
    text: &mut String,
    name: &str,
    height: RevisionHeight,
) -> Result<(), AllocError>
    ensures { OnOk result (string_bytes text.new ≡ string_bytes text.old ++ name_text true name.now ++ json_text (height_json height)) }
{
    push_name(text, true, name)?;
    push_both(text, height)
}

#[tactic(auto, unfolding(crate::specs::Values::height_json))]
fn push_both(text: &mut String, height: RevisionHeight) -> Result<(), AllocError>
    ensures { OnOk result (string_bytes text.new ≡ string_bytes text.old ++ json_text (height_json height)) }
{
    text.push_str("{")?;
    push_number(text, false, "revision_number", height.revision)?;
    push_height_member(text, height)?;
    text.push_str("}")
}

#[tactic(auto, unfolding(crate::specs::Values::height_member))]
fn push_height_member(text: &mut String, height: RevisionHeight) -> Result<(), AllocError>
    ensures { OnOk result (string_bytes text.new ≡ string_bytes text.old ++ more_text (height_member height)) }
{
    push_number(text, true, "revision_height", height.height)
}
