//! Members as protojson writes them. None of their values has a character that JSON escapes.
ghost use Rattle.std.specs.Prelude.{◌≡◌, ◌++◌, true, OnOk, string_bytes};
ghost use Rattle.std.specs.Fmt.{decimal};
ghost use Rattle.base64.specs.Engines.{standard};
ghost use Rattle.base64.specs.GeneralPurpose.{encode_of};
ghost use Rattle.rb_script_text.specs.Json.{name_text, string_text};
ghost use Rattle.rb_script_text.specs.Moments.{moment_text};

use base64::engine::general_purpose::STANDARD;
use rb_base::Moment;
use rb_script_text::{push_moment, push_name};
use std::alloc::AllocError;

/// Adds a member that is a number of 64 bits.
pub(crate) fn push_quoted(
    text: &mut String,
    is_later: bool,
    name: &str,
    number: u64,
) -> Result<(), AllocError>
    ensures { OnOk result (string_bytes text.new ≡ string_bytes text.old ++ (name_text is_later name.now ++ string_text (decimal number))) }
{
    push_name(text, is_later, name)?;
    write!(text, "\"{number}\"")
}

/// Adds a member of bytes, in base64.
pub(crate) fn push_bytes(
    text: &mut String,
    is_later: bool,
    name: &str,
    bytes: &[u8],
) -> Result<(), AllocError>
    ensures { OnOk result (string_bytes text.new ≡ string_bytes text.old ++ (name_text is_later name.now ++ string_text (encode_of standard bytes.now))) }
{
    push_name(text, is_later, name)?;
    text.push_str("\"")?;
    STANDARD.encode_string(bytes, text)?;
    text.push_str("\"")
}

/// Adds a member that is a time, behind others, as RFC 3339 has it.
pub(crate) fn push_time(text: &mut String, name: &str, time: Moment) -> Result<(), AllocError>
    ensures { OnOk result (string_bytes text.new ≡ string_bytes text.old ++ (name_text true name.now ++ string_text (moment_text time))) }
{
    push_name(text, true, name)?;
    text.push_str("\"")?;
    push_moment(text, time)?;
    text.push_str("\"")
}
