//! Verdicts on certificates as JSON.
use rb_script_text::{push_name, push_text};
use std::alloc::{AllocError, Global};
use std::str;

/// The line of a verdict, `yes` or `no NUMBER NAME` and numbers, as an object of JSON, and a line feed.
pub fn verdict_json(alloc: Global, line: &[u8]) -> Result<String, AllocError> {
    let line = str::from_utf8(line).unwrap_or("");
    let line = line.strip_suffix('\n').unwrap_or(line);
    let mut text = String::from_str(alloc, "{")?;
    match line.split_once(' ') {
        None => push_text(&mut text, false, "verdict", line)?,
        Some((verdict, reason)) => {
            push_text(&mut text, false, "verdict", verdict)?;
            push_reason(&mut text, reason)?;
        }
    }
    text.push_str("}\n")?;
    Ok(text)
}

/// Adds a reason: its number, its name, and the heights or indices that it is about.
fn push_reason(text: &mut String, reason: &str) -> Result<(), AllocError> {
    for (place, word) in reason.split(' ').enumerate() {
        match place {
            0 => {
                push_name(text, true, "number")?;
                text.push_str(word)?;
            }
            1 => {
                push_text(text, true, "name", word)?;
                push_name(text, true, "at")?;
                text.push_str("[")?;
            }
            2 => text.push_str(word)?,
            _ => {
                text.push_str(", ")?;
                text.push_str(word)?;
            }
        }
    }
    text.push_str("]")
}
