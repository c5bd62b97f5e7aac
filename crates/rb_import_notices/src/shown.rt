//! Texts of nodes as notices show them.

use rb_script_toml::is_active;
use std::fmt;

/// The most bytes of a text that a notice shows.
const MAX_SHOWN: usize = 200;

/// A text that a node wrote. Characters that would do something to a terminal are written `\u{..}` with their number in
/// hexadecimal digits; of a text of more than 200 bytes its length stands there, as `<300 bytes>`.
#[derive(Clone, Copy)]
pub struct Shown<'a> {
    pub text: &'a str,
}

impl fmt::Display for Shown<'_> {
    fn fmt<W: fmt::Write>(&self, f: &mut fmt::Formatter<W>) -> fmt::Result {
        let length = self.text.len();
        if length > MAX_SHOWN {
            return write!(f, "<{length} bytes>");
        }
        for character in self.text.chars() {
            write_character(f, character)?;
        }
        Ok(())
    }
}

fn write_character<W: fmt::Write>(f: &mut fmt::Formatter<W>, character: char) -> fmt::Result {
    if is_active(character) {
        let code = u32::from(character);
        write!(f, "\\u{{{code:x}}}")
    } else {
        f.write_char(character)
    }
}
