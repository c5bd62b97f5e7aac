//! Names of files, and words of the command line, as messages show them.
use rb_script_toml::is_active;
use std::alloc::{AllocError, Global};
use std::fmt;

/// A name of which characters that would do something to a terminal are written `\u{..}` with their number in
/// hexadecimal digits, so that it is one line.
#[derive(Clone, Copy, Debug)]
pub struct ShownName<'a> {
    pub name: &'a str,
}

impl fmt::Display for ShownName<'_> {
    fn fmt<W: fmt::Write>(&self, f: &mut fmt::Formatter<W>) -> fmt::Result {
        for character in self.name.chars() {
            if is_active(character) {
                let code = u32::from(character);
                write!(f, "\\u{{{code:x}}}")?;
            } else {
                f.write_char(character)?;
            }
        }
        Ok(())
    }
}

/// A name as messages show it, as a text of its own.
pub fn shown_text(alloc: Global, name: &str) -> Result<String, AllocError> {
    let name = ShownName { name };
    format!(in alloc; "{name}")
}
