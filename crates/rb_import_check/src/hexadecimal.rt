//! Bytes in hexadecimal digits.
use std::fmt;

/// Bytes as nodes write hashes and addresses: each in two hexadecimal digits, with capital letters.
#[derive(Clone, Copy)]
pub struct Hexadecimal<'a> {
    pub bytes: &'a [u8],
}

impl fmt::Display for Hexadecimal<'_> {
    fn fmt<W: fmt::Write>(&self, f: &mut fmt::Formatter<W>) -> fmt::Result {
        for byte in self.bytes {
            write!(f, "{byte:02X}")?;
        }
        Ok(())
    }
}
