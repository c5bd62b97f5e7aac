//! The words of a case: what is asked, and what it is asked of: bytes in hex, numbers in digits, texts as they are, a space
//! between two.
use anyhow::bail;
use std::alloc::Global;
use std::str::Split;

/// The words of a case that aren't read yet.
#[derive(Drop)]
pub struct Words<'a> {
    words: Split<'a, char>,
}

impl<'a> Words<'a> {
    /// All words of a case.
    pub fn of(line: &'a str) -> Words<'a> {
        Words {
            words: line.split(' '),
        }
    }

    /// The next word.
    pub fn text(&mut self) -> anyhow::Result<&'a str> {
        match self.words.next() {
            Some(word) => Ok(word),
            None => bail!("a case has too few words"),
        }
    }

    /// The next word, which is hex.
    pub fn bytes(&mut self, alloc: Global) -> anyhow::Result<Vec<u8>> {
        Ok(hex::decode(alloc, self.text()?)?)
    }

    /// The next word, which is a number.
    pub fn number(&mut self) -> anyhow::Result<u64> {
        Ok(self.text()?.parse()?)
    }
}
