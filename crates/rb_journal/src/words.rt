//! Values as words of a text: each stands behind a blank or a line feed.
use hex::FromHex;
use rb_script_types::Config;
use std::alloc::{AllocError, AllocFailed, Global};
use std::collections::BTreeMap;
use std::str::SplitAsciiWhitespace;

/// Why no value is read.
#[derive(Clone, Copy)]
pub(crate) enum Unread {
    /// The words are of no such value.
    Wrong,
    /// A growth was refused.
    NoMemory,
}

impl From<AllocError> for Unread {
    ghost from_gives = { λ _ _. Unit {0} };

    fn from(_error: AllocError) -> Unread {
        Unread::NoMemory
    }
}

impl<T: Drop> From<AllocFailed<T>> for Unread {
    ghost from_gives = { λ _ _. Unit {0} };

    fn from(_error: AllocFailed<T>) -> Unread {
        Unread::NoMemory
    }
}

/// The words of a text that are still to be read, and how the relayer is configured whose they are.
#[derive(Drop)]
pub(crate) struct Words<'a> {
    pub alloc: Global,
    pub config: &'a Config,
    words: SplitAsciiWhitespace<'a>,
}

impl<'a> Words<'a> {
    /// The words of a text.
    pub fn of(alloc: Global, config: &'a Config, text: &'a str) -> Words<'a> {
        Words {
            alloc,
            config,
            words: text.split_ascii_whitespace(),
        }
    }

    /// The next word.
    pub fn word(&mut self) -> Result<&'a str, Unread> {
        self.words.next().ok_or(Unread::Wrong)
    }

    /// The value that the next words are of.
    pub fn read<T: Written>(&mut self) -> Result<T, Unread> {
        T::read(self)
    }
}

/// A value that is written as words.
pub(crate) trait Written: Drop {
    /// Adds its words.
    fn write(&self, text: &mut String) -> Result<(), AllocError>;

    /// Reads its words.
    fn read(words: &mut Words<'_>) -> Result<Self, Unread>;
}

impl Written for u64 {
    fn write(&self, text: &mut String) -> Result<(), AllocError> {
        write!(text, " {}", *self)
    }

    fn read(words: &mut Words<'_>) -> Result<u64, Unread> {
        match words.word()?.parse::<u64>() {
            Ok(number) => Ok(number),
            Err(_) => Err(Unread::Wrong),
        }
    }
}

impl Written for u128 {
    fn write(&self, text: &mut String) -> Result<(), AllocError> {
        write!(text, " {}", *self)
    }

    fn read(words: &mut Words<'_>) -> Result<u128, Unread> {
        match words.word()?.parse::<u128>() {
            Ok(number) => Ok(number),
            Err(_) => Err(Unread::Wrong),
        }
    }
}

impl Written for usize {
    fn write(&self, text: &mut String) -> Result<(), AllocError> {
        (*self as u64).write(text)
    }

    fn read(words: &mut Words<'_>) -> Result<usize, Unread> {
        Ok(words.read::<u64>()? as usize)
    }
}

impl Written for bool {
    fn write(&self, text: &mut String) -> Result<(), AllocError> {
        text.push_str(if *self { " yes" } else { " no" })
    }

    fn read(words: &mut Words<'_>) -> Result<bool, Unread> {
        match words.word()? {
            "yes" => Ok(true),
            "no" => Ok(false),
            _ => Err(Unread::Wrong),
        }
    }
}

impl Written for String {
    fn write(&self, text: &mut String) -> Result<(), AllocError> {
        text.push_str(" ")?;
        text.push_str(self.as_str())
    }

    fn read(words: &mut Words<'_>) -> Result<String, Unread> {
        Ok(String::from_str(words.alloc, words.word()?)?)
    }
}

impl Written for [u8; 32] {
    fn write(&self, text: &mut String) -> Result<(), AllocError> {
        write_digits(text, self)
    }

    fn read(words: &mut Words<'_>) -> Result<[u8; 32], Unread> {
        match <[u8; 32] as FromHex>::from_hex(words.word()?) {
            Ok(bytes) => Ok(bytes),
            Err(_) => Err(Unread::Wrong),
        }
    }
}

/// Adds bytes as hex digits.
pub(crate) fn write_digits(text: &mut String, bytes: &[u8]) -> Result<(), AllocError> {
    let digits = hex::encode(*text.allocator(), bytes)?;
    text.push_str(" ")?;
    text.push_str(digits.as_str())
}

impl<T: Written> Written for Option<T> {
    fn write(&self, text: &mut String) -> Result<(), AllocError> {
        match self {
            Some(value) => {
                text.push_str(" +")?;
                value.write(text)
            }
            None => text.push_str(" -"),
        }
    }

    fn read(words: &mut Words<'_>) -> Result<Option<T>, Unread> {
        match words.word()? {
            "+" => Ok(Some(words.read::<T>()?)),
            "-" => Ok(None),
            _ => Err(Unread::Wrong),
        }
    }
}

impl<T: Written> Written for Vec<T> {
    fn write(&self, text: &mut String) -> Result<(), AllocError> {
        write_all(text, self.as_slice())
    }

    fn read(words: &mut Words<'_>) -> Result<Vec<T>, Unread> {
        let count = words.read::<usize>()?;
        let mut values = Vec::new(words.alloc);
        for _ in 0..count {
            values.push(words.read::<T>()?)?;
        }
        Ok(values)
    }
}

/// Adds how many values there are, and their words.
pub(crate) fn write_all<T: Written>(text: &mut String, values: &[T]) -> Result<(), AllocError> {
    values.len().write(text)?;
    for value in values {
        value.write(text)?;
    }
    Ok(())
}

impl Written for BTreeMap<String, [u8; 32]> {
    fn write(&self, text: &mut String) -> Result<(), AllocError> {
        self.len().write(text)?;
        for (name, hash) in self.iter() {
            text.push_str("\n")?;
            name.write(text)?;
            hash.write(text)?;
        }
        Ok(())
    }

    fn read(words: &mut Words<'_>) -> Result<BTreeMap<String, [u8; 32]>, Unread> {
        let count = words.read::<usize>()?;
        let mut names = BTreeMap::new(words.alloc);
        for _ in 0..count {
            let name = words.read::<String>()?;
            names.insert(name, words.read::<[u8; 32]>()?)?;
        }
        Ok(names)
    }
}
