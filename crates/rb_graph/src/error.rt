//! Why rows make no table.
ghost use Rattle.std.specs.Prelude.{◌≡◌};
ghost use Rattle.rb_graph.specs.TableError.{number_of, name_of};

use thiserror::Error;

/// Why the rows given to `Frame::finish` make no table. Numbers and names stand in
/// `specs/TableError`.
#[derive(Clone, Copy, Debug, PartialEq, Eq, Error)]
pub enum TableError {
    /// No row has this number, the least such; and no two rows have the same one.
    #[error("551 RowMissing({0})")]
    RowMissing(usize),
    /// Two rows or more have this number, the least such.
    #[error("552 RowTwice({0})")]
    RowTwice(usize),
    /// Memory is wanting; the rows themselves may be whole.
    #[error("NoMemory")]
    NoMemory,
}

impl TableError {
    /// The refusal's number: 551 or 552, and `None` for want of memory, which is nobody's mistake.
    pub fn number(self) -> Option<u16>
        ensures { result ≡ number_of self }
    {
        match self {
            TableError::RowMissing(_) => Some(551),
            TableError::RowTwice(_) => Some(552),
            TableError::NoMemory => None,
        }
    }

    /// The refusal's name, as its variant is called.
    pub fn name(self) -> &'static str
        ensures { result.now ≡ name_of self }
    {
        match self {
            TableError::RowMissing(_) => "RowMissing",
            TableError::RowTwice(_) => "RowTwice",
            TableError::NoMemory => "NoMemory",
        }
    }
}
