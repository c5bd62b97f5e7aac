//! The status that the program ends with; 5 is that of the script `./ibcplan` where it can't build it.

/// The request is done; a certificate holds; of a strict plan: nothing is refused.
pub const DONE: u8 = 0;

/// The content of a file is refused.
pub const REFUSED: u8 = 1;

/// The command line is wrong.
pub const COMMAND_LINE: u8 = 2;

/// A certificate isn't right.
pub const DENIED: u8 = 3;

/// Want of memory, or a file or an output that fails.
pub const FAILED: u8 = 4;

/// Of a strict plan: the report is written, and tells of something that is refused.
pub const PARTLY_REFUSED: u8 = 6;

/// Of an import: the script is written, and a client or a path is left out.
pub const PARTLY_LEFT_OUT: u8 = 7;
