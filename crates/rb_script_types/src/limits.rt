//! How much a script may have.

/// The most chains of a script.
pub const MAX_CHAINS: usize = 64;

/// The most clients of a script.
pub const MAX_CLIENTS: usize = 256;

/// The most paths of a script.
pub const MAX_PATHS: usize = 256;

/// The most turns of a script.
pub const MAX_TURNS: usize = 500;

/// The most goals, events and settlements of all turns of a script.
pub const MAX_ENTRIES: usize = 200_000;
