//! Addresses as columns, the powers of a validator set by column, the voters of a header as bits, and the
//! sum of the powers whose bit is set, eight columns a step.
#![tactic(auto)]

mod columns;
mod error;
mod plane;
mod powers;
mod sums;
mod tally;

pub use columns::Columns;
pub use error::LanesError;
pub use plane::Plane;
pub use powers::{MAX_TOTAL, Powers};
pub use sums::{masked_sum, plain_sum};
pub use tally::Tally;
