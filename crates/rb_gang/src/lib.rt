//! A step table made by several threads: each row is made by the thread that drew its number.
#![tactic(auto)]

pub mod laws;
mod making;
mod table;

pub use making::{build, make_rows};
pub use table::{ClaimSeat, ClaimTable, open};
