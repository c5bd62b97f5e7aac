//! What no contract of the layers from the hashes up to the step rule says, by their public calls: sets of validators, books
//! and steps, as tables of cases with values from outside; and those values, as the tables of `test_plan` write them, too.
#![tactic(auto)]

#[cfg(test)]
mod book;
#[cfg(test)]
mod carried;
#[cfg(test)]
mod header;
#[cfg(test)]
mod merkle;
#[cfg(test)]
mod ripemd;
#[cfg(test)]
mod same;
#[cfg(test)]
mod step;
#[cfg(test)]
mod valset;
mod values;
#[cfg(test)]
mod votes;

pub use values::{
    Members, height, make_heights, make_set, make_set_with, nanosecond, options, second,
};
