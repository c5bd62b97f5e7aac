//! The notices of an import: what is missing among the answers, left out of the script, of no use, or not
//! sure.
#![tactic(auto)]

mod canonical;
mod channels;
mod counterparties;
mod excess;
mod headers;
mod latest;
mod missing;
mod notice;
mod packets;
mod pages;
mod passed;
mod shown;
mod stale;
mod starts;
mod unsearched;
mod unusable;
mod verified;

pub use notice::{Notice, Notices, notices_of};
