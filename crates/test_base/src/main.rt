//! What no contract of small layers says, by their public calls: identifiers, columns, messages that are owed, transactions
//! and lanes between threads; how many steps the search for what to fetch asks for, what saved files contain, how many requests
//! go to an address at once, and their lines. They are tables of cases with values from outside.
//!
//! The program answers cases of ICS 23 and of packet messages, a line each, for tests/by_hand/proofs and packet_messages: what
//! proofs show, the keys that are asked for, and the messages, or why there are none.
#![tactic(auto)]

#[cfg(test)]
mod base;
#[cfg(test)]
mod batch;
#[cfg(test)]
mod lanes;
mod message;
mod proof;
#[cfg(test)]
mod same;
#[cfg(test)]
mod scan;
#[cfg(test)]
mod want_asking;
#[cfg(test)]
mod want_content;
#[cfg(test)]
mod want_search;
#[cfg(test)]
mod wire;
mod words;

use crate::words::Words;
use std::alloc::Global;

fn main(rt: HostRuntime) -> anyhow::Result<()> {
    for line in rt.lines(rt.alloc()) {
        let line = line?;
        let answer = answer(rt.alloc(), line.as_str())?;
        println!(rt; "{answer}")?;
    }
    Ok(())
}

/// What comes of a case, by its first word: that of a claim is a packet message's.
fn answer(alloc: Global, line: &str) -> anyhow::Result<String> {
    let mut words = Words::of(line);
    match words.text()? {
        claim @ ("sent" | "acknowledged" | "unreceived" | "awaited") => {
            message::answer(alloc, claim, &mut words)
        }
        asked => proof::answer(alloc, asked, &mut words),
    }
}
