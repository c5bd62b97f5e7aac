//! The events of a turn.
use crate::moment::clock_at;
use crate::names::{chain_name, client_name, path_name};
use rb_base::{Height, Moment};
use rb_book::{Header, Record, Vote};
use rb_scan::Sequence;
use rb_script_read::SetNames;
use rb_script_types::{Block, BlockHeight, Config, Observation};
use rb_valset::{Validator, ValidatorSet};
use std::alloc::AllocError;

/// How many bytes of a set's hash its name is made of, as hexadecimal digits.
const NAME_BYTES: usize = 16;

/// Adds the events of the turn at a place, with the names of the sets that were seen so far.
pub(crate) fn push_events(
    text: &mut String,
    config: &Config,
    names: &mut SetNames,
    turn: usize,
    events: &[Observation],
) -> Result<(), AllocError> {
    text.push_str("event = [\n")?;
    for (place, event) in events.iter().enumerate() {
        text.push_str("  { kind = \"")?;
        match event {
            Observation::SetSeen { chain, set } => {
                let name = new_name(names, *chain, set.hash(), turn, place)?;
                push_set(text, chain_name(config, *chain), name.as_str(), set)?;
                names.add(*chain, name.as_str(), *set.hash())?;
            }
            _ => push_event(text, config, names, event)?,
        }
        text.push_str(" },\n")?;
    }
    text.push_str("]\n")
}

/// The name of a set: the first 32 of its hash's 64 hexadecimal digits, or the place of its event where a set has that
/// name.
fn new_name(
    names: &SetNames,
    chain: usize,
    hash: &[u8; 32],
    turn: usize,
    place: usize,
) -> Result<String, AllocError> {
    let name = hex::encode(names.alloc, &hash[..NAME_BYTES])?;
    match names.hash(chain, name.as_str()) {
        Some(_) => format!(in names.alloc; "again-{turn}-{place}"),
        None => Ok(name),
    }
}

fn push_set(
    text: &mut String,
    chain: &str,
    name: &str,
    set: &ValidatorSet,
) -> Result<(), AllocError> {
    write!(
        text,
        "set\", chain = \"{chain}\", name = \"{name}\", validators = ["
    )?;
    for member in set.members() {
        push_member(text, member)?;
    }
    text.push_str("]")
}

fn push_member(text: &mut String, member: &Validator) -> Result<(), AllocError> {
    let power = member.power();
    text.push_str("[\"")?;
    push_hex(text, member.key().as_bytes())?;
    write!(text, "\", {power}], ")
}

/// Adds bytes as hexadecimal digits.
fn push_hex(text: &mut String, bytes: &[u8]) -> Result<(), AllocError> {
    let digits = hex::encode(*text.allocator(), bytes)?;
    text.push_str(digits.as_str())
}

/// Adds an event that isn't a set.
fn push_event(
    text: &mut String,
    config: &Config,
    names: &SetNames,
    event: &Observation,
) -> Result<(), AllocError> {
    match event {
        Observation::SetSeen { .. } => Ok(()),
        Observation::HeaderSeen { chain, header } => {
            push_header(text, config, names, *chain, header)
        }
        Observation::StoredSeen {
            client,
            height,
            record,
        } => push_stored(text, config, names, *client, *height, record),
        Observation::Sent {
            path,
            sequence,
            block,
            timeout_height,
            timeout_time,
        } => {
            push_packet(text, config, "sent", *path, *sequence)?;
            push_block(text, *block)?;
            push_timeouts(text, *timeout_height, *timeout_time)
        }
        Observation::Received {
            path,
            sequence,
            block,
        } => {
            push_packet(text, config, "received", *path, *sequence)?;
            push_height(text, *block)
        }
        Observation::AckWritten {
            path,
            sequence,
            block,
        } => {
            push_packet(text, config, "ack", *path, *sequence)?;
            push_block(text, *block)
        }
        Observation::Cleared { path, sequence } => {
            push_packet(text, config, "cleared", *path, *sequence)
        }
        Observation::Closed { path } => {
            let path = path_name(config, *path);
            write!(text, "closed\", path = \"{path}\"")
        }
    }
}

fn push_header(
    text: &mut String,
    config: &Config,
    names: &SetNames,
    chain: usize,
    header: &Header,
) -> Result<(), AllocError> {
    let id = chain_name(config, chain);
    let height = header.height();
    write!(text, "header\", chain = \"{id}\", height = {height}")?;
    push_time_and_root(text, header.record())?;
    text.push_str(", set = \"")?;
    push_set_reference(text, names, chain, header.set_hash())?;
    text.push_str("\", next = \"")?;
    push_set_reference(text, names, chain, header.record().next())?;
    text.push_str("\", votes = \"")?;
    for vote in header.votes() {
        text.push(letter(*vote))?;
    }
    text.push_str("\"")
}

/// The letter of a vote.
fn letter(vote: Vote) -> char {
    match vote {
        Vote::Commit => 'C',
        Vote::Nil => 'N',
        Vote::Absent => 'A',
        Vote::Bad => 'B',
    }
}

fn push_time_and_root(text: &mut String, record: &Record) -> Result<(), AllocError> {
    let time = clock_at(record.time());
    write!(text, ", time = \"{time}Z\", root = \"")?;
    push_hex(text, record.root())?;
    text.push_str("\"")
}

/// Adds a reference to the set of this hash: its name where an event gave it one, else the hash.
fn push_set_reference(
    text: &mut String,
    names: &SetNames,
    chain: usize,
    hash: &[u8; 32],
) -> Result<(), AllocError> {
    let name = hex::encode(names.alloc, &hash[..NAME_BYTES])?;
    if names.hash(chain, name.as_str()) == Some(*hash) {
        text.push_str(name.as_str())
    } else {
        push_hex(text, hash)
    }
}

fn push_stored(
    text: &mut String,
    config: &Config,
    names: &SetNames,
    client: usize,
    height: Height,
    record: &Record,
) -> Result<(), AllocError> {
    let id = client_name(config, client);
    write!(text, "stored\", client = \"{id}\", height = {height}")?;
    push_time_and_root(text, record)?;
    text.push_str(", next = \"")?;
    push_set_reference(text, names, tracked_by(config, client), record.next())?;
    text.push_str("\"")
}

/// The chain that a client tracks.
fn tracked_by(config: &Config, client: usize) -> usize {
    match config.clients.get(client) {
        Some(client) => client.tracks,
        None => 0,
    }
}

/// Adds the beginning of a packet's event.
fn push_packet(
    text: &mut String,
    config: &Config,
    kind: &str,
    path: usize,
    sequence: Sequence,
) -> Result<(), AllocError> {
    let path = path_name(config, path);
    write!(text, "{kind}\", path = \"{path}\", seq = {sequence}")
}

/// Adds the height of a block, and its time, where that is told.
fn push_block(text: &mut String, block: Block) -> Result<(), AllocError> {
    push_height(text, block.height)?;
    match block.time {
        Some(time) => push_time(text, "time", time),
        None => Ok(()),
    }
}

fn push_height(text: &mut String, block: BlockHeight) -> Result<(), AllocError> {
    let height = block.height();
    write!(text, ", height = {height}")
}

fn push_time(text: &mut String, key: &str, time: Moment) -> Result<(), AllocError> {
    let time = clock_at(time);
    write!(text, ", {key} = \"{time}Z\"")
}

/// Adds when a packet expires, where it does.
fn push_timeouts(
    text: &mut String,
    height: Option<Height>,
    time: Option<Moment>,
) -> Result<(), AllocError> {
    if let Some(height) = height {
        write!(text, ", timeout_height = {height}")?;
    }
    match time {
        Some(time) => push_time(text, "timeout_time", time),
        None => Ok(()),
    }
}
