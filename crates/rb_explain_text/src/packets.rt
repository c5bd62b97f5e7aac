//! Packet messages as text, those of one kind and path together.
use crate::moments::push_time;
use crate::steps::push_count;
use rb_explain::{ClientExplanation, Stay, WaitingMessage};
use rb_plan_client::Message;
use rb_scan::Kind;
use rb_script_text::{path_name, push_comma};
use rb_script_types::{Config, Goal, Version};
use rb_super_turn::Outcome;
use std::alloc::{AllocError, Global};

/// So many sequences are told of neighbours of one kind and path.
const MOST_SEQUENCES: usize = 8;

fn kind_words(kind: Kind) -> &'static str {
    match kind {
        Kind::Receive => "receive",
        Kind::Acknowledge => "acknowledgement",
        Kind::Timeout => "timeout",
    }
}

/// The packets of messages, with their paths.
pub(crate) fn packets_of(
    alloc: Global,
    messages: &[Message],
) -> Result<Vec<WaitingMessage>, AllocError> {
    let mut packets = Vec::with_capacity(alloc, messages.len())?;
    for message in messages {
        packets.push(WaitingMessage {
            path: message.path(),
            packet: message.packet(),
            presses: None,
            stays: None,
        })?;
    }
    Ok(packets)
}

/// Whether two messages are of one kind and path.
fn are_alike(message: &WaitingMessage, other: &WaitingMessage) -> bool {
    message.path == other.path && message.packet.kind == other.packet.kind
}

/// The messages from a place on that are of one kind and path; none where those before them are, too.
fn run_at(messages: &[WaitingMessage], place: usize) -> Option<&[WaitingMessage]> {
    let (before, rest) = messages.split_at(place.min(messages.len()));
    let first = rest.first()?;
    match before.last() {
        Some(last) if are_alike(last, first) => None,
        _ => {
            let length = rest
                .iter()
                .take_while(|message| are_alike(first, message))
                .count();
            let (run, _) = rest.split_at(length.min(rest.len()));
            Some(run)
        }
    }
}

/// Adds messages that are alike: how many there are, of which kind and path, and their sequences.
fn push_run(
    text: &mut String,
    config: &Config,
    messages: &[WaitingMessage],
) -> Result<(), AllocError> {
    let Some(first) = messages.first() else {
        return Ok(());
    };
    push_count(text, messages.len(), kind_words(first.packet.kind))?;
    let path = path_name(config, first.path);
    write!(text, " of {path} (")?;
    for (place, message) in messages.iter().take(MOST_SEQUENCES).enumerate() {
        push_comma(text, place > 0)?;
        write!(text, "{}", message.packet.sequence)?;
    }
    text.push_str(if messages.len() > MOST_SEQUENCES {
        ", ..)"
    } else {
        ")"
    })
}

/// Adds messages: neighbours of one kind and path together.
pub(crate) fn push_messages(
    text: &mut String,
    config: &Config,
    messages: &[WaitingMessage],
) -> Result<(), AllocError> {
    for place in 0..messages.len() {
        if let Some(run) = run_at(messages, place) {
            text.push_str(if place == 0 { "" } else { "; " })?;
            push_run(text, config, run)?;
        }
    }
    Ok(())
}

/// What messages are, in lines: neighbours of one kind and path together.
pub fn message_lines(
    alloc: Global,
    config: &Config,
    messages: &[Message],
) -> Result<Vec<String>, AllocError> {
    let packets = packets_of(alloc, messages)?;
    let mut lines = Vec::new(alloc);
    for place in 0..packets.len() {
        if let Some(run) = run_at(packets.as_slice(), place) {
            let mut line = String::new(alloc);
            push_run(&mut line, config, run)?;
            lines.push(line)?;
        }
    }
    Ok(lines)
}

/// Those messages that stay for the same reason, or can go, and are ready, or aren't.
fn chosen(
    alloc: Global,
    messages: &[WaitingMessage],
    stays: Option<Stay>,
    is_ready: bool,
) -> Result<Vec<WaitingMessage>, AllocError> {
    let mut chosen = Vec::new(alloc);
    for message in messages {
        if message.stays == stays && message.presses.is_some() == is_ready {
            chosen.push(*message)?;
        }
    }
    Ok(chosen)
}

/// Adds those messages that wait for others, or for a height that was asked for.
fn push_ready(
    alloc: Global,
    text: &mut String,
    config: &Config,
    client: &ClientExplanation,
    outcome: &Outcome,
) -> Result<(), AllocError> {
    let ready = chosen(alloc, client.waiting.as_slice(), None, true)?;
    let Some(moment) = ready.iter().filter_map(|message| message.presses).min() else {
        return Ok(());
    };
    text.push_str("  waits: ")?;
    push_messages(text, config, ready.as_slice())?;
    push_end(text, config.version, client, outcome, moment)
}

/// Whether a height is asked for that must not be exceeded.
fn is_exact(outcome: &Outcome) -> bool {
    match outcome {
        Outcome::Planned(planned) => matches!(&planned.goal, Goal::Exactly(_)),
        _ => false,
    }
}

/// Adds until when messages wait: where a height is asked for, for another turn; in version 4 only where it is asked for exactly.
fn push_end(
    text: &mut String,
    version: Version,
    client: &ClientExplanation,
    outcome: &Outcome,
    moment: u128,
) -> Result<(), AllocError> {
    if version != Version::Four && client.is_asked {
        return text.push_str(" for a turn in which no height is asked for\n");
    }
    if version == Version::Four && is_exact(outcome) {
        return text.push_str(" for a turn in which no height is asked for exactly\n");
    }
    text.push_str(" until ")?;
    push_time(text, moment, client.window.until().nanoseconds())?;
    text.push_str("\n")
}

/// Adds those messages that no height proves to which the client can be brought.
fn push_unproved(
    alloc: Global,
    text: &mut String,
    config: &Config,
    client: &ClientExplanation,
) -> Result<(), AllocError> {
    let unproved = chosen(alloc, client.waiting.as_slice(), None, false)?;
    let Some(floor) = unproved.iter().map(|message| message.packet.floor).min() else {
        return Ok(());
    };
    text.push_str("  waits: ")?;
    push_messages(text, config, unproved.as_slice())?;
    writeln!(text, " for a height from {floor} on")
}

/// What keeps messages, in words.
fn stay_words(stay: Stay) -> &'static str {
    match stay {
        Stay::TooBig => "over the gas limit alone",
        Stay::Late => "timing out by the end of the window",
        Stay::Behind => "behind one that can't go",
    }
}

/// Adds those messages that can't go for a reason.
fn push_staying(
    alloc: Global,
    text: &mut String,
    config: &Config,
    client: &ClientExplanation,
    stay: Stay,
) -> Result<(), AllocError> {
    let staying = chosen(alloc, client.waiting.as_slice(), Some(stay), false)?;
    if staying.is_empty() {
        return Ok(());
    }
    text.push_str("  stays: ")?;
    push_messages(text, config, staying.as_slice())?;
    writeln!(text, ", {}", stay_words(stay))
}

/// Adds the packet messages that are owed and not sent: first those that wait for others, or for a height that was asked for, then
/// those that no height proves to which the client can be brought, then those that can't go.
pub(crate) fn push_waiting(
    alloc: Global,
    text: &mut String,
    config: &Config,
    client: &ClientExplanation,
    outcome: &Outcome,
) -> Result<(), AllocError> {
    push_ready(alloc, text, config, client, outcome)?;
    push_unproved(alloc, text, config, client)?;
    push_staying(alloc, text, config, client, Stay::TooBig)?;
    push_staying(alloc, text, config, client, Stay::Late)?;
    push_staying(alloc, text, config, client, Stay::Behind)
}
