//! Refused events as text.
use rb_explain::{Subject, TurnExplanation};
use rb_script_text::{chain_name, client_name, path_name};
use rb_script_types::{Config, Refusal};
use rb_super_turn::{RefusedEvent, SettlementReport};
use std::alloc::AllocError;

/// Adds a turn's refused settlements, a line each.
pub(crate) fn push_settlements(
    text: &mut String,
    turn: &TurnExplanation,
) -> Result<(), AllocError> {
    for (place, settlement) in turn.report.settlements.iter().enumerate() {
        if let Some(refusal) = &settlement.refusal {
            push_refused_settlement(text, turn.turn, place, settlement, refusal)?;
        }
    }
    Ok(())
}

fn push_refused_settlement(
    text: &mut String,
    turn: usize,
    place: usize,
    settlement: &SettlementReport,
    refusal: &Refusal,
) -> Result<(), AllocError> {
    let id = settlement.id.as_str();
    let batch = settlement.batch;
    let clash = match refusal {
        Refusal::Repeat => "it was settled before",
        _ => "it isn't the open one, or has fewer transactions",
    };
    writeln!(
        text,
        "turn {turn}, settlement {place} (from 0): refused, {refusal}: batch {batch} of {id}; {clash}"
    )
}

/// Adds that a window is refused: that of a host, or the turn's.
fn push_window_back(text: &mut String, turn: usize, host: Option<&str>) -> Result<(), AllocError> {
    let refusal = Refusal::WindowBack;
    match host {
        Some(host) => write!(text, "turn {turn}: the window of {host}")?,
        None => write!(text, "turn {turn}: its window")?,
    }
    writeln!(
        text,
        " is refused, {refusal}: it begins or ends before the one in force, which stays"
    )
}

/// Adds the refused windows of a turn, a line each: those of hosts, then its own.
fn push_windows(
    text: &mut String,
    config: &Config,
    turn: &TurnExplanation,
) -> Result<(), AllocError> {
    for host in &turn.report.hosts_back {
        push_window_back(text, turn.turn, Some(chain_name(config, *host)))?;
    }
    if turn.report.window_back {
        push_window_back(text, turn.turn, None)?;
    }
    Ok(())
}

/// Adds a turn's refused windows and events, a line each.
pub(crate) fn push_refusals(
    text: &mut String,
    config: &Config,
    turn: &TurnExplanation,
) -> Result<(), AllocError> {
    let number = turn.turn;
    push_windows(text, config, turn)?;
    for refused in &turn.report.refused {
        let event = refused.event;
        write!(text, "turn {number}, event {event} (from 0): refused, ")?;
        push_refused(text, config, turn.subjects.as_slice(), refused)?;
        text.push_str("\n")?;
    }
    Ok(())
}

fn push_refused(
    text: &mut String,
    config: &Config,
    subjects: &[Subject],
    refused: &RefusedEvent,
) -> Result<(), AllocError> {
    write!(text, "{}: ", refused.refusal)?;
    match subjects.get(refused.event) {
        Some(subject) => {
            push_subject(text, config, subject)?;
            text.push_str("; ")?;
            match packet_clash(subject, refused.refusal) {
                Some(clash) => text.push_str(clash),
                None => push_clash(text, refused.refusal),
            }
        }
        None => push_clash(text, refused.refusal),
    }
}

/// The words for what an event tells of: of JSON, and of a text.
pub(crate) fn words_of(subject: &Subject) -> (&'static str, &'static str) {
    match subject {
        Subject::Set { .. } => ("set", "a set of"),
        Subject::Header { .. } => ("header", "header"),
        Subject::Stored { .. } => ("stored", "stored consensus state"),
        Subject::Sent { .. } => ("sent", "sent packet"),
        Subject::Received { .. } => ("received", "received packet"),
        Subject::AckWritten { .. } => ("ack", "acknowledgement of packet"),
        Subject::Cleared { .. } => ("cleared", "cleared packet"),
        Subject::Closed { .. } => ("closed", "closed path"),
    }
}

/// Of what an event tells: whether of a chain, a client or a path, and its identifier.
pub(crate) fn subject_of<'a>(config: &'a Config, subject: &Subject) -> (&'static str, &'a str) {
    match subject {
        Subject::Set { chain } | Subject::Header { chain, .. } => {
            ("chain", chain_name(config, *chain))
        }
        Subject::Stored { client, .. } => ("client", client_name(config, *client)),
        Subject::Sent { path, .. }
        | Subject::Received { path, .. }
        | Subject::AckWritten { path, .. }
        | Subject::Cleared { path, .. }
        | Subject::Closed { path } => ("path", path_name(config, *path)),
    }
}

/// Its height or sequence, if it has one.
pub(crate) fn number_of(subject: &Subject) -> Option<(&'static str, u64)> {
    match subject {
        Subject::Set { .. } | Subject::Closed { .. } => None,
        Subject::Header { height, .. } | Subject::Stored { height, .. } => {
            Some(("height", height.get()))
        }
        Subject::Sent { sequence, .. }
        | Subject::Received { sequence, .. }
        | Subject::AckWritten { sequence, .. }
        | Subject::Cleared { sequence, .. } => Some(("sequence", sequence.get())),
    }
}

/// Adds what an event tells of.
fn push_subject(text: &mut String, config: &Config, subject: &Subject) -> Result<(), AllocError> {
    let (_, words) = words_of(subject);
    let (_, id) = subject_of(config, subject);
    match number_of(subject) {
        Some((_, number)) => write!(text, "{words} {number} of {id}"),
        None => write!(text, "{words} {id}"),
    }
}

/// What clashes with a packet, or with a path that was closed.
fn packet_clash(subject: &Subject, refusal: Refusal) -> Option<&'static str> {
    match (subject, refusal) {
        (Subject::Sent { .. }, Refusal::OutOfOrder) => {
            Some("its sequence is below the path's first one")
        }
        (Subject::Sent { .. }, Refusal::Repeat) => Some("it was seen as sent before"),
        (Subject::Sent { .. }, Refusal::Full) => Some("the path has as many packets as may be"),
        (Subject::Received { .. }, Refusal::OutOfOrder) => Some(
            "it wasn't seen as sent; or the path is ordered, and one before it wasn't, or is neither received nor cleared",
        ),
        (Subject::Received { .. }, Refusal::Repeat) => Some("it was seen as received before"),
        (Subject::AckWritten { .. }, Refusal::OutOfOrder) => {
            Some("the packet wasn't seen as received, or only in a later block")
        }
        (Subject::AckWritten { .. }, Refusal::Repeat) => Some("it was seen before"),
        (Subject::Cleared { .. }, Refusal::OutOfOrder) => Some("it wasn't seen as sent"),
        (Subject::Cleared { .. }, Refusal::Repeat) => Some("its commitment is gone already"),
        (Subject::Closed { .. }, Refusal::Repeat) => Some("it is closed already"),
        _ => None,
    }
}

/// Adds what something that is refused clashes with.
fn push_clash(text: &mut String, refusal: Refusal) -> Result<(), AllocError> {
    match refusal {
        Refusal::UnknownSet => text.push_str(
            "the light store has no set of the hash that it gives for its own",
        ),
        Refusal::WrongVerdictCount => {
            text.push_str("its votes are more or fewer than the members of its set")
        }
        Refusal::BadVote(index) => write!(text, "its vote {index} (from 0) is bad"),
        Refusal::Conflict(height) => {
            write!(
                text,
                "the light store has another consensus state or header at height {height}"
            )
        }
        Refusal::TimeOrder(height) => {
            write!(
                text,
                "its time and that of height {height} aren't in the order of the heights"
            )
        }
        Refusal::Full => text.push_str("there is no room for more"),
        Refusal::HashClash => text.push_str("the light store has another set of this hash"),
        Refusal::UnknownObject => text.push_str("there is no such chain, client or path"),
        Refusal::Stale { front } => {
            write!(
                text,
                "it was made for an earlier view; {front} events were taken in since"
            )
        }
        Refusal::Busy => text.push_str("a batch of the client is open"),
        Refusal::Repeat => text.push_str("it was taken in already"),
        Refusal::OutOfOrder => text.push_str("its turn hasn't come, or never will"),
        Refusal::WindowBack => text.push_str("the window goes back"),
        Refusal::NotOwed => text.push_str("something that it stands on was not scanned"),
        Refusal::LogFull => text.push_str("as many events were taken in as may be"),
    }
}
