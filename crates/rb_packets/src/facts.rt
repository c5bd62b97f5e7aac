//! What transactions tell of a packet.
ghost use Rattle.std.specs.Prelude.{◌≡◌, IfOk, IfSome, Some, map, option_map, string_bytes};
ghost use Rattle.rb_packets.specs.Facts.{AreFactsIn, IsAnswerOf, acknowledgement_in, answer_view, facts_view, is_sending, is_sent, needed_acknowledgement, packets_in, sent_event, sent_in, sent_of, sent_view, way_of};
ghost use Rattle.rb_import_answers.specs.Answers.{told};
ghost use Rattle.rb_import_answers.specs.Packets.{packet_view};
ghost use Rattle.rb_packets.specs.Events.{way_view};
ghost use Rattle.rb_script_types.specs.Channels.{end_text};

use crate::ends::Ends;
use crate::error::PacketError;
use crate::event::{PacketBytes, PacketWay};
use crate::transactions::{Transactions, read_transactions};
use rb_import_answers::{
    NodeAnswer, PacketEvent, PacketKind, PacketPage, RevisionHeight, read_answer,
};
use rb_import_json::AnswerError;
use rb_scan::Kind;
use rb_script_types::ChannelEnd;
use std::alloc::{AllocError, Global};

/// An answer to CometBFT's `/tx_search`: the events of packets, and the transactions themselves.
#[derive(Drop)]
pub struct PathAnswer {
    events: Vec<PacketEvent>,
    transactions: Transactions,
}

/// What a message needs to know of its packet: its data, its timeouts, and of an acknowledgement message its bytes.
#[derive(Drop)]
pub struct PacketFacts {
    pub data: Vec<u8>,
    pub timeout_height: RevisionHeight,
    pub timeout_time: u64,
    pub acknowledgement: Vec<u8>,
}

/// A packet as it was sent.
#[derive(Drop)]
struct SentPacket {
    data: Vec<u8>,
    timeout_height: RevisionHeight,
    timeout_time: u64,
}

/// Reads a file of a path's folder; none where it has no answer to `/tx_search`.
pub fn read_path_answer(alloc: Global, bytes: &[u8]) -> Result<Option<PathAnswer>, AllocError>
    ensures { IfOk result (λ read. IfSome read (IsAnswerOf bytes.now)) }
{
    match read_answer(alloc, bytes, 0) {
        Ok(NodeAnswer::Transactions(page)) => {
            let PacketPage { events, .. } = page;
            with_transactions(alloc, events, bytes)
        }
        Err(AnswerError::NoMemory) => Err(AllocError),
        _ => Ok(None),
    }
}

/// The events of an answer with its transactions.
fn with_transactions(
    alloc: Global,
    events: Vec<PacketEvent>,
    bytes: &[u8],
) -> Result<Option<PathAnswer>, AllocError>
    requires { packets_in (told 0 bytes.now) ≡ Some (map packet_view events.items) }
    ensures { IfOk result (λ read. IfSome read (IsAnswerOf bytes.now)) }
{
    match read_transactions(alloc, bytes)? {
        Some(transactions) => Ok(Some(PathAnswer {
            events,
            transactions,
        })),
        None => Ok(None),
    }
}

/// What these answers tell of the packet of a sequence that goes from one end to the other, as far as a message of this
/// kind needs it.
pub fn facts_of(
    alloc: Global,
    answers: &[PathAnswer],
    ends: &Ends,
    kind: Kind,
    sequence: u64,
) -> Result<PacketFacts, PacketError>
    ensures { IfOk result (λ facts. AreFactsIn kind ends.now sequence (map answer_view answers.now) (facts_view facts)) }
{
    let Some(sent) = sent_in(alloc, answers, ends, sequence)? else {
        return Err(PacketError::NoData);
    };
    let Some(acknowledgement) = needed_acknowledgement(alloc, answers, ends, kind, sequence)? else {
        return Err(PacketError::NoAcknowledgement);
    };
    Ok(PacketFacts {
        data: sent.data,
        timeout_height: sent.timeout_height,
        timeout_time: sent.timeout_time,
        acknowledgement,
    })
}

/// The acknowledgement that a message of this kind needs: one that needs none has an empty one.
fn needed_acknowledgement(
    alloc: Global,
    answers: &[PathAnswer],
    ends: &Ends,
    kind: Kind,
    sequence: u64,
) -> Result<Option<Vec<u8>>, AllocError>
    ensures { IfOk result (λ read. option_map (λ b. b.items) read ≡ needed_acknowledgement kind ends.now sequence (map answer_view answers.now)) }
{
    match kind {
        Kind::Acknowledge => acknowledgement_in(alloc, answers, ends, sequence),
        Kind::Receive | Kind::Timeout => Ok(Some(Vec::new(alloc))),
    }
}

/// The packet as the first of these answers that tells of it has it.
fn sent_in(
    alloc: Global,
    answers: &[PathAnswer],
    ends: &Ends,
    sequence: u64,
) -> Result<Option<SentPacket>, AllocError>
    ensures { IfOk result (λ read. option_map sent_view read ≡ sent_in ends.now sequence (map answer_view answers.now)) }
{
    for answer in answers {
        if let Some(sent) = sent_of(alloc, answer, ends, sequence)? {
            return Ok(Some(sent));
        }
    }
    Ok(None)
}

/// The packet as an answer has it: its timeouts from the event of its sending, its data from the transaction.
#[tactic(auto, unfolding(crate::specs::Facts::sent_of))]
fn sent_of(
    alloc: Global,
    answer: &PathAnswer,
    ends: &Ends,
    sequence: u64,
) -> Result<Option<SentPacket>, AllocError>
    ensures { IfOk result (λ read. option_map sent_view read ≡ sent_of ends.now sequence (answer_view answer.now)) }
{
    let source = end_text(alloc, ends.source)?;
    let dest = end_text(alloc, ends.dest)?;
    let Some(event) = sent_event(
        answer.events.as_slice(),
        source.as_str(),
        dest.as_str(),
        sequence,
    ) else {
        return Ok(None);
    };
    let way = way_of(ends, sequence);
    let Some(data) = answer.transactions.bytes(alloc, PacketBytes::Data, &way)? else {
        return Ok(None);
    };
    Ok(Some(SentPacket {
        data,
        timeout_height: RevisionHeight {
            revision: event.timeout_height.revision,
            height: event.timeout_height.height,
        },
        timeout_time: event.timeout_time,
    }))
}

/// An end of a channel as `port/channel`.
fn end_text(alloc: Global, end: ChannelEnd) -> Result<String, AllocError>
    ensures { IfOk result (λ text. string_bytes text ≡ end_text end) }
{
    format!(in alloc; "{end}")
}

/// The first event that tells of the sending of a packet.
fn sent_event<'e>(
    events: &'e [PacketEvent],
    source: &str,
    dest: &str,
    sequence: u64,
) -> Option<&'e PacketEvent>
    ensures { option_map (λ e. e.now) result ≡ sent_event source.now dest.now sequence events.entry.now }
{
    events
        .iter()
        .find(|event| is_sent(event, source, dest, sequence))
}

/// Whether an event tells of the sending of a packet.
fn is_sent(event: &PacketEvent, source: &str, dest: &str, sequence: u64) -> bool
    ensures { result ≡ is_sent source.now dest.now sequence event.now }
{
    is_sending(event.kind)
        && event.sequence == sequence
        && event.source.as_str() == source
        && event.dest.as_str() == dest
}

fn is_sending(kind: PacketKind) -> bool
    ensures { result ≡ is_sending kind }
{
    matches!(kind, PacketKind::Sent)
}

/// The first acknowledgement of the packet that these answers tell of.
fn acknowledgement_in(
    alloc: Global,
    answers: &[PathAnswer],
    ends: &Ends,
    sequence: u64,
) -> Result<Option<Vec<u8>>, AllocError>
    ensures { IfOk result (λ read. option_map (λ b. b.items) read ≡ acknowledgement_in ends.now sequence (map answer_view answers.now)) }
{
    let way = way_of(ends, sequence);
    for answer in answers {
        if let Some(bytes) = answer
            .transactions
            .bytes(alloc, PacketBytes::Acknowledgement, &way)?
        {
            return Ok(Some(bytes));
        }
    }
    Ok(None)
}

/// Which packet it is.
fn way_of(ends: &Ends, sequence: u64) -> PacketWay<'_>
    ensures { way_view result ≡ way_of ends.entry.now sequence }
{
    PacketWay {
        sequence,
        source_port: ends.source.port.as_str(),
        source_channel: ends.source.channel.as_str(),
        dest_port: ends.dest.port.as_str(),
        dest_channel: ends.dest.channel.as_str(),
    }
}
