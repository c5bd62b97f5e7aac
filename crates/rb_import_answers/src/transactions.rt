//! The answer of CometBFT's `/tx_search`: what transactions did with packets (ICS 4).
ghost use Rattle.std.specs.Prelude.{◌≡◌, ◌+◌, ◌<◌, ◌≤◌, ◌^◌, [], IfOk, map, option_map, string_bytes};
ghost use Rattle.serde_json.specs.View.{view, items_view};
ghost use Rattle.rb_import_json.specs.FieldErrors.{Reads, Gives};
ghost use Rattle.rb_import_json.specs.Fields.{object_view};
ghost use Rattle.rb_import_answers.specs.Packets.{packet_view, search_view, found, transactions, transaction, block_of, code, events, event, kind_of, of_kind, if_channels, packet, timeout, timeout_view};

use crate::attributes::Attributes;
use crate::packets::{PacketEvent, PacketKind, PacketPage, RevisionHeight};
use rb_base::Height;
use rb_import_json::{AnswerError, FieldError, FieldErrorName, Key, Object, Segment};
use serde_json::Value;
use std::alloc::Global;

/// Reads the `result` of an answer of `/tx_search`. Transactions that failed are passed over.
#[tactic(auto, using(rb_import_json::proofs::Steps::steps, crate::proofs::Counts::counted), unfolding(crate::specs::Packets::found))]
pub(crate) fn read_transactions(
    alloc: Global,
    answer: &Object<'_>,
) -> Result<PacketPage, AnswerError>
    ensures { Gives (λ p. search_view p) result (found (object_view answer.now)) }
{
    let total = answer.number(Key::TotalCount)?;
    let items = answer.items(Key::Txs)?;
    let events = read_all(alloc, items)?;
    Ok(PacketPage {
        total,
        count: items.len(),
        events,
    })
}

/// The events of packets of these transactions.
#[tactic(auto, using(rb_import_json::proofs::Steps::steps))]
fn read_all(alloc: Global, items: &[Value]) -> Result<Vec<PacketEvent>, AnswerError>
    ensures { Gives (λ v. map packet_view v.items) result (transactions 0 [] (items_view items.now)) }
{
    let mut all = Vec::new(alloc);
    for (index, value) in items.iter().enumerate() {
        let entry = Object::element(value, Segment::Transactions, index);
        read_transaction(&entry, &mut all)?;
    }
    Ok(all)
}

/// Adds the events of packets of a transaction.
#[tactic(auto, using(rb_import_json::proofs::Steps::steps), unfolding(crate::specs::Packets::transaction))]
fn read_transaction(entry: &Object<'_>, all: &mut Vec<PacketEvent>) -> Result<(), AnswerError>
    ensures { Gives (λ _. map packet_view all.new.items) result (transaction (map packet_view all.old.items) (object_view entry.now)) }
{
    let block = read_block(entry)?;
    let done = entry.inner(Key::TxResult)?;
    if read_code(&done)? == 0 {
        add_events(entry, block, done.items(Key::Events)?, all)
    } else {
        Ok(())
    }
}

/// The block that a transaction stands in, whose next height is a height too, else `BadNumber`.
#[tactic(auto, using(rb_import_json::proofs::Steps::steps), unfolding(crate::specs::Packets::block_of))]
fn read_block(entry: &Object<'_>) -> Result<Height, FieldError>
    ensures told { Reads (λ n. n) result (block_of (object_view entry.now)) }
    ensures next { IfOk result (λ n. n + 1 < 2 ^ 63) }
{
    let block = entry.height(Key::Height)?;
    if block.get() < Height::MAX {
        Ok(block)
    } else {
        Err(entry.flaw(Key::Height, FieldErrorName::BadNumber))
    }
}

/// The number of the failure of a transaction, which is 0 where there was none.
#[tactic(auto, using(rb_import_json::proofs::Steps::steps), unfolding(crate::specs::Packets::code))]
fn read_code(done: &Object<'_>) -> Result<u64, FieldError>
    ensures { Reads (λ n. n) result (code (object_view done.now)) }
{
    match done.field(Key::Code)?.as_u64() {
        Some(code) => Ok(code),
        None => Err(done.flaw(Key::Code, FieldErrorName::WrongType)),
    }
}

/// Adds those of the events that are about a packet.
#[tactic(auto, using(rb_import_json::proofs::Steps::steps))]
fn add_events(
    entry: &Object<'_>,
    block: Height,
    items: &[Value],
    all: &mut Vec<PacketEvent>,
) -> Result<(), AnswerError>
    requires { block + 1 < 2 ^ 63 }
    ensures { Gives (λ _. map packet_view all.new.items) result (events block (object_view entry.now) (map packet_view all.old.items) (items_view items.now)) }
{
    for value in items {
        let told = Object {
            value,
            part: entry.part,
            index: entry.index,
        };
        if let Some(packet) = read_event(*all.allocator(), &told, block)? {
            all.push(packet)?;
        }
    }
    Ok(())
}

/// Reads an event, if it is about a packet of a channel.
#[tactic(auto, using(rb_import_json::proofs::Steps::steps), unfolding(crate::specs::Packets::event))]
fn read_event(
    alloc: Global,
    told: &Object<'_>,
    block: Height,
) -> Result<Option<PacketEvent>, AnswerError>
    requires { block + 1 < 2 ^ 63 }
    ensures { Gives (λ o. option_map packet_view o) result (event block (object_view told.now)) }
{
    match kind_of(told.text(Key::Type)?) {
        Some(kind) => read_attributes(alloc, told, kind, block),
        None => Ok(None),
    }
}

/// The kind of an event of this type, if it is about packets (ICS 4).
fn kind_of(name: &str) -> Option<PacketKind>
    ensures { result ≡ kind_of name.now }
{
    match name {
        "send_packet" => Some(PacketKind::Sent),
        "recv_packet" => Some(PacketKind::Received),
        "write_acknowledgement" => Some(PacketKind::AckWritten),
        "acknowledge_packet" => Some(PacketKind::Cleared),
        "timeout_packet" => Some(PacketKind::TimedOut),
        _ => None,
    }
}

#[tactic(auto, using(rb_import_json::proofs::Steps::steps), unfolding(crate::specs::Packets::of_kind))]
fn read_attributes(
    alloc: Global,
    told: &Object<'_>,
    kind: PacketKind,
    block: Height,
) -> Result<Option<PacketEvent>, AnswerError>
    requires { block + 1 < 2 ^ 63 }
    ensures { Gives (λ o. option_map packet_view o) result (of_kind kind block (object_view told.now)) }
{
    let attributes = Attributes {
        alloc,
        event: *told,
        items: told.items(Key::Attributes)?,
    };
    read_channels(&attributes, kind, block)
}

/// Reads a packet, if it goes between channels.
#[tactic(auto, using(rb_import_json::proofs::Steps::steps), unfolding(crate::specs::Packets::if_channels))]
fn read_channels(
    attributes: &Attributes<'_>,
    kind: PacketKind,
    block: Height,
) -> Result<Option<PacketEvent>, AnswerError>
    requires { block + 1 < 2 ^ 63 }
    ensures { Gives (λ o. option_map packet_view o) result (if_channels kind block (object_view attributes.now.event) (items_view attributes.now.items.now)) }
{
    if attributes.are_of_clients() {
        Ok(None)
    } else {
        Ok(Some(read_packet(attributes, kind, block)?))
    }
}

#[tactic(auto, using(rb_import_json::proofs::Steps::steps), unfolding(crate::specs::Packets::packet))]
fn read_packet(
    attributes: &Attributes<'_>,
    kind: PacketKind,
    block: Height,
) -> Result<PacketEvent, AnswerError>
    requires { block + 1 < 2 ^ 63 }
    ensures { Gives (λ p. packet_view p) result (packet kind block (object_view attributes.now.event) (items_view attributes.now.items.now)) }
{
    let sequence = attributes.sequence()?;
    let source = attributes.end(Key::PacketSrcPort, Key::PacketSrcChannel)?;
    let dest = attributes.end(Key::PacketDstPort, Key::PacketDstChannel)?;
    let timeout = read_timeout(attributes, kind)?;
    Ok(PacketEvent {
        kind,
        block,
        sequence,
        source,
        dest,
        timeout_height: timeout.height,
        timeout_time: timeout.time,
    })
}

/// Until when a packet may be received.
#[derive(Clone, Copy)]
struct Timeout {
    height: RevisionHeight,
    time: u64,
}

/// The timeouts of a packet that was sent.
#[tactic(auto, using(rb_import_json::proofs::Steps::steps), unfolding(crate::specs::Packets::timeout))]
fn read_timeout(attributes: &Attributes<'_>, kind: PacketKind) -> Result<Timeout, AnswerError>
    ensures { Gives (λ t. timeout_view t) result (timeout kind (object_view attributes.now.event) (items_view attributes.now.items.now)) }
{
    match kind {
        PacketKind::Sent => {
            let height = attributes.height(Key::PacketTimeoutHeight)?;
            let time = attributes.number(Key::PacketTimeoutTimestamp)?;
            Ok(Timeout { height, time })
        }
        PacketKind::Received
        | PacketKind::AckWritten
        | PacketKind::Cleared
        | PacketKind::TimedOut => Ok(Timeout {
            height: RevisionHeight {
                revision: 0,
                height: 0,
            },
            time: 0,
        }),
    }
}
