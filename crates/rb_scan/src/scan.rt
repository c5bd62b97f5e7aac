//! The messages that a path owes.
ghost use Rattle.std.specs.Prelude.{◌≡◌, ◌≤◌, ◌++◌, IfOk, OnOk, map, filter_map, length, drop, is_some};
ghost use Rattle.std.specs.List.{prefix_len, flat_map};
ghost use Rattle.std.specs.Option.{some_prefix};
ghost use Rattle.rb_scan.specs.Path.{IsPath};
ghost use Rattle.rb_scan.specs.Owed.{message_of, packet_at, sequences_from, is_done, open_messages, messages, owed_part, owed};

use crate::message::{Kind, PacketMsg};
use crate::packet::Packet;
use crate::path::{Order, PathView};
use rb_base::Part;
use std::alloc::{AllocError, Allocator};

/// The messages of one part that a path owes (ICS 4): for the packets the receives, for the channel
/// the acknowledgements, then the timeouts, each by rising sequence.
pub fn owed_part<A: Allocator + Copy>(
    view: &PathView<A>,
    part: Part,
) -> Result<Vec<PacketMsg, A>, AllocError>
    ensures { IfOk result (λ list. list.items ≡ owed_part view.now part) }
{
    match part {
        Part::Packets => list(view, &[Kind::Receive]),
        Part::Channel => list(view, &[Kind::Acknowledge, Kind::Timeout]),
    }
}

/// The messages of both parts that a path owes: receives, acknowledgements and timeouts, each by
/// rising sequence.
pub fn owed<A: Allocator + Copy>(view: &PathView<A>) -> Result<Vec<PacketMsg, A>, AllocError>
    ensures { IfOk result (λ list. list.items ≡ owed view.now) }
{
    list(view, &[Kind::Receive, Kind::Acknowledge, Kind::Timeout])
}

/// The messages of these kinds.
fn list<A: Allocator + Copy>(
    view: &PathView<A>,
    kinds: &[Kind],
) -> Result<Vec<PacketMsg, A>, AllocError>
    ensures { IfOk result (λ list. list.items ≡ flat_map (messages view.now) kinds.now) }
{
    let mut list = Vec::new(view.allocator());
    for kind in kinds {
        append(view, *kind, &mut list)?;
    }
    Ok(list)
}

/// Puts the messages of a kind to the end of a list.
fn append<A: Allocator>(
    view: &PathView<A>,
    kind: Kind,
    list: &mut Vec<PacketMsg, A>,
) -> Result<(), AllocError>
    ensures { OnOk result (list.new.items ≡ list.old.items ++ messages view.now kind) }
{
    for packet in candidates(view, kind) {
        if let Some(message) = view.message_of(kind, packet) {
            list.push(message)?;
        }
    }
    Ok(())
}

/// The packets that can have a message of a kind owed: no message of that kind is owed for another.
fn candidates<A: Allocator>(view: &PathView<A>, kind: Kind) -> &[Packet]
    ensures { filter_map (message_of view.now.destination kind) result.now ≡ messages view.now kind }
{
    if view.is_closed() {
        return &[];
    }
    match view.order() {
        Order::Unordered => view.packets(),
        Order::Ordered => run(view, kind),
    }
}

/// The packets for which an ORDERED path owes a message of a kind.
fn run<A: Allocator>(view: &PathView<A>, kind: Kind) -> &[Packet]
    ensures { filter_map (message_of view.now.destination kind) result.now ≡ open_messages Order.Ordered view.now kind }
{
    let waiting = waiting(view, kind);
    match kind {
        Kind::Receive | Kind::Acknowledge => &waiting[..owed_count(view, kind, waiting)],
        Kind::Timeout => &waiting[..waiting.len().min(1)],
    }
}

/// The packets of consecutive sequences from the least on that waits for a message of a kind.
fn waiting<A: Allocator>(view: &PathView<A>, kind: Kind) -> &[Packet]
    ensures packets { let packets = some_prefix (map (packet_at view.now) (sequences_from view.now view.now.first))
        in result.now ≡ drop (prefix_len (is_done kind) packets) packets }
    ensures path { IsPath view.now }
{
    let unbroken = unbroken(view);
    &unbroken[done_count(unbroken, kind)..]
}

/// The packets of consecutive sequences from the path's first on.
fn unbroken<A: Allocator>(view: &PathView<A>) -> &[Packet]
    ensures packets { result.now ≡ some_prefix (map (packet_at view.now) (sequences_from view.now view.now.first)) }
    ensures path { IsPath view.now }
{
    let packets = view.packets();
    let mut next = view.first().get();
    for (index, packet) in packets.iter().enumerate() {
        if packet.sequence().get() != next {
            return &packets[..index];
        }
        next += 1;
    }
    packets
}

/// How many packets at the front wait for no message of a kind any more.
fn done_count(packets: &[Packet], kind: Kind) -> usize
    ensures value { result ≡ prefix_len (is_done kind) packets.now }
    ensures within { result ≤ length packets.now }
{
    packets
        .iter()
        .take_while(|packet| packet.is_done(kind))
        .count()
}

/// How many packets at the front have a message of a kind owed.
fn owed_count<A: Allocator>(view: &PathView<A>, kind: Kind, packets: &[Packet]) -> usize
    ensures value { result ≡ prefix_len (λ p. is_some (message_of view.now.destination kind p)) packets.now }
    ensures within { result ≤ length packets.now }
{
    packets
        .iter()
        .take_while(|packet| view.message_of(kind, packet).is_some())
        .count()
}
