//! Packets of a path by their sequences.
ghost use Rattle.std.specs.Prelude.{◌≡◌, ◌==◌, ◌+◌, ◌≤◌, false, IfSome, nat_lt, map, find, vec_len, vec_capacity};
ghost use Rattle.std.specs.List.Sorted.{IsStrictlyIncreasing};
ghost use Rattle.std.specs.Option.{option_map_or, option_copied};
ghost use Rattle.rb_book.specs.Search.{IsKnownPlace, IsPlace};
ghost use Rattle.rb_scan.specs.Packet.{Packet, is_finished};
ghost use Rattle.rb_scan.specs.Path.{sequences_of};
ghost use Rattle.rb_core_state.specs.Marked.{mark_by};
ghost use Rattle.rb_core_model.specs.Fits.{is_settled, part_of};
ghost use Rattle.rb_core_model.specs.Standing.{marked};

use crate::mark::Mark;
use rb_scan::{Kind, Packet};
use std::alloc::Allocator;

/// The place of the packet with this sequence, where it is as far from the first packet as its sequence
/// is from the first one's: so it is where no sequence was left out.
fn place_in_turn(packets: &[Packet], sequence: u64) -> Option<usize>
    requires { IsStrictlyIncreasing (sequences_of packets.now) }
    ensures { IfSome result (IsKnownPlace (λ (p : Packet). p.sequence == sequence) packets.now) }
{
    let first = packets.first()?.sequence().get();
    let place = sequence.checked_sub(first)? as usize;
    if packets.get(place)?.sequence().get() == sequence {
        Some(place)
    } else {
        None
    }
}

/// The place of the packet with this sequence, or else the place where one belongs.
pub(crate) fn place(packets: &[Packet], sequence: u64) -> Result<usize, usize>
    requires { IsStrictlyIncreasing (sequences_of packets.now) }
    ensures { IsPlace (λ (p : Packet). p.sequence == sequence) (λ (p : Packet). nat_lt p.sequence sequence) packets.now result }
{
    if let Some(place) = place_in_turn(packets, sequence) {
        return Ok(place);
    }
    if let Some(last) = packets.last() {
        if last.sequence().get() < sequence {
            return Err(packets.len());
        }
    }
    packets.binary_search_by_key(
        &sequence,
        |packet: &Packet| -> u64
            ensures { result ≡ packet.now.sequence }
        { packet.sequence().get() },
    )
}

/// The packet with this sequence; None where there is none.
pub(crate) fn packet(packets: &[Packet], sequence: u64) -> Option<&Packet>
    requires { IsStrictlyIncreasing (sequences_of packets.now) }
    ensures { option_copied result ≡ find (λ (p : Packet). p.sequence == sequence) packets.now }
{
    let place = place(packets, sequence).ok()?;
    Some(&packets[place])
}

/// Whether there is a packet with this sequence, which is finished.
pub(crate) fn is_finished(packets: &[Packet], sequence: u64) -> bool
    requires { IsStrictlyIncreasing (sequences_of packets.now) }
    ensures { result ≡ option_map_or (λ (p : Packet). is_finished p) (find (λ (p : Packet). p.sequence == sequence) packets.now) false }
{
    match packet(packets, sequence) {
        Some(packet) => packet.is_finished(),
        None => false,
    }
}

/// Takes a packet one step on, if there is one with this sequence.
pub(crate) fn put_mark<A: Allocator>(packets: &mut Vec<Packet, A>, sequence: u64, mark: Mark)
    requires { IsStrictlyIncreasing (sequences_of packets.old.items) }
    ensures items { packets.new.items ≡ map (marked (mark_by mark) sequence) packets.old.items }
    ensures len { vec_len packets.new ≡ vec_len packets.old }
    ensures capacity { vec_capacity packets.new ≡ vec_capacity packets.old }
{
    if let Ok(place) = place(packets.as_slice(), sequence) {
        packets[place] = mark.put(packets[place]);
    }
}

fn is_receive_settled(packet: &Packet) -> bool
    ensures { result ≡ packet.now.receive_settled }
{
    *packet == packet.with_receive_settled()
}

fn is_outcome_settled(packet: &Packet) -> bool
    ensures { result ≡ packet.now.outcome_settled }
{
    *packet == packet.with_outcome_settled()
}

/// Whether a packet's message of this kind was settled.
pub(crate) fn was_settled(packet: &Packet, kind: Kind) -> bool
    ensures { result ≡ is_settled (part_of kind) packet.now }
{
    match kind {
        Kind::Receive => is_receive_settled(packet),
        Kind::Acknowledge | Kind::Timeout => is_outcome_settled(packet),
    }
}
