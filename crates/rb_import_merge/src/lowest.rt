//! Of several events of one kind and sequence the one of the lowest block.
ghost use Rattle.std.specs.Prelude.{◌≡◌, ◌+◌, ◌<◌, ℕ, false, All, Any, IfOk, IfErr, IsTrue, OnOk, Contains, length, slice_index_or};
ghost use Rattle.std.specs.List.{IsDistinct, dedup};
ghost use Rattle.std.specs.List.Sorted.{IsPermutation, IsSorted, IsStrictlySortedBy};
ghost use Rattle.rb_import_check.specs.Errors.{IsToldOf};
ghost use Rattle.rb_import_merge.specs.Packets.{StandsFor, are_of_one, place_of};
ghost use Rattle.rb_import_merge.specs.Lowest.{AreEqualSendings, AreTwoOf, AreTwoSendings, block_cmp, packet_cmp};

use crate::packets::SeenPacket;
use rb_import_answers::PacketKind;
use rb_import_check::{CheckErrorName, ImportError};
use std::alloc::AllocError;

/// Of several events of one kind and sequence the one of the lowest block, by kind and sequence; two that
/// tell of one sending and differ are refused.
pub fn lowest_of<'a>(
    id: &'a str,
    packets: Vec<SeenPacket<'a>>,
) -> Result<Vec<SeenPacket<'a>>, ImportError<'a>>
    ensures among { IfOk result (λ lowest. All (Contains packets.entry.items) lowest.items) }
    ensures standing { IfOk result (λ lowest. All (λ p. Any (StandsFor p.event.now) lowest.items) packets.entry.items) }
    ensures once { IfOk result (λ lowest. IsDistinct are_of_one lowest.items) }
    ensures order { IfOk result (λ lowest. IsStrictlySortedBy packet_cmp lowest.items) }
    ensures refused { IfErr result (AreTwoOf packets.entry.items) }
    ensures told { IfErr result (IsToldOf id.entry.now) }
{
    let sorted = in_order(packets)?;
    judge_sendings(id, sorted.as_slice())?;
    Ok(firsts_of(sorted))
}

/// These packets by kind, sequence and block.
fn in_order<'a>(packets: Vec<SeenPacket<'a>>) -> Result<Vec<SeenPacket<'a>>, AllocError>
    ensures same { IfOk result (λ sorted. IsPermutation packets.entry.items sorted.items) }
    ensures order { IfOk result (λ sorted. IsSorted block_cmp sorted.items) }
{
    let mut sorted = packets;
    sorted.sort_by_key(|seen: &SeenPacket| {
        (
            place_of(seen.event.kind),
            seen.event.sequence,
            seen.event.block.get(),
        )
    })?;
    Ok(sorted)
}

/// The place of a kind in the order of a packet's way.
pub fn place_of(kind: PacketKind) -> u8
    ensures { result ≡ place_of kind }
{
    match kind {
        PacketKind::Sent => 0,
        PacketKind::Received => 1,
        PacketKind::AckWritten => 2,
        PacketKind::Cleared => 3,
        PacketKind::TimedOut => 4,
    }
}

/// The first packet of each run of one kind and sequence.
fn firsts_of<'a>(packets: Vec<SeenPacket<'a>>) -> Vec<SeenPacket<'a>>
    ensures { result.items ≡ dedup are_of_one packets.entry.items }
{
    let mut firsts = packets;
    firsts.dedup_by_key(|seen: &mut SeenPacket| (place_of(seen.event.kind), seen.event.sequence));
    firsts
}

/// Refuses neighbours that tell of one sending and differ.
fn judge_sendings<'a>(id: &'a str, packets: &[SeenPacket<'a>]) -> Result<(), ImportError<'a>>
    ensures equal { OnOk result ((k : ℕ) (d : SeenPacket) → k + 1 < length packets.now → AreEqualSendings (slice_index_or packets.now k d) (slice_index_or packets.now (k + 1) d)) }
    ensures refused { IfErr result (AreTwoOf packets.now) }
    ensures told { IfErr result (IsToldOf id.entry.now) }
{
    for place in 1..packets.len() {
        let lower = &packets[place - 1];
        let seen = &packets[place];
        if !are_equal(lower, seen) {
            let name = CheckErrorName::TwoAnswers;
            let sequence = seen.event.sequence;
            return Err(ImportError::between(name, id, sequence, lower.file, seen.file));
        }
    }
    Ok(())
}

/// Whether two events that tell of one sending are equal.
fn are_equal(packet: &SeenPacket, other: &SeenPacket) -> bool
    ensures equal { IsTrue result → AreEqualSendings packet.now other.now }
    ensures differ { result ≡ false → AreTwoSendings packet.now other.now }
{
    match (packet.event.kind, other.event.kind) {
        (PacketKind::Sent, PacketKind::Sent) => {
            packet.event.sequence != other.event.sequence
                || packet.event.block == other.event.block
                    && packet.event.timeout_height.revision == other.event.timeout_height.revision
                    && packet.event.timeout_height.height == other.event.timeout_height.height
                    && packet.event.timeout_time == other.event.timeout_time
        }
        _ => true,
    }
}
