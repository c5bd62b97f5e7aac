//! How many packets a path takes: its first ones, by their sequences.
ghost use Rattle.std.specs.Prelude.{◌≡◌, IfOk, filter};
ghost use Rattle.rb_import_merge.specs.LeftOut.{has_room, is_sent, sent_in, surplus_of};

use crate::packets::{SeenPacket, counts_as};
use rb_import_answers::PacketKind;
use std::alloc::{AllocError, Global};

/// The most packets of a path that a script has.
pub const MAX_PACKETS: usize = 4096;

/// The packets of a path for which there is no room: how many they are, and the least sequence of theirs; and the least
/// sequence of the last 4,096 packets, from which on a path would have room for all.
#[derive(Clone, Copy)]
pub struct Surplus {
    pub count: usize,
    pub first: u64,
    pub fitting_from: u64,
}

/// For which of these packets, which stand by kind and sequence, there is no room.
pub fn surplus_of(alloc: Global, packets: &[SeenPacket<'_>]) -> Result<Option<Surplus>, AllocError>
    ensures { IfOk result (λ surplus. surplus ≡ surplus_of (sent_in packets.now)) }
{
    let sequences = sent_in(alloc, packets)?;
    Ok(surplus_in(sequences.as_slice()))
}

/// The sequences of the packets that were sent.
#[tactic(auto, using(crate::proofs::Taking::sending))]
fn sent_in(alloc: Global, packets: &[SeenPacket<'_>]) -> Result<Vec<u64>, AllocError>
    ensures { IfOk result (λ sequences. sequences.items ≡ sent_in packets.now) }
{
    let mut sequences = Vec::new(alloc);
    for seen in packets {
        if is_sent(seen) {
            sequences.push(seen.event.sequence)?;
        }
    }
    Ok(sequences)
}

/// Whether this is the event of a packet's sending.
fn is_sent(seen: &SeenPacket<'_>) -> bool
    ensures { result ≡ is_sent seen.now }
{
    counts_as(seen.event.kind, PacketKind::Sent)
}

/// For which of the packets of these rising sequences there is no room.
fn surplus_in(sequences: &[u64]) -> Option<Surplus>
    ensures { result ≡ surplus_of sequences.now }
{
    if sequences.len() <= MAX_PACKETS {
        return None;
    }
    let count = sequences.len() - MAX_PACKETS;
    Some(Surplus {
        count,
        first: sequences[MAX_PACKETS],
        fitting_from: sequences[count],
    })
}

/// Those of these packets for which there is room.
pub fn fitting_of<'a>(surplus: Option<Surplus>, packets: Vec<SeenPacket<'a>>) -> Vec<SeenPacket<'a>>
    ensures { result.items ≡ filter (λ p. has_room surplus p.event.now.sequence) packets.entry.items }
{
    let mut fitting = packets;
    fitting.retain(|seen: &SeenPacket| has_room(surplus, seen.event.sequence));
    fitting
}

/// Whether there is room for the packet of a sequence.
fn has_room(surplus: Option<Surplus>, sequence: u64) -> bool
    ensures { result ≡ has_room surplus sequence }
{
    match surplus {
        Some(surplus) => sequence < surplus.first,
        None => true,
    }
}
