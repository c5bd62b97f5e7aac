//! What a packet message claims.
ghost use Rattle.std.specs.Prelude.{◌≡◌, IfOk, string_bytes};
ghost use Rattle.rb_packets.specs.Packets.{packet_view};
ghost use Rattle.rb_packets.specs.Claims.{claim_view, key_of};

use crate::packet::ChannelPacket;
use rb_ics23::{acknowledgement_path, commitment_path, next_sequence_path, receipt_path};
use std::alloc::{AllocError, Global};

/// What a message claims of a packet (ICS 4).
#[derive(Clone, Copy, Debug)]
pub enum Claim<'a> {
    /// Its source has the commitment to it (`recvPacket`).
    Sent,
    /// Its destination has the commitment to this acknowledgement (`acknowledgePacket`).
    Acknowledged(&'a [u8]),
    /// Its destination has no receipt of it (`timeoutPacket` of an UNORDERED channel).
    Unreceived,
    /// Its destination receives it next, or a packet before it (`timeoutPacket` of an ORDERED channel).
    Awaited,
}

/// The key that a claim is about (ICS 24), in the store of the chain that the packet comes from, or goes to.
pub fn key_of(alloc: Global, packet: &ChannelPacket, claim: &Claim) -> Result<String, AllocError>
    ensures { IfOk result (λ key. string_bytes key ≡ key_of (packet_view packet.now) (claim_view claim.now)) }
{
    let sequence = packet.sequence;
    let (port, channel) = (packet.dest_port, packet.dest_channel);
    match claim {
        Claim::Sent => commitment_path(alloc, packet.source_port, packet.source_channel, sequence),
        Claim::Acknowledged(_) => acknowledgement_path(alloc, port, channel, sequence),
        Claim::Unreceived => receipt_path(alloc, port, channel, sequence),
        Claim::Awaited => next_sequence_path(alloc, port, channel),
    }
}
