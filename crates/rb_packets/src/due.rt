//! A packet message that is due, and what a node is asked for it.
ghost use Rattle.std.specs.Prelude.{◌≡◌, IfOk, string_bytes};
ghost use Rattle.rb_packets.specs.Packets.{packet_view};
ghost use Rattle.rb_packets.specs.Claims.{claim_view};
ghost use Rattle.rb_packets.specs.Messages.{asked_of, claim_of, due_view, file_of, packet_of};

use crate::asking::{file_name, query_of};
use crate::claim::Claim;
use crate::ends::Ends;
use crate::facts::PacketFacts;
use crate::packet::ChannelPacket;
use rb_import_answers::RevisionHeight;
use rb_scan::{Kind, Order};
use std::alloc::{AllocError, Global};

/// A message that is due: what it does, on a channel of this order and between these ends, for the packet of a sequence, of
/// which this is known; the app hash of the consensus state that its proof is judged by, and that one's height.
#[derive(Clone, Copy)]
pub struct DueMessage<'a> {
    pub kind: Kind,
    pub order: Order,
    pub ends: Ends,
    pub sequence: u64,
    pub facts: &'a PacketFacts,
    pub app_hash: [u8; 32],
    pub proof_height: RevisionHeight,
}

/// The packet of a message (ICS 4).
pub(crate) fn packet_of<'d>(due: &'d DueMessage<'_>) -> ChannelPacket<'d>
    ensures { packet_view result ≡ packet_of (due_view due.entry.now) }
{
    ChannelPacket {
        sequence: due.sequence,
        source_port: due.ends.source.port.as_str(),
        source_channel: due.ends.source.channel.as_str(),
        dest_port: due.ends.dest.port.as_str(),
        dest_channel: due.ends.dest.channel.as_str(),
        data: due.facts.data.as_slice(),
        timeout_height: due.facts.timeout_height,
        timeout_time: due.facts.timeout_time,
    }
}

/// What a message claims of its packet (ICS 4): of a timeout on an ORDERED channel that the packet is awaited.
pub(crate) fn claim_of<'d>(due: &'d DueMessage<'_>) -> Claim<'d>
    ensures { claim_view result ≡ claim_of (due_view due.entry.now) }
{
    match (due.kind, due.order) {
        (Kind::Receive, _) => Claim::Sent,
        (Kind::Acknowledge, _) => Claim::Acknowledged(due.facts.acknowledgement.as_slice()),
        (Kind::Timeout, Order::Ordered) => Claim::Awaited,
        (Kind::Timeout, Order::Unordered) => Claim::Unreceived,
    }
}

/// Where the answer that proves a message is kept in the folder of its path, and what a node is asked for it.
#[derive(Drop)]
pub struct ProofRequest {
    pub file: String,
    pub query: String,
}

/// The request for the proof of a message.
pub fn request_of(alloc: Global, due: &DueMessage<'_>) -> Result<ProofRequest, AllocError>
    ensures file { IfOk result (λ request. string_bytes request.file ≡ file_of (due_view due.now)) }
    ensures query { IfOk result (λ request. string_bytes request.query ≡ asked_of (due_view due.now)) }
{
    let packet = packet_of(due);
    let claim = claim_of(due);
    let height = due.proof_height.height;
    let file = file_name(alloc, &packet, &claim, height)?;
    let query = query_of(alloc, &packet, &claim, height)?;
    Ok(ProofRequest { file, query })
}
