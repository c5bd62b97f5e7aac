//! What a node is asked for the proof of a claim, and where its answer is kept.
ghost use Rattle.std.specs.Prelude.{◌≡◌, ◌-◌, IfOk, string_bytes};
ghost use Rattle.rb_packets.specs.Packets.{packet_view};
ghost use Rattle.rb_packets.specs.Asking.{file_name, kind_of, query_of, query_text};
ghost use Rattle.rb_packets.specs.Claims.{claim_view};

use crate::claim::{Claim, key_of};
use crate::packet::ChannelPacket;
use std::alloc::{AllocError, Global};

/// The query for the proof of a claim at a proof height: what the block before wrote, since the header of a height has the
/// app hash after the block before it.
#[tactic(auto, unfolding(crate::specs::Asking::query_of))]
pub fn query_of(
    alloc: Global,
    packet: &ChannelPacket,
    claim: &Claim,
    proof_height: u64,
) -> Result<String, AllocError>
    ensures { IfOk result (λ query. string_bytes query ≡ query_of (packet_view packet.now) (claim_view claim.now) proof_height) }
{
    let key = key_of(alloc, packet, claim)?;
    let digits = hex::encode(alloc, key.as_bytes())?;
    query_text(alloc, digits.as_str(), proof_height.saturating_sub(1))
}

fn query_text(alloc: Global, digits: &str, block: u64) -> Result<String, AllocError>
    ensures { IfOk result (λ query. string_bytes query ≡ query_text digits.now block) }
{
    format!(in alloc;
        "/abci_query?path=%22store/ibc/key%22&data=0x{digits}&height={block}&prove=true"
    )
}

/// The name of the file that has the answer, in the folder `proofs` of the path's: the message, the packet's sequence, and
/// the proof height.
pub fn file_name(
    alloc: Global,
    packet: &ChannelPacket,
    claim: &Claim,
    proof_height: u64,
) -> Result<String, AllocError>
    ensures { IfOk result (λ name. string_bytes name ≡ file_name (packet_view packet.now) (claim_view claim.now) proof_height) }
{
    let kind = kind_of(claim);
    let sequence = packet.sequence;
    format!(in alloc; "{kind}-{sequence}-{proof_height}.json")
}

/// The message of a claim, as reports name it.
fn kind_of(claim: &Claim) -> &'static str
    ensures { result.now ≡ kind_of (claim_view claim.now) }
{
    match claim {
        Claim::Sent => "recv",
        Claim::Acknowledged(_) => "ack",
        Claim::Unreceived | Claim::Awaited => "timeout",
    }
}
