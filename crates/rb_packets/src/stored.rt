//! What chains store of packets.
ghost use Rattle.std.specs.Prelude.{◌≡◌, ◌++◌, ℕ, List};
ghost use Rattle.rb_packets.specs.Packets.{acknowledgement_commitment, eight_bytes, height_bytes, next_sequence_in, packet_commitment, packet_view, timeout_bytes};

use crate::packet::ChannelPacket;
use rb_import_answers::RevisionHeight;
use sha2::{Digest, Sha256};

/// The commitment to a packet, on the chain that sent it.
pub(crate) fn packet_commitment(packet: &ChannelPacket) -> [u8; 32]
    ensures { result ≡ packet_commitment (packet_view packet.now) }
{
    let data_hash = Sha256::digest(packet.data);
    let mut hasher = Sha256::new();
    hash_timeouts(&mut hasher, packet);
    hasher.update(data_hash.as_slice());
    hasher.finalize()
}

/// Adds the timeouts of a packet to what is hashed.
fn hash_timeouts<D: Digest>(hasher: &mut D, packet: &ChannelPacket)
    ensures { (m : List ℕ) → D.holds hasher.old m → D.holds hasher.new (m ++ timeout_bytes (packet_view packet.now)) }
{
    hash_number(hasher, packet.timeout_time);
    hash_height(hasher, packet.timeout_height);
}

fn hash_height<D: Digest>(hasher: &mut D, height: RevisionHeight)
    ensures { (m : List ℕ) → D.holds hasher.old m → D.holds hasher.new (m ++ height_bytes height) }
{
    hash_number(hasher, height.revision);
    hash_number(hasher, height.height);
}

#[tactic(auto, unfolding(crate::specs::Packets::eight_bytes))]
fn hash_number<D: Digest>(hasher: &mut D, number: u64)
    ensures { (m : List ℕ) → D.holds hasher.old m → D.holds hasher.new (m ++ eight_bytes number) }
{
    hasher.update(number.to_be_bytes().as_slice());
}

/// The commitment to an acknowledgement, on the chain that received the packet.
pub(crate) fn acknowledgement_commitment(acknowledgement: &[u8]) -> [u8; 32]
    ensures { result ≡ acknowledgement_commitment acknowledgement.now }
{
    Sha256::digest(acknowledgement)
}

/// The sequence that a chain receives next on an ORDERED channel, by the value that it stores.
pub(crate) fn next_sequence_in(value: &[u8]) -> Option<u64>
    ensures { result ≡ next_sequence_in value.now }
{
    let bytes = <[u8; 8]>::try_from(value).ok()?;
    Some(u64::from_be_bytes(bytes))
}
