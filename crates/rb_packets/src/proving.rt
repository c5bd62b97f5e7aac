//! Which answers prove a claim.
ghost use Rattle.std.specs.Prelude.{◌≡◌, IfOk};
ghost use Rattle.rb_packets.specs.Answers.{answer_view};
ghost use Rattle.rb_packets.specs.Packets.{packet_view};
ghost use Rattle.rb_packets.specs.Claims.{claim_view};
ghost use Rattle.rb_packets.specs.Proving.{is_awaited, proves};

use crate::answer::StoreAnswer;
use crate::claim::{Claim, key_of};
use crate::packet::ChannelPacket;
use crate::stored::{acknowledgement_commitment, next_sequence_in, packet_commitment};
use rb_ics23::{MerklePath, MerkleProof, shows_absent, shows_member};
use std::alloc::{AllocError, Global};

/// The name of the store of IBC (ICS 24; ibc-go).
const STORE: &[u8] = b"ibc";

/// Whether an answer proves a claim, by the app hash of the consensus state at the proof height.
#[tactic(auto, unfolding(crate::specs::Proving::proves))]
pub(crate) fn proves(
    alloc: Global,
    app_hash: &[u8],
    packet: &ChannelPacket,
    claim: &Claim,
    answer: &StoreAnswer,
) -> Result<bool, AllocError>
    ensures { IfOk result (λ proven. proven ≡ proves app_hash.now (packet_view packet.now) (claim_view claim.now) (answer_view answer.now)) }
{
    let key = key_of(alloc, packet, claim)?;
    let path = MerklePath {
        store: STORE,
        key: key.as_bytes(),
    };
    let proof = MerkleProof {
        of_key: answer.proof.as_slice(),
        of_store: answer.store.as_slice(),
    };
    match claim {
        Claim::Sent => shows_member(alloc, app_hash, &path, &packet_commitment(packet), &proof),
        Claim::Acknowledged(acknowledgement) => {
            let commitment = acknowledgement_commitment(acknowledgement);
            shows_member(alloc, app_hash, &path, &commitment, &proof)
        }
        Claim::Unreceived => shows_absent(alloc, app_hash, &path, &proof),
        Claim::Awaited => {
            let value = answer.value.as_slice();
            if is_awaited(packet.sequence, value) {
                shows_member(alloc, app_hash, &path, value, &proof)
            } else {
                Ok(false)
            }
        }
    }
}

/// Whether the sequence that is received next, by the value that is stored, is this one or one before it.
fn is_awaited(sequence: u64, value: &[u8]) -> bool
    ensures { result ≡ is_awaited sequence value.now }
{
    match next_sequence_in(value) {
        Some(next) => next <= sequence,
        None => false,
    }
}
