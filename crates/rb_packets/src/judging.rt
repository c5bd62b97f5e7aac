//! What a node answered, judged as the client will judge it.
ghost use Rattle.std.specs.Prelude.{◌≡◌};
ghost use Rattle.rb_packets.specs.Answers.{answer_view};
ghost use Rattle.rb_packets.specs.Packets.{packet_view};
ghost use Rattle.rb_packets.specs.Claims.{claim_view};
ghost use Rattle.rb_packets.specs.Judging.{Judges, judged, judged_answer, next_in, proven_view};

use crate::answer::{StoreAnswer, read_store_answer};
use crate::claim::Claim;
use crate::packet::ChannelPacket;
use crate::proving::proves;
use crate::stored::next_sequence_in;
use rb_ics23::{MerkleProof, merkle_proof};
use std::alloc::{AllocError, AllocFailed, Global};
use std::fmt;

/// What a message has of an answer that proves its claim: the proof (ICS 23 in IBC, `MerkleProof`), and the sequence that
/// the packet's destination receives next, as a timeout tells it.
#[derive(Drop)]
pub struct Proven {
    pub proof: Vec<u8>,
    pub next: u64,
}

/// Why an answer isn't taken.
#[derive(Clone, Copy, Debug, PartialEq, Eq)]
pub enum ProofError {
    /// It isn't an answer to `/abci_query` with the two proofs of a store.
    NoProof,
    /// Its proofs don't show what the message claims.
    NotProven,
    /// A growth was refused.
    NoMemory,
}

impl fmt::Display for ProofError {
    fn fmt<W: fmt::Write>(&self, f: &mut fmt::Formatter<W>) -> fmt::Result {
        f.write_str(match self {
            ProofError::NoProof => "NoProof",
            ProofError::NotProven => "NotProven",
            ProofError::NoMemory => "no memory",
        })
    }
}

impl From<AllocError> for ProofError {
    ghost use Rattle.std.specs.Prelude.{◌≡◌};
    ghost use Rattle.rb_packets.specs.declared.judging.ProofError.TheVariants.{NoMemory};

    ghost from_gives = { λ _ e. e ≡ NoMemory };

    fn from(_: AllocError) -> Self {
        ProofError::NoMemory
    }
}

impl<T: Drop> From<AllocFailed<T>> for ProofError {
    ghost use Rattle.std.specs.Prelude.{◌≡◌};
    ghost use Rattle.rb_packets.specs.declared.judging.ProofError.TheVariants.{NoMemory};

    ghost from_gives = { λ _ e. e ≡ NoMemory };

    fn from(_: AllocFailed<T>) -> Self {
        ProofError::NoMemory
    }
}

/// Judges the bytes of an answer by the app hash of the consensus state at the proof height.
#[tactic(auto, using(crate::proofs::Refusals::refusals), unfolding(crate::specs::Judging::judged))]
pub fn judge(
    alloc: Global,
    app_hash: &[u8],
    packet: &ChannelPacket,
    claim: &Claim,
    answer: &[u8],
) -> Result<Proven, ProofError>
    ensures { Judges result (judged app_hash.now (packet_view packet.now) (claim_view claim.now) answer.now) }
{
    match read_store_answer(alloc, answer)? {
        Some(answer) => judge_answer(alloc, app_hash, packet, claim, &answer),
        None => Err(ProofError::NoProof),
    }
}

/// Judges what a node answered.
#[tactic(auto, using(crate::proofs::Refusals::refusals), unfolding(crate::specs::Judging::judged_answer))]
fn judge_answer(
    alloc: Global,
    app_hash: &[u8],
    packet: &ChannelPacket,
    claim: &Claim,
    answer: &StoreAnswer,
) -> Result<Proven, ProofError>
    ensures { Judges result (judged_answer app_hash.now (packet_view packet.now) (claim_view claim.now) (answer_view answer.now)) }
{
    if !proves(alloc, app_hash, packet, claim, answer)? {
        return Err(ProofError::NotProven);
    }
    let proof = merkle_proof(
        alloc,
        &MerkleProof {
            of_key: answer.proof.as_slice(),
            of_store: answer.store.as_slice(),
        },
    )?;
    let next = next_in(packet, claim, answer);
    Ok(Proven { proof, next })
}

/// The sequence that is received next: on an ORDERED channel by the value that is stored, else the packet's own.
fn next_in(packet: &ChannelPacket, claim: &Claim, answer: &StoreAnswer) -> u64
    ensures { result ≡ next_in (packet_view packet.now) (claim_view claim.now) (answer_view answer.now) }
{
    match claim {
        Claim::Awaited => match next_sequence_in(answer.value.as_slice()) {
            Some(next) => next,
            None => packet.sequence,
        },
        Claim::Sent | Claim::Acknowledged(_) | Claim::Unreceived => packet.sequence,
    }
}
