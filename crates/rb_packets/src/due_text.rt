//! The text of a packet message, by the answer that proves it.
ghost use Rattle.std.specs.Prelude.{◌≡◌, ◌⊎◌, Ok, Err, IfOk, IfErr, string_bytes};
ghost use Rattle.rb_packets.specs.Claims.{claim_view};
ghost use Rattle.rb_packets.specs.MessageTexts.{action_view};
ghost use Rattle.rb_packets.specs.Messages.{IsProven, action_of, due_view, message_of};
ghost use Rattle.rb_packets.specs.declared.error.PacketError.TheVariants.{NoMemory};

use crate::claim::Claim;
use crate::due::{DueMessage, claim_of, packet_of};
use crate::error::PacketError;
use crate::judging::judge;
use crate::message::{Action, PacketMessage, packet_message_text};
use std::alloc::Global;

/// The text of a message that is due and that an account signs, by an answer, which has to prove it.
#[tactic(auto, using(crate::proofs::ProvenTexts::proven))]
pub fn message_text(
    alloc: Global,
    due: &DueMessage<'_>,
    signer: &str,
    answer: &[u8],
) -> Result<String, PacketError>
    ensures message { IfOk result (λ text. message_of (due_view due.now) signer.now answer.now ≡ Ok (string_bytes text)) }
    ensures proven { IfOk result (λ text. IsProven (due_view due.now) signer.now answer.now (string_bytes text)) }
    ensures refused { IfErr result (λ e. (e ≡ NoMemory) ⊎ (message_of (due_view due.now) signer.now answer.now ≡ Err e)) }
{
    let packet = packet_of(due);
    let claim = claim_of(due);
    let proven = judge(alloc, &due.app_hash, &packet, &claim, answer)?;
    let message = PacketMessage {
        action: action_of(&claim, proven.next),
        packet,
        proof: proven.proof.as_slice(),
        proof_height: due.proof_height,
        signer,
    };
    Ok(packet_message_text(alloc, &message)?)
}

/// What a message does whose claim is proved, this being the sequence that is received next.
fn action_of<'c>(claim: &Claim<'c>, next: u64) -> Action<'c>
    ensures { action_view result ≡ action_of (claim_view claim.now) next }
{
    match *claim {
        Claim::Sent => Action::Receive,
        Claim::Acknowledged(acknowledgement) => Action::Acknowledge(acknowledgement),
        Claim::Unreceived | Claim::Awaited => Action::Timeout(next),
    }
}
