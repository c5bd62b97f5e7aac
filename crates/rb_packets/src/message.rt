//! The text of a packet message (ICS 4; ibc-go, `MsgRecvPacket`, `MsgAcknowledgement` and `MsgTimeout`).
ghost use Rattle.std.specs.Prelude.{◌≡◌, ◌++◌, true, codes, IfOk, OnOk, string_bytes};
ghost use Rattle.rb_script_text.specs.Json.{json_text, more_text, name_text};
ghost use Rattle.rb_packets.specs.Packets.{packet_view};
ghost use Rattle.rb_packets.specs.PacketTexts.{packet_json};
ghost use Rattle.rb_packets.specs.MessageTexts.{action_members, action_view, message_json, message_view, packet_message_text, proof_members, type_of};

use crate::packet::ChannelPacket;
use crate::packet_text::push_packet;
use crate::values::{push_bytes, push_height, push_number};
use rb_import_answers::RevisionHeight;
use rb_script_text::{push_name, push_text};
use std::alloc::{AllocError, Global};

/// What a message does: it hands the packet to its destination, or hands the acknowledgement back, or shows the source
/// that the packet wasn't received in time, and which sequence is received next.
#[derive(Clone, Copy, Debug)]
pub enum Action<'a> {
    Receive,
    Acknowledge(&'a [u8]),
    Timeout(u64),
}

/// A message: what it does with a packet, its proof (ICS 23, `MerkleProof`), the height whose consensus state the proof is
/// judged by, and the account that signs.
#[derive(Clone, Copy, Debug)]
pub struct PacketMessage<'a> {
    pub action: Action<'a>,
    pub packet: ChannelPacket<'a>,
    pub proof: &'a [u8],
    pub proof_height: RevisionHeight,
    pub signer: &'a str,
}

/// A message. The identifiers of ports and channels (ICS 24) and the account have no character that JSON escapes.
pub fn packet_message_text(alloc: Global, message: &PacketMessage) -> Result<String, AllocError>
    ensures { IfOk result (λ text. string_bytes text ≡ packet_message_text (message_view message.now)) }
{
    let mut text = String::new(alloc);
    push_message(&mut text, message)?;
    Ok(text)
}

#[tactic(auto, unfolding(crate::specs::MessageTexts::message_json))]
fn push_message(text: &mut String, message: &PacketMessage) -> Result<(), AllocError>
    ensures { OnOk result (string_bytes text.new ≡ string_bytes text.old ++ json_text (message_json (message_view message.now))) }
{
    text.push_str("{")?;
    push_text(text, false, "@type", type_of(&message.action))?;
    push_rest(text, message)?;
    text.push_str("}")
}

/// The type of a message.
fn type_of(action: &Action) -> &'static str
    ensures { result.now ≡ type_of (action_view action.now) }
{
    match action {
        Action::Receive => "/ibc.core.channel.v1.MsgRecvPacket",
        Action::Acknowledge(_) => "/ibc.core.channel.v1.MsgAcknowledgement",
        Action::Timeout(_) => "/ibc.core.channel.v1.MsgTimeout",
    }
}

/// Adds the packet, and what stands behind it.
fn push_rest(text: &mut String, message: &PacketMessage) -> Result<(), AllocError>
    ensures { OnOk result (string_bytes text.new
        ≡ string_bytes text.old ++ name_text true (codes "packet") ++ json_text (packet_json (packet_view message.now.packet)) ++ more_text (action_members (message_view message.now))) }
{
    push_name(text, true, "packet")?;
    push_packet(text, &message.packet)?;
    push_action(text, message)
}

/// Adds what stands in messages of a kind alone, and the proof.
#[tactic(auto, unfolding(crate::specs::MessageTexts::action_members))]
fn push_action(text: &mut String, message: &PacketMessage) -> Result<(), AllocError>
    ensures { OnOk result (string_bytes text.new ≡ string_bytes text.old ++ more_text (action_members (message_view message.now))) }
{
    match message.action {
        Action::Receive => push_proof(text, "proof_commitment", message),
        Action::Acknowledge(acknowledgement) => {
            push_bytes(text, "acknowledgement", acknowledgement)?;
            push_proof(text, "proof_acked", message)
        }
        Action::Timeout(next) => {
            push_number(text, true, "next_sequence_recv", next)?;
            push_proof(text, "proof_unreceived", message)
        }
    }
}

/// Adds the proof, under its name, its height, and the account that signs.
#[tactic(auto, unfolding(crate::specs::MessageTexts::proof_members))]
fn push_proof(text: &mut String, name: &str, message: &PacketMessage) -> Result<(), AllocError>
    ensures { OnOk result (string_bytes text.new ≡ string_bytes text.old ++ more_text (proof_members name.now (message_view message.now))) }
{
    push_bytes(text, name, message.proof)?;
    push_height(text, "proof_height", message.proof_height)?;
    push_text(text, true, "signer", message.signer)
}
