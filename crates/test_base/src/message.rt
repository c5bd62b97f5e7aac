//! A case of a packet message: a claim and its acknowledgement, a packet, the account that signs, the proof height, the app
//! hash there, and what a node answered.
use crate::words::Words;
use anyhow::bail;
use rb_packets::{
    Action, ChannelPacket, Claim, PacketMessage, Proven, RevisionHeight, judge, key_of,
    packet_message_text,
};
use std::alloc::Global;

/// What comes of a case of this claim.
pub fn answer(alloc: Global, claim: &str, words: &mut Words) -> anyhow::Result<String> {
    let acknowledgement = words.bytes(alloc)?;
    let claim = claim_of(claim, &acknowledgement)?;
    let sequence = words.number()?;
    let (source_port, source_channel) = (words.text()?, words.text()?);
    let (dest_port, dest_channel) = (words.text()?, words.text()?);
    let data = words.bytes(alloc)?;
    let timeout_height = height(words)?;
    let timeout_time = words.number()?;
    let packet = ChannelPacket {
        sequence,
        source_port,
        source_channel,
        dest_port,
        dest_channel,
        data: &data,
        timeout_height,
        timeout_time,
    };
    let signer = words.text()?;
    let proof_height = height(words)?;
    let app_hash = words.bytes(alloc)?;
    let answer = words.bytes(alloc)?;
    let key = key_of(alloc, &packet, &claim)?;
    match judge(alloc, &app_hash, &packet, &claim, &answer) {
        Ok(proven) => {
            let message = PacketMessage {
                action: action_of(&claim, &proven),
                packet,
                proof: proven.proof.as_slice(),
                proof_height,
                signer,
            };
            let text = packet_message_text(alloc, &message)?;
            Ok(format!(in alloc; "{key} {text}")?)
        }
        Err(error) => Ok(format!(in alloc; "{key} {error}")?),
    }
}

fn height(words: &mut Words) -> anyhow::Result<RevisionHeight> {
    Ok(RevisionHeight {
        revision: words.number()?,
        height: words.number()?,
    })
}

fn claim_of<'a>(claim: &str, acknowledgement: &'a [u8]) -> anyhow::Result<Claim<'a>> {
    match claim {
        "sent" => Ok(Claim::Sent),
        "acknowledged" => Ok(Claim::Acknowledged(acknowledgement)),
        "unreceived" => Ok(Claim::Unreceived),
        "awaited" => Ok(Claim::Awaited),
        word => bail!("no claim is {word}"),
    }
}

/// What the message of a claim does.
fn action_of<'a>(claim: &Claim<'a>, proven: &Proven) -> Action<'a> {
    match claim {
        Claim::Sent => Action::Receive,
        Claim::Acknowledged(acknowledgement) => Action::Acknowledge(acknowledgement),
        Claim::Unreceived | Claim::Awaited => Action::Timeout(proven.next),
    }
}
