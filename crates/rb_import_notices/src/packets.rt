//! Notices of packets that are left out, since answers on them are lacking.
ghost use Rattle.std.specs.Prelude.{◌≡◌, ◌++◌, OnOk, map};
ghost use Rattle.rb_import_notices.specs.Packets.{answer_of, more_packets, packet_left_out, packets_left_out, told_of};

use crate::notice::Notice;
use rb_import_check::{Saved, SavedAnswers};
use rb_import_merge::{LeftOutPacket, PacketLack, SeenSetup, answers_at};
use std::alloc::AllocError;

/// The most packets of a path that are told one by one.
const MAX_TOLD: usize = 100;

/// The name of a notice of what a packet lacks.
pub fn lack_name(lack: PacketLack) -> &'static str {
    match lack {
        PacketLack::Send => "MissingSend",
        PacketLack::Receive => "MissingReceive",
        PacketLack::Receipt => "MissingReceipt",
    }
}

/// What a packet lacks, in words.
pub fn lack_words(lack: PacketLack) -> &'static str {
    match lack {
        PacketLack::Send => "no answer has the packet's send_packet",
        PacketLack::Receive => "no answer has the packet's recv_packet",
        PacketLack::Receipt => "no answer tells whether the packet was received",
    }
}

/// What to fetch for a packet that lacks this.
pub fn lack_remedy(lack: PacketLack) -> &'static str {
    match lack {
        PacketLack::Send => {
            "/tx_search with it (where the node keeps it no more, set the path's `first` above the packet)"
        }
        PacketLack::Receive => "/tx_search with it",
        PacketLack::Receipt =>
            "unreceived_packets of the destination, with this packet among them,",
    }
}

/// Adds the packets of the path at a place that are left out and told one by one.
pub fn add_packets(
    answers: &SavedAnswers,
    seen: &SeenSetup<'_>,
    path: usize,
    list: &mut Vec<Notice>,
) -> Result<(), AllocError>
    ensures { OnOk result (list.new.items ≡ list.old.items ++ packets_left_out answers.now seen.now path) }
{
    let saved = answers_at(&answers.paths, path);
    match seen.paths.get(path) {
        Some(of) => add_each(saved, path, told_of(of.left_out.as_slice()), list),
        None => Ok(()),
    }
}

/// Those of these packets that are told one by one.
#[tactic(auto, using(std::proofs::lemmas::List::take_min))]
fn told_of<'a, 'b>(packets: &'b [LeftOutPacket<'a>]) -> &'b [LeftOutPacket<'a>]
    ensures { result.now ≡ told_of packets.now }
{
    let many = MAX_TOLD.min(packets.len());
    &packets[..many]
}

/// Adds these packets of a path with these answers.
fn add_each(
    saved: &[Saved],
    path: usize,
    packets: &[LeftOutPacket<'_>],
    list: &mut Vec<Notice>,
) -> Result<(), AllocError>
    ensures { OnOk result (list.new.items ≡ list.old.items ++ map (packet_left_out saved.now path) packets.now) }
{
    for packet in packets {
        list.push(packet_left_out(saved, path, packet))?;
    }
    Ok(())
}

/// The notice of a packet of a path with these answers.
fn packet_left_out(saved: &[Saved], path: usize, packet: &LeftOutPacket<'_>) -> Notice
    ensures { result ≡ packet_left_out saved.now path packet.now }
{
    Notice::PacketLeftOut {
        path,
        sequence: packet.sequence,
        lack: packet.lack,
        answer: answer_of(saved, packet.file),
    }
}

/// The place of the answer of this file.
fn answer_of(saved: &[Saved], file: &str) -> Option<usize>
    ensures { result ≡ answer_of saved.now file.now }
{
    saved.iter().position(|one| one.file.as_str() == file)
}

/// The path at a place, where more packets of it are left out than are told one by one.
pub fn more_packets(seen: &SeenSetup<'_>, path: usize) -> Option<Notice>
    ensures { result ≡ more_packets seen.now path }
{
    let left_out = seen.paths.get(path)?.left_out.as_slice();
    let next = left_out.get(MAX_TOLD)?;
    Some(Notice::MorePackets {
        path,
        packets: left_out.len().saturating_sub(MAX_TOLD),
        first: next.sequence,
    })
}
