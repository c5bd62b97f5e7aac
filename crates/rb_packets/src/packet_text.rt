//! A packet as JSON (ibc-go, `Packet`).
ghost use Rattle.std.specs.Prelude.{◌≡◌, ◌++◌, OnOk, string_bytes};
ghost use Rattle.rb_script_text.specs.Json.{json_text, more_text};
ghost use Rattle.rb_packets.specs.Packets.{packet_view};
ghost use Rattle.rb_packets.specs.PacketTexts.{data_members, dest_members, packet_json, source_members};

use crate::packet::ChannelPacket;
use crate::values::{push_bytes, push_height, push_number};
use rb_script_text::push_text;
use std::alloc::AllocError;

/// Adds a packet.
#[tactic(auto, unfolding(crate::specs::PacketTexts::packet_json))]
pub(crate) fn push_packet(text: &mut String, packet: &ChannelPacket) -> Result<(), AllocError>
    ensures { OnOk result (string_bytes text.new ≡ string_bytes text.old ++ json_text (packet_json (packet_view packet.now))) }
{
    text.push_str("{")?;
    push_number(text, false, "sequence", packet.sequence)?;
    push_source(text, packet)?;
    text.push_str("}")
}

/// Adds the source, and what stands behind it.
#[tactic(auto, unfolding(crate::specs::PacketTexts::source_members))]
fn push_source(text: &mut String, packet: &ChannelPacket) -> Result<(), AllocError>
    ensures { OnOk result (string_bytes text.new ≡ string_bytes text.old ++ more_text (source_members (packet_view packet.now))) }
{
    push_text(text, true, "source_port", packet.source_port)?;
    push_text(text, true, "source_channel", packet.source_channel)?;
    push_dest(text, packet)
}

/// Adds the destination, and what stands behind it.
#[tactic(auto, unfolding(crate::specs::PacketTexts::dest_members))]
fn push_dest(text: &mut String, packet: &ChannelPacket) -> Result<(), AllocError>
    ensures { OnOk result (string_bytes text.new ≡ string_bytes text.old ++ more_text (dest_members (packet_view packet.now))) }
{
    push_text(text, true, "destination_port", packet.dest_port)?;
    push_text(text, true, "destination_channel", packet.dest_channel)?;
    push_data(text, packet)
}

/// Adds the data and the timeouts.
#[tactic(auto, unfolding(crate::specs::PacketTexts::data_members))]
fn push_data(text: &mut String, packet: &ChannelPacket) -> Result<(), AllocError>
    ensures { OnOk result (string_bytes text.new ≡ string_bytes text.old ++ more_text (data_members (packet_view packet.now))) }
{
    push_bytes(text, "data", packet.data)?;
    push_height(text, "timeout_height", packet.timeout_height)?;
    push_number(text, true, "timeout_timestamp", packet.timeout_time)
}
