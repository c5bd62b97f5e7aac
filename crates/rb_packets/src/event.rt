//! The bytes that an event tells of a packet.
ghost use Rattle.std.specs.Prelude.{◌≡◌, IfOk, option_map};
ghost use Rattle.std.specs.Fmt.{decimal};
ghost use Rattle.serde_json.specs.View.{items_view, view};
ghost use Rattle.rb_packets.specs.Events.{bytes_of, ends_are, event_bytes, event_type, has_dest, has_source, hex_name, is_of_type, is_on, of_attributes, text_name, way_view};
ghost use Rattle.rb_packets.specs.Attributes.{has_attribute};

use crate::attribute::{Attribute, attribute_bytes, hex_bytes, member_text};
use serde_json::Value;
use std::alloc::{AllocError, Global};

/// Which bytes are asked for: a packet's data, as it was sent, or its acknowledgement, as it was written.
#[derive(Clone, Copy, Debug, PartialEq, Eq)]
pub enum PacketBytes {
    Data,
    Acknowledgement,
}

/// Which packet it is: its sequence, and the ends of its channel.
#[derive(Clone, Copy, Debug)]
pub struct PacketWay<'a> {
    pub sequence: u64,
    pub source_port: &'a str,
    pub source_channel: &'a str,
    pub dest_port: &'a str,
    pub dest_channel: &'a str,
}

/// The type of the event that tells of bytes (ICS 4; ibc-go).
fn event_type(asked: PacketBytes) -> &'static str
    ensures { result.now ≡ event_type asked }
{
    match asked {
        PacketBytes::Data => "send_packet",
        PacketBytes::Acknowledgement => "write_acknowledgement",
    }
}

/// The attribute that has the bytes in hexadecimal digits.
fn hex_name(asked: PacketBytes) -> Attribute
    ensures { result ≡ hex_name asked }
{
    match asked {
        PacketBytes::Data => Attribute::DataHex,
        PacketBytes::Acknowledgement => Attribute::AcknowledgementHex,
    }
}

/// The attribute that has the bytes as a text.
fn text_name(asked: PacketBytes) -> Attribute
    ensures { result ≡ text_name asked }
{
    match asked {
        PacketBytes::Data => Attribute::Data,
        PacketBytes::Acknowledgement => Attribute::Acknowledgement,
    }
}

/// The bytes that an event tells of a packet, if it does.
#[tactic(auto, unfolding(crate::specs::Events::event_bytes))]
pub(crate) fn event_bytes(
    alloc: Global,
    asked: PacketBytes,
    way: &PacketWay,
    event: &Value,
) -> Result<Option<Vec<u8>>, AllocError>
    ensures { IfOk result (λ read. option_map (λ b. b.items) read ≡ event_bytes asked (way_view way.now) (view event.now)) }
{
    if !is_of_type(asked, event) {
        return Ok(None);
    }
    let Some(list) = event.get("attributes") else {
        return Ok(None);
    };
    let Some(attributes) = list.as_array() else {
        return Ok(None);
    };
    of_attributes(alloc, asked, way, attributes.as_slice())
}

/// Whether an event is of the type that tells of bytes.
#[tactic(auto, unfolding(crate::specs::Events::is_of_type))]
fn is_of_type(asked: PacketBytes, event: &Value) -> bool
    ensures { result ≡ is_of_type asked (view event.now) }
{
    match member_text(event, "type") {
        Some(name) => name == event_type(asked),
        None => false,
    }
}

/// The bytes that attributes tell of a packet, if they are on it.
#[tactic(auto, unfolding(crate::specs::Events::of_attributes))]
fn of_attributes(
    alloc: Global,
    asked: PacketBytes,
    way: &PacketWay,
    attributes: &[Value],
) -> Result<Option<Vec<u8>>, AllocError>
    ensures { IfOk result (λ read. option_map (λ b. b.items) read ≡ of_attributes asked (way_view way.now) (items_view attributes.now)) }
{
    if is_on(alloc, way, attributes)? {
        bytes_of(alloc, asked, attributes)
    } else {
        Ok(None)
    }
}

/// The bytes that attributes have: in hexadecimal digits, or else as a text.
#[tactic(auto, unfolding(crate::specs::Events::bytes_of))]
fn bytes_of(
    alloc: Global,
    asked: PacketBytes,
    attributes: &[Value],
) -> Result<Option<Vec<u8>>, AllocError>
    ensures { IfOk result (λ read. option_map (λ b. b.items) read ≡ bytes_of asked (items_view attributes.now)) }
{
    match attribute_bytes(alloc, hex_name(asked), attributes)? {
        Some(digits) => hex_bytes(alloc, digits.as_slice()),
        None => attribute_bytes(alloc, text_name(asked), attributes),
    }
}

/// Whether attributes are on a packet.
#[tactic(auto, unfolding(crate::specs::Events::is_on))]
fn is_on(alloc: Global, way: &PacketWay, attributes: &[Value]) -> Result<bool, AllocError>
    ensures { IfOk result (λ is. is ≡ is_on (way_view way.now) (items_view attributes.now)) }
{
    let sequence = way.sequence;
    let digits = format!(in alloc; "{sequence}")?;
    if has(alloc, attributes, Attribute::Sequence, digits.as_str())? {
        ends_are(alloc, way, attributes)
    } else {
        Ok(false)
    }
}

/// Whether both ends of the channel are those of a packet.
#[tactic(auto, unfolding(crate::specs::Events::ends_are))]
fn ends_are(alloc: Global, way: &PacketWay, attributes: &[Value]) -> Result<bool, AllocError>
    ensures { IfOk result (λ is. is ≡ ends_are (way_view way.now) (items_view attributes.now)) }
{
    if has_source(alloc, way, attributes)? {
        has_dest(alloc, way, attributes)
    } else {
        Ok(false)
    }
}

#[tactic(auto, unfolding(crate::specs::Events::has_source))]
fn has_source(alloc: Global, way: &PacketWay, attributes: &[Value]) -> Result<bool, AllocError>
    ensures { IfOk result (λ is. is ≡ has_source (way_view way.now) (items_view attributes.now)) }
{
    if has(alloc, attributes, Attribute::SourcePort, way.source_port)? {
        has(
            alloc,
            attributes,
            Attribute::SourceChannel,
            way.source_channel,
        )
    } else {
        Ok(false)
    }
}

#[tactic(auto, unfolding(crate::specs::Events::has_dest))]
fn has_dest(alloc: Global, way: &PacketWay, attributes: &[Value]) -> Result<bool, AllocError>
    ensures { IfOk result (λ is. is ≡ has_dest (way_view way.now) (items_view attributes.now)) }
{
    if has(alloc, attributes, Attribute::DestPort, way.dest_port)? {
        has(alloc, attributes, Attribute::DestChannel, way.dest_channel)
    } else {
        Ok(false)
    }
}

/// Whether an attribute has this text.
#[tactic(auto, unfolding(crate::specs::Attributes::has_attribute))]
fn has(alloc: Global, attributes: &[Value], name: Attribute, text: &str) -> Result<bool, AllocError>
    ensures { IfOk result (λ is. is ≡ has_attribute name text.now (items_view attributes.now)) }
{
    match attribute_bytes(alloc, name, attributes)? {
        Some(bytes) => Ok(bytes.as_slice() == text.as_bytes()),
        None => Ok(false),
    }
}
