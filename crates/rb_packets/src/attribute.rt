//! The attributes of an event: plain, or names and values in base64, as CometBFT had them before 0.37.
ghost use Rattle.std.specs.Prelude.{◌≡◌, IfOk, option_map};
ghost use Rattle.serde_json.specs.View.{items_view, view};
ghost use Rattle.rb_packets.specs.Attributes.{attribute_bytes, attribute_at, encoded_name, hex_bytes, member_text, plain_name, value_bytes};

use crate::json::base64_bytes;
use hex::FromHexError;
use serde_json::Value;
use std::alloc::{AllocError, Global};

/// An attribute of an event on a packet (ibc-go).
#[derive(Clone, Copy, Debug, PartialEq, Eq)]
pub(crate) enum Attribute {
    Sequence,
    SourcePort,
    SourceChannel,
    DestPort,
    DestChannel,
    DataHex,
    Data,
    AcknowledgementHex,
    Acknowledgement,
}

/// The name of an attribute.
fn plain_name(attribute: Attribute) -> &'static str
    ensures { result.now ≡ plain_name attribute }
{
    match attribute {
        Attribute::Sequence => "packet_sequence",
        Attribute::SourcePort => "packet_src_port",
        Attribute::SourceChannel => "packet_src_channel",
        Attribute::DestPort => "packet_dst_port",
        Attribute::DestChannel => "packet_dst_channel",
        Attribute::DataHex => "packet_data_hex",
        Attribute::Data => "packet_data",
        Attribute::AcknowledgementHex => "packet_ack_hex",
        Attribute::Acknowledgement => "packet_ack",
    }
}

/// The base64 of the name.
fn encoded_name(attribute: Attribute) -> &'static str
    ensures { result.now ≡ encoded_name attribute }
{
    match attribute {
        Attribute::Sequence => "cGFja2V0X3NlcXVlbmNl",
        Attribute::SourcePort => "cGFja2V0X3NyY19wb3J0",
        Attribute::SourceChannel => "cGFja2V0X3NyY19jaGFubmVs",
        Attribute::DestPort => "cGFja2V0X2RzdF9wb3J0",
        Attribute::DestChannel => "cGFja2V0X2RzdF9jaGFubmVs",
        Attribute::DataHex => "cGFja2V0X2RhdGFfaGV4",
        Attribute::Data => "cGFja2V0X2RhdGE=",
        Attribute::AcknowledgementHex => "cGFja2V0X2Fja19oZXg=",
        Attribute::Acknowledgement => "cGFja2V0X2Fjaw==",
    }
}

/// The bytes of the first attribute of a name, if there is one.
pub(crate) fn attribute_bytes(
    alloc: Global,
    name: Attribute,
    items: &[Value],
) -> Result<Option<Vec<u8>>, AllocError>
    ensures { IfOk result (λ read. option_map (λ b. b.items) read ≡ attribute_bytes name (items_view items.now)) }
{
    for item in items {
        if let Some(bytes) = attribute_at(alloc, name, item)? {
            return Ok(Some(bytes));
        }
    }
    Ok(None)
}

/// The bytes of an attribute, if it is of this name.
#[tactic(auto, unfolding(crate::specs::Attributes::attribute_at))]
fn attribute_at(alloc: Global, name: Attribute, item: &Value) -> Result<Option<Vec<u8>>, AllocError>
    ensures { IfOk result (λ read. option_map (λ b. b.items) read ≡ attribute_at name (view item.now)) }
{
    let (Some(key), Some(value)) = (member_text(item, "key"), member_text(item, "value")) else {
        return Ok(None);
    };
    value_bytes(alloc, name, key, value)
}

/// The bytes of a value, if its key is of this name.
fn value_bytes(
    alloc: Global,
    name: Attribute,
    key: &str,
    value: &str,
) -> Result<Option<Vec<u8>>, AllocError>
    ensures { IfOk result (λ read. option_map (λ b. b.items) read ≡ value_bytes name key.now value.now) }
{
    if key == plain_name(name) {
        Ok(Some(Vec::from_slice(alloc, value.as_bytes())?))
    } else if key == encoded_name(name) {
        base64_bytes(alloc, value)
    } else {
        Ok(None)
    }
}

/// The bytes that hexadecimal digits write.
#[tactic(auto, unfolding(crate::specs::Attributes::hex_bytes))]
pub(crate) fn hex_bytes(alloc: Global, digits: &[u8]) -> Result<Option<Vec<u8>>, AllocError>
    ensures { IfOk result (λ read. option_map (λ b. b.items) read ≡ hex_bytes digits.now) }
{
    match hex::decode(alloc, digits) {
        Ok(bytes) => Ok(Some(bytes)),
        Err(FromHexError::OutOfMemory) => Err(AllocError),
        Err(_) => Ok(None),
    }
}

/// The text of a member of an object, if both are.
#[tactic(auto, unfolding(crate::specs::Attributes::member_text))]
pub(crate) fn member_text<'a>(value: &'a Value, name: &str) -> Option<&'a str>
    ensures { option_map (λ t. t.now) result ≡ member_text name.now (view value.now) }
{
    value.get(name)?.as_str()
}
