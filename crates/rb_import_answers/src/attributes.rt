//! The attributes of an event.
ghost use Rattle.std.specs.Prelude.{◌≡◌, ◌<◌, ◌≤◌, ◌^◌, ◌&&◌, IfOk, not, option_map, string_bytes};
ghost use Rattle.serde_json.specs.View.{view, items_view};
ghost use Rattle.rb_import_json.specs.FieldErrors.{Gives};
ghost use Rattle.rb_import_json.specs.Fields.{object_view, flaw_at};
ghost use Rattle.rb_import_answers.specs.Packets.{encoded_name, member_text, decoded, if_utf8, entry_text, attribute, attribute_number, attribute_height, sequence, end_of, is_named, is_there, are_of_clients, revision_height_of};

use crate::number::sequence_of;
use crate::packets::RevisionHeight;
use base64::DecodeAllocError;
use base64::engine::general_purpose::STANDARD;
use rb_import_json::{AnswerError, FieldErrorName, Key, Object, number_of};
use serde_json::Value;
use std::alloc::Global;

/// The base64 of an attribute's name, as it stood before CometBFT 0.37.
fn encoded_name(key: Key) -> &'static str
    ensures { result.now ≡ encoded_name key }
{
    match key {
        Key::PacketDstChannel => "cGFja2V0X2RzdF9jaGFubmVs",
        Key::PacketDstPort => "cGFja2V0X2RzdF9wb3J0",
        Key::PacketSequence => "cGFja2V0X3NlcXVlbmNl",
        Key::PacketSrcPort => "cGFja2V0X3NyY19wb3J0",
        Key::PacketSrcChannel => "cGFja2V0X3NyY19jaGFubmVs",
        Key::PacketTimeoutHeight => "cGFja2V0X3RpbWVvdXRfaGVpZ2h0",
        Key::PacketTimeoutTimestamp => "cGFja2V0X3RpbWVvdXRfdGltZXN0YW1w",
        _ => "",
    }
}

/// The attributes of an event, and the event that they belong to.
#[derive(Clone, Copy)]
pub struct Attributes<'a> {
    pub alloc: Global,
    pub event: Object<'a>,
    pub items: &'a [Value],
}

impl Attributes<'_> {
    /// The number that an attribute holds.
    #[tactic(auto, using(rb_import_json::proofs::Steps::steps), unfolding(crate::specs::Packets::attribute_number))]
    pub fn number(&self, name: Key) -> Result<u64, AnswerError>
        ensures { Gives (λ n. n) result (attribute_number name (object_view self.now.event) (items_view self.now.items.now)) }
    {
        match number_of(self.text(name)?.as_str()) {
            Some(number) => Ok(number),
            None => Err(self.flaw(name, FieldErrorName::BadNumber)),
        }
    }

    /// The height that an attribute holds, as `REVISION-HEIGHT`.
    #[tactic(auto, using(rb_import_json::proofs::Steps::steps), unfolding(crate::specs::Packets::attribute_height))]
    pub fn height(&self, name: Key) -> Result<RevisionHeight, AnswerError>
        ensures { Gives (λ h. h) result (attribute_height name (object_view self.now.event) (items_view self.now.items.now)) }
    {
        match revision_height(self.text(name)?.as_str()) {
            Some(height) => Ok(height),
            None => Err(self.flaw(name, FieldErrorName::BadNumber)),
        }
    }

    /// The packet's sequence.
    #[tactic(auto, using(rb_import_json::proofs::Steps::steps), unfolding(crate::specs::Packets::sequence))]
    pub fn sequence(&self) -> Result<u64, AnswerError>
        ensures told { Gives (λ n. n) result (sequence (object_view self.now.event) (items_view self.now.items.now)) }
        ensures range { IfOk result (λ n. (1 ≤ n) × (n < 2 ^ 63)) }
    {
        match sequence_of(self.number(Key::PacketSequence)?) {
            Some(number) => Ok(number),
            None => Err(self.flaw(Key::PacketSequence, FieldErrorName::BadNumber)),
        }
    }

    /// An end of the packet's way: the port and the channel that these attributes hold.
    #[tactic(auto, using(rb_import_json::proofs::Steps::steps), unfolding(crate::specs::Packets::end_of))]
    pub fn end(&self, port: Key, channel: Key) -> Result<String, AnswerError>
        ensures { Gives (λ t. string_bytes t) result (end_of port channel (object_view self.now.event) (items_view self.now.items.now)) }
    {
        let mut end = self.text(port)?;
        let channel = self.text(channel)?;
        end.push('/')?;
        end.push_str(channel.as_str())?;
        Ok(end)
    }

    /// Whether the packet goes between clients, as those of IBC v2 do, and not between channels.
    pub fn are_of_clients(&self) -> bool
        ensures { result ≡ are_of_clients (items_view self.now.items.now) }
    {
        self.is_there(Key::PacketSourceClient) && !self.is_there(Key::PacketSrcPort)
    }

    /// Whether an attribute of this name is there.
    fn is_there(&self, name: Key) -> bool
        ensures { result ≡ is_there name (items_view self.now.items.now) }
    {
        for item in self.items {
            if is_named(item, name) {
                return true;
            }
        }
        false
    }

    /// The text that an attribute holds, which has to be there.
    #[tactic(auto, using(rb_import_json::proofs::Steps::steps))]
    fn text(&self, name: Key) -> Result<String, AnswerError>
        ensures { Gives (λ t. string_bytes t) result (attribute name (object_view self.now.event) (items_view self.now.items.now)) }
    {
        for item in self.items {
            if let Some(text) = self.text_in(name, item)? {
                return Ok(text);
            }
        }
        Err(self.flaw(name, FieldErrorName::MissingField))
    }

    /// The text that an entry holds, if it is of this name.
    #[tactic(auto, using(rb_import_json::proofs::Steps::steps), unfolding(crate::specs::Packets::entry_text))]
    fn text_in(&self, name: Key, item: &Value) -> Result<Option<String>, AnswerError>
        ensures { Gives (λ o. option_map string_bytes o) result (entry_text name (object_view self.now.event) (view item.now)) }
    {
        let (Some(key), Some(value)) = (text_at(item, "key"), text_at(item, "value")) else {
            return Ok(None);
        };
        if key == name.name() {
            Ok(Some(String::from_str(self.alloc, value)?))
        } else if key == encoded_name(name) {
            Ok(Some(self.decoded(name, value)?))
        } else {
            Ok(None)
        }
    }

    /// The text that a value in base64 stands for.
    #[tactic(auto, using(rb_import_json::proofs::Steps::steps), unfolding(crate::specs::Packets::decoded))]
    fn decoded(&self, name: Key, value: &str) -> Result<String, AnswerError>
        ensures { Gives (λ t. string_bytes t) result (decoded name (object_view self.now.event) value.now) }
    {
        match STANDARD.decode(self.alloc, value.as_bytes()) {
            Ok(bytes) => match text_of(bytes.as_slice()) {
                Some(text) => Ok(String::from_str(self.alloc, text)?),
                None => Err(self.flaw(name, FieldErrorName::BadBase64)),
            },
            Err(DecodeAllocError::OutOfMemory) => Err(AnswerError::NoMemory),
            Err(_) => Err(self.flaw(name, FieldErrorName::BadBase64)),
        }
    }

    fn flaw(&self, name: Key, flaw: FieldErrorName) -> AnswerError
        ensures { result ≡ AnswerError.Invalid (flaw_at (object_view self.now.event) name flaw) }
    {
        AnswerError::Invalid(self.event.flaw(name, flaw))
    }
}

/// The text of these bytes, if they are UTF-8.
fn text_of(bytes: &[u8]) -> Option<&str>
    ensures { option_map (λ t. t.now) result ≡ if_utf8 bytes.now }
{
    std::str::from_utf8(bytes).ok()
}

/// Whether an attribute has this name.
fn is_named(item: &Value, name: Key) -> bool
    ensures { result ≡ is_named name (view item.now) }
{
    match text_at(item, "key") {
        Some(key) => key == name.name(),
        None => false,
    }
}

/// The text of a member of an object, if both are.
#[tactic(auto, unfolding(crate::specs::Packets::member_text))]
fn text_at<'a>(value: &'a Value, key: &str) -> Option<&'a str>
    ensures { option_map (λ t. t.now) result ≡ member_text key.now (view value.now) }
{
    value.get(key)?.as_str()
}

/// A height with the number of its revision before a dash.
#[tactic(auto, unfolding(crate::specs::Packets::revision_height_of))]
fn revision_height(text: &str) -> Option<RevisionHeight>
    ensures { result ≡ revision_height_of text.now }
{
    let (revision, height) = text.split_once('-')?;
    Some(RevisionHeight {
        revision: number_of(revision)?,
        height: number_of(height)?,
    })
}
