//! The fields of an object in an answer.
ghost use Rattle.std.specs.Prelude.{◌≡◌, None, Some, option_map};
ghost use Rattle.serde_json.specs.View.{view, items_view};
ghost use Rattle.rb_import_json.specs.FieldErrors.{Reads, Gives};

use crate::error::{AnswerError, FieldError, FieldErrorName};
use crate::field_path::{FieldPath, Key, Segment};
use crate::scalar::{
    Bytes, address_of, base64_of, bytes_of, chain_of, hash_of, height_of, key_of, moment_of,
    number_of, record_hash_of,
};
use rb_base::{ChainId, Height, Moment};
use serde_json::Value;
use std::alloc::Global;

/// An object of an answer, and where it stands: which part it is, or an element of which, from 0.
#[derive(Clone, Copy)]
pub struct Object<'a> {
    pub value: &'a Value,
    pub part: Segment,
    pub index: Option<usize>,
}

impl<'a> Object<'a> {
    ghost use Rattle.rb_import_json.specs.Fields.{object_view, flaw_at, member, has, field, inner, object, items, text, number, number_or_zero, count, height, chain, time, hex, bytes, record_hash, base64, base64_bytes};

    /// The object that is this part.
    pub fn new(value: &'a Value, part: Segment) -> Object<'a>
        ensures { object_view result ≡ record { value = view value.now; part = part; index = None } }
    {
        Object {
            value,
            part,
            index: None,
        }
    }

    /// The object that is an element of the array that is this part.
    pub fn element(value: &'a Value, part: Segment, index: usize) -> Object<'a>
        ensures { object_view result ≡ record { value = view value.now; part = part; index = Some index } }
    {
        Object {
            value,
            part,
            index: Some(index),
        }
    }

    /// The flaw of this name at a field.
    pub fn flaw(&self, key: Key, name: FieldErrorName) -> FieldError
        ensures { result ≡ flaw_at (object_view self.now) key name }
    {
        FieldError {
            name,
            place: FieldPath {
                part: self.part,
                index: self.index,
                key,
            },
        }
    }

    /// What a field holds, by its name or by that in camel case, if it is there.
    #[tactic(auto, unfolding(crate::specs::Fields::member))]
    fn member(&self, key: Key) -> Option<&'a Value>
        ensures { option_map (λ x. view x.now) result ≡ member key (view self.now.value.now) }
    {
        match self.value.get(key.name()) {
            Some(value) => Some(value),
            None => self.value.get(key.camel_name()),
        }
    }

    /// Whether a field is there.
    #[tactic(auto)]
    pub fn has(&self, key: Key) -> bool
        ensures { result ≡ has key (object_view self.now) }
    {
        self.member(key).is_some()
    }

    /// What a field holds: `MissingField` where it isn't there.
    #[tactic(auto, using(crate::proofs::Steps::steps), unfolding(crate::specs::Fields::field))]
    pub fn field(&self, key: Key) -> Result<&'a Value, FieldError>
        ensures { Reads (λ x. view x.now) result (field key (object_view self.now)) }
    {
        match self.member(key) {
            Some(value) => Ok(value),
            None => Err(self.flaw(key, FieldErrorName::MissingField)),
        }
    }

    /// What a field holds, told of at the place of this object.
    #[tactic(auto, using(crate::proofs::Steps::steps), unfolding(crate::specs::Fields::inner))]
    pub fn inner(&self, key: Key) -> Result<Object<'a>, FieldError>
        ensures { Reads (λ x. object_view x) result (inner key (object_view self.now)) }
    {
        let value = self.field(key)?;
        Ok(Object {
            value,
            part: self.part,
            index: self.index,
        })
    }

    /// The object that a field holds, which is this part: `WrongType` where it holds none.
    #[tactic(auto, using(crate::proofs::Steps::steps), unfolding(crate::specs::Fields::object))]
    pub fn object(&self, key: Key, part: Segment) -> Result<Object<'a>, FieldError>
        ensures { Reads (λ x. object_view x) result (object key part (object_view self.now)) }
    {
        let value = self.field(key)?;
        if value.is_object() {
            Ok(Object::new(value, part))
        } else {
            Err(self.flaw(key, FieldErrorName::WrongType))
        }
    }

    /// The elements of the array that a field holds: `WrongType` where it holds none.
    #[tactic(auto, using(crate::proofs::Steps::steps), unfolding(crate::specs::Fields::items))]
    pub fn items(&self, key: Key) -> Result<&'a [Value], FieldError>
        ensures { Reads (λ x. items_view x.now) result (items key (object_view self.now)) }
    {
        match self.field(key)?.as_array() {
            Some(array) => Ok(array.as_slice()),
            None => Err(self.flaw(key, FieldErrorName::WrongType)),
        }
    }

    /// The text that a field holds: `WrongType` where it holds none.
    #[tactic(auto, using(crate::proofs::Steps::steps), unfolding(crate::specs::Fields::text))]
    pub fn text(&self, key: Key) -> Result<&'a str, FieldError>
        ensures { Reads (λ x. x.now) result (text key (object_view self.now)) }
    {
        match self.field(key)?.as_str() {
            Some(text) => Ok(text),
            None => Err(self.flaw(key, FieldErrorName::WrongType)),
        }
    }

    /// The number below 2^64 that a field holds as a text of decimal digits, else `BadNumber`.
    #[tactic(auto, using(crate::proofs::Steps::steps), unfolding(crate::specs::Fields::number))]
    pub fn number(&self, key: Key) -> Result<u64, FieldError>
        ensures { Reads (λ x. x) result (number key (object_view self.now)) }
    {
        match number_of(self.text(key)?) {
            Some(read) => Ok(read),
            None => Err(self.flaw(key, FieldErrorName::BadNumber)),
        }
    }

    /// The number of a field as `number` reads it, and 0 where it isn't there, as protojson leaves it out.
    #[tactic(auto, using(crate::proofs::Steps::steps), unfolding(crate::specs::Fields::number_or_zero))]
    pub fn number_or_zero(&self, key: Key) -> Result<u64, FieldError>
        ensures { Reads (λ x. x) result (number_or_zero key (object_view self.now)) }
    {
        if self.has(key) {
            self.number(key)
        } else {
            Ok(0)
        }
    }

    /// The JSON number below 2^64 that a field holds, and 0 where it isn't there: `WrongType` where it holds
    /// something else.
    #[tactic(auto, using(crate::proofs::Steps::steps), unfolding(crate::specs::Fields::count))]
    pub fn count(&self, key: Key) -> Result<u64, FieldError>
        ensures { Reads (λ x. x) result (count key (object_view self.now)) }
    {
        if !self.has(key) {
            return Ok(0);
        }
        match self.field(key)?.as_u64() {
            Some(count) => Ok(count),
            None => Err(self.flaw(key, FieldErrorName::WrongType)),
        }
    }

    /// The height that a field holds as a text of decimal digits, else `BadNumber`.
    #[tactic(auto, using(crate::proofs::Steps::steps), unfolding(crate::specs::Fields::height))]
    pub fn height(&self, key: Key) -> Result<Height, FieldError>
        ensures { Reads (λ x. x) result (height key (object_view self.now)) }
    {
        match height_of(self.number(key)?) {
            Some(read) => Ok(read),
            None => Err(self.flaw(key, FieldErrorName::BadNumber)),
        }
    }

    /// The identifier of a chain that a field holds, else `BadIdentifier`.
    #[tactic(auto, using(crate::proofs::Steps::steps), unfolding(crate::specs::Fields::chain))]
    pub fn chain(&self, key: Key) -> Result<ChainId, FieldError>
        ensures { Reads (λ x. x) result (chain key (object_view self.now)) }
    {
        match chain_of(self.text(key)?) {
            Some(read) => Ok(read),
            None => Err(self.flaw(key, FieldErrorName::BadIdentifier)),
        }
    }

    /// The moment that a field holds as a timestamp that `jiff` reads (RFC 3339, as CometBFT writes
    /// times, or ISO 8601 with an offset), else `BadTime`.
    #[tactic(auto, using(crate::proofs::Steps::steps), unfolding(crate::specs::Fields::time))]
    pub fn time(&self, key: Key) -> Result<Moment, FieldError>
        ensures { Reads (λ x. x) result (time key (object_view self.now)) }
    {
        match moment_of(self.text(key)?) {
            Some(read) => Ok(read),
            None => Err(self.flaw(key, FieldErrorName::BadTime)),
        }
    }

    /// The 32 bytes that a field holds in hexadecimal digits, else `BadHex`.
    #[tactic(auto, using(crate::proofs::Steps::steps), unfolding(crate::specs::Fields::hex))]
    pub fn hash(&self, key: Key) -> Result<[u8; 32], FieldError>
        ensures { Reads (λ x. x) result (hex 32 key (object_view self.now)) }
    {
        match hash_of(self.text(key)?) {
            Some(read) => Ok(read),
            None => Err(self.flaw(key, FieldErrorName::BadHex)),
        }
    }

    /// The 20 bytes that a field holds in hexadecimal digits, else `BadHex`.
    #[tactic(auto, using(crate::proofs::Steps::steps), unfolding(crate::specs::Fields::hex))]
    pub fn address(&self, key: Key) -> Result<[u8; 20], FieldError>
        ensures { Reads (λ x. x) result (hex 20 key (object_view self.now)) }
    {
        match address_of(self.text(key)?) {
            Some(read) => Ok(read),
            None => Err(self.flaw(key, FieldErrorName::BadHex)),
        }
    }

    /// The bytes, 64 at most, that a field holds in hexadecimal digits, else `BadHex`; none where it isn't there.
    #[tactic(auto, using(crate::proofs::Steps::steps), unfolding(crate::specs::Fields::bytes))]
    pub fn bytes(&self, alloc: Global, key: Key) -> Result<Bytes, AnswerError>
        ensures { Gives (λ x. x.items) result (bytes key (object_view self.now)) }
    {
        if !self.has(key) {
            return Ok(Bytes::new());
        }
        match bytes_of(alloc, self.text(key)?)? {
            Some(read) => Ok(read),
            None => Err(AnswerError::Invalid(self.flaw(key, FieldErrorName::BadHex))),
        }
    }

    /// The hash that a field of a client's record holds in hexadecimal digits, or in base64 as protojson writes it, else
    /// `BadHex`.
    #[tactic(auto, using(crate::proofs::Steps::steps), unfolding(crate::specs::Fields::record_hash))]
    pub fn record_hash(&self, key: Key) -> Result<[u8; 32], FieldError>
        ensures { Reads (λ x. x) result (record_hash key (object_view self.now)) }
    {
        match record_hash_of(self.text(key)?) {
            Some(read) => Ok(read),
            None => Err(self.flaw(key, FieldErrorName::BadHex)),
        }
    }

    /// The bytes, 64 at most, that a field holds in base64, else `BadBase64`.
    #[tactic(auto, using(crate::proofs::Steps::steps), unfolding(crate::specs::Fields::base64_bytes))]
    pub fn base64_bytes(&self, alloc: Global, key: Key) -> Result<Bytes, AnswerError>
        ensures { Gives (λ x. x.items) result (base64_bytes key (object_view self.now)) }
    {
        match base64_of(alloc, self.text(key)?)? {
            Some(read) => Ok(read),
            None => Err(AnswerError::Invalid(self.flaw(key, FieldErrorName::BadBase64))),
        }
    }

    /// The bytes that a field holds in base64, if they are as many, else `BadBase64`.
    #[tactic(auto, using(crate::proofs::Steps::steps), unfolding(crate::specs::Fields::base64))]
    pub fn base64<const N: usize>(&self, key: Key) -> Result<[u8; N], FieldError>
        ensures { Reads (λ x. x) result (base64 N key (object_view self.now)) }
    {
        match key_of(self.text(key)?) {
            Some(read) => Ok(read),
            None => Err(self.flaw(key, FieldErrorName::BadBase64)),
        }
    }
}
