//! What a text says: a number, a height, an identifier, a time, or bytes.
ghost use Rattle.std.specs.Prelude.{◌≡◌, option_map, IfOk};
ghost use Rattle.rb_import_json.specs.Values.{number_of, height_of, identifier_of, moment_of, bytes_of, bytes_up_to, base64_up_to, hash_of, up_to, key_of};

use arrayvec::ArrayVec;
use base64::DecodeAllocError;
use base64::engine::general_purpose::STANDARD;
use hex::{FromHex, FromHexError};
use jiff::Timestamp;
use rb_base::{ChainId, Height, Moment};
use std::alloc::{AllocError, Global};

/// The most bytes of a hash that has no length of its own.
const MAX_BYTES: usize = 64;

/// At most 64 bytes.
pub type Bytes = ArrayVec<u8, MAX_BYTES>;

/// The number below 2^64 that decimal digits write.
pub fn number_of(text: &str) -> Option<u64>
    ensures { result ≡ number_of text.now }
{
    text.parse::<u64>().ok()
}

/// The height of this number.
#[tactic(auto, using(crate::proofs::Values::heights), unfolding(crate::specs::Values::height_of))]
pub fn height_of(number: u64) -> Option<Height>
    ensures { result ≡ height_of number }
{
    Height::new(number)
}

/// The identifier of a chain that a text is.
#[tactic(auto, using(crate::proofs::Values::identifiers), unfolding(crate::specs::Values::identifier_of))]
pub fn chain_of(text: &str) -> Option<ChainId>
    ensures { result ≡ identifier_of text.now }
{
    ChainId::new(text)
}

/// The moment of a time that `jiff` reads as a timestamp (RFC 3339, as CometBFT writes times, or ISO
/// 8601 with an offset).
#[tactic(auto, unfolding(crate::specs::Values::moment_of))]
pub fn moment_of(text: &str) -> Option<Moment>
    ensures { result ≡ moment_of text.now }
{
    let timestamp = text.parse::<Timestamp>().ok()?;
    let nanoseconds = u128::try_from(timestamp.as_nanosecond()).ok()?;
    Moment::new(nanoseconds)
}

/// The 32 bytes that hexadecimal digits write.
#[tactic(auto, unfolding(crate::specs::Values::bytes_of))]
pub fn hash_of(text: &str) -> Option<[u8; 32]>
    ensures { result ≡ bytes_of 32 text.now }
{
    <[u8; 32] as FromHex>::from_hex(text).ok()
}

/// The 20 bytes that hexadecimal digits write.
#[tactic(auto, unfolding(crate::specs::Values::bytes_of))]
pub fn address_of(text: &str) -> Option<[u8; 20]>
    ensures { result ≡ bytes_of 20 text.now }
{
    <[u8; 20] as FromHex>::from_hex(text).ok()
}

/// The bytes of a text in base64, if they are as many.
#[tactic(auto, unfolding(crate::specs::Values::key_of))]
pub fn key_of<const N: usize>(text: &str) -> Option<[u8; N]>
    ensures { result ≡ key_of N text.now }
{
    let mut bytes = [0; N];
    match STANDARD.decode_slice(text.as_bytes(), &mut bytes) {
        Ok(count) if count == N => Some(bytes),
        _ => None,
    }
}

/// Bytes, where they are at most 64.
fn up_to_64(bytes: &[u8]) -> Option<Bytes>
    ensures { option_map (λ b. b.items) result ≡ up_to 64 bytes.now }
{
    if bytes.len() > MAX_BYTES {
        return None;
    }
    let mut copy = Bytes::new();
    copy.try_extend_from_slice(bytes).unwrap();
    Some(copy)
}

/// The bytes, 64 at most, that hexadecimal digits write.
#[tactic(auto, unfolding(crate::specs::Values::bytes_up_to))]
pub fn bytes_of(alloc: Global, text: &str) -> Result<Option<Bytes>, AllocError>
    ensures { IfOk result (λ r. option_map (λ b. b.items) r ≡ bytes_up_to 64 text.now) }
{
    match hex::decode(alloc, text) {
        Ok(bytes) => Ok(up_to_64(bytes.as_slice())),
        Err(FromHexError::OutOfMemory) => Err(AllocError),
        Err(_) => Ok(None),
    }
}

/// The bytes, 64 at most, of a text in base64.
#[tactic(auto, unfolding(crate::specs::Values::base64_up_to))]
pub fn base64_of(alloc: Global, text: &str) -> Result<Option<Bytes>, AllocError>
    ensures { IfOk result (λ r. option_map (λ b. b.items) r ≡ base64_up_to 64 text.now) }
{
    match STANDARD.decode(alloc, text.as_bytes()) {
        Ok(bytes) => Ok(up_to_64(bytes.as_slice())),
        Err(DecodeAllocError::OutOfMemory) => Err(AllocError),
        Err(DecodeAllocError::DecodeError(_)) => Ok(None),
    }
}

/// The 32 bytes that hexadecimal digits write, or base64.
#[tactic(auto, unfolding(crate::specs::Values::hash_of))]
pub fn record_hash_of(text: &str) -> Option<[u8; 32]>
    ensures { result ≡ hash_of text.now }
{
    if text.len() == 64 {
        hash_of(text)
    } else {
        key_of(text)
    }
}
