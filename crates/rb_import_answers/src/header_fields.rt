//! A header's fields, and its hash.
ghost use Rattle.std.specs.Prelude.{◌≡◌, IfOk, map};
ghost use Rattle.rb_import_answers.specs.Encoding.{bytes_field, number_field};
ghost use Rattle.rb_import_answers.specs.HeaderHash.{block_id_view, header_view, block_id_bytes, encoded, header_hash, time_bytes, version_bytes};

use crate::header_encoding::{bytes_alone, push_bytes, push_counted, push_number, two_numbers};
use arrayvec::ArrayVec;
use rb_base::{ChainId, Height, Moment};
use std::alloc::{AllocError, Global};

/// Nanoseconds of a second.
const SECOND: u128 = 1_000_000_000;

/// A hash or an address in a header, which may be empty: at most 64 bytes.
pub type HeaderBytes = ArrayVec<u8, 64>;

/// A block's hash, and how many parts it was sent in, with their hash (CometBFT, `BlockID`).
#[derive(Drop)]
pub struct BlockId {
    pub hash: HeaderBytes,
    pub parts_total: u64,
    pub parts_hash: HeaderBytes,
}

/// A header's fields (CometBFT, `Header`).
#[derive(Drop)]
pub struct BlockHeader {
    pub block_version: u64,
    pub app_version: u64,
    pub chain: ChainId,
    pub height: Height,
    pub time: Moment,
    pub last_block: BlockId,
    pub last_commit_hash: HeaderBytes,
    pub data_hash: HeaderBytes,
    pub validators_hash: [u8; 32],
    pub next_validators_hash: [u8; 32],
    pub consensus_hash: HeaderBytes,
    pub app_hash: HeaderBytes,
    pub last_results_hash: HeaderBytes,
    pub evidence_hash: HeaderBytes,
    pub proposer_address: HeaderBytes,
}

/// The header's hash: the tree hash of its fourteen fields, each in its encoding.
#[tactic(auto, unfolding(crate::specs::HeaderHash::header_hash))]
pub fn header_hash(alloc: Global, header: &BlockHeader) -> Result<[u8; 32], AllocError>
    ensures { IfOk result (λ hash. hash ≡ header_hash (header_view header.now)) }
{
    let version = encode_version(alloc, header)?;
    let chain = encode_chain(alloc, header.chain)?;
    let height = encode_height(alloc, header.height)?;
    let time = encode_time(alloc, header.time)?;
    let last_block = encode_block_id(alloc, &header.last_block)?;
    let last_commit = encode_bytes(alloc, &header.last_commit_hash)?;
    let data = encode_bytes(alloc, &header.data_hash)?;
    let validators = encode_set(alloc, &header.validators_hash)?;
    let next_validators = encode_set(alloc, &header.next_validators_hash)?;
    let consensus = encode_bytes(alloc, &header.consensus_hash)?;
    let app = encode_bytes(alloc, &header.app_hash)?;
    let last_results = encode_bytes(alloc, &header.last_results_hash)?;
    let evidence = encode_bytes(alloc, &header.evidence_hash)?;
    let proposer = encode_bytes(alloc, &header.proposer_address)?;
    Ok(rb_merkle::root(&[
        version.as_slice(),
        chain.as_slice(),
        height.as_slice(),
        time.as_slice(),
        last_block.as_slice(),
        last_commit.as_slice(),
        data.as_slice(),
        validators.as_slice(),
        next_validators.as_slice(),
        consensus.as_slice(),
        app.as_slice(),
        last_results.as_slice(),
        evidence.as_slice(),
        proposer.as_slice(),
    ]))
}

/// The buffer of the versions.
#[tactic(auto, unfolding(crate::specs::HeaderHash::version_bytes))]
fn encode_version(alloc: Global, header: &BlockHeader) -> Result<Vec<u8>, AllocError>
    ensures { IfOk result (λ out. out.items ≡ version_bytes (header_view header.now)) }
{
    two_numbers(alloc, header.block_version, header.app_version)
}

/// The buffer of a chain's identifier alone.
fn encode_chain(alloc: Global, chain: ChainId) -> Result<Vec<u8>, AllocError>
    ensures { IfOk result (λ out. out.items ≡ bytes_field 0x0a chain) }
{
    bytes_alone(alloc, chain.as_str().as_bytes())
}

/// The buffer of a set's hash alone.
fn encode_set(alloc: Global, hash: &[u8; 32]) -> Result<Vec<u8>, AllocError>
    ensures { IfOk result (λ out. out.items ≡ bytes_field 0x0a hash.now) }
{
    bytes_alone(alloc, hash.as_slice())
}

/// The buffer of a hash or an address alone.
fn encode_bytes(alloc: Global, bytes: &HeaderBytes) -> Result<Vec<u8>, AllocError>
    ensures { IfOk result (λ out. out.items ≡ bytes_field 0x0a bytes.now.items) }
{
    bytes_alone(alloc, bytes.as_slice())
}

/// The buffer of a height alone.
fn encode_height(alloc: Global, height: Height) -> Result<Vec<u8>, AllocError>
    ensures { IfOk result (λ out. out.items ≡ number_field 0x08 height) }
{
    let mut out = Vec::new(alloc);
    push_number(&mut out, 0x08, height.get())?;
    Ok(out)
}

#[tactic(auto, unfolding(crate::specs::HeaderHash::time_bytes))]
fn encode_time(alloc: Global, time: Moment) -> Result<Vec<u8>, AllocError>
    ensures { IfOk result (λ out. out.items ≡ time_bytes time) }
{
    let nanoseconds = time.nanoseconds();
    two_numbers(
        alloc,
        (nanoseconds / SECOND) as u64,
        (nanoseconds % SECOND) as u64,
    )
}

#[tactic(auto, unfolding(crate::specs::HeaderHash::block_id_bytes))]
fn encode_block_id(alloc: Global, id: &BlockId) -> Result<Vec<u8>, AllocError>
    ensures { IfOk result (λ out. out.items ≡ block_id_bytes (block_id_view id.now)) }
{
    let mut parts = Vec::new(alloc);
    push_number(&mut parts, 0x08, id.parts_total)?;
    push_bytes(&mut parts, 0x12, id.parts_hash.as_slice())?;
    let mut out = Vec::new(alloc);
    push_bytes(&mut out, 0x0a, id.hash.as_slice())?;
    push_counted(&mut out, 0x12, parts.as_slice())?;
    Ok(out)
}
