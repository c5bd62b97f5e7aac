//! The digest of a message.
ghost use Rattle.std.specs.Prelude.{◌≡◌, ◌/◌, ◌%◌, ◌++◌, length};
ghost use Rattle.rb_valset.specs.Ripemd.{compress, digest_bytes, hash_after, padding, ripemd160};

use crate::ripemd_line::{LEFT, RIGHT, line_after};
use arrayvec::ArrayVec;

/// The bytes of a block.
const BLOCK: usize = 64;

/// The bytes of two blocks, which hold what follows the last whole block of a message.
const TAIL: usize = 128;

/// The most zeros of a padding.
const ZEROS: [u8; BLOCK - 1] = [0; BLOCK - 1];

/// The bytes of a digest.
const DIGEST: usize = 20;

/// The hash value that a digest begins with.
const INITIAL_HASH: [u32; 5] = [
    0x6745_2301,
    0xefcd_ab89,
    0x98ba_dcfe,
    0x1032_5476,
    0xc3d2_e1f0,
];

/// The digest of a message.
#[tactic(auto, unfolding(crate::specs::Ripemd::ripemd160))]
pub fn ripemd160(message: &[u8]) -> [u8; DIGEST]
    ensures { result ≡ ripemd160 message.now }
{
    let (blocks, rest) = message.split_at(message.len() / BLOCK * BLOCK);
    let tail = tail_of(rest, message.len());
    let mut hash = INITIAL_HASH;
    take_blocks(&mut hash, blocks);
    take_blocks(&mut hash, tail.as_slice());
    digest_bytes(hash)
}

/// What follows the last whole block of a message of so many bytes, and the padding.
fn tail_of(rest: &[u8], total: usize) -> ArrayVec<u8, TAIL>
    requires { length rest.now ≡ total % 64 }
    ensures { result.items ≡ rest.now ++ padding total }
{
    let mut tail = ArrayVec::new();
    tail.try_extend_from_slice(rest).unwrap();
    tail.push(0x80);
    tail.try_extend_from_slice(&ZEROS[..(119 - rest.len()) % BLOCK])
        .unwrap();
    let bits = (total as u64).wrapping_mul(8);
    tail.try_extend_from_slice(&bits.to_le_bytes()).unwrap();
    tail
}

/// Takes blocks into a hash value.
fn take_blocks(hash: &mut [u32; 5], blocks: &[u8])
    ensures { hash.new ≡ hash_after hash.old blocks.now (length blocks.now / 64) }
{
    for place in 0..blocks.len() / BLOCK {
        let start = place * BLOCK;
        compress(hash, &blocks[start..start + BLOCK]);
    }
}

/// Takes a block into a hash value.
#[tactic(auto, unfolding(crate::specs::Ripemd::compress))]
fn compress(hash: &mut [u32; 5], block: &[u8])
    requires { length block.now ≡ 64 }
    ensures { hash.new ≡ compress hash.old block.now }
{
    let left = line_after(&LEFT, *hash, block);
    let right = line_after(&RIGHT, *hash, block);
    *hash = [
        hash[1].wrapping_add(left[2]).wrapping_add(right[3]),
        hash[2].wrapping_add(left[3]).wrapping_add(right[4]),
        hash[3].wrapping_add(left[4]).wrapping_add(right[0]),
        hash[4].wrapping_add(left[0]).wrapping_add(right[1]),
        hash[0].wrapping_add(left[1]).wrapping_add(right[2]),
    ];
}

/// The words of a hash value as bytes, low byte first.
fn digest_bytes(hash: [u32; 5]) -> [u8; DIGEST]
    ensures { result ≡ digest_bytes hash }
{
    let mut bytes: ArrayVec<u8, DIGEST> = ArrayVec::new();
    bytes.try_extend_from_slice(&hash[0].to_le_bytes()).unwrap();
    bytes.try_extend_from_slice(&hash[1].to_le_bytes()).unwrap();
    bytes.try_extend_from_slice(&hash[2].to_le_bytes()).unwrap();
    bytes.try_extend_from_slice(&hash[3].to_le_bytes()).unwrap();
    bytes.try_extend_from_slice(&hash[4].to_le_bytes()).unwrap();
    bytes.into_inner().unwrap()
}
