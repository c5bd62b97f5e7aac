//! The operations of a proof.
ghost use Rattle.std.specs.Prelude.{◌≡◌, option_map};
ghost use Rattle.rb_ics23.specs.Proof.{leaf_view, inner_view};
ghost use Rattle.rb_ics23.specs.Ops.{hash_op, length_op, leaf_in, inner_in};

use crate::fields::{field, number};
use crate::proof::{HashOp, InnerOp, LeafOp, LengthOp};

fn hash_op(number: u64) -> HashOp
    ensures { result ≡ hash_op number }
{
    if number == 0 {
        HashOp::NoHash
    } else if number == 1 {
        HashOp::Sha256
    } else {
        HashOp::Other
    }
}

fn length_op(number: u64) -> LengthOp
    ensures { result ≡ length_op number }
{
    if number == 0 {
        LengthOp::NoPrefix
    } else if number == 1 {
        LengthOp::VarProto
    } else {
        LengthOp::Other
    }
}

/// The leaf operation that these bytes are.
#[tactic(auto, unfolding(crate::specs::Ops::leaf_in))]
pub fn leaf_in(bytes: &[u8]) -> Option<LeafOp>
    ensures { option_map leaf_view result ≡ leaf_in bytes.now }
{
    let (hash, rest) = number(0x08, bytes)?;
    let (prehash_key, rest) = number(0x10, rest)?;
    let (prehash_value, rest) = number(0x18, rest)?;
    let (length, rest) = number(0x20, rest)?;
    let (prefix, rest) = field(0x2a, rest)?;
    if !rest.is_empty() {
        return None;
    }
    Some(LeafOp {
        hash: hash_op(hash),
        prehash_key: hash_op(prehash_key),
        prehash_value: hash_op(prehash_value),
        length: length_op(length),
        prefix,
    })
}

/// The inner operation that these bytes are.
#[tactic(auto, unfolding(crate::specs::Ops::inner_in))]
pub fn inner_in(bytes: &[u8]) -> Option<InnerOp>
    ensures { option_map inner_view result ≡ inner_in bytes.now }
{
    let (hash, rest) = number(0x08, bytes)?;
    let (prefix, rest) = field(0x12, rest)?;
    let (suffix, rest) = field(0x1a, rest)?;
    if !rest.is_empty() {
        return None;
    }
    Some(InnerOp {
        hash: hash_op(hash),
        prefix,
        suffix,
    })
}
