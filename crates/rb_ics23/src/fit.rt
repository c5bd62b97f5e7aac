//! Which operations a spec admits.
ghost use Rattle.std.specs.Prelude.{◌≡◌, ◌≤◌, ◌<◌, ◌+◌, ◌^◌, List, ℕ, length, map, option_map};
ghost use Rattle.rb_ics23.specs.Proof.{leaf_view, inner_view, existence_view};
ghost use Rattle.rb_ics23.specs.Fit.{
  child_size,
  least_prefix,
  most_prefix,
  most_steps,
  is_no_hash,
  is_sha256,
  is_var_proto,
  begins_with,
  behind_version,
  ends_leaf,
  ends_inner,
  is_leaf_prefix,
  is_leaf,
  is_inner_prefix,
  has_sizes,
  is_inner,
  are_inner,
  fits,
};

use crate::proof::{ExistenceProof, HashOp, InnerOp, LeafOp, LengthOp, ProofSpec};
use crate::varint::natural_at;

/// The most steps of a path.
pub const MOST_STEPS: usize = 128;

/// Whether the spec admits the operations of the proof.
#[tactic(auto, unfolding(crate::specs::Fit::fits))]
pub fn is_fit(spec: ProofSpec, proof: &ExistenceProof) -> bool
    ensures { result ≡ fits spec (existence_view proof.now) }
{
    is_leaf(spec, &proof.leaf) && proof.path.len() <= MOST_STEPS && are_inner(spec, proof.path)
}

/// The bytes of a child.
pub fn child_size(spec: ProofSpec) -> usize
    ensures { result ≡ child_size spec }
{
    match spec {
        ProofSpec::Iavl => 33,
        ProofSpec::Tendermint => 32,
    }
}

/// The least bytes before the first child.
pub fn least_prefix(spec: ProofSpec) -> usize
    ensures { result ≡ least_prefix spec }
{
    match spec {
        ProofSpec::Iavl => 4,
        ProofSpec::Tendermint => 1,
    }
}

/// The most bytes before the first child.
pub fn most_prefix(spec: ProofSpec) -> usize
    ensures { result ≡ most_prefix spec }
{
    match spec {
        ProofSpec::Iavl => 12,
        ProofSpec::Tendermint => 1,
    }
}

fn is_no_hash(op: HashOp) -> bool
    ensures { result ≡ is_no_hash op }
{
    match op {
        HashOp::NoHash => true,
        HashOp::Sha256 | HashOp::Other => false,
    }
}

fn is_sha256(op: HashOp) -> bool
    ensures { result ≡ is_sha256 op }
{
    match op {
        HashOp::Sha256 => true,
        HashOp::NoHash | HashOp::Other => false,
    }
}

fn is_var_proto(op: LengthOp) -> bool
    ensures { result ≡ is_var_proto op }
{
    match op {
        LengthOp::VarProto => true,
        LengthOp::NoPrefix | LengthOp::Other => false,
    }
}

fn begins_with(byte: u8, bytes: &[u8]) -> bool
    ensures { result ≡ begins_with byte bytes.now }
{
    match bytes {
        [] => false,
        [first, ..] => *first == byte,
    }
}

/// What is behind the height, the size and the version of an IAVL node.
#[tactic(auto, unfolding(crate::specs::Fit::behind_version))]
fn behind_version(layer: usize, bytes: &[u8]) -> Option<&[u8]>
    ensures { option_map (λ rest. rest.now) result ≡ behind_version layer bytes.now }
{
    let (height, rest) = natural_at(bytes)?;
    let (_, rest) = natural_at(rest)?;
    let (_, rest) = natural_at(rest)?;
    if height < layer as u64 {
        return None;
    }
    Some(rest)
}

fn is_iavl_leaf(prefix: &[u8]) -> bool
    ensures { result ≡ ends_leaf (behind_version 0 prefix.now) }
{
    match behind_version(0, prefix) {
        None => false,
        Some(rest) => rest.is_empty(),
    }
}

fn is_iavl_inner(layer: usize, prefix: &[u8]) -> bool
    ensures { result ≡ ends_inner (behind_version layer prefix.now) }
{
    match behind_version(layer, prefix) {
        None => false,
        Some(rest) => rest.len() == 1 || rest.len() == 34,
    }
}

fn is_leaf_prefix(spec: ProofSpec, prefix: &[u8]) -> bool
    ensures { result ≡ is_leaf_prefix spec prefix.now }
{
    match spec {
        ProofSpec::Iavl => is_iavl_leaf(prefix),
        ProofSpec::Tendermint => true,
    }
}

fn is_leaf(spec: ProofSpec, leaf: &LeafOp) -> bool
    ensures { result ≡ is_leaf spec (leaf_view leaf.now) }
{
    is_sha256(leaf.hash)
        && is_no_hash(leaf.prehash_key)
        && is_sha256(leaf.prehash_value)
        && is_var_proto(leaf.length)
        && begins_with(0, leaf.prefix)
        && is_leaf_prefix(spec, leaf.prefix)
}

fn is_inner_prefix(spec: ProofSpec, layer: usize, step: &InnerOp) -> bool
    ensures { result ≡ is_inner_prefix spec layer (inner_view step.now) }
{
    match spec {
        ProofSpec::Iavl => is_iavl_inner(layer, step.prefix),
        ProofSpec::Tendermint => {
            begins_with(1, step.prefix) && (step.suffix.is_empty() || step.prefix.len() == 1)
        }
    }
}

fn has_sizes(spec: ProofSpec, step: &InnerOp) -> bool
    ensures { result ≡ has_sizes spec (inner_view step.now) }
{
    least_prefix(spec) <= step.prefix.len()
        && step.prefix.len() <= most_prefix(spec) + child_size(spec)
        && step.suffix.len() % child_size(spec) == 0
}

fn is_inner(spec: ProofSpec, layer: usize, step: &InnerOp) -> bool
    ensures { result ≡ is_inner spec layer (inner_view step.now) }
{
    is_sha256(step.hash)
        && is_inner_prefix(spec, layer, step)
        && !begins_with(0, step.prefix)
        && has_sizes(spec, step)
}

/// Whether the spec admits each step of a path, of which the first is in layer 1.
#[tactic(auto, unfolding(crate::specs::Fit::are_inner))]
fn are_inner(spec: ProofSpec, path: &[InnerOp]) -> bool
    ensures { result ≡ are_inner spec 1 (map inner_view path.now) }
{
    for (i, step) in path.iter().enumerate() {
        if !is_inner(spec, i + 1, step) {
            return false;
        }
    }
    true
}
