//! The hashes along a path.
ghost use Rattle.std.specs.Prelude.{◌≡◌};
ghost use Rattle.rb_ics23.specs.Proof.{existence_view, inner_view};
ghost use Rattle.rb_ics23.specs.Root.{leaf_hash, inner_hash, root};

use crate::proof::{ExistenceProof, InnerOp};
use crate::varint::hash_counted;
use sha2::{Digest, Sha256};

/// The root of the tree that the proof is of.
#[tactic(auto, unfolding(crate::specs::Root::root, crate::specs::Root::hash_above))]
pub fn root_of(proof: &ExistenceProof) -> [u8; 32]
    ensures { result ≡ root (existence_view proof.now) }
{
    let mut hash = hash_leaf(proof.leaf.prefix, proof.key, proof.value);
    for step in proof.path {
        hash = hash_inner(step, &hash);
    }
    hash
}

fn hash_leaf(prefix: &[u8], key: &[u8], value: &[u8]) -> [u8; 32]
    ensures { result ≡ leaf_hash prefix.now key.now value.now }
{
    let value_hash = Sha256::digest(value);
    let mut hasher = Sha256::new();
    hasher.update(prefix);
    hash_counted(&mut hasher, key);
    hash_counted(&mut hasher, value_hash.as_slice());
    hasher.finalize()
}

fn hash_inner(step: &InnerOp, child: &[u8; 32]) -> [u8; 32]
    ensures { result ≡ inner_hash (inner_view step.now) child.now }
{
    let mut hasher = Sha256::new();
    hasher.update(step.prefix);
    hasher.update(child.as_slice());
    hasher.update(step.suffix);
    hasher.finalize()
}
