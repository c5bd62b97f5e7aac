//! What a proof shows of a root.
ghost use Rattle.std.specs.Prelude.{◌≡◌};
ghost use Rattle.rb_ics23.specs.Proof.{existence_view, non_existence_view};
ghost use Rattle.rb_ics23.specs.Verify.{
  is_below,
  shows,
  is_member,
  is_absent,
  is_store,
  is_member_in_store,
  is_absent_in_store,
};

use crate::fit::is_fit;
use crate::hash::root_of;
use crate::neighbours::{are_neighbours, is_left_most, is_right_most};
use crate::proof::{ExistenceProof, MerklePath, NonExistenceProof, ProofSpec};

/// Whether the proof's key has the proof's value under this root.
#[tactic(auto, unfolding(crate::specs::Verify::shows))]
fn shows(spec: ProofSpec, root: &[u8], proof: &ExistenceProof) -> bool
    ensures { result ≡ shows spec root.now (existence_view proof.now) }
{
    !proof.key.is_empty()
        && !proof.value.is_empty()
        && is_fit(spec, proof)
        && root_of(proof).as_slice() == root
}

/// Whether the proof shows that the key has this value under this root.
#[tactic(auto, unfolding(crate::specs::Verify::is_member))]
pub fn is_member(
    spec: ProofSpec,
    root: &[u8],
    key: &[u8],
    value: &[u8],
    proof: &ExistenceProof,
) -> bool
    ensures { result ≡ is_member spec root.now key.now value.now (existence_view proof.now) }
{
    proof.key == key && proof.value == value && shows(spec, root, proof)
}

/// Whether one key stands before another.
fn is_below(a: &[u8], b: &[u8]) -> bool
    ensures { result ≡ is_below a.now b.now }
{
    a.cmp(b).is_lt()
}

/// Whether the proof shows that the key has no value under this root.
#[tactic(auto, unfolding(crate::specs::Verify::is_between))]
pub fn is_absent(spec: ProofSpec, root: &[u8], key: &[u8], proof: &NonExistenceProof) -> bool
    ensures { result ≡ is_absent spec root.now key.now (non_existence_view proof.now) }
{
    match (&proof.left, &proof.right) {
        (None, None) => false,
        (Some(left), None) => {
            shows(spec, root, left) && is_below(left.key, key) && is_right_most(spec, left.path)
        }
        (None, Some(right)) => {
            shows(spec, root, right) && is_below(key, right.key) && is_left_most(spec, right.path)
        }
        (Some(left), Some(right)) => {
            shows(spec, root, left)
                && shows(spec, root, right)
                && is_below(left.key, key)
                && is_below(key, right.key)
                && are_neighbours(spec, left.path, right.path)
        }
    }
}

/// Whether the proofs show that a path has this value under the app hash: that of the key in its store, and that of the store.
pub fn is_member_in_store(
    app_hash: &[u8],
    path: &MerklePath,
    value: &[u8],
    proof: &ExistenceProof,
    store: &ExistenceProof,
) -> bool
    ensures { result ≡ is_member_in_store app_hash.now path.now.store.now path.now.key.now value.now (existence_view proof.now) (existence_view store.now) }
{
    let root = root_of(proof);
    is_member(ProofSpec::Iavl, root.as_slice(), path.key, value, proof)
        && is_store(app_hash, path.store, &root, store)
}

/// Whether the proofs show that a path has no value under the app hash: that of the key in its store, and that of the store.
#[tactic(auto, unfolding(crate::specs::Verify::is_between))]
pub fn is_absent_in_store(
    app_hash: &[u8],
    path: &MerklePath,
    proof: &NonExistenceProof,
    store: &ExistenceProof,
) -> bool
    ensures { result ≡ is_absent_in_store app_hash.now path.now.store.now path.now.key.now (non_existence_view proof.now) (existence_view store.now) }
{
    let root = match (&proof.left, &proof.right) {
        (Some(left), _) => root_of(left),
        (None, Some(right)) => root_of(right),
        (None, None) => return false,
    };
    is_absent(ProofSpec::Iavl, root.as_slice(), path.key, proof)
        && is_store(app_hash, path.store, &root, store)
}

/// Whether the proof shows that the store of this name has this root under the app hash.
fn is_store(app_hash: &[u8], name: &[u8], root: &[u8; 32], proof: &ExistenceProof) -> bool
    ensures { result ≡ is_store app_hash.now name.now root.now (existence_view proof.now) }
{
    is_member(
        ProofSpec::Tendermint,
        app_hash,
        name,
        root.as_slice(),
        proof,
    )
}
