//! What the bytes of two proofs show: that of a key in its store, and that of the store.
ghost use Rattle.std.specs.Prelude.{◌≡◌, IfOk};
ghost use Rattle.rb_ics23.specs.Shown.{shows_member, shows_absent};

use crate::merkle::MerkleProof;
use crate::proof::MerklePath;
use crate::read::{existence_of, non_existence_of, read_existence, read_non_existence};
use crate::verify::{is_absent_in_store, is_member_in_store};
use std::alloc::{AllocError, Global};

/// Whether the proof shows that the path has this value under the app hash.
#[tactic(auto, unfolding(crate::specs::Shown::shows_member))]
pub fn shows_member(
    alloc: Global,
    app_hash: &[u8],
    path: &MerklePath,
    value: &[u8],
    proof: &MerkleProof,
) -> Result<bool, AllocError>
    ensures { IfOk result (λ shown. shown ≡ shows_member app_hash.now path.now.store.now path.now.key.now value.now proof.now.of_key.now proof.now.of_store.now) }
{
    let Some(of_key) = read_existence(alloc, proof.of_key)? else {
        return Ok(false);
    };
    let Some(of_store) = read_existence(alloc, proof.of_store)? else {
        return Ok(false);
    };
    Ok(is_member_in_store(
        app_hash,
        path,
        value,
        &existence_of(&of_key),
        &existence_of(&of_store),
    ))
}

/// Whether the proof shows that the path has no value under the app hash.
#[tactic(auto, unfolding(crate::specs::Shown::shows_absent))]
pub fn shows_absent(
    alloc: Global,
    app_hash: &[u8],
    path: &MerklePath,
    proof: &MerkleProof,
) -> Result<bool, AllocError>
    ensures { IfOk result (λ shown. shown ≡ shows_absent app_hash.now path.now.store.now path.now.key.now proof.now.of_key.now proof.now.of_store.now) }
{
    let Some(of_key) = read_non_existence(alloc, proof.of_key)? else {
        return Ok(false);
    };
    let Some(of_store) = read_existence(alloc, proof.of_store)? else {
        return Ok(false);
    };
    Ok(is_absent_in_store(
        app_hash,
        path,
        &non_existence_of(&of_key),
        &existence_of(&of_store),
    ))
}
