//! Proofs from their bytes.
ghost use Rattle.std.specs.Prelude.{◌≡◌, IfOk, map, option_map};
ghost use Rattle.rb_ics23.specs.Proof.{existence_view, inner_view, non_existence_view};
ghost use Rattle.rb_ics23.specs.Read.{existence_of, non_existence_of, step_at, path_in, existence_in, side_in, sides_in, existence, non_existence};

use crate::fields::field;
use crate::fit::MOST_STEPS;
use crate::ops::{inner_in, leaf_in};
use crate::proof::{ExistenceProof, InnerOp, LeafOp, NonExistenceProof};
use std::alloc::{AllocError, Global};

/// A proof that a key has a value, as it was read.
#[derive(Drop)]
pub struct Existence<'a> {
    pub key: &'a [u8],
    pub value: &'a [u8],
    pub leaf: LeafOp<'a>,
    pub path: Vec<InnerOp<'a>>,
}

/// A proof that a key has no value, as it was read.
#[derive(Drop)]
pub struct NonExistence<'a> {
    pub left: Option<Existence<'a>>,
    pub right: Option<Existence<'a>>,
}

/// The proof over its path.
pub fn existence_of<'p, 'a>(read: &'p Existence<'a>) -> ExistenceProof<'p, 'a>
    ensures { existence_view result ≡ existence_of read.now }
{
    ExistenceProof {
        key: read.key,
        value: read.value,
        leaf: read.leaf,
        path: read.path.as_slice(),
    }
}

/// The proof over the paths of the neighbours.
pub fn non_existence_of<'p, 'a>(read: &'p NonExistence<'a>) -> NonExistenceProof<'p, 'a>
    ensures { non_existence_view result ≡ non_existence_of read.now }
{
    NonExistenceProof {
        left: side_of(&read.left),
        right: side_of(&read.right),
    }
}

fn side_of<'p, 'a>(read: &'p Option<Existence<'a>>) -> Option<ExistenceProof<'p, 'a>>
    ensures { option_map existence_view result ≡ option_map existence_of read.now }
{
    match read {
        None => None,
        Some(proof) => Some(existence_of(proof)),
    }
}

/// The step that begins here, and what is behind it.
#[tactic(auto, unfolding(crate::specs::Read::step_at))]
fn step_at(bytes: &[u8]) -> Option<(InnerOp, &[u8])>
    ensures { option_map (λ x. (inner_view x.0, x.1.now)) result ≡ step_at bytes.now }
{
    let (text, rest) = field(0x22, bytes)?;
    if text.is_empty() {
        return None;
    }
    let step = inner_in(text)?;
    Some((step, rest))
}

/// The steps that these bytes are, at most 128.
fn path_in(alloc: Global, bytes: &[u8]) -> Result<Option<Vec<InnerOp>>, AllocError>
    ensures { IfOk result (λ found. option_map (λ path. map inner_view path.items) found ≡ path_in 128 bytes.now) }
{
    let mut path = Vec::new(alloc);
    let mut rest = bytes;
    for _i in 0..MOST_STEPS {
        if rest.is_empty() {
            return Ok(Some(path));
        }
        let Some((step, behind)) = step_at(rest) else {
            return Ok(None);
        };
        path.push(step)?;
        rest = behind;
    }
    if rest.is_empty() {
        Ok(Some(path))
    } else {
        Ok(None)
    }
}

/// The proof of a key's value that these bytes are.
#[tactic(auto, unfolding(crate::specs::Read::existence_in))]
fn existence_in(alloc: Global, bytes: &[u8]) -> Result<Option<Existence>, AllocError>
    ensures { IfOk result (λ found. option_map existence_of found ≡ existence_in bytes.now) }
{
    let Some((key, rest)) = field(0x0a, bytes) else {
        return Ok(None);
    };
    let Some((value, rest)) = field(0x12, rest) else {
        return Ok(None);
    };
    let Some((leaf, rest)) = field(0x1a, rest) else {
        return Ok(None);
    };
    let Some(leaf) = leaf_in(leaf) else {
        return Ok(None);
    };
    let Some(path) = path_in(alloc, rest)? else {
        return Ok(None);
    };
    Ok(Some(Existence {
        key,
        value,
        leaf,
        path,
    }))
}

/// The proof of a neighbour that these bytes are, where there are any.
#[tactic(auto, unfolding(crate::specs::Read::side_in))]
fn side_in(alloc: Global, bytes: &[u8]) -> Result<Option<Option<Existence>>, AllocError>
    ensures { IfOk result (λ found. option_map (λ side. option_map existence_of side) found ≡ side_in bytes.now) }
{
    if bytes.is_empty() {
        return Ok(Some(None));
    }
    let Some(side) = existence_in(alloc, bytes)? else {
        return Ok(None);
    };
    Ok(Some(Some(side)))
}

/// The neighbours of the key that these bytes are.
#[tactic(auto, unfolding(crate::specs::Read::sides_in))]
fn sides_in(alloc: Global, bytes: &[u8]) -> Result<Option<NonExistence>, AllocError>
    ensures { IfOk result (λ found. option_map non_existence_of found ≡ sides_in bytes.now) }
{
    let Some((_, rest)) = field(0x0a, bytes) else {
        return Ok(None);
    };
    let Some((left, rest)) = field(0x12, rest) else {
        return Ok(None);
    };
    let Some((right, rest)) = field(0x1a, rest) else {
        return Ok(None);
    };
    if !rest.is_empty() {
        return Ok(None);
    }
    let Some(left) = side_in(alloc, left)? else {
        return Ok(None);
    };
    let Some(right) = side_in(alloc, right)? else {
        return Ok(None);
    };
    Ok(Some(NonExistence { left, right }))
}

/// The proof of a key's value in a commitment proof.
#[tactic(auto, unfolding(crate::specs::Read::existence))]
pub fn read_existence(alloc: Global, bytes: &[u8]) -> Result<Option<Existence>, AllocError>
    ensures { IfOk result (λ found. option_map existence_of found ≡ existence bytes.now) }
{
    let Some((proof, rest)) = field(0x0a, bytes) else {
        return Ok(None);
    };
    if !rest.is_empty() {
        return Ok(None);
    }
    existence_in(alloc, proof)
}

/// The proof that a key has no value in a commitment proof.
#[tactic(auto, unfolding(crate::specs::Read::non_existence))]
pub fn read_non_existence(alloc: Global, bytes: &[u8]) -> Result<Option<NonExistence>, AllocError>
    ensures { IfOk result (λ found. option_map non_existence_of found ≡ non_existence bytes.now) }
{
    let Some((proof, rest)) = field(0x12, bytes) else {
        return Ok(None);
    };
    if !rest.is_empty() {
        return Ok(None);
    }
    sides_in(alloc, proof)
}
