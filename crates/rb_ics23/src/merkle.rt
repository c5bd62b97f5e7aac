//! The proof of a message.
ghost use Rattle.std.specs.Prelude.{◌≡◌, ◌++◌, ◌<◌, ◌^◌, OnOk, IfOk};
ghost use Rattle.rb_ics23.specs.Varint.{varint};
ghost use Rattle.rb_ics23.specs.Merkle.{proof_field, merkle_proof};

use std::alloc::{AllocError, Global};

/// The bytes of two commitment proofs (ICS 23 in IBC, `MerkleProof`): of a key in its store, and of that store under the app hash.
#[derive(Clone, Copy, Debug)]
pub struct MerkleProof<'a> {
    pub of_key: &'a [u8],
    pub of_store: &'a [u8],
}

/// The bytes of a message's proof.
#[tactic(auto, unfolding(crate::specs::Merkle::merkle_proof))]
pub fn merkle_proof(alloc: Global, proof: &MerkleProof) -> Result<Vec<u8>, AllocError>
    ensures { IfOk result (λ out. out.items ≡ merkle_proof proof.now.of_key.now proof.now.of_store.now) }
{
    let mut out = Vec::new(alloc);
    push_proof(&mut out, proof.of_key)?;
    push_proof(&mut out, proof.of_store)?;
    Ok(out)
}

/// Adds a commitment proof, behind its count.
#[tactic(auto, unfolding(crate::specs::Merkle::proof_field))]
fn push_proof(out: &mut Vec<u8>, proof: &[u8]) -> Result<(), AllocError>
    ensures { OnOk result (out.new.items ≡ out.old.items ++ proof_field proof.now) }
{
    out.push(0x0a)?;
    push_varint(out, proof.len() as u64)?;
    out.extend_from_slice(proof)?;
    Ok(())
}

/// Adds a number as a base-128 varint.
fn push_varint(out: &mut Vec<u8>, number: u64) -> Result<(), AllocError>
    ensures { OnOk result (out.new.items ≡ out.old.items ++ varint number) }
{
    let mut rest = number;
    while rest >= 128 {
        out.push((rest % 128 + 128) as u8)?;
        rest /= 128;
    }
    out.push(rest as u8)?;
    Ok(())
}
