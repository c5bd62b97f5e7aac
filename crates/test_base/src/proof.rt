//! A case of ICS 23: what proofs show, what a message has of them, and the keys that they are of.
use crate::words::Words;
use anyhow::bail;
use rb_ics23::{
    ExistenceProof, HashOp, LeafOp, LengthOp, MerklePath, MerkleProof, acknowledgement_path,
    commitment_path, merkle_proof, next_sequence_path, receipt_path, root_of, shows_absent,
    shows_member,
};
use std::alloc::Global;

/// What comes of a case that begins with this word.
pub fn answer(alloc: Global, asked: &str, words: &mut Words) -> anyhow::Result<String> {
    match asked {
        "member" => member(alloc, words),
        "absent" => absent(alloc, words),
        "leaf" => leaf(alloc, words),
        "proof" => proof(alloc, words),
        "commitment" => {
            let (port, channel) = (words.text()?, words.text()?);
            Ok(commitment_path(alloc, port, channel, words.number()?)?)
        }
        "acknowledgement" => {
            let (port, channel) = (words.text()?, words.text()?);
            Ok(acknowledgement_path(alloc, port, channel, words.number()?)?)
        }
        "receipt" => {
            let (port, channel) = (words.text()?, words.text()?);
            Ok(receipt_path(alloc, port, channel, words.number()?)?)
        }
        "next" => Ok(next_sequence_path(alloc, words.text()?, words.text()?)?),
        word => bail!("no case begins with {word}"),
    }
}

/// Whether a key has a value: the app hash, the store, the key, the value, both proofs.
fn member(alloc: Global, words: &mut Words) -> anyhow::Result<String> {
    let app_hash = words.bytes(alloc)?;
    let store = words.bytes(alloc)?;
    let key = words.bytes(alloc)?;
    let value = words.bytes(alloc)?;
    let of_key = words.bytes(alloc)?;
    let of_store = words.bytes(alloc)?;
    let path = MerklePath {
        store: &store,
        key: &key,
    };
    let proof = MerkleProof {
        of_key: &of_key,
        of_store: &of_store,
    };
    let is_shown = shows_member(alloc, &app_hash, &path, &value, &proof)?;
    Ok(format!(in alloc; "{is_shown}")?)
}

/// Whether a key has no value: the app hash, the store, the key, both proofs.
fn absent(alloc: Global, words: &mut Words) -> anyhow::Result<String> {
    let app_hash = words.bytes(alloc)?;
    let store = words.bytes(alloc)?;
    let key = words.bytes(alloc)?;
    let of_key = words.bytes(alloc)?;
    let of_store = words.bytes(alloc)?;
    let path = MerklePath {
        store: &store,
        key: &key,
    };
    let proof = MerkleProof {
        of_key: &of_key,
        of_store: &of_store,
    };
    let is_shown = shows_absent(alloc, &app_hash, &path, &proof)?;
    Ok(format!(in alloc; "{is_shown}")?)
}

/// The bytes of a message's proof: of both proofs.
fn proof(alloc: Global, words: &mut Words) -> anyhow::Result<String> {
    let of_key = words.bytes(alloc)?;
    let of_store = words.bytes(alloc)?;
    let bytes = merkle_proof(
        alloc,
        &MerkleProof {
            of_key: &of_key,
            of_store: &of_store,
        },
    )?;
    Ok(hex::encode(alloc, bytes)?)
}

/// The root of a tree of one leaf: the prefix of the leaf, the key, the value.
fn leaf(alloc: Global, words: &mut Words) -> anyhow::Result<String> {
    let prefix = words.bytes(alloc)?;
    let key = words.bytes(alloc)?;
    let value = words.bytes(alloc)?;
    let leaf = LeafOp {
        hash: HashOp::Sha256,
        prehash_key: HashOp::NoHash,
        prehash_value: HashOp::Sha256,
        length: LengthOp::VarProto,
        prefix: &prefix,
    };
    let root = root_of(&ExistenceProof {
        key: &key,
        value: &value,
        leaf,
        path: &[],
    });
    Ok(hex::encode(alloc, root)?)
}
