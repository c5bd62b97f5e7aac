//! What a proof is made of (ICS 23, `proofs.proto`).

/// How an operation hashes, or what it hashes first.
#[derive(Clone, Copy, Debug, PartialEq, Eq)]
pub enum HashOp {
    /// Not at all.
    NoHash,
    /// By SHA-256.
    Sha256,
    /// By another hash, which neither of the specs has.
    Other,
}

/// How the length of a key or a value stands before it.
#[derive(Clone, Copy, Debug, PartialEq, Eq)]
pub enum LengthOp {
    /// Not at all.
    NoPrefix,
    /// As a varint.
    VarProto,
    /// In another way, which neither of the specs has.
    Other,
}

/// How a key and its value become the hash of a leaf.
#[derive(Clone, Copy, Debug)]
pub struct LeafOp<'a> {
    pub hash: HashOp,
    pub prehash_key: HashOp,
    pub prehash_value: HashOp,
    pub length: LengthOp,
    pub prefix: &'a [u8],
}

/// How the hash of a node is made of the hash of its child on the path.
#[derive(Clone, Copy, Debug)]
pub struct InnerOp<'a> {
    pub hash: HashOp,
    pub prefix: &'a [u8],
    pub suffix: &'a [u8],
}

/// That a key has a value: the leaf, and the path from it to the root.
#[derive(Clone, Copy, Debug)]
pub struct ExistenceProof<'p, 'a> {
    pub key: &'a [u8],
    pub value: &'a [u8],
    pub leaf: LeafOp<'a>,
    pub path: &'p [InnerOp<'a>],
}

/// That a key has no value: the neighbours of the place where it would stand.
#[derive(Clone, Copy, Debug)]
pub struct NonExistenceProof<'p, 'a> {
    pub left: Option<ExistenceProof<'p, 'a>>,
    pub right: Option<ExistenceProof<'p, 'a>>,
}

/// Of which kind the tree is.
#[derive(Clone, Copy, Debug, PartialEq, Eq)]
pub enum ProofSpec {
    /// A store of the Cosmos SDK (`IavlSpec`).
    Iavl,
    /// The Merkle map of such stores (`TendermintSpec`).
    Tendermint,
}

/// Where a value stands under an app hash (ICS 23 in IBC, `MerklePath`).
#[derive(Clone, Copy, Debug)]
pub struct MerklePath<'a> {
    /// The store's name, which is `ibc` on most chains.
    pub store: &'a [u8],
    /// The key in that store.
    pub key: &'a [u8],
}
