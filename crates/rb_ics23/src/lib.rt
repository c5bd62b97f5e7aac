//! Proofs of ICS 23: what their bytes show to stand in a store of which the root is known, and what not; the keys of packets
//! (ICS 24), and the bytes of a message's proof.
#![tactic(auto)]

mod fields;
mod fit;
mod hash;
pub mod laws;
mod merkle;
mod neighbours;
mod ops;
mod paths;
mod proof;
mod read;
mod shown;
mod varint;
mod verify;

pub use hash::root_of;
pub use merkle::{MerkleProof, merkle_proof};
pub use paths::{acknowledgement_path, commitment_path, next_sequence_path, receipt_path};
pub use proof::{ExistenceProof, HashOp, InnerOp, LeafOp, LengthOp, MerklePath};
pub use shown::{shows_absent, shows_member};
