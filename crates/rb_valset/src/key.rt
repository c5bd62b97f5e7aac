//! Public keys of validators.
ghost use Rattle.std.specs.Prelude.{◌≡◌, ◌≤◌, length};
ghost use Rattle.rb_valset.specs.Validator.{address_of, key_bytes, leaf_head};

use sha2::{Digest, Sha256};

/// A validator's public key.
#[derive(Clone, Copy, Debug, PartialEq, Eq)]
pub enum PublicKey {
    /// Of ed25519.
    Ed25519([u8; 32]),
    /// Of secp256k1: a point in its compressed form.
    Secp256k1([u8; 33]),
}

impl PublicKey {
    /// The bytes of the key.
    pub fn as_bytes(&self) -> &[u8]
        ensures bytes { result.now ≡ key_bytes self.now }
        ensures fits { length result.now ≤ 33 }
    {
        match self {
            PublicKey::Ed25519(bytes) => slice_of(bytes),
            PublicKey::Secp256k1(bytes) => slice_of(bytes),
        }
    }

    /// The address of a validator with this key.
    pub(crate) fn address(&self) -> [u8; 20]
        ensures { result ≡ address_of self.now }
    {
        match self {
            PublicKey::Ed25519(bytes) => {
                let digest = Sha256::digest(bytes.as_slice());
                let mut address = [0; 20];
                address.copy_from_slice(&digest[..20]);
                address
            }
            PublicKey::Secp256k1(bytes) => {
                let digest = Sha256::digest(bytes.as_slice());
                crate::ripemd160(digest.as_slice())
            }
        }
    }

    /// The bytes before those of the key in a leaf.
    pub(crate) fn leaf_head(&self) -> [u8; 4]
        ensures { result ≡ leaf_head self.now }
    {
        match self {
            PublicKey::Ed25519(_) => [0x0a, 0x22, 0x0a, 0x20],
            PublicKey::Secp256k1(_) => [0x0a, 0x23, 0x12, 0x21],
        }
    }
}

/// An array as a slice of its length.
fn slice_of<const N: usize>(bytes: &[u8; N]) -> &[u8]
    ensures bytes { result.now ≡ bytes.now }
    ensures size { length result.now ≡ N }
{
    bytes.as_slice()
}
