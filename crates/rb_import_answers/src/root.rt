//! Roots of a chain's state.
ghost use Rattle.std.specs.Prelude.{◌≡◌};
ghost use Rattle.rb_import_answers.specs.Roots.{root_of};

use sha2::{Digest, Sha256};

/// The root that a script has: 32 bytes as they are, others by their SHA-256.
#[tactic(auto, unfolding(crate::specs::Roots::root_of))]
pub(crate) fn root_of(bytes: &[u8]) -> [u8; 32]
    ensures { result ≡ root_of bytes.now }
{
    if bytes.len() != 32 {
        return Sha256::digest(bytes);
    }
    let mut root = [0; 32];
    root.copy_from_slice(bytes);
    root
}
