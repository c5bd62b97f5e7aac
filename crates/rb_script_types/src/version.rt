//! Versions of the format of scripts.

/// A version of the format: from the second on the chains' clients share defaults, and books are larger;
/// from the third on messages may wait, turns may say that all is taken, and clients are refreshed to the
/// greatest height; from the fourth on a client's needs are joined to one goal, it is refreshed by gain, hosts may
/// have windows of their own, and blocks may have times.
#[derive(Clone, Copy, PartialEq, Eq)]
pub enum Version {
    One,
    Two,
    Three,
    Four,
}
