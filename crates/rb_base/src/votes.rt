//! Which votes an update carries.

/// Which votes of a header's commit (CometBFT, `Commit`) an update carries, and so what it is charged
/// for. A vote that isn't carried is marked absent in the update's header: a light client verifies no
/// hash over the commit.
#[derive(Clone, Copy, PartialEq, Eq)]
pub enum CarriedVotes {
    /// All; only commit votes are charged, as in scripts of version 1 and 2.
    Commit,
    /// All that were cast, for the block or for nil; each is charged.
    Cast,
    /// The commit votes that the step's tests need; each is charged.
    Needed,
}
