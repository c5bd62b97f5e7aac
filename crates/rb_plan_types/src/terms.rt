//! What a refresh goes by.

/// A client's terms, in nanoseconds.
#[derive(Clone, Copy, PartialEq, Eq)]
pub struct Terms {
    /// A consensus state is trusted for so long after its time.
    pub period: u64,
    /// The refresh age: from this age on of the newest stored state the client is refreshed, if that makes it newer by more
    /// than half of this; 0: the client is never refreshed.
    pub refresh: u64,
}
