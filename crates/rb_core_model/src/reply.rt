//! What is replied to an event.

/// What is replied to an event that was taken in.
#[derive(Clone, Copy, Debug, PartialEq, Eq)]
pub enum Reply {
    /// Nothing but that it was.
    Noted,
    /// It opened the batch with this number.
    Opened(u64),
}
