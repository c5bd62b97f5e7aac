//! What the pen tells desks.

/// How many events had happened when it was made: they are to be published before it is handed on.
#[derive(Clone, Copy, PartialEq, Eq)]
pub struct Note {
    pub front: usize,
}
