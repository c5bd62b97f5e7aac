//! Which of equally cheap lists of updates comes first.

/// Which of two heights comes first where a cheapest way may take either (own choice).
#[derive(Clone, Copy, PartialEq, Eq)]
pub enum Ties {
    /// The lower height, as in scripts of version 1 to 3.
    Lower,
    /// The higher height: it proves more packets, and a newer trusted state expires later.
    Higher,
}
