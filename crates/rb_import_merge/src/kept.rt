//! Which of a chain's sets are written.
ghost use Rattle.std.specs.Prelude.{◌↔◌, Contains, IsTrue};
ghost use Rattle.std.specs.List.Sorted.{IsStrictlyIncreasing};

/// The sets of a chain that its book has room for, by their places among those that were seen, rising; and how many
/// others headers and records name.
#[derive(Drop)]
pub struct KeptSets {
    pub places: Vec<usize>,
    pub left_out: usize,
    ghost rising: { IsStrictlyIncreasing places.items },
}

impl KeptSets {
    /// Whether the set at a place is one of these.
    pub fn has(&self, place: usize) -> bool
        ensures { IsTrue result ↔ Contains self.now.places.items place }
    {
        self.places.binary_search(&place).is_ok()
    }
}
