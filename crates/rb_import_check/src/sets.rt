//! The sets that were seen of a chain, each found by its hash.
ghost use Rattle.std.specs.Prelude.{◌≡◌, ◌↔◌, [], ℕ, All, Contains, IsSome, IfSome, OnOk, OnErr};
ghost use Rattle.rb_valset.specs.ValidatorSet.{set_hash};
ghost use Rattle.rb_import_check.specs.Sets.{AreIndexed, IsPlaceOf, KeepsSet, WasSeen};

use rb_valset::ValidatorSet;
use std::alloc::{AllocError, Global};
use std::collections::BTreeMap;

/// A set that was seen, and a file that has validators of it.
#[derive(Drop)]
pub struct SeenSet<'a> {
    pub file: &'a str,
    pub set: ValidatorSet,
}

/// Sets that were seen, each once.
#[derive(Drop)]
pub struct SeenSets<'a> {
    pub sets: Vec<SeenSet<'a>>,
    places: BTreeMap<[u8; 32], usize>,
    ghost indexed: { AreIndexed sets.items places },
}

impl<'a> SeenSets<'a> {
    /// No sets.
    pub fn new(alloc: Global) -> SeenSets<'a>
        ensures { result.sets.items ≡ [] }
    {
        SeenSets {
            sets: Vec::new(alloc),
            places: BTreeMap::new(alloc),
        }
    }

    /// The set of this hash, where it was seen.
    pub fn with_hash(&self, hash: &[u8; 32]) -> Option<&SeenSet<'a>>
        ensures found { IsSome result ↔ WasSeen self.now.sets.items hash.now }
        ensures hash { IfSome result (λ seen. set_hash seen.now.set ≡ hash.now) }
        ensures seen { IfSome result (λ seen. Contains self.now.sets.items seen.now) }
        ensures only { IfSome result (λ seen. All (λ s. set_hash s.set ≡ hash.now → s ≡ seen.now) self.now.sets.items) }
    {
        let Some(place) = self.places.get(hash).copied() else {
            return None;
        };
        let Some(seen) = self.sets.get(place) else {
            return None;
        };
        if *seen.set.hash() == *hash {
            Some(seen)
        } else {
            None
        }
    }

    /// The place of the set of this hash among those that were seen, of which one at most has it.
    pub fn place_of(&self, hash: &[u8; 32]) -> Option<usize>
        ensures found { IsSome result ↔ WasSeen self.now.sets.items hash.now }
        ensures place { IfSome result (IsPlaceOf self.now.sets.items hash.now) }
        ensures only { IfSome result (λ place. (other : ℕ) → IsPlaceOf self.now.sets.items hash.now other → other ≡ place) }
    {
        let Some(place) = self.places.get(hash).copied() else {
            return None;
        };
        let Some(seen) = self.sets.get(place) else {
            return None;
        };
        if *seen.set.hash() == *hash {
            Some(place)
        } else {
            None
        }
    }

    /// Keeps a set, if none of its hash was seen.
    #[tactic(auto, using(crate::proofs::SetsLemmas::indexing))]
    pub fn add(&mut self, seen: SeenSet<'a>) -> Result<(), AllocError>
        ensures seen { OnOk result (WasSeen self.new.sets.items (set_hash seen.entry.set)) }
        ensures unchanged { OnErr result (self.new.sets.items ≡ self.old.sets.items) }
        ensures kept { OnOk result (KeepsSet seen.entry self.old.sets.items self.new.sets.items) }
    {
        let hash = *seen.set.hash();
        if self.with_hash(&hash).is_some() {
            return Ok(());
        }
        self.places.insert(hash, self.sets.len())?;
        self.sets.push(seen)?;
        Ok(())
    }
}
