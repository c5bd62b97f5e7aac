//! Whether no two elements of a list are alike.
ghost use Rattle.std.specs.Prelude.{◌↔◌, IsTrue, All, AllPairs};

use crate::config::{ClientConfig, PathConfig};
use rb_base::ChainId;

/// What is told apart by an identifier.
pub(crate) trait Differ {
    ghost Differs: { Self → Self → Type 0 };

    /// Whether this one and another are told apart.
    fn differs(&self, other: &Self) -> bool
        ensures { IsTrue result ↔ Differs self.now other.now };
}

impl Differ for ChainId {
    ghost use Rattle.std.specs.Prelude.{◌≢◌};

    ghost Differs = { λ a b. a ≢ b };

    #[tactic(auto, using(crate::proofs::Texts::differ_by_bytes))]
    fn differs(&self, other: &ChainId) -> bool {
        self.as_str() != other.as_str()
    }
}

impl Differ for ClientConfig {
    ghost use Rattle.std.specs.Prelude.{◌≢◌};

    ghost Differs = { λ a b. a.id ≢ b.id };

    #[tactic(auto, using(crate::proofs::Texts::differ_by_bytes))]
    fn differs(&self, other: &ClientConfig) -> bool {
        self.id.as_str() != other.id.as_str()
    }
}

impl Differ for PathConfig {
    ghost use Rattle.std.specs.Prelude.{◌≢◌};

    ghost Differs = { λ a b. a.id ≢ b.id };

    #[tactic(auto, using(crate::proofs::Texts::differ_by_bytes))]
    fn differs(&self, other: &PathConfig) -> bool {
        self.id.as_str() != other.id.as_str()
    }
}

/// Whether an item differs from each of those before it.
fn differs_from_all<T: Differ>(item: &T, before: &[T]) -> bool
    ensures { IsTrue result ↔ All (λ other. T.Differs other item.now) before.now }
{
    before.iter().all(|other| other.differs(item))
}

/// Whether no two of the items are alike; it ends at the first that is like one before it.
pub(crate) fn all_differ<T: Differ>(items: &[T]) -> bool
    ensures { IsTrue result ↔ AllPairs T.Differs items.now }
{
    for (place, item) in items.iter().enumerate() {
        if !differs_from_all(item, &items[..place]) {
            return false;
        }
    }
    true
}
