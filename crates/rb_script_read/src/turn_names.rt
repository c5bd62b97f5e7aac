//! The names that the events of a turn know.
ghost use Rattle.rb_script_read.specs.Names.{AreNamed};

use crate::names::{Naming, SetNames};
use std::alloc::{AllocError, Global};

/// The names that the events of a turn know: those of the turns before, which stay as they are, and those
/// that the turn itself gives.
#[derive(Drop)]
pub struct TurnNames<'a> {
    pub alloc: Global,
    pub earlier: &'a SetNames,
    pub own: SetNames,
    pub namings: Vec<Naming>,
    pub ghost named: { AreNamed own namings.items },
}

impl<'a> TurnNames<'a> {
    ghost use Rattle.std.specs.Prelude.{◌≡◌, OnOk};
    ghost use Rattle.rb_script_read.specs.Names.{with_name, with_namings, names_of};
    ghost use Rattle.rb_script_read.specs.TurnNames.{names_now};

    /// The names of the turns before.
    pub fn after(earlier: &'a SetNames) -> TurnNames<'a>
        ensures names { names_now result ≡ names_of earlier.now }
        ensures earlier { result.earlier.now ≡ earlier.now }
    {
        let alloc = earlier.alloc;
        TurnNames {
            alloc,
            earlier,
            own: SetNames::new(alloc),
            namings: Vec::new(alloc),
        }
    }

    /// The hash that a name of this chain stands for.
    #[tactic(auto, using(crate::proofs::TurnNamesLemmas::turn_names))]
    pub fn hash(&self, chain: usize, name: &str) -> Option<[u8; 32]>
        ensures { result ≡ names_now self.now chain name.now }
    {
        match self.own.hash(chain, name) {
            Some(hash) => Some(hash),
            None => self.earlier.hash(chain, name),
        }
    }

    /// Gives a hash a name of this chain.
    #[tactic(auto, using(crate::proofs::TurnNamesLemmas::turn_names))]
    pub fn add(&mut self, chain: usize, name: &str, hash: [u8; 32]) -> Result<(), AllocError>
        ensures added { OnOk result (names_now self.new ≡ with_name chain name.now hash (names_now self.old)) }
        ensures earlier { self.new.earlier.now ≡ self.old.earlier.now }
    {
        let given = String::from_str(self.alloc, name)?;
        self.namings.try_reserve(1)?;
        self.own.add(chain, name, hash)?;
        self.namings.push_reserved(Naming {
            chain,
            name: given,
            hash,
        });
        Ok(())
    }

    /// The names that the turn gave, in their order.
    pub fn into_namings(self) -> Vec<Naming>
        ensures { names_now self.entry ≡ with_namings (names_of self.entry.earlier.now) result.items }
    {
        self.namings
    }
}
