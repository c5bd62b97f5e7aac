//! The headers of a chain, parted by whether enough of their own set signed them.
ghost use Rattle.std.specs.Prelude.{◌≡◌, ◌++◌, [], map, All, IfOk, OnOk};
ghost use Rattle.std.specs.List.Sorted.{IsPermutation, IsStrictlyIncreasing};
ghost use Rattle.rb_import_check.specs.Chains.{FitsSet, HasSet, IsBare};
ghost use Rattle.rb_import_check.specs.Signed.{IsSigned, IsUnsigned};
ghost use Rattle.rb_import_check.specs.Standing.{Stands, Takes};

use crate::chain::Commit;
use crate::sets::SeenSets;
use crate::signed::{Signatures, is_signed_by};
use std::alloc::{AllocError, Global};

/// How a header stands to the sets of its chain.
#[derive(Clone, Copy)]
enum Standing {
    /// More than two thirds of its own set signed it.
    Signed,
    /// Its set isn't among them.
    Bare,
    /// Its set is among them, and no more than two thirds of it signed the header.
    Unsigned,
}

/// Headers that their own set signed, those whose set isn't there, and those that too few signed.
#[derive(Drop)]
pub(crate) struct Parts<'a> {
    pub(crate) commits: Vec<Commit<'a>>,
    pub(crate) bare: Vec<Commit<'a>>,
    pub(crate) unsigned: Vec<Commit<'a>>,
}

impl<'a> Parts<'a> {
    /// No headers.
    fn new(alloc: Global) -> Parts<'a>
        ensures commits { result.commits.items ≡ [] }
        ensures bare { result.bare.items ≡ [] }
        ensures unsigned { result.unsigned.items ≡ [] }
    {
        Parts {
            commits: Vec::new(alloc),
            bare: Vec::new(alloc),
            unsigned: Vec::new(alloc),
        }
    }

    /// Adds a header that stands so.
    fn add(&mut self, standing: Standing, commit: Commit<'a>) -> Result<(), AllocError>
        ensures { OnOk result (Takes standing commit.entry self.old self.new) }
    {
        match standing {
            Standing::Signed => self.commits.push(commit)?,
            Standing::Bare => self.bare.push(commit)?,
            Standing::Unsigned => self.unsigned.push(commit)?,
        }
        Ok(())
    }
}

/// The headers of a chain, each in one part: whose set isn't among these is judged first.
pub(crate) fn parted<'a>(
    alloc: Global,
    signatures: Signatures,
    commits: &[Commit<'a>],
    sets: &SeenSets<'a>,
) -> Result<Parts<'a>, AllocError>
    requires rising { IsStrictlyIncreasing (map (λ c. c.header.now.height) commits.now) }
    requires fits { All (FitsSet sets.now.sets.items) commits.now }
    ensures same { IfOk result (λ parts. IsPermutation commits.now (parts.commits.items ++ parts.bare.items ++ parts.unsigned.items)) }
    ensures rising { IfOk result (λ parts. IsStrictlyIncreasing (map (λ c. c.header.now.height) parts.commits.items)) }
    ensures bare_rising { IfOk result (λ parts. IsStrictlyIncreasing (map (λ c. c.header.now.height) parts.bare.items)) }
    ensures unsigned_rising { IfOk result (λ parts. IsStrictlyIncreasing (map (λ c. c.header.now.height) parts.unsigned.items)) }
    ensures sets { IfOk result (λ parts. All (HasSet sets.now.sets.items) parts.commits.items) }
    ensures signed { IfOk result (λ parts. All (IsSigned signatures sets.now.sets.items) parts.commits.items) }
    ensures bare { IfOk result (λ parts. All (IsBare sets.now.sets.items) parts.bare.items) }
    ensures unsigned { IfOk result (λ parts. All (IsUnsigned signatures sets.now.sets.items) parts.unsigned.items) }
{
    let mut parts = Parts::new(alloc);
    for commit in commits {
        let standing = standing_of(signatures, commit, sets);
        parts.add(standing, *commit)?;
    }
    Ok(parts)
}

/// How a header stands to these sets.
fn standing_of(signatures: Signatures, commit: &Commit<'_>, sets: &SeenSets<'_>) -> Standing
    ensures { Stands signatures sets.now.sets.items commit.now result }
{
    match sets.with_hash(&commit.header.set) {
        Some(seen) if is_signed_by(signatures, commit, &seen.set) => Standing::Signed,
        Some(_) => Standing::Unsigned,
        None => Standing::Bare,
    }
}
