//! The stored row of a header.
ghost use Rattle.std.specs.Prelude.{◌≡◌, ◌<◌, ◌≤◌, length, slice_set, Some, IfOk, OnOk, OnErr};
ghost use Rattle.std.specs.List.{insert, remove};

use std::alloc::{AllocError, Allocator, Global};
use std::marker::Model;

/// What a step table stores of one header: how many members its own validator set has, whether more
/// than two thirds of that set's power signed the header, and for each set of the book, by its place,
/// the power in that set of the header's commit voters. Only sets that a lower record names as its
/// next have a power, since the light client asks for no other (CometBFT, `VerifyCommitLightTrusting`).
#[derive(Drop)]
pub struct StoredRow<A: Allocator = Global> {
    size: usize,
    is_signed: bool,
    signed: Vec<Option<u64>, A>,
}

impl<A: Allocator> Model for StoredRow<A> {
    ghost use Rattle.rb_graph.specs.StoredRow as stored;

    ghost Value = { stored.StoredRow };

    ghost view = { λ k. record { size = k.size; is_signed = k.is_signed; signed = k.signed.items } };
}

impl<A: Allocator> StoredRow<A> {
    /// The row of a header from its parts: the number of members of its own set; whether its commit
    /// voters hold more than two thirds of that set's power; and one entry for each set of the book,
    /// in the order of `ChainBook::sets`: the power in the set of the commit voters, or `None` where no
    /// record below the header names the set as its next. No part is checked against a book:
    /// `stored_row_of` makes the row of a header of a book.
    pub fn new(size: usize, is_signed: bool, signed: Vec<Option<u64>, A>) -> StoredRow<A>
        ensures { result ≡ record { size = size; is_signed = is_signed; signed = signed.items } }
    {
        StoredRow {
            size,
            is_signed,
            signed,
        }
    }

    /// The number of members of the header's own set, each of whom it has one vote of.
    pub fn size(&self) -> usize
        ensures { result ≡ self.now.size }
    {
        self.size
    }

    /// Whether the header's commit voters hold more than two thirds of the power of its own set.
    pub fn is_signed(&self) -> bool
        ensures { result ≡ self.now.is_signed }
    {
        self.is_signed
    }

    /// The header's signed powers, one entry for each set of the book, by its place: the power in the
    /// set of the header's commit voters, `None` where no record below the header names the set.
    pub fn signed(&self) -> &[Option<u64>]
        ensures { result.now ≡ self.now.signed }
    {
        self.signed.as_slice()
    }

    /// Writes the signed power in the set at a place, which a record below the header names from now
    /// on.
    pub fn set_signed(&mut self, set_place: usize, power: u64)
        requires { set_place < length self.old.signed }
        ensures { self.new ≡ record {
          size = self.old.size;
          is_signed = self.old.is_signed;
          signed = slice_set self.old.signed set_place (Some power);
        } }
    {
        self.signed[set_place] = Some(power);
    }

    /// Makes an entry for a new set of the book at its place: later entries move up by one. The new
    /// entry is the signed power in the set, `None` where no record below the header names the set.
    /// `AllocError` where memory is wanting; the row is unchanged then.
    pub fn insert(&mut self, set_place: usize, power: Option<u64>) -> Result<(), AllocError>
        requires { set_place ≤ length self.old.signed }
        ensures inserted { OnOk result (self.new ≡ record {
          size = self.old.size;
          is_signed = self.old.is_signed;
          signed = insert self.old.signed set_place power;
        }) }
        ensures unchanged { OnErr result (self.new ≡ self.old) }
    {
        self.signed.insert(set_place, power)?;
        Ok(())
    }

    /// Takes out the entry at a place: later ones move down by one. It undoes `insert`.
    pub fn remove(&mut self, set_place: usize)
        requires { set_place < length self.old.signed }
        ensures { self.new ≡ record {
          size = self.old.size;
          is_signed = self.old.is_signed;
          signed = remove self.old.signed set_place;
        } }
    {
        self.signed.remove(set_place);
    }
}

impl<A: Allocator + Copy> StoredRow<A> {
    /// An equal row on this allocator, which shares nothing with this one. `AllocError` where memory is
    /// wanting.
    pub fn copy(&self, alloc: A) -> Result<StoredRow<A>, AllocError>
        ensures { IfOk result (λ row. row ≡ self.now) }
    {
        Ok(StoredRow {
            size: self.size,
            is_signed: self.is_signed,
            signed: Vec::from_slice(alloc, self.signed.as_slice())?,
        })
    }
}
