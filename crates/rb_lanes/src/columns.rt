//! The numbering of addresses.
ghost use Rattle.std.specs.Prelude.{◌≡◌, ◌<◌, ◌≤◌, ◌↔◌, [], length, position, IfOk, IfSome, OnOk, OnErr, IsErrOf};
ghost use Rattle.std.specs.List.{IsDistinct};
ghost use Rattle.std.specs.Str.{bytes_eq};
ghost use Rattle.rb_lanes.specs.Lanes.{max_columns, with_address};
ghost use Rattle.rb_lanes.specs.Refusal.{IsFull};

use crate::error::LanesError;
use indexmap::IndexSet;
use std::alloc::{Allocator, Global};
use std::hash::{BuildHasherDefault, FoldHasher};
use std::marker::Model;

/// The most columns.
const MAX_COLUMNS: usize = 65_536;

/// Different addresses, 65,536 at most. The column of each is its place in the order in which they
/// came, counted from 0.
#[derive(Drop)]
pub struct Columns<A: Allocator = Global> {
    known: IndexSet<[u8; 20], BuildHasherDefault<FoldHasher>, A>,
}

impl<A: Allocator> Model for Columns<A> {
    ghost use Rattle.std.specs.Prelude.{◌≤◌, List, ℕ, length};
    ghost use Rattle.rb_lanes.specs.Lanes.{max_columns};

    ghost Value = { List (List ℕ) };

    ghost view = { λ c. c.known.keys };

    ghost invariant = { λ c. length c.known.keys ≤ max_columns };
}

impl<A: Allocator + Copy> Columns<A> {
    /// No column.
    pub fn new(alloc: A) -> Columns<A>
        ensures { result ≡ [] }
    {
        Columns {
            known: IndexSet::new(alloc),
        }
    }
}

impl<A: Allocator> Columns<A> {
    /// How many columns there are.
    pub fn len(&self) -> usize
        ensures value { result ≡ length self.now }
        ensures range { result ≤ max_columns }
        ensures distinct { IsDistinct bytes_eq self.now }
    {
        self.known.len()
    }

    /// The column of an address, if it has one.
    pub fn column(&self, address: &[u8; 20]) -> Option<u32>
        ensures value { result ≡ position (bytes_eq address.now) self.now }
        ensures range { IfSome result (λ column. column < length self.now) }
        ensures few { length self.now ≤ max_columns }
    {
        let column = self.known.get_index_of(address)?;
        Some(column as u32)
    }

    /// The column of an address, which is the next one where it had none. `ColumnsFull` where it had
    /// none and there are 65,536; an error leaves the columns as they were.
    pub fn intern(&mut self, address: &[u8; 20]) -> Result<u32, LanesError>
        ensures column { IfOk result (λ column. position (bytes_eq address.now) self.new ≡ Some column) }
        ensures keys { OnOk result (self.new ≡ with_address self.old address.now) }
        ensures distinct { IsDistinct bytes_eq self.new }
        ensures full { IsErrOf result LanesError.ColumnsFull ↔ IsFull self.old address.now }
        ensures unchanged { OnErr result (self.new ≡ self.old) }
    {
        let is_full = self.known.len() == MAX_COLUMNS;
        if let Some(column) = self.known.get_index_of(address) {
            return Ok(column as u32);
        }
        if is_full {
            return Err(LanesError::ColumnsFull);
        }
        let (column, _) = self.known.insert_full(*address)?;
        Ok(column as u32)
    }
}
