//! One bit a column.
ghost use Rattle.std.specs.Prelude.{◌≡◌, ◌<◌, ◌≤◌, Bool, true, false, length, count_by, replicate, drop, slice_set, slice_index_or, IfOk, if◌then◌else◌};
ghost use Rattle.std.specs.Int.{from_bool};

use std::alloc::{AllocError, Allocator, Global};
use std::marker::Model;

/// A bit for each column: of a header, whether the address in that column is one of its commit
/// voters. A bit takes a byte, 1 where it is set and else 0, so that a sum reads it without a shift.
#[derive(Drop)]
pub struct Plane<A: Allocator = Global> {
    bytes: Vec<u8, A>,
}

impl<A: Allocator> Model for Plane<A> {
    ghost use Rattle.std.specs.Prelude.{◌≤◌, List, Bool, All, length};
    ghost use Rattle.rb_lanes.specs.Lanes.{bits_of, max_columns};

    ghost Value = { List Bool };

    ghost view = { λ p. bits_of p.bytes.items };

    ghost invariant = { λ p. (length p.bytes.items ≤ max_columns) × All (λ byte. byte ≤ 1) p.bytes.items };
}

impl<A: Allocator> Plane<A> {
    ghost use Rattle.rb_lanes.specs.Lanes.{max_columns, bits_of};

    /// A plane of so many columns, 65,536 at most, with no bit set. Its only error is want of memory.
    pub fn new(alloc: A, columns: usize) -> Result<Plane<A>, AllocError>
        requires { columns ≤ max_columns }
        ensures { IfOk result (λ plane. plane ≡ replicate columns false) }
    {
        let bytes = vec![in alloc; 0; columns]?;
        Ok(Plane { bytes })
    }

    /// The number of columns.
    pub fn len(&self) -> usize
        ensures value { result ≡ length self.now }
        ensures range { result ≤ max_columns }
    {
        self.bytes.len()
    }

    /// Sets the bit of a column.
    pub fn set(&mut self, column: usize)
        requires { column < length self.old }
        ensures { self.new ≡ slice_set self.old column true }
    {
        self.bytes[column] = 1;
    }

    /// Sets the bit of a column where it is to be set, without a jump.
    pub fn set_if(&mut self, column: usize, is_set: bool)
        requires { column < length self.old }
        ensures { self.new ≡ (if is_set then slice_set self.old column true else self.old) }
    {
        self.bytes[column] = self.bytes[column].max(u8::from(is_set));
    }

    /// Whether the bit of a column is set; past the last column none is.
    pub fn get(&self, column: usize) -> bool
        ensures { result ≡ slice_index_or self.now column false }
    {
        column < self.bytes.len() && self.bytes[column] == 1
    }

    /// The byte of a column: 1 where its bit is set and else 0, as past the last column.
    pub(crate) fn byte(&self, column: usize) -> u8
        ensures { result ≡ from_bool (slice_index_or self.now column false) }
    {
        match self.bytes.get(column) {
            Some(byte) => *byte,
            None => 0,
        }
    }

    /// How many bits are set.
    pub fn count(&self) -> usize
        ensures { result ≡ count_by (λ (bit : Bool). bit) self.now }
    {
        self.bytes.iter().filter(|byte| **byte == 1).count()
    }

    /// The bytes from a column on, none past the last column.
    pub(crate) fn bytes_from(&self, first: usize) -> &[u8]
        ensures bits { bits_of result.now ≡ drop first self.now }
        ensures few { length result.now ≤ max_columns }
    {
        &self.bytes[first.min(self.bytes.len())..]
    }
}
