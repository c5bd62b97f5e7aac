//! What the sets before had: the next set with the same validators hashes no key, leaf or node of theirs again.
ghost use Rattle.std.specs.Prelude.{◌≡◌};
ghost use Rattle.std.specs.Result.{OkIff};
ghost use Rattle.rb_valset.specs.Validator.{IsPower};

use crate::error::ValsetError;
use crate::judge::MAX_MEMBERS;
use crate::key::PublicKey;
use crate::validator::Validator;
use rb_merkle::{Buckets, KnownNodes};
use std::alloc::{AllocError, Allocator, Global};

/// Validators that were made before, and inner nodes of the trees of their sets.
#[derive(Drop)]
pub struct Known<A: Allocator = Global> {
    validators: Buckets<Validator, A>,
    pub(crate) nodes: KnownNodes<A>,
}

impl<A: Allocator + Copy> Known<A> {
    /// Nothing is known.
    pub fn new(alloc: A) -> Known<A> {
        Known {
            validators: Buckets::new(alloc),
            nodes: KnownNodes::new(alloc),
        }
    }

    /// Makes room for the members of a set of this size, 8 buckets at least for each. Where there was less
    /// room, nothing is known any more.
    pub fn make_room(&mut self, alloc: A, size: usize) -> Result<(), AllocError> {
        let buckets = (8 * size.min(MAX_MEMBERS)).next_power_of_two();
        self.validators.make_room(alloc, buckets)?;
        self.nodes.make_room(alloc, buckets)
    }

    /// The validator of this key and power, as `Validator::new` makes it.
    pub fn validator(&mut self, key: PublicKey, power: u64) -> Result<Validator, ValsetError>
        ensures { OkIff result (IsPower power) (record { key = key; power = power }) }
    {
        let number = number_of(&key);
        if let Some(known) = self.validators.get(number) {
            if known.is_of(&key, power) {
                return Ok(*known);
            }
        }
        let made = Validator::new(key, power)?;
        self.validators.put(number, made);
        Ok(made)
    }
}

/// A number by the bytes of a key behind the first, which tells few secp256k1 keys apart.
fn number_of(key: &PublicKey) -> u64 {
    match key.as_bytes() {
        [_, a, b, c, d, ..] => u64::from(u32::from_le_bytes([*a, *b, *c, *d])),
        _ => 0,
    }
}
