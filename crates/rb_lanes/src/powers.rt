//! A power for each column.
ghost use Rattle.std.specs.Prelude.{◌≡◌, ◌+◌, ◌<◌, ◌≤◌, [], ◌∷◌, ◌++◌, length, sum, replicate, slice_set, slice_index, IfOk, OnOk, OnErr};
ghost use Rattle.rb_lanes.specs.Lanes.{max_total};

use std::alloc::{AllocError, Allocator, Global};
use std::marker::Model;

/// The most that powers may add up to: 2^60 - 1.
pub const MAX_TOTAL: u64 = 1_152_921_504_606_846_975;

/// A power for each column. Their sum is at most `MAX_TOTAL`.
#[derive(Drop)]
pub struct Powers<A: Allocator = Global> {
    powers: Vec<u64, A>,
}

impl<A: Allocator> Model for Powers<A> {
    ghost use Rattle.std.specs.Prelude.{◌≤◌, List, ℕ, sum};
    ghost use Rattle.rb_lanes.specs.Lanes.{max_total};

    ghost Value = { List ℕ };

    ghost view = { λ p. p.powers.items };

    ghost invariant = { λ p. sum p.powers.items ≤ max_total };
}

impl<A: Allocator> Powers<A> {
    /// So many columns of power 0. Its only error is want of memory.
    pub fn zeros(alloc: A, columns: usize) -> Result<Powers<A>, AllocError>
        ensures { IfOk result (λ powers. powers ≡ replicate columns 0) }
    {
        let powers = vec![in alloc; 0; columns]?;
        Ok(Powers { powers })
    }

    /// One more column. Its only error is want of memory, which leaves the powers as they were.
    pub fn push(&mut self, power: u64) -> Result<(), AllocError>
        requires { sum self.old + power ≤ max_total }
        ensures ok { OnOk result (self.new ≡ self.old ++ power ∷ []) }
        ensures err { OnErr result (self.new ≡ self.old) }
    {
        self.powers.push(power)?;
        Ok(())
    }

    /// Adds to the power of a column.
    pub fn add(&mut self, column: usize, power: u64)
        requires column { column < length self.old }
        requires total { sum self.old + power ≤ max_total }
        ensures { self.new ≡ slice_set self.old column (slice_index self.old column + power) }
    {
        self.powers[column] += power;
    }

    /// The powers by column.
    pub fn as_slice(&self) -> &[u64]
        ensures value { result.now ≡ self.now }
        ensures total { sum self.now ≤ max_total }
    {
        self.powers.as_slice()
    }
}
