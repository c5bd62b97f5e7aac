//! Blocks that packets are written in.
ghost use Rattle.std.specs.Prelude.{◌≡◌, SomeIff};
ghost use Rattle.rb_script_types.specs.Block.{IsBlockHeight};

use rb_base::{Height, Moment};
use std::marker::Model;

/// The height of a block that sent a packet, received it or wrote its acknowledgement: 1 to
/// 2^63 - 2, so that the next height, the first that proves what the block wrote, is a height too.
#[derive(Clone, Copy, PartialEq, Eq, PartialOrd, Ord)]
pub struct BlockHeight {
    height: Height,
}

impl Model for BlockHeight {
    ghost use Rattle.std.specs.Prelude.{ℕ};
    ghost use Rattle.rb_script_types.specs.Block.{IsBlockHeight};

    ghost Value = { ℕ };

    ghost view = { λ b. b.height };

    ghost invariant = { λ b. IsBlockHeight b.height };

    ghost inverse = { λ n. record { height = n } };
}

impl BlockHeight {
    /// The greatest height of a block.
    pub const MAX: u64 = Height::MAX - 1;

    /// The height of this number, where it is in range.
    pub fn new(number: u64) -> Option<BlockHeight>
        ensures { SomeIff result (IsBlockHeight number) number }
    {
        if number > Self::MAX {
            return None;
        }
        let height = Height::new(number)?;
        Some(BlockHeight { height })
    }

    /// The height.
    pub fn height(self) -> Height
        ensures value { result ≡ self }
        ensures range { IsBlockHeight self }
    {
        self.height
    }
}

/// A block that sent a packet or wrote its acknowledgement: its height, and its time where that is told.
#[derive(Clone, Copy, PartialEq, Eq)]
pub struct Block {
    pub height: BlockHeight,
    pub time: Option<Moment>,
}
