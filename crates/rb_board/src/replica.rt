//! The two copies of the board.
ghost use Rattle.rb_core.specs.Follower.{follows};

use left_right::Absorb;
use rb_core::{Follower, Told};
use std::alloc::{AllocError, Allocator, Global};

/// One of the two copies: a follower of what was appended.
#[derive(Drop)]
pub(crate) struct Replica<A: Allocator = Global> {
    pub(crate) follower: Follower<A>,
}

impl<A: Allocator + Copy> Absorb<Told<A>> for Replica<A> {
    type State = Follower<A>;

    ghost state = { λ h. h.follower };

    ghost applied = { follows };

    /// Follows what is told, which the other copy is to follow, too. Where that is refused, this copy is
    /// as it was.
    fn absorb_first(&mut self, told: &Told<A>, _other: &Replica<A>) -> Result<(), AllocError> {
        match self.follower.follow(told) {
            Ok(()) => Ok(()),
            Err(_error) => Err(AllocError),
        }
    }

    /// Follows what is told. Where that is refused, it comes back, and this copy is as it was.
    fn absorb_second(&mut self, told: Told<A>, _other: &Replica<A>) -> Result<(), Told<A>> {
        match self.follower.follow(&told) {
            Ok(()) => Ok(()),
            Err(_error) => Err(told),
        }
    }
}
