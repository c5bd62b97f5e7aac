//! A row of a step table by itself.
ghost use Rattle.std.specs.Prelude.{◌≡◌, ◌↔◌, IsTrue};
ghost use Rattle.rb_graph.specs.Frame.{IsRowOf};

use crate::build::is_stored_row_of;
use crate::frame::Frame;
use crate::stored_row::StoredRow;
use std::alloc::{Allocator, Global};
use std::marker::Model;

/// A row of a step table by itself, with its number among the rows of the frame that made it: so
/// rows that several threads make in any order can be put together.
#[derive(Drop)]
pub struct FrameRow<A: Allocator = Global> {
    number: usize,
    kept: StoredRow<A>,
}

impl<A: Allocator> Model for FrameRow<A> {
    ghost use Rattle.rb_graph.specs.Frame as frame;

    ghost Value = { frame.FrameRow };

    ghost view = { λ r. record { number = r.number; kept = r.kept } };
}

impl<A: Allocator> FrameRow<A> {
    pub(crate) fn new(number: usize, kept: StoredRow<A>) -> FrameRow<A>
        ensures { result ≡ record { number = number; kept = kept } }
    {
        FrameRow { number, kept }
    }

    /// The row's number, from 0: the place of its header among the book's headers, which stand by
    /// rising height.
    pub fn number(&self) -> usize
        ensures { result ≡ self.now.number }
    {
        self.number
    }

    pub(crate) fn into_kept(self) -> StoredRow<A>
        ensures { result ≡ self.kept }
    {
        self.kept
    }
}

impl<A: Allocator + Copy> FrameRow<A> {
    /// Whether this is the frame's row of its number, by its contents; false where the frame has no
    /// row of this number. For rows of which it isn't known what made them: the frame's own row is
    /// summed anew, by a look-up for each member of each set that a lower record names.
    pub fn is_of(&self, frame: &Frame<A>) -> bool
        ensures { IsTrue result ↔ IsRowOf frame.now self.now }
    {
        if frame.rows() <= self.number {
            return false;
        }
        let header = frame.header(self.number);
        is_stored_row_of(frame.book(), header, frame.lowest(), &self.kept)
    }
}
