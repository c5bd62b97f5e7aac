//! The known heights of a chain.
ghost use Rattle.std.specs.Prelude.{◌≡◌, IfOk, map};
ghost use Rattle.rb_explain.specs.Heights.{known_height, known_heights, signed_by};

use rb_base::Height;
use rb_book::{ChainBook, RecordAt};
use std::alloc::{AllocError, Allocator};

/// A known height; where a header of it is known, also the set that signed it, by its place in the book.
#[derive(Clone, Copy, PartialEq, Eq)]
pub struct KnownHeight {
    pub height: Height,
    pub set: Option<usize>,
}

/// The place of the set that signed the header of a height, where one is known.
fn signed_by<A: Allocator + Copy>(book: &ChainBook<A>, height: Height) -> Option<usize>
    ensures { result ≡ signed_by book.now height }
{
    let header = book.header(height)?;
    book.set_place(header.set_hash())
}

/// The height of a record.
fn known_height<A: Allocator + Copy>(book: &ChainBook<A>, entry: &RecordAt) -> KnownHeight
    ensures { result ≡ known_height book.now entry.now }
{
    let height = entry.height();
    KnownHeight {
        height,
        set: signed_by(book, height),
    }
}

/// Each height of which a book has a record, rising.
fn all_heights<A: Allocator + Copy>(
    alloc: A,
    book: &ChainBook<A>,
) -> Result<Vec<KnownHeight, A>, AllocError>
    ensures { IfOk result (λ heights. heights.items ≡ map (known_height book.now) book.now.records) }
{
    book.records()
        .iter()
        .map(|entry| known_height(book, entry))
        .collect(alloc)
}

/// The known heights of a book, rising; none where they aren't wanted.
pub(crate) fn known_heights<A: Allocator + Copy>(
    alloc: A,
    book: &ChainBook<A>,
    are_wanted: bool,
) -> Result<Vec<KnownHeight, A>, AllocError>
    ensures { IfOk result (λ heights. heights.items ≡ known_heights book.now are_wanted) }
{
    if are_wanted {
        all_heights(alloc, book)
    } else {
        Ok(Vec::new(alloc))
    }
}
