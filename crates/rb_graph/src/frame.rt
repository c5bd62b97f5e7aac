//! A book whose rows are to be made.
ghost use Rattle.std.specs.Prelude.{◌≡◌, ◌<◌, All, IfOk, Some, length, map, slice_get};
ghost use Rattle.rb_book.specs.Invariant.{IsBacked};
ghost use Rattle.rb_graph.specs.StoredRow.{first_naming};
ghost use Rattle.rb_graph.specs.Frame.{IsRowOf, IsWhole};

use crate::build::{first_namings, next_places, stored_row_of};
use crate::frame_row::FrameRow;
use crate::numbers::{number_sets, tallies_of};
use rb_base::Height;
use rb_book::{ChainBook, Header};
use rb_lanes::{Columns, Tally};
use std::alloc::{AllocError, Allocator, Global};
use std::marker::Model;

/// A book whose rows are to be made, with what they are made from: the places of the records' next
/// sets, and the members of all sets by column. Each row is made by itself, so that many threads that
/// are lent the frame can make rows side by side; `finish` puts these together to the table.
#[derive(Drop)]
pub struct Frame<A: Allocator = Global> {
    pub(crate) book: ChainBook<A>,
    pub(crate) next_places: Vec<Option<usize>, A>,
    pub(crate) lowest: Vec<Option<Height>, A>,
    pub(crate) columns: Columns<A>,
    pub(crate) tallies: Vec<Tally<A>, A>,
}

impl<A: Allocator> Model for Frame<A> {
    ghost use Rattle.std.specs.Prelude.{◌≡◌, map, All};
    ghost use Rattle.rb_book.specs.Book.{Book};
    ghost use Rattle.rb_graph.specs.StoredRow as tables;
    ghost use Rattle.rb_graph.specs.Numbering as numbers;

    ghost Value = { Book };

    ghost view = { λ f. f.book };

    ghost invariant = { λ f. (f.next_places.items ≡ tables.next_places f.book)
        × (f.lowest.items ≡ map (tables.first_naming f.book) f.book.sets)
        × All (numbers.AreNumbered f.columns) f.book.sets
        × (f.tallies.items ≡ map (numbers.entries_of f.columns) f.book.sets) };
}

impl<A: Allocator + Copy> Frame<A> {
    /// The frame of this book: numbers the members of all sets, and makes no row. `AllocError` where
    /// memory is wanting; the book is lost then.
    pub fn from_book(alloc: A, book: ChainBook<A>) -> Result<Frame<A>, AllocError>
        ensures { IfOk result (λ frame. frame ≡ book) }
    {
        let next_places = next_places(alloc, &book)?;
        let lowest = first_namings(alloc, &book)?;
        let columns = number_sets(alloc, book.sets(), lowest.as_slice())?;
        let tallies = tallies_of(alloc, &columns, book.sets())?;
        Ok(Frame {
            book,
            next_places,
            lowest,
            columns,
            tallies,
        })
    }

    /// The number of rows that make the table: one for each header, numbered from 0 by rising height.
    pub fn rows(&self) -> usize
        ensures { result ≡ length self.now.headers }
    {
        self.book.headers().len()
    }

    /// The book whose rows are to be made.
    pub fn book(&self) -> &ChainBook<A>
        ensures { result.now ≡ self.now }
    {
        &self.book
    }

    /// The header at a place.
    pub(crate) fn header(&self, place: usize) -> &Header<A>
        requires { place < length self.now.headers }
        ensures header { slice_get self.now.headers place ≡ Some result.now }
        ensures backed { IsBacked self.now result.now }
    {
        &self.book.headers()[place]
    }

    /// For each set, by its place, the height of the lowest record that names it.
    pub(crate) fn lowest(&self) -> &[Option<Height>]
        ensures { result.now ≡ map (first_naming self.now) self.now.sets }
    {
        self.lowest.as_slice()
    }

    /// Makes the row with this number, that of the header at this place among the book's headers: it
    /// sums the header's power in each set that a lower record names. `AllocError` where memory is
    /// wanting. A row may be made any number of times; `finish` takes one of each.
    pub fn row(&self, n: usize) -> Result<FrameRow<A>, AllocError>
        requires { n < length self.now.headers }
        ensures number { IfOk result (λ row. row.number ≡ n) }
        ensures row { IfOk result (λ row. IsRowOf self.now row) }
    {
        let kept = stored_row_of(
            *self.lowest.allocator(),
            &self.book,
            self.header(n),
            self.lowest.as_slice(),
            &self.columns,
            self.tallies.as_slice(),
        )?;
        Ok(FrameRow::new(n, kept))
    }

    /// Makes all rows, one after the other.
    pub(crate) fn all_rows(&self) -> Result<Vec<FrameRow<A>, A>, AllocError>
        ensures right { IfOk result (λ rows. All (IsRowOf self.now) rows.items) }
        ensures whole { IfOk result (λ rows. IsWhole (length self.now.headers) rows.items) }
    {
        let mut rows = Vec::with_capacity(*self.lowest.allocator(), self.rows())?;
        for n in 0..self.rows() {
            rows.push(self.row(n)?)?;
        }
        Ok(rows)
    }
}
