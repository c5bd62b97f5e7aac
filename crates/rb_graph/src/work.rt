//! What additions to a step table cost beside what making the table anew takes, both in about nanoseconds.
//! Nothing rests on these counts but whether a table is kept up or let go.

use crate::build::first_naming;
use crate::graph::Graph;
use crate::reached::lower_headers;
use rb_base::Height;
use rb_book::{ChainBook, Header, Record};
use rb_valset::ValidatorSet;
use std::alloc::Allocator;

/// A number of a row where the row is made, and a member that is looked up in the set of a row.
const MADE: u64 = 40;

/// A row that gets an entry, beside the entries that move, and a row that moves.
const ROW: u64 = 10;

/// What is made anew without a thought.
const SMALL: u64 = 100_000;

fn count(number: usize) -> u64 {
    number as u64
}

impl<A: Allocator + Copy> Graph<A> {
    /// How many numbers the rows of a book's table have: one for each header and set.
    pub fn size_for(book: &ChainBook<A>) -> u64 {
        count(book.headers().len()).saturating_mul(count(book.sets().len()))
    }

    /// What making the table anew takes: its numbers, and the sums over the members of all sets, which
    /// go by columns then.
    pub(crate) fn work_anew(&self) -> u64 {
        let mut members: u64 = 0;
        for set in self.book.sets() {
            members = members.saturating_add(count(set.size() / 2));
        }
        let numbers = Graph::size_for(&self.book).saturating_mul(MADE);
        let sums = count(self.rows.len()).saturating_mul(members);
        numbers.saturating_add(sums).saturating_add(SMALL)
    }

    /// What `add_set` costs: each row gets an entry, before those of the sets with higher hashes, and a
    /// sum over the set's members where a record names the set already.
    pub fn work_of_set(&self, set: &ValidatorSet<A>) -> u64 {
        if self.book.set(set.hash()).is_some() {
            return 0;
        }
        let moved = count(self.book.sets().len()).saturating_add(ROW);
        let summed = match first_naming(&self.book, set) {
            Some(_) => count(set.size()).saturating_mul(MADE),
            None => 0,
        };
        count(self.rows.len()).saturating_mul(moved.saturating_add(summed))
    }

    /// What `add_record` costs: a sum over the members of the record's next set for each row above the
    /// record that is above no other record that names the set.
    pub fn work_of_record(&self, height: Height, entry: &Record) -> u64 {
        let Some(place) = self.book.set_place(entry.next()) else {
            return 0;
        };
        let headers = self.book.headers();
        let upper = match self.lowest.get(place) {
            Some(Some(low)) => lower_headers(headers, *low),
            _ => headers.len(),
        };
        let rows = count(upper.saturating_sub(lower_headers(headers, height)));
        let members = count(self.book.sets()[place].size());
        rows.saturating_mul(members.saturating_mul(MADE).saturating_add(ROW))
    }

    /// What `add_header` costs: a row with a number for each set, before the rows of higher headers, and
    /// what its record costs.
    pub fn work_of_header(&self, header: &Header<A>) -> u64 {
        let height = header.height();
        let headers = self.book.headers();
        let higher = count(headers.len().saturating_sub(lower_headers(headers, height)));
        let made = count(self.book.sets().len()).saturating_mul(MADE);
        let row = made.saturating_add(higher.saturating_mul(ROW));
        row.saturating_add(self.work_of_record(height, header.record()))
    }
}
