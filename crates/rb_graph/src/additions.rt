//! Additions to a step table.
ghost use Rattle.std.specs.Prelude.{◌≡◌, IfErr, OnOk, OnErr, None};
ghost use Rattle.rb_book.specs.Intake.{record_refusal, header_refusal, set_refusal, after_record, after_header, after_set, IsRefusal};

use crate::build::first_naming;
use crate::graph::Graph;
use crate::lanes::enter_set;
use crate::reached::{
    enter_powers, enter_record, late_powers, lower_headers, lower_sets, move_places, new_row,
};
use rb_base::Height;
use rb_book::{BookError, Header, Record};
use rb_valset::ValidatorSet;
use std::alloc::Allocator;

/// Additions to the light store. The book's own refusals come first (`ChainBook::judge_set`,
/// `judge_record`, `judge_header`), then `NoMemory`; an error changes nothing, and neither does what
/// the book has already. Only rows that an addition reaches are changed: the table stays that of its
/// book, for much less than making it anew.
impl<A: Allocator + Copy> Graph<A> {
    /// Adds a validator set: `HashClash` where the book has another set of this hash, `Full` where it
    /// has as many sets or addresses as it may. Each row above a record that names the set as its next
    /// gets the power of its header's commit voters in the set, one sum for each such row.
    pub fn add_set(&mut self, set: ValidatorSet<A>) -> Result<(), BookError>
        ensures accepted { OnOk result (set_refusal self.old set ≡ None) }
        ensures added { OnOk result (self.new ≡ after_set self.old set) }
        ensures refused { IfErr result (λ e. IsRefusal e (set_refusal self.old set)) }
        ensures unchanged { OnErr result (self.new ≡ self.old) }
    {
        self.book.judge_set(&set)?;
        if self.book.set(set.hash()).is_some() {
            return Ok(());
        }
        let alloc = self.alloc();
        let place = lower_sets(self.book.sets(), &set);
        let powers = late_powers(alloc, &self.book, &set)?;
        self.lowest.reserve(1)?;
        self.book.make_room(&set)?;
        let rows = self.rows.as_mut_slice();
        enter_powers(&self.book, rows, &set, place, powers.as_slice())?;
        move_places(&self.book, &mut self.next_places, &set, place);
        enter_set(alloc, &self.book, &mut self.lanes, &set, place);
        let lowest = first_naming(&self.book, &set);
        self.lowest.insert(place, lowest).unwrap();
        self.book.put_set(set);
        Ok(())
    }

    /// Adds a record at a height: `Conflict` where the height has another record, `TimeOrder` where its
    /// time doesn't stand between those of its neighbours, `Full` where the book has as many records as
    /// it may. Where its next set is known and no lower record names that, each row above the record
    /// gets its power in the set.
    pub fn add_record(&mut self, height: Height, entry: Record) -> Result<(), BookError>
        ensures accepted { OnOk result (record_refusal self.old height entry ≡ None) }
        ensures added { OnOk result (self.new ≡ after_record self.old height entry) }
        ensures refused { IfErr result (λ e. IsRefusal e (record_refusal self.old height entry)) }
        ensures unchanged { OnErr result (self.new ≡ self.old) }
    {
        self.book.judge_record(height, &entry)?;
        let rows = self.rows.as_mut_slice();
        enter_record(
            &self.book,
            &mut self.next_places,
            &mut self.lowest,
            rows,
            height,
            &entry,
        )?;
        self.book.put_record(height, entry);
        Ok(())
    }

    /// Adds a header and its record: `UnknownSet` where the book hasn't the header's own set,
    /// `WrongVerdictCount` where it hasn't one vote for each member of that set, `BadVote` where one is
    /// bad, `Conflict` where the height has another header, and what `add_record` answers for its
    /// record. The header gets its row, and the rows above it what the record brings them.
    pub fn add_header(&mut self, header: Header<A>) -> Result<(), BookError>
        ensures accepted { OnOk result (header_refusal self.old header ≡ None) }
        ensures added { OnOk result (self.new ≡ after_header self.old header) }
        ensures refused { IfErr result (λ e. IsRefusal e (header_refusal self.old header)) }
        ensures unchanged { OnErr result (self.new ≡ self.old) }
    {
        self.book.judge_header(&header)?;
        let height = header.height();
        if self.book.header(height).is_some() {
            return Ok(());
        }
        let place = lower_headers(self.book.headers(), height);
        let alloc = self.alloc();
        let lowest = self.lowest.as_slice();
        let row = new_row(alloc, &self.book, &header, lowest, &mut self.lanes)?;
        self.rows.reserve(1)?;
        let rows = self.rows.as_mut_slice();
        enter_record(
            &self.book,
            &mut self.next_places,
            &mut self.lowest,
            rows,
            height,
            header.record(),
        )?;
        self.rows.insert(place, row).unwrap();
        self.book.put_header(header);
        Ok(())
    }
}
