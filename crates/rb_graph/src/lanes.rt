//! The members of a book's sets by column, which stay beside a table while sets and headers come. They
//! only make sums quick: where memory or columns are wanting they are given up, and the next header that
//! comes has them numbered anew.
ghost use Rattle.std.specs.Prelude.{◌≡◌, ◌≤◌, IfOk, IfSome, OnOk, None, count_by, length, map};
ghost use Rattle.rb_lanes.specs.Lanes.{max_columns};
ghost use Rattle.rb_valset.specs.ValidatorSet.{set_hash};
ghost use Rattle.rb_book.specs.Book.{address_count, is_before};
ghost use Rattle.rb_book.specs.Intake.{with_set};
ghost use Rattle.rb_graph.specs.Numbering.{AreNumbered, AreLanesOf, Extends, entries_of};

use crate::numbers::{number_sets, tallies_of, tally_of};
use rb_base::Height;
use rb_book::ChainBook;
use rb_lanes::{Columns, LanesError, Tally};
use rb_valset::ValidatorSet;
use std::alloc::{AllocError, Allocator};

/// The members of all sets of a book by column: a column for each address, and one tally for each set,
/// by its place, with the powers of its members beside their columns. A table that grows has them, so
/// that a new header is summed without numbering any member again.
#[derive(Drop)]
pub struct Lanes<A: Allocator> {
    pub columns: Columns<A>,
    pub tallies: Vec<Tally<A>, A>,
}

/// The lanes of these sets, of which `lowest` has the height at which each is first named.
pub fn lanes_of<A: Allocator + Copy>(
    alloc: A,
    sets: &[ValidatorSet<A>],
    lowest: &[Option<Height>],
) -> Result<Lanes<A>, AllocError>
    requires { address_count sets.now ≤ max_columns }
    ensures { IfOk result (λ lanes. AreLanesOf sets.now lanes.columns lanes.tallies.items) }
{
    let columns = number_sets(alloc, sets, lowest)?;
    let tallies = tallies_of(alloc, &columns, sets)?;
    Ok(Lanes { columns, tallies })
}

/// Numbers the members of a set that have no column yet, where there is room for them.
fn number_more<A: Allocator>(
    columns: &mut Columns<A>,
    set: &ValidatorSet<A>,
) -> Result<(), LanesError>
    ensures extends { OnOk result (Extends columns.old columns.new) }
    ensures numbered { OnOk result (AreNumbered columns.new set.now) }
{
    for member in set.members() {
        columns.intern(member.address())?;
    }
    Ok(())
}

/// Takes in a set that stands at a place from now on.
fn enter<A: Allocator + Copy>(
    alloc: A,
    book: &ChainBook<A>,
    lanes: &mut Lanes<A>,
    set: &ValidatorSet<A>,
    place: usize,
) -> Result<(), LanesError>
    requires lanes { AreLanesOf book.now.sets lanes.old.columns lanes.old.tallies.items }
    requires place { place ≡ count_by (is_before (set_hash set.now)) book.now.sets }
    ensures { OnOk result (AreLanesOf (with_set book.now set.now).sets lanes.new.columns lanes.new.tallies.items) }
{
    number_more(&mut lanes.columns, set)?;
    let tally = tally_of(alloc, &lanes.columns, set)?;
    lanes.tallies.insert(place, tally)?;
    Ok(())
}

/// Makes the lanes those of the book with a new set, which stands at this place: numbers its members and
/// makes its tally. Lanes only make sums quick, so there is no error: where memory or columns are wanting
/// they are given up, and `None` stays `None`.
pub fn enter_set<A: Allocator + Copy>(
    alloc: A,
    book: &ChainBook<A>,
    lanes: &mut Option<Lanes<A>>,
    set: &ValidatorSet<A>,
    place: usize,
)
    requires lanes { IfSome lanes.old (λ l. AreLanesOf book.now.sets l.columns l.tallies.items) }
    requires place { place ≡ count_by (is_before (set_hash set.now)) book.now.sets }
    ensures { IfSome lanes.new (λ l. AreLanesOf (with_set book.now set.now).sets l.columns l.tallies.items) }
{
    let is_entered = match lanes {
        Some(known) => enter(alloc, book, known, set, place).is_ok(),
        None => true,
    };
    if !is_entered {
        *lanes = None;
    }
}
