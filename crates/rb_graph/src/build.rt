//! The stored rows of a step table, made from its book.
ghost use Rattle.std.specs.Prelude.{◌≡◌, ◌<◌, map, length, slice_get, IfOk, Some, All, Contains, IsTrue, ◌↔◌};
ghost use Rattle.std.specs.Option.{option_copied, option_map};
ghost use Rattle.rb_book.specs.Book.{has_hash};
ghost use Rattle.rb_book.specs.Invariant.{IsBook, IsBacked};
ghost use Rattle.rb_book.specs.Header.{IsSignedBy};
ghost use Rattle.rb_graph.specs.StoredRow.{own_set, next_place, next_places, first_naming, stored_power, stored_row_of};
ghost use Rattle.rb_graph.specs.Numbering.{AreNumbered, entries_of, IsVotersPlane};

use crate::numbers::{tallied, voters_plane};
use crate::stored_row::StoredRow;
use rb_base::{Fraction, Height};
use rb_book::{ChainBook, Header, RecordAt};
use rb_lanes::{Columns, Plane, Tally};
use rb_step::{is_signed_by_two_thirds, signed_power};
use rb_valset::ValidatorSet;
use std::alloc::{AllocError, Allocator};

/// One entry for each record of the book, by its place: the place among the book's sets of the set that
/// the record names as its next, `None` where the book hasn't that set. One binary search for each
/// record, so that nobody who reads the table searches again. `AllocError` where memory is wanting.
pub fn next_places<A: Allocator + Copy>(
    alloc: A,
    book: &ChainBook<A>,
) -> Result<Vec<Option<usize>, A>, AllocError>
    ensures { IfOk result (λ places. places.items ≡ next_places book.now) }
{
    book.records()
        .iter()
        .map(
            |known: &RecordAt| -> Option<usize>
                ensures { result ≡ next_place book.entry.now known.now }
            { book.set_place(known.record().next()) },
        )
        .collect(alloc)
}

/// Whether a set has this hash. Most others differ from it in the first byte already.
fn is_of_hash<A: Allocator + Copy>(set: &ValidatorSet<A>, hash: &[u8; 32]) -> bool
    ensures { result ≡ has_hash hash.now set.now }
{
    let own = set.hash();
    own[0] == hash[0] && own == hash
}

/// The height of the lowest record that names the set as its next, `None` where no record does: headers
/// above it have a signed power in the set. The records are looked through from the lowest on. The set
/// needn't be one of the book's.
pub fn first_naming<A: Allocator + Copy>(
    book: &ChainBook<A>,
    set: &ValidatorSet<A>,
) -> Option<Height>
    ensures { result ≡ first_naming book.now set.now }
{
    book.records()
        .iter()
        .find(|known| is_of_hash(set, known.record().next()))
        .map(|known| known.height())
}

/// One entry for each set of the book, by its place: the height of the lowest record that names the set
/// as its next, `None` where no record does. `AllocError` where memory is wanting.
pub fn first_namings<A: Allocator + Copy>(
    alloc: A,
    book: &ChainBook<A>,
) -> Result<Vec<Option<Height>, A>, AllocError>
    ensures { IfOk result (λ heights. heights.items ≡ map (first_naming book.now) book.now.sets) }
{
    book.sets()
        .iter()
        .map(
            |set: &ValidatorSet<A>| -> Option<Height>
                ensures { result ≡ first_naming book.entry.now set.now }
            { first_naming(book, set) },
        )
        .collect(alloc)
}

/// The header's own set, which the book knows.
pub fn own_set<'a, A: Allocator + Copy>(
    book: &'a ChainBook<A>,
    header: &Header<A>,
) -> &'a ValidatorSet<A>
    requires { IsBacked book.now header.now }
    ensures own { result.now ≡ own_set book.entry.now header.now }
    ensures signed { IsSignedBy header.now result.now }
{
    book.set(header.set_hash()).unwrap()
}

/// The place of the header's own set among the book's sets.
fn own_place<A: Allocator + Copy>(book: &ChainBook<A>, header: &Header<A>) -> usize
    requires { IsBacked book.now header.now }
    ensures place { slice_get book.now.sets result ≡ Some (own_set book.now header.now) }
    ensures signed { IsSignedBy header.now (own_set book.now header.now) }
{
    book.set_place(header.set_hash()).unwrap()
}

/// The header's own set, which stands at this place.
fn own_at<'a, A: Allocator + Copy>(
    book: &'a ChainBook<A>,
    header: &Header<A>,
    place: usize,
) -> &'a ValidatorSet<A>
    requires { slice_get book.now.sets place ≡ Some (own_set book.now header.now) }
    ensures own { result.now ≡ own_set book.entry.now header.now }
{
    &book.sets()[place]
}

/// The signed power of a header in a set, where a lower record names the set. `tally` is the set's,
/// and `plane` has the bits of the header's commit voters.
#[tactic(auto, unfolding(crate::specs::StoredRow::stored_power))]
fn stored_power<A: Allocator + Copy>(
    book: &ChainBook<A>,
    header: &Header<A>,
    own: &ValidatorSet<A>,
    own_tally: &Tally<A>,
    set: &ValidatorSet<A>,
    lowest: Option<Height>,
    columns: &Columns<A>,
    tally: &Tally<A>,
    plane: &Plane<A>,
) -> Option<u64>
    requires own { own.now ≡ own_set book.now header.now }
    requires own_numbered { AreNumbered columns.now own.now }
    requires own_tally { own_tally.now ≡ entries_of columns.now own.now }
    requires lowest { lowest ≡ first_naming book.now set.now }
    requires numbered { AreNumbered columns.now set.now }
    requires tally { tally.now ≡ entries_of columns.now set.now }
    requires plane { IsVotersPlane columns.now own.now header.now plane.now }
    ensures { result ≡ stored_power book.now header.now set.now }
{
    match lowest {
        Some(lowest) if lowest < header.height() => {
            Some(tallied(columns, set, tally, own, own_tally, header, plane))
        }
        _ => None,
    }
}

/// The row of a header whose own set stands at a place: all its sums are read from one plane of its
/// commit voters. `lowest`, `columns` and `tallies` are as for `stored_row_of`; `AllocError` where memory
/// is wanting.
#[tactic(auto, unfolding(crate::specs::StoredRow::stored_row_of))]
pub fn stored_row_by_columns<A: Allocator + Copy>(
    alloc: A,
    book: &ChainBook<A>,
    header: &Header<A>,
    own_place: usize,
    lowest: &[Option<Height>],
    columns: &Columns<A>,
    tallies: &[Tally<A>],
) -> Result<StoredRow<A>, AllocError>
    requires own { slice_get book.now.sets own_place ≡ Some (own_set book.now header.now) }
    requires signed { IsSignedBy header.now (own_set book.now header.now) }
    requires lowest { lowest.now ≡ map (first_naming book.now) book.now.sets }
    requires numbered { All (AreNumbered columns.now) book.now.sets }
    requires tallies { tallies.now ≡ map (entries_of columns.now) book.now.sets }
    ensures { IfOk result (λ row. row ≡ stored_row_of book.now header.now) }
{
    let own = own_at(book, header, own_place);
    let own_tally = &tallies[own_place];
    let plane = voters_plane(alloc, columns, own, own_tally, header)?;
    let own_signed = tallied(columns, own, own_tally, own, own_tally, header, &plane);
    let is_signed = Fraction::two_thirds().is_exceeded_by(own_signed, own.total());
    let mut signed = Vec::with_capacity(alloc, lowest.len())?;
    for (place, set) in book.sets().iter().enumerate() {
        signed.push(stored_power(
            book,
            header,
            own,
            own_tally,
            set,
            lowest[place],
            columns,
            &tallies[place],
            &plane,
        ))?;
    }
    Ok(StoredRow::new(own.size(), is_signed, signed))
}

/// The row of a header of the book. `lowest` has the height at which each set is first named
/// (`first_namings`), `columns` a column for the address of each member of each set (`number_sets`), and
/// `tallies` each set's powers by column (`tallies_of`), all by the sets' places. The header's commit
/// voters are written once into a plane of bits, one for each column, and its power in each set is a sum
/// over that plane. `AllocError` where memory is wanting.
pub fn stored_row_of<A: Allocator + Copy>(
    alloc: A,
    book: &ChainBook<A>,
    header: &Header<A>,
    lowest: &[Option<Height>],
    columns: &Columns<A>,
    tallies: &[Tally<A>],
) -> Result<StoredRow<A>, AllocError>
    requires backed { IsBacked book.now header.now }
    requires lowest { lowest.now ≡ map (first_naming book.now) book.now.sets }
    requires numbered { All (AreNumbered columns.now) book.now.sets }
    requires tallies { tallies.now ≡ map (entries_of columns.now) book.now.sets }
    ensures { IfOk result (λ row. row ≡ stored_row_of book.now header.now) }
{
    let place = own_place(book, header);
    stored_row_by_columns(alloc, book, header, place, lowest, columns, tallies)
}

/// The signed power of a header in a set, where a lower record names the set, by the members one
/// after the other.
#[tactic(auto, unfolding(crate::specs::StoredRow::stored_power))]
fn plain_power<A: Allocator + Copy>(
    book: &ChainBook<A>,
    header: &Header<A>,
    own: &ValidatorSet<A>,
    set: &ValidatorSet<A>,
    lowest: Option<Height>,
) -> Option<u64>
    requires own { own.now ≡ own_set book.now header.now }
    requires signed { IsSignedBy header.now own.now }
    requires lowest { lowest ≡ first_naming book.now set.now }
    ensures { result ≡ stored_power book.now header.now set.now }
{
    match lowest {
        Some(lowest) if lowest < header.height() => Some(signed_power(set, own, header)),
        _ => None,
    }
}

/// Whether these are the signed powers of a header, one for each set of the book.
fn are_powers<A: Allocator + Copy>(
    book: &ChainBook<A>,
    header: &Header<A>,
    own: &ValidatorSet<A>,
    lowest: &[Option<Height>],
    signed: &[Option<u64>],
) -> bool
    requires own { own.now ≡ own_set book.now header.now }
    requires signed { IsSignedBy header.now own.now }
    requires lowest { lowest.now ≡ map (first_naming book.now) book.now.sets }
    ensures { IsTrue result ↔ (signed.now ≡ map (stored_power book.now header.now) book.now.sets) }
{
    if signed.len() != lowest.len() {
        return false;
    }
    for (place, set) in book.sets().iter().enumerate() {
        if signed[place] != plain_power(book, header, own, set, lowest[place]) {
            return false;
        }
    }
    true
}

/// Whether this is the row of a header of the book, by its contents: its sums are made anew, by a
/// look-up for each member of each set that a lower record names, without columns. `lowest` has the
/// height at which each set is first named (`first_namings`).
#[tactic(auto, unfolding(crate::specs::StoredRow::stored_row_of))]
pub fn is_stored_row_of<A: Allocator + Copy>(
    book: &ChainBook<A>,
    header: &Header<A>,
    lowest: &[Option<Height>],
    row: &StoredRow<A>,
) -> bool
    requires backed { IsBacked book.now header.now }
    requires lowest { lowest.now ≡ map (first_naming book.now) book.now.sets }
    ensures { IsTrue result ↔ (row.now ≡ stored_row_of book.now header.now) }
{
    let own = own_set(book, header);
    row.size() == own.size()
        && row.is_signed() == is_signed_by_two_thirds(header, own)
        && are_powers(book, header, own, lowest, row.signed())
}
