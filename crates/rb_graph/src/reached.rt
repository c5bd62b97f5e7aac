//! What an addition to the book changes of the stored rows.
ghost use Rattle.std.specs.Prelude.{◌≡◌, ◌<◌, ◌≤◌, ◌++◌, take, drop, length, map, slice_get, count_by, position, IfOk, IfSome, IsFalse, OnOk, OnErr, None, Some};
ghost use Rattle.std.specs.List.Sorted.{IsStrictlyIncreasing};
ghost use Rattle.rb_valset.specs.ValidatorSet.{set_hash};
ghost use Rattle.rb_book.specs.Header.{IsSignedBy};
ghost use Rattle.rb_book.specs.Book.{has_hash, set_of, is_before, header_height, header_is_below, max_sets};
ghost use Rattle.rb_book.specs.Invariant.{IsBook, IsBacked};
ghost use Rattle.rb_book.specs.Intake.{record_refusal, header_refusal, with_record, with_set, after_record};
ghost use Rattle.rb_graph.specs.Moved.{moved};
ghost use Rattle.rb_graph.specs.StoredRow.{own_set, next_place, next_places, first_naming, stored_power, stored_row_of};
ghost use Rattle.rb_graph.specs.Numbering.{AreLanesOf};

use crate::build::{first_naming, own_set, stored_row_by_columns};
use crate::lanes::{Lanes, lanes_of};
use crate::stored_row::StoredRow;
use rb_base::Height;
use rb_book::{ChainBook, Header, Record, RecordAt, header_place};
use rb_step::signed_power;
use rb_valset::ValidatorSet;
use std::alloc::{AllocError, Allocator};

// ---- a header

/// The place of the own set of a header that the book doesn't refuse.
fn own_place_of_new<A: Allocator + Copy>(book: &ChainBook<A>, header: &Header<A>) -> usize
    requires { header_refusal book.now header.now ≡ None }
    ensures place { slice_get book.now.sets result ≡ Some (own_set book.now header.now) }
    ensures signed { IsSignedBy header.now (own_set book.now header.now) }
{
    book.set_place(header.set_hash()).unwrap()
}

/// The row of a header that the book doesn't refuse and doesn't have yet. `lowest` has the height at
/// which each set is first named, by the set's place. Where there are no `lanes` the sets' members are
/// numbered, and the lanes stay for the next header. `AllocError` where memory is wanting; lanes that
/// were there stay.
pub fn new_row<A: Allocator + Copy>(
    alloc: A,
    book: &ChainBook<A>,
    header: &Header<A>,
    lowest: &[Option<Height>],
    lanes: &mut Option<Lanes<A>>,
) -> Result<StoredRow<A>, AllocError>
    requires accepted { header_refusal book.now header.now ≡ None }
    requires lowest { lowest.now ≡ map (first_naming book.now) book.now.sets }
    requires lanes { IfSome lanes.old (λ l. AreLanesOf book.now.sets l.columns l.tallies.items) }
    ensures row { IfOk result (λ row. row ≡ stored_row_of book.now header.now) }
    ensures lanes { IfSome lanes.new (λ l. AreLanesOf book.now.sets l.columns l.tallies.items) }
{
    let place = own_place_of_new(book, header);
    if let Some(known) = lanes {
        let tallies = known.tallies.as_slice();
        return stored_row_by_columns(alloc, book, header, place, lowest, &known.columns, tallies);
    }
    let made = lanes_of(alloc, book.sets(), lowest)?;
    let tallies = made.tallies.as_slice();
    let row = stored_row_by_columns(alloc, book, header, place, lowest, &made.columns, tallies)?;
    *lanes = Some(made);
    Ok(row)
}

/// How many of a book's headers are below a height: the place at which a header of that height stands, or
/// is put in. A binary search.
pub fn lower_headers<A: Allocator + Copy>(headers: &[Header<A>], height: Height) -> usize
    requires { IsStrictlyIncreasing (map header_height headers.now) }
    ensures { result ≡ count_by (header_is_below height) headers.now }
{
    match header_place(headers, height) {
        Ok(place) | Err(place) => place,
    }
}

/// The header at a place.
fn header_at<A: Allocator + Copy>(book: &ChainBook<A>, place: usize) -> &Header<A>
    requires { place < length book.now.headers }
    ensures header { slice_get book.entry.now.headers place ≡ Some result.now }
    ensures backed { IsBacked book.entry.now result.now }
{
    &book.headers()[place]
}

// ---- a record

/// Gives the row of a header its cell of a new record, where the header is above the record, whose
/// next set stands at this place.
fn add_cell<A: Allocator + Copy>(
    book: &ChainBook<A>,
    header: &Header<A>,
    row: &mut StoredRow<A>,
    height: Height,
    entry: &Record,
    set_place: usize,
)
    requires backed { IsBacked book.now header.now }
    requires row { row.old ≡ stored_row_of book.now header.now }
    requires known { IsBook book.now }
    requires book { IsBook (with_record book.now height entry.now) }
    requires place { position (has_hash entry.now.next) book.now.sets ≡ Some set_place }
    ensures { row.new ≡ stored_row_of (with_record book.now height entry.now) header.now }
{
    if header.height() <= height {
        return;
    }
    if row.signed()[set_place].is_some() {
        return;
    }
    let own = own_set(book, header);
    let power = signed_power(&book.sets()[set_place], own, header);
    row.set_signed(set_place, power);
}

/// The same for each row.
fn add_cells<A: Allocator + Copy>(
    book: &ChainBook<A>,
    rows: &mut [StoredRow<A>],
    height: Height,
    entry: &Record,
    set_place: usize,
)
    requires rows { rows.old ≡ map (stored_row_of book.now) book.now.headers }
    requires known { IsBook book.now }
    requires book { IsBook (with_record book.now height entry.now) }
    requires place { position (has_hash entry.now.next) book.now.sets ≡ Some set_place }
    ensures { rows.new ≡ map (stored_row_of (with_record book.now height entry.now)) book.now.headers }
{
    for place in 0..rows.len() {
        let row = &mut rows[place];
        add_cell(book, header_at(book, place), row, height, entry, set_place);
    }
}

/// Makes the set at a place named by a new record, and answers whether no lower record named it.
fn name_set<A: Allocator + Copy>(
    book: &ChainBook<A>,
    lowest: &mut Vec<Option<Height>, A>,
    height: Height,
    entry: &Record,
    set_place: usize,
) -> bool
    requires lowest { lowest.old.items ≡ map (first_naming book.now) book.now.sets }
    requires known { IsBook book.now }
    requires book { IsBook (with_record book.now height entry.now) }
    requires place { position (has_hash entry.now.next) book.now.sets ≡ Some set_place }
    ensures lowest { lowest.new.items ≡ map (first_naming (with_record book.now height entry.now)) book.now.sets }
    ensures same { IsFalse result → lowest.new.items ≡ lowest.old.items }
{
    if let Some(low) = lowest[set_place] {
        if low < height {
            return false;
        }
    }
    lowest[set_place] = Some(height);
    true
}

/// Enters a record that the book doesn't refuse, before the book takes it in: the places of next sets, the
/// heights at which sets are first named and the rows are then those of the book with this record. Where
/// no lower record names its next set, each row above it gets its power in that set, one sum a row; else
/// they have it already. `AllocError` where there is no room for one more place; nothing changes then,
/// nor where the book has the record.
pub fn enter_record<A: Allocator + Copy>(
    book: &ChainBook<A>,
    places: &mut Vec<Option<usize>, A>,
    lowest: &mut Vec<Option<Height>, A>,
    rows: &mut [StoredRow<A>],
    height: Height,
    entry: &Record,
) -> Result<(), AllocError>
    requires accepted { record_refusal book.now height entry.now ≡ None }
    requires places { places.old.items ≡ next_places book.now }
    requires lowest { lowest.old.items ≡ map (first_naming book.now) book.now.sets }
    requires rows { rows.old ≡ map (stored_row_of book.now) book.now.headers }
    ensures places { OnOk result (places.new.items ≡ next_places (after_record book.now height entry.now)) }
    ensures rows { OnOk result (rows.new ≡ map (stored_row_of (after_record book.now height entry.now)) book.now.headers) }
    ensures lowest { OnOk result (lowest.new.items ≡ map (first_naming (after_record book.now height entry.now)) book.now.sets) }
    ensures same_places { OnErr result (places.new.items ≡ places.old.items) }
    ensures same_lowest { OnErr result (lowest.new.items ≡ lowest.old.items) }
    ensures same_rows { OnErr result (rows.new ≡ rows.old) }
{
    if book.record(height).is_some() {
        return Ok(());
    }
    let next = book.set_place(entry.next());
    places.insert(book.lower_count(height), next)?;
    if let Some(set_place) = next {
        if name_set(book, lowest, height, entry, set_place) {
            add_cells(book, rows, height, entry, set_place);
        }
    }
    Ok(())
}

// ---- a set

/// How many of a book's sets have a lower hash than this set: the place at which it is put in, since a
/// book's sets stand by rising hash. Each set is looked at.
pub fn lower_sets<A: Allocator + Copy>(sets: &[ValidatorSet<A>], set: &ValidatorSet<A>) -> usize
    ensures { result ≡ count_by (is_before (set_hash set.now)) sets.now }
{
    sets.iter()
        .filter(|other| other.hash().cmp(set.hash()).is_lt())
        .count()
}

/// The place that an element has once another was put in at a place.
fn moved(new: usize, place: usize) -> usize
    requires { place ≤ max_sets }
    ensures { result ≡ moved new place }
{
    if place < new { place } else { place + 1 }
}

/// The place of a record's next set once a new set stands at this place; `next` is the place before.
#[tactic(auto, using(crate::proofs::Entered::next_few))]
fn next_with<A: Allocator + Copy>(
    book: &ChainBook<A>,
    known: &RecordAt,
    next: Option<usize>,
    set: &ValidatorSet<A>,
    new: usize,
) -> Option<usize>
    requires known { IsBook book.now }
    requires next { next ≡ next_place book.now known.now }
    requires unknown { set_of book.now (set_hash set.now) ≡ None }
    requires place { new ≡ count_by (is_before (set_hash set.now)) book.now.sets }
    ensures { result ≡ next_place (with_set book.now set.now) known.now }
{
    if set.hash() == known.record().next() {
        return Some(new);
    }
    match next {
        Some(place) => Some(moved(new, place)),
        None => None,
    }
}

/// Makes the places of the records' next sets those of the book with a new set, which stands at this
/// place (`lower_sets`): later places move up by one, and records that name the set get its place.
pub fn move_places<A: Allocator + Copy>(
    book: &ChainBook<A>,
    places: &mut Vec<Option<usize>, A>,
    set: &ValidatorSet<A>,
    place: usize,
)
    requires places { places.old.items ≡ next_places book.now }
    requires unknown { set_of book.now (set_hash set.now) ≡ None }
    requires place { place ≡ count_by (is_before (set_hash set.now)) book.now.sets }
    ensures { places.new.items ≡ next_places (with_set book.now set.now) }
{
    for (index, known) in book.records().iter().enumerate() {
        places[index] = next_with(book, known, places[index], set, place);
    }
}

/// The signed power of a header in a set that comes, where a lower record names it: the lowest record
/// that does is at this height.
#[tactic(auto, unfolding(crate::specs::StoredRow::stored_power))]
fn late_power<A: Allocator + Copy>(
    book: &ChainBook<A>,
    header: &Header<A>,
    set: &ValidatorSet<A>,
    lowest: &Option<Height>,
) -> Option<u64>
    requires backed { IsBacked book.now header.now }
    requires lowest { lowest.now ≡ first_naming book.now set.now }
    ensures { result ≡ stored_power book.now header.now set.now }
{
    match lowest {
        Some(lowest) if *lowest < header.height() => {
            Some(signed_power(set, own_set(book, header), header))
        }
        _ => None,
    }
}

/// One entry for each header of the book, by its place: its signed power in a set that is to be added,
/// `None` where no record below the header names the set. `enter_powers` puts them into the rows.
/// `AllocError` where memory is wanting.
pub fn late_powers<A: Allocator + Copy>(
    alloc: A,
    book: &ChainBook<A>,
    set: &ValidatorSet<A>,
) -> Result<Vec<Option<u64>, A>, AllocError>
    ensures { IfOk result (λ powers. powers.items ≡ map (λ h. stored_power book.now h set.now) book.now.headers) }
{
    let lowest = first_naming(book, set);
    let count = book.headers().len();
    let mut powers = Vec::with_capacity(alloc, count)?;
    for index in 0..count {
        let header = header_at(book, index);
        powers.push(late_power(book, header, set, &lowest))?;
    }
    Ok(powers)
}

/// Puts the signed power of a header in a new set into the header's row, at the set's place.
fn enter_power<A: Allocator + Copy>(
    book: &ChainBook<A>,
    header: &Header<A>,
    row: &mut StoredRow<A>,
    set: &ValidatorSet<A>,
    place: usize,
    power: Option<u64>,
) -> Result<(), AllocError>
    requires backed { IsBacked book.now header.now }
    requires row { row.old ≡ stored_row_of book.now header.now }
    requires unknown { set_of book.now (set_hash set.now) ≡ None }
    requires place { place ≡ count_by (is_before (set_hash set.now)) book.now.sets }
    requires power { power ≡ stored_power book.now header.now set.now }
    ensures entered { OnOk result (row.new ≡ stored_row_of (with_set book.now set.now) header.now) }
    ensures unchanged { OnErr result (row.new ≡ row.old) }
{
    row.insert(place, power)
}

/// Takes it out of the row again.
fn leave_power<A: Allocator + Copy>(
    book: &ChainBook<A>,
    header: &Header<A>,
    row: &mut StoredRow<A>,
    set: &ValidatorSet<A>,
    place: usize,
)
    requires backed { IsBacked book.now header.now }
    requires row { row.old ≡ stored_row_of (with_set book.now set.now) header.now }
    requires unknown { set_of book.now (set_hash set.now) ≡ None }
    requires place { place ≡ count_by (is_before (set_hash set.now)) book.now.sets }
    ensures { row.new ≡ stored_row_of book.now header.now }
{
    row.remove(place);
}

/// Takes it out of the first so many rows again.
fn leave_powers<A: Allocator + Copy>(
    book: &ChainBook<A>,
    rows: &mut [StoredRow<A>],
    count: usize,
    set: &ValidatorSet<A>,
    place: usize,
)
    requires count { count ≤ length book.now.headers }
    requires rows { rows.old ≡ map (stored_row_of (with_set book.now set.now)) (take count book.now.headers) ++ drop count (map (stored_row_of book.now) book.now.headers) }
    requires unknown { set_of book.now (set_hash set.now) ≡ None }
    requires place { place ≡ count_by (is_before (set_hash set.now)) book.now.sets }
    ensures { rows.new ≡ map (stored_row_of book.now) book.now.headers }
{
    for index in 0..count {
        let row = &mut rows[index];
        leave_power(book, header_at(book, index), row, set, place);
    }
}

/// Makes the rows those of the book with a new set, which stands at this place (`lower_sets`): each row
/// gets the header's signed power in the set (`late_powers`) at that place. `AllocError` where memory is
/// wanting; rows that had theirs lose it again, so that nothing changes.
pub fn enter_powers<A: Allocator + Copy>(
    book: &ChainBook<A>,
    rows: &mut [StoredRow<A>],
    set: &ValidatorSet<A>,
    place: usize,
    powers: &[Option<u64>],
) -> Result<(), AllocError>
    requires rows { rows.old ≡ map (stored_row_of book.now) book.now.headers }
    requires unknown { set_of book.now (set_hash set.now) ≡ None }
    requires place { place ≡ count_by (is_before (set_hash set.now)) book.now.sets }
    requires powers { powers.now ≡ map (λ h. stored_power book.now h set.now) book.now.headers }
    ensures entered { OnOk result (rows.new ≡ map (stored_row_of (with_set book.now set.now)) book.now.headers) }
    ensures unchanged { OnErr result (rows.new ≡ rows.old) }
{
    for index in 0..rows.len() {
        let row = &mut rows[index];
        let header = header_at(book, index);
        let Ok(()) = enter_power(book, header, row, set, place, powers[index]) else {
            leave_powers(book, rows, index, set, place);
            return Err(AllocError);
        };
    }
    Ok(())
}
