//! The light stores of the chains, by their places.
ghost use Rattle.std.specs.Prelude.{◌≡◌, ◌<◌, ◌≤◌, ℕ, None, length, replicate, slice_set, IfOk, OnOk};
ghost use Rattle.std.specs.Option.{option_and_then};
ghost use Rattle.rb_book.specs.Intake.{set_refusal, header_refusal, record_refusal, after_set, after_header, after_record};
ghost use Rattle.rb_book.specs.Rest.{rest_of_book};
ghost use Rattle.rb_script_types.specs.Refusal.{of_book};
ghost use Rattle.rb_core_state.specs.Floors.{floor_in, floor_or_none};
ghost use Rattle.rb_core_state.specs.Room.{books_of, IsApart};
ghost use Rattle.rb_core_model.specs.Forgetting.{rest_of_books};
ghost use Rattle.rb_core_model.specs.Standing.{book_at, empty_book};

use crate::floors::floor_at;
use rb_base::Height;
use rb_book::{BookError, ChainBook, Header, Record, SharedBook};
use rb_script_types::Refusal;
use rb_valset::ValidatorSet;
use std::alloc::{AllocError, Allocator};

/// The book of a chain that is there.
pub(crate) fn book_in<A: Allocator + Copy>(books: &[SharedBook<A>], chain: usize) -> &ChainBook<A>
    requires { chain < length books.now }
    ensures { result.now ≡ book_at (books_of books.now) chain }
{
    books[chain].book()
}

/// Why a validator set of a chain would be refused, as `ChainBook::judge_set` judges it: `HashClash`
/// where the book has another set of the same hash, `Full` where it has as many sets, or as many
/// addresses of members, as it may. None where the set is accepted.
pub fn refuse_set<A: Allocator + Copy>(
    books: &[SharedBook<A>],
    chain: usize,
    set: &ValidatorSet<A>,
) -> Option<Refusal>
    requires { chain < length books.now }
    ensures { result ≡ option_and_then of_book (set_refusal (book_at (books_of books.now) chain) set.now) }
{
    match book_in(books, chain).judge_set(set) {
        Ok(()) => None,
        Err(error) => Refusal::of_book(error),
    }
}

/// Why a header of a chain would be refused, as `ChainBook::judge_header` judges it: `UnknownSet` where
/// the book lacks its validator set, `WrongVerdictCount` where it hasn't one vote for each member,
/// `BadVote` where one is bad, `Conflict` where its height has another header, else why its record would
/// be. None where the header is accepted.
pub fn refuse_header<A: Allocator + Copy>(
    books: &[SharedBook<A>],
    chain: usize,
    header: &Header<A>,
) -> Option<Refusal>
    requires { chain < length books.now }
    ensures { result ≡ option_and_then of_book (header_refusal (book_at (books_of books.now) chain) header.now) }
{
    match book_in(books, chain).judge_header(header) {
        Ok(()) => None,
        Err(error) => Refusal::of_book(error),
    }
}

/// Why a record of a chain at a height would be refused, as `ChainBook::judge_record` judges it:
/// `Conflict` where the height has another record, `TimeOrder` where its time doesn't stand between
/// those of its neighbours, `Full` where the book has as many records as it may. None where the record
/// is accepted.
pub fn refuse_record<A: Allocator + Copy>(
    books: &[SharedBook<A>],
    chain: usize,
    height: Height,
    entry: &Record,
) -> Option<Refusal>
    requires { chain < length books.now }
    ensures { result ≡ option_and_then of_book (record_refusal (book_at (books_of books.now) chain) height entry.now) }
{
    match book_in(books, chain).judge_record(height, entry) {
        Ok(()) => None,
        Err(error) => Refusal::of_book(error),
    }
}

/// Makes a book of a chain that has one owner alone, by a copy if it has others, so that it can be
/// changed. `AllocError` where the copy is refused memory; no book has changed then.
pub fn set_apart<A: Allocator + Copy>(
    books: &mut Vec<SharedBook<A>, A>,
    chain: usize,
) -> Result<(), AllocError>
    requires { chain < length books.old.items }
    ensures same { books_of books.new.items ≡ books_of books.old.items }
    ensures apart { OnOk result (IsApart books.new.items chain) }
    ensures kept { (other : ℕ) → IsApart books.old.items other → IsApart books.new.items other }
{
    books[chain].set_apart()
}

/// The same, with room for the addresses of a set's members. `AllocError` where memory is refused; no
/// book has changed then.
pub fn set_apart_for<A: Allocator + Copy>(
    books: &mut Vec<SharedBook<A>, A>,
    chain: usize,
    set: &ValidatorSet<A>,
) -> Result<(), AllocError>
    requires { chain < length books.old.items }
    ensures same { books_of books.new.items ≡ books_of books.old.items }
    ensures apart { OnOk result (IsApart books.new.items chain) }
    ensures kept { (other : ℕ) → IsApart books.old.items other → IsApart books.new.items other }
{
    books[chain].set_apart_for(set)
}

/// Puts a set that is not refused into a chain's book, which has one owner alone (`set_apart_for`).
pub fn put_set<A: Allocator + Copy>(
    books: &mut Vec<SharedBook<A>, A>,
    chain: usize,
    set: ValidatorSet<A>,
)
    requires within { chain < length books.old.items }
    requires apart { IsApart books.old.items chain }
    requires accepted { set_refusal (book_at (books_of books.old.items) chain) set ≡ None }
    ensures { books_of books.new.items ≡ slice_set (books_of books.old.items) chain (after_set (book_at (books_of books.old.items) chain) set) }
{
    books[chain].put_set(set);
}

/// Puts a header that is not refused into a chain's book, which has one owner alone (`set_apart`).
pub fn put_header<A: Allocator + Copy>(
    books: &mut Vec<SharedBook<A>, A>,
    chain: usize,
    header: Header<A>,
)
    requires within { chain < length books.old.items }
    requires apart { IsApart books.old.items chain }
    requires accepted { header_refusal (book_at (books_of books.old.items) chain) header ≡ None }
    ensures { books_of books.new.items ≡ slice_set (books_of books.old.items) chain (after_header (book_at (books_of books.old.items) chain) header) }
{
    books[chain].put_header(header);
}

/// Puts a record that is not refused at a height into a chain's book, which has one owner alone
/// (`set_apart`).
pub fn put_record<A: Allocator + Copy>(
    books: &mut Vec<SharedBook<A>, A>,
    chain: usize,
    height: Height,
    entry: Record,
)
    requires within { chain < length books.old.items }
    requires apart { IsApart books.old.items chain }
    requires accepted { record_refusal (book_at (books_of books.old.items) chain) height entry ≡ None }
    ensures { books_of books.new.items ≡ slice_set (books_of books.old.items) chain (after_record (book_at (books_of books.old.items) chain) height entry) }
{
    books[chain].put_record(height, entry);
}

/// An empty book for each of so many chains, for at most `limit` records each, 1 to 4,096. `AllocError`
/// where memory is refused.
pub fn new_books<A: Allocator + Copy>(
    alloc: A,
    chains: usize,
    limit: usize,
) -> Result<Vec<SharedBook<A>, A>, AllocError>
    requires { (1 ≤ limit) × (limit ≤ 4096) }
    ensures { IfOk result (λ books. books_of books.items ≡ replicate chains (empty_book limit)) }
{
    let mut books = Vec::with_capacity(alloc, chains)?;
    for _ in 0..chains {
        books.push(SharedBook::new(alloc, ChainBook::with_limit(alloc, limit)?)?)?;
    }
    Ok(books)
}

/// The same books, with one more owner each; one that was made to be changed is copied. `AllocError`
/// where memory is refused, or a book has as many owners as can be counted.
pub fn share_books<A: Allocator + Copy>(
    alloc: A,
    books: &[SharedBook<A>],
) -> Result<Vec<SharedBook<A>, A>, AllocError>
    ensures { IfOk result (λ shared. books_of shared.items ≡ books_of books.now) }
{
    let mut shared = Vec::with_capacity(alloc, books.len())?;
    for book in books {
        shared.push(book.share()?)?;
    }
    Ok(shared)
}

/// Forgets what lies below a floor, if there is one.
fn forget_below<A: Allocator + Copy>(
    book: &mut SharedBook<A>,
    floor: Option<Height>,
) -> Result<(), AllocError>
    ensures { OnOk result (book.new.book ≡ rest_of_book (floor_or_none floor) book.old.book) }
{
    match floor {
        Some(floor) => book.forget(floor),
        None => Ok(()),
    }
}

/// Forgets what lies below the floor of each chain that has one. `AllocError` where memory is refused for
/// the copy of a book that has other owners.
pub fn forget<A: Allocator + Copy>(
    books: &mut Vec<SharedBook<A>, A>,
    floors: &[Option<Height>],
) -> Result<(), AllocError>
    ensures { OnOk result (books_of books.new.items ≡ rest_of_books (floor_in floors.now) 0 (books_of books.old.items)) }
{
    for chain in 0..books.len() {
        forget_below(&mut books[chain], floor_at(floors, chain))?;
    }
    Ok(())
}
