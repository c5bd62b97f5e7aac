use crate::same::assert_same;
use crate::values::{height, make_heights, second};
use rb_base::{Height, Moment};
use rb_book::{BookError, ChainBook, Header, Record, RecordAt, Vote};
use rb_valset::{PublicKey, Validator, ValidatorSet};
use std::alloc::{AllocError, Global};
use std::fmt::Display;
use std::process::Abort;
use std::test::Fail;

const THREE: &[Vote] = &[Vote::Commit, Vote::Commit, Vote::Commit, Vote::Absent];

const SHORT: &[Vote] = &[Vote::Commit, Vote::Commit, Vote::Commit];

const BAD: &[Vote] = &[Vote::Commit, Vote::Nil, Vote::Bad, Vote::Bad];

const ZERO: [u8; 32] = [0; 32];

fn entry(seconds: u64, next: [u8; 32]) -> Result<Record, Fail> {
    Ok(Record::new(second(seconds)?, ZERO, next))
}

/// The key of a number.
fn key_of(number: u32) -> PublicKey {
    let mut key = ZERO;
    key[..4].copy_from_slice(&number.to_be_bytes());
    PublicKey::Ed25519(key)
}

/// Validators of power 10, whose keys are the numbers from one up to another.
fn make_numbered_set(alloc: Global, from: u32, to: u32) -> Result<ValidatorSet, Fail> {
    let mut members = Vec::new(alloc);
    for number in from..to {
        members.push(Validator::new(key_of(number), 10)?)?;
    }
    Ok(ValidatorSet::new(alloc, members)?)
}

fn make_header(
    alloc: Global,
    at: u64,
    seconds: u64,
    set: &ValidatorSet,
    votes: &[Vote],
) -> Result<Header, Fail> {
    let (at, hash) = (height(at)?, *set.hash());
    let record = entry(seconds, hash)?;
    Ok(Header::new(at, record, hash, Vec::from_slice(alloc, votes)?))
}

/// A refusal, with the height that it names as a number.
#[derive(Clone, Copy)]
enum Refusal {
    UnknownSet,
    WrongVerdictCount,
    BadVote(usize),
    Conflict(u64),
    TimeOrder(u64),
    Full,
    HashClash,
}

fn refusal_of(refusal: Refusal) -> Result<BookError, Fail> {
    Ok(match refusal {
        Refusal::UnknownSet => BookError::UnknownSet,
        Refusal::WrongVerdictCount => BookError::WrongVerdictCount,
        Refusal::BadVote(place) => BookError::BadVote(place),
        Refusal::Conflict(number) => BookError::Conflict(height(number)?),
        Refusal::TimeOrder(number) => BookError::TimeOrder(height(number)?),
        Refusal::Full => BookError::Full,
        Refusal::HashClash => BookError::HashClash,
    })
}

/// The height, seconds and votes of a header, and what the book refuses it with, if it does.
type Offer = (u64, u64, &'static [Vote], Option<Refusal>);

/// One header after the other.
const OFFERS: &[Offer] = &[
    (2, 20, SHORT, Some(Refusal::WrongVerdictCount)),
    (2, 20, BAD, Some(Refusal::BadVote(2))),
    (2, 20, THREE, None),
    (5, 50, THREE, None),
    (5, 50, THREE, None),
    (5, 51, THREE, Some(Refusal::Conflict(5))),
    (3, 55, THREE, Some(Refusal::TimeOrder(5))),
    (3, 15, THREE, Some(Refusal::TimeOrder(2))),
    (3, 50, THREE, Some(Refusal::TimeOrder(5))),
    (3, 30, THREE, None),
];

fn answer_of(refusal: Option<Refusal>) -> Result<Result<(), BookError>, Fail> {
    match refusal {
        Some(refusal) => Ok(Err(refusal_of(refusal)?)),
        None => Ok(Ok(())),
    }
}

/// What a book without sets answers to a header, and what it then answers to the header's set, twice.
fn add_first_set(
    rt: &impl Abort,
    alloc: Global,
    book: &mut ChainBook,
    set: &ValidatorSet,
) -> Result<(), Fail> {
    let unknown = book.add_header(make_header(alloc, 2, 20, set, THREE)?);
    assert_same(rt, "header", unknown, Err(BookError::UnknownSet));
    for place in 0..2 {
        assert_same(rt, &place, book.add_set(set.copy()?), Ok(()));
    }
    Ok(())
}

fn check_heights(rt: &impl Abort, alloc: Global, book: &ChainBook) -> Result<(), Fail> {
    let wanted = make_heights(alloc, &[2, 3, 5])?;
    let heights = book.heights()?;
    assert_same(rt, "heights", heights.as_slice(), wanted.as_slice());
    assert_same(rt, "top", book.top(), wanted.last().copied());
    Ok(())
}

fn make_time((number, seconds): (u64, u64)) -> Result<(Height, Moment), Fail> {
    Ok((height(number)?, second(seconds)?))
}

fn make_times(alloc: Global, rows: &[(u64, u64)]) -> Result<Vec<(Height, Moment)>, Fail> {
    let mut times = Vec::new(alloc);
    for row in rows {
        times.push(make_time(*row)?)?;
    }
    Ok(times)
}

fn check_times(rt: &impl Abort, alloc: Global, book: &ChainBook) -> Result<(), Fail> {
    let wanted = make_times(alloc, &[(2, 20), (3, 30), (5, 50)])?;
    let times = book.heights_and_times()?;
    assert_same(rt, "times", times.as_slice(), wanted.as_slice());
    Ok(())
}

fn check_counts(rt: &impl Abort, book: &ChainBook, five: Height) {
    assert_same(rt, "sets", book.sets().len(), 1);
    assert_same(rt, "headers", book.headers().len(), 3);
    assert_same(rt, "lower", book.lower_count(five), 2);
}

fn check_records(rt: &impl Abort, book: &ChainBook, hash: [u8; 32]) -> Result<(), Fail> {
    let first = RecordAt::new(height(2)?, entry(20, hash)?);
    assert_same(rt, "first", book.records().first(), Some(&first));
    check_counts(rt, book, height(5)?);
    Ok(())
}

/// The header at 3, which the set has signed.
fn check_header(rt: &impl Abort, header: &Header, set: &ValidatorSet, three: Height) {
    assert_same(rt, "height", header.height(), three);
    assert_same(rt, "commits", header.commits(), 3);
    assert_same(rt, "votes", header.votes().len(), 4);
    assert!(rt; header.is_of(set) && header.record().names(set));
}

fn check_header_at(
    rt: &impl Abort,
    book: &ChainBook,
    set: &ValidatorSet,
    three: Height,
) -> Result<(), Fail> {
    let header = book.header(three).ok_or("header")?;
    check_header(rt, header, set, three);
    assert_same(rt, "record", book.record(three), Some(header.record()));
    assert!(rt; book.set(header.set_hash()).is_some());
    Ok(())
}

fn check_places(
    rt: &impl Abort,
    book: &ChainBook,
    set: &ValidatorSet,
    three: Height,
) -> Result<(), Fail> {
    assert_same(rt, "set", book.set_place(set.hash()), Some(0));
    assert_same(rt, "header", book.header_place(three), Some(1));
    check_header_at(rt, book, set, three)
}

fn check_absent(rt: &impl Abort, book: &ChainBook, four: Height) {
    assert!(rt; book.record(four).is_none() && book.set(&ZERO).is_none());
}

fn check_offer(
    rt: &impl Abort,
    alloc: Global,
    book: &mut ChainBook,
    set: &ValidatorSet,
    (at, seconds, votes, refusal): &Offer,
) -> Result<(), Fail> {
    let answer = book.add_header(make_header(alloc, *at, *seconds, set, votes)?);
    assert_same(rt, seconds, answer, answer_of(*refusal)?);
    Ok(())
}

fn check_offers(
    rt: &impl Abort,
    alloc: Global,
    book: &mut ChainBook,
    set: &ValidatorSet,
) -> Result<(), Fail> {
    for offer in OFFERS {
        check_offer(rt, alloc, book, set, offer)?;
    }
    Ok(())
}

fn check_told(
    rt: &impl Abort,
    alloc: Global,
    book: &ChainBook,
    set: &ValidatorSet,
) -> Result<(), Fail> {
    check_heights(rt, alloc, book)?;
    check_times(rt, alloc, book)?;
    check_records(rt, book, *set.hash())?;
    check_places(rt, book, set, height(3)?)?;
    check_absent(rt, book, height(4)?);
    Ok(())
}

fn check_copy(rt: &impl Abort, book: &ChainBook) -> Result<(), AllocError> {
    let copy = book.copy()?;
    assert!(rt; copy == *book);
    Ok(())
}

fn check_not_empty(rt: &impl Abort, alloc: Global, book: &ChainBook) -> Result<(), AllocError> {
    let empty = ChainBook::new(alloc)?;
    assert!(rt; empty != *book);
    Ok(())
}

/// A book is its copy, and not an empty one.
fn check_equal(rt: &impl Abort, alloc: Global, book: &ChainBook) -> Result<(), AllocError> {
    check_copy(rt, book)?;
    check_not_empty(rt, alloc, book)
}

fn check_book(
    rt: &impl Abort,
    alloc: Global,
    book: &mut ChainBook,
    set: &ValidatorSet,
) -> Result<(), Fail> {
    add_first_set(rt, alloc, book, set)?;
    check_offers(rt, alloc, book, set)?;
    check_told(rt, alloc, book, set)?;
    Ok(check_equal(rt, alloc, book)?)
}

fn check_with_set(rt: &impl Abort, alloc: Global, set: &ValidatorSet) -> Result<(), Fail> {
    check_book(rt, alloc, &mut ChainBook::new(alloc)?, set)
}

/// What a book answers to one header after the other, and what it then tells.
#[test]
fn takes_headers_in(rt: HostRuntime) -> Result<(), Fail> {
    check_with_set(&rt, rt.alloc(), &make_numbered_set(rt.alloc(), 0, 4)?)
}

/// The book answers this to a record whose height and seconds are the number.
fn check_numbered(
    rt: &impl Abort,
    book: &mut ChainBook,
    number: u64,
    wanted: Result<(), BookError>,
) -> Result<(), Fail> {
    let answer = book.add_record(height(number)?, entry(number, ZERO)?);
    assert_same(rt, &number, answer, wanted);
    Ok(())
}

/// Adds so many records.
fn add_up_to(rt: &impl Abort, book: &mut ChainBook, limit: u64) -> Result<(), Fail> {
    for number in 1..=limit {
        check_numbered(rt, book, number, Ok(()))?;
    }
    Ok(())
}

/// The book may have so many records, and has them.
fn check_limit(rt: &impl Abort, book: &ChainBook, wanted: usize) {
    assert_same(rt, "limit", book.limit(), wanted);
    assert_same(rt, "records", book.records().len(), wanted);
}

/// Fills the book with records, as many as it may have, and tries one more.
fn fill(rt: &impl Abort, book: &mut ChainBook, limit: u64) -> Result<(), Fail> {
    add_up_to(rt, book, limit)?;
    check_numbered(rt, book, limit.saturating_add(1), Err(BookError::Full))?;
    check_numbered(rt, book, 1, Ok(()))?;
    check_limit(rt, book, limit as usize);
    Ok(())
}

fn check_filled(rt: &impl Abort, mut book: ChainBook, limit: u64) -> Result<(), Fail> {
    fill(rt, &mut book, limit)
}

#[test]
fn holds_so_many_records(rt: HostRuntime) -> Result<(), Fail> {
    check_filled(&rt, ChainBook::new(rt.alloc())?, 1024)?;
    check_filled(&rt, ChainBook::with_limit(rt.alloc(), 4096)?, 4096)
}

/// The book answers this to the set of the validators from one number up to another.
fn check_numbered_set(
    rt: &impl Abort,
    alloc: Global,
    book: &mut ChainBook,
    (from, to): (u32, u32),
    wanted: Result<(), BookError>,
) -> Result<(), Fail> {
    let answer = book.add_set(make_numbered_set(alloc, from, to)?);
    assert_same(rt, &from, answer, wanted);
    Ok(())
}

/// Adds as many sets as a book may have.
fn add_sets(rt: &impl Abort, alloc: Global, book: &mut ChainBook) -> Result<(), Fail> {
    for number in 0..1024 {
        check_numbered_set(rt, alloc, book, (number, number + 1), Ok(()))?;
    }
    Ok(())
}

fn check_sets(rt: &impl Abort, alloc: Global, book: &mut ChainBook) -> Result<(), Fail> {
    add_sets(rt, alloc, book)?;
    check_numbered_set(rt, alloc, book, (0, 2), Err(BookError::Full))?;
    check_numbered_set(rt, alloc, book, (7, 8), Ok(()))
}

/// An equal set is taken in at any time, another one only below the limit.
#[test]
fn holds_so_many_sets(rt: HostRuntime) -> Result<(), Fail> {
    check_sets(&rt, rt.alloc(), &mut ChainBook::new(rt.alloc())?)
}

/// Refusals, and what is printed of them.
const REFUSALS: &[(Refusal, &str)] = &[
    (Refusal::UnknownSet, "401 UnknownSet"),
    (Refusal::WrongVerdictCount, "402 WrongVerdictCount"),
    (Refusal::BadVote(2), "403 BadVote"),
    (Refusal::Conflict(5), "404 Conflict"),
    (Refusal::TimeOrder(5), "405 TimeOrder"),
    (Refusal::Full, "406 Full"),
    (Refusal::HashClash, "407 HashClash"),
];

fn check_refusal(
    rt: &impl Abort,
    alloc: Global,
    refusal: BookError,
    text: &str,
) -> Result<(), AllocError> {
    let printed = format!(in alloc; "{refusal}")?;
    assert_same(rt, "text", printed.as_str(), text);
    Ok(())
}

#[test]
fn prints(rt: HostRuntime) -> Result<(), Fail> {
    for (refusal, text) in REFUSALS {
        check_refusal(&rt, rt.alloc(), refusal_of(*refusal)?, text)?;
    }
    Ok(())
}
