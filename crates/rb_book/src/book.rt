//! The book of one chain.
ghost use Rattle.std.specs.Prelude.{◌≡◌, ◌≤◌, ◌↔◌, ◌∷◌, [], vec_capacity, IsTrue, IfSome, IfOk, IfErr, OnOk, OnErr, Some, None, count_by, position};
ghost use Rattle.std.specs.Option.{option_copied};
ghost use Rattle.std.specs.Cmp.Lexicographic.{pointwise};
ghost use Rattle.rb_valset.specs.ValidatorSet.{set_hash, IsValidatorSet, same_set};
ghost use Rattle.rb_book.specs.Header.{same_header};
ghost use Rattle.rb_book.specs.Book.{Book, set_of, record_at, header_at, heights_of, heights_and_times_of, top_of, is_below, header_is_at, has_hash, address_count, same_known, same_book};
ghost use Rattle.rb_book.specs.Invariant.{IsBook, IsBacked};
ghost use Rattle.rb_book.specs.Intake.{record_refusal, header_refusal, set_refusal, after_set, after_record, after_header, IsRefusal};
ghost use Rattle.rb_book.specs.Rest.{rest_of_book};

use crate::addresses::Addresses;
use crate::error::BookError;
use crate::forgetting::{header_is_from, is_from, is_left};
use crate::header::Header;
use crate::intake::{breaker, first_bad_vote};
use crate::known_addresses::{
    copy_addresses, count_addresses, count_new, drop_unknown, keep_addresses, reserve_addresses,
};
use crate::record::{Record, RecordAt};
use crate::search::{header_place, record_place, set_place};
use rb_base::{Height, Moment};
use rb_valset::ValidatorSet;
use std::alloc::{AllocError, Allocator, Global};
use std::marker::Model;

/// The most records that a book can be set up for.
pub const MAX_RECORDS: usize = 4096;

/// The most records of a book made by `ChainBook::new`.
const DEFAULT_LIMIT: usize = 1024;

/// The most sets of a book.
pub const MAX_SETS: usize = 1024;

/// The most different addresses of the members of all sets of a book.
const MAX_ADDRESSES: usize = 65_536;

/// The known sets, records and headers of one chain, each at most once: sets by hash, records and
/// headers by height. Times rise with heights; each header's record and own set are known.
///
/// A new book takes the memory for all that it may ever have, so that only the addresses of its
/// sets, which are kept to count them, take more: what was judged is put into it without memory.
#[derive(Drop)]
pub struct ChainBook<A: Allocator = Global> {
    limit: usize,
    sets: Vec<ValidatorSet<A>, A>,
    records: Vec<RecordAt, A>,
    headers: Vec<Header<A>, A>,
    distinct: usize,
    addresses: Option<Addresses<A>>,
}

impl<A: Allocator> Model for ChainBook<A> {
    ghost use Rattle.std.specs.Prelude.{◌≡◌, ◌≤◌, vec_capacity};
    ghost use Rattle.rb_book.specs.Book.{Book, address_count, max_sets};
    ghost use Rattle.rb_book.specs.Invariant.{IsBook, MayHaveAddressesOf};

    ghost Value = { Book };

    ghost view = { λ b. record { limit = b.limit; sets = b.sets.items; records = b.records.items; headers = b.headers.items } };

    ghost invariant = { λ b. IsBook (record { limit = b.limit; sets = b.sets.items; records = b.records.items; headers = b.headers.items })
        × ((max_sets ≤ vec_capacity b.sets) × (b.limit ≤ vec_capacity b.records) × (b.limit ≤ vec_capacity b.headers))
        × (b.distinct ≡ address_count b.sets.items)
        × MayHaveAddressesOf b.sets.items b.addresses };
}

impl<A: Allocator + Copy> ChainBook<A> {
    /// An empty book for at most 1,024 records.
    pub fn new(alloc: A) -> Result<ChainBook<A>, AllocError>
        ensures { IfOk result (λ book. book ≡ record { limit = 1024; sets = []; records = []; headers = [] }) }
    {
        ChainBook::with_limit(alloc, DEFAULT_LIMIT)
    }

    /// An empty book for at most so many records, 1 to 4,096.
    pub fn with_limit(alloc: A, records: usize) -> Result<ChainBook<A>, AllocError>
        requires { (1 ≤ records) × (records ≤ 4096) }
        ensures { IfOk result (λ book. book ≡ record { limit = records; sets = []; records = []; headers = [] }) }
    {
        Ok(ChainBook {
            limit: records,
            sets: Vec::with_capacity(alloc, MAX_SETS)?,
            records: Vec::with_capacity(alloc, records)?,
            headers: Vec::with_capacity(alloc, records)?,
            distinct: 0,
            addresses: Some(Addresses::new(alloc)),
        })
    }

    /// An equal book, on the allocator of this one.
    pub fn copy(&self) -> Result<ChainBook<A>, AllocError>
        ensures { IfOk result (λ book. book ≡ self.now) }
    {
        let alloc = self.alloc();
        Ok(ChainBook {
            limit: self.limit,
            sets: copy_sets(alloc, self.sets.as_slice(), MAX_SETS)?,
            records: copy_records(alloc, self.records.as_slice(), self.limit)?,
            headers: copy_headers(alloc, self.headers.as_slice(), self.limit)?,
            distinct: self.distinct,
            addresses: copy_addresses(&self.addresses)?,
        })
    }

    /// The allocator.
    pub(crate) fn alloc(&self) -> A {
        *self.records.allocator()
    }

    /// The known heights, rising.
    pub fn heights(&self) -> Result<Vec<Height, A>, AllocError>
        ensures value { IfOk result (λ heights. heights.items ≡ heights_of self.now) }
        ensures book { IsBook self.now }
    {
        let alloc = *self.records.allocator();
        self.records
            .iter()
            .map(|known| known.height())
            .collect(alloc)
    }

    /// The known heights and their times, rising together.
    pub fn heights_and_times(&self) -> Result<Vec<(Height, Moment), A>, AllocError>
        ensures value { IfOk result (λ times. times.items ≡ heights_and_times_of self.now) }
        ensures book { IsBook self.now }
    {
        let alloc = *self.records.allocator();
        self.records
            .iter()
            .map(|known| (known.height(), known.record().time()))
            .collect(alloc)
    }
}

impl<A: Allocator> ChainBook<A> {
    /// The most records that the book may have.
    pub fn limit(&self) -> usize
        ensures value { result ≡ self.now.limit }
        ensures book { IsBook self.now }
    {
        self.limit
    }

    /// The records, by rising height.
    pub fn records(&self) -> &[RecordAt]
        ensures value { result.now ≡ self.now.records }
        ensures book { IsBook self.now }
    {
        self.records.as_slice()
    }

    /// The headers, by rising height.
    pub fn headers(&self) -> &[Header<A>]
        ensures value { result.now ≡ self.now.headers }
        ensures book { IsBook self.now }
    {
        self.headers.as_slice()
    }

    /// The sets, by rising hash.
    pub fn sets(&self) -> &[ValidatorSet<A>]
        ensures value { result.now ≡ self.now.sets }
        ensures book { IsBook self.now }
    {
        self.sets.as_slice()
    }

    /// The set with this hash.
    pub fn set(&self, hash: &[u8; 32]) -> Option<&ValidatorSet<A>>
        ensures value { option_copied result ≡ set_of self.now hash.now }
        ensures named { IfSome result (λ set. set_hash set.now ≡ hash.now) }
        ensures book { IsBook self.now }
    {
        let place = set_place(self.sets.as_slice(), hash).ok()?;
        Some(&self.sets[place])
    }

    /// The record at this height.
    pub fn record(&self, height: Height) -> Option<&Record>
        ensures value { option_copied result ≡ record_at self.now height }
        ensures book { IsBook self.now }
    {
        let place = record_place(self.records.as_slice(), height).ok()?;
        Some(self.records[place].record())
    }

    /// The header at this height.
    pub fn header(&self, height: Height) -> Option<&Header<A>>
        ensures value { option_copied result ≡ header_at self.now height }
        ensures backed { IfSome result (λ header. IsBacked self.now header.now) }
        ensures book { IsBook self.now }
    {
        let place = header_place(self.headers.as_slice(), height).ok()?;
        Some(&self.headers[place])
    }

    /// The place of the set with this hash, among the sets by rising hash.
    pub fn set_place(&self, hash: &[u8; 32]) -> Option<usize>
        ensures value { result ≡ position (has_hash hash.now) self.now.sets }
        ensures book { IsBook self.now }
    {
        set_place(self.sets.as_slice(), hash).ok()
    }

    /// The place of the header at this height, among the headers by rising height.
    pub fn header_place(&self, height: Height) -> Option<usize>
        ensures value { result ≡ position (header_is_at height) self.now.headers }
        ensures book { IsBook self.now }
    {
        header_place(self.headers.as_slice(), height).ok()
    }

    /// How many known records are lower.
    pub fn lower_count(&self, height: Height) -> usize
        ensures value { result ≡ count_by (is_below height) self.now.records }
        ensures book { IsBook self.now }
    {
        match record_place(self.records.as_slice(), height) {
            Ok(place) | Err(place) => place,
        }
    }

    /// The greatest known height.
    pub fn top(&self) -> Option<Height>
        ensures { result ≡ top_of self.now }
    {
        Some(self.records.last()?.height())
    }
}

impl<A: Allocator> ChainBook<A> {
    fn is_same(&self, other: &ChainBook<A>) -> bool
        ensures { result ≡ same_book self.now other.now }
    {
        if !same_records(self.records.as_slice(), other.records.as_slice()) {
            return false;
        }
        self.limit == other.limit
            && same_sets(self.sets.as_slice(), other.sets.as_slice())
            && self.has_same_headers(other)
    }

    /// Whether the headers are the same, where the records are. A header's own record is among these.
    fn has_same_headers(&self, other: &ChainBook<A>) -> bool
        requires { self.now.records ≡ other.now.records }
        ensures { result ≡ pointwise same_header self.now.headers other.now.headers }
    {
        if self.headers.len() != other.headers.len() {
            return false;
        }
        for place in 0..self.headers.len() {
            if !self.headers[place].is_same_signing(&other.headers[place]) {
                return false;
            }
        }
        true
    }

    /// How many addresses the sets have together with this one.
    fn addresses_with(&self, set: &ValidatorSet<A>) -> usize
        ensures count { result ≡ address_count (set.now ∷ self.now.sets) }
        ensures valid { IsValidatorSet set.now }
    {
        self.distinct + count_new(&self.addresses, self.sets.as_slice(), set.members())
    }
}

impl<A: Allocator> ChainBook<A> {
    /// Why a set would be refused: `HashClash` where another set has its hash, `Full` where the
    /// book has 1,024 sets or would have more than 65,536 addresses.
    pub fn judge_set(&self, set: &ValidatorSet<A>) -> Result<(), BookError>
        ensures accepted { OnOk result (set_refusal self.now set.now ≡ None) }
        ensures refused { IfErr result (λ e. set_refusal self.now set.now ≡ Some e) }
    {
        let sets = self.sets.as_slice();
        match set_place(sets, set.hash()) {
            Ok(place) if sets[place] == *set => Ok(()),
            Ok(_) => Err(BookError::HashClash),
            Err(_) => {
                if sets.len() >= MAX_SETS || self.addresses_with(set) > MAX_ADDRESSES {
                    return Err(BookError::Full);
                }
                Ok(())
            }
        }
    }

    /// Why a record would be refused: `Conflict` where its height has another record, `TimeOrder`
    /// where its time doesn't stand between those of its neighbours, `Full` where the book has as
    /// many records as it may.
    pub fn judge_record(&self, height: Height, entry: &Record) -> Result<(), BookError>
        ensures accepted { OnOk result (record_refusal self.now height entry.now ≡ None) }
        ensures refused { IfErr result (λ e. record_refusal self.now height entry.now ≡ Some e) }
    {
        let records = self.records.as_slice();
        match record_place(records, height) {
            Ok(place) if *records[place].record() == *entry => Ok(()),
            Ok(_) => Err(BookError::Conflict(height)),
            Err(place) => {
                if let Some(height) = breaker(records, place, entry.time()) {
                    return Err(BookError::TimeOrder(height));
                }
                if records.len() >= self.limit {
                    return Err(BookError::Full);
                }
                Ok(())
            }
        }
    }

    /// Why a header would be refused: `UnknownSet` where its own set is not known,
    /// `WrongVerdictCount` where it hasn't one vote for each member, `BadVote` where one is bad,
    /// `Conflict` where its height has another header, and why its record would be.
    pub fn judge_header(&self, header: &Header<A>) -> Result<(), BookError>
        ensures accepted { OnOk result (header_refusal self.now header.now ≡ None) }
        ensures refused { IfErr result (λ e. header_refusal self.now header.now ≡ Some e) }
    {
        let Some(set) = self.set(header.set_hash()) else {
            return Err(BookError::UnknownSet);
        };
        if header.votes().len() != set.size() {
            return Err(BookError::WrongVerdictCount);
        }
        if let Some(index) = first_bad_vote(header.votes()) {
            return Err(BookError::BadVote(index));
        }
        let headers = self.headers.as_slice();
        match header_place(headers, header.height()) {
            Ok(place) if headers[place] == *header => Ok(()),
            Ok(_) => Err(BookError::Conflict(header.height())),
            Err(_) => self.judge_record(header.height(), header.record()),
        }
    }

    /// Makes room for the addresses of a set, if it is new. Where a set is put into a book that has
    /// no room for them, the addresses are not kept from then on, and new ones are looked for in
    /// each of the sets.
    pub fn make_room(&mut self, set: &ValidatorSet<A>) -> Result<(), AllocError>
        ensures { self.new ≡ self.old }
    {
        if self.set_place(set.hash()).is_some() {
            return Ok(());
        }
        reserve_addresses(&mut self.addresses, set.size())
    }

    /// Puts a set that is not refused into the book; an equal one changes nothing.
    pub fn put_set(&mut self, set: ValidatorSet<A>)
        requires { set_refusal self.old set ≡ None }
        ensures { self.new ≡ after_set self.old set }
    {
        if let Err(place) = set_place(self.sets.as_slice(), set.hash()) {
            self.distinct = self.addresses_with(&set);
            keep_addresses(&mut self.addresses, set.members());
            self.sets.insert(place, set).unwrap();
        }
    }

    /// Puts a record that is not refused into the book; an equal one changes nothing.
    pub fn put_record(&mut self, height: Height, entry: Record)
        requires { record_refusal self.old height entry ≡ None }
        ensures { self.new ≡ after_record self.old height entry }
    {
        if let Err(place) = record_place(self.records.as_slice(), height) {
            let known = RecordAt::new(height, entry);
            self.records.insert(place, known).unwrap();
        }
    }

    /// Puts a header that is not refused into the book, with its record; an equal one changes
    /// nothing.
    pub fn put_header(&mut self, header: Header<A>)
        requires { header_refusal self.old header ≡ None }
        ensures { self.new ≡ after_header self.old header }
    {
        let height = header.height();
        if let Err(place) = header_place(self.headers.as_slice(), height) {
            self.put_record(height, *header.record());
            self.headers.insert(place, header).unwrap();
        }
    }

    /// Adds a set, unless it is refused as `judge_set` tells.
    pub fn add_set(&mut self, set: ValidatorSet<A>) -> Result<(), BookError>
        ensures accepted { OnOk result (set_refusal self.old set ≡ None) }
        ensures added { OnOk result (self.new ≡ after_set self.old set) }
        ensures refused { IfErr result (λ e. IsRefusal e (set_refusal self.old set)) }
        ensures unchanged { OnErr result (self.new ≡ self.old) }
    {
        self.judge_set(&set)?;
        self.make_room(&set)?;
        self.put_set(set);
        Ok(())
    }

    /// Adds a record, unless it is refused as `judge_record` tells.
    pub fn add_record(&mut self, height: Height, entry: Record) -> Result<(), BookError>
        ensures accepted { OnOk result (record_refusal self.old height entry ≡ None) }
        ensures added { OnOk result (self.new ≡ after_record self.old height entry) }
        ensures refused { IfErr result (λ e. record_refusal self.old height entry ≡ Some e) }
        ensures unchanged { OnErr result (self.new ≡ self.old) }
    {
        self.judge_record(height, &entry)?;
        self.put_record(height, entry);
        Ok(())
    }

    /// Adds a header and its record, unless it is refused as `judge_header` tells.
    pub fn add_header(&mut self, header: Header<A>) -> Result<(), BookError>
        ensures accepted { OnOk result (header_refusal self.old header ≡ None) }
        ensures added { OnOk result (self.new ≡ after_header self.old header) }
        ensures refused { IfErr result (λ e. header_refusal self.old header ≡ Some e) }
        ensures unchanged { OnErr result (self.new ≡ self.old) }
    {
        self.judge_header(&header)?;
        self.put_header(header);
        Ok(())
    }

    /// Forgets the records and the headers below a height, and the sets that only these name. A set
    /// that nothing names yet stays. No memory is taken.
    pub fn forget(&mut self, below: Height)
        ensures { self.new ≡ rest_of_book below self.old }
    {
        let records = self.records.as_slice();
        let headers = self.headers.as_slice();
        self.sets
            .retain(|set| is_left(below, records, headers, set));
        self.records.retain(|known| is_from(below, known));
        self.headers.retain(|header| header_is_from(below, header));
        drop_unknown(&mut self.addresses, self.sets.as_slice());
        self.distinct = count_addresses(&self.addresses, self.sets.as_slice());
    }
}

/// Two books are equal where their limits are and all that they know is; no memory is taken.
impl<A: Allocator> PartialEq for ChainBook<A> {
    ghost use Rattle.rb_book.specs.Book.{same_book};
    ghost use Rattle.rb_book.specs.Same.{same_book-laws};

    ghost eq = { same_book };

    ghost laws = { same_book-laws };

    fn eq(&self, other: &ChainBook<A>) -> bool
        ensures value { result ≡ same_book self.now other.now }
        ensures equal { IsTrue result ↔ (self.now ≡ other.now) }
    {
        self.is_same(other)
    }
}

impl<A: Allocator> Eq for ChainBook<A> {
    ghost use Rattle.rb_book.specs.Same.{same_book-equivalence};

    ghost laws = { same_book-equivalence };
}

fn same_sets<A: Allocator>(sets: &[ValidatorSet<A>], others: &[ValidatorSet<A>]) -> bool
    ensures { result ≡ pointwise same_set sets.now others.now }
{
    sets == others
}

fn same_records(records: &[RecordAt], others: &[RecordAt]) -> bool
    ensures { result ≡ pointwise same_known records.now others.now }
{
    if records.len() != others.len() {
        return false;
    }
    for place in 0..records.len() {
        if !records[place].is_same(&others[place]) {
            return false;
        }
    }
    true
}

fn copy_sets<A: Allocator + Copy>(
    alloc: A,
    sets: &[ValidatorSet<A>],
    room: usize,
) -> Result<Vec<ValidatorSet<A>, A>, AllocError>
    ensures items { IfOk result (λ copies. copies.items ≡ sets.now) }
    ensures room { IfOk result (λ copies. room ≤ vec_capacity copies) }
{
    let mut copies = Vec::with_capacity(alloc, room)?;
    for set in sets {
        copies.push(set.copy()?)?;
    }
    Ok(copies)
}

fn copy_records<A: Allocator + Copy>(
    alloc: A,
    records: &[RecordAt],
    room: usize,
) -> Result<Vec<RecordAt, A>, AllocError>
    ensures items { IfOk result (λ copies. copies.items ≡ records.now) }
    ensures room { IfOk result (λ copies. room ≤ vec_capacity copies) }
{
    let mut copies = Vec::with_capacity(alloc, room)?;
    copies.extend_from_slice(records)?;
    Ok(copies)
}

fn copy_headers<A: Allocator + Copy>(
    alloc: A,
    headers: &[Header<A>],
    room: usize,
) -> Result<Vec<Header<A>, A>, AllocError>
    ensures items { IfOk result (λ copies. copies.items ≡ headers.now) }
    ensures room { IfOk result (λ copies. room ≤ vec_capacity copies) }
{
    let mut copies = Vec::with_capacity(alloc, room)?;
    for header in headers {
        copies.push(header.copy()?)?;
    }
    Ok(copies)
}
