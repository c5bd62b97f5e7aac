//! Tables by many threads: equal for every number of workers, and by two threads at once.
ghost use Rattle.std.specs.Prelude.{◌≡◌, ◌<◌, ◌≤◌, length, All, IfOk};
ghost use Rattle.rb_graph.specs.Frame.{IsRowOf};

use crate::same::assert_same;
use crate::steps::steps_of;
use rb_base::{Gate, OpenGate, WorkItem};
use rb_book::{ChainBook, Header, Record, Vote};
use rb_gang::laws::count;
use rb_gang::{build, make_rows, open};
use rb_graph::{Frame, FrameRow, Graph, TableError};
use std::alloc::{AllocError, Global};
use std::process::Abort;
use std::sync::atomic::{AtomicU64, Ordering};
use std::test::Fail;
use std::thread;
use std::thread::Threads;
use std::time::{Clock, Duration};
use test_book::{height, make_set, second};

/// A header of a set of two at a height, at 10 seconds for each height; both members sign it.
fn make_header(alloc: Global, number: u64, hash: [u8; 32]) -> Result<Header, Fail> {
    let at = height(number)?;
    let record = Record::new(second(number.saturating_mul(10))?, [0; 32], hash);
    let votes = Vec::from_slice(alloc, &[Vote::Commit, Vote::Commit])?;
    Ok(Header::new(at, record, hash, votes))
}

/// Adds headers at the heights from 1 on.
fn add_headers(
    alloc: Global,
    book: &mut ChainBook,
    headers: u64,
    hash: [u8; 32],
) -> Result<(), Fail> {
    for number in 1..=headers {
        book.add_header(make_header(alloc, number, hash)?)?;
    }
    Ok(())
}

/// Adds the set of two, and its headers at the heights from 1 on.
fn fill_book(alloc: Global, book: &mut ChainBook, headers: u64) -> Result<(), Fail> {
    let set = make_set(alloc, &[(0xa1, 60), (0xa2, 40)])?;
    let hash = *set.hash();
    book.add_set(set)?;
    add_headers(alloc, book, headers, hash)
}

/// A book of headers at the heights from 1 on.
fn make_book(alloc: Global, headers: u64) -> Result<ChainBook, Fail> {
    let mut book = ChainBook::new(alloc)?;
    fill_book(alloc, &mut book, headers)?;
    Ok(book)
}

/// The frame of a book of so many headers.
fn make_frame(alloc: Global, headers: u64) -> Result<Frame, Fail> {
    Ok(Frame::from_book(alloc, make_book(alloc, headers)?)?)
}

/// The number of steps that a table tells, and the sum of their fees.
type Summary = (usize, u64);

/// The summary for a trust level of 99 hundredths.
fn summary(alloc: Global, graph: &Graph) -> Result<Summary, Fail> {
    let steps = steps_of(alloc, graph, 99)?;
    let mut fees: u64 = 0;
    for (_, _, fee) in steps.iter() {
        fees = fees.saturating_add(*fee);
    }
    Ok((steps.len(), fees))
}

/// Headers, workers, and the summary of the table: each header is signed by all, so that there is a step
/// into it from each lower one, for 1,204.
const TABLES: &[(u64, usize, Summary)] = &[
    (0, 1, (0, 0)),
    (0, 8, (0, 0)),
    (1, 2, (0, 0)),
    (10, 1, (45, 54_180)),
    (10, 2, (45, 54_180)),
    (10, 8, (45, 54_180)),
    (10, 64, (45, 54_180)),
];

/// The summary of a table, where it is the table of a book of so many headers.
fn summary_of(alloc: Global, graph: &Graph, headers: u64) -> Result<Summary, Fail> {
    if !graph.is_of(&make_book(alloc, headers)?) {
        return Err(Fail::from("another book"));
    }
    summary(alloc, graph)
}

/// The summary of a table by so many workers, where it is the table of its book.
fn built<R: Threads + Sync>(
    rt: &R,
    alloc: Global,
    headers: u64,
    workers: usize,
) -> Result<Summary, Fail>
    requires { (0 < workers) × (workers ≤ 64) }
{
    let book = make_book(alloc, headers)?;
    let graph = build(rt, alloc, book, workers, &OpenGate)?;
    summary_of(alloc, &graph, headers)
}

#[test]
fn tables_are_equal_for_all_numbers_of_workers(rt: HostRuntime) -> Result<(), Fail> {
    for (headers, workers, wanted) in TABLES {
        if *workers < 1 || 64 < *workers {
            return Err(Fail::from("workers"));
        }
        let given = built(&rt, rt.alloc(), *headers, *workers)?;
        assert_same(&rt, workers, &given, wanted);
    }
    Ok(())
}

/// Two workers make the ten rows of the frame.
fn check_drawn<R: Threads + Sync + Abort>(rt: &R, alloc: Global, frame: &Frame) -> Result<(), Fail>
    requires { length frame.now.headers ≡ 10 }
{
    let (table, seat) = open(alloc, 10)?;
    let (mut seat, rows) = make_rows(rt, alloc, frame, &table, seat, 2, &OpenGate)?;
    assert!(rt; count(&table, &mut seat) == 12);
    assert!(rt; rows.len() == 10);
    Ok(())
}

fn check_ten<R: Threads + Sync + Abort>(rt: &R, alloc: Global, frame: &Frame) -> Result<(), Fail> {
    if frame.rows() != 10 {
        return Err(Fail::from("ten rows"));
    }
    check_drawn(rt, alloc, frame)
}

/// Ten rows and two workers: each draws one number more than there are rows.
#[test]
fn two_workers_draw_twelve_numbers(rt: HostRuntime) -> Result<(), Fail> {
    check_ten(&rt, rt.alloc(), &make_frame(rt.alloc(), 10)?)
}

/// Holds the row that begins first until so many others are made, for at most so many looks.
#[derive(Drop)]
struct HoldFirst<'a, R: Clock> {
    rt: &'a R,
    others: u64,
    looks: u64,
    begun: AtomicU64,
    ended: AtomicU64,
    is_given_up: AtomicU64,
}

impl<'a, R: Clock> HoldFirst<'a, R> {
    fn new(rt: &'a R, others: u64, looks: u64) -> HoldFirst<'a, R> {
        HoldFirst {
            rt,
            others,
            looks,
            begun: AtomicU64::new(0),
            ended: AtomicU64::new(0),
            is_given_up: AtomicU64::new(0),
        }
    }

    /// How many rows are made, where none was held for too long.
    fn made(&self) -> Option<u64> {
        if self.is_given_up.load(Ordering::SeqCst) == 0 {
            Some(self.ended.load(Ordering::SeqCst))
        } else {
            None
        }
    }
}

impl<'a, R: Clock> Gate for HoldFirst<'a, R> {
    fn before(&self, _item: WorkItem) {
        if self.begun.fetch_add(1, Ordering::SeqCst) > 0 {
            return;
        }
        for _ in 0..self.looks {
            if self.ended.load(Ordering::SeqCst) >= self.others {
                return;
            }
            thread::sleep(self.rt, Duration::from_micros(20));
        }
        self.is_given_up.store(1, Ordering::SeqCst);
    }

    fn after(&self, _item: WorkItem) {
        self.ended.fetch_add(1, Ordering::SeqCst);
    }
}

/// Makes the table of ten headers by so many workers behind a gate.
fn build_behind<R: Threads + Sync + Clock>(
    rt: &R,
    alloc: Global,
    workers: usize,
    gate: &HoldFirst<R>,
) -> Result<(), Fail>
    requires { (0 < workers) × (workers ≤ 64) }
{
    let book = make_book(alloc, 10)?;
    let _graph = build(rt, alloc, book, workers, gate)?;
    Ok(())
}

/// The row that begins first is held until the nine others are made, which only another worker can do.
#[test]
fn both_workers_build(rt: HostRuntime) -> Result<(), Fail> {
    let gate = HoldFirst::new(&rt, 9, 1_000_000);
    build_behind(&rt, rt.alloc(), 2, &gate)?;
    assert!(rt; gate.made() == Some(10));
    Ok(())
}

/// One worker alone would wait for itself.
#[test]
fn a_serial_build_is_found_out(rt: HostRuntime) -> Result<(), Fail> {
    let gate = HoldFirst::new(&rt, 9, 100);
    build_behind(&rt, rt.alloc(), 1, &gate)?;
    assert!(rt; gate.made().is_none());
    Ok(())
}

/// Makes the rows from one number to another.
fn make_share<G: Gate>(frame: &Frame, from: usize, to: usize, gate: &G) -> Result<(), AllocError> {
    for n in from..to {
        gate.before(WorkItem::Row(n));
        if n < frame.rows() {
            let _row = frame.row(n)?;
        }
        gate.after(WorkItem::Row(n));
    }
    Ok(())
}

/// Two workers make the ten rows of the frame, which are shared out beforehand.
fn make_shares<R: Threads + Sync + Clock>(
    rt: &R,
    frame: &Frame,
    gate: &HoldFirst<R>,
) -> Result<(), AllocError> {
    let (low, high) = thread::join(
        rt,
        || make_share(frame, 0, 5, gate),
        || make_share(frame, 5, 10, gate),
    );
    low?;
    high
}

/// Two workers whose rows were shared out beforehand: the held row's worker makes none of the others.
#[test]
fn rows_shared_out_beforehand_are_found_out(rt: HostRuntime) -> Result<(), Fail> {
    let gate = HoldFirst::new(&rt, 9, 100);
    make_shares(&rt, &make_frame(rt.alloc(), 10)?, &gate)?;
    assert!(rt; gate.made().is_none());
    Ok(())
}

/// The numbers of rows that are put together, of a book of three headers, and the refusal's number
/// with its row.
const FLAWS: &[(&[usize], Option<(u16, usize)>)] = &[
    (&[0, 1, 2], None),
    (&[2, 0, 1], None),
    (&[0, 1], Some((551, 2))),
    (&[2, 0], Some((551, 1))),
    (&[], Some((551, 0))),
    (&[2, 1, 0, 1, 2], Some((552, 1))),
    (&[2, 2], Some((552, 2))),
];

/// The refusal's number, and the row that it names.
fn refusal(cause: TableError) -> Option<(u16, usize)> {
    match cause {
        TableError::RowMissing(n) => Some((cause.number()?, n)),
        TableError::RowTwice(n) => Some((cause.number()?, n)),
        TableError::NoMemory => None,
    }
}

/// The frame's rows with these numbers.
fn rows_of(alloc: Global, frame: &Frame, numbers: &[usize]) -> Result<Vec<FrameRow>, Fail>
    ensures { IfOk result (λ rows. All (IsRowOf frame.now) rows.items) }
{
    let mut rows = Vec::new(alloc);
    for n in numbers {
        if frame.rows() <= *n {
            return Err(Fail::from("row"));
        }
        rows.push(frame.row(*n)?)?;
    }
    Ok(rows)
}

/// The rows handed back are so many, and each is told to be of the frame.
fn check_back(rt: &impl Abort, frame: &Frame, rows: &[FrameRow], count: usize) {
    assert!(rt; rows.len() == count);
    for row in rows {
        assert!(rt; row.is_of(frame));
    }
}

/// What putting these rows together answers: nothing for a table, else the refusal. The rows handed
/// back are as many as before, and each is told to be of the frame.
fn finished(
    rt: &impl Abort,
    alloc: Global,
    numbers: &[usize],
) -> Result<Option<(u16, usize)>, Fail> {
    let frame = make_frame(alloc, 3)?;
    let rows = rows_of(alloc, &frame, numbers)?;
    match frame.finish(rows) {
        Ok(_graph) => Ok(None),
        Err((frame, rows, cause)) => {
            check_back(rt, &frame, rows.as_slice(), numbers.len());
            Ok(refusal(cause))
        }
    }
}

#[test]
fn rows_are_put_together(rt: HostRuntime) -> Result<(), Fail> {
    for (numbers, wanted) in FLAWS {
        let given = finished(&rt, rt.alloc(), numbers)?;
        assert!(rt; given == *wanted);
    }
    Ok(())
}

/// Of these rows those of the first headers are of the frame of so many.
fn check_told(rt: &impl Abort, alloc: Global, rows: &[FrameRow], headers: u64) -> Result<(), Fail> {
    let frame = make_frame(alloc, headers)?;
    for row in rows {
        assert!(rt; row.is_of(&frame) == (row.number() < headers as usize));
    }
    Ok(())
}

fn check_all_told(rt: &impl Abort, alloc: Global, rows: &[FrameRow]) -> Result<(), Fail> {
    for headers in [3, 2, 0] {
        check_told(rt, alloc, rows, headers)?;
    }
    Ok(())
}

fn check_three(rt: &impl Abort, alloc: Global, frame: &Frame) -> Result<(), Fail> {
    let rows = rows_of(alloc, frame, &[0, 1, 2])?;
    check_all_told(rt, alloc, rows.as_slice())
}

/// The rows of three headers are told from those of the first two of them, and of none.
#[test]
fn rows_of_another_book_are_told(rt: HostRuntime) -> Result<(), Fail> {
    check_three(&rt, rt.alloc(), &make_frame(rt.alloc(), 3)?)
}
