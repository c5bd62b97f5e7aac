//! Tables as they are made of a book: the steps that they tell, by hand and by the client's own judgement.
use crate::same::assert_same;
use crate::steps::{Step, fees, options_with, push_steps, steps_of, wide_window};
use rb_base::{Height, Options, Window};
use rb_book::{ChainBook, Header, Record, Vote};
use rb_graph::Graph;
use rb_step::{ClientView, are_known};
use std::alloc::Global;
use std::process::Abort;
use std::test::Fail;
use test_book::{Members, height, make_set, options, second};

const C: Vote = Vote::Commit;

const N: Vote = Vote::Nil;

const X: Vote = Vote::Absent;

const A: Members = &[(0xa1, 40), (0xa2, 30), (0xa3, 20), (0xa4, 10)];

const B: Members = &[(0xa1, 40), (0xa2, 30), (0xb1, 20), (0xb2, 10)];

const D: Members = &[(0xb1, 50), (0xd1, 30), (0xa4, 20)];

/// Heights, their own and next sets, and the votes. The header at 9 isn't signed by enough of its own
/// set.
const HEADERS: &[(u64, Members, Members, &[Vote])] = &[
    (10, D, D, &[C, C, X]),
    (1, A, A, &[C, C, C, X]),
    (7, B, D, &[C, C, X, N]),
    (3, A, B, &[C, C, X, X]),
    (6, B, B, &[C, X, C, C]),
    (9, D, D, &[C, X, N]),
];

/// A header that has the time 10 h seconds at height h.
fn make_header(
    alloc: Global,
    number: u64,
    own: [u8; 32],
    next: [u8; 32],
    votes: &[Vote],
) -> Result<Header, Fail> {
    let at = height(number)?;
    let record = Record::new(second(number.saturating_mul(10))?, [0; 32], next);
    Ok(Header::new(at, record, own, Vec::from_slice(alloc, votes)?))
}

/// Adds a set, and answers its hash.
fn add_set(book: &mut ChainBook, alloc: Global, members: Members) -> Result<[u8; 32], Fail> {
    let set = make_set(alloc, members)?;
    let hash = *set.hash();
    book.add_set(set)?;
    Ok(hash)
}

/// Adds a header and its own set.
fn add_header(
    book: &mut ChainBook,
    alloc: Global,
    number: u64,
    (own, next): (Members, Members),
    votes: &[Vote],
) -> Result<(), Fail> {
    let next = *make_set(alloc, next)?.hash();
    let own = add_set(book, alloc, own)?;
    Ok(book.add_header(make_header(alloc, number, own, next, votes)?)?)
}

fn add_headers(book: &mut ChainBook, alloc: Global) -> Result<(), Fail> {
    for (number, own, next, votes) in HEADERS {
        add_header(book, alloc, *number, (own, next), votes)?;
    }
    Ok(())
}

/// Adds a record at 4 that names an unknown set.
fn add_record(book: &mut ChainBook) -> Result<(), Fail> {
    let record = Record::new(second(40)?, [0; 32], [7; 32]);
    Ok(book.add_record(height(4)?, record)?)
}

/// A book of these headers and that record.
fn make_book(alloc: Global) -> Result<ChainBook, Fail> {
    let mut book = ChainBook::new(alloc)?;
    add_record(&mut book)?;
    add_headers(&mut book, alloc)?;
    Ok(book)
}

fn make_graph(alloc: Global) -> Result<Graph, Fail> {
    Ok(Graph::from_book(alloc, make_book(alloc)?)?)
}

/// The fee of the step by the client's own judgement, where it accepts it.
fn judged_fee(
    rt: &impl Abort,
    book: &ChainBook,
    (into, trusted): (Height, Height),
    options: Options,
    window: Window,
) -> Result<Option<u64>, Fail> {
    assert!(rt; are_known(&[], book));
    let view = ClientView::new(options, fees()?, &[], window, book);
    if view.accepts(trusted, into) {
        Ok(Some(view.fee(trusted, into)))
    } else {
        Ok(None)
    }
}

/// Pushes the steps into a height by the client's own judgement of each record.
fn push_judged(
    rt: &impl Abort,
    book: &ChainBook,
    into: Height,
    options: Options,
    window: Window,
    steps: &mut Vec<Step>,
) -> Result<(), Fail> {
    for record in book.records() {
        let trusted = record.height();
        if let Some(fee) = judged_fee(rt, book, (into, trusted), options, window)? {
            steps.push((into.get(), trusted.get(), fee))?;
        }
    }
    Ok(())
}

/// The steps into each header by the client's own judgement.
fn judged_steps(
    rt: &impl Abort,
    alloc: Global,
    book: &ChainBook,
    level: u64,
) -> Result<Vec<Step>, Fail> {
    let (options, window) = (options_with(level)?, wide_window()?);
    let mut steps = Vec::new(alloc);
    for header in book.headers() {
        push_judged(rt, book, header.height(), options, window, &mut steps)?;
    }
    Ok(steps)
}

/// All steps of the book.
const ALL: &[Step] = &[
    (3, 1, 1_208),
    (6, 1, 1_308),
    (6, 3, 1_308),
    (7, 1, 1_208),
    (7, 3, 1_208),
    (7, 6, 1_208),
    (10, 7, 1_206),
    (10, 9, 1_206),
];

/// Without the one whose trusted set signed 40 of 100.
const OVER_40: &[Step] = &[
    (3, 1, 1_208),
    (6, 3, 1_308),
    (7, 1, 1_208),
    (7, 3, 1_208),
    (7, 6, 1_208),
    (10, 7, 1_206),
    (10, 9, 1_206),
];

/// Without those whose trusted set signed 70.
const OVER_70: &[Step] = &[(7, 6, 1_208), (10, 7, 1_206), (10, 9, 1_206)];

/// Without the one whose trusted set signed 80: the adjacent steps.
const ADJACENT: &[Step] = &[(7, 6, 1_208), (10, 9, 1_206)];

/// Trust levels in hundredths, and the steps.
const LEVELS: &[(u64, &[Step])] = &[
    (39, ALL),
    (40, OVER_40),
    (69, OVER_40),
    (70, OVER_70),
    (79, OVER_70),
    (80, ADJACENT),
    (100, ADJACENT),
];

fn same_steps(rt: &impl Abort, row: u64, steps: &[Step], wanted: &[Step]) {
    assert_same(rt, row, steps, wanted);
}

/// The table and the verifier tell these steps at a trust level.
fn check_level(
    rt: &impl Abort,
    alloc: Global,
    graph: &Graph,
    level: u64,
    wanted: &[Step],
) -> Result<(), Fail> {
    same_steps(rt, level, &steps_of(alloc, graph, level)?, wanted);
    same_steps(
        rt,
        level,
        &judged_steps(rt, alloc, graph.book(), level)?,
        wanted,
    );
    Ok(())
}

fn check_levels(rt: &impl Abort, alloc: Global, graph: &Graph) -> Result<(), Fail> {
    for (level, wanted) in LEVELS {
        check_level(rt, alloc, graph, *level, wanted)?;
    }
    Ok(())
}

#[test]
fn tells_steps(rt: HostRuntime) -> Result<(), Fail> {
    check_levels(&rt, rt.alloc(), &make_graph(rt.alloc())?)
}

/// A height, the first and last second of a window, and the heights from which the step is accepted.
type Accepted = (u64, u64, u64, &'static [u64]);

const STEPS: &[Accepted] = &[
    (3, 200, 1_009, &[1]),
    (3, 200, 1_010, &[]),
    (4, 200, 1_009, &[]),
    (6, 200, 1_009, &[1, 3]),
    (6, 200, 1_010, &[3]),
    (6, 51, 52, &[1, 3]),
    (6, 50, 52, &[]),
    (7, 200, 1_009, &[1, 3, 6]),
    (9, 200, 1_009, &[]),
    (10, 200, 1_009, &[7, 9]),
];

/// The trusted heights of the steps.
fn heights_of(alloc: Global, steps: &[Step]) -> Result<Vec<u64>, Fail> {
    let mut heights = Vec::new(alloc);
    for (_, trusted, _) in steps {
        heights.push(*trusted)?;
    }
    Ok(heights)
}

/// The steps of the table into a height.
fn told_steps(
    alloc: Global,
    graph: &Graph,
    into: Height,
    window: Window,
) -> Result<Vec<Step>, Fail> {
    let options = options()?;
    let mut steps = Vec::new(alloc);
    push_steps(graph, into, options, window, &mut steps)?;
    Ok(steps)
}

/// The verifier tells the same steps.
fn check_judged(
    rt: &impl Abort,
    alloc: Global,
    book: &ChainBook,
    into: Height,
    window: Window,
    told: &[Step],
) -> Result<(), Fail> {
    let options = options()?;
    let mut steps = Vec::new(alloc);
    push_judged(rt, book, into, options, window, &mut steps)?;
    same_steps(rt, into.get(), &steps, told);
    Ok(())
}

fn check_steps(
    rt: &impl Abort,
    alloc: Global,
    graph: &Graph,
    (number, from, until, trusted): &Accepted,
) -> Result<(), Fail> {
    let into = height(*number)?;
    let window = Window::new(second(*from)?, second(*until)?)?;
    let told = told_steps(alloc, graph, into, window)?;
    let heights = heights_of(alloc, &told)?;
    assert_same(rt, number, &heights.as_slice(), trusted);
    check_judged(rt, alloc, graph.book(), into, window, &told)
}

fn check_all_steps(rt: &impl Abort, alloc: Global, graph: &Graph) -> Result<(), Fail> {
    for accepted in STEPS {
        check_steps(rt, alloc, graph, accepted)?;
    }
    Ok(())
}

#[test]
fn tells_steps_by_window(rt: HostRuntime) -> Result<(), Fail> {
    check_all_steps(&rt, rt.alloc(), &make_graph(rt.alloc())?)
}
