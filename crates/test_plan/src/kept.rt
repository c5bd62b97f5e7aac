//! Tables that grow: after additions they tell the steps that a table made anew of the same book tells.
use crate::same::assert_same;
use crate::steps::{Step, steps_of};
use rb_book::{ChainBook, Header, Record, Vote};
use rb_graph::{Graph, SharedGraph};
use std::alloc::Global;
use std::process::Abort;
use std::test::Fail;
use test_book::{Members, height, make_set, second};

/// Four members of power 10 each, some of whom are members of another set.
const A: Members = &[(0xa1, 10), (0xa2, 10), (0xa3, 10), (0xa4, 10)];

const B: Members = &[(0xa1, 10), (0xa2, 10), (0xa3, 10), (0xb4, 10)];

const D: Members = &[(0xa1, 10), (0xb4, 10), (0xd3, 10), (0xd4, 10)];

const VOTES: &[Vote] = &[Vote::Commit, Vote::Commit, Vote::Commit, Vote::Nil];

/// The record at a height, of 10 h seconds at height h.
fn record_at(number: u64, next: [u8; 32]) -> Result<Record, Fail> {
    Ok(Record::new(second(number.saturating_mul(10))?, [0; 32], next))
}

/// The header at a height, which all but the last of its own set sign.
fn header_at(alloc: Global, number: u64, own: [u8; 32], next: [u8; 32]) -> Result<Header, Fail> {
    let at = height(number)?;
    let record = record_at(number, next)?;
    Ok(Header::new(at, record, own, Vec::from_slice(alloc, VOTES)?))
}

fn hash_of(alloc: Global, members: Members) -> Result<[u8; 32], Fail> {
    Ok(*make_set(alloc, members)?.hash())
}

fn add_members(alloc: Global, graph: &mut Graph, members: Members) -> Result<(), Fail> {
    Ok(graph.add_set(make_set(alloc, members)?)?)
}

/// Adds the headers 1 to 5 of one set; the record at 3 names another one, which isn't known.
fn add_five(alloc: Global, graph: &mut Graph) -> Result<(), Fail> {
    let (own, next) = (hash_of(alloc, A)?, hash_of(alloc, B)?);
    for number in [5, 1, 4, 2, 3] {
        let named = if number == 3 { next } else { own };
        graph.add_header(header_at(alloc, number, own, named)?)?;
    }
    Ok(())
}

/// Adds the first set, and its headers.
fn fill(alloc: Global, graph: &mut Graph) -> Result<(), Fail> {
    add_members(alloc, graph, A)?;
    add_five(alloc, graph)
}

fn make_empty(alloc: Global) -> Result<Graph, Fail> {
    Ok(Graph::from_book(alloc, ChainBook::new(alloc)?)?)
}

/// A table of these.
fn make_table(alloc: Global) -> Result<Graph, Fail> {
    let mut graph = make_empty(alloc)?;
    fill(alloc, &mut graph)?;
    Ok(graph)
}

/// The steps of that table, for a trust level of 40 hundredths.
const EARLY: &[Step] = &[
    (2, 1, 1_308),
    (3, 1, 1_308),
    (3, 2, 1_308),
    (4, 1, 1_308),
    (4, 2, 1_308),
    (5, 1, 1_308),
    (5, 2, 1_308),
    (5, 4, 1_308),
];

/// With the next set of the record at 3, of whose power the voters of the header at 5 hold half, there is
/// a step from the one to the other.
const LATE: &[Step] = &[
    (2, 1, 1_308),
    (3, 1, 1_308),
    (3, 2, 1_308),
    (4, 1, 1_308),
    (4, 2, 1_308),
    (5, 1, 1_308),
    (5, 2, 1_308),
    (5, 3, 1_308),
    (5, 4, 1_308),
];

/// The steps of a table that is made of this one's book.
fn steps_anew(alloc: Global, graph: &Graph, level: u64) -> Result<Vec<Step>, Fail> {
    steps_of(
        alloc,
        &Graph::from_book(alloc, graph.book().copy()?)?,
        level,
    )
}

fn same_steps(rt: &impl Abort, steps: &[Step], wanted: &[Step]) {
    assert_same(rt, wanted.len(), steps, wanted);
}

/// A table has these steps, as the one that is made of its book has.
fn check_steps(rt: &impl Abort, alloc: Global, graph: &Graph, wanted: &[Step]) -> Result<(), Fail> {
    same_steps(rt, &steps_of(alloc, graph, 40)?, wanted);
    same_steps(rt, &steps_anew(alloc, graph, 40)?, wanted);
    Ok(())
}

/// Adds the second set, which brings a step, or is there already.
fn add_late(rt: &impl Abort, alloc: Global, graph: &mut Graph) -> Result<(), Fail> {
    add_members(alloc, graph, B)?;
    check_steps(rt, alloc, graph, LATE)
}

/// The record at height 6, which names the second set.
fn sixth_record(alloc: Global) -> Result<Record, Fail> {
    record_at(6, hash_of(alloc, B)?)
}

/// Adds a record above all headers, which brings no step.
fn add_record(rt: &impl Abort, alloc: Global, graph: &mut Graph) -> Result<(), Fail> {
    graph.add_record(height(6)?, sixth_record(alloc)?)?;
    check_steps(rt, alloc, graph, LATE)
}

fn check_late(rt: &impl Abort, alloc: Global, graph: &mut Graph) -> Result<(), Fail> {
    check_steps(rt, alloc, graph, EARLY)?;
    add_late(rt, alloc, graph)?;
    add_late(rt, alloc, graph)?;
    add_record(rt, alloc, graph)
}

#[test]
fn a_set_that_comes_late_brings_steps(rt: HostRuntime) -> Result<(), Fail> {
    check_late(&rt, rt.alloc(), &mut make_table(rt.alloc())?)
}

fn check_owners(
    rt: &impl Abort,
    alloc: Global,
    shared: &mut SharedGraph,
    other: &SharedGraph,
) -> Result<(), Fail> {
    shared.add_set(make_set(alloc, B)?)?;
    check_steps(rt, alloc, other.graph(), EARLY)?;
    check_steps(rt, alloc, shared.graph(), LATE)?;
    shared.add_record(height(6)?, sixth_record(alloc)?)?;
    check_steps(rt, alloc, shared.graph(), LATE)
}

fn check_shared(rt: &impl Abort, alloc: Global, shared: &mut SharedGraph) -> Result<(), Fail> {
    let other = shared.share()?;
    check_owners(rt, alloc, shared, &other)
}

/// What another owner holds stays as it was; without one the table is changed in place.
#[test]
fn other_owners_keep_their_table(rt: HostRuntime) -> Result<(), Fail> {
    let mut shared = SharedGraph::new(rt.alloc(), make_table(rt.alloc())?)?;
    check_shared(&rt, rt.alloc(), &mut shared)
}

/// Numbers that look random.
fn next_number(state: u64) -> u64 {
    let state = state ^ (state << 13);
    let state = state ^ (state >> 7);
    state ^ (state << 17)
}

/// One of the three sets.
fn members(number: u64) -> Members {
    match number % 3 {
        0 => A,
        1 => B,
        _ => D,
    }
}

/// A table and a book answer the same to a set.
fn add_set_both(
    rt: &impl Abort,
    alloc: Global,
    graph: &mut Graph,
    book: &mut ChainBook,
    set: Members,
) -> Result<(), Fail> {
    let given = graph.add_set(make_set(alloc, set)?);
    let wanted = book.add_set(make_set(alloc, set)?);
    assert_same(rt, "set", given, wanted);
    Ok(())
}

/// They answer the same to a record.
fn add_record_both(
    rt: &impl Abort,
    graph: &mut Graph,
    book: &mut ChainBook,
    at: u64,
    next: [u8; 32],
) -> Result<(), Fail> {
    let (place, record) = (height(at)?, record_at(at, next)?);
    let given = graph.add_record(place, record);
    assert_same(rt, at, given, book.add_record(place, record));
    Ok(())
}

/// They answer the same to a header.
fn add_header_both(
    rt: &impl Abort,
    graph: &mut Graph,
    book: &mut ChainBook,
    header: Header,
) -> Result<(), Fail> {
    let given = graph.add_header(header.copy()?);
    assert_same(rt, "header", given, book.add_header(header));
    Ok(())
}

/// One addition of some kind to a table and to a book: both answer the same.
fn add_both(
    rt: &impl Abort,
    alloc: Global,
    graph: &mut Graph,
    book: &mut ChainBook,
    number: u64,
) -> Result<(), Fail> {
    let own = members(number / 8);
    let next = hash_of(alloc, members(number / 32))?;
    let at = 1 + number / 128 % 12;
    match number % 8 {
        0 => add_set_both(rt, alloc, graph, book, own),
        1 | 2 => add_record_both(rt, graph, book, at, next),
        _ => {
            let header = header_at(alloc, at, hash_of(alloc, own)?, next)?;
            add_header_both(rt, graph, book, header)
        }
    }
}

/// A table is of this book, and tells the steps of one that is made anew.
fn check_table(
    rt: &impl Abort,
    alloc: Global,
    graph: &Graph,
    book: &ChainBook,
    step: usize,
) -> Result<(), Fail> {
    assert_same(rt, step, graph.is_of(book), true);
    let told = steps_of(alloc, graph, 60)?;
    let anew = steps_anew(alloc, graph, 60)?;
    assert_same(rt, step, told.as_slice(), anew.as_slice());
    Ok(())
}

/// Sixty additions, from this number on, to a table and to a book: the number after them.
fn add_sixty(
    rt: &impl Abort,
    alloc: Global,
    graph: &mut Graph,
    book: &mut ChainBook,
    first: u64,
) -> Result<u64, Fail> {
    let mut number = first;
    for step in 0..60 {
        number = next_number(number);
        add_both(rt, alloc, graph, book, number)?;
        check_table(rt, alloc, graph, book, step)?;
    }
    Ok(number)
}

/// Those additions to a table and to a book that is empty before.
fn add_to_table(
    rt: &impl Abort,
    alloc: Global,
    graph: &mut Graph,
    first: u64,
) -> Result<u64, Fail> {
    let mut book = ChainBook::new(alloc)?;
    add_sixty(rt, alloc, graph, &mut book, first)
}

/// Those additions to a table and to a book that are empty before.
fn add_to_empty(rt: &impl Abort, alloc: Global, first: u64) -> Result<u64, Fail> {
    let mut graph = make_empty(alloc)?;
    add_to_table(rt, alloc, &mut graph, first)
}

/// Random additions in random order, refused ones among them.
#[test]
fn additions_give_the_table_of_their_book(rt: HostRuntime) -> Result<(), Fail> {
    let mut number = 88_172_645_463_325_252;
    for _ in 0..8 {
        number = add_to_empty(&rt, rt.alloc(), number)?;
    }
    Ok(())
}
