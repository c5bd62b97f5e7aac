use crate::same::assert_same;
use rb_batch::{BatchError, Limits, Msg, Transaction, cut};
use std::alloc::{AllocError, Global};
use std::process::Abort;
use std::test::Fail;

const TOP: u64 = Limits::MAX_GAS;

/// Limits of gas, of count, and of a transaction's own gas; the gas of messages; and the runs that are
/// cut, as first message, count and gas, or the message that is too big.
struct Row {
    limits: (u64, usize, u64),
    gas: &'static [u64],
    wanted: Result<&'static [(usize, usize, u64)], usize>,
}

const ROWS: &[Row] = &[
    Row {
        limits: (10, 100, 0),
        gas: &[5, 5, 5, 10, 1],
        wanted: Ok(&[(0, 2, 10), (2, 1, 5), (3, 1, 10), (4, 1, 1)]),
    },
    Row {
        limits: (10, 100, 1),
        gas: &[5, 5, 5, 10, 1],
        wanted: Err(3),
    },
    Row {
        limits: (11, 100, 1),
        gas: &[5, 5, 5, 10, 1],
        wanted: Ok(&[(0, 2, 11), (2, 1, 6), (3, 1, 11), (4, 1, 2)]),
    },
    Row {
        limits: (10, 100, 1),
        gas: &[],
        wanted: Ok(&[]),
    },
    Row {
        limits: (10, 2, 0),
        gas: &[1, 1, 1, 1, 1],
        wanted: Ok(&[(0, 2, 2), (2, 2, 2), (4, 1, 1)]),
    },
    Row {
        limits: (TOP, 10_000, 1_000_000_000),
        gas: &[TOP - 1_000_000_000, 1],
        wanted: Ok(&[(0, 1, TOP), (1, 1, 1_000_000_001)]),
    },
    Row {
        limits: (TOP, 10_000, 1_000_000_000),
        gas: &[0, TOP],
        wanted: Err(1),
    },
];

fn limits_of((gas, count, own): (u64, usize, u64)) -> Result<Limits, Fail> {
    let is_in = 1 <= gas && gas <= TOP && 1 <= count && count <= Limits::MAX_COUNT;
    if !is_in || own > Limits::MAX_TRANSACTION_GAS {
        return Err(Fail::from("limits"));
    }
    Ok(Limits::new(gas, count, own))
}

fn messages_of(alloc: Global, gas: &[u64]) -> Result<Vec<Msg>, AllocError> {
    let mut messages = Vec::new(alloc);
    for amount in gas {
        messages.push(Msg::new((*amount).min(Msg::MAX_GAS)))?;
    }
    Ok(messages)
}

fn check_run(rt: &impl Abort, index: usize, run: &Transaction, wanted: (usize, usize, u64)) {
    assert_same(rt, &index, (run.first, run.count, run.gas), wanted);
}

fn check_runs(rt: &impl Abort, index: usize, runs: &[Transaction], wanted: &[(usize, usize, u64)]) {
    assert_same(rt, &index, runs.len(), wanted.len());
    for (run, wanted) in runs.iter().zip(wanted) {
        check_run(rt, index, run, *wanted);
    }
}

fn check_row(rt: &impl Abort, alloc: Global, index: usize, row: &Row) -> Result<(), Fail> {
    let messages = messages_of(alloc, row.gas)?;
    match (cut(alloc, &messages, limits_of(row.limits)?), row.wanted) {
        (Ok(runs), Ok(wanted)) => check_runs(rt, index, runs.as_slice(), wanted),
        (Err(error), Err(place)) => assert_same(rt, &index, error, BatchError::TooBig(place)),
        _ => return Err(Fail::from("cut")),
    }
    Ok(())
}

#[test]
fn cuts_or_tells_the_message_that_is_too_big(rt: HostRuntime) -> Result<(), Fail> {
    for (index, row) in ROWS.iter().enumerate() {
        check_row(&rt, rt.alloc(), index, row)?;
    }
    Ok(())
}

/// Refusals, and what is printed of them.
const REFUSALS: &[(BatchError, &str)] = &[
    (BatchError::TooBig(3), "701 TooBig 3"),
    (BatchError::NoMemory, "no memory"),
];

#[test]
fn prints_its_refusals(rt: HostRuntime) -> Result<(), Fail> {
    for (error, text) in REFUSALS {
        let printed = format!(in rt.alloc(); "{error}")?;
        assert_same(&rt, "text", printed.as_str(), *text);
    }
    Ok(())
}
