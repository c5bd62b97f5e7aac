use crate::same::assert_same;
use rb_base::{FeeTable, Height, Window};
use rb_book::{ChainBook, Header, Record, Vote};
use rb_cert::{Judgement, Reason, certify, certify_par};
use rb_plan_types::{Answer, Cost, Label, Labelling, Update, are_labels};
use rb_script_types::Goal;
use rb_step::{ClientView, are_known};
use std::alloc::{AllocError, Global};
use std::fmt::Display;
use std::process::Abort;
use std::test::Fail;
use std::thread::Threads;
use test_book::{height, make_heights, make_set_with, options, second};

/// A block at a height: the set that signed it and signs the next, as key bytes and powers, and
/// how many validators of power 1 it has beside these. Height h has the time 10 h seconds.
#[derive(Clone, Copy)]
struct Block {
    height: u64,
    set: &'static [(u8, u64)],
    small: u8,
    /// Whether the header is known, which all have signed, or the record alone.
    has_header: bool,
}

#[derive(Clone, Copy)]
enum Wanted {
    Exactly(u64),
    AtLeast(u64),
}

/// A certificate: labels as height, fee and count, updates as height and trusted height (`None`:
/// the goal is said to be unreachable); and what it gets.
#[derive(Clone, Copy)]
struct Case {
    name: &'static str,
    chain: &'static [Block],
    stored: &'static [u64],
    /// The window is the second 200 until this one.
    until: u64,
    wanted: Wanted,
    labels: &'static [(u64, u64, u64)],
    updates: Option<&'static [(u64, u64)]>,
    verdict: &'static str,
}

const A: &[(u8, u64)] = &[(0xa1, 10), (0xa2, 10), (0xa3, 10), (0xa4, 10)];

const A_TO_P: &[(u8, u64)] = &[(0xa1, 10), (0xa2, 10), (0x51, 10), (0x52, 10)];

const A_TO_Z: &[(u8, u64)] = &[(0xa1, 100), (0xa2, 100), (0xe1, 100), (0xe2, 100)];

const P_TO_Q: &[(u8, u64)] = &[(0x51, 10), (0x52, 10), (0x61, 10), (0x62, 10)];

const P_TO_Z: &[(u8, u64)] = &[(0x51, 10), (0x52, 10), (0xe1, 10), (0xe2, 10)];

const Q_TO_Z: &[(u8, u64)] = &[(0x61, 10), (0x62, 10), (0xe1, 10), (0xe2, 10)];

const Z: &[(u8, u64)] = &[(0xe1, 10), (0xe2, 10), (0xe3, 10), (0xe4, 10)];

const FIRST: Block = Block {
    height: 1,
    set: A,
    small: 0,
    has_header: true,
};

/// The way to 10 by 3 and 7 costs 336, that by 5 costs 512.
const TWO_WAYS: &[Block] = &[
    FIRST,
    Block {
        height: 3,
        set: A_TO_P,
        ..FIRST
    },
    Block {
        height: 5,
        set: A_TO_Z,
        small: 96,
        ..FIRST
    },
    Block {
        height: 7,
        set: P_TO_Z,
        ..FIRST
    },
    Block {
        height: 8,
        set: Z,
        has_header: false,
        ..FIRST
    },
    Block {
        height: 10,
        set: Z,
        ..FIRST
    },
];

/// By 3 or 4 to 10 or 11, and from either to 20, for the same fees.
const TIES: &[Block] = &[
    FIRST,
    Block {
        height: 3,
        set: A_TO_P,
        ..FIRST
    },
    Block {
        height: 4,
        set: A_TO_P,
        ..FIRST
    },
    Block {
        height: 10,
        set: P_TO_Q,
        ..FIRST
    },
    Block {
        height: 11,
        set: P_TO_Q,
        ..FIRST
    },
    Block {
        height: 20,
        set: Q_TO_Z,
        ..FIRST
    },
];

/// The stored heights 1, 3, 4 and 6 name two next sets in turn; of the one nobody signs 10 and 12, of
/// the other half signs 12.
const IN_TURN: &[Block] = &[
    FIRST,
    Block {
        height: 3,
        set: Z,
        has_header: false,
        ..FIRST
    },
    Block {
        height: 4,
        has_header: false,
        ..FIRST
    },
    Block {
        height: 6,
        set: Z,
        has_header: false,
        ..FIRST
    },
    Block {
        height: 10,
        set: P_TO_Q,
        ..FIRST
    },
    Block {
        height: 12,
        set: Q_TO_Z,
        ..FIRST
    },
];

/// The least list over `TWO_WAYS` with the exact labels.
const LEAST: Case = Case {
    name: "the least list",
    chain: TWO_WAYS,
    stored: &[1],
    until: 200,
    wanted: Wanted::AtLeast(10),
    labels: &[
        (1, 0, 0),
        (3, 112, 1),
        (5, 304, 1),
        (7, 224, 2),
        (10, 336, 3),
    ],
    updates: Some(&[(3, 1), (7, 3), (10, 7)]),
    verdict: "yes",
};

/// The least list over `TIES` with the exact labels.
const LEAST_OF_TIES: Case = Case {
    name: "the least list of several that cost the same",
    chain: TIES,
    wanted: Wanted::AtLeast(20),
    labels: &[
        (1, 0, 0),
        (3, 112, 1),
        (4, 112, 1),
        (10, 224, 2),
        (11, 224, 2),
        (20, 336, 3),
    ],
    updates: Some(&[(3, 1), (10, 3), (20, 10)]),
    ..LEAST
};

/// A record that names the set of this hash as the next.
fn record_of(block: &Block, hash: [u8; 32]) -> Result<Record, Fail> {
    let time = second(block.height.saturating_mul(10))?;
    Ok(Record::new(time, [0; 32], hash))
}

/// A header that all of its set have signed.
fn header_of(alloc: Global, block: &Block, hash: [u8; 32], size: usize) -> Result<Header, Fail> {
    let at = height(block.height)?;
    let record = record_of(block, hash)?;
    Ok(Header::new(at, record, hash, vec![in alloc; Vote::Commit; size]?))
}

/// Adds a block's set, and its header or its record.
fn add_block(book: &mut ChainBook, alloc: Global, block: &Block) -> Result<(), Fail> {
    let set = make_set_with(alloc, block.set, block.small)?;
    let (hash, size) = (*set.hash(), set.size());
    book.add_set(set)?;
    if block.has_header {
        Ok(book.add_header(header_of(alloc, block, hash, size)?)?)
    } else {
        Ok(book.add_record(height(block.height)?, record_of(block, hash)?)?)
    }
}

fn fill(alloc: Global, book: &mut ChainBook, chain: &[Block]) -> Result<(), Fail> {
    for block in chain {
        add_block(book, alloc, block)?;
    }
    Ok(())
}

fn make_book(alloc: Global, chain: &[Block]) -> Result<ChainBook, Fail> {
    let mut book = ChainBook::new(alloc)?;
    fill(alloc, &mut book, chain)?;
    Ok(book)
}

fn make_label((number, fee, count): (u64, u64, u64)) -> Result<Label, Fail> {
    let height = height(number)?;
    let cost = Cost { fee, count };
    Ok(Label { height, cost })
}

fn make_labels(alloc: Global, rows: &[(u64, u64, u64)]) -> Result<Vec<Label>, Fail> {
    let mut labels = Vec::new(alloc);
    for row in rows {
        labels.push(make_label(*row)?)?;
    }
    Ok(labels)
}

fn make_labelling(alloc: Global, rows: &[(u64, u64, u64)]) -> Result<Labelling, Fail> {
    let labels = make_labels(alloc, rows)?;
    if !are_labels(labels.as_slice()) {
        return Err(Fail::from("labels"));
    }
    Ok(Labelling::new(labels)?)
}

fn make_updates(alloc: Global, rows: &[(u64, u64)]) -> Result<Vec<Update>, Fail> {
    let mut updates = Vec::new(alloc);
    for (number, trusted) in rows {
        updates.push(Update::new(height(*number)?, height(*trusted)?))?;
    }
    Ok(updates)
}

fn make_answer(alloc: Global, case: &Case) -> Result<Answer, Fail> {
    let labelling = make_labelling(alloc, case.labels)?;
    match case.updates {
        Some(rows) => Ok(Answer::Plan {
            updates: make_updates(alloc, rows)?,
            labelling,
        }),
        None => Ok(Answer::Unreachable { labelling }),
    }
}

/// A number after a space.
fn spaced(alloc: Global, number: &impl Display) -> Result<String, AllocError> {
    format!(in alloc; " {number}")
}

/// The reason's own numbers.
fn numbers_text(alloc: Global, reason: &Reason) -> Result<String, AllocError> {
    match reason {
        Reason::SourceLabel(height) | Reason::GoalLabelled(height) => spaced(alloc, height),
        Reason::LabelTooHigh { trusted, height } => format!(in alloc; " {trusted} {height}"),
        Reason::PlanNotAccepted(place) | Reason::PlanNotTight(place) | Reason::NotTheTie(place) => {
            spaced(alloc, place)
        }
        Reason::GoalMissed => Ok(String::new(alloc)),
    }
}

/// `no` with the reason's number, its name and its own numbers.
fn refusal_text(alloc: Global, reason: &Reason) -> Result<String, AllocError> {
    let numbers = numbers_text(alloc, reason)?;
    let (number, name) = (reason.number(), reason.name());
    format!(in alloc; "no {number} {name}{}", numbers.as_str())
}

fn to_text(alloc: Global, verdict: Judgement) -> Result<String, AllocError> {
    match verdict {
        Judgement::Yes => format!(in alloc; "yes"),
        Judgement::No(reason) => refusal_text(alloc, &reason),
    }
}

fn window_until(seconds: u64) -> Result<Window, Fail> {
    let until = second(seconds)?;
    Ok(Window::new(second(200)?, until)?)
}

fn goal_of(wanted: Wanted) -> Result<Goal, Fail> {
    Ok(match wanted {
        Wanted::Exactly(number) => Goal::Exactly(height(number)?),
        Wanted::AtLeast(number) => Goal::AtLeast(height(number)?),
    })
}

/// The view of a client that has stored these heights.
fn view_of<'a>(
    book: &'a ChainBook,
    stored: &'a [Height],
    until: u64,
) -> Result<ClientView<'a>, Fail> {
    if !are_known(stored, book) {
        return Err(Fail::from("stored heights"));
    }
    let window = window_until(until)?;
    let fees = FeeTable::new(100, 1, 1)?;
    Ok(ClientView::new(options()?, fees, stored, window, book))
}

fn check_verdict(
    rt: &impl Abort,
    alloc: Global,
    case: &Case,
    verdict: Judgement,
) -> Result<(), AllocError> {
    let text = to_text(alloc, verdict)?;
    assert_same(rt, case.name, text.as_str(), case.verdict);
    Ok(())
}

/// The case's certificate gets its verdict by one thread, and then by several.
fn check_certificate<R: Threads + Sync + Abort>(
    rt: &R,
    alloc: Global,
    view: &ClientView,
    answer: &Answer,
    case: &Case,
) -> Result<(), Fail> {
    let goal = goal_of(case.wanted)?;
    check_verdict(rt, alloc, case, certify(view, goal, answer))?;
    Ok(check_verdict(rt, alloc, case, certify_par(rt, view, goal, answer))?)
}

fn check_over<R: Threads + Sync + Abort>(
    rt: &R,
    alloc: Global,
    book: &ChainBook,
    stored: &[Height],
    case: &Case,
) -> Result<(), Fail> {
    let view = view_of(book, stored, case.until)?;
    let answer = make_answer(alloc, case)?;
    check_certificate(rt, alloc, &view, &answer, case)
}

fn check_book<R: Threads + Sync + Abort>(
    rt: &R,
    alloc: Global,
    book: &ChainBook,
    case: &Case,
) -> Result<(), Fail> {
    let stored = make_heights(alloc, case.stored)?;
    check_over(rt, alloc, book, stored.as_slice(), case)
}

fn check_case<R: Threads + Sync + Abort>(rt: &R, alloc: Global, case: &Case) -> Result<(), Fail> {
    check_book(rt, alloc, &make_book(alloc, case.chain)?, case)
}

/// Certificates and their verdicts.
const CASES: &[Case] = &[
    LEAST,
    LEAST_OF_TIES,
    Case {
        name: "next sets that refuse in turn",
        chain: IN_TURN,
        stored: &[1, 3, 4, 6],
        wanted: Wanted::Exactly(12),
        labels: &[(1, 0, 0), (3, 0, 0), (4, 0, 0), (6, 0, 0), (12, 112, 1)],
        updates: Some(&[(12, 3)]),
        ..LEAST
    },
    Case {
        name: "a next set that accepts between two that refuse",
        chain: IN_TURN,
        stored: &[1, 3, 4, 6],
        labels: &[(1, 0, 0), (3, 0, 0), (4, 0, 0), (6, 0, 0)],
        updates: None,
        verdict: "no 602 LabelTooHigh 3 12",
        ..LEAST
    },
    Case {
        name: "out of reach",
        wanted: Wanted::Exactly(9),
        updates: None,
        verdict: "yes",
        ..LEAST
    },
    Case {
        name: "what is stored expires at the last moment",
        until: 1_010,
        labels: &[],
        updates: None,
        verdict: "yes",
        ..LEAST
    },
    Case {
        name: "no update is needed",
        wanted: Wanted::AtLeast(3),
        stored: &[1, 3],
        labels: &[(1, 0, 0), (3, 0, 0), (5, 304, 1), (7, 112, 1), (10, 224, 2)],
        updates: Some(&[]),
        verdict: "yes",
        ..LEAST
    },
    Case {
        name: "labels that are as large as they can be",
        labels: &[
            (1, 0, 0),
            (3, 112, 1),
            (5, 304, 1),
            (7, 224, 2),
            (8, 9223372036854775807, 9223372036854775807),
            (10, 336, 3),
            (99, 9223372036854775807, 9223372036854775807),
        ],
        verdict: "yes",
        ..LEAST
    },
    Case {
        name: "label 1 dropped",
        labels: &[(3, 112, 1), (5, 304, 1), (7, 224, 2), (10, 336, 3)],
        verdict: "no 601 SourceLabel 1",
        ..LEAST
    },
    Case {
        name: "label 1 not free, and other faults",
        labels: &[(1, 1, 0), (3, 112, 1), (7, 224, 2), (10, 336, 3)],
        updates: Some(&[(10, 7)]),
        verdict: "no 601 SourceLabel 1",
        ..LEAST
    },
    Case {
        name: "two stored heights without labels",
        stored: &[1, 3, 7],
        labels: &[(1, 0, 0)],
        verdict: "no 601 SourceLabel 3",
        ..LEAST
    },
    Case {
        name: "label 5 dropped, and a fault in the plan",
        labels: &[(1, 0, 0), (3, 112, 1), (7, 224, 2), (10, 336, 3)],
        updates: Some(&[(10, 7)]),
        verdict: "no 602 LabelTooHigh 1 5",
        ..LEAST
    },
    Case {
        name: "label 10 dropped",
        labels: &[(1, 0, 0), (3, 112, 1), (5, 304, 1), (7, 224, 2)],
        verdict: "no 602 LabelTooHigh 5 10",
        ..LEAST
    },
    Case {
        name: "label 10 too high from 7",
        labels: &[
            (1, 0, 0),
            (3, 112, 1),
            (5, 304, 1),
            (7, 224, 2),
            (10, 400, 3),
        ],
        verdict: "no 602 LabelTooHigh 7 10",
        ..LEAST
    },
    Case {
        name: "trusts what isn't stored",
        updates: Some(&[(10, 7)]),
        verdict: "no 603 PlanNotAccepted 0",
        ..LEAST
    },
    Case {
        name: "a step that isn't accepted",
        updates: Some(&[(3, 1), (10, 3)]),
        verdict: "no 603 PlanNotAccepted 1",
        ..LEAST
    },
    Case {
        name: "repeated, and then to a record with no header",
        updates: Some(&[(3, 1), (3, 1), (3, 1), (8, 3)]),
        verdict: "no 603 PlanNotAccepted 3",
        ..LEAST
    },
    Case {
        name: "no updates",
        updates: Some(&[]),
        verdict: "no 607 GoalMissed",
        ..LEAST
    },
    Case {
        name: "ends below the goal, and not tight",
        labels: &[
            (1, 0, 0),
            (3, 112, 1),
            (5, 300, 1),
            (7, 224, 2),
            (10, 336, 3),
        ],
        updates: Some(&[(5, 1)]),
        verdict: "no 607 GoalMissed",
        ..LEAST
    },
    Case {
        name: "the dearer way",
        updates: Some(&[(5, 1), (10, 5)]),
        verdict: "no 604 PlanNotTight 1",
        ..LEAST
    },
    Case {
        name: "label 10 too low",
        labels: &[
            (1, 0, 0),
            (3, 112, 1),
            (5, 304, 1),
            (7, 224, 2),
            (10, 300, 3),
        ],
        verdict: "no 604 PlanNotTight 2",
        ..LEAST
    },
    Case {
        name: "a higher wanted height costs less",
        labels: &[
            (1, 0, 0),
            (3, 112, 1),
            (5, 304, 1),
            (7, 224, 2),
            (10, 336, 3),
            (99, 0, 0),
        ],
        verdict: "no 605 NotTheTie 2",
        ..LEAST
    },
    Case {
        name: "a lower wanted height costs the same",
        wanted: Wanted::AtLeast(2),
        updates: Some(&[(4, 1)]),
        verdict: "no 605 NotTheTie 0",
        ..LEAST_OF_TIES
    },
    Case {
        name: "10 trusts 4, and 3 is lower",
        wanted: Wanted::AtLeast(10),
        updates: Some(&[(4, 1), (10, 4)]),
        verdict: "no 605 NotTheTie 1",
        ..LEAST_OF_TIES
    },
    Case {
        name: "two ties, told from the last down",
        updates: Some(&[(4, 1), (11, 4), (20, 11)]),
        verdict: "no 605 NotTheTie 2",
        ..LEAST_OF_TIES
    },
    Case {
        name: "a tie before the last update",
        updates: Some(&[(4, 1), (10, 4), (20, 10)]),
        verdict: "no 605 NotTheTie 1",
        ..LEAST_OF_TIES
    },
    Case {
        name: "said to be unreachable",
        updates: None,
        verdict: "no 606 GoalLabelled 10",
        ..LEAST
    },
    Case {
        name: "several wanted heights are labelled",
        wanted: Wanted::AtLeast(4),
        updates: None,
        verdict: "no 606 GoalLabelled 5",
        ..LEAST
    },
];

#[test]
fn judges_certificates(rt: HostRuntime) -> Result<(), Fail> {
    for case in CASES {
        check_case(&rt, rt.alloc(), case)?;
    }
    Ok(())
}
