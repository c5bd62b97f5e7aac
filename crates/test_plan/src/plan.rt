ghost use Rattle.std.specs.Prelude.{◌≡◌, IfOk};

use crate::same::assert_same;
use rb_base::{FeeTable, Height, Ties, Window};
use rb_book::{ChainBook, Header, Record, Vote};
use rb_graph::Graph;
use rb_plan::{label, plan};
use rb_plan_types::{Answer, Cost, Label, Labelling, Update, gas_of, proof_height, top_reachable};
use rb_script_types::Goal;
use rb_step::{ClientView, are_known};
use std::alloc::{AllocError, Global};
use std::process::Abort;
use std::test::Fail;
use test_book::{height, make_heights, make_set_with, options, second};

/// Validators by the byte that their key repeats, with their powers, and so many others of power 1.
#[derive(Clone, Copy)]
struct Members {
    named: &'static [(u8, u64)],
    others: u8,
}

const A: Members = Members {
    named: &[(0xa1, 10), (0xa2, 10), (0xa3, 10), (0xa4, 10)],
    others: 0,
};

const AP: Members = Members {
    named: &[(0xa1, 10), (0xa2, 10), (0x51, 10), (0x52, 10)],
    others: 0,
};

const PQ: Members = Members {
    named: &[(0x51, 10), (0x52, 10), (0x61, 10), (0x62, 10)],
    others: 0,
};

const PZ: Members = Members {
    named: &[(0x51, 10), (0x52, 10), (0xe1, 10), (0xe2, 10)],
    others: 0,
};

const Z: Members = Members {
    named: &[(0xe1, 10), (0xe2, 10), (0xe3, 10), (0xe4, 10)],
    others: 0,
};

const HUNDRED: Members = Members {
    named: &[(0xa1, 100), (0xa2, 100), (0xe1, 100), (0xe2, 100)],
    others: 96,
};

/// What a client has stored, and the headers of its chain with their sets, which sign and are
/// named as the next; height h has the time 10 h seconds. The client is asked at a moment, with a
/// period of 1,000 s and a drift of 10 s.
#[derive(Clone, Copy)]
struct World {
    stored: &'static [u64],
    headers: &'static [(u64, Members)],
    seconds: u64,
    ties: Ties,
}

/// The fewest updates to height 10 go by 5, whose hundred validators make them dear.
const FIVE: World = World {
    stored: &[1],
    headers: &[(1, A), (3, AP), (5, HUNDRED), (7, PZ), (10, Z)],
    seconds: 200,
    ties: Ties::Lower,
};

/// Heights 3 and 4 cost the same, and so does 10 by either.
const TIED: World = World {
    stored: &[1],
    headers: &[(1, A), (3, AP), (4, AP), (10, PQ)],
    seconds: 200,
    ties: Ties::Lower,
};

/// So do they, and the higher heights come first.
const TIED_HIGHER: World = World {
    ties: Ties::Higher,
    ..TIED
};

/// The record at 10 s expires.
const EXPIRED: World = World {
    stored: &[1, 3],
    headers: &[(1, A), (3, A), (5, A)],
    seconds: 1_010,
    ties: Ties::Lower,
};

/// Both stored records expire.
const ALL_EXPIRED: World = World {
    seconds: 1_030,
    ..EXPIRED
};

/// A header that all of the set of a hash sign, which it names as the next too.
fn make_header(alloc: Global, number: u64, hash: [u8; 32], size: usize) -> Result<Header, Fail> {
    let at = height(number)?;
    let record = Record::new(second(number.saturating_mul(10))?, [0; 32], hash);
    Ok(Header::new(at, record, hash, vec![in alloc; Vote::Commit; size]?))
}

/// Adds a set, and answers its hash and size.
fn add_set(
    book: &mut ChainBook,
    alloc: Global,
    members: &Members,
) -> Result<([u8; 32], usize), Fail> {
    let set = make_set_with(alloc, members.named, members.others)?;
    let added = (*set.hash(), set.size());
    book.add_set(set)?;
    Ok(added)
}

/// Adds a header and its set.
fn add_header(
    book: &mut ChainBook,
    alloc: Global,
    number: u64,
    members: &Members,
) -> Result<(), Fail> {
    let (hash, size) = add_set(book, alloc, members)?;
    Ok(book.add_header(make_header(alloc, number, hash, size)?)?)
}

fn fill(alloc: Global, book: &mut ChainBook, world: &World) -> Result<(), Fail> {
    for (number, members) in world.headers {
        add_header(book, alloc, *number, members)?;
    }
    Ok(())
}

fn make_book(alloc: Global, world: &World) -> Result<ChainBook, Fail> {
    let mut book = ChainBook::new(alloc)?;
    fill(alloc, &mut book, world)?;
    Ok(book)
}

fn make_graph(alloc: Global, world: &World) -> Result<Graph, Fail> {
    Ok(Graph::from_book(alloc, make_book(alloc, world)?)?)
}

/// The view of the world's client. An update costs 100, and 1 for each vote and validator.
fn make_view<'a>(
    rt: &impl Abort,
    world: &World,
    stored: &'a [Height],
    graph: &'a Graph,
) -> Result<ClientView<'a>, Fail>
    ensures { IfOk result (λ view. view.book ≡ graph.entry.now) }
{
    let book = graph.book();
    assert!(rt; are_known(stored, book));
    let fees = FeeTable::new(100, 1, 1)?;
    let window = Window::at(second(world.seconds)?);
    Ok(ClientView::new(options()?.with_ties(world.ties), fees, stored, window, book))
}

fn label_text(alloc: Global, label: &Label) -> Result<String, AllocError> {
    let Cost { fee, count } = label.cost;
    format!(in alloc; "{}:{fee},{count} ", label.height)
}

/// The labels: `1:0,0 3:112,1 `.
fn labels_text(alloc: Global, labelling: &Labelling) -> Result<String, AllocError> {
    let mut text = String::new(alloc);
    for label in labelling.labels() {
        text.push_str(label_text(alloc, label)?.as_str())?;
    }
    Ok(text)
}

fn update_text(alloc: Global, update: &Update) -> Result<String, AllocError> {
    let (to, from) = (update.height(), update.trusted());
    format!(in alloc; " {to}<{from}")
}

/// The updates: ` 3<1 10<3`.
fn updates_text(alloc: Global, updates: &[Update]) -> Result<String, AllocError> {
    let mut text = String::new(alloc);
    for update in updates {
        text.push_str(update_text(alloc, update)?.as_str())?;
    }
    Ok(text)
}

fn with_updates(alloc: Global, labels: &str, updates: &[Update]) -> Result<String, AllocError> {
    let updates = updates_text(alloc, updates)?;
    format!(in alloc; "{labels}|{updates}")
}

/// The labels, and then the updates: `1:0,0 3:112,1 | 3<1`.
fn to_text(alloc: Global, answer: &Answer) -> Result<String, AllocError> {
    let labels = labels_text(alloc, answer.labelling())?;
    match answer {
        Answer::Plan { updates, .. } => with_updates(alloc, labels.as_str(), updates),
        Answer::Unreachable { .. } => format!(in alloc; "{labels}| unreachable"),
    }
}

/// A goal of a world, with the labels and updates of its plan, and the height at which a batch of
/// those updates proves its packets.
#[derive(Clone, Copy)]
struct Row {
    world: World,
    is_exact: bool,
    number: u64,
    text: &'static str,
    proof: Option<u64>,
}

fn proof_of(view: &ClientView, answer: &Answer) -> Option<u64> {
    match answer {
        Answer::Plan { updates, .. } => { Some(proof_height(view, updates.as_slice())?.get()) }
        Answer::Unreachable { .. } => None,
    }
}

fn goal_of(row: &Row) -> Result<Goal, Fail> {
    let wanted = height(row.number)?;
    Ok(if row.is_exact {
        Goal::Exactly(wanted)
    } else {
        Goal::AtLeast(wanted)
    })
}

fn check_text(
    rt: &impl Abort,
    alloc: Global,
    answer: &Answer,
    row: &Row,
) -> Result<(), AllocError> {
    let text = to_text(alloc, answer)?;
    assert_same(rt, row.number, text.as_str(), row.text);
    Ok(())
}

/// The texts of an answer and its copy, and the height at which the updates prove.
fn check_answer(
    rt: &impl Abort,
    alloc: Global,
    view: &ClientView,
    answer: &Answer,
    row: &Row,
) -> Result<(), Fail> {
    check_text(rt, alloc, answer, row)?;
    check_text(rt, alloc, &answer.copy()?, row)?;
    assert_same(rt, row.text, proof_of(view, answer), row.proof);
    Ok(())
}

fn check_plan(
    rt: &impl Abort,
    alloc: Global,
    graph: &Graph,
    stored: &[Height],
    row: &Row,
) -> Result<(), Fail> {
    let view = make_view(rt, &row.world, stored, graph)?;
    let answer = plan(alloc, &view, graph, goal_of(row)?)?;
    check_answer(rt, alloc, &view, &answer, row)
}

fn check_graph(rt: &impl Abort, alloc: Global, graph: &Graph, row: &Row) -> Result<(), Fail> {
    let stored = make_heights(alloc, row.world.stored)?;
    check_plan(rt, alloc, graph, stored.as_slice(), row)
}

fn check_row(rt: &impl Abort, alloc: Global, row: &Row) -> Result<(), Fail> {
    check_graph(rt, alloc, &make_graph(alloc, &row.world)?, row)
}

const ROWS: &[Row] = &[
    Row {
        world: FIVE,
        is_exact: false,
        number: 10,
        text: "1:0,0 3:112,1 5:304,1 7:224,2 10:336,3 | 3<1 7<3 10<7",
        proof: Some(10),
    },
    Row {
        world: FIVE,
        is_exact: true,
        number: 5,
        text: "1:0,0 3:112,1 5:304,1 7:224,2 10:336,3 | 5<1",
        proof: Some(5),
    },
    Row {
        world: FIVE,
        is_exact: false,
        number: 1,
        text: "1:0,0 3:112,1 5:304,1 7:224,2 10:336,3 |",
        proof: Some(1),
    },
    Row {
        world: FIVE,
        is_exact: true,
        number: 9,
        text: "1:0,0 3:112,1 5:304,1 7:224,2 10:336,3 | unreachable",
        proof: None,
    },
    Row {
        world: TIED,
        is_exact: false,
        number: 10,
        text: "1:0,0 3:112,1 4:112,1 10:224,2 | 3<1 10<3",
        proof: Some(10),
    },
    Row {
        world: TIED,
        is_exact: false,
        number: 2,
        text: "1:0,0 3:112,1 4:112,1 10:224,2 | 3<1",
        proof: Some(3),
    },
    Row {
        world: TIED_HIGHER,
        is_exact: false,
        number: 10,
        text: "1:0,0 3:112,1 4:112,1 10:224,2 | 4<1 10<4",
        proof: Some(10),
    },
    Row {
        world: TIED_HIGHER,
        is_exact: false,
        number: 2,
        text: "1:0,0 3:112,1 4:112,1 10:224,2 | 4<1",
        proof: Some(4),
    },
    Row {
        world: EXPIRED,
        is_exact: false,
        number: 5,
        text: "3:0,0 5:112,1 | 5<3",
        proof: Some(5),
    },
    Row {
        world: EXPIRED,
        is_exact: true,
        number: 1,
        text: "3:0,0 5:112,1 | unreachable",
        proof: None,
    },
    Row {
        world: ALL_EXPIRED,
        is_exact: false,
        number: 1,
        text: "| unreachable",
        proof: None,
    },
];

#[test]
fn plans_by_fee_then_height(rt: HostRuntime) -> Result<(), Fail> {
    for row in ROWS {
        check_row(&rt, rt.alloc(), row)?;
    }
    Ok(())
}

fn check_label(rt: &impl Abort, labelling: &Labelling, at: Height, wanted: Option<Cost>) {
    assert_same(rt, at, labelling.get(at), wanted);
}

fn check_labelling(rt: &impl Abort, labelling: &Labelling) -> Result<(), Fail> {
    let seven = Some(Cost { fee: 224, count: 2 });
    check_label(rt, labelling, height(7)?, seven);
    check_label(rt, labelling, height(4)?, None);
    assert_same(rt, "top", top_reachable(labelling), Some(height(10)?));
    Ok(())
}

/// Labels that are looked up.
fn check_labels(
    rt: &impl Abort,
    alloc: Global,
    graph: &Graph,
    view: &ClientView,
) -> Result<(), Fail>
    requires { view.now.book ≡ graph.now }
{
    let labelling = label(alloc, view, graph)?;
    check_labelling(rt, &labelling.copy()?)
}

fn check_gas(rt: &impl Abort, view: &ClientView) -> Result<(), Fail> {
    let gas = FeeTable::new(1_000, 0, 3)?;
    let update = Update::new(height(5)?, height(1)?);
    assert_same(rt, "gas", gas_of(view, &gas, &update), 1_312);
    Ok(())
}

fn check_view(
    rt: &impl Abort,
    alloc: Global,
    graph: &Graph,
    stored: &[Height],
) -> Result<(), Fail> {
    let view = make_view(rt, &FIVE, stored, graph)?;
    check_labels(rt, alloc, graph, &view)?;
    check_gas(rt, &view)
}

fn check_five(rt: &impl Abort, alloc: Global, graph: &Graph) -> Result<(), Fail> {
    let stored = make_heights(alloc, FIVE.stored)?;
    check_view(rt, alloc, graph, stored.as_slice())
}

/// Labels that are looked up, and the gas of an update by a table of its own.
#[test]
fn looks_up_labels_and_gas(rt: HostRuntime) -> Result<(), Fail> {
    check_five(&rt, rt.alloc(), &make_graph(rt.alloc(), &FIVE)?)
}
