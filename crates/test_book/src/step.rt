ghost use Rattle.std.specs.Option.{option_copied, ForSome};
ghost use Rattle.rb_book.specs.Header.{Names, IsSignedBy};

use crate::same::assert_same;
use crate::values::{Members, height, make_heights, make_set, nanosecond, options};
use rb_base::{FeeTable, Fraction, Height, Options, Window};
use rb_book::{ChainBook, Header, Record, Vote};
use rb_step::{ClientView, Reason, Verdict, accepts_in, are_known, verify};
use rb_valset::ValidatorSet;
use std::alloc::Global;
use std::fmt::{Debug, Display};
use std::process::Abort;
use std::test::Fail;

const SECOND: u128 = 1_000_000_000;

/// A step from height 1, whose record has the time 10 s, under a period of 1,000 s and a drift of
/// 10 s.
#[derive(Clone, Copy)]
struct Case {
    name: &'static str,
    /// The set that the trusted record names, as key bytes and powers, and whether it is known.
    next: Members,
    is_known: bool,
    own: Members,
    height: u64,
    time: u128,
    votes: &'static [Vote],
    trust: (u64, u64),
    window: (u128, u128),
    /// The verdicts at the first and the last moment of the window.
    first: Verdict,
    last: Verdict,
}

const C: Vote = Vote::Commit;

const N: Vote = Vote::Nil;

const X: Vote = Vote::Absent;

const A: &[(u8, u64)] = &[(0xa1, 10), (0xa2, 10), (0xa3, 10), (0xa4, 10)];

/// Accepted from 200 s until the record at 10 s expires.
const ACCEPTED: Case = Case {
    name: "three of four signed",
    next: A,
    is_known: true,
    own: A,
    height: 10,
    time: 100 * SECOND,
    votes: &[C, C, C, X],
    trust: (1, 3),
    window: (200 * SECOND, 1_010 * SECOND - 1),
    first: Verdict::Success,
    last: Verdict::Success,
};

/// What the client of the case is.
fn options_of(case: &Case) -> Result<Options, Fail> {
    let (numerator, denominator) = case.trust;
    let trust = Fraction::new(numerator, denominator)?;
    Ok(options()?.with_trust(trust))
}

fn window_of((from, until): (u128, u128)) -> Result<Window, Fail> {
    let from = nanosecond(from)?;
    Ok(Window::new(from, nanosecond(until)?)?)
}

/// The verdict at a moment.
fn verdict_at(
    case: &Case,
    trusted: &Record,
    next: Option<&ValidatorSet>,
    header: &Header,
    own: &ValidatorSet,
    moment: u128,
) -> Result<Verdict, Fail>
    requires named { ForSome (option_copied next) (Names trusted.now) }
    requires signed { IsSignedBy header.now own.now }
{
    let options = options_of(case)?;
    let moment = nanosecond(moment)?;
    Ok(verify(&options, height(1)?, trusted, next, header, own, moment))
}

/// Whether the step is accepted in the case's window.
fn is_accepted(
    case: &Case,
    trusted: &Record,
    next: Option<&ValidatorSet>,
    header: &Header,
    own: &ValidatorSet,
) -> Result<bool, Fail>
    requires named { ForSome (option_copied next) (Names trusted.now) }
    requires signed { IsSignedBy header.now own.now }
{
    let options = options_of(case)?;
    let window = window_of(case.window)?;
    Ok(accepts_in(&options, height(1)?, trusted, next, header, own, &window))
}

/// Steps with the verdict at both ends of a window.
const CASES: &[Case] = &[
    ACCEPTED,
    Case {
        name: "the period is over at the last moment",
        window: (200 * SECOND, 1_010 * SECOND),
        last: Verdict::Invalid(Reason::Expired),
        ..ACCEPTED
    },
    Case {
        name: "ahead by the drift at the first moment",
        height: 21,
        time: 210 * SECOND,
        window: (200 * SECOND, 201 * SECOND),
        first: Verdict::Invalid(Reason::FromFuture),
        ..ACCEPTED
    },
    Case {
        name: "ahead by less than the drift",
        height: 21,
        time: 210 * SECOND - 1,
        ..ACCEPTED
    },
    Case {
        name: "no higher",
        height: 1,
        first: Verdict::Invalid(Reason::HeightOrder),
        last: Verdict::Invalid(Reason::HeightOrder),
        ..ACCEPTED
    },
    Case {
        name: "no later",
        time: 10 * SECOND,
        first: Verdict::Invalid(Reason::TimeNotLater),
        last: Verdict::Invalid(Reason::TimeNotLater),
        ..ACCEPTED
    },
    Case {
        name: "next set unknown",
        is_known: false,
        first: Verdict::Invalid(Reason::TrustedSetUnknown),
        last: Verdict::Invalid(Reason::TrustedSetUnknown),
        ..ACCEPTED
    },
    Case {
        name: "expired, and next set unknown",
        is_known: false,
        window: (1_010 * SECOND, 1_011 * SECOND),
        first: Verdict::Invalid(Reason::Expired),
        last: Verdict::Invalid(Reason::Expired),
        ..ACCEPTED
    },
    Case {
        name: "adjacent",
        height: 2,
        ..ACCEPTED
    },
    Case {
        name: "adjacent, 90 of 100 in another set",
        next: &[(0xa1, 50), (0xa2, 40), (0xa3, 10)],
        own: &[(0xa1, 50), (0xa2, 40), (0xb3, 10)],
        height: 2,
        votes: &[C, C, C],
        first: Verdict::Invalid(Reason::WrongNextSet),
        last: Verdict::Invalid(Reason::WrongNextSet),
        ..ACCEPTED
    },
    Case {
        name: "a third, whatever the own set gives",
        next: &[(0xa1, 10), (0xa2, 10), (0xa3, 10)],
        own: &[(0xa1, 90), (0xb2, 10)],
        votes: &[C, C],
        first: Verdict::NotEnoughTrust {
            signed: 10,
            total: 30,
        },
        last: Verdict::NotEnoughTrust {
            signed: 10,
            total: 30,
        },
        ..ACCEPTED
    },
    Case {
        name: "all, which is not more than all",
        next: &[(0xa1, 10), (0xa2, 10), (0xa3, 10)],
        own: &[(0xa1, 10), (0xa2, 10), (0xa3, 10)],
        votes: &[C, C, C],
        trust: (1, 1),
        first: Verdict::NotEnoughTrust {
            signed: 30,
            total: 30,
        },
        last: Verdict::NotEnoughTrust {
            signed: 30,
            total: 30,
        },
        ..ACCEPTED
    },
    Case {
        name: "60 of 90",
        own: &[(0xa1, 30), (0xa2, 30), (0xa3, 30)],
        next: &[(0xa1, 30), (0xa2, 30), (0xa3, 30)],
        votes: &[C, C, X],
        first: Verdict::Invalid(Reason::NotTwoThirds),
        last: Verdict::Invalid(Reason::NotTwoThirds),
        ..ACCEPTED
    },
    Case {
        name: "nil votes",
        votes: &[C, N, C, N],
        first: Verdict::Invalid(Reason::NotTwoThirds),
        last: Verdict::Invalid(Reason::NotTwoThirds),
        ..ACCEPTED
    },
];

/// The header of the case.
fn make_header(alloc: Global, case: &Case, own: &ValidatorSet) -> Result<Header, Fail> {
    let at = height(case.height)?;
    let record = Record::new(nanosecond(case.time)?, [0; 32], *own.hash());
    let votes = Vec::from_slice(alloc, case.votes)?;
    Ok(Header::new(at, record, *own.hash(), votes))
}

/// A step is accepted in the window exactly where both verdicts are `Success`.
fn check_step(
    rt: &impl Abort,
    case: &Case,
    trusted: &Record,
    next: Option<&ValidatorSet>,
    header: &Header,
    own: &ValidatorSet,
) -> Result<(), Fail>
    requires named { ForSome (option_copied next) (Names trusted.now) }
    requires signed { IsSignedBy header.now own.now }
{
    let (from, until) = case.window;
    let first = verdict_at(case, trusted, next, header, own, from)?;
    assert_same(rt, &case.name, first, case.first);
    let last = verdict_at(case, trusted, next, header, own, until)?;
    assert_same(rt, &case.name, last, case.last);
    let wanted = case.first == Verdict::Success && case.last == Verdict::Success;
    let accepted = is_accepted(case, trusted, next, header, own)?;
    assert_same(rt, &case.name, accepted, wanted);
    Ok(())
}

/// The step of the case, whose trusted set is known or not.
fn check_case(
    rt: &impl Abort,
    case: &Case,
    next: &ValidatorSet,
    header: &Header,
    own: &ValidatorSet,
) -> Result<(), Fail> {
    let trusted = Record::new(nanosecond(10 * SECOND)?, [0; 32], *next.hash());
    assert!(rt; trusted.names(next));
    assert!(rt; header.is_of(own));
    if case.is_known {
        check_step(rt, case, &trusted, Some(next), header, own)
    } else {
        check_step(rt, case, &trusted, None, header, own)
    }
}

fn check_sets(
    rt: &impl Abort,
    alloc: Global,
    case: &Case,
    next: &ValidatorSet,
    own: &ValidatorSet,
) -> Result<(), Fail> {
    let header = make_header(alloc, case, own)?;
    check_case(rt, case, next, &header, own)
}

fn check_next(
    rt: &impl Abort,
    alloc: Global,
    case: &Case,
    next: &ValidatorSet,
) -> Result<(), Fail> {
    check_sets(rt, alloc, case, next, &make_set(alloc, case.own)?)
}

fn check_row(rt: &impl Abort, alloc: Global, case: &Case) -> Result<(), Fail> {
    check_next(rt, alloc, case, &make_set(alloc, case.next)?)
}

#[test]
fn judges_steps(rt: HostRuntime) -> Result<(), Fail> {
    for case in CASES {
        check_row(&rt, rt.alloc(), case)?;
    }
    Ok(())
}

const B: &[(u8, u64)] = &[(0xb1, 10), (0xb2, 10), (0xb3, 10), (0xb4, 10)];

/// A header of the set of a hash, signed by three. Height h has the time 10 h seconds.
fn signed_header(
    alloc: Global,
    number: u64,
    own: [u8; 32],
    next: [u8; 32],
) -> Result<Header, Fail> {
    let at = height(number)?;
    let time = nanosecond(u128::from(number) * 10 * SECOND)?;
    let record = Record::new(time, [0; 32], next);
    Ok(Header::new(at, record, own, Vec::from_slice(alloc, &[C, C, C, X])?))
}

/// Adds a set, and answers its hash.
fn add_set(book: &mut ChainBook, alloc: Global, members: Members) -> Result<[u8; 32], Fail> {
    let set = make_set(alloc, members)?;
    let hash = *set.hash();
    book.add_set(set)?;
    Ok(hash)
}

/// Adds such a header with its own and its next set.
fn add_header(
    book: &mut ChainBook,
    alloc: Global,
    number: u64,
    own: Members,
    next: Members,
) -> Result<(), Fail> {
    let own = add_set(book, alloc, own)?;
    let next = add_set(book, alloc, next)?;
    Ok(book.add_header(signed_header(alloc, number, own, next)?)?)
}

/// The headers' heights, and their own and next sets.
const HEADERS: &[(u64, Members, Members)] = &[(1, A, A), (4, A, B), (5, B, B)];

fn fill(alloc: Global, book: &mut ChainBook) -> Result<(), Fail> {
    for (number, own, next) in HEADERS {
        add_header(book, alloc, *number, own, next)?;
    }
    let unknown = Record::new(nanosecond(70 * SECOND)?, [0; 32], [7; 32]);
    Ok(book.add_record(height(7)?, unknown)?)
}

/// Headers 1 and 4 of the set A, where 4 names B, and header 5 of B, each signed by three; and a
/// record at 7 that names an unknown set.
fn make_book(alloc: Global) -> Result<ChainBook, Fail> {
    let mut book = ChainBook::new(alloc)?;
    fill(alloc, &mut book)?;
    Ok(book)
}

/// Heights, and whether the book has a record at each and they rise.
const KNOWN: &[(&[u64], bool)] = &[(&[7, 1], false), (&[1, 2], false), (&[1, 7], true)];

fn check_known(
    rt: &impl Abort,
    alloc: Global,
    book: &ChainBook,
    numbers: &[u64],
    wanted: bool,
) -> Result<(), Fail> {
    let heights = make_heights(alloc, numbers)?;
    assert_same(rt, "known", are_known(heights.as_slice(), book), wanted);
    Ok(())
}

fn check_all_known(rt: &impl Abort, alloc: Global, book: &ChainBook) -> Result<(), Fail> {
    for (numbers, wanted) in KNOWN {
        check_known(rt, alloc, book, numbers, *wanted)?;
    }
    Ok(())
}

#[test]
fn knows_rising_heights(rt: HostRuntime) -> Result<(), Fail> {
    check_all_known(&rt, rt.alloc(), &make_book(rt.alloc())?)
}

/// A view of a client that has stored these, with a window from 200 s.
fn view_until<'a>(
    rt: &impl Abort,
    book: &'a ChainBook,
    stored: &'a [Height],
    seconds: u128,
) -> Result<ClientView<'a>, Fail> {
    assert!(rt; are_known(stored, book));
    let fees = FeeTable::new(100, 1, 1)?;
    let window = window_of((200 * SECOND, seconds.saturating_mul(SECOND)))?;
    Ok(ClientView::new(options()?, fees, stored, window, book))
}

/// Heights with whether they are stored and live, until 1,010 s, when the record at 10 s expires.
const HEIGHTS: &[(u64, bool, bool)] = &[
    (1, true, false),
    (2, false, false),
    (4, false, true),
    (7, true, true),
];

/// Steps with whether they are accepted until then, their fee and their charge.
const STEPS: &[(u64, u64, bool, u64, u64)] = &[
    (1, 4, false, 111, 40),
    (4, 5, true, 111, 40),
    (5, 4, false, 111, 40),
    (7, 5, false, 107, 20),
    (1, 7, false, 0, 0),
];

fn check_height(rt: &impl Abort, view: &ClientView, at: Height, is_stored: bool, is_live: bool) {
    assert_same(rt, "stored", view.is_stored(at), is_stored);
    assert_same(rt, "live", view.is_live(at), is_live);
    assert_same(rt, "source", view.is_source(at), (is_stored && is_live));
}

fn check_heights(rt: &impl Abort, view: &ClientView) -> Result<(), Fail> {
    for (number, is_stored, is_live) in HEIGHTS {
        check_height(rt, view, height(*number)?, *is_stored, *is_live);
    }
    Ok(())
}

/// A step is accepted or not, and has this fee and this charge by a table of gas.
fn check_costs(
    rt: &impl Abort,
    view: &ClientView,
    gas: &FeeTable,
    (trusted, number): (Height, Height),
    (is_accepted, fee, charge): (bool, u64, u64),
) {
    assert_same(rt, "step", view.accepts(trusted, number), is_accepted);
    assert_same(rt, "fee", view.fee(trusted, number), fee);
    assert_same(rt, "charge", view.charge(gas, trusted, number), charge);
}

fn check_steps(rt: &impl Abort, view: &ClientView) -> Result<(), Fail> {
    let gas = FeeTable::new(0, 0, 5)?;
    for (trusted, number, is_accepted, fee, charge) in STEPS {
        let step = (height(*trusted)?, height(*number)?);
        check_costs(rt, view, &gas, step, (*is_accepted, *fee, *charge));
    }
    Ok(())
}

/// The view of the same client at 200 s.
fn check_moment(rt: &impl Abort, view: &ClientView) -> Result<(), Fail> {
    let window = Window::at(nanosecond(200 * SECOND)?);
    let (options, fees, stored) = (view.options(), view.fees(), view.stored());
    let view = ClientView::new(options, fees, stored, window, view.book());
    assert_same(rt, "window", view.window(), window);
    assert!(rt; view.accepts(height(1)?, height(4)?));
    Ok(())
}

fn check_view(rt: &impl Abort, view: &ClientView) -> Result<(), Fail> {
    check_heights(rt, view)?;
    check_steps(rt, view)?;
    check_moment(rt, view)
}

fn check_view_of(rt: &impl Abort, book: &ChainBook, stored: &[Height]) -> Result<(), Fail> {
    let view = view_until(rt, book, stored, 1_010)?;
    check_view(rt, &view)
}

fn check_stored(rt: &impl Abort, alloc: Global, book: &ChainBook) -> Result<(), Fail> {
    let stored = make_heights(alloc, &[1, 7])?;
    check_view_of(rt, book, stored.as_slice())
}

#[test]
fn shows_a_view(rt: HostRuntime) -> Result<(), Fail> {
    check_stored(&rt, rt.alloc(), &make_book(rt.alloc())?)
}
