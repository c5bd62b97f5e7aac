//! How many votes of a header an update carries.
ghost use Rattle.rb_book.specs.Header.{IsSignedBy};

use crate::same::assert_same;
use crate::values::{Members, height, make_set, nanosecond, options};
use rb_base::{CarriedVotes, Fraction, Options};
use rb_book::{Header, Record, Vote};
use rb_step::{carried_votes, least_votes};
use rb_valset::ValidatorSet;
use std::alloc::Global;
use std::process::Abort;
use std::test::Fail;

/// A step from height 1, and how many votes it carries by each choice: the commit votes, those that were
/// cast, those that are needed, and the fewest that are needed by the own set alone.
#[derive(Clone, Copy)]
struct Case {
    name: &'static str,
    next: Members,
    own: Members,
    height: u64,
    votes: &'static [Vote],
    trust: (u64, u64),
    carried: (usize, usize, usize),
    least: usize,
}

const C: Vote = Vote::Commit;

const N: Vote = Vote::Nil;

const X: Vote = Vote::Absent;

const A: Members = &[(0xa1, 10), (0xa2, 10), (0xa3, 10), (0xa4, 10)];

const EQUAL: Case = Case {
    name: "equal powers",
    next: A,
    own: A,
    height: 10,
    votes: &[C, C, C, C],
    trust: (1, 3),
    carried: (4, 4, 3),
    least: 3,
};

const B: Members = &[(0xb1, 40), (0xb2, 40), (0xa1, 10), (0xa2, 10), (0xc1, 1)];

const CASES: &[Case] = &[
    EQUAL,
    Case {
        name: "a nil vote and an absent one",
        votes: &[C, C, N, X],
        carried: (2, 3, 2),
        least: 2,
        ..EQUAL
    },
    Case {
        name: "nine tenths of the trusted set",
        trust: (9, 10),
        carried: (4, 4, 4),
        ..EQUAL
    },
    Case {
        name: "right above, nine tenths don't count",
        trust: (9, 10),
        height: 2,
        ..EQUAL
    },
    Case {
        name: "two thirds and no more",
        next: &[(0xa1, 1), (0xa2, 1), (0xa3, 1)],
        own: &[(0xa1, 1), (0xa2, 1), (0xa3, 1)],
        votes: &[C, C, C],
        carried: (3, 3, 3),
        ..EQUAL
    },
    Case {
        name: "each test needs votes of its own",
        own: B,
        votes: &[C, C, C, C, C],
        carried: (5, 5, 4),
        least: 2,
        ..EQUAL
    },
    Case {
        name: "a vote that isn't needed any more",
        next: &[(0xa1, 10), (0xa2, 1)],
        own: &[(0xb1, 60), (0xb2, 41), (0xa1, 40), (0xc1, 5)],
        carried: (4, 4, 2),
        least: 2,
        ..EQUAL
    },
    Case {
        name: "too little of the trusted set: all are sent",
        next: &[(0xd1, 10)],
        own: B,
        votes: &[C, C, C, C, X],
        carried: (4, 4, 4),
        least: 2,
        ..EQUAL
    },
];

fn options_of(case: &Case, votes: CarriedVotes) -> Result<Options, Fail> {
    let (numerator, denominator) = case.trust;
    let trust = Fraction::new(numerator, denominator)?;
    Ok(options()?.with_trust(trust).with_votes(votes))
}

/// How many votes the case's step carries by a choice.
fn carried_by(
    case: &Case,
    votes: CarriedVotes,
    next: &ValidatorSet,
    header: &Header,
    own: &ValidatorSet,
) -> Result<usize, Fail>
    requires { IsSignedBy header.now own.now }
{
    let options = options_of(case, votes)?;
    Ok(carried_votes(&options, height(1)?, Some(next), header, own))
}

/// The header of the case, of its own set.
fn header_of(alloc: Global, case: &Case, own: &ValidatorSet) -> Result<Header, Fail> {
    let record = Record::new(nanosecond(100)?, [0; 32], *own.hash());
    let votes = Vec::from_slice(alloc, case.votes)?;
    Ok(Header::new(height(case.height)?, record, *own.hash(), votes))
}

fn check_carried(
    rt: &impl Abort,
    case: &Case,
    next: &ValidatorSet,
    header: &Header,
    own: &ValidatorSet,
) -> Result<(), Fail>
    requires { IsSignedBy header.now own.now }
{
    let commit = carried_by(case, CarriedVotes::Commit, next, header, own)?;
    let cast = carried_by(case, CarriedVotes::Cast, next, header, own)?;
    let needed = carried_by(case, CarriedVotes::Needed, next, header, own)?;
    assert_same(rt, case.name, (commit, cast, needed), case.carried);
    Ok(())
}

fn check_least(
    rt: &impl Abort,
    case: &Case,
    header: &Header,
    own: &ValidatorSet,
) -> Result<(), Fail>
    requires { IsSignedBy header.now own.now }
{
    let options = options_of(case, CarriedVotes::Needed)?;
    let least = least_votes(&options, header, own);
    assert_same(rt, case.name, least, case.least);
    Ok(())
}

fn check_header(
    rt: &impl Abort,
    case: &Case,
    next: &ValidatorSet,
    header: &Header,
    own: &ValidatorSet,
) -> Result<(), Fail> {
    assert!(rt; header.is_of(own));
    check_carried(rt, case, next, header, own)?;
    check_least(rt, case, header, own)
}

fn check_sets(
    rt: &impl Abort,
    alloc: Global,
    case: &Case,
    next: &ValidatorSet,
    own: &ValidatorSet,
) -> Result<(), Fail> {
    let header = header_of(alloc, case, own)?;
    check_header(rt, case, next, &header, own)
}

fn check(rt: &impl Abort, alloc: Global, case: &Case) -> Result<(), Fail> {
    let next = make_set(alloc, case.next)?;
    let own = make_set(alloc, case.own)?;
    check_sets(rt, alloc, case, &next, &own)
}

#[test]
fn carries_votes(rt: HostRuntime) -> Result<(), Fail> {
    for case in CASES {
        check(&rt, rt.alloc(), case)?;
    }
    Ok(())
}
