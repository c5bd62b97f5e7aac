//! Worked votes that are sent.
use crate::same::assert_same;
use rb_valset::{PublicKey, Validator, ValsetError};
use rb_votes::{Needed, Voter, Voters, sent_count, sent_votes};
use std::alloc::{AllocError, Global};
use std::process::Abort;
use std::test::Fail;

/// A place that no trusted set here has.
const NOWHERE: usize = 100;

fn member(power: u64) -> Result<Validator, ValsetError> {
    Validator::new(PublicKey::Ed25519([0xa1; 32]), power)
}

fn voter(place: usize, own: u64, trusted: u64) -> Voter {
    Voter {
        place,
        own,
        trusted,
    }
}

/// The votes that are sent of the voters are these, and are counted as so many.
fn check_sent(
    rt: &impl Abort,
    alloc: Global,
    voters: &mut Voters<'_>,
    needed: Needed,
    wanted: &[Voter],
) -> Result<(), AllocError> {
    let votes = sent_votes(alloc, &mut *voters, needed)?;
    assert_same(rt, "votes", votes.as_slice(), wanted);
    assert_same(rt, "count", sent_count(voters, needed), wanted.len());
    Ok(())
}

/// Equal powers of an adjacent header: the first three in set order of four.
#[test]
fn equal_powers(rt: HostRuntime) -> Result<(), Fail> {
    let own = [member(1)?, member(1)?, member(1)?, member(1)?];
    let mut voters = Voters::new(&own, &[]);
    voters.push(0, NOWHERE);
    voters.push(1, NOWHERE);
    voters.push(2, NOWHERE);
    voters.push(3, NOWHERE);
    let needed = Needed { own: 3, trusted: 0 };
    let wanted = [voter(0, 1, 0), voter(1, 1, 0), voter(2, 1, 0)];
    Ok(check_sent(&rt, rt.alloc(), &mut voters, needed, &wanted)?)
}

/// One voter has enough of both powers.
#[test]
fn one_suffices(rt: HostRuntime) -> Result<(), Fail> {
    let own = [member(1)?, member(9)?, member(2)?];
    let mut voters = Voters::new(&own, &own);
    voters.push(0, 0);
    voters.push(1, 1);
    voters.push(2, 2);
    let needed = Needed { own: 9, trusted: 5 };
    let wanted = [voter(1, 9, 9)];
    Ok(check_sent(&rt, rt.alloc(), &mut voters, needed, &wanted)?)
}

/// The fewest by own power, the first two, lack trusted power; the third, which brings it, makes the
/// second superfluous.
#[test]
fn one_goes_again(rt: HostRuntime) -> Result<(), Fail> {
    let own = [member(6)?, member(4)?, member(3)?, member(1)?];
    let trusted = [member(5)?, member(1)?];
    let mut voters = Voters::new(&own, &trusted);
    voters.push(0, NOWHERE);
    voters.push(1, NOWHERE);
    voters.push(2, 0);
    voters.push(3, 1);
    let needed = Needed { own: 9, trusted: 5 };
    let wanted = [voter(0, 6, 0), voter(2, 3, 5)];
    Ok(check_sent(&rt, rt.alloc(), &mut voters, needed, &wanted)?)
}

/// Where all together don't pass, all are sent.
#[test]
fn too_little(rt: HostRuntime) -> Result<(), Fail> {
    let own = [member(1)?, member(2)?];
    let mut voters = Voters::new(&own, &[]);
    voters.push(0, NOWHERE);
    voters.push(1, NOWHERE);
    let needed = Needed { own: 4, trusted: 0 };
    let wanted = [voter(1, 2, 0), voter(0, 1, 0)];
    Ok(check_sent(&rt, rt.alloc(), &mut voters, needed, &wanted)?)
}

/// The list that begins with the trusted set takes the third, and then of the first two, who have the same
/// own power, the one with the lower place.
#[test]
fn ties_by_place(rt: HostRuntime) -> Result<(), Fail> {
    let own = [member(3)?, member(3)?, member(2)?];
    let trusted = [member(3)?, member(2)?];
    let mut voters = Voters::new(&own, &trusted);
    voters.push(0, NOWHERE);
    voters.push(1, 1);
    voters.push(2, 0);
    let needed = Needed { own: 3, trusted: 2 };
    let wanted = [voter(0, 3, 0), voter(2, 2, 3)];
    Ok(check_sent(&rt, rt.alloc(), &mut voters, needed, &wanted)?)
}
