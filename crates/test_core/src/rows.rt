use crate::run::{Deed, Row, Run, start, start_dear};
use rb_base::Part;
use rb_book::Vote;
use rb_core::{Core, Follower};
use rb_core_model::CoreError;
use rb_script_types::Refusal;
use std::alloc::Global;
use std::process::Abort;
use std::test::Fail;

const THREE: &[Vote] = &[Vote::Commit, Vote::Commit, Vote::Commit, Vote::Absent];

const FOUR: &[Vote] = &[Vote::Commit, Vote::Commit, Vote::Commit, Vote::Commit];

const BAD: &[Vote] = &[Vote::Commit, Vote::Bad, Vote::Bad, Vote::Absent];

const SHORT: &[Vote] = &[Vote::Bad];

/// Does what these tables say with a machine, from which what is beside it comes out.
fn check(
    rt: &impl Abort,
    alloc: Global,
    core: Option<Core>,
    tables: &[&[Row]],
) -> Result<(), Fail> {
    let Some(core) = core else {
        return Err(Fail::from("no machine"));
    };
    Run::new(alloc, core).go_through(rt, alloc, tables)
}

/// On a machine with a third client.
const FOREIGN: &[Row] = &[(Deed::Window(50, 60), "Noted"), (Deed::Draft(2), "idle")];

/// Each event but a plan, and each reason to refuse it, in its order: where one is told, later ones apply
/// too, if they can. Books have at most three records.
///
/// 407 needs two sets with one hash; 406 for sets and for packets, and 808, stand by themselves.
const ORDER: &[Row] = &[
    (Deed::Anew(3, &[]), ""),
    // a client isn't there, or no window yet
    (Deed::Draft(2), "801 UnknownObject"),
    (Deed::Draft(0), "805 OutOfOrder"),
    (Deed::Last, "801 UnknownObject"),
    // windows and goals
    (Deed::Window(50, 60), "Noted"),
    (Deed::Window(49, 70), "806 WindowBack"),
    (Deed::Window(55, 59), "806 WindowBack"),
    (Deed::Window(50, 60), "Noted"),
    (Deed::Asked(2, 5), "801 UnknownObject"),
    (Deed::Asked(0, 5), "Noted"),
    // sets and headers
    (Deed::Set(2, 0xa1), "801 UnknownObject"),
    (Deed::Set(0, 0xa1), "Noted"),
    (Deed::Set(0, 0xa1), "Noted"),
    (Deed::Header(2, 5, 50, 0xb1, SHORT), "801 UnknownObject"),
    (Deed::Header(0, 5, 50, 0xa1, THREE), "Noted"),
    (Deed::Header(0, 8, 80, 0xa1, THREE), "Noted"),
    (Deed::Header(0, 5, 90, 0xb1, SHORT), "401 UnknownSet"),
    (Deed::Header(0, 5, 90, 0xa1, SHORT), "402 WrongVerdictCount"),
    (Deed::Header(0, 5, 90, 0xa1, BAD), "403 BadVote 1"),
    (Deed::Header(0, 5, 90, 0xa1, THREE), "404 Conflict 5"),
    (Deed::Header(0, 5, 50, 0xa1, FOUR), "404 Conflict 5"),
    // records that a client has stored
    (Deed::Stored(2, 2, 20), "801 UnknownObject"),
    (Deed::Stored(0, 2, 20), "Noted"),
    (Deed::Stored(0, 5, 90), "404 Conflict 5"),
    (Deed::Stored(0, 6, 90), "405 TimeOrder 8"),
    (Deed::Stored(0, 6, 40), "405 TimeOrder 5"),
    (Deed::Stored(0, 6, 60), "406 Full"),
    (Deed::Stored(0, 2, 20), "Noted"),
    (Deed::Stored(0, 5, 50), "Noted"),
    (Deed::Header(0, 6, 90, 0xa1, THREE), "405 TimeOrder 8"),
    (Deed::Header(0, 6, 60, 0xa1, THREE), "406 Full"),
    (Deed::Header(0, 5, 50, 0xa1, THREE), "Noted"),
    // packets
    (Deed::Sent(2, 3, 5, 0), "801 UnknownObject"),
    (Deed::Sent(1, 2, 5, 0), "805 OutOfOrder"),
    (Deed::Sent(1, 3, 5, 0), "Noted"),
    (Deed::Sent(1, 3, 5, 0), "804 Repeat"),
    (Deed::Sent(1, 4, 5, 0), "Noted"),
    (Deed::Received(2, 3, 6), "801 UnknownObject"),
    (Deed::Received(1, 5, 6), "805 OutOfOrder"),
    (Deed::Received(1, 4, 6), "805 OutOfOrder"),
    (Deed::Received(1, 3, 6), "Noted"),
    (Deed::Received(1, 3, 6), "804 Repeat"),
    (Deed::Received(1, 4, 6), "Noted"),
    (Deed::Written(2, 3, 6), "801 UnknownObject"),
    (Deed::Sent(0, 1, 5, 0), "Noted"),
    (Deed::Written(0, 2, 6), "805 OutOfOrder"),
    (Deed::Written(0, 1, 6), "805 OutOfOrder"),
    (Deed::Received(0, 1, 6), "Noted"),
    (Deed::Written(0, 1, 5), "805 OutOfOrder"),
    (Deed::Written(0, 1, 6), "Noted"),
    (Deed::Written(0, 1, 5), "805 OutOfOrder"),
    (Deed::Written(0, 1, 6), "804 Repeat"),
    (Deed::Cleared(2, 1), "801 UnknownObject"),
    (Deed::Cleared(0, 2), "805 OutOfOrder"),
    (Deed::Cleared(0, 1), "Noted"),
    (Deed::Cleared(0, 1), "804 Repeat"),
    // scans
    (Deed::Sent(0, 2, 5, 0), "Noted"),
    (Deed::Scan(2, Part::Packets), "801 UnknownObject"),
    (Deed::Scan(0, Part::Packets), "owes | Receive 2 6"),
    (Deed::LastOn(2), "801 UnknownObject"),
    (Deed::LastOn(1), "802 Stale"),
    (Deed::Last, "Noted"),
    (Deed::Last, "804 Repeat"),
    (Deed::Sent(0, 3, 6, 0), "Noted"),
    (Deed::Last, "802 Stale"),
    (
        Deed::Scan(0, Part::Packets),
        "owes | Receive 2 6 | Receive 3 7",
    ),
    (Deed::Last, "Noted"),
    (Deed::Made(1), "802 Stale"),
    // the path is UNORDERED
    (Deed::Received(0, 3, 6), "Noted"),
    // closed paths and settlements
    (Deed::Closed(2), "801 UnknownObject"),
    (Deed::Closed(0), "Noted"),
    (Deed::Closed(0), "804 Repeat"),
    (Deed::Settled(2, 1, 0), "801 UnknownObject"),
    (Deed::Settled(0, 1, 0), "805 OutOfOrder"),
];

#[test]
fn refuses_in_order(rt: HostRuntime) -> Result<(), Fail> {
    let alloc = rt.alloc();
    check(&rt, alloc, start(alloc, 3, &["third"]), &[FOREIGN, ORDER])
}

/// A plan of a client, made on another machine, where the client's updates take more gas.
const ELSEWHERE: &[Row] = &[(Deed::Window(50, 60), "Noted"), (Deed::Draft(2), "idle")];

/// It is offered in the same window, and then a plan of this machine.
const OF_ANOTHER: &[Row] = &[
    (Deed::Anew(3, &["third"]), ""),
    (Deed::Window(50, 60), "Noted"),
    (Deed::Last, "802 Stale"),
    (Deed::Draft(2), "idle"),
    (Deed::Last, "Noted"),
];

#[test]
fn refuses_plans_of_another_machine(rt: HostRuntime) -> Result<(), Fail> {
    let alloc = rt.alloc();
    check(&rt, alloc, start_dear(alloc), &[ELSEWHERE, OF_ANOTHER])
}

/// Whether a follower refuses what it is told of the last plan that was made, since it is out of order.
fn is_out_of_order(run: &mut Run, follower: &mut Follower) -> Option<bool> {
    let told = run.told()?;
    let answer = follower.follow(&told);
    Some(matches!(answer, Err(CoreError::Refused(Refusal::OutOfOrder))))
}

fn check_follower(
    rt: &impl Abort,
    alloc: Global,
    run: &mut Run,
    follower: &mut Follower,
) -> Result<(), Fail> {
    run.go(rt, alloc, ELSEWHERE)?;
    let is_refused = is_out_of_order(run, follower).ok_or("told")?;
    assert!(rt; is_refused);
    Ok(())
}

/// The same with a follower of the machine as it is now.
fn check_new_follower(rt: &impl Abort, alloc: Global, core: Core) -> Result<(), Fail> {
    let mut follower = core.follower()?;
    check_follower(rt, alloc, &mut Run::new(alloc, core), &mut follower)
}

/// A follower without a window replays no plan that was made in one.
#[test]
fn a_follower_replays_no_plan_before_a_window(rt: HostRuntime) -> Result<(), Fail> {
    match start(rt.alloc(), 3, &["third"]) {
        Some(core) => check_new_follower(&rt, rt.alloc(), core),
        None => Err(Fail::from("start")),
    }
}

/// Sets and headers of both chains, of which each client has stored height 1, and can be brought to
/// height 10 of the first and 12 of the second chain.
const CHAINS: &[Row] = &[
    (Deed::Window(200, 200), "Noted"),
    (Deed::Set(0, 0xa1), "Noted"),
    (Deed::Set(1, 0xa1), "Noted"),
    (Deed::Stored(0, 1, 10), "Noted"),
    (Deed::Stored(1, 1, 10), "Noted"),
    (Deed::Header(0, 10, 100, 0xa1, THREE), "Noted"),
    (Deed::Header(1, 12, 120, 0xa1, THREE), "Noted"),
];

/// Packets of both paths, of whose batches not all is taken.
const RECEIVES: &[Row] = &[
    (Deed::Sent(0, 1, 9, 0), "Noted"),
    (Deed::Sent(1, 3, 8, 0), "Noted"),
    (Deed::Sent(1, 4, 9, 0), "Noted"),
    (Deed::Scan(0, Part::Packets), "owes | Receive 1 10"),
    (Deed::Last, "Noted"),
    (Deed::Scan(0, Part::Channel), "owes"),
    (Deed::Last, "Noted"),
    (
        Deed::Scan(1, Part::Packets),
        "owes | Receive 3 9 | Receive 4 10",
    ),
    (Deed::Last, "Noted"),
    // a part is not scanned
    (Deed::Draft(0), FIRST_PLAN),
    (Deed::Last, "807 NotOwed"),
    (Deed::Scan(1, Part::Channel), "owes"),
    (Deed::Last, "Noted"),
    // another window, and another header
    (Deed::Window(200, 201), "Noted"),
    (Deed::Made(3), "802 Stale"),
    (Deed::Draft(0), FIRST_PLAN),
    (Deed::Header(0, 9, 90, 0xa1, THREE), "Noted"),
    (Deed::Made(5), "802 Stale"),
    (Deed::Draft(0), FIRST_PLAN),
    // a copy takes the plan in, and makes the next two
    (Deed::Copy, ""),
    (Deed::Swap, ""),
    (Deed::Made(6), "Opened(1)"),
    (Deed::Draft(0), FIRST_PLAN),
    (Deed::Settled(0, 1, 0), "Noted"),
    (Deed::Draft(0), FIRST_PLAN),
    (Deed::Made(8), "Opened(2)"),
    (Deed::Draft(0), FIRST_PLAN),
    (Deed::Swap, ""),
    // they come early
    (Deed::Made(7), "805 OutOfOrder"),
    (Deed::Made(9), "805 OutOfOrder"),
    // what comes again changes no view
    (Deed::Window(200, 201), "Noted"),
    (Deed::Header(0, 10, 100, 0xa1, THREE), "Noted"),
    (Deed::Made(6), "Opened(1)"),
    // again, and late; early; and while a batch is open
    (Deed::Made(6), "804 Repeat"),
    (Deed::Made(3), "804 Repeat"),
    (Deed::Made(9), "805 OutOfOrder"),
    (Deed::Made(7), "803 Busy"),
    // a path has changed since it was scanned
    (Deed::Sent(1, 6, 9, 0), "Noted"),
    (Deed::Made(6), "804 Repeat"),
    (Deed::Made(9), "805 OutOfOrder"),
    (Deed::Made(7), "803 Busy"),
    // the update and two receives are taken
    (Deed::Settled(0, 0, 0), "805 OutOfOrder"),
    (Deed::Settled(0, 2, 1), "805 OutOfOrder"),
    (Deed::Settled(0, 1, 4), "805 OutOfOrder"),
    (Deed::Settled(0, 1, 2), "Noted"),
    (Deed::Settled(0, 1, 4), "804 Repeat"),
    (Deed::Made(6), "804 Repeat"),
    (Deed::Made(9), "805 OutOfOrder"),
    (Deed::Made(7), "807 NotOwed"),
    (Deed::Scan(0, Part::Packets), "owes"),
    (Deed::Last, "Noted"),
    (Deed::Scan(0, Part::Channel), "owes"),
    (Deed::Last, "Noted"),
    (Deed::Scan(1, Part::Packets), "owes | Receive 4 10"),
    (Deed::Last, "Noted"),
    (Deed::Scan(1, Part::Channel), "owes"),
    (Deed::Last, "Noted"),
    (Deed::Made(7), "802 Stale"),
    (Deed::Draft(0), SECOND_PLAN),
    (Deed::Last, "Opened(2)"),
    (Deed::Made(6), "804 Repeat"),
    (Deed::Settled(0, 1, 0), "804 Repeat"),
    // nothing is taken
    (Deed::Settled(0, 2, 0), "Noted"),
    (Deed::Draft(0), SECOND_PLAN),
    (Deed::Last, "Opened(3)"),
    (Deed::Settled(0, 3, 1), "Noted"),
    (Deed::Settled(0, 2, 0), "804 Repeat"),
    // the next sequence is out of reach
    (Deed::Sent(1, 5, 11, 0), "Noted"),
    (Deed::Received(1, 6, 10), "805 OutOfOrder"),
    (
        Deed::Scan(1, Part::Packets),
        "owes | Receive 5 12 | Receive 6 10",
    ),
    (Deed::Last, "Noted"),
    (Deed::Scan(1, Part::Channel), "owes"),
    (Deed::Last, "Noted"),
    (Deed::Draft(0), "idle"),
    (Deed::Last, "Noted"),
    // a plan drops what was asked for
    (Deed::Asked(0, 99), "Noted"),
    (Deed::Draft(0), "at least 99 | unreachable"),
    (Deed::Last, "Noted"),
    (Deed::Draft(0), "idle"),
    (Deed::Asked(0, 10), "Noted"),
    (Deed::Last, "802 Stale"),
    (Deed::Draft(0), "at least 10 | nothing"),
    (Deed::Last, "Noted"),
    (Deed::Draft(0), "idle"),
];

const FIRST_PLAN: &str =
    "at least 10 | 10<1 | Receive 0 1 60 | Receive 1 3 50 | Receive 1 4 50 | batch 10: 0+1 111, 1+2 110, 3+1 50";

const SECOND_PLAN: &str = "at least 10 | Receive 1 4 50 | batch 10: 0+1 50";

/// What becomes of these packets, and of two that expire.
const OUTCOMES: &[Row] = &[
    (Deed::Received(1, 5, 11), "Noted"),
    (Deed::Received(1, 6, 11), "Noted"),
    (Deed::Received(0, 1, 11), "Noted"),
    (Deed::Received(1, 3, 10), "Noted"),
    (Deed::Received(1, 4, 10), "Noted"),
    (Deed::Written(0, 1, 11), "Noted"),
    (Deed::Written(1, 3, 10), "Noted"),
    (Deed::Written(1, 4, 11), "Noted"),
    (Deed::Scan(0, Part::Packets), "owes"),
    (Deed::Last, "Noted"),
    (Deed::Scan(0, Part::Channel), "owes | Acknowledge 1 12"),
    (Deed::Last, "Noted"),
    (Deed::Scan(1, Part::Packets), "owes"),
    (Deed::Last, "Noted"),
    (
        Deed::Scan(1, Part::Channel),
        "owes | Acknowledge 3 11 | Acknowledge 4 12",
    ),
    (Deed::Last, "Noted"),
    (
        Deed::Draft(1),
        "at least 12 | 12<1 | Acknowledge 0 1 60 | Acknowledge 1 3 51 | Acknowledge 1 4 51 | batch 12: 0+1 111, 1+2 111, 3+1 51",
    ),
    (Deed::Last, "Opened(1)"),
    // what is known is all that settling it takes
    (Deed::Known, ""),
    (Deed::Settled(1, 1, 2), "Noted"),
    (Deed::Cleared(0, 1), "804 Repeat"),
    (Deed::Cleared(1, 3), "804 Repeat"),
    (Deed::Cleared(1, 4), "Noted"),
    (Deed::Sent(0, 2, 9, 5), "Noted"),
    (Deed::Sent(1, 7, 9, 5), "Noted"),
    (Deed::Scan(0, Part::Packets), "owes"),
    (Deed::Last, "Noted"),
    (Deed::Scan(0, Part::Channel), "owes | Timeout 2 5"),
    (Deed::Last, "Noted"),
    (Deed::Scan(1, Part::Packets), "owes"),
    (Deed::Last, "Noted"),
    (Deed::Scan(1, Part::Channel), "owes | Timeout 7 5"),
    (Deed::Last, "Noted"),
    (
        Deed::Draft(1),
        "at least 5 | Timeout 0 2 60 | Timeout 1 7 52 | batch 12: 0+2 112",
    ),
    (Deed::Last, "Opened(2)"),
    (Deed::Known, ""),
    (Deed::Settled(1, 2, 1), "Noted"),
    (Deed::Known, ""),
    (Deed::Settled(1, 2, 1), "804 Repeat"),
    // that closed the ORDERED path
    (Deed::Closed(1), "804 Repeat"),
    (Deed::Closed(0), "Noted"),
];

/// Plans and scans that are refused are among them: of an older view, made again, before the scans, with a number that
/// is above or below, and while a batch is open.
#[test]
fn keeps_what_was_settled(rt: HostRuntime) -> Result<(), Fail> {
    let alloc = rt.alloc();
    check(
        &rt,
        alloc,
        start(alloc, 12, &[]),
        &[CHAINS, RECEIVES, OUTCOMES],
    )
}

/// A chain of which 1,024 sets were observed.
const MORE_SETS: &[Row] = &[
    (Deed::LoneSets(0, 1024), "Noted"),
    (Deed::Set(0, 0xa1), "406 Full"),
    (Deed::LoneSet(0, 1024), "406 Full"),
    (Deed::LoneSet(0, 1023), "Noted"),
    (Deed::Set(1, 0xa1), "Noted"),
];

#[test]
fn refuses_more_sets(rt: HostRuntime) -> Result<(), Fail> {
    let alloc = rt.alloc();
    check(&rt, alloc, start(alloc, 12, &[]), &[MORE_SETS])
}

/// A path that has 4,096 packets.
const FULL: &[Row] = &[
    (Deed::Packets(0, 4096), "Noted"),
    (Deed::Sent(0, 4097, 5, 0), "406 Full"),
    (Deed::Sent(0, 4096, 5, 0), "804 Repeat"),
    (Deed::Sent(1, 4097, 5, 0), "Noted"),
];

#[test]
fn refuses_more_packets(rt: HostRuntime) -> Result<(), Fail> {
    let alloc = rt.alloc();
    check(&rt, alloc, start(alloc, 12, &[]), &[FULL])
}

/// The events before a log is full: some would be taken in again, and some refused.
const NEARLY_FULL: &[Row] = &[
    (Deed::Anew(3, &[]), ""),
    (Deed::Window(50, 60), "Noted"),
    (Deed::Set(0, 0xa1), "Noted"),
    (Deed::Header(0, 5, 50, 0xa1, THREE), "Noted"),
    (Deed::Sent(0, 1, 5, 0), "Noted"),
    (Deed::Scan(0, Part::Packets), "owes | Receive 1 6"),
    (Deed::Draft(0), "idle"),
    (Deed::Sent(0, 2, 5, 0), "Noted"),
    (
        Deed::Scan(0, Part::Packets),
        "owes | Receive 1 6 | Receive 2 6",
    ),
];

/// Of each event one that would be taken in or one for which a later reason applies, or both, and one
/// of what isn't there.
const LOG_FULL: &[Row] = &[
    (Deed::Window(50, 60), "808 LogFull"),
    (Deed::Window(49, 70), "808 LogFull"),
    (Deed::Asked(0, 5), "808 LogFull"),
    (Deed::Asked(2, 5), "801 UnknownObject"),
    (Deed::Set(0, 0xb1), "808 LogFull"),
    (Deed::Set(2, 0xb1), "801 UnknownObject"),
    (Deed::Header(0, 8, 80, 0xa1, THREE), "808 LogFull"),
    (Deed::Header(0, 5, 90, 0xb1, SHORT), "808 LogFull"),
    (Deed::Header(2, 5, 90, 0xb1, SHORT), "801 UnknownObject"),
    (Deed::Stored(0, 2, 20), "808 LogFull"),
    (Deed::Stored(0, 5, 90), "808 LogFull"),
    (Deed::Stored(2, 5, 90), "801 UnknownObject"),
    (Deed::Sent(0, 3, 5, 0), "808 LogFull"),
    (Deed::Sent(0, 1, 5, 0), "808 LogFull"),
    (Deed::Sent(2, 1, 5, 0), "801 UnknownObject"),
    (Deed::Received(0, 1, 6), "808 LogFull"),
    (Deed::Received(0, 5, 6), "808 LogFull"),
    (Deed::Received(2, 5, 6), "801 UnknownObject"),
    (Deed::Written(0, 1, 6), "808 LogFull"),
    (Deed::Written(2, 1, 6), "801 UnknownObject"),
    (Deed::Cleared(0, 1), "808 LogFull"),
    (Deed::Cleared(0, 5), "808 LogFull"),
    (Deed::Cleared(2, 5), "801 UnknownObject"),
    (Deed::Closed(0), "808 LogFull"),
    (Deed::Closed(2), "801 UnknownObject"),
    (Deed::Last, "808 LogFull"),
    (Deed::LastOn(1), "808 LogFull"),
    (Deed::LastOn(2), "801 UnknownObject"),
    (Deed::Made(1), "808 LogFull"),
    (Deed::Made(2), "808 LogFull"),
    (Deed::Made(0), "801 UnknownObject"),
    (Deed::Settled(0, 1, 0), "808 LogFull"),
    (Deed::Settled(2, 1, 0), "801 UnknownObject"),
];

/// What is refused once a log has a million events changes nothing.
fn check_full_log(rt: &impl Abort, alloc: Global, run: &mut Run) -> Result<(), Fail> {
    run.go_through(rt, alloc, &[FOREIGN, NEARLY_FULL])?;
    run.fill(Deed::Window(50, 60), 1_000_000).ok_or("window")?;
    run.go(rt, alloc, LOG_FULL)?;
    assert!(rt; run.core.front() == 1_000_000);
    Ok(())
}

/// A log of a million events takes no more.
#[test]
fn refuses_more_events(rt: HostRuntime) -> Result<(), Fail> {
    match start(rt.alloc(), 3, &["third"]) {
        Some(core) => check_full_log(&rt, rt.alloc(), &mut Run::new(rt.alloc(), core)),
        None => Err(Fail::from("start")),
    }
}
