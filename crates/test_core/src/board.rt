//! A board whose pen writes while desks look: what a desk shows never gets shorter, and is a beginning of what was written. A desk that
//! was told of more than is published shows nothing, and each mark of a packet is on its own path. What a pen says that it published
//! is what a desk shows.
use crate::run::{Deed, event_of, start};
use rb_board::{Desk, DeskError, Note, Pen, open};
use rb_core::Core;
use rb_scan::Packet;
use std::alloc::Global;
use std::sync::atomic::{AtomicU64, Ordering};
use std::sync::{Arc, Wait};
use std::test::Fail;
use std::thread;
use std::thread::{JoinHandle, Threads};
use std::time::{Clock, Duration};

/// The packets that are sent on the first path: each is an event, and is published by itself.
const PACKETS: u64 = 1_000;

/// How often a desk looks until it gives up.
const LOOKS: u32 = 1_000_000;

/// What the pen tells the desks where it can't go on.
const NEVER: u64 = u64::MAX;

/// Whether these are the packets from the first one on.
fn is_beginning(packets: &[Packet]) -> bool {
    let mut number: u64 = 0;
    for packet in packets {
        number = number.saturating_add(1);
        if packet.sequence().get() != number {
            return false;
        }
    }
    true
}

/// How many events a desk shows, and how many packets after that; none where it shows nothing, or no beginning.
fn look(desk: &mut Desk) -> Option<(usize, usize)> {
    let front = desk.front().ok()?;
    let view = desk.view_path(0).ok()?;
    let packets = view.packets();
    if packets.len() < front || !is_beginning(packets) {
        return None;
    }
    Some((front, packets.len()))
}

/// Looks until all packets are shown; gives the desk back, if it has shown beginnings that never got shorter and had all
/// that it was told of.
fn watch<R: Clock>(rt: &R, desk: Desk, told: &AtomicU64) -> Option<Desk> {
    let mut desk = desk;
    let mut shown = 0;
    for _ in 0..LOOKS {
        let note = Note {
            front: told.load(Ordering::SeqCst) as usize,
        };
        desk.learn(note);
        let (front, packets) = look(&mut desk)?;
        if front < shown || front < note.front {
            return None;
        }
        shown = packets;
        if shown as u64 == PACKETS {
            return Some(desk);
        }
        thread::sleep(rt, Duration::from_micros(20));
    }
    None
}

/// Sends one packet more; tells whether that was noted.
fn is_sent(alloc: Global, pen: &mut Pen, number: u64) -> bool {
    match event_of(alloc, Deed::Sent(0, number, 5, 0)) {
        Some(event) => pen.append(event).is_ok(),
        None => false,
    }
}

/// Sends the packets, publishes each, and tells the desks so.
fn write_all<R: Wait>(rt: &R, alloc: Global, pen: Pen, told: &AtomicU64) -> Pen {
    let mut pen = pen;
    for number in 1..=PACKETS {
        let is_sent = is_sent(alloc, &mut pen, number);
        let (next, published) = pen.publish(rt);
        let front = if is_sent && published.is_ok() {
            next.tell().front as u64
        } else {
            NEVER
        };
        told.store(front, Ordering::SeqCst);
        pen = next;
    }
    pen
}

/// Lets a desk look in a thread of its own; none where no thread can be made.
fn start_watch<R: Clock + Threads + Copy + Send + 'static>(
    rt: &R,
    desk: Desk,
    told: &Arc<AtomicU64, Global>,
) -> Option<JoinHandle<Option<Desk>>> {
    let told = Arc::try_clone(told).ok()?;
    let runtime = *rt;
    thread::spawn(rt, move || watch(&runtime, desk, &told)).ok()
}

/// The desk, once it has looked.
fn end_watch<R: Threads>(rt: &R, thread: Option<JoinHandle<Option<Desk>>>) -> Option<Desk> {
    thread?.join(rt)
}

/// A pen with two of its desks.
fn with_two<R: Wait>(
    rt: &R,
    pen: Pen,
    one: Option<Desk>,
    other: Option<Desk>,
) -> Option<(Pen, Desk, Desk)> {
    match (one, other) {
        (Some(one), Some(other)) => Some((pen, one, other)),
        _ => {
            pen.close(rt);
            None
        }
    }
}

fn open_of<R: Wait>(rt: &R, alloc: Global, core: Core) -> Option<(Pen, Desk, Desk)> {
    let (pen, mut desks) = open(rt, alloc, core, 2).ok()?;
    let one = desks.pop();
    with_two(rt, pen, one, desks.pop())
}

/// A board of a machine that knows nothing, with two desks.
fn open_two<R: Wait>(rt: &R, alloc: Global) -> Option<(Pen, Desk, Desk)> {
    match start(alloc, 12, &[]) {
        Some(core) => open_of(rt, alloc, core),
        None => None,
    }
}

/// Writes all while two desks look in threads of their own, and ends the board; gives what it has taken in, and the desks.
fn write_and_watch<R: Clock + Threads + Wait + Copy + Send + 'static>(
    rt: &R,
    alloc: Global,
    (pen, one, other): (Pen, Desk, Desk),
    told: &Arc<AtomicU64, Global>,
) -> (usize, Option<Desk>, Option<Desk>) {
    let one = start_watch(rt, one, told);
    let other = start_watch(rt, other, told);
    let pen = write_all(rt, alloc, pen, told);
    let one = end_watch(rt, one);
    let other = end_watch(rt, other);
    let core = pen.close(rt);
    (core.front(), one, other)
}

/// Whether a desk shows that the pen is gone.
fn is_closed(desk: Option<Desk>) -> bool {
    let Some(mut desk) = desk else {
        return false;
    };
    matches!(desk.front(), Err(DeskError::Closed))
}

/// Once the pen is gone desks show nothing more.
#[test]
fn desks_show_beginnings_while_the_pen_writes(rt: HostRuntime) -> Result<(), Fail> {
    let alloc = rt.alloc();
    let told = Arc::new(alloc, AtomicU64::new(0))?;
    let board = open_two(&rt, alloc).ok_or("board")?;
    let (written, one, other) = write_and_watch(&rt, alloc, board, &told);
    let ends = (written as u64, is_closed(one), is_closed(other));
    assert!(rt; ends == (PACKETS, true, true), "{ends:?}");
    Ok(())
}

/// Whether a desk that was told of an event that isn't published yet is behind, also when it is told of fewer events after that.
fn stays_behind(desk: &mut Desk) -> bool {
    desk.learn(Note { front: 1 });
    desk.learn(Note { front: 0 });
    matches!(desk.front(), Err(DeskError::Behind))
}

/// Takes in what happens to a packet; tells whether that was noted.
fn is_noted(alloc: Global, pen: &mut Pen, deed: Deed) -> bool {
    match event_of(alloc, deed) {
        Some(event) => pen.append(event).is_ok(),
        None => false,
    }
}

/// Sends a packet on the second path, clears it, and publishes both; tells whether all that was done.
fn clear_on_second_path<R: Wait>(rt: &R, alloc: Global, pen: Pen) -> (Pen, bool) {
    let mut pen = pen;
    let is_sent = is_noted(alloc, &mut pen, Deed::Sent(1, 3, 5, 0));
    let is_cleared = is_noted(alloc, &mut pen, Deed::Cleared(1, 3));
    let (pen, published) = pen.publish(rt);
    (pen, is_sent && is_cleared && published.is_ok())
}

/// Whether one of these packets is cleared, and no more.
fn is_one_cleared(packets: &[Packet]) -> bool {
    let mut cleared: usize = 0;
    for packet in packets {
        cleared = cleared.saturating_add(usize::from(packet.is_cleared()));
    }
    cleared == 1
}

/// Whether a desk shows the one packet of the second path as cleared.
fn shows_cleared(desk: &mut Desk) -> bool {
    match desk.view_path(1) {
        Ok(view) => is_one_cleared(view.packets()),
        Err(_) => false,
    }
}

#[test]
fn desks_show_what_they_were_told_of(rt: HostRuntime) -> Result<(), Fail> {
    let alloc = rt.alloc();
    let (pen, mut one, mut other) = open_two(&rt, alloc).ok_or("board")?;
    let is_behind = stays_behind(&mut one);
    let (pen, is_done) = clear_on_second_path(&rt, alloc, pen);
    let shown = (
        is_behind,
        is_done,
        shows_cleared(&mut one),
        shows_cleared(&mut other),
    );
    pen.close(&rt);
    assert!(rt; shown == (true, true, true, true), "{shown:?}");
    Ok(())
}

/// How many events a desk shows.
fn shown_by(desk: &mut Desk) -> Option<usize> {
    match desk.front() {
        Ok(front) => Some(front),
        Err(_) => None,
    }
}

/// Sends a packet and publishes it; tells whether a desk then shows all that was appended, or where nothing was published what
/// it showed before.
fn is_shown<R: Wait>(rt: &R, alloc: Global, pen: Pen, desk: &mut Desk, number: u64) -> (Pen, bool) {
    let mut pen = pen;
    let before = shown_by(desk);
    is_sent(alloc, &mut pen, number);
    let appended = pen.head().front();
    let (pen, published) = pen.publish(rt);
    let wanted = if published.is_ok() {
        Some(appended)
    } else {
        before
    };
    let is_right = shown_by(desk) == wanted;
    (pen, is_right)
}

/// The same of packet after packet; tells whether it was so each time.
fn are_shown<R: Wait>(rt: &R, alloc: Global, pen: Pen, desk: &mut Desk) -> (Pen, bool) {
    let mut pen = pen;
    let mut are_right = true;
    for number in 1..=40 {
        let (next, is_right) = is_shown(rt, alloc, pen, desk, number);
        are_right = are_right && is_right;
        pen = next;
    }
    (pen, are_right)
}

/// `tests/fail_alloc` also lets each allocation of this test fail in turn: a pen that says it published what it didn't is
/// found by that.
#[test]
fn a_desk_shows_what_was_published(rt: HostRuntime) -> Result<(), Fail> {
    let alloc = rt.alloc();
    let (pen, mut desk, _other) = open_two(&rt, alloc).ok_or("no memory")?;
    let (pen, are_right) = are_shown(&rt, alloc, pen, &mut desk);
    pen.close(&rt);
    assert!(rt; are_right, "what a desk shows isn't what was published");
    Ok(())
}
