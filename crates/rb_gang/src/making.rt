//! The step table of a book, made by several threads.
ghost use Rattle.std.specs.Prelude.{◌≡◌, ◌<◌, ◌≤◌, IfOk, length};
ghost use Rattle.std.specs.Thread.{IsSync};
ghost use denote.Param.Send.{IsSend, Frees};
ghost use Rattle.rb_gang.specs.Shifts.{IsFresh, IsShift};

use crate::laws::{claim, count, join, split_off};
use crate::table::{ClaimSeat, ClaimTable, open};
use rb_base::{Gate, WorkItem};
use rb_book::ChainBook;
use rb_graph::{Frame, FrameRow, Graph, TableError};
use std::alloc::{AllocError, Allocator};
use std::thread;
use std::thread::Threads;

/// The table of a book, whose rows are made by 1 to 64 workers; the caller is one of them. A thread
/// that can't be started means fewer workers. Each worker draws numbers until it draws one that no
/// row has, calls the gate before and after each row, and ends where a growth is refused; an error
/// comes once all have ended. No row is made twice.
pub fn build<R: Threads + Sync, G: Gate + Sync, A: Allocator + Copy + Send + Sync>(
    rt: &R,
    alloc: A,
    book: ChainBook<A>,
    workers: usize,
    gate: &G,
) -> Result<Graph<A>, AllocError>
    requires workers { (0 < workers) × (workers ≤ 64) }
    requires alloc { Frees A.Allocator A.dealloc_token }
    ensures { IfOk result (λ graph. graph ≡ book) }
{
    let frame = Frame::from_book(alloc, book)?;
    let total = frame.rows();
    let mut room = Vec::with_capacity(alloc, total)?;
    let (table, seat) = open(alloc, total as u64)?;
    let (mut seat, mut rows) = make_rows(rt, alloc, &frame, &table, seat, workers, gate)?;
    count(&table, &mut seat);
    room.append(&mut rows)?;
    match frame.finish(room) {
        Ok(graph) => Ok(graph),
        Err((_, _, TableError::NoMemory)) => Err(AllocError),
        Err((_, _, TableError::RowTwice(_))) => unreachable!(),
        Err((_, _, TableError::RowMissing(_))) => unreachable!(),
    }
}

/// The rows whose numbers so many workers drew until none was left. The seat, which has drawn
/// nothing, comes back with what they drew.
pub fn make_rows<R: Threads + Sync, G: Gate + Sync, A: Allocator + Copy + Send + Sync>(
    rt: &R,
    alloc: A,
    frame: &Frame<A>,
    table: &ClaimTable<A>,
    mut seat: ClaimSeat,
    workers: usize,
    gate: &G,
) -> Result<(ClaimSeat, Vec<FrameRow<A>, A>), AllocError>
    requires fresh { IsFresh table.now frame.now seat }
    requires workers { (0 < workers) × (workers ≤ seat.knows.seats) }
    requires alloc { Frees A.Allocator A.dealloc_token }
    ensures { IfOk result (λ r. IsShift table.now frame.now seat.knows.seats (r.0, r.1.items)) }
{
    if workers <= 1 {
        return work(alloc, frame, table, seat, gate);
    }
    let theirs = split_off(table, &mut seat);
    let others = workers - 1;
    let (one, rest) = thread::join(
        rt,
        || -> Result<(ClaimSeat, Vec<FrameRow<A>, A>), AllocError>
            requires { IsSync G.row × IsSync A.row × IsSend A.row × Frees A.Allocator A.dealloc_token × IsFresh table.now frame.now theirs × (0 < theirs.knows.seats) }
            ensures { IfOk result (λ r. IsShift table.entry.now frame.entry.now theirs.knows.seats (r.0, r.1.items)) }
        { work(alloc, frame, table, theirs, gate) },
        || -> Result<(ClaimSeat, Vec<FrameRow<A>, A>), AllocError>
            requires { IsSync R.row × IsSync G.row × IsSync A.row × IsSend A.row × Frees A.Allocator A.dealloc_token × IsFresh table.now frame.now seat × (0 < others) × (others ≤ seat.knows.seats) }
            ensures { IfOk result (λ r. IsShift table.entry.now frame.entry.now seat.knows.seats (r.0, r.1.items)) }
        { make_rows(rt, alloc, frame, table, seat, others, gate) },
    );
    let (theirs, mut more) = one?;
    let (mut seat, mut rows) = rest?;
    join(table, &mut seat, theirs);
    rows.append(&mut more)?;
    Ok((seat, rows))
}

/// Draws numbers and makes their rows until a number is drawn that no row has.
fn work<G: Gate, A: Allocator + Copy>(
    alloc: A,
    frame: &Frame<A>,
    table: &ClaimTable<A>,
    mut seat: ClaimSeat,
    gate: &G,
) -> Result<(ClaimSeat, Vec<FrameRow<A>, A>), AllocError>
    requires fresh { IsFresh table.now frame.now seat }
    requires seats { 0 < seat.knows.seats }
    ensures { IfOk result (λ r. IsShift table.now frame.now seat.knows.seats (r.0, r.1.items)) }
{
    let mut rows = Vec::new(alloc);
    let mut low = 0;
    loop {
        let n = claim(table, &mut seat);
        if n >= frame.rows() as u64 {
            return Ok((seat, rows));
        }
        gate.before(WorkItem::Row(n as usize));
        rows.push(frame.row(n as usize)?)?;
        gate.after(WorkItem::Row(n as usize));
        low = n + 1;
    }
}
