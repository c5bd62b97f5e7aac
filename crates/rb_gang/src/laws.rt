//! How numbers are drawn: each once, none left out, over all threads.
ghost use Rattle.std.specs.Prelude.{◌≡◌, ◌+◌, ◌-◌, ◌<◌, [], ◌++◌, ℕ};
ghost use Rattle.rb_gang.specs.Numbers.{times, once_below};
ghost use Rattle.rb_gang.specs.Claims.{drawn, drew, late};

use crate::table::{ClaimSeat, ClaimTable, Draws, Looks, OneSeat};
use std::alloc::Allocator;

/// Draws the next number: one `fetch_add` of 1 on word 0. The seat is of this table and has drawn
/// no number that isn't below the row count. The number goes to the end of what this seat drew, and
/// is above all of it.
pub fn claim<A: Allocator>(table: &ClaimTable<A>, seat: &mut ClaimSeat) -> u64
    requires table { seat.old.table ≡ table.now.0 }
    requires live { 0 < seat.old.knows.seats }
    requires none_late { late seat.old.knows ≡ 0 }
    ensures table { seat.new.table ≡ table.now.0 }
    ensures drawn { seat.new.knows ≡ drew seat.old.knows result }
    ensures above { (x : ℕ) → 0 < times x seat.old.knows.numbers → x < result }
{
    table.words.shared.fetch_add::<Draws>(&mut seat.seat, 0, 1)
}

/// Takes one seat, which has drawn nothing, off a seat that stands for several.
pub fn split_off<A: Allocator>(table: &ClaimTable<A>, seat: &mut ClaimSeat) -> ClaimSeat
    requires table { seat.old.table ≡ table.now.0 }
    requires several { 1 < seat.old.knows.seats }
    requires room { late seat.old.knows < seat.old.knows.seats }
    ensures table { seat.new.table ≡ table.now.0 }
    ensures new_table { result.table ≡ table.now.0 }
    ensures old { seat.new.knows ≡ drawn seat.old.knows.rows (seat.old.knows.seats - 1) seat.old.knows.numbers }
    ensures new { result.knows ≡ drawn seat.old.knows.rows 1 [] }
{
    ClaimSeat {
        seat: table.words.shared.split_seat::<OneSeat>(&mut seat.seat),
    }
}

/// Puts the seats of another, and what it drew, to this one.
pub fn join<A: Allocator>(table: &ClaimTable<A>, seat: &mut ClaimSeat, other: ClaimSeat)
    requires table { seat.old.table ≡ table.now.0 }
    requires other { other.table ≡ table.now.0 }
    requires live { 0 < seat.old.knows.seats }
    ensures table { seat.new.table ≡ table.now.0 }
    ensures both { seat.new.knows ≡ drawn seat.old.knows.rows (seat.old.knows.seats + other.knows.seats) (seat.old.knows.numbers ++ other.knows.numbers) }
{
    let ClaimSeat { seat: theirs } = other;
    table
        .words
        .shared
        .join_seat::<OneSeat>(&mut seat.seat, theirs);
}

/// Word 0, the count of the numbers drawn. The seat that stands for all 64 knows them: they are the
/// numbers below the count, each once.
pub fn count<A: Allocator>(table: &ClaimTable<A>, seat: &mut ClaimSeat) -> u64
    requires table { seat.old.table ≡ table.now.0 }
    requires all { seat.old.knows.seats ≡ 64 }
    ensures same { seat.new ≡ seat.old }
    ensures once { (x : ℕ) → times x seat.old.knows.numbers ≡ once_below x result }
{
    table.words.shared.load::<Looks>(&mut seat.seat, 0)
}
