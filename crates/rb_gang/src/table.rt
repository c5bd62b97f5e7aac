//! The table from which numbers are drawn.
ghost use Rattle.std.specs.Prelude.{◌≡◌, ◌+◌, ◌-◌, ◌^◌, ◌<◌, ◌++◌, [], IfOk};
ghost use Rattle.rb_gang.specs.Claims.{Claimed, drawn, Drew, Whole};

use atomic_table::{Join, Play, Seat, Split, Table, TableRule};
use std::alloc::{AllocError, Allocator, Global};
use std::collections::LinkedList;
use std::marker::Model;

/// What a seat knows. No value of it is made.
pub struct Drawn {
    /// The row count.
    pub rows: u64,
    /// How many of the 64 seats this one stands for.
    pub seats: u64,
    /// The numbers that it drew, and those of the seats that were joined to it.
    pub numbers: LinkedList<u64>,
}

/// The rule of the table: the numbers drawn over all seats are those below word 0, each once, and
/// each seat drew at most one that isn't below the row count, which is word 1.
pub struct Claims;

impl TableRule<(), Drawn, u64> for Claims {
    ghost holds = { Claimed };

    ghost first = { λ rows. drawn rows 64 [] };
}

/// A table of two words: word 0 counts the numbers that were drawn, word 1 is the row count. A
/// contract sees which table it is, and the row count.
#[derive(Drop)]
pub struct ClaimTable<A: Allocator = Global> {
    pub(crate) words: Table<(), Drawn, u64, Claims, A>,
}

impl<A: Allocator> Model for ClaimTable<A> {
    ghost use Rattle.std.specs.Prelude.{◌≡◌, ℕ};
    ghost use Rattle.std.specs.Coded.{coded×, coded_ℕ};
    ghost use Rattle.atomic_table.specs.Seated.{TableId, table_id_coded};

    ghost Value = { TableId × ℕ };

    ghost coded = { coded× table_id_coded coded_ℕ };

    ghost view = { λ t. (t.words.shared.table_id, t.words.shared.key) };

    ghost invariant = { λ t. t.words.shared.table_id.words ≡ 2 };
}

/// The right to draw, with what was drawn; it takes no memory. A contract sees which table it is of,
/// and what it knows.
#[derive(Drop)]
pub struct ClaimSeat {
    pub(crate) seat: Seat<(), Drawn>,
}

impl Model for ClaimSeat {
    ghost use Rattle.std.specs.Prelude.{◌≡◌, []};
    ghost use Rattle.rb_gang.specs.Claims.{SeatView};
    ghost use Rattle.rb_gang.specs.SeatCode.{seat_code};

    ghost Value = { SeatView };

    ghost coded = { seat_code };

    ghost view = { λ s. record { table = s.seat.table_id; knows = s.seat.me.0 } };

    ghost invariant = { λ s. s.seat.me.1 ≡ [] };
}

/// A number is drawn.
pub(crate) struct Draws;

impl Play<(), Drawn> for Draws {
    ghost then = { λ step before found after. Drew before found after };
}

/// The count is read.
pub(crate) struct Looks;

impl Play<(), Drawn> for Looks {
    ghost then = { λ step before found after. Whole before found after };
}

/// One seat is taken off a seat that stands for several, or seats are put together.
pub(crate) struct OneSeat;

impl Split<Drawn> for OneSeat {
    ghost left = { λ v. drawn v.rows (v.seats - 1) v.numbers };

    ghost right = { λ v. drawn v.rows 1 [] };
}

impl Join<Drawn> for OneSeat {
    ghost both = { λ v w. drawn v.rows (v.seats + w.seats) (v.numbers ++ w.numbers) };

    ghost spent = { drawn 0 0 [] };
}

/// A table from which no number was drawn, and the seat that stands for all 64.
pub fn open<A: Allocator>(alloc: A, rows: u64) -> Result<(ClaimTable<A>, ClaimSeat), AllocError>
    requires { rows < 2 ^ 63 }
    ensures rows { IfOk result (λ r. r.0.1 ≡ rows) }
    ensures table { IfOk result (λ r. r.1.table ≡ r.0.0) }
    ensures seat { IfOk result (λ r. r.1.knows ≡ drawn rows 64 []) }
{
    let (words, seat) = Table::of_words(alloc, &[0, rows], &rows)?;
    Ok((ClaimTable { words }, ClaimSeat { seat }))
}
