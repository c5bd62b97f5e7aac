//! Rows that are put together to a table.
ghost use Rattle.std.specs.Prelude.{◌≡◌, ◌≤◌, ℕ, [], All, IfOk, IfErr, IfSome, IfNone, OnOk, MatchOption, map, length, vec_len, vec_capacity};
ghost use Rattle.std.specs.List.Sorted.{IsPermutation};
ghost use Rattle.rb_graph.specs.Frame.{IsRowOf, IsWhole, IsFirstTwice, IsFirstMissing, made};
ghost use Rattle.rb_graph.specs.TableError.{Explains};
ghost use Rattle.rb_graph.specs.Ordered.{AreOrdered, AreBelow, AreInPlace};

use crate::error::TableError;
use crate::frame::Frame;
use crate::frame_row::FrameRow;
use crate::graph::Graph;
use crate::lanes::Lanes;
use crate::stored_row::StoredRow;
use std::alloc::{Allocator, Global};

impl<A: Allocator + Copy> Frame<A> {
    /// The table of these rows, in whatever order they are given, where each row of the frame is among
    /// them once. Else the frame and the rows, now by rising number, are handed back with the first
    /// cause that applies: `RowTwice` with the least number that two rows have, `RowMissing` with the
    /// least number that no row has, `NoMemory` where there is no room for the table's list of rows.
    /// Rows are moved, and none is summed anew.
    pub fn finish(
        self,
        mut rows: Vec<FrameRow<A>, A>,
    ) -> Result<Graph<A>, (Frame<A>, Vec<FrameRow<A>, A>, TableError)>
        requires { All (IsRowOf self) rows.items }
        ensures table { IfOk result (λ graph. graph ≡ self) }
        ensures whole { OnOk result (IsWhole (length self.headers) rows.items) }
        ensures frame { IfErr result (λ e. e.0 ≡ self) }
        ensures rows { IfErr result (λ e. IsPermutation rows.items e.1.items) }
        ensures cause { IfErr result (λ e. Explains (length self.headers) rows.items e.2) }
    {
        sort_by_number(&mut rows);
        if let Some(cause) = flaw(rows.as_slice(), self.rows()) {
            return Err((self, rows, cause));
        }
        let Ok(kept) = Vec::with_capacity(*rows.allocator(), rows.len()) else {
            return Err((self, rows, TableError::NoMemory));
        };
        let Frame {
            book,
            next_places,
            lowest,
            columns,
            tallies,
        } = self;
        Ok(Graph {
            book,
            next_places,
            lowest,
            lanes: Some(Lanes { columns, tallies }),
            rows: kept_in_order(rows, kept),
        })
    }
}

/// Sorts by rising number.
fn sort_by_number<A: Allocator>(rows: &mut Vec<FrameRow<A>, A>)
    ensures same { IsPermutation rows.old.items rows.new.items }
    ensures ordered { AreOrdered rows.new.items }
{
    rows.sort_unstable_by_key(
        |row: &FrameRow<A>| -> usize
            ensures { result ≡ row.now.number }
        { row.number() },
    );
}

/// Why rows by rising number aren't so many, each once.
fn flaw<A: Allocator>(rows: &[FrameRow<A>], total: usize) -> Option<TableError>
    requires ordered { AreOrdered rows.now }
    requires below { AreBelow total rows.now }
    ensures cause { IfSome result (Explains total rows.now) }
    ensures whole { IfNone result (IsWhole total rows.now) }
    ensures in_place { IfNone result (AreInPlace total rows.now) }
{
    if let Some(n) = first_twice(rows) {
        return Some(TableError::RowTwice(n));
    }
    let n = first_missing(rows, total)?;
    Some(TableError::RowMissing(n))
}

/// The least number that two of the rows have.
fn first_twice<A: Allocator>(rows: &[FrameRow<A>]) -> Option<usize>
    requires { AreOrdered rows.now }
    ensures { MatchOption result ((m : ℕ) → made m rows.now ≤ 1) (IsFirstTwice rows.now) }
{
    for place in 1..rows.len() {
        let number = rows[place].number();
        if rows[place - 1].number() == number {
            return Some(number);
        }
    }
    None
}

/// The least number below a total that none of the rows has.
fn first_missing<A: Allocator>(rows: &[FrameRow<A>], total: usize) -> Option<usize>
    requires ordered { AreOrdered rows.now }
    requires below { AreBelow total rows.now }
    requires once { (m : ℕ) → made m rows.now ≤ 1 }
    ensures missing { IfSome result (IsFirstMissing total rows.now) }
    ensures whole { IfNone result (IsWhole total rows.now) }
    ensures in_place { IfNone result (AreInPlace total rows.now) }
{
    for place in 0..total {
        if rows.len() <= place {
            return Some(place);
        }
        let number = rows[place].number();
        if number != place {
            return Some(place);
        }
    }
    None
}

/// The stored rows of these, in room that was made for them.
fn kept_in_order<A: Allocator>(
    rows: Vec<FrameRow<A>, A>,
    room: Vec<StoredRow<A>, A>,
) -> Vec<StoredRow<A>, A>
    requires empty { room.items ≡ [] }
    requires room { vec_len rows ≤ vec_capacity room }
    ensures { result.items ≡ map (λ row. row.kept) rows.items }
{
    let mut kept = room;
    for row in rows {
        let Ok(()) = kept.push(row.into_kept()) else {
            unreachable!()
        };
    }
    kept
}
