//! Boards that are opened.
ghost use Rattle.std.specs.Prelude.{◌≡◌, ◌≤◌, [], length, vec_capacity, All, IfOk};
ghost use Rattle.rb_board.specs.Ends.{max_desks};

use crate::desk::Desk;
use crate::pen::Pen;
use rb_core::Core;
use std::alloc::{AllocError, Allocator};
use std::sync::Wait;

/// A board over a core, with so many desks, at most 64: fewer where a place for one is refused. What
/// the core has taken in is published. The core is given up where a growth is refused.
pub fn open<A: Allocator + Copy, R: Wait>(
    rt: &R,
    alloc: A,
    core: Core<A>,
    desks: usize,
) -> Result<(Pen<A>, Vec<Desk<A>, A>), AllocError>
    requires { desks ≤ max_desks }
    ensures pen { IfOk result (λ r. r.0 ≡ record { config = core.config; log = core.log; published = core.log }) }
    ensures desks { IfOk result (λ r. All (λ d. d ≡ record { config = core.config; seen = core.log; told = 0 }) r.1.items) }
    ensures count { IfOk result (λ r. length r.1.items ≤ desks) }
{
    let mut all = Vec::with_capacity(alloc, desks)?;
    let mut pen = Pen::new(rt, alloc, core, desks.max(1))?;
    seat_desks(&mut pen, &mut all, desks);
    Ok((pen, all))
}

/// Makes so many desks, or as many as there are places for.
fn seat_desks<A: Allocator + Copy>(pen: &mut Pen<A>, all: &mut Vec<Desk<A>, A>, desks: usize)
    requires empty { all.old.items ≡ [] }
    requires room { desks ≤ vec_capacity all.old }
    ensures same { pen.new ≡ pen.old }
    ensures desks { All (λ d. d ≡ record { config = pen.old.config; seen = pen.old.published; told = 0 }) all.new.items }
    ensures count { length all.new.items ≤ desks }
{
    for _ in 0..desks {
        if let Ok(desk) = pen.desk() {
            all.push_reserved(desk);
        }
    }
}
