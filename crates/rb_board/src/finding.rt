//! What workers find.
use crossbeam_utils::sync::Unparker;
use rb_base::WorkItem;
use rb_core_model::Scan;
use rb_plan_client::Draft;
use rb_wire::{LaneFull, Tx};
use std::alloc::{Allocator, Global};
use std::sync::Wait;
use std::thread;

/// What a worker has found. A scan and a draft are right for the view that they carry, whatever view
/// that is.
#[derive(Drop)]
pub enum Finding<A: Allocator = Global> {
    /// What a part of the path at this place owes.
    Scanned { path: usize, scan: Scan<A> },
    /// What is planned for a client.
    Planned(Draft<A>),
    /// The job was not done, since a growth was refused in it.
    Short(WorkItem),
    /// The job was not done, since the desk didn't show what it is of.
    Unseen(WorkItem),
}

/// The lane on which findings go, and what wakes the one that takes them; also once the lane was let go.
pub struct Findings<A: Allocator = Global> {
    pub lane: Tx<Finding<A>, A>,
    pub unparker: Unparker<A>,
}

impl<A: Allocator> Drop for Findings<A> {
    fn drop(self) {
        let Findings { lane, unparker } = self;
        drop(lane);
        unparker.unpark();
    }
}

impl<A: Allocator> Findings<A> {
    /// Hands over what was found; it waits while the lane has no room.
    pub(crate) fn hand_over<R: Wait>(&mut self, rt: &R, finding: Finding<A>) {
        let mut finding = finding;
        for _ in rt.forever() {
            match self.lane.push(finding) {
                Ok(()) => break,
                Err(LaneFull { item }) => finding = item,
            }
            thread::yield_now();
        }
        self.unparker.unpark();
    }
}
