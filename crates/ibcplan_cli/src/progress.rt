//! How far a run is, for whoever watches it.
use rb_base::{Gate, WorkItem};
use std::sync::atomic::{AtomicU64, Ordering};

/// After each so many plans it is told how many there are.
const PLANS_TOLD: u64 = 64;

/// Counts the plans that were made: a worker's as it is handed over, the calling thread's as it is taken
/// in. Where standard error is watched it says there how far the run is; short runs say nothing.
#[derive(Drop)]
pub struct Progress<R> {
    rt: R,
    is_watched: bool,
    planned: AtomicU64,
}

impl<R> Progress<R> {
    /// Before the first plan.
    pub fn new(rt: R, is_watched: bool) -> Progress<R> {
        Progress {
            rt,
            is_watched,
            planned: AtomicU64::new(0),
        }
    }
}

impl<R: Eprint> Gate for Progress<R> {
    fn before(&self, _item: WorkItem) {}

    fn after(&self, item: WorkItem) {
        let WorkItem::Taken(_) = item else {
            return;
        };
        let planned = self
            .planned
            .fetch_add(1, Ordering::SeqCst)
            .saturating_add(1);
        if self.is_watched && planned.is_multiple_of(PLANS_TOLD) {
            let _ = eprintln!(self.rt; "plans so far: {planned}");
        }
    }
}
