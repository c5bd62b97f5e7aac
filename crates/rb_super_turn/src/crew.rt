//! Who does the jobs.
ghost use Rattle.std.specs.Prelude.{◌≡◌, ◌≤◌, IfOk};
ghost use denote.Param.Send.{Frees};

use rb_base::{Gate, WorkItem};
use rb_book::ChainBook;
use rb_gang::build;
use rb_graph::Graph;
use std::alloc::{AllocError, Allocator};
use std::marker::Model;
use std::thread::Threads;

/// What starts threads, by how many of them, at most 64, the rows of a step table are made, and the gate
/// that is called round each job. With 0 or 1 the calling thread makes the rows. Who scans and plans is
/// not its matter. A contract sees how many there are.
#[derive(Drop)]
pub struct Crew<'a, R, G> {
    rt: &'a R,
    workers: usize,
    gate: &'a G,
}

impl<'a, R, G> Model for Crew<'a, R, G> {
    ghost use Rattle.std.specs.Prelude.{ℕ, ◌≤◌};

    ghost Value = { ℕ };

    ghost view = { λ c. c.workers };

    ghost invariant = { λ c. c.workers ≤ 64 };
}

impl<'a, R: Threads + Sync, G: Gate + Sync> Crew<'a, R, G> {
    /// So many workers with a gate.
    pub fn new(rt: &'a R, workers: usize, gate: &'a G) -> Crew<'a, R, G>
        requires { workers ≤ 64 }
        ensures { result ≡ workers }
    {
        Crew { rt, workers, gate }
    }

    /// What starts threads.
    pub fn rt(&self) -> &R {
        self.rt
    }

    /// Tells the gate that a job begins.
    pub(crate) fn before(&self, item: WorkItem) {
        self.gate.before(item);
    }

    /// Tells the gate that a job ended.
    pub(crate) fn after(&self, item: WorkItem) {
        self.gate.after(item);
    }

    /// The table of a book.
    pub(crate) fn table<A: Allocator + Copy + Send + Sync>(
        &self,
        alloc: A,
        book: ChainBook<A>,
    ) -> Result<Graph<A>, AllocError>
        requires { Frees A.Allocator A.dealloc_token }
        ensures { IfOk result (λ graph. graph ≡ book) }
    {
        if self.workers <= 1 {
            return Graph::from_book(alloc, book);
        }
        build(self.rt, alloc, book, self.workers, self.gate)
    }
}
