//! What workers are told to do.
use crate::note::Note;
use crossbeam_utils::sync::Parker;
use rb_base::Part;
use rb_graph::SharedGraph;
use rb_wire::Rx;
use std::alloc::{Allocator, Global};
use std::sync::Wait;

/// What a worker is to do, with the note of what was published before it was told so.
#[derive(Drop)]
pub enum Order<A: Allocator = Global> {
    /// A part of the path at this place is scanned.
    Scan {
        path: usize,
        part: Part,
        note: Note,
    },
    /// The client at this place is planned for, by the table where it is of the client's book.
    Plan {
        client: usize,
        note: Note,
        graph: SharedGraph<A>,
    },
    /// The worker ends.
    Stop,
}

impl<A: Allocator> Order<A> {
    /// The path or the client that the job is of; none where the worker ends.
    pub(crate) fn object(&self) -> Option<usize> {
        match self {
            Order::Scan { path, .. } => Some(*path),
            Order::Plan { client, .. } => Some(*client),
            Order::Stop => None,
        }
    }
}

/// The lane on which orders come, and what the worker sleeps on while it is empty.
#[derive(Drop)]
pub struct Orders<A: Allocator = Global> {
    pub lane: Rx<Order<A>, A>,
    pub parker: Parker<A>,
}

impl<A: Allocator + Copy> Orders<A> {
    /// The oldest order, which it waits for.
    pub(crate) fn next<R: Wait>(&mut self, rt: &R) -> Order<A> {
        for _ in rt.forever() {
            match self.lane.pop() {
                Some(order) => return order,
                None => self.parker.park(rt),
            }
        }
        unreachable!()
    }
}
