//! The paths of a client.
ghost use Rattle.std.specs.Prelude.{◌≡◌, ◌↔◌, IsTrue, IfOk};
ghost use Rattle.std.specs.Cmp.Lexicographic.{pointwise};
ghost use Rattle.rb_plan_client.specs.Same.{same_packet_message, same_path_task};

use rb_scan::{Order, PacketMsg};
use rb_script_types::{PathGas, Waits};
use std::alloc::{AllocError, Allocator, Global};
use std::marker::Model;

/// A path as one of its clients has it: its place in the script, in which order its packets are
/// received (ICS 4), the gas of its messages, how long they may wait, and the messages that are owed to
/// that client.
#[derive(Drop)]
pub struct PathTask<A: Allocator = Global> {
    path: usize,
    order: Order,
    gas: PathGas,
    waits: Waits,
    owed: Vec<PacketMsg, A>,
}

impl<A: Allocator> Model for PathTask<A> {
    ghost use Rattle.rb_plan_client.specs.Task as tasks;

    ghost Value = { tasks.PathTask };

    ghost view = { λ p. record { path = p.path; order = p.order; gas = p.gas; waits = p.waits; owed = p.owed.items } };
}

impl<A: Allocator> PathTask<A> {
    /// The path at a place of the script, with the messages that are owed to one of its clients, in
    /// the order in which they are to be sent.
    pub fn new(
        path: usize,
        order: Order,
        gas: PathGas,
        waits: Waits,
        owed: Vec<PacketMsg, A>,
    ) -> PathTask<A>
        ensures { result ≡ record { path = path; order = order; gas = gas; waits = waits; owed = owed.items } }
    {
        PathTask {
            path,
            order,
            gas,
            waits,
            owed,
        }
    }

    /// The path, by its place in the script.
    pub fn path(&self) -> usize
        ensures { result ≡ self.now.path }
    {
        self.path
    }

    /// In which order the path's packets are received (ICS 4).
    pub fn order(&self) -> Order
        ensures { result ≡ self.now.order }
    {
        self.order
    }

    /// The gas of the path's messages, by their kind.
    pub fn gas(&self) -> PathGas
        ensures { result ≡ self.now.gas }
    {
        self.gas
    }

    /// How long the path's messages may wait, by their kind.
    pub fn waits(&self) -> Waits
        ensures { result ≡ self.now.waits }
    {
        self.waits
    }

    /// The messages that are owed to the client, in the order in which they are to be sent.
    pub fn owed(&self) -> &[PacketMsg]
        ensures { result.now ≡ self.now.owed }
    {
        self.owed.as_slice()
    }
}

impl<A: Allocator> PathTask<A> {
    fn is_same(&self, other: &PathTask<A>) -> bool
        ensures { result ≡ same_path_task self.now other.now }
    {
        self.path == other.path
            && self.order == other.order
            && self.gas == other.gas
            && self.waits == other.waits
            && same_messages(self.owed.as_slice(), other.owed.as_slice())
    }
}

impl<A: Allocator> PartialEq for PathTask<A> {
    ghost use Rattle.rb_plan_client.specs.Same.{same_path_task, same_path_task-laws};

    ghost eq = { same_path_task };

    ghost laws = { same_path_task-laws };

    /// Whether two paths have the same place and the same content.
    fn eq(&self, other: &PathTask<A>) -> bool
        ensures value { result ≡ same_path_task self.now other.now }
        ensures equal { IsTrue result ↔ (self.now ≡ other.now) }
    {
        self.is_same(other)
    }
}

impl<A: Allocator> Eq for PathTask<A> {
    ghost use Rattle.rb_plan_client.specs.Same.{same_path_task-equiv};

    ghost laws = { same_path_task-equiv };
}

/// Whether two lists have the same messages in the same order.
pub fn same_messages(messages: &[PacketMsg], others: &[PacketMsg]) -> bool
    ensures { result ≡ pointwise same_packet_message messages.now others.now }
{
    messages == others
}

impl<A: Allocator + Copy> PathTask<A> {
    /// An equal path, on the same allocator. `AllocError` where the copy of the messages is refused
    /// memory.
    pub fn copy(&self) -> Result<PathTask<A>, AllocError>
        ensures { IfOk result (λ copy. copy ≡ self.now) }
    {
        Ok(PathTask {
            path: self.path,
            order: self.order,
            gas: self.gas,
            waits: self.waits,
            owed: Vec::from_slice(*self.owed.allocator(), self.owed.as_slice())?,
        })
    }
}
