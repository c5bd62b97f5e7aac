//! The jobs of a run, and what is called round each of them.

/// A part of the packet messages that a path owes, each of which is scanned by itself.
#[derive(Clone, Copy, PartialEq, Eq)]
pub enum Part {
    /// The receives.
    Packets,
    /// The acknowledgements and the timeouts.
    Channel,
}

/// A job of a run. Objects are named by their numbers in a script's order, from 0.
#[derive(Clone, Copy, PartialEq, Eq)]
pub enum WorkItem {
    /// The row of this number in a step table is made.
    Row(usize),
    /// A part of a path is scanned.
    Scan(usize, Part),
    /// A client is planned.
    Plan(usize),
    /// A worker's plan for a client was handed over, or the calling thread's own was taken in.
    Taken(usize),
}

/// Whoever does a job calls `before` as it begins and `after` as it ends. A call may wait: tests hold
/// threads back by it, and the program shows its progress by it. Nothing that is planned depends on it.
pub trait Gate {
    fn before(&self, item: WorkItem);

    fn after(&self, item: WorkItem);
}

/// A gate that does nothing.
#[derive(Clone, Copy, PartialEq, Eq)]
pub struct OpenGate;

impl Gate for OpenGate {
    fn before(&self, _item: WorkItem) {}

    fn after(&self, _item: WorkItem) {}
}
