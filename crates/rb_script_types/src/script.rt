//! Scripts: what is run, turn by turn.

use crate::config::Config;
use crate::goal::Goal;
use crate::observation::Observation;
use rb_base::Window;
use std::alloc::{Allocator, Global};

/// The chains, clients and paths, and what happens to them, turn by turn.
#[derive(Drop)]
pub struct Script<A: Allocator = Global> {
    pub config: Config<A>,
    pub turns: Vec<Turn<A>, A>,
}

/// A turn: the window in which updates may be submitted, the windows of hosts that have one of their own, what is
/// asked, what was seen before, what was taken of the batches after, and whether every batch that is open then was
/// taken whole.
#[derive(Drop)]
pub struct Turn<A: Allocator = Global> {
    pub window: Window,
    pub windows: Vec<HostWindow, A>,
    pub goals: Vec<Asked, A>,
    pub events: Vec<Observation<A>, A>,
    pub settlements: Vec<Settlement, A>,
    pub taken: bool,
}

/// The window of the clients on a host, by its place among the chains.
#[derive(Clone, Copy, PartialEq, Eq)]
pub struct HostWindow {
    pub host: usize,
    pub window: Window,
}

/// What is asked of a client.
#[derive(Clone, Copy, PartialEq, Eq)]
pub struct Asked {
    pub client: usize,
    pub goal: Goal,
}

/// That so many transactions of a client's batch, by its number, were taken.
#[derive(Clone, Copy, PartialEq, Eq)]
pub struct Settlement {
    pub client: usize,
    pub batch: u64,
    pub done: u64,
}
