//! The two ends of a lane, and the token of an end that has finished.
ghost use Rattle.std.specs.Prelude.{◌+◌, ◌≤◌, length};
ghost use Rattle.rtrb.specs.Ring.{sent, known_free, producer_capacity};

use rtrb::{Consumer, Producer};
use std::alloc::{Allocator, Global};

/// The end that pushes. It may move to another thread.
#[derive(Drop)]
pub struct Tx<T: Drop, A: Allocator = Global> {
    pub(crate) producer: Producer<T, A>,
    // A slot that isn't known to be free was used.
    ghost room: { producer_capacity producer ≤ known_free producer + length (sent producer) },
}

/// The end that pops. It may move to another thread.
#[derive(Drop)]
pub struct Rx<T: Drop, A: Allocator = Global> {
    pub(crate) consumer: Consumer<T, A>,
    pub(crate) alloc: A,
}

/// What the pushing end leaves when it has finished: it shows all that was sent.
#[derive(Drop)]
pub struct Finished<T: Drop, A: Allocator = Global> {
    pub(crate) mark: rtrb::Finished<T, A>,
}
