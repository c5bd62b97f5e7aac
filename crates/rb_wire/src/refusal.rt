//! What the calls on a lane are refused with.
ghost use Rattle.std.specs.Prelude.{◌≡◌};

use crate::ends::{Finished, Rx};
use std::alloc::{Allocator, Global};

/// 901: no slot was known to be free. The item comes back.
#[derive(Drop)]
pub struct LaneFull<T> {
    pub item: T,
}

impl<T> LaneFull<T> {
    /// The number of this refusal.
    pub fn number(&self) -> u16
        ensures { result ≡ 901 }
    {
        901
    }
}

/// A growth was refused. The end and the token come back, so that the call can be made again.
#[derive(Drop)]
pub struct NoMemory<T: Drop, A: Allocator = Global> {
    pub end: Rx<T, A>,
    pub token: Finished<T, A>,
}
