//! The checks of a step that need no set: by heights and times, and by a power that was summed.
ghost use Rattle.std.specs.Prelude.{◌≡◌, ◌+◌, ◌≤◌, ◌↔◌, IsTrue, is_none};
ghost use Rattle.rb_step.specs.Answer.{is_trusted, times_fault_between};

use crate::verdict::Reason;
use rb_base::{Height, Options, Window};
use rb_book::{Header, Record};
use std::alloc::Allocator;

/// The first check of heights and times that fails for a step from the record at a trusted height
/// to a header: expiry is tested at the window's last moment, the future at its first.
pub fn times_fault<A: Allocator>(
    options: &Options,
    trusted_height: Height,
    trusted: &Record,
    header: &Header<A>,
    window: &Window,
) -> Option<Reason>
    ensures fault { result ≡ times_fault_between options.now window.now trusted_height trusted.now header.now }
    ensures ordered { window.now.from ≤ window.now.until }
{
    let (first, last) = (window.from().nanoseconds(), window.until().nanoseconds());
    let trusted_time = trusted.time().nanoseconds();
    let time = header.record().time().nanoseconds();
    if header.height() <= trusted_height {
        return Some(Reason::HeightOrder);
    }
    if trusted_time + u128::from(options.period().nanoseconds()) <= last {
        return Some(Reason::Expired);
    }
    if time <= trusted_time {
        return Some(Reason::TimeNotLater);
    }
    if time >= first + u128::from(options.drift()) {
        return Some(Reason::FromFuture);
    }
    None
}

/// Whether heights and times allow the step, at every moment of the window.
pub fn times_allow<A: Allocator>(
    options: &Options,
    trusted_height: Height,
    trusted: &Record,
    header: &Header<A>,
    window: &Window,
) -> bool
    ensures { result ≡ is_none (times_fault_between options.now window.now trusted_height trusted.now header.now) }
{
    times_fault(options, trusted_height, trusted, header, window).is_none()
}

/// Whether the header comes right after the trusted height.
pub fn is_adjacent<A: Allocator>(trusted_height: Height, header: &Header<A>) -> bool
    ensures { IsTrue result ↔ (header.now.height ≡ trusted_height + 1) }
{
    header.height().get() == trusted_height.get() + 1
}

/// Whether the header's own set is trusted on the word of the record at a trusted height. The own
/// set of an adjacent header must be the one that the record names (CometBFT light client,
/// `VerifyAdjacent`); of another header, `signed` power of `total` in the named set must be more
/// than the trust level (`VerifyNonAdjacent`).
pub fn is_trusted<A: Allocator>(
    options: &Options,
    trusted_height: Height,
    trusted: &Record,
    header: &Header<A>,
    signed: u64,
    total: u64,
) -> bool
    ensures { result ≡ is_trusted options.now trusted_height trusted.now header.now signed total }
{
    if is_adjacent(trusted_height, header) {
        header.set_hash() == trusted.next()
    } else {
        options.trust().is_exceeded_by(signed, total)
    }
}
