//! Which of the messages that a path owes can't go, and why.
ghost use Rattle.std.specs.Prelude.{◌≡◌};
ghost use Rattle.rb_scan.specs.Going.{can_go, going_end};
ghost use Rattle.rb_scan.specs.Owed.{same_kind};
ghost use Rattle.rb_explain.specs.Stays.{going_until, is_behind, stay_among, stay_in, stays_by, stays_of};

use rb_plan_client::{JobView, PathTask, bars_of};
use rb_scan::{Bars, Kind, Order, PacketMsg};
use rb_script_types::RefreshTo;
use std::alloc::Allocator;

/// Why a message of a client that is refreshed by gain can't go.
#[derive(Clone, Copy, PartialEq, Eq)]
pub enum Stay {
    /// It is over the gas limit alone.
    TooBig,
    /// It is a receive whose timeout time comes by the end of the window.
    Late,
    /// One of its kind stands before it on an ORDERED path that can't go.
    Behind,
}

/// What keeps messages of a path's list: what is over the gas limit, the end of the window, and where the messages of
/// each kind end that go, were the list ORDERED.
#[derive(Clone, Copy)]
pub(crate) struct Stays {
    bars: Bars,
    receives: usize,
    acknowledgements: usize,
    timeouts: usize,
}

/// Whether two kinds are one.
fn is_kind(kind: Kind, other: Kind) -> bool
    ensures { result ≡ same_kind kind other }
{
    kind == other
}

/// The place of the first message of a kind that can't go, or the list's end.
fn going_end(messages: &[PacketMsg], kind: Kind, bars: &Bars) -> usize
    ensures { result ≡ going_end (can_go bars.now) kind messages.now }
{
    messages
        .iter()
        .take_while(|message| !(is_kind(message.kind, kind) && !bars.can_go(message)))
        .count()
}

impl Stays {
    fn of(messages: &[PacketMsg], bars: &Bars) -> Stays
        ensures { result ≡ stays_of messages.now bars.now }
    {
        Stays {
            bars: *bars,
            receives: going_end(messages, Kind::Receive, bars),
            acknowledgements: going_end(messages, Kind::Acknowledge, bars),
            timeouts: going_end(messages, Kind::Timeout, bars),
        }
    }

    /// Where the messages of a kind end that go, were the list ORDERED.
    fn going_until(&self, kind: Kind) -> usize
        ensures { result ≡ going_until self.now kind }
    {
        match kind {
            Kind::Receive => self.receives,
            Kind::Acknowledge => self.acknowledgements,
            Kind::Timeout => self.timeouts,
        }
    }

    /// Whether a message of a kind, by its place, stands behind one that can't go.
    fn is_behind(&self, order: Order, place: usize, kind: Kind) -> bool
        ensures { result ≡ is_behind self.now order place kind }
    {
        match order {
            Order::Unordered => false,
            Order::Ordered => place >= self.going_until(kind),
        }
    }

    /// Why the message at a place can't go, if it can't.
    fn stay(&self, order: Order, place: usize, message: &PacketMsg) -> Option<Stay>
        ensures { result ≡ stay_in self.now order place message.now }
    {
        if self.bars.is_barred(message.kind) {
            return Some(Stay::TooBig);
        }
        if !self.bars.can_go(message) {
            return Some(Stay::Late);
        }
        if self.is_behind(order, place, message.kind) {
            Some(Stay::Behind)
        } else {
            None
        }
    }
}

/// What keeps messages of a path; nothing does of a client that is refreshed by age.
pub(crate) fn stays_on<A: Allocator + Copy>(job: &JobView<A>, path: &PathTask<A>) -> Option<Stays>
    ensures { result ≡ stays_by job.now.task path.now job.now.task.config.refresh_to }
{
    match job.config().refresh_to {
        RefreshTo::Lowest | RefreshTo::Highest => None,
        RefreshTo::Newer => Some(Stays::of(path.owed(), &bars_of(job, path))),
    }
}

/// Why the message at a place of a list can't go, if it can't.
pub(crate) fn stay_of(
    stays: &Option<Stays>,
    order: Order,
    place: usize,
    message: &PacketMsg,
) -> Option<Stay>
    ensures { result ≡ stay_among stays.now order place message.now }
{
    match stays {
        Some(stays) => stays.stay(order, place, message),
        None => None,
    }
}
