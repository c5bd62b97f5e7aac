//! The messages that can go.
ghost use Rattle.std.specs.Prelude.{◌≡◌, IfOk};
ghost use Rattle.rb_scan.specs.Going.{is_barred, is_late, can_go, going_end, going};
ghost use Rattle.rb_scan.specs.GoingEnds.{going_ends_of, goes};

use crate::message::{Kind, PacketMsg};
use crate::path::Order;
use rb_base::Moment;
use std::alloc::{AllocError, Allocator};

/// What keeps messages of a path from going: of which kinds each is over the gas limit alone, and the end of
/// the window, by which a receive's timeout may have come.
#[derive(Clone, Copy)]
pub struct Bars {
    pub receive: bool,
    pub acknowledge: bool,
    pub timeout: bool,
    pub until: Moment,
}

impl Bars {
    /// Whether no message of this kind can go.
    pub fn is_barred(&self, kind: Kind) -> bool
        ensures { result ≡ is_barred self.now kind }
    {
        match kind {
            Kind::Receive => self.receive,
            Kind::Acknowledge => self.acknowledge,
            Kind::Timeout => self.timeout,
        }
    }

    /// Whether a message is a receive whose timeout time comes by the end of the window.
    fn is_late(&self, message: &PacketMsg) -> bool
        ensures { result ≡ is_late self.now.until message.now }
    {
        match message.timeout {
            Some(time) => time <= self.until,
            None => false,
        }
    }

    /// Whether a message can go.
    pub fn can_go(&self, message: &PacketMsg) -> bool
        ensures { result ≡ can_go self.now message.now }
    {
        !self.is_barred(message.kind) && !self.is_late(message)
    }
}

/// Which messages of a list go: where those of each kind end, were the list ORDERED.
#[derive(Clone, Copy)]
struct GoingEnds {
    bars: Bars,
    receives: usize,
    acknowledgements: usize,
    timeouts: usize,
}

impl GoingEnds {
    fn new(messages: &[PacketMsg], bars: &Bars) -> GoingEnds
        ensures { result ≡ going_ends_of messages.now bars.now }
    {
        GoingEnds {
            bars: *bars,
            receives: going_end(messages, Kind::Receive, bars),
            acknowledgements: going_end(messages, Kind::Acknowledge, bars),
            timeouts: going_end(messages, Kind::Timeout, bars),
        }
    }

    /// Whether the message at a place goes.
    fn take(&self, order: Order, place: usize, message: &PacketMsg) -> bool
        ensures { result ≡ goes self.now order place message.now }
    {
        match (order, message.kind) {
            (Order::Unordered, _) => self.bars.can_go(message),
            (Order::Ordered, Kind::Receive) => place < self.receives,
            (Order::Ordered, Kind::Acknowledge) => place < self.acknowledgements,
            (Order::Ordered, Kind::Timeout) => place < self.timeouts,
        }
    }
}

/// The place of the first message of a kind that can't go, or the list's end.
fn going_end(messages: &[PacketMsg], kind: Kind, bars: &Bars) -> usize
    ensures { result ≡ going_end (can_go bars.now) kind messages.now }
{
    messages
        .iter()
        .take_while(|message| !(message.kind.is(kind) && !bars.can_go(message)))
        .count()
}

/// The messages of one path's list that can go: those that are within the gas limit, but for receives whose
/// timeout time comes by the end of the window. In an ORDERED list none behind one of its kind that can't.
pub fn going<A: Allocator>(
    alloc: A,
    messages: &[PacketMsg],
    order: Order,
    bars: &Bars,
) -> Result<Vec<PacketMsg, A>, AllocError>
    ensures { IfOk result (λ list. list.items ≡ going order (can_go bars.now) messages.now) }
{
    let ends = GoingEnds::new(messages, bars);
    let mut list = Vec::with_capacity(alloc, messages.len())?;
    for (place, message) in messages.iter().enumerate() {
        if ends.take(order, place, message) {
            list.push(*message)?;
        }
    }
    Ok(list)
}
