//! Which of the messages that a path owes are ready at a height.
ghost use Rattle.std.specs.Prelude.{◌≡◌};
ghost use Rattle.std.specs.Option.{option_map};
ghost use Rattle.rb_scan.specs.Owed.{run_end, same_kind};
ghost use Rattle.rb_explain.specs.Ends.{ends_of, is_before, is_before_end};

use rb_base::Height;
use rb_scan::{Kind, Order, PacketMsg};

/// How far a list is ready at a height: where its runs of receives and of acknowledgements end, were it ORDERED.
#[derive(Drop)]
pub(crate) struct Ends {
    reach: Height,
    receives: usize,
    acknowledgements: usize,
}

/// Whether two kinds are one.
fn is_kind(kind: Kind, other: Kind) -> bool
    ensures { result ≡ same_kind kind other }
{
    kind == other
}

/// The place of the first message of a kind that is out of reach, or the list's end.
fn run_end(messages: &[PacketMsg], kind: Kind, reach: Height) -> usize
    ensures { result ≡ run_end reach kind messages.now }
{
    messages
        .iter()
        .take_while(|message| !(is_kind(message.kind, kind) && reach < message.floor))
        .count()
}

/// How far a list is ready at a height, if there is one.
pub(crate) fn ends_at(messages: &[PacketMsg], reach: &Option<Height>) -> Option<Ends>
    ensures { result ≡ option_map (ends_of messages.now) reach.now }
{
    match *reach {
        Some(reach) => Some(Ends {
            reach,
            receives: run_end(messages, Kind::Receive, reach),
            acknowledgements: run_end(messages, Kind::Acknowledge, reach),
        }),
        None => None,
    }
}

impl Ends {
    /// Whether the message at a place stands before the end.
    fn has(&self, order: Order, place: usize, message: &PacketMsg) -> bool
        ensures { result ≡ is_before_end self.now order place message.now }
    {
        match (order, message.kind) {
            (Order::Ordered, Kind::Receive) => place < self.receives,
            (Order::Ordered, Kind::Acknowledge) => place < self.acknowledgements,
            _ => message.floor <= self.reach,
        }
    }
}

/// Whether the message at a place of a list is ready; none is where there is no height.
pub(crate) fn is_ready(ends: &Option<Ends>, order: Order, place: usize, message: &PacketMsg) -> bool
    ensures { result ≡ is_before ends.now order place message.now }
{
    match ends {
        Some(ends) => ends.has(order, place, message),
        None => false,
    }
}
