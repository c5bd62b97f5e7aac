//! The owed messages that can be proved already.
ghost use Rattle.std.specs.Prelude.{◌≡◌, false, IfOk};
ghost use Rattle.std.specs.Option.{option_map, option_map_or};
ghost use Rattle.rb_scan.specs.Owed.{ready, ready_beyond, wanted, run_end};
ghost use Rattle.rb_scan.specs.Ends.{ends_of, is_taken};
ghost use Rattle.rb_scan.specs.declared.readiness.Ends as ends;

use crate::message::{Kind, PacketMsg};
use crate::path::Order;
use rb_base::Height;
use std::alloc::{AllocError, Allocator};

/// How far a list is ready at a reach: where its runs of receives and of acknowledgements end, were it
/// ORDERED.
#[derive(Drop)]
struct Ends {
    reach: Height,
    receives: usize,
    acknowledgements: usize,
}

impl Ends {
    fn new(messages: &[PacketMsg], reach: Height) -> Ends
        ensures { result ≡ ends_of messages.now reach }
    {
        Ends {
            reach,
            receives: run_end(messages, Kind::Receive, reach),
            acknowledgements: run_end(messages, Kind::Acknowledge, reach),
        }
    }

    /// Whether the message at a place is ready.
    fn take(&self, order: Order, place: usize, message: &PacketMsg) -> bool
        ensures { result ≡ is_taken self.now order place message.now }
    {
        match (order, message.kind) {
            (Order::Ordered, Kind::Receive) => place < self.receives,
            (Order::Ordered, Kind::Acknowledge) => place < self.acknowledgements,
            _ => message.floor <= self.reach,
        }
    }
}

/// Whether the message at a place is ready at the reach that these ends are of, if there is one.
fn is_near(near: &Option<Ends>, order: Order, place: usize, message: &PacketMsg) -> bool
    ensures { result ≡ option_map_or (λ (ends : ends.Ends). is_taken ends order place message.now) near.now false }
{
    match near {
        Some(ends) => ends.take(order, place, message),
        None => false,
    }
}

/// The messages of one path's list that are ready where `reach` is the greatest height that can
/// be reached: those whose floor is at most that. In an ORDERED list a receive is dropped once an
/// earlier receive was, and so for acknowledgements. With no reach none is ready.
pub fn ready<A: Allocator>(
    alloc: A,
    messages: &[PacketMsg],
    order: Order,
    reach: Option<Height>,
) -> Result<Vec<PacketMsg, A>, AllocError>
    ensures { IfOk result (λ list. list.items ≡ ready messages.now order reach) }
{
    let Some(reach) = reach else {
        return Ok(Vec::new(alloc));
    };
    let ends = Ends::new(messages, reach);
    let mut list = Vec::with_capacity(alloc, messages.len())?;
    for (place, message) in messages.iter().enumerate() {
        if ends.take(order, place, message) {
            list.push(*message)?;
        }
    }
    Ok(list)
}

/// The messages of one path's list that are ready at `reach` and not at `near`, each as `ready` has them.
pub fn ready_beyond<A: Allocator>(
    alloc: A,
    messages: &[PacketMsg],
    order: Order,
    near: Option<Height>,
    reach: Option<Height>,
) -> Result<Vec<PacketMsg, A>, AllocError>
    ensures { IfOk result (λ list. list.items ≡ ready_beyond messages.now order near reach) }
{
    let Some(reach) = reach else {
        return Ok(Vec::new(alloc));
    };
    let ends = Ends::new(messages, reach);
    let near_ends = ends_at(messages, near);
    let mut list = Vec::new(alloc);
    for (place, message) in messages.iter().enumerate() {
        if ends.take(order, place, message) && !is_near(&near_ends, order, place, message) {
            list.push(*message)?;
        }
    }
    Ok(list)
}

/// How far a list is ready at a reach, if there is one.
fn ends_at(messages: &[PacketMsg], reach: Option<Height>) -> Option<Ends>
    ensures { result ≡ option_map (ends_of messages.now) reach }
{
    match reach {
        Some(reach) => Some(Ends::new(messages, reach)),
        None => None,
    }
}

/// The place of the first message of a kind that is out of reach, or the list's end.
fn run_end(messages: &[PacketMsg], kind: Kind, reach: Height) -> usize
    ensures { result ≡ run_end reach kind messages.now }
{
    messages
        .iter()
        .take_while(|message| !(message.kind.is(kind) && reach < message.floor))
        .count()
}

/// The greatest floor of the messages, which is the height that they want; none where there is no
/// message.
pub fn wanted(messages: &[PacketMsg]) -> Option<Height>
    ensures { result ≡ wanted messages.now }
{
    messages.iter().map(|message| message.floor).max()
}
