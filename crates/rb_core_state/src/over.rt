//! The packets at the front of a path that are over: nothing of them can be owed any more.
ghost use Rattle.std.specs.Prelude.{◌≡◌, ◌≤◌, ◌+◌, ◌-◌, ◌<◌, ◌^◌, length};
ghost use Rattle.rb_core_model.specs.Over.{is_over, is_over_at, over_from, slack};

use rb_scan::{Order, Packet, Sequence};

/// How many of the packets that are over stay, the last ones: two chains are observed, and their
/// observations come in any order, so an event of a packet may come after its clearing.
const SLACK: usize = 256;

/// Whether a packet is over on a path of this order: it is cleared, and its receive is finished, too,
/// where the path is ORDERED.
fn is_over(order: Order, packet: &Packet) -> bool
    ensures { result ≡ is_over order packet.now }
{
    match order {
        Order::Unordered => packet.is_cleared(),
        Order::Ordered => packet.is_finished() && packet.is_cleared(),
    }
}

/// Whether a packet has this sequence, which isn't the greatest, and is over.
fn is_over_at(order: Order, sequence: u64, packet: &Packet) -> bool
    ensures { result ≡ is_over_at order (sequence, packet.now) }
{
    packet.sequence().get() == sequence && sequence < Sequence::MAX && is_over(order, packet)
}

/// How many packets at the front are over, one after another from the first sequence on.
fn over_from(order: Order, first: Sequence, packets: &[Packet]) -> usize
    ensures { result ≡ over_from order first packets.now }
{
    let mut next = first.get();
    for (index, packet) in packets.iter().enumerate() {
        if !is_over_at(order, next, packet) {
            return index;
        }
        next += 1;
    }
    packets.len()
}

/// How many packets at the front are forgotten: those that are over, but for the last ones.
pub(crate) fn gone_from(order: Order, first: Sequence, packets: &[Packet]) -> usize
    ensures { result ≡ over_from order first packets.now - slack }
{
    over_from(order, first, packets).saturating_sub(SLACK)
}

/// The first sequence after so many packets at the front, which are over.
pub(crate) fn later(order: Order, first: Sequence, packets: &[Packet], count: usize) -> Sequence
    requires { count ≤ over_from order first packets.now }
    ensures { result ≡ first + count }
{
    Sequence::new(first.get() + count as u64).unwrap()
}
