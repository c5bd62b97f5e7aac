//! What a path's messages are judged by.
ghost use Rattle.std.specs.Prelude.{◌≡◌, ◌↔◌, IsTrue, IfOk};
ghost use Rattle.std.specs.List.Sorted.{IsStrictlyIncreasing};
ghost use Rattle.std.specs.Cmp.Lexicographic.{pointwise};
ghost use Rattle.rb_scan.specs.Path.{IsPath, AreFrom, sequences_of, heights_of, times_of};
ghost use Rattle.rb_scan.specs.Same.{same_packet, same_record};

use crate::packet::Packet;
use crate::sequence::Sequence;
use rb_base::{Height, Moment};
use std::alloc::{AllocError, Allocator, Global};
use std::marker::Model;
use std::sync::Arc;

/// In which order the destination receives the packets of a path (ICS 4, channel ordering).
#[derive(Clone, Copy, PartialEq, Eq)]
pub enum Order {
    /// One after another, by their sequences.
    Ordered,
    /// In any order.
    Unordered,
}

/// What the owners of a path view share.
#[derive(Drop)]
struct Lists<A: Allocator> {
    packets: Vec<Packet, A>,
    destination: Vec<(Height, Moment), A>,
}

/// A path, which is one direction of a channel, as it was observed. Its lists may have several owners.
#[derive(Drop)]
pub struct PathView<A: Allocator = Global> {
    order: Order,
    first: Sequence,
    closed: bool,
    lists: Arc<Lists<A>, A>,
}

impl<A: Allocator> Model for PathView<A> {
    ghost use Rattle.std.specs.Arc.{arc_value};
    ghost use Rattle.rb_scan.specs.Path.{Path, IsPath};

    ghost Value = { Path };

    ghost view = { λ v. record {
      order = v.order;
      first = v.first;
      packets = (arc_value v.lists).packets.items;
      closed = v.closed;
      destination = (arc_value v.lists).destination.items;
    } };

    ghost invariant = { λ v. IsPath (record {
      order = v.order;
      first = v.first;
      packets = (arc_value v.lists).packets.items;
      closed = v.closed;
      destination = (arc_value v.lists).destination.items;
    }) };
}

impl<A: Allocator + Copy> PathView<A> {
    /// The path of these packets, all below `first` being finished and cleared, with the heights
    /// and times of the destination's known records. The sequences rise strictly from `first` on,
    /// and heights and times rise strictly, as `is_path` tells. `AllocError` where memory is refused.
    pub fn new(
        order: Order,
        first: Sequence,
        packets: Vec<Packet, A>,
        closed: bool,
        destination: Vec<(Height, Moment), A>,
    ) -> Result<PathView<A>, AllocError>
        requires sequences { IsStrictlyIncreasing (sequences_of packets.items) }
        requires from_first { AreFrom first packets.items }
        requires heights { IsStrictlyIncreasing (heights_of destination.items) }
        requires times { IsStrictlyIncreasing (times_of destination.items) }
        ensures { IfOk result (λ view. view ≡ record {
          order = order;
          first = first;
          packets = packets.items;
          closed = closed;
          destination = destination.items;
        }) }
    {
        let alloc = *packets.allocator();
        let lists = Lists {
            packets,
            destination,
        };
        Ok(PathView {
            order,
            first,
            closed,
            lists: Arc::new(alloc, lists)?,
        })
    }

    /// The allocator of its lists.
    pub(crate) fn allocator(&self) -> A {
        *self.lists.packets.allocator()
    }

    /// The same view, for one more owner of its lists. `AllocError` where they have as many owners as can be
    /// counted.
    pub fn share(&self) -> Result<PathView<A>, AllocError>
        ensures { IfOk result (λ view. view ≡ self.now) }
    {
        Ok(PathView {
            order: self.order,
            first: self.first,
            closed: self.closed,
            lists: Arc::try_clone(&self.lists)?,
        })
    }
}

impl<A: Allocator> PathView<A> {
    /// In which order its packets are received.
    pub fn order(&self) -> Order
        ensures { result ≡ self.now.order }
    {
        self.order
    }

    /// The sequence below which all packets are finished and cleared.
    pub fn first(&self) -> Sequence
        ensures { result ≡ self.now.first }
    {
        self.first
    }

    /// The packets, by rising sequence.
    pub fn packets(&self) -> &[Packet]
        ensures value { result.now ≡ self.now.packets }
        ensures path { IsPath self.now }
    {
        self.lists.packets.as_slice()
    }

    /// Whether it is closed.
    pub fn is_closed(&self) -> bool
        ensures { result ≡ self.now.closed }
    {
        self.closed
    }

    /// The heights and times of the destination's known records, which rise.
    pub fn destination(&self) -> &[(Height, Moment)]
        ensures value { result.now ≡ self.now.destination }
        ensures path { IsPath self.now }
    {
        self.lists.destination.as_slice()
    }
}

impl<A: Allocator> PartialEq for PathView<A> {
    ghost use Rattle.rb_scan.specs.Same.{same_path, same_path-laws};

    ghost eq = { same_path };

    ghost laws = { same_path-laws };

    fn eq(&self, other: &PathView<A>) -> bool
        ensures value { result ≡ same_path self.now other.now }
        ensures equal { IsTrue result ↔ (self.now ≡ other.now) }
    {
        let same_terms = self.order == other.order
            && self.first == other.first
            && self.closed == other.closed;
        same_terms
            && same_packets(self.packets(), other.packets())
            && same_records(self.destination(), other.destination())
    }
}

impl<A: Allocator> Eq for PathView<A> {
    ghost use Rattle.rb_scan.specs.Same.{same_path-equiv};

    ghost laws = { same_path-equiv };
}

fn same_packets(packets: &[Packet], others: &[Packet]) -> bool
    ensures { result ≡ pointwise same_packet packets.now others.now }
{
    packets == others
}

fn same_records(records: &[(Height, Moment)], others: &[(Height, Moment)]) -> bool
    ensures { result ≡ pointwise same_record records.now others.now }
{
    records == others
}

/// Whether these make a path: the sequences rise strictly from `first` on, and the heights and the
/// times of the destination rise strictly.
pub fn is_path(first: Sequence, packets: &[Packet], destination: &[(Height, Moment)]) -> bool
    ensures { IsTrue result ↔ (IsStrictlyIncreasing (sequences_of packets.now) × AreFrom first packets.now
        × IsStrictlyIncreasing (heights_of destination.now) × IsStrictlyIncreasing (times_of destination.now)) }
{
    sequences_rise(packets)
        && is_from(first, packets)
        && heights_rise(destination)
        && times_rise(destination)
}

fn sequences_rise(packets: &[Packet]) -> bool
    ensures { IsTrue result ↔ IsStrictlyIncreasing (sequences_of packets.now) }
{
    packets.is_sorted_by(|packet, next| packet.sequence() < next.sequence())
}

fn is_from(first: Sequence, packets: &[Packet]) -> bool
    ensures { IsTrue result ↔ AreFrom first packets.now }
{
    packets.iter().all(|packet| first <= packet.sequence())
}

fn heights_rise(records: &[(Height, Moment)]) -> bool
    ensures { IsTrue result ↔ IsStrictlyIncreasing (heights_of records.now) }
{
    records.is_sorted_by(|record, next| record.0 < next.0)
}

fn times_rise(records: &[(Height, Moment)]) -> bool
    ensures { IsTrue result ↔ IsStrictlyIncreasing (times_of records.now) }
{
    records.is_sorted_by(|record, next| record.1 < next.1)
}
