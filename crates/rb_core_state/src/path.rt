//! The state of one path.
ghost use Rattle.std.specs.Prelude.{◌≡◌, ◌+◌, ◌<◌, ◌≤◌, ◌==◌, ◌↔◌, IsTrue, [], length, find, Some, None, true, OnOk, IfOk, IfSome};
ghost use Rattle.std.specs.List.Sorted.{IsStrictlyIncreasing};
ghost use Rattle.std.specs.Option.{option_copied};
ghost use Rattle.rb_scan.specs.Owed.{packet_at};
ghost use Rattle.rb_scan.specs.Packet.{Packet};
ghost use Rattle.rb_scan.specs.Path.{sequences_of, AreFrom};
ghost use Rattle.rb_core_state.specs.Room.{next_among};
ghost use Rattle.rb_core_state.specs.Marked.{mark_by};
ghost use Rattle.rb_core_model.specs.Over.{gone_in, rest_of_path};
ghost use Rattle.rb_core_model.specs.Refusal.{refused_if};
ghost use Rattle.rb_core_model.specs.Fits.{IsOpenOn};
ghost use Rattle.rb_core_model.specs.Snapshot.{path_from, snapshot_of_path};
ghost use Rattle.rb_core_model.specs.Standing.{max_packets, view_of_path, new_path, sent_refusal, comes_early, received_refusal, written_refusal, cleared_refusal, with_packet, with_mark, after_message};
ghost use Rattle.rb_core_state.specs.Known.{known_path};

use crate::mark::Mark;
use crate::over::{gone_from, later};
use crate::packets::{is_finished, packet, place, put_mark, was_settled};
use crate::snapshot::PathSnapshot;
use rb_base::Height;
use rb_scan::{Kind, Order, Packet, PacketMsg, Sequence, is_path};
use rb_script_types::{PathConfig, Refusal};
use std::alloc::{AllocError, Allocator, Global};
use std::marker::Model;

/// The most packets of a path.
const MAX_PACKETS: usize = 4096;

/// The state of one path (ICS 4): its configuration, its first sequence, the packets that were sent, by
/// rising sequence, how many sequences from the first on are finished, as far as it was counted, and
/// whether the channel is closed. All sequences below the first are finished and cleared: it is the
/// configuration's, or a later one where packets were forgotten. A contract sees for how many more packets
/// there is room, and not how far was counted.
#[derive(Drop)]
pub struct PathState<A: Allocator = Global> {
    config: PathConfig,
    first: Sequence,
    packets: Vec<Packet, A>,
    run: usize,
    closed: bool,
}

impl<A: Allocator> Model for PathState<A> {
    ghost use Rattle.std.specs.Prelude.{◌-◌, vec_len, vec_capacity};
    ghost use Rattle.rb_core_state.specs.Room as room;

    ghost Value = { room.PathWithRoom };

    ghost view = { λ p. record {
      path = record { config = p.config; first = p.first; packets = p.packets.items; closed = p.closed };
      room = vec_capacity p.packets - vec_len p.packets;
    } };

    ghost invariant = { λ p. room.IsPathWithRoom (record { config = p.config; first = p.first; packets = p.packets.items; closed = p.closed }) p.run };
}

/// Counts on how many sequences from the first on are finished.
fn count_run(packets: &[Packet], first: Sequence, run: usize) -> usize
    requires rising { IsStrictlyIncreasing (sequences_of packets.now) }
    requires few { length packets.now ≤ max_packets }
    requires run { first + run ≤ next_among first packets.now }
    ensures next { next_among first packets.now ≡ first + result }
    ensures few { result ≤ max_packets }
{
    let mut run = run;
    while run < packets.len() && is_finished(packets, first.get() + run as u64) {
        run += 1;
    }
    run
}

impl<A: Allocator> PathState<A> {
    /// The state of a path before the first event: no packet was sent, and the channel is not closed.
    pub fn new(alloc: A, config: PathConfig) -> PathState<A>
        ensures { result.path ≡ new_path config }
    {
        PathState {
            config,
            first: config.first,
            packets: Vec::new(alloc),
            run: 0,
            closed: false,
        }
    }

    /// The path's configuration.
    pub fn config(&self) -> &PathConfig
        ensures { result.now ≡ self.now.path.config }
    {
        &self.config
    }

    /// The first sequence: all lower ones are finished and cleared.
    pub fn first(&self) -> Sequence
        ensures { result ≡ self.now.path.first }
    {
        self.first
    }

    /// The packets that were sent on the path, by rising sequence, at most 4,096. None has a sequence
    /// below the path's first one.
    pub fn packets(&self) -> &[Packet]
        ensures value { result.now ≡ self.now.path.packets }
        ensures rising { IsStrictlyIncreasing (sequences_of self.now.path.packets) }
        ensures from_first { AreFrom self.now.path.first self.now.path.packets }
        ensures few { length self.now.path.packets ≤ max_packets }
    {
        self.packets.as_slice()
    }

    /// Whether the channel is closed: it was seen closed, or a timeout of an ORDERED path was settled.
    pub fn is_closed(&self) -> bool
        ensures { result ≡ self.now.path.closed }
    {
        self.closed
    }

    /// The packet with this sequence; None where none was sent.
    fn packet(&self, sequence: Sequence) -> Option<&Packet>
        ensures { option_copied result ≡ find (λ (p : Packet). p.sequence == sequence) self.now.path.packets }
    {
        packet(self.packets.as_slice(), sequence.get())
    }

    /// Whether the path is ORDERED, and a lower sequence of it is not finished.
    fn comes_early(&self, sequence: Sequence) -> bool
        ensures { result ≡ comes_early (view_of_path [] self.now.path) sequence }
    {
        if self.config.order == Order::Unordered {
            return false;
        }
        let run = count_run(self.packets.as_slice(), self.first, self.run);
        self.first.get() + (run as u64) < sequence.get()
    }

    /// Why the sending of a packet would be refused: `OutOfOrder` where its sequence is below the path's
    /// first one, `Repeat` where it was sent before, `Full` where the path has 4,096 packets. None where
    /// it is accepted.
    pub(crate) fn refuse_sent(&self, sequence: Sequence) -> Option<Refusal>
        ensures { result ≡ sent_refusal (view_of_path [] self.now.path) sequence }
    {
        if sequence < self.first {
            return Some(Refusal::OutOfOrder);
        }
        if self.packet(sequence).is_some() {
            return Some(Refusal::Repeat);
        }
        if self.packets.len() >= MAX_PACKETS {
            return Some(Refusal::Full);
        }
        None
    }

    /// Why the receiving of a packet would be refused: `OutOfOrder` where it was not sent, or the path
    /// is ORDERED and a lower sequence is not finished, `Repeat` where it was received before. None where
    /// it is accepted.
    pub(crate) fn refuse_received(&self, sequence: Sequence) -> Option<Refusal>
        ensures { result ≡ received_refusal (view_of_path [] self.now.path) sequence (packet_at (view_of_path [] self.now.path) sequence) }
    {
        let Some(packet) = self.packet(sequence) else {
            return Some(Refusal::OutOfOrder);
        };
        if self.comes_early(sequence) {
            return Some(Refusal::OutOfOrder);
        }
        if packet.received().is_some() {
            return Some(Refusal::Repeat);
        }
        None
    }

    /// Why the writing of a packet's acknowledgement in a block would be refused: `OutOfOrder` where the
    /// packet was not received up to that block, `Repeat` where one was written before. None where it is
    /// accepted.
    pub(crate) fn refuse_written(&self, sequence: Sequence, block: Height) -> Option<Refusal>
        ensures { result ≡ written_refusal block (packet_at (view_of_path [] self.now.path) sequence) }
    {
        let Some(packet) = self.packet(sequence) else {
            return Some(Refusal::OutOfOrder);
        };
        match packet.received() {
            Some(received) if received <= block => {}
            _ => return Some(Refusal::OutOfOrder),
        }
        if packet.written().is_some() {
            return Some(Refusal::Repeat);
        }
        None
    }

    /// Why the clearing of a packet would be refused: `OutOfOrder` where it was not sent, `Repeat` where
    /// it was cleared before. None where it is accepted.
    pub(crate) fn refuse_cleared(&self, sequence: Sequence) -> Option<Refusal>
        ensures { result ≡ cleared_refusal (packet_at (view_of_path [] self.now.path) sequence) }
    {
        let Some(packet) = self.packet(sequence) else {
            return Some(Refusal::OutOfOrder);
        };
        if packet.is_cleared() {
            return Some(Refusal::Repeat);
        }
        None
    }

    /// Why the closing of the channel would be refused: `Repeat` where it is closed. None where it is
    /// accepted.
    pub(crate) fn refuse_closed(&self) -> Option<Refusal>
        ensures { result ≡ refused_if self.now.path.closed Refusal.Repeat None }
    {
        if self.closed {
            return Some(Refusal::Repeat);
        }
        None
    }

    /// Whether a message's packet is there and that message of it wasn't settled, or the packet was forgotten.
    pub fn is_open(&self, message: PacketMsg) -> bool
        ensures { IsTrue result ↔ IsOpenOn self.now.path message }
    {
        if message.sequence < self.first {
            return true;
        }
        match self.packet(message.sequence) {
            Some(packet) => !was_settled(packet, message.kind),
            None => false,
        }
    }

    /// Makes room for one more packet. `AllocError` where memory is refused.
    pub(crate) fn make_room(&mut self) -> Result<(), AllocError>
        ensures same { self.new.path ≡ self.old.path }
        ensures room { OnOk result (0 < self.new.room) }
        ensures kept { 0 < self.old.room → 0 < self.new.room }
    {
        self.packets.reserve(1)
    }

    /// Puts a sent packet that is not refused in its place.
    pub(crate) fn put_sent(&mut self, packet: Packet)
        requires accepted { sent_refusal (view_of_path [] self.old.path) packet.sequence ≡ None }
        requires room { 0 < self.old.room }
        ensures { self.new.path ≡ with_packet packet self.old.path }
    {
        let sequence = packet.sequence().get();
        if let Err(place) = place(self.packets.as_slice(), sequence) {
            self.packets.insert(place, packet).unwrap();
        }
    }

    /// Takes a packet one step on, if there is one with this sequence.
    pub(crate) fn put_mark(&mut self, sequence: Sequence, mark: Mark)
        ensures path { self.new.path ≡ with_mark (mark_by mark) sequence self.old.path }
        ensures room { self.new.room ≡ self.old.room }
    {
        put_mark(&mut self.packets, sequence.get(), mark);
    }

    /// Counts on how many sequences are finished.
    pub(crate) fn count_on(&mut self)
        ensures { self.new ≡ self.old }
    {
        self.run = count_run(self.packets.as_slice(), self.first, self.run);
    }

    /// Closes the channel.
    pub(crate) fn close(&mut self)
        ensures path { self.new.path ≡ record self.old.path { closed = true } }
        ensures room { self.new.room ≡ self.old.room }
    {
        self.closed = true;
    }

    /// How many packets at the front are forgotten: those that are over, but for the last ones.
    pub(crate) fn gone(&self) -> usize
        ensures { result ≡ gone_in self.now.path }
    {
        gone_from(self.config.order, self.first, self.packets.as_slice())
    }

    /// Forgets the packets that are over at the front, but for the last ones: the path goes on from the
    /// next sequence.
    pub(crate) fn forget(&mut self)
        ensures { self.new.path ≡ rest_of_path self.old.path }
    {
        let count = self.gone();
        let first = later(
            self.config.order,
            self.first,
            self.packets.as_slice(),
            count,
        );
        self.packets.retain(|packet| first <= packet.sequence());
        self.first = first;
        self.run = 0;
    }

    /// Takes in that a message was settled: its packet goes on, and a timeout closes an ORDERED path
    /// (ICS 4).
    pub(crate) fn settle(&mut self, message: PacketMsg)
        ensures path { self.new.path ≡ after_message message self.old.path }
        ensures room { self.new.room ≡ self.old.room }
    {
        self.put_mark(message.sequence, Mark::Settled(message.kind));
        if message.kind == Kind::Timeout && self.config.order == Order::Ordered {
            self.close();
        }
    }
}

impl<A: Allocator + Copy> PathState<A> {
    /// An equal state, on the same allocator. `AllocError` where memory is refused.
    pub fn copy(&self) -> Result<PathState<A>, AllocError>
        ensures { IfOk result (λ copy. copy.path ≡ self.now.path) }
    {
        Ok(PathState {
            config: self.config,
            first: self.first,
            packets: Vec::from_slice(*self.packets.allocator(), self.packets.as_slice())?,
            run: self.run,
            closed: self.closed,
        })
    }
    /// What is known of the path, on the same allocator. `AllocError` where memory is refused.
    pub(crate) fn snapshot(&self) -> Result<PathSnapshot<A>, AllocError>
        ensures { IfOk result (λ known. known_path known ≡ snapshot_of_path self.now.path) }
    {
        Ok(PathSnapshot {
            first: self.first,
            packets: Vec::from_slice(*self.packets.allocator(), self.packets.as_slice())?,
            closed: self.closed,
        })
    }

    /// The state of a path with this configuration of which this is known; None where its sequences don't
    /// rise from the first one on, or it has over 4,096 packets. `AllocError` where memory is refused.
    pub(crate) fn restored(
        alloc: A,
        config: PathConfig,
        known: &PathSnapshot<A>,
    ) -> Result<Option<PathState<A>>, AllocError>
        ensures { IfOk result (λ found. IfSome found (λ state. state.path ≡ path_from config (known_path known.now))) }
    {
        let packets = known.packets.as_slice();
        if packets.len() > MAX_PACKETS || !is_path(known.first, packets, &[]) {
            return Ok(None);
        }
        Ok(Some(PathState {
            config,
            first: known.first,
            packets: Vec::from_slice(alloc, packets)?,
            run: 0,
            closed: known.closed,
        }))
    }
}
