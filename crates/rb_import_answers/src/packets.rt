//! Events of packets (ICS 4).
ghost use Rattle.std.specs.Prelude.{◌+◌, ◌<◌, ◌≤◌, ◌^◌};

use rb_base::Height;

/// What was done with a packet.
#[derive(Clone, Copy, PartialEq, Eq, PartialOrd, Ord)]
pub enum PacketKind {
    /// It was sent (`send_packet`).
    Sent,
    /// It was received (`recv_packet`).
    Received,
    /// Its acknowledgement was written (`write_acknowledgement`).
    AckWritten,
    /// It was acknowledged, and so it is cleared (`acknowledge_packet`).
    Cleared,
    /// It timed out, and so it is cleared too (`timeout_packet`).
    TimedOut,
}

/// A height with the number of its revision; 0 and 0 is none (ICS 2).
#[derive(Clone, Copy, Debug)]
pub struct RevisionHeight {
    pub revision: u64,
    pub height: u64,
}

/// An event of a packet: what was done, in which block, whose next height is a height too, the packet's sequence (1 to
/// 2^63 - 1), the port and the channel of its source and of its destination as `port/channel`, and of a packet that was
/// sent its timeouts (the time in nanoseconds; 0 is none).
#[derive(Drop)]
pub struct PacketEvent {
    pub kind: PacketKind,
    pub block: Height,
    pub sequence: u64,
    pub source: String,
    pub dest: String,
    pub timeout_height: RevisionHeight,
    pub timeout_time: u64,
    ghost next: { block + 1 < 2 ^ 63 },
    ghost in_range: { (1 ≤ sequence) × (sequence < 2 ^ 63) },
}

/// Events of packets, how many transactions the answer has, and how many there are on all pages.
#[derive(Drop)]
pub struct PacketPage {
    pub total: u64,
    pub count: usize,
    pub events: Vec<PacketEvent>,
}
