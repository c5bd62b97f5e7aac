//! Packets.

use rb_import_answers::RevisionHeight;

/// A packet (ICS 4, `Packet`): its sequence, the ends of its channel, its data, and its timeouts on the chain of its
/// destination (the time in nanoseconds; 0 is none).
#[derive(Clone, Copy, Debug)]
pub struct ChannelPacket<'a> {
    pub sequence: u64,
    pub source_port: &'a str,
    pub source_channel: &'a str,
    pub dest_port: &'a str,
    pub dest_channel: &'a str,
    pub data: &'a [u8],
    pub timeout_height: RevisionHeight,
    pub timeout_time: u64,
}
