//! The messages that a relayer submits for a packet.
use crate::sequence::Sequence;
use rb_base::{Height, Moment};

/// What a message does (ICS 4): `recvPacket`, `acknowledgePacket` or `timeoutPacket`.
#[derive(Clone, Copy, Debug, PartialEq, Eq)]
pub enum Kind {
    /// Hands the packet to the destination.
    Receive,
    /// Hands the written acknowledgement back to the source.
    Acknowledge,
    /// Shows the source that the packet expired before it was received.
    Timeout,
}

impl Kind {
    ghost use Rattle.std.specs.Prelude.{◌≡◌};
    ghost use Rattle.rb_scan.specs.Owed.{same_kind};

    pub(crate) fn is(self, kind: Kind) -> bool
        ensures { result ≡ same_kind self kind }
    {
        self == kind
    }
}

/// A message that is owed for a packet. It can be proved from the height `floor` of the proving
/// chain on: the source for a receive, the destination for the others.
#[derive(Clone, Copy, Debug, PartialEq, Eq)]
pub struct PacketMsg {
    /// What it does.
    pub kind: Kind,
    /// The packet's sequence.
    pub sequence: Sequence,
    /// The least height whose record proves it.
    pub floor: Height,
    /// Of a receive, the moment from which on its packet may have expired: its timeout time, or 0 where
    /// it has a timeout height, since the times of blocks to come are not known.
    pub expires: Option<Moment>,
    /// The time of the block that wrote what it proves, where it is told: of a receive the block that sent
    /// the packet, of an acknowledgement the one that wrote it.
    pub since: Option<Moment>,
    /// Of a receive, the time of the destination from which on it is refused: the packet's timeout time.
    pub timeout: Option<Moment>,
}
