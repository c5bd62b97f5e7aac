//! Why a packet message isn't made.
use crate::judging::ProofError;
use std::alloc::{AllocError, AllocFailed};
use std::fmt;

/// Why a packet message isn't made.
#[derive(Clone, Copy, Debug, PartialEq, Eq)]
pub enum PacketError {
    /// The setup doesn't name both ends of the path's channel.
    NoChannel,
    /// No transaction in the path's folder tells the packet's data and timeouts.
    NoData,
    /// No transaction in the path's folder tells its acknowledgement.
    NoAcknowledgement,
    /// The relayer has no consensus state of the proof height.
    NoRecord,
    /// The node refused to answer.
    NodeRefused,
    /// The answer isn't one to `/abci_query` with the two proofs of a store.
    NoProof,
    /// The proofs don't show what the message claims.
    NotProven,
    /// A message before it on an ORDERED path isn't made.
    Behind,
    /// A growth was refused.
    NoMemory,
}

impl PacketError {
    /// What to do about it.
    pub fn advice(self) -> &'static str {
        match self {
            PacketError::NoChannel => {
                "name both ends of the path's channel in the setup: port, channel, counterparty_port and counterparty_channel"
            }
            PacketError::NoData => {
                "no transaction in the path's folder tells the packet's data: save the /tx_search that finds its send_packet"
            }
            PacketError::NoAcknowledgement => {
                "no transaction in the path's folder tells the acknowledgement: save the /tx_search that finds its write_acknowledgement"
            }
            PacketError::NoRecord => "no consensus state of the proof height is known",
            PacketError::NodeRefused => {
                "the node refused to prove it: it may no longer have the block before the proof height; collect anew, or ask another node"
            }
            PacketError::NoProof => "this is no answer to /abci_query with prove=true",
            PacketError::NotProven => {
                "the proofs don't show what the message claims; take the file away, and ask another node"
            }
            PacketError::Behind => {
                "a message before it isn't made, and an ORDERED channel takes each in its turn"
            }
            PacketError::NoMemory => "no memory",
        }
    }
}

impl fmt::Display for PacketError {
    fn fmt<W: fmt::Write>(&self, f: &mut fmt::Formatter<W>) -> fmt::Result {
        f.write_str(match self {
            PacketError::NoChannel => "NoChannel",
            PacketError::NoData => "NoData",
            PacketError::NoAcknowledgement => "NoAcknowledgement",
            PacketError::NoRecord => "NoRecord",
            PacketError::NodeRefused => "NodeRefused",
            PacketError::NoProof => "NoProof",
            PacketError::NotProven => "NotProven",
            PacketError::Behind => "Behind",
            PacketError::NoMemory => "no memory",
        })
    }
}

impl From<AllocError> for PacketError {
    ghost use Rattle.std.specs.Prelude.{◌≡◌};
    ghost use Rattle.rb_packets.specs.declared.error.PacketError.TheVariants.{NoMemory};

    ghost from_gives = { λ _ e. e ≡ NoMemory };

    fn from(_: AllocError) -> Self {
        PacketError::NoMemory
    }
}

impl<T: Drop> From<AllocFailed<T>> for PacketError {
    ghost use Rattle.std.specs.Prelude.{◌≡◌};
    ghost use Rattle.rb_packets.specs.declared.error.PacketError.TheVariants.{NoMemory};

    ghost from_gives = { λ _ e. e ≡ NoMemory };

    fn from(_: AllocFailed<T>) -> Self {
        PacketError::NoMemory
    }
}

impl From<ProofError> for PacketError {
    ghost use Rattle.std.specs.Prelude.{◌≡◌};
    ghost use Rattle.rb_packets.specs.Messages.{error_of};

    ghost from_gives = { λ proof e. e ≡ error_of proof };

    fn from(error: ProofError) -> Self {
        match error {
            ProofError::NoProof => PacketError::NoProof,
            ProofError::NotProven => PacketError::NotProven,
            ProofError::NoMemory => PacketError::NoMemory,
        }
    }
}
