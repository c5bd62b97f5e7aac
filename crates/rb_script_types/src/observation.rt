//! What is observed of chains, clients and paths.
ghost use Rattle.std.specs.Prelude.{◌≡◌, IfOk};

use crate::block::{Block, BlockHeight};
use rb_base::{Height, Moment};
use rb_book::{Header, Record};
use rb_scan::Sequence;
use rb_valset::ValidatorSet;
use std::alloc::{AllocError, Allocator, Global};

/// What was seen of a chain, a client or a path, which are named by their places.
#[derive(Drop)]
pub enum Observation<A: Allocator = Global> {
    /// A validator set of a chain.
    SetSeen {
        chain: usize,
        set: ValidatorSet<A>,
    },
    /// A header of a chain.
    HeaderSeen {
        chain: usize,
        header: Header<A>,
    },
    /// A record that a client has stored at a height.
    StoredSeen {
        client: usize,
        height: Height,
        record: Record,
    },
    /// A packet that a block of the source sent, with the height and the time of the destination at
    /// which it expires (ICS 4, `sendPacket`).
    Sent {
        path: usize,
        sequence: Sequence,
        block: Block,
        timeout_height: Option<Height>,
        timeout_time: Option<Moment>,
    },
    /// A packet that a block of the destination received (ICS 4, `recvPacket`).
    Received {
        path: usize,
        sequence: Sequence,
        block: BlockHeight,
    },
    /// A packet whose acknowledgement a block of the destination wrote (ICS 4,
    /// `writeAcknowledgement`).
    AckWritten {
        path: usize,
        sequence: Sequence,
        block: Block,
    },
    /// A packet to which the source holds no commitment any more.
    Cleared {
        path: usize,
        sequence: Sequence,
    },
    /// A path that was closed.
    Closed {
        path: usize,
    },
}

impl<A: Allocator + Copy> Observation<A> {
    /// An equal observation, on the allocator of this one.
    pub fn copy(&self) -> Result<Observation<A>, AllocError>
        ensures { IfOk result (λ observation. observation ≡ self.now) }
    {
        Ok(match self {
            Observation::SetSeen { chain, set } => Observation::SetSeen {
                chain: *chain,
                set: set.copy()?,
            },
            Observation::HeaderSeen { chain, header } => Observation::HeaderSeen {
                chain: *chain,
                header: header.copy()?,
            },
            Observation::StoredSeen {
                client,
                height,
                record,
            } => Observation::StoredSeen {
                client: *client,
                height: *height,
                record: *record,
            },
            Observation::Sent {
                path,
                sequence,
                block,
                timeout_height,
                timeout_time,
            } => Observation::Sent {
                path: *path,
                sequence: *sequence,
                block: *block,
                timeout_height: *timeout_height,
                timeout_time: *timeout_time,
            },
            Observation::Received {
                path,
                sequence,
                block,
            } => Observation::Received {
                path: *path,
                sequence: *sequence,
                block: *block,
            },
            Observation::AckWritten {
                path,
                sequence,
                block,
            } => Observation::AckWritten {
                path: *path,
                sequence: *sequence,
                block: *block,
            },
            Observation::Cleared { path, sequence } => Observation::Cleared {
                path: *path,
                sequence: *sequence,
            },
            Observation::Closed { path } => Observation::Closed { path: *path },
        })
    }
}
