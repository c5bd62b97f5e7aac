//! The steps of a packet's life cycle.
ghost use Rattle.std.specs.Prelude.{◌≡◌};
ghost use Rattle.rb_core_state.specs.Marked.{mark_by};
ghost use Rattle.rb_core_model.specs.Standing.{mark_of};

use rb_base::Height;
use rb_scan::{Kind, Packet};
use rb_script_types::Block;

/// A step in the life cycle of a packet that was sent (ICS 4).
#[derive(Clone, Copy)]
pub enum Mark {
    /// The destination received it in a block of this height.
    Received(Height),
    /// The destination wrote its acknowledgement in this block.
    Written(Block),
    /// The source cleared its commitment, by an acknowledgement or a timeout.
    Cleared,
    /// A batch with a message of this kind for it was settled.
    Settled(Kind),
}

impl Mark {
    /// The packet after the step.
    pub(crate) fn put(&self, packet: Packet) -> Packet
        ensures { result ≡ mark_by self.now packet }
    {
        match self {
            Mark::Received(block) => packet.with_received(*block),
            Mark::Written(block) => packet.with_written(block.height.height(), block.time),
            Mark::Cleared => packet.with_cleared(),
            Mark::Settled(kind) => settled(*kind, packet),
        }
    }
}

/// The packet after a message of a kind for it was settled.
fn settled(kind: Kind, packet: Packet) -> Packet
    ensures { result ≡ mark_of kind packet }
{
    match kind {
        Kind::Receive => packet.with_receive_settled(),
        Kind::Acknowledge | Kind::Timeout => packet.with_outcome_settled(),
    }
}
