//! What is known of one packet.
ghost use Rattle.std.specs.Prelude.{◌≡◌, ◌+◌, ◌<◌, ◌^◌, ℕ, Some, None, true, false};
ghost use Rattle.std.specs.Option.{option_map};
ghost use Rattle.rb_scan.specs.Packet.{is_finished, is_cleared, is_in_flight};
ghost use Rattle.rb_scan.specs.Expiry.{expires_from};
ghost use Rattle.rb_scan.specs.Owed.{is_done};
ghost use Rattle.rb_scan.specs.Same.{same_sending, same_fate};

use crate::message::Kind;
use crate::sequence::Sequence;
use rb_base::{Height, Moment};
use std::marker::Model;

/// What is known of a packet that was sent: when it expires, in which blocks it was seen received
/// and acknowledged, whether it was seen cleared, and which of its messages were settled.
///
/// The height after a block is the first that proves what the block wrote, so the blocks that sent
/// it and that wrote its acknowledgement are at most 2^63 - 2.
#[derive(Clone, Copy)]
pub struct Packet {
    sequence: Sequence,
    sent: Height,
    sent_time: Option<Moment>,
    timeout_height: Option<Height>,
    timeout_time: Option<Moment>,
    received: Option<Height>,
    written: Option<Height>,
    written_time: Option<Moment>,
    cleared: bool,
    receive_settled: bool,
    outcome_settled: bool,
}

impl Model for Packet {
    ghost use Rattle.rb_scan.specs.Packet as packets;

    ghost Value = { packets.Packet };

    ghost use Rattle.std.specs.Prelude.{◌+◌, ◌<◌, ◌^◌};
    ghost use Rattle.std.specs.Option.{ForSome};

    ghost view = { λ p. record {
      sequence = p.sequence;
      sent = p.sent;
      sent_time = p.sent_time;
      timeout_height = p.timeout_height;
      timeout_time = p.timeout_time;
      received = p.received;
      written = p.written;
      written_time = p.written_time;
      cleared = p.cleared;
      receive_settled = p.receive_settled;
      outcome_settled = p.outcome_settled;
    } };

    ghost invariant = { λ p. (p.sent + 1 < 2 ^ 63) × ForSome p.written (λ block. block + 1 < 2 ^ 63) };

    ghost inverse = { λ p. record {
      sequence = p.sequence;
      sent = p.sent;
      sent_time = p.sent_time;
      timeout_height = p.timeout_height;
      timeout_time = p.timeout_time;
      received = p.received;
      written = p.written;
      written_time = p.written_time;
      cleared = p.cleared;
      receive_settled = p.receive_settled;
      outcome_settled = p.outcome_settled;
    } };
}

impl PartialEq for Packet {
    ghost use Rattle.rb_scan.specs.Same.{same_packet, same_packet-laws};

    ghost eq = { same_packet };

    ghost laws = { same_packet-laws };

    fn eq(&self, other: &Packet) -> bool {
        self.same_sending(other) && self.same_fate(other)
    }
}

impl Eq for Packet {
    ghost use Rattle.rb_scan.specs.Same.{same_packet-equiv};

    ghost laws = { same_packet-equiv };
}

impl Packet {
    /// Whether two packets were sent alike.
    fn same_sending(&self, other: &Packet) -> bool
        ensures { result ≡ same_sending self.now other.now }
    {
        self.sequence == other.sequence
            && self.sent == other.sent
            && self.sent_time == other.sent_time
            && self.timeout_height == other.timeout_height
            && self.timeout_time == other.timeout_time
    }

    /// Whether the same came of two packets.
    fn same_fate(&self, other: &Packet) -> bool
        ensures { result ≡ same_fate self.now other.now }
    {
        self.received == other.received
            && self.written == other.written
            && self.written_time == other.written_time
            && self.cleared == other.cleared
            && self.receive_settled == other.receive_settled
            && self.outcome_settled == other.outcome_settled
    }

    /// A packet that was sent in a block, at the block's time where it is told, with the height and the time
    /// of the destination at which it expires.
    pub fn new(
        sequence: Sequence,
        sent: Height,
        sent_time: Option<Moment>,
        timeout_height: Option<Height>,
        timeout_time: Option<Moment>,
    ) -> Packet
        requires { sent + 1 < 2 ^ 63 }
        ensures { result ≡ record {
          sequence = sequence;
          sent = sent;
          sent_time = sent_time;
          timeout_height = timeout_height;
          timeout_time = timeout_time;
          received = None;
          written = None;
          written_time = None;
          cleared = false;
          receive_settled = false;
          outcome_settled = false;
        } }
    {
        Packet {
            sequence,
            sent,
            sent_time,
            timeout_height,
            timeout_time,
            received: None,
            written: None,
            written_time: None,
            cleared: false,
            receive_settled: false,
            outcome_settled: false,
        }
    }

    /// The packet, seen received in a block of the destination.
    pub fn with_received(self, block: Height) -> Packet
        ensures { result ≡ record self { received = Some block } }
    {
        Packet {
            received: Some(block),
            ..self
        }
    }

    /// The packet, its acknowledgement seen written in a block of the destination, at the block's time
    /// where it is told.
    pub fn with_written(self, block: Height, time: Option<Moment>) -> Packet
        requires { block + 1 < 2 ^ 63 }
        ensures { result ≡ record self { written = Some block; written_time = time } }
    {
        Packet {
            written: Some(block),
            written_time: time,
            ..self
        }
    }

    /// The packet, seen cleared: the source holds no commitment to it any more.
    pub fn with_cleared(self) -> Packet
        ensures { result ≡ record self { cleared = true } }
    {
        Packet {
            cleared: true,
            ..self
        }
    }

    /// The packet, its receive message settled.
    pub fn with_receive_settled(self) -> Packet
        ensures { result ≡ record self { receive_settled = true } }
    {
        Packet {
            receive_settled: true,
            ..self
        }
    }

    /// The packet, its acknowledgement or timeout message settled.
    pub fn with_outcome_settled(self) -> Packet
        ensures { result ≡ record self { outcome_settled = true } }
    {
        Packet {
            outcome_settled: true,
            ..self
        }
    }

    /// The sequence.
    pub fn sequence(&self) -> Sequence
        ensures { result ≡ self.now.sequence }
    {
        self.sequence
    }

    /// The block of the source that sent it; the next one proves it.
    pub fn sent(&self) -> Height
        ensures value { result ≡ self.now.sent }
        ensures range { self.now.sent + 1 < 2 ^ 63 }
    {
        self.sent
    }

    /// The time of that block, where it is told.
    pub fn sent_time(&self) -> Option<Moment>
        ensures { result ≡ self.now.sent_time }
    {
        self.sent_time
    }

    /// The height of the destination at which it expires.
    pub fn timeout_height(&self) -> Option<Height>
        ensures { result ≡ self.now.timeout_height }
    {
        self.timeout_height
    }

    /// The time of the destination at which it expires.
    pub fn timeout_time(&self) -> Option<Moment>
        ensures { result ≡ self.now.timeout_time }
    {
        self.timeout_time
    }

    /// The moment from which on it may have expired: its timeout time, or 0 where it has a timeout height,
    /// since the times of blocks to come are not known.
    pub(crate) fn expires_from(&self) -> Option<Moment>
        ensures { result ≡ expires_from self.now }
    {
        if self.timeout_height.is_some() {
            Moment::new(0)
        } else {
            self.timeout_time
        }
    }

    /// The block of the destination where it was seen received.
    pub fn received(&self) -> Option<Height>
        ensures { result ≡ self.now.received }
    {
        self.received
    }

    /// The block of the destination where its acknowledgement was seen written; the next one
    /// proves it.
    pub fn written(&self) -> Option<Height>
        ensures { result ≡ self.now.written }
    {
        self.written
    }

    /// The time of that block, where it is told.
    pub fn written_time(&self) -> Option<Moment>
        ensures { result ≡ self.now.written_time }
    {
        self.written_time
    }

    /// Whether its receive is finished: seen received, seen cleared, or settled.
    pub fn is_finished(&self) -> bool
        ensures { result ≡ is_finished self.now }
    {
        let was_seen = self.received.is_some() || self.cleared;
        was_seen || self.receive_settled
    }

    /// Whether it is cleared: seen cleared, or its acknowledgement or timeout settled.
    pub fn is_cleared(&self) -> bool
        ensures { result ≡ is_cleared self.now }
    {
        self.cleared || self.outcome_settled
    }

    /// Whether it waits for no message of this kind any more: cleared for an acknowledgement, its
    /// receive finished for the others.
    pub(crate) fn is_done(&self, kind: Kind) -> bool
        ensures { result ≡ is_done kind self.now }
    {
        match kind {
            Kind::Receive | Kind::Timeout => self.is_finished(),
            Kind::Acknowledge => self.is_cleared(),
        }
    }

    /// Whether it was sent, its receive isn't finished, and it isn't cleared.
    pub fn is_in_flight(&self) -> bool
        ensures { result ≡ is_in_flight self.now }
    {
        !self.is_finished() && !self.is_cleared()
    }

    /// The least height that proves that it was sent.
    pub fn sent_floor(&self) -> Height
        ensures { result ≡ self.now.sent + 1 }
    {
        next(self.sent)
    }

    /// The least height that proves its acknowledgement.
    pub fn written_floor(&self) -> Option<Height>
        ensures { result ≡ option_map (λ (block : ℕ). block + 1) self.now.written }
    {
        match self.written {
            Some(block) => Some(next(block)),
            None => None,
        }
    }
}

/// The height after a block, which is the first that proves what the block wrote.
fn next(block: Height) -> Height
    requires { block + 1 < 2 ^ 63 }
    ensures { result ≡ block + 1 }
{
    Height::new(block.get() + 1).unwrap()
}
