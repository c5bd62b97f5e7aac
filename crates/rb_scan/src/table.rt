//! What is owed for one packet, and from where on it can be proved.
ghost use Rattle.std.specs.Prelude.{◌≡◌, ℕ, find, Some};
ghost use Rattle.std.specs.List.Sorted.{IsStrictlyIncreasing};
ghost use Rattle.std.specs.Option.{option_map};
ghost use Rattle.rb_scan.specs.Path.{times_of};
ghost use Rattle.rb_scan.specs.Expiry.{has_come, is_expired, height_floor, time_floor, timeout_floor};
ghost use Rattle.rb_scan.specs.Owed.{floor_of, expires_for, since_for, timeout_for, message_of};

use crate::message::{Kind, PacketMsg};
use crate::packet::Packet;
use crate::path::PathView;
use rb_base::{Height, Moment};
use std::alloc::Allocator;

impl<A: Allocator> PathView<A> {
    /// The packet's timeout height, if it has come.
    fn height_floor(&self, packet: &Packet) -> Option<Height>
        ensures { result ≡ height_floor self.now.destination packet.now }
    {
        let limit = packet.timeout_height()?;
        let top = self.destination().last()?;
        if top.0 < limit { None } else { Some(limit) }
    }

    /// The least known height at which the packet's timeout time has come, if it has.
    fn time_floor(&self, packet: &Packet) -> Option<Height>
        ensures { result ≡ time_floor self.now.destination packet.now }
    {
        let limit = packet.timeout_time()?;
        let top = self.destination().last()?;
        if top.1 < limit {
            None
        } else {
            first_at(self.destination(), limit)
        }
    }

    /// Whether the packet has expired.
    fn is_expired(&self, packet: &Packet) -> bool
        ensures { result ≡ is_expired self.now.destination packet.now }
    {
        let Some(top) = self.destination().last() else {
            return false;
        };
        packet.timeout_height().is_some_and(|limit| limit <= top.0)
            || packet.timeout_time().is_some_and(|limit| limit <= top.1)
    }

    /// From where on the packet's expiry can be proved, if it has expired.
    fn timeout_floor(&self, packet: &Packet) -> Option<Height>
        ensures { result ≡ timeout_floor self.now.destination packet.now }
    {
        match (self.height_floor(packet), self.time_floor(packet)) {
            (Some(height), Some(other)) => Some(height.min(other)),
            (height, other) => height.or(other),
        }
    }

    /// From where on a message of this kind for the packet can be proved, if it is owed.
    fn floor_of(&self, kind: Kind, packet: &Packet) -> Option<Height>
        ensures { result ≡ floor_of self.now.destination kind packet.now }
    {
        match kind {
            Kind::Receive if packet.is_in_flight() && !self.is_expired(packet) => {
                Some(packet.sent_floor())
            }
            Kind::Acknowledge if !packet.is_cleared() => packet.written_floor(),
            Kind::Timeout if packet.is_in_flight() => self.timeout_floor(packet),
            _ => None,
        }
    }

    /// The message of this kind that is owed for the packet.
    pub(crate) fn message_of(&self, kind: Kind, packet: &Packet) -> Option<PacketMsg>
        ensures { result ≡ message_of self.now.destination kind packet.now }
    {
        let floor = self.floor_of(kind, packet)?;
        Some(PacketMsg {
            kind,
            sequence: packet.sequence(),
            floor,
            expires: expires_for(kind, packet),
            since: since_for(kind, packet),
            timeout: timeout_for(kind, packet),
        })
    }
}

/// The moment from which on a message of this kind for the packet may be in vain.
fn expires_for(kind: Kind, packet: &Packet) -> Option<Moment>
    ensures { result ≡ expires_for kind packet.now }
{
    match kind {
        Kind::Receive => packet.expires_from(),
        Kind::Acknowledge | Kind::Timeout => None,
    }
}

/// The time of the block that wrote what a message of this kind for the packet proves, where it is told.
fn since_for(kind: Kind, packet: &Packet) -> Option<Moment>
    ensures { result ≡ since_for kind packet.now }
{
    match kind {
        Kind::Receive => packet.sent_time(),
        Kind::Acknowledge => packet.written_time(),
        Kind::Timeout => None,
    }
}

/// The time of the destination from which on a message of this kind for the packet is refused.
fn timeout_for(kind: Kind, packet: &Packet) -> Option<Moment>
    ensures { result ≡ timeout_for kind packet.now }
{
    match kind {
        Kind::Receive => packet.timeout_time(),
        Kind::Acknowledge | Kind::Timeout => None,
    }
}

/// The height of the first record at a time or past it.
fn first_at(records: &[(Height, Moment)], time: Moment) -> Option<Height>
    requires { IsStrictlyIncreasing (times_of records.now) }
    ensures { result ≡ option_map (λ (r : ℕ × ℕ). r.0) (find (λ (r : ℕ × ℕ). has_come (Some time) (Some r.1)) records.now) }
{
    let place = records.partition_point(|record| record.1 < time);
    records.get(place).map(|record| record.0)
}
