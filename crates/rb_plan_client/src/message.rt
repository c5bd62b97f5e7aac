//! The packet messages that follow the updates of a client.
ghost use Rattle.std.specs.Prelude.{◌≡◌, ◌≤◌, ◌^◌};
ghost use Rattle.rb_script_types.specs.Gas.{gas_for};

use rb_scan::PacketMsg;
use rb_script_types::PathGas;
use std::marker::Model;

/// A packet message (ICS 4) for one of a client's paths, with the gas that it takes of a transaction, at
/// most 10^9.
#[derive(Clone, Copy, PartialEq, Eq)]
pub struct Message {
    path: usize,
    packet: PacketMsg,
    gas: u64,
}

impl Model for Message {
    ghost use Rattle.std.specs.Prelude.{◌≤◌, ◌^◌};
    ghost use Rattle.rb_plan_client.specs.Task as tasks;

    ghost Value = { tasks.Message };

    ghost view = { λ m. record { path = m.path; packet = m.packet; gas = m.gas } };

    ghost invariant = { λ m. m.gas ≤ 10 ^ 9 };

    ghost inverse = { λ m. record { path = m.path; packet = m.packet; gas = m.gas } };
}

impl Message {
    /// The message for a packet of a path, the gas being that of the path's messages of its kind.
    pub fn new(path: usize, gas: PathGas, packet: PacketMsg) -> Message
        ensures { result ≡ record { path = path; packet = packet; gas = gas_for gas packet.kind } }
    {
        Message {
            path,
            packet,
            gas: gas.of(packet.kind),
        }
    }

    /// The path of the packet, by its place in the script.
    pub fn path(&self) -> usize
        ensures { result ≡ self.now.path }
    {
        self.path
    }

    /// What it does, for which packet of the path, and from which height on it can be proved.
    pub fn packet(&self) -> PacketMsg
        ensures { result ≡ self.now.packet }
    {
        self.packet
    }

    /// The gas that it takes of a transaction, at most 10^9.
    pub fn gas(&self) -> u64
        ensures value { result ≡ self.now.gas }
        ensures range { result ≤ 10 ^ 9 }
    {
        self.gas
    }
}
