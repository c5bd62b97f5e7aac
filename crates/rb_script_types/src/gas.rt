//! The gas of a path's messages.
ghost use Rattle.std.specs.Prelude.{◌≡◌, ◌≤◌, ◌^◌, SomeIff};
ghost use Rattle.rb_script_types.specs.Gas.{gas_for, IsPathGas};

use rb_scan::Kind;
use std::marker::Model;

/// The gas of each kind of message of a path, 0 to 10^9.
#[derive(Clone, Copy, PartialEq, Eq)]
pub struct PathGas {
    receive: u64,
    acknowledge: u64,
    timeout: u64,
}

impl Model for PathGas {
    ghost use Rattle.rb_script_types.specs.Gas as gas;

    ghost Value = { gas.PathGas };

    ghost view = { λ g. record { receive = g.receive; acknowledge = g.acknowledge; timeout = g.timeout } };

    ghost invariant = { λ g. gas.IsPathGas (record { receive = g.receive; acknowledge = g.acknowledge; timeout = g.timeout }) };

    ghost inverse = { λ g. record { receive = g.receive; acknowledge = g.acknowledge; timeout = g.timeout } };
}

impl PathGas {
    ghost use Rattle.rb_script_types.specs.Gas as gas;

    /// The most gas of a message.
    pub const MAX: u64 = 1_000_000_000;

    /// The gas of a receive, an acknowledgement and a timeout, where each is at most 10^9.
    pub fn new(receive: u64, acknowledge: u64, timeout: u64) -> Option<PathGas>
        ensures { let given : gas.PathGas = record { receive = receive; acknowledge = acknowledge; timeout = timeout }
            in SomeIff result (IsPathGas given) given }
    {
        if receive > Self::MAX || acknowledge > Self::MAX || timeout > Self::MAX {
            return None;
        }
        Some(PathGas {
            receive,
            acknowledge,
            timeout,
        })
    }

    /// The gas of a message of this kind.
    pub fn of(self, kind: Kind) -> u64
        ensures value { result ≡ gas_for self kind }
        ensures range { result ≤ 10 ^ 9 }
    {
        match kind {
            Kind::Receive => self.receive,
            Kind::Acknowledge => self.acknowledge,
            Kind::Timeout => self.timeout,
        }
    }
}
