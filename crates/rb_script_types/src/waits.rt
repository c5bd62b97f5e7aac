//! How long a path's messages may wait.
ghost use Rattle.std.specs.Prelude.{◌≡◌};
ghost use Rattle.rb_script_types.specs.Waits.{wait_for};

use rb_scan::Kind;

/// How many nanoseconds each kind of message of a path may wait for others to go with it; 0: not at all.
#[derive(Clone, Copy, PartialEq, Eq)]
pub struct Waits {
    pub receive: u64,
    pub acknowledge: u64,
    pub timeout: u64,
}

impl Waits {
    /// No message may wait.
    pub const NONE: Waits = Waits {
        receive: 0,
        acknowledge: 0,
        timeout: 0,
    };

    /// How many nanoseconds a message of this kind may wait.
    pub fn of(self, kind: Kind) -> u64
        ensures { result ≡ wait_for self kind }
    {
        match kind {
            Kind::Receive => self.receive,
            Kind::Acknowledge => self.acknowledge,
            Kind::Timeout => self.timeout,
        }
    }
}
