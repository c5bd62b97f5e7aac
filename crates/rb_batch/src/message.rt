//! Messages, of which a cut needs the gas alone.
ghost use Rattle.std.specs.Prelude.{◌≡◌};
ghost use Rattle.rb_batch.specs.Limits.{IsMessageGas};

use std::marker::Model;

/// A message: the gas that it takes, 0 to 10^15.
#[derive(Clone, Copy, PartialEq, Eq)]
pub struct Msg {
    gas: u64,
}

impl Model for Msg {
    ghost use Rattle.std.specs.Prelude.{ℕ};
    ghost use Rattle.rb_batch.specs.Limits.{IsMessageGas};

    ghost Value = { ℕ };

    ghost view = { λ m. m.gas };

    ghost invariant = { λ m. IsMessageGas m.gas };

    ghost inverse = { λ n. record { gas = n } };
}

impl Msg {
    /// The most gas of a message.
    pub const MAX_GAS: u64 = 1_000_000_000_000_000;

    /// The message that takes so much gas.
    pub fn new(gas: u64) -> Msg
        requires { IsMessageGas gas }
        ensures { result ≡ gas }
    {
        Msg { gas }
    }

    /// The gas that it takes.
    pub fn gas(self) -> u64
        ensures value { result ≡ self }
        ensures range { IsMessageGas self }
    {
        self.gas
    }
}
