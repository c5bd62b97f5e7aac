//! How far the time of a header may be ahead.
ghost use Rattle.std.specs.Prelude.{◌≡◌, ◌<◌, ◌^◌};

use std::marker::Model;

/// A clock drift: 0 to 2^63 - 1 nanoseconds.
#[derive(Clone, Copy)]
pub struct Drift {
    nanoseconds: u64,
}

impl Model for Drift {
    ghost use Rattle.std.specs.Prelude.{ℕ, ◌<◌, ◌^◌};

    ghost Value = { ℕ };

    ghost view = { λ d. d.nanoseconds };

    ghost invariant = { λ d. d.nanoseconds < 2 ^ 63 };

    ghost inverse = { λ n. record { nanoseconds = n } };
}

impl Drift {
    /// The drift of so many nanoseconds.
    pub fn new(nanoseconds: u64) -> Drift
        requires { nanoseconds < 2 ^ 63 }
        ensures { result ≡ nanoseconds }
    {
        Drift { nanoseconds }
    }

    /// The drift in nanoseconds.
    pub fn nanoseconds(self) -> u64
        ensures value { result ≡ self }
        ensures range { result < 2 ^ 63 }
    {
        self.nanoseconds
    }
}
