//! How a client judges headers.
ghost use Rattle.std.specs.Prelude.{◌≡◌, ◌^◌, ◌<◌};
ghost use Rattle.rb_base.specs.Fraction.{one_third};

use crate::amount::Period;
use crate::fraction::Fraction;
use crate::ties::Ties;
use crate::votes::CarriedVotes;
use std::marker::Model;

/// How a client judges headers (ICS 7, `ClientState`): its trusting period, the clock drift that
/// it allows, in nanoseconds, and its trust level; which votes its updates carry; and which heights come first in
/// lists of updates that are equally cheap.
#[derive(Clone, Copy, PartialEq, Eq)]
pub struct Options {
    period: Period,
    drift: u64,
    trust: Fraction,
    votes: CarriedVotes,
    ties: Ties,
}

impl Model for Options {
    ghost use Rattle.std.specs.Prelude.{◌<◌, ◌^◌};
    ghost use Rattle.rb_base.specs.Options.{ClientOptions};

    ghost Value = { ClientOptions };

    ghost view = { λ o. record { period = o.period; drift = o.drift; trust = o.trust; votes = o.votes; ties = o.ties } };

    ghost invariant = { λ o. o.drift < 2 ^ 63 };

    ghost inverse = { λ t. record { period = t.period; drift = t.drift; trust = t.trust; votes = t.votes; ties = t.ties } };
}

impl Options {
    /// Options with the trust level one third; updates carry all votes, and commit votes are charged;
    /// of ties the lower heights come first.
    pub fn new(period: Period, drift: u64) -> Options
        requires { drift < 2 ^ 63 }
        ensures { result ≡ record { period = period; drift = drift; trust = one_third; votes = CarriedVotes.Commit; ties = Ties.Lower } }
    {
        Options {
            period,
            drift,
            trust: Fraction::one_third(),
            votes: CarriedVotes::Commit,
            ties: Ties::Lower,
        }
    }

    /// These options with another trust level.
    pub fn with_trust(self, trust: Fraction) -> Options
        ensures { result ≡ record self { trust = trust } }
    {
        Options { trust, ..self }
    }

    /// These options with other votes that updates carry.
    pub fn with_votes(self, votes: CarriedVotes) -> Options
        ensures { result ≡ record self { votes = votes } }
    {
        Options { votes, ..self }
    }

    /// These options with other heights first.
    pub fn with_ties(self, ties: Ties) -> Options
        ensures { result ≡ record self { ties = ties } }
    {
        Options { ties, ..self }
    }

    /// How long a stored record may be trusted.
    pub fn period(&self) -> Period
        ensures { result ≡ self.now.period }
    {
        self.period
    }

    /// How far a header's time may lie ahead of the client's clock, in nanoseconds.
    pub fn drift(&self) -> u64
        ensures value { result ≡ self.now.drift }
        ensures range { self.now.drift < 2 ^ 63 }
    {
        self.drift
    }

    /// The share of a trusted set that has to sign a header that isn't adjacent.
    pub fn trust(&self) -> Fraction
        ensures { result ≡ self.now.trust }
    {
        self.trust
    }

    /// Which votes of a header an update carries, and is charged for.
    pub fn votes(&self) -> CarriedVotes
        ensures { result ≡ self.now.votes }
    {
        self.votes
    }

    /// Which heights come first in lists of updates that are equally cheap.
    pub fn ties(&self) -> Ties
        ensures { result ≡ self.now.ties }
    {
        self.ties
    }
}
