//! What a verifier answers to a step.
ghost use Rattle.std.specs.Prelude.{◌≡◌};
ghost use Rattle.rb_step.specs.Reasons.{number_of, name_of};

/// The answer to a step (as `Verdict` of the Rust crate `tendermint-light-client-verifier`).
#[derive(Clone, Copy, Debug, PartialEq, Eq)]
pub enum Verdict {
    /// The step is accepted.
    Success,
    /// The header isn't adjacent, and its commit voters hold too little of the trusted set: so
    /// much power of so much in total.
    NotEnoughTrust {
        /// The power of the commit voters in the trusted set.
        signed: u64,
        /// The total power of the trusted set.
        total: u64,
    },
    /// The step is invalid.
    Invalid(Reason),
}

/// Why a step is invalid.
#[derive(Clone, Copy, Debug, PartialEq, Eq)]
pub enum Reason {
    /// 501: the header isn't higher than the trusted record.
    HeightOrder,
    /// 502: the trusted record's period is over.
    Expired,
    /// 503: the header's time isn't later than the trusted record's.
    TimeNotLater,
    /// 504: the header's time is as far ahead as the drift, or further.
    FromFuture,
    /// 505: the set that the trusted record names isn't known.
    TrustedSetUnknown,
    /// 506: the header is adjacent, and its own set isn't the one that the trusted record names.
    WrongNextSet,
    /// 507: the commit voters hold no more than two thirds of the header's own set.
    NotTwoThirds,
}

impl Reason {
    /// The reason's number.
    pub fn number(self) -> u16
        ensures { result ≡ number_of self }
    {
        match self {
            Reason::HeightOrder => 501,
            Reason::Expired => 502,
            Reason::TimeNotLater => 503,
            Reason::FromFuture => 504,
            Reason::TrustedSetUnknown => 505,
            Reason::WrongNextSet => 506,
            Reason::NotTwoThirds => 507,
        }
    }

    /// The reason's name.
    pub fn name(self) -> &'static str
        ensures { result.now ≡ name_of self }
    {
        match self {
            Reason::HeightOrder => "HeightOrder",
            Reason::Expired => "Expired",
            Reason::TimeNotLater => "TimeNotLater",
            Reason::FromFuture => "FromFuture",
            Reason::TrustedSetUnknown => "TrustedSetUnknown",
            Reason::WrongNextSet => "WrongNextSet",
            Reason::NotTwoThirds => "NotTwoThirds",
        }
    }
}
