//! Voters by their power, and what a step needs of it.
ghost use Rattle.std.specs.Prelude.{◌≡◌};
ghost use Rattle.rb_votes.specs.Power.{power_in, power_of};

/// A validator that voted to commit.
#[derive(Clone, Copy, Default, Debug, PartialEq, Eq)]
pub struct Voter {
    /// Its place in the header's own set.
    pub place: usize,
    /// Its power in the header's own set.
    pub own: u64,
    /// Its power in the trusted set; 0 where it isn't a member.
    pub trusted: u64,
}

/// The least power that passes each test of a step.
#[derive(Clone, Copy, PartialEq, Eq)]
pub struct Needed {
    /// Of the header's own set.
    pub own: u64,
    /// Of the trusted set; 0 where the header is adjacent, which has no such test.
    pub trusted: u64,
}

/// Of which set a voter's power counts.
#[derive(Clone, Copy)]
pub(crate) enum Power {
    Own,
    Trusted,
}

impl Power {
    /// The voter's power of this kind.
    pub(crate) fn of(self, voter: &Voter) -> u64
        ensures { result ≡ power_of self voter.now }
    {
        match self {
            Power::Own => voter.own,
            Power::Trusted => voter.trusted,
        }
    }

    /// What is needed of this kind.
    pub(crate) fn needed(self, needed: &Needed) -> u64
        ensures { result ≡ power_in self needed.now }
    {
        match self {
            Power::Own => needed.own,
            Power::Trusted => needed.trusted,
        }
    }
}
