//! Why a step is asked for, and why no more is.
ghost use Rattle.std.specs.Prelude.{◌≡◌};
ghost use Rattle.rb_want_requests.specs.Ends.{is_same_end};
ghost use Rattle.rb_want_requests.specs.Reasons.{client_of, needed_of, refused_of};

use rb_base::{ChainId, ClientId, Height, PathId};
use rb_import_answers::TrustLevel;
use rb_step::Verdict;
use std::fmt;

/// The heights between which a client's search asks: the greatest accepted one from a trusted height, and the
/// least refused one, with the step rule's answer where it was judged.
#[derive(Clone, Copy)]
pub struct SearchReason {
    pub client: ClientId,
    pub trusted: Height,
    pub accepted: Option<Height>,
    pub refused: Option<Height>,
    pub verdict: Option<Verdict>,
    pub trust: TrustLevel,
}

impl fmt::Display for SearchReason {
    ghost use Rattle.std.specs.Prelude.{Some};
    ghost use Rattle.rb_want_requests.specs.Reasons.{why_line};

    ghost output = { λ why. Some (why_line why) };

    fn fmt<W: fmt::Write>(&self, f: &mut fmt::Formatter<W>) -> fmt::Result {
        let client = self.client;
        let trusted = self.trusted;
        match (self.accepted, self.refused) {
            (None, None) => write!(f, "why {client} from {trusted}: nothing judged yet"),
            (Some(accepted), None) => {
                write!(f, "why {client} from {trusted}: {accepted} accepted")
            }
            (None, Some(height)) => {
                let refused = refused_of(height, self);
                write!(f, "why {client} from {trusted}: {refused}")
            }
            (Some(accepted), Some(height)) => {
                let refused = refused_of(height, self);
                write!(
                    f,
                    "why {client} from {trusted}: {accepted} accepted, {refused}"
                )
            }
        }
    }
}

/// A height that is refused from a trusted one, and why, where that was judged.
#[derive(Clone, Copy)]
struct Refused {
    height: Height,
    trusted: Height,
    verdict: Option<Verdict>,
    trust: TrustLevel,
}

/// The refused height of a reason.
fn refused_of(height: Height, why: &SearchReason) -> Refused
    ensures { result ≡ refused_of height why.now }
{
    Refused {
        height,
        trusted: why.trusted,
        verdict: why.verdict,
        trust: why.trust,
    }
}

impl fmt::Display for Refused {
    ghost use Rattle.std.specs.Prelude.{Some};
    ghost use Rattle.rb_want_requests.specs.Reasons.{refused_text};

    ghost output = { λ refused. Some (refused_text refused) };

    fn fmt<W: fmt::Write>(&self, f: &mut fmt::Formatter<W>) -> fmt::Result {
        let height = self.height;
        match self.verdict {
            None => {
                let next = self.trusted.get() + 1;
                write!(
                    f,
                    "{height} not judged: the node doesn't give its header, its validators or those of {next}"
                )
            }
            Some(Verdict::Success) => write!(f, "{height} accepted"),
            Some(Verdict::Invalid(reason)) => {
                let name = reason.name();
                write!(f, "{height} refused ({name})")
            }
            Some(Verdict::NotEnoughTrust { signed, total }) => {
                let needed = needed_of(total, self.trust);
                write!(
                    f,
                    "{height} refused ({signed} of {total} signed, more than {needed} needed)"
                )
            }
        }
    }
}

/// The greatest power, of this total, that isn't enough for a trust level.
fn needed_of(total: u64, trust: TrustLevel) -> u128
    ensures { result ≡ needed_of total trust }
{
    if trust.denominator == 0 {
        return 0;
    }
    u128::from(total) * u128::from(trust.numerator) / u128::from(trust.denominator)
}

/// What a client's host or the node of the chain that it tracks doesn't give.
#[derive(Clone, Copy)]
pub enum Missing {
    State,
    Records,
    LatestHeight,
}

impl fmt::Display for Missing {
    ghost use Rattle.std.specs.Prelude.{Some};
    ghost use Rattle.rb_want_requests.specs.Reasons.{missing_text};

    ghost output = { λ missing. Some (missing_text missing) };

    fn fmt<W: fmt::Write>(&self, f: &mut fmt::Formatter<W>) -> fmt::Result {
        match self {
            Missing::State => write!(f, "its state"),
            Missing::Records => write!(f, "all of its consensus states"),
            Missing::LatestHeight => write!(f, "the latest height of the chain that it tracks"),
        }
    }
}

/// Why no more is asked for a client that isn't where it should be.
#[derive(Clone, Copy)]
pub enum End {
    /// Its state, its records or the latest height of its chain were refused.
    NotGiven {
        client: ClientId,
        missing: Missing,
    },
    /// It has stored no record of the tracked chain's revision below the height that it should get to.
    NoRecord {
        client: ClientId,
    },
    /// It is frozen, or isn't Tendermint's.
    OtherClient {
        client: ClientId,
    },
    /// Its trust level, trusting period or clock drift is out of range.
    BadOptions {
        client: ClientId,
    },
    /// The node that answered for the tracked chain is another chain's.
    OtherNetwork {
        client: ClientId,
        chain: ChainId,
    },
    /// The chain isn't at the goal's height yet.
    GoalAhead {
        client: ClientId,
        goal: Height,
        latest: Height,
    },
    /// Nothing goes on from a trusted height.
    Stuck(SearchReason),
}

impl fmt::Display for End {
    ghost use Rattle.std.specs.Prelude.{Some};
    ghost use Rattle.rb_want_requests.specs.Reasons.{client_end_line};

    ghost output = { λ end. Some (client_end_line end) };

    fn fmt<W: fmt::Write>(&self, f: &mut fmt::Formatter<W>) -> fmt::Result {
        let client = client_of(self);
        let cause = Cause { end: self };
        write!(f, "end {client}: {cause}")
    }
}

/// The client that an end is of.
fn client_of(end: &End) -> ClientId
    ensures { result ≡ client_of end.now }
{
    match end {
        End::NotGiven { client, .. }
        | End::NoRecord { client }
        | End::OtherClient { client }
        | End::BadOptions { client }
        | End::OtherNetwork { client, .. }
        | End::GoalAhead { client, .. } => *client,
        End::Stuck(why) => why.client,
    }
}

/// Why an end is one.
#[derive(Clone, Copy)]
struct Cause<'a> {
    end: &'a End,
}

impl fmt::Display for Cause<'_> {
    ghost use Rattle.std.specs.Prelude.{Some};
    ghost use Rattle.rb_want_requests.specs.Reasons.{cause_text};

    ghost output = { λ cause. Some (cause_text cause.end.now) };

    fn fmt<W: fmt::Write>(&self, f: &mut fmt::Formatter<W>) -> fmt::Result {
        match self.end {
            End::NotGiven { missing, .. } => write!(f, "the node doesn't give {missing}"),
            End::NoRecord { .. } => write!(
                f,
                "it has stored no consensus state below the height that it should get to"
            ),
            End::OtherClient { .. } => write!(f, "it is frozen, or no Tendermint client"),
            End::BadOptions { .. } => {
                write!(f, "its trust level, period or drift is out of range")
            }
            End::OtherNetwork { chain, .. } => {
                write!(f, "the node's status is not one of {chain}")
            }
            End::GoalAhead { goal, latest, .. } => write!(
                f,
                "its goal is {goal}, and the votes of no height above {latest} are final"
            ),
            End::Stuck(why) => {
                let trusted = why.trusted;
                match why.refused {
                    Some(height) => {
                        let refused = refused_of(height, why);
                        write!(f, "nothing goes on from {trusted}: {refused}")
                    }
                    None => { write!(f, "nothing goes on from {trusted}: no height is above it") }
                }
            }
        }
    }
}

/// Why no more is asked for a path whose pending packets aren't known: the gateway of a chain refused to say which they are.
#[derive(Clone, Copy)]
pub struct PathEnd {
    pub path: PathId,
    pub chain: ChainId,
}

impl PathEnd {
    /// Whether it is of the same path and the same chain as another.
    pub fn is_same(&self, other: &PathEnd) -> bool
        ensures { result ≡ is_same_end self.now other.now }
    {
        self.path.as_str() == other.path.as_str() && self.chain.as_str() == other.chain.as_str()
    }
}

impl fmt::Display for PathEnd {
    ghost use Rattle.std.specs.Prelude.{Some};
    ghost use Rattle.rb_want_requests.specs.Ends.{end_line};

    ghost output = { λ end. Some (end_line end) };

    fn fmt<W: fmt::Write>(&self, f: &mut fmt::Formatter<W>) -> fmt::Result {
        let PathEnd { path, chain } = self;
        write!(
            f,
            "end {path}: the gateway of {chain} doesn't give which of its packets are pending"
        )
    }
}
