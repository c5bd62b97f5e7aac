//! The search for the heights that a client's updates should go to: from a trusted height to the greatest that is
//! accepted from there, which halving finds, and on from that.
ghost use Rattle.std.specs.Prelude.{◌<◌, IfOk};
ghost use Rattle.rb_want_requests.specs.Hop.{IsHop, IsRefusedStep};
ghost use Rattle.rb_want_requests.specs.Search.{IsFinding};

use crate::gap::Gap;
use crate::judge::{Judge, StepJudgement};
use rb_base::Height;
use std::alloc::AllocError;

/// Where a client is to get: to a height from `least` to `most`, of which `most` is preferred.
#[derive(Clone, Copy)]
pub struct Aim {
    pub least: Height,
    pub most: Height,
}

/// A step whose judgement is sought: from a trusted height, above the greatest height that is accepted
/// from there, and below the least that isn't, where such were judged.
#[derive(Clone, Copy, PartialEq, Eq)]
pub struct Question {
    pub trusted: Height,
    pub height: Height,
    pub accepted: Option<Height>,
    pub refused: Option<Height>,
}

/// What a search comes to.
#[derive(Clone, Copy, PartialEq, Eq)]
pub enum SearchOutcome {
    /// A step has to be judged before the search goes on.
    Asks(Question),
    /// Accepted steps lead to this height, which the aim wants.
    Reached(Height),
    /// From this trusted height, to which accepted steps lead, no step goes on: the one to the height is refused, or what
    /// it takes to judge it isn't given.
    Stuck { trusted: Height, height: Height },
}

/// Where the search goes from a trusted height.
#[derive(Clone, Copy)]
enum Hop {
    To(Height),
    Asks(Question),
    Stuck(Height),
}

/// What the search from a trusted height comes to. Answers that it takes to judge a step are asked for one step at a
/// time: once they are there, the search goes on from there.
#[tactic(auto, using(crate::proofs::Leading::start, crate::proofs::Leading::further))]
pub fn search<J: Judge>(judge: &J, first: Height, aim: &Aim) -> Result<SearchOutcome, AllocError>
    ensures { IfOk result (IsFinding (J.judges judge.now) first aim.now) }
{
    let mut trusted = first;
    'hops: while trusted < aim.least && trusted < aim.most {
        match hop_from(judge, trusted, aim)? {
            Hop::To(height) => trusted = height,
            Hop::Asks(question) => return Ok(SearchOutcome::Asks(question)),
            Hop::Stuck(height) => return Ok(SearchOutcome::Stuck { trusted, height }),
        }
    }
    Ok(SearchOutcome::Reached(trusted))
}

/// The hop from a trusted height: to the greatest height that the aim takes, if that is accepted, else to the greatest that
/// is, by halves.
fn hop_from<J: Judge>(judge: &J, trusted: Height, aim: &Aim) -> Result<Hop, AllocError>
    requires { trusted < aim.now.most }
    ensures { IfOk result (IsHop (J.judges judge.now) aim.now trusted) }
{
    match judge.judge(trusted, aim.most)? {
        StepJudgement::Accepted => Ok(Hop::To(aim.most)),
        StepJudgement::Unknown => Ok(Hop::Asks(Question {
            trusted,
            height: aim.most,
            accepted: None,
            refused: None,
        })),
        StepJudgement::Never => Ok(Hop::Stuck(aim.most)),
        StepJudgement::Refused | StepJudgement::Gone => halve(judge, trusted, aim),
    }
}

/// The hop to the greatest accepted height below the greatest that the aim takes.
#[tactic(auto, using(crate::proofs::Halving::whole, crate::proofs::Halving::upper, crate::proofs::Halving::lower, crate::proofs::Halving::halves))]
fn halve<J: Judge>(judge: &J, trusted: Height, aim: &Aim) -> Result<Hop, AllocError>
    requires { IsRefusedStep (J.judges judge.now) aim.now trusted aim.now.most }
    ensures { IfOk result (IsHop (J.judges judge.now) aim.now trusted) }
{
    let mut gap = Gap {
        floor: trusted,
        ceiling: aim.most,
    };
    let mut accepted = None;
    'halvings: while let Some(height) = gap.middle() {
        match judge.judge(trusted, height)? {
            StepJudgement::Accepted if height >= aim.least => return Ok(Hop::To(height)),
            StepJudgement::Accepted => {
                accepted = Some(height);
                gap.floor = height;
            }
            StepJudgement::Gone => gap.floor = height,
            StepJudgement::Refused => gap.ceiling = height,
            StepJudgement::Never => return Ok(Hop::Stuck(height)),
            StepJudgement::Unknown => {
                return Ok(Hop::Asks(Question {
                    trusted,
                    height,
                    accepted,
                    refused: Some(gap.ceiling),
                }));
            }
        }
    }
    Ok(match accepted {
        Some(height) => Hop::To(height),
        None => Hop::Stuck(gap.ceiling),
    })
}
