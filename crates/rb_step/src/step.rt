//! The step rule: when a client accepts a header on the word of a record that it trusts.
ghost use Rattle.std.specs.Prelude.{◌≡◌, ◌≤◌, ◌<◌, ◌↔◌, IfOk, IsTrue, Some};
ghost use Rattle.std.specs.Option.{option_copied, ForSome};
ghost use Rattle.rb_book.specs.Header.{Names, IsSignedBy};
ghost use Rattle.rb_step.specs.StepRule.{step_of, Accepts, AcceptsWithin};
ghost use Rattle.rb_step.specs.Fee.{fee_of, fee_limit};
ghost use Rattle.rb_step.specs.Sent.{sent_of, sent_view};
ghost use Rattle.rb_step.specs.Answer.{answer_at, answer_within, votes_answer};

use crate::carried::{carried_votes, needed_voters};
use crate::charge::charge_for;
use crate::checks::{is_adjacent, is_trusted, times_fault};
use crate::power::{is_signed_by_two_thirds, signed_power};
use crate::sent::{SentVotes, addresses_at};
use crate::verdict::{Reason, Verdict};
use rb_base::{FeeTable, Height, Moment, Options, Window};
use rb_book::{Header, Record};
use rb_valset::ValidatorSet;
use std::alloc::{AllocError, Allocator, Global};
use std::marker::Model;

/// From a trusted record to a header, with the sets that they name.
#[derive(Drop)]
pub(crate) struct Step<'a, A: Allocator = Global> {
    pub(crate) trusted_height: Height,
    pub(crate) trusted: &'a Record,
    pub(crate) next: Option<&'a ValidatorSet<A>>,
    pub(crate) header: &'a Header<A>,
    pub(crate) own: &'a ValidatorSet<A>,
}

impl<'a, A: Allocator> Model for Step<'a, A> {
    ghost use Rattle.std.specs.Option.{option_copied};
    ghost use Rattle.rb_book.specs.Header.{IsSignedBy};
    ghost use Rattle.rb_step.specs.StepRule as rule;

    ghost Value = { rule.Step };

    ghost view = { λ s. rule.step_of s.trusted_height s.trusted.now (option_copied s.next) s.header.now s.own.now };

    ghost invariant = { λ s. IsSignedBy s.header.now s.own.now };
}

impl<A: Allocator + Copy> Step<'_, A> {
    /// What the votes say, by the set that the trusted record names.
    fn votes_answer(&self, options: &Options, next: &ValidatorSet<A>) -> Verdict
        ensures { result ≡ votes_answer options.now self.now (Some next.now) }
    {
        let is_adjacent = is_adjacent(self.trusted_height, self.header);
        // An adjacent header is trusted by its hash alone: nothing is summed for it.
        let signed = if is_adjacent {
            0
        } else {
            signed_power(next, self.own, self.header)
        };
        let total = next.total();
        let (height, trusted) = (self.trusted_height, self.trusted);
        if !is_trusted(options, height, trusted, self.header, signed, total) {
            return if is_adjacent {
                Verdict::Invalid(Reason::WrongNextSet)
            } else {
                Verdict::NotEnoughTrust { signed, total }
            };
        }
        if is_signed_by_two_thirds(self.header, self.own) {
            Verdict::Success
        } else {
            Verdict::Invalid(Reason::NotTwoThirds)
        }
    }

    /// The first check that fails in the window, or success.
    fn answer_within(&self, options: &Options, window: &Window) -> Verdict
        ensures answer { result ≡ answer_within options.now window.now self.now }
        ensures ordered { window.now.from ≤ window.now.until }
    {
        let (height, trusted) = (self.trusted_height, self.trusted);
        if let Some(reason) = times_fault(options, height, trusted, self.header, window) {
            return Verdict::Invalid(reason);
        }
        match self.next {
            Some(next) => self.votes_answer(options, next),
            None => Verdict::Invalid(Reason::TrustedSetUnknown),
        }
    }

    /// Whether the client accepts the step at every moment of the window.
    #[tactic(auto, using(crate::proofs::Success::success_within))]
    pub(crate) fn is_accepted_within(&self, options: &Options, window: &Window) -> bool
        ensures { IsTrue result ↔ AcceptsWithin options.now window.now self.now }
    {
        matches!(self.answer_within(options, window), Verdict::Success)
    }

    /// What the step costs a client with these options by a table of fees or of gas.
    pub(crate) fn charge(&self, options: &Options, table: &FeeTable) -> u64
        ensures value { result ≡ fee_of options.now table.now self.now }
        ensures bound { result < fee_limit }
    {
        let height = self.trusted_height;
        let votes = carried_votes(options, height, self.next, self.header, self.own);
        charge_for(table, votes, self.next, self.own)
    }

    /// The votes that are sent where a client sends only those that the step needs.
    pub(crate) fn sent_votes(&self, alloc: A, options: &Options) -> Result<SentVotes<A>, AllocError>
        ensures { IfOk result (λ sent. sent_view sent ≡ sent_of options.now self.now) }
    {
        let (height, next) = (self.trusted_height, self.next);
        let voters = needed_voters(alloc, options, height, next, self.header, self.own)?;
        Ok(SentVotes {
            senders: addresses_at(alloc, self.own, voters.as_slice())?,
            commits: self.header.commits(),
        })
    }
}

/// What a client that trusts the record at a height answers to a header at a moment: `Success`
/// exactly where the step is accepted, else the first check that fails. `next` is the set whose
/// hash the record gives for the next block, if it is known, and `own` the header's own set.
pub fn verify<A: Allocator + Copy>(
    options: &Options,
    trusted_height: Height,
    trusted: &Record,
    next: Option<&ValidatorSet<A>>,
    header: &Header<A>,
    own: &ValidatorSet<A>,
    moment: Moment,
) -> Verdict
    requires named { ForSome (option_copied next) (Names trusted.now) }
    requires signed { IsSignedBy header.now own.now }
    ensures answer { result ≡ answer_at options.now moment
        (step_of trusted_height trusted.now (option_copied next.entry) header.now own.now) }
    ensures success { (result ≡ Verdict.Success) ↔ Accepts options.now moment
        (step_of trusted_height trusted.now (option_copied next.entry) header.now own.now) }
{
    let step = Step {
        trusted_height,
        trusted,
        next,
        header,
        own,
    };
    step.answer_within(options, &Window::at(moment))
}

/// Whether a client that trusts the record at a height accepts a header at every moment of a
/// window. `next` is the set whose hash the record gives for the next block, if it is known, and
/// `own` the header's own set.
pub fn accepts_in<A: Allocator + Copy>(
    options: &Options,
    trusted_height: Height,
    trusted: &Record,
    next: Option<&ValidatorSet<A>>,
    header: &Header<A>,
    own: &ValidatorSet<A>,
    window: &Window,
) -> bool
    requires named { ForSome (option_copied next) (Names trusted.now) }
    requires signed { IsSignedBy header.now own.now }
    ensures { IsTrue result ↔ AcceptsWithin options.now window.now
        (step_of trusted_height trusted.now (option_copied next.entry) header.now own.now) }
{
    let step = Step {
        trusted_height,
        trusted,
        next,
        header,
        own,
    };
    step.is_accepted_within(options, window)
}
