//! A step, and what a client answers to it in its window.
ghost use Rattle.std.specs.Prelude.{◌≡◌, ◌+◌, Some, None, IsSomeAnd, MatchOption, length};
ghost use Rattle.std.specs.Option.{option_copied, ForSome};
ghost use Rattle.rb_step.specs.Answer.{answer_within};
ghost use Rattle.rb_step.specs.KnownStep.{step_at};
ghost use Rattle.rb_step.specs.Fee.{size_of};
ghost use Rattle.rb_step.specs.SignedPower.{signed_power};
ghost use Rattle.rb_valset.specs.ValidatorSet.{total_of};
ghost use Rattle.rb_explain_plan.specs.Power.{IsPower};
ghost use Rattle.rb_explain_plan.specs.Step.{IsExplained, IsOwnPower, IsToldBy, IsTrustedPower};

use crate::power::{Power, power_of};
use rb_base::{Fraction, Height, Moment, Options, Window};
use rb_book::{Header, Record};
use rb_step::{ClientView, Verdict, carried_votes, signed_power, times_fault, verify};
use rb_valset::ValidatorSet;
use std::alloc::{Allocator, Global};
use std::marker::Model;

/// A step from the record at a trusted height to the header at a height, and what a client answers to it:
/// `Success` where it accepts the step at every moment of its window, else the first check that fails at
/// some moment of it. Beside that stands what the rule goes by: the moment, in nanoseconds since 1970, from which on
/// the trusted record has expired; the header's time; the power of the header's commit voters in the set that the
/// trusted record names, where the book knows it, and in the header's own set; and the fee, with the votes and the validators of
/// both sets that it is charged for.
#[derive(Clone, Copy, PartialEq, Eq)]
pub struct StepExplanation {
    pub trusted: Height,
    pub height: Height,
    pub answer: Verdict,
    pub expiry: u128,
    pub time: Moment,
    pub trusted_power: Option<Power>,
    pub own_power: Power,
    pub fee: u64,
    pub votes: usize,
    pub validators: usize,
}

/// A step with the sets that its record and its header name.
#[derive(Drop)]
struct Step<'a, A: Allocator = Global> {
    trusted_height: Height,
    trusted: &'a Record,
    next: Option<&'a ValidatorSet<A>>,
    header: &'a Header<A>,
    own: &'a ValidatorSet<A>,
}

impl<'a, A: Allocator> Model for Step<'a, A> {
    ghost use Rattle.std.specs.Option.{option_copied, ForSome};
    ghost use Rattle.rb_book.specs.Header.{IsSignedBy, Names};
    ghost use Rattle.rb_step.specs.StepRule as rule;

    ghost Value = { rule.Step };

    ghost view = { λ s. rule.step_of s.trusted_height s.trusted.now (option_copied s.next) s.header.now s.own.now };

    ghost invariant = { λ s. IsSignedBy s.header.now s.own.now × ForSome (option_copied s.next) (Names s.trusted.now) };
}

/// The step that a client's book knows.
#[tactic(auto, unfolding(rb_step::specs::KnownStep::step_at))]
fn step_at<'a, A: Allocator + Copy>(
    view: &ClientView<'a, A>,
    trusted: Height,
    height: Height,
) -> Option<Step<'a, A>>
    ensures { result ≡ step_at view.now.book trusted height }
{
    let book = view.book();
    let record = book.record(trusted)?;
    let header = book.header(height)?;
    let own = book.set(header.set_hash())?;
    Some(Step {
        trusted_height: trusted,
        trusted: record,
        next: book.set(record.next()),
        header,
        own,
    })
}

impl<A: Allocator + Copy> Step<'_, A> {
    /// The first check that fails at some moment of the window, or success. What the votes say is one
    /// answer at every moment that heights and times allow.
    fn answer(&self, options: &Options, window: &Window) -> Verdict
        ensures { result ≡ answer_within options.now window.now self.now }
    {
        let Step {
            trusted_height,
            trusted,
            next,
            header,
            own,
        } = self;
        match times_fault(options, *trusted_height, trusted, header, window) {
            Some(reason) => Verdict::Invalid(reason),
            None => verify(
                options,
                *trusted_height,
                trusted,
                *next,
                header,
                own,
                window.until(),
            ),
        }
    }

    /// The power of the header's commit voters in a set.
    fn power_in(&self, set: &ValidatorSet<A>, fraction: Fraction) -> Power
        ensures { IsPower (signed_power set.now self.now.own self.now.header) (total_of set.now) fraction result }
    {
        power_of(
            fraction,
            signed_power(set, self.own, self.header),
            set.total(),
        )
    }

    /// Their power in the set that the trusted record names.
    fn trusted_power(&self, options: &Options) -> Option<Power>
        ensures { MatchOption self.now.next (result ≡ None) (λ named. IsSomeAnd result (IsTrustedPower options.now self.now named)) }
    {
        let named = self.next?;
        Some(self.power_in(named, options.trust()))
    }

    /// Their power in the header's own set.
    fn own_power(&self) -> Power
        ensures { IsOwnPower self.now result }
    {
        self.power_in(self.own, Fraction::two_thirds())
    }

    /// The members of both sets.
    fn validators(&self) -> usize
        ensures { result ≡ length self.now.own + size_of self.now.next }
    {
        self.own.size() + self.next.map_or(0, |next| next.size())
    }

    /// What a client answers to it, and what that goes by, with the fee that it costs.
    fn explained(&self, options: &Options, window: &Window, fee: u64) -> StepExplanation
        ensures { IsToldBy options.now window.now fee self.now result }
    {
        let period = u128::from(options.period().nanoseconds());
        StepExplanation {
            trusted: self.trusted_height,
            height: self.header.height(),
            answer: self.answer(options, window),
            expiry: self.trusted.time().nanoseconds() + period,
            time: self.header.record().time(),
            trusted_power: self.trusted_power(options),
            own_power: self.own_power(),
            fee,
            votes: carried_votes(
                options,
                self.trusted_height,
                self.next,
                self.header,
                self.own,
            ),
            validators: self.validators(),
        }
    }
}

/// What a client answers to the step from the record at a trusted height to the header at a height; none
/// where its book doesn't know the record, the header, or the header's own set. Takes no memory.
#[tactic(auto, using(crate::proofs::KnownSteps::step_explained))]
pub fn explain_step<A: Allocator + Copy>(
    view: &ClientView<'_, A>,
    trusted: Height,
    height: Height,
) -> Option<StepExplanation>
    ensures { IsExplained view.now trusted height result }
{
    let options = view.options();
    let window = view.window();
    let fee = view.charge(&view.fees(), trusted, height);
    let step = step_at(view, trusted, height)?;
    let explanation = step.explained(&options, &window, fee);
    Some(explanation)
}
