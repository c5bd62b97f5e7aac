//! Laws of the step rule and of the light client, over the definitions alone.
ghost use Rattle.rb_step.specs.Laws.{AnswerApplies, SuccessIsAcceptance, WindowIsByEnds, WindowIsByStep, ViewsAreOrderly, NeededIsAccepted, NeededAreFewest, LeastFeeIsLeast};

/// A step is accepted at every moment of a window exactly where it is accepted at the first and
/// at the last.
pub fn window_is_by_ends()
    ensures { WindowIsByEnds }
{}

/// The answer for a window is success exactly where the step is accepted at every moment of it.
pub fn success_is_acceptance()
    ensures { SuccessIsAcceptance }
{}

/// The answer for a window is invalid for a reason, or too little trust with so much power of so
/// much, or success, exactly where the condition of that answer holds in its own words and that of
/// no earlier one does. What `verify` answers is that for the window of its moment alone.
pub fn answer_applies()
    ensures { AnswerApplies }
{}

/// Updates are allowed whatever moments of the window they come at exactly where each in turn
/// trusts a height that is stored or an earlier update's, by a step that is accepted at every
/// moment of the window.
pub fn window_is_by_step()
    ensures { WindowIsByStep }
{}

/// In a client's view steps rise, only live heights are trusted, a stored step is live, and fees
/// are below 2^45.
pub fn views_are_orderly()
    ensures { ViewsAreOrderly }
{}

/// A header with the needed votes alone is accepted wherever it is with all of its votes.
pub fn needed_is_accepted()
    ensures { NeededIsAccepted }
{}

/// Of the votes with which a header is accepted the needed ones are the fewest where one of the step's tests
/// decides alone, and at most twice as many as any.
pub fn needed_are_fewest()
    ensures { NeededAreFewest }
{}

/// No step to a header costs less than the fewest votes that any update to it carries.
pub fn least_fee_is_least()
    ensures { LeastFeeIsLeast }
{}
