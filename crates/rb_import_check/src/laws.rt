//! What the definitions of the contracts say.
ghost use Rattle.rb_import_check.specs.Refusals.{ContradictionsStay};
ghost use Rattle.rb_import_check.specs.Signed.{VerifiedVotesAreGiven};

/// What `seen_chain` names as the reason why it refuses a chain's answers stays one whatever answers come beside them: no
/// chain is refused for want of a page, or of any other answer.
pub fn contradictions_stay()
    ensures { ContradictionsStay }
{}

/// A header that more than two thirds of its set signed in verified votes is signed so as the answers give its votes: with
/// `Signatures::Verified` no header stays that goes with `Signatures::AsGiven`.
pub fn verified_votes_are_given()
    ensures { VerifiedVotesAreGiven }
{}
