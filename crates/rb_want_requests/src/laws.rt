//! Laws of requests and of searches, and of rounds, in each of which the answers to the one before are there.
ghost use Rattle.rb_want_requests.specs.Asking.{NoneOverwritten, NoneTwice};
ghost use Rattle.rb_want_requests.specs.Halving.{HalvingIsShort};
ghost use Rattle.rb_want_requests.specs.Rounds.{FewFromOne, FewRounds};

/// What a wanted request asks for isn't there: its answer overwrites no other.
#[tactic(auto, using(crate::proofs::Overwritten::none_overwritten))]
pub fn none_is_overwritten()
    ensures { NoneOverwritten }
{}

/// No request of a round is wanted in a later one, if folders have all that they had, and each request is answered or refused.
#[tactic(auto, using(crate::proofs::Asking::none_twice))]
pub fn none_is_asked_twice()
    ensures { NoneTwice }
{}

/// A gap of at most 2^k heights is closed by k halvings.
#[tactic(auto, using(crate::proofs::Halving::short))]
pub fn halving_is_short()
    ensures { HalvingIsShort }
{}

/// Few rounds of a search ask about steps from one trusted height: of k + 2 rounds, 2^k is less than the heights from there to the
/// greatest that the aim takes.
#[tactic(auto, using(crate::proofs::Rounds::few_from_one))]
pub fn few_ask_from_one()
    ensures { FewFromOne }
{}

/// A search asks in few rounds: in at most k + 1 for each trusted height, from which it is at most 2^k heights to the greatest that
/// the aim takes.
pub fn few_rounds_ask()
    ensures { FewRounds }
{}
