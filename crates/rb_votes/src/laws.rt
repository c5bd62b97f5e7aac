//! Laws of the votes that are sent, over the definitions alone.
ghost use Rattle.rb_votes.specs.Laws.{LeastPowerExceeds, FilterIsPart, FirstHaveMost, PrefixIsLeast};
ghost use Rattle.rb_votes.specs.Laws.{SentAreVoters, SentAreEnough, NoneIsSuperfluous, LeastIfOneDecides, AtMostBoth, AtMostTwice, TooLittleSendsAll, OwnTestIsLeast, OwnTestDecides};

/// "More than a fraction of a total" is "at least the least power that is more".
pub fn least_power_exceeds()
    ensures { LeastPowerExceeds }
{}

/// Votes that are chosen by any test of their voters are a part of them.
pub fn filter_is_part()
    ensures { FilterIsPart }
{}

/// The sum of any so many powers is at most that of the greatest so many.
pub fn first_have_most()
    ensures { FirstHaveMost }
{}

/// For one test the shortest prefix by power falling is a least choice.
pub fn prefix_is_least()
    ensures { PrefixIsLeast }
{}

/// Only voters' votes are sent, each once.
pub fn sent_are_voters()
    ensures { SentAreVoters }
{}

/// What is sent passes wherever all votes do.
pub fn sent_are_enough()
    ensures { SentAreEnough }
{}

/// None that is sent can be left out.
pub fn none_is_superfluous()
    ensures { NoneIsSuperfluous }
{}

/// Where one test decides alone no choice that passes both has fewer votes.
pub fn least_if_one_decides()
    ensures { LeastIfOneDecides }
{}

/// At most the sum of what each test needs by itself.
pub fn at_most_both()
    ensures { AtMostBoth }
{}

/// At most twice the least.
pub fn at_most_twice()
    ensures { AtMostTwice }
{}

/// Where all voters don't pass, all votes are sent.
pub fn too_little_sends_all()
    ensures { TooLittleSendsAll }
{}

/// No fewer are sent than the own set's test needs alone.
pub fn own_test_is_least()
    ensures { OwnTestIsLeast }
{}

/// Just as many are sent where these pass the trusted set's test too.
pub fn own_test_decides()
    ensures { OwnTestDecides }
{}
