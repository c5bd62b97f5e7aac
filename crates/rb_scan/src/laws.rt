//! Laws of what a path owes, which hold by their proofs alone.
ghost use Rattle.rb_scan.specs.Laws.{NextIsLeast, SettledIsNotOwed, TimeoutReplacesReceives, ReadyIsWithinReach, ReadyReceivesAreConsecutive, ReadyIsAllBefore, AllGoAlong, GoingReceivesAreConsecutive};

/// The sequence from which on an ORDERED path's run of a kind stands is the least at which a
/// message of that kind is waited for.
pub fn next_is_least()
    ensures { NextIsLeast }
{}

/// A settled message is owed no more.
pub fn settled_is_not_owed()
    ensures { SettledIsNotOwed }
{}

/// An ORDERED path that owes a timeout owes no receive.
pub fn timeout_replaces_receives()
    ensures { TimeoutReplacesReceives }
{}

/// The floor of a ready message is within reach.
pub fn ready_is_within_reach()
    ensures { ReadyIsWithinReach }
{}

/// The ready receives of an ORDERED path stand in consecutive rising sequences.
pub fn ready_receives_are_consecutive()
    ensures { ReadyReceivesAreConsecutive }
{}

/// So do the ready ones of the receives of an ORDERED path that go.
pub fn going_receives_are_consecutive()
    ensures { GoingReceivesAreConsecutive }
{}

/// A message of a list is ready exactly where its floor is within reach and, in an ORDERED run of
/// receives or of acknowledgements, so is each earlier floor of its kind; what is ready keeps the
/// list's order.
pub fn ready_is_all_before()
    ensures { ReadyIsAllBefore }
{}

/// At any height from the greatest floor of the ready messages up to the reach the same messages are ready.
pub fn all_go_along()
    ensures { AllGoAlong }
{}
