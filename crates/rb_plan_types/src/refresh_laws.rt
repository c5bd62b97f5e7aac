//! Laws of refreshes, over the definitions alone.
ghost use Rattle.rb_plan_types.specs.RefreshLaws.{KeptAlive, RefreshesAreSeldom, FewBesideTheLeast, NextRefresh, RefreshIsInReach};

/// A client never expires, if it can be kept in each turn after which it would: the next turn comes within a third of its
/// period, no batch holds it, and a height is in reach that is live in the next turn and a little longer.
pub fn kept_alive()
    ensures { KeptAlive }
{}

/// Each refresh that isn't urgent makes the newest stored state newer by more than half the refresh age, and by nearly the
/// whole of it where headers come at once. An urgent one, where headers lag much, by more than a hundredth of it.
pub fn refreshes_are_seldom()
    ensures { RefreshesAreSeldom }
{}

/// Beside any other choice of updates that keeps the client alive in the same turns, the rule's refreshes are few.
pub fn few_beside_the_least()
    ensures { FewBesideTheLeast }
{}

/// When a client needs its next refresh, by what is in reach now.
pub fn next_refresh()
    ensures { NextRefresh }
{}

/// What a refresh needs is in reach, and newer than the newest stored state.
pub fn refresh_is_in_reach()
    ensures { RefreshIsInReach }
{}
