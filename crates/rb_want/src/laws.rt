//! Laws of what is asked, over the definitions alone.
ghost use Rattle.rb_want.specs.Laws.{NeedsAreAsked, NoneIsIdle, SetsThereAreImported};

/// Each request that is needed, and neither answered nor refused, is asked for, where fewer than 30 go to its
/// address.
#[tactic(auto, using(crate::proofs::Asked::asked))]
pub fn needs_are_asked()
    ensures { NeedsAreAsked }
{}

/// Each request that is asked for is needed.
#[tactic(auto, using(crate::proofs::Asked::idle))]
pub fn none_is_idle()
    ensures { NoneIsIdle }
{}

/// A set for which no page is asked, since it is there by its hash, is among the sets of an import of the same answers, whatever
/// height its pages were answered for. An import refuses no chain for want of a page
/// (`rb_import_check::contradictions_stay`).
#[tactic(auto, using(crate::proofs::Importing::imported))]
pub fn sets_there_are_imported()
    ensures { SetsThereAreImported }
{}
