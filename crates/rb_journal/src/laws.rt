//! Laws of journals, over definitions alone.
ghost use Rattle.rb_journal.specs.Laws.{CutsLoseNoPart};

/// A journal that was cut within a part has the whole parts before it, and no other.
pub fn cuts_lose_no_part()
    ensures { CutsLoseNoPart }
{}
