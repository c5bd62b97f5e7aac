//! Laws of forgetting, over the definitions alone.
ghost use Rattle.rb_super.specs.Forgetting.{ForgettingByFloorsIsUnseen, ReportsAreFree};

use rb_book::laws::{finds_what_was_added, stays_a_book};
use rb_core_model::laws::judged_by_standing;
use rb_step::laws::views_are_orderly;

/// In every script, whoever forgets what lies below the floors, after turns that are chosen by how things stand,
/// gives the reports that the same turns would give, were nothing forgotten and no light store or path ever full, as
/// long as no event speaks of what was forgotten, and none is refused for want of room.
pub fn forgetting_by_floors_is_unseen()
    ensures { ForgettingByFloorsIsUnseen }
{
    finds_what_was_added();
    stays_a_book();
    views_are_orderly();
    judged_by_standing();
}

/// Where no event of a script is refused for want of room, its report is that of light stores and paths that are
/// never full. So forgetting then changes no report of the script.
pub fn reports_are_free()
    ensures { ReportsAreFree }
{}
