//! Laws of following, over definitions alone.
ghost use Rattle.rb_follow.specs.Laws.{BeginningsAreReported, AnswersAreReports, ForgettingChangesNoAnswer, AnswersAreLines};

use rb_batch::laws::{cut_apart_is_division, cut_apart_is_one, least_cut_is_one};
use rb_plan_types::laws::answers_are_one;
use rb_super::forgetting::forgetting_by_floors_is_unseen;

/// The reports of a script's beginnings are beginnings of its report: what was answered stays right, whatever
/// comes later.
#[tactic(auto, using(crate::proofs::LawsLemmas::beginnings_reported))]
pub fn beginnings_are_reported()
    ensures { BeginningsAreReported }
{}

/// The reports among the answers to documents are those of the turns that were taken, each in the standing that
/// the turns before it leave; from version 3 on what lies below the floors is forgotten after a turn.
#[tactic(auto, using(crate::proofs::LawsLemmas::answers_reports))]
pub fn answers_are_reports()
    ensures { AnswersAreReports }
{}

/// From version 3 on the reports among the answers are those that the same turns would have, were nothing forgotten
/// and no light store or path ever full, as long as no event speaks of what was forgotten, and none is refused for
/// want of room.
pub fn forgetting_changes_no_answer()
    ensures { ForgettingChangesNoAnswer }
{
    answers_are_one();
    least_cut_is_one();
    cut_apart_is_division();
    cut_apart_is_one();
    forgetting_by_floors_is_unseen();
}

/// Without the lines `---` and the faults, answers are the lines of the report.
#[tactic(auto, using(crate::proofs::LawsLemmas::answers_lines))]
pub fn answers_are_lines()
    ensures { AnswersAreLines }
{}
