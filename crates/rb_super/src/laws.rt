//! Laws of turns, of verdicts and of schedules, over the definitions alone.
ghost use Rattle.rb_super_turn.specs.Agenda.{OrderGivesReport};
ghost use Rattle.rb_super.specs.Examples.{Examples};
ghost use Rattle.rb_super_turn.specs.Accepted.{AcceptedDraftsAreReported};
ghost use Rattle.rb_super.specs.Laws.{PlannedViewsAreViews, ReportIsOne, VerdictIsOne};
ghost use Rattle.rb_super.specs.Schedule.{Schedules, OwnDraftsServe};

use rb_batch::laws::{cut_apart_is_division, cut_apart_is_one, least_cut_is_one};
use rb_book::laws::{finds_what_was_added, stays_a_book};
use rb_core_model::laws::judged_by_standing;
use rb_plan_types::laws::answers_are_one;
use rb_step::laws::views_are_orderly;

/// A script has at most one report.
pub fn report_is_one()
    ensures { ReportIsOne }
{
    answers_are_one();
    least_cut_is_one();
    cut_apart_is_division();
    cut_apart_is_one();
}

/// An answer, right or not, that is made for a client in a turn of a script has at most one verdict:
/// `Yes`, the one reason that it is refused for, or none where the client is held or idle.
pub fn verdict_is_one()
    ensures { VerdictIsOne }
{
    answers_are_one();
    least_cut_is_one();
    cut_apart_is_division();
    cut_apart_is_one();
}

/// What a client is planned by in a turn keeps what every view keeps, for every script whose windows,
/// sets, fees and references are right. So what is said of views holds of it: that a list is acceptable exactly where each of its updates is allowed whatever
/// moments of the window they come at (`rb_step::laws::window_is_by_step`), and that sound labels bound
/// what lists cost from below (`rb_plan_types::laws`).
pub fn planned_views_are_views()
    ensures { PlannedViewsAreViews }
{
    finds_what_was_added();
    stays_a_book();
    views_are_orderly();
    judged_by_standing();
}

/// The order in which a supervisor goes through a turn gives the turn's report.
pub fn order_gives_report()
    ensures { OrderGivesReport }
{}

/// In every schedule of a supervisor and its workers, for every script that keeps `IsScript` and whose log
/// has room (each that is read is such: `scripts::laws_hold_of_read_scripts`), the reports of the turns that
/// are over are the script's.
pub fn schedules()
    ensures { Schedules }
{
    order_gives_report();
}

/// The supervisor's own draft is accepted wherever a plan is due.
pub fn own_drafts_serve()
    ensures { OwnDraftsServe }
{
    order_gives_report();
}

/// A draft that is accepted is what is to be reported of its client.
pub fn accepted_drafts_are_reported()
    ensures { AcceptedDraftsAreReported }
{}

/// Worked schedules.
pub fn examples()
    ensures { Examples }
{}
