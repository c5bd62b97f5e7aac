//! What a report says of refusals, and the status of a plan by that.
ghost use Rattle.std.specs.Prelude.{◌≡◌, ◌-◌, ◌^◌, min, is_some};
ghost use Rattle.std.specs.List.{list_any};
ghost use Rattle.rb_super_turn.specs.Views.{settlement_view, turn_report_view, report_view};
ghost use Rattle.ibcplan.specs.Status.{has_refusal, plan_status, refused_events};

use ibcplan_cli::status;
use rb_super_turn::{Report, SettlementReport, TurnReport};

/// Whether one of a turn's settlements is refused.
fn settlements_have_refusal(settlements: &[SettlementReport]) -> bool
    ensures { result ≡ list_any (λ x. is_some (settlement_view x).refusal) settlements.now }
{
    settlements
        .iter()
        .any(|settlement| settlement.refusal.is_some())
}

/// Whether the report of a turn tells of something refused: its window, that of a host, an event or a settlement.
#[tactic(auto, using(crate::proofs::Refusals::refusals))]
fn turn_has_refusal(turn: &TurnReport) -> bool
    ensures { result ≡ has_refusal (turn_report_view turn.now) }
{
    turn.window_back
        || !turn.hosts_back.is_empty()
        || !turn.refused.is_empty()
        || settlements_have_refusal(turn.settlements.as_slice())
}

fn turns_have_refusal(turns: &[TurnReport]) -> bool
    ensures { result ≡ list_any (λ t. has_refusal (turn_report_view t)) turns.now }
{
    turns.iter().any(|turn| turn_has_refusal(turn))
}

/// Whether a report tells of something refused.
#[tactic(auto, using(crate::proofs::Refusals::refusals))]
fn report_has_refusal(report: &Report) -> bool
    ensures { result ≡ list_any has_refusal (report_view report.now) }
{
    turns_have_refusal(report.turns.as_slice())
}

/// The status of a plan whose report was written; of a strict one it tells whether something is refused.
pub(crate) fn plan_status(is_strict: bool, report: &Report) -> u8
    ensures { result ≡ plan_status is_strict (report_view report.now) }
{
    if is_strict && report_has_refusal(report) {
        status::PARTLY_REFUSED
    } else {
        status::DONE
    }
}

/// How many events are refused in a report, up to 2^64 - 1.
pub(crate) fn refused_events(report: &Report) -> usize
    ensures { result ≡ min (refused_events (report_view report.now)) (2 ^ 64 - 1) }
{
    let mut count: usize = 0;
    for turn in &report.turns {
        count = count.saturating_add(turn.refused.len());
    }
    count
}
