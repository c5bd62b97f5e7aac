//! Answers without the labels of heights.
ghost use Rattle.std.specs.Prelude.{◌≡◌, [], map, IfOk};
ghost use Rattle.rb_super_turn.specs.Views.{planned_view, client_report_view, turn_report_view};
ghost use Rattle.rb_follow.specs.Answers.{answer_view, told, unlabelled, unlabelled_client};

use crate::answer::Answer;
use rb_plan_types::Labelling;
use rb_super_turn::{ClientReport, Outcome, PlannedReport, TurnReport};
use std::alloc::{AllocError, Global};

/// What came of a goal, without the labels.
fn unlabelled_plan(alloc: Global, planned: PlannedReport) -> Result<PlannedReport, AllocError>
    ensures { IfOk result (λ bare. planned_view bare ≡ record (planned_view planned) { labels = [] }) }
{
    let PlannedReport {
        goal,
        beyond,
        labelling: _labelling,
        plan,
        next,
    } = planned;
    Ok(PlannedReport {
        goal,
        beyond,
        labelling: Labelling::new(Vec::new(alloc))?,
        plan,
        next,
    })
}

fn unlabelled_client(alloc: Global, client: ClientReport) -> Result<ClientReport, AllocError>
    ensures { IfOk result (λ bare. client_report_view bare ≡ unlabelled_client (client_report_view client)) }
{
    let ClientReport {
        id,
        outcome,
        too_big,
    } = client;
    let outcome = match outcome {
        Outcome::Planned(planned) => Outcome::Planned(unlabelled_plan(alloc, planned)?),
        outcome => outcome,
    };
    Ok(ClientReport {
        id,
        outcome,
        too_big,
    })
}

fn unlabelled_clients(
    alloc: Global,
    clients: Vec<ClientReport>,
) -> Result<Vec<ClientReport>, AllocError>
    ensures { IfOk result (λ bare. map client_report_view bare.items ≡ map unlabelled_client (map client_report_view clients.items)) }
{
    let mut bare = Vec::with_capacity(alloc, clients.len())?;
    for client in clients {
        bare.push(unlabelled_client(alloc, client)?)?;
    }
    Ok(bare)
}

/// The report of a turn without the labels.
fn unlabelled(alloc: Global, report: TurnReport) -> Result<TurnReport, AllocError>
    ensures { IfOk result (λ bare. turn_report_view bare ≡ unlabelled (turn_report_view report)) }
{
    let TurnReport {
        window_back,
        hosts_back,
        refused,
        clients,
        settlements,
    } = report;
    Ok(TurnReport {
        window_back,
        hosts_back,
        refused,
        clients: unlabelled_clients(alloc, clients)?,
        settlements,
    })
}

/// What is told of an answer: all, or all but the labels.
pub(crate) fn told(alloc: Global, has_labels: bool, answer: Answer) -> Result<Answer, AllocError>
    ensures { IfOk result (λ answered. answer_view answered ≡ told has_labels (answer_view answer)) }
{
    if has_labels {
        return Ok(answer);
    }
    match answer {
        Answer::Planned { number, report } => {
            let report = unlabelled(alloc, report)?;
            Ok(Answer::Planned { number, report })
        }
        Answer::Refused(refusal) => Ok(Answer::Refused(refusal)),
    }
}
