//! What came of a client in a turn, and why.
ghost use Rattle.std.specs.Prelude.{◌≡◌, IfOk, IsSome, map};
ghost use Rattle.rb_book.specs.Book.{record_at};
ghost use Rattle.rb_super_turn.specs.Report.{planned};
ghost use Rattle.rb_super_turn.specs.Views.{outcome_view, planned_view};
ghost use Rattle.rb_explain.specs.Client.{AreStored, IsClientExplained, IsExpiry, IsReachFor, IsRight, IsWhy};

use crate::heights::{KnownHeight, known_heights};
use crate::idle::{IdleReason, idle_reason, owes};
use crate::reach::reach_of;
use crate::refresh::{Refresh, refresh_of};
use crate::waiting::{WaitingMessage, waiting};
use crate::wanted::Detail;
use rb_base::{Height, Window};
use rb_explain_plan::{
    Charges, PlanExplanation, UnreachableExplanation, charges_of, explain_plan, explain_unreachable,
};
use rb_graph::Graph;
use rb_plan_client::JobView;
use rb_plan_types::{Update, top_reachable};
use rb_step::ClientView;
use rb_super_turn::{Outcome, PlannedReport, PricedUpdate};
use std::alloc::{AllocError, Allocator, Global};

/// A stored height, and the moment, in nanoseconds since 1970, from which on its record has expired.
#[derive(Clone, Copy, PartialEq, Eq)]
pub struct StoredHeight {
    pub height: Height,
    pub expiry: u128,
}

/// Why an outcome is as it is.
#[derive(Drop)]
pub enum Why<A: Allocator = Global> {
    /// A batch of the client is open.
    Held,
    /// The client has no goal.
    Idle(IdleReason),
    /// There is a plan.
    Planned(PlanExplanation<A>),
    /// No list of updates meets the goal.
    Unreachable(UnreachableExplanation<A>),
}

/// A stored height with its expiry.
fn stored_height<A: Allocator + Copy>(view: &ClientView<'_, A>, height: Height) -> StoredHeight
    requires { IsSome (record_at view.now.book height) }
    ensures height { result.height ≡ height }
    ensures expiry { IsExpiry view.now result }
{
    let record = view.book().record(height).unwrap();
    let period = u128::from(view.options().period().nanoseconds());
    StoredHeight {
        height,
        expiry: record.time().nanoseconds() + period,
    }
}

/// The stored heights, each with its expiry.
fn stored_heights<A: Allocator + Copy>(
    alloc: A,
    view: &ClientView<'_, A>,
) -> Result<Vec<StoredHeight, A>, AllocError>
    ensures { IfOk result (λ stored. AreStored view.now stored.items) }
{
    let heights = view.stored();
    let mut stored = Vec::with_capacity(alloc, heights.len())?;
    for height in heights {
        stored.push(stored_height(view, *height))?;
    }
    Ok(stored)
}

/// The updates without their fees.
fn plain<A: Allocator + Copy>(
    alloc: A,
    updates: &[PricedUpdate<A>],
) -> Result<Vec<Update, A>, AllocError>
    ensures { IfOk result (λ list. list.items ≡ map (λ u. u.update) updates.now) }
{
    let mut list = Vec::with_capacity(alloc, updates.len())?;
    for priced in updates {
        list.push(priced.update)?;
    }
    Ok(list)
}

/// The greatest height that a client can be brought to, where it has a goal or is owed packet messages: by the labels of the report,
/// where they are there. `graph` is the table of the job's book.
#[tactic(auto, using(crate::proofs::Reasons::reach_owed, crate::proofs::Reasons::reach_rests))]
fn reach_for<A: Allocator + Copy>(
    alloc: A,
    job: &JobView<A>,
    graph: &Graph<A>,
    outcome: &Outcome<A>,
) -> Result<Option<Height>, AllocError>
    requires table { graph.now ≡ job.now.task.book }
    requires right { IsRight job.now.task (outcome_view outcome.now) }
    ensures { IfOk result (IsReachFor job.now.task (outcome_view outcome.now)) }
{
    match outcome {
        Outcome::Held(_) => Ok(None),
        Outcome::Idle(_) => {
            if !owes(job.paths()) {
                return Ok(None);
            }
            let reach = reach_of(alloc, &job.view(), graph)?;
            Ok(reach)
        }
        Outcome::Planned(planned) => Ok(top_reachable(&planned.labelling)),
    }
}

/// Why what was planned is as it is, as much as the detail asks.
fn explain_planned<A: Allocator + Copy>(
    alloc: A,
    job: &JobView<A>,
    graph: &Graph<A>,
    report: &PlannedReport<A>,
    detail: Detail,
) -> Result<Why<A>, AllocError>
    requires table { graph.now ≡ job.now.task.book }
    requires right { IsRight job.now.task (planned (planned_view report.now)) }
    ensures { IfOk result (IsWhy job.now.task (planned (planned_view report.now)) detail) }
{
    let view = job.view();
    match &report.plan {
        Some(plan) => {
            let updates = plain(alloc, plan.updates.as_slice())?;
            let (goal, has_fewest) = (report.goal, detail.has_fewest);
            let why = explain_plan(alloc, &view, graph, goal, updates.as_slice(), has_fewest)?;
            Ok(Why::Planned(why))
        }
        None => {
            let labels = report.labelling.labels();
            let why = explain_unreachable(alloc, &view, labels, report.goal, detail.most)?;
            Ok(Why::Unreachable(why))
        }
    }
}

/// Why an outcome is as it is, which is right for this job, as much as the detail asks. `graph` is the table of the job's book, and
/// `reach` the greatest height that the client can be brought to, where that plays a part.
#[tactic(auto, using(crate::proofs::Reasons::idle_reach, crate::proofs::Reasons::idle_why, crate::proofs::Reasons::planned_right, crate::proofs::Reasons::planned_why))]
fn explain_outcome<A: Allocator + Copy>(
    alloc: A,
    job: &JobView<A>,
    graph: &Graph<A>,
    reach: &Option<Height>,
    outcome: &Outcome<A>,
    detail: Detail,
) -> Result<Why<A>, AllocError>
    requires table { graph.now ≡ job.now.task.book }
    requires reach { IsReachFor job.now.task (outcome_view outcome.now) reach.now }
    requires right { IsRight job.now.task (outcome_view outcome.now) }
    ensures { IfOk result (IsWhy job.now.task (outcome_view outcome.now) detail) }
{
    match outcome {
        Outcome::Held(_) => Ok(Why::Held),
        Outcome::Idle(_) => {
            let reason = idle_reason(alloc, job, reach)?;
            Ok(Why::Idle(reason))
        }
        Outcome::Planned(planned) => explain_planned(alloc, job, graph, planned, detail),
    }
}

/// What came of a client in a turn, and why: what it goes by, the heights that it had stored, the greatest height that it can be
/// brought to, where it has a goal or waits for one with packet messages, the known heights of the chain that it tracks, where these are
/// wanted, the packet messages that are owed to it and not sent, its refresh by gain, and why its outcome is as it is.
#[derive(Drop)]
pub struct ClientExplanation<A: Allocator = Global> {
    pub client: usize,
    pub window: Window,
    pub charges: Charges,
    pub is_asked: bool,
    pub stored: Vec<StoredHeight, A>,
    pub reach: Option<Height>,
    pub heights: Vec<KnownHeight, A>,
    pub waiting: Vec<WaitingMessage, A>,
    pub refresh: Option<Refresh>,
    pub why: Why<A>,
}

/// What came of a client that was as in this job, and why, as much as the detail asks. The outcome is right for the job, and `graph` the
/// table of its book.
pub fn explain_client<A: Allocator + Copy>(
    alloc: A,
    job: &JobView<A>,
    graph: &Graph<A>,
    outcome: &Outcome<A>,
    detail: Detail,
) -> Result<ClientExplanation<A>, AllocError>
    requires table { graph.now ≡ job.now.task.book }
    requires right { IsRight job.now.task (outcome_view outcome.now) }
    ensures { IfOk result (IsClientExplained job.now (outcome_view outcome.now) detail) }
{
    let view = job.view();
    let reach = reach_for(alloc, job, graph, outcome)?;
    let stored = stored_heights(alloc, &view)?;
    let heights = known_heights(alloc, job.book(), detail.has_heights)?;
    let waiting = waiting(alloc, job, &reach, outcome)?;
    let refresh = refresh_of(job, outcome, &reach);
    let why = explain_outcome(alloc, job, graph, &reach, outcome, detail)?;
    Ok(ClientExplanation {
        client: job.client(),
        window: job.window(),
        charges: charges_of(&job.config().fees),
        is_asked: job.asked().is_some(),
        stored,
        reach,
        heights,
        waiting,
        refresh,
        why,
    })
}
