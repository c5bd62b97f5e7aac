//! What is reported of a draft.
ghost use Rattle.std.specs.Prelude.{◌≡◌, ◌<◌, ◌^◌, length, map, nat_lt, sum_by, IfOk, IfSome};
ghost use Rattle.std.specs.Option.{option_map, option_copied};
ghost use Rattle.rb_plan_client.specs.Draft.{IsPlanned};
ghost use Rattle.rb_script_types.specs.Goal.{height_in};
ghost use Rattle.rb_core_model.specs.Replied.{reply_view};
ghost use Rattle.rb_plan_client.specs.Sent.{sending_view as sent_view};
ghost use Rattle.rb_step.specs.LightClient.{total_fee};
ghost use Rattle.rb_step.specs.View.{client_of};
ghost use Rattle.rb_plan_client.specs.Task.{view_of, too_big_messages};
ghost use Rattle.rb_super_turn.specs.Turns.{priced, numbered, beyond_goal, reported_plan, reported, outcome_numbered};
ghost use Rattle.rb_super_turn.specs.Views.{priced_view, sending_view, plan_view, planned_view, outcome_view};
ghost use Rattle.rb_super_turn.specs.Drafts.{number_of};

use crate::report::{BatchReport, Outcome, PlanReport, PlannedReport, PricedUpdate, SendingReport};
use rb_base::Moment;
use rb_core_model::Reply;
use rb_plan_client::{Draft, JobView, Message, too_big_messages};
use rb_plan_types::{Cost, Update};
use rb_script_types::Goal;
use std::alloc::{AllocError, Allocator};

/// Each update with its fee, and the votes that it carries.
fn priced<A: Allocator + Copy>(
    alloc: A,
    job: &JobView<A>,
    updates: &[Update],
) -> Result<Vec<PricedUpdate<A>, A>, AllocError>
    ensures { IfOk result (λ list. map priced_view list.items ≡ map (priced job.now.task) updates.now) }
{
    let view = job.view();
    let mut priced = Vec::with_capacity(alloc, updates.len())?;
    for update in updates {
        let fee = view.fee(update.trusted(), update.height());
        let votes = view.sent_votes(alloc, update.trusted(), update.height())?;
        priced.push(PricedUpdate {
            update: *update,
            fee,
            votes,
        })?;
    }
    Ok(priced)
}

/// What the updates cost in all.
fn total_of<A: Allocator>(updates: &[PricedUpdate<A>]) -> Cost
    requires { sum_by (λ u. u.fee) updates.now < 2 ^ 64 }
    ensures fee { result.fee ≡ sum_by (λ u. u.fee) updates.now }
    ensures count { result.count ≡ length updates.now }
{
    Cost {
        fee: updates.iter().map(|update| update.fee).sum(),
        count: updates.len() as u64,
    }
}

/// How messages are sent, the batch under its number.
fn sending<A: Allocator + Copy>(
    alloc: A,
    sending: &rb_plan_client::Sending<A>,
    number: u64,
) -> Result<SendingReport<A>, AllocError>
    ensures { IfOk result (λ s. sending_view s ≡ numbered number (sent_view sending.now)) }
{
    Ok(match sending {
        rb_plan_client::Sending::Nothing => SendingReport::Nothing,
        rb_plan_client::Sending::TooBig(index) => SendingReport::TooBig(*index),
        rb_plan_client::Sending::Batched(batch) => SendingReport::Batch(BatchReport {
            number,
            proof: batch.proof(),
            transactions: Vec::from_slice(alloc, batch.transactions())?,
        }),
    })
}

/// What is reported of a plan, its updates with their fees.
fn plan_of<A: Allocator + Copy>(
    alloc: A,
    job: &JobView<A>,
    plan: &rb_plan_client::Plan<A>,
    number: u64,
) -> Result<PlanReport<A>, AllocError>
    requires { total_fee (client_of (view_of job.now.task)) plan.now.updates < 2 ^ 63 }
    ensures { IfOk result (λ p. plan_view p ≡ reported_plan job.now.task number plan.now) }
{
    let updates = plan.updates();
    let priced = priced(alloc, job, updates)?;
    let total = total_of(priced.as_slice());
    let messages = Vec::from_slice(alloc, plan.messages())?;
    let sending = sending(alloc, plan.sending(), number)?;
    Ok(PlanReport {
        updates: priced,
        total,
        messages,
        sending,
    })
}

/// What is reported of a plan, if there is one.
fn plan_if<A: Allocator + Copy>(
    alloc: A,
    job: &JobView<A>,
    plan: Option<&rb_plan_client::Plan<A>>,
    number: u64,
) -> Result<Option<PlanReport<A>>, AllocError>
    requires { IfSome (option_copied plan) (λ p. total_fee (client_of (view_of job.now.task)) p.updates < 2 ^ 63) }
    ensures { IfOk result (λ p. option_map plan_view p ≡ option_map (reported_plan job.now.task number) (option_copied plan.entry)) }
{
    match plan {
        Some(plan) => Ok(Some(plan_of(alloc, job, plan, number)?)),
        None => Ok(None),
    }
}

/// Whether a goal names a higher height than another.
fn is_above(asked: &Goal, goal: Goal) -> bool
    ensures { result ≡ nat_lt (height_in goal) (height_in asked.now) }
{
    goal.height() < asked.height()
}

/// What was asked for, where it is higher than the goal: it is out of reach then.
fn beyond_goal<A: Allocator + Copy>(job: &JobView<A>, goal: Goal) -> Option<Goal>
    ensures { result ≡ beyond_goal job.now.task goal }
{
    let asked = job.asked()?;
    if is_above(&asked, goal) {
        Some(asked)
    } else {
        None
    }
}

/// What is reported of an answer that is right for the job.
fn planned_of<A: Allocator + Copy>(
    alloc: A,
    job: &JobView<A>,
    planned: &rb_plan_client::Planned<A>,
    number: u64,
    next: Option<Moment>,
) -> Result<PlannedReport<A>, AllocError>
    requires { IsPlanned job.now.task planned.now }
    ensures { IfOk result (λ p. planned_view p ≡ reported job.now.task number next planned.now) }
{
    let labelling = planned.labelling().copy()?;
    let plan = plan_if(alloc, job, planned.plan(), number)?;
    Ok(PlannedReport {
        goal: planned.goal(),
        beyond: beyond_goal(job, planned.goal()),
        labelling,
        plan,
        next,
    })
}

/// The number of the batch that was opened; 0 where none was.
fn number_of(reply: Reply) -> u64
    ensures { result ≡ number_of (reply_view reply) }
{
    match reply {
        Reply::Noted => 0,
        Reply::Opened(number) => number,
    }
}

/// What came of a draft, and the messages that are left out since they are over the gas limit alone.
#[derive(Drop)]
pub(crate) struct Came<A: Allocator> {
    pub(crate) outcome: Outcome<A>,
    pub(crate) too_big: Vec<Message, A>,
}

/// What is reported of a draft, by what was replied to it.
fn outcome_of<A: Allocator + Copy>(
    alloc: A,
    draft: &Draft<A>,
    reply: Reply,
) -> Result<Outcome<A>, AllocError>
    ensures { IfOk result (λ o. outcome_view o ≡ outcome_numbered (number_of (reply_view reply)) draft.now) }
{
    match draft.answer() {
        Some(answer) => {
            let number = number_of(reply);
            let planned = planned_of(alloc, draft.job(), answer, number, draft.next())?;
            Ok(Outcome::Planned(planned))
        }
        None => Ok(Outcome::Idle(draft.next())),
    }
}

/// The same with the messages that are left out.
pub(crate) fn came_of<A: Allocator + Copy>(
    alloc: A,
    draft: &Draft<A>,
    reply: Reply,
) -> Result<Came<A>, AllocError>
    ensures outcome { IfOk result (λ came. outcome_view came.outcome ≡ outcome_numbered (number_of (reply_view reply)) draft.now) }
    ensures too_big { IfOk result (λ came. came.too_big.items ≡ too_big_messages draft.now.job.task) }
{
    Ok(Came {
        outcome: outcome_of(alloc, draft, reply)?,
        too_big: too_big_messages(alloc, draft.job())?,
    })
}
