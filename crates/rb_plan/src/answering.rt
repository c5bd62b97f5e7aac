//! What is planned for a job.
ghost use Rattle.std.specs.Prelude.{ℕ, ◌≡◌, ◌+◌, ◌<◌, ◌++◌, [], length, map, IfOk, OnOk, IsErrOf};
ghost use Rattle.rb_batch.specs.Cut.{IsLeastCut, IsCutApart, IsFirstTooBig};
ghost use Rattle.std.specs.Bool.{OnTrue, OnFalse};
ghost use Rattle.rb_plan_types.specs.Goal.{Meets};
ghost use Rattle.rb_plan_types.specs.Labelling.{IsExact, IsLabelling, label_of};
ghost use Rattle.rb_plan_types.specs.ProofHeight.{IsProofHeight};
ghost use Rattle.rb_step.specs.View.{client_of};
ghost use Rattle.rb_plan_client.specs.Draft.{IsCut, IsSending, IsAnswer, planned_updates};
ghost use Rattle.rb_plan_client.specs.Next.{IsNext};
ghost use Rattle.rb_plan.specs.Planning.{IsPlannedFor, IsPlannedIf};
ghost use Rattle.rb_plan_client.specs.Sent.{sending_view};
ghost use Rattle.rb_plan_client.specs.Task.{Message, view_of, gas_of, gases, first_press, due_messages, is_apart, messages_of};

use crate::labels::label;
use crate::planning::plan_by;
use rb_base::{Height, Moment};
use rb_batch::{BatchError, Msg, Transaction, cut, cut_apart};
use rb_graph::Graph;
use rb_plan_client::{
    Batch, JobView, Message, Plan, Planned, Sending, first_press, goal_of, is_apart,
    next_once_taken, ready_messages, sending_reach,
};
use rb_plan_types::{Answer, Labelling, Update, gas_of, proof_height, top_reachable};
use rb_script_types::{Goal, RefreshTo};
use std::alloc::{AllocError, Allocator};

/// Puts the gas of each update to the end of a list.
fn append_updates<A: Allocator + Copy>(
    job: &JobView<A>,
    updates: &[Update],
    gases: &mut Vec<Msg, A>,
) -> Result<(), AllocError>
    ensures { OnOk result (gases.new.items ≡ gases.old.items ++ map (gas_of job.now.task) updates.now) }
{
    let view = job.view();
    for update in updates {
        gases.push(Msg::new(gas_of(&view, &job.config().gas, update)))?;
    }
    Ok(())
}

/// Puts the gas of each packet message to the end of a list.
fn append_messages<A: Allocator + Copy>(
    messages: &[Message],
    gases: &mut Vec<Msg, A>,
) -> Result<(), AllocError>
    ensures { OnOk result (gases.new.items ≡ gases.old.items ++ map (λ (m : Message). m.gas) messages.now) }
{
    for message in messages {
        gases.push(Msg::new(message.gas()))?;
    }
    Ok(())
}

/// The gas of each message in turn, the updates first.
fn gases<A: Allocator + Copy>(
    alloc: A,
    job: &JobView<A>,
    updates: &[Update],
    messages: &[Message],
) -> Result<Vec<Msg, A>, AllocError>
    ensures { IfOk result (λ list. list.items ≡ gases job.now.task updates.now messages.now) }
{
    let size = updates.len().saturating_add(messages.len());
    let mut gases = Vec::with_capacity(alloc, size)?;
    append_updates(job, updates, &mut gases)?;
    append_messages(messages, &mut gases)?;
    Ok(gases)
}

/// Whether there is neither an update nor a packet message.
fn is_nothing(updates: &[Update], messages: &[Message]) -> bool
    ensures nothing { OnTrue result ((updates.now ≡ []) × (messages.now ≡ [])) }
    ensures some { OnFalse result (0 < length updates.now + length messages.now) }
{
    updates.is_empty() && messages.is_empty()
}

/// The gas of each update.
fn update_gases<A: Allocator + Copy>(
    alloc: A,
    job: &JobView<A>,
    updates: &[Update],
) -> Result<Vec<Msg, A>, AllocError>
    ensures { IfOk result (λ list. list.items ≡ map (gas_of job.now.task) updates.now) }
{
    let mut gases = Vec::with_capacity(alloc, updates.len())?;
    append_updates(job, updates, &mut gases)?;
    Ok(gases)
}

/// The gas of each packet message.
fn message_gases<A: Allocator + Copy>(
    alloc: A,
    messages: &[Message],
) -> Result<Vec<Msg, A>, AllocError>
    ensures { IfOk result (λ list. list.items ≡ map (λ (m : Message). m.gas) messages.now) }
{
    let mut gases = Vec::with_capacity(alloc, messages.len())?;
    append_messages(messages, &mut gases)?;
    Ok(gases)
}

/// The least cut of updates, then that of messages.
fn apart<A: Allocator + Copy>(
    alloc: A,
    job: &JobView<A>,
    updates: &[Update],
    messages: &[Message],
) -> Result<Vec<Transaction, A>, BatchError>
    ensures cut { IfOk result (λ cut. IsCutApart job.now.task.config.limits (map (gas_of job.now.task) updates.now) (map (λ (m : Message). m.gas) messages.now) cut.items) }
    ensures too_big { (index : ℕ) → IsErrOf result (BatchError.TooBig index) → IsFirstTooBig job.now.task.config.limits (gases job.now.task updates.now messages.now) index }
{
    let front = update_gases(alloc, job, updates)?;
    let back = message_gases(alloc, messages)?;
    let limits = job.config().limits;
    cut_apart(alloc, front.as_slice(), back.as_slice(), limits)
}

/// The least cut of updates and messages, the updates first.
fn together<A: Allocator + Copy>(
    alloc: A,
    job: &JobView<A>,
    updates: &[Update],
    messages: &[Message],
) -> Result<Vec<Transaction, A>, BatchError>
    ensures cut { IfOk result (λ cut. IsLeastCut job.now.task.config.limits (gases job.now.task updates.now messages.now) cut.items) }
    ensures too_big { (index : ℕ) → IsErrOf result (BatchError.TooBig index) → IsFirstTooBig job.now.task.config.limits (gases job.now.task updates.now messages.now) index }
{
    let gases = gases(alloc, job, updates, messages)?;
    cut(alloc, gases.as_slice(), job.config().limits)
}

/// The least cut of updates and messages into transactions: the updates apart where the client is refreshed by gain.
fn transactions<A: Allocator + Copy>(
    alloc: A,
    job: &JobView<A>,
    reach: &Option<Height>,
    updates: &[Update],
    messages: &[Message],
) -> Result<Vec<Transaction, A>, BatchError>
    ensures cut { IfOk result (λ cut. IsCut (is_apart job.now.task reach.now) job.now.task.config.limits (map (gas_of job.now.task) updates.now) (map (λ (m : Message). m.gas) messages.now) cut.items) }
    ensures too_big { (index : ℕ) → IsErrOf result (BatchError.TooBig index) → IsFirstTooBig job.now.task.config.limits (gases job.now.task updates.now messages.now) index }
{
    if is_apart(job, reach) {
        apart(alloc, job, updates, messages)
    } else {
        together(alloc, job, updates, messages)
    }
}

/// How updates that meet a goal are sent, with their proof height and the messages that go with them. The reach is the
/// greatest height that the client can be brought to.
fn sending<A: Allocator + Copy>(
    alloc: A,
    job: &JobView<A>,
    reach: &Option<Height>,
    goal: &Goal,
    updates: &[Update],
    proof: Option<Height>,
    messages: &[Message],
) -> Result<Sending<A>, AllocError>
    requires meets { Meets (client_of (view_of job.now.task)) goal.now updates.now }
    requires proof { IsProofHeight (client_of (view_of job.now.task)) updates.now proof }
    ensures { IfOk result (λ s. IsSending job.now.task reach.now (record { updates = updates.now; messages = messages.now; sending = sending_view s }) (sending_view s)) }
{
    if is_nothing(updates, messages) {
        return Ok(Sending::Nothing);
    }
    match transactions(alloc, job, reach, updates, messages) {
        Ok(transactions) => {
            let proof = proof.unwrap();
            Ok(Sending::Batched(Batch::new(proof, transactions)))
        }
        Err(BatchError::TooBig(index)) => Ok(Sending::TooBig(index)),
        Err(BatchError::NoMemory) => Err(AllocError),
    }
}

/// The packet messages that follow updates with a proof height: by age those that are due, but none where a goal was
/// asked for; by gain all that the proof height proves.
fn messages_of<A: Allocator + Copy>(
    alloc: A,
    job: &JobView<A>,
    reach: &Option<Height>,
    proof: &Option<Height>,
    due: Vec<Message, A>,
) -> Result<Vec<Message, A>, AllocError>
    requires { due.items ≡ due_messages job.now.task reach.now }
    ensures { IfOk result (λ messages. messages.items ≡ messages_of job.now.task reach.now proof.now) }
{
    match job.config().refresh_to {
        RefreshTo::Newer => ready_messages(alloc, job, proof),
        RefreshTo::Lowest | RefreshTo::Highest if job.asked().is_some() => Ok(Vec::new(alloc)),
        RefreshTo::Lowest | RefreshTo::Highest => Ok(due),
    }
}

/// The exact labelling, and the plan for a goal, if it can be reached, with the messages that go
/// with it.
fn planned<A: Allocator + Copy>(
    alloc: A,
    job: &JobView<A>,
    graph: &Graph<A>,
    labelling: Labelling<A>,
    reach: &Option<Height>,
    goal: Goal,
    due: Vec<Message, A>,
) -> Result<Planned<A>, AllocError>
    requires table { graph.now ≡ job.now.task.book }
    requires labels { IsLabelling labelling }
    requires exact { IsExact (client_of (view_of job.now.task)) (label_of labelling) }
    requires due { due.items ≡ due_messages job.now.task reach.now }
    ensures { IfOk result (IsPlannedFor job.now.task reach.now goal) }
{
    match plan_by(alloc, &job.view(), graph, labelling, goal)? {
        Answer::Plan { updates, labelling } => {
            let proof = proof_height(&job.view(), updates.as_slice());
            let messages = messages_of(alloc, job, reach, &proof, due)?;
            let sending = sending(
                alloc,
                job,
                reach,
                &goal,
                updates.as_slice(),
                proof,
                messages.as_slice(),
            )?;
            let sent = Plan::new(updates, messages, sending);
            Ok(Planned::new(goal, labelling, Some(sent)))
        }
        Answer::Unreachable { labelling } => Ok(Planned::new(goal, labelling, None)),
    }
}

/// The packet messages that are due: all that are ready where one presses, else those that need no update. The reach
/// is the greatest height that the client can be brought to.
fn due_messages<A: Allocator + Copy>(
    alloc: A,
    job: &JobView<A>,
    reach: &Option<Height>,
    first: &Option<u128>,
) -> Result<Vec<Message, A>, AllocError>
    requires { first.now ≡ first_press job.now.task reach.now }
    ensures { IfOk result (λ messages. messages.items ≡ due_messages job.now.task reach.now) }
{
    let sending = sending_reach(job, *reach, first);
    ready_messages(alloc, job, &sending)
}

/// What is planned for a goal, if there is one.
fn planned_if<A: Allocator + Copy>(
    alloc: A,
    job: &JobView<A>,
    graph: &Graph<A>,
    labelling: Labelling<A>,
    reach: &Option<Height>,
    goal: Option<Goal>,
    due: Vec<Message, A>,
) -> Result<Option<Planned<A>>, AllocError>
    requires table { graph.now ≡ job.now.task.book }
    requires labels { IsLabelling labelling }
    requires exact { IsExact (client_of (view_of job.now.task)) (label_of labelling) }
    requires due { due.items ≡ due_messages job.now.task reach.now }
    ensures { IfOk result (IsPlannedIf job.now.task reach.now goal) }
{
    match goal {
        Some(goal) => Ok(Some(planned(alloc, job, graph, labelling, reach, goal, due)?)),
        None => Ok(None),
    }
}

/// What is planned for a job, as `answer` has it, and the moment at which the client has a goal next, once
/// that is taken.
pub(crate) fn answer_and_next<A: Allocator + Copy>(
    alloc: A,
    job: &JobView<A>,
    graph: &Graph<A>,
) -> Result<(Option<Planned<A>>, Option<Moment>), AllocError>
    requires { graph.now ≡ job.now.task.book }
    ensures { IfOk result (λ both. IsAnswer job.now.task both.0 × IsNext job.now.task (planned_updates both.0) both.1) }
{
    let labelling = label(alloc, &job.view(), graph)?;
    let reach = top_reachable(&labelling);
    let first = first_press(alloc, job, &reach)?;
    let due = due_messages(alloc, job, &reach, &first)?;
    let goal = goal_of(job, &reach, due.as_slice());
    let outcome = planned_if(alloc, job, graph, labelling, &reach, goal, due)?;
    let next = next_once_taken(alloc, job, &reach, &first, &outcome)?;
    Ok((outcome, next))
}

/// What is planned for a job: its goal with the exact labelling and the least list of updates that
/// meets it, the packet messages that follow, and the transactions that carry them; None where the
/// client has no goal. `graph` is the table of the job's book, as `Graph::is_of` tells. `AllocError`
/// where memory is refused. The rule is own, over the least lists of `rb_plan_types`, the ready messages
/// of `rb_scan` and the least cut of `rb_batch`.
pub fn answer<A: Allocator + Copy>(
    alloc: A,
    job: &JobView<A>,
    graph: &Graph<A>,
) -> Result<Option<Planned<A>>, AllocError>
    requires { graph.now ≡ job.now.task.book }
    ensures { IfOk result (IsAnswer job.now.task) }
{
    let (answer, _) = answer_and_next(alloc, job, graph)?;
    Ok(answer)
}
