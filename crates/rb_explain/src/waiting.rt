//! Packet messages that are owed to a client and not sent.
ghost use Rattle.std.specs.Prelude.{◌≡◌, ◌++◌, ◌&&◌, is_none, IfOk, OnOk};
ghost use Rattle.std.specs.Option.{option_copied, option_map};
ghost use Rattle.rb_super_turn.specs.Views.{outcome_view};
ghost use Rattle.rb_explain.specs.Client.{IsRight};
ghost use Rattle.rb_explain.specs.Ends.{ends_of};
ghost use Rattle.rb_explain.specs.Stays.{stays_by};
ghost use Rattle.rb_explain.specs.Waiting.{AreAmong, IsLeft, IsSentFirst, IsWaiting, owed_message, owed_messages, owed_on, sent_in};

use crate::ready::{Ends, ends_at, is_ready};
use crate::stays::{Stay, Stays, stay_of, stays_on};
use rb_base::Height;
use rb_plan_client::{JobView, Message, PathTask, press_moment};
use rb_scan::PacketMsg;
use rb_super_turn::Outcome;
use std::alloc::{AllocError, Allocator};

/// A packet message that isn't sent, and its path by its place; why it can't go, if it can't; where it can, and a height that the
/// client can be brought to proves it and all that goes before it, also the moment, in nanoseconds since 1970, from which on it waits for
/// no other.
#[derive(Clone, Copy, PartialEq, Eq)]
pub struct WaitingMessage {
    pub path: usize,
    pub packet: PacketMsg,
    pub presses: Option<u128>,
    pub stays: Option<Stay>,
}

/// The messages that are sent.
fn sent<A: Allocator>(outcome: &Outcome<A>) -> &[Message]
    ensures { result.now ≡ sent_in (outcome_view outcome.now) }
{
    match outcome {
        Outcome::Planned(planned) => match &planned.plan {
            Some(plan) => plan.messages.as_slice(),
            None => &[],
        },
        _ => &[],
    }
}

/// A message that a path owes, by its place; `ends` tell how far a height proves the path's messages, and `stays` which can't go.
#[tactic(auto, using(crate::proofs::Waits::proved_by, crate::proofs::Waits::stay_is))]
fn owed_message<A: Allocator + Copy>(
    job: &JobView<A>,
    task: &PathTask<A>,
    reach: &Option<Height>,
    ends: &Option<Ends>,
    stays: &Option<Stays>,
    place: usize,
    packet: &PacketMsg,
) -> WaitingMessage
    requires ends { ends.now ≡ option_map (ends_of task.now.owed) reach.now }
    requires stays { stays.now ≡ stays_by job.now.task task.now job.now.task.config.refresh_to }
    ensures { result ≡ owed_message job.now.task reach.now task.now place packet.now }
{
    let stays = stay_of(stays, task.order(), place, packet);
    let presses = if stays.is_none() && is_ready(ends, task.order(), place, packet) {
        press_moment(job, &task.waits(), packet)
    } else {
        None
    };
    WaitingMessage {
        path: task.path(),
        packet: *packet,
        presses,
        stays,
    }
}

/// Puts what a path owes to the end of a list.
fn add_owed<A: Allocator + Copy>(
    job: &JobView<A>,
    task: &PathTask<A>,
    reach: &Option<Height>,
    messages: &mut Vec<WaitingMessage, A>,
) -> Result<(), AllocError>
    ensures { OnOk result (messages.new.items ≡ messages.old.items ++ owed_on job.now.task reach.now task.now) }
{
    let owed = task.owed();
    let ends = ends_at(owed, reach);
    let stays = stays_on(job, task);
    for (place, packet) in owed.iter().enumerate() {
        messages.push(owed_message(job, task, reach, &ends, &stays, place, packet))?;
    }
    Ok(())
}

/// All that is owed to a client.
fn owed_messages<A: Allocator + Copy>(
    alloc: A,
    job: &JobView<A>,
    reach: &Option<Height>,
) -> Result<Vec<WaitingMessage, A>, AllocError>
    ensures { IfOk result (λ messages. messages.items ≡ owed_messages job.now.task reach.now) }
{
    let mut messages = Vec::new(alloc);
    for task in job.paths() {
        add_owed(job, task, reach, &mut messages)?;
    }
    Ok(messages)
}

/// What is sent behind a message, where that is the first one that is sent.
fn after_sent<'a>(sent: &'a [Message], message: &WaitingMessage) -> Option<&'a [Message]>
    ensures { IsSentFirst message.now sent.now (option_copied result) }
{
    let (next, rest) = sent.split_first()?;
    if message.path == next.path() && message.packet == next.packet() {
        Some(rest)
    } else {
        None
    }
}

/// What is owed and not sent. What is sent stands in the order in which it is owed.
fn unsent<A: Allocator + Copy>(
    alloc: A,
    owed: &[WaitingMessage],
    sent: &[Message],
) -> Result<Vec<WaitingMessage, A>, AllocError>
    requires { AreAmong sent.now owed.now }
    ensures { IfOk result (λ waiting. IsLeft owed.now sent.now waiting.items) }
{
    let mut waiting = Vec::new(alloc);
    let mut sent = sent;
    for message in owed {
        match after_sent(sent, message) {
            Some(rest) => sent = rest,
            None => waiting.push(*message)?,
        }
    }
    Ok(waiting)
}

/// The packet messages that are owed to a client and not sent, where no batch of it is open; `reach` is the greatest height that it can be
/// brought to. The outcome is right for the job.
#[tactic(auto, using(crate::proofs::Waits::sent_among))]
pub(crate) fn waiting<A: Allocator + Copy>(
    alloc: A,
    job: &JobView<A>,
    reach: &Option<Height>,
    outcome: &Outcome<A>,
) -> Result<Vec<WaitingMessage, A>, AllocError>
    requires { IsRight job.now.task (outcome_view outcome.now) }
    ensures { IfOk result (λ waiting. IsWaiting job.now.task (outcome_view outcome.now) reach.now waiting.items) }
{
    if let Outcome::Held(_) = outcome {
        return Ok(Vec::new(alloc));
    }
    let owed = owed_messages(alloc, job, reach)?;
    unsent(alloc, owed.as_slice(), sent(outcome))
}
