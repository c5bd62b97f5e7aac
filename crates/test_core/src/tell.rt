//! What the machine answers, as text.
use rb_core_model::{Reply, Scan};
use rb_plan_client::{Batch, Message, Plan, Planned, Sending};
use rb_plan_types::Update;
use rb_scan::PacketMsg;
use rb_script_types::{Goal, Refusal};
use std::alloc::{AllocError, Global};

fn goal_text(alloc: Global, goal: Goal) -> Result<String, AllocError> {
    match goal {
        Goal::Exactly(height) => format!(in alloc; "exactly {height}"),
        Goal::AtLeast(height) => format!(in alloc; "at least {height}"),
    }
}

fn message_text(alloc: Global, message: &Message) -> Result<String, AllocError> {
    let (path, packet, gas) = (message.path(), message.packet(), message.gas());
    format!(in alloc; "{:?} {path} {} {gas}", packet.kind, packet.sequence)
}

fn batch_text(alloc: Global, batch: &Batch) -> Result<String, AllocError> {
    let mut text = format!(in alloc; " | batch {}:", batch.proof())?;
    for (place, sent) in batch.transactions().iter().enumerate() {
        let comma = if place == 0 { "" } else { "," };
        let part = format!(in alloc; "{comma} {}+{} {}", sent.first, sent.count, sent.gas)?;
        text.push_str(part.as_str())?;
    }
    Ok(text)
}

fn sending_text(alloc: Global, sending: &Sending) -> Result<String, AllocError> {
    match sending {
        Sending::Nothing => format!(in alloc; " | nothing"),
        Sending::TooBig(index) => format!(in alloc; " | too big {index}"),
        Sending::Batched(batch) => batch_text(alloc, batch),
    }
}

fn push_updates(alloc: Global, text: &mut String, updates: &[Update]) -> Result<(), AllocError> {
    for update in updates {
        let (to, from) = (update.height(), update.trusted());
        text.push_str(format!(in alloc; " | {to}<{from}")?.as_str())?;
    }
    Ok(())
}

fn push_messages(alloc: Global, text: &mut String, messages: &[Message]) -> Result<(), AllocError> {
    for message in messages {
        text.push_str(" | ")?;
        text.push_str(message_text(alloc, message)?.as_str())?;
    }
    Ok(())
}

fn push_plan(alloc: Global, text: &mut String, plan: &Plan) -> Result<(), AllocError> {
    push_updates(alloc, text, plan.updates())?;
    push_messages(alloc, text, plan.messages())?;
    let sending = sending_text(alloc, plan.sending())?;
    text.push_str(sending.as_str())
}

fn planned_text(alloc: Global, planned: &Planned) -> Result<String, AllocError> {
    let mut text = goal_text(alloc, planned.goal())?;
    match planned.plan() {
        Some(plan) => push_plan(alloc, &mut text, plan)?,
        None => text.push_str(" | unreachable")?,
    }
    Ok(text)
}

/// What is planned: the goal, the updates with the heights that they trust, the messages with their
/// paths, sequences and gas, and the transactions with their first messages, counts and gas.
pub fn answer_text(alloc: Global, answer: Option<&Planned>) -> Result<String, AllocError> {
    match answer {
        Some(planned) => planned_text(alloc, planned),
        None => format!(in alloc; "idle"),
    }
}

fn owed_text(alloc: Global, owed: &[PacketMsg]) -> Result<String, AllocError> {
    let mut text = format!(in alloc; "owes")?;
    for message in owed {
        let (kind, sequence, floor) = (message.kind, message.sequence, message.floor);
        text.push_str(format!(in alloc; " | {kind:?} {sequence} {floor}")?.as_str())?;
    }
    Ok(text)
}

/// What is owed: the messages with their sequences and floors.
pub fn scan_text(alloc: Global, scan: &Scan) -> Result<String, AllocError> {
    owed_text(alloc, scan.owed())
}

/// The height or the index that a refusal names.
fn named_in(refusal: Refusal) -> Option<u64> {
    match refusal {
        Refusal::BadVote(index) => Some(index as u64),
        Refusal::Conflict(height) | Refusal::TimeOrder(height) => Some(height.get()),
        _ => None,
    }
}

fn refusal_text(alloc: Global, refusal: Refusal) -> Result<String, AllocError> {
    match named_in(refusal) {
        Some(number) => format!(in alloc; "{refusal} {number}"),
        None => format!(in alloc; "{refusal}"),
    }
}

/// What is replied, or why it is refused.
pub fn reply_text(alloc: Global, answer: Result<Reply, Refusal>) -> Result<String, AllocError> {
    match answer {
        Ok(reply) => format!(in alloc; "{reply:?}"),
        Err(refusal) => refusal_text(alloc, refusal),
    }
}
