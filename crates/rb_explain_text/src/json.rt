//! An explanation as JSON. Identifiers have no character that JSON escapes.
use crate::pieces::{put, put_long};
use crate::refusals::{number_of, subject_of, words_of};
use crate::steps::answer_name;
use crate::text::next_of;
use rb_base::{Height, Sink};
use rb_explain::{
    Charges, ClientExplanation, IdleReason, PlanExplanation, Power, PricedList, Refresh, Stay,
    StepExplanation, StoredHeight, Subject, TurnExplanation, UnreachableExplanation,
    WaitingMessage, Why,
};
use rb_plan_client::Message;
use rb_plan_types::Update;
use rb_scan::PacketMsg;
use rb_script_text::{
    chain_name, client_name, format_of, kind_name, path_name, push_boolean, push_comma, push_goal,
    push_name, push_next, push_number, push_number_or_null, push_refusal, push_string, push_text,
};
use rb_script_types::{Config, Refusal, Version};
use rb_super_turn::{
    BatchReport, ClientReport, Outcome, PlanReport, PlannedReport, RefusedEvent, SendingReport,
    SettlementReport,
};
use std::alloc::{AllocError, Global};

/// Writes what stands before the first turn.
pub fn put_json_beginning<W: Sink>(
    alloc: Global,
    version: Version,
    writer: &mut W,
) -> Result<bool, AllocError> {
    let mut text = String::from_str(alloc, "{")?;
    push_number(&mut text, false, "ibcplan", format_of(version))?;
    push_name(&mut text, true, "turns")?;
    text.push_str("[")?;
    Ok(put(&mut text, writer))
}

/// Writes what stands behind the last turn.
pub fn put_json_end<W: Sink>(alloc: Global, writer: &mut W) -> Result<bool, AllocError> {
    let mut text = String::from_str(alloc, "]}\n")?;
    Ok(put(&mut text, writer))
}

/// Writes the explanation of a turn, the one at such a place of those that are written, as an object. Answers whether all of it was
/// taken.
pub fn put_json<W: Sink>(
    alloc: Global,
    config: &Config,
    turn: &TurnExplanation,
    place: usize,
    writer: &mut W,
) -> Result<bool, AllocError> {
    let mut text = String::new(alloc);
    push_comma(&mut text, place > 0)?;
    push_refusals(&mut text, config, turn)?;
    push_name(&mut text, true, "clients")?;
    text.push_str("[")?;
    let mut is_later = false;
    for (report, client) in turn.report.clients.iter().zip(&turn.clients) {
        if let Some(client) = client {
            push_comma(&mut text, is_later)?;
            push_client(&mut text, config, report, client)?;
            put_long(&mut text, writer);
            is_later = true;
        }
    }
    text.push_str("]")?;
    push_settlements(&mut text, turn.report.settlements.as_slice())?;
    text.push_str("}")?;
    Ok(put(&mut text, writer))
}

/// Adds a member that is an array, whose values a function adds.
fn push_array<T, F: Fn(&mut String, &T) -> Result<(), AllocError>>(
    text: &mut String,
    name: &str,
    values: &[T],
    push: F,
) -> Result<(), AllocError>
    requires { F.IsAlwaysCallable push }
{
    push_name(text, true, name)?;
    text.push_str("[")?;
    for (place, value) in values.iter().enumerate() {
        push_comma(text, place > 0)?;
        push(text, value)?;
    }
    text.push_str("]")
}

/// Adds a member that is a number of more than 64 bits.
fn push_long(text: &mut String, name: &str, number: u128) -> Result<(), AllocError> {
    push_number_or_null(text, true, name, Some(number))
}

/// Adds a member that is a height, or null.
fn push_height(text: &mut String, name: &str, height: Option<Height>) -> Result<(), AllocError> {
    let number = height.map(|height| u128::from(height.get()));
    push_number_or_null(text, true, name, number)
}

/// Adds a turn's number, whether its window is refused, and its refused events.
fn push_refusals(
    text: &mut String,
    config: &Config,
    turn: &TurnExplanation,
) -> Result<(), AllocError> {
    text.push_str("{")?;
    push_number(text, false, "turn", turn.turn as u64)?;
    push_boolean(text, true, "window_back", turn.report.window_back)?;
    if config.version == Version::Four {
        let hosts = turn.report.hosts_back.as_slice();
        push_array(text, "windows_back", hosts, |text, host| {
            push_string(text, chain_name(config, *host))
        })?;
    }
    let refused = turn.report.refused.as_slice();
    push_array(text, "refused", refused, |text, refused| {
        push_refused(text, config, turn.subjects.as_slice(), refused)
    })
}

/// Adds the settlements that are refused.
fn push_settlements(text: &mut String, settlements: &[SettlementReport]) -> Result<(), AllocError> {
    push_name(text, true, "settlements")?;
    text.push_str("[")?;
    let mut is_later = false;
    for (place, settlement) in settlements.iter().enumerate() {
        if let Some(refusal) = &settlement.refusal {
            push_comma(text, is_later)?;
            push_refused_settlement(text, place, settlement, refusal)?;
            is_later = true;
        }
    }
    text.push_str("]")
}

fn push_refused_settlement(
    text: &mut String,
    place: usize,
    settlement: &SettlementReport,
    refusal: &Refusal,
) -> Result<(), AllocError> {
    text.push_str("{")?;
    push_number(text, false, "settlement", place as u64)?;
    push_text(text, true, "client", settlement.id.as_str())?;
    push_number(text, true, "batch", settlement.batch)?;
    push_refusal(text, refusal)?;
    text.push_str("}")
}

fn push_refused(
    text: &mut String,
    config: &Config,
    subjects: &[Subject],
    refused: &RefusedEvent,
) -> Result<(), AllocError> {
    text.push_str("{")?;
    push_number(text, false, "event", refused.event as u64)?;
    push_refusal(text, &refused.refusal)?;
    if let Some(subject) = subjects.get(refused.event) {
        push_subject(text, config, subject)?;
    }
    match refused.refusal {
        Refusal::BadVote(vote) => push_number(text, true, "vote", vote as u64)?,
        Refusal::Conflict(height) | Refusal::TimeOrder(height) => {
            push_number(text, true, "with_height", height.get())?;
        }
        _ => {}
    }
    text.push_str("}")
}

fn push_subject(text: &mut String, config: &Config, subject: &Subject) -> Result<(), AllocError> {
    let (kind, _) = words_of(subject);
    let (object, id) = subject_of(config, subject);
    push_text(text, true, "kind", kind)?;
    push_text(text, true, object, id)?;
    match number_of(subject) {
        Some((name, number)) => push_number(text, true, name, number),
        None => Ok(()),
    }
}

fn push_client(
    text: &mut String,
    config: &Config,
    report: &ClientReport,
    client: &ClientExplanation,
) -> Result<(), AllocError> {
    push_standing(text, config, client)?;
    push_height(text, "reach", client.reach)?;
    let waiting = client.waiting.as_slice();
    push_array(text, "waits", waiting, |text, message| {
        push_waiting(text, config, message)
    })?;
    push_refresh(text, client.refresh)?;
    push_next(text, config.version, next_of(&report.outcome))?;
    push_outcome(text, config, &report.outcome)?;
    push_why(text, &client.why)?;
    text.push_str("}")
}

/// Adds a client's identifier, its window, what is stored, what it is charged, and whether a height is asked for.
fn push_standing(
    text: &mut String,
    config: &Config,
    client: &ClientExplanation,
) -> Result<(), AllocError> {
    let Charges {
        base,
        signature,
        validator,
    } = client.charges;
    text.push_str("{")?;
    push_text(text, false, "id", client_name(config, client.client))?;
    push_long(text, "from_ns", client.window.from().nanoseconds())?;
    push_long(text, "until_ns", client.window.until().nanoseconds())?;
    push_array(text, "stored", client.stored.as_slice(), push_stored)?;
    let charges = &[base, signature, validator];
    push_array(text, "charges", charges, |text, charge| {
        write!(text, "{charge}")
    })?;
    push_boolean(text, true, "asked", client.is_asked)
}

fn push_stored(text: &mut String, stored: &StoredHeight) -> Result<(), AllocError> {
    text.push_str("{")?;
    push_number(text, false, "height", stored.height.get())?;
    push_long(text, "expiry_ns", stored.expiry)?;
    text.push_str("}")
}

/// Adds which refresh by gain is needed, or that one waits.
fn push_refresh(text: &mut String, refresh: Option<Refresh>) -> Result<(), AllocError> {
    let Some(refresh) = refresh else {
        return Ok(());
    };
    push_name(text, true, "refresh")?;
    text.push_str("{")?;
    push_boolean(text, false, "urgent", refresh.is_urgent)?;
    push_height(text, "height", refresh.height)?;
    text.push_str("}")
}

/// Adds a message's kind, path and sequence.
fn push_packet(
    text: &mut String,
    config: &Config,
    path: usize,
    packet: &PacketMsg,
) -> Result<(), AllocError> {
    push_text(text, false, "kind", kind_name(packet.kind))?;
    push_text(text, true, "path", path_name(config, path))?;
    push_number(text, true, "sequence", packet.sequence.get())
}

fn push_waiting(
    text: &mut String,
    config: &Config,
    message: &WaitingMessage,
) -> Result<(), AllocError> {
    text.push_str("{")?;
    push_packet(text, config, message.path, &message.packet)?;
    push_number(text, true, "proved_from", message.packet.floor.get())?;
    push_number_or_null(text, true, "until_ns", message.presses)?;
    if let Some(stay) = message.stays {
        push_text(text, true, "stays", stay_name(stay))?;
    }
    text.push_str("}")
}

/// Why a message can't go.
fn stay_name(stay: Stay) -> &'static str {
    match stay {
        Stay::TooBig => "too_big",
        Stay::Late => "late",
        Stay::Behind => "behind",
    }
}

fn push_outcome(text: &mut String, config: &Config, outcome: &Outcome) -> Result<(), AllocError> {
    match outcome {
        Outcome::Held(batch) => {
            push_text(text, true, "outcome", "held")?;
            push_number(text, true, "batch", *batch)
        }
        Outcome::Idle(_) => push_text(text, true, "outcome", "idle"),
        Outcome::Planned(planned) => push_planned(text, config, planned),
    }
}

/// Adds whether the goal can be reached, the goal, what was asked for out of reach, and what is sent, or the heights that are reached.
fn push_planned(
    text: &mut String,
    config: &Config,
    planned: &PlannedReport,
) -> Result<(), AllocError> {
    let is_plan = planned.plan.is_some();
    push_text(
        text,
        true,
        "outcome",
        if is_plan { "plan" } else { "unreachable" },
    )?;
    push_name(text, true, "goal")?;
    push_goal(text, planned.goal)?;
    if let Some(beyond) = planned.beyond {
        push_name(text, true, "beyond")?;
        push_goal(text, beyond)?;
    }
    match &planned.plan {
        Some(plan) => push_sends(text, config, plan),
        None => push_array(text, "reached", planned.labelling.labels(), |text, label| {
            write!(text, "{}", label.height)
        }),
    }
}

/// Adds a plan's fee, and what is sent.
fn push_sends(text: &mut String, config: &Config, plan: &PlanReport) -> Result<(), AllocError> {
    push_number(text, true, "fee", plan.total.fee)?;
    push_name(text, true, "sends")?;
    match &plan.sending {
        SendingReport::Nothing => text.push_str("null"),
        SendingReport::TooBig(message) => write!(text, "{{\"too_big\": {message}}}"),
        SendingReport::Batch(batch) => push_batch(text, config, batch, plan.messages.as_slice()),
    }
}

fn push_batch(
    text: &mut String,
    config: &Config,
    batch: &BatchReport,
    messages: &[Message],
) -> Result<(), AllocError> {
    text.push_str("{")?;
    push_number(text, false, "batch", batch.number)?;
    push_number(text, true, "proof", batch.proof.get())?;
    push_number(text, true, "transactions", batch.transactions.len() as u64)?;
    push_array(text, "messages", messages, |text, message| {
        push_message(text, config, message)
    })?;
    text.push_str("}")
}

fn push_message(text: &mut String, config: &Config, message: &Message) -> Result<(), AllocError> {
    text.push_str("{")?;
    push_packet(text, config, message.path(), &message.packet())?;
    text.push_str("}")
}

fn idle_name(reason: IdleReason) -> &'static str {
    match reason {
        IdleReason::NothingLive => "nothing_live",
        IdleReason::MessagesWait => "messages_wait",
        IdleReason::NothingProved => "nothing_proved",
        IdleReason::NothingGoes => "nothing_goes",
        IdleReason::NothingYoung => "nothing_young",
        IdleReason::NothingDue => "nothing_due",
    }
}

fn push_why(text: &mut String, why: &Why) -> Result<(), AllocError> {
    match why {
        Why::Held => Ok(()),
        Why::Idle(reason) => push_text(text, true, "reason", idle_name(*reason)),
        Why::Planned(plan) => push_plan(text, plan),
        Why::Unreachable(why) => {
            push_height(text, "wanted", why.wanted)?;
            push_array(text, "tried", why.steps.as_slice(), push_step)
        }
    }
}

fn push_plan(text: &mut String, plan: &PlanExplanation) -> Result<(), AllocError> {
    push_array(text, "steps", plan.steps.as_slice(), push_step)?;
    push_name(text, true, "direct")?;
    push_step(text, &plan.direct)?;
    push_list(text, "fewest", &plan.fewest)?;
    push_list(text, "bisection", &plan.bisection)
}

fn push_step(text: &mut String, step: &Option<StepExplanation>) -> Result<(), AllocError> {
    let Some(step) = step else {
        return text.push_str("null");
    };
    push_answer(text, step)?;
    push_power(text, "trusted_power", step.trusted_power)?;
    push_power(text, "own_power", Some(step.own_power))?;
    push_number(text, true, "fee", step.fee)?;
    push_number(text, true, "votes", step.votes as u64)?;
    push_number(text, true, "validators", step.validators as u64)?;
    text.push_str("}")
}

fn push_answer(text: &mut String, step: &StepExplanation) -> Result<(), AllocError> {
    text.push_str("{")?;
    push_number(text, false, "height", step.height.get())?;
    push_number(text, true, "trusted", step.trusted.get())?;
    push_text(text, true, "answer", answer_name(step.answer))?;
    push_long(text, "expiry_ns", step.expiry)?;
    push_long(text, "time_ns", step.time.nanoseconds())
}

fn push_power(text: &mut String, name: &str, power: Option<Power>) -> Result<(), AllocError> {
    push_name(text, true, name)?;
    let Some(power) = power else {
        return text.push_str("null");
    };
    text.push_str("{")?;
    push_number(text, false, "signed", power.signed)?;
    push_number(text, true, "total", power.total)?;
    push_number(text, true, "more_than", power.threshold)?;
    text.push_str("}")
}

fn push_list(text: &mut String, name: &str, list: &Option<PricedList>) -> Result<(), AllocError> {
    push_name(text, true, name)?;
    let Some(list) = list else {
        return text.push_str("null");
    };
    text.push_str("{")?;
    push_number_or_null(text, false, "fee", Some(list.fee))?;
    push_array(text, "updates", list.updates.as_slice(), push_update)?;
    text.push_str("}")
}

fn push_update(text: &mut String, update: &Update) -> Result<(), AllocError> {
    text.push_str("{")?;
    push_number(text, false, "height", update.height().get())?;
    push_number(text, true, "trusted", update.trusted().get())?;
    text.push_str("}")
}
