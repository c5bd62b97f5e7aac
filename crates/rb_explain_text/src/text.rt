//! An explanation as text.
use crate::moments::{push_time, push_window};
use crate::packets::{packets_of, push_messages, push_waiting};
use crate::pieces::{put, put_long};
use crate::refusals::{push_refusals, push_settlements};
use crate::steps::{push_answer, push_count, push_fee, push_powers, push_price, push_route};
use rb_base::{Height, Moment, Sink};
use rb_explain::{
    ClientExplanation, IdleReason, PlanExplanation, PricedList, Refresh, StepExplanation,
    StoredHeight, TurnExplanation, UnreachableExplanation, WaitingMessage, Why,
};
use rb_plan_types::Label;
use rb_script_text::{client_name, push_instant, push_length};
use rb_script_types::{Config, Goal, Version};
use rb_step::Verdict;
use rb_super_turn::{BatchReport, ClientReport, Outcome, PlanReport, PlannedReport, SendingReport};
use std::alloc::{AllocError, Global};

/// What is said of the fewest updates where they weren't searched.
const NOT_SEARCHED: &str =
    "not searched, since that takes long for so many turns and clients (--turn, --client)";

/// So many heights are told in a line.
const MOST_HEIGHTS: usize = 12;

/// Writes the explanation of a turn as text: what is refused, a line each; for each client that was explained a paragraph. Of
/// the steps of a plan at most so many are told. Answers whether all of it was taken.
pub fn put_text<W: Sink>(
    alloc: Global,
    config: &Config,
    turn: &TurnExplanation,
    most: usize,
    writer: &mut W,
) -> Result<bool, AllocError> {
    let mut text = String::new(alloc);
    push_refusals(&mut text, config, turn)?;
    for (report, client) in turn.report.clients.iter().zip(&turn.clients) {
        if let Some(client) = client {
            push_client(alloc, &mut text, config, turn.turn, report, client, most)?;
            put_long(&mut text, writer);
        }
    }
    push_settlements(&mut text, turn)?;
    Ok(put(&mut text, writer))
}

/// Adds a client's heading: what is wanted, or why nothing is.
pub fn push_heading(
    text: &mut String,
    config: &Config,
    turn: usize,
    report: &ClientReport,
    client: &ClientExplanation,
) -> Result<(), AllocError> {
    let id = client_name(config, client.client);
    write!(text, "turn {turn}, client {id}: ")?;
    match (&report.outcome, &client.why) {
        (Outcome::Held(batch), _) => write!(text, "held by batch {batch}"),
        (_, Why::Idle(reason)) => text.push_str(idle_words(
            config.version,
            client.stored.as_slice(),
            *reason,
        )),
        (Outcome::Planned(planned), Why::Unreachable(_)) => {
            push_goal(text, planned.goal)?;
            text.push_str(" is wanted: unreachable")
        }
        (Outcome::Planned(planned), _) => {
            push_goal(text, planned.goal)?;
            text.push_str(" is wanted")
        }
        _ => Ok(()),
    }
}

/// Adds a client's paragraph.
pub fn push_client(
    alloc: Global,
    text: &mut String,
    config: &Config,
    turn: usize,
    report: &ClientReport,
    client: &ClientExplanation,
    most: usize,
) -> Result<(), AllocError> {
    push_heading(text, config, turn, report, client)?;
    text.push_str("\n")?;
    push_needs(text, config.version, client, &report.outcome)?;
    match (&report.outcome, &client.why) {
        (Outcome::Planned(planned), Why::Planned(plan)) => {
            push_stored(text, client)?;
            push_plan(alloc, text, config, planned, client, plan, most)?;
        }
        (Outcome::Planned(planned), Why::Unreachable(why)) => {
            push_stored(text, client)?;
            push_unreachable(text, planned, client, why)?;
        }
        _ => {}
    }
    push_waiting(alloc, text, config, client, &report.outcome)?;
    push_next(text, config.version, client, &report.outcome)
}

/// Adds what a client goes by in version 4, unless it is held: its host's window, what was asked for out of reach, and its
/// refresh.
fn push_needs(
    text: &mut String,
    version: Version,
    client: &ClientExplanation,
    outcome: &Outcome,
) -> Result<(), AllocError> {
    match (version, outcome) {
        (Version::Four, Outcome::Idle(_)) => push_windowed(text, client, None),
        (Version::Four, Outcome::Planned(planned)) => push_windowed(text, client, planned.beyond),
        _ => Ok(()),
    }
}

/// Adds a client's window, what was asked for and is out of reach, and which refresh is needed, or that one waits.
fn push_windowed(
    text: &mut String,
    client: &ClientExplanation,
    beyond: Option<Goal>,
) -> Result<(), AllocError> {
    text.push_str("  ")?;
    push_window(text, &client.window)?;
    text.push_str("\n")?;
    if let Some(goal) = beyond {
        text.push_str("  asked for: ")?;
        push_goal(text, goal)?;
        text.push_str(", which is out of reach\n")?;
    }
    push_refresh(text, client.refresh)
}

/// Adds which refresh is needed, or that one waits.
fn push_refresh(text: &mut String, refresh: Option<Refresh>) -> Result<(), AllocError> {
    let Some(refresh) = refresh else {
        return Ok(());
    };
    text.push_str(if refresh.is_urgent {
        "  refresh: urgent, "
    } else {
        "  refresh: due, "
    })?;
    match refresh.height {
        Some(height) => writeln!(text, "at least height {height}"),
        None => text.push_str("waits for a newer header\n"),
    }
}

/// Adds when the client has a goal next, by what is known now, from version 3 on.
fn push_next(
    text: &mut String,
    version: Version,
    client: &ClientExplanation,
    outcome: &Outcome,
) -> Result<(), AllocError> {
    let until = client.window.until().nanoseconds();
    match (version, next_of(outcome)) {
        (Version::Three | Version::Four, Some(moment)) => {
            text.push_str("  next: ")?;
            push_time(text, moment.nanoseconds(), until)?;
            text.push_str("\n")
        }
        _ => Ok(()),
    }
}

/// The moment at which a client has a goal next; none of one that is held, or whose goal can't be reached.
pub(crate) fn next_of(outcome: &Outcome) -> Option<Moment> {
    match outcome {
        Outcome::Idle(next) => *next,
        Outcome::Planned(planned) if planned.plan.is_some() => planned.next,
        _ => None,
    }
}

fn push_goal(text: &mut String, goal: Goal) -> Result<(), AllocError> {
    match goal {
        Goal::AtLeast(height) => write!(text, "at least height {height}"),
        Goal::Exactly(height) => write!(text, "height {height}"),
    }
}

/// Why a client is idle, in words.
fn idle_words(version: Version, stored: &[StoredHeight], reason: IdleReason) -> &'static str {
    match reason {
        IdleReason::NothingLive if stored.is_empty() => "idle: no consensus state is stored",
        IdleReason::NothingLive => "idle: all stored consensus states have expired",
        IdleReason::MessagesWait => "idle: packet messages wait for others to go with them",
        IdleReason::NothingProved => {
            "idle: packet messages are owed, and no height that proves one of them can be reached"
        }
        IdleReason::NothingGoes => "idle: packet messages are owed, and none of them can go",
        IdleReason::NothingYoung if version == Version::Four => {
            "idle: a refresh waits for a newer header"
        }
        IdleReason::NothingYoung => "idle: a refresh is due, and no header is young enough",
        IdleReason::NothingDue => "idle: nothing is due",
    }
}

/// Adds the highest stored heights, and when their records expire.
fn push_stored(text: &mut String, client: &ClientExplanation) -> Result<(), AllocError> {
    text.push_str("  stored:")?;
    let stored = client.stored.as_slice();
    if stored.is_empty() {
        text.push_str(" none")?;
    }
    for (place, height) in stored.iter().rev().enumerate() {
        if place < 3 {
            text.push_str(if place == 0 { " " } else { "; " })?;
            push_stored_height(text, client.window.until().nanoseconds(), height)?;
        }
    }
    if stored.len() > 3 {
        write!(text, "; {} more", stored.len() - 3)?;
    }
    text.push_str("\n")
}

fn push_stored_height(
    text: &mut String,
    until: u128,
    stored: &StoredHeight,
) -> Result<(), AllocError> {
    write!(text, "{} (expires ", stored.height)?;
    push_instant(text, stored.expiry)?;
    if stored.expiry > until {
        text.push_str(", ")?;
        push_length(text, stored.expiry - until)?;
        text.push_str(" after the window)")
    } else {
        text.push_str(", no later than the window ends)")
    }
}

fn push_plan(
    alloc: Global,
    text: &mut String,
    config: &Config,
    planned: &PlannedReport,
    client: &ClientExplanation,
    plan: &PlanExplanation,
    most: usize,
) -> Result<(), AllocError> {
    let Some(report) = &planned.plan else {
        return Ok(());
    };
    text.push_str("  plan: ")?;
    push_count(text, report.updates.len(), "update")?;
    writeln!(text, ", fee {}", report.total.fee)?;
    push_steps(text, client, plan.steps.as_slice(), most)?;
    push_lists(text, client, plan)?;
    push_sending(alloc, text, config, report)
}

/// Adds what else there is beside a plan: the one step, and other lists of updates.
fn push_lists(
    text: &mut String,
    client: &ClientExplanation,
    plan: &PlanExplanation,
) -> Result<(), AllocError> {
    push_direct(text, client, plan)?;
    push_list(text, "fewest updates", &plan.fewest, NOT_SEARCHED)?;
    if plan.direct.is_some() {
        push_list(
            text,
            "as a light client bisects over these headers",
            &plan.bisection,
            "none",
        )?;
    }
    Ok(())
}

/// Adds what the client answers to the one step from the highest height that is stored and live, unless that is the plan.
fn push_direct(
    text: &mut String,
    client: &ClientExplanation,
    plan: &PlanExplanation,
) -> Result<(), AllocError> {
    let Some(step) = &plan.direct else {
        return Ok(());
    };
    if plan.is_only_step() {
        return Ok(());
    }
    write!(text, "  one update, {} -> {}: ", step.trusted, step.height)?;
    push_answer(text, &client.window, step)?;
    text.push_str("\n")
}

/// Adds the two lines of a step.
fn push_step(
    text: &mut String,
    client: &ClientExplanation,
    step: &StepExplanation,
) -> Result<(), AllocError> {
    write!(text, "    {} -> {}: ", step.trusted, step.height)?;
    push_fee(text, &client.charges, step)?;
    text.push_str("\n      ")?;
    push_powers(text, step)?;
    text.push_str("\n")
}

/// Adds two lines a step, of the first ones.
fn push_steps(
    text: &mut String,
    client: &ClientExplanation,
    steps: &[Option<StepExplanation>],
    most: usize,
) -> Result<(), AllocError> {
    let shown = steps.len().min(most / 2);
    for step in steps.iter().take(shown) {
        if let Some(step) = step {
            push_step(text, client, step)?;
        }
    }
    if shown < steps.len() {
        writeln!(text, "    {} more (--all tells them)", steps.len() - shown)?;
    }
    Ok(())
}

/// Adds a list of updates, or what is said where there is none.
fn push_list(
    text: &mut String,
    what: &str,
    list: &Option<PricedList>,
    otherwise: &str,
) -> Result<(), AllocError> {
    text.push_str("  ")?;
    push_price(text, what, list, otherwise)?;
    if let Some(list) = list {
        let count = list.updates.len();
        if count > 0 && count <= MOST_HEIGHTS {
            text.push_str(" (")?;
            push_route(text, list.updates.as_slice())?;
            text.push_str(")")?;
        }
    }
    text.push_str("\n")
}

/// Adds a batch, and the packets of its messages.
fn push_batch(
    text: &mut String,
    config: &Config,
    batch: &BatchReport,
    packets: &[WaitingMessage],
) -> Result<(), AllocError> {
    let number = batch.number;
    let count = batch.transactions.len();
    write!(text, "  sends: batch {number}, transactions: {count}")?;
    if !packets.is_empty() {
        text.push_str("; ")?;
        push_messages(text, config, packets)?;
        write!(text, ", proved at {}", batch.proof)?;
    }
    text.push_str("\n")
}

fn push_sending(
    alloc: Global,
    text: &mut String,
    config: &Config,
    report: &PlanReport,
) -> Result<(), AllocError> {
    match &report.sending {
        SendingReport::Nothing => text.push_str("  sends nothing: the goal is met as it is\n"),
        SendingReport::TooBig(message) => writeln!(
            text,
            "  sends nothing: message {message} (from 0, the updates first) is over the gas limit alone"
        ),
        SendingReport::Batch(batch) => {
            let packets = packets_of(alloc, report.messages.as_slice())?;
            push_batch(text, config, batch, packets.as_slice())
        }
    }
}

/// Adds what the client answers to each of these steps.
fn push_tried(
    text: &mut String,
    client: &ClientExplanation,
    steps: &[Option<StepExplanation>],
) -> Result<(), AllocError> {
    for step in steps {
        if let Some(step) = step {
            write!(text, "    from {}: ", step.trusted)?;
            push_answer(text, &client.window, step)?;
            text.push_str("\n")?;
        }
    }
    Ok(())
}

fn push_unreachable(
    text: &mut String,
    planned: &PlannedReport,
    client: &ClientExplanation,
    why: &UnreachableExplanation,
) -> Result<(), AllocError> {
    text.push_str("  reached:")?;
    push_reached(text, planned.labelling.labels())?;
    let Some(wanted) = why.wanted else {
        return text.push_str("  no header has a height that is wanted\n");
    };
    if why.steps.is_empty() {
        return writeln!(
            text,
            "  {wanted}, the lowest header that is wanted: no consensus state below it is stored"
        );
    }
    writeln!(text, "  {wanted}, the lowest header that is wanted:")?;
    push_tried(text, client, why.steps.as_slice())?;
    push_gap(text, wanted, why.steps.as_slice())
}

/// Adds where another header may help: between the highest height that is reached and the wanted one, where too little power signed.
fn push_gap(
    text: &mut String,
    wanted: Height,
    steps: &[Option<StepExplanation>],
) -> Result<(), AllocError> {
    let Some(Some(step)) = steps.first() else {
        return Ok(());
    };
    let trusted = step.trusted;
    match step.answer {
        Verdict::NotEnoughTrust { .. } => writeln!(
            text,
            "    a header between {trusted} and {wanted} may help: no known one does"
        ),
        _ => Ok(()),
    }
}

/// Adds the highest heights that are reached, and how many others there are.
fn push_reached(text: &mut String, labels: &[Label]) -> Result<(), AllocError> {
    if labels.is_empty() {
        text.push_str(" none")?;
    }
    let others = labels.len().saturating_sub(MOST_HEIGHTS);
    if others > 0 {
        write!(text, " {others} others")?;
    }
    for (place, label) in labels.iter().enumerate() {
        if place >= others {
            text.push_str(if place == 0 { " " } else { ", " })?;
            write!(text, "{}", label.height)?;
        }
    }
    text.push_str("\n")
}
