//! The text of a turn's report.
ghost use Rattle.std.specs.Prelude.{◌≡◌, ◌++◌, [], map, slice_index_or, OnOk, string_bytes, codes};
ghost use Rattle.std.specs.List.{flat_map};
ghost use Rattle.std.specs.Fmt.{decimal};
ghost use Rattle.std.specs.Option.{option_map};
ghost use Rattle.rb_super_turn.specs.Views.{refused_view, priced_view, sending_view, plan_view, planned_view, outcome_view, client_report_view, settlement_view, turn_report_view};
ghost use Rattle.rb_step.specs.Sent.{sent_view};
ghost use Rattle.rb_super_turn.specs.Report.{planned as outcome_planned};
ghost use Rattle.rb_text_report.specs.Report.{refused_line, goal_line, label_line, update_line, votes_text, total_line, message_line, left_line, beyond_line, beyond_text, batch_line, transaction_line, numbered_lines, sending_text, next_text, plan_text, outcome_text, client_text, settled_line, refusal_text, refused_settle_line, settlement_text, host_line, windows_text, head_text, turn_text};

use itoa::Buffer;
use rb_base::{ChainId, Height, Moment, PathId};
use rb_batch::Transaction;
use rb_plan_client::Message;
use rb_plan_types::{Cost, Label};
use rb_script_text::{kind_name, push_moment};
use rb_script_types::{Goal, Refusal, Version};
use rb_step::SentVotes;
use rb_super_turn::{
    ClientReport, Outcome, PlanReport, PlannedReport, PricedUpdate, RefusedEvent, SendingReport,
    SettlementReport, TurnReport,
};
use std::alloc::AllocError;

fn push_refused(text: &mut String, refused: &RefusedEvent) -> Result<(), AllocError>
    ensures { OnOk result (string_bytes text.new ≡ string_bytes text.old ++ refused_line (refused_view refused.now)) }
{
    let event = refused.event;
    let number = refused.refusal.number();
    let name = refused.refusal.name();
    writeln!(text, "refused event {event} {number} {name}")
}

fn push_refusals(text: &mut String, refusals: &[RefusedEvent]) -> Result<(), AllocError>
    ensures { OnOk result (string_bytes text.new ≡ string_bytes text.old ++ flat_map refused_line (map refused_view refusals.now)) }
{
    for refused in refusals {
        push_refused(text, refused)?;
    }
    Ok(())
}

fn push_goal(text: &mut String, id: &str, goal: Goal) -> Result<(), AllocError>
    ensures { OnOk result (string_bytes text.new ≡ string_bytes text.old ++ goal_line id.now goal) }
{
    match goal {
        Goal::AtLeast(height) => writeln!(text, "client {id} goal at_least {height}"),
        Goal::Exactly(height) => writeln!(text, "client {id} goal exactly {height}"),
    }
}

fn push_asked(text: &mut String, goal: Goal) -> Result<(), AllocError>
    ensures { OnOk result (string_bytes text.new ≡ string_bytes text.old ++ beyond_line goal) }
{
    match goal {
        Goal::AtLeast(height) => writeln!(text, "beyond at_least {height}"),
        Goal::Exactly(height) => writeln!(text, "beyond exactly {height}"),
    }
}

/// Adds what was asked for and is out of reach.
fn push_beyond(text: &mut String, beyond: Option<Goal>) -> Result<(), AllocError>
    ensures { OnOk result (string_bytes text.new ≡ string_bytes text.old ++ beyond_text beyond) }
{
    match beyond {
        Some(goal) => push_asked(text, goal),
        None => Ok(()),
    }
}

/// Adds a number in plain decimals, without the cost of a format.
fn push_number(text: &mut String, number: u64) -> Result<(), AllocError>
    ensures { OnOk result (string_bytes text.new ≡ string_bytes text.old ++ decimal number) }
{
    let mut buffer = Buffer::new();
    text.push_str(buffer.format(number))
}

fn push_label(text: &mut String, label: &Label) -> Result<(), AllocError>
    ensures { OnOk result (string_bytes text.new ≡ string_bytes text.old ++ label_line label.now) }
{
    let Label { height, cost } = *label;
    text.push_str("label ")?;
    push_number(text, height.get())?;
    text.push_str(" ")?;
    push_number(text, cost.fee)?;
    text.push_str(" ")?;
    push_number(text, cost.count)?;
    text.push_str("\n")
}

fn push_labels(text: &mut String, labels: &[Label]) -> Result<(), AllocError>
    ensures { OnOk result (string_bytes text.new ≡ string_bytes text.old ++ flat_map label_line labels.now) }
{
    for label in labels {
        push_label(text, label)?;
    }
    Ok(())
}

fn push_update(text: &mut String, priced: &PricedUpdate) -> Result<(), AllocError>
    ensures { OnOk result (string_bytes text.new ≡ string_bytes text.old ++ update_line (priced_view priced.now)) }
{
    let height = priced.update.height();
    let trusted = priced.update.trusted();
    let fee = priced.fee;
    write!(text, "update {height} from {trusted} fee {fee}")?;
    push_votes(text, &priced.votes)?;
    text.push_str("\n")
}

/// Adds how many of the header's commit votes an update carries, where it carries only those that it needs.
fn push_votes(text: &mut String, votes: &Option<SentVotes>) -> Result<(), AllocError>
    ensures { OnOk result (string_bytes text.new ≡ string_bytes text.old ++ votes_text (option_map sent_view votes.now)) }
{
    let Some(votes) = votes else {
        return Ok(());
    };
    let sent = votes.senders.len();
    let commits = votes.commits;
    write!(text, " votes {sent} of {commits}")
}

fn push_updates(text: &mut String, updates: &[PricedUpdate]) -> Result<(), AllocError>
    ensures { OnOk result (string_bytes text.new ≡ string_bytes text.old ++ flat_map update_line (map priced_view updates.now)) }
{
    for update in updates {
        push_update(text, update)?;
    }
    Ok(())
}

fn push_total(text: &mut String, total: Cost) -> Result<(), AllocError>
    ensures { OnOk result (string_bytes text.new ≡ string_bytes text.old ++ total_line total) }
{
    let Cost { fee, count } = total;
    writeln!(text, "total {fee} updates {count}")
}

fn push_transaction(
    text: &mut String,
    number: usize,
    transaction: &Transaction,
) -> Result<(), AllocError>
    ensures { OnOk result (string_bytes text.new ≡ string_bytes text.old ++ transaction_line number transaction.now) }
{
    let Transaction { first, count, gas } = *transaction;
    text.push_str("tx ")?;
    push_number(text, number as u64)?;
    text.push_str(" first ")?;
    push_number(text, first as u64)?;
    text.push_str(" count ")?;
    push_number(text, count as u64)?;
    text.push_str(" gas ")?;
    push_number(text, gas)?;
    text.push_str("\n")
}

fn push_transactions(text: &mut String, transactions: &[Transaction]) -> Result<(), AllocError>
    ensures { OnOk result (string_bytes text.new ≡ string_bytes text.old ++ numbered_lines transaction_line 1 transactions.now) }
{
    let mut number = 0;
    for transaction in transactions {
        number += 1;
        push_transaction(text, number, transaction)?;
    }
    Ok(())
}

fn push_batch(text: &mut String, number: u64, proof: Height) -> Result<(), AllocError>
    ensures { OnOk result (string_bytes text.new ≡ string_bytes text.old ++ batch_line number proof) }
{
    writeln!(text, "batch {number} proof {proof}")
}

fn push_sending(text: &mut String, sending: &SendingReport) -> Result<(), AllocError>
    ensures { OnOk result (string_bytes text.new ≡ string_bytes text.old ++ sending_text (sending_view sending.now)) }
{
    match sending {
        SendingReport::Nothing => Ok(()),
        SendingReport::TooBig(index) => writeln!(text, "toobig {index}"),
        SendingReport::Batch(batch) => {
            push_batch(text, batch.number, batch.proof)?;
            push_transactions(text, batch.transactions.as_slice())
        }
    }
}

/// The identifier of the path at a place.
fn id_of(paths: &[PathId], path: usize) -> &str
    ensures { result.now ≡ slice_index_or paths.now path [] }
{
    match paths.get(path) {
        Some(id) => id.as_str(),
        None => "",
    }
}

fn push_message(text: &mut String, paths: &[PathId], message: &Message) -> Result<(), AllocError>
    ensures { OnOk result (string_bytes text.new ≡ string_bytes text.old ++ message_line paths.now message.now) }
{
    let id = id_of(paths, message.path());
    let packet = message.packet();
    let sequence = packet.sequence;
    text.push_str(kind_name(packet.kind))?;
    text.push_str(" ")?;
    text.push_str(id)?;
    text.push_str(" ")?;
    push_number(text, sequence.get())?;
    text.push_str("\n")
}

fn push_messages(
    text: &mut String,
    paths: &[PathId],
    messages: &[Message],
) -> Result<(), AllocError>
    ensures { OnOk result (string_bytes text.new ≡ string_bytes text.old ++ flat_map (message_line paths.now) messages.now) }
{
    for message in messages {
        push_message(text, paths, message)?;
    }
    Ok(())
}

/// Adds when a client has a goal next, from version 3 on.
fn push_next(text: &mut String, version: Version, next: Option<Moment>) -> Result<(), AllocError>
    ensures { OnOk result (string_bytes text.new ≡ string_bytes text.old ++ next_text version next) }
{
    match (version, next) {
        (Version::Three | Version::Four, Some(moment)) => {
            text.push_str("next ")?;
            push_moment(text, moment)?;
            text.push_str("\n")
        }
        _ => Ok(()),
    }
}

fn push_plan(
    text: &mut String,
    version: Version,
    paths: &[PathId],
    next: Option<Moment>,
    plan: &Option<PlanReport>,
) -> Result<(), AllocError>
    ensures { OnOk result (string_bytes text.new ≡ string_bytes text.old ++ plan_text version paths.now next (option_map plan_view plan.now)) }
{
    match plan {
        Some(plan) => {
            push_updates(text, plan.updates.as_slice())?;
            push_total(text, plan.total)?;
            push_messages(text, paths, plan.messages.as_slice())?;
            push_sending(text, &plan.sending)?;
            push_next(text, version, next)
        }
        None => text.push_str("unreachable\n"),
    }
}

fn push_planned(
    text: &mut String,
    version: Version,
    paths: &[PathId],
    id: &str,
    planned: &PlannedReport,
) -> Result<(), AllocError>
    ensures { OnOk result (string_bytes text.new
        ≡ string_bytes text.old ++ outcome_text version paths.now id.now (outcome_planned (planned_view planned.now))) }
{
    push_goal(text, id, planned.goal)?;
    push_beyond(text, planned.beyond)?;
    push_labels(text, planned.labelling.labels())?;
    push_plan(text, version, paths, planned.next, &planned.plan)
}

/// Adds the packet messages that are left out since they are over the gas limit alone.
fn push_left(text: &mut String, paths: &[PathId], left: &[Message]) -> Result<(), AllocError>
    ensures { OnOk result (string_bytes text.new ≡ string_bytes text.old ++ flat_map (left_line paths.now) left.now) }
{
    for message in left {
        text.push_str("toobig ")?;
        push_message(text, paths, message)?;
    }
    Ok(())
}

fn push_outcome(
    text: &mut String,
    version: Version,
    paths: &[PathId],
    client: &ClientReport,
) -> Result<(), AllocError>
    ensures { OnOk result (string_bytes text.new ≡ string_bytes text.old ++ outcome_text version paths.now client.now.id (outcome_view client.now.outcome)) }
{
    let id = client.id.as_str();
    match &client.outcome {
        Outcome::Held(batch) => writeln!(text, "client {id} held {batch}"),
        Outcome::Idle(next) => {
            writeln!(text, "client {id} idle")?;
            push_next(text, version, *next)
        }
        Outcome::Planned(planned) => push_planned(text, version, paths, id, planned),
    }
}

fn push_client(
    text: &mut String,
    version: Version,
    paths: &[PathId],
    client: &ClientReport,
) -> Result<(), AllocError>
    ensures { OnOk result (string_bytes text.new ≡ string_bytes text.old ++ client_text version paths.now (client_report_view client.now)) }
{
    push_outcome(text, version, paths, client)?;
    push_left(text, paths, client.too_big.as_slice())
}

fn push_clients(
    text: &mut String,
    version: Version,
    paths: &[PathId],
    clients: &[ClientReport],
) -> Result<(), AllocError>
    ensures { OnOk result (string_bytes text.new
        ≡ string_bytes text.old ++ flat_map (client_text version paths.now) (map client_report_view clients.now)) }
{
    for client in clients {
        push_client(text, version, paths, client)?;
    }
    Ok(())
}

fn push_settled(text: &mut String, settlement: &SettlementReport) -> Result<(), AllocError>
    ensures { OnOk result (string_bytes text.new
        ≡ string_bytes text.old ++ settled_line settlement.now.id settlement.now.batch settlement.now.done) }
{
    let id = settlement.id.as_str();
    let batch = settlement.batch;
    let done = settlement.done;
    writeln!(text, "settled {id} {batch} {done}")
}

/// Adds why something was refused, and ends the line.
fn push_refusal(text: &mut String, refusal: &Refusal) -> Result<(), AllocError>
    ensures { OnOk result (string_bytes text.new ≡ string_bytes text.old ++ refusal_text refusal.now) }
{
    let number = refusal.number();
    let name = refusal.name();
    writeln!(text, "{number} {name}")
}

fn push_refused_settlement(
    text: &mut String,
    settlement: usize,
    refusal: &Refusal,
) -> Result<(), AllocError>
    ensures { OnOk result (string_bytes text.new ≡ string_bytes text.old ++ refused_settle_line settlement refusal.now) }
{
    write!(text, "refused settle {settlement} ")?;
    push_refusal(text, refusal)
}

fn push_settlement(
    text: &mut String,
    number: usize,
    settlement: &SettlementReport,
) -> Result<(), AllocError>
    ensures { OnOk result (string_bytes text.new ≡ string_bytes text.old ++ settlement_text number (settlement_view settlement.now)) }
{
    match &settlement.refusal {
        None => push_settled(text, settlement),
        Some(refusal) => push_refused_settlement(text, number, refusal),
    }
}

fn push_settlements(text: &mut String, settlements: &[SettlementReport]) -> Result<(), AllocError>
    ensures { OnOk result (string_bytes text.new
        ≡ string_bytes text.old ++ numbered_lines settlement_text 0 (map settlement_view settlements.now)) }
{
    for (number, settlement) in settlements.iter().enumerate() {
        push_settlement(text, number, settlement)?;
    }
    Ok(())
}

/// The identifier of the chain at a place.
fn chain_of(chains: &[ChainId], chain: usize) -> &str
    ensures { result.now ≡ slice_index_or chains.now chain [] }
{
    match chains.get(chain) {
        Some(id) => id.as_str(),
        None => "",
    }
}

#[tactic(auto, unfolding(crate::specs::Report::host_line))]
fn push_host(text: &mut String, chains: &[ChainId], host: usize) -> Result<(), AllocError>
    ensures { OnOk result (string_bytes text.new ≡ string_bytes text.old ++ host_line chains.now host) }
{
    let id = chain_of(chains, host);
    writeln!(text, "refused window {id} 806 WindowBack")
}

/// Adds the hosts whose windows go back.
fn push_hosts(text: &mut String, chains: &[ChainId], hosts: &[usize]) -> Result<(), AllocError>
    ensures { OnOk result (string_bytes text.new ≡ string_bytes text.old ++ flat_map (host_line chains.now) hosts.now) }
{
    for host in hosts {
        push_host(text, chains, *host)?;
    }
    Ok(())
}

/// Adds which windows go back: those of hosts, then the turn's.
fn push_windows(
    text: &mut String,
    chains: &[ChainId],
    hosts_back: &[usize],
    window_back: bool,
) -> Result<(), AllocError>
    ensures { OnOk result (string_bytes text.new ≡ string_bytes text.old ++ windows_text chains.now hosts_back.now window_back) }
{
    push_hosts(text, chains, hosts_back)?;
    if window_back {
        text.push_str("refused window 806 WindowBack\n")?;
    }
    Ok(())
}

fn push_head(
    text: &mut String,
    chains: &[ChainId],
    number: u64,
    hosts_back: &[usize],
    window_back: bool,
) -> Result<(), AllocError>
    ensures { OnOk result (string_bytes text.new ≡ string_bytes text.old ++ head_text chains.now number hosts_back.now window_back) }
{
    writeln!(text, "turn {number}")?;
    push_windows(text, chains, hosts_back, window_back)
}

/// Adds the lines of a turn, by its number from 1, with the identifiers of the chains and of the paths by their
/// places.
pub fn push_turn(
    text: &mut String,
    version: Version,
    chains: &[ChainId],
    paths: &[PathId],
    number: u64,
    turn: &TurnReport,
) -> Result<(), AllocError>
    ensures { OnOk result (string_bytes text.new
        ≡ string_bytes text.old ++ turn_text version chains.now paths.now number (turn_report_view turn.now)) }
{
    push_head(
        text,
        chains,
        number,
        turn.hosts_back.as_slice(),
        turn.window_back,
    )?;
    push_refusals(text, turn.refused.as_slice())?;
    push_clients(text, version, paths, turn.clients.as_slice())?;
    push_settlements(text, turn.settlements.as_slice())
}
