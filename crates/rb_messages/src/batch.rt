//! The batches that a script's last turn opens.
ghost use Rattle.std.specs.Prelude.{◌≡◌, ◌++◌, [], map, IfOk, OnOk};
ghost use Rattle.std.specs.List.{enumerate_from, flat_map};
ghost use Rattle.std.specs.Option.{option_map_or};
ghost use Rattle.rb_core.specs.Core.{state_in};
ghost use Rattle.rb_messages.specs.Batches.{batch_view, batches_at, client_batches, last_batches, plan_batches};

use rb_base::{ClientId, Height};
use rb_batch::Transaction;
use rb_book::{ChainBook, Record};
use rb_core::Core;
use rb_plan_client::Message;
use rb_script_types::ClientConfig;
use rb_super_turn::{ClientReport, Outcome, PlanReport, Report, SendingReport};
use std::alloc::{AllocError, Global};

/// A batch that is sent: of which client, on which host and of which tracked chain, by their places; how many updates it
/// begins with, the packet messages behind them, the height that their proofs are made for, the consensus state that
/// the relayer has of it, and the transactions.
#[derive(Drop)]
pub struct PlannedBatch {
    pub client: ClientId,
    pub host: usize,
    pub chain: usize,
    pub updates: usize,
    pub messages: Vec<Message>,
    pub proof: Height,
    pub proof_record: Option<Record>,
    pub transactions: Vec<Transaction>,
}

/// The batches that a report's last turn opens, the clients in script order, with the records of the relayer that has
/// made it.
pub fn planned_batches(
    alloc: Global,
    report: &Report,
    relayer: &Core,
) -> Result<Vec<PlannedBatch>, AllocError>
    ensures { IfOk result (λ batches. map batch_view batches.items ≡ last_batches (state_in relayer.now).standing relayer.now.config.clients report.now.turns.items) }
{
    let mut batches = Vec::new(alloc);
    match report.turns.last() {
        Some(turn) => {
            let configs = relayer.config().clients.as_slice();
            add_clients(
                alloc,
                &mut batches,
                relayer,
                configs,
                turn.clients.as_slice(),
            )?;
        }
        None => {}
    }
    Ok(batches)
}

/// Adds the batches of clients, each configured as at its place.
fn add_clients(
    alloc: Global,
    batches: &mut Vec<PlannedBatch>,
    relayer: &Core,
    configs: &[ClientConfig],
    clients: &[ClientReport],
) -> Result<(), AllocError>
    ensures { OnOk result (map batch_view batches.new.items ≡ map batch_view batches.old.items ++ flat_map (batches_at (state_in relayer.now).standing configs.now) (enumerate_from 0 clients.now)) }
{
    for (place, client) in clients.iter().enumerate() {
        add_client_at(alloc, batches, relayer, configs, place, client)?;
    }
    Ok(())
}

/// Adds the batch of the client at a place, if one is opened.
fn add_client_at(
    alloc: Global,
    batches: &mut Vec<PlannedBatch>,
    relayer: &Core,
    configs: &[ClientConfig],
    place: usize,
    client: &ClientReport,
) -> Result<(), AllocError>
    ensures { OnOk result (map batch_view batches.new.items ≡ map batch_view batches.old.items ++ batches_at (state_in relayer.now).standing configs.now (place, client.now)) }
{
    match configs.get(place) {
        Some(config) => {
            let shared = relayer.book(config.tracks)?;
            add_client(alloc, batches, shared.book(), config, &client.outcome)
        }
        None => Ok(()),
    }
}

/// Adds the batch of a client, by what came of it.
fn add_client(
    alloc: Global,
    batches: &mut Vec<PlannedBatch>,
    book: &ChainBook,
    config: &ClientConfig,
    outcome: &Outcome,
) -> Result<(), AllocError>
    ensures { OnOk result (map batch_view batches.new.items ≡ map batch_view batches.old.items ++ client_batches book.now config.now outcome.now) }
{
    match outcome {
        Outcome::Planned(planned) => match &planned.plan {
            Some(plan) => add_plan(alloc, batches, book, config, plan),
            None => Ok(()),
        },
        Outcome::Held(_) | Outcome::Idle(_) => Ok(()),
    }
}

/// Adds the batch of a plan, if one is opened.
fn add_plan(
    alloc: Global,
    batches: &mut Vec<PlannedBatch>,
    book: &ChainBook,
    config: &ClientConfig,
    plan: &PlanReport,
) -> Result<(), AllocError>
    ensures { OnOk result (map batch_view batches.new.items ≡ map batch_view batches.old.items ++ plan_batches book.now config.now plan.now) }
{
    let SendingReport::Batch(batch) = &plan.sending else {
        return Ok(());
    };
    batches.push(PlannedBatch {
        client: config.id,
        host: config.host,
        chain: config.tracks,
        updates: plan.updates.len(),
        messages: Vec::from_slice(alloc, plan.messages.as_slice())?,
        proof: batch.proof,
        proof_record: book.record(batch.proof).copied(),
        transactions: Vec::from_slice(alloc, batch.transactions.as_slice())?,
    })?;
    Ok(())
}
