//! The updates that a script's last turn sends.
ghost use Rattle.std.specs.Prelude.{◌≡◌, ◌++◌, [], map, nat_le, IfOk, OnOk};
ghost use Rattle.std.specs.List.{count_by, enumerate_from, flat_map};
ghost use Rattle.std.specs.Option.{option_map, option_map_or};
ghost use Rattle.rb_batch.specs.declared.transaction.Transaction.{Transaction};
ghost use Rattle.rb_core.specs.Core.{state_in};
ghost use Rattle.rb_step.specs.Sent.{sent_view};
ghost use Rattle.rb_messages.specs.Updates.{client_updates, last_updates, plan_updates, planned_view, sent_as, updates_at};

use crate::update::PlannedUpdate;
use rb_batch::Transaction;
use rb_book::ChainBook;
use rb_core::Core;
use rb_script_types::ClientConfig;
use rb_step::SentVotes;
use rb_super_turn::{
    ClientReport, Outcome, PlanReport, PlannedReport, PricedUpdate, Report, SendingReport,
};
use std::alloc::{AllocError, Global};

/// The updates of the batches that a report's last turn opens: the clients in script order, and each one's in the order of
/// its transactions, with the records of the relayer that has made it.
pub fn planned_updates(
    alloc: Global,
    report: &Report,
    relayer: &Core,
) -> Result<Vec<PlannedUpdate>, AllocError>
    ensures { IfOk result (λ updates. map planned_view updates.items ≡ last_updates (state_in relayer.now).standing relayer.now.config.clients report.now.turns.items) }
{
    let mut updates = Vec::new(alloc);
    match report.turns.last() {
        Some(turn) => {
            let configs = relayer.config().clients.as_slice();
            add_clients(
                alloc,
                &mut updates,
                relayer,
                configs,
                turn.clients.as_slice(),
            )?;
        }
        None => {}
    }
    Ok(updates)
}

/// Adds the updates of clients, each configured as at its place.
fn add_clients(
    alloc: Global,
    updates: &mut Vec<PlannedUpdate>,
    relayer: &Core,
    configs: &[ClientConfig],
    clients: &[ClientReport],
) -> Result<(), AllocError>
    ensures { OnOk result (map planned_view updates.new.items ≡ map planned_view updates.old.items ++ flat_map (updates_at (state_in relayer.now).standing configs.now) (enumerate_from 0 clients.now)) }
{
    for (place, client) in clients.iter().enumerate() {
        add_client_at(alloc, updates, relayer, configs, place, client)?;
    }
    Ok(())
}

/// Adds the updates of the client at a place.
fn add_client_at(
    alloc: Global,
    updates: &mut Vec<PlannedUpdate>,
    relayer: &Core,
    configs: &[ClientConfig],
    place: usize,
    client: &ClientReport,
) -> Result<(), AllocError>
    ensures { OnOk result (map planned_view updates.new.items ≡ map planned_view updates.old.items ++ updates_at (state_in relayer.now).standing configs.now (place, client.now)) }
{
    match configs.get(place) {
        Some(config) => {
            let shared = relayer.book(config.tracks)?;
            add_client(alloc, updates, shared.book(), config, &client.outcome)
        }
        None => Ok(()),
    }
}

/// Adds the updates of a client, by what came of it.
fn add_client(
    alloc: Global,
    updates: &mut Vec<PlannedUpdate>,
    book: &ChainBook,
    config: &ClientConfig,
    outcome: &Outcome,
) -> Result<(), AllocError>
    ensures { OnOk result (map planned_view updates.new.items ≡ map planned_view updates.old.items ++ client_updates book.now config.now outcome.now) }
{
    match outcome {
        Outcome::Planned(planned) => add_planned(alloc, updates, book, config, planned),
        Outcome::Held(_) | Outcome::Idle(_) => Ok(()),
    }
}

/// Adds the updates of a client's plan, if there is one.
fn add_planned(
    alloc: Global,
    updates: &mut Vec<PlannedUpdate>,
    book: &ChainBook,
    config: &ClientConfig,
    planned: &PlannedReport,
) -> Result<(), AllocError>
    ensures { OnOk result (map planned_view updates.new.items ≡ map planned_view updates.old.items ++ option_map_or (plan_updates book.now config.now) planned.now.plan []) }
{
    match &planned.plan {
        Some(plan) => add_plan(alloc, updates, book, config, plan),
        None => Ok(()),
    }
}

/// Adds the updates of a plan, where a batch of it is opened.
fn add_plan(
    alloc: Global,
    updates: &mut Vec<PlannedUpdate>,
    book: &ChainBook,
    config: &ClientConfig,
    plan: &PlanReport,
) -> Result<(), AllocError>
    ensures { OnOk result (map planned_view updates.new.items ≡ map planned_view updates.old.items ++ plan_updates book.now config.now plan.now) }
{
    match &plan.sending {
        SendingReport::Batch(batch) => {
            let priced = plan.updates.as_slice();
            add_batch(
                alloc,
                updates,
                book,
                config,
                priced,
                batch.transactions.as_slice(),
            )
        }
        SendingReport::Nothing | SendingReport::TooBig(_) => Ok(()),
    }
}

/// Adds the updates of a batch with these transactions.
fn add_batch(
    alloc: Global,
    updates: &mut Vec<PlannedUpdate>,
    book: &ChainBook,
    config: &ClientConfig,
    planned: &[PricedUpdate],
    transactions: &[Transaction],
) -> Result<(), AllocError>
    ensures { OnOk result (map planned_view updates.new.items ≡ map planned_view updates.old.items ++ map (sent_as book.now config.now transactions.now) (enumerate_from 0 planned.now)) }
{
    for (place, priced) in planned.iter().enumerate() {
        let own_record = book.record(priced.update.height()).copied();
        let trusted_record = book.record(priced.update.trusted()).copied();
        let transaction = begun_by(transactions, place);
        let votes = copy_of(alloc, &priced.votes)?;
        updates.push(PlannedUpdate {
            client: config.id,
            host: config.host,
            chain: config.tracks,
            transaction,
            height: priced.update.height(),
            trusted: priced.update.trusted(),
            own_record,
            trusted_record,
            votes,
        })?;
    }
    Ok(())
}

/// A copy of the votes that an update carries.
fn copy_of(alloc: Global, votes: &Option<SentVotes>) -> Result<Option<SentVotes>, AllocError>
    ensures { IfOk result (λ copy. option_map sent_view copy ≡ option_map sent_view votes.now) }
{
    match votes {
        Some(votes) => Ok(Some(SentVotes {
            senders: Vec::from_slice(alloc, votes.senders.as_slice())?,
            commits: votes.commits,
        })),
        None => Ok(None),
    }
}

/// How many transactions begin at a message or before it.
fn begun_by(transactions: &[Transaction], message: usize) -> usize
    ensures { result ≡ count_by (λ (t : Transaction). nat_le t.first message) transactions.now }
{
    transactions
        .iter()
        .filter(|transaction| transaction.first <= message)
        .count()
}
