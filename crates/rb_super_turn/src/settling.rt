//! Settlements of batches.
ghost use Rattle.std.specs.Prelude.{◌≡◌, ◌<◌, ◌≤◌, ◌+◌, ◌++◌, length, map, fold, All, IfOk, IfSome, OnOk};
ghost use Rattle.rb_script_types.specs.declared.script.Settlement as settlements;
ghost use Rattle.std.specs.List.{range_with_len};
ghost use Rattle.std.specs.Option.{option_map, option_to_list};
ghost use Rattle.rb_super_turn.specs.Turns.{settlement_report, settlement_reports, after_settlement, taking, after_taking, taking_reports, after_all, reports_of_all};
ghost use Rattle.rb_super_turn.specs.Phases.{standing_in, HasLogRoom, IsLater};
ghost use Rattle.rb_super_turn.specs.Views.{settlement_view};

use crate::clients::config_of;
use crate::machine::Machine;
use crate::relayer::Relayer;
use crate::report::SettlementReport;
use crate::taking::hear;
use rb_core_model::Event;
use rb_script_types::Settlement;
use std::alloc::{AllocError, Allocator};

/// Takes in a settlement, or tells why it is refused.
fn settle<A: Allocator + Copy, M: Machine<A>>(
    relayer: &mut Relayer<A, M>,
    settlement: Settlement,
) -> Result<SettlementReport, AllocError>
    requires client { settlement.client < length relayer.old.config.clients }
    requires room { HasLogRoom relayer.old 1 }
    ensures report { IfOk result (λ r. settlement_view r ≡ settlement_report (standing_in relayer.old) settlement) }
    ensures standing { OnOk result (standing_in relayer.new ≡ after_settlement (standing_in relayer.old) settlement) }
    ensures later { OnOk result (IsLater 1 relayer.old relayer.new) }
{
    let config = config_of(relayer, settlement.client);
    let refusal = hear(relayer, Event::Settled(settlement))?;
    Ok(SettlementReport {
        id: config.id,
        batch: settlement.batch,
        done: settlement.done,
        refusal,
    })
}

/// Takes in settlements, in their order, and tells what comes of each. What is refused changes
/// nothing.
fn settle_all<A: Allocator + Copy, M: Machine<A>>(
    alloc: A,
    relayer: &mut Relayer<A, M>,
    settlements: &[Settlement],
) -> Result<Vec<SettlementReport, A>, AllocError>
    requires clients { All (λ (x : Settlement). x.client < length relayer.old.config.clients) settlements.now }
    requires room { HasLogRoom relayer.old (length settlements.now) }
    ensures reports { IfOk result (λ reports. map settlement_view reports.items ≡ settlement_reports (standing_in relayer.old) settlements.now) }
    ensures standing { OnOk result (standing_in relayer.new ≡ fold after_settlement (standing_in relayer.old) settlements.now) }
    ensures later { OnOk result (IsLater (length settlements.now) relayer.old relayer.new) }
{
    let mut reports = Vec::with_capacity(alloc, settlements.len())?;
    for settlement in settlements {
        reports.push(settle(relayer, *settlement)?)?;
    }
    Ok(reports)
}

/// The settlement that takes a client's open batch whole; none where no batch of the client is open.
fn taking<A: Allocator + Copy, M: Machine<A>>(
    relayer: &Relayer<A, M>,
    client: usize,
) -> Option<Settlement>
    ensures value { result ≡ taking (standing_in relayer.now) client }
    ensures client { IfSome result (λ (x : settlements.Settlement). x.client ≡ client) }
{
    let batch = relayer.open_batch(client)?;
    Some(Settlement {
        client,
        batch: batch.number(),
        done: batch.transactions().len() as u64,
    })
}

/// Takes in that a client's open batch was taken whole, if one is open, and puts what comes of it to the end of
/// reports.
fn take_one<A: Allocator + Copy, M: Machine<A>>(
    relayer: &mut Relayer<A, M>,
    client: usize,
    reports: &mut Vec<SettlementReport, A>,
) -> Result<(), AllocError>
    requires client { client < length relayer.old.config.clients }
    requires room { HasLogRoom relayer.old 1 }
    ensures reports { OnOk result (map settlement_view reports.new.items
        ≡ map settlement_view reports.old.items ++ option_to_list (option_map (settlement_report (standing_in relayer.old)) (taking (standing_in relayer.old) client))) }
    ensures standing { OnOk result (standing_in relayer.new ≡ after_taking (standing_in relayer.old) client) }
    ensures later { OnOk result (IsLater 1 relayer.old relayer.new) }
{
    let Some(settlement) = taking(relayer, client) else {
        return Ok(());
    };
    reports.push(settle(relayer, settlement)?)?;
    Ok(())
}

/// Takes in that the open batches of so many clients, from the first one on, were taken whole, and puts what
/// comes of each to the end of reports.
fn take_all<A: Allocator + Copy, M: Machine<A>>(
    relayer: &mut Relayer<A, M>,
    clients: usize,
    reports: &mut Vec<SettlementReport, A>,
) -> Result<(), AllocError>
    requires clients { clients ≤ length relayer.old.config.clients }
    requires room { HasLogRoom relayer.old clients }
    ensures reports { OnOk result (map settlement_view reports.new.items ≡ map settlement_view reports.old.items ++ taking_reports (standing_in relayer.old) (range_with_len 0 clients)) }
    ensures standing { OnOk result (standing_in relayer.new ≡ fold after_taking (standing_in relayer.old) (range_with_len 0 clients)) }
    ensures later { OnOk result (IsLater clients relayer.old relayer.new) }
{
    for client in 0..clients {
        take_one(relayer, client, reports)?;
    }
    Ok(())
}

/// Takes in the settlements of a turn, in their order, and then, where all is taken, that every batch that is
/// open was taken whole, in script order; tells what comes of each. What is refused changes nothing.
pub fn settle_turn<A: Allocator + Copy, M: Machine<A>>(
    alloc: A,
    relayer: &mut Relayer<A, M>,
    settlements: &[Settlement],
    taken: bool,
) -> Result<Vec<SettlementReport, A>, AllocError>
    requires clients { All (λ (x : Settlement). x.client < length relayer.old.config.clients) settlements.now }
    requires room { HasLogRoom relayer.old (length settlements.now + length relayer.old.config.clients) }
    ensures reports { IfOk result (λ reports. map settlement_view reports.items ≡ reports_of_all settlements.now taken (standing_in relayer.old)) }
    ensures standing { OnOk result (standing_in relayer.new ≡ after_all settlements.now taken (standing_in relayer.old)) }
    ensures later { OnOk result (IsLater (length settlements.now + length relayer.old.config.clients) relayer.old relayer.new) }
{
    let mut reports = settle_all(alloc, relayer, settlements)?;
    if !taken {
        return Ok(reports);
    }
    let clients = relayer.config().clients.len();
    take_all(relayer, clients, &mut reports)?;
    Ok(reports)
}
