//! The answer of CometBFT's `/tx_search`.
ghost use Rattle.std.specs.Prelude.{◌≡◌, IfOk, option_map};
ghost use Rattle.serde_json.specs.View.{items_view, view};
ghost use Rattle.rb_packets.specs.Events.{way_view};
ghost use Rattle.rb_packets.specs.Json.{json};
ghost use Rattle.rb_packets.specs.Transactions.{bytes_in, events_bytes, listed_bytes, succeeded, transaction_bytes, transactions_view};

use crate::event::{PacketBytes, PacketWay, event_bytes};
use crate::json::read_json;
use serde_json::Value;
use std::alloc::{AllocError, Global};

/// What a node answered to `/tx_search`, which `import` has read.
#[derive(Drop)]
pub struct Transactions {
    answer: Value,
}

/// Reads an answer; none where it is no JSON.
pub fn read_transactions(alloc: Global, bytes: &[u8]) -> Result<Option<Transactions>, AllocError>
    ensures { IfOk result (λ read. option_map transactions_view read ≡ json bytes.now) }
{
    match read_json(alloc, bytes)? {
        Some(answer) => Ok(Some(Transactions { answer })),
        None => Ok(None),
    }
}

impl Transactions {
    /// The bytes that the first event on them tells of a packet, in a transaction that succeeded.
    #[tactic(auto, unfolding(crate::specs::Transactions::bytes_in))]
    pub fn bytes(
        &self,
        alloc: Global,
        asked: PacketBytes,
        way: &PacketWay,
    ) -> Result<Option<Vec<u8>>, AllocError>
        ensures { IfOk result (λ read. option_map (λ b. b.items) read ≡ bytes_in asked (way_view way.now) (transactions_view self.now)) }
    {
        let result = match self.answer.get("result") {
            Some(result) => result,
            None => &self.answer,
        };
        let Some(list) = result.get("txs") else {
            return Ok(None);
        };
        match list.as_array() {
            Some(transactions) => listed_bytes(alloc, asked, way, transactions.as_slice()),
            None => Ok(None),
        }
    }
}

/// The first bytes that transactions tell.
fn listed_bytes(
    alloc: Global,
    asked: PacketBytes,
    way: &PacketWay,
    transactions: &[Value],
) -> Result<Option<Vec<u8>>, AllocError>
    ensures { IfOk result (λ read. option_map (λ b. b.items) read ≡ listed_bytes asked (way_view way.now) (items_view transactions.now)) }
{
    for transaction in transactions {
        if let Some(bytes) = transaction_bytes(alloc, asked, way, transaction)? {
            return Ok(Some(bytes));
        }
    }
    Ok(None)
}

/// The first bytes that a transaction tells; none where it failed.
#[tactic(auto, unfolding(crate::specs::Transactions::transaction_bytes))]
fn transaction_bytes(
    alloc: Global,
    asked: PacketBytes,
    way: &PacketWay,
    transaction: &Value,
) -> Result<Option<Vec<u8>>, AllocError>
    ensures { IfOk result (λ read. option_map (λ b. b.items) read ≡ transaction_bytes asked (way_view way.now) (view transaction.now)) }
{
    let Some(done) = transaction.get("tx_result") else {
        return Ok(None);
    };
    if !succeeded(done) {
        return Ok(None);
    }
    let Some(list) = done.get("events") else {
        return Ok(None);
    };
    match list.as_array() {
        Some(events) => events_bytes(alloc, asked, way, events.as_slice()),
        None => Ok(None),
    }
}

/// Whether a transaction's result has the code 0.
#[tactic(auto, unfolding(crate::specs::Transactions::succeeded))]
fn succeeded(done: &Value) -> bool
    ensures { result ≡ succeeded (view done.now) }
{
    match done.get("code").and_then(Value::as_u64) {
        Some(code) => code == 0,
        None => false,
    }
}

/// The first bytes that events tell.
fn events_bytes(
    alloc: Global,
    asked: PacketBytes,
    way: &PacketWay,
    events: &[Value],
) -> Result<Option<Vec<u8>>, AllocError>
    ensures { IfOk result (λ read. option_map (λ b. b.items) read ≡ events_bytes asked (way_view way.now) (items_view events.now)) }
{
    for event in events {
        if let Some(bytes) = event_bytes(alloc, asked, way, event)? {
            return Ok(Some(bytes));
        }
    }
    Ok(None)
}
