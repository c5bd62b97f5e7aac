//! The answer of CometBFT's `/abci_query` on a key of a store, with proofs.
ghost use Rattle.std.specs.Prelude.{◌≡◌, IfOk, option_map};
ghost use Rattle.serde_json.specs.View.{view};
ghost use Rattle.rb_packets.specs.Answers.{answer_view, data_at, data_text, proofs_in, response_in, store_answer, store_answer_in, value_text};

use crate::json::{base64_bytes, read_json};
use serde_json::Value;
use std::alloc::{AllocError, Global};

/// The most bytes of an answer.
const MAX_ANSWER_BYTES: usize = 1_048_576;

/// What a store has at a key: the value, which is empty where there is none, the proof of it in the store, and that of
/// the store in the map of stores (ICS 23).
#[derive(Drop)]
pub(crate) struct StoreAnswer {
    pub value: Vec<u8>,
    pub proof: Vec<u8>,
    pub store: Vec<u8>,
}

/// Reads an answer, of at most 1,048,576 bytes. There is none where the node answered an error, or no proofs.
#[tactic(auto, unfolding(crate::specs::Answers::store_answer))]
pub(crate) fn read_store_answer(
    alloc: Global,
    bytes: &[u8],
) -> Result<Option<StoreAnswer>, AllocError>
    ensures { IfOk result (λ read. option_map answer_view read ≡ store_answer bytes.now) }
{
    if bytes.len() > MAX_ANSWER_BYTES {
        return Ok(None);
    }
    match read_json(alloc, bytes)? {
        Some(answer) => read_answer(alloc, &answer),
        None => Ok(None),
    }
}

/// The answer that JSON says.
#[tactic(auto, unfolding(crate::specs::Answers::store_answer_in))]
fn read_answer(alloc: Global, answer: &Value) -> Result<Option<StoreAnswer>, AllocError>
    ensures { IfOk result (λ read. option_map answer_view read ≡ store_answer_in (view answer.now)) }
{
    let Some(response) = response_in(answer) else {
        return Ok(None);
    };
    let Some(value) = base64_bytes(alloc, value_text(response))? else {
        return Ok(None);
    };
    let Some(proofs) = proofs_in(response) else {
        return Ok(None);
    };
    let Some(proof) = data_at(alloc, proofs, 0)? else {
        return Ok(None);
    };
    let Some(store) = data_at(alloc, proofs, 1)? else {
        return Ok(None);
    };
    Ok(Some(StoreAnswer {
        value,
        proof,
        store,
    }))
}

/// The response, in CometBFT's envelope or bare.
#[tactic(auto, unfolding(crate::specs::Answers::response_in))]
fn response_in(answer: &Value) -> Option<&Value>
    ensures { option_map (λ v. view v.now) result ≡ response_in (view answer.now) }
{
    match answer.get("result") {
        Some(result) => result.get("response"),
        None => answer.get("response"),
    }
}

/// The text of the value, which is empty where none is there.
#[tactic(auto, unfolding(crate::specs::Answers::value_text))]
fn value_text(response: &Value) -> &str
    ensures { result.now ≡ value_text (view response.now) }
{
    match response.get("value").and_then(Value::as_str) {
        Some(text) => text,
        None => "",
    }
}

/// The proofs.
#[tactic(auto, unfolding(crate::specs::Answers::proofs_in))]
fn proofs_in(response: &Value) -> Option<&Value>
    ensures { option_map (λ v. view v.now) result ≡ proofs_in (view response.now) }
{
    match response.get("proofOps") {
        Some(proofs) => proofs.get("ops"),
        None => response.get("proof_ops")?.get("ops"),
    }
}

/// The bytes of the proof at a place.
#[tactic(auto, unfolding(crate::specs::Answers::data_at))]
fn data_at(alloc: Global, proofs: &Value, place: usize) -> Result<Option<Vec<u8>>, AllocError>
    ensures { IfOk result (λ read. option_map (λ b. b.items) read ≡ data_at place (view proofs.now)) }
{
    match data_text(proofs, place) {
        Some(text) => base64_bytes(alloc, text),
        None => Ok(None),
    }
}

/// The text of the proof at a place.
#[tactic(auto, unfolding(crate::specs::Answers::data_text))]
fn data_text(proofs: &Value, place: usize) -> Option<&str>
    ensures { option_map (λ t. t.now) result ≡ data_text place (view proofs.now) }
{
    proofs.get(place)?.get("data")?.as_str()
}
