//! The answers of ibc-go's gateway that tell which packets of a channel are pending (ICS 4).
ghost use Rattle.std.specs.Prelude.{◌≡◌, []};
ghost use Rattle.serde_json.specs.View.{view, items_view};
ghost use Rattle.rb_import_json.specs.FieldErrors.{Reads, Gives};
ghost use Rattle.rb_import_json.specs.Fields.{each, object_view};
ghost use Rattle.rb_import_answers.specs.Numbers.{sequence_number};
ghost use Rattle.rb_import_answers.specs.Pending.{acknowledged, committed, is_pending, page_view, pending, pending_view, sequence, sequence_in, sequences, sequences_from};

use crate::client::{copied, next_key, read_is_last};
use crate::number::{sequence_number, sequence_of};
use rb_import_json::{AnswerError, FieldError, FieldErrorName, Key, Object, Segment, number_of};
use serde_json::Value;
use std::alloc::Global;

/// The sequences of a page of an answer, whether no page follows, and the key of the next page as the gateway wrote
/// it, if it names one.
#[derive(Drop)]
pub struct SequencePage {
    pub sequences: Vec<u64>,
    pub is_last: bool,
    pub next_key: Option<String>,
}

/// What an answer tells of packets that are pending, each by its sequence.
#[derive(Drop)]
pub enum Pending {
    /// To `packet_commitments`, of an end of a channel: those that were sent there and are neither acknowledged nor timed out.
    Commitments(SequencePage),
    /// To `unreceived_packets`, of the other end: of some those that weren't received there.
    Unreceived(Vec<u64>),
    /// To `packet_acknowledgements`, of the other end: of some those of which the acknowledgement was written there.
    Acknowledgements(Vec<u64>),
}

/// Reads what an answer tells of pending packets, which is known by its members, if it is such an answer.
#[tactic(auto, using(rb_import_json::proofs::Steps::steps), unfolding(crate::specs::Pending::pending))]
pub(crate) fn read_pending(alloc: Global, answer: &Object<'_>) -> Result<Pending, AnswerError>
    ensures { Gives (λ p. pending_view p) result (pending (object_view answer.now)) }
{
    if answer.has(Key::Commitments) {
        Ok(Pending::Commitments(read_commitments(alloc, answer)?))
    } else if answer.has(Key::Acknowledgements) {
        let sequences = read_acknowledgements(alloc, answer)?;
        Ok(Pending::Acknowledgements(sequences))
    } else {
        Ok(Pending::Unreceived(read_sequences(alloc, answer)?))
    }
}

/// Whether an answer tells of pending packets.
pub(crate) fn is_pending(answer: &Object<'_>) -> bool
    ensures { result ≡ is_pending (object_view answer.now) }
{
    answer.has(Key::Commitments) || answer.has(Key::Acknowledgements) || answer.has(Key::Sequences)
}

#[tactic(auto, using(rb_import_json::proofs::Steps::steps), unfolding(crate::specs::Pending::committed))]
fn read_commitments(alloc: Global, answer: &Object<'_>) -> Result<SequencePage, AnswerError>
    ensures { Gives (λ p. page_view p) result (committed (object_view answer.now)) }
{
    let is_last = read_is_last(answer)?;
    let items = answer.items(Key::Commitments)?;
    let sequences = read_states(alloc, Segment::Commitments, items)?;
    let next_key = copied(alloc, next_key(answer))?;
    Ok(SequencePage {
        sequences,
        is_last,
        next_key,
    })
}

#[tactic(auto, using(rb_import_json::proofs::Steps::steps), unfolding(crate::specs::Pending::acknowledged))]
fn read_acknowledgements(alloc: Global, answer: &Object<'_>) -> Result<Vec<u64>, AnswerError>
    ensures { Gives (λ v. v.items) result (acknowledged (object_view answer.now)) }
{
    let items = answer.items(Key::Acknowledgements)?;
    read_states(alloc, Segment::Acknowledgements, items)
}

/// The sequences of packet states, which are the elements of an array.
#[tactic(auto, using(rb_import_json::proofs::Steps::steps))]
fn read_states(alloc: Global, part: Segment, items: &[Value]) -> Result<Vec<u64>, AnswerError>
    ensures { Gives (λ v. v.items) result (each (sequence_number Key.Sequence) part [] (items_view items.now)) }
{
    let mut sequences = Vec::with_capacity(alloc, items.len())?;
    for value in items {
        let entry = Object::element(value, part, sequences.len());
        sequences.push(sequence_number(&entry, Key::Sequence)?)?;
    }
    Ok(sequences)
}

/// The sequences that are the elements of an array.
#[tactic(auto, using(rb_import_json::proofs::Steps::steps), unfolding(crate::specs::Pending::sequences))]
fn read_sequences(alloc: Global, answer: &Object<'_>) -> Result<Vec<u64>, AnswerError>
    ensures { Gives (λ v. v.items) result (sequences (object_view answer.now)) }
{
    let items = answer.items(Key::Sequences)?;
    read_each(alloc, answer, items)
}

#[tactic(auto, using(rb_import_json::proofs::Steps::steps))]
fn read_each(alloc: Global, answer: &Object<'_>, items: &[Value]) -> Result<Vec<u64>, AnswerError>
    ensures { Gives (λ v. v.items) result (sequences_from (object_view answer.now) [] (items_view items.now)) }
{
    let mut sequences = Vec::with_capacity(alloc, items.len())?;
    for value in items {
        sequences.push(read_sequence(answer, value)?)?;
    }
    Ok(sequences)
}

/// The sequence that a text holds, if it holds one.
fn sequence_in(value: &Value) -> Option<u64>
    ensures { result ≡ sequence_in (view value.now) }
{
    let text = value.as_str()?;
    sequence_of(number_of(text)?)
}

/// The sequence that a text holds, else `BadNumber`.
#[tactic(auto, using(rb_import_json::proofs::Steps::steps), unfolding(crate::specs::Pending::sequence))]
fn read_sequence(answer: &Object<'_>, value: &Value) -> Result<u64, FieldError>
    ensures { Reads (λ n. n) result (sequence (object_view answer.now) (view value.now)) }
{
    match sequence_in(value) {
        Some(sequence) => Ok(sequence),
        None => Err(answer.flaw(Key::Sequences, FieldErrorName::BadNumber)),
    }
}
