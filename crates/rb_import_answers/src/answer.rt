//! An answer, known by what is in it.
ghost use Rattle.std.specs.Prelude.{◌≡◌, nat_lt};
ghost use Rattle.serde_json.specs.View.{view};
ghost use Rattle.rb_import_json.specs.FieldErrors.{Gives, or_flaw};
ghost use Rattle.rb_import_json.specs.Fields.{object_view};
ghost use Rattle.rb_import_answers.specs.Answers.{answer_view, begins_object, is_error, is_verified, json, known, marks_value, max_objects, max_values, object_count, told, told_in, value_count, whole, without_votes};
ghost use Rattle.rb_import_answers.specs.Unread.{unread};

use crate::client::{
    ConsensusPage, TendermintClientState, read_client_state, read_consensus_states,
};
use crate::commit::{SignedHeader, read_commit};
use crate::packets::PacketPage;
use crate::pending::{Pending, is_pending, read_pending};
use crate::query::{OtherQuery, query_of};
use crate::transactions::read_transactions;
use crate::unread::unread;
use crate::validators::{ValidatorsPage, read_page};
use crate::verdicts::{Verdicts, read_verdicts};
use rb_import_json::{AnswerError, FieldError, FieldErrorName, FieldPath, Key, Object, Segment};
use serde_json::Value;
use std::alloc::Global;

/// The most bytes of an answer.
pub const MAX_ANSWER_BYTES: usize = 16_777_216;

/// The most bytes in an answer that begin an object.
const MAX_OBJECTS: usize = 400_000;

/// The most bytes in an answer that mark a value.
const MAX_VALUES: usize = 1_200_000;

/// The name of the file that has the verdicts on a chain's commits.
const VERDICTS_FILE: &str = "verdicts.json";

/// What a node answered.
#[derive(Drop)]
pub enum NodeAnswer {
    /// To `/commit`.
    Commit(SignedHeader),
    /// To `/validators`.
    Validators(ValidatorsPage),
    /// To `client_states/ID`.
    ClientState(TendermintClientState),
    /// To `consensus_states/ID`.
    ConsensusStates(ConsensusPage),
    /// To `/tx_search`.
    Transactions(PacketPage),
    /// Of ibc-go's gateway on an end of a channel: which packets are pending.
    Pending(Pending),
    /// No node's answer: verdicts on the signatures of commits.
    Verdicts(Verdicts),
    /// To another query, which isn't needed.
    Other(OtherQuery),
}

impl NodeAnswer {
    /// The answer as the file of a name has it: verdicts count only in `verdicts.json`, since a node can answer with their
    /// text, too. In another file they are an answer that isn't needed.
    pub fn in_file(self, name: &str) -> NodeAnswer
        ensures { answer_view result ≡ told_in name.now (answer_view self) }
    {
        if is_verdicts(&self) && name != VERDICTS_FILE {
            NodeAnswer::Other(OtherQuery::Verdicts)
        } else {
            self
        }
    }

    /// The answer without the votes of a commit, which messages alone need.
    pub fn without_votes(self, alloc: Global) -> NodeAnswer
        ensures { answer_view result ≡ without_votes (answer_view self) }
    {
        match self {
            NodeAnswer::Commit(header) => NodeAnswer::Commit(header.without_votes(alloc)),
            other => other,
        }
    }
}

/// Whether an answer is verdicts.
fn is_verdicts(answer: &NodeAnswer) -> bool
    ensures { result ≡ is_verified (answer_view answer.now) }
{
    matches!(answer, NodeAnswer::Verdicts(_))
}

/// Reads an answer: JSON of at most 16,777,216 bytes, 400,000 objects and 1,200,000 values, with CometBFT's envelope or without, which is
/// known by its members. What is read is what the JSON says, but for a client's records of a revision before this one, which are passed over;
/// `FieldError` is the first thing that is wrong, `NoMemory` comes where a growth is refused.
#[tactic(auto, using(rb_import_json::proofs::Steps::steps), unfolding(crate::specs::Answers::told, crate::specs::Answers::answer))]
pub fn read_answer(alloc: Global, bytes: &[u8], since: u64) -> Result<NodeAnswer, AnswerError>
    ensures { Gives (λ a. answer_view a) result (told since bytes.now) }
{
    if bytes.len() > MAX_ANSWER_BYTES {
        return Err(whole(FieldErrorName::TooBig));
    }
    if has_too_many_objects(bytes) || has_too_many_values(bytes) {
        return Err(whole(FieldErrorName::TooManyValues));
    }
    let value = read_json(alloc, bytes)?;
    if is_error(&value) {
        return Err(whole(FieldErrorName::NodeError));
    }
    match value.get("result") {
        Some(result) => read_known(alloc, &Object::new(result, Segment::Result), since),
        None => read_known(alloc, &Object::new(&value, Segment::Answer), since),
    }
}

/// Whether more bytes begin an object than may.
#[tactic(auto, using(crate::proofs::Counts::few), unfolding(crate::specs::Answers::object_count))]
fn has_too_many_objects(bytes: &[u8]) -> bool
    ensures { result ≡ nat_lt max_objects (object_count bytes.now) }
{
    bytes.len() > MAX_OBJECTS && object_count(bytes) > MAX_OBJECTS
}

/// Whether more bytes mark a value than may.
#[tactic(auto, using(crate::proofs::Counts::few), unfolding(crate::specs::Answers::value_count))]
fn has_too_many_values(bytes: &[u8]) -> bool
    ensures { result ≡ nat_lt max_values (value_count bytes.now) }
{
    bytes.len() > MAX_VALUES && value_count(bytes) > MAX_VALUES
}

/// How many bytes begin an object.
#[tactic(auto, using(crate::proofs::Counts::counting), unfolding(crate::specs::Answers::object_count))]
fn object_count(bytes: &[u8]) -> usize
    ensures { result ≡ object_count bytes.now }
{
    let mut count: usize = 0;
    for byte in bytes {
        if begins_object(*byte) {
            count += 1;
        }
    }
    count
}

/// How many bytes mark a value.
#[tactic(auto, using(crate::proofs::Counts::counting), unfolding(crate::specs::Answers::value_count))]
fn value_count(bytes: &[u8]) -> usize
    ensures { result ≡ value_count bytes.now }
{
    let mut count: usize = 0;
    for byte in bytes {
        if marks_value(*byte) {
            count += 1;
        }
    }
    count
}

/// Whether a byte begins an object.
fn begins_object(byte: u8) -> bool
    ensures { result ≡ begins_object byte }
{
    byte == b'{'
}

/// Whether a byte marks a value: `{` begins an object, `[` an array, and `,` stands before each further value of one.
fn marks_value(byte: u8) -> bool
    ensures { result ≡ marks_value byte }
{
    matches!(byte, b'{' | b'[' | b',')
}

#[tactic(auto, unfolding(crate::specs::Answers::json))]
fn read_json(alloc: Global, bytes: &[u8]) -> Result<Value, AnswerError>
    ensures { Gives (λ v. view v) result (or_flaw (whole (unread bytes.now)) (json bytes.now)) }
{
    match Value::from_slice(alloc, bytes) {
        Ok(value) => Ok(value),
        Err(error) if error.is_memory() => Err(AnswerError::NoMemory),
        Err(_) => Err(whole(unread(bytes))),
    }
}

/// Whether the answer tells an error: a member `error` of CometBFT's, or `message` of the REST gateway's or of what stands
/// before a node.
#[tactic(auto, unfolding(crate::specs::Answers::is_error))]
fn is_error(value: &Value) -> bool
    ensures { result ≡ is_error (view value.now) }
{
    match value.get("error") {
        Some(error) => !error.is_null(),
        None => value.get("message").is_some(),
    }
}

/// Reads what an answer holds, which is known by its members.
#[tactic(auto, using(rb_import_json::proofs::Steps::steps), unfolding(crate::specs::Answers::known))]
fn read_known(alloc: Global, answer: &Object<'_>, since: u64) -> Result<NodeAnswer, AnswerError>
    ensures { Gives (λ a. answer_view a) result (known since (object_view answer.now)) }
{
    if answer.has(Key::SignedHeader) {
        Ok(NodeAnswer::Commit(read_commit(alloc, answer)?))
    } else if answer.has(Key::Validators) {
        Ok(NodeAnswer::Validators(read_page(alloc, answer)?))
    } else if answer.has(Key::Txs) {
        Ok(NodeAnswer::Transactions(read_transactions(alloc, answer)?))
    } else if answer.has(Key::ClientState) {
        Ok(NodeAnswer::ClientState(read_client_state(answer)?))
    } else if answer.has(Key::ConsensusStates) {
        Ok(NodeAnswer::ConsensusStates(read_consensus_states(alloc, answer, since)?))
    } else if answer.has(Key::Verdicts) {
        Ok(NodeAnswer::Verdicts(read_verdicts(alloc, answer)?))
    } else if is_pending(answer) {
        Ok(NodeAnswer::Pending(read_pending(alloc, answer)?))
    } else {
        match query_of(answer) {
            Some(query) => Ok(NodeAnswer::Other(query)),
            None => Err(whole(FieldErrorName::UnknownShape)),
        }
    }
}

/// The flaw of this name at the whole answer.
fn whole(name: FieldErrorName) -> AnswerError
    ensures { result ≡ AnswerError.Invalid (whole name) }
{
    AnswerError::Invalid(FieldError {
        name,
        place: FieldPath {
            part: Segment::Answer,
            index: None,
            key: Key::Whole,
        },
    })
}
