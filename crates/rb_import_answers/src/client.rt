//! The answers of ibc-go's REST gateway on a client: its state, and the consensus states that it
//! has stored.
ghost use Rattle.std.specs.Prelude.{◌≡◌, [], Ok, option_map, string_bytes};
ghost use Rattle.serde_json.specs.View.{items_view, view};
ghost use Rattle.rb_import_json.specs.FieldErrors.{Reads, Gives};
ghost use Rattle.rb_import_json.specs.Fields.{object_view};
ghost use Rattle.rb_import_answers.specs.Clients.{tendermint, live, revision, latest, trust, period_of, period, drift, client_state, root, consensus_state, state_since, states_since, is_last, ends, is_empty_text, named_type, next_key, state_type, states, states_view};

use crate::duration::nanoseconds_of;
use crate::number::{in_script, script_number};
use crate::root::root_of;
use rb_base::{ChainId, Fraction, Height, Moment, Period};
use rb_import_json::{AnswerError, FieldError, FieldErrorName, Key, Object, Segment};
use serde_json::Value;
use std::alloc::Global;

/// The part of a trusted set that has to have signed: from a third to one, in numbers below 2^63.
#[derive(Clone, Copy)]
pub struct TrustLevel {
    pub numerator: u64,
    pub denominator: u64,
}

/// How a Tendermint client judges headers (ICS 7): the chain that it tracks, that chain's revision
/// number, the height of the latest record that it has stored, its trust level, its trusting period, and the clock drift in
/// nanoseconds.
#[derive(Clone, Copy)]
pub struct TendermintClientState {
    pub chain: ChainId,
    pub revision: u64,
    pub latest: u64,
    pub trust: TrustLevel,
    pub period: Period,
    pub drift: u64,
}

/// What a client has stored at a height.
#[derive(Clone, Copy)]
pub struct ConsensusState {
    pub revision: u64,
    pub height: Height,
    pub time: Moment,
    pub root: [u8; 32],
    pub next: [u8; 32],
}

/// Consensus states of a client, whether they end the list, and the key of the next page as the gateway wrote it, if it
/// names one.
#[derive(Drop)]
pub struct ConsensusPage {
    pub states: Vec<ConsensusState>,
    pub is_last: bool,
    pub next_key: Option<String>,
}

/// Reads an answer of `client_states/ID`.
#[tactic(auto, using(rb_import_json::proofs::Steps::steps), unfolding(crate::specs::Clients::client_state))]
pub(crate) fn read_client_state(answer: &Object<'_>) -> Result<TendermintClientState, FieldError>
    ensures { Reads (λ s. s) result (client_state (object_view answer.now)) }
{
    let state = answer.object(Key::ClientState, Segment::ClientState)?;
    judge_type(&state)?;
    judge_frozen(&state)?;
    let chain = state.chain(Key::ChainId)?;
    let revision = read_revision(&state)?;
    let latest = read_latest(&state)?;
    let trust = read_trust(&state)?;
    let period = read_period(&state)?;
    let drift = read_drift(&state)?;
    Ok(TendermintClientState {
        chain,
        revision,
        latest,
        trust,
        period,
        drift,
    })
}

/// Refuses a client that isn't Tendermint's.
#[tactic(auto, using(rb_import_json::proofs::Steps::steps), unfolding(crate::specs::Clients::tendermint))]
fn judge_type(state: &Object<'_>) -> Result<(), FieldError>
    ensures { Reads (λ u. u) result (tendermint (object_view state.now)) }
{
    match state.text(Key::TypeUrl)? {
        "/ibc.lightclients.tendermint.v1.ClientState" => Ok(()),
        _ => Err(state.flaw(Key::TypeUrl, FieldErrorName::UnsupportedClient)),
    }
}

/// Refuses a client that is frozen, as its frozen height says, which is 0-0 for others, or isn't there.
#[tactic(auto, using(rb_import_json::proofs::Steps::steps), unfolding(crate::specs::Clients::live))]
fn judge_frozen(state: &Object<'_>) -> Result<(), FieldError>
    ensures { Reads (λ u. u) result (live (object_view state.now)) }
{
    if !state.has(Key::FrozenHeight) {
        return Ok(());
    }
    let frozen = state.object(Key::FrozenHeight, Segment::FrozenHeight)?;
    let revision = frozen.number_or_zero(Key::RevisionNumber)?;
    let height = frozen.number_or_zero(Key::RevisionHeight)?;
    if revision == 0 && height == 0 {
        Ok(())
    } else {
        Err(state.flaw(Key::FrozenHeight, FieldErrorName::FrozenClient))
    }
}

/// The revision number of the chain that it tracks.
#[tactic(auto, using(rb_import_json::proofs::Steps::steps), unfolding(crate::specs::Clients::revision))]
fn read_revision(state: &Object<'_>) -> Result<u64, FieldError>
    ensures { Reads (λ n. n) result (revision (object_view state.now)) }
{
    let latest = state.object(Key::LatestHeight, Segment::LatestHeight)?;
    latest.number_or_zero(Key::RevisionNumber)
}

/// The height of the latest record that it has stored.
#[tactic(auto, using(rb_import_json::proofs::Steps::steps), unfolding(crate::specs::Clients::latest))]
fn read_latest(state: &Object<'_>) -> Result<u64, FieldError>
    ensures { Reads (λ n. n) result (latest (object_view state.now)) }
{
    let latest = state.object(Key::LatestHeight, Segment::LatestHeight)?;
    latest.number_or_zero(Key::RevisionHeight)
}

#[tactic(auto, using(rb_import_json::proofs::Steps::steps), unfolding(crate::specs::Clients::trust))]
fn read_trust(state: &Object<'_>) -> Result<TrustLevel, FieldError>
    ensures { Reads (λ t. t) result (trust (object_view state.now)) }
{
    let level = state.object(Key::TrustLevel, Segment::TrustLevel)?;
    let numerator = script_number(&level, Key::Numerator)?;
    let denominator = script_number(&level, Key::Denominator)?;
    match Fraction::new(numerator, denominator) {
        Ok(_) => Ok(TrustLevel {
            numerator,
            denominator,
        }),
        Err(_) => Err(state.flaw(Key::TrustLevel, FieldErrorName::BadTrust)),
    }
}

#[tactic(auto, using(rb_import_json::proofs::Steps::steps), unfolding(crate::specs::Clients::period))]
fn read_period(state: &Object<'_>) -> Result<Period, FieldError>
    ensures { Reads (λ p. p) result (period (object_view state.now)) }
{
    match nanoseconds_of(state.text(Key::TrustingPeriod)?).and_then(period_of) {
        Some(period) => Ok(period),
        None => Err(state.flaw(Key::TrustingPeriod, FieldErrorName::BadDuration)),
    }
}

/// The period of so many nanoseconds.
#[tactic(auto, using(crate::proofs::Values::periods), unfolding(crate::specs::Clients::period_of))]
fn period_of(nanoseconds: u64) -> Option<Period>
    ensures { result ≡ period_of nanoseconds }
{
    Period::new(nanoseconds)
}

#[tactic(auto, using(rb_import_json::proofs::Steps::steps), unfolding(crate::specs::Clients::drift))]
fn read_drift(state: &Object<'_>) -> Result<u64, FieldError>
    ensures { Reads (λ d. d) result (drift (object_view state.now)) }
{
    match nanoseconds_of(state.text(Key::MaxClockDrift)?).and_then(in_script) {
        Some(drift) => Ok(drift),
        None => Err(state.flaw(Key::MaxClockDrift, FieldErrorName::BadDuration)),
    }
}

/// Reads an answer of `consensus_states/ID`, without the records of a revision before this one.
#[tactic(auto, using(rb_import_json::proofs::Steps::steps), unfolding(crate::specs::Clients::states))]
pub(crate) fn read_consensus_states(
    alloc: Global,
    answer: &Object<'_>,
    since: u64,
) -> Result<ConsensusPage, AnswerError>
    ensures { Gives (λ p. states_view p) result (states since (object_view answer.now)) }
{
    let is_last = read_is_last(answer)?;
    let states = read_states(alloc, answer.items(Key::ConsensusStates)?, since)?;
    let next_key = copied(alloc, next_key(answer))?;
    Ok(ConsensusPage {
        states,
        is_last,
        next_key,
    })
}

/// The key of the next page, where it is a text.
#[tactic(auto, using(rb_import_json::proofs::Steps::steps), unfolding(crate::specs::Clients::next_key))]
pub(crate) fn next_key<'a>(answer: &Object<'a>) -> Option<&'a str>
    ensures { option_map (λ key. key.now) result ≡ next_key (object_view answer.now) }
{
    let pagination = answer.inner(Key::Pagination).ok()?;
    pagination.text(Key::NextKey).ok()
}

/// A text of its own.
pub(crate) fn copied(alloc: Global, text: Option<&str>) -> Result<Option<String>, AnswerError>
    ensures { Gives (λ copy. option_map string_bytes copy) result (Ok (option_map (λ text. text.now) text.entry)) }
{
    match text {
        Some(text) => Ok(Some(String::from_str(alloc, text)?)),
        None => Ok(None),
    }
}

#[tactic(auto, using(rb_import_json::proofs::Steps::steps))]
fn read_states(
    alloc: Global,
    items: &[Value],
    since: u64,
) -> Result<Vec<ConsensusState>, AnswerError>
    ensures { Gives (λ v. v.items) result (states_since since 0 [] (items_view items.now)) }
{
    let mut states = Vec::with_capacity(alloc, items.len())?;
    for (index, value) in items.iter().enumerate() {
        let entry = Object::element(value, Segment::ConsensusStates, index);
        if let Some(state) = read_since(alloc, &entry, since)? {
            states.push(state)?;
        }
    }
    Ok(states)
}

/// Refuses a record of a client that isn't Tendermint's, as it names its type.
#[tactic(auto, using(rb_import_json::proofs::Steps::steps), unfolding(crate::specs::Clients::state_type))]
fn judge_state_type(entry: &Object<'_>) -> Result<(), FieldError>
    ensures { Reads (λ u. u) result (state_type (object_view entry.now)) }
{
    if !entry.has(Key::ConsensusState) {
        return Ok(());
    }
    let state = entry.inner(Key::ConsensusState)?;
    if !state.has(Key::TypeUrl) {
        return Ok(());
    }
    judge_named_type(&state)
}

/// Refuses the state of a record whose type isn't Tendermint's.
#[tactic(auto, using(rb_import_json::proofs::Steps::steps), unfolding(crate::specs::Clients::named_type))]
fn judge_named_type(state: &Object<'_>) -> Result<(), FieldError>
    ensures { Reads (λ u. u) result (named_type (object_view state.now)) }
{
    match state.text(Key::TypeUrl)? {
        "/ibc.lightclients.tendermint.v1.ConsensusState" => Ok(()),
        _ => Err(state.flaw(Key::TypeUrl, FieldErrorName::UnsupportedClient)),
    }
}

/// Reads a record, if it isn't of a revision before this one.
#[tactic(auto, using(rb_import_json::proofs::Steps::steps), unfolding(crate::specs::Clients::state_since))]
fn read_since(
    alloc: Global,
    entry: &Object<'_>,
    since: u64,
) -> Result<Option<ConsensusState>, AnswerError>
    ensures { Gives (λ o. o) result (state_since since (object_view entry.now)) }
{
    judge_state_type(entry)?;
    let at = entry.inner(Key::Height)?;
    let revision = at.number_or_zero(Key::RevisionNumber)?;
    let height = at.height(Key::RevisionHeight)?;
    if revision < since {
        return Ok(None);
    }
    Ok(Some(read_consensus_state(alloc, entry, revision, height)?))
}

/// Whether no page follows, as the key of the next one says, which is null or empty then, or isn't there.
#[tactic(auto, using(rb_import_json::proofs::Steps::steps), unfolding(crate::specs::Clients::is_last))]
pub(crate) fn read_is_last(answer: &Object<'_>) -> Result<bool, FieldError>
    ensures { Reads (λ b. b) result (is_last (object_view answer.now)) }
{
    if !answer.has(Key::Pagination) {
        return Ok(true);
    }
    let pagination = answer.object(Key::Pagination, Segment::Pagination)?;
    read_ends(&pagination)
}

#[tactic(auto, using(rb_import_json::proofs::Steps::steps), unfolding(crate::specs::Clients::ends))]
fn read_ends(pagination: &Object<'_>) -> Result<bool, FieldError>
    ensures { Reads (λ b. b) result (ends (object_view pagination.now)) }
{
    if !pagination.has(Key::NextKey) {
        return Ok(true);
    }
    let next = pagination.field(Key::NextKey)?;
    Ok(next.is_null() || is_empty_text(next))
}

fn is_empty_text(value: &Value) -> bool
    ensures { result ≡ is_empty_text (view value.now) }
{
    match value.as_str() {
        Some(text) => text.is_empty(),
        None => false,
    }
}

#[tactic(auto, using(rb_import_json::proofs::Steps::steps), unfolding(crate::specs::Clients::consensus_state))]
fn read_consensus_state(
    alloc: Global,
    entry: &Object<'_>,
    revision: u64,
    height: Height,
) -> Result<ConsensusState, AnswerError>
    ensures { Gives (λ s. s) result (consensus_state revision height (object_view entry.now)) }
{
    let state = entry.inner(Key::ConsensusState)?;
    let time = state.time(Key::Timestamp)?;
    let root = read_root(alloc, &state)?;
    let next = state.record_hash(Key::NextValidatorsHash)?;
    Ok(ConsensusState {
        revision,
        height,
        time,
        root,
        next,
    })
}

/// The root of a record, of 1 to 64 bytes.
#[tactic(auto, using(rb_import_json::proofs::Steps::steps), unfolding(crate::specs::Clients::root))]
fn read_root(alloc: Global, state: &Object<'_>) -> Result<[u8; 32], AnswerError>
    ensures { Gives (λ r. r) result (root (object_view state.now)) }
{
    let root = state.inner(Key::Root)?;
    let bytes = root.base64_bytes(alloc, Key::Hash)?;
    if bytes.is_empty() {
        return Err(AnswerError::Invalid(root.flaw(Key::Hash, FieldErrorName::BadBase64)));
    }
    Ok(root_of(bytes.as_slice()))
}
