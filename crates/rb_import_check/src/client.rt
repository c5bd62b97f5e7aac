//! What a client has stored, and how it judges headers.
ghost use Rattle.std.specs.Prelude.{◌≡◌, ◌≢◌, ◌↔◌, ◌++◌, ⊤, IsTrue, true, false, map, filter, nat_le, All, Any, Contains, IfOk, IfErr, IfSome, IsSomeAnd, OnOk, option_map, option_to_list};
ghost use Rattle.rb_import_check.specs.Errors.{IsAt, IsBetween, IsTold, IsToldOf};
ghost use Rattle.rb_import_check.specs.Named.{NamesForeign, NamesIn, NamesOtherRecord, NamesTwo, NamesTwoAmong};
ghost use Rattle.std.specs.List.Sorted.{IsNonDecreasingBy, IsStrictlyIncreasing};
ghost use Rattle.rb_import_check.specs.Clients.{AreOfClient, AreStatesOfFiles, AreStatesOn, IsOfRevision, JudgesAs, level_of, AreFilesInSomeOrder, AreStatesInSomeOrder, AtRevision, HaveStates, HasReason, client_states_of, current_of, filed_state, filed_states_of, is_of_client, is_last_in, has_last};

use crate::error::{CheckErrorName, ImportError};
use crate::saved::Saved;
use rb_base::{ChainId, Period};
use rb_import_answers::{
    ConsensusState, NodeAnswer, TendermintClientState, TrustLevel, revision_of,
};
use rb_import_setup::{ClientSetup, TrustSetup};
use std::alloc::{AllocError, Global};

/// A record that a client has stored, and its file.
#[derive(Clone, Copy)]
pub struct Stored<'a> {
    pub file: &'a str,
    pub state: &'a ConsensusState,
}

/// What was seen of a client: its trusting period, its clock drift, its trust level, its latest height, where an answer tells
/// its state, and its stored records by rising height. Gateways may repeat the last record of a page on the next one.
#[derive(Drop)]
pub struct SeenClient<'a> {
    pub period: Period,
    pub drift: u64,
    pub trust: TrustLevel,
    pub latest: Option<u64>,
    pub stored: Vec<Stored<'a>>,
}

/// What the answers of a client tell, where the setup doesn't.
pub fn seen_client<'a>(
    alloc: Global,
    setup: &'a ClientSetup,
    tracked: &ChainId,
    answers: &'a [Saved],
) -> Result<SeenClient<'a>, ImportError<'a>>
    ensures rising { IfOk result (λ client. IsStrictlyIncreasing (map (λ s. s.state.now.height) client.stored.items)) }
    ensures revision { IfOk result (λ client. All (IsOfRevision tracked.now) client.stored.items) }
    ensures judging { IfOk result (JudgesAs setup.entry.now (client_states_of answers.entry.now)) }
    ensures latest { IfOk result (λ client. option_to_list client.latest ≡ map (λ s. s.latest) (client_states_of answers.entry.now)) }
    ensures states { IfOk result (λ client. AtRevision tracked.now (λ revision. HaveStates (current_of revision answers.entry.now) client.stored.items)) }
    ensures files { IfOk result (λ client. AtRevision tracked.now (λ revision. AreStatesOfFiles (filed_states_of revision answers.entry.now) client.stored.items)) }
    ensures answers { OnOk result (AreOfClient answers.entry.now) }
    ensures state { OnOk result (AreStatesOn tracked.now answers.entry.now) }
    ensures last { OnOk result (has_last answers.entry.now ≡ true) }
    ensures reason { IfErr result (HasReason setup.entry.now tracked.now answers.entry.now) }
    ensures named { IfErr result (NamesIn tracked.now answers.entry.now) }
    ensures told { IfErr result (IsToldOf setup.entry.now.id) }
{
    let state = state_of(setup, tracked, answers)?;
    let stored = stored_of(alloc, setup, tracked, answers)?;
    let period = setup.period.or(state.map(|state| state.period));
    let drift = setup.drift.map(|drift| drift.nanoseconds());
    let drift = drift.or(state.map(|state| state.drift));
    let trust = setup.trust.map(level_of);
    let trust = trust.or(state.map(|state| state.trust));
    let latest = state.map(|state| state.latest);
    match (period, drift, trust) {
        (Some(period), Some(drift), Some(trust)) => Ok(SeenClient {
            period,
            drift,
            trust,
            latest,
            stored,
        }),
        _ => Err(ImportError::of(CheckErrorName::MissingClientState, setup.id.as_str())),
    }
}

/// A trust level, as an answer on a client's state has it.
fn level_of(level: TrustSetup) -> TrustLevel
    ensures { result ≡ level_of level }
{
    TrustLevel {
        numerator: level.numerator,
        denominator: level.denominator,
    }
}

/// The state of a client, of which there is at most one answer, on the chain that it tracks.
#[tactic(auto, unfolding(crate::specs::Clients::IsOnChain))]
fn state_of<'a>(
    setup: &'a ClientSetup,
    tracked: &ChainId,
    answers: &'a [Saved],
) -> Result<Option<&'a TendermintClientState>, ImportError<'a>>
    ensures state { IfOk result (λ state. option_to_list (option_map (λ s. s.now) state) ≡ client_states_of answers.entry.now) }
    ensures chain { OnOk result (AreStatesOn tracked.now answers.entry.now) }
    ensures reason { IfErr result (HasReason setup.entry.now tracked.now answers.entry.now) }
    ensures named { IfErr result (NamesIn tracked.now answers.entry.now) }
    ensures told { IfErr result (IsToldOf setup.entry.now.id) }
{
    let id = setup.id.as_str();
    let revision = revision_of(tracked.as_str());
    let mut found: Option<(&'a str, &'a TendermintClientState)> = None;
    for saved in answers {
        if let NodeAnswer::ClientState(state) = &saved.answer {
            let file = saved.file.as_str();
            if !is_of_chain(state, tracked) {
                return Err(ImportError::of_other_chain(id, None, file, state.chain.as_str()));
            }
            if state.revision != revision {
                return Err(ImportError::in_file(CheckErrorName::OtherRevision, id, file));
            }
            if let Some((earlier, _)) = found {
                let name = CheckErrorName::TwoAnswers;
                return Err(ImportError::in_files(name, id, earlier, file));
            }
            found = Some((file, state));
        }
    }
    Ok(found.map(|(_, state)| state))
}

/// Whether a client state tells of this chain.
fn is_of_chain(state: &TendermintClientState, chain: &ChainId) -> bool
    ensures { IsTrue result ↔ (state.now.chain ≡ chain.now) }
{
    state.chain.as_str() == chain.as_str()
}

/// The records of a client by rising height, which are of the tracked chain's revision; the last page
/// has to be there. Those of an earlier revision are passed over, and one that a page repeats is taken once.
#[tactic(auto, using(crate::proofs::ReasonsLemmas::recording))]
fn stored_of<'a>(
    alloc: Global,
    setup: &'a ClientSetup,
    tracked: &ChainId,
    answers: &'a [Saved],
) -> Result<Vec<Stored<'a>>, ImportError<'a>>
    ensures rising { IfOk result (λ stored. IsStrictlyIncreasing (map (λ s. s.state.now.height) stored.items)) }
    ensures revision { IfOk result (λ stored. All (IsOfRevision tracked.now) stored.items) }
    ensures states { IfOk result (λ stored. AtRevision tracked.now (λ revision. HaveStates (current_of revision answers.entry.now) stored.items)) }
    ensures files { IfOk result (λ stored. AtRevision tracked.now (λ revision. AreStatesOfFiles (filed_states_of revision answers.entry.now) stored.items)) }
    ensures answers { OnOk result (AreOfClient answers.entry.now) }
    ensures last { OnOk result (has_last answers.entry.now ≡ true) }
    ensures reason { IfErr result (HasReason setup.entry.now tracked.now answers.entry.now) }
    ensures named { IfErr result (NamesIn tracked.now answers.entry.now) }
    ensures told { IfErr result (IsToldOf setup.entry.now.id) }
{
    let id = setup.id.as_str();
    let revision = revision_of(tracked.as_str());
    let told = sorted(current_of(alloc, id, revision, answers)?)?;
    if !has_last(answers) {
        return Err(ImportError::of(CheckErrorName::MissingConsensusStates, id));
    }
    judge_revisions(id, revision, told.as_slice())?;
    each_once(alloc, id, told.as_slice())
}

/// These records by height.
#[tactic(auto, using(crate::proofs::Sorting::sorting))]
fn sorted<'a>(stored: Vec<Stored<'a>>) -> Result<Vec<Stored<'a>>, AllocError>
    ensures same { IfOk result (λ sorted. AreStatesInSomeOrder (map (λ s. s.state.now) stored.entry.items) sorted.items) }
    ensures files { IfOk result (λ sorted. AreFilesInSomeOrder (map filed_state stored.entry.items) sorted.items) }
    ensures order { IfOk result (λ sorted. IsNonDecreasingBy (λ s. s.state.now.height) sorted.items) }
{
    let mut sorted = stored;
    sorted.sort_by_key(|stored: &Stored| stored.state.height)?;
    Ok(sorted)
}

/// Whether the last page of records is there.
#[tactic(auto, using(crate::proofs::Sorting::taking))]
fn has_last(answers: &[Saved]) -> bool
    ensures { result ≡ has_last answers.now }
{
    let mut is_whole = false;
    for saved in answers {
        is_whole = is_whole || is_last_in(&saved.answer);
    }
    is_whole
}

/// Whether an answer is the last page of records.
fn is_last_in(answer: &NodeAnswer) -> bool
    ensures { result ≡ is_last_in answer.now }
{
    match answer {
        NodeAnswer::ConsensusStates(page) => page.is_last,
        _ => false,
    }
}

/// The records of a client in the order of the answers, but for those of a revision before this one.
#[tactic(auto, using(crate::proofs::Sorting::filtering))]
fn current_of<'a>(
    alloc: Global,
    id: &'a str,
    revision: u64,
    answers: &'a [Saved],
) -> Result<Vec<Stored<'a>>, ImportError<'a>>
    ensures states { IfOk result (λ stored. map (λ s. s.state.now) stored.items ≡ current_of revision answers.entry.now) }
    ensures files { IfOk result (λ stored. map filed_state stored.items ≡ filed_states_of revision answers.entry.now) }
    ensures answers { OnOk result (AreOfClient answers.entry.now) }
    ensures foreign { IfErr result (IsTold CheckErrorName.WrongFolder (Any (λ s. is_of_client s.answer ≡ false) answers.entry.now)) }
    ensures named { IfErr result (NamesForeign answers.entry.now) }
    ensures told { IfErr result (IsToldOf id.entry.now) }
{
    let mut stored = Vec::new(alloc);
    for saved in answers {
        let file = saved.file.as_str();
        match &saved.answer {
            NodeAnswer::ConsensusStates(page) => {
                add_states(file, revision, page.states.as_slice(), &mut stored)?;
            }
            NodeAnswer::ClientState(_) | NodeAnswer::Other(_) => {}
            _ => return Err(ImportError::in_file(CheckErrorName::WrongFolder, id, file)),
        }
    }
    Ok(stored)
}

#[tactic(auto, using(crate::proofs::Sorting::filing))]
fn add_states<'a>(
    file: &'a str,
    revision: u64,
    states: &'a [ConsensusState],
    stored: &mut Vec<Stored<'a>>,
) -> Result<(), AllocError>
    ensures states { OnOk result (map (λ s. s.state.now) stored.new.items ≡ map (λ s. s.state.now) stored.old.items ++ filter (λ s. nat_le revision s.revision) states.entry.now) }
    ensures files { OnOk result (map filed_state stored.new.items ≡ map filed_state stored.old.items ++ filter (λ f. nat_le revision f.0.revision) (map (λ s. (s, file.entry.now)) states.entry.now)) }
{
    for state in states {
        if revision <= state.revision {
            stored.push(Stored { file, state })?;
        }
    }
    Ok(())
}

/// Refuses records of another revision than this one.
fn judge_revisions<'a>(
    id: &'a str,
    revision: u64,
    stored: &[Stored<'a>],
) -> Result<(), ImportError<'a>>
    ensures revision { OnOk result (All (λ s. s.state.now.revision ≡ revision) stored.now) }
    ensures other { IfErr result (IsTold CheckErrorName.OtherRevision (Any (λ s. s.state.now.revision ≢ revision) stored.now)) }
    ensures named { IfErr result (λ e. Any (λ s. NamesOtherRecord revision (filed_state s) e) stored.now) }
    ensures told { IfErr result (IsToldOf id.entry.now) }
{
    for record in stored {
        if record.state.revision != revision {
            let height = record.state.height.get();
            return Err(ImportError::at(CheckErrorName::OtherRevision, id, height, record.file));
        }
    }
    Ok(())
}

/// Each of the records once, of those that stand by height; two different ones of one height are refused.
#[tactic(auto, using(crate::proofs::Repeats::repeating))]
fn each_once<'a>(
    alloc: Global,
    id: &'a str,
    told: &[Stored<'a>],
) -> Result<Vec<Stored<'a>>, ImportError<'a>>
    requires order { IsNonDecreasingBy (λ s. s.state.now.height) told.now }
    ensures rising { IfOk result (λ stored. IsStrictlyIncreasing (map (λ s. s.state.now.height) stored.items)) }
    ensures among { IfOk result (λ stored. All (Contains told.now) stored.items) }
    ensures all { IfOk result (λ stored. All (λ s. Contains (map (λ t. t.state.now) stored.items) s.state.now) told.now) }
    ensures two { IfErr result (NamesTwoAmong told.now) }
    ensures told { IfErr result (IsToldOf id.entry.now) }
{
    let mut stored = Vec::new(alloc);
    let mut last: Option<Stored<'a>> = None;
    for next in told {
        if !is_repeated(id, last, next)? {
            stored.push(*next)?;
            last = Some(*next);
        }
    }
    Ok(stored)
}

/// Whether a record repeats the one before it. It is refused if it is another one of the same height.
fn is_repeated<'a>(
    id: &'a str,
    last: Option<Stored<'a>>,
    next: &Stored<'a>,
) -> Result<bool, ImportError<'a>>
    ensures same { IfOk result (λ is. IsTrue is → IsSomeAnd last.entry (λ l. l.state.now ≡ next.now.state.now)) }
    ensures other { IfOk result (λ is. is ≡ false → IfSome last.entry (λ l. l.state.now.height ≢ next.now.state.now.height)) }
    ensures two { IfErr result (λ e. IsSomeAnd last.entry (λ l. NamesTwo l next.now e)) }
    ensures told { IfErr result (IsToldOf id.entry.now) }
{
    let Some(last) = last else {
        return Ok(false);
    };
    if last.state.height != next.state.height {
        return Ok(false);
    }
    if !is_same(last.state, next.state) {
        return Err(two_records(id, &last, next));
    }
    Ok(true)
}

/// Whether two records are the same.
fn is_same(state: &ConsensusState, other: &ConsensusState) -> bool
    ensures { IsTrue result ↔ (state.now ≡ other.now) }
{
    state.revision == other.revision
        && state.height == other.height
        && state.time == other.time
        && state.root == other.root
        && state.next == other.next
}

fn two_records<'a>(id: &'a str, stored: &Stored<'a>, other: &Stored<'a>) -> ImportError<'a>
    ensures name { IsTold CheckErrorName.TwoAnswers ⊤ result }
    ensures files { IsBetween stored.now.file.now other.now.file.now result }
    ensures height { IsAt stored.now.state.now.height result }
    ensures told { IsToldOf id.entry.now result }
{
    let height = stored.state.height.get();
    ImportError::between(
        CheckErrorName::TwoAnswers,
        id,
        height,
        stored.file,
        other.file,
    )
}
