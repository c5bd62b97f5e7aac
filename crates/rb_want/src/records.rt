//! A client's answers.
ghost use Rattle.std.specs.Prelude.{◌≡◌, ◌==◌, ◌++◌, IfOk, OnOk, filter, map};
ghost use Rattle.std.specs.List.{list_any};
ghost use Rattle.std.specs.List.Sorted.{IsNonDecreasingBy, IsPermutation};
ghost use Rattle.std.specs.Option.{option_copied};
ghost use Rattle.rb_want.specs.Clients.{is_other_client, later_state, state_in, states_of, stored_in};

use rb_import_answers::{ConsensusState, TendermintClientState};
use rb_want_requests::{Content, Folder};
use std::alloc::{AllocError, Global};

/// The answers of a client: its state, or whether one is of a client that is frozen or isn't Tendermint's; and its
/// consensus states by rising height.
#[derive(Drop)]
pub struct ClientAnswers<'a> {
    pub folder: &'a Folder,
    pub state: Option<&'a TendermintClientState>,
    pub is_other: bool,
    pub records: Vec<&'a ConsensusState>,
    ghost judging: { option_copied state ≡ state_in folder.now.contents.items },
    ghost other: { is_other ≡ list_any is_other_client folder.now.contents.items },
    ghost rising: { IsNonDecreasingBy (λ r. r.now.height) records.items },
}

impl<'a> ClientAnswers<'a> {
    /// The answers in the folder of a client, with its consensus states of this revision number, by rising
    /// height.
    pub fn of(
        alloc: Global,
        folder: &'a Folder,
        revision: u64,
    ) -> Result<ClientAnswers<'a>, AllocError>
        ensures folder { IfOk result (λ answers. answers.folder.now ≡ folder.entry.now) }
        ensures records { IfOk result (λ answers. IsPermutation (stored_in revision folder.entry.now.contents.items) (map (λ r. r.now) answers.records.items)) }
    {
        let contents = folder.contents.as_slice();
        let stored = stored_in(alloc, contents, revision)?;
        Ok(ClientAnswers {
            folder,
            state: state_in(contents),
            is_other: has_other(contents),
            records: sorted(stored)?,
        })
    }
}

/// The client's state, of several the last.
#[tactic(auto, using(crate::proofs::Taking::taking))]
fn state_in(contents: &[Content]) -> Option<&TendermintClientState>
    ensures { option_copied result ≡ state_in contents.now }
{
    let mut last = None;
    for content in contents {
        last = later_state(last, content);
    }
    last
}

/// The client's state, where the content has it, else the one before.
fn later_state<'a>(
    before: Option<&'a TendermintClientState>,
    content: &'a Content,
) -> Option<&'a TendermintClientState>
    ensures { option_copied result ≡ later_state (option_copied before.entry) content.entry.now }
{
    match content {
        Content::ClientState(state) => Some(state),
        _ => before,
    }
}

/// Whether the state of a client is there that is frozen, or isn't Tendermint's.
fn has_other(contents: &[Content]) -> bool
    ensures { result ≡ list_any is_other_client contents.now }
{
    contents.iter().any(|content| is_other_client(content))
}

/// Whether a content is the state of a client that is frozen, or isn't Tendermint's.
fn is_other_client(content: &Content) -> bool
    ensures { result ≡ is_other_client content.now }
{
    matches!(content, Content::OtherClient)
}

/// The consensus states of this revision number, in the order of the answers.
#[tactic(auto, using(crate::proofs::Taking::taking))]
fn stored_in<'a>(
    alloc: Global,
    contents: &'a [Content],
    revision: u64,
) -> Result<Vec<&'a ConsensusState>, AllocError>
    ensures { IfOk result (λ stored. map (λ r. r.now) stored.items ≡ stored_in revision contents.entry.now) }
{
    let mut stored = Vec::new(alloc);
    for content in contents {
        add_content(&mut stored, content, revision)?;
    }
    Ok(stored)
}

/// Adds the consensus states of a content that are of this revision number.
fn add_content<'a>(
    stored: &mut Vec<&'a ConsensusState>,
    content: &'a Content,
    revision: u64,
) -> Result<(), AllocError>
    ensures { OnOk result (map (λ r. r.now) stored.new.items ≡ map (λ r. r.now) stored.old.items ++ states_of revision content.entry.now) }
{
    match content {
        Content::ConsensusStates { page, .. } => {
            add_states(stored, page.states.as_slice(), revision)
        }
        _ => Ok(()),
    }
}

/// Adds those of some consensus states that are of this revision number.
#[tactic(auto, using(crate::proofs::Taking::taking))]
fn add_states<'a>(
    stored: &mut Vec<&'a ConsensusState>,
    states: &'a [ConsensusState],
    revision: u64,
) -> Result<(), AllocError>
    ensures { OnOk result (map (λ r. r.now) stored.new.items ≡ map (λ r. r.now) stored.old.items ++ filter (λ s. s.revision == revision) states.entry.now) }
{
    for state in states {
        if state.revision == revision {
            stored.push(state)?;
        }
    }
    Ok(())
}

/// These records by height.
fn sorted<'a>(stored: Vec<&'a ConsensusState>) -> Result<Vec<&'a ConsensusState>, AllocError>
    ensures same { IfOk result (λ sorted. IsPermutation (map (λ r. r.now) stored.entry.items) (map (λ r. r.now) sorted.items)) }
    ensures order { IfOk result (λ sorted. IsNonDecreasingBy (λ r. r.now.height) sorted.items) }
{
    let mut sorted = stored;
    sorted.sort_by_key(|record: &&ConsensusState| record.height)?;
    Ok(sorted)
}
