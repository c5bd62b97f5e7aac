//! Client messages (ICS 7, `Header`).
ghost use Rattle.std.specs.Prelude.{◌≡◌, map, IfOk, IfErr, string_bytes};
ghost use Rattle.std.specs.List.{enumerate_from};
ghost use Rattle.rb_messages.specs.Messages.{AreFilesOf, IsFileOf, IsMessageOf};
ghost use Rattle.rb_messages.specs.Sources.{IsRefusedAmong, IsRefusedAt, IsRefusedFor};
ghost use Rattle.rb_messages.specs.Names.{file_name};

use crate::client_message::message_text;
use crate::error::MessageError;
use crate::source::{commit_of, id_of, own_set, trusted_set};
use crate::update::{PlannedUpdate, file_name};
use crate::votes::missing_vote;
use rb_base::ChainId;
use rb_import_answers::revision_of;
use rb_import_check::SeenChain;
use std::alloc::Global;

/// The name and the content of a message's file.
#[derive(Drop)]
pub struct MessageFile {
    pub name: String,
    pub text: String,
}

/// The files of the messages of updates, in their order, by what the answers on each chain tell.
///
/// The first update without a message refuses all. Of its errors the first of these comes: MissingHeader, OtherHeader,
/// MissingHeader for want of the header's set, MissingSet, MissingVotes. The last is of an update that carries only
/// the votes that it needs. An update that carries all votes has those of the commit in the answers, which may be others
/// than the planner counted: more than two thirds of the header's own set, as `seen_chains` says; whether they are enough
/// of the trusted set isn't judged.
#[tactic(auto, using(crate::proofs::Zipped::zipped_more, crate::proofs::Zipped::zipped_all))]
pub fn message_files<'a>(
    alloc: Global,
    chains: &'a [ChainId],
    seen: &[SeenChain<'a>],
    updates: &[PlannedUpdate],
) -> Result<Vec<MessageFile>, MessageError<'a>>
    ensures names { IfOk result (λ files. map (λ f. string_bytes f.name) files.items ≡ map (λ p. file_name p.0 p.1) (enumerate_from 0 updates.now)) }
    ensures messages { IfOk result (λ files. AreFilesOf chains.entry.now seen.now updates.now files.items) }
    ensures refused { IfErr result (IsRefusedAmong chains.entry.now seen.now updates.now) }
{
    let mut files = Vec::new(alloc);
    for (place, update) in updates.iter().enumerate() {
        match file_of(alloc, chains, seen, place, update) {
            Ok(file) => files.push(file)?,
            Err(error) => return Err(error),
        }
    }
    Ok(files)
}

/// The file of the message of the update at a place.
fn file_of<'a>(
    alloc: Global,
    chains: &'a [ChainId],
    seen: &[SeenChain<'a>],
    place: usize,
    update: &PlannedUpdate,
) -> Result<MessageFile, MessageError<'a>>
    ensures name { IfOk result (λ file. string_bytes file.name ≡ file_name place update.now) }
    ensures message { IfOk result (IsFileOf chains.entry.now seen.now update.now) }
    ensures refused { IfErr result (IsRefusedAt chains.entry.now seen.now update.now) }
{
    let name = file_name(alloc, place, update)?;
    let chain = id_of(chains, update.chain);
    let height = update.height;
    let Some(seen) = seen.get(update.chain) else {
        return Err(MessageError::MissingHeader { chain, height });
    };
    match message_of(alloc, chain, seen, update) {
        Ok(text) => Ok(MessageFile { name, text }),
        Err(error) => Err(error),
    }
}

/// The message of an update of a chain.
fn message_of<'a>(
    alloc: Global,
    chain: &'a str,
    seen: &SeenChain<'a>,
    update: &PlannedUpdate,
) -> Result<String, MessageError<'a>>
    ensures message { IfOk result (λ text. IsMessageOf chain.entry.now seen.now update.now (string_bytes text)) }
    ensures refused { IfErr result (IsRefusedFor chain.entry.now seen.now update.now) }
{
    let commit = match commit_of(chain, seen, update) {
        Ok(commit) => commit,
        Err(error) => return Err(error),
    };
    let own = match own_set(chain, seen, update, &commit) {
        Ok(set) => set,
        Err(error) => return Err(error),
    };
    let trusted = match trusted_set(chain, seen, update) {
        Ok(set) => set,
        Err(error) => return Err(error),
    };
    let signed = commit.header;
    let votes = &update.votes;
    match missing_vote(votes, signed.votes.as_slice()) {
        None => {}
        Some(validator) => {
            let height = update.height;
            let file = commit.file;
            return Err(MessageError::MissingVotes {
                chain,
                height,
                file,
                validator,
            });
        }
    }
    let revision = revision_of(chain);
    let text = message_text(alloc, votes, signed, own, revision, update.trusted, trusted)?;
    Ok(text)
}
