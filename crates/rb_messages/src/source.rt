//! What messages on a chain are made of.
ghost use Rattle.std.specs.Prelude.{◌≡◌, ◌==◌, [], slice_index_or, ◌↔◌, Some, IfOk, IfErr, IfSome, IsSome, IsSomeAnd, IsTrue};
ghost use Rattle.std.specs.Option.{option_copied};
ghost use Rattle.rb_valset.specs.ValidatorSet.{set_hash};
ghost use Rattle.rb_import_check.specs.Sets.{WasSeen};
ghost use Rattle.rb_messages.specs.Sources.{AreRefused, AreTold, IsHeaderOf, IsOfRecord, IsRefusedFor, IsRefusedOn, Tells, commit_at};

use crate::error::MessageError;
use crate::update::PlannedUpdate;
use rb_base::{ChainId, Height};
use rb_book::Record;
use rb_import_answers::SignedHeader;
use rb_import_check::{Commit, ImportError, Saved, SeenChain, Signatures, seen_chain};
use rb_valset::ValidatorSet;
use std::alloc::Global;

/// What the answers on each chain tell, by its place; they contradict each other nowhere, as `rb_import_check` judges them.
#[tactic(auto, using(crate::proofs::Zipped::placed_all))]
pub fn seen_chains<'a>(
    alloc: Global,
    chains: &'a [ChainId],
    answers: &'a [Vec<Saved>],
) -> Result<Vec<SeenChain<'a>>, MessageError<'a>>
    ensures told { IfOk result (λ seen. AreTold chains.entry.now answers.entry.now seen.items) }
    ensures refused { IfErr result (AreRefused chains.entry.now answers.entry.now) }
{
    let mut seen = Vec::new(alloc);
    for (place, answers) in answers.iter().enumerate() {
        match seen_on(alloc, id_of(chains, place), answers.as_slice()) {
            Ok(one) => seen.push(one)?,
            Err(error) => return Err(error),
        }
    }
    Ok(seen)
}

/// What the answers on a chain tell.
#[tactic(auto, unfolding(crate::specs::Sources::Tells))]
fn seen_on<'a>(
    alloc: Global,
    chain: &'a str,
    answers: &'a [Saved],
) -> Result<SeenChain<'a>, MessageError<'a>>
    ensures told { IfOk result (Tells chain.entry.now answers.entry.now) }
    ensures refused { IfErr result (IsRefusedOn chain.entry.now) }
{
    match seen_chain(alloc, chain, Signatures::AsGiven, answers) {
        Ok(seen) => Ok(seen),
        Err(ImportError::NoMemory) => Err(MessageError::NoMemory),
        Err(error) => Err(MessageError::Answers(error)),
    }
}

/// The identifier of the chain at a place.
pub fn id_of(chains: &[ChainId], chain: usize) -> &str
    ensures { result.now ≡ slice_index_or chains.entry.now chain [] }
{
    match chains.get(chain) {
        Some(id) => id.as_str(),
        None => "",
    }
}

/// The commit of an update's header, which has to be the one that the relayer has planned for.
pub(crate) fn commit_of<'a>(
    chain: &'a str,
    seen: &SeenChain<'a>,
    update: &PlannedUpdate,
) -> Result<Commit<'a>, MessageError<'a>>
    ensures commit { IfOk result (λ commit. commit_at seen.now update.now.height ≡ Some commit) }
    ensures header { IfOk result (λ commit. IsHeaderOf update.now commit.header.now) }
    ensures refused { IfErr result (IsRefusedFor chain.entry.now seen.now update.now) }
{
    let height = update.height;
    let Some(commit) = commit_at(seen, height) else {
        return Err(MessageError::MissingHeader { chain, height });
    };
    if is_header_of(update, commit.header) {
        return Ok(*commit);
    }
    let file = commit.file;
    Err(MessageError::OtherHeader {
        chain,
        height,
        file,
    })
}

/// The commit of a height.
fn commit_at<'a, 's>(seen: &'s SeenChain<'a>, height: Height) -> Option<&'s Commit<'a>>
    ensures { option_copied result ≡ commit_at seen.entry.now height }
{
    seen.commits
        .iter()
        .find(|commit| is_of_height(commit, height))
}

fn is_of_height(commit: &Commit<'_>, height: Height) -> bool
    ensures { result ≡ (commit.now.header.now.height == height) }
{
    commit.header.height == height
}

/// Whether a header is that of an update, as the relayer has it.
fn is_header_of(update: &PlannedUpdate, header: &SignedHeader) -> bool
    ensures { IsTrue result ↔ IsHeaderOf update.now header.now }
{
    match &update.own_record {
        Some(planned) => is_of_record(header, planned),
        None => false,
    }
}

/// Whether a header has the time, the root and the next set of a record.
fn is_of_record(header: &SignedHeader, planned: &Record) -> bool
    ensures { IsTrue result ↔ IsOfRecord header.now planned.now }
{
    header.time == planned.time()
        && header.root == *planned.root()
        && header.next == *planned.next()
}

/// The set of a commit's header.
pub(crate) fn own_set<'a, 's>(
    chain: &'a str,
    seen: &'s SeenChain<'a>,
    update: &PlannedUpdate,
    commit: &Commit<'a>,
) -> Result<&'s ValidatorSet, MessageError<'a>>
    requires { commit_at seen.now update.now.height ≡ Some commit.now }
    ensures set { IfOk result (λ set. set_hash set.now ≡ commit.now.header.now.set) }
    ensures refused { IfErr result (IsRefusedFor chain.entry.now seen.entry.now update.now) }
{
    let height = update.height;
    match set_of(seen, &commit.header.set) {
        Some(set) => Ok(set),
        None => Err(MessageError::MissingHeader { chain, height }),
    }
}

/// The set that the record of an update's trusted height names.
pub(crate) fn trusted_set<'a, 's>(
    chain: &'a str,
    seen: &'s SeenChain<'a>,
    update: &PlannedUpdate,
) -> Result<&'s ValidatorSet, MessageError<'a>>
    ensures set { IfOk result (λ set. IsSomeAnd update.now.trusted_record (λ r. set_hash set.now ≡ r.next)) }
    ensures refused { IfErr result (IsRefusedFor chain.entry.now seen.entry.now update.now) }
{
    let height = update.trusted;
    let Some(record) = &update.trusted_record else {
        return Err(MessageError::MissingSet { chain, height });
    };
    match set_of(seen, record.next()) {
        Some(set) => Ok(set),
        None => Err(MessageError::MissingSet { chain, height }),
    }
}

/// The set of a hash; none where no answers have it.
fn set_of<'s>(seen: &'s SeenChain<'_>, hash: &[u8; 32]) -> Option<&'s ValidatorSet>
    ensures found { IsSome result ↔ WasSeen seen.entry.now.sets.sets.items hash.now }
    ensures hash { IfSome result (λ set. set_hash set.now ≡ hash.now) }
{
    match seen.sets.with_hash(hash) {
        Some(one) => Some(&one.set),
        None => None,
    }
}
