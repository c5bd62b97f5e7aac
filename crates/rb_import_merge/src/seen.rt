//! What was seen of a setup's chains, clients and paths, as much of it as books have room for.
ghost use Rattle.std.specs.Prelude.{◌≡◌, ◌<◌, ◌↔◌, ◌++◌, ℕ, [], Ok, Some, length, map, slice_get, IsTrue, IfOk, IfErr, OnOk};
ghost use Rattle.std.specs.List.{flat_map};
ghost use Rattle.rb_import_check.specs.Errors.{IsToldOf, IsTooBig};
ghost use Rattle.rb_import_merge.specs.Errors.{IsToldIn, OfEach};
ghost use Rattle.rb_import_merge.specs.Judged.{AreJudgedChains, AreJudgedClients, AreJudgedPaths, IsFiledAt, chain_at, problems_in};
ghost use Rattle.rb_import_merge.specs.Reasons.{HasReasonIn, IsOfChainAnswers, IsOfClientAnswers, IsOfDifference};
ghost use Rattle.rb_import_merge.specs.Seen.{AgreesWithChain, IsKeptSet, IsSeenChain, IsSeenClient, IsSeenIn, IsWrittenOf, answers_at, surplus_of};

use crate::errors::{ImportErrors, refuse};
use crate::kept::KeptSets;
use crate::path::{SeenPath, seen_path};
use crate::room::{kept_records, surplus_of, with_room};
use crate::sets::kept_sets;
use rb_base::ChainId;
use rb_import_check::{
    CheckError, ImportError, Saved, SavedAnswers, SeenChain, SeenClient, Signatures, Stored,
    judge_records, seen_chain, seen_client,
};
use rb_import_setup::{ClientSetup, ImportSetup};
use std::alloc::{AllocError, Global};

/// What was seen of the chains, clients and paths of a setup, in its order. Of each chain there are the headers and
/// the sets that its book has room for, and how many headers it hasn't; of each client the stored records that the
/// book of the chain that it tracks has room for.
#[derive(Drop)]
pub struct SeenSetup<'a> {
    pub chains: Vec<SeenChain<'a>>,
    pub surplus: Vec<usize>,
    pub sets: Vec<KeptSets>,
    pub clients: Vec<SeenClient<'a>>,
    pub records: Vec<Vec<Stored<'a>>>,
    pub paths: Vec<SeenPath<'a>>,
}

impl SeenSetup<'_> {
    ghost use Rattle.std.specs.Prelude.{◌↔◌, IsTrue, get_or};
    ghost use Rattle.rb_import_merge.specs.Seen.{IsWrittenOf, LacksHeaders, WasSeenOf, is_written, left_out, sets_left_out};

    /// Whether no header was seen of the chain at a place.
    pub fn lacks_headers(&self, place: usize) -> bool
        ensures { IsTrue result ↔ LacksHeaders self.now.chains.items place }
    {
        match self.chains.get(place) {
            Some(chain) => chain.commits.is_empty(),
            None => false,
        }
    }

    /// Whether the set of this hash was seen of the chain at a place.
    pub fn has_set(&self, place: usize, hash: &[u8; 32]) -> bool
        ensures { IsTrue result ↔ WasSeenOf self.now.chains.items place hash.now }
    {
        match self.chains.get(place) {
            Some(chain) => chain.sets.with_hash(hash).is_some(),
            None => false,
        }
    }

    /// Whether the set of this hash is written of the chain at a place.
    pub fn is_written(&self, place: usize, hash: &[u8; 32]) -> bool
        ensures value { result ≡ is_written (slice_get self.now.chains.items place) (slice_get self.now.sets.items place) hash.now }
        ensures written { IsTrue result ↔ IsWrittenOf self.now.chains.items self.now.sets.items place hash.now }
    {
        has_written(self, place, hash)
    }

    /// How many headers of the chain at a place its book has no room for.
    pub fn headers_left_out(&self, place: usize) -> usize
        ensures { result ≡ get_or self.now.surplus.items place 0 }
    {
        self.surplus.get(place).copied().unwrap_or(0)
    }

    /// How many sets of the chain at a place its book has no room for.
    pub fn sets_left_out(&self, place: usize) -> usize
        ensures { result ≡ sets_left_out self.now.sets.items place }
    {
        match self.sets.get(place) {
            Some(kept) => kept.left_out,
            None => 0,
        }
    }

    /// How many of the records that the client at a place has stored aren't kept.
    pub fn left_out(&self, place: usize) -> usize
        ensures { result ≡ left_out self.now.clients.items self.now.records.items place }
    {
        match (self.clients.get(place), self.records.get(place)) {
            (Some(client), Some(records)) => client.stored.len().saturating_sub(records.len()),
            _ => 0,
        }
    }
}

/// Whether the set of this hash is one of the kept sets of the chain at a place.
fn has_written(seen: &SeenSetup<'_>, place: usize, hash: &[u8; 32]) -> bool
    ensures { IsTrue result ↔ IsWrittenOf seen.now.chains.items seen.now.sets.items place hash.now }
{
    match (seen.chains.get(place), seen.sets.get(place)) {
        (Some(chain), Some(kept)) => has_kept(chain, kept, hash),
        _ => false,
    }
}

/// Whether the set of this hash is one of a chain's kept sets.
fn has_kept(chain: &SeenChain<'_>, kept: &KeptSets, hash: &[u8; 32]) -> bool
    ensures { IsTrue result ↔ IsKeptSet chain.now hash.now kept.now }
{
    match chain.sets.place_of(hash) {
        Some(place) => kept.has(place),
        None => false,
    }
}

/// What was seen of a setup's chains, clients and paths in their answers, as much of it as books have room for; headers that
/// too few signed, of these signatures, are left out. All problems are answered: of the chains, of the clients, then of the paths, each in order; no
/// client has one with headers of a chain that is refused. `NoMemory` comes where a growth is refused.
pub fn seen_in<'a>(
    alloc: Global,
    setup: &'a ImportSetup,
    signatures: Signatures,
    answers: &'a SavedAnswers,
) -> Result<SeenSetup<'a>, ImportErrors<'a>>
    ensures seen { IfOk result (IsSeenIn setup.entry.now signatures answers.entry.now) }
    ensures reason { IfErr result (OfEach (HasReasonIn setup.entry.now answers.entry.now)) }
    ensures names { IfErr result (OfEach (λ e. ¬ IsTooBig e)) }
    ensures told { IfErr result (OfEach (IsToldIn setup.entry.now)) }
{
    let by_chain = judged_chains(alloc, setup, signatures, answers)?;
    let by_client = judged_clients(alloc, setup, answers, by_chain.as_slice())?;
    let by_path = judged_paths(alloc, setup, answers)?;
    let mut problems = Vec::new(alloc);
    let fitting = sound(alloc, by_chain, &mut problems)?;
    let clients = sound(alloc, by_client, &mut problems)?;
    let paths = sound(alloc, by_path, &mut problems)?;
    refuse(problems)?;
    let parts = parted(alloc, fitting)?;
    let (chains, surplus) = parts;
    let records = kept_records(alloc, setup, chains.as_slice(), clients.as_slice())?;
    let sets = kept_sets(alloc, setup, chains.as_slice(), records.as_slice())?;
    Ok(SeenSetup {
        chains,
        surplus,
        sets,
        clients,
        records,
        paths,
    })
}

/// What was seen of each chain, with the signed headers that its book has room for, and how many it hasn't; or why its
/// answers are refused.
fn judged_chains<'a>(
    alloc: Global,
    setup: &'a ImportSetup,
    signatures: Signatures,
    answers: &'a SavedAnswers,
) -> Result<Vec<Result<(SeenChain<'a>, usize), ImportError<'a>>>, AllocError>
    ensures { IfOk result (λ chains. AreJudgedChains setup.entry.now signatures answers.entry.now chains.items) }
{
    let mut chains = Vec::with_capacity(alloc, setup.chains.len())?;
    for (place, id) in setup.chains.iter().enumerate() {
        let saved = answers_at(&answers.chains, place);
        chains.push(fitting_chain(alloc, id.as_str(), signatures, saved))?;
    }
    Ok(chains)
}

/// What was seen of a chain, with the signed headers that its book has room for, and how many it hasn't.
fn fitting_chain<'a>(
    alloc: Global,
    id: &'a str,
    signatures: Signatures,
    saved: &'a [Saved],
) -> Result<(SeenChain<'a>, usize), ImportError<'a>>
    ensures seen { IfOk result (λ fitting. IsSeenChain id.entry.now signatures saved.entry.now fitting.0) }
    ensures surplus { IfOk result (λ fitting. fitting.1 ≡ surplus_of saved.entry.now fitting.0) }
    ensures refused { IfErr result (IsOfChainAnswers id.entry.now saved.entry.now) }
{
    let chain = seen_chain(alloc, id, signatures, saved)?;
    let surplus = surplus_of(&chain);
    let fitting = with_room(alloc, chain)?;
    Ok((fitting, surplus))
}

/// The identifier of the chain at a place.
fn chain_at(setup: &ImportSetup, place: usize) -> &ChainId
    requires { place < length setup.now.chains.items }
    ensures { slice_get setup.now.chains.items place ≡ Some result.now }
{
    &setup.chains[place]
}

/// What was seen of each client, beside these chains; or why its answers are refused.
fn judged_clients<'a>(
    alloc: Global,
    setup: &'a ImportSetup,
    answers: &'a SavedAnswers,
    chains: &[Result<(SeenChain<'a>, usize), ImportError<'a>>],
) -> Result<Vec<Result<SeenClient<'a>, ImportError<'a>>>, AllocError>
    requires { (place : ℕ) → IsFiledAt answers.now chains.now place }
    ensures { IfOk result (λ clients. AreJudgedClients setup.entry.now answers.entry.now chains.now clients.items) }
{
    let mut clients = Vec::with_capacity(alloc, setup.clients.len())?;
    for (place, client) in setup.clients.iter().enumerate() {
        let saved = answers_at(&answers.clients, place);
        clients.push(judged_client(alloc, setup, answers, chains, client, saved))?;
    }
    Ok(clients)
}

/// What was seen of a client, beside these chains.
fn judged_client<'a>(
    alloc: Global,
    setup: &'a ImportSetup,
    answers: &'a SavedAnswers,
    chains: &[Result<(SeenChain<'a>, usize), ImportError<'a>>],
    client: &'a ClientSetup,
    saved: &'a [Saved],
) -> Result<SeenClient<'a>, ImportError<'a>>
    requires tracks { client.now.tracks < length setup.now.chains.items }
    requires filed { IsFiledAt answers.now chains.now client.now.tracks }
    ensures seen { IfOk result (IsSeenClient setup.entry.now.chains.items (chain_at chains.now client.entry.now.tracks) client.entry.now saved.entry.now) }
    ensures refused { IfErr result (IsOfClientAnswers setup.entry.now answers.entry.now client.entry.now saved.entry.now) }
{
    let tracked = chain_at(setup, client.tracks);
    let seen = seen_client(alloc, client, tracked, saved)?;
    judge_client(alloc, client, chains, seen.stored.as_slice())?;
    Ok(seen)
}

/// Refuses a client's record that isn't as the header of its height, of the chain that the client tracks, unless that is refused.
fn judge_client<'a>(
    alloc: Global,
    client: &'a ClientSetup,
    chains: &[Result<(SeenChain<'a>, usize), ImportError<'a>>],
    stored: &[Stored<'a>],
) -> Result<(), ImportError<'a>>
    ensures accord { OnOk result (AgreesWithChain (chain_at chains.now client.entry.now.tracks) stored.now) }
    ensures other { IfErr result (IsOfDifference (chain_at chains.now client.entry.now.tracks) stored.now) }
    ensures told { IfErr result (IsToldOf client.entry.now.id) }
{
    match chains.get(client.tracks) {
        Some(Ok(fitting)) => judge_records(alloc, client.id.as_str(), &fitting.0, stored),
        _ => Ok(()),
    }
}

/// What was seen of each path, or why its answers are refused.
fn judged_paths<'a>(
    alloc: Global,
    setup: &'a ImportSetup,
    answers: &'a SavedAnswers,
) -> Result<Vec<Result<SeenPath<'a>, ImportError<'a>>>, AllocError>
    ensures { IfOk result (λ paths. AreJudgedPaths setup.entry.now answers.entry.now paths.items) }
{
    let mut paths = Vec::with_capacity(alloc, setup.paths.len())?;
    for (place, path) in setup.paths.iter().enumerate() {
        let dest = chain_at(setup, path.config.destination);
        let saved = answers_at(&answers.paths, place);
        paths.push(seen_path(alloc, path, dest, saved))?;
    }
    Ok(paths)
}

/// What was seen in answers that aren't refused; the problems of the others are added. `NoMemory` of one of them is that of all.
fn sound<'a, T: Drop>(
    alloc: Global,
    results: Vec<Result<T, ImportError<'a>>>,
    problems: &mut Vec<CheckError<'a>>,
) -> Result<Vec<T>, AllocError>
    ensures problems { OnOk result (problems.new.items ≡ problems.old.items ++ flat_map problems_in results.entry.items) }
    ensures all { IfOk result (λ sound. flat_map problems_in results.entry.items ≡ [] → results.entry.items ≡ map Ok sound.items) }
{
    let mut sound = Vec::with_capacity(alloc, results.len())?;
    for result in results {
        match result {
            Ok(seen) => sound.push(seen)?,
            Err(ImportError::CheckError(problem)) => problems.push(problem)?,
            Err(ImportError::NoMemory) => return Err(AllocError),
        }
    }
    Ok(sound)
}

/// The chains, and the numbers of headers for which their books have no room.
fn parted<'a>(
    alloc: Global,
    fitting: Vec<(SeenChain<'a>, usize)>,
) -> Result<(Vec<SeenChain<'a>>, Vec<usize>), AllocError>
    ensures chains { IfOk result (λ parts. parts.0.items ≡ map (λ f. f.0) fitting.entry.items) }
    ensures surplus { IfOk result (λ parts. parts.1.items ≡ map (λ f. f.1) fitting.entry.items) }
{
    let mut chains = Vec::with_capacity(alloc, fitting.len())?;
    let mut surplus = Vec::with_capacity(alloc, fitting.len())?;
    for (chain, left_out) in fitting {
        chains.push(chain)?;
        surplus.push(left_out)?;
    }
    Ok((chains, surplus))
}

/// The answers of the object at a place; none where there are none.
pub fn answers_at(answers: &Vec<Vec<Saved>>, place: usize) -> &[Saved]
    ensures { result.now ≡ answers_at answers.now.items place }
{
    match answers.get(place) {
        Some(saved) => saved.as_slice(),
        None => &[],
    }
}
