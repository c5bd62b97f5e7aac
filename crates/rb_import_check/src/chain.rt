//! The sets and headers of a chain: each height once, rising, and each header with its set.
ghost use Rattle.std.specs.Prelude.{◌≡◌, ◌≢◌, ◌↔◌, ◌⊎◌, ◌<◌, ◌≤◌, ◌==◌, ◌++◌, ⊤, ℕ, List, [], length, map, filter, find, All, Any, IsSome, IsTrue, IfOk, IfErr, IsSomeAnd, OnOk, Some, None, IfSome, IfNone, option_map, option_to_list, string_bytes};
ghost use Rattle.std.specs.List.{AllZip};
ghost use Rattle.std.specs.List.Sorted.{IsNonDecreasingBy, IsStrictlyIncreasing};
ghost use Rattle.rb_valset.specs.Refusal.{set_refusal};
ghost use Rattle.rb_valset.specs.ValidatorSet.{set_hash, in_set_order};
ghost use Rattle.rb_import_check.specs.Errors.{IsAt, IsBetween, IsIn, IsTold, IsToldBy, IsToldOf};
ghost use Rattle.rb_import_check.specs.Named.{IsOfPage, NamesCommit, NamesFall, NamesOf, NamesOfPages, NamesOtherHeader, NamesSomePages, ShowsHeader, filed_page, filed_pages_at, filed_pages_of};
ghost use Rattle.rb_import_check.specs.Refusals.{AreOfChain, HasReasonOf, HaveTooMany, HaveTwoTotals, RefusesCommit, RefusesPages};
ghost use Rattle.rb_import_check.specs.Verdicts.{AreVerdictsOn, TellsOtherVotes, verdict_list};
ghost use Rattle.rb_import_check.specs.Clients.{Falls};
ghost use Rattle.rb_import_check.specs.Sets.{WasSeen};
ghost use Rattle.rb_import_check.specs.Chains.{AreAllPages, AreOfDifferentHeights, AreOfFiles, Differ, FitsSet, HaveHeaders, HaveSets, HasItsValidators, HasSet, HasValidators, IsAbsentOrOf, IsAmong, IsBare, IsJudged, IsJudgedBy, IsLeftOut, IsOfChain, IsOfItsBlock, TakesSetOf, filed, filed_of, headers_of, pages_at, pages_of, validators_of, without_files};
ghost use Rattle.rb_import_check.specs.Signed.{IsSigned, IsUnsigned};

use crate::error::{CheckErrorName, HeaderHashes, ImportError};
use crate::parts::parted;
use crate::repeat::repeated;
use crate::saved::Saved;
use crate::sets::{SeenSet, SeenSets};
use crate::signed::Signatures;
use crate::verdicts::{VerdictIndex, verdict_on, verdicts_in};
use rb_base::{Height, Moment};
use rb_import_answers::{CommitVerdict, NodeAnswer, Signature, SignedHeader, ValidatorsPage};
use rb_valset::{Known, Validator, ValidatorSet};
use std::alloc::{AllocError, Global};

/// An answer of `/commit`, its file with the SHA-256 of that, and the verdict on it, if there is one.
#[derive(Clone, Copy)]
pub struct Commit<'a> {
    pub file: &'a str,
    pub digest: [u8; 32],
    pub header: &'a SignedHeader,
    pub verdict: Option<&'a CommitVerdict>,
}

/// An answer of `/validators` and its file.
#[derive(Clone, Copy)]
struct Page<'a> {
    file: &'a str,
    page: &'a ValidatorsPage,
}

/// What was seen of a chain: its headers with their commits, and its sets. Of the headers those that more than two thirds
/// of their own set signed; those whose set isn't among the sets, `bare`; and those that too few signed, `unsigned`; each by
/// rising height.
#[derive(Drop)]
pub struct SeenChain<'a> {
    pub commits: Vec<Commit<'a>>,
    pub bare: Vec<Commit<'a>>,
    pub unsigned: Vec<Commit<'a>>,
    pub sets: SeenSets<'a>,
    ghost rising: { IsStrictlyIncreasing (map (λ c. c.header.now.height) commits.items) },
    ghost bare_rising: { IsStrictlyIncreasing (map (λ c. c.header.now.height) bare.items) },
}

impl SeenChain<'_> {
    ghost use Rattle.rb_import_check.specs.Chains.{block_time};

    /// The time of the block at a height, where a header of it was seen, with or without its set.
    #[tactic(auto, using(crate::proofs::Finds::find_in_both))]
    pub fn block_time(&self, height: Height) -> Option<Moment>
        ensures { result ≡ block_time (self.now.commits.items ++ self.now.bare.items) height }
    {
        let commit = match commit_of(self.commits.as_slice(), height) {
            Some(commit) => commit,
            None => commit_of(self.bare.as_slice(), height)?,
        };
        Some(commit.header.time)
    }
}

/// What the answers of a chain tell, by its identifier: each header once, with the verdict on the signatures of its
/// commit, and the set of each height whose validators are all there. A set is that of a header by its hash, whatever
/// height its validators were answered for. Pages that aren't all there make no set, and are no reason to refuse: a header
/// whose set isn't there is left out, `bare`. So is one that no more than two thirds of its own set signed, in votes that
/// count, `unsigned`.
pub fn seen_chain<'a>(
    alloc: Global,
    id: &'a str,
    signatures: Signatures,
    answers: &'a [Saved],
) -> Result<SeenChain<'a>, ImportError<'a>>
    ensures headers { IfOk result (λ chain. HaveHeaders (headers_of answers.entry.now) (chain.commits.items ++ chain.bare.items ++ chain.unsigned.items)) }
    ensures files { IfOk result (λ chain. AreOfFiles (filed_of answers.entry.now) (chain.commits.items ++ chain.bare.items ++ chain.unsigned.items)) }
    ensures heights { OnOk result (AreOfDifferentHeights (headers_of answers.entry.now)) }
    ensures verdicts { IfOk result (λ chain. All (IsJudged answers.entry.now) chain.commits.items) }
    ensures rising { IfOk result (λ chain. IsStrictlyIncreasing (map (λ c. c.header.now.height) chain.commits.items)) }
    ensures chain { IfOk result (λ chain. All (IsOfChain id.entry.now) chain.commits.items) }
    ensures blocks { IfOk result (λ chain. All IsOfItsBlock chain.commits.items) }
    ensures sets { IfOk result (λ chain. All (HasSet chain.sets.sets.items) chain.commits.items) }
    ensures all_sets { IfOk result (λ chain. HaveSets answers.entry.now chain.sets.sets.items) }
    ensures signed { IfOk result (λ chain. All (IsSigned signatures chain.sets.sets.items) chain.commits.items) }
    ensures bare { IfOk result (λ chain. All (IsBare chain.sets.sets.items) chain.bare.items) }
    ensures bare_rising { IfOk result (λ chain. IsStrictlyIncreasing (map (λ c. c.header.now.height) chain.bare.items)) }
    ensures unsigned { IfOk result (λ chain. All (IsUnsigned signatures chain.sets.sets.items) chain.unsigned.items) }
    ensures unsigned_rising { IfOk result (λ chain. IsStrictlyIncreasing (map (λ c. c.header.now.height) chain.unsigned.items)) }
    ensures left_out { IfOk result (λ chain. All (IsLeftOut id.entry.now answers.entry.now) (chain.bare.items ++ chain.unsigned.items)) }
    ensures validators { IfOk result (λ chain. All (HasItsValidators answers.entry.now) chain.commits.items) }
    ensures answers { OnOk result (AreOfChain answers.entry.now) }
    ensures judged { OnOk result (AreVerdictsOn id.entry.now answers.entry.now) }
    ensures reason { IfErr result (HasReasonOf id.entry.now answers.entry.now) }
    ensures named { IfErr result (NamesOf id.entry.now answers.entry.now) }
    ensures told { IfErr result (IsToldOf id.entry.now) }
{
    let commits = commits_of(alloc, id, answers)?;
    judge_chains(id, commits.as_slice())?;
    judge_blocks(id, commits.as_slice())?;
    judge_heights(alloc, id, commits.as_slice())?;
    let sets = sets_of(alloc, id, answers, commits.as_slice())?;
    judge_signatures(id, commits.as_slice(), &sets)?;
    let parts = parted(alloc, signatures, commits.as_slice(), &sets)?;
    Ok(SeenChain {
        commits: parts.commits,
        bare: parts.bare,
        unsigned: parts.unsigned,
        sets,
    })
}

/// The commits by rising height.
#[tactic(auto, using(crate::proofs::Sorting::sorting))]
fn commits_of<'a>(
    alloc: Global,
    id: &'a str,
    answers: &'a [Saved],
) -> Result<Vec<Commit<'a>>, ImportError<'a>>
    ensures headers { IfOk result (λ commits. HaveHeaders (headers_of answers.entry.now) commits.items) }
    ensures order { IfOk result (λ commits. IsNonDecreasingBy (λ c. c.header.now.height) commits.items) }
    ensures files { IfOk result (λ commits. AreOfFiles (filed_of answers.entry.now) commits.items) }
    ensures verdicts { IfOk result (λ commits. All (IsJudged answers.entry.now) commits.items) }
    ensures answers { OnOk result (AreOfChain answers.entry.now) }
    ensures judged { OnOk result (AreVerdictsOn id.entry.now answers.entry.now) }
    ensures reason { IfErr result (HasReasonOf id.entry.now answers.entry.now) }
    ensures named { IfErr result (NamesOf id.entry.now answers.entry.now) }
    ensures told { IfErr result (IsToldOf id.entry.now) }
{
    let mut commits = all_commits(alloc, id, answers)?;
    commits.sort_by_key(|commit: &Commit| commit.header.height)?;
    Ok(commits)
}

/// The commits in the order of the answers.
#[tactic(auto, using(crate::proofs::Sorting::taking))]
fn all_commits<'a>(
    alloc: Global,
    id: &'a str,
    answers: &'a [Saved],
) -> Result<Vec<Commit<'a>>, ImportError<'a>>
    ensures headers { IfOk result (λ commits. map (λ c. c.header.now) commits.items ≡ headers_of answers.entry.now) }
    ensures files { IfOk result (λ commits. map filed commits.items ≡ filed_of answers.entry.now) }
    ensures verdicts { IfOk result (λ commits. All (IsJudged answers.entry.now) commits.items) }
    ensures answers { OnOk result (AreOfChain answers.entry.now) }
    ensures judged { OnOk result (AreVerdictsOn id.entry.now answers.entry.now) }
    ensures reason { IfErr result (HasReasonOf id.entry.now answers.entry.now) }
    ensures named { IfErr result (NamesOf id.entry.now answers.entry.now) }
    ensures told { IfErr result (IsToldOf id.entry.now) }
{
    let verdicts = verdicts_in(id, answers)?;
    let index = VerdictIndex::new(alloc, verdicts)?;
    let mut commits = Vec::new(alloc);
    for saved in answers {
        match &saved.answer {
            NodeAnswer::Commit(header) => {
                let commit = commit_in(id, &index, saved, header)?;
                commits.push(commit)?;
            }
            NodeAnswer::Validators(_) | NodeAnswer::Verdicts(_) | NodeAnswer::Other(_) => {}
            _ => {
                let file = saved.file.as_str();
                return Err(ImportError::in_file(CheckErrorName::WrongFolder, id, file));
            }
        }
    }
    Ok(commits)
}

/// The commit of a header in a file, with the verdict on it.
#[tactic(auto, unfolding(crate::specs::Chains::IsJudgedBy))]
fn commit_in<'a>(
    id: &'a str,
    index: &VerdictIndex<'a>,
    saved: &'a Saved,
    header: &'a SignedHeader,
) -> Result<Commit<'a>, ImportError<'a>>
    ensures header { IfOk result (λ commit. commit.header.now ≡ header.entry.now) }
    ensures digest { IfOk result (λ commit. commit.digest ≡ saved.entry.now.digest) }
    ensures file { IfOk result (λ commit. commit.file.now ≡ string_bytes saved.entry.now.file) }
    ensures verdict { IfOk result (IsJudgedBy (option_to_list (option_map (λ v. v.now) index.now.verdicts))) }
    ensures other { IfErr result (IsTold CheckErrorName.OtherVerdict (TellsOtherVotes (verdict_list (option_to_list (option_map (λ v. v.now) index.now.verdicts))) saved.entry.now.digest (length header.entry.now.signatures.items))) }
    ensures named { IfErr result (λ e. IsAt header.entry.now.height e × IsIn (string_bytes saved.entry.now.file) e) }
    ensures told { IfErr result (IsToldOf id.entry.now) }
{
    let verdict = verdict_on(id, index, saved, header)?;
    Ok(Commit {
        file: saved.file.as_str(),
        digest: saved.digest,
        header,
        verdict,
    })
}

/// Refuses commits of another chain.
fn judge_chains<'a>(id: &'a str, commits: &[Commit<'a>]) -> Result<(), ImportError<'a>>
    ensures chain { OnOk result (All (IsOfChain id.entry.now) commits.now) }
    ensures other { IfErr result (IsTold CheckErrorName.OtherChain (Any (λ c. ¬ IsOfChain id.entry.now c) commits.now)) }
    ensures named { IfErr result (λ e. Any (λ c. NamesOtherHeader id.entry.now (filed c) e) commits.now) }
    ensures told { IfErr result (IsToldOf id.entry.now) }
{
    for commit in commits {
        judge_chain(id, commit)?;
    }
    Ok(())
}

/// Refuses a commit of another chain.
fn judge_chain<'a>(id: &'a str, commit: &Commit<'a>) -> Result<(), ImportError<'a>>
    ensures chain { OnOk result (IsOfChain id.entry.now commit.now) }
    ensures other { IfErr result (IsTold CheckErrorName.OtherChain (¬ IsOfChain id.entry.now commit.now)) }
    ensures named { IfErr result (NamesOtherHeader id.entry.now (filed commit.now)) }
    ensures told { IfErr result (IsToldOf id.entry.now) }
{
    if commit.header.chain.as_str() == id {
        Ok(())
    } else {
        let height = commit.header.height.get();
        let found = commit.header.chain.as_str();
        Err(ImportError::of_other_chain(id, Some(height), commit.file, found))
    }
}

/// Refuses headers whose hash isn't that of the block that their commit is for.
fn judge_blocks<'a>(id: &'a str, commits: &[Commit<'a>]) -> Result<(), ImportError<'a>>
    ensures blocks { OnOk result (All IsOfItsBlock commits.now) }
    ensures other { IfErr result (IsTold CheckErrorName.OtherHeader (Any (λ c. ¬ IsOfItsBlock c) commits.now)) }
    ensures named { IfErr result (λ e. Any (λ c. ShowsHeader (filed c) e) commits.now) }
    ensures told { IfErr result (IsToldOf id.entry.now) }
{
    for commit in commits {
        judge_block(id, commit)?;
    }
    Ok(())
}

/// Refuses a header whose hash isn't that of the block that its commit is for.
fn judge_block<'a>(id: &'a str, commit: &Commit<'a>) -> Result<(), ImportError<'a>>
    ensures block { OnOk result (IsOfItsBlock commit.now) }
    ensures other { IfErr result (IsTold CheckErrorName.OtherHeader (¬ IsOfItsBlock commit.now)) }
    ensures named { IfErr result (ShowsHeader (filed commit.now)) }
    ensures told { IfErr result (IsToldOf id.entry.now) }
{
    let header = commit.header.hash;
    let block = commit.header.block;
    if header == block {
        Ok(())
    } else {
        let height = commit.header.height.get();
        let hashes = HeaderHashes { header, block };
        Err(ImportError::other_header(id, height, commit.file, hashes))
    }
}

/// Refuses two commits of one height.
fn judge_heights<'a>(
    alloc: Global,
    id: &'a str,
    commits: &[Commit<'a>],
) -> Result<(), ImportError<'a>>
    ensures rising { OnOk result (IsStrictlyIncreasing (map (λ c. c.header.now.height) commits.now)) }
    ensures falling { IfErr result (IsTold CheckErrorName.TwoAnswers (Falls (map (λ c. c.header.now.height) commits.now))) }
    ensures named { IfErr result (NamesFall (λ c. c.header.now.height) (λ c. c.file.now) commits.now) }
    ensures told { IfErr result (IsToldOf id.entry.now) }
{
    let heights = heights_of(alloc, commits)?;
    match repeated(heights.as_slice()) {
        Some(place) => Err(two_commits(id, &commits[place], &commits[place + 1])),
        None => Ok(()),
    }
}

/// The heights of commits.
pub(crate) fn heights_of(alloc: Global, commits: &[Commit]) -> Result<Vec<Height>, AllocError>
    ensures { IfOk result (λ heights. heights.items ≡ map (λ c. c.header.now.height) commits.now) }
{
    commits
        .iter()
        .map(|commit| commit.header.height)
        .collect(alloc)
}

fn two_commits<'a>(id: &'a str, commit: &Commit<'a>, other: &Commit<'a>) -> ImportError<'a>
    ensures name { IsTold CheckErrorName.TwoAnswers ⊤ result }
    ensures files { IsBetween commit.now.file.now other.now.file.now result }
    ensures height { IsAt commit.now.header.now.height result }
    ensures told { IsToldOf id.entry.now result }
{
    let height = commit.header.height.get();
    ImportError::between(
        CheckErrorName::TwoAnswers,
        id,
        height,
        commit.file,
        other.file,
    )
}

/// The pages of validators by rising height, those of one height in the order of the answers.
fn pages_of<'a>(alloc: Global, answers: &'a [Saved]) -> Result<Vec<Page<'a>>, AllocError>
    ensures order { IfOk result (λ pages. IsNonDecreasingBy (λ p. p.page.now.height) pages.items) }
    ensures same { IfOk result (λ pages. (height : ℕ) → without_files (filter (λ p. p.page.now.height == height) pages.items) ≡ pages_at answers.entry.now height) }
    ensures files { IfOk result (λ pages. (height : ℕ) → map filed_page (filter (λ p. p.page.now.height == height) pages.items) ≡ filed_pages_at answers.entry.now height) }
{
    let mut pages = all_pages(alloc, answers)?;
    pages.sort_by_key(|page: &Page| page.page.height)?;
    Ok(pages)
}

/// The pages of validators in the order of the answers.
#[tactic(auto, using(crate::proofs::Sorting::taking))]
fn all_pages<'a>(alloc: Global, answers: &'a [Saved]) -> Result<Vec<Page<'a>>, AllocError>
    ensures pages { IfOk result (λ pages. without_files pages.items ≡ pages_of answers.entry.now) }
    ensures files { IfOk result (λ pages. map filed_page pages.items ≡ filed_pages_of answers.entry.now) }
{
    let mut pages = Vec::new(alloc);
    for saved in answers {
        if let NodeAnswer::Validators(page) = &saved.answer {
            let file = saved.file.as_str();
            pages.push(Page { file, page })?;
        }
    }
    Ok(pages)
}

/// The commit of a height, if there is one, among commits that stand by rising height.
fn commit_of<'a>(commits: &[Commit<'a>], height: Height) -> Option<Commit<'a>>
    requires { IsStrictlyIncreasing (map (λ c. c.header.now.height) commits.now) }
    ensures found { IfSome result (IsAmong commits.now height) }
    ensures only { All (λ c. c.header.now.height ≡ height → result ≡ Some c) commits.now }
    ensures first { result ≡ find (λ c. c.header.now.height == height) commits.now }
{
    let place = commits
        .binary_search_by_key(&height, |commit: &Commit| commit.header.height)
        .ok()?;
    commits.get(place).copied()
}

/// Of pages that stand by rising height those of this one.
fn of_height<'a, 'b>(pages: &'b [Page<'a>], height: Height) -> &'b [Page<'a>]
    requires { IsNonDecreasingBy (λ p. p.page.now.height) pages.now }
    ensures { result.now ≡ filter (λ p. p.page.now.height == height) pages.now }
{
    let start = pages.partition_point(|page: &Page| page.page.height < height);
    let (_, rest) = pages.split_at(start);
    let count = rest.partition_point(|page: &Page| page.page.height <= height);
    let (same, _) = rest.split_at(count);
    same
}

/// The sets that the pages of validators tell of.
fn sets_of<'a>(
    alloc: Global,
    id: &'a str,
    answers: &'a [Saved],
    commits: &[Commit<'a>],
) -> Result<SeenSets<'a>, ImportError<'a>>
    requires { IsStrictlyIncreasing (map (λ c. c.header.now.height) commits.now) }
    ensures sets { IfOk result (λ sets. HaveSets answers.entry.now sets.sets.items) }
    ensures validators { OnOk result (All (HasItsValidators answers.entry.now) commits.now) }
    ensures reason { IfErr result (IsToldBy (λ name. (height : ℕ) × RefusesPages name (map (λ c. c.header.now) commits.now) height (pages_at answers.entry.now height))) }
    ensures named { IfErr result (NamesSomePages (map filed commits.now) answers.entry.now) }
    ensures told { IfErr result (IsToldOf id.entry.now) }
{
    let pages = pages_of(alloc, answers)?;
    let mut known = Known::new(alloc);
    let mut sets = SeenSets::new(alloc);
    let mut last = None;
    for page in &pages {
        let height = page.page.height;
        if last != Some(height) {
            let same = of_height(pages.as_slice(), height);
            add_set(alloc, id, height, same, commits, &mut known, &mut sets)?;
            last = Some(height);
        }
    }
    Ok(sets)
}

/// Adds the set of the pages of one height, where they are all there. It has to be that of the height's header, where there
/// is one.
fn add_set<'a>(
    alloc: Global,
    id: &'a str,
    height: Height,
    pages: &[Page<'a>],
    commits: &[Commit<'a>],
    known: &mut Known,
    sets: &mut SeenSets<'a>,
) -> Result<(), ImportError<'a>>
    requires { IsStrictlyIncreasing (map (λ c. c.header.now.height) commits.now) }
    ensures kept { OnOk result ((hash : List ℕ) → WasSeen sets.old.sets.items hash → WasSeen sets.new.sets.items hash) }
    ensures sets { OnOk result (TakesSetOf (without_files pages.now) sets.old.sets.items sets.new.sets.items) }
    ensures seen { OnOk result (AreAllPages (without_files pages.now) → WasSeen sets.new.sets.items (set_hash (in_set_order (validators_of (without_files pages.now))))) }
    ensures validators { OnOk result (0 < length pages.now → All (HasValidators (without_files pages.now) height) commits.now) }
    ensures reason { IfErr result (IsToldBy (λ name. RefusesPages name (map (λ c. c.header.now) commits.now) height (without_files pages.now))) }
    ensures named { IfErr result (NamesOfPages height (map filed commits.now) (map filed_page pages.now)) }
    ensures told { IfErr result (IsToldOf id.entry.now) }
{
    let Some(first) = pages.first() else {
        return Ok(());
    };
    let members = members_of(alloc, id, pages)?;
    if (members.len() as u64) < first.page.total {
        return Ok(());
    }
    let set = set_of(alloc, id, first, members, known)?;
    judge_set(id, first, commit_of(commits, height), &set)?;
    sets.add(SeenSet {
        file: first.file,
        set,
    })?;
    Ok(())
}

/// The validators of pages of one height, at most as many as each of them tells.
fn members_of<'a>(
    alloc: Global,
    id: &'a str,
    pages: &[Page<'a>],
) -> Result<Vec<Validator>, ImportError<'a>>
    ensures members { IfOk result (λ members. members.items ≡ validators_of (without_files pages.now)) }
    ensures total { OnOk result ((total : ℕ) × All (λ p. p.page.now.total ≡ total) pages.now) }
    ensures few { IfOk result (λ members. All (λ p. length members.items ≤ p.page.now.total) pages.now) }
    ensures reason { IfErr result (λ e. IsTold CheckErrorName.OtherTotal (HaveTwoTotals (without_files pages.now)) e ⊎ IsTold CheckErrorName.TooManyValidators (HaveTooMany (without_files pages.now)) e) }
    ensures named { IfErr result (NamesOfPages 0 [] (map filed_page pages.now)) }
    ensures told { IfErr result (IsToldOf id.entry.now) }
{
    let mut members = Vec::new(alloc);
    let mut before: Option<Page<'a>> = None;
    for page in pages {
        judge_total(id, before, page)?;
        members.extend_from_slice(page.page.validators.as_slice())?;
        if members.len() as u64 > page.page.total {
            let lower = before.unwrap_or(*page);
            return Err(two_pages(CheckErrorName::TooManyValidators, id, &lower, page));
        }
        before = Some(*page);
    }
    Ok(members)
}

/// Refuses a page that tells another total than the one before it.
fn judge_total<'a>(
    id: &'a str,
    before: Option<Page<'a>>,
    page: &Page<'a>,
) -> Result<(), ImportError<'a>>
    ensures total { OnOk result (IfSome before.entry (λ lower. lower.page.now.total ≡ page.now.page.now.total)) }
    ensures other { IfErr result (IsTold CheckErrorName.OtherTotal (IsSomeAnd before.entry (λ lower. lower.page.now.total ≢ page.now.page.now.total))) }
    ensures files { IfErr result (λ e. IsSomeAnd before.entry (λ lower. IsAt lower.page.now.height e × IsBetween lower.file.now page.now.file.now e)) }
    ensures told { IfErr result (IsToldOf id.entry.now) }
{
    match before {
        Some(lower) if lower.page.total != page.page.total => {
            Err(two_pages(CheckErrorName::OtherTotal, id, &lower, page))
        }
        _ => Ok(()),
    }
}

fn two_pages<'a>(
    name: CheckErrorName,
    id: &'a str,
    page: &Page<'a>,
    other: &Page<'a>,
) -> ImportError<'a>
    ensures name { IsTold name ⊤ result }
    ensures files { IsBetween page.now.file.now other.now.file.now result }
    ensures height { IsAt page.now.page.now.height result }
    ensures told { IsToldOf id.entry.now result }
{
    ImportError::between(name, id, page.page.height.get(), page.file, other.file)
}

fn set_of<'a>(
    alloc: Global,
    id: &'a str,
    page: &Page<'a>,
    members: Vec<Validator>,
    known: &mut Known,
) -> Result<ValidatorSet, ImportError<'a>>
    ensures set { IfOk result (λ set. set ≡ in_set_order members.items) }
    ensures refused { IfErr result (IsTold CheckErrorName.BadSet (IsSome (set_refusal members.items))) }
    ensures file { IfErr result (IsOfPage page.now) }
    ensures told { IfErr result (IsToldOf id.entry.now) }
{
    known.make_room(alloc, members.len())?;
    match ValidatorSet::new_by(alloc, members, known) {
        Ok(set) => Ok(set),
        Err(rb_valset::ValsetError::NoMemory) => Err(ImportError::NoMemory),
        Err(_) => {
            let height = page.page.height.get();
            Err(ImportError::at(CheckErrorName::BadSet, id, height, page.file))
        }
    }
}

/// Refuses a set that isn't that of the commit at its height.
fn judge_set<'a>(
    id: &'a str,
    page: &Page<'a>,
    commit: Option<Commit<'a>>,
    set: &ValidatorSet,
) -> Result<(), ImportError<'a>>
    ensures set { OnOk result (IfSome commit.entry (λ c. c.header.now.set ≡ set_hash set.now)) }
    ensures other { IfErr result (IsTold CheckErrorName.OtherSet (IsSomeAnd commit.entry (λ c. c.header.now.set ≢ set_hash set.now))) }
    ensures files { IfErr result (λ e. IsSomeAnd commit.entry (λ c. IsAt page.now.page.now.height e × IsBetween c.file.now page.now.file.now e)) }
    ensures told { IfErr result (IsToldOf id.entry.now) }
{
    match commit {
        Some(commit) if commit.header.set != *set.hash() => Err(ImportError::between(
            CheckErrorName::OtherSet,
            id,
            page.page.height.get(),
            commit.file,
            page.file,
        )),
        _ => Ok(()),
    }
}

/// Refuses a header whose set was seen and doesn't fit its signatures.
fn judge_signatures<'a>(
    id: &'a str,
    commits: &[Commit<'a>],
    sets: &SeenSets<'a>,
) -> Result<(), ImportError<'a>>
    ensures sets { OnOk result (All (FitsSet sets.now.sets.items) commits.now) }
    ensures reason { IfErr result (IsToldBy (λ name. Any (RefusesCommit name sets.now.sets.items) commits.now)) }
    ensures named { IfErr result (λ e. Any (λ c. NamesCommit sets.now.sets.items c e) commits.now) }
    ensures told { IfErr result (IsToldOf id.entry.now) }
{
    for commit in commits {
        judge_commit(id, commit, sets)?;
    }
    Ok(())
}

/// Refuses a header whose set was seen, and which has not one signature for each of its members.
#[tactic(auto, unfolding(crate::specs::Chains::HasSet))]
fn judge_commit<'a>(
    id: &'a str,
    commit: &Commit<'a>,
    sets: &SeenSets<'a>,
) -> Result<(), ImportError<'a>>
    ensures set { OnOk result (FitsSet sets.now.sets.items commit.now) }
    ensures reason { IfErr result (IsToldBy (λ name. RefusesCommit name sets.now.sets.items commit.now)) }
    ensures named { IfErr result (NamesCommit sets.now.sets.items commit.now) }
    ensures told { IfErr result (IsToldOf id.entry.now) }
{
    let Some(seen) = sets.with_hash(&commit.header.set) else {
        return Ok(());
    };
    let height = commit.header.height.get();
    match discord(commit.header.signatures.as_slice(), &seen.set) {
        Some(name) => Err(ImportError::between(name, id, height, commit.file, seen.file)),
        None => Ok(()),
    }
}

/// How signatures don't fit a set, if they don't: there is one for each member, in set order, and
/// each that isn't absent has its member's address.
fn discord(signatures: &[Signature], set: &ValidatorSet) -> Option<CheckErrorName>
    ensures fit { IfNone result (AllZip IsAbsentOrOf signatures.now set.now) }
    ensures discord { IfSome result (λ name. Differ name signatures.now set.now) }
{
    if signatures.len() != set.size() {
        return Some(CheckErrorName::SignatureCount);
    }
    for (place, member) in set.members().iter().enumerate() {
        if !is_signer(&signatures[place], member) {
            return Some(CheckErrorName::OtherSigner);
        }
    }
    None
}

/// Whether a signature is absent or this member's.
#[tactic(auto, unfolding(crate::specs::Chains::IsAbsentOrOf))]
fn is_signer(signature: &Signature, member: &Validator) -> bool
    ensures { IsTrue result ↔ IsAbsentOrOf signature.now member.now }
{
    match signature.address {
        Some(address) => address == *member.address(),
        None => true,
    }
}
