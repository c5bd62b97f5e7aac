//! The answers of a chain that judge steps.
ghost use Rattle.std.specs.Prelude.{◌≡◌, ◌==◌, ◌↔◌, ◌⊎◌, ℕ, false, List, IfNone, IfOk, IfSome, IsSome, IsTrue, OnOk, filter, map, min, not, ◌-◌, ◌^◌};
ghost use Rattle.std.specs.List.{filter_map, list_all, list_any};
ghost use Rattle.std.specs.List.Sorted.{IsNonDecreasingBy};
ghost use Rattle.std.specs.Option.{option_copied, option_to_list};
ghost use Rattle.rb_import_check.specs.Chains.{validators_of};
ghost use Rattle.rb_import_check.specs.Sets.{WasSeen};
ghost use Rattle.rb_valset.specs.ValidatorSet.{set_hash};
ghost use Rattle.rb_want_requests.specs.Answered.{is_commit_of};
ghost use Rattle.rb_want_requests.specs.Requests.{is_named};
ghost use Rattle.rb_want.specs.Clients.{AreSetsThere, IsHeaderAt, IsSetThere, MakeSet, MayMake, first_page, later_status, members_at, next_page, page_at, page_in, pages_at, status_in};

use rb_base::Height;
use rb_import_answers::{NodeStatus, SignedHeader, ValidatorsPage};
use rb_import_check::{SeenSet, SeenSets};
use rb_valset::{Validator, ValidatorSet, ValsetError};
use rb_want_requests::{Content, Folder, PartKind, Query, first_part, is_named, next_part};
use std::alloc::{AllocError, Global};

/// How many validators are asked for on a page, the most that nodes give.
const VALIDATORS_A_PAGE: u64 = 100;

/// The folder of a chain: its contents, the node's status, and the sets with all of their pages.
#[derive(Drop)]
pub struct ChainAnswers<'a> {
    pub folder: &'a Folder,
    pub status: Option<NodeStatus>,
    sets: SeenSets<'a>,
    ghost told: { status ≡ status_in folder.now.contents.items },
    ghost made: { AreSetsThere folder.now.contents.items sets.sets.items },
}

impl<'a> ChainAnswers<'a> {
    /// The answers in the folder of a chain.
    pub fn of(alloc: Global, folder: &'a Folder) -> Result<ChainAnswers<'a>, AllocError>
        ensures folder { IfOk result (λ answers. answers.folder.now ≡ folder.entry.now) }
    {
        let contents = folder.contents.as_slice();
        Ok(ChainAnswers {
            folder,
            status: status_in(contents),
            sets: sets_in(alloc, contents)?,
        })
    }

    /// The header of a height, where it is there.
    pub fn header_at(&self, height: Height) -> Option<&'a SignedHeader>
        ensures found { IfSome result (λ header. IsHeaderAt self.now.folder.now.contents.items height header.now) }
        ensures none { IfNone result (list_any (is_commit_of height) self.now.folder.now.contents.items ≡ false) }
    {
        header_in(self.folder.contents.as_slice(), height)
    }

    /// The set of this hash, where it is there.
    pub fn set_with(&self, hash: &[u8; 32]) -> Option<&ValidatorSet>
        ensures found { IsSome result ↔ IsSetThere self.now.folder.now.contents.items hash.now }
        ensures hash { IfSome result (λ set. set_hash set.now ≡ hash.now) }
    {
        match self.sets.with_hash(hash) {
            Some(seen) => Some(&seen.set),
            None => None,
        }
    }

    /// Whether the set of this hash is there.
    pub fn has_set(&self, hash: &[u8; 32]) -> bool
        ensures { IsTrue result ↔ IsSetThere self.now.folder.now.contents.items hash.now }
    {
        self.set_with(hash).is_some()
    }

    /// The next page of the validators of a height, which is the least that isn't there; none where all are there.
    #[tactic(auto, unfolding(crate::specs::Clients::next_page))]
    pub fn next_page_at(&self, height: Height) -> Option<Query>
        ensures { option_to_list result ≡ next_page height self.now.folder.now.contents.items }
    {
        let contents = self.folder.contents.as_slice();
        let Some(first) = first_page(contents, height) else {
            return Some(Query::Validators {
                height,
                page: 1,
                size: VALIDATORS_A_PAGE,
            });
        };
        let size = first.validators.len() as u64;
        if size == 0 || count_members(contents, height) >= first.total {
            return None;
        }
        let page = next_part(contents, &PartKind::Validators(height));
        Some(Query::Validators { height, page, size })
    }

    /// Whether a query may still be answered: it wasn't refused.
    pub fn is_open(&self, alloc: Global, query: Query) -> Result<bool, AllocError>
        ensures { IfOk result (λ answer. answer ≡ not (is_named self.now.folder.now.refused.items query)) }
    {
        let is_refused = is_named(alloc, self.folder.refused.as_slice(), &query)?;
        Ok(!is_refused)
    }
}

/// The node's status; the last of several.
#[tactic(auto, using(crate::proofs::Taking::taking))]
fn status_in(contents: &[Content]) -> Option<NodeStatus>
    ensures { result ≡ status_in contents.now }
{
    let mut last = None;
    for content in contents {
        last = later_status(last, content);
    }
    last
}

/// The node's status, if the content is one, else the earlier status.
fn later_status(before: Option<NodeStatus>, content: &Content) -> Option<NodeStatus>
    ensures { result ≡ later_status before content.now }
{
    match content {
        Content::Status(status) => Some(*status),
        _ => before,
    }
}

/// The header of a height.
fn header_in(contents: &[Content], height: Height) -> Option<&SignedHeader>
    ensures found { IfSome result (λ header. IsHeaderAt contents.now height header.now) }
    ensures none { IfNone result (list_any (is_commit_of height) contents.now ≡ false) }
{
    for content in contents {
        if let Content::Commit(header) = content {
            if header.height == height {
                return Some(header);
            }
        }
    }
    None
}

/// The first page of the validators of a height.
fn first_page(contents: &[Content], height: Height) -> Option<&ValidatorsPage>
    ensures { option_copied result ≡ first_page height contents.now }
{
    page_in(first_part(contents, &PartKind::Validators(height))?)
}

/// The page, if a content is one of the validators of a height.
fn page_at(content: &Content, height: Height) -> Option<&ValidatorsPage>
    ensures { option_copied result ≡ page_at height content.now }
{
    match page_in(content) {
        Some(page) if page.height == height => Some(page),
        _ => None,
    }
}

/// The page, if a content is one of validators.
fn page_in(content: &Content) -> Option<&ValidatorsPage>
    ensures { option_copied result ≡ page_in content.now }
{
    match content {
        Content::Validators { page, .. } => Some(page),
        _ => None,
    }
}

/// How many validators are on the pages of a height.
#[tactic(auto, using(crate::proofs::Pages::paging))]
fn count_members(contents: &[Content], height: Height) -> u64
    ensures { result ≡ min (members_at height contents.now) (2 ^ 64 - 1) }
{
    let mut members: u64 = 0;
    for content in contents {
        if let Some(page) = page_at(content, height) {
            members = members.saturating_add(page.validators.len() as u64);
        }
    }
    members
}

/// The pages of validators by rising height, those of one height in the order of the contents.
fn pages_in<'a>(
    alloc: Global,
    contents: &'a [Content],
) -> Result<Vec<&'a ValidatorsPage>, AllocError>
    ensures order { IfOk result (λ pages. IsNonDecreasingBy (λ p. p.now.height) pages.items) }
    ensures same { IfOk result (λ pages. (height : ℕ) → map (λ p. p.now) (filter (λ p. p.now.height == height) pages.items) ≡ pages_at height contents.entry.now) }
{
    let mut pages = all_pages(alloc, contents)?;
    pages.sort_by_key(|page: &&ValidatorsPage| page.height)?;
    Ok(pages)
}

/// The pages of validators in the order of the contents.
#[tactic(auto, using(crate::proofs::Sets::gathering))]
fn all_pages<'a>(
    alloc: Global,
    contents: &'a [Content],
) -> Result<Vec<&'a ValidatorsPage>, AllocError>
    ensures { IfOk result (λ pages. map (λ p. p.now) pages.items ≡ filter_map page_in contents.entry.now) }
{
    let mut pages = Vec::new(alloc);
    for content in contents {
        if let Some(page) = page_in(content) {
            pages.push(page)?;
        }
    }
    Ok(pages)
}

/// The sets of the heights all of whose pages are there.
fn sets_in<'a>(alloc: Global, contents: &'a [Content]) -> Result<SeenSets<'a>, AllocError>
    ensures { IfOk result (λ sets. AreSetsThere contents.entry.now sets.sets.items) }
{
    let pages = pages_in(alloc, contents)?;
    let mut sets = SeenSets::new(alloc);
    let mut last = None;
    for page in &pages {
        let height = page.height;
        if last != Some(height) {
            let same = of_height(pages.as_slice(), height);
            add_set(alloc, same, &mut sets)?;
            last = Some(height);
        }
    }
    Ok(sets)
}

/// Of pages that stand by rising height those of this one.
fn of_height<'a, 'b>(pages: &'b [&'a ValidatorsPage], height: Height) -> &'b [&'a ValidatorsPage]
    requires { IsNonDecreasingBy (λ p. p.now.height) pages.now }
    ensures { result.now ≡ filter (λ p. p.now.height == height) pages.now }
{
    let start = pages.partition_point(|page: &&ValidatorsPage| page.height < height);
    let (_, rest) = pages.split_at(start);
    let count = rest.partition_point(|page: &&ValidatorsPage| page.height <= height);
    let (same, _) = rest.split_at(count);
    same
}

/// Adds the set of the pages of one height, if they are all there and make one.
fn add_set<'a>(
    alloc: Global,
    same: &[&'a ValidatorsPage],
    sets: &mut SeenSets<'a>,
) -> Result<(), AllocError>
    ensures stays { OnOk result ((hash : List ℕ) → WasSeen sets.old.sets.items hash → WasSeen sets.new.sets.items hash) }
    ensures added { OnOk result ((hash : List ℕ) → MakeSet (map (λ p. p.now) same.now) hash → WasSeen sets.new.sets.items hash) }
    ensures only { OnOk result ((hash : List ℕ) → WasSeen sets.new.sets.items hash → WasSeen sets.old.sets.items hash ⊎ MakeSet (map (λ p. p.now) same.now) hash) }
{
    let members = members_of(alloc, same)?;
    if same.is_empty() || !say_total(same, members.len() as u64) {
        return Ok(());
    }
    match set_of(alloc, members)? {
        Some(set) => sets.add(SeenSet { file: "", set }),
        None => Ok(()),
    }
}

/// The set of these validators, if they make one.
fn set_of(alloc: Global, members: Vec<Validator>) -> Result<Option<ValidatorSet>, AllocError>
    ensures { IfOk result (MayMake members.items) }
{
    match ValidatorSet::new(alloc, members) {
        Ok(set) => Ok(Some(set)),
        Err(ValsetError::NoMemory) => Err(AllocError),
        Err(_) => Ok(None),
    }
}

/// The validators on these pages, in their order.
fn members_of(alloc: Global, pages: &[&ValidatorsPage]) -> Result<Vec<Validator>, AllocError>
    ensures { IfOk result (λ members. members.items ≡ validators_of (map (λ p. p.now) pages.now)) }
{
    let mut members = Vec::new(alloc);
    for page in pages {
        members.extend_from_slice(page.validators.as_slice())?;
    }
    Ok(members)
}

/// Whether each of these pages says that there are so many validators.
fn say_total(pages: &[&ValidatorsPage], count: u64) -> bool
    ensures { result ≡ list_all (λ p. p.now.total == count) pages.now }
{
    pages
        .iter()
        .all(|page: &&ValidatorsPage| page.total == count)
}
