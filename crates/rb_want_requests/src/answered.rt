//! Which requests the contents of folders answer.
ghost use Rattle.std.specs.Prelude.{◌≡◌, count_by, find};
ghost use Rattle.std.specs.List.{list_any};
ghost use Rattle.std.specs.Option.{option_copied};
ghost use Rattle.rb_want_requests.specs.Answered.{has_all, has_part, is_acknowledgements, is_answered, is_commit_of, is_commitments, is_last, is_last_to, is_number, is_page_of, is_part, is_part_of, is_part_to, is_state, is_states, is_status, is_unreceived, is_up_to, next_part, number_in};

use crate::content::Content;
use crate::request::Query;
use rb_base::Height;

/// A kind of answers of which there can be several: pages, or parts that were asked for one by one.
#[derive(Clone, Copy)]
pub enum PartKind {
    /// The pages of the validators of a height.
    Validators(Height),
    ConsensusStates,
    Commitments,
    Unreceived,
    Acknowledgements,
}

/// Whether these contents answer a query. Searches are told apart by the names of their files.
pub fn is_answered(contents: &[Content], query: &Query) -> bool
    ensures { result ≡ is_answered contents.now query.now }
{
    match *query {
        Query::ClientState => has_state(contents),
        Query::ConsensusStates { page } => has_part(contents, &PartKind::ConsensusStates, page),
        Query::Status => has_status(contents),
        Query::Commit(height) => has_commit(contents, height),
        Query::Validators { height, page, .. } => {
            has_part(contents, &PartKind::Validators(height), page)
        }
        Query::Commitments { page } => has_part(contents, &PartKind::Commitments, page),
        Query::Unreceived { part } => has_part(contents, &PartKind::Unreceived, part),
        Query::Acknowledgements { part } => has_part(contents, &PartKind::Acknowledgements, part),
        Query::Sent(_) | Query::Received(_) | Query::AckWritten(_) => false,
    }
}

/// Whether the state of a client is there.
fn has_state(contents: &[Content]) -> bool
    ensures { result ≡ list_any is_state contents.now }
{
    contents.iter().any(|content| is_state(content))
}

/// Whether the node's status is there.
fn has_status(contents: &[Content]) -> bool
    ensures { result ≡ list_any is_status contents.now }
{
    contents.iter().any(|content| is_status(content))
}

/// Whether the header of a height is there.
fn has_commit(contents: &[Content], height: Height) -> bool
    ensures { result ≡ list_any (is_commit_of height) contents.now }
{
    contents.iter().any(|content| is_commit_of(content, height))
}

/// Whether the part of a kind with a number, from 1, is there: in a file whose name has the number, or by as many parts as the
/// number says, none of them later. One in a file of another name may be any.
#[tactic(auto, unfolding(crate::specs::Answered::has_part))]
fn has_part(contents: &[Content], kind: &PartKind, number: u64) -> bool
    ensures { result ≡ has_part kind.now number contents.now }
{
    has_numbered(contents, kind, number) || number <= count_to(contents, kind, number)
}

/// Whether the part of a kind with a number is there in a file whose name has the number.
fn has_numbered(contents: &[Content], kind: &PartKind, number: u64) -> bool
    ensures { result ≡ list_any (is_part kind.now number) contents.now }
{
    contents
        .iter()
        .any(|content| is_part(content, kind, number))
}

/// How many parts of a kind are there that aren't later than this number.
fn count_to(contents: &[Content], kind: &PartKind, number: u64) -> u64
    ensures { result ≡ count_by (is_part_to kind.now number) contents.now }
{
    contents
        .iter()
        .filter(|content| is_part_to(content, kind, number))
        .count() as u64
}

/// The least number, from 1, whose part of a kind isn't there.
#[tactic(auto, using(crate::proofs::Firsts::firsts))]
pub fn next_part(contents: &[Content], kind: &PartKind) -> u64
    ensures { result ≡ next_part kind.now contents.now }
{
    let count = contents.len() as u64;
    for before in 0..count {
        let number = before + 1;
        if !has_part(contents, kind, number) {
            return number;
        }
    }
    count + 1
}

/// Whether all pages of a kind are there: the last one, and each before it.
#[tactic(auto, unfolding(crate::specs::Answered::has_all))]
pub fn has_all(contents: &[Content], kind: &PartKind) -> bool
    ensures { result ≡ has_all kind.now contents.now }
{
    let next = next_part(contents, kind);
    contents
        .iter()
        .any(|content| is_last_to(content, kind, next))
}

/// The first part of a kind: in a file whose name has the number 1, or else any in a file of another name.
pub fn first_part<'a>(contents: &'a [Content], kind: &PartKind) -> Option<&'a Content>
    ensures { option_copied result ≡ find (is_part_to kind.now 1) contents.entry.now }
{
    contents.iter().find(|content| is_part_to(content, kind, 1))
}

/// Whether a content is the part of a kind with a number by its file's name.
pub fn is_part(content: &Content, kind: &PartKind, number: u64) -> bool
    ensures { result ≡ is_part kind.now number content.now }
{
    is_part_of(content, kind) && is_number(number_in(content), number)
}

/// Whether a content is a part of a kind that isn't later than this number by its file's name.
fn is_part_to(content: &Content, kind: &PartKind, number: u64) -> bool
    ensures { result ≡ is_part_to kind.now number content.now }
{
    is_part_of(content, kind) && is_up_to(number_in(content), number)
}

/// Whether a content is the last page of a kind, and isn't later than this number by its file's name.
fn is_last_to(content: &Content, kind: &PartKind, number: u64) -> bool
    ensures { result ≡ is_last_to kind.now number content.now }
{
    is_last(content) && is_part_to(content, kind, number)
}

/// Whether a part has this number.
fn is_number(number: Option<u64>, wanted: u64) -> bool
    ensures { result ≡ is_number wanted number }
{
    match number {
        Some(number) => number == wanted,
        None => false,
    }
}

/// Whether a part's number isn't above this one, or its file's name has none.
fn is_up_to(number: Option<u64>, most: u64) -> bool
    ensures { result ≡ is_up_to most number }
{
    match number {
        Some(number) => number <= most,
        None => true,
    }
}

/// The number of a page or part, as its file's name has it.
pub fn number_in(content: &Content) -> Option<u64>
    ensures { result ≡ number_in content.now }
{
    match content {
        Content::Validators { number, .. }
        | Content::ConsensusStates { number, .. }
        | Content::Commitments { number, .. }
        | Content::Unreceived { number, .. }
        | Content::Acknowledgements { number, .. } => *number,
        _ => None,
    }
}

/// Whether a content is the last page of consensus states or of commitments.
fn is_last(content: &Content) -> bool
    ensures { result ≡ is_last content.now }
{
    match content {
        Content::ConsensusStates { page, .. } => page.is_last,
        Content::Commitments { page, .. } => page.is_last,
        _ => false,
    }
}

/// Whether a content is an answer of a kind.
pub fn is_part_of(content: &Content, kind: &PartKind) -> bool
    ensures { result ≡ is_part_of kind.now content.now }
{
    match *kind {
        PartKind::Validators(height) => is_page_of(content, height),
        PartKind::ConsensusStates => is_states(content),
        PartKind::Commitments => is_commitments(content),
        PartKind::Unreceived => is_unreceived(content),
        PartKind::Acknowledgements => is_acknowledgements(content),
    }
}

fn is_commitments(content: &Content) -> bool
    ensures { result ≡ is_commitments content.now }
{
    matches!(content, Content::Commitments { .. })
}

fn is_unreceived(content: &Content) -> bool
    ensures { result ≡ is_unreceived content.now }
{
    matches!(content, Content::Unreceived { .. })
}

fn is_acknowledgements(content: &Content) -> bool
    ensures { result ≡ is_acknowledgements content.now }
{
    matches!(content, Content::Acknowledgements { .. })
}

fn is_state(content: &Content) -> bool
    ensures { result ≡ is_state content.now }
{
    matches!(content, Content::ClientState(_))
}

fn is_states(content: &Content) -> bool
    ensures { result ≡ is_states content.now }
{
    matches!(content, Content::ConsensusStates { .. })
}

fn is_status(content: &Content) -> bool
    ensures { result ≡ is_status content.now }
{
    matches!(content, Content::Status(_))
}

/// Whether a content is the header of a height.
fn is_commit_of(content: &Content, height: Height) -> bool
    ensures { result ≡ is_commit_of height content.now }
{
    match content {
        Content::Commit(header) => header.height == height,
        _ => false,
    }
}

/// Whether a content is a page of the validators of a height.
fn is_page_of(content: &Content, height: Height) -> bool
    ensures { result ≡ is_page_of height content.now }
{
    match content {
        Content::Validators { page, .. } => page.height == height,
        _ => false,
    }
}
