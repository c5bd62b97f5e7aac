//! Notices of clients of whose consensus states a page is lost.
ghost use Rattle.std.specs.Prelude.{◌≡◌, ◌<◌, IfOk, max, option_map};
ghost use Rattle.std.specs.List.{reduce};
ghost use Rattle.rb_import_notices.specs.Pages.{at_last, count_pages, first_lacking, is_lacking, is_later_there, is_of_states, is_page, is_there, lost_page, missing_states, page_named, page_of, pages_of, stem_of};

use crate::notice::Notice;
use rb_import_answers::NodeAnswer;
use rb_import_check::{Saved, SavedAnswers};
use rb_import_json::number_of;
use rb_import_merge::answers_at;
use std::alloc::{AllocError, Global};

/// The client at a place, where a page of its consensus states is lost.
pub fn missing_states(
    alloc: Global,
    answers: &SavedAnswers,
    client: usize,
) -> Result<Option<Notice>, AllocError>
    ensures { IfOk result (λ due. due ≡ missing_states answers.now client) }
{
    let page = lost_page(alloc, answers_at(&answers.clients, client))?;
    Ok(page.map(|page| Notice::MissingStates { client, page }))
}

/// The first page that is lost.
fn lost_page(alloc: Global, saved: &[Saved]) -> Result<Option<u64>, AllocError>
    ensures { IfOk result (λ page. page ≡ lost_page saved.now) }
{
    let pages = pages_of(alloc, saved)?;
    Ok(first_lacking(pages.as_slice(), count_pages(saved)))
}

/// The first page that isn't among these, while a later one is, whose number is above this count.
fn first_lacking(pages: &[u64], count: u64) -> Option<u64>
    ensures { result ≡ first_lacking pages.now count }
{
    let highest = greatest_of(pages)?;
    (1..highest).find(|&page| is_lacking(pages, count, page))
}

/// The greatest of these numbers.
fn greatest_of(pages: &[u64]) -> Option<u64>
    ensures { result ≡ reduce max pages.now }
{
    pages.iter().copied().max()
}

/// Whether a page isn't among these, and a later one is, whose number is above this count.
#[tactic(auto, unfolding(crate::specs::Pages::is_lacking))]
fn is_lacking(pages: &[u64], count: u64, page: u64) -> bool
    ensures { result ≡ is_lacking pages.now count page }
{
    !is_there(pages, page) && is_later_there(pages, count, page)
}

#[tactic(auto, unfolding(crate::specs::Pages::is_later_there))]
fn is_later_there(pages: &[u64], count: u64, page: u64) -> bool
    ensures { result ≡ is_later_there pages.now count page }
{
    pages.iter().any(|&later| page < later && count < later)
}

#[tactic(auto, unfolding(crate::specs::Pages::is_there))]
fn is_there(pages: &[u64], page: u64) -> bool
    ensures { result ≡ is_there pages.now page }
{
    pages.iter().any(|&other| other == page)
}

/// How many pages of consensus states there are.
#[tactic(auto, using(crate::proofs::Lost::counting), unfolding(crate::specs::Pages::count_pages))]
fn count_pages(answers: &[Saved]) -> u64
    ensures { result ≡ count_pages answers.now }
{
    let mut count: u64 = 0;
    for saved in answers {
        if is_page(saved) {
            count += 1;
        }
    }
    count
}

#[tactic(auto, unfolding(crate::specs::Pages::is_page))]
fn is_page(saved: &Saved) -> bool
    ensures { result ≡ is_page saved.now }
{
    matches!(saved.answer, NodeAnswer::ConsensusStates(_))
}

/// The numbers of the pages that files are named by.
#[tactic(auto, using(crate::proofs::Lost::gathering), unfolding(crate::specs::Pages::pages_of))]
fn pages_of(alloc: Global, answers: &[Saved]) -> Result<Vec<u64>, AllocError>
    ensures { IfOk result (λ pages. pages.items ≡ pages_of answers.now) }
{
    let mut pages = Vec::new(alloc);
    for saved in answers {
        if let Some(page) = page_named(saved) {
            pages.push(page)?;
        }
    }
    Ok(pages)
}

/// The number of the page that a file is named by.
#[tactic(auto, unfolding(crate::specs::Pages::page_named))]
fn page_named(saved: &Saved) -> Option<u64>
    ensures { result ≡ page_named saved.now }
{
    page_of(saved.file.as_str())
}

/// The number of a page by the path of its file, FOLDER/consensus_states-NUMBER.json.
#[tactic(auto, unfolding(crate::specs::Pages::page_of))]
fn page_of(file: &str) -> Option<u64>
    ensures { result ≡ page_of file.now }
{
    let stem = stem_of(file)?;
    let (front, digits) = parts_at(stem, '-')?;
    if is_of_states(front) {
        number_of(digits)
    } else {
        None
    }
}

#[tactic(auto, unfolding(crate::specs::Pages::is_of_states))]
fn is_of_states(front: &str) -> bool
    ensures { result ≡ is_of_states front.now }
{
    front.ends_with("consensus_states")
}

/// What stands before the ending `.json`.
fn stem_of(file: &str) -> Option<&str>
    ensures { option_map (λ s. s.now) result ≡ stem_of file.now }
{
    let (stem, ending) = parts_at(file, '.')?;
    if ending == "json" { Some(stem) } else { None }
}

/// What stands before the last mark, and after it.
fn parts_at(text: &str, mark: char) -> Option<(&str, &str)>
    requires { mark < 128 }
    ensures { option_map (λ p. (p.0.now, p.1.now)) result ≡ at_last mark text.now }
{
    text.rsplit_once(mark)
}
