//! The keys of pages of consensus states and of commitments.
ghost use Rattle.std.specs.Prelude.{◌≡◌, find, option_map, reverse, string_bytes};
ghost use Rattle.std.specs.Option.{option_copied};
ghost use Rattle.rb_want_requests.specs.Answered.{is_part};
ghost use Rattle.rb_want_requests.specs.Keys.{is_other, key_after, key_in, key_unless, next_key, other_key};

use crate::answered::{PartKind, is_part, is_part_of, number_in};
use crate::content::Content;

/// The key that a page begins with, but for the first: which the page before it names or, where no file's name says which that
/// is, the last page in a file of another name.
pub fn next_key<'a>(contents: &'a [Content], kind: &PartKind, page: u64) -> Option<&'a str>
    ensures { option_copied result ≡ next_key kind.now page contents.entry.now }
{
    match key_after(contents, kind, page.saturating_sub(1)) {
        Some(key) => Some(key),
        None => other_key(contents, kind),
    }
}

/// The key that the page with a number names.
fn key_after<'a>(contents: &'a [Content], kind: &PartKind, number: u64) -> Option<&'a str>
    ensures { option_copied result ≡ key_after kind.now number contents.entry.now }
{
    key_in(page_numbered(contents, kind, number)?)
}

fn page_numbered<'a>(contents: &'a [Content], kind: &PartKind, number: u64) -> Option<&'a Content>
    ensures { option_copied result ≡ find (is_part kind.now number) contents.entry.now }
{
    contents
        .iter()
        .find(|content| is_part(content, kind, number))
}

/// The key that the last of the pages in files of other names has.
fn other_key<'a>(contents: &'a [Content], kind: &PartKind) -> Option<&'a str>
    ensures { option_copied result ≡ other_key kind.now contents.entry.now }
{
    key_in(last_other(contents, kind)?)
}

fn last_other<'a>(contents: &'a [Content], kind: &PartKind) -> Option<&'a Content>
    ensures { option_copied result ≡ find (is_other kind.now) (reverse contents.entry.now) }
{
    contents
        .iter()
        .rev()
        .find(|content| is_other(content, kind))
}

/// Whether a content is a page of a kind in a file whose name has no number.
fn is_other(content: &Content, kind: &PartKind) -> bool
    ensures { result ≡ is_other kind.now content.now }
{
    is_part_of(content, kind) && number_in(content).is_none()
}

/// The key of the page after one that a file holds.
fn key_in(content: &Content) -> Option<&str>
    ensures { option_copied result ≡ key_in content.now }
{
    match content {
        Content::ConsensusStates { page, .. } => key_unless(page.is_last, &page.next_key),
        Content::Commitments { page, .. } => key_unless(page.is_last, &page.next_key),
        _ => None,
    }
}

/// The key of the page after one that isn't the last.
fn key_unless(is_last: bool, next_key: &Option<String>) -> Option<&str>
    ensures { option_copied result ≡ key_unless is_last (option_map string_bytes next_key.now) }
{
    match next_key {
        Some(key) if !is_last => Some(key.as_str()),
        _ => None,
    }
}
