//! Parts that have a document as it came.
ghost use Rattle.std.specs.Prelude.{◌≡◌, ℕ, ◌∷◌, ◌++◌, List, IfOk, OnOk, MatchOption, false};
ghost use Rattle.rb_journal.specs.Parts.{closing};
ghost use Rattle.rb_journal.specs.Verbatim.{bar, barred, unbarred, verbatim};

use crate::parts::{closing, closing_length};
use std::alloc::{AllocError, Global};

/// What stands before each line of the document.
const BAR: u8 = b'|';

const LINE_FEED: u8 = b'\n';

/// Adds a document, with a bar behind each line feed.
fn push_barred(part: &mut Vec<u8>, document: &[u8]) -> Result<(), AllocError>
    ensures { OnOk result (part.new.items ≡ part.old.items ++ barred document.now) }
{
    for byte in document {
        part.push(*byte)?;
        if *byte == LINE_FEED {
            part.push(BAR)?;
        }
    }
    Ok(())
}

/// Bytes without the one behind each line feed.
fn unbarred(alloc: Global, bytes: &[u8]) -> Result<Vec<u8>, AllocError>
    ensures { IfOk result (λ rest. rest.items ≡ unbarred false bytes.now) }
{
    let mut rest = Vec::new(alloc);
    let mut behind_feed = false;
    for byte in bytes {
        if behind_feed {
            behind_feed = false;
        } else {
            rest.push(*byte)?;
            behind_feed = *byte == LINE_FEED;
        }
    }
    Ok(rest)
}

/// The part of a journal that has a document as it came.
pub(crate) fn verbatim_part(
    alloc: Global,
    digests: bool,
    document: &[u8],
) -> Result<Vec<u8>, AllocError>
    ensures { IfOk result (λ part. part.items ≡ verbatim document.now ++ closing digests (verbatim document.now)) }
{
    let mut part = Vec::from_array(alloc, [BAR])?;
    push_barred(&mut part, document)?;
    part.push(LINE_FEED)?;
    let end = closing(alloc, digests, part.as_slice())?;
    part.extend_from_slice(end.as_bytes())?;
    Ok(part)
}

/// What stands behind the first bar of a part that begins with one.
pub(crate) fn behind_bar(part: &[u8]) -> Option<&[u8]>
    ensures { MatchOption result ((rest : List ℕ) → part.now ≡ bar ∷ rest → ⊥) (λ rest. part.now ≡ bar ∷ rest.now) }
{
    let (first, rest) = part.split_first()?;
    if *first == BAR { Some(rest) } else { None }
}

/// The document of a part that has it as it came, of what stands behind the first bar.
pub(crate) fn verbatim_document(
    alloc: Global,
    digests: bool,
    lines: &[u8],
) -> Result<Vec<u8>, AllocError>
    ensures { IfOk result (λ text. (bytes : List ℕ) → bar ∷ lines.now ≡ verbatim bytes ++ closing digests (verbatim bytes) → text.items ≡ bytes) }
{
    let end = lines.len().saturating_sub(closing_length(digests) + 1);
    unbarred(alloc, &lines[..end])
}
