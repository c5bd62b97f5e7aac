//! What a journal has stored.
ghost use Rattle.std.specs.Prelude.{◌≡◌, ℕ, ◌++◌, List, codes, map, flat_map, IfOk, IfErr};
ghost use Rattle.rb_journal.specs.Stored.{Holds, IsUnread};

use crate::entry::document_text;
use crate::parts::split_part;
use rb_script_toml::RunError;
use std::alloc::{AllocError, Global};

/// The line that ends a document of an input.
const END: &str = "---\n";

/// The documents that parts of a journal hold, and how many bytes stand behind the last part that is whole.
#[derive(Drop)]
pub struct StoredDocuments {
    pub documents: Vec<Vec<u8>>,
    pub cut: usize,
}

/// What a journal holds behind its first part. `Fault` comes where a part isn't a turn.
pub fn stored_in(alloc: Global, digests: bool, turns: &[u8]) -> Result<StoredDocuments, RunError>
    ensures stored { IfOk result (λ stored. Holds digests turns.now (map (λ d. d.items) stored.documents.items) stored.cut) }
    ensures unread { IfErr result (λ e. IsUnread digests turns.now e) }
{
    let mut documents = Vec::new(alloc);
    let mut rest = turns;
    while let Some((part, more)) = split_part(rest) {
        documents.push(document_text(alloc, digests, part)?)?;
        rest = more;
    }
    Ok(StoredDocuments {
        documents,
        cut: rest.len(),
    })
}

/// Documents as they come in an input, each ended by a line `---`.
pub fn input_of(alloc: Global, documents: &[Vec<u8>]) -> Result<Vec<u8>, AllocError>
    ensures { IfOk result (λ input. input.items ≡ flat_map (λ d. d.items ++ codes "---\n") documents.now) }
{
    let mut input = Vec::new(alloc);
    for document in documents {
        input.extend_from_slice(document.as_slice())?;
        input.extend_from_slice(END.as_bytes())?;
    }
    Ok(input)
}
