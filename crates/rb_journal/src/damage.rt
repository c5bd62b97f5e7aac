//! Whether a journal with digests is as it was written.
ghost use Rattle.std.specs.Prelude.{◌≡◌, IfOk, MatchOption};
ghost use Rattle.rb_journal.specs.Parts.{lost_mark};
ghost use Rattle.rb_journal.specs.Damage.{IsIntact, IsDamagedAt};

use crate::parts::{digest_holds, split_part};
use std::alloc::{AllocError, Global};

/// The end of a line, and the mark.
const LAST: &str = "\n# ---\n";

/// Whether these bytes are all of a part but the mark and the end of the line before, in place of which so many other
/// bytes stand.
fn lost_mark(alloc: Global, bytes: &[u8]) -> Result<bool, AllocError>
    ensures { IfOk result (λ lost. lost ≡ lost_mark bytes.now) }
{
    if bytes.len() < LAST.len() {
        return Ok(false);
    }
    let mut part = Vec::from_slice(alloc, &bytes[..bytes.len() - LAST.len()])?;
    part.extend_from_slice(LAST.as_bytes())?;
    digest_holds(alloc, part.as_slice())
}

/// Behind how many bytes of a journal with digests the first part begins that isn't as it was written.
pub fn damage_in(alloc: Global, bytes: &[u8]) -> Result<Option<usize>, AllocError>
    ensures { IfOk result (λ damage. MatchOption damage (IsIntact bytes.now) (λ place. IsDamagedAt bytes.now place)) }
{
    let mut rest = bytes;
    while let Some((part, more)) = split_part(rest) {
        let holds = digest_holds(alloc, part)?;
        if !holds {
            return Ok(Some(bytes.len() - rest.len()));
        }
        rest = more;
    }
    let lost = lost_mark(alloc, rest)?;
    if lost {
        return Ok(Some(bytes.len() - rest.len()));
    }
    Ok(None)
}
