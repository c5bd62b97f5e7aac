//! Scans for pending messages.
ghost use Rattle.std.specs.Prelude.{◌≡◌, IfOk};

use crate::path_scan::Scan;
use rb_base::Part;
use rb_scan::{PathView, owed_part};
use std::alloc::{AllocError, Allocator};

/// The pending messages of a part of a path (ICS 4), as `rb_scan` finds them; the view goes into the scan.
/// `AllocError` where memory is refused.
pub fn scan<A: Allocator + Copy>(view: PathView<A>, part: Part) -> Result<Scan<A>, AllocError>
    ensures { IfOk result (λ scan. scan ≡ record { view = view; part = part }) }
{
    let owed = owed_part(&view, part)?;
    let scan = Scan::new(view, part, owed)?;
    Ok(scan)
}
