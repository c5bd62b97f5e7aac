//! Scans of paths.
ghost use Rattle.std.specs.Prelude.{◌≡◌, IfOk};
ghost use Rattle.rb_scan.specs.Owed.{owed_part};

use rb_base::Part;
use rb_scan::{PacketMsg, PathView};
use std::alloc::{AllocError, Allocator, Global};
use std::marker::Model;
use std::sync::Arc;

/// What the owners of a scan share.
#[derive(Drop)]
struct Parts<A: Allocator = Global> {
    view: PathView<A>,
    part: Part,
    owed: Vec<PacketMsg, A>,
}

impl<A: Allocator> Model for Parts<A> {
    ghost use Rattle.std.specs.Prelude.{◌≡◌};
    ghost use Rattle.rb_scan.specs.Owed.{owed_part};
    ghost use Rattle.rb_core_model.specs.Scan as scans;

    ghost Value = { scans.Scan };

    ghost view = { λ s. record { view = s.view; part = s.part } };

    ghost invariant = { λ s. s.owed.items ≡ owed_part s.view s.part };
}

impl<A: Allocator> Parts<A> {
    /// The path that was scanned.
    fn view(&self) -> &PathView<A>
        ensures { result.now ≡ self.now.view }
    {
        &self.view
    }

    /// The part.
    fn part(&self) -> Part
        ensures { result ≡ self.now.part }
    {
        self.part
    }

    /// The messages that it owes.
    fn owed(&self) -> &[PacketMsg]
        ensures { result.now ≡ owed_part self.now.view self.now.part }
    {
        self.owed.as_slice()
    }
}

/// The pending messages of a part of a path, with the path that was scanned. A scan may have several
/// owners, which share both.
#[derive(Drop)]
pub struct Scan<A: Allocator = Global> {
    parts: Arc<Parts<A>, A>,
}

impl<A: Allocator> Model for Scan<A> {
    ghost use Rattle.std.specs.Arc.{arc_value};
    ghost use Rattle.rb_core_model.specs.Scan as scans;

    ghost Value = { scans.Scan };

    ghost view = { λ s. arc_value s.parts };
}

impl<A: Allocator> Scan<A> {
    /// The path that was scanned.
    pub fn view(&self) -> &PathView<A>
        ensures { result.now ≡ self.now.view }
    {
        self.parts.view()
    }

    /// The part.
    pub fn part(&self) -> Part
        ensures { result ≡ self.now.part }
    {
        self.parts.part()
    }

    /// The messages that it owes.
    pub fn owed(&self) -> &[PacketMsg]
        ensures { result.now ≡ owed_part self.now.view self.now.part }
    {
        self.parts.owed()
    }

    /// The same scan, for one more owner. `AllocError` where it has as many owners as can be counted.
    pub fn share(&self) -> Result<Scan<A>, AllocError>
        ensures { IfOk result (λ scan. scan ≡ self.now) }
    {
        Ok(Scan {
            parts: Arc::try_clone(&self.parts)?,
        })
    }
}

impl<A: Allocator + Copy> Scan<A> {
    /// The scan of a part, whose messages these are.
    pub(crate) fn new(
        view: PathView<A>,
        part: Part,
        owed: Vec<PacketMsg, A>,
    ) -> Result<Scan<A>, AllocError>
        requires { owed.items ≡ owed_part view part }
        ensures { IfOk result (λ scan. scan ≡ record { view = view; part = part }) }
    {
        let alloc = *owed.allocator();
        let parts = Parts { view, part, owed };
        Ok(Scan {
            parts: Arc::new(alloc, parts)?,
        })
    }
}
