//! What followers are told.
ghost use Rattle.std.specs.Prelude.{◌≡◌, IfOk};
ghost use Rattle.std.specs.Option.{option_copied};
ghost use Rattle.rb_core.specs.Follower.{IsTold, scan_in, told_of};
ghost use Rattle.rb_core_model.specs.Seen.{event_view};

use rb_core_model::{Event, Ready, Scan, SharedEntry};
use std::alloc::{AllocError, Allocator, Global};
use std::marker::Model;

/// An event that a core has judged, for the followers of its log: the log entry, and with the entry of a
/// scan the scan as it was made, so that a follower neither scans nor compares.
#[derive(Drop)]
pub struct Told<A: Allocator = Global> {
    entry: SharedEntry<A>,
    scan: Option<Scan<A>>,
}

impl<A: Allocator> Model for Told<A> {
    ghost use Rattle.rb_core.specs.Follower as followers;
    ghost use Rattle.rb_core.specs.Follower.{IsTold};

    ghost Value = { followers.Told };

    ghost view = { λ t. record { entry = t.entry; scan = t.scan } };

    ghost invariant = { λ t. IsTold t.entry t.scan };
}

/// The scan of an event, if it is of one.
fn scan_in<A: Allocator + Copy>(event: &Event<A>) -> Result<Option<Scan<A>>, AllocError>
    ensures { IfOk result (λ scan. scan ≡ scan_in (event_view event.now)) }
{
    match event {
        Event::Scanned { scan, .. } => Ok(Some(scan.share()?)),
        _ => Ok(None),
    }
}

impl<A: Allocator + Copy> Told<A> {
    /// What followers are told of this event. `AllocError` where its entry or its scan has as many
    /// owners as can be counted.
    pub fn of(ready: &Ready<A>) -> Result<Told<A>, AllocError>
        ensures { IfOk result (λ told. told ≡ told_of ready.now.event) }
    {
        let entry = ready.entry().share()?;
        let scan = scan_in(ready.event())?;
        Ok(Told { entry, scan })
    }
}

impl<A: Allocator> Told<A> {
    /// The log entry of the event.
    pub fn entry(&self) -> &SharedEntry<A>
        ensures { result.now ≡ self.now.entry }
    {
        &self.entry
    }

    /// The scan; None where the entry is of another event.
    pub(crate) fn scan(&self) -> Option<&Scan<A>>
        ensures value { option_copied result ≡ self.now.scan }
        ensures belongs { IsTold self.now.entry self.now.scan }
    {
        self.scan.as_ref()
    }
}
