//! Events that were judged.
ghost use Rattle.std.specs.Prelude.{◌≡◌, IfOk};
ghost use Rattle.rb_core_model.specs.Entry.{logged_of};
ghost use Rattle.rb_core_model.specs.Event.{IsEvent};
ghost use Rattle.rb_core_model.specs.Seen.{event_view};

use crate::event::Event;
use crate::shared_entry::SharedEntry;
use std::alloc::{AllocError, Allocator, Global};
use std::marker::Model;

/// An event that a core has judged, and how many events the core had taken in then. It can be let
/// go, which changes nothing.
#[derive(Drop)]
pub struct Ready<A: Allocator = Global> {
    front: usize,
    event: Event<A>,
    entry: SharedEntry<A>,
}

impl<A: Allocator> Model for Ready<A> {
    ghost use Rattle.std.specs.Prelude.{◌≡◌};
    ghost use Rattle.rb_core_model.specs.Entry.{logged_of};
    ghost use Rattle.rb_core_model.specs.Event.{IsEvent};
    ghost use Rattle.rb_core_model.specs.Judged as judged;
    ghost use Rattle.rb_core_model.specs.Seen.{event_view};

    ghost Value = { judged.Ready };

    ghost view = { λ r. record { front = r.front; event = event_view r.event } };

    ghost invariant = { λ r. (r.entry ≡ logged_of (event_view r.event)) × IsEvent (event_view r.event) };
}

impl<A: Allocator + Copy> Ready<A> {
    /// The event, with its log entry. A core takes it in only where it has judged it itself.
    /// `AllocError` where memory is refused.
    pub fn new(alloc: A, front: usize, event: Event<A>) -> Result<Ready<A>, AllocError>
        ensures { IfOk result (λ ready. ready ≡ record { front = front; event = event_view event }) }
    {
        event.rules();
        let entry = SharedEntry::of(alloc, &event)?;
        Ok(Ready {
            front,
            event,
            entry,
        })
    }

    /// How many events the core had taken in when it judged this one.
    pub fn front(&self) -> usize
        ensures { result ≡ self.now.front }
    {
        self.front
    }

    /// The event.
    pub fn event(&self) -> &Event<A>
        ensures { event_view result.now ≡ self.now.event }
    {
        &self.event
    }

    /// The log entry of the event.
    pub fn entry(&self) -> &SharedEntry<A>
        ensures { result.now ≡ logged_of self.now.event }
    {
        &self.entry
    }

    /// The event, and its log entry.
    pub fn into_parts(self) -> (Event<A>, SharedEntry<A>)
        ensures event { event_view result.0 ≡ self.event }
        ensures entry { result.1 ≡ logged_of self.event }
        ensures rules { IsEvent self.event }
    {
        (self.event, self.entry)
    }
}
