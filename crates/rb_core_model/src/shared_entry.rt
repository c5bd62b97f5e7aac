//! Log entries of several logs.
ghost use Rattle.std.specs.Prelude.{◌≡◌, IfOk};
ghost use Rattle.rb_core_model.specs.Entry.{entry_view, logged_of};
ghost use Rattle.rb_core_model.specs.Seen.{event_view};

use crate::entry::Entry;
use crate::event::Event;
use std::alloc::{AllocError, Allocator, Global};
use std::marker::Model;
use std::sync::Arc;

/// A log entry that several logs share. A contract sees the entry.
#[derive(Drop)]
pub struct SharedEntry<A: Allocator = Global> {
    entry: Arc<Entry<A>, A>,
}

impl<A: Allocator> Model for SharedEntry<A> {
    ghost use Rattle.std.specs.Arc.{arc_value};
    ghost use Rattle.rb_core_model.specs.Entry.{Logged, entry_view};

    ghost Value = { Logged };

    ghost view = { λ s. entry_view (arc_value s.entry) };
}

impl<A: Allocator + Copy> SharedEntry<A> {
    /// The log entry of an event, with one owner. `AllocError` where memory is refused.
    pub fn of(alloc: A, event: &Event<A>) -> Result<SharedEntry<A>, AllocError>
        ensures { IfOk result (λ entry. entry ≡ logged_of (event_view event.now)) }
    {
        Ok(SharedEntry {
            entry: Arc::new(alloc, Entry::of(event)?)?,
        })
    }
}

impl<A: Allocator> SharedEntry<A> {
    /// The entry.
    pub fn entry(&self) -> &Entry<A>
        ensures { entry_view result.now ≡ self.now }
    {
        &self.entry
    }

    /// The same entry, for one more log. `AllocError` where as many logs have it as can be counted.
    pub fn share(&self) -> Result<SharedEntry<A>, AllocError>
        ensures { IfOk result (λ entry. entry ≡ self.now) }
    {
        Ok(SharedEntry {
            entry: Arc::try_clone(&self.entry)?,
        })
    }
}

/// The same entries, in their order, for one more log. `AllocError` where memory is refused, or as many
/// logs have one as can be counted.
pub fn share_entries<A: Allocator + Copy>(
    alloc: A,
    entries: &[SharedEntry<A>],
) -> Result<Vec<SharedEntry<A>, A>, AllocError>
    ensures { IfOk result (λ shared. shared.items ≡ entries.now) }
{
    let mut shared = Vec::with_capacity(alloc, entries.len())?;
    for entry in entries {
        shared.push(entry.share()?)?;
    }
    Ok(shared)
}
