//! Log entries.
ghost use Rattle.std.specs.Prelude.{◌≡◌, IfOk};
ghost use Rattle.rb_core_model.specs.Entry.{entry_view, logged_of};
ghost use Rattle.rb_core_model.specs.Seen.{event_view};

use crate::event::Event;
use rb_base::{Moment, Part, Window};
use rb_plan_client::{Planned, copy_answer};
use rb_script_types::{Asked, HostWindow, Observation, Settlement};
use std::alloc::{AllocError, Allocator, Global};

/// A log entry: an event, but of a scan only its path and part, and of a plan only its client and what was planned,
/// since the log before it determines the path and the client. So a log keeps no book in memory.
#[derive(Drop)]
pub enum Entry<A: Allocator = Global> {
    /// The window in which updates may be submitted.
    Window(Window),
    /// A window of the clients on a host.
    HostWindow(HostWindow),
    /// What a client is to be brought to.
    Asked(Asked),
    /// An observation of a chain, a client or a path.
    Observed(Observation<A>),
    /// A scan of a part of a path, as the path is after the log before it.
    Scan {
        path: usize,
        part: Part,
    },
    /// What was planned for a client, as the client is after the log before it, and when it has a goal next.
    Plan {
        client: usize,
        answer: Option<Planned<A>>,
        next: Option<Moment>,
    },
    /// So many transactions of a client's batch, by its number, were taken.
    Settled(Settlement),
}

impl<A: Allocator + Copy> Entry<A> {
    /// The log entry of an event. `AllocError` where memory is refused.
    pub fn of(event: &Event<A>) -> Result<Entry<A>, AllocError>
        ensures { IfOk result (λ entry. entry_view entry ≡ logged_of (event_view event.now)) }
    {
        Ok(match event {
            Event::Window(window) => Entry::Window(*window),
            Event::HostWindow(window) => Entry::HostWindow(*window),
            Event::Asked(asked) => Entry::Asked(*asked),
            Event::Observed(observation) => Entry::Observed(observation.copy()?),
            Event::Scanned { path, scan } => Entry::Scan {
                path: *path,
                part: scan.part(),
            },
            Event::Planned(draft) => Entry::Plan {
                client: draft.job().client(),
                answer: copy_answer(draft.answer())?,
                next: draft.next(),
            },
            Event::Settled(settlement) => Entry::Settled(*settlement),
        })
    }
}
