//! What happens to a relayer.
ghost use Rattle.std.specs.Prelude.{◌≡◌, IfOk};
ghost use Rattle.rb_core_model.specs.Event.{IsEvent};
ghost use Rattle.rb_core_model.specs.Seen.{event_view};

use crate::path_scan::Scan;
use crate::rules::observation_is_event;
use rb_base::Window;
use rb_plan_client::Draft;
use rb_script_types::{Asked, HostWindow, Observation, Settlement};
use std::alloc::{AllocError, Allocator, Global};

/// What happens to a relayer, and what it makes out itself. Chains, clients and paths are named by
/// their places.
#[derive(Drop)]
pub enum Event<A: Allocator = Global> {
    /// The window in which updates may be submitted.
    Window(Window),
    /// A window of the clients on a host.
    HostWindow(HostWindow),
    /// What a client is to be brought to.
    Asked(Asked),
    /// An observation of a chain, a client or a path.
    Observed(Observation<A>),
    /// The pending messages of a part of a path, with the path that was scanned.
    Scanned { path: usize, scan: Scan<A> },
    /// What was planned for a client, with the job that it was planned for.
    Planned(Draft<A>),
    /// So many transactions of a client's batch, by its number, were taken.
    Settled(Settlement),
}

impl<A: Allocator + Copy> Event<A> {
    /// An equal event, on the allocator of this one; a scan and the book of a plan are shared.
    pub fn copy(&self) -> Result<Event<A>, AllocError>
        ensures { IfOk result (λ event. event_view event ≡ event_view self.now) }
    {
        Ok(match self {
            Event::Window(window) => Event::Window(*window),
            Event::HostWindow(window) => Event::HostWindow(*window),
            Event::Asked(asked) => Event::Asked(*asked),
            Event::Observed(observation) => Event::Observed(observation.copy()?),
            Event::Scanned { path, scan } => Event::Scanned {
                path: *path,
                scan: scan.share()?,
            },
            Event::Planned(draft) => Event::Planned(draft.copy()?),
            Event::Settled(settlement) => Event::Settled(*settlement),
        })
    }

    /// Tells what every event keeps.
    pub(crate) fn rules(&self)
        ensures { IsEvent (event_view self.now) }
    {
        match self {
            Event::Window(window) => {
                window.until();
            }
            Event::HostWindow(host) => {
                host.window.until();
            }
            Event::Observed(observation) => observation_is_event(observation),
            Event::Planned(draft) => {
                draft.answer();
            }
            _ => {}
        }
    }
}
