//! Events are taken in.
ghost use Rattle.std.specs.Prelude.{◌≡◌, ◌<◌, true, None, IfSome, IsSome, IsSomeAnd, OnOk, length, slice_get};
ghost use Rattle.rb_core_model.specs.Event as events;
ghost use Rattle.rb_core_model.specs.Invariant.{HasInvariant};
ghost use Rattle.rb_core.specs.State.{standing_view, state_view, HasRoom};
ghost use Rattle.rb_core_model.specs.Machine.{is_known, accepted, reply_of};
ghost use Rattle.rb_core_model.specs.Limits.{max_events};
ghost use Rattle.rb_core_model.specs.Replied.{reply_view};
ghost use Rattle.rb_core_model.specs.Seen.{event_view};
ghost use Rattle.rb_core_model.specs.Standing.{judged};

use crate::state::CoreState;
use rb_core_model::{Event, Reply};
use std::alloc::{AllocError, Allocator};

/// Makes what taking in an event that is not refused takes.
pub(crate) fn make_room<A: Allocator + Copy>(
    state: &mut CoreState<A>,
    event: &Event<A>,
) -> Result<(), AllocError>
    requires object { is_known (state_view state.old) (event_view event.now) ≡ true }
    requires kept { HasInvariant (state_view state.old) }
    requires accepted { judged (standing_view state.old) (event_view event.now) ≡ None }
    ensures same { state_view state.new ≡ state_view state.old }
    ensures room { OnOk result (HasRoom state.new (event_view event.now)) }
    ensures others { (other : events.Event) → HasRoom state.old other → HasRoom state.new other }
{
    match event {
        Event::Observed(observation) => state.make_room_for(observation),
        Event::Settled(settlement) => state.make_settle_room(settlement.client),
        Event::Window(_)
        | Event::HostWindow(_)
        | Event::Asked(_)
        | Event::Scanned { .. }
        | Event::Planned(_) => Ok(()),
    }
}

/// Takes in an event that is not refused, but doesn't count it.
fn take<A: Allocator + Copy>(state: &mut CoreState<A>, event: Event<A>) -> Reply
    requires object { is_known (state_view state.old) (event_view event) ≡ true }
    requires kept { HasInvariant (state_view state.old) }
    requires few { state.old.front < max_events }
    requires accepted { judged (standing_view state.old) (event_view event) ≡ None }
    requires room { HasRoom state.old (event_view event) }
    ensures state { state_view state.new ≡ record (accepted (state_view state.old) (event_view event)) { front = state.old.front } }
    ensures reply { reply_view result ≡ reply_of (state_view state.old) (event_view event) }
{
    match event {
        Event::Window(window) => {
            state.put_window(window);
            Reply::Noted
        }
        Event::HostWindow(window) => {
            state.put_host_window(window);
            Reply::Noted
        }
        Event::Asked(asked) => {
            state.put_asked(asked);
            Reply::Noted
        }
        Event::Observed(observation) => {
            state.put_observed(observation);
            Reply::Noted
        }
        Event::Scanned { path, scan } => {
            state.put_scanned(path, scan);
            Reply::Noted
        }
        Event::Planned(draft) => {
            let (job, answer, _) = draft.into_parts();
            state.put_planned(job.client(), answer)
        }
        Event::Settled(settlement) => {
            state.put_settled(settlement);
            Reply::Noted
        }
    }
}

/// Takes in an event that is not refused.
pub(crate) fn put<A: Allocator + Copy>(state: &mut CoreState<A>, event: Event<A>) -> Reply
    requires object { is_known (state_view state.old) (event_view event) ≡ true }
    requires kept { HasInvariant (state_view state.old) }
    requires few { state.old.front < max_events }
    requires accepted { judged (standing_view state.old) (event_view event) ≡ None }
    requires room { HasRoom state.old (event_view event) }
    ensures state { state_view state.new ≡ accepted (state_view state.old) (event_view event) }
    ensures reply { reply_view result ≡ reply_of (state_view state.old) (event_view event) }
{
    let reply = take(state, event);
    state.front += 1;
    reply
}
