//! Events are judged, and then taken in.
ghost use Rattle.std.specs.Prelude.{◌≡◌, ◌<◌, ◌++◌, ◌∷◌, [], vec_len, vec_capacity, None, IfOk, IfErr};
ghost use Rattle.rb_core_model.specs.Entry.{logged_of};
ghost use Rattle.rb_core_model.specs.Event as events;
ghost use Rattle.rb_core_model.specs.Event.{IsEvent};
ghost use Rattle.rb_core_model.specs.Invariant.{HasInvariant};
ghost use Rattle.rb_core.specs.State.{state_view, HasRoom};
ghost use Rattle.rb_core_model.specs.Machine.{refusal_of, accepted, reply_of};
ghost use Rattle.rb_core_model.specs.Refused.{IsRefusal};
ghost use Rattle.rb_core_model.specs.Replied.{reply_view};
ghost use Rattle.rb_core_model.specs.Seen.{event_view};

use crate::refusing::refuse;
use crate::state::CoreState;
use crate::taking::{make_room, put};
use rb_core_model::{CoreError, Event, Ready, Reply, SharedEntry};
use std::alloc::{AllocError, Allocator};

/// Makes what taking in an event takes that is not refused. It isn't judged again.
pub(crate) fn make_ready_accepted<A: Allocator + Copy>(
    alloc: A,
    state: &mut CoreState<A>,
    log: &mut Vec<SharedEntry<A>, A>,
    event: Event<A>,
) -> Result<Ready<A>, AllocError>
    requires kept { HasInvariant (state_view state.old) }
    requires accepted { refusal_of (state_view state.old) (event_view event) ≡ None }
    ensures same { state_view state.new ≡ state_view state.old }
    ensures log { log.new.items ≡ log.old.items }
    ensures ready { IfOk result (λ ready. ready ≡ record { front = state.old.front; event = event_view event }) }
    ensures room { IfOk result (λ _. HasRoom state.new (event_view event)) }
    ensures log_room { IfOk result (λ _. vec_len log.new < vec_capacity log.new) }
    ensures others { (other : events.Event) → HasRoom state.old other → HasRoom state.new other }
    ensures log_others { vec_len log.old < vec_capacity log.old → vec_len log.new < vec_capacity log.new }
{
    make_room(state, &event)?;
    log.reserve(1)?;
    let ready = Ready::new(alloc, state.front, event)?;
    Ok(ready)
}

/// Judges an event, and makes what taking it in takes.
pub(crate) fn make_ready<A: Allocator + Copy>(
    alloc: A,
    state: &mut CoreState<A>,
    log: &mut Vec<SharedEntry<A>, A>,
    event: Event<A>,
) -> Result<Ready<A>, CoreError>
    requires kept { HasInvariant (state_view state.old) }
    ensures same { state_view state.new ≡ state_view state.old }
    ensures log { log.new.items ≡ log.old.items }
    ensures ready { IfOk result (λ ready. ready ≡ record { front = state.old.front; event = event_view event }) }
    ensures accepted { IfOk result (λ _. refusal_of (state_view state.old) (event_view event) ≡ None) }
    ensures room { IfOk result (λ _. HasRoom state.new (event_view event)) }
    ensures log_room { IfOk result (λ _. vec_len log.new < vec_capacity log.new) }
    ensures others { (other : events.Event) → HasRoom state.old other → HasRoom state.new other }
    ensures log_others { vec_len log.old < vec_capacity log.old → vec_len log.new < vec_capacity log.new }
    ensures refused { IfErr result (λ e. IsRefusal e (refusal_of (state_view state.old) (event_view event))) }
{
    if let Some(refusal) = refuse(state, &event) {
        return Err(CoreError::Refused(refusal));
    }
    let ready = make_ready_accepted(alloc, state, log, event)?;
    Ok(ready)
}

/// Takes in an event that was judged.
pub(crate) fn take_in<A: Allocator + Copy>(
    state: &mut CoreState<A>,
    log: &mut Vec<SharedEntry<A>, A>,
    ready: Ready<A>,
) -> Reply
    requires kept { HasInvariant (state_view state.old) }
    requires accepted { refusal_of (state_view state.old) ready.event ≡ None }
    requires room { HasRoom state.old ready.event }
    requires log_room { vec_len log.old < vec_capacity log.old }
    ensures state { state_view state.new ≡ accepted (state_view state.old) ready.event }
    ensures log { log.new.items ≡ log.old.items ++ logged_of ready.event ∷ [] }
    ensures rules { IsEvent ready.event }
    ensures reply { reply_view result ≡ reply_of (state_view state.old) ready.event }
{
    let (event, entry) = ready.into_parts();
    let reply = put(state, event);
    log.push_reserved(entry);
    reply
}
