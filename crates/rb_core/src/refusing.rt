//! Why an event is refused.
ghost use Rattle.std.specs.Prelude.{◌≡◌, ◌<◌, true, length, None, Some, is_none, IfNone, IfSome, IsSome};
ghost use Rattle.rb_script_types.specs.declared.refusal.Refusal.TheVariants as refusals;
ghost use Rattle.rb_core_model.specs.Invariant.{HasInvariant};
ghost use Rattle.rb_core.specs.Follower.{refused_first};
ghost use Rattle.rb_core.specs.State.{standing_view, state_view};
ghost use Rattle.rb_core_model.specs.Machine.{is_known, knows_client, knows_path, is_held, scan_refusal, draft_refusal, refusal_beside, refusal_of};
ghost use Rattle.rb_core_model.specs.Limits.{max_events};
ghost use Rattle.rb_core_model.specs.Refusal.{refused_if};
ghost use Rattle.rb_core_model.specs.Seen.{event_view};
ghost use Rattle.rb_core_model.specs.Standing.{judged};

use crate::client_views::{is_job, plan_number};
use crate::path_views::{all_scanned, is_scanned, is_view};
use crate::state::CoreState;
use rb_core_model::{Event, Scan};
use rb_plan_client::Draft;
use rb_script_types::Refusal;
use std::alloc::Allocator;

/// The most events that are taken in.
pub const MAX_EVENTS: usize = 1_000_000;

/// Whether the chain, the client or the path of an event is there.
fn is_known<A: Allocator + Copy>(state: &CoreState<A>, event: &Event<A>) -> bool
    ensures { result ≡ is_known (state_view state.now) (event_view event.now) }
{
    match event {
        Event::Window(_) => true,
        Event::HostWindow(window) => window.host < state.books.len(),
        Event::Asked(asked) => asked.client < state.clients.len(),
        Event::Observed(observation) => state.knows_observed(observation),
        Event::Scanned { path, .. } => *path < state.paths.len(),
        Event::Planned(draft) => draft.job().client() < state.clients.len(),
        Event::Settled(settlement) => settlement.client < state.clients.len(),
    }
}

/// Why a scan would be refused.
fn refuse_scanned<A: Allocator + Copy>(
    state: &CoreState<A>,
    path: usize,
    scan: &Scan<A>,
) -> Option<Refusal>
    ensures { result ≡ scan_refusal (state_view state.now) path scan.now }
{
    if !is_view(state, path, scan.view()) {
        return Some(Refusal::Stale { front: state.front });
    }
    if is_scanned(state, path, scan.part()) {
        return Some(Refusal::Repeat);
    }
    None
}

/// Whether a client has an open batch.
fn is_held<A: Allocator>(state: &CoreState<A>, client: usize) -> bool
    ensures { result ≡ is_held (state_view state.now) client }
{
    match state.clients.get(client) {
        Some(client_state) => client_state.is_held(),
        None => false,
    }
}

/// Why a plan would be refused.
fn refuse_planned<A: Allocator + Copy>(state: &CoreState<A>, draft: &Draft<A>) -> Option<Refusal>
    ensures { result ≡ draft_refusal (state_view state.now) draft.now }
{
    let job = draft.job();
    let next = plan_number(state, job.client());
    if job.plan() < next {
        return Some(Refusal::Repeat);
    }
    if next < job.plan() {
        return Some(Refusal::OutOfOrder);
    }
    if is_held(state, job.client()) {
        return Some(Refusal::Busy);
    }
    if !all_scanned(state, job.client()) {
        return Some(Refusal::NotOwed);
    }
    if !is_job(state, job) {
        return Some(Refusal::Stale { front: state.front });
    }
    None
}

/// Why an event whose chain, client or path is there would be refused by how things stand.
fn refuse_standing<A: Allocator + Copy>(state: &CoreState<A>, event: &Event<A>) -> Option<Refusal>
    requires object { is_known (state_view state.now) (event_view event.now) ≡ true }
    requires kept { HasInvariant (state_view state.now) }
    ensures { result ≡ judged (standing_view state.now) (event_view event.now) }
{
    match event {
        Event::Window(window) => state.refuse_window(*window),
        Event::HostWindow(window) => state.refuse_host_window(*window),
        Event::Observed(observation) => state.refuse_observed(observation),
        Event::Settled(settlement) => state.refuse_settled(*settlement),
        Event::Asked(_) | Event::Scanned { .. } | Event::Planned(_) => None,
    }
}

/// Why an event whose chain, client or path is there would be refused by what is known.
fn refuse_known<A: Allocator + Copy>(state: &CoreState<A>, event: &Event<A>) -> Option<Refusal>
    requires object { is_known (state_view state.now) (event_view event.now) ≡ true }
    requires kept { HasInvariant (state_view state.now) }
    ensures { result ≡ refusal_beside (state_view state.now) (event_view event.now) }
{
    match event {
        Event::Scanned { path, scan } => refuse_scanned(state, *path, scan),
        Event::Planned(draft) => refuse_planned(state, draft),
        _ => refuse_standing(state, event),
    }
}

/// Why an event would be refused.
pub(crate) fn refuse<A: Allocator + Copy>(state: &CoreState<A>, event: &Event<A>) -> Option<Refusal>
    requires kept { HasInvariant (state_view state.now) }
    ensures { result ≡ refusal_of (state_view state.now) (event_view event.now) }
{
    if !is_known(state, event) {
        return Some(Refusal::UnknownObject);
    }
    if MAX_EVENTS <= state.front {
        return Some(Refusal::LogFull);
    }
    refuse_known(state, event)
}

/// Why an event can't be taken in even where what was seen isn't compared.
pub(crate) fn refuse_unseen<A: Allocator + Copy>(
    state: &CoreState<A>,
    event: &Event<A>,
) -> Option<Refusal>
    requires { HasInvariant (state_view state.now) }
    ensures object { IfNone result (is_known (state_view state.now) (event_view event.now) ≡ true) }
    ensures few { IfNone result (state.now.front < max_events) }
    ensures accepted { IfNone result (judged (standing_view state.now) (event_view event.now) ≡ None) }
    ensures refused { IfSome result (λ refusal. refused_first (state_view state.now) (is_known (state_view state.now) (event_view event.now)) (judged (standing_view state.now) (event_view event.now)) ≡ Some refusal) }
{
    if !is_known(state, event) {
        return Some(Refusal::UnknownObject);
    }
    if MAX_EVENTS <= state.front {
        return Some(Refusal::LogFull);
    }
    refuse_standing(state, event)
}

/// Why a mark on a packet of a path can't be taken in, whether or not it could be refused.
pub(crate) fn refuse_mark<A: Allocator>(state: &CoreState<A>, path: usize) -> Option<Refusal>
    ensures within { IfNone result (path < length state.now.paths.items) }
    ensures few { IfNone result (state.now.front < max_events) }
    ensures refused { IfSome result (λ refusal. refused_first (state_view state.now) (knows_path (state_view state.now) path) None ≡ Some refusal) }
{
    if state.paths.len() <= path {
        return Some(Refusal::UnknownObject);
    }
    if MAX_EVENTS <= state.front {
        return Some(Refusal::LogFull);
    }
    None
}

/// Why an answer for a client can't be taken in even where what it was made for isn't compared.
pub(crate) fn refuse_answer<A: Allocator>(state: &CoreState<A>, client: usize) -> Option<Refusal>
    ensures within { IfNone result (client < length state.now.clients.items) }
    ensures few { IfNone result (state.now.front < max_events) }
    ensures window { IfNone result (IsSome state.now.window) }
    ensures refused { IfSome result (λ refusal. refused_first (state_view state.now) (knows_client (state_view state.now) client) (refused_if (is_none state.now.window) refusals.OutOfOrder None) ≡ Some refusal) }
{
    if state.clients.len() <= client {
        return Some(Refusal::UnknownObject);
    }
    if MAX_EVENTS <= state.front {
        return Some(Refusal::LogFull);
    }
    if state.window.is_none() {
        return Some(Refusal::OutOfOrder);
    }
    None
}
