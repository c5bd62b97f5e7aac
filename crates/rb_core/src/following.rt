//! What was judged elsewhere is taken in. What a scan or a plan was made for isn't compared again, and what was
//! received, written or cleared isn't judged again; the rest is, since taking it in asks for it.
ghost use Rattle.std.specs.Prelude.{◌≡◌, suc, IfErr, None, OnErr, OnOk};
ghost use Rattle.std.specs.Option.{option_copied};
ghost use Rattle.rb_core.specs.Follower.{IsTold, after_entry, entry_refusal, followed, followed_as, refused_first};
ghost use Rattle.rb_core.specs.State.{standing_view, state_view};
ghost use Rattle.rb_core_state.specs.Marked.{mark_by};
ghost use Rattle.rb_core_model.specs.Entry.{entry_view, plan, whole};
ghost use Rattle.rb_core_model.specs.Invariant.{HasInvariant};
ghost use Rattle.rb_core_model.specs.Machine.{accepted, is_known, knows_path};
ghost use Rattle.rb_core_model.specs.Refused.{IsRefusal};
ghost use Rattle.rb_core_model.specs.Seen.{event_view, observed};
ghost use Rattle.rb_core_model.specs.Standing.{judged, with_mark, with_path};

use crate::refusing::{refuse_answer, refuse_mark, refuse_unseen};
use crate::state::CoreState;
use crate::taking::{make_room, put};
use crate::told::Told;
use rb_base::Moment;
use rb_core_model::{CoreError, Entry, Event, Scan};
use rb_core_state::Mark;
use rb_plan_client::{Planned, copy_answer};
use rb_scan::Sequence;
use rb_script_types::Observation;
use std::alloc::Allocator;

/// Takes in an event, if how things stand allows it. What was seen isn't compared.
fn follow_event<A: Allocator + Copy>(
    state: &mut CoreState<A>,
    event: Event<A>,
) -> Result<(), CoreError>
    requires { HasInvariant (state_view state.old) }
    ensures followed { OnOk result (state_view state.new ≡ accepted (state_view state.old) (event_view event)) }
    ensures unchanged { OnErr result (state_view state.new ≡ state_view state.old) }
    ensures refused { IfErr result (λ e. IsRefusal e (refused_first (state_view state.old) (is_known (state_view state.old) (event_view event)) (judged (standing_view state.old) (event_view event)))) }
{
    if let Some(refusal) = refuse_unseen(state, &event) {
        return Err(CoreError::Refused(refusal));
    }
    make_room(state, &event)?;
    put(state, event);
    Ok(())
}

/// Takes in what became known of a packet.
fn follow_mark<A: Allocator + Copy>(
    state: &mut CoreState<A>,
    path: usize,
    sequence: Sequence,
    mark: Mark,
) -> Result<(), CoreError>
    ensures followed { OnOk result (state_view state.new ≡ record (state_view state.old) {
      standing = with_path (standing_view state.old) path (with_mark (mark_by mark) sequence);
      front = suc state.old.front;
    }) }
    ensures unchanged { OnErr result (state_view state.new ≡ state_view state.old) }
    ensures refused { IfErr result (λ e. IsRefusal e (refused_first (state_view state.old) (knows_path (state_view state.old) path) None)) }
{
    if let Some(refusal) = refuse_mark(state, path) {
        return Err(CoreError::Refused(refusal));
    }
    state.put_mark(path, sequence, mark);
    state.front += 1;
    Ok(())
}

/// Takes in an observation.
fn follow_observed<A: Allocator + Copy>(
    state: &mut CoreState<A>,
    observation: &Observation<A>,
) -> Result<(), CoreError>
    requires { HasInvariant (state_view state.old) }
    ensures followed { OnOk result (state_view state.new ≡ accepted (state_view state.old) (observed observation.now)) }
    ensures unchanged { OnErr result (state_view state.new ≡ state_view state.old) }
    ensures refused { IfErr result (λ e. IsRefusal e (entry_refusal (state_view state.old) (whole (observed observation.now)))) }
{
    match observation {
        Observation::Received {
            path,
            sequence,
            block,
        } => follow_mark(state, *path, *sequence, Mark::Received(block.height())),
        Observation::AckWritten {
            path,
            sequence,
            block,
        } => follow_mark(state, *path, *sequence, Mark::Written(*block)),
        Observation::Cleared { path, sequence } => {
            follow_mark(state, *path, *sequence, Mark::Cleared)
        }
        _ => follow_event(state, Event::Observed(observation.copy()?)),
    }
}

/// Takes in what was planned for a client, as the client is.
fn follow_plan<A: Allocator + Copy>(
    state: &mut CoreState<A>,
    client: usize,
    answer: Option<Planned<A>>,
    next: Option<Moment>,
) -> Result<(), CoreError>
    requires { HasInvariant (state_view state.old) }
    ensures followed { OnOk result (state_view state.new ≡ after_entry (state_view state.old) (plan client answer next)) }
    ensures unchanged { OnErr result (state_view state.new ≡ state_view state.old) }
    ensures refused { IfErr result (λ e. IsRefusal e (entry_refusal (state_view state.old) (plan client answer next))) }
{
    if let Some(refusal) = refuse_answer(state, client) {
        return Err(CoreError::Refused(refusal));
    }
    state.put_planned(client, answer);
    state.front += 1;
    Ok(())
}

/// Takes in what an entry stands for after what is known, with the scan of an entry of one.
fn follow_entry<A: Allocator + Copy>(
    state: &mut CoreState<A>,
    entry: &Entry<A>,
    scan: Option<&Scan<A>>,
) -> Result<(), CoreError>
    requires kept { HasInvariant (state_view state.old) }
    requires belongs { IsTold (entry_view entry.now) (option_copied scan) }
    ensures followed { OnOk result (state_view state.new ≡ followed_as (state_view state.old) (entry_view entry.now) (option_copied scan.entry)) }
    ensures unchanged { OnErr result (state_view state.new ≡ state_view state.old) }
    ensures refused { IfErr result (λ e. IsRefusal e (entry_refusal (state_view state.old) (entry_view entry.now))) }
{
    match entry {
        Entry::Window(window) => follow_event(state, Event::Window(*window)),
        Entry::HostWindow(window) => follow_event(state, Event::HostWindow(*window)),
        Entry::Asked(asked) => follow_event(state, Event::Asked(*asked)),
        Entry::Observed(observation) => follow_observed(state, observation),
        Entry::Scan { path, .. } => {
            let Some(scan) = scan else { unreachable!() };
            let scan = scan.share()?;
            follow_event(state, Event::Scanned { path: *path, scan })
        }
        Entry::Plan {
            client,
            answer,
            next,
        } => follow_plan(state, *client, copy_answer(answer.as_ref())?, *next),
        Entry::Settled(settlement) => follow_event(state, Event::Settled(*settlement)),
    }
}

/// Takes in what is told.
pub(crate) fn follow_told<A: Allocator + Copy>(
    state: &mut CoreState<A>,
    told: &Told<A>,
) -> Result<(), CoreError>
    requires { HasInvariant (state_view state.old) }
    ensures followed { OnOk result (state_view state.new ≡ followed (state_view state.old) told.now) }
    ensures unchanged { OnErr result (state_view state.new ≡ state_view state.old) }
    ensures refused { IfErr result (λ e. IsRefusal e (entry_refusal (state_view state.old) told.now.entry)) }
{
    follow_entry(state, told.entry().entry(), told.scan())
}
