//! What takes events in: a core alone, or what has one.
ghost use Rattle.std.specs.Prelude.{◌≡◌, ◌∷◌, [], None, IfOk, IfErr, OnOk, OnErr};
ghost use Rattle.rb_core.specs.Core as cores;
ghost use Rattle.rb_core.specs.Core.{refusal_in, state_in};
ghost use Rattle.rb_core_model.specs.Machine.{reply_of};
ghost use Rattle.rb_core_model.specs.Refused.{IsRefusal};
ghost use Rattle.rb_core_model.specs.Replied.{reply_view};
ghost use Rattle.rb_core_model.specs.Seen.{event_view};
ghost use Rattle.rb_core_model.specs.Snapshot.{followed_by};
ghost use Rattle.rb_super_turn.specs.Slots.{event_in};

use rb_core::Core;
use rb_core_model::{CoreError, Event, Reply};
use std::alloc::{AllocError, Allocator};

/// What takes events in, and shows the core after all of them.
pub trait Machine<A: Allocator + Copy> {
    // How it is configured, and its log; nothing rests on the room that this has.
    ghost seen_as: { Self → cores.Core };

    /// The core after all events that were taken in.
    fn core(&self) -> &Core<A>
        ensures config { result.now.config ≡ (seen_as self.now).config }
        ensures log { result.now.log ≡ (seen_as self.now).log };

    /// Takes the event out of a slot, judges it and takes it in. What is refused changes nothing that can
    /// be seen. An error too where the slot was empty. (That the slot is empty after the call is in no clause.)
    fn take_from(&mut self, slot: &mut Option<Event<A>>) -> Result<Reply, CoreError>
        ensures config { (seen_as self.new).config ≡ (seen_as self.old).config }
        ensures appended { OnOk result ((seen_as self.new).log ≡ followed_by (seen_as self.old).log (event_in slot.old ∷ [])) }
        ensures unchanged { OnErr result ((seen_as self.new).log ≡ (seen_as self.old).log) }
        ensures accepted { OnOk result (refusal_in (seen_as self.old) (event_in slot.old) ≡ None) }
        ensures refused { IfErr result (λ e. IsRefusal e (refusal_in (seen_as self.old) (event_in slot.old))) }
        ensures reply { IfOk result (λ reply. reply_view reply ≡ reply_of (state_in (seen_as self.old)) (event_in slot.old)) };

    /// Takes the event out of a slot and takes it in, where it isn't refused, without judging it again.
    /// After an error nothing has changed that can be seen; an error too where the slot was empty.
    fn take_accepted(&mut self, slot: &mut Option<Event<A>>) -> Result<Reply, AllocError>
        requires accepted { refusal_in (seen_as self.old) (event_in slot.old) ≡ None }
        ensures config { (seen_as self.new).config ≡ (seen_as self.old).config }
        ensures appended { OnOk result ((seen_as self.new).log ≡ followed_by (seen_as self.old).log (event_in slot.old ∷ [])) }
        ensures unchanged { OnErr result ((seen_as self.new).log ≡ (seen_as self.old).log) }
        ensures reply { IfOk result (λ reply. reply_view reply ≡ reply_of (state_in (seen_as self.old)) (event_in slot.old)) };
}

/// Judges an event and takes it in. What is refused changes nothing that can be seen.
fn append<A: Allocator + Copy>(core: &mut Core<A>, event: Event<A>) -> Result<Reply, CoreError>
    ensures config { core.new.config ≡ core.old.config }
    ensures appended { OnOk result (core.new.log ≡ followed_by core.old.log (event_view event ∷ [])) }
    ensures unchanged { OnErr result (core.new.log ≡ core.old.log) }
    ensures accepted { OnOk result (refusal_in core.old (event_view event) ≡ None) }
    ensures refused { IfErr result (λ e. IsRefusal e (refusal_in core.old (event_view event))) }
    ensures reply { IfOk result (λ reply. reply_view reply ≡ reply_of (state_in core.old) (event_view event)) }
{
    let ready = core.judge(event)?;
    Ok(core.settle(ready))
}

/// Takes in an event that isn't refused, without judging it again.
fn append_accepted<A: Allocator + Copy>(
    core: &mut Core<A>,
    event: Event<A>,
) -> Result<Reply, AllocError>
    requires accepted { refusal_in core.old (event_view event) ≡ None }
    ensures config { core.new.config ≡ core.old.config }
    ensures appended { OnOk result (core.new.log ≡ followed_by core.old.log (event_view event ∷ [])) }
    ensures unchanged { OnErr result (core.new.log ≡ core.old.log) }
    ensures reply { IfOk result (λ reply. reply_view reply ≡ reply_of (state_in core.old) (event_view event)) }
{
    let ready = core.judge_accepted(event)?;
    Ok(core.settle(ready))
}

impl<A: Allocator + Copy> Machine<A> for Core<A> {
    ghost seen_as = { λ core. core };

    fn core(&self) -> &Core<A>
        ensures config { result.now.config ≡ self.now.config }
        ensures log { result.now.log ≡ self.now.log }
    {
        self
    }

    fn take_from(&mut self, slot: &mut Option<Event<A>>) -> Result<Reply, CoreError>
        ensures config { self.new.config ≡ self.old.config }
        ensures appended { OnOk result (self.new.log ≡ followed_by self.old.log (event_in slot.old ∷ [])) }
        ensures unchanged { OnErr result (self.new.log ≡ self.old.log) }
        ensures accepted { OnOk result (refusal_in self.old (event_in slot.old) ≡ None) }
        ensures refused { IfErr result (λ e. IsRefusal e (refusal_in self.old (event_in slot.old))) }
        ensures reply { IfOk result (λ reply. reply_view reply ≡ reply_of (state_in self.old) (event_in slot.old)) }
    {
        match slot.take() {
            Some(event) => append(self, event),
            None => Err(CoreError::NoMemory),
        }
    }

    fn take_accepted(&mut self, slot: &mut Option<Event<A>>) -> Result<Reply, AllocError>
        requires accepted { refusal_in self.old (event_in slot.old) ≡ None }
        ensures config { self.new.config ≡ self.old.config }
        ensures appended { OnOk result (self.new.log ≡ followed_by self.old.log (event_in slot.old ∷ [])) }
        ensures unchanged { OnErr result (self.new.log ≡ self.old.log) }
        ensures reply { IfOk result (λ reply. reply_view reply ≡ reply_of (state_in self.old) (event_in slot.old)) }
    {
        match slot.take() {
            Some(event) => append_accepted(self, event),
            None => Err(AllocError),
        }
    }
}
