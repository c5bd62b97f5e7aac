//! Events that are taken in.
ghost use Rattle.std.specs.Prelude.{◌≡◌, true, None, IfOk, IfSome, OnOk};
ghost use Rattle.rb_core.specs.Core.{refusal_in, state_in};
ghost use Rattle.rb_core_model.specs.Machine.{after, is_known, reply_of};
ghost use Rattle.rb_core_model.specs.Replied.{reply_view};
ghost use Rattle.rb_core_model.specs.Seen.{event_view};
ghost use Rattle.rb_core_model.specs.Standing.{judged, standing_after};
ghost use Rattle.rb_core_model.specs.Steps.{IsFromOutside};
ghost use Rattle.rb_super_turn.specs.Phases.{standing_in, HasLogRoom, IsLater};
ghost use Rattle.rb_super_turn.specs.Tables.{chain_of};

use crate::machine::Machine;
use crate::relayer::Relayer;
use rb_core_model::{CoreError, Event, Reply};
use rb_script_types::Refusal;
use std::alloc::{AllocError, Allocator};

/// Judges an event and takes it in, or tells why it is refused; one that is refused changes nothing.
fn take_in<A: Allocator + Copy, M: Machine<A>>(
    relayer: &mut Relayer<A, M>,
    event: Event<A>,
) -> Result<Option<Refusal>, AllocError>
    ensures judged { IfOk result (λ refusal. refusal ≡ refusal_in relayer.old (event_view event)) }
    ensures state { OnOk result (state_in relayer.new ≡ after (state_in relayer.old) (event_view event)) }
    ensures later { OnOk result (IsLater 1 relayer.old relayer.new) }
{
    match relayer.take_in(event) {
        Ok(_) => Ok(None),
        Err(CoreError::Refused(refusal)) => Ok(Some(refusal)),
        Err(CoreError::NoMemory) => Err(AllocError),
    }
}

/// Takes in an event from outside, of something that is there, or tells why it is refused; one that
/// is refused changes nothing.
pub(crate) fn hear<A: Allocator + Copy, M: Machine<A>>(
    relayer: &mut Relayer<A, M>,
    event: Event<A>,
) -> Result<Option<Refusal>, AllocError>
    requires outside { IsFromOutside (event_view event) }
    requires known { is_known (state_in relayer.old) (event_view event) ≡ true }
    requires room { HasLogRoom relayer.old 1 }
    ensures judged { IfOk result (λ refusal. refusal ≡ judged (standing_in relayer.old) (event_view event)) }
    ensures standing { OnOk result (standing_in relayer.new ≡ standing_after (standing_in relayer.old) (event_view event)) }
    ensures later { OnOk result (IsLater 1 relayer.old relayer.new) }
{
    let refusal = take_in(relayer, event)?;
    Ok(refusal)
}

/// Takes in an event that isn't refused and adds to no book, without judging it again; tells what is
/// replied.
pub(crate) fn note<A: Allocator + Copy, M: Machine<A>>(
    relayer: &mut Relayer<A, M>,
    event: Event<A>,
) -> Result<Reply, AllocError>
    requires accepted { refusal_in relayer.old (event_view event) ≡ None }
    requires no_addition { chain_of relayer.old.config (event_view event) ≡ None }
    ensures reply { IfOk result (λ reply. reply_view reply ≡ reply_of (state_in relayer.old) (event_view event)) }
    ensures state { OnOk result (state_in relayer.new ≡ after (state_in relayer.old) (event_view event)) }
    ensures later { OnOk result (IsLater 1 relayer.old relayer.new) }
{
    relayer.take_accepted(event)
}

/// Offers an event that may be refused, which then changes nothing; tells what is replied to one that
/// is taken in.
pub(crate) fn offer<A: Allocator + Copy, M: Machine<A>>(
    relayer: &mut Relayer<A, M>,
    event: Event<A>,
) -> Result<Option<Reply>, AllocError>
    ensures accepted { IfOk result (λ o. IfSome o (λ _. refusal_in relayer.old (event_view event) ≡ None)) }
    ensures reply { IfOk result (λ o. IfSome o (λ reply. reply_view reply ≡ reply_of (state_in relayer.old) (event_view event))) }
    ensures refused { IfOk result (λ o. o ≡ None → state_in relayer.new ≡ state_in relayer.old) }
    ensures state { OnOk result (state_in relayer.new ≡ after (state_in relayer.old) (event_view event)) }
    ensures later { OnOk result (IsLater 1 relayer.old relayer.new) }
{
    match relayer.take_in(event) {
        Ok(reply) => Ok(Some(reply)),
        Err(CoreError::Refused(_)) => Ok(None),
        Err(CoreError::NoMemory) => Err(AllocError),
    }
}
