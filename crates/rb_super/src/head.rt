//! The pen of a board, as a machine that takes events in.
ghost use Rattle.std.specs.Prelude.{◌≡◌, ◌∷◌, [], None, IfOk, IfErr, OnOk, OnErr, length, replicate};
ghost use Rattle.rb_core.specs.Core.{refusal_in, state_in};
ghost use Rattle.rb_core_model.specs.Machine.{reply_of};
ghost use Rattle.rb_core_model.specs.Refused.{IsRefusal};
ghost use Rattle.rb_core_model.specs.Replied.{reply_view};
ghost use Rattle.rb_core_model.specs.Snapshot.{followed_by};
ghost use Rattle.rb_super_turn.specs.Slots.{event_in};
ghost use Rattle.rb_super.specs.Heads.{head_of};

use rb_board::Pen;
use rb_core::Core;
use rb_core_model::{CoreError, Event, Reply};
use rb_graph::SharedGraph;
use rb_super_turn::{Machine, Relayer};
use std::alloc::{AllocError, Global};
use std::marker::Model;
use std::sync::Wait;

/// The pen of a board, whose head is the machine: what it takes in is appended. It is not `Drop`, as
/// the pen isn't. A contract sees what was appended.
pub(crate) struct Head {
    pen: Pen,
}

impl Model for Head {
    ghost use Rattle.rb_core.specs.Core as cores;
    ghost use Rattle.rb_super.specs.Heads.{head_of};

    ghost Value = { cores.Core };

    ghost view = { λ h. head_of h.pen };
}

impl Machine<Global> for Head {
    ghost seen_as = { λ head. head };

    fn core(&self) -> &Core
        ensures config { result.now.config ≡ self.now.config }
        ensures log { result.now.log ≡ self.now.log }
    {
        self.pen.head()
    }

    fn take_from(&mut self, slot: &mut Option<Event>) -> Result<Reply, CoreError>
        ensures config { self.new.config ≡ self.old.config }
        ensures appended { OnOk result (self.new.log ≡ followed_by self.old.log (event_in slot.old ∷ [])) }
        ensures unchanged { OnErr result (self.new.log ≡ self.old.log) }
        ensures accepted { OnOk result (refusal_in self.old (event_in slot.old) ≡ None) }
        ensures refused { IfErr result (λ e. IsRefusal e (refusal_in self.old (event_in slot.old))) }
        ensures reply { IfOk result (λ reply. reply_view reply ≡ reply_of (state_in self.old) (event_in slot.old)) }
    {
        match slot.take() {
            Some(event) => self.pen.append(event),
            None => Err(CoreError::NoMemory),
        }
    }

    fn take_accepted(&mut self, slot: &mut Option<Event>) -> Result<Reply, AllocError>
        requires accepted { refusal_in self.old (event_in slot.old) ≡ None }
        ensures config { self.new.config ≡ self.old.config }
        ensures appended { OnOk result (self.new.log ≡ followed_by self.old.log (event_in slot.old ∷ [])) }
        ensures unchanged { OnErr result (self.new.log ≡ self.old.log) }
        ensures reply { IfOk result (λ reply. reply_view reply ≡ reply_of (state_in self.old) (event_in slot.old)) }
    {
        match slot.take() {
            Some(event) => self.pen.append_accepted(event),
            None => Err(AllocError),
        }
    }
}

/// A relayer over the pen of a board, with a place for a table of each chain.
pub(crate) fn relayer_over(pen: Pen, tables: Vec<Option<SharedGraph>>) -> Relayer<Global, Head>
    requires { tables.items ≡ replicate (length pen.config.chains) None }
    ensures { result ≡ head_of pen }
{
    Relayer::from_parts(Head { pen }, tables)
}

/// Shows the workers all that the relayer has taken in. Where a growth is refused, they are shown
/// nothing more.
pub(crate) fn publish<R: Wait>(
    rt: &R,
    relayer: Relayer<Global, Head>,
) -> (Relayer<Global, Head>, Result<(), AllocError>)
    ensures { result.0 ≡ relayer }
{
    let (head, tables) = relayer.into_parts();
    let Head { pen } = head;
    let (pen, published) = pen.publish(rt);
    (Relayer::from_parts(Head { pen }, tables), published)
}

/// Ends the board; tells what the relayer has taken in.
pub(crate) fn close<R: Wait>(rt: &R, relayer: Relayer<Global, Head>) -> Core
    ensures config { result.config ≡ relayer.config }
    ensures log { result.log ≡ relayer.log }
{
    let (head, _tables) = relayer.into_parts();
    let Head { pen } = head;
    pen.close(rt)
}
