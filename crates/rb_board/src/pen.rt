//! The pen.
ghost use Rattle.std.specs.Prelude.{◌≡◌, ◌++◌, ◌∷◌, [], ◌<◌, ◌^◌, length, All, None, IfOk, IfErr, OnOk, MatchResult};
ghost use Rattle.rb_core_model.specs.Begun.{IsBegun};
ghost use Rattle.rb_core_model.specs.Config.{IsSetUp};
ghost use Rattle.rb_core_model.specs.Event.{IsEvent};
ghost use Rattle.rb_core_model.specs.Log.{IsLog};
ghost use Rattle.rb_core_model.specs.Machine.{refusal_of, reply_of, state_of};
ghost use Rattle.rb_core_model.specs.Refused.{IsRefusal};
ghost use Rattle.rb_core_model.specs.Replied.{reply_view};
ghost use Rattle.rb_core_model.specs.Seen.{event_view};
ghost use Rattle.rb_core_model.specs.Snapshot.{followed_by, IsBeginning};
ghost use Rattle.rb_board.specs.Rule.{pending};

use crate::desk::Desk;
use crate::note::Note;
use crate::replica::Replica;
use crate::rule::{Knows, Looks, Published, Tells};
use left_right::Absorb;
use left_right::writer::Writer;
use rb_core::{Core, Follower, Told};
use rb_core_model::{CoreError, Event, Reply};
use std::alloc::{AllocError, Allocator, Global};
use std::marker::Model;
use std::sync::Wait;

/// The end that appends. A contract sees how the board's core is configured, the board's log, which
/// is that of all appended events, and the published beginning of it. It is not `Drop`: end it by
/// `close`.
pub struct Pen<A: Allocator + Copy = Global>
where
    Replica<A>: Absorb<Told<A>, State = Follower<A>>,
{
    writer: Writer<Replica<A>, Told<A>, Knows, Published, A>,
    head: Core<A>,
}

impl<A: Allocator + Copy> Model for Pen<A>
where
    Replica<A>: Absorb<Told<A>, State = Follower<A>>,
{
    ghost use Rattle.rb_core.specs.Follower.{log_in};
    ghost use Rattle.rb_board.specs.Ends as ends;
    ghost use Rattle.rb_board.specs.Rule.{IsKnown, known_by, pending};

    ghost Value = { ends.Pen };

    ghost view = { λ p. record { config = p.head.config; log = p.head.log; published = log_in p.writer.desk.shown.value.follower.past } };

    ghost invariant = { λ p. IsKnown p.writer.desk.shown.value (known_by p.writer.desk.place) (pending p.writer) p.head.config p.head.log };
}

impl<A: Allocator + Copy> Pen<A> {
    /// The pen of a board with room for so many desks. What the core has taken in is published.
    pub(crate) fn new<R: Wait>(
        rt: &R,
        alloc: A,
        core: Core<A>,
        places: usize,
    ) -> Result<Pen<A>, AllocError>
        requires { (0 < places) × (places < 2 ^ 32) }
        ensures { IfOk result (λ pen. pen ≡ record { config = core.config; log = core.log; published = core.log }) }
    {
        let first = Replica {
            follower: core.follower()?,
        };
        let second = Replica {
            follower: first.follower.copy()?,
        };
        let writer = Writer::new(alloc, first, second, places)?;
        let (writer, shown) = writer.publish_as::<Looks, R>(rt);
        if shown.is_err() {
            writer.take(rt);
            return Err(AllocError);
        }
        Ok(Pen { writer, head: core })
    }

    /// Appends an event to the board's log, where the core after all appended events accepts it, and
    /// answers as that core. Desks don't see it before the next `publish`. After an error nothing has
    /// changed.
    pub fn append(&mut self, event: Event<A>) -> Result<Reply, CoreError>
        ensures config { self.new.config ≡ self.old.config }
        ensures published { self.new.published ≡ self.old.published }
        ensures appended { OnOk result (self.new.log ≡ followed_by self.old.log (event_view event ∷ [])) }
        ensures unchanged { IfErr result (λ _. self.new.log ≡ self.old.log) }
        ensures accepted { OnOk result (refusal_of (state_of self.old.config self.old.log) (event_view event) ≡ None) }
        ensures refused { IfErr result (λ e. IsRefusal e (refusal_of (state_of self.old.config self.old.log) (event_view event))) }
        ensures reply { IfOk result (λ reply. reply_view reply ≡ reply_of (state_of self.old.config self.old.log) (event_view event)) }
    {
        let ready = self.head.judge(event)?;
        let told = Told::of(&ready)?;
        keep(&mut self.writer, told)?;
        Ok(self.head.settle(ready))
    }

    /// Appends an event that the core after all appended events doesn't refuse, without judging it
    /// again, and answers as that core. Desks don't see it before the next `publish`. `AllocError` where
    /// memory is refused; nothing has changed then.
    pub fn append_accepted(&mut self, event: Event<A>) -> Result<Reply, AllocError>
        requires accepted { refusal_of (state_of self.old.config self.old.log) (event_view event) ≡ None }
        ensures config { self.new.config ≡ self.old.config }
        ensures published { self.new.published ≡ self.old.published }
        ensures appended { OnOk result (self.new.log ≡ followed_by self.old.log (event_view event ∷ [])) }
        ensures unchanged { IfErr result (λ _. self.new.log ≡ self.old.log) }
        ensures reply { IfOk result (λ reply. reply_view reply ≡ reply_of (state_of self.old.config self.old.log) (event_view event)) }
    {
        let ready = self.head.judge_accepted(event)?;
        let told = Told::of(&ready)?;
        keep(&mut self.writer, told)?;
        Ok(self.head.settle(ready))
    }

    /// The core after all appended events.
    pub fn head(&self) -> &Core<A>
        ensures config { result.now.config ≡ self.now.config }
        ensures log { result.now.log ≡ self.now.log }
        ensures published { IsBeginning self.now.published self.now.log }
    {
        &self.head
    }

    /// Makes all appended events visible, at one step. Waits for desks that still look at what was
    /// published before the last time. Where a growth is refused, nothing becomes visible, and what
    /// was appended waits for the next publish.
    pub fn publish<R: Wait>(self, rt: &R) -> (Pen<A>, Result<(), AllocError>)
        ensures config { result.0.config ≡ self.config }
        ensures log { result.0.log ≡ self.log }
        ensures published { OnOk result.1 (result.0.published ≡ self.log) }
        ensures unchanged { IfErr result.1 (λ _. result.0.published ≡ self.published) }
    {
        let Pen { writer, head } = self;
        know(&head);
        let (writer, published) = writer.publish_as::<Looks, R>(rt);
        let pen = Pen { writer, head };
        (pen, published)
    }

    /// How many events are published, for desks to learn.
    pub fn tell(&self) -> Note
        ensures { result.front ≡ length self.now.published.events }
    {
        Note {
            front: self.writer.published().follower.front(),
        }
    }

    /// A desk that knows what is published. An error comes only where each place is in use.
    pub(crate) fn desk(&mut self) -> Result<Desk<A>, AllocError>
        ensures same { self.new ≡ self.old }
        ensures knows { IfOk result (λ desk. desk ≡ record { config = self.old.config; seen = self.old.published; told = 0 }) }
    {
        let mut reader = self.writer.factory().reader()?;
        reader.learn::<Tells>(self.writer.tell::<Tells>());
        Ok(Desk::new(reader))
    }

    /// Waits for the desks, and ends the board. The core is the one after all appended events.
    pub fn close<R: Wait>(self, rt: &R) -> Core<A>
        ensures config { result.config ≡ self.config }
        ensures log { result.log ≡ self.log }
    {
        let Pen { writer, head } = self;
        writer.take(rt);
        head
    }
}

/// Tells that what a core has taken in is a log.
fn know<A: Allocator + Copy>(core: &Core<A>)
    ensures set_up { IsSetUp core.now.config }
    ensures begun { IsBegun core.now.config core.now.log.start }
    ensures events { All IsEvent core.now.log.events }
    ensures accepted { IsLog core.now.config core.now.log }
{
    core.config();
    core.front();
}

/// Puts what followers are told behind what is to be published.
fn keep<A: Allocator + Copy>(
    writer: &mut Writer<Replica<A>, Told<A>, Knows, Published, A>,
    told: Told<A>,
) -> Result<(), AllocError>
    ensures desk { writer.new.desk ≡ writer.old.desk }
    ensures pending { MatchResult result (λ _. pending writer.new ≡ pending writer.old ++ told ∷ []) (λ _. pending writer.new ≡ pending writer.old) }
{
    match writer.append(told) {
        Ok(()) => Ok(()),
        Err(_told) => Err(AllocError),
    }
}
