//! The desks.
ghost use Rattle.std.specs.Prelude.{◌≡◌, ◌≤◌, ◌<◌, length, max, Some, IsSome, IfOk, IfErr, IfNone, IfSome, OnOk};
ghost use Rattle.rb_core.specs.Follower.{IsOfLog, log_in, state_after};
ghost use Rattle.rb_core_model.specs.Machine.{client_view, client_view_refusal, path_view_refusal, state_of};
ghost use Rattle.rb_core_model.specs.Snapshot.{IsBeginning};
ghost use Rattle.rb_core_model.specs.Standing.{path_view};
ghost use Rattle.rb_board.specs.Rule.{Sees, known_by, known_of, past_of};
ghost use Rattle.rb_board.specs.Unseen.{IsUnseen};

use crate::error::DeskError;
use crate::note::Note;
use crate::replica::Replica;
use crate::rule::{Knows, Looks, Published};
use left_right::reader::{Reader, Reading};
use rb_core::Follower;
use rb_plan_client::JobView;
use rb_scan::PathView;
use std::alloc::{Allocator, Global};
use std::marker::Model;

/// A reader of what is published, for one thread at a time. A contract sees how the board's core is
/// configured, the beginning of the board's log that this desk has seen, and how many events it was
/// told of.
#[derive(Drop)]
pub struct Desk<A: Allocator = Global> {
    reader: Option<Reader<Replica<A>, Knows, Published, A>>,
    told: usize,
}

impl<A: Allocator> Model for Desk<A> {
    ghost use Rattle.std.specs.Prelude.{IsSome};
    ghost use Rattle.rb_board.specs.Ends as ends;
    ghost use Rattle.rb_core.specs.Follower.{log_in};
    ghost use Rattle.rb_board.specs.Rule.{known_of, past_of};

    ghost Value = { ends.Desk };

    ghost view = { λ d. record { config = (past_of (known_of d.reader)).config; seen = log_in (past_of (known_of d.reader)); told = d.told } };

    ghost invariant = { λ d. IsSome d.reader × IsSome (known_of d.reader).origin };
}

impl<A: Allocator + Copy> Desk<A> {
    /// The desk that reads so, and was told nothing.
    pub(crate) fn new(reader: Reader<Replica<A>, Knows, Published, A>) -> Desk<A>
        requires { IsSome (known_by reader.place).origin }
        ensures { let p = past_of (known_by reader.place) in result ≡ record { config = p.config; seen = log_in p; told = 0 } }
    {
        Desk {
            reader: Some(reader),
            told: 0,
        }
    }

    /// From now on an answer is of at least so many events.
    pub fn learn(&mut self, note: Note)
        ensures config { self.new.config ≡ self.old.config }
        ensures seen { self.new.seen ≡ self.old.seen }
        ensures told { self.new.told ≡ max self.old.told note.front }
    {
        self.told = self.told.max(note.front);
    }

    /// How many events are published now. Takes no memory, and doesn't wait.
    pub fn front(&mut self) -> Result<usize, DeskError>
        ensures config { self.new.config ≡ self.old.config }
        ensures told { self.new.told ≡ self.old.told }
        ensures begins { IsBeginning self.old.seen self.new.seen }
        ensures front { IfOk result (λ front. front ≡ length self.new.seen.events) }
        ensures enough { OnOk result (self.old.told ≤ length self.new.seen.events) }
    {
        let Some(reading) = enter(&mut self.reader) else {
            return Err(DeskError::Closed);
        };
        let front = front_of(&reading.get().follower, self.told);
        self.reader = Some(reading.leave());
        front
    }

    /// A client as a worker gets it, after the events that are published now: as `Core::client_view`.
    /// They begin with all that this desk saw before, and are at least as many as it was told of,
    /// else it is `Behind`. Doesn't wait.
    pub fn view_client(&mut self, client: usize) -> Result<JobView<A>, DeskError>
        ensures config { self.new.config ≡ self.old.config }
        ensures told { self.new.told ≡ self.old.told }
        ensures begins { IsBeginning self.old.seen self.new.seen }
        ensures enough { OnOk result (self.old.told ≤ length self.new.seen.events) }
        ensures view { IfOk result (λ view. client_view (state_of self.new.config self.new.seen) client ≡ Some view) }
        ensures refused { IfErr result (λ e. IsUnseen e self.new (client_view_refusal (state_of self.new.config self.new.seen) client)) }
    {
        let Some(reading) = enter(&mut self.reader) else {
            return Err(DeskError::Closed);
        };
        let view = client_of(&reading.get().follower, client, self.told);
        self.reader = Some(reading.leave());
        view
    }

    /// A path as it is scanned, after the events that are published now: as `Core::path_view`. They
    /// begin with all that this desk saw before, and are at least as many as it was told of, else it
    /// is `Behind`. Doesn't wait.
    pub fn view_path(&mut self, path: usize) -> Result<PathView<A>, DeskError>
        ensures config { self.new.config ≡ self.old.config }
        ensures told { self.new.told ≡ self.old.told }
        ensures begins { IsBeginning self.old.seen self.new.seen }
        ensures enough { OnOk result (self.old.told ≤ length self.new.seen.events) }
        ensures view { IfOk result (λ view. path_view (state_of self.new.config self.new.seen).standing path ≡ Some view) }
        ensures refused { IfErr result (λ e. IsUnseen e self.new (path_view_refusal (state_of self.new.config self.new.seen) path)) }
    {
        let Some(reading) = enter(&mut self.reader) else {
            return Err(DeskError::Closed);
        };
        let view = path_of(&reading.get().follower, path, self.told);
        self.reader = Some(reading.leave());
        view
    }
}

/// Takes what is published. None where the pen is gone.
fn enter<A: Allocator + Copy>(
    home: &mut Option<Reader<Replica<A>, Knows, Published, A>>,
) -> Option<Reading<Replica<A>, Knows, Published, A>>
    requires { IsSome home.old }
    ensures seen { IfSome result (λ reading. Sees (known_of home.old) reading.part.value reading.part.value (known_by reading.place)) }
    ensures closed { IfNone result (IsSome home.new × (known_of home.new ≡ known_of home.old)) }
{
    let Some(reader) = home.take() else {
        unreachable!()
    };
    match reader.enter_as::<Looks>() {
        Ok(reading) => Some(reading),
        Err(reader) => {
            *home = Some(reader);
            None
        }
    }
}

/// How many events there are, where they are at least so many.
fn front_of<A: Allocator + Copy>(follower: &Follower<A>, told: usize) -> Result<usize, DeskError>
    requires { IsOfLog follower.now }
    ensures front { IfOk result (λ front. front ≡ length (log_in follower.now.past).events) }
    ensures enough { OnOk result (told ≤ length (log_in follower.now.past).events) }
    ensures behind { IfErr result (λ e. length (log_in follower.now.past).events < told) }
{
    if follower.front() < told {
        return Err(DeskError::Behind);
    }
    Ok(follower.front())
}

/// A client, where there are at least so many events.
fn client_of<A: Allocator + Copy>(
    follower: &Follower<A>,
    client: usize,
    told: usize,
) -> Result<JobView<A>, DeskError>
    requires { IsOfLog follower.now }
    ensures enough { OnOk result (told ≤ length (log_in follower.now.past).events) }
    ensures view { IfOk result (λ view. client_view (state_after follower.now.past) client ≡ Some view) }
    ensures refused { IfErr result (λ e. IsUnseen e (record { config = follower.now.past.config; seen = log_in follower.now.past; told = told }) (client_view_refusal (state_after follower.now.past) client)) }
{
    if follower.front() < told {
        return Err(DeskError::Behind);
    }
    Ok(follower.client_view(client)?)
}

/// A path, where there are at least so many events.
fn path_of<A: Allocator + Copy>(
    follower: &Follower<A>,
    path: usize,
    told: usize,
) -> Result<PathView<A>, DeskError>
    requires { IsOfLog follower.now }
    ensures enough { OnOk result (told ≤ length (log_in follower.now.past).events) }
    ensures view { IfOk result (λ view. path_view (state_after follower.now.past).standing path ≡ Some view) }
    ensures refused { IfErr result (λ e. IsUnseen e (record { config = follower.now.past.config; seen = log_in follower.now.past; told = told }) (path_view_refusal (state_after follower.now.past) path)) }
{
    if follower.front() < told {
        return Err(DeskError::Behind);
    }
    Ok(follower.path_view(path)?)
}
