//! The relayer state machine.
ghost use Rattle.std.specs.Prelude.{◌≡◌, ◌∷◌, [], All, length, Some, IfOk, IfErr, IfSome};
ghost use Rattle.std.specs.Option.{option_copied};
ghost use Rattle.rb_script_types.specs.Config.{config_view, IsConfig};
ghost use Rattle.rb_core_model.specs.Config.{IsSetUp};
ghost use Rattle.rb_core.specs.Core.{state_in, refusal_in, IsFold, IsReady};
ghost use Rattle.rb_core.specs.Follower.{IsOfLog, log_in};
ghost use Rattle.rb_core.specs.Snapshot.{snapshot_view};
ghost use Rattle.rb_core.specs.State.{standing_view, state_view};
ghost use Rattle.rb_core_model.specs.Begun.{IsBegun};
ghost use Rattle.rb_core_model.specs.Entry.{log_from};
ghost use Rattle.rb_core_model.specs.Event.{IsEvent};
ghost use Rattle.rb_core_model.specs.Forgetting.{floors_of, has_many_to_forget, rest_at_floors};
ghost use Rattle.rb_core_model.specs.Over.{firsts_of};
ghost use Rattle.rb_core_model.specs.Judged as judged;
ghost use Rattle.rb_core_model.specs.Log.{IsLog};
ghost use Rattle.rb_core_model.specs.Machine.{client_view, client_view_refusal, is_scanned, path_view_refusal, reply_of};
ghost use Rattle.rb_core_model.specs.Refused.{IsRefusal};
ghost use Rattle.rb_core_model.specs.Replied.{reply_view};
ghost use Rattle.rb_core_model.specs.Seen.{event_view};
ghost use Rattle.rb_core_model.specs.Snapshot.{followed_by, from_nothing, snapshot_of};
ghost use Rattle.rb_core_model.specs.Standing.{book_at, path_view, batch_open};

use crate::client_views::{book_of, client_view};
use crate::copies::{anew, copy_state, floors_of, has_many_to_forget, new_state, share_begun};
use crate::follower::Follower;
use crate::judging::{make_ready, make_ready_accepted, take_in};
use crate::path_views::{is_scanned, path_view};
use crate::snapshot::{Snapshot, known_in, restored_state};
use crate::state::CoreState;
use rb_base::Part;
use rb_book::SharedBook;
use rb_core_model::laws::client_views_are_views;
use rb_core_model::rules::fee_tables;
use rb_core_model::{CoreError, Event, Ready, Reply, SharedEntry, share_entries};
use rb_core_state::OpenBatch;
use rb_core_state::clients::open_batch;
use rb_core_state::paths::firsts;
use rb_plan_client::JobView;
use rb_scan::PathView;
use rb_script_types::Config;
use std::alloc::{AllocError, Allocator, Global};
use std::marker::Model;
use std::sync::Arc;

/// The relayer state machine: the state of all chains, clients and paths, as the fold of the events that
/// were taken in since it began. A contract sees its configuration, its log (what it began with, and
/// these events), and the room that it has for more.
#[derive(Drop)]
pub struct Core<A: Allocator = Global> {
    alloc: A,
    config: Config<A>,
    // what was known before the first entry of the log; None where nothing was
    begun: Option<Arc<CoreState<A>, A>>,
    state: CoreState<A>,
    log: Vec<SharedEntry<A>, A>,
}

impl<A: Allocator> Model for Core<A> {
    ghost use Rattle.std.specs.Prelude.{◌-◌, vec_len, vec_capacity};
    ghost use Rattle.std.specs.Arc.{arc_value};
    ghost use Rattle.std.specs.Option.{option_map};
    ghost use Rattle.rb_script_types.specs.Config.{config_view};
    ghost use Rattle.rb_core.specs.Core as cores;
    ghost use Rattle.rb_core.specs.Core.{IsFold};
    ghost use Rattle.rb_core_model.specs.Entry.{log_from};
    ghost use Rattle.rb_core.specs.State.{start_of, state_view};

    ghost Value = { cores.Core };

    ghost view = { λ c. record { config = config_view c.config; log = log_from (config_view c.config) (start_of (option_map arc_value c.begun)) c.log.items; room = cores.room_of (vec_capacity c.log - vec_len c.log) c.state } };

    ghost invariant = { λ c. IsFold (config_view c.config) (log_from (config_view c.config) (start_of (option_map arc_value c.begun)) c.log.items) (state_view c.state) };
}

impl<A: Allocator + Copy> Core<A> {
    /// A core before its first event. `AllocError` where memory is refused; the configuration is given
    /// up then.
    pub fn new(alloc: A, config: Config<A>) -> Result<Core<A>, AllocError>
        requires { IsConfig (config_view config) }
        ensures config { IfOk result (λ core. core.config ≡ config_view config) }
        ensures log { IfOk result (λ core. core.log ≡ from_nothing []) }
    {
        let state = new_state(alloc, &config)?;
        fee_tables(config.clients.as_slice());
        Ok(Core {
            alloc,
            config,
            begun: None,
            state,
            log: Vec::new(alloc),
        })
    }

    /// A core that begins with what a snapshot tells. None where it doesn't fit: it hasn't as many books,
    /// clients and paths as the configuration, stored heights of a client or the heights of its open batch's
    /// updates have no record, sequences of a path don't rise, messages of an open batch don't rise by path,
    /// kind and sequence, or one isn't for its client, or was settled. `AllocError` where memory is refused, or
    /// something has as many owners as can be counted; the configuration is given up then.
    pub fn restored(
        alloc: A,
        config: Config<A>,
        snapshot: &Snapshot<A>,
    ) -> Result<Option<Core<A>>, AllocError>
        requires { IsConfig (config_view config) }
        ensures config { IfOk result (λ found. IfSome found (λ core. core.config ≡ config_view config)) }
        ensures log { IfOk result (λ found. IfSome found (λ core. core.log ≡ record { start = snapshot_view snapshot.now; events = [] })) }
    {
        let Some(state) = restored_state(alloc, &config, snapshot)? else {
            return Ok(None);
        };
        fee_tables(config.clients.as_slice());
        Ok(Some(Core::begun_in(alloc, config, state)?))
    }

    /// What is known. The books are shared. `AllocError` where memory is refused, or a book has as many owners
    /// as can be counted.
    pub fn snapshot(&self) -> Result<Snapshot<A>, AllocError>
        ensures { IfOk result (λ snapshot. snapshot_view snapshot ≡ snapshot_of (state_in self.now).standing) }
    {
        known_in(self.alloc, &self.state)
    }

    /// An equal core: with the same configuration and the same log. Its books are shared with this
    /// one until one of the two changes them. `AllocError` where memory is refused, or something has as
    /// many owners as can be counted.
    pub fn copy(&self) -> Result<Core<A>, AllocError>
        ensures config { IfOk result (λ core. core.config ≡ self.now.config) }
        ensures log { IfOk result (λ core. core.log ≡ self.now.log) }
    {
        Ok(Core {
            alloc: self.alloc,
            config: self.config.copy()?,
            begun: share_begun(&self.begun)?,
            state: copy_state(self.alloc, &self.state)?,
            log: share_entries(self.alloc, self.log.as_slice())?,
        })
    }

    /// A follower of this core that has replayed its log. `AllocError` as for `copy`.
    pub fn follower(&self) -> Result<Follower<A>, AllocError>
        ensures config { IfOk result (λ follower. follower.past.config ≡ self.now.config) }
        ensures followed { IfOk result (λ follower. log_in follower.past ≡ self.now.log) }
        ensures log { IfOk result IsOfLog }
    {
        Ok(Follower::new(
            self.alloc,
            self.config.copy()?,
            share_begun(&self.begun)?,
            copy_state(self.alloc, &self.state)?,
            share_entries(self.alloc, self.log.as_slice())?,
        ))
    }

    /// The floors of all chains, by their places; 0 where a chain has none. `AllocError` where memory is refused.
    pub fn floors(&self) -> Result<Vec<u64, A>, AllocError>
        ensures { IfOk result (λ floors. floors.items ≡ floors_of (state_in self.now).standing) }
    {
        floors_of(self.alloc, &self.state)
    }

    /// The first sequences of the paths, in their order: below them packets were forgotten, if any were, or none
    /// was sent. `AllocError` where memory is refused.
    pub fn firsts(&self) -> Result<Vec<u64, A>, AllocError>
        ensures { IfOk result (λ firsts. firsts.items ≡ firsts_of (state_in self.now).standing) }
    {
        firsts(self.alloc, self.state.paths.as_slice())
    }

    /// Whether so many records of some chain lie below its floor, or so many packets at the front of some path
    /// are over, and go where the core begins anew.
    pub fn has_many_to_forget(&self, least: usize) -> bool
        ensures { result ≡ has_many_to_forget least (state_in self.now).standing }
    {
        has_many_to_forget(&self.state, least)
    }

    /// This core, which begins anew: it forgets what lies below the floors of its chains, and the packets that
    /// are over at the front of its paths, but for the last 256 of each, and its log begins with what is left.
    /// `AllocError` where memory is refused, something has as many owners as can be counted, or a client has
    /// opened more than 2^62 batches; the core is given up then.
    pub fn begin_anew(self) -> Result<Core<A>, AllocError>
        ensures config { IfOk result (λ core. core.config ≡ self.config) }
        ensures log { IfOk result (λ core. core.log ≡ record { start = snapshot_of (rest_at_floors (state_in self).standing); events = [] }) }
        ensures standing { IfOk result (λ core. (state_in core).standing ≡ rest_at_floors (state_in self).standing) }
    {
        let Core {
            alloc,
            config,
            state,
            ..
        } = self;
        let state = anew(alloc, &config, state)?;
        Core::begun_in(alloc, config, state)
    }

    /// A core whose log begins with what is known in a state.
    fn begun_in(alloc: A, config: Config<A>, state: CoreState<A>) -> Result<Core<A>, AllocError>
        requires { IsFold (config_view config) (record { start = snapshot_of (standing_view state); events = [] }) (state_view state) }
        ensures config { IfOk result (λ core. core.config ≡ config_view config) }
        ensures log { IfOk result (λ core. core.log ≡ record { start = snapshot_of (standing_view state); events = [] }) }
    {
        let begun = Arc::new(alloc, copy_state(alloc, &state)?)?;
        Ok(Core {
            alloc,
            config,
            begun: Some(begun),
            state,
            log: Vec::new(alloc),
        })
    }

    /// Judges an event, and makes room for it. The state stays as it is, whatever is answered. An error
    /// is the first refusal that applies; or `NoMemory`, where memory is refused.
    pub fn judge(&mut self, event: Event<A>) -> Result<Ready<A>, CoreError>
        ensures config { self.new.config ≡ self.old.config }
        ensures log { self.new.log ≡ self.old.log }
        ensures judged { IfOk result (λ ready. ready.event ≡ event_view event) }
        ensures ready { IfOk result (IsReady self.new) }
        ensures kept { (other : judged.Ready) → IsReady self.old other → IsReady self.new other }
        ensures refused { IfErr result (λ e. IsRefusal e (refusal_in self.old (event_view event))) }
    {
        make_ready(self.alloc, &mut self.state, &mut self.log, event)
    }

    /// Makes room for an event that this core doesn't refuse, without judging it again: what a caller
    /// made of this core's own views is compared with none of them. The state stays as it is, whatever
    /// is answered. `AllocError` where memory is refused.
    pub fn judge_accepted(&mut self, event: Event<A>) -> Result<Ready<A>, AllocError>
        requires accepted { refusal_in self.old (event_view event) ≡ None }
        ensures config { self.new.config ≡ self.old.config }
        ensures log { self.new.log ≡ self.old.log }
        ensures judged { IfOk result (λ ready. ready.event ≡ event_view event) }
        ensures ready { IfOk result (IsReady self.new) }
        ensures kept { (other : judged.Ready) → IsReady self.old other → IsReady self.new other }
    {
        make_ready_accepted(self.alloc, &mut self.state, &mut self.log, event)
    }

    /// Takes in an event that this core judged after the events that it has taken in. It cannot fail.
    pub fn settle(&mut self, ready: Ready<A>) -> Reply
        requires { IsReady self.old ready }
        ensures config { self.new.config ≡ self.old.config }
        ensures log { self.new.log ≡ followed_by self.old.log (ready.event ∷ []) }
        ensures reply { reply_view result ≡ reply_of (state_in self.old) ready.event }
    {
        take_in(&mut self.state, &mut self.log, ready)
    }

    /// The configuration.
    pub fn config(&self) -> &Config<A>
        ensures value { config_view result.now ≡ self.now.config }
        ensures set_up { IsSetUp self.now.config }
    {
        &self.config
    }

    /// How many events were taken in.
    pub fn front(&self) -> usize
        ensures count { result ≡ length self.now.log.events }
        ensures state { result ≡ (state_in self.now).front }
        ensures begun { IsBegun self.now.config self.now.log.start }
        ensures events { All IsEvent self.now.log.events }
        ensures accepted { IsLog self.now.config self.now.log }
    {
        self.state.front
    }

    /// The log: an entry for each event that was taken in since it began, from which the events come back.
    pub fn log(&self) -> &[SharedEntry<A>]
        ensures { log_from self.now.config self.now.log.start result.now ≡ self.now.log }
    {
        self.log.as_slice()
    }

    /// A client as a worker gets it: what a plan for it goes by, the number of its next plan, and
    /// whether a batch of it is open. Its book is shared. `UnknownObject` where there is no such client,
    /// `OutOfOrder` before the first window, `NoMemory` where memory is refused.
    pub fn client_view(&self, client: usize) -> Result<JobView<A>, CoreError>
        ensures view { IfOk result (λ view. client_view (state_in self.now) client ≡ Some view) }
        ensures refused { IfErr result (λ e. IsRefusal e (client_view_refusal (state_in self.now) client)) }
    {
        client_views_are_views();
        client_view(self.alloc, &self.state, client)
    }

    /// One more owner of the book of a chain, of an empty one where there is no such chain. `AllocError`
    /// where memory is refused, or the book has as many owners as can be counted.
    pub fn book(&self, chain: usize) -> Result<SharedBook<A>, AllocError>
        ensures { IfOk result (λ shared. shared.book ≡ book_at (state_in self.now).standing.books chain) }
    {
        book_of(self.alloc, &self.state, chain)
    }

    /// A path as it is scanned. `UnknownObject` where there is no such path, `NoMemory` where memory is
    /// refused.
    pub fn path_view(&self, path: usize) -> Result<PathView<A>, CoreError>
        ensures view { IfOk result (λ view. path_view (state_in self.now).standing path ≡ Some view) }
        ensures refused { IfErr result (λ e. IsRefusal e (path_view_refusal (state_in self.now) path)) }
    {
        path_view(self.alloc, &self.state, path)
    }

    /// Whether a part of a path was scanned as the path still is.
    pub fn is_scanned(&self, path: usize, part: Part) -> bool
        ensures { result ≡ is_scanned (state_in self.now) path part }
    {
        is_scanned(&self.state, path, part)
    }

    /// The open batch of a client; None where there is no such client, or no batch of its is open.
    pub fn open_batch(&self, client: usize) -> Option<&OpenBatch<A>>
        ensures { option_copied result ≡ batch_open (state_in self.now).standing client }
    {
        open_batch(self.state.clients.as_slice(), client)
    }
}
