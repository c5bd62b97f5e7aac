//! Followers of a core's log.
ghost use Rattle.std.specs.Prelude.{◌≡◌, length, None, Some, IfOk, IfErr, OnErr, OnOk};
ghost use Rattle.rb_script_types.specs.Config.{config_view};
ghost use Rattle.std.specs.Arc.{arc_value};
ghost use Rattle.std.specs.Option.{option_map};
ghost use Rattle.rb_core.specs.Follower.{IsOfLog, entry_refusal, follows, log_in, state_after, told_of};
ghost use Rattle.rb_core.specs.State.{start_of, state_view};
ghost use Rattle.rb_core_model.specs.Event.{Event};
ghost use Rattle.rb_core_model.specs.Invariant.{HasInvariant};
ghost use Rattle.rb_core_model.specs.Machine.{client_view, client_view_refusal, path_view_refusal, refusal_of};
ghost use Rattle.rb_core_model.specs.Refused.{IsRefusal};
ghost use Rattle.rb_core_model.specs.Standing.{path_view};
ghost use Rattle.rb_core_model.specs.declared.error.CoreError.TheVariants as errors;

use crate::client_views::client_view;
use crate::copies::{copy_state, share_begun};
use crate::following::follow_told;
use crate::path_views::path_view;
use crate::state::CoreState;
use crate::told::Told;
use rb_core_model::laws::client_views_are_views;
use rb_core_model::{CoreError, SharedEntry, share_entries};
use rb_plan_client::JobView;
use rb_scan::PathView;
use rb_script_types::Config;
use std::alloc::{AllocError, Allocator, Global};
use std::marker::Model;
use std::sync::Arc;

/// A core's state, by a replay of its log: what a scan or a plan was made for isn't compared again, and what
/// was received, written or cleared isn't judged again; the rest is, since taking it in asks for it. A
/// contract sees the configuration, what the log begins with, its entries, and the state. It is the state after these
/// entries where what was replayed is of the log (`IsOfLog`).
#[derive(Drop)]
pub struct Follower<A: Allocator = Global> {
    alloc: A,
    config: Config<A>,
    begun: Option<Arc<CoreState<A>, A>>,
    state: CoreState<A>,
    log: Vec<SharedEntry<A>, A>,
}

impl<A: Allocator> Model for Follower<A> {
    ghost use Rattle.std.specs.Arc.{arc_value};
    ghost use Rattle.std.specs.Option.{option_map};
    ghost use Rattle.rb_script_types.specs.Config.{config_view};
    ghost use Rattle.rb_core.specs.Follower as followers;
    ghost use Rattle.rb_core.specs.State.{start_of, state_view};
    ghost use Rattle.rb_core_model.specs.Invariant.{HasInvariant};

    ghost Value = { followers.Follower };

    ghost view = { λ f. record { past = record { config = config_view f.config; start = start_of (option_map arc_value f.begun); entries = f.log.items }; state = state_view f.state } };

    ghost invariant = { λ f. HasInvariant (state_view f.state) };
}

impl<A: Allocator + Copy> Follower<A> {
    /// The follower with this state, which has replayed these entries of a log that begins so.
    pub(crate) fn new(
        alloc: A,
        config: Config<A>,
        begun: Option<Arc<CoreState<A>, A>>,
        state: CoreState<A>,
        log: Vec<SharedEntry<A>, A>,
    ) -> Follower<A>
        requires { HasInvariant (state_view state) }
        ensures { result ≡ record { past = record { config = config_view config; start = start_of (option_map arc_value begun); entries = log.items }; state = state_view state } }
    {
        Follower {
            alloc,
            config,
            begun,
            state,
            log,
        }
    }

    /// An equal follower. Its books are shared with this one until one of the two changes them.
    pub fn copy(&self) -> Result<Follower<A>, AllocError>
        ensures { IfOk result (λ follower. follower ≡ self.now) }
    {
        Ok(Follower {
            alloc: self.alloc,
            config: self.config.copy()?,
            begun: share_begun(&self.begun)?,
            state: copy_state(self.alloc, &self.state)?,
            log: share_entries(self.alloc, self.log.as_slice())?,
        })
    }

    /// Replays the next event of the log. Where it isn't replayed, nothing has changed: memory is refused
    /// (`NoMemory`), its chain, client or path isn't there (`UnknownObject`), the log is full (`LogFull`), a
    /// plan comes before the first window (`OutOfOrder`), or how things stand refuses it. What a scan or a
    /// plan was made for isn't compared again, and what was received, written or cleared isn't judged again:
    /// what the core accepts after the same events is replayed, or memory is refused.
    pub fn follow(&mut self, told: &Told<A>) -> Result<(), CoreError>
        ensures followed { OnOk result (self.new ≡ follows self.old told.now) }
        ensures unchanged { OnErr result (self.new ≡ self.old) }
        ensures refused { IfErr result (λ e. IsRefusal e (entry_refusal self.old.state told.now.entry)) }
        ensures accepted { (event : Event) → refusal_of self.old.state event ≡ None → told.now ≡ told_of event → IfErr result (λ e. e ≡ errors.NoMemory) }
    {
        self.log.reserve(1)?;
        let entry = told.entry().share()?;
        follow_told(&mut self.state, told)?;
        self.log.push_reserved(entry);
        Ok(())
    }

    /// How many events were replayed.
    pub fn front(&self) -> usize
        requires { IsOfLog self.now }
        ensures { result ≡ length (log_in self.now.past).events }
    {
        self.state.front
    }

    /// A client after those events, as `Core::client_view`.
    pub fn client_view(&self, client: usize) -> Result<JobView<A>, CoreError>
        requires { IsOfLog self.now }
        ensures view { IfOk result (λ view. client_view (state_after self.now.past) client ≡ Some view) }
        ensures refused { IfErr result (λ e. IsRefusal e (client_view_refusal (state_after self.now.past) client)) }
    {
        client_views_are_views();
        client_view(self.alloc, &self.state, client)
    }

    /// A path after those events, as `Core::path_view`.
    pub fn path_view(&self, path: usize) -> Result<PathView<A>, CoreError>
        requires { IsOfLog self.now }
        ensures view { IfOk result (λ view. path_view (state_after self.now.past).standing path ≡ Some view) }
        ensures refused { IfErr result (λ e. IsRefusal e (path_view_refusal (state_after self.now.past) path)) }
    {
        path_view(self.alloc, &self.state, path)
    }
}
