//! A relayer with the step tables of its chains.
ghost use Rattle.std.specs.Prelude.{◌≡◌, ◌<◌, ◌∷◌, [], Some, None, length, IfOk, IfErr, OnOk, OnErr};
ghost use Rattle.std.specs.Option.{option_copied};
ghost use denote.Param.Send.{Frees};
ghost use Rattle.rb_script_types.specs.Config.{config_view, IsConfig};
ghost use Rattle.rb_core_model.specs.Config.{IsSetUp};
ghost use Rattle.rb_core.specs.Core.{state_in, refusal_in};
ghost use Rattle.rb_core_model.specs.Forgetting.{floors_of, has_many_to_forget};
ghost use Rattle.rb_core_model.specs.Over.{firsts_of};
ghost use Rattle.rb_core_model.specs.Machine.{client_view, client_view_refusal, is_scanned, path_view_refusal, reply_of};
ghost use Rattle.rb_core_model.specs.Refused.{IsRefusal};
ghost use Rattle.rb_core_model.specs.Replied.{reply_view};
ghost use Rattle.rb_core_model.specs.Seen.{event_view};
ghost use Rattle.rb_core.specs.Snapshot.{snapshot_view};
ghost use Rattle.rb_core_model.specs.Snapshot.{followed_by, from_nothing, snapshot_of};
ghost use Rattle.rb_core_model.specs.Standing.{book_at, path_view, batch_open};
ghost use Rattle.rb_super_turn.specs.Phases.{standing_in};
ghost use Rattle.rb_super_turn.specs.Tables.{chain_of, AreTables};

use crate::crew::Crew;
use crate::machine::Machine;
use crate::tables::{no_tables, table_in, take_in};
use rb_base::{Gate, Part};
use rb_book::{ChainBook, SharedBook};
use rb_core::{Core, Snapshot};
use rb_core_model::{CoreError, Event, Reply};
use rb_core_state::OpenBatch;
use rb_graph::SharedGraph;
use rb_plan_client::JobView;
use rb_scan::PathView;
use rb_script_types::Config;
use std::alloc::{AllocError, Allocator, Global};
use std::marker::Model;
use std::thread::Threads;

/// A relayer: what it has taken in, and a step table of each chain that was planned for. A table is
/// kept from turn to turn: what is taken in of its chain is added to it. A contract sees what was
/// taken in.
#[derive(Drop)]
pub struct Relayer<A: Allocator + Copy = Global, M: Machine<A> = Core<A>> {
    machine: M,
    tables: Vec<Option<SharedGraph<A>>, A>,
}

impl<A: Allocator + Copy, M: Machine<A>> Model for Relayer<A, M> {
    ghost use Rattle.rb_core.specs.Core as cores;
    ghost use Rattle.rb_super_turn.specs.Tables.{AreTables};

    ghost Value = { cores.Core };

    ghost view = { λ r. M.seen_as r.machine };

    ghost invariant = { λ r. AreTables (M.seen_as r.machine) r.tables.items };
}

impl<A: Allocator + Copy> Relayer<A> {
    /// A relayer that has taken in nothing. The configuration is given up where a growth is refused.
    pub fn new(alloc: A, config: Config<A>) -> Result<Relayer<A>, AllocError>
        requires { IsConfig (config_view config) }
        ensures config { IfOk result (λ relayer. relayer.config ≡ config_view config) }
        ensures log { IfOk result (λ relayer. relayer.log ≡ from_nothing []) }
    {
        let core = Core::new(alloc, config)?;
        Relayer::from_core(alloc, core)
    }

    /// A relayer that has taken in what a core has, with no table yet. The core is given up where a growth is
    /// refused.
    pub fn from_core(alloc: A, core: Core<A>) -> Result<Relayer<A>, AllocError>
        ensures { IfOk result (λ relayer. relayer ≡ core) }
    {
        let tables = no_tables(alloc, core.config().chains.len())?;
        Ok(Relayer {
            machine: core,
            tables,
        })
    }

    /// What it has taken in.
    pub fn core(&self) -> &Core<A>
        ensures { result.now ≡ self.now }
    {
        &self.machine
    }

    /// What it has taken in, for which the tables are given up.
    pub fn into_core(self) -> Core<A>
        ensures { result ≡ self }
    {
        let Relayer { machine, .. } = self;
        machine
    }
}

impl<A: Allocator + Copy, M: Machine<A>> Relayer<A, M> {
    /// A relayer over a machine, with the tables that are kept of its chains.
    pub fn from_parts(machine: M, tables: Vec<Option<SharedGraph<A>>, A>) -> Relayer<A, M>
        requires { AreTables (M.seen_as machine) tables.items }
        ensures { result ≡ M.seen_as machine }
    {
        Relayer { machine, tables }
    }

    /// The machine, and the tables.
    pub fn into_parts(self) -> (M, Vec<Option<SharedGraph<A>>, A>)
        ensures machine { M.seen_as result.0 ≡ self }
        ensures tables { AreTables self result.1.items }
    {
        let Relayer { machine, tables } = self;
        (machine, tables)
    }
}

impl<A: Allocator + Copy, M: Machine<A>> Relayer<A, M> {
    /// Takes in an event, and answers as the machine does. What is observed of a chain that has a
    /// table is added to the table; one that can't grow is let go, and made anew when it is asked
    /// for. After an error nothing has changed.
    pub fn take_in(&mut self, event: Event<A>) -> Result<Reply, CoreError>
        ensures config { self.new.config ≡ self.old.config }
        ensures appended { OnOk result (self.new.log ≡ followed_by self.old.log (event_view event ∷ [])) }
        ensures unchanged { OnErr result (self.new.log ≡ self.old.log) }
        ensures accepted { OnOk result (refusal_in self.old (event_view event) ≡ None) }
        ensures refused { IfErr result (λ e. IsRefusal e (refusal_in self.old (event_view event))) }
        ensures reply { IfOk result (λ reply. reply_view reply ≡ reply_of (state_in self.old) (event_view event)) }
    {
        take_in(&mut self.machine, &mut self.tables, event)
    }

    /// Takes in an event that isn't refused and adds to no book, without judging it again; answers as
    /// the machine does. `AllocError` where memory is refused; nothing has changed then.
    pub(crate) fn take_accepted(&mut self, event: Event<A>) -> Result<Reply, AllocError>
        requires accepted { refusal_in self.old (event_view event) ≡ None }
        requires no_addition { chain_of self.old.config (event_view event) ≡ None }
        ensures config { self.new.config ≡ self.old.config }
        ensures appended { OnOk result (self.new.log ≡ followed_by self.old.log (event_view event ∷ [])) }
        ensures unchanged { OnErr result (self.new.log ≡ self.old.log) }
        ensures reply { IfOk result (λ reply. reply_view reply ≡ reply_of (state_in self.old) (event_view event)) }
    {
        let reply = self.machine.take_accepted(&mut Some(event))?;
        Ok(reply)
    }
}

impl<A: Allocator + Copy + Send + Sync, M: Machine<A>> Relayer<A, M> {
    /// The table of a chain, whose book this is: one more owner of the one that is kept. It is made
    /// where there is none yet.
    pub(crate) fn table<R: Threads + Sync, G: Gate + Sync>(
        &mut self,
        crew: &Crew<R, G>,
        alloc: A,
        chain: usize,
        book: &ChainBook<A>,
    ) -> Result<SharedGraph<A>, AllocError>
        requires chain { chain < length self.old.config.chains }
        requires book { book.now ≡ book_at (standing_in self.old).books chain }
        requires alloc { Frees A.Allocator A.dealloc_token }
        ensures table { IfOk result (λ table. table ≡ book.now) }
        ensures same { self.new ≡ self.old }
    {
        table_in(crew, alloc, &mut self.tables, chain, book)
    }
}

/// What is read of a relayer, as of its core.
impl<A: Allocator + Copy, M: Machine<A>> Relayer<A, M> {
    /// What it was set up with.
    pub fn config(&self) -> &Config<A>
        ensures value { config_view result.now ≡ self.now.config }
        ensures set_up { IsSetUp self.now.config }
    {
        self.machine.core().config()
    }

    /// The floors of all chains, as `Core::floors`.
    pub fn floors(&self) -> Result<Vec<u64, A>, AllocError>
        ensures { IfOk result (λ floors. floors.items ≡ floors_of (standing_in self.now)) }
    {
        self.machine.core().floors()
    }

    /// The first sequences of the paths, as `Core::firsts`.
    pub fn firsts(&self) -> Result<Vec<u64, A>, AllocError>
        ensures { IfOk result (λ firsts. firsts.items ≡ firsts_of (standing_in self.now)) }
    {
        self.machine.core().firsts()
    }

    /// Whether so much is to be forgotten of some chain or path, as `Core::has_many_to_forget`.
    pub fn has_many_to_forget(&self, least: usize) -> bool
        ensures { result ≡ has_many_to_forget least (standing_in self.now) }
    {
        self.machine.core().has_many_to_forget(least)
    }

    /// What a relayer goes on from, as `Core::snapshot`.
    pub fn snapshot(&self) -> Result<Snapshot<A>, AllocError>
        ensures { IfOk result (λ snapshot. snapshot_view snapshot ≡ snapshot_of (standing_in self.now)) }
    {
        self.machine.core().snapshot()
    }

    /// How many events it has taken in.
    pub fn front(&self) -> usize
        ensures { result ≡ length self.now.log.events }
    {
        self.machine.core().front()
    }

    /// One more owner of the book of a chain.
    pub(crate) fn book(&self, chain: usize) -> Result<SharedBook<A>, AllocError>
        ensures { IfOk result (λ shared. shared.book ≡ book_at (standing_in self.now).books chain) }
    {
        self.machine.core().book(chain)
    }

    /// A client as a worker gets it.
    pub(crate) fn client_view(&self, client: usize) -> Result<JobView<A>, CoreError>
        ensures view { IfOk result (λ view. client_view (state_in self.now) client ≡ Some view) }
        ensures refused { IfErr result (λ e. IsRefusal e (client_view_refusal (state_in self.now) client)) }
    {
        self.machine.core().client_view(client)
    }

    /// A path as it is scanned.
    pub(crate) fn path_view(&self, path: usize) -> Result<PathView<A>, CoreError>
        ensures view { IfOk result (λ view. path_view (state_in self.now).standing path ≡ Some view) }
        ensures refused { IfErr result (λ e. IsRefusal e (path_view_refusal (state_in self.now) path)) }
    {
        self.machine.core().path_view(path)
    }

    /// Whether a part of a path was scanned as the path still is.
    pub fn is_scanned(&self, path: usize, part: Part) -> bool
        ensures { result ≡ is_scanned (state_in self.now) path part }
    {
        self.machine.core().is_scanned(path, part)
    }

    /// The batch of a client that is open.
    pub fn open_batch(&self, client: usize) -> Option<&OpenBatch<A>>
        ensures { option_copied result ≡ batch_open (state_in self.now).standing client }
    {
        self.machine.core().open_batch(client)
    }
}
