//! Who leads a relayer through turns.
ghost use Rattle.std.specs.Prelude.{◌≡◌, ◌≤◌, [], IfOk};
ghost use Rattle.rb_core.specs.Core.{state_in};
ghost use Rattle.rb_core_model.specs.Config.{IsSetUp};
ghost use Rattle.rb_core_model.specs.Forgetting.{floors_of, has_many_to_forget, rest_at_floors};
ghost use Rattle.rb_core_model.specs.Over.{firsts_of};
ghost use Rattle.rb_core.specs.Snapshot.{snapshot_view};
ghost use Rattle.rb_core_model.specs.Snapshot.{from_nothing, snapshot_of};
ghost use Rattle.rb_script_types.specs.Config.{config_view, IsConfig};
ghost use Rattle.rb_super_turn.specs.Turns.{IsTurnReport, after_turn};
ghost use Rattle.rb_super_turn.specs.Phases.{standing_in, HasLogRoom, IsLater};
ghost use Rattle.rb_super_turn.specs.Views.{turn_report_view};
ghost use Rattle.rb_super_turn.specs.AsEvents.{code_turn_as_events, IsTurnFor, most_events};
ghost use Rattle.rb_follow.specs.Drivers.{core_of};

use rb_base::Gate;
use rb_board::Team;
use rb_core::{Core, Snapshot};
use rb_script_types::{Config, Turn};
use rb_super::{ParallelSupervisor, Supervisor};
use rb_super_turn::{Crew, TurnReport};
use std::alloc::{AllocError, Global};
use std::sync::{Arc, Wait};
use std::thread::Threads;

/// Who leads a relayer through turns: the calling thread alone, or with workers in threads of their own. It
/// is not `Drop`, as workers aren't: end it by `stop`.
pub enum Driver<G: Gate> {
    Alone(Supervisor),
    WithWorkers(ParallelSupervisor<G>),
}

impl<G: Gate + Send + Sync + Drop + 'static> Driver<G> {
    /// A relayer that has taken in nothing, with so many workers, at most 64; with none the calling thread does
    /// all. An error comes only where a growth is refused.
    pub fn new<R: Threads + Wait + Copy + Send + Sync + 'static>(
        rt: &R,
        alloc: Global,
        config: Config,
        workers: usize,
        gate: &Arc<G, Global>,
    ) -> Result<Driver<G>, AllocError>
        requires config { IsConfig (config_view config) }
        requires workers { workers ≤ 64 }
        ensures config { IfOk result (λ d. (core_of d).config ≡ config_view config) }
        ensures log { IfOk result (λ d. (core_of d).log ≡ from_nothing []) }
    {
        if workers == 0 {
            let supervisor = Supervisor::new(alloc, config)?;
            return Ok(Driver::Alone(supervisor));
        }
        let supervisor = ParallelSupervisor::new(rt, alloc, config, workers, |desks| {
            Team::start(rt, alloc, desks, gate)
        })?;
        Ok(Driver::WithWorkers(supervisor))
    }

    /// A relayer that has taken in what a core has, as `Driver::new`.
    pub fn over<R: Threads + Wait + Copy + Send + Sync + 'static>(
        rt: &R,
        alloc: Global,
        core: Core,
        workers: usize,
        gate: &Arc<G, Global>,
    ) -> Result<Driver<G>, AllocError>
        requires workers { workers ≤ 64 }
        ensures config { IfOk result (λ d. (core_of d).config ≡ core.config) }
        ensures log { IfOk result (λ d. (core_of d).log ≡ core.log) }
    {
        if workers == 0 {
            let supervisor = Supervisor::over(alloc, core)?;
            return Ok(Driver::Alone(supervisor));
        }
        let supervisor = ParallelSupervisor::over(rt, alloc, core, workers, |desks| {
            Team::start(rt, alloc, desks, gate)
        })?;
        Ok(Driver::WithWorkers(supervisor))
    }

    /// What the relayer was set up with.
    pub fn config(&self) -> &Config
        ensures value { config_view result.now ≡ (core_of self.now).config }
        ensures set_up { IsSetUp (core_of self.now).config }
    {
        match self {
            Driver::Alone(supervisor) => supervisor.core().config(),
            Driver::WithWorkers(supervisor) => supervisor.config(),
        }
    }

    /// What a relayer goes on from, as `Core::snapshot`.
    pub fn snapshot(&self) -> Result<Snapshot, AllocError>
        ensures { IfOk result (λ snapshot. snapshot_view snapshot ≡ snapshot_of (standing_in (core_of self.now))) }
    {
        match self {
            Driver::Alone(supervisor) => supervisor.core().snapshot(),
            Driver::WithWorkers(supervisor) => supervisor.snapshot(),
        }
    }

    /// The number of the open batch of a client; 0 where none is open.
    pub fn open_batch(&self, client: usize) -> u64 {
        let batch = match self {
            Driver::Alone(supervisor) => supervisor.core().open_batch(client),
            Driver::WithWorkers(supervisor) => supervisor.open_batch(client),
        };
        match batch {
            Some(batch) => batch.number(),
            None => 0,
        }
    }

    /// Leads the relayer through a turn; tells its report. An error comes only where a growth is refused, also
    /// to a worker; all workers have then ended.
    pub fn turn<R: Threads + Sync + Wait>(
        self,
        crew: &Crew<R, G>,
        turn: Turn,
    ) -> Result<(Driver<G>, TurnReport), AllocError>
        requires turn { IsTurnFor (core_of self).config turn }
        requires room { HasLogRoom (core_of self) (most_events (core_of self).config turn) }
        ensures report { IfOk result (λ r. IsTurnReport (standing_in (core_of self)) (code_turn_as_events turn) (turn_report_view r.1)) }
        ensures standing { IfOk result (λ r. standing_in (core_of r.0) ≡ after_turn (standing_in (core_of self)) (code_turn_as_events turn) (turn_report_view r.1)) }
        ensures later { IfOk result (λ r. IsLater (most_events (core_of self).config turn) (core_of self) (core_of r.0)) }
    {
        match self {
            Driver::Alone(supervisor) => {
                let (next, report) = supervisor.turn(crew, turn)?;
                Ok((Driver::Alone(next), report))
            }
            Driver::WithWorkers(supervisor) => {
                let (next, report) = supervisor.turn(crew, turn)?;
                Ok((Driver::WithWorkers(next), report))
            }
        }
    }

    /// The floors of all chains, as `Core::floors`.
    pub fn floors(&self) -> Result<Vec<u64>, AllocError>
        ensures { IfOk result (λ floors. floors.items ≡ floors_of (standing_in (core_of self.now))) }
    {
        match self {
            Driver::Alone(supervisor) => supervisor.floors(),
            Driver::WithWorkers(supervisor) => supervisor.floors(),
        }
    }

    /// The first sequences of the paths, as `Core::firsts`.
    pub fn firsts(&self) -> Result<Vec<u64>, AllocError>
        ensures { IfOk result (λ firsts. firsts.items ≡ firsts_of (standing_in (core_of self.now))) }
    {
        match self {
            Driver::Alone(supervisor) => supervisor.firsts(),
            Driver::WithWorkers(supervisor) => supervisor.firsts(),
        }
    }

    /// Whether so much is to be forgotten of some chain or path, as `Core::has_many_to_forget`.
    pub fn has_many_to_forget(&self, least: usize) -> bool
        ensures { result ≡ has_many_to_forget least (standing_in (core_of self.now)) }
    {
        match self {
            Driver::Alone(supervisor) => supervisor.has_many_to_forget(least),
            Driver::WithWorkers(supervisor) => supervisor.has_many_to_forget(least),
        }
    }

    /// This one, whose relayer begins anew: it forgets what lies below the floors of its chains, and its log has
    /// no events. So many workers are started. An error comes only where a growth is refused, or as for
    /// `Core::begin_anew`; all workers have then ended.
    pub fn begin_anew<R: Threads + Wait + Copy + Send + Sync + 'static>(
        self,
        rt: &R,
        alloc: Global,
        workers: usize,
        gate: &Arc<G, Global>,
    ) -> Result<Driver<G>, AllocError>
        requires workers { workers ≤ 64 }
        ensures config { IfOk result (λ d. (core_of d).config ≡ (core_of self).config) }
        ensures standing { IfOk result (λ d. standing_in (core_of d) ≡ rest_at_floors (standing_in (core_of self))) }
        ensures front { IfOk result (λ d. (state_in (core_of d)).front ≡ 0) }
    {
        match self {
            Driver::Alone(supervisor) => Ok(Driver::Alone(supervisor.begin_anew()?)),
            Driver::WithWorkers(supervisor) => {
                let next = supervisor.begin_anew(rt, workers, |desks| {
                    Team::start(rt, alloc, desks, gate)
                })?;
                Ok(Driver::WithWorkers(next))
            }
        }
    }

    /// Ends the workers.
    pub fn stop<R: Threads + Wait>(self, rt: &R) {
        match self {
            Driver::Alone(_) => {}
            Driver::WithWorkers(supervisor) => supervisor.stop(rt),
        }
    }
}
