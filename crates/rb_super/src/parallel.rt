//! The supervisor with workers.
ghost use Rattle.std.specs.Prelude.{◌≡◌, ◌<◌, ◌≤◌, ◌+◌, ◌*◌, [], Ok, length, IfOk, OnOk, All, map};
ghost use Rattle.rb_script_types.specs.Config.{config_view, IsConfig};
ghost use Rattle.rb_script_types.specs.Script.{IsReadObservation};
ghost use Rattle.rb_core.specs.Core.{state_in};
ghost use Rattle.rb_core_model.specs.Config.{IsSetUp};
ghost use Rattle.rb_core_model.specs.Forgetting.{floors_of, has_many_to_forget, rest_at_floors};
ghost use Rattle.rb_core_model.specs.Over.{firsts_of};
ghost use Rattle.rb_core.specs.Snapshot.{snapshot_view};
ghost use Rattle.rb_core_model.specs.Snapshot.{from_nothing, snapshot_of};
ghost use Rattle.std.specs.Option.{option_copied};
ghost use Rattle.rb_core_model.specs.Standing.{batch_open, goes_back};
ghost use Rattle.rb_super_turn.specs.Turns.{hosts_back, before_plans, refusals_in, IsTurnReport, after_turn};
ghost use Rattle.rb_script_types.specs.declared.script.HostWindow.{HostWindow as WindowOf};
ghost use Rattle.rb_super_turn.specs.Phases.{standing_in, HasLogRoom, IsLater, turn_heard, IsAllScanned, IsPlannable, AreReported};
ghost use Rattle.rb_super_turn.specs.Views.{refused_view, client_report_view, turn_report_view};
ghost use Rattle.rb_super_turn.specs.AsEvents.{code_turn_as_events, IsTurnFor, most_events};

use crate::found::FoundByWorkers;
use crate::head::{Head, close, publish, relayer_over};
use crate::orders::{order_plans, order_scans};
use rb_base::{Gate, Window};
use rb_board::{Desk, Inbox, Team, open};
use rb_core::{Core, Snapshot};
use rb_core_state::OpenBatch;
use rb_script_types::{Asked, Config, HostWindow, Observation, Turn};
use rb_super_turn::{
    ClientReport, Crew, Heard, Relayer, TurnReport, hear_all, no_tables, plan_all, scan_all,
    settle_turn,
};
use std::alloc::{AllocError, Global};
use std::marker::Model;
use std::sync::Wait;
use std::thread::Threads;

/// A relayer that is led through turns, with workers that scan its paths and plan for its clients in
/// threads of their own. What they find is taken in where it is of the relayer as it is then, and
/// dropped otherwise. It keeps the step tables of its chains from turn to turn. A contract sees what it
/// has taken in. It is not `Drop`: end it by `stop`.
pub struct ParallelSupervisor<G: Gate> {
    alloc: Global,
    relayer: Relayer<Global, Head>,
    team: Team<G>,
}

impl<G: Gate> Model for ParallelSupervisor<G> {
    ghost use Rattle.rb_core.specs.Core as cores;

    ghost Value = { cores.Core };

    ghost view = { λ w. w.relayer };
}

/// Ends the workers, and then the board.
fn end<R: Threads + Wait, G: Gate + Send + Sync + Drop + 'static>(
    rt: &R,
    relayer: Relayer<Global, Head>,
    team: Team<G>,
) {
    team.stop(rt);
    close(rt, relayer);
}

/// Goes on with what was given, or ends the workers and the board.
fn or_end<R: Threads + Wait, G: Gate + Send + Sync + Drop + 'static, T>(
    rt: &R,
    relayer: Relayer<Global, Head>,
    team: Team<G>,
    given: Result<T, AllocError>,
) -> Result<(Relayer<Global, Head>, Team<G>, T), AllocError>
    ensures same { IfOk result (λ r. r.0 ≡ relayer) }
    ensures given { IfOk result (λ r. given ≡ Ok r.2) }
{
    match given {
        Ok(value) => Ok((relayer, team, value)),
        Err(AllocError) => {
            end(rt, relayer, team);
            Err(AllocError)
        }
    }
}

/// Shows workers all that the relayer has taken in, to find something on that.
fn search<'a, R: Threads + Wait, G: Gate + Send + Sync + Drop + 'static>(
    rt: &'a R,
    alloc: Global,
    relayer: Relayer<Global, Head>,
    team: Team<G>,
) -> Result<(Relayer<Global, Head>, FoundByWorkers<'a, R, G>), AllocError>
    ensures { IfOk result (λ r. r.0 ≡ relayer) }
{
    let (relayer, published) = publish(rt, relayer);
    let (relayer, team, ()) = or_end(rt, relayer, team, published)?;
    let inbox = Inbox::new(alloc);
    Ok((relayer, FoundByWorkers { rt, team, inbox }))
}

/// Shows the workers the same once more, while they do what they were told to do: so the copy of the board
/// that they don't look at follows then, and not before the next search.
fn catch_up<'a, R: Threads + Wait, G: Gate + Send + Sync + Drop + 'static>(
    relayer: Relayer<Global, Head>,
    found: FoundByWorkers<'a, R, G>,
    ordered: Result<(), AllocError>,
) -> Result<(Relayer<Global, Head>, FoundByWorkers<'a, R, G>), AllocError>
    ensures { IfOk result (λ r. r.0 ≡ relayer) }
{
    let (relayer, published) = publish(found.rt, relayer);
    if ordered.is_ok() && published.is_ok() {
        return Ok((relayer, found));
    }
    let rt = found.rt;
    let (team, _finished) = found.finish();
    end(rt, relayer, team);
    Err(AllocError)
}

/// Tells workers to scan the parts of paths that have no valid scan.
fn begin_scans<'a, R: Threads + Wait, G: Gate + Send + Sync + Drop + 'static>(
    rt: &'a R,
    alloc: Global,
    relayer: Relayer<Global, Head>,
    team: Team<G>,
) -> Result<(Relayer<Global, Head>, FoundByWorkers<'a, R, G>), AllocError>
    ensures { IfOk result (λ r. r.0 ≡ relayer) }
{
    let (relayer, mut found) = search(rt, alloc, relayer, team)?;
    let ordered = order_scans(&relayer, &mut found);
    let begun = catch_up(relayer, found, ordered)?;
    Ok(begun)
}

/// Tells workers to plan for the clients that have no open batch.
fn begin_plans<'a, R: Threads + Sync + Wait, G: Gate + Send + Sync + Drop + 'static>(
    crew: &'a Crew<R, G>,
    alloc: Global,
    relayer: Relayer<Global, Head>,
    team: Team<G>,
) -> Result<(Relayer<Global, Head>, FoundByWorkers<'a, R, G>), AllocError>
    ensures same { IfOk result (λ r. r.0 ≡ relayer) }
{
    let (mut relayer, mut found) = search(crew.rt(), alloc, relayer, team)?;
    let ordered = order_plans(crew, alloc, &mut relayer, &mut found);
    let begun = catch_up(relayer, found, ordered)?;
    Ok(begun)
}

/// Waits until the workers have come to their ends, and goes on with what was given, or ends them and the
/// board.
fn finish<R: Threads + Wait, G: Gate + Send + Sync + Drop + 'static, T: Drop>(
    rt: &R,
    relayer: Relayer<Global, Head>,
    found: FoundByWorkers<'_, R, G>,
    given: Result<T, AllocError>,
) -> Result<(Relayer<Global, Head>, Team<G>, T), AllocError>
    ensures same { IfOk result (λ r. r.0 ≡ relayer) }
    ensures given { IfOk result (λ r. given ≡ Ok r.2) }
{
    let (team, finished) = found.finish();
    let (relayer, team, ()) = or_end(rt, relayer, team, finished)?;
    let (relayer, team, value) = or_end(rt, relayer, team, given)?;
    Ok((relayer, team, value))
}

/// Leads a relayer through a turn up to where its clients are planned; tells whether the window goes
/// back, and which events are refused.
fn prepare<R: Threads + Sync + Wait, G: Gate + Send + Sync + Drop + 'static>(
    crew: &Crew<R, G>,
    alloc: Global,
    relayer: Relayer<Global, Head>,
    team: Team<G>,
    window: Window,
    windows: &[HostWindow],
    goals: &[Asked],
    events: Vec<Observation>,
) -> Result<(Relayer<Global, Head>, Team<G>, Heard), AllocError>
    requires hosts { All (λ (w : WindowOf). w.host < length relayer.config.chains) windows.now }
    requires goals { All (λ (g : Asked). g.client < length relayer.config.clients) goals.now }
    requires events { All (IsReadObservation (length relayer.config.chains) (length relayer.config.clients) (length relayer.config.paths)) events.items }
    requires room { HasLogRoom relayer (1 + length windows.now + length goals.now + length events.items + 2 * length relayer.config.paths) }
    ensures back { IfOk result (λ r. r.2.window_back ≡ goes_back (standing_in relayer).window window) }
    ensures hosts { IfOk result (λ r. r.2.hosts_back.items ≡ hosts_back (standing_in relayer) windows.now) }
    ensures refused { IfOk result (λ r. map refused_view r.2.refused.items ≡ refusals_in (standing_in relayer) (turn_heard window windows.now goals.now events.items)) }
    ensures standing { IfOk result (λ r. standing_in r.0 ≡ before_plans (standing_in relayer) (turn_heard window windows.now goals.now events.items)) }
    ensures ready { IfOk result (λ r. IsPlannable r.0) }
    ensures later { IfOk result (λ r. IsLater (1 + length windows.now + length goals.now + length events.items + 2 * length relayer.config.paths) relayer r.0) }
{
    let mut relayer = relayer;
    let heard = hear_all(alloc, &mut relayer, window, windows, goals, events);
    let (relayer, team, heard) = or_end(crew.rt(), relayer, team, heard)?;
    let (mut relayer, mut found) = begin_scans(crew.rt(), alloc, relayer, team)?;
    let scanned = scan_all(crew, &mut relayer, &mut found);
    let (relayer, team, ()) = finish(crew.rt(), relayer, found, scanned)?;
    Ok((relayer, team, heard))
}

/// Plans for the clients, in their order.
fn plan<R: Threads + Sync + Wait, G: Gate + Send + Sync + Drop + 'static>(
    crew: &Crew<R, G>,
    alloc: Global,
    relayer: Relayer<Global, Head>,
    team: Team<G>,
) -> Result<(Relayer<Global, Head>, Team<G>, Vec<ClientReport>), AllocError>
    requires ready { IsPlannable relayer }
    requires room { HasLogRoom relayer (length relayer.config.clients) }
    ensures count { IfOk result (λ r. length r.2.items ≡ length relayer.config.clients) }
    ensures reports { IfOk result (λ r. AreReported (standing_in relayer) (standing_in r.0) 0 (map client_report_view r.2.items)) }
    ensures later { IfOk result (λ r. IsLater (length relayer.config.clients) relayer r.0) }
{
    let (mut relayer, mut found) = begin_plans(crew, alloc, relayer, team)?;
    let clients = plan_all(crew, alloc, &mut relayer, &mut found);
    finish(crew.rt(), relayer, found, clients)
}

impl<G: Gate + Send + Sync + Drop + 'static> ParallelSupervisor<G> {
    /// A supervisor whose relayer has taken in nothing, with the team that is started for so many desks of
    /// its board, fewer where a place for one is refused. The configuration is given up where a growth is refused.
    pub fn new<R, F>(
        rt: &R,
        alloc: Global,
        config: Config,
        desks: usize,
        start: F,
    ) -> Result<ParallelSupervisor<G>, AllocError>
    where
        R: Wait,
        F: FnOnce(Vec<Desk>) -> Result<Team<G>, AllocError> + Drop,
        requires config { IsConfig (config_view config) }
        requires desks { desks ≤ 64 }
        requires start { F.IsAlwaysCallable start }
        ensures config { IfOk result (λ w. w.config ≡ config_view config) }
        ensures log { IfOk result (λ w. w.log ≡ from_nothing []) }
    {
        let core = Core::new(alloc, config)?;
        ParallelSupervisor::over(rt, alloc, core, desks, start)
    }

    /// A supervisor whose relayer has taken in what a core has, with the team that is started for so many
    /// desks of its board. The core is given up where a growth is refused.
    pub fn over<R, F>(
        rt: &R,
        alloc: Global,
        core: Core,
        desks: usize,
        start: F,
    ) -> Result<ParallelSupervisor<G>, AllocError>
    where
        R: Wait,
        F: FnOnce(Vec<Desk>) -> Result<Team<G>, AllocError> + Drop,
        requires desks { desks ≤ 64 }
        requires start { F.IsAlwaysCallable start }
        ensures config { IfOk result (λ w. w.config ≡ core.config) }
        ensures log { IfOk result (λ w. w.log ≡ core.log) }
    {
        let tables = no_tables(alloc, core.config().chains.len())?;
        let (pen, desks) = open(rt, alloc, core, desks)?;
        let relayer = relayer_over(pen, tables);
        match start(desks) {
            Ok(team) => Ok(ParallelSupervisor {
                alloc,
                relayer,
                team,
            }),
            Err(AllocError) => {
                close(rt, relayer);
                Err(AllocError)
            }
        }
    }

    /// Leads the relayer through a turn: the window, the asked goals, what was observed, the scans of
    /// both parts of each path that has no valid one, the plans of the clients that have no open
    /// batch, the settlements, and what is taken after them. Workers scan and plan; what they don't
    /// find, and what is refused of it, is done here. What is refused of the turn is reported and
    /// changes nothing. An error comes only where a growth is refused, also to a worker; all workers
    /// have then ended.
    pub fn turn<R: Threads + Sync + Wait>(
        self,
        crew: &Crew<R, G>,
        turn: Turn,
    ) -> Result<(ParallelSupervisor<G>, TurnReport), AllocError>
        requires turn { IsTurnFor self.config turn }
        requires room { HasLogRoom self (most_events self.config turn) }
        ensures report { IfOk result (λ r. IsTurnReport (standing_in self) (code_turn_as_events turn) (turn_report_view r.1)) }
        ensures standing { IfOk result (λ r. standing_in r.0 ≡ after_turn (standing_in self) (code_turn_as_events turn) (turn_report_view r.1)) }
        ensures later { IfOk result (λ r. IsLater (most_events self.config turn) self r.0) }
    {
        let Turn {
            window,
            windows,
            goals,
            events,
            settlements,
            taken,
        } = turn;
        let ParallelSupervisor {
            alloc,
            relayer,
            team,
        } = self;
        let (relayer, team, heard) = prepare(
            crew,
            alloc,
            relayer,
            team,
            window,
            windows.as_slice(),
            goals.as_slice(),
            events,
        )?;
        let (mut relayer, team, clients) = plan(crew, alloc, relayer, team)?;
        let settled = settle_turn(alloc, &mut relayer, settlements.as_slice(), taken);
        let (relayer, team, settlements) = or_end(crew.rt(), relayer, team, settled)?;
        let report = TurnReport {
            window_back: heard.window_back,
            hosts_back: heard.hosts_back,
            refused: heard.refused,
            clients,
            settlements,
        };
        let next = ParallelSupervisor {
            alloc,
            relayer,
            team,
        };
        Ok((next, report))
    }

    /// What the relayer was set up with.
    pub fn config(&self) -> &Config
        ensures value { config_view result.now ≡ self.now.config }
        ensures set_up { IsSetUp self.now.config }
    {
        self.relayer.config()
    }

    /// The open batch of a client, as `Core::open_batch`.
    pub fn open_batch(&self, client: usize) -> Option<&OpenBatch>
        ensures { option_copied result ≡ batch_open (standing_in self.now) client }
    {
        self.relayer.open_batch(client)
    }

    /// What a relayer goes on from, as `Core::snapshot`.
    pub fn snapshot(&self) -> Result<Snapshot, AllocError>
        ensures { IfOk result (λ snapshot. snapshot_view snapshot ≡ snapshot_of (standing_in self.now)) }
    {
        self.relayer.snapshot()
    }

    /// The floors of all chains, as `Core::floors`.
    pub fn floors(&self) -> Result<Vec<u64>, AllocError>
        ensures { IfOk result (λ floors. floors.items ≡ floors_of (standing_in self.now)) }
    {
        self.relayer.floors()
    }

    /// The first sequences of the paths, as `Core::firsts`.
    pub fn firsts(&self) -> Result<Vec<u64>, AllocError>
        ensures { IfOk result (λ firsts. firsts.items ≡ firsts_of (standing_in self.now)) }
    {
        self.relayer.firsts()
    }

    /// Whether so much is to be forgotten of some chain or path, as `Core::has_many_to_forget`.
    pub fn has_many_to_forget(&self, least: usize) -> bool
        ensures { result ≡ has_many_to_forget least (standing_in self.now) }
    {
        self.relayer.has_many_to_forget(least)
    }

    /// This supervisor, whose relayer begins anew: it forgets what lies below the floors of its chains, and
    /// its log has no events. The workers end, and the team is started that goes on for so many desks of a new
    /// board. `AllocError` as for `Core::begin_anew`; all is given up then.
    pub fn begin_anew<R, F>(
        self,
        rt: &R,
        desks: usize,
        start: F,
    ) -> Result<ParallelSupervisor<G>, AllocError>
    where
        R: Threads + Wait,
        F: FnOnce(Vec<Desk>) -> Result<Team<G>, AllocError> + Drop,
        requires desks { desks ≤ 64 }
        requires start { F.IsAlwaysCallable start }
        ensures config { IfOk result (λ w. w.config ≡ self.config) }
        ensures standing { IfOk result (λ w. standing_in w ≡ rest_at_floors (standing_in self)) }
        ensures front { IfOk result (λ w. (state_in w).front ≡ 0) }
    {
        let ParallelSupervisor {
            alloc,
            relayer,
            team,
        } = self;
        team.stop(rt);
        let core = close(rt, relayer).begin_anew()?;
        ParallelSupervisor::over(rt, alloc, core, desks, start)
    }

    /// Ends the workers, and then the supervisor.
    pub fn stop<R: Threads + Wait>(self, rt: &R) {
        let ParallelSupervisor {
            alloc: _,
            relayer,
            team,
        } = self;
        end(rt, relayer, team);
    }
}
