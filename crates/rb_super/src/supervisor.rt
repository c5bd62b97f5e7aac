//! The supervisor: a relayer that is led through turns.
ghost use Rattle.std.specs.Prelude.{◌≡◌, ◌<◌, ◌+◌, ◌*◌, ◌∷◌, [], true, length, None, is_some, IfOk, IfErr, OnOk, OnErr, All, map};
ghost use denote.Param.Send.{Frees};
ghost use Rattle.rb_script_types.specs.Config.{config_view, IsConfig};
ghost use Rattle.rb_script_types.specs.Script.{IsReadObservation};
ghost use Rattle.rb_core.specs.Core.{refusal_in, state_in};
ghost use Rattle.rb_core_model.specs.Forgetting.{floors_of, has_many_to_forget, rest_at_floors};
ghost use Rattle.rb_core_model.specs.Over.{firsts_of};
ghost use Rattle.rb_core_model.specs.Machine.{reply_of};
ghost use Rattle.rb_core_model.specs.Refused.{IsRefusal};
ghost use Rattle.rb_core_model.specs.Replied.{reply_view};
ghost use Rattle.rb_core_model.specs.Seen.{event_view};
ghost use Rattle.rb_core_model.specs.Snapshot.{followed_by, from_nothing};
ghost use Rattle.rb_core_model.specs.Standing.{goes_back};
ghost use Rattle.rb_super_turn.specs.Drafts.{AreDrafts};
ghost use Rattle.rb_super_turn.specs.Turns.{hosts_back, before_plans, refusals_in, IsTurnReport, after_turn};
ghost use Rattle.rb_script_types.specs.declared.script.HostWindow.{HostWindow as WindowOf};
ghost use Rattle.rb_super_turn.specs.Phases.{standing_in, HasLogRoom, IsLater, turn_heard, IsPlannable};
ghost use Rattle.rb_super_turn.specs.Views.{refused_view, turn_report_view};
ghost use Rattle.rb_super_turn.specs.AsEvents.{code_turn_as_events, IsTurnFor, most_events};

use rb_base::{Gate, Window};
use rb_core::Core;
use rb_core_model::{CoreError, Event, Reply};
use rb_plan_client::Draft;
use rb_script_types::{Asked, Config, HostWindow, Observation, Turn};
use rb_super_turn::{
    Crew, Heard, Nothing, Relayer, TurnReport, drafts_of, hear_all, plan_all, scan_all, settle_turn,
};
use std::alloc::{AllocError, Allocator, Global};
use std::marker::Model;
use std::thread::Threads;

/// A relayer that is led through turns. It keeps the step tables of its chains from turn to turn. A
/// contract sees what it has taken in.
#[derive(Drop)]
pub struct Supervisor<A: Allocator + Copy = Global> {
    alloc: A,
    relayer: Relayer<A>,
}

impl<A: Allocator + Copy> Model for Supervisor<A> {
    ghost use Rattle.rb_core.specs.Core as cores;

    ghost Value = { cores.Core };

    ghost view = { λ s. s.relayer };
}

/// Leads a relayer through a turn up to where its clients are planned; tells whether the window goes
/// back, and which events are refused.
pub(crate) fn prepare<R: Threads + Sync, G: Gate + Sync, A: Allocator + Copy>(
    crew: &Crew<R, G>,
    alloc: A,
    relayer: &mut Relayer<A>,
    window: Window,
    windows: &[HostWindow],
    goals: &[Asked],
    events: Vec<Observation<A>, A>,
) -> Result<Heard<A>, AllocError>
    requires hosts { All (λ (w : WindowOf). w.host < length relayer.old.config.chains) windows.now }
    requires goals { All (λ (g : Asked). g.client < length relayer.old.config.clients) goals.now }
    requires events { All (IsReadObservation (length relayer.old.config.chains) (length relayer.old.config.clients) (length relayer.old.config.paths)) events.items }
    requires room { HasLogRoom relayer.old (1 + length windows.now + length goals.now + length events.items + 2 * length relayer.old.config.paths) }
    ensures back { IfOk result (λ h. h.window_back ≡ goes_back (standing_in relayer.old).window window) }
    ensures hosts { IfOk result (λ h. h.hosts_back.items ≡ hosts_back (standing_in relayer.old) windows.now) }
    ensures refused { IfOk result (λ h. map refused_view h.refused.items ≡ refusals_in (standing_in relayer.old) (turn_heard window windows.now goals.now events.items)) }
    ensures standing { OnOk result (standing_in relayer.new ≡ before_plans (standing_in relayer.old) (turn_heard window windows.now goals.now events.items)) }
    ensures ready { OnOk result (IsPlannable relayer.new) }
    ensures later { OnOk result (IsLater (1 + length windows.now + length goals.now + length events.items + 2 * length relayer.old.config.paths) relayer.old relayer.new) }
{
    let heard = hear_all(alloc, relayer, window, windows, goals, events)?;
    scan_all(crew, relayer, &mut Nothing)?;
    Ok(heard)
}

impl<A: Allocator + Copy> Supervisor<A> {
    /// A supervisor whose relayer has taken in nothing. The configuration is given up where a growth
    /// is refused.
    pub fn new(alloc: A, config: Config<A>) -> Result<Supervisor<A>, AllocError>
        requires { IsConfig (config_view config) }
        ensures config { IfOk result (λ s. s.config ≡ config_view config) }
        ensures log { IfOk result (λ s. s.log ≡ from_nothing []) }
    {
        let relayer = Relayer::new(alloc, config)?;
        Ok(Supervisor { alloc, relayer })
    }

    /// A supervisor whose relayer has taken in what a core has, which is given up where a growth is refused.
    pub fn over(alloc: A, core: Core<A>) -> Result<Supervisor<A>, AllocError>
        ensures { IfOk result (λ s. s ≡ core) }
    {
        let relayer = Relayer::from_core(alloc, core)?;
        Ok(Supervisor { alloc, relayer })
    }

    /// The relayer after all that it has taken in.
    pub fn core(&self) -> &Core<A>
        ensures { result.now ≡ self.now }
    {
        self.relayer.core()
    }

    /// Takes in an event, and answers as the machine does after all that was taken in. An error is
    /// the first refusal that applies; or `NoMemory`, where a growth is refused. After an error
    /// nothing has changed.
    pub fn take_in(&mut self, event: Event<A>) -> Result<Reply, CoreError>
        ensures config { self.new.config ≡ self.old.config }
        ensures appended { OnOk result (self.new.log ≡ followed_by self.old.log (event_view event ∷ [])) }
        ensures unchanged { OnErr result (self.new.log ≡ self.old.log) }
        ensures accepted { OnOk result (refusal_in self.old (event_view event) ≡ None) }
        ensures refused { IfErr result (λ e. IsRefusal e (refusal_in self.old (event_view event))) }
        ensures reply { IfOk result (λ reply. reply_view reply ≡ reply_of (state_in self.old) (event_view event)) }
    {
        self.relayer.take_in(event)
    }

    /// The floors of all chains, as `Core::floors`.
    pub fn floors(&self) -> Result<Vec<u64, A>, AllocError>
        ensures { IfOk result (λ floors. floors.items ≡ floors_of (standing_in self.now)) }
    {
        self.relayer.floors()
    }

    /// The first sequences of the paths, as `Core::firsts`.
    pub fn firsts(&self) -> Result<Vec<u64, A>, AllocError>
        ensures { IfOk result (λ firsts. firsts.items ≡ firsts_of (standing_in self.now)) }
    {
        self.relayer.firsts()
    }

    /// Whether so much is to be forgotten of some chain or path, as `Core::has_many_to_forget`.
    pub fn has_many_to_forget(&self, least: usize) -> bool
        ensures { result ≡ has_many_to_forget least (standing_in self.now) }
    {
        self.relayer.has_many_to_forget(least)
    }

    /// This supervisor, whose relayer begins anew: it forgets what lies below the floors of its chains, and
    /// its log has no events. `AllocError` as for `Core::begin_anew`; it is given up then.
    pub fn begin_anew(self) -> Result<Supervisor<A>, AllocError>
        ensures config { IfOk result (λ s. s.config ≡ self.config) }
        ensures standing { IfOk result (λ s. standing_in s ≡ rest_at_floors (standing_in self)) }
        ensures front { IfOk result (λ s. (state_in s).front ≡ 0) }
    {
        let Supervisor { alloc, relayer } = self;
        let core = relayer.into_core().begin_anew()?;
        Supervisor::over(alloc, core)
    }

    /// Ends it: what it has taken in is given back.
    pub fn stop(self) -> Core<A>
        ensures { result ≡ self }
    {
        let Supervisor { relayer, .. } = self;
        relayer.into_core()
    }

    /// The relayer where the clients of a turn are planned: the window, the asked goals, what was
    /// observed, and the scans of both parts of each path that has no valid one.
    pub(crate) fn plan_phase<R: Threads + Sync, G: Gate + Sync>(
        self,
        crew: &Crew<R, G>,
        turn: Turn<A>,
    ) -> Result<Relayer<A>, AllocError>
        requires turn { IsTurnFor self.config turn }
        requires room { HasLogRoom self (most_events self.config turn) }
        ensures standing { IfOk result (λ relayer. standing_in relayer ≡ before_plans (standing_in self) (code_turn_as_events turn)) }
        ensures ready { IfOk result IsPlannable }
        ensures config { IfOk result (λ relayer. relayer.config ≡ self.config) }
        ensures room { IfOk result (λ relayer. HasLogRoom relayer (length self.config.clients)) }
    {
        let Turn {
            window,
            windows,
            goals,
            events,
            ..
        } = turn;
        let Supervisor { alloc, mut relayer } = self;
        prepare(
            crew,
            alloc,
            &mut relayer,
            window,
            windows.as_slice(),
            goals.as_slice(),
            events,
        )?;
        Ok(relayer)
    }
}

impl<A: Allocator + Copy + Send + Sync> Supervisor<A> {
    /// Leads the relayer through a turn: the window, the asked goals, what was observed, the scans of
    /// both parts of each path that has no valid one, the plans of the clients that have no open
    /// batch, the settlements, and what is taken after them. What is refused is reported and changes
    /// nothing. An error comes only where a growth is refused; the supervisor is then given up.
    pub fn turn<R: Threads + Sync, G: Gate + Sync>(
        self,
        crew: &Crew<R, G>,
        turn: Turn<A>,
    ) -> Result<(Supervisor<A>, TurnReport<A>), AllocError>
        requires turn { IsTurnFor self.config turn }
        requires room { HasLogRoom self (most_events self.config turn) }
        requires alloc { Frees A.Allocator A.dealloc_token }
        ensures report { IfOk result (λ r. IsTurnReport (standing_in self) (code_turn_as_events turn) (turn_report_view r.1)) }
        ensures standing { IfOk result (λ r. standing_in r.0 ≡ after_turn (standing_in self) (code_turn_as_events turn) (turn_report_view r.1)) }
        ensures later { IfOk result (λ r. IsLater (most_events self.config turn) self r.0) }
    {
        let Turn {
            window,
            windows,
            goals,
            events,
            settlements,
            taken,
        } = turn;
        let Supervisor { alloc, mut relayer } = self;
        let heard = prepare(
            crew,
            alloc,
            &mut relayer,
            window,
            windows.as_slice(),
            goals.as_slice(),
            events,
        )?;
        let clients = plan_all(crew, alloc, &mut relayer, &mut Nothing)?;
        let settlements = settle_turn(alloc, &mut relayer, settlements.as_slice(), taken)?;
        let report = TurnReport {
            window_back: heard.window_back,
            hosts_back: heard.hosts_back,
            refused: heard.refused,
            clients,
            settlements,
        };
        Ok((Supervisor { alloc, relayer }, report))
    }

    /// What is planned for each client where the clients of a turn are planned, in their order, for
    /// a client whose batch is open as well. None of it is taken in, and nothing of the turn is
    /// seen later: the supervisor is given up.
    pub fn drafts<R: Threads + Sync, G: Gate + Sync>(
        self,
        crew: &Crew<R, G>,
        turn: Turn<A>,
    ) -> Result<Vec<Draft<A>, A>, AllocError>
        requires turn { IsTurnFor self.config turn }
        requires room { HasLogRoom self (most_events self.config turn) }
        requires alloc { Frees A.Allocator A.dealloc_token }
        ensures { IfOk result (λ drafts. AreDrafts (before_plans (standing_in self) (code_turn_as_events turn)) drafts.items) }
    {
        let alloc = self.alloc;
        let mut relayer = self.plan_phase(crew, turn)?;
        let drafts = drafts_of(crew, alloc, &mut relayer)?;
        Ok(drafts)
    }
}
