//! A turn, as it is led and explained.
ghost use Rattle.std.specs.Prelude.{◌≡◌, ◌<◌, ◌+◌, ◌*◌, length, map, All, IfOk, OnOk};
ghost use denote.Param.Send.{Frees};
ghost use Rattle.rb_script_types.specs.Script.{IsReadObservation};
ghost use Rattle.rb_core_model.specs.Standing.{goes_back};
ghost use Rattle.rb_super_turn.specs.AsEvents.{code_turn_as_events, IsTurnFor, most_events};
ghost use Rattle.rb_script_types.specs.declared.script.HostWindow.{HostWindow as WindowOf};
ghost use Rattle.rb_super_turn.specs.Phases.{standing_in, HasLogRoom, IsLater, IsPlannable, turn_heard};
ghost use Rattle.rb_super_turn.specs.Turns.{hosts_back, after_turn, before_plans, refusals_in};
ghost use Rattle.rb_super_turn.specs.Views.{client_report_view, refused_view, settlement_view, turn_report_view};
ghost use Rattle.rb_explain.specs.Turn.{IsTurnExplained};

use crate::client::ClientExplanation;
use crate::refused::{Subject, subjects_of};
use crate::seeing::{explain_all, see_all};
use crate::wanted::Wanted;
use rb_base::{Gate, Window};
use rb_script_types::{Asked, HostWindow, Observation, Turn};
use rb_super_turn::{
    ClientReport, Crew, Heard, Nothing, Relayer, SettlementReport, TurnReport, hear_all, plan_all,
    scan_all, settle_turn,
};
use std::alloc::{AllocError, Allocator, Global};
use std::thread::Threads;

/// A turn, by its number from 1: its window, its report, what its events tell of, and its clients, in the order of the report, each
/// explained where that is wanted.
#[derive(Drop)]
pub struct TurnExplanation<A: Allocator = Global> {
    pub turn: usize,
    pub window: Window,
    pub report: TurnReport<A>,
    pub subjects: Vec<Subject, A>,
    pub clients: Vec<Option<ClientExplanation<A>>, A>,
}

impl<A: Allocator> TurnExplanation<A> {
    fn new(
        turn: usize,
        window: Window,
        report: TurnReport<A>,
        subjects: Vec<Subject, A>,
        clients: Vec<Option<ClientExplanation<A>>, A>,
    ) -> TurnExplanation<A>
        ensures turn { result.turn ≡ turn }
        ensures window { result.window ≡ window }
        ensures report { turn_report_view result.report ≡ turn_report_view report }
        ensures reports { result.report.clients.items ≡ report.clients.items }
        ensures subjects { result.subjects.items ≡ subjects.items }
        ensures clients { result.clients.items ≡ clients.items }
    {
        TurnExplanation {
            turn,
            window,
            report,
            subjects,
            clients,
        }
    }
}

/// The report of a turn.
fn report_of<A: Allocator>(
    heard: Heard<A>,
    clients: Vec<ClientReport<A>, A>,
    settlements: Vec<SettlementReport, A>,
) -> TurnReport<A>
    ensures view { turn_report_view result ≡ record {
      window_back = heard.window_back;
      hosts_back = heard.hosts_back.items;
      refused = map refused_view heard.refused.items;
      clients = map client_report_view clients.items;
      settlements = map settlement_view settlements.items;
    } }
    ensures clients { result.clients.items ≡ clients.items }
{
    TurnReport {
        window_back: heard.window_back,
        hosts_back: heard.hosts_back,
        refused: heard.refused,
        clients,
        settlements,
    }
}

/// Leads a relayer through a turn up to where its clients are planned; tells whether the window goes
/// back, and which events are refused.
fn prepare<R: Threads + Sync, G: Gate + Sync, A: Allocator + Copy>(
    crew: &Crew<R, G>,
    alloc: A,
    relayer: &mut Relayer<A>,
    window: Window,
    windows: &[HostWindow],
    goals: &[Asked],
    events: Vec<Observation<A>, A>,
) -> Result<Heard<A>, AllocError>
    requires hosts { All (λ (w : WindowOf). w.host < length relayer.old.config.chains) windows.now }
    requires goals { All (λ (g : Asked). g.client < length relayer.old.config.clients) goals.now }
    requires events { All (IsReadObservation (length relayer.old.config.chains) (length relayer.old.config.clients) (length relayer.old.config.paths)) events.items }
    requires room { HasLogRoom relayer.old (1 + length windows.now + length goals.now + length events.items + 2 * length relayer.old.config.paths) }
    ensures back { IfOk result (λ h. h.window_back ≡ goes_back (standing_in relayer.old).window window) }
    ensures hosts { IfOk result (λ h. h.hosts_back.items ≡ hosts_back (standing_in relayer.old) windows.now) }
    ensures refused { IfOk result (λ h. map refused_view h.refused.items ≡ refusals_in (standing_in relayer.old) (turn_heard window windows.now goals.now events.items)) }
    ensures standing { OnOk result (standing_in relayer.new ≡ before_plans (standing_in relayer.old) (turn_heard window windows.now goals.now events.items)) }
    ensures ready { OnOk result (IsPlannable relayer.new) }
    ensures later { OnOk result (IsLater (1 + length windows.now + length goals.now + length events.items + 2 * length relayer.old.config.paths) relayer.old relayer.new) }
{
    let heard = hear_all(alloc, relayer, window, windows, goals, events)?;
    scan_all(crew, relayer, &mut Nothing)?;
    Ok(heard)
}

/// Leads a relayer through a turn, and explains it: those of its clients that are wanted, as they were where the clients were planned.
pub(crate) fn explain_turn<R: Threads + Sync, G: Gate + Sync, A: Allocator + Copy + Send + Sync>(
    crew: &Crew<R, G>,
    alloc: A,
    relayer: &mut Relayer<A>,
    number: usize,
    turn: Turn<A>,
    wanted: &Wanted,
) -> Result<TurnExplanation<A>, AllocError>
    requires turn { IsTurnFor relayer.old.config turn }
    requires room { HasLogRoom relayer.old (most_events relayer.old.config turn) }
    requires alloc { Frees A.Allocator A.dealloc_token }
    ensures number { IfOk result (λ x. x.turn ≡ number) }
    ensures right { IfOk result (IsTurnExplained (standing_in relayer.old) (code_turn_as_events turn) wanted.now) }
    ensures standing { IfOk result (λ x. standing_in relayer.new ≡ after_turn (standing_in relayer.old) (code_turn_as_events turn) (turn_report_view x.report)) }
    ensures later { OnOk result (IsLater (most_events relayer.old.config turn) relayer.old relayer.new) }
{
    let Turn {
        window,
        windows,
        goals,
        events,
        settlements,
        taken,
    } = turn;
    let subjects = subjects_of(alloc, events.as_slice(), wanted.has_turn(number))?;
    let heard = prepare(
        crew,
        alloc,
        relayer,
        window,
        windows.as_slice(),
        goals.as_slice(),
        events,
    )?;
    let seen = see_all(crew, alloc, relayer, number, wanted)?;
    let clients = plan_all(crew, alloc, relayer, &mut Nothing)?;
    let settled = settle_turn(alloc, relayer, settlements.as_slice(), taken)?;
    let explained = explain_all(alloc, seen.as_slice(), clients.as_slice(), wanted.detail)?;
    let report = report_of(heard, clients, settled);
    let explanation = TurnExplanation::new(number, window, report, subjects, explained);
    Ok(explanation)
}
