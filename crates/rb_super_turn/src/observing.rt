//! The window of a turn, what is asked, and what was seen before.
ghost use Rattle.std.specs.Prelude.{◌≡◌, ◌<◌, ◌+◌, ◌++◌, ◌∷◌, [], if◌then◌else◌, true, length, is_some, map, fold, All, IfOk, OnOk};
ghost use Rattle.rb_core_model.specs.Seen.{observed};
ghost use Rattle.rb_core_model.specs.Standing.{goes_back, judged, standing_after};
ghost use Rattle.rb_script_types.specs.Script.{IsReadObservation};
ghost use Rattle.rb_script_types.specs.declared.script.HostWindow.{HostWindow as WindowOf};
ghost use Rattle.rb_super_turn.specs.Turns.{window_event, after_host_window, hosts_back, refused_as, after_window, after_question, refusals, before_plans, refusals_in};
ghost use Rattle.rb_super_turn.specs.Phases.{standing_in, HasLogRoom, IsLater, turn_heard};
ghost use Rattle.rb_super_turn.specs.Views.{refused_view};

use crate::machine::Machine;
use crate::relayer::Relayer;
use crate::report::RefusedEvent;
use crate::taking::hear;
use rb_base::Window;
use rb_core_model::Event;
use rb_script_types::{Asked, HostWindow, Observation, Refusal};
use std::alloc::{AllocError, Allocator, Global};

/// Enters a window, unless it goes back; tells whether it does.
fn enter<A: Allocator + Copy, M: Machine<A>>(
    relayer: &mut Relayer<A, M>,
    window: Window,
) -> Result<bool, AllocError>
    requires { HasLogRoom relayer.old 1 }
    ensures back { IfOk result (λ back. back ≡ goes_back (standing_in relayer.old).window window) }
    ensures standing { OnOk result (standing_in relayer.new ≡ after_window (standing_in relayer.old) window) }
    ensures later { OnOk result (IsLater 1 relayer.old relayer.new) }
{
    let refusal = hear(relayer, Event::Window(window))?;
    Ok(refusal.is_some())
}

/// Enters a window of a host, unless it goes back; tells whether it does.
fn enter_host<A: Allocator + Copy, M: Machine<A>>(
    relayer: &mut Relayer<A, M>,
    window: HostWindow,
) -> Result<bool, AllocError>
    requires host { window.host < length relayer.old.config.chains }
    requires room { HasLogRoom relayer.old 1 }
    ensures back { IfOk result (λ back. back ≡ is_some (judged (standing_in relayer.old) (window_event window))) }
    ensures standing { OnOk result (standing_in relayer.new ≡ after_host_window (standing_in relayer.old) window) }
    ensures later { OnOk result (IsLater 1 relayer.old relayer.new) }
{
    let refused = hear(relayer, Event::HostWindow(window))?;
    Ok(refused.is_some())
}

/// Puts a host whose window goes back to the end of a list.
fn push_host<A: Allocator>(
    hosts: &mut Vec<usize, A>,
    host: usize,
    back: bool,
) -> Result<(), AllocError>
    ensures { OnOk result (hosts.new.items ≡ hosts.old.items ++ (if back then host ∷ [] else [])) }
{
    if back {
        hosts.push(host)?;
    }
    Ok(())
}

/// Enters the windows of hosts; tells the hosts whose windows go back.
fn enter_hosts<A: Allocator + Copy, M: Machine<A>>(
    alloc: A,
    relayer: &mut Relayer<A, M>,
    windows: &[HostWindow],
) -> Result<Vec<usize, A>, AllocError>
    requires hosts { All (λ (w : WindowOf). w.host < length relayer.old.config.chains) windows.now }
    requires room { HasLogRoom relayer.old (length windows.now) }
    ensures back { IfOk result (λ hosts. hosts.items ≡ hosts_back (standing_in relayer.old) windows.now) }
    ensures standing { OnOk result (standing_in relayer.new ≡ fold after_host_window (standing_in relayer.old) windows.now) }
    ensures later { OnOk result (IsLater (length windows.now) relayer.old relayer.new) }
{
    let mut hosts = Vec::new(alloc);
    for window in windows {
        let back = enter_host(relayer, *window)?;
        push_host(&mut hosts, window.host, back)?;
    }
    Ok(hosts)
}

/// Asks a client for a goal.
fn ask<A: Allocator + Copy, M: Machine<A>>(
    relayer: &mut Relayer<A, M>,
    asked: Asked,
) -> Result<(), AllocError>
    requires client { asked.client < length relayer.old.config.clients }
    requires room { HasLogRoom relayer.old 1 }
    ensures standing { OnOk result (standing_in relayer.new ≡ after_question (standing_in relayer.old) asked) }
    ensures later { OnOk result (IsLater 1 relayer.old relayer.new) }
{
    hear(relayer, Event::Asked(asked))?;
    Ok(())
}

/// Asks clients for goals.
fn ask_all<A: Allocator + Copy, M: Machine<A>>(
    relayer: &mut Relayer<A, M>,
    goals: &[Asked],
) -> Result<(), AllocError>
    requires clients { All (λ (g : Asked). g.client < length relayer.old.config.clients) goals.now }
    requires room { HasLogRoom relayer.old (length goals.now) }
    ensures standing { OnOk result (standing_in relayer.new ≡ fold after_question (standing_in relayer.old) goals.now) }
    ensures later { OnOk result (IsLater (length goals.now) relayer.old relayer.new) }
{
    for asked in goals {
        ask(relayer, *asked)?;
    }
    Ok(())
}

/// Takes in what was seen, or tells why it is refused; what is refused changes nothing.
fn observe<A: Allocator + Copy, M: Machine<A>>(
    relayer: &mut Relayer<A, M>,
    observation: Observation<A>,
) -> Result<Option<Refusal>, AllocError>
    requires seen { IsReadObservation (length relayer.old.config.chains) (length relayer.old.config.clients) (length relayer.old.config.paths) observation }
    requires room { HasLogRoom relayer.old 1 }
    ensures judged { IfOk result (λ refusal. refusal ≡ judged (standing_in relayer.old) (observed observation)) }
    ensures standing { OnOk result (standing_in relayer.new ≡ standing_after (standing_in relayer.old) (observed observation)) }
    ensures later { OnOk result (IsLater 1 relayer.old relayer.new) }
{
    hear(relayer, Event::Observed(observation))
}

/// Puts a refusal, if there is one, to the end of a list, with the number of the event.
fn push_refusal<A: Allocator>(
    refused: &mut Vec<RefusedEvent, A>,
    event: usize,
    refusal: Option<Refusal>,
) -> Result<(), AllocError>
    ensures { OnOk result (map refused_view refused.new.items ≡ map refused_view refused.old.items ++ refused_as event refusal) }
{
    if let Some(refusal) = refusal {
        refused.push(RefusedEvent { event, refusal })?;
    }
    Ok(())
}

/// Takes in what was seen, in its order, and tells what of it is refused.
fn observe_all<A: Allocator + Copy, M: Machine<A>>(
    alloc: A,
    relayer: &mut Relayer<A, M>,
    observations: Vec<Observation<A>, A>,
) -> Result<Vec<RefusedEvent, A>, AllocError>
    requires seen { All (IsReadObservation (length relayer.old.config.chains) (length relayer.old.config.clients) (length relayer.old.config.paths)) observations.items }
    requires room { HasLogRoom relayer.old (length observations.items) }
    ensures refused { IfOk result (λ refused. map refused_view refused.items ≡ refusals 0 (standing_in relayer.old) (map observed observations.items)) }
    ensures standing { OnOk result (standing_in relayer.new ≡ fold standing_after (standing_in relayer.old) (map observed observations.items)) }
    ensures later { OnOk result (IsLater (length observations.items) relayer.old relayer.new) }
{
    let mut refused = Vec::new(alloc);
    let mut event = 0;
    for observation in observations {
        let refusal = observe(relayer, observation)?;
        push_refusal(&mut refused, event, refusal)?;
        event += 1;
    }
    Ok(refused)
}

/// What a turn tells up to where its paths are scanned: whether its window goes back, the hosts whose own windows do, and
/// the events that are refused.
#[derive(Drop)]
pub struct Heard<A: Allocator = Global> {
    pub window_back: bool,
    pub hosts_back: Vec<usize, A>,
    pub refused: Vec<RefusedEvent, A>,
}

/// Leads a relayer through a turn up to where its paths are scanned: its windows, those of hosts first, what is asked, and
/// what was seen. What is refused changes nothing.
pub fn hear_all<A: Allocator + Copy, M: Machine<A>>(
    alloc: A,
    relayer: &mut Relayer<A, M>,
    window: Window,
    windows: &[HostWindow],
    goals: &[Asked],
    events: Vec<Observation<A>, A>,
) -> Result<Heard<A>, AllocError>
    requires hosts { All (λ (w : WindowOf). w.host < length relayer.old.config.chains) windows.now }
    requires goals { All (λ (g : Asked). g.client < length relayer.old.config.clients) goals.now }
    requires events { All (IsReadObservation (length relayer.old.config.chains) (length relayer.old.config.clients) (length relayer.old.config.paths)) events.items }
    requires room { HasLogRoom relayer.old (1 + length windows.now + length goals.now + length events.items) }
    ensures back { IfOk result (λ h. h.window_back ≡ goes_back (standing_in relayer.old).window window) }
    ensures hosts { IfOk result (λ h. h.hosts_back.items ≡ hosts_back (standing_in relayer.old) windows.now) }
    ensures refused { IfOk result (λ h. map refused_view h.refused.items ≡ refusals_in (standing_in relayer.old) (turn_heard window windows.now goals.now events.items)) }
    ensures standing { OnOk result (standing_in relayer.new ≡ before_plans (standing_in relayer.old) (turn_heard window windows.now goals.now events.items)) }
    ensures entered { OnOk result (is_some (standing_in relayer.new).window ≡ true) }
    ensures later { OnOk result (IsLater (1 + length windows.now + length goals.now + length events.items) relayer.old relayer.new) }
{
    let hosts_back = enter_hosts(alloc, relayer, windows)?;
    let window_back = enter(relayer, window)?;
    ask_all(relayer, goals)?;
    let refused = observe_all(alloc, relayer, events)?;
    Ok(Heard {
        window_back,
        hosts_back,
        refused,
    })
}
