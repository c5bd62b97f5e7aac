//! The windows in force in the turns of a script.
ghost use Rattle.std.specs.Prelude.{◌≡◌, ◌==◌, map, IfOk};
ghost use Rattle.std.specs.List.{enumerate_from, list_any};
ghost use Rattle.rb_script_types.specs.Script.{script_view};
ghost use Rattle.rb_super_turn.specs.Views.{turn_report_view};
ghost use Rattle.rb_text_export.specs.Windows.{after, before_all, given_view, given_window, host_after, in_force_view, in_turn, setting_of, setting_view, taken_window};

use rb_base::{ChainId, Window};
use rb_script_types::{Config, HostWindow, Script};
use rb_super_turn::TurnReport;
use std::alloc::{AllocError, Global};

/// The windows that a turn of a script gives: its own, and those of hosts.
#[derive(Drop)]
pub(crate) struct Given {
    window: Window,
    hosts: Vec<HostWindow>,
}

/// What commands say that a script's report doesn't: where its clients are hosted, and the windows that its turns give.
#[derive(Drop)]
pub struct Setting {
    pub(crate) config: Config,
    pub(crate) turns: Vec<Given>,
}

impl Setting {
    /// That of a script.
    pub fn of(alloc: Global, script: &Script) -> Result<Setting, AllocError>
        ensures { IfOk result (λ setting. setting_view setting ≡ setting_of (script_view script.now)) }
    {
        let mut turns = Vec::new(alloc);
        for turn in &script.turns {
            turns.push(Given {
                window: turn.window,
                hosts: Vec::from_slice(alloc, turn.windows.as_slice())?,
            })?;
        }
        let config = script.config.copy()?;
        Ok(Setting { config, turns })
    }

    /// The windows in force in the turn at a place, these being in force before it.
    pub(crate) fn in_turn(
        &self,
        alloc: Global,
        place: usize,
        turn: &TurnReport,
        before: &InForce,
    ) -> Result<InForce, AllocError>
        ensures { IfOk result (λ windows. in_force_view windows ≡ in_turn (setting_view self.now) place (turn_report_view turn.now) (in_force_view before.now)) }
    {
        match self.turns.get(place) {
            Some(given) => before.after(alloc, turn, given),
            None => before.copy(alloc),
        }
    }
}

/// The windows in force: that of a turn, and by their places those of the hosts that have one of their own.
#[derive(Drop)]
pub(crate) struct InForce {
    pub window: Option<Window>,
    pub hosts: Vec<Option<Window>>,
}

impl InForce {
    /// Those before the first turn: none.
    pub fn before_all(alloc: Global, chains: &[ChainId]) -> Result<InForce, AllocError>
        ensures { IfOk result (λ windows. in_force_view windows ≡ before_all chains.now) }
    {
        let mut hosts = Vec::new(alloc);
        for _chain in chains {
            hosts.push(None)?;
        }
        Ok(InForce {
            window: None,
            hosts,
        })
    }

    fn copy(&self, alloc: Global) -> Result<InForce, AllocError>
        ensures { IfOk result (λ windows. in_force_view windows ≡ in_force_view self.now) }
    {
        Ok(InForce {
            window: self.window,
            hosts: Vec::from_slice(alloc, self.hosts.as_slice())?,
        })
    }

    /// Those after a turn, which gives these windows and refuses some of them.
    pub fn after(
        &self,
        alloc: Global,
        turn: &TurnReport,
        given: &Given,
    ) -> Result<InForce, AllocError>
        ensures { IfOk result (λ windows. in_force_view windows ≡ after (turn_report_view turn.now) (given_view given.now) (in_force_view self.now)) }
    {
        let window = if turn.window_back {
            self.window
        } else {
            Some(given.window)
        };
        let hosts = hosts_after(alloc, self.hosts.as_slice(), turn, given)?;
        Ok(InForce { window, hosts })
    }
}

fn hosts_after(
    alloc: Global,
    before: &[Option<Window>],
    turn: &TurnReport,
    given: &Given,
) -> Result<Vec<Option<Window>>, AllocError>
    ensures { IfOk result (λ hosts. hosts.items ≡ map (host_after (turn_report_view turn.now) (given_view given.now)) (enumerate_from 0 before.now)) }
{
    let mut hosts = Vec::new(alloc);
    for (host, window) in before.iter().enumerate() {
        hosts.push(taken_window(turn, given, host).or(*window))?;
    }
    Ok(hosts)
}

/// The window that a turn gives a host and doesn't refuse.
fn taken_window(turn: &TurnReport, given: &Given, host: usize) -> Option<Window>
    ensures { result ≡ taken_window (turn_report_view turn.now) (given_view given.now) host }
{
    if is_refused(turn, host) {
        None
    } else {
        given_window(given.hosts.as_slice(), host)
    }
}

/// Whether the window of a host is refused.
fn is_refused(turn: &TurnReport, host: usize) -> bool
    ensures { result ≡ list_any (λ refused. refused == host) turn.now.hosts_back.items }
{
    turn.hosts_back.iter().any(|refused| *refused == host)
}

/// The window that is given to a host.
fn given_window(given: &[HostWindow], host: usize) -> Option<Window>
    ensures { result ≡ given_window given.now host }
{
    let window = given.iter().find(|window| window.host == host)?;
    Some(window.window)
}
