//! Whether a script is one that its reader could have given.
ghost use Rattle.std.specs.Prelude.{◌≡◌, ◌≢◌, ◌↔◌, ◌-◌, ◌<◌, ◌≤◌, ℕ, IsTrue, SomeIff, All, AllPairs, length, map, sum_by};
ghost use Rattle.rb_script_types.specs.Limits.{max_entries, max_turns};
ghost use Rattle.rb_script_types.specs.Script.{IsReadObservation, IsReadScript, IsReadWindow, IsTurnOf, entry_count, script_view, turn_view};

use rb_script_types::{
    Asked, Config, HostWindow, MAX_ENTRIES, MAX_TURNS, Observation, Script, Settlement, Turn,
    is_config,
};

/// What names a chain or a client by its place.
trait Placed {
    ghost place: { Self → ℕ };

    fn place(&self) -> usize
        ensures { result ≡ place self.now };
}

impl Placed for HostWindow {
    ghost place = { λ w. w.host };

    fn place(&self) -> usize {
        self.host
    }
}

impl Placed for Asked {
    ghost place = { λ g. g.client };

    fn place(&self) -> usize {
        self.client
    }
}

/// Whether turns have no more windows of hosts, goals, events and settlements than are allowed.
pub(crate) fn has_room(turns: &[Turn]) -> bool
    ensures { IsTrue result ↔ sum_by entry_count (map turn_view turns.now) ≤ max_entries }
{
    let mut room = MAX_ENTRIES;
    for turn in turns {
        match room_after(room, turn) {
            Some(left) => room = left,
            None => return false,
        }
    }
    true
}

/// The room that a turn leaves, if there is enough.
fn room_after(room: usize, turn: &Turn) -> Option<usize>
    ensures { SomeIff result (entry_count (turn_view turn.now) ≤ room) (room - entry_count (turn_view turn.now)) }
{
    room.checked_sub(turn.windows.len())?
        .checked_sub(turn.goals.len())?
        .checked_sub(turn.events.len())?
        .checked_sub(turn.settlements.len())
}

/// Whether a script that has no more events than are allowed is one that its reader could have given.
pub(crate) fn is_read_script(script: &Script) -> bool
    requires { sum_by entry_count (script_view script.now).turns ≤ max_entries }
    ensures { IsTrue result ↔ IsReadScript (script_view script.now) }
{
    let config = &script.config;
    is_config(config) && are_turns(config, script.turns.as_slice())
}

fn are_turns(config: &Config, turns: &[Turn]) -> bool
    ensures { IsTrue result ↔ (length turns.now ≤ max_turns) × All (IsTurnOf config.now) turns.now }
{
    turns.len() <= MAX_TURNS && turns.iter().all(|turn| is_turn_of(config, turn))
}

fn is_turn_of(config: &Config, turn: &Turn) -> bool
    ensures { IsTrue result ↔ IsTurnOf config.now turn.now }
{
    let (chains, clients, paths) = (
        config.chains.len(),
        config.clients.len(),
        config.paths.len(),
    );
    turn.window.from() <= turn.window.until()
        && are_windows(chains, turn.windows.as_slice())
        && all_differ(turn.windows.as_slice())
        && are_below(clients, turn.goals.as_slice())
        && all_differ(turn.goals.as_slice())
        && are_events(chains, clients, paths, turn.events.as_slice())
        && are_settlements(clients, turn.settlements.as_slice())
}

fn are_windows(chains: usize, windows: &[HostWindow]) -> bool
    ensures { IsTrue result ↔ All (IsReadWindow chains) windows.now }
{
    windows.iter().all(|given| is_window(chains, given))
}

fn is_window(chains: usize, given: &HostWindow) -> bool
    ensures { IsTrue result ↔ IsReadWindow chains given.now }
{
    given.host < chains && given.window.from() <= given.window.until()
}

fn are_below(clients: usize, goals: &[Asked]) -> bool
    ensures { IsTrue result ↔ All (λ g. g.client < clients) goals.now }
{
    goals.iter().all(|goal| goal.client < clients)
}

fn are_settlements(clients: usize, settlements: &[Settlement]) -> bool
    ensures { IsTrue result ↔ All (λ s. s.client < clients) settlements.now }
{
    settlements
        .iter()
        .all(|settlement| settlement.client < clients)
}

fn are_events(chains: usize, clients: usize, paths: usize, events: &[Observation]) -> bool
    ensures { IsTrue result ↔ All (IsReadObservation chains clients paths) events.now }
{
    events
        .iter()
        .all(|event| is_event(chains, clients, paths, event))
}

fn is_event(chains: usize, clients: usize, paths: usize, event: &Observation) -> bool
    ensures { IsTrue result ↔ IsReadObservation chains clients paths event.now }
{
    match event {
        Observation::SetSeen { chain, .. } | Observation::HeaderSeen { chain, .. } => {
            *chain < chains
        }
        Observation::StoredSeen { client, .. } => *client < clients,
        Observation::Sent { path, .. }
        | Observation::Received { path, .. }
        | Observation::AckWritten { path, .. }
        | Observation::Cleared { path, .. }
        | Observation::Closed { path } => *path < paths,
    }
}

/// Whether no two of the items name the same place.
fn all_differ<T: Placed>(items: &[T]) -> bool
    ensures { IsTrue result ↔ AllPairs (λ a b. T.place a ≢ T.place b) items.now }
{
    for (number, item) in items.iter().enumerate() {
        if !differs_from_all(item.place(), &items[..number]) {
            return false;
        }
    }
    true
}

/// Whether a place is named by none of the items.
fn differs_from_all<T: Placed>(place: usize, items: &[T]) -> bool
    ensures { IsTrue result ↔ All (λ other. T.place other ≢ place) items.now }
{
    items.iter().all(|other| other.place() != place)
}
