//! In which windows the clients of a setup are updated.
ghost use Rattle.std.specs.Prelude.{◌≡◌, option_map};
ghost use Rattle.rb_script_config.specs.HostWindows.{has_window};
ghost use Rattle.rb_import_setup.specs.Windows.{given_window, hosts_window, latest_for, own_window, window_of};

use crate::setup::{ImportSetup, TurnSetup};
use rb_base::Window;

impl ImportSetup {
    /// The window of the client at a place, this being the common one: that which the latest turn that gives its host one
    /// gives it, or else the common one.
    #[tactic(auto, unfolding(crate::specs::Windows::window_of))]
    pub fn window_of(&self, client: usize, common: Window) -> Window
        ensures { result ≡ window_of self.now client common }
    {
        self.hosts_window(client).unwrap_or(common)
    }

    /// The own window of the host of the client at a place, if it has one.
    fn hosts_window(&self, client: usize) -> Option<Window>
        ensures { result ≡ hosts_window self.now client }
    {
        let client = self.clients.get(client)?;
        own_window(self.turns.as_slice(), client.host)
    }
}

/// A host's own window after these turns, if it has one.
fn own_window(turns: &[TurnSetup], host: usize) -> Option<Window>
    ensures { result ≡ own_window host turns.now }
{
    match latest_for(turns, host) {
        Some(turn) => turn.given_window(host),
        None => None,
    }
}

/// The latest of these turns that gives a host a window.
fn latest_for(turns: &[TurnSetup], host: usize) -> Option<&TurnSetup>
    ensures { option_map (λ turn. turn.now) result ≡ latest_for host turns.entry.now }
{
    turns.iter().rev().find(|turn| turn.gives_window(host))
}

impl TurnSetup {
    /// Whether the turn gives a host a window.
    fn gives_window(&self, host: usize) -> bool
        ensures { result ≡ has_window host self.now.windows.items }
    {
        self.windows.iter().any(|window| window.host == host)
    }

    /// The window that the turn gives a host, if it gives one.
    fn given_window(&self, host: usize) -> Option<Window>
        ensures { result ≡ given_window host self.now }
    {
        let given = self.windows.iter().find(|window| window.host == host)?;
        Some(given.window)
    }
}
