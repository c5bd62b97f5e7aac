//! Whether two scripts are the same.
ghost use Rattle.std.specs.Prelude.{◌≡◌, IsTrue, map};
ghost use Rattle.rb_script_types.specs.Script.{script_view, turn_view};

use crate::same_config::is_same_config;
use rb_script_types::{Asked, HostWindow, Script, Settlement, Turn};

/// What is compared by its content.
pub(crate) trait Same {
    /// Whether another one is the same.
    fn is_same(&self, other: &Self) -> bool
        ensures { IsTrue result → self.now ≡ other.now };
}

/// Whether the items at the same places are the same.
pub(crate) fn are_same<T: Same>(items: &[T], others: &[T]) -> bool
    ensures { IsTrue result → items.now ≡ others.now }
{
    if items.len() != others.len() {
        return false;
    }
    for (place, item) in items.iter().enumerate() {
        if !item.is_same(&others[place]) {
            return false;
        }
    }
    true
}

/// Whether two scripts are the same.
pub(crate) fn is_same_script(script: &Script, other: &Script) -> bool
    ensures { IsTrue result → script_view script.now ≡ script_view other.now }
{
    is_same_config(&script.config, &other.config)
        && are_same_turns(script.turns.as_slice(), other.turns.as_slice())
}

fn are_same_turns(turns: &[Turn], others: &[Turn]) -> bool
    ensures { IsTrue result → map turn_view turns.now ≡ map turn_view others.now }
{
    if turns.len() != others.len() {
        return false;
    }
    for (place, turn) in turns.iter().enumerate() {
        if !is_same_turn(turn, &others[place]) {
            return false;
        }
    }
    true
}

fn is_same_turn(turn: &Turn, other: &Turn) -> bool
    ensures { IsTrue result → turn_view turn.now ≡ turn_view other.now }
{
    turn.window == other.window
        && are_same(turn.windows.as_slice(), other.windows.as_slice())
        && are_same(turn.goals.as_slice(), other.goals.as_slice())
        && are_same(turn.events.as_slice(), other.events.as_slice())
        && are_same(turn.settlements.as_slice(), other.settlements.as_slice())
        && turn.taken == other.taken
}

impl Same for HostWindow {
    fn is_same(&self, other: &HostWindow) -> bool {
        *self == *other
    }
}

impl Same for Asked {
    fn is_same(&self, other: &Asked) -> bool {
        *self == *other
    }
}

impl Same for Settlement {
    fn is_same(&self, other: &Settlement) -> bool {
        *self == *other
    }
}
