//! Scripts that were read are scripts as turns tell them.
ghost use Rattle.std.specs.Prelude.{All};
ghost use Rattle.rb_script_types.specs.Script.{script_view, IsReadScript};
ghost use Rattle.rb_script_types.specs.declared.observation.Observation.{Observation as Seen};
ghost use Rattle.rb_script_types.specs.declared.script.Turn.{Turn as CodeTurn};
ghost use Rattle.rb_core_model.specs.Event.{IsEvent};
ghost use Rattle.rb_core_model.specs.Seen.{observed};
ghost use Rattle.rb_super_turn.specs.Script.{IsScript};
ghost use Rattle.rb_super_turn.specs.AsEvents.{as_events};

use rb_core_model::rules::{fee_tables, observation_is_event};
use rb_script_types::{Observation, Script, Turn};
use std::alloc::Allocator;

/// What was observed keeps what every event keeps.
fn observations_are_events<A: Allocator>(observations: &[Observation<A>])
    ensures { All (λ (o : Seen _). IsEvent (observed o)) observations.now }
{
    for observation in observations {
        observation_is_event(observation);
    }
}

/// The same of the turns of a script.
fn turns_have_events<A: Allocator>(turns: &[Turn<A>])
    ensures { All (λ (t : CodeTurn _). All (λ (o : Seen _). IsEvent (observed o)) t.events.items) turns.now }
{
    for turn in turns {
        observations_are_events(turn.events.as_slice());
    }
}

/// A script that keeps what `rb_script_read::read_script` promises of each that it reads is, as turns tell it,
/// one of a relayer that is set up: its windows don't end before they begin, and what it observes is there
/// and keeps what events keep. So the laws of labels, batches, reports and verdicts hold of it.
pub fn read_scripts_are_scripts<A: Allocator>(script: &Script<A>)
    requires { IsReadScript (script_view script.now) }
    ensures { IsScript (as_events (script_view script.now)) }
{
    fee_tables(script.config.clients.as_slice());
    turns_have_events(script.turns.as_slice());
}
