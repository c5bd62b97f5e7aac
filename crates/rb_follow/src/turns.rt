//! Turns that were read are turns of a script.
ghost use Rattle.std.specs.Prelude.{All};
ghost use Rattle.std.specs.declared.alloc.Global.{Global};
ghost use Rattle.rb_script_types.specs.declared.observation.Observation.{Observation as Seen};
ghost use Rattle.rb_script_config.specs.Setups.{setup_view};
ghost use Rattle.rb_core_model.specs.Event.{IsEvent};
ghost use Rattle.rb_core_model.specs.Seen.{observed};
ghost use Rattle.rb_super_turn.specs.Script.{IsTurn};
ghost use Rattle.rb_super_turn.specs.AsEvents.{code_turn_as_events, IsTurnFor};

use rb_core_model::rules::observation_is_event;
use rb_script_config::Setup;
use rb_script_types::{Observation, Turn};

/// What was observed keeps what every event keeps.
fn observations_are_events(observations: &[Observation])
    ensures { All (λ (o : Seen Global). IsEvent (observed o)) observations.now }
{
    for observation in observations {
        observation_is_event(observation);
    }
}

/// A turn that names what a setup has is one of a script that is set up so. No call changes anything.
pub(crate) fn read_turn_is_turn(setup: &Setup, turn: &Turn)
    requires { IsTurnFor (setup_view setup.now) turn.now }
    ensures { IsTurn (setup_view setup.now) (code_turn_as_events turn.now) }
{
    observations_are_events(turn.events.as_slice());
}
