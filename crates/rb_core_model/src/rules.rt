//! What is true of values by their types, for proofs. No call changes anything.
ghost use Rattle.std.specs.Prelude.{All};
ghost use Rattle.rb_base.specs.Fee.{IsFeeTable};
ghost use Rattle.rb_script_types.specs.declared.config.ClientConfig.{ClientConfig as SetUpClient};
ghost use Rattle.rb_core_model.specs.Event.{IsEvent};
ghost use Rattle.rb_core_model.specs.Seen.{observed};

use rb_script_types::{ClientConfig, Observation};
use std::alloc::Allocator;

/// What updates cost is given by fee tables.
pub fn fee_tables(clients: &[ClientConfig])
    ensures { All (λ (client : SetUpClient). IsFeeTable client.fees) clients.now }
{
    for client in clients {
        client.fees.charge(0, 0);
    }
}

/// What was observed keeps what every event keeps.
pub fn observation_is_event<A: Allocator>(observation: &Observation<A>)
    ensures { IsEvent (observed observation.now) }
{
    if let Observation::SetSeen { set, .. } = observation {
        set.members();
    }
}
