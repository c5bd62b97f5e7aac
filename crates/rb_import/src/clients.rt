//! The events of clients: the consensus states that they have stored.
ghost use Rattle.std.specs.Prelude.{◌≡◌, ◌++◌, OnOk, map};
ghost use Rattle.rb_import.specs.Events.{clients_events, stored_in};

use rb_book::Record;
use rb_import_check::Stored;
use rb_import_merge::SeenSetup;
use rb_script_types::Observation;
use std::alloc::AllocError;

/// Adds the consensus states of each client.
#[tactic(auto, unfolding(crate::specs::Events::clients_events))]
pub(crate) fn push_clients(
    events: &mut Vec<Observation>,
    seen: &SeenSetup<'_>,
) -> Result<(), AllocError>
    ensures { OnOk result (events.new.items ≡ events.old.items ++ clients_events seen.now) }
{
    for (place, records) in seen.records.iter().enumerate() {
        push_stored(events, place, records.as_slice())?;
    }
    Ok(())
}

/// Adds the consensus states of the client at a place.
fn push_stored(
    events: &mut Vec<Observation>,
    client: usize,
    records: &[Stored<'_>],
) -> Result<(), AllocError>
    ensures { OnOk result (events.new.items ≡ events.old.items ++ map (stored_in client) records.now) }
{
    for stored in records {
        events.push(stored_in(client, stored))?;
    }
    Ok(())
}

fn stored_in(client: usize, stored: &Stored<'_>) -> Observation
    ensures { result ≡ stored_in client stored.now }
{
    let state = stored.state;
    Observation::StoredSeen {
        client,
        height: state.height,
        record: Record::new(state.time, state.root, state.next),
    }
}
