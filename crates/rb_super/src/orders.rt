//! What workers are told to do.
ghost use Rattle.std.specs.Prelude.{◌≡◌, ◌<◌, length};
ghost use denote.Param.Send.{Frees};

use crate::found::FoundByWorkers;
use crate::head::Head;
use rb_base::{Gate, Part};
use rb_board::{Note, Order};
use rb_super_turn::{Crew, Relayer, table_for};
use std::alloc::{AllocError, Global};
use std::sync::Wait;
use std::thread::Threads;

/// A note of all that was taken in, which is to be shown before a worker gets the note.
fn note_of(relayer: &Relayer<Global, Head>) -> Note {
    Note {
        front: relayer.front(),
    }
}

/// Tells workers to scan the parts of paths that have no valid scan, in the order of the paths.
pub(crate) fn order_scans<R: Wait, G: Gate + Send + Sync + Drop + 'static>(
    relayer: &Relayer<Global, Head>,
    found: &mut FoundByWorkers<'_, R, G>,
) -> Result<(), AllocError> {
    let note = note_of(relayer);
    for path in 0..relayer.config().paths.len() {
        for part in [Part::Packets, Part::Channel] {
            if !relayer.is_scanned(path, part) {
                found.order(Order::Scan { path, part, note })?;
            }
        }
    }
    Ok(())
}

/// The plan of a client, with the table of the chain that it tracks.
fn plan_order<R: Threads + Sync, G: Gate + Sync>(
    crew: &Crew<R, G>,
    alloc: Global,
    relayer: &mut Relayer<Global, Head>,
    client: usize,
) -> Result<Order, AllocError>
    requires { client < length relayer.old.config.clients }
    ensures same { relayer.new ≡ relayer.old }
{
    let note = note_of(relayer);
    let graph = table_for(crew, alloc, relayer, client)?;
    Ok(Order::Plan {
        client,
        note,
        graph,
    })
}

/// Tells workers to plan for the clients that have no open batch, in their order; each begins as
/// soon as it is told.
pub(crate) fn order_plans<R, G>(
    crew: &Crew<R, G>,
    alloc: Global,
    relayer: &mut Relayer<Global, Head>,
    found: &mut FoundByWorkers<'_, R, G>,
) -> Result<(), AllocError>
where
    R: Threads + Sync + Wait,
    G: Gate + Send + Sync + Drop + 'static,
    ensures same { relayer.new ≡ relayer.old }
{
    let clients = relayer.config().clients.len();
    for client in 0..clients {
        if relayer.open_batch(client).is_none() {
            let order = plan_order(crew, alloc, relayer, client)?;
            found.order(order)?;
        }
    }
    Ok(())
}
