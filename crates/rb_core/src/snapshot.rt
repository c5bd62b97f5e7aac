//! What a core knows, as plain data, and its state where a snapshot that fits is known.
ghost use Rattle.std.specs.Prelude.{◌≡◌, IfOk, IfSome};
ghost use Rattle.rb_script_types.specs.Config.{config_view};
ghost use Rattle.rb_core.specs.Snapshot.{snapshot_view};
ghost use Rattle.rb_core.specs.State.{standing_view, state_view};
ghost use Rattle.rb_core_model.specs.Begun.{IsBegun};
ghost use Rattle.rb_core_model.specs.Machine.{begun};
ghost use Rattle.rb_core_model.specs.Snapshot.{snapshot_of};

use crate::copies::{are_few, new_plans, new_scans};
use crate::fitting::is_fitting;
use crate::state::CoreState;
use rb_base::Window;
use rb_book::SharedBook;
use rb_core_state::books::share_books;
use rb_core_state::snapshot::{client_snapshots, path_snapshots, restored_clients, restored_paths};
use rb_core_state::{ClientSnapshot, PathSnapshot};
use rb_script_types::Config;
use std::alloc::{AllocError, Allocator, Global};

/// What is known: the window, a book for each chain, and of each client and each path what is known of it,
/// by their places in the script.
#[derive(Drop)]
pub struct Snapshot<A: Allocator = Global> {
    pub window: Option<Window>,
    pub books: Vec<SharedBook<A>, A>,
    pub clients: Vec<ClientSnapshot<A>, A>,
    pub paths: Vec<PathSnapshot<A>, A>,
}

/// What is known in a state. The books are shared.
pub(crate) fn known_in<A: Allocator + Copy>(
    alloc: A,
    state: &CoreState<A>,
) -> Result<Snapshot<A>, AllocError>
    ensures { IfOk result (λ snapshot. snapshot_view snapshot ≡ snapshot_of (standing_view state.now)) }
{
    Ok(Snapshot {
        window: state.window,
        books: share_books(alloc, state.books.as_slice())?,
        clients: client_snapshots(alloc, state.clients.as_slice())?,
        paths: path_snapshots(alloc, state.paths.as_slice())?,
    })
}

/// The state before the first event, where this is known, by what the types of its parts keep alone.
fn stated<A: Allocator + Copy>(
    alloc: A,
    config: &Config<A>,
    snapshot: &Snapshot<A>,
) -> Result<Option<CoreState<A>>, AllocError>
    ensures state { IfOk result (λ found. IfSome found (λ state. state_view state ≡ begun (config_view config.now) (snapshot_view snapshot.now))) }
    ensures snapshot { IfOk result (λ found. IfSome found (λ state. snapshot_of (standing_view state) ≡ snapshot_view snapshot.now)) }
{
    if snapshot.books.len() != config.chains.len() {
        return Ok(None);
    }
    let configs = config.clients.as_slice();
    let Some(clients) = restored_clients(alloc, configs, snapshot.clients.as_slice())? else {
        return Ok(None);
    };
    let configs = config.paths.as_slice();
    let Some(paths) = restored_paths(alloc, configs, snapshot.paths.as_slice())? else {
        return Ok(None);
    };
    Ok(Some(CoreState {
        window: snapshot.window,
        books: share_books(alloc, snapshot.books.as_slice())?,
        clients,
        paths,
        plans: new_plans(alloc, config.clients.len())?,
        scans: new_scans(alloc, config.paths.len())?,
        front: 0,
    }))
}

/// The state before the first event, where this is known; None where it doesn't fit, or a client has opened
/// more than 2^62 batches. The books are shared.
pub(crate) fn restored_state<A: Allocator + Copy>(
    alloc: A,
    config: &Config<A>,
    snapshot: &Snapshot<A>,
) -> Result<Option<CoreState<A>>, AllocError>
    ensures state { IfOk result (λ found. IfSome found (λ state. state_view state ≡ begun (config_view config.now) (snapshot_view snapshot.now))) }
    ensures snapshot { IfOk result (λ found. IfSome found (λ state. snapshot_of (standing_view state) ≡ snapshot_view snapshot.now)) }
    ensures begun { IfOk result (λ found. IfSome found (λ state. IsBegun (config_view config.now) (snapshot_view snapshot.now))) }
{
    let Some(state) = stated(alloc, config, snapshot)? else {
        return Ok(None);
    };
    if !are_few(state.clients.as_slice()) || !is_fitting(&state) {
        return Ok(None);
    }
    Ok(Some(state))
}
