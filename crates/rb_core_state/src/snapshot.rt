//! What is known of clients and paths beside how they are configured, as plain data: what a snapshot tells
//! of them, and their states where that is known.
ghost use Rattle.std.specs.Prelude.{◌≡◌, map, IfOk, IfSome};
ghost use Rattle.rb_core_model.specs.Snapshot.{snapshot_of_client, snapshot_of_path};
ghost use Rattle.rb_core_model.specs.Standing as standings;
ghost use Rattle.rb_core_state.specs.Known.{known_client, known_path};
ghost use Rattle.rb_core_state.specs.Room.{clients_of, paths_of};

use crate::client::ClientState;
use crate::opened::OpenBatch;
use crate::path::PathState;
use rb_base::{Height, Window};
use rb_scan::{Packet, Sequence};
use rb_script_types::{ClientConfig, Goal, PathConfig};
use std::alloc::{AllocError, Allocator, Global};

/// What is known of a client: the window of its host where that has one of its own, the heights that it has
/// stored, rising, the goal that it was asked for, how many batches were opened for it, and the one that is
/// open.
#[derive(Drop)]
pub struct ClientSnapshot<A: Allocator = Global> {
    pub window: Option<Window>,
    pub stored: Vec<Height, A>,
    pub asked: Option<Goal>,
    pub batches: u64,
    pub batch: Option<OpenBatch<A>>,
}

/// What is known of a path: its first sequence, the packets that were sent, by rising sequence, and whether
/// the channel is closed.
#[derive(Drop)]
pub struct PathSnapshot<A: Allocator = Global> {
    pub first: Sequence,
    pub packets: Vec<Packet, A>,
    pub closed: bool,
}

/// What is known of clients, in their order. `AllocError` where memory is refused.
pub fn client_snapshots<A: Allocator + Copy>(
    alloc: A,
    clients: &[ClientState<A>],
) -> Result<Vec<ClientSnapshot<A>, A>, AllocError>
    ensures { IfOk result (λ known. map known_client known.items ≡ map snapshot_of_client (clients_of clients.now)) }
{
    let mut known = Vec::with_capacity(alloc, clients.len())?;
    for client in clients {
        known.push(client.snapshot()?)?;
    }
    Ok(known)
}

/// What is known of paths, in their order. `AllocError` where memory is refused.
pub fn path_snapshots<A: Allocator + Copy>(
    alloc: A,
    paths: &[PathState<A>],
) -> Result<Vec<PathSnapshot<A>, A>, AllocError>
    ensures { IfOk result (λ known. map known_path known.items ≡ map snapshot_of_path (paths_of paths.now)) }
{
    let mut known = Vec::with_capacity(alloc, paths.len())?;
    for path in paths {
        known.push(path.snapshot()?)?;
    }
    Ok(known)
}

/// The states of clients with these configurations of which this is known, place by place. None where there
/// are more or fewer, or a client's stored heights don't rise. `AllocError` where memory is refused.
pub fn restored_clients<A: Allocator + Copy>(
    alloc: A,
    configs: &[ClientConfig],
    known: &[ClientSnapshot<A>],
) -> Result<Option<Vec<ClientState<A>, A>>, AllocError>
    ensures configs { IfOk result (λ found. IfSome found (λ clients. map (λ (c : standings.ClientState). c.config) (clients_of clients.items) ≡ configs.now)) }
    ensures known { IfOk result (λ found. IfSome found (λ clients. map snapshot_of_client (clients_of clients.items) ≡ map known_client known.now)) }
{
    if known.len() != configs.len() {
        return Ok(None);
    }
    let mut clients = Vec::with_capacity(alloc, configs.len())?;
    for (place, client) in known.iter().enumerate() {
        let Some(client) = ClientState::restored(alloc, configs[place], client)? else {
            return Ok(None);
        };
        clients.push(client)?;
    }
    Ok(Some(clients))
}

/// The states of paths with these configurations of which this is known, place by place. None where there are
/// more or fewer, or a path's sequences don't rise from its first one on, or it has over 4,096 packets.
/// `AllocError` where memory is refused.
pub fn restored_paths<A: Allocator + Copy>(
    alloc: A,
    configs: &[PathConfig],
    known: &[PathSnapshot<A>],
) -> Result<Option<Vec<PathState<A>, A>>, AllocError>
    ensures configs { IfOk result (λ found. IfSome found (λ paths. map (λ (p : standings.PathState). p.config) (paths_of paths.items) ≡ configs.now)) }
    ensures known { IfOk result (λ found. IfSome found (λ paths. map snapshot_of_path (paths_of paths.items) ≡ map known_path known.now)) }
{
    if known.len() != configs.len() {
        return Ok(None);
    }
    let mut paths = Vec::with_capacity(alloc, configs.len())?;
    for (place, path) in known.iter().enumerate() {
        let Some(path) = PathState::restored(alloc, configs[place], path)? else {
            return Ok(None);
        };
        paths.push(path)?;
    }
    Ok(Some(paths))
}
