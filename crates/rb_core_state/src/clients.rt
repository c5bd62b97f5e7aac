//! The states of the clients, by their places.
ghost use Rattle.std.specs.Prelude.{◌≡◌, ◌<◌, ◌+◌, ℕ, length, map, slice_get, Some, IfOk, IfSome, IsSome, IsSomeAnd, OnOk};
ghost use Rattle.std.specs.List.{list_any};
ghost use Rattle.std.specs.Option.{option_copied, option_map, option_and_then};
ghost use Rattle.rb_core_model.specs.Begun.{max_begun};
ghost use Rattle.rb_core_model.specs.Forgetting.{rest_of_client};
ghost use Rattle.rb_core_model.specs.Limits.{max_events};
ghost use Rattle.rb_core_state.specs.Floors.{floor_in};
ghost use Rattle.rb_core_state.specs.Room.{clients_of, HasStoredRoom, HasSettleRoom};
ghost use Rattle.rb_core_model.specs.Standing as standings;
ghost use Rattle.rb_core_model.specs.Standing.{changed_at, tracked, new_client, with_height, batch_opened, after_answer, settled_refusal, after_batch, goes_back_on, in_host_window};

use crate::client::ClientState;
use crate::floors::floor_at;
use crate::opened::OpenBatch;
use crate::settling::settled_updates;
use rb_base::{Height, Window};
use rb_plan_client::Planned;
use rb_script_types::{ClientConfig, Goal, Refusal};
use std::alloc::{AllocError, Allocator};

/// The state of a client that is there.
pub(crate) fn client_in<A: Allocator>(clients: &[ClientState<A>], client: usize) -> &ClientState<A>
    requires { client < length clients.now }
    ensures { slice_get (clients_of clients.now) client ≡ Some result.now.client }
{
    &clients[client]
}

/// The chain that a client tracks, by its place in the script.
pub fn tracked<A: Allocator>(clients: &[ClientState<A>], client: usize) -> usize
    requires { client < length clients.now }
    ensures { result ≡ tracked (clients_of clients.now) client }
{
    client_in(clients, client).config().tracks
}

/// The open batch of a client; None where there is no such client, or no batch of its is open.
pub fn open_batch<A: Allocator>(clients: &[ClientState<A>], client: usize) -> Option<&OpenBatch<A>>
    ensures { option_copied result ≡ option_and_then (λ (c : standings.ClientState). c.batch) (slice_get (clients_of clients.now) client) }
{
    match clients.get(client) {
        Some(client) => client.batch(),
        None => None,
    }
}

/// Why the settlement of the first `done` transactions of a client's batch, by its number, would be
/// refused: `Repeat` where the batch was opened but is open no more, `OutOfOrder` where it was never
/// opened or has fewer transactions. None where the settlement is accepted. The rule is own.
pub fn refuse_settled<A: Allocator>(
    clients: &[ClientState<A>],
    client: usize,
    number: u64,
    done: u64,
) -> Option<Refusal>
    requires { client < length clients.now }
    ensures { result ≡ option_and_then (λ c. settled_refusal c number done) (slice_get (clients_of clients.now) client) }
{
    client_in(clients, client).refuse_settled(number, done)
}

/// Whether a window of a host goes back for a client there, this being the common window.
pub fn goes_back_on<A: Allocator>(
    clients: &[ClientState<A>],
    common: Option<Window>,
    host: usize,
    window: Window,
) -> bool
    ensures { result ≡ list_any (goes_back_on common host window) (clients_of clients.now) }
{
    clients
        .iter()
        .any(|client| client.goes_back(common, host, window))
}

/// Takes in a window of a host for each client there.
pub fn enter<A: Allocator>(clients: &mut Vec<ClientState<A>, A>, host: usize, window: Window)
    ensures { clients_of clients.new.items ≡ map (in_host_window host window) (clients_of clients.old.items) }
{
    for client in 0..clients.len() {
        clients[client].enter(host, window);
    }
}

/// Asks a client for a goal, in place of what it was asked for before.
pub fn ask<A: Allocator>(clients: &mut Vec<ClientState<A>, A>, client: usize, goal: Goal)
    requires { client < length clients.old.items }
    ensures { clients_of clients.new.items ≡ changed_at (λ c. record c { asked = Some goal }) (clients_of clients.old.items) client }
{
    clients[client].ask(goal);
}

/// Makes room for so many more stored heights of a client. `AllocError` where memory is refused;
/// nothing but room has changed then.
pub fn make_stored_room<A: Allocator>(
    clients: &mut Vec<ClientState<A>, A>,
    client: usize,
    count: usize,
) -> Result<(), AllocError>
    requires { client < length clients.old.items }
    ensures same { clients_of clients.new.items ≡ clients_of clients.old.items }
    ensures room { OnOk result (HasStoredRoom count clients.new.items client) }
    ensures kept { (some other : ℕ) → HasStoredRoom some clients.old.items other → HasStoredRoom some clients.new.items other }
    ensures settle { (other : ℕ) → HasSettleRoom clients.old.items other → HasSettleRoom clients.new.items other }
{
    clients[client].make_room(count)
}

/// Stores a height of a client, which may be stored already.
pub fn store<A: Allocator>(clients: &mut Vec<ClientState<A>, A>, client: usize, height: Height)
    requires within { client < length clients.old.items }
    requires room { HasStoredRoom 1 clients.old.items client }
    ensures { clients_of clients.new.items ≡ changed_at (λ c. record c { stored = with_height height c.stored }) (clients_of clients.old.items) client }
{
    clients[client].store(height);
}

/// Takes in what was planned for a client: drops the goal that it was asked for, and opens the plan's
/// batch in place of the one that was open. Answers the number of the batch, counted from 1 for each
/// client; None where there is no plan, or it opens no batch.
pub fn open<A: Allocator>(
    clients: &mut Vec<ClientState<A>, A>,
    client: usize,
    answer: Option<Planned<A>>,
) -> Option<u64>
    requires within { client < length clients.old.items }
    requires few { IfSome (slice_get (clients_of clients.old.items) client) (λ (c : standings.ClientState). c.batches < max_begun + max_events) }
    ensures clients { clients_of clients.new.items ≡ changed_at (after_answer answer) (clients_of clients.old.items) client }
    ensures number { result ≡ option_map (λ (b : standings.OpenBatch). b.number) (option_and_then (λ c. batch_opened c answer) (slice_get (clients_of clients.old.items) client)) }
{
    clients[client].open(answer)
}

/// Settles the first `done` transactions of a client's open batch: stores the heights of the updates that
/// they carry, closes the batch, and gives it out.
pub fn settle<A: Allocator>(
    clients: &mut Vec<ClientState<A>, A>,
    client: usize,
    done: u64,
) -> OpenBatch<A>
    requires within { client < length clients.old.items }
    requires room { HasSettleRoom clients.old.items client }
    ensures batch { option_and_then (λ (c : standings.ClientState). c.batch) (slice_get (clients_of clients.old.items) client) ≡ Some result }
    ensures clients { clients_of clients.new.items ≡ changed_at (after_batch result done) (clients_of clients.old.items) client }
{
    let state = &mut clients[client];
    let batch = state.close().unwrap();
    state.store_all(settled_updates(&batch, done));
    batch
}

/// Makes room for the heights of all updates of a client's open batch. `AllocError` where memory is
/// refused; nothing but room has changed then.
pub fn make_settle_room<A: Allocator>(
    clients: &mut Vec<ClientState<A>, A>,
    client: usize,
) -> Result<(), AllocError>
    requires within { client < length clients.old.items }
    requires open { IsSomeAnd (slice_get (clients_of clients.old.items) client) (λ (c : standings.ClientState). IsSome c.batch) }
    ensures same { clients_of clients.new.items ≡ clients_of clients.old.items }
    ensures room { OnOk result (HasSettleRoom clients.new.items client) }
    ensures kept { (some other : ℕ) → HasStoredRoom some clients.old.items other → HasStoredRoom some clients.new.items other }
    ensures settle { (other : ℕ) → HasSettleRoom clients.old.items other → HasSettleRoom clients.new.items other }
{
    let state = &mut clients[client];
    let count = state.update_count();
    state.make_room(count)
}

/// The states of clients with these configurations before the first event. `AllocError` where memory is
/// refused.
pub fn new_clients<A: Allocator + Copy>(
    alloc: A,
    configs: &[ClientConfig],
) -> Result<Vec<ClientState<A>, A>, AllocError>
    ensures { IfOk result (λ clients. clients_of clients.items ≡ map new_client configs.now) }
{
    let mut clients = Vec::with_capacity(alloc, configs.len())?;
    for config in configs {
        clients.push(ClientState::new(alloc, *config))?;
    }
    Ok(clients)
}

/// Equal states, in their order. `AllocError` where memory is refused.
pub fn copy_clients<A: Allocator + Copy>(
    alloc: A,
    clients: &[ClientState<A>],
) -> Result<Vec<ClientState<A>, A>, AllocError>
    ensures { IfOk result (λ copies. clients_of copies.items ≡ clients_of clients.now) }
{
    let mut copies = Vec::with_capacity(alloc, clients.len())?;
    for client in clients {
        copies.push(client.copy()?)?;
    }
    Ok(copies)
}

/// Forgets the stored heights of a client below the floor of the chain that it tracks, if that has one.
fn forget_below<A: Allocator>(client: &mut ClientState<A>, floors: &[Option<Height>])
    ensures { client.new.client ≡ rest_of_client (floor_in floors.now) client.old.client }
{
    let chain = client.config().tracks;
    if let Some(floor) = floor_at(floors, chain) {
        client.forget(floor);
    }
}

/// Forgets the stored heights of each client below the floor of the chain that it tracks, where that has one.
pub fn forget<A: Allocator>(clients: &mut Vec<ClientState<A>, A>, floors: &[Option<Height>])
    ensures { clients_of clients.new.items ≡ map (rest_of_client (floor_in floors.now)) (clients_of clients.old.items) }
{
    for client in 0..clients.len() {
        forget_below(&mut clients[client], floors);
    }
}
