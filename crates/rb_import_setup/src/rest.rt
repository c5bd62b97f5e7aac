//! What is left of a setup without the clients and the paths whose answers can't be taken.
ghost use Rattle.std.specs.Prelude.{◌≡◌, IfOk, filter, map, option_map, string_bytes};
ghost use Rattle.rb_import_setup.specs.Paths.{path_view};
ghost use Rattle.rb_import_setup.specs.Senders.{sender_view};
ghost use Rattle.rb_import_setup.specs.Turns.{turn_view};
ghost use Rattle.rb_import_setup.specs.Rests.{client_stays, left_goals, left_settlements, left_turn, moved_path, new_place, path_stays, stays_at, tracks_chain};

use crate::sender::Sender;
use crate::setup::{ClientSetup, ImportSetup, PathSetup, TurnSetup};
use rb_base::ChainId;
use rb_script_types::{Asked, PathConfig, Settlement};
use std::alloc::{AllocError, Global};

/// What is left of a setup, and of each client and each path of the whole setup whether it stays.
#[derive(Drop)]
pub struct Rest {
    pub setup: ImportSetup,
    pub clients: Vec<bool>,
    pub paths: Vec<bool>,
}

/// The setup without the client and the path of an identifier, and without the clients that track the chain of
/// it. With a client go the paths that it serves, and the goals and settlements that name it. All chains,
/// all who send to them and all windows stay. `AllocError` comes where a growth is refused.
pub fn rest_without(alloc: Global, setup: &ImportSetup, id: &str) -> Result<Rest, AllocError>
    ensures which_clients { IfOk result (λ rest. rest.clients.items ≡ map (client_stays setup.now.chains.items id.now) setup.now.clients.items) }
    ensures which_paths { IfOk result (λ rest. rest.paths.items ≡ map (path_stays rest.clients.items id.now) setup.now.paths.items) }
    ensures chains { IfOk result (λ rest. rest.setup.chains.items ≡ setup.now.chains.items) }
    ensures senders { IfOk result (λ rest. map (option_map sender_view) rest.setup.senders.items ≡ map (option_map sender_view) setup.now.senders.items) }
    ensures clients { IfOk result (λ rest. rest.setup.clients.items ≡ filter (client_stays setup.now.chains.items id.now) setup.now.clients.items) }
    ensures paths { IfOk result (λ rest. map path_view rest.setup.paths.items ≡ map (moved_path rest.clients.items) (filter (path_stays rest.clients.items id.now) setup.now.paths.items)) }
    ensures turns { IfOk result (λ rest. map turn_view rest.setup.turns.items ≡ map (left_turn rest.clients.items) setup.now.turns.items) }
{
    let ImportSetup {
        chains,
        senders,
        clients: all_clients,
        paths: all_paths,
        turns,
    } = setup;
    let clients = clients_stay(alloc, chains.as_slice(), id, all_clients.as_slice())?;
    let paths = paths_stay(alloc, clients.as_slice(), id, all_paths.as_slice())?;
    let left = ImportSetup {
        chains: Vec::from_slice(alloc, chains.as_slice())?,
        senders: copies_of(alloc, senders.as_slice())?,
        clients: left_clients(alloc, chains.as_slice(), id, all_clients.as_slice())?,
        paths: left_paths(alloc, clients.as_slice(), id, all_paths.as_slice())?,
        turns: left_turns(alloc, clients.as_slice(), turns.as_slice())?,
    };
    Ok(Rest {
        setup: left,
        clients,
        paths,
    })
}

/// Copies of those who send to chains.
fn copies_of(alloc: Global, senders: &[Option<Sender>]) -> Result<Vec<Option<Sender>>, AllocError>
    ensures { IfOk result (λ copies. map (option_map sender_view) copies.items ≡ map (option_map sender_view) senders.now) }
{
    let mut copies = Vec::with_capacity(alloc, senders.len())?;
    for sender in senders {
        let copy = copy_of(alloc, sender)?;
        copies.push(copy)?;
    }
    Ok(copies)
}

/// A copy of who sends to a chain, if somebody does.
fn copy_of(alloc: Global, sender: &Option<Sender>) -> Result<Option<Sender>, AllocError>
    ensures { IfOk result (λ copy. option_map sender_view copy ≡ option_map sender_view sender.now) }
{
    match sender {
        Some(sender) => Ok(Some(Sender {
            signer: String::from_str(alloc, sender.signer.as_str())?,
            fee_denom: String::from_str(alloc, sender.fee_denom.as_str())?,
            gas_price: sender.gas_price,
            gas_factor: sender.gas_factor,
            update_field: sender.update_field,
        })),
        None => Ok(None),
    }
}

/// Of each client whether it stays.
fn clients_stay(
    alloc: Global,
    chains: &[ChainId],
    id: &str,
    clients: &[ClientSetup],
) -> Result<Vec<bool>, AllocError>
    ensures { IfOk result (λ stay. stay.items ≡ map (client_stays chains.now id.now) clients.now) }
{
    clients
        .iter()
        .map(|client| client_stays(chains, id, client))
        .collect(alloc)
}

/// Whether a client stays: neither it nor the chain that it tracks has the identifier.
fn client_stays(chains: &[ChainId], id: &str, client: &ClientSetup) -> bool
    ensures { result ≡ client_stays chains.now id.now client.now }
{
    client.id.as_str() != id && !tracks_chain(chains, id, client)
}

/// Whether a client tracks the chain of the identifier.
fn tracks_chain(chains: &[ChainId], id: &str, client: &ClientSetup) -> bool
    ensures { result ≡ tracks_chain chains.now id.now client.now }
{
    match chains.get(client.tracks) {
        Some(chain) => chain.as_str() == id,
        None => false,
    }
}

/// Of each path whether it stays, beside clients of which these stay.
fn paths_stay(
    alloc: Global,
    clients: &[bool],
    id: &str,
    paths: &[PathSetup],
) -> Result<Vec<bool>, AllocError>
    ensures { IfOk result (λ stay. stay.items ≡ map (path_stays clients.now id.now) paths.now) }
{
    paths
        .iter()
        .map(|path| path_stays(clients, id, path))
        .collect(alloc)
}

/// Whether a path stays: it has another identifier, and both clients that serve it stay.
fn path_stays(clients: &[bool], id: &str, path: &PathSetup) -> bool
    ensures { result ≡ path_stays clients.now id.now path.now }
{
    path.config.id.as_str() != id
        && stays_at(clients, path.config.forward)
        && stays_at(clients, path.config.back)
}

/// Whether the client at a place stays.
fn stays_at(clients: &[bool], place: usize) -> bool
    ensures { result ≡ stays_at clients.now place }
{
    clients.get(place).copied().unwrap_or(false)
}

/// The place of a client among those that stay.
fn new_place(clients: &[bool], place: usize) -> usize
    ensures { result ≡ new_place clients.now place }
{
    clients.iter().take(place).filter(|stays| **stays).count()
}

/// The clients that stay.
#[tactic(auto, using(crate::proofs::RestsLemmas::leaving))]
fn left_clients(
    alloc: Global,
    chains: &[ChainId],
    id: &str,
    clients: &[ClientSetup],
) -> Result<Vec<ClientSetup>, AllocError>
    ensures { IfOk result (λ left. left.items ≡ filter (client_stays chains.now id.now) clients.now) }
{
    let mut left = Vec::new(alloc);
    for client in clients {
        if client_stays(chains, id, client) {
            left.push(*client)?;
        }
    }
    Ok(left)
}

/// The paths that stay, with the new places of their clients.
#[tactic(auto, using(crate::proofs::RestsLemmas::leaving))]
fn left_paths(
    alloc: Global,
    clients: &[bool],
    id: &str,
    paths: &[PathSetup],
) -> Result<Vec<PathSetup>, AllocError>
    ensures { IfOk result (λ left. map path_view left.items ≡ map (moved_path clients.now) (filter (path_stays clients.now id.now) paths.now)) }
{
    let mut left = Vec::new(alloc);
    for path in paths {
        if path_stays(clients, id, path) {
            let moved = moved_path(alloc, clients, path)?;
            left.push(moved)?;
        }
    }
    Ok(left)
}

/// A path, with the new places of its clients.
fn moved_path(alloc: Global, clients: &[bool], path: &PathSetup) -> Result<PathSetup, AllocError>
    ensures { IfOk result (λ moved. path_view moved ≡ moved_path clients.now path.now) }
{
    let source_channel = copied(alloc, &path.source_channel)?;
    let counterparty = copied(alloc, &path.counterparty)?;
    Ok(PathSetup {
        config: PathConfig {
            forward: new_place(clients, path.config.forward),
            back: new_place(clients, path.config.back),
            ..path.config
        },
        source_channel,
        counterparty,
    })
}

/// A copy of a text that may be there.
fn copied(alloc: Global, text: &Option<String>) -> Result<Option<String>, AllocError>
    ensures { IfOk result (λ copy. option_map string_bytes copy ≡ option_map string_bytes text.now) }
{
    match text {
        Some(text) => {
            let copy = String::from_str(alloc, text.as_str())?;
            Ok(Some(copy))
        }
        None => Ok(None),
    }
}

/// The turns, with their windows, and with the goals and settlements of clients that stay.
#[tactic(auto, using(crate::proofs::RestsLemmas::leaving))]
fn left_turns(
    alloc: Global,
    clients: &[bool],
    turns: &[TurnSetup],
) -> Result<Vec<TurnSetup>, AllocError>
    ensures { IfOk result (λ left. map turn_view left.items ≡ map (left_turn clients.now) turns.now) }
{
    let mut left = Vec::new(alloc);
    for turn in turns {
        let rest = left_turn(alloc, clients, turn)?;
        left.push(rest)?;
    }
    Ok(left)
}

/// A turn, with its windows, and with the goals and settlements of clients that stay.
fn left_turn(alloc: Global, clients: &[bool], turn: &TurnSetup) -> Result<TurnSetup, AllocError>
    ensures { IfOk result (λ left. turn_view left ≡ left_turn clients.now turn.now) }
{
    let goals = left_goals(alloc, clients, turn.goals.as_slice())?;
    let settlements = left_settlements(alloc, clients, turn.settlements.as_slice())?;
    Ok(TurnSetup {
        window: turn.window,
        windows: Vec::from_slice(alloc, turn.windows.as_slice())?,
        goals,
        settlements,
    })
}

/// The goals of clients that stay, with the new places of these.
#[tactic(auto, using(crate::proofs::RestsLemmas::leaving))]
fn left_goals(alloc: Global, clients: &[bool], goals: &[Asked]) -> Result<Vec<Asked>, AllocError>
    ensures { IfOk result (λ left. left.items ≡ left_goals clients.now goals.now) }
{
    let mut left = Vec::new(alloc);
    for goal in goals {
        if stays_at(clients, goal.client) {
            left.push(Asked {
                client: new_place(clients, goal.client),
                goal: goal.goal,
            })?;
        }
    }
    Ok(left)
}

/// The settlements of clients that stay, with the new places of these.
#[tactic(auto, using(crate::proofs::RestsLemmas::leaving))]
fn left_settlements(
    alloc: Global,
    clients: &[bool],
    settlements: &[Settlement],
) -> Result<Vec<Settlement>, AllocError>
    ensures { IfOk result (λ left. left.items ≡ left_settlements clients.now settlements.now) }
{
    let mut left = Vec::new(alloc);
    for settlement in settlements {
        if stays_at(clients, settlement.client) {
            left.push(Settlement {
                client: new_place(clients, settlement.client),
                ..*settlement
            })?;
        }
    }
    Ok(left)
}
