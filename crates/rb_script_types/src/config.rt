//! What a relayer is set up with. Chains, clients and paths are named by their places.
ghost use Rattle.std.specs.Prelude.{◌≡◌, ◌↔◌, ◌≤◌, IsTrue, IfOk, All, AllPairs, length};
ghost use Rattle.rb_script_types.specs.Config.{config_view, Connects, IsClient, IsPathConfig, IsConfig};

use crate::channel::Channel;
use crate::differing::all_differ;
use crate::gas::PathGas;
use crate::limits::{MAX_CHAINS, MAX_CLIENTS, MAX_PATHS};
use crate::version::Version;
use crate::waits::Waits;
use rb_base::{ChainId, ClientId, FeeTable, Options, PathId};
use rb_batch::Limits;
use rb_book::MAX_RECORDS;
use rb_scan::{Order, Sequence};
use std::alloc::{AllocError, Allocator, Global};

/// When a client is refreshed, and to which height. By the first two a client has the first of its needs as its goal; by the
/// third it has one goal of all of them.
#[derive(Clone, Copy, PartialEq, Eq)]
pub enum RefreshTo {
    /// By age, to the lowest known one whose record is not due, or one above it.
    Lowest,
    /// By age, to the greatest that can be reached, where its record is not due; else as `Lowest` has it.
    Highest,
    /// By gain: where its newest record can be made newer by the refresh age, or its expiry is near.
    Newer,
}

/// A client: the chain that hosts it, the chain that it tracks, how it judges headers, the refresh age in
/// nanoseconds (0: it is never refreshed) and to which height it is refreshed, what an update costs in fees
/// and in gas, and what a transaction may carry.
#[derive(Clone, Copy, PartialEq, Eq)]
pub struct ClientConfig {
    pub id: ClientId,
    pub host: usize,
    pub tracks: usize,
    pub options: Options,
    pub refresh: u64,
    pub refresh_to: RefreshTo,
    pub fees: FeeTable,
    pub gas: FeeTable,
    pub limits: Limits,
}

/// A path, which is one direction of a channel (ICS 4): the chain that its packets come from and the
/// one that they go to, in which order they are received, the sequence below which all of them are
/// finished and cleared, the client on the destination, which takes receives, the one on the source,
/// which takes acknowledgements and timeouts, the gas of its messages, how long they may wait, and the
/// ends of the channel, where they are named.
#[derive(Clone, Copy, PartialEq, Eq)]
pub struct PathConfig {
    pub id: PathId,
    pub source: usize,
    pub destination: usize,
    pub order: Order,
    pub first: Sequence,
    pub forward: usize,
    pub back: usize,
    pub gas: PathGas,
    pub waits: Waits,
    pub channel: Option<Channel>,
}

/// The version of the format, how many records a book of a chain may have, and the chains, the clients
/// and the paths.
#[derive(Drop)]
pub struct Config<A: Allocator = Global> {
    pub version: Version,
    pub limit: usize,
    pub chains: Vec<ChainId, A>,
    pub clients: Vec<ClientConfig, A>,
    pub paths: Vec<PathConfig, A>,
}

impl<A: Allocator + Copy> Config<A> {
    /// An equal configuration, on the allocator of this one.
    pub fn copy(&self) -> Result<Config<A>, AllocError>
        ensures { IfOk result (λ config. config_view config ≡ config_view self.now) }
    {
        let alloc = *self.chains.allocator();
        Ok(Config {
            version: self.version,
            limit: self.limit,
            chains: Vec::from_slice(alloc, self.chains.as_slice())?,
            clients: Vec::from_slice(alloc, self.clients.as_slice())?,
            paths: Vec::from_slice(alloc, self.paths.as_slice())?,
        })
    }
}

/// Whether a client of so many chains is hosted on one of them and tracks another.
fn is_client(chains: usize, client: &ClientConfig) -> bool
    ensures { IsTrue result ↔ IsClient chains client.now }
{
    client.host < chains && client.tracks < chains && client.host != client.tracks
}

/// Whether the client at a place is hosted on the one chain and tracks the other.
fn connects(clients: &[ClientConfig], place: usize, host: usize, tracks: usize) -> bool
    ensures { IsTrue result ↔ Connects clients.now place host tracks }
{
    match clients.get(place) {
        Some(client) => client.host == host && client.tracks == tracks,
        None => false,
    }
}

/// Whether a path leads from one of so many chains to another, each of its clients being hosted on
/// the one and tracking the other.
fn is_path_config(chains: usize, clients: &[ClientConfig], path: &PathConfig) -> bool
    ensures { IsTrue result ↔ IsPathConfig chains clients.now path.now }
{
    let (source, destination) = (path.source, path.destination);
    source < chains
        && destination < chains
        && source != destination
        && connects(clients, path.forward, destination, source)
        && connects(clients, path.back, source, destination)
}

fn are_clients(chains: usize, clients: &[ClientConfig]) -> bool
    ensures { IsTrue result ↔ All (IsClient chains) clients.now }
{
    clients.iter().all(|client| is_client(chains, client))
}

fn are_paths(chains: usize, clients: &[ClientConfig], paths: &[PathConfig]) -> bool
    ensures { IsTrue result ↔ All (IsPathConfig chains clients.now) paths.now }
{
    paths
        .iter()
        .all(|path| is_path_config(chains, clients, path))
}

/// Whether a configuration keeps what every relayer is set up with: identifiers differ, clients and
/// paths name what is there and fit together, and there are at most 64 chains, 256 clients and 256
/// paths, and 1 to 4,096 records in a book.
pub fn is_config<A: Allocator>(config: &Config<A>) -> bool
    ensures { IsTrue result ↔ IsConfig (config_view config.now) }
{
    let chains = config.chains.as_slice();
    let clients = config.clients.as_slice();
    let paths = config.paths.as_slice();
    1 <= config.limit
        && config.limit <= MAX_RECORDS
        && chains.len() <= MAX_CHAINS
        && clients.len() <= MAX_CLIENTS
        && paths.len() <= MAX_PATHS
        && all_differ(chains)
        && all_differ(clients)
        && all_differ(paths)
        && are_clients(chains.len(), clients)
        && are_paths(chains.len(), clients, paths)
}
