//! Requests to nodes and gateways.
ghost use Rattle.std.specs.Prelude.{◌≡◌, IfOk};
ghost use Rattle.std.specs.Option.{option_copied};
ghost use Rattle.rb_want_requests.specs.Requests.{folder_of, is_new, is_of_same, is_new_in, is_of_gateway, is_of_same_place, is_named, is_same, is_to_same, key_of, place_key};

use crate::answered::is_answered;
use crate::content::{Folder, Folders};
use rb_base::{ChainId, ClientId, Height, PathId};
use rb_script_types::ChannelEnd;
use std::alloc::{AllocError, Global};
use std::fmt;

/// What is asked of a gateway of a client's host or of an end of a channel (ibc-go), or of a node of a chain (CometBFT).
#[derive(Clone, Copy)]
pub enum Query {
    /// The state of the client.
    ClientState,
    /// The page with a number, from 1, of the consensus states of the client.
    ConsensusStates {
        page: u64,
    },
    /// What the node says of itself.
    Status,
    /// The header of a height and its commit.
    Commit(Height),
    /// The page with a number, from 1, of the validators of a height, of so many a page.
    Validators {
        height: Height,
        page: u64,
        size: u64,
    },
    /// The page with a number, from 1, of the commitments to packets that the end of a channel holds.
    Commitments {
        page: u64,
    },
    /// Which packets of a part of the pending ones, by its number from 1, the end of a channel hasn't received.
    Unreceived {
        part: u64,
    },
    /// Of which packets of a part of the pending ones, by its number from 1, the end of a channel has written the acknowledgement.
    Acknowledgements {
        part: u64,
    },
    /// Transactions that sent the packet of a sequence from the end of a channel.
    Sent(u64),
    /// Transactions by which the end of a channel received the packet of a sequence.
    Received(u64),
    /// Transactions by which the end of a channel wrote the acknowledgement of the packet of a sequence.
    AckWritten(u64),
}

/// Whose folder an answer belongs into, by its place in the setup; of a path also the end of its channel that is asked about.
#[derive(Clone, Copy)]
pub enum Owner {
    Chain(usize),
    Client {
        place: usize,
        id: ClientId,
    },
    Path {
        place: usize,
        id: PathId,
        end: ChannelEnd,
    },
}

/// A request to a node or a gateway of a chain, and whose folder the answer belongs into.
#[derive(Clone, Copy)]
pub struct Request {
    pub chain: ChainId,
    pub owner: Owner,
    pub query: Query,
}

impl Request {
    /// Whether it asks for the same as another.
    pub fn is_same(&self, other: &Request) -> bool
        ensures { result ≡ is_same self.now other.now }
    {
        is_of_same_place(&self.owner, &other.owner) && is_of_same(&self.query, &other.query)
    }

    /// Whether it goes to the same address as another: the node or the gateway of a chain.
    pub fn is_to_same(&self, other: &Request) -> bool
        ensures { result ≡ is_to_same self.now other.now }
    {
        self.chain.as_str() == other.chain.as_str()
            && is_of_gateway(&self.query) == is_of_gateway(&other.query)
    }

    /// Whether its folder has no answer to it, and it wasn't refused.
    pub fn is_new(&self, alloc: Global, folders: &Folders) -> Result<bool, AllocError>
        ensures { IfOk result (λ answer. answer ≡ is_new folders.now self.now) }
    {
        match folder_of(folders, &self.owner) {
            Some(folder) => is_new_in(alloc, folder, &self.query),
            None => Ok(false),
        }
    }
}

/// Whether a folder has no answer to a query, and it wasn't refused.
fn is_new_in(alloc: Global, folder: &Folder, query: &Query) -> Result<bool, AllocError>
    ensures { IfOk result (λ answer. answer ≡ is_new_in folder.now query.now) }
{
    if is_answered(folder.contents.as_slice(), query) {
        return Ok(false);
    }
    if is_named(alloc, folder.refused.as_slice(), query)? {
        return Ok(false);
    }
    Ok(!is_named(alloc, folder.searched.as_slice(), query)?)
}

/// The folder of a chain, a client or a path.
pub fn folder_of<'a>(folders: &'a Folders, owner: &Owner) -> Option<&'a Folder>
    ensures { option_copied result ≡ folder_of folders.now owner.now }
{
    match *owner {
        Owner::Chain(place) => folders.chains.get(place),
        Owner::Client { place, .. } => folders.clients.get(place),
        Owner::Path { place, .. } => folders.paths.get(place),
    }
}

/// Whether two are one chain, one client or one path.
fn is_of_same_place(owner: &Owner, other: &Owner) -> bool
    ensures { result ≡ is_of_same_place owner.now other.now }
{
    let (kind, place) = place_key(owner);
    let (other_kind, other_place) = place_key(other);
    kind == other_kind && place == other_place
}

/// What tells chains, clients and paths apart.
fn place_key(owner: &Owner) -> (u8, usize)
    ensures { result ≡ place_key owner.now }
{
    match *owner {
        Owner::Chain(place) => (0, place),
        Owner::Client { place, .. } => (1, place),
        Owner::Path { place, .. } => (2, place),
    }
}

/// Whether two queries are of the same.
fn is_of_same(query: &Query, other: &Query) -> bool
    ensures { result ≡ is_of_same query.now other.now }
{
    let (kind, number, page) = key_of(query);
    let (other_kind, other_number, other_page) = key_of(other);
    kind == other_kind && number == other_number && page == other_page
}

/// Whether a query is asked of a gateway, and not of a node.
fn is_of_gateway(query: &Query) -> bool
    ensures { result ≡ is_of_gateway query.now }
{
    match query {
        Query::ClientState
        | Query::ConsensusStates { .. }
        | Query::Commitments { .. }
        | Query::Unreceived { .. }
        | Query::Acknowledgements { .. } => true,
        Query::Status
        | Query::Commit(_)
        | Query::Validators { .. }
        | Query::Sent(_)
        | Query::Received(_)
        | Query::AckWritten(_) => false,
    }
}

/// What a query is of: its kind, its height, page, part or sequence, and of validators the page.
fn key_of(query: &Query) -> (u8, u64, u64)
    ensures { result ≡ key_of query.now }
{
    match *query {
        Query::ClientState => (0, 0, 0),
        Query::ConsensusStates { page } => (1, page, 0),
        Query::Status => (2, 0, 0),
        Query::Commit(height) => (3, height.get(), 0),
        Query::Validators { height, page, .. } => (4, height.get(), page),
        Query::Commitments { page } => (5, page, 0),
        Query::Unreceived { part } => (6, part, 0),
        Query::Acknowledgements { part } => (7, part, 0),
        Query::Sent(sequence) => (8, sequence, 0),
        Query::Received(sequence) => (9, sequence, 0),
        Query::AckWritten(sequence) => (10, sequence, 0),
    }
}

/// Shown as the name of its request, which is that of its file without the ending.
impl fmt::Display for Query {
    ghost use Rattle.std.specs.Prelude.{Some};
    ghost use Rattle.rb_want_requests.specs.Requests.{name_of};

    ghost output = { λ query. Some (name_of query) };

    fn fmt<W: fmt::Write>(&self, f: &mut fmt::Formatter<W>) -> fmt::Result {
        match self {
            Query::ClientState => write!(f, "client_state"),
            Query::ConsensusStates { page } => write!(f, "consensus_states-{page}"),
            Query::Status => write!(f, "status"),
            Query::Commit(height) => write!(f, "commit-{height}"),
            Query::Validators { height, page, .. } => { write!(f, "validators-{height}-{page}") }
            Query::Commitments { page } => write!(f, "commitments-{page}"),
            Query::Unreceived { part } => write!(f, "unreceived-{part}"),
            Query::Acknowledgements { part } => write!(f, "acknowledgements-{part}"),
            Query::Sent(sequence) => write!(f, "sent-{sequence}"),
            Query::Received(sequence) => write!(f, "received-{sequence}"),
            Query::AckWritten(sequence) => write!(f, "written-{sequence}"),
        }
    }
}

/// Whether the name of a query's request is among these.
pub fn is_named(alloc: Global, names: &[String], query: &Query) -> Result<bool, AllocError>
    ensures { IfOk result (λ answer. answer ≡ is_named names.now query.now) }
{
    let name = format!(in alloc; "{query}")?;
    Ok(names.iter().any(|other| other.as_str() == name.as_str()))
}
