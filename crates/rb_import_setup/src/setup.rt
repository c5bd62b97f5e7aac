//! What a setup says: a script without events.
ghost use Rattle.std.specs.Prelude.{length};
ghost use Rattle.rb_import_setup.specs.Places.{ArePlaces};
ghost use Rattle.rb_import_setup.specs.Clients.{client_ends};

use crate::sender::Sender;
use rb_base::{ChainId, ClientId, Period, Window};
use rb_script_config::{Client, ClientTerms, Drift, Named};
use rb_script_types::{Asked, HostWindow, PathConfig, Settlement};

/// The chains, clients and paths of a script, and its turns, of which there is at least one. Chains
/// and clients are named by their places, each of which is the place of one. Of each chain, at its place, who sends
/// transactions to it, where that is told.
#[derive(Drop)]
pub struct ImportSetup {
    pub chains: Vec<ChainId>,
    pub senders: Vec<Option<Sender>>,
    pub clients: Vec<ClientSetup>,
    pub paths: Vec<PathSetup>,
    pub turns: Vec<TurnSetup>,
    ghost places: { ArePlaces (length chains.items) clients.items paths.items turns.items },
}

/// A client. The trusting period, the clock drift and the trust level that aren't there are taken from
/// the answer on its state.
#[derive(Clone, Copy)]
pub struct ClientSetup {
    pub id: ClientId,
    pub host: usize,
    pub tracks: usize,
    pub period: Option<Period>,
    pub drift: Option<Drift>,
    pub trust: Option<TrustSetup>,
    pub terms: ClientTerms,
}

/// A trust level, from a third to one (CometBFT light client).
#[derive(Clone, Copy)]
pub struct TrustSetup {
    pub numerator: u64,
    pub denominator: u64,
}

impl Named for ClientSetup {
    ghost name = { λ c. c.id };

    fn id(&self) -> &str {
        self.id.as_str()
    }
}

impl Client for ClientSetup {
    ghost ends = { client_ends };

    fn host(&self) -> usize {
        self.host
    }

    fn tracks(&self) -> usize {
        self.tracks
    }
}

/// A path: one direction of a channel. Its packets are those from `source_channel`, the source's end
/// of the channel as `port/channel`, where `config` names it, else all that the answers tell of; and of
/// these the ones to `counterparty`, the channel's other end, where `config` names it (never without
/// the source's), else those to the end that the first of them was sent to.
#[derive(Drop)]
pub struct PathSetup {
    pub config: PathConfig,
    pub source_channel: Option<String>,
    pub counterparty: Option<String>,
}

impl Named for PathSetup {
    ghost name = { λ p. p.config.id };

    fn id(&self) -> &str {
        self.config.id.as_str()
    }
}

/// A turn without what was seen.
#[derive(Drop)]
pub struct TurnSetup {
    pub window: Window,
    pub windows: Vec<HostWindow>,
    pub goals: Vec<Asked>,
    pub settlements: Vec<Settlement>,
}
