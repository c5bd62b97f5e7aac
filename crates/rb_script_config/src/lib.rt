//! What a script is set up with: its version, and its chains, clients and paths, each read from its
//! table, beside those before it, and found by its identifier; and what a turn says of hosts and clients, its
//! windows, goals and settlements; or the first fault.
#![tactic(auto)]

mod chain;
mod channel;
mod client;
mod client_keys;
mod defaults;
mod directory;
mod drift;
mod goal;
mod host_window;
pub mod laws;
mod named;
mod path;
mod settlement;
mod setup;
mod tables;
mod version;

pub use chain::{Chain, ids_of, read_chains};
pub use channel::read_channel;
pub use client::{ClientIdentity, ClientTerms, read_identity, read_terms, two_chains};
pub use client_keys::{CLIENT_KEY_LIST, ClientKey, DEFAULT_KEY_LIST, client_key};
pub use defaults::{Defaults, maybe_drift, maybe_period, no_defaults};
pub use directory::Directory;
pub use drift::Drift;
pub use goal::read_goals;
pub use host_window::read_windows;
pub use named::{Client, Named, new_identifier, place_of, reference};
pub use path::{judge_path, needed_sequence, read_path_config, read_waits};
pub use settlement::read_settlements;
pub use setup::Setup;
pub use tables::{Tables, only_top_keys, read_setup, read_tables};
