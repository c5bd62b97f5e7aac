//! What a script is made of: configuration, observations, goals, turns, and why an observation is refused.
#![tactic(auto)]

mod block;
mod channel;
mod config;
mod differing;
mod end_id;
mod gas;
mod goal;
mod limits;
mod observation;
mod refusal;
mod script;
mod version;
mod waits;

pub use block::{Block, BlockHeight};
pub use channel::{Channel, ChannelEnd};
pub use config::{ClientConfig, Config, PathConfig, RefreshTo, is_config};
pub use end_id::EndId;
pub use gas::PathGas;
pub use goal::Goal;
pub use limits::{MAX_CHAINS, MAX_CLIENTS, MAX_ENTRIES, MAX_PATHS, MAX_TURNS};
pub use observation::Observation;
pub use refusal::Refusal;
pub use script::{Asked, HostWindow, Script, Settlement, Turn};
pub use version::Version;
pub use waits::Waits;
