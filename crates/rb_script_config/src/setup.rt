//! What a script is set up with.
ghost use Rattle.std.specs.Prelude.{◌≡◌};
ghost use Rattle.rb_script_types.specs.Config.{config_view};
ghost use Rattle.rb_script_config.specs.Setups.{setup_view};

use crate::directory::Directory;
use rb_base::ChainId;
use rb_script_types::{ClientConfig, Config, PathConfig, Version};

/// The version, how many records a book may have, and the chains, the clients and the paths of a script, each
/// found by its identifier.
#[derive(Drop)]
pub struct Setup {
    pub version: Version,
    pub limit: usize,
    pub chains: Directory<ChainId>,
    pub clients: Directory<ClientConfig>,
    pub paths: Directory<PathConfig>,
}

impl Setup {
    /// The same, as a relayer takes it.
    pub fn into_config(self) -> Config
        ensures { config_view result ≡ setup_view self }
    {
        Config {
            version: self.version,
            limit: self.limit,
            chains: self.chains.into_vec(),
            clients: self.clients.into_vec(),
            paths: self.paths.into_vec(),
        }
    }
}
