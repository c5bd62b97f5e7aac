//! The identifiers of a script's objects, by their places.
use rb_script_types::Config;

/// The identifier of a chain.
pub fn chain_name(config: &Config, chain: usize) -> &str {
    match config.chains.get(chain) {
        Some(id) => id.as_str(),
        None => "",
    }
}

/// The identifier of a client.
pub fn client_name(config: &Config, client: usize) -> &str {
    match config.clients.get(client) {
        Some(client) => client.id.as_str(),
        None => "",
    }
}

/// The identifier of a path.
pub fn path_name(config: &Config, path: usize) -> &str {
    match config.paths.get(path) {
        Some(path) => path.id.as_str(),
        None => "",
    }
}
