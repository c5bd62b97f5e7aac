//! How clients are configured.
ghost use Rattle.std.specs.Prelude.{◌≡◌, ◌<◌, length, slice_index_or};

use crate::machine::Machine;
use crate::relayer::Relayer;
use rb_script_types::ClientConfig;
use std::alloc::Allocator;

/// How a client that is there is configured.
pub(crate) fn config_of<A: Allocator + Copy, M: Machine<A>>(
    relayer: &Relayer<A, M>,
    client: usize,
) -> ClientConfig
    requires { client < length relayer.now.config.clients }
    ensures value { result ≡ slice_index_or relayer.now.config.clients client result }
    ensures tracks { result.tracks < length relayer.now.config.chains }
{
    let config = relayer.config();
    config.clients[client]
}
