//! The clients of a relayer.
ghost use Rattle.std.specs.Prelude.{◌≡◌, map, IfOk};
ghost use Rattle.std.specs.List.{enumerate_from};
ghost use Rattle.rb_core.specs.Core.{state_in};
ghost use Rattle.rb_text_report.specs.Health.{health_in};

use crate::expiry::{Expiry, expiry_in};
use rb_core::Core;
use rb_script_types::ClientConfig;
use std::alloc::{AllocError, Allocator};

/// A client, and when its newest consensus state expires; None where it has stored none, and before the first window.
#[derive(Clone, Copy)]
pub struct ClientHealth {
    pub client: ClientConfig,
    pub expiry: Option<Expiry>,
}

/// Clients with when they expire.
fn healths_in<A: Allocator + Copy>(
    alloc: A,
    core: &Core<A>,
    clients: &[ClientConfig],
) -> Result<Vec<ClientHealth, A>, AllocError>
    ensures { IfOk result (λ healths. healths.items ≡ map (health_in (state_in core.now)) (enumerate_from 0 clients.now)) }
{
    let mut healths = Vec::with_capacity(alloc, clients.len())?;
    for (place, client) in clients.iter().enumerate() {
        let client = *client;
        let expiry = expiry_in(core, place)?;
        healths.push(ClientHealth { client, expiry })?;
    }
    Ok(healths)
}

/// The clients of a relayer as they are after all that it has taken in, in script order. An error comes only where a
/// growth is refused.
pub fn healths_of<A: Allocator + Copy>(
    alloc: A,
    core: &Core<A>,
) -> Result<Vec<ClientHealth, A>, AllocError>
    ensures { IfOk result (λ healths. healths.items ≡ map (health_in (state_in core.now)) (enumerate_from 0 core.now.config.clients)) }
{
    healths_in(alloc, core, core.config().clients.as_slice())
}
