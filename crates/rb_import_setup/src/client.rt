//! The clients of a setup.
ghost use Rattle.std.specs.Prelude.{◌≡◌, [], codes};
ghost use Rattle.toml.specs.View.{view, items_view};
ghost use Rattle.rb_script_toml.specs.Faults.{Gives};
ghost use Rattle.rb_script_toml.specs.Fields.{field_view, section_view, optional, maybe, at_element, elements};
ghost use Rattle.rb_import_setup.specs.Clients.{level, client};

use crate::setup::{ClientSetup, TrustSetup};
use rb_base::ChainId;
use rb_script_config::{
    Directory, maybe_drift, maybe_period, no_defaults, read_identity, read_terms, two_chains,
};
use rb_script_toml::{Field, RunError, Section, element_path, section_at};
use rb_script_types::Version;
use std::alloc::Global;
use toml::Value;

#[tactic(auto, using(rb_script_toml::proofs::Steps::steps), unfolding(crate::specs::Clients::level))]
fn level(field: &Field<'_>) -> Result<TrustSetup, RunError>
    ensures { Gives (λ t. t) result (level (field_view field.now)) }
{
    let (numerator, denominator) = field.level()?;
    Ok(TrustSetup {
        numerator,
        denominator,
    })
}

#[tactic(auto, using(rb_script_toml::proofs::Steps::steps))]
fn maybe_level(section: &Section<'_>) -> Result<Option<TrustSetup>, RunError>
    ensures { Gives (λ t. t) result (maybe level (optional (codes "trust") (section_view section.now))) }
{
    match section.optional("trust") {
        Some(field) => Ok(Some(level(&field)?)),
        None => Ok(None),
    }
}

#[tactic(auto, using(rb_script_toml::proofs::Steps::steps), unfolding(crate::specs::Clients::client))]
fn read_client(
    section: &Section<'_>,
    chains: &Directory<ChainId>,
    before: &Directory<ClientSetup>,
) -> Result<ClientSetup, RunError>
    ensures { Gives (λ c. c) result (client chains.now before.now (section_view section.now)) }
{
    let identity = read_identity(Version::Two, section, chains, before)?;
    let period = maybe_period(section)?;
    let drift = maybe_drift(section)?;
    let terms = read_terms(section, &no_defaults())?;
    let trust = maybe_level(section)?;
    two_chains(section, identity.host, identity.tracks)?;
    Ok(ClientSetup {
        id: identity.id,
        host: identity.host,
        tracks: identity.tracks,
        period,
        drift,
        trust,
        terms,
    })
}

#[tactic(auto, using(rb_script_toml::proofs::Steps::steps))]
fn read_client_at(
    alloc: Global,
    value: &Value,
    chains: &Directory<ChainId>,
    before: &Directory<ClientSetup>,
) -> Result<ClientSetup, RunError>
    ensures { Gives (λ c. c) result (at_element (client chains.now) (codes "client") before.now (view value.now)) }
{
    let path = element_path(alloc, "client", before.as_slice().len())?;
    let section = section_at(alloc, path.as_str(), value)?;
    read_client(&section, chains, before)
}

/// Reads the clients of these chains, each beside those before it.
pub fn read_clients(
    alloc: Global,
    items: &[Value],
    chains: &Directory<ChainId>,
) -> Result<Directory<ClientSetup>, RunError>
    ensures { Gives (λ d. d) result (elements (client chains.now) (codes "client") [] (items_view items.now)) }
{
    let mut clients = Directory::new(alloc);
    for value in items {
        let client = read_client_at(alloc, value, chains, &clients)?;
        clients = clients.with(client)?;
    }
    Ok(clients)
}
