//! The chains of a script.
ghost use Rattle.std.specs.Prelude.{◌≡◌, [], IfOk, codes};
ghost use Rattle.toml.specs.View.{view, items_view};
ghost use Rattle.rb_script_toml.specs.Faults.{Gives};
ghost use Rattle.rb_script_toml.specs.Fields.{section_view, only, at_element, elements};
ghost use Rattle.rb_script_config.specs.Chains.{chain, chain_ids, chain_keys, shared};

use crate::defaults::{Defaults, no_defaults, read_defaults};
use crate::directory::Directory;
use crate::named::{Named, new_identifier};
use rb_base::ChainId;
use rb_script_toml::{RunError, Section, element_path, section_at};
use rb_script_types::Version;
use std::alloc::{AllocError, Global};
use toml::Value;

/// A chain: its identifier, and what a client that tracks it takes where it has no key of its own. In
/// version 1 of the format nothing is shared.
#[derive(Clone, Copy)]
pub struct Chain {
    pub id: ChainId,
    pub defaults: Defaults,
}

impl Named for Chain {
    ghost name = { λ c. c.id };

    fn id(&self) -> &str {
        self.id.as_str()
    }
}

fn only_chain_keys(version: Version, section: &Section<'_>) -> Result<(), RunError>
    ensures { Gives (λ u. u) result (only (chain_keys version) (section_view section.now)) }
{
    match version {
        Version::One => section.only(&["id"]),
        Version::Two | Version::Three | Version::Four => section.only(&["id", "defaults"]),
    }
}

#[tactic(auto, using(rb_script_toml::proofs::Steps::steps))]
fn read_shared(version: Version, section: &Section<'_>) -> Result<Defaults, RunError>
    ensures { Gives (λ d. d) result (shared version (section_view section.now)) }
{
    match version {
        Version::One => Ok(no_defaults()),
        Version::Two | Version::Three | Version::Four => match section.optional("defaults") {
            Some(field) => read_defaults(&field),
            None => Ok(no_defaults()),
        },
    }
}

#[tactic(auto, using(rb_script_toml::proofs::Steps::steps), unfolding(crate::specs::Chains::chain))]
fn read_chain(
    version: Version,
    section: &Section<'_>,
    before: &Directory<Chain>,
) -> Result<Chain, RunError>
    ensures { Gives (λ c. c) result (chain version before.now (section_view section.now)) }
{
    only_chain_keys(version, section)?;
    let id = new_identifier(section, before)?;
    let defaults = read_shared(version, section)?;
    Ok(Chain {
        id: ChainId::new(id).unwrap(),
        defaults,
    })
}

#[tactic(auto, using(rb_script_toml::proofs::Steps::steps))]
fn read_chain_at(
    alloc: Global,
    version: Version,
    value: &Value,
    before: &Directory<Chain>,
) -> Result<Chain, RunError>
    ensures { Gives (λ c. c) result (at_element (chain version) (codes "chain") before.now (view value.now)) }
{
    let path = element_path(alloc, "chain", before.as_slice().len())?;
    let section = section_at(alloc, path.as_str(), value)?;
    read_chain(version, &section, before)
}

/// Reads the tables of the array `chain`, in their order: `id`, and from version 2 on `defaults`.
/// `Fault` is the first of these in the order of the tables, and in each table in this order: it is no
/// table (`WrongType`), it has another key (`UnknownKey`), its identifier is missing, no text, ill formed
/// or one of an earlier chain (`DuplicateIdentifier`), a default is refused (`read_defaults`). `NoMemory`
/// comes where a growth is refused.
pub fn read_chains(
    alloc: Global,
    version: Version,
    items: &[Value],
) -> Result<Directory<Chain>, RunError>
    ensures { Gives (λ d. d) result (elements (chain version) (codes "chain") [] (items_view items.now)) }
{
    let mut chains = Directory::new(alloc);
    for value in items {
        let chain = read_chain_at(alloc, version, value, &chains)?;
        chains = chains.with(chain)?;
    }
    Ok(chains)
}

/// The identifiers of these chains, at their places. `AllocError` where a growth is refused.
pub fn ids_of(alloc: Global, chains: &Directory<Chain>) -> Result<Directory<ChainId>, AllocError>
    ensures { IfOk result (λ d. d ≡ chain_ids chains.now) }
{
    let mut ids = Directory::new(alloc);
    for chain in chains.as_slice() {
        ids = ids.with(chain.id)?;
    }
    Ok(ids)
}
