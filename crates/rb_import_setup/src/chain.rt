//! The chains of a setup.
ghost use Rattle.std.specs.Prelude.{◌≡◌, [], codes};
ghost use Rattle.toml.specs.View.{view, items_view};
ghost use Rattle.rb_script_toml.specs.Faults.{Gives};
ghost use Rattle.rb_script_toml.specs.Fields.{section_view, only, at_element, elements};
ghost use Rattle.rb_import_setup.specs.Chains.{chain, chain_keys};

use rb_base::ChainId;
use rb_script_config::{Chain, Directory, new_identifier, no_defaults};
use rb_script_toml::{RunError, Section, element_path, section_at};
use std::alloc::Global;
use toml::Value;

fn only_chain_keys(section: &Section<'_>) -> Result<(), RunError>
    ensures { Gives (λ u. u) result (only chain_keys (section_view section.now)) }
{
    section.only(&[
        "id",
        "signer",
        "fee_denom",
        "gas_price",
        "gas_factor",
        "client_message",
    ])
}

#[tactic(auto, using(rb_script_toml::proofs::Steps::steps), unfolding(crate::specs::Chains::chain))]
fn read_chain(section: &Section<'_>, before: &Directory<Chain>) -> Result<Chain, RunError>
    ensures { Gives (λ c. c) result (chain before.now (section_view section.now)) }
{
    only_chain_keys(section)?;
    let id = new_identifier(section, before)?;
    Ok(Chain {
        id: ChainId::new(id).unwrap(),
        defaults: no_defaults(),
    })
}

#[tactic(auto, using(rb_script_toml::proofs::Steps::steps))]
fn read_chain_at(alloc: Global, value: &Value, before: &Directory<Chain>) -> Result<Chain, RunError>
    ensures { Gives (λ c. c) result (at_element chain (codes "chain") before.now (view value.now)) }
{
    let path = element_path(alloc, "chain", before.as_slice().len())?;
    let section = section_at(alloc, path.as_str(), value)?;
    read_chain(&section, before)
}

/// Reads the identifiers of chains, each beside those before it.
pub fn read_chains(alloc: Global, items: &[Value]) -> Result<Directory<Chain>, RunError>
    ensures { Gives (λ d. d) result (elements chain (codes "chain") [] (items_view items.now)) }
{
    let mut chains = Directory::new(alloc);
    for value in items {
        let chain = read_chain_at(alloc, value, &chains)?;
        chains = chains.with(chain)?;
    }
    Ok(chains)
}
