//! The text of a setup.
ghost use Rattle.std.specs.Prelude.{◌≡◌, ◌++◌, IfErr, IfOk, IsOkAnd, OnOk, if◌then◌else◌, [], is_some, map, option_map, string_bytes};
ghost use Rattle.std.specs.List.{flat_map, list_any};
ghost use Rattle.rb_script_toml.specs.Faults.{Fails};
ghost use Rattle.rb_import_setup.specs.HermesChains.{chain_view};
ghost use Rattle.rb_import_setup.specs.HermesConfigs.{chains_of};
ghost use Rattle.rb_import_setup.specs.HermesRefusals.{IfConfig, IfLongIdentifier, IfUnknownChain, IsRefusal, refusal, refusal_of};
ghost use Rattle.rb_import_setup.specs.HermesSetups.{EndsWithTurn, chain_table, chain_with, identity_lines, is_needed, needed, needs, node_line, setup_text, table_of, terms_lines, text_line, three_line};

use crate::hermes_chain::{Chain, read_config};
use crate::hermes_client::NamedClient;
use crate::hermes_error::HermesError;
use crate::hermes_fees::{GAS, TRANSACTION_GAS, fees_of};
use rb_base::ChainId;
use rb_script_toml::is_identifier;
use std::alloc::{AllocError, Global};

/// How a setup begins.
const HEAD: &str =
    "# Made of Hermes' configuration. FROM and UNTIL are to be written. A fee is gas times the price of gas; the numbers of gas are
# guesses: put in those of your chains. What the answer on a client's state has is left out.
# The nodes: a chain, the address of its node, that of its gateway.
";

/// How a setup ends.
const END: &str = "[[turn]]
from = \"FROM\"
until = \"UNTIL\"
";

/// The setup of clients whose chains a configuration has.
pub fn setup_of(
    alloc: Global,
    config: &[u8],
    clients: &[NamedClient],
) -> Result<String, HermesError>
    ensures text { IfOk result (λ text. IsOkAnd (chains_of config.now) (λ chains. string_bytes text ≡ setup_text chains clients.now)) }
    ensures turn { IfOk result (λ text. EndsWithTurn (string_bytes text)) }
    ensures accepted { OnOk result (IsOkAnd (chains_of config.now) (λ chains. refusal chains clients.now ≡ None)) }
    ensures config { IfErr result (λ e. IfConfig e (λ fault. Fails fault (chains_of config.now))) }
    ensures unknown_chain { IfErr result (λ e. IfUnknownChain e (λ client.
        IsOkAnd (chains_of config.now) (λ chains. refusal chains clients.now ≡ Some (HermesError.UnknownChain client)))) }
    ensures long_identifier { IfErr result (λ e. IfLongIdentifier e (λ client.
        IsOkAnd (chains_of config.now) (λ chains. refusal chains clients.now ≡ Some (HermesError.LongIdentifier client)))) }
{
    let chains = read_config(alloc, config)?;
    setup_with(alloc, chains.as_slice(), clients)
}

/// The setup of clients, by the chains of a configuration.
fn setup_with(
    alloc: Global,
    chains: &[Chain],
    clients: &[NamedClient],
) -> Result<String, HermesError>
    ensures text { IfOk result (λ text. string_bytes text ≡ setup_text (map chain_view chains.now) clients.now) }
    ensures turn { IfOk result (λ text. EndsWithTurn (string_bytes text)) }
    ensures accepted { OnOk result (refusal (map chain_view chains.now) clients.now ≡ None) }
    ensures refused { IfErr result (λ e. IsRefusal e (refusal (map chain_view chains.now) clients.now)) }
{
    let mut text = String::new(alloc);
    text.push_str(HEAD)?;
    push_nodes(&mut text, chains, clients)?;
    text.push_str("version = 1\n\n")?;
    push_chains(&mut text, chains, clients)?;
    push_clients(&mut text, alloc, chains, clients)?;
    text.push_str(END)?;
    Ok(text)
}

/// Whether one of the clients is on a chain or tracks it.
fn is_needed(clients: &[NamedClient], chain: &Chain) -> bool
    ensures { result ≡ is_needed clients.now (chain_view chain.now) }
{
    clients.iter().any(|client| needs(chain.id, client))
}

/// Whether a client is on a chain or tracks it.
fn needs(chain: ChainId, client: &NamedClient) -> bool
    ensures { result ≡ needs chain client.now }
{
    client.host.as_str() == chain.as_str() || client.chain.as_str() == chain.as_str()
}

/// Adds a line of comment for the node of each chain that the clients need.
fn push_nodes(
    text: &mut String,
    chains: &[Chain],
    clients: &[NamedClient],
) -> Result<(), AllocError>
    ensures { OnOk result (string_bytes text.new ≡ string_bytes text.old ++ flat_map node_line (needed clients.now (map chain_view chains.now))) }
{
    for chain in chains {
        push_node_if_needed(text, chain, clients)?;
    }
    Ok(())
}

fn push_node_if_needed(
    text: &mut String,
    chain: &Chain,
    clients: &[NamedClient],
) -> Result<(), AllocError>
    ensures { OnOk result (string_bytes text.new
        ≡ string_bytes text.old ++ (if is_needed clients.now (chain_view chain.now) then node_line (chain_view chain.now) else [])) }
{
    if is_needed(clients, chain) {
        push_node(text, chain)?;
    }
    Ok(())
}

fn push_node(text: &mut String, chain: &Chain) -> Result<(), AllocError>
    ensures { OnOk result (string_bytes text.new ≡ string_bytes text.old ++ node_line (chain_view chain.now)) }
{
    let id = chain.id.as_str();
    match &chain.address {
        Some(address) => {
            let address = address.as_str();
            writeln!(text, "# {id} {address} -")
        }
        None => writeln!(text, "# {id} - -"),
    }
}

/// Adds the chains that the clients need.
fn push_chains(
    text: &mut String,
    chains: &[Chain],
    clients: &[NamedClient],
) -> Result<(), AllocError>
    ensures { OnOk result (string_bytes text.new ≡ string_bytes text.old ++ flat_map chain_table (needed clients.now (map chain_view chains.now))) }
{
    for chain in chains {
        push_chain_if_needed(text, chain, clients)?;
    }
    Ok(())
}

fn push_chain_if_needed(
    text: &mut String,
    chain: &Chain,
    clients: &[NamedClient],
) -> Result<(), AllocError>
    ensures { OnOk result (string_bytes text.new
        ≡ string_bytes text.old ++ (if is_needed clients.now (chain_view chain.now) then chain_table (chain_view chain.now) else [])) }
{
    if is_needed(clients, chain) {
        push_chain(text, chain)?;
    }
    Ok(())
}

fn push_chain(text: &mut String, chain: &Chain) -> Result<(), AllocError>
    ensures { OnOk result (string_bytes text.new ≡ string_bytes text.old ++ chain_table (chain_view chain.now)) }
{
    text.push_str("[[chain]]\n")?;
    push_text(text, "id", chain.id.as_str())?;
    text.push_str("\n")
}

/// Adds the clients.
fn push_clients(
    text: &mut String,
    alloc: Global,
    chains: &[Chain],
    clients: &[NamedClient],
) -> Result<(), HermesError>
    ensures text { OnOk result (string_bytes text.new ≡ string_bytes text.old ++ flat_map (table_of (map chain_view chains.now)) clients.now) }
    ensures accepted { OnOk result (refusal (map chain_view chains.now) clients.now ≡ None) }
    ensures refused { IfErr result (λ e. IsRefusal e (refusal (map chain_view chains.now) clients.now)) }
{
    for client in clients {
        push_client(text, alloc, chains, client)?;
    }
    Ok(())
}

/// Adds a client, whose host and tracked chain have to be among the chains.
fn push_client(
    text: &mut String,
    alloc: Global,
    chains: &[Chain],
    client: &NamedClient,
) -> Result<(), HermesError>
    ensures text { OnOk result (string_bytes text.new ≡ string_bytes text.old ++ table_of (map chain_view chains.now) client.now) }
    ensures accepted { OnOk result (refusal_of (map chain_view chains.now) client.now ≡ None) }
    ensures refused { IfErr result (λ e. IsRefusal e (refusal_of (map chain_view chains.now) client.now)) }
{
    let Some(host) = chain_with(chains, client.host) else {
        return Err(HermesError::UnknownChain(*client));
    };
    if !has_chain(chains, client.chain) {
        return Err(HermesError::UnknownChain(*client));
    }
    let id = client.setup_id(alloc)?;
    if !is_identifier(id.as_str()) {
        return Err(HermesError::LongIdentifier(*client));
    }
    push_table(text, id.as_str(), client, host)?;
    Ok(())
}

/// The first of the chains with an identifier.
fn chain_with(chains: &[Chain], id: ChainId) -> Option<&Chain>
    ensures { option_map (λ c. chain_view c.now) result ≡ chain_with id (map chain_view chains.now) }
{
    chains.iter().find(|chain| chain.id.as_str() == id.as_str())
}

/// Whether one of the chains has an identifier.
fn has_chain(chains: &[Chain], id: ChainId) -> bool
    ensures { result ≡ is_some (chain_with id (map chain_view chains.now)) }
{
    chain_with(chains, id).is_some()
}

/// Adds the table of a client with this identifier.
fn push_table(
    text: &mut String,
    id: &str,
    client: &NamedClient,
    host: &Chain,
) -> Result<(), AllocError>
    ensures { OnOk result (string_bytes text.new ≡ string_bytes text.old ++ identity_lines id.now client.now ++ terms_lines (chain_view host.now)) }
{
    push_identity(text, id, client)?;
    push_terms(text, host)
}

fn push_identity(text: &mut String, id: &str, client: &NamedClient) -> Result<(), AllocError>
    ensures { OnOk result (string_bytes text.new ≡ string_bytes text.old ++ identity_lines id.now client.now) }
{
    text.push_str("[[client]]\n")?;
    push_text(text, "id", id)?;
    push_text(text, "host", client.host.as_str())?;
    push_text(text, "of", client.chain.as_str())
}

fn push_terms(text: &mut String, host: &Chain) -> Result<(), AllocError>
    ensures { OnOk result (string_bytes text.new ≡ string_bytes text.old ++ terms_lines (chain_view host.now)) }
{
    push_three(text, "fee", fees_of(host.price))?;
    push_three(text, "gas", GAS)?;
    let limits = (host.max_gas, host.max_messages, TRANSACTION_GAS);
    push_three(text, "limits", limits)?;
    text.push_str("\n")
}

/// Adds a key with a text.
fn push_text(text: &mut String, key: &str, value: &str) -> Result<(), AllocError>
    ensures { OnOk result (string_bytes text.new ≡ string_bytes text.old ++ text_line key.now value.now) }
{
    writeln!(text, "{key} = \"{value}\"")
}

/// Adds a key with three numbers.
fn push_three(text: &mut String, key: &str, numbers: (u64, u64, u64)) -> Result<(), AllocError>
    ensures { OnOk result (string_bytes text.new ≡ string_bytes text.old ++ three_line key.now numbers) }
{
    let (first, second, third) = numbers;
    writeln!(text, "{key} = [{first}, {second}, {third}]")
}
