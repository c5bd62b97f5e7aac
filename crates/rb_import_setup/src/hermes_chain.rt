//! The chains of a configuration.
ghost use Rattle.std.specs.Prelude.{◌≡◌, [], Some, codes, map, option_map, string_bytes};
ghost use Rattle.std.specs.List.{list_all};
ghost use Rattle.std.specs.Str.{chars};
ghost use Rattle.toml.specs.Data.{get_member};
ghost use Rattle.toml.specs.View.{items_view, table_view, view};
ghost use Rattle.rb_script_toml.specs.Documents.{whole};
ghost use Rattle.rb_script_toml.specs.Faults.{Gives};
ghost use Rattle.rb_script_toml.specs.Fields.{at_element, elements, field_view, identifier, needs, section_view};
ghost use Rattle.rb_import_setup.specs.HermesChains.{chain_view};
ghost use Rattle.rb_import_setup.specs.HermesConfigs.{address, chain, chains, chains_of, float_millionths, gas_price, is_shown, is_word, max_gas, max_messages, millionths, next_chain, node_address, price};

use rb_base::ChainId;
use rb_script_toml::{
    FaultName, Field, RunError, Section, element_path, is_active, read_table, section_at,
};
use std::alloc::Global;
use std::num;
use toml::{Table, Value};

/// The most chains of a configuration.
const MAX_CHAINS: usize = 10_000;

/// The gas limit of a transaction where the configuration has none, as Hermes has it.
const DEFAULT_MAX_GAS: u64 = 400_000;

/// The greatest gas limit of a setup.
const GREATEST_MAX_GAS: u64 = 1_000_000_000_000_000;

/// How many messages a transaction has at most where the configuration doesn't say, as Hermes has it.
const DEFAULT_MAX_MESSAGES: u64 = 30;

/// The most messages of a transaction in a setup.
const MOST_MESSAGES: u64 = 10_000;

/// A price is read in millionths.
const MILLION: f64 = 1_000_000.0;

/// The greatest price that is told apart, in millionths.
const MAX_PRICE: u64 = 1_000_000_000_000_000_000;

/// A chain: its identifier, the address of its node, where that is a word, the gas limit and the most messages of a
/// transaction, and the price of gas in millionths of its coin, 0 where there is none.
#[derive(Drop)]
pub(crate) struct Chain {
    pub(crate) id: ChainId,
    pub(crate) address: Option<String>,
    pub(crate) max_gas: u64,
    pub(crate) max_messages: u64,
    pub(crate) price: u64,
}

/// The chains that the text of a configuration has.
#[tactic(auto, using(rb_script_toml::proofs::Steps::steps))]
pub(crate) fn read_config(alloc: Global, config: &[u8]) -> Result<Vec<Chain>, RunError>
    ensures { Gives (λ v. map chain_view v.items) result (chains_of config.now) }
{
    let table = read_table(alloc, config)?;
    read_chains(alloc, &table)
}

/// The chains of a configuration, in its order.
#[tactic(auto, using(rb_script_toml::proofs::Steps::steps), unfolding(crate::specs::HermesConfigs::chains))]
fn read_chains(alloc: Global, table: &Table) -> Result<Vec<Chain>, RunError>
    ensures { Gives (λ v. map chain_view v.items) result (chains (whole (table_view table.now))) }
{
    let section = Section {
        alloc,
        path: "",
        table,
    };
    let values = section.required("chains")?.array(MAX_CHAINS)?;
    chains_in(alloc, values)
}

fn chains_in(alloc: Global, values: &[Value]) -> Result<Vec<Chain>, RunError>
    ensures { Gives (λ v. map chain_view v.items) result (elements next_chain (codes "chains") [] (items_view values.now)) }
{
    let mut chains = Vec::new(alloc);
    for value in values {
        let chain = read_chain_at(alloc, value, &chains)?;
        chains.push(chain)?;
    }
    Ok(chains)
}

#[tactic(auto, using(rb_script_toml::proofs::Steps::steps))]
fn read_chain_at(alloc: Global, value: &Value, before: &Vec<Chain>) -> Result<Chain, RunError>
    ensures { Gives chain_view result (at_element next_chain (codes "chains") (map chain_view before.now.items) (view value.now)) }
{
    let path = element_path(alloc, "chains", before.len())?;
    let section = section_at(alloc, path.as_str(), value)?;
    read_chain(&section)
}

#[tactic(auto, using(rb_script_toml::proofs::Steps::steps), unfolding(crate::specs::HermesConfigs::chain))]
fn read_chain(section: &Section<'_>) -> Result<Chain, RunError>
    ensures { Gives chain_view result (chain (section_view section.now)) }
{
    let id = read_id(section)?;
    let max_gas = read_max_gas(section)?;
    let max_messages = read_max_messages(section)?;
    let address = read_address(section)?;
    let price = read_price(section)?;
    Ok(Chain {
        id,
        address,
        max_gas,
        max_messages,
        price,
    })
}

#[tactic(auto, using(rb_script_toml::proofs::Steps::steps))]
fn read_id(section: &Section<'_>) -> Result<ChainId, RunError>
    ensures { Gives (λ id. id) result (needs (codes "id") identifier (section_view section.now)) }
{
    let id = section.required("id")?.identifier()?;
    Ok(ChainId::new(id).unwrap())
}

#[tactic(auto, unfolding(crate::specs::HermesConfigs::max_gas))]
fn read_max_gas(section: &Section<'_>) -> Result<u64, RunError>
    ensures { Gives (λ n. n) result (max_gas (section_view section.now)) }
{
    section.number_or("max_gas", DEFAULT_MAX_GAS, 1, GREATEST_MAX_GAS)
}

#[tactic(auto, unfolding(crate::specs::HermesConfigs::max_messages))]
fn read_max_messages(section: &Section<'_>) -> Result<u64, RunError>
    ensures { Gives (λ n. n) result (max_messages (section_view section.now)) }
{
    section.number_or("max_msg_num", DEFAULT_MAX_MESSAGES, 1, MOST_MESSAGES)
}

/// The address of a chain's node, where there is one that is a word.
#[tactic(auto, using(rb_script_toml::proofs::Steps::steps), unfolding(crate::specs::HermesConfigs::node_address))]
fn read_address(section: &Section<'_>) -> Result<Option<String>, RunError>
    ensures { Gives (option_map string_bytes) result (node_address (section_view section.now)) }
{
    match section.optional("rpc_addr") {
        Some(field) => address_in(&field),
        None => Ok(None),
    }
}

#[tactic(auto, using(rb_script_toml::proofs::Steps::steps), unfolding(crate::specs::HermesConfigs::address))]
fn address_in(field: &Field<'_>) -> Result<Option<String>, RunError>
    ensures { Gives (option_map string_bytes) result (address (field_view field.now)) }
{
    let text = field.text()?;
    if !is_word(text) {
        return Ok(None);
    }
    let address = String::from_str(field.alloc, text)?;
    Ok(Some(address))
}

/// Whether a text isn't empty and has no white space and no character that acts on a terminal.
fn is_word(text: &str) -> bool
    ensures { result ≡ is_word text.now }
{
    text.len() > 0 && are_shown(text)
}

fn are_shown(text: &str) -> bool
    ensures { result ≡ list_all is_shown (chars text.now) }
{
    text.chars().all(|character| is_shown(character))
}

fn is_shown(character: char) -> bool
    ensures { result ≡ is_shown character }
{
    !(character.is_whitespace() || is_active(character))
}

/// The price of gas in millionths; 0 where there is none.
#[tactic(auto, using(rb_script_toml::proofs::Steps::steps), unfolding(crate::specs::HermesConfigs::gas_price))]
fn read_price(section: &Section<'_>) -> Result<u64, RunError>
    ensures { Gives (λ n. n) result (gas_price (section_view section.now)) }
{
    match section.optional("gas_price") {
        Some(field) => price_in(&field),
        None => Ok(0),
    }
}

#[tactic(auto, using(rb_script_toml::proofs::Steps::steps), unfolding(crate::specs::HermesConfigs::price))]
fn price_in(field: &Field<'_>) -> Result<u64, RunError>
    ensures { Gives (λ n. n) result (price (field_view field.now)) }
{
    let Some(table) = field.value.as_table() else {
        return Err(field.wrong_type());
    };
    match price_of(table) {
        Some(price) => millionths_of(field, price),
        None => Err(field.fault(FaultName::MissingKey)),
    }
}

fn price_of(table: &Table) -> Option<&Value>
    ensures { option_map (λ v. view v.now) result ≡ get_member (codes "price") (table_view table.now) }
{
    table.get("price")
}

/// A number in millionths, the greatest price where it is greater.
#[tactic(auto, using(rb_script_toml::proofs::Steps::steps))]
fn millionths_of(field: &Field<'_>, price: &Value) -> Result<u64, RunError>
    ensures { Gives (λ n. n) result (millionths (field_view field.now).path (Some (view price.now))) }
{
    match price {
        Value::Float(price) => Ok(float_millionths(*price).min(MAX_PRICE)),
        Value::Integer(price) => match u64::try_from(*price) {
            Ok(price) => Ok(price.saturating_mul(1_000_000).min(MAX_PRICE)),
            Err(_) => Err(field.fault(FaultName::OutOfRange)),
        },
        _ => Err(field.wrong_type()),
    }
}

/// A float in millionths.
fn float_millionths(price: f64) -> u64
    ensures { result ≡ float_millionths price }
{
    num::saturating_f64_to_u64(price * MILLION)
}
