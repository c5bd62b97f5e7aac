//! The setup of a text.
ghost use Rattle.std.specs.Prelude.{◌≡◌, codes};
ghost use Rattle.toml.specs.View.{items_view, table_view};
ghost use Rattle.rb_script_toml.specs.Faults.{Gives};
ghost use Rattle.rb_script_toml.specs.Fields.{section_view};
ghost use Rattle.rb_script_toml.specs.Documents.{whole};
ghost use Rattle.rb_import_setup.specs.Setups.{some_turns, setup, setup_of, setup_view, tables, tables_view};

use crate::chain::read_chains;
use crate::client::read_clients;
use crate::path::read_paths;
use crate::sender::read_senders;
use crate::setup::ImportSetup;
use crate::turn::read_turns;
use rb_script_config::{ids_of, only_top_keys};
use rb_script_toml::{FaultName, RunError, Section, read_table};
use rb_script_types::{MAX_CHAINS, MAX_CLIENTS, MAX_PATHS, MAX_TURNS};
use std::alloc::Global;
use toml::{Table, Value};

/// What the keys of the whole text hold.
#[derive(Clone, Copy)]
struct Tables<'a> {
    chains: &'a [Value],
    clients: &'a [Value],
    paths: &'a [Value],
    turns: &'a [Value],
}

/// The turns, of which there has to be one.
#[tactic(auto, using(rb_script_toml::proofs::Steps::steps, rb_script_toml::proofs::Steps::counted), unfolding(crate::specs::Setups::some_turns))]
fn some_turns<'a>(section: &Section<'a>) -> Result<&'a [Value], RunError>
    ensures { Gives (λ vs. items_view vs.now) result (some_turns (section_view section.now)) }
{
    let field = section.required("turn")?;
    let turns = field.array(MAX_TURNS)?;
    if turns.len() == 0 {
        return Err(field.fault(FaultName::MissingKey));
    }
    Ok(turns)
}

#[tactic(auto, using(rb_script_toml::proofs::Steps::steps), unfolding(crate::specs::Setups::tables))]
fn read_tables<'a>(section: Section<'a>) -> Result<Tables<'a>, RunError>
    ensures { Gives tables_view result (tables (section_view section.entry)) }
{
    only_top_keys(&section)?;
    let _version = section.number("version", 1, 1, FaultName::BadVersion)?;
    let chains = section.array("chain", MAX_CHAINS)?;
    let clients = section.array("client", MAX_CLIENTS)?;
    let paths = section.array("path", MAX_PATHS)?;
    let turns = some_turns(&section)?;
    Ok(Tables {
        chains,
        clients,
        paths,
        turns,
    })
}

#[tactic(auto, using(rb_script_toml::proofs::Steps::steps), unfolding(crate::specs::Setups::setup))]
fn read_document(alloc: Global, table: &Table) -> Result<ImportSetup, RunError>
    ensures { Gives setup_view result (setup (whole (table_view table.now))) }
{
    let section = Section {
        alloc,
        path: "",
        table,
    };
    let tables = read_tables(section)?;
    let chains = read_chains(alloc, tables.chains)?;
    let chains = ids_of(alloc, &chains)?;
    let senders = read_senders(alloc, tables.chains)?;
    let clients = read_clients(alloc, tables.clients, &chains)?;
    let paths = read_paths(alloc, tables.paths, &chains, &clients)?;
    let turns = read_turns(alloc, tables.turns, &chains, &clients)?;
    Ok(ImportSetup {
        chains: chains.into_vec(),
        senders,
        clients: clients.into_vec(),
        paths: paths.into_vec(),
        turns,
    })
}

/// Reads the setup that a text holds: a script without events, with at least one turn, whose chains may have `signer`,
/// `fee_denom`, `gas_price`, `gas_factor` and `client_message`, whose clients may leave out `period_ns`, `drift_ns` and
/// `trust`, and whose paths may have `wait_ns`, as those of
/// version 3, `port` and `channel`, and beside these `counterparty_port` and `counterparty_channel`. `Fault` is its first
/// fault, in the order in which scripts are judged (docs/FORMATS.md); `NoMemory` comes where a growth
/// is refused.
#[tactic(auto, using(rb_script_toml::proofs::Steps::steps), unfolding(crate::specs::Setups::setup_of))]
pub fn read_setup(alloc: Global, bytes: &[u8]) -> Result<ImportSetup, RunError>
    ensures read { Gives setup_view result (setup_of bytes.now) }
{
    let table = read_table(alloc, bytes)?;
    read_document(alloc, &table)
}
