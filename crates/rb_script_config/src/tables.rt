//! What the keys of a script's text hold, and what the script is set up with.
ghost use Rattle.rb_script_toml.specs.Faults.{Gives};
ghost use Rattle.rb_script_toml.specs.Fields.{section_view, only};
ghost use Rattle.rb_script_config.specs.Setups.{setup_view};
ghost use Rattle.rb_script_config.specs.Tables.{config, tables, tables_view, top_keys};

use crate::chain::{ids_of, read_chains};
use crate::client::read_clients;
use crate::path::read_paths;
use crate::setup::Setup;
use crate::version::{max_records, needed_version};
use rb_script_toml::{RunError, Section};
use rb_script_types::{MAX_CHAINS, MAX_CLIENTS, MAX_PATHS, MAX_TURNS, Version};
use std::alloc::Global;
use toml::Value;

/// What the keys of the whole text hold.
#[derive(Clone, Copy)]
pub struct Tables<'a> {
    pub version: Version,
    pub chains: &'a [Value],
    pub clients: &'a [Value],
    pub paths: &'a [Value],
    pub turns: &'a [Value],
}

/// Refuses other keys than those of a script: `version`, `chain`, `client`, `path` and `turn`. `Fault` is
/// `UnknownKey` at the first other one, in the order of their bytes; `NoMemory` where its path finds no
/// room.
pub fn only_top_keys(section: &Section<'_>) -> Result<(), RunError>
    ensures { Gives (λ u. u) result (only top_keys (section_view section.now)) }
{
    section.only(&["version", "chain", "client", "path", "turn"])
}

/// Reads what the keys of the whole text hold: a version, 1 to 3, and the elements of the four arrays, none
/// where an array isn't there. `Fault` is the first of: another key (`UnknownKey`), no version
/// (`MissingKey`, `WrongType`, `BadVersion`), then of `chain`, `client`, `path` and `turn`, in this order,
/// that it is no array (`WrongType`) or has more than 64, 256, 256 and 500 elements (`TooManyObjects`).
/// `NoMemory` comes where a growth is refused.
#[tactic(auto, using(rb_script_toml::proofs::Steps::steps), unfolding(crate::specs::Tables::tables))]
pub fn read_tables<'a>(section: Section<'a>) -> Result<Tables<'a>, RunError>
    ensures { Gives tables_view result (tables (section_view section.entry)) }
{
    only_top_keys(&section)?;
    let version = needed_version(&section)?;
    let chains = section.array("chain", MAX_CHAINS)?;
    let clients = section.array("client", MAX_CLIENTS)?;
    let paths = section.array("path", MAX_PATHS)?;
    let turns = section.array("turn", MAX_TURNS)?;
    Ok(Tables {
        version,
        chains,
        clients,
        paths,
        turns,
    })
}

/// Reads what a script is set up with: the chains, the clients and the paths, in this order, each array as
/// its function tells (`read_chains`, `read_clients`, `read_paths`), and how many records a book may have
/// in this version. `Fault` is the first of these; `NoMemory` comes where a growth is refused.
#[tactic(auto, using(rb_script_toml::proofs::Steps::steps), unfolding(crate::specs::Tables::config))]
pub fn read_setup(alloc: Global, tables: Tables<'_>) -> Result<Setup, RunError>
    ensures { Gives setup_view result (config (tables_view tables.entry)) }
{
    let chains = read_chains(alloc, tables.version, tables.chains)?;
    let clients = read_clients(alloc, tables.version, tables.clients, &chains)?;
    let chains = ids_of(alloc, &chains)?;
    let paths = read_paths(alloc, tables.version, tables.paths, &chains, &clients)?;
    Ok(Setup {
        version: tables.version,
        limit: max_records(tables.version),
        chains,
        clients,
        paths,
    })
}
