//! The paths of a setup.
ghost use Rattle.std.specs.Prelude.{◌≡◌, [], IfOk, codes, map, option_map, string_bytes};
ghost use Rattle.toml.specs.View.{view, items_view};
ghost use Rattle.rb_script_toml.specs.Faults.{Gives};
ghost use Rattle.rb_script_toml.specs.Fields.{section_view, only, at_element, elements};
ghost use Rattle.rb_script_types.specs.Channels.{end_text};
ghost use Rattle.rb_import_setup.specs.Paths.{counterparty_of, path, path_keys, path_view, source_of};

use crate::setup::{ClientSetup, PathSetup};
use rb_base::ChainId;
use rb_script_config::{Directory, judge_path, read_channel, read_path_config, read_waits};
use rb_script_toml::{RunError, Section, element_path, section_at};
use rb_script_types::{Channel, ChannelEnd, PathConfig, Version};
use std::alloc::{AllocError, Global};
use toml::Value;

/// An end of a channel as `port/channel`, where it is there.
fn end_text(alloc: Global, end: Option<ChannelEnd>) -> Result<Option<String>, AllocError>
    ensures { IfOk result (λ text. option_map string_bytes text ≡ option_map end_text end) }
{
    match end {
        Some(end) => Ok(Some(format!(in alloc; "{end}")?)),
        None => Ok(None),
    }
}

/// The source's end of a channel.
fn source_of(channel: &Option<Channel>) -> Option<ChannelEnd>
    ensures { result ≡ source_of channel.now }
{
    match channel {
        Some(channel) => Some(channel.source),
        None => None,
    }
}

/// The other end of a channel.
fn counterparty_of(channel: &Option<Channel>) -> Option<ChannelEnd>
    ensures { result ≡ counterparty_of channel.now }
{
    match channel {
        Some(channel) => channel.counterparty,
        None => None,
    }
}

fn only_path_keys(section: &Section<'_>) -> Result<(), RunError>
    ensures { Gives (λ u. u) result (only path_keys (section_view section.now)) }
{
    section.only(&[
        "id",
        "source",
        "dest",
        "order",
        "first",
        "forward",
        "back",
        "gas",
        "wait_ns",
        "port",
        "channel",
        "counterparty_port",
        "counterparty_channel",
    ])
}

#[tactic(auto, using(rb_script_toml::proofs::Steps::steps, crate::proofs::PathsLemmas::views), unfolding(crate::specs::Paths::path))]
fn read_path(
    section: &Section<'_>,
    chains: &Directory<ChainId>,
    clients: &Directory<ClientSetup>,
    before: &Directory<PathSetup>,
) -> Result<PathSetup, RunError>
    ensures { Gives path_view result (path chains.now clients.now (map path_view before.now) (section_view section.now)) }
{
    only_path_keys(section)?;
    let config = read_path_config(section, chains, clients, before)?;
    let waits = read_waits(Version::Three, section)?;
    let channel = read_channel(Version::Three, section)?;
    judge_path(section, clients, &config)?;
    let source_channel = end_text(section.alloc, source_of(&channel))?;
    let counterparty = end_text(section.alloc, counterparty_of(&channel))?;
    Ok(PathSetup {
        config: PathConfig {
            waits,
            channel,
            ..config
        },
        source_channel,
        counterparty,
    })
}

#[tactic(auto, using(rb_script_toml::proofs::Steps::steps))]
fn read_path_at(
    alloc: Global,
    value: &Value,
    chains: &Directory<ChainId>,
    clients: &Directory<ClientSetup>,
    before: &Directory<PathSetup>,
) -> Result<PathSetup, RunError>
    ensures { Gives path_view result (at_element (path chains.now clients.now) (codes "path") (map path_view before.now) (view value.now)) }
{
    let path = element_path(alloc, "path", before.as_slice().len())?;
    let section = section_at(alloc, path.as_str(), value)?;
    read_path(&section, chains, clients, before)
}

/// Reads the paths between these chains by these clients, each beside those before it.
pub fn read_paths(
    alloc: Global,
    items: &[Value],
    chains: &Directory<ChainId>,
    clients: &Directory<ClientSetup>,
) -> Result<Directory<PathSetup>, RunError>
    ensures { Gives (map path_view) result (elements (path chains.now clients.now) (codes "path") [] (items_view items.now)) }
{
    let mut paths = Directory::new(alloc);
    for value in items {
        let path = read_path_at(alloc, value, chains, clients, &paths)?;
        paths = paths.with(path)?;
    }
    Ok(paths)
}
