//! The tables of chains, clients and paths.
use crate::names::{chain_name, client_name};
use rb_base::{CarriedVotes, FeeTable};
use rb_scan::{Kind, Order};
use rb_script_types::{Channel, ChannelEnd, ClientConfig, Config, PathConfig, Version};
use std::alloc::AllocError;

/// Adds the version, the chains, the clients and the paths.
pub(crate) fn push_config(text: &mut String, config: &Config) -> Result<(), AllocError> {
    push_version(text, config.version)?;
    push_chains(text, config)?;
    for client in config.clients.as_slice() {
        push_client(text, config, client)?;
    }
    for path in config.paths.as_slice() {
        push_path(text, config, path)?;
    }
    Ok(())
}

fn push_version(text: &mut String, version: Version) -> Result<(), AllocError> {
    let number = match version {
        Version::One => 1,
        Version::Two => 2,
        Version::Three => 3,
        Version::Four => 4,
    };
    writeln!(text, "version = {number}")
}

fn push_chains(text: &mut String, config: &Config) -> Result<(), AllocError> {
    text.push_str("chain = [\n")?;
    for chain in config.chains.as_slice() {
        writeln!(text, "  {{ id = \"{chain}\" }},")?;
    }
    text.push_str("]\n")
}

fn push_client(
    text: &mut String,
    config: &Config,
    client: &ClientConfig,
) -> Result<(), AllocError> {
    let id = client.id;
    let host = chain_name(config, client.host);
    let tracks = chain_name(config, client.tracks);
    writeln!(
        text,
        "\n[[client]]\nid = \"{id}\"\nhost = \"{host}\"\nof = \"{tracks}\""
    )?;
    push_times(text, config.version, client)?;
    push_fees(text, "fee", &client.fees)?;
    push_fees(text, "gas", &client.gas)?;
    push_limits(text, client)?;
    push_trust(text, client)
}

/// Adds a client's trusting period and clock drift, and its refresh age, where that isn't what the version has without
/// the key.
fn push_times(
    text: &mut String,
    version: Version,
    client: &ClientConfig,
) -> Result<(), AllocError> {
    let period = client.options.period().nanoseconds();
    let drift = client.options.drift();
    writeln!(text, "period_ns = {period}\ndrift_ns = {drift}")?;
    let usual = match version {
        Version::One | Version::Two | Version::Three => 0,
        Version::Four => period / 3,
    };
    let refresh = client.refresh;
    if refresh == usual {
        Ok(())
    } else {
        writeln!(text, "refresh_ns = {refresh}")
    }
}

/// Adds what an update costs: without votes and validators, and what one of each adds.
fn push_fees(text: &mut String, key: &str, fees: &FeeTable) -> Result<(), AllocError> {
    let base = fees.base();
    let vote = fees.signature();
    let validator = fees.validator();
    writeln!(text, "{key} = [{base}, {vote}, {validator}]")
}

fn push_limits(text: &mut String, client: &ClientConfig) -> Result<(), AllocError> {
    let gas = client.limits.gas();
    let messages = client.limits.count();
    let own = client.limits.transaction_gas();
    writeln!(text, "limits = [{gas}, {messages}, {own}]")
}

/// Adds a client's trust level, and which votes its updates carry, where it isn't all of them.
fn push_trust(text: &mut String, client: &ClientConfig) -> Result<(), AllocError> {
    let trust = client.options.trust();
    let numerator = trust.numerator();
    let denominator = trust.denominator();
    writeln!(text, "trust = [{numerator}, {denominator}]")?;
    match client.options.votes() {
        CarriedVotes::Needed => text.push_str("votes = \"needed\"\n"),
        CarriedVotes::Commit | CarriedVotes::Cast => Ok(()),
    }
}

fn push_path(text: &mut String, config: &Config, path: &PathConfig) -> Result<(), AllocError> {
    let id = path.id;
    let source = chain_name(config, path.source);
    let destination = chain_name(config, path.destination);
    writeln!(
        text,
        "\n[[path]]\nid = \"{id}\"\nsource = \"{source}\"\ndest = \"{destination}\""
    )?;
    push_terms(text, config, path)?;
    push_gas(text, path)?;
    match config.version {
        Version::One | Version::Two => Ok(()),
        Version::Three | Version::Four => push_channel_and_waits(text, path),
    }
}

fn push_terms(text: &mut String, config: &Config, path: &PathConfig) -> Result<(), AllocError> {
    let order = match path.order {
        Order::Ordered => "ordered",
        Order::Unordered => "unordered",
    };
    let first = path.first;
    let forward = client_name(config, path.forward);
    let back = client_name(config, path.back);
    writeln!(
        text,
        "order = \"{order}\"\nfirst = {first}\nforward = \"{forward}\"\nback = \"{back}\""
    )
}

fn push_gas(text: &mut String, path: &PathConfig) -> Result<(), AllocError> {
    let receive = path.gas.of(Kind::Receive);
    let acknowledge = path.gas.of(Kind::Acknowledge);
    let timeout = path.gas.of(Kind::Timeout);
    writeln!(text, "gas = [{receive}, {acknowledge}, {timeout}]")
}

/// Adds the ends of a path's channel, as far as they are named, and how long its messages may wait.
fn push_channel_and_waits(text: &mut String, path: &PathConfig) -> Result<(), AllocError> {
    if let Some(channel) = path.channel {
        push_channel(text, channel)?;
    }
    let receive = path.waits.of(Kind::Receive);
    let acknowledge = path.waits.of(Kind::Acknowledge);
    let timeout = path.waits.of(Kind::Timeout);
    writeln!(text, "wait_ns = [{receive}, {acknowledge}, {timeout}]")
}

fn push_channel(text: &mut String, channel: Channel) -> Result<(), AllocError> {
    push_end(text, "", channel.source)?;
    match channel.counterparty {
        Some(end) => push_end(text, "counterparty_", end),
        None => Ok(()),
    }
}

/// Adds an end of a channel, with what its keys begin with.
fn push_end(text: &mut String, prefix: &str, end: ChannelEnd) -> Result<(), AllocError> {
    let ChannelEnd { port, channel } = end;
    writeln!(
        text,
        "{prefix}port = \"{port}\"\n{prefix}channel = \"{channel}\""
    )
}
