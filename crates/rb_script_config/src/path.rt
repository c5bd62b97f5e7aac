//! The paths of a script.
ghost use Rattle.std.specs.Prelude.{◌≡◌, ◌<◌, [], IfOk, codes, length, map};
ghost use Rattle.toml.specs.View.{view, items_view};
ghost use Rattle.rb_script_toml.specs.Faults.{Gives};
ghost use Rattle.rb_script_toml.specs.Fields.{field_view, section_view, only, needs, optional, or_default, at_element, elements};
ghost use Rattle.rb_script_config.specs.Paths.{order, sequence, path_gas, waits, waits_in, connects, fits, path, path_config, path_keys};

use crate::channel::read_channel;
use crate::client::two_chains;
use crate::directory::Directory;
use crate::named::{Client, Named, new_identifier, reference};
use rb_base::{ChainId, PathId};
use rb_scan::{Order, Sequence};
use rb_script_toml::{FaultName, Field, MAX_NUMBER, RunError, Section, element_path, section_at};
use rb_script_types::{ClientConfig, PathConfig, PathGas, Version, Waits};
use std::alloc::Global;
use toml::Value;

#[tactic(auto, using(rb_script_toml::proofs::Steps::steps), unfolding(crate::specs::Paths::order))]
fn order(field: &Field<'_>) -> Result<Order, RunError>
    ensures { Gives (λ o. o) result (order (field_view field.now)) }
{
    match field.text()? {
        "ordered" => Ok(Order::Ordered),
        "unordered" => Ok(Order::Unordered),
        _ => Err(field.fault(FaultName::BadOrder)),
    }
}

#[tactic(auto, using(rb_script_toml::proofs::Steps::steps))]
fn needed_order(section: &Section<'_>) -> Result<Order, RunError>
    ensures { Gives (λ o. o) result (needs (codes "order") order (section_view section.now)) }
{
    order(&section.required("order")?)
}

#[tactic(auto, using(rb_script_toml::proofs::Steps::steps))]
fn sequence(field: &Field<'_>) -> Result<Sequence, RunError>
    ensures { Gives (λ n. n) result (sequence (field_view field.now)) }
{
    let number = field.number(1, Sequence::MAX, FaultName::OutOfRange)?;
    Ok(Sequence::new(number).unwrap())
}

/// The sequence of a packet (ICS 4), which the key `seq` holds. `Fault` is `MissingKey` where the key isn't
/// there, `WrongType` where it holds no integer, `OutOfRange` where that isn't from 1 to 2^63 - 1;
/// `NoMemory` where the path finds no room.
#[tactic(auto, using(rb_script_toml::proofs::Steps::steps))]
pub fn needed_sequence(section: &Section<'_>) -> Result<Sequence, RunError>
    ensures { Gives (λ n. n) result (needs (codes "seq") sequence (section_view section.now)) }
{
    sequence(&section.required("seq")?)
}

#[tactic(auto, using(rb_script_toml::proofs::Steps::steps))]
fn first_or_one(section: &Section<'_>) -> Result<Sequence, RunError>
    ensures { Gives (λ n. n) result (or_default 1 sequence (optional (codes "first") (section_view section.now))) }
{
    match section.optional("first") {
        Some(field) => sequence(&field),
        None => Ok(Sequence::new(1).unwrap()),
    }
}

#[tactic(auto, using(rb_script_toml::proofs::Steps::steps), unfolding(crate::specs::Paths::path_gas))]
fn path_gas(field: &Field<'_>) -> Result<PathGas, RunError>
    ensures { Gives (λ g. g) result (path_gas (field_view field.now)) }
{
    let (receive, acknowledge, timeout) = field.fees()?;
    Ok(PathGas::new(receive, acknowledge, timeout).unwrap())
}

#[tactic(auto, using(rb_script_toml::proofs::Steps::steps))]
fn needed_gas(section: &Section<'_>) -> Result<PathGas, RunError>
    ensures { Gives (λ g. g) result (needs (codes "gas") path_gas (section_view section.now)) }
{
    path_gas(&section.required("gas")?)
}

/// Whether a client is hosted on the one chain and tracks the other.
fn connects<C: Client>(clients: &Directory<C>, place: usize, host: usize, tracks: usize) -> bool
    requires { place < length clients.now }
    ensures { result ≡ connects C.ends clients.now place host tracks }
{
    let client = &clients.as_slice()[place];
    client.host() == host && client.tracks() == tracks
}

fn only_path_keys(version: Version, section: &Section<'_>) -> Result<(), RunError>
    ensures { Gives (λ u. u) result (only (path_keys version) (section_view section.now)) }
{
    match version {
        Version::One | Version::Two => section.only(&[
            "id", "source", "dest", "order", "first", "forward", "back", "gas",
        ]),
        Version::Three | Version::Four => section.only(&[
            "id",
            "source",
            "dest",
            "order",
            "first",
            "forward",
            "back",
            "gas",
            "wait_ns",
            "port",
            "channel",
            "counterparty_port",
            "counterparty_channel",
        ]),
    }
}

#[tactic(auto, using(rb_script_toml::proofs::Steps::steps), unfolding(crate::specs::Paths::waits))]
fn waits(field: &Field<'_>) -> Result<Waits, RunError>
    ensures { Gives (λ w. w) result (waits (field_view field.now)) }
{
    let (receive, acknowledge, timeout) = field.three_integers()?;
    let receive = field.within(0, receive, 0, MAX_NUMBER, FaultName::OutOfRange)?;
    let acknowledge = field.within(1, acknowledge, 0, MAX_NUMBER, FaultName::OutOfRange)?;
    let timeout = field.within(2, timeout, 0, MAX_NUMBER, FaultName::OutOfRange)?;
    Ok(Waits {
        receive,
        acknowledge,
        timeout,
    })
}

/// Reads how long a path's messages may wait: `wait_ns`, three numbers from 0 to 2^63 - 1, of nanoseconds,
/// from version 3 on; no message may wait where the key isn't there. `Fault` is `WrongType` where it holds
/// another type, or an array of another length, else `OutOfRange` at the first number outside its range;
/// `NoMemory` comes where a growth is refused.
#[tactic(auto, using(rb_script_toml::proofs::Steps::steps))]
pub fn read_waits(version: Version, section: &Section<'_>) -> Result<Waits, RunError>
    ensures { Gives (λ w. w) result (waits_in version (section_view section.now)) }
{
    match version {
        Version::One | Version::Two => Ok(Waits::NONE),
        Version::Three | Version::Four => match section.optional("wait_ns") {
            Some(field) => waits(&field),
            None => Ok(Waits::NONE),
        },
    }
}

/// Reads what scripts and setups say of a path alike, in this order: `id`, which none of the paths before
/// it may have, `source` and `dest`, each the identifier of one of these chains, `order` (`ordered` or
/// `unordered`), `first`, a sequence from 1 to 2^63 - 1 (1 where it isn't there), `forward` and `back`,
/// each the identifier of one of these clients, and `gas`, three numbers from 0 to 10^9. Chains and
/// clients are answered by their places. `Fault` is the first of: a key is missing (`MissingKey`), has
/// another type (`WrongType`), is ill formed (`BadIdentifier`), an earlier path's (`DuplicateIdentifier`),
/// no object's (`UnknownIdentifier`), no order (`BadOrder`), no sequence (`OutOfRange`), too much gas
/// (`BadFee`). `NoMemory` comes where a growth is refused. Other keys are not judged.
#[tactic(auto, using(rb_script_toml::proofs::Steps::steps), unfolding(crate::specs::Paths::path_config))]
pub fn read_path_config<C: Named, T: Named>(
    section: &Section<'_>,
    chains: &Directory<ChainId>,
    clients: &Directory<C>,
    before: &Directory<T>,
) -> Result<PathConfig, RunError>
    ensures read { Gives (λ p. p) result (path_config chains.now (map C.name clients.now) (map T.name before.now) (section_view section.now)) }
    ensures forward { IfOk result (λ p. p.forward < length clients.now) }
    ensures back { IfOk result (λ p. p.back < length clients.now) }
{
    let id = new_identifier(section, before)?;
    let source = reference(section, "source", chains)?;
    let destination = reference(section, "dest", chains)?;
    let order = needed_order(section)?;
    let first = first_or_one(section)?;
    let forward = reference(section, "forward", clients)?;
    let back = reference(section, "back", clients)?;
    let gas = needed_gas(section)?;
    Ok(PathConfig {
        id: PathId::new(id).unwrap(),
        source,
        destination,
        order,
        first,
        forward,
        back,
        gas,
        waits: Waits::NONE,
        channel: None,
    })
}

/// Judges whether a path's chains and clients fit (ICS 4). `Fault` is `SameChain` at the table where its
/// source is its destination, else `WrongClient` where `forward` isn't hosted on the destination or
/// doesn't track the source, or `back` the other way round; `NoMemory` where the path of the fault finds
/// no room.
#[tactic(auto, using(rb_script_toml::proofs::Steps::steps))]
pub fn judge_path<C: Client>(
    section: &Section<'_>,
    clients: &Directory<C>,
    path: &PathConfig,
) -> Result<(), RunError>
    requires forward { path.now.forward < length clients.now }
    requires back { path.now.back < length clients.now }
    ensures { Gives (λ u. u) result (fits C.ends clients.now path.now (section_view section.now).path) }
{
    let (source, destination) = (path.source, path.destination);
    two_chains(section, source, destination)?;
    if !connects(clients, path.forward, destination, source)
        || !connects(clients, path.back, source, destination)
    {
        return Err(section.fault(FaultName::WrongClient));
    }
    Ok(())
}

#[tactic(auto, using(rb_script_toml::proofs::Steps::steps), unfolding(crate::specs::Paths::path))]
fn read_path(
    version: Version,
    section: &Section<'_>,
    chains: &Directory<ChainId>,
    clients: &Directory<ClientConfig>,
    before: &Directory<PathConfig>,
) -> Result<PathConfig, RunError>
    ensures { Gives (λ p. p) result (path version chains.now clients.now before.now (section_view section.now)) }
{
    only_path_keys(version, section)?;
    let path = read_path_config(section, chains, clients, before)?;
    let waits = read_waits(version, section)?;
    let channel = read_channel(version, section)?;
    judge_path(section, clients, &path)?;
    Ok(PathConfig {
        waits,
        channel,
        ..path
    })
}

#[tactic(auto, using(rb_script_toml::proofs::Steps::steps))]
fn read_path_at(
    alloc: Global,
    version: Version,
    value: &Value,
    chains: &Directory<ChainId>,
    clients: &Directory<ClientConfig>,
    before: &Directory<PathConfig>,
) -> Result<PathConfig, RunError>
    ensures { Gives (λ p. p) result (at_element (path version chains.now clients.now) (codes "path") before.now (view value.now)) }
{
    let path = element_path(alloc, "path", before.as_slice().len())?;
    let section = section_at(alloc, path.as_str(), value)?;
    read_path(version, &section, chains, clients, before)
}

/// Reads the tables of the array `path`, in their order: keys that no path has are refused, then each is
/// read as by `read_path_config`, `read_waits` and `read_channel`, and judged as by `judge_path`. `Fault` is the first of
/// the first table that is refused; `NoMemory` comes where a growth is refused.
pub fn read_paths(
    alloc: Global,
    version: Version,
    items: &[Value],
    chains: &Directory<ChainId>,
    clients: &Directory<ClientConfig>,
) -> Result<Directory<PathConfig>, RunError>
    ensures { Gives (λ d. d) result (elements (path version chains.now clients.now) (codes "path") [] (items_view items.now)) }
{
    let mut paths = Directory::new(alloc);
    for value in items {
        let path = read_path_at(alloc, version, value, chains, clients, &paths)?;
        paths = paths.with(path)?;
    }
    Ok(paths)
}
