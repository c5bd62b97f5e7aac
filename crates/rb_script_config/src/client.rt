//! The clients of a script.
ghost use Rattle.std.specs.Prelude.{◌≡◌, ◌<◌, [], IfOk, codes, length, map, not, ◌==◌};
ghost use Rattle.toml.specs.View.{view, items_view};
ghost use Rattle.rb_script_toml.specs.Faults.{Gives, check};
ghost use Rattle.rb_script_toml.specs.Fields.{field_view, section_view, number, fee_table, max_number, at_element, elements};
ghost use Rattle.rb_script_toml.specs.declared.fault.FaultName.TheVariants.{OutOfRange, SameChain};
ghost use Rattle.rb_script_config.specs.Clients.{carried, limits, identity, terms, client, own, shared_by, refresh_to, default_refresh, ties_of, votes_in};

use crate::chain::Chain;
use crate::client_keys::{DRIFT, FEE, GAS, HOST, LIMITS, OF, PERIOD, VOTES, only_client_keys};
use crate::defaults::{Defaults, maybe_refresh, read_drift, read_period, trust_or};
use crate::directory::Directory;
use crate::drift::Drift;
use crate::named::{Named, new_identifier, reference};
use rb_base::{CarriedVotes, ClientId, FeeTable, Options, Period, Ties};
use rb_batch::Limits;
use rb_script_toml::{FaultName, Field, RunError, Section, element_path, section_at};
use rb_script_types::{ClientConfig, RefreshTo, Version};
use std::alloc::Global;
use toml::Value;

/// Which client it is: its identifier, and the places of the chain that hosts it and of the chain that
/// it tracks (ICS 2).
#[derive(Clone, Copy)]
pub struct ClientIdentity {
    pub id: ClientId,
    pub host: usize,
    pub tracks: usize,
}

/// What a client's table says, beside the identity, in a script and in a setup alike: the refresh age in
/// nanoseconds (0: never), where one is given, what an update costs in fees and in gas,
/// and what a transaction may carry.
#[derive(Clone, Copy)]
pub struct ClientTerms {
    pub refresh: Option<u64>,
    pub fees: FeeTable,
    pub gas: FeeTable,
    pub limits: Limits,
}

#[tactic(auto, using(rb_script_toml::proofs::Steps::steps), unfolding(crate::specs::Clients::limits))]
fn limits(field: &Field<'_>) -> Result<Limits, RunError>
    ensures { Gives (λ l. l) result (limits (field_view field.now)) }
{
    let (gas, count, transaction) = field.three_integers()?;
    let gas = field.within(0, gas, 1, Limits::MAX_GAS, FaultName::BadLimit)?;
    let count = field.within(1, count, 1, Limits::MAX_COUNT as u64, FaultName::BadLimit)?;
    let transaction = field.within(
        2,
        transaction,
        0,
        Limits::MAX_TRANSACTION_GAS,
        FaultName::BadLimit,
    )?;
    Ok(Limits::new(gas, count as usize, transaction))
}

/// What the clients that track this chain share.
fn shared_by(chains: &Directory<Chain>, place: usize) -> Defaults
    requires { place < length chains.now }
    ensures { result ≡ shared_by chains.now place }
{
    chains.as_slice()[place].defaults
}

#[tactic(auto, using(rb_script_toml::proofs::Steps::steps))]
fn own_period(section: &Section<'_>, shared: Option<Period>) -> Result<Period, RunError>
    ensures { Gives (λ p. p) result (own shared (codes "period_ns") (number 1 max_number OutOfRange) (section_view section.now)) }
{
    let Some(shared) = shared else {
        return read_period(&section.required(PERIOD)?);
    };
    match section.optional(PERIOD) {
        Some(field) => read_period(&field),
        None => Ok(shared),
    }
}

#[tactic(auto, using(rb_script_toml::proofs::Steps::steps))]
fn own_drift(section: &Section<'_>, shared: Option<Drift>) -> Result<Drift, RunError>
    ensures { Gives (λ d. d) result (own shared (codes "drift_ns") (number 0 max_number OutOfRange) (section_view section.now)) }
{
    let Some(shared) = shared else {
        return read_drift(&section.required(DRIFT)?);
    };
    match section.optional(DRIFT) {
        Some(field) => read_drift(&field),
        None => Ok(shared),
    }
}

#[tactic(auto, using(rb_script_toml::proofs::Steps::steps))]
fn own_fees<'a>(
    section: &Section<'a>,
    key: &'a str,
    shared: Option<FeeTable>,
) -> Result<FeeTable, RunError>
    ensures { Gives (λ t. t) result (own shared key.entry.now fee_table (section_view section.now)) }
{
    let Some(shared) = shared else {
        return section.fee_table(key);
    };
    match section.optional(key) {
        Some(field) => field.fee_table(),
        None => Ok(shared),
    }
}

/// Reads which client a table of a script or setup of a version is of: `id`, which none of the clients
/// before it may have, and `host` and `of`, each the identifier of one of these chains, whose places are
/// answered. `Fault` is the first of: a key that no client has in the version (`UnknownKey`); then of `id`,
/// `host` and `of`, in this order, that it is missing (`MissingKey`), no text (`WrongType`), ill formed
/// (`BadIdentifier`), one that an earlier client has (`DuplicateIdentifier`), or no chain's
/// (`UnknownIdentifier`). `NoMemory` comes where a growth is refused.
#[tactic(auto, using(rb_script_toml::proofs::Steps::steps), unfolding(crate::specs::Clients::identity))]
pub fn read_identity<C: Named, T: Named>(
    version: Version,
    section: &Section<'_>,
    chains: &Directory<C>,
    before: &Directory<T>,
) -> Result<ClientIdentity, RunError>
    ensures read { Gives (λ i. i) result (identity version (map C.name chains.now) (map T.name before.now) (section_view section.now)) }
    ensures host { IfOk result (λ i. i.host < length chains.now) }
    ensures tracks { IfOk result (λ i. i.tracks < length chains.now) }
{
    only_client_keys(version, section)?;
    let id = new_identifier(section, before)?;
    let host = reference(section, HOST, chains)?;
    let tracks = reference(section, OF, chains)?;
    Ok(ClientIdentity {
        id: ClientId::new(id).unwrap(),
        host,
        tracks,
    })
}

/// Reads a client's terms: `refresh_ns`, `fee`, `gas` and `limits`, in this order. A key that isn't
/// there has what the clients of the chain share; `limits` is never shared. `Fault` is the first of: a
/// key that is needed isn't there (`MissingKey`), a value has another type or length (`WrongType`), a
/// number of nanoseconds isn't from 0 to 2^63 - 1 (`OutOfRange`), one of fees or gas isn't from 0 to 10^9
/// (`BadFee`), one of the limits is outside its range (`BadLimit`). `NoMemory` comes where a growth is
/// refused.
#[tactic(auto, using(rb_script_toml::proofs::Steps::steps), unfolding(crate::specs::Clients::terms))]
pub fn read_terms(section: &Section<'_>, shared: &Defaults) -> Result<ClientTerms, RunError>
    ensures { Gives (λ t. t) result (terms shared.now (section_view section.now)) }
{
    let refresh = maybe_refresh(section)?.or(shared.refresh);
    let fees = own_fees(section, FEE, shared.fees)?;
    let gas = own_fees(section, GAS, shared.gas)?;
    let limits = limits(&section.required(LIMITS)?)?;
    Ok(ClientTerms {
        refresh,
        fees,
        gas,
        limits,
    })
}

/// Refuses one chain where two have to be, by their places: `Fault` is `SameChain` at the table. `NoMemory`
/// comes where the path of the fault finds no room.
pub fn two_chains(section: &Section<'_>, chain: usize, other: usize) -> Result<(), RunError>
    ensures { Gives (λ u. u) result (check (not (chain == other)) SameChain (section_view section.now).path) }
{
    if chain == other {
        return Err(section.fault(FaultName::SameChain));
    }
    Ok(())
}

#[tactic(auto, using(rb_script_toml::proofs::Steps::steps), unfolding(crate::specs::Clients::carried))]
fn carried(field: &Field<'_>) -> Result<CarriedVotes, RunError>
    ensures { Gives (λ v. v) result (carried (field_view field.now)) }
{
    match field.text()? {
        "all" => Ok(CarriedVotes::Cast),
        "needed" => Ok(CarriedVotes::Needed),
        _ => Err(field.fault(FaultName::BadVotes)),
    }
}

/// Which votes the client's updates carry, and are charged for.
#[tactic(auto, using(rb_script_toml::proofs::Steps::steps))]
fn votes_in(version: Version, section: &Section<'_>) -> Result<CarriedVotes, RunError>
    ensures { Gives (λ v. v) result (votes_in version (section_view section.now)) }
{
    match version {
        Version::One | Version::Two => Ok(CarriedVotes::Commit),
        Version::Three | Version::Four => match section.optional(VOTES) {
            Some(field) => carried(&field),
            None => Ok(CarriedVotes::Cast),
        },
    }
}

/// How clients are refreshed: in version 3 to the greatest height, from version 4 on by gain.
fn refresh_to(version: Version) -> RefreshTo
    ensures { result ≡ refresh_to version }
{
    match version {
        Version::One | Version::Two => RefreshTo::Lowest,
        Version::Three => RefreshTo::Highest,
        Version::Four => RefreshTo::Newer,
    }
}

/// The refresh age where none is given: from version 4 on a third of the trusting period, before that never.
fn default_refresh(version: Version, period: Period) -> u64
    ensures { result ≡ default_refresh version period }
{
    match version {
        Version::One | Version::Two | Version::Three => 0,
        Version::Four => period.nanoseconds() / 3,
    }
}

/// Which heights come first in lists of updates that are equally cheap.
fn ties_of(version: Version) -> Ties
    ensures { result ≡ ties_of version }
{
    match version {
        Version::One | Version::Two | Version::Three => Ties::Lower,
        Version::Four => Ties::Higher,
    }
}

#[tactic(auto, using(rb_script_toml::proofs::Steps::steps), unfolding(crate::specs::Clients::client))]
fn read_client(
    version: Version,
    section: &Section<'_>,
    chains: &Directory<Chain>,
    before: &Directory<ClientConfig>,
) -> Result<ClientConfig, RunError>
    ensures { Gives (λ c. c) result (client version chains.now before.now (section_view section.now)) }
{
    let identity = read_identity(version, section, chains, before)?;
    let shared = shared_by(chains, identity.tracks);
    let period = own_period(section, shared.period)?;
    let drift = own_drift(section, shared.drift)?;
    let terms = read_terms(section, &shared)?;
    let trust = trust_or(section, shared.trust)?;
    let votes = votes_in(version, section)?;
    two_chains(section, identity.host, identity.tracks)?;
    Ok(ClientConfig {
        id: identity.id,
        host: identity.host,
        tracks: identity.tracks,
        options: Options::new(period, drift.nanoseconds())
            .with_trust(trust)
            .with_votes(votes)
            .with_ties(ties_of(version)),
        refresh: terms.refresh.unwrap_or(default_refresh(version, period)),
        refresh_to: refresh_to(version),
        fees: terms.fees,
        gas: terms.gas,
        limits: terms.limits,
    })
}

#[tactic(auto, using(rb_script_toml::proofs::Steps::steps))]
fn read_client_at(
    alloc: Global,
    version: Version,
    value: &Value,
    chains: &Directory<Chain>,
    before: &Directory<ClientConfig>,
) -> Result<ClientConfig, RunError>
    ensures { Gives (λ c. c) result (at_element (client version chains.now) (codes "client") before.now (view value.now)) }
{
    let path = element_path(alloc, "client", before.as_slice().len())?;
    let section = section_at(alloc, path.as_str(), value)?;
    read_client(version, &section, chains, before)
}

/// Reads the tables of the array `client`, in their order, each as `read_identity` and `read_terms` tell,
/// with `period_ns` and `drift_ns` before the terms, and `trust` and, from version 3 on, `votes` behind them:
/// `all`, as where it isn't there, or `needed`, else `BadVotes`. The trusting period and the clock drift are
/// needed where the tracked chain shares none. Where it shares none, the trust level is a third, and the refresh
/// age is a third of the trusting period from version 4 on, before that 0. `Fault` is the first of the first
/// table that is refused, at last `SameChain` where it tracks the chain that hosts it. `NoMemory` comes where a
/// growth is refused.
pub fn read_clients(
    alloc: Global,
    version: Version,
    items: &[Value],
    chains: &Directory<Chain>,
) -> Result<Directory<ClientConfig>, RunError>
    ensures { Gives (λ d. d) result (elements (client version chains.now) (codes "client") [] (items_view items.now)) }
{
    let mut clients = Directory::new(alloc);
    for value in items {
        let client = read_client_at(alloc, version, value, chains, &clients)?;
        clients = clients.with(client)?;
    }
    Ok(clients)
}
