//! The keys of a client's table: what they are called, and what belongs there, in words.
ghost use Rattle.std.specs.Prelude.{◌≡◌, IfSome};
ghost use Rattle.rb_script_toml.specs.Faults.{Gives};
ghost use Rattle.rb_script_toml.specs.Fields.{section_view, only};
ghost use Rattle.rb_script_config.specs.Chains.{default_keys};
ghost use Rattle.rb_script_config.specs.Clients.{client_keys};

use rb_script_toml::{RunError, Section};
use rb_script_types::Version;

/// Its identifier.
pub(crate) const ID: &str = "id";

/// The chain that hosts it.
pub(crate) const HOST: &str = "host";

/// The chain that it tracks.
pub(crate) const OF: &str = "of";

/// Its trusting period.
pub(crate) const PERIOD: &str = "period_ns";

/// How far the time of a header may be ahead.
pub(crate) const DRIFT: &str = "drift_ns";

/// The age at which it is refreshed.
pub(crate) const REFRESH: &str = "refresh_ns";

/// What an update costs in fees.
pub(crate) const FEE: &str = "fee";

/// What an update costs in gas.
pub(crate) const GAS: &str = "gas";

/// What a transaction may carry.
pub(crate) const LIMITS: &str = "limits";

/// Its trust level.
pub(crate) const TRUST: &str = "trust";

/// Which votes its updates carry.
pub(crate) const VOTES: &str = "votes";

/// The keys of a client before version 3.
const NAMES: [&str; 10] = [
    ID, HOST, OF, PERIOD, DRIFT, REFRESH, FEE, GAS, LIMITS, TRUST,
];

/// The keys of a client from version 3 on.
const NAMES_WITH_VOTES: [&str; 11] = [
    ID, HOST, OF, PERIOD, DRIFT, REFRESH, FEE, GAS, LIMITS, TRUST, VOTES,
];

/// Those that the clients of a chain may share.
const SHARED_NAMES: [&str; 6] = [PERIOD, DRIFT, REFRESH, FEE, GAS, TRUST];

/// A key of a client's table, in a script and in a setup: its name, and what a program says of it to a
/// person. `kind` says what belongs there, `element` what belongs into its array, `range` which
/// numbers may stand there, and `missing` what belongs there where nothing does.
#[derive(Clone, Copy)]
pub struct ClientKey {
    pub name: &'static str,
    pub kind: &'static str,
    pub element: &'static str,
    pub range: &'static str,
    pub missing: &'static str,
}

const TEXT: &str = "a text in quotes belongs here";

const NANOSECONDS: &str =
    "a whole number of nanoseconds without quotes belongs here, as 1_209_600_000_000_000 (two weeks)";

const NO_ARRAY: &str = "a value of another type belongs here";

const NO_RANGE: &str = "this number is too small or too big";

const INTEGER: &str = "a whole number belongs here";

const SMALLER_UNIT: &str =
    "a whole number belongs here, so take a smaller unit where it has decimals";

const FROM_ZERO: &str = "a number from 0 to 2^63 - 1 belongs here";

const FEE_RANGE: &str =
    "fees and gas are numbers from 0 to 10^9; take a larger unit where one is more";

const NO_NANOSECONDS: &str =
    "a whole number of nanoseconds belongs here or, from version 2 on, in [chain.defaults] of the chain that the client follows; only a setup for import may leave it out";

const UPDATE_VOTES: &str = "all or needed belongs here, in quotes";

const NO_FEES: &str =
    "three numbers belong here, as [100, 1, 1], or, from version 2 on, in [chain.defaults] of the chain that the client follows";

/// The keys of a client.
const CLIENT_KEYS: [ClientKey; 11] = [
    ClientKey {
        name: ID,
        kind: TEXT,
        element: NO_ARRAY,
        range: NO_RANGE,
        missing: TEXT,
    },
    ClientKey {
        name: HOST,
        kind: TEXT,
        element: NO_ARRAY,
        range: NO_RANGE,
        missing: TEXT,
    },
    ClientKey {
        name: OF,
        kind: TEXT,
        element: NO_ARRAY,
        range: NO_RANGE,
        missing: TEXT,
    },
    ClientKey {
        name: PERIOD,
        kind: NANOSECONDS,
        element: NO_ARRAY,
        range: "a number from 1 to 2^63 - 1 belongs here",
        missing: NO_NANOSECONDS,
    },
    ClientKey {
        name: DRIFT,
        kind: NANOSECONDS,
        element: NO_ARRAY,
        range: FROM_ZERO,
        missing: NO_NANOSECONDS,
    },
    ClientKey {
        name: REFRESH,
        kind: NANOSECONDS,
        element: NO_ARRAY,
        range: FROM_ZERO,
        missing: NANOSECONDS,
    },
    ClientKey {
        name: FEE,
        kind: "three numbers belong here, as [100, 1, 1]: of an update, of each commit vote, of each validator of the two sets",
        element: SMALLER_UNIT,
        range: FEE_RANGE,
        missing: NO_FEES,
    },
    ClientKey {
        name: GAS,
        kind: "three numbers belong here, as [100, 1, 1]: of a client those of an update, each commit vote and each validator, of a path those of a receive, an acknowledgement and a timeout",
        element: SMALLER_UNIT,
        range: FEE_RANGE,
        missing: NO_FEES,
    },
    ClientKey {
        name: LIMITS,
        kind: "three numbers belong here, as [25_000_000, 50, 80_000]: gas and messages of a transaction, and gas of its own",
        element: INTEGER,
        range: "limits are gas (1 to 10^15), messages (1 to 10,000) and a transaction's own gas (0 to 10^9)",
        missing: "three numbers belong here, as [25_000_000, 50, 80_000]: gas and messages of a transaction, and gas of its own",
    },
    ClientKey {
        name: TRUST,
        kind: "two numbers belong here, as [1, 3]",
        element: INTEGER,
        range: FROM_ZERO,
        missing: "two numbers belong here, as [1, 3]",
    },
    ClientKey {
        name: VOTES,
        kind: UPDATE_VOTES,
        element: NO_ARRAY,
        range: NO_RANGE,
        missing: UPDATE_VOTES,
    },
];

/// The keys of a client, in words.
pub const CLIENT_KEY_LIST: &str =
    "a client has id, host, of, period_ns, drift_ns, refresh_ns, fee, gas, limits, trust and, from version 3 on, votes";

/// The keys that the clients of a chain may share, in words.
pub const DEFAULT_KEY_LIST: &str =
    "defaults are period_ns, drift_ns, refresh_ns, fee, gas and trust";

/// The key of a client that has this name, or none where none has it.
pub fn client_key(name: &str) -> Option<ClientKey>
    ensures { IfSome result (λ key. key.name.now ≡ name.now) }
{
    CLIENT_KEYS.iter().find(|key| key.name == name).copied()
}

/// Refuses other keys than those of a client.
pub fn only_client_keys(version: Version, section: &Section<'_>) -> Result<(), RunError>
    ensures { Gives (λ u. u) result (only (client_keys version) (section_view section.now)) }
{
    match version {
        Version::One | Version::Two => section.only(&NAMES),
        Version::Three | Version::Four => section.only(&NAMES_WITH_VOTES),
    }
}

/// Refuses other keys than those that the clients of a chain may share.
pub fn only_default_keys(section: &Section<'_>) -> Result<(), RunError>
    ensures { Gives (λ u. u) result (only default_keys (section_view section.now)) }
{
    section.only(&SHARED_NAMES)
}
