//! What the clients that track a chain share.
ghost use Rattle.std.specs.Prelude.{◌≡◌, codes};
ghost use Rattle.rb_base.specs.Fraction.{one_third};
ghost use Rattle.rb_script_toml.specs.Faults.{Gives};
ghost use Rattle.rb_script_toml.specs.Fields.{field_view, section_view, optional, or_default, maybe, number, fee_table, trust, max_number};
ghost use Rattle.rb_script_toml.specs.declared.fault.FaultName.TheVariants.{OutOfRange};
ghost use Rattle.rb_script_config.specs.Chains.{no_defaults, defaults, defaults_at};

use crate::client_keys::{DRIFT, FEE, GAS, PERIOD, REFRESH, TRUST, only_default_keys};
use crate::drift::Drift;
use rb_base::{FeeTable, Fraction, Period};
use rb_script_toml::{FaultName, Field, MAX_NUMBER, RunError, Section, child_path, section_at};

/// What holds for each client that tracks a chain where it has no key of its own: the trusting
/// period, the clock drift that is allowed, the refresh age (0: never), what an
/// update costs in fees and in gas, and the trust level. None where a client needs its own.
#[derive(Clone, Copy)]
pub struct Defaults {
    pub period: Option<Period>,
    pub drift: Option<Drift>,
    pub refresh: Option<u64>,
    pub fees: Option<FeeTable>,
    pub gas: Option<FeeTable>,
    pub trust: Fraction,
}

/// Nothing is shared.
pub fn no_defaults() -> Defaults
    ensures { result ≡ no_defaults }
{
    Defaults {
        period: None,
        drift: None,
        refresh: None,
        fees: None,
        gas: None,
        trust: Fraction::one_third(),
    }
}

/// The trusting period that a key holds, in nanoseconds. `Fault` is `WrongType` where that is no integer,
/// else `OutOfRange` where it isn't from 1 to 2^63 - 1; `NoMemory` where the path finds no room.
#[tactic(auto, using(rb_script_toml::proofs::Steps::steps))]
pub fn read_period(field: &Field<'_>) -> Result<Period, RunError>
    ensures { Gives (λ p. p) result (number 1 max_number OutOfRange (field_view field.now)) }
{
    let number = field.number(1, Period::MAX, FaultName::OutOfRange)?;
    Ok(Period::new(number).unwrap())
}

/// The clock drift that a key holds, in nanoseconds. `Fault` is `WrongType` where that is no integer, else
/// `OutOfRange` where it isn't from 0 to 2^63 - 1; `NoMemory` where the path finds no room.
#[tactic(auto, using(rb_script_toml::proofs::Steps::steps))]
pub fn read_drift(field: &Field<'_>) -> Result<Drift, RunError>
    ensures { Gives (λ d. d) result (number 0 max_number OutOfRange (field_view field.now)) }
{
    let number = field.number(0, MAX_NUMBER, FaultName::OutOfRange)?;
    Ok(Drift::new(number))
}

/// The trusting period of the key `period_ns`, as `read_period` reads it; `None` where it isn't there.
#[tactic(auto, using(rb_script_toml::proofs::Steps::steps))]
pub fn maybe_period(section: &Section<'_>) -> Result<Option<Period>, RunError>
    ensures { Gives (λ p. p) result (maybe (number 1 max_number OutOfRange) (optional (codes "period_ns") (section_view section.now))) }
{
    match section.optional(PERIOD) {
        Some(field) => Ok(Some(read_period(&field)?)),
        None => Ok(None),
    }
}

/// The clock drift of the key `drift_ns`, as `read_drift` reads it; `None` where it isn't there.
#[tactic(auto, using(rb_script_toml::proofs::Steps::steps))]
pub fn maybe_drift(section: &Section<'_>) -> Result<Option<Drift>, RunError>
    ensures { Gives (λ d. d) result (maybe (number 0 max_number OutOfRange) (optional (codes "drift_ns") (section_view section.now))) }
{
    match section.optional(DRIFT) {
        Some(field) => Ok(Some(read_drift(&field)?)),
        None => Ok(None),
    }
}

/// The refresh age of the key `refresh_ns`, in nanoseconds, 0 being never; `None` where it isn't there. `Fault` is
/// `WrongType` where it is no integer, else `OutOfRange` where it isn't from 0 to 2^63 - 1; `NoMemory` where the path
/// finds no room.
#[tactic(auto, using(rb_script_toml::proofs::Steps::steps))]
pub fn maybe_refresh(section: &Section<'_>) -> Result<Option<u64>, RunError>
    ensures { Gives (λ n. n) result (maybe (number 0 max_number OutOfRange) (optional (codes "refresh_ns") (section_view section.now))) }
{
    match section.optional(REFRESH) {
        Some(field) => Ok(Some(field.number(0, MAX_NUMBER, FaultName::OutOfRange)?)),
        None => Ok(None),
    }
}

#[tactic(auto, using(rb_script_toml::proofs::Steps::steps))]
fn maybe_fees<'a>(section: &Section<'a>, key: &'a str) -> Result<Option<FeeTable>, RunError>
    ensures { Gives (λ t. t) result (maybe fee_table (optional key.entry.now (section_view section.now))) }
{
    match section.optional(key) {
        Some(field) => Ok(Some(field.fee_table()?)),
        None => Ok(None),
    }
}

/// The trust level of the key `trust`, or the default where it isn't there. `Fault` is `WrongType` where
/// it isn't two integers, `OutOfRange` where one of them isn't from 0 to 2^63 - 1, `BadTrust` where they
/// aren't from a third to one (CometBFT light client); `NoMemory` where the path finds no room.
#[tactic(auto, using(rb_script_toml::proofs::Steps::steps))]
pub fn trust_or(section: &Section<'_>, default: Fraction) -> Result<Fraction, RunError>
    ensures { Gives (λ t. t) result (or_default default trust (optional (codes "trust") (section_view section.now))) }
{
    match section.optional(TRUST) {
        Some(field) => field.trust(),
        None => Ok(default),
    }
}

#[tactic(auto, using(rb_script_toml::proofs::Steps::steps), unfolding(crate::specs::Chains::defaults))]
fn defaults_of(section: &Section<'_>) -> Result<Defaults, RunError>
    ensures { Gives (λ d. d) result (defaults (section_view section.now)) }
{
    only_default_keys(section)?;
    let period = maybe_period(section)?;
    let drift = maybe_drift(section)?;
    let refresh = maybe_refresh(section)?;
    let fees = maybe_fees(section, FEE)?;
    let gas = maybe_fees(section, GAS)?;
    let trust = trust_or(section, Fraction::one_third())?;
    Ok(Defaults {
        period,
        drift,
        refresh,
        fees,
        gas,
        trust,
    })
}

/// Reads the table `defaults` of a chain: any of `period_ns`, `drift_ns`, `refresh_ns`, `fee`, `gas` and
/// `trust`, each as a client has it, in this order. `Fault` is the first: it is no table (`WrongType`), it
/// has another key (`UnknownKey`), a value is refused as a client's is. `NoMemory` comes where a growth is
/// refused.
#[tactic(auto, using(rb_script_toml::proofs::Steps::steps), unfolding(crate::specs::Chains::defaults_at))]
pub fn read_defaults(field: &Field<'_>) -> Result<Defaults, RunError>
    ensures { Gives (λ d. d) result (defaults_at (field_view field.now)) }
{
    let path = child_path(field.alloc, field.place.table, field.place.key)?;
    let section = section_at(field.alloc, path.as_str(), field.value)?;
    defaults_of(&section)
}
