//! The settlements of a turn.
ghost use Rattle.std.specs.Prelude.{◌≡◌, [], map};
ghost use Rattle.toml.specs.View.{view, items_view};
ghost use Rattle.rb_script_toml.specs.Faults.{Gives};
ghost use Rattle.rb_script_toml.specs.Fields.{section_view, only, at_element, elements};
ghost use Rattle.rb_script_config.specs.Goals.{settlement, settlement_keys};

use crate::directory::Directory;
use crate::named::{Named, reference};
use rb_script_toml::{FaultName, MAX_NUMBER, RunError, Section, element_path, section_at};
use rb_script_types::Settlement;
use std::alloc::Global;
use toml::Value;

fn only_settlement_keys(section: &Section<'_>) -> Result<(), RunError>
    ensures { Gives (λ u. u) result (only settlement_keys (section_view section.now)) }
{
    section.only(&["client", "batch", "done"])
}

#[tactic(auto, using(rb_script_toml::proofs::Steps::steps), unfolding(crate::specs::Goals::settlement))]
fn read_settlement<T: Named>(
    section: &Section<'_>,
    clients: &Directory<T>,
    before: &[Settlement],
) -> Result<Settlement, RunError>
    ensures { Gives (λ x. x) result (settlement (map T.name clients.now) before.now (section_view section.now)) }
{
    only_settlement_keys(section)?;
    let client = reference(section, "client", clients)?;
    let batch = section.number("batch", 1, MAX_NUMBER, FaultName::OutOfRange)?;
    let done = section.number("done", 0, MAX_NUMBER, FaultName::OutOfRange)?;
    Ok(Settlement {
        client,
        batch,
        done,
    })
}

#[tactic(auto, using(rb_script_toml::proofs::Steps::steps))]
fn read_settlement_at<T: Named>(
    alloc: Global,
    path: &str,
    value: &Value,
    clients: &Directory<T>,
    before: &[Settlement],
) -> Result<Settlement, RunError>
    ensures { Gives (λ x. x) result (at_element (settlement (map T.name clients.now)) path.now before.now (view value.now)) }
{
    let path = element_path(alloc, path, before.len())?;
    let section = section_at(alloc, path.as_str(), value)?;
    read_settlement(&section, clients, before)
}

/// Reads the tables of an array of settlements, whose path this is, in their order: `client`, the
/// identifier of one of these, `batch`, from 1, and `done`, from 0 to 2^63 - 1. `Fault` is the first of
/// the first table that is refused: no table (`WrongType`), another key (`UnknownKey`), then of its keys
/// in this order that it is missing, has another type or range, or names no client. `NoMemory` comes
/// where a growth is refused.
pub fn read_settlements<T: Named>(
    alloc: Global,
    path: &str,
    items: &[Value],
    clients: &Directory<T>,
) -> Result<Vec<Settlement>, RunError>
    ensures { Gives (λ v. v.items) result (elements (settlement (map T.name clients.now)) path.now [] (items_view items.now)) }
{
    let mut settlements = Vec::with_capacity(alloc, items.len())?;
    for value in items {
        let settlement = read_settlement_at(alloc, path, value, clients, settlements.as_slice())?;
        settlements.push(settlement)?;
    }
    Ok(settlements)
}
