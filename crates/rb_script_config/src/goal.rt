//! The goals of a turn.
ghost use Rattle.std.specs.Prelude.{◌≡◌, [], map};
ghost use Rattle.toml.specs.View.{view, items_view};
ghost use Rattle.rb_script_toml.specs.Faults.{Gives};
ghost use Rattle.rb_script_toml.specs.Fields.{section_view, only, at_element, elements};
ghost use Rattle.rb_script_config.specs.Goals.{asked, goal_keys, is_asked};

use crate::directory::Directory;
use crate::named::{Named, reference};
use rb_script_toml::{FaultName, RunError, Section, element_path, section_at};
use rb_script_types::{Asked, Goal};
use std::alloc::Global;
use toml::Value;

fn only_goal_keys(section: &Section<'_>) -> Result<(), RunError>
    ensures { Gives (λ u. u) result (only goal_keys (section_view section.now)) }
{
    section.only(&["client", "at_least", "exactly"])
}

fn is_asked(client: usize, before: &[Asked]) -> bool
    ensures { result ≡ is_asked client before.now }
{
    before.iter().any(|asked| asked.client == client)
}

#[tactic(auto, using(rb_script_toml::proofs::Steps::steps), unfolding(crate::specs::Goals::asked))]
fn read_goal<T: Named>(
    section: &Section<'_>,
    clients: &Directory<T>,
    before: &[Asked],
) -> Result<Asked, RunError>
    ensures { Gives (λ g. g) result (asked (map T.name clients.now) before.now (section_view section.now)) }
{
    only_goal_keys(section)?;
    let client = reference(section, "client", clients)?;
    let least = section.maybe_height("at_least")?;
    let exact = section.maybe_height("exactly")?;
    let goal = match (least, exact) {
        (Some(height), None) => Goal::AtLeast(height),
        (None, Some(height)) => Goal::Exactly(height),
        _ => return Err(section.fault(FaultName::TwoGoals)),
    };
    if is_asked(client, before) {
        return Err(section.fault(FaultName::TwoGoals));
    }
    Ok(Asked { client, goal })
}

#[tactic(auto, using(rb_script_toml::proofs::Steps::steps))]
fn read_goal_at<T: Named>(
    alloc: Global,
    path: &str,
    value: &Value,
    clients: &Directory<T>,
    before: &[Asked],
) -> Result<Asked, RunError>
    ensures { Gives (λ g. g) result (at_element (asked (map T.name clients.now)) path.now before.now (view value.now)) }
{
    let path = element_path(alloc, path, before.len())?;
    let section = section_at(alloc, path.as_str(), value)?;
    read_goal(&section, clients, before)
}

/// Reads the tables of an array of goals, whose path this is, in their order: `client`, the identifier of
/// one of these, and one of `at_least` and `exactly`, a height from 1 to 2^63 - 1. `Fault` is the first of
/// the first table that is refused: no table (`WrongType`), another key (`UnknownKey`), a client that is
/// missing, ill formed or unknown, a height of another type or range, both heights or none, or an earlier
/// goal for the client (`TwoGoals`). `NoMemory` comes where a growth is refused.
pub fn read_goals<T: Named>(
    alloc: Global,
    path: &str,
    items: &[Value],
    clients: &Directory<T>,
) -> Result<Vec<Asked>, RunError>
    ensures { Gives (λ v. v.items) result (elements (asked (map T.name clients.now)) path.now [] (items_view items.now)) }
{
    let mut goals = Vec::new(alloc);
    for value in items {
        let goal = read_goal_at(alloc, path, value, clients, goals.as_slice())?;
        goals.push(goal)?;
    }
    Ok(goals)
}
