//! The windows of hosts in a turn.
ghost use Rattle.std.specs.Prelude.{◌≡◌, [], map};
ghost use Rattle.toml.specs.View.{view, items_view};
ghost use Rattle.rb_script_toml.specs.Faults.{Gives};
ghost use Rattle.rb_script_toml.specs.Fields.{section_view, only, at_element, elements};
ghost use Rattle.rb_script_config.specs.HostWindows.{host_window, window_keys, has_window};

use crate::directory::Directory;
use crate::named::{Named, reference};
use rb_base::Window;
use rb_script_toml::{FaultName, RunError, Section, element_path, section_at};
use rb_script_types::HostWindow;
use std::alloc::Global;
use toml::Value;

fn only_window_keys(section: &Section<'_>) -> Result<(), RunError>
    ensures { Gives (λ u. u) result (only window_keys (section_view section.now)) }
{
    section.only(&["host", "from", "until"])
}

fn has_window(host: usize, before: &[HostWindow]) -> bool
    ensures { result ≡ has_window host before.now }
{
    before.iter().any(|window| window.host == host)
}

#[tactic(auto, using(rb_script_toml::proofs::Steps::steps), unfolding(crate::specs::HostWindows::host_window))]
fn read_window<T: Named>(
    section: &Section<'_>,
    chains: &Directory<T>,
    before: &[HostWindow],
) -> Result<HostWindow, RunError>
    ensures { Gives (λ w. w) result (host_window (map T.name chains.now) before.now (section_view section.now)) }
{
    only_window_keys(section)?;
    let host = reference(section, "host", chains)?;
    let from = section.time("from")?;
    let until = section.time("until")?;
    if has_window(host, before) {
        return Err(section.fault(FaultName::DuplicateIdentifier));
    }
    match Window::new(from, until) {
        Ok(window) => Ok(HostWindow { host, window }),
        Err(_) => Err(section.fault(FaultName::BadWindow)),
    }
}

#[tactic(auto, using(rb_script_toml::proofs::Steps::steps))]
fn read_window_at<T: Named>(
    alloc: Global,
    path: &str,
    value: &Value,
    chains: &Directory<T>,
    before: &[HostWindow],
) -> Result<HostWindow, RunError>
    ensures { Gives (λ w. w) result (at_element (host_window (map T.name chains.now)) path.now before.now (view value.now)) }
{
    let path = element_path(alloc, path, before.len())?;
    let section = section_at(alloc, path.as_str(), value)?;
    read_window(&section, chains, before)
}

/// Reads the tables of an array of windows, whose path this is, in their order: `host`, the identifier of one of
/// these chains, `from` and `until`, times. `Fault` is the first of the first table that is refused: no table
/// (`WrongType`), another key (`UnknownKey`), a host that is missing, ill formed or unknown, a time that is missing or
/// none (`BadTime`), an earlier window of the host (`DuplicateIdentifier`), or one that ends before it begins
/// (`BadWindow`). `NoMemory` comes where a growth is refused.
pub fn read_windows<T: Named>(
    alloc: Global,
    path: &str,
    items: &[Value],
    chains: &Directory<T>,
) -> Result<Vec<HostWindow>, RunError>
    ensures { Gives (λ v. v.items) result (elements (host_window (map T.name chains.now)) path.now [] (items_view items.now)) }
{
    let mut windows = Vec::new(alloc);
    for value in items {
        let window = read_window_at(alloc, path, value, chains, windows.as_slice())?;
        windows.push(window)?;
    }
    Ok(windows)
}
