//! What a follower is set up with.
ghost use Rattle.std.specs.Prelude.{◌≡◌, map, IsOk, IfOk, IfErr, OnOk};
ghost use Rattle.rb_script_types.specs.declared.config.PathConfig.{PathConfig as AnyPath};
ghost use Rattle.rb_script_types.specs.Config.{config_view, IsConfig};
ghost use Rattle.rb_script_toml.specs.Faults.{Gives, Fails};
ghost use Rattle.rb_script_toml.specs.Fields.{section_view};
ghost use Rattle.rb_script_config.specs.Setups.{setup_view};
ghost use Rattle.rb_follow.specs.Setups.{setup_in, setup_of};

use rb_base::PathId;
use rb_script_config::{Setup, read_setup, read_tables};
use rb_script_toml::{FaultName, RunError, Section, read_table};
use rb_script_types::{Config, PathConfig};
use std::alloc::{AllocError, Global};

/// The setup of the whole table of a text.
#[tactic(auto, using(rb_script_toml::proofs::Steps::steps, rb_script_toml::proofs::Steps::counted), unfolding(crate::specs::Setups::setup_in))]
fn setup_at(section: Section<'_>) -> Result<(Setup, Config), RunError>
    ensures setup { Gives (λ r. setup_view r.0) result (setup_in (section_view section.entry)) }
    ensures same { IfOk result (λ r. config_view r.1 ≡ setup_view r.0) }
    ensures form { IfOk result (λ r. IsConfig (config_view r.1)) }
{
    let alloc = section.alloc;
    let tables = read_tables(section)?;
    if !tables.turns.is_empty() {
        return Err(
            section
                .place("turn")
                .fault(alloc, FaultName::TooManyObjects),
        );
    }
    let setup = read_setup(alloc, tables)?;
    let again = read_setup(alloc, tables)?;
    let config = again.into_config();
    Ok((setup, config))
}

/// Reads a setup, which is a script without turns, twice: to read turns by, and for a relayer to be set up
/// with. `Fault` is the first fault of the script, `TooManyObjects` at `turn` where it has turns; `NoMemory`
/// comes where a growth is refused.
#[tactic(auto, using(rb_script_toml::proofs::Steps::steps), unfolding(crate::specs::Setups::setup_of))]
pub(crate) fn read_setup_text(alloc: Global, bytes: &[u8]) -> Result<(Setup, Config), RunError>
    ensures setup { Gives (λ r. setup_view r.0) result (setup_of bytes.now) }
    ensures same { IfOk result (λ r. config_view r.1 ≡ setup_view r.0) }
    ensures form { IfOk result (λ r. IsConfig (config_view r.1)) }
{
    let table = read_table(alloc, bytes)?;
    setup_at(Section {
        alloc,
        path: "",
        table: &table,
    })
}

/// Whether a text is a setup: `Fault` is its first fault, `TooManyObjects` at `turn` where it has turns; `NoMemory`
/// comes where a growth is refused.
pub fn check_setup(alloc: Global, bytes: &[u8]) -> Result<(), RunError>
    ensures ok { OnOk result (IsOk (setup_of bytes.now)) }
    ensures refused { IfErr result (λ e. Fails e (setup_of bytes.now)) }
{
    let (_setup, _config) = read_setup_text(alloc, bytes)?;
    Ok(())
}

/// The identifiers of paths.
pub(crate) fn path_ids(alloc: Global, paths: &[PathConfig]) -> Result<Vec<PathId>, AllocError>
    ensures { IfOk result (λ ids. ids.items ≡ map (λ (p : AnyPath). p.id) paths.now) }
{
    let mut ids = Vec::with_capacity(alloc, paths.len())?;
    for path in paths {
        ids.push(path.id)?;
    }
    Ok(ids)
}
