//! The versions of the format.
ghost use Rattle.std.specs.Prelude.{◌≡◌, codes};
ghost use Rattle.rb_script_toml.specs.Faults.{Gives};
ghost use Rattle.rb_script_toml.specs.Fields.{field_view, section_view, needs};
ghost use Rattle.rb_script_config.specs.Versions.{version, max_records};

use rb_book::MAX_RECORDS;
use rb_script_toml::{FaultName, Field, RunError, Section};
use rb_script_types::Version;

/// How many records a book may have: 1,024 in version 1, 4,096 from version 2 on.
pub(crate) fn max_records(version: Version) -> usize
    ensures { result ≡ max_records version }
{
    match version {
        Version::One => 1024,
        Version::Two | Version::Three | Version::Four => MAX_RECORDS,
    }
}

#[tactic(auto, using(rb_script_toml::proofs::Steps::steps), unfolding(crate::specs::Versions::version))]
fn read_version(field: &Field<'_>) -> Result<Version, RunError>
    ensures { Gives (λ v. v) result (version (field_view field.now)) }
{
    let number = field.number(1, 4, FaultName::BadVersion)?;
    if number == 1 {
        Ok(Version::One)
    } else if number == 2 {
        Ok(Version::Two)
    } else if number == 3 {
        Ok(Version::Three)
    } else {
        Ok(Version::Four)
    }
}

/// The version of a text, which the key `version` holds. `Fault` is `MissingKey` where the key isn't there,
/// `WrongType` where it holds no integer, `BadVersion` where that isn't from 1 to 4; `NoMemory` where the
/// path finds no room.
#[tactic(auto, using(rb_script_toml::proofs::Steps::steps))]
pub fn needed_version(section: &Section<'_>) -> Result<Version, RunError>
    ensures { Gives (λ v. v) result (needs (codes "version") version (section_view section.now)) }
{
    read_version(&section.required("version")?)
}
