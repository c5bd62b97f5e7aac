//! Identifiers of the tables of an array, and references to them.
ghost use Rattle.std.specs.Prelude.{◌≡◌, ◌<◌, ℕ, List, IfOk, IfSome, codes, length, map};
ghost use Rattle.std.specs.List.{position};
ghost use Rattle.std.specs.Str.{bytes_eq};
ghost use Rattle.rb_base.specs.Identifier.{IsIdentifier};
ghost use Rattle.rb_script_toml.specs.Faults.{Gives};
ghost use Rattle.rb_script_toml.specs.Fields.{field_view, section_view, needs};
ghost use Rattle.rb_script_config.specs.Named.{reference, new_identifier};

use crate::directory::Directory;
use rb_base::ChainId;
use rb_script_toml::{FaultName, Field, RunError, Section};
use rb_script_types::{ClientConfig, PathConfig};

/// What has an identifier (ICS 24): a chain, a client and a path of a script.
pub trait Named: Drop {
    /// The characters of the identifier.
    ghost name: { Self → List ℕ };

    fn id(&self) -> &str
        ensures { result.now ≡ name self.now };
}

impl Named for ChainId {
    ghost name = { λ id. id };

    fn id(&self) -> &str {
        self.as_str()
    }
}

impl Named for ClientConfig {
    ghost name = { λ c. c.id };

    fn id(&self) -> &str {
        self.id.as_str()
    }
}

impl Named for PathConfig {
    ghost name = { λ p. p.id };

    fn id(&self) -> &str {
        self.id.as_str()
    }
}

/// A client of a script or of a setup.
pub trait Client: Named {
    /// The place of the chain that hosts it, and of the one that it tracks.
    ghost ends: { Self → ℕ × ℕ };

    fn host(&self) -> usize
        ensures { result ≡ (ends self.now).0 };

    fn tracks(&self) -> usize
        ensures { result ≡ (ends self.now).1 };
}

impl Client for ClientConfig {
    ghost ends = { λ c. (c.host, c.tracks) };

    fn host(&self) -> usize {
        self.host
    }

    fn tracks(&self) -> usize {
        self.tracks
    }
}

/// The place of the object that a key names by its identifier. `Fault` is `MissingKey` where the key isn't
/// there, then `WrongType` where it holds no text, `BadIdentifier` where that is ill formed (ICS 24),
/// `UnknownIdentifier` where no object has it; `NoMemory` where the path finds no room.
#[tactic(auto, using(rb_script_toml::proofs::Steps::steps))]
pub fn reference<'a, T: Named>(
    section: &Section<'a>,
    key: &'a str,
    objects: &Directory<T>,
) -> Result<usize, RunError>
    ensures read { Gives (λ i. i) result (needs key.entry.now (reference (map T.name objects.now)) (section_view section.now)) }
    ensures range { IfOk result (λ i. i < length objects.now) }
{
    place_named(&section.required(key)?, objects)
}

#[tactic(auto, using(rb_script_toml::proofs::Steps::steps), unfolding(crate::specs::Named::reference))]
fn place_named<T: Named>(field: &Field<'_>, objects: &Directory<T>) -> Result<usize, RunError>
    ensures read { Gives (λ i. i) result (reference (map T.name objects.now) (field_view field.now)) }
    ensures range { IfOk result (λ i. i < length objects.now) }
{
    match objects.place_of(field.identifier()?) {
        Some(place) => Ok(place),
        None => Err(field.fault(FaultName::UnknownIdentifier)),
    }
}

/// The identifier of a new object, which the key `id` holds. `Fault` is `MissingKey` where the key isn't
/// there, then `WrongType` where it holds no text, `BadIdentifier` where that is ill formed (ICS 24),
/// `DuplicateIdentifier` where one of these objects has it; `NoMemory` where the path finds no room.
#[tactic(auto, using(rb_script_toml::proofs::Steps::steps))]
pub fn new_identifier<'a, T: Named>(
    section: &Section<'a>,
    objects: &Directory<T>,
) -> Result<&'a str, RunError>
    ensures read { Gives (λ t. t.now) result (needs (codes "id") (new_identifier (map T.name objects.now)) (section_view section.now)) }
    ensures form { IfOk result (λ t. IsIdentifier t.now) }
{
    unused_identifier(&section.required("id")?, objects)
}

#[tactic(auto, using(rb_script_toml::proofs::Steps::steps), unfolding(crate::specs::Named::new_identifier))]
fn unused_identifier<'a, T: Named>(
    field: &Field<'a>,
    objects: &Directory<T>,
) -> Result<&'a str, RunError>
    ensures read { Gives (λ t. t.now) result (new_identifier (map T.name objects.now) (field_view field.now)) }
    ensures form { IfOk result (λ t. IsIdentifier t.now) }
{
    let id = field.identifier()?;
    if objects.place_of(id).is_some() {
        return Err(field.fault(FaultName::DuplicateIdentifier));
    }
    Ok(id)
}

/// The place of the first of these objects that has this identifier, or none where none has it.
pub fn place_of<T: Named>(id: &str, objects: &[T]) -> Option<usize>
    ensures place { result ≡ position (bytes_eq id.now) (map T.name objects.now) }
    ensures range { IfSome result (λ i. i < length objects.now) }
{
    objects.iter().position(|object| id == object.id())
}
