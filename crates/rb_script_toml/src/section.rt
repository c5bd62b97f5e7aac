//! A table, and the look-up of its keys.
ghost use Rattle.std.specs.Prelude.{◌≡◌, ◌≤◌, false, IfOk, map, option_map, string_bytes};
ghost use Rattle.std.specs.List.{list_any};
ghost use Rattle.std.specs.Str.{bytes_eq};
ghost use Rattle.toml.specs.Data.{get_member};
ghost use Rattle.toml.specs.View.{view, items_view, table_view};
ghost use Rattle.rb_script_toml.specs.Faults.{Gives, IsFault};
ghost use Rattle.rb_script_toml.specs.KeyPaths.{child};
ghost use Rattle.rb_script_toml.specs.Fields.{unknown_key, section_at, section_view};

use crate::fault::{Fault, FaultName, RunError};
use crate::field::Field;
use crate::key_path::{KeyPath, shown_key};
use rb_base::{FeeTable, Height, Moment};
use std::alloc::Global;
use toml::{Table, Value};

/// A table, and its path, which is empty for the whole text.
#[derive(Clone, Copy)]
pub struct Section<'a> {
    pub alloc: Global,
    pub path: &'a str,
    pub table: &'a Table,
}

impl<'a> Section<'a> {
    ghost use Rattle.toml.specs.Data.{no_items};
    ghost use Rattle.rb_script_toml.specs.KeyPaths.{place_path};
    ghost use Rattle.rb_script_toml.specs.Fields.{field_view, only, optional, required, needs, or_default, maybe, flag, number, height, fee_table, time, hash, zero_hash, array, items};

    /// The place of a key of this table.
    pub fn place(&self, key: &'a str) -> KeyPath<'a>
        ensures { place_path result ≡ child self.now.path.now key.entry.now }
    {
        KeyPath {
            table: self.path,
            key,
        }
    }

    /// The fault of this name at this table.
    pub fn fault(&self, name: FaultName) -> RunError
        ensures { IsFault result name self.now.path.now }
    {
        fault_at(self.alloc, self.path, name)
    }

    /// Refuses the first key, in the order of its bytes, that is none of these.
    #[tactic(auto, using(crate::proofs::Steps::steps), unfolding(crate::specs::Fields::only))]
    pub fn only(&self, keys: &[&str]) -> Result<(), RunError>
        ensures { Gives (λ u. u) result (only (map (λ k. k.now) keys.now) (section_view self.now)) }
    {
        let Some(key) = unknown_key(self.table, keys) else {
            return Ok(());
        };
        let key = shown_key(self.alloc, key.as_str())?;
        let place = KeyPath {
            table: self.path,
            key: key.as_str(),
        };
        Err(place.fault(self.alloc, FaultName::UnknownKey))
    }

    /// What a key holds, if it is there.
    #[tactic(auto, unfolding(crate::specs::Fields::optional))]
    pub fn optional(&self, key: &'a str) -> Option<Field<'a>>
        ensures { option_map field_view result ≡ optional key.entry.now (section_view self.now) }
    {
        let value = value_at(self.table, key)?;
        Some(Field {
            alloc: self.alloc,
            place: self.place(key),
            value,
        })
    }

    /// What a key holds, which has to be there.
    #[tactic(auto, using(crate::proofs::Steps::steps), unfolding(crate::specs::Fields::required))]
    pub fn required(&self, key: &'a str) -> Result<Field<'a>, RunError>
        ensures { Gives field_view result (required key.entry.now (section_view self.now)) }
    {
        match self.optional(key) {
            Some(field) => Ok(field),
            None => Err(self.place(key).fault(self.alloc, FaultName::MissingKey)),
        }
    }

    /// A number from `low` to `high`; outside of them the fault of this name.
    #[tactic(auto, using(crate::proofs::Steps::steps))]
    pub fn number(
        &self,
        key: &'a str,
        low: u64,
        high: u64,
        name: FaultName,
    ) -> Result<u64, RunError>
        ensures read { Gives (λ n. n) result (needs key.entry.now (number low high name) (section_view self.now)) }
        ensures range { IfOk result (λ n. (low ≤ n) × (n ≤ high)) }
    {
        self.required(key)?.number(low, high, name)
    }

    /// A number from `low` to `high`, or the default where the key isn't there.
    #[tactic(auto, using(crate::proofs::Steps::steps))]
    pub fn number_or(
        &self,
        key: &'a str,
        default: u64,
        low: u64,
        high: u64,
    ) -> Result<u64, RunError>
        ensures { Gives (λ n. n) result (or_default default (number low high FaultName.OutOfRange) (optional key.entry.now (section_view self.now))) }
    {
        match self.optional(key) {
            Some(field) => field.number(low, high, FaultName::OutOfRange),
            None => Ok(default),
        }
    }

    /// Whether a key holds `true`, or not where it isn't there.
    #[tactic(auto, using(crate::proofs::Steps::steps))]
    pub fn flag(&self, key: &'a str) -> Result<bool, RunError>
        ensures { Gives (λ b. b) result (or_default false flag (optional key.entry.now (section_view self.now))) }
    {
        match self.optional(key) {
            Some(field) => field.flag(),
            None => Ok(false),
        }
    }

    /// A height, which has to be there.
    #[tactic(auto, using(crate::proofs::Steps::steps))]
    pub fn height(&self, key: &'a str) -> Result<Height, RunError>
        ensures { Gives (λ h. h) result (needs key.entry.now height (section_view self.now)) }
    {
        self.required(key)?.height()
    }

    /// A time, which has to be there.
    #[tactic(auto, using(crate::proofs::Steps::steps))]
    pub fn time(&self, key: &'a str) -> Result<Moment, RunError>
        ensures { Gives (λ n. n) result (needs key.entry.now time (section_view self.now)) }
    {
        self.required(key)?.time()
    }

    /// A hash, or that of zeros alone where the key isn't there.
    #[tactic(auto, using(crate::proofs::Steps::steps))]
    pub fn hash_or_zero(&self, key: &'a str) -> Result<[u8; 32], RunError>
        ensures { Gives (λ h. h) result (or_default zero_hash hash (optional key.entry.now (section_view self.now))) }
    {
        match self.optional(key) {
            Some(field) => field.hash(),
            None => Ok([0; 32]),
        }
    }

    /// A height, if it is there.
    #[tactic(auto, using(crate::proofs::Steps::steps))]
    pub fn maybe_height(&self, key: &'a str) -> Result<Option<Height>, RunError>
        ensures { Gives (λ h. h) result (maybe height (optional key.entry.now (section_view self.now))) }
    {
        match self.optional(key) {
            Some(field) => Ok(Some(field.height()?)),
            None => Ok(None),
        }
    }

    /// A table of fees or gas, which has to be there.
    #[tactic(auto, using(crate::proofs::Steps::steps))]
    pub fn fee_table(&self, key: &'a str) -> Result<FeeTable, RunError>
        ensures { Gives (λ t. t) result (needs key.entry.now fee_table (section_view self.now)) }
    {
        self.required(key)?.fee_table()
    }

    /// The elements of an array, none where the key isn't there.
    #[tactic(auto, using(crate::proofs::Steps::steps))]
    pub fn items(&self, key: &'a str) -> Result<&'a [Value], RunError>
        ensures { Gives (λ vs. items_view vs.now) result (or_default no_items items (optional key.entry.now (section_view self.now))) }
    {
        match self.optional(key) {
            Some(field) => field.items(),
            None => Ok(&[]),
        }
    }

    /// The elements of an array, at most as many, none where the key isn't there.
    #[tactic(auto, using(crate::proofs::Steps::steps))]
    pub fn array(&self, key: &'a str, most: usize) -> Result<&'a [Value], RunError>
        ensures { Gives (λ vs. items_view vs.now) result (or_default no_items (array most) (optional key.entry.now (section_view self.now))) }
    {
        match self.optional(key) {
            Some(field) => field.array(most),
            None => Ok(&[]),
        }
    }
}

/// The table that an element of an array is.
#[tactic(auto, using(crate::proofs::Steps::steps), unfolding(crate::specs::Fields::section_at))]
pub fn section_at<'a>(
    alloc: Global,
    path: &'a str,
    value: &'a Value,
) -> Result<Section<'a>, RunError>
    ensures { Gives section_view result (section_at path.entry.now (view value.entry.now)) }
{
    match value.as_table() {
        Some(table) => Ok(Section { alloc, path, table }),
        None => Err(wrong_type_at(alloc, path, value.type_str())),
    }
}

/// The fault that a value of this type stands at a path where one of another type belongs.
fn wrong_type_at(alloc: Global, path: &str, found: &'static str) -> RunError
    ensures { IsFault result FaultName.WrongType path.now }
{
    match String::from_str(alloc, path) {
        Ok(path) => RunError::Fault(Fault::wrong_type(path, found)),
        Err(_) => RunError::NoMemory,
    }
}

/// The fault of this name at a path.
pub fn fault_at(alloc: Global, path: &str, name: FaultName) -> RunError
    ensures { IsFault result name path.now }
{
    match String::from_str(alloc, path) {
        Ok(path) => RunError::Fault(Fault::new(name, path)),
        Err(_) => RunError::NoMemory,
    }
}

fn value_at<'a>(table: &'a Table, key: &str) -> Option<&'a Value>
    ensures { option_map (λ v. view v.now) result ≡ get_member key.now (table_view table.entry.now) }
{
    table.get(key)
}

fn unknown_key<'a>(table: &'a Table, keys: &[&str]) -> Option<&'a String>
    ensures { option_map (λ k. string_bytes k.now) result ≡ unknown_key (map (λ k. k.now) keys.now) (table_view table.entry.now) }
{
    table.keys().find(|key| !is_among(key.as_str(), keys))
}

fn is_among(key: &str, keys: &[&str]) -> bool
    ensures { result ≡ list_any (λ known. bytes_eq known key.now) (map (λ k. k.now) keys.now) }
{
    keys.iter().any(|known| *known == key)
}
