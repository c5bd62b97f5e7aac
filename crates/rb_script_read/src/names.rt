//! The names that events give to validator sets.
ghost use Rattle.std.specs.Prelude.{◌≡◌, ◌<◌, OnOk, OnErr, codes, length, vec_len};
ghost use Rattle.std.specs.Str.{chars};
ghost use Rattle.rb_script_toml.specs.Faults.{Gives};
ghost use Rattle.rb_script_toml.specs.Fields.{field_view, section_view, needs};
ghost use Rattle.rb_script_read.specs.Names.{no_names, with_name, with_namings, names_of, is_set_name, new_set_name, set_reference};
ghost use Rattle.rb_script_read.specs.TurnNames.{names_now};

use crate::turn_names::TurnNames;
use hex::FromHex;
use rb_script_toml::{FaultName, Field, RunError, Section, is_identifier};
use std::alloc::{AllocError, Global};
use std::collections::BTreeMap;

/// The most characters of a set's name.
const MAX_NAME: usize = 32;

/// The hash that each name stands for, by the place of the chain.
#[derive(Drop)]
pub struct SetNames {
    pub alloc: Global,
    pub chains: Vec<BTreeMap<String, [u8; 32]>>,
}

/// That a set of a chain got a name: the chain by its place, the name, and the hash that it stands for.
#[derive(Drop)]
pub struct Naming {
    pub chain: usize,
    pub name: String,
    pub hash: [u8; 32],
}

impl SetNames {
    /// No names.
    pub fn new(alloc: Global) -> SetNames
        ensures { names_of result ≡ no_names }
    {
        SetNames {
            alloc,
            chains: Vec::new(alloc),
        }
    }

    /// The hash that a name of this chain stands for.
    pub fn hash(&self, chain: usize, name: &str) -> Option<[u8; 32]>
        ensures { result ≡ names_of self.now chain name.now }
    {
        self.chains.get(chain)?.get(name).copied()
    }

    /// Gives a hash a name of this chain.
    pub fn add(&mut self, chain: usize, name: &str, hash: [u8; 32]) -> Result<(), AllocError>
        ensures added { OnOk result (names_of self.new ≡ with_name chain name.now hash (names_of self.old)) }
        ensures unchanged { OnErr result (names_of self.new ≡ names_of self.old) }
    {
        self.grow_past(chain)?;
        let key = String::from_str(self.alloc, name)?;
        let names = &mut self.chains[chain];
        names.insert(key, hash)?;
        Ok(())
    }

    /// Gives hashes the names of these namings, in their order.
    pub fn add_all(&mut self, namings: &[Naming]) -> Result<(), AllocError>
        ensures { OnOk result (names_of self.new ≡ with_namings (names_of self.old) namings.now) }
    {
        for naming in namings {
            self.add(naming.chain, naming.name.as_str(), naming.hash)?;
        }
        Ok(())
    }

    /// Makes a place for this chain's names.
    fn grow_past(&mut self, chain: usize) -> Result<(), AllocError>
        ensures same { names_of self.new ≡ names_of self.old }
        ensures grown { OnOk result (chain < vec_len self.new.chains) }
    {
        while self.chains.len() <= chain {
            self.chains.push(BTreeMap::new(self.alloc))?;
        }
        Ok(())
    }
}

fn is_set_name(text: &str) -> bool
    ensures { result ≡ is_set_name text.now }
{
    text.len() <= MAX_NAME && is_identifier(text)
}

fn character_count(text: &str) -> usize
    ensures { result ≡ length (chars text.now) }
{
    text.chars().count()
}

#[tactic(auto, using(rb_script_toml::proofs::Steps::steps), unfolding(crate::specs::Names::new_set_name))]
fn new_set_name<'a>(
    field: &Field<'a>,
    chain: usize,
    names: &TurnNames<'_>,
) -> Result<&'a str, RunError>
    ensures { Gives (λ t. t.now) result (new_set_name (names_now names.now chain) (field_view field.now)) }
{
    let name = field.text()?;
    if !is_set_name(name) {
        return Err(field.fault(FaultName::BadIdentifier));
    }
    if names.hash(chain, name).is_some() {
        return Err(field.fault(FaultName::DuplicateSetName));
    }
    Ok(name)
}

/// The name of a set of this chain, which was not given before.
#[tactic(auto, using(rb_script_toml::proofs::Steps::steps))]
pub fn needed_set_name<'a>(
    section: &Section<'a>,
    chain: usize,
    names: &TurnNames<'_>,
) -> Result<&'a str, RunError>
    ensures { Gives (λ t. t.now) result (needs (codes "name") (new_set_name (names_now names.now chain)) (section_view section.now)) }
{
    new_set_name(&section.required("name")?, chain, names)
}

#[tactic(auto, using(rb_script_toml::proofs::Steps::steps), unfolding(crate::specs::Names::set_reference))]
fn set_reference(
    field: &Field<'_>,
    chain: usize,
    names: &TurnNames<'_>,
) -> Result<[u8; 32], RunError>
    ensures { Gives (λ h. h) result (set_reference (names_now names.now chain) (field_view field.now)) }
{
    let text = field.text()?;
    if character_count(text) > MAX_NAME {
        return match <[u8; 32] as FromHex>::from_hex(text) {
            Ok(hash) => Ok(hash),
            Err(_) => Err(field.fault(FaultName::BadHex)),
        };
    }
    if !is_identifier(text) {
        return Err(field.fault(FaultName::BadIdentifier));
    }
    match names.hash(chain, text) {
        Some(hash) => Ok(hash),
        None => Err(field.fault(FaultName::UnknownSetName)),
    }
}

/// The hash of a set of this chain, by a name that was given or by its digits.
#[tactic(auto, using(rb_script_toml::proofs::Steps::steps))]
pub fn needed_set_hash<'a>(
    section: &Section<'a>,
    key: &'a str,
    chain: usize,
    names: &TurnNames<'_>,
) -> Result<[u8; 32], RunError>
    ensures { Gives (λ h. h) result (needs key.entry.now (set_reference (names_now names.now chain)) (section_view section.now)) }
{
    set_reference(&section.required(key)?, chain, names)
}
