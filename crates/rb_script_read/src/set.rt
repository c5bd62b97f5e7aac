//! The validators of a set that was seen.
ghost use Rattle.std.specs.Prelude.{◌≡◌, [], codes, map};
ghost use Rattle.toml.specs.View.{view, items_view};
ghost use Rattle.rb_script_toml.specs.Faults.{Gives};
ghost use Rattle.rb_script_toml.specs.KeyPaths.{element};
ghost use Rattle.rb_script_toml.specs.Fields.{field_view, section_view, needs};
ghost use Rattle.rb_script_read.specs.Sets.{key_of, member_of, validator, validators, validators_after, with_powers, set_of};

use hex::FromHex;
use rb_script_toml::{FaultName, Field, RunError, Section};
use rb_valset::{Known, PublicKey, Validator, ValidatorSet, ValsetError};
use toml::Value;

/// A validator as it is given, of whatever power.
#[derive(Clone, Copy)]
pub struct GivenValidator {
    pub key: PublicKey,
    pub power: u64,
}

/// The key that 64 digits of ed25519 or 66 of secp256k1 write.
#[tactic(auto, unfolding(crate::specs::Sets::key_of))]
fn key_of(digits: &str) -> Option<PublicKey>
    ensures { result ≡ key_of digits.now }
{
    if digits.len() == 66 {
        match <[u8; 33] as FromHex>::from_hex(digits) {
            Ok(bytes) => Some(PublicKey::Secp256k1(bytes)),
            Err(_) => None,
        }
    } else {
        match <[u8; 32] as FromHex>::from_hex(digits) {
            Ok(bytes) => Some(PublicKey::Ed25519(bytes)),
            Err(_) => None,
        }
    }
}

#[tactic(auto, using(rb_script_toml::proofs::Steps::steps), unfolding(crate::specs::Sets::validator))]
fn validator_at(field: &Field<'_>, index: usize, value: &Value) -> Result<GivenValidator, RunError>
    ensures { Gives member_of result (validator (element (field_view field.now).path index) (view value.now)) }
{
    let Some(array) = value.as_array() else {
        return Err(field.fault_at(&[index], FaultName::WrongType));
    };
    let [key, power] = array.as_slice() else {
        return Err(field.fault_at(&[index], FaultName::WrongType));
    };
    let Some(digits) = key.as_str() else {
        return Err(field.fault_at(&[index, 0], FaultName::WrongType));
    };
    let Some(key) = key_of(digits) else {
        return Err(field.fault_at(&[index, 0], FaultName::BadHex));
    };
    let Some(power) = power.as_integer() else {
        return Err(field.fault_at(&[index, 1], FaultName::WrongType));
    };
    match u64::try_from(power) {
        Ok(power) => Ok(GivenValidator { key, power }),
        Err(_) => Err(field.fault_at(&[index, 1], FaultName::OutOfRange)),
    }
}

fn validators_of(field: &Field<'_>, items: &[Value]) -> Result<Vec<GivenValidator>, RunError>
    ensures { Gives (λ v. map member_of v.items) result (validators_after (field_view field.now).path [] (items_view items.now)) }
{
    let mut validators = Vec::with_capacity(field.alloc, items.len())?;
    for value in items {
        let validator = validator_at(field, validators.len(), value)?;
        validators.push(validator)?;
    }
    Ok(validators)
}

/// The validators, if each has a power that is allowed.
fn members_of(
    field: &Field<'_>,
    given: &[GivenValidator],
    known: &mut Known,
) -> Result<Vec<Validator>, RunError>
    ensures { Gives (λ v. v.items) result (with_powers (field_view field.now).path (map member_of given.now)) }
{
    let mut members = Vec::with_capacity(field.alloc, given.len())?;
    known.make_room(field.alloc, given.len())?;
    for validator in given {
        match known.validator(validator.key, validator.power) {
            Ok(member) => members.push(member)?,
            Err(_) => return Err(field.fault(FaultName::BadSet)),
        }
    }
    Ok(members)
}

/// The set of these validators.
#[tactic(auto, using(rb_script_toml::proofs::Steps::steps), unfolding(crate::specs::Sets::set_of))]
fn set_of(
    field: &Field<'_>,
    given: &[GivenValidator],
    known: &mut Known,
) -> Result<ValidatorSet, RunError>
    ensures { Gives (λ s. s) result (set_of (field_view field.now).path (map member_of given.now)) }
{
    let members = members_of(field, given, &mut *known)?;
    match ValidatorSet::new_by(field.alloc, members, known) {
        Ok(set) => Ok(set),
        Err(ValsetError::NoMemory) => Err(RunError::NoMemory),
        Err(_) => Err(field.fault(FaultName::BadSet)),
    }
}

#[tactic(auto, using(rb_script_toml::proofs::Steps::steps), unfolding(crate::specs::Sets::validators))]
fn validators(field: &Field<'_>, known: &mut Known) -> Result<ValidatorSet, RunError>
    ensures { Gives (λ s. s) result (validators (field_view field.now)) }
{
    let given = validators_of(field, field.items()?)?;
    set_of(field, given.as_slice(), known)
}

/// The set of the validators that a table lists, some of which may be known.
#[tactic(auto, using(rb_script_toml::proofs::Steps::steps))]
pub fn needed_validators(section: &Section<'_>, known: &mut Known) -> Result<ValidatorSet, RunError>
    ensures { Gives (λ s. s) result (needs (codes "validators") validators (section_view section.now)) }
{
    validators(&section.required("validators")?, known)
}
