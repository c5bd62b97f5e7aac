//! Sets of validators as JSON (CometBFT, `ValidatorSet`).
ghost use Rattle.std.specs.Prelude.{◌≡◌, ◌++◌, false, true, codes, map, OnOk, string_bytes};
ghost use Rattle.rb_script_text.specs.Json.{array, json_text, more_text, name_text};
ghost use Rattle.rb_messages.specs.MessageTexts.{key_json, named_key, proposer_in, set_json, set_members, total_members, validator_json, voter_members};

use crate::text::{push_bytes, push_quoted};
use rb_script_text::{push_comma, push_name, push_text};
use rb_valset::{PublicKey, Validator, ValidatorSet};
use std::alloc::AllocError;

/// Adds a member that is a set, in set order. Its proposer is the validator of an address; where the set has none of it, the first one: a
/// light client goes by no proposer, but a set has to have one.
pub(crate) fn push_set(
    text: &mut String,
    name: &str,
    set: &ValidatorSet,
    address: &[u8; 20],
) -> Result<(), AllocError>
    ensures { OnOk result (string_bytes text.new ≡ string_bytes text.old ++ (name_text true name.now ++ json_text (set_json address.now set.now))) }
{
    push_name(text, true, name)?;
    push_object(text, set, address)
}

#[tactic(auto, unfolding(crate::specs::MessageTexts::set_json))]
fn push_object(text: &mut String, set: &ValidatorSet, address: &[u8; 20]) -> Result<(), AllocError>
    ensures { OnOk result (string_bytes text.new ≡ string_bytes text.old ++ json_text (set_json address.now set.now)) }
{
    text.push_str("{")?;
    push_listed(text, set)?;
    push_members(text, proposer_in(set, address), set.total())?;
    text.push_str("}")
}

/// Adds the validators, as the first member.
fn push_listed(text: &mut String, set: &ValidatorSet) -> Result<(), AllocError>
    ensures { OnOk result (string_bytes text.new ≡ string_bytes text.old ++ (name_text false (codes "validators") ++ json_text (array (map validator_json set.now)))) }
{
    push_name(text, false, "validators")?;
    push_validators(text, set.members())
}

fn push_validators(text: &mut String, members: &[Validator]) -> Result<(), AllocError>
    ensures { OnOk result (string_bytes text.new ≡ string_bytes text.old ++ json_text (array (map validator_json members.now))) }
{
    text.push_str("[")?;
    for (place, member) in members.iter().enumerate() {
        push_comma(text, place > 0)?;
        push_validator(text, member)?;
    }
    text.push_str("]")
}

/// Adds what stands behind the validators: the proposer, if there is one, and the total power.
fn push_members(
    text: &mut String,
    proposer: Option<Validator>,
    total: u64,
) -> Result<(), AllocError>
    ensures { OnOk result (string_bytes text.new ≡ string_bytes text.old ++ more_text (set_members proposer total)) }
{
    match proposer {
        Some(member) => {
            push_name(text, true, "proposer")?;
            push_validator(text, &member)?;
            push_total(text, total)
        }
        None => push_total(text, total),
    }
}

#[tactic(auto, unfolding(crate::specs::MessageTexts::total_members))]
fn push_total(text: &mut String, total: u64) -> Result<(), AllocError>
    ensures { OnOk result (string_bytes text.new ≡ string_bytes text.old ++ more_text (total_members total)) }
{
    push_quoted(text, true, "total_voting_power", total)
}

/// The validator of an address, or the first one.
fn proposer_in(set: &ValidatorSet, address: &[u8; 20]) -> Option<Validator>
    ensures { result ≡ proposer_in set.now address.now }
{
    match set.find(address) {
        Some(member) => Some(*member),
        None => set.members().first().copied(),
    }
}

/// Adds a validator.
#[tactic(auto, unfolding(crate::specs::MessageTexts::validator_json))]
fn push_validator(text: &mut String, member: &Validator) -> Result<(), AllocError>
    ensures { OnOk result (string_bytes text.new ≡ string_bytes text.old ++ json_text (validator_json member.now)) }
{
    text.push_str("{")?;
    push_bytes(text, false, "address", member.address())?;
    push_voter(text, member)?;
    text.push_str("}")
}

/// Adds the key, the power, and the priority, which is in no hash, so it is 0.
fn push_voter(text: &mut String, member: &Validator) -> Result<(), AllocError>
    ensures { OnOk result (string_bytes text.new ≡ string_bytes text.old ++ more_text (voter_members member.now)) }
{
    push_name(text, true, "pub_key")?;
    push_key(text, member.key())?;
    push_quoted(text, true, "voting_power", member.power())?;
    push_text(text, true, "proposer_priority", "0")
}

/// Adds a key by the name of its kind (CometBFT, `crypto.PublicKey`).
fn push_key(text: &mut String, key: &PublicKey) -> Result<(), AllocError>
    ensures { OnOk result (string_bytes text.new ≡ string_bytes text.old ++ json_text (key_json key.now)) }
{
    match key {
        PublicKey::Ed25519(bytes) => push_named_key(text, "ed25519", bytes),
        PublicKey::Secp256k1(bytes) => push_named_key(text, "secp256k1", bytes),
    }
}

#[tactic(auto, unfolding(crate::specs::MessageTexts::named_key))]
fn push_named_key(text: &mut String, name: &str, key: &[u8]) -> Result<(), AllocError>
    ensures { OnOk result (string_bytes text.new ≡ string_bytes text.old ++ json_text (named_key name.now key.now)) }
{
    text.push_str("{")?;
    push_bytes(text, false, name, key)?;
    text.push_str("}")
}
