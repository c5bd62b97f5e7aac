//! The answer of CometBFT's `/validators`: a page of the validators at a height.
ghost use Rattle.std.specs.Prelude.{◌≡◌, []};
ghost use Rattle.serde_json.specs.View.{items_view};
ghost use Rattle.rb_import_json.specs.FieldErrors.{Reads, Gives};
ghost use Rattle.rb_import_json.specs.Fields.{object_view, each};
ghost use Rattle.rb_import_answers.specs.Validators.{key, validator, member_of, page, page_view};

use rb_base::Height;
use rb_import_json::{AnswerError, FieldError, FieldErrorName, Key, Object, Segment};
use rb_valset::{PublicKey, Validator};
use serde_json::Value;
use std::alloc::Global;

/// Validators of a height, and how many there are on all of its pages.
#[derive(Drop)]
pub struct ValidatorsPage {
    pub height: Height,
    pub total: u64,
    pub validators: Vec<Validator>,
}

/// Reads the `result` of an answer of `/validators`.
#[tactic(auto, using(rb_import_json::proofs::Steps::steps), unfolding(crate::specs::Validators::page))]
pub(crate) fn read_page(alloc: Global, answer: &Object<'_>) -> Result<ValidatorsPage, AnswerError>
    ensures { Gives (λ p. page_view p) result (page (object_view answer.now)) }
{
    let height = answer.height(Key::BlockHeight)?;
    let total = answer.number(Key::Total)?;
    let validators = read_validators(alloc, answer.items(Key::Validators)?)?;
    Ok(ValidatorsPage {
        height,
        total,
        validators,
    })
}

#[tactic(auto, using(rb_import_json::proofs::Steps::steps))]
fn read_validators(alloc: Global, items: &[Value]) -> Result<Vec<Validator>, AnswerError>
    ensures { Gives (λ v. v.items) result (each validator Segment.Validators [] (items_view items.now)) }
{
    let mut validators = Vec::with_capacity(alloc, items.len())?;
    for value in items {
        let entry = Object::element(value, Segment::Validators, validators.len());
        validators.push(read_validator(&entry)?)?;
    }
    Ok(validators)
}

#[tactic(auto, using(rb_import_json::proofs::Steps::steps), unfolding(crate::specs::Validators::validator))]
fn read_validator(entry: &Object<'_>) -> Result<Validator, FieldError>
    ensures { Reads (λ v. v) result (validator (object_view entry.now)) }
{
    let key = read_key(entry)?;
    let power = entry.number(Key::VotingPower)?;
    match validator_of(key, power) {
        Some(validator) => Ok(validator),
        None => Err(entry.flaw(Key::VotingPower, FieldErrorName::BadPower)),
    }
}

/// The validator of a key and a power.
#[tactic(auto, using(crate::proofs::Values::members), unfolding(crate::specs::Validators::member_of))]
fn validator_of(key: PublicKey, power: u64) -> Option<Validator>
    ensures { result ≡ member_of key power }
{
    Validator::new(key, power).ok()
}

/// The key, which has to be of ed25519 or secp256k1.
#[tactic(auto, using(rb_import_json::proofs::Steps::steps), unfolding(crate::specs::Validators::key))]
fn read_key(entry: &Object<'_>) -> Result<PublicKey, FieldError>
    ensures { Reads (λ k. k) result (key (object_view entry.now)) }
{
    let public = entry.inner(Key::PubKey)?;
    match public.text(Key::Type)? {
        "tendermint/PubKeyEd25519" => Ok(PublicKey::Ed25519(public.base64(Key::Value)?)),
        "tendermint/PubKeySecp256k1" => Ok(PublicKey::Secp256k1(public.base64(Key::Value)?)),
        _ => Err(public.flaw(Key::Type, FieldErrorName::ForeignKey)),
    }
}
