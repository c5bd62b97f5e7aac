//! Who sends transactions to the chains of a setup, and what is paid for them.
ghost use Rattle.std.specs.Prelude.{◌≡◌, ◌<◌, [], IfOk, codes, map, option_map, string_bytes};
ghost use Rattle.std.specs.List.{list_all};
ghost use Rattle.toml.specs.View.{view, items_view};
ghost use Rattle.rb_script_toml.specs.Faults.{Gives};
ghost use Rattle.rb_script_toml.specs.Fields.{field_view, section_view, needs, optional, or_default, at_element, elements};
ghost use Rattle.rb_import_setup.specs.Fees.{Ratio as Number};
ghost use Rattle.rb_import_setup.specs.declared.sender.UpdateField.TheVariants.{ClientMessage};
ghost use Rattle.rb_import_setup.specs.Senders.{account, coin, default_factor, has_length, is_account, is_account_byte, is_coin, is_coin_byte, is_silent, ratio, sender, sender_of, sender_view, update_field};

use crate::fee::Ratio;
use rb_script_toml::{FaultName, Field, MAX_NUMBER, RunError, Section, element_path, section_at};
use std::alloc::Global;
use toml::Value;

/// Who sends transactions to a chain: the account that signs, the coin that it pays in, what it pays for gas, how
/// many times the gas of its messages a transaction may take, and the name of the field that has a client message.
#[derive(Drop)]
pub struct Sender {
    pub signer: String,
    pub fee_denom: String,
    pub gas_price: Ratio,
    pub gas_factor: Ratio,
    pub update_field: UpdateField,
}

/// The name of the field that has a client message: ibc-go renamed it in its version 7.
#[derive(Clone, Copy, Debug, PartialEq, Eq)]
pub enum UpdateField {
    /// Of ibc-go from version 7 on.
    ClientMessage,
    /// Of versions before.
    Header,
}

/// The most characters of an account and of a coin.
const MAX_LENGTH: usize = 128;

fn is_account_byte(byte: u8) -> bool
    ensures { result ≡ is_account_byte byte }
{
    byte.is_ascii_alphanumeric()
}

/// Whether a text is an account: 1 to 128 letters and digits.
fn is_account(text: &str) -> bool
    ensures { result ≡ is_account text.now }
{
    has_length(text.as_bytes()) && are_account_bytes(text.as_bytes())
}

/// Whether there are 1 to 128 bytes.
fn has_length(bytes: &[u8]) -> bool
    ensures { result ≡ has_length bytes.now }
{
    1 <= bytes.len() && bytes.len() <= MAX_LENGTH
}

fn are_account_bytes(bytes: &[u8]) -> bool
    ensures { result ≡ list_all is_account_byte bytes.now }
{
    bytes.iter().all(|byte| is_account_byte(*byte))
}

fn is_coin_byte(byte: u8) -> bool
    ensures { result ≡ is_coin_byte byte }
{
    is_account_byte(byte) || b"/:._-".contains(&byte)
}

/// Whether a text is the name of a coin: 1 to 128 letters, digits and `/ : . _ -`.
fn is_coin(text: &str) -> bool
    ensures { result ≡ is_coin text.now }
{
    has_length(text.as_bytes()) && are_coin_bytes(text.as_bytes())
}

fn are_coin_bytes(bytes: &[u8]) -> bool
    ensures { result ≡ list_all is_coin_byte bytes.now }
{
    bytes.iter().all(|byte| is_coin_byte(*byte))
}

#[tactic(auto, using(rb_script_toml::proofs::Steps::steps), unfolding(crate::specs::Senders::account))]
fn account<'a>(field: &Field<'a>) -> Result<&'a str, RunError>
    ensures { Gives (λ t. t.now) result (account (field_view field.now)) }
{
    let text = field.text()?;
    if is_account(text) {
        Ok(text)
    } else {
        Err(field.fault(FaultName::BadIdentifier))
    }
}

#[tactic(auto, using(rb_script_toml::proofs::Steps::steps), unfolding(crate::specs::Senders::coin))]
fn coin<'a>(field: &Field<'a>) -> Result<&'a str, RunError>
    ensures { Gives (λ t. t.now) result (coin (field_view field.now)) }
{
    let text = field.text()?;
    if is_coin(text) {
        Ok(text)
    } else {
        Err(field.fault(FaultName::BadIdentifier))
    }
}

#[tactic(auto, using(rb_script_toml::proofs::Steps::steps))]
fn needed_account<'a>(section: &Section<'a>) -> Result<&'a str, RunError>
    ensures { Gives (λ t. t.now) result (needs (codes "signer") account (section_view section.now)) }
{
    account(&section.required("signer")?)
}

#[tactic(auto, using(rb_script_toml::proofs::Steps::steps))]
fn needed_coin<'a>(section: &Section<'a>) -> Result<&'a str, RunError>
    ensures { Gives (λ t. t.now) result (needs (codes "fee_denom") coin (section_view section.now)) }
{
    coin(&section.required("fee_denom")?)
}

/// A number from 0 on, as `[numerator, denominator]`.
#[tactic(auto, using(rb_script_toml::proofs::Steps::steps), unfolding(crate::specs::Senders::ratio))]
fn ratio(field: &Field<'_>) -> Result<Ratio, RunError>
    ensures { Gives (λ r. r) result (ratio (field_view field.now)) }
{
    let (numerator, denominator) = field.two_integers()?;
    let numerator = field.within(0, numerator, 0, MAX_NUMBER, FaultName::OutOfRange)?;
    let denominator = field.within(1, denominator, 1, MAX_NUMBER, FaultName::OutOfRange)?;
    Ok(Ratio::new(numerator, denominator).unwrap())
}

#[tactic(auto, using(rb_script_toml::proofs::Steps::steps))]
fn needed_price(section: &Section<'_>) -> Result<Ratio, RunError>
    ensures { Gives (λ r. r) result (needs (codes "gas_price") ratio (section_view section.now)) }
{
    ratio(&section.required("gas_price")?)
}

/// 1.2
fn default_factor() -> Ratio
    ensures { result ≡ default_factor }
{
    Ratio::new(6, 5).unwrap()
}

#[tactic(auto, using(rb_script_toml::proofs::Steps::steps))]
fn factor_or_default(section: &Section<'_>) -> Result<Ratio, RunError>
    ensures { Gives (λ r. r) result (or_default default_factor ratio (optional (codes "gas_factor") (section_view section.now))) }
{
    match section.optional("gas_factor") {
        Some(field) => ratio(&field),
        None => Ok(default_factor()),
    }
}

/// The name of the field that has a client message.
#[tactic(auto, using(rb_script_toml::proofs::Steps::steps), unfolding(crate::specs::Senders::update_field))]
fn update_field(field: &Field<'_>) -> Result<UpdateField, RunError>
    ensures { Gives (λ f. f) result (update_field (field_view field.now)) }
{
    match field.text()? {
        "client_message" => Ok(UpdateField::ClientMessage),
        "header" => Ok(UpdateField::Header),
        _ => Err(field.fault(FaultName::BadKind)),
    }
}

#[tactic(auto, using(rb_script_toml::proofs::Steps::steps))]
fn field_or_default(section: &Section<'_>) -> Result<UpdateField, RunError>
    ensures { Gives (λ f. f) result (or_default ClientMessage update_field (optional (codes "client_message") (section_view section.now))) }
{
    match section.optional("client_message") {
        Some(field) => update_field(&field),
        None => Ok(UpdateField::ClientMessage),
    }
}

/// Whether a chain's table says nothing of transactions.
fn is_silent(section: &Section<'_>) -> bool
    ensures { result ≡ is_silent (section_view section.now) }
{
    section.optional("signer").is_none()
        && section.optional("fee_denom").is_none()
        && section.optional("gas_price").is_none()
        && section.optional("gas_factor").is_none()
        && section.optional("client_message").is_none()
}

#[tactic(auto, using(rb_script_toml::proofs::Steps::steps), unfolding(crate::specs::Senders::sender))]
fn read_sender(section: &Section<'_>) -> Result<Sender, RunError>
    ensures { Gives sender_view result (sender (section_view section.now)) }
{
    let signer = needed_account(section)?;
    let denom = needed_coin(section)?;
    let gas_price = needed_price(section)?;
    let gas_factor = factor_or_default(section)?;
    let update_field = field_or_default(section)?;
    let signer = String::from_str(section.alloc, signer)?;
    let fee_denom = String::from_str(section.alloc, denom)?;
    Ok(Sender {
        signer,
        fee_denom,
        gas_price,
        gas_factor,
        update_field,
    })
}

/// The sender to a chain, none where its table says nothing of transactions; those before it don't matter.
#[tactic(auto, using(rb_script_toml::proofs::Steps::steps), unfolding(crate::specs::Senders::sender_of))]
fn sender_of(section: &Section<'_>) -> Result<Option<Sender>, RunError>
    ensures { Gives (option_map sender_view) result (sender_of [] (section_view section.now)) }
{
    if is_silent(section) {
        return Ok(None);
    }
    let sender = read_sender(section)?;
    Ok(Some(sender))
}

#[tactic(auto, using(rb_script_toml::proofs::Steps::steps), unfolding(crate::specs::Senders::sender_of))]
fn sender_at(
    alloc: Global,
    value: &Value,
    before: &[Option<Sender>],
) -> Result<Option<Sender>, RunError>
    ensures { Gives (option_map sender_view) result (at_element sender_of (codes "chain") (map (option_map sender_view) before.now) (view value.now)) }
{
    let path = element_path(alloc, "chain", before.len())?;
    let section = section_at(alloc, path.as_str(), value)?;
    sender_of(&section)
}

/// Reads who sends transactions to chains, of each chain at its place.
pub fn read_senders(alloc: Global, items: &[Value]) -> Result<Vec<Option<Sender>>, RunError>
    ensures { Gives (λ v. map (option_map sender_view) v.items) result (elements sender_of (codes "chain") [] (items_view items.now)) }
{
    let mut senders = Vec::with_capacity(alloc, items.len())?;
    for value in items {
        let sender = sender_at(alloc, value, senders.as_slice())?;
        senders.push(sender)?;
    }
    Ok(senders)
}
