//! A transaction that isn't signed (Cosmos SDK, `Tx`).
ghost use Rattle.std.specs.Prelude.{◌≡◌, ◌++◌, IfOk, OnOk, map, string_bytes};
ghost use Rattle.std.specs.List.{enumerate_from, flat_map};
ghost use Rattle.rb_messages.specs.Texts.{amount_text, body_text, denom_text, fee_text, fee_view, gas_text, listed_text, transaction_text};

use std::alloc::{AllocError, Global};

/// What a transaction pays: an amount of a coin, and the most gas that it takes.
#[derive(Clone, Copy, Debug)]
pub(crate) struct Fee<'a> {
    pub denom: &'a str,
    pub amount: u128,
    pub gas_limit: u64,
}

/// The transaction of these messages, each of which is JSON. The coin has no character that JSON escapes.
#[tactic(auto, using(crate::proofs::Added::added), unfolding(crate::specs::Texts::transaction_text))]
pub(crate) fn transaction_text(
    alloc: Global,
    messages: &[String],
    fee: &Fee,
) -> Result<String, AllocError>
    ensures { IfOk result (λ text. string_bytes text ≡ transaction_text (map string_bytes messages.now) (fee_view fee.now)) }
{
    let mut text = String::new(alloc);
    push_body(&mut text, messages)?;
    push_fee(&mut text, fee)?;
    text.push_str("}}, \"signatures\": []}\n")?;
    Ok(text)
}

/// Adds the messages.
#[tactic(auto, using(crate::proofs::Added::added), unfolding(crate::specs::Texts::body_text))]
fn push_body(text: &mut String, messages: &[String]) -> Result<(), AllocError>
    ensures { OnOk result (string_bytes text.new ≡ string_bytes text.old ++ body_text (map string_bytes messages.now)) }
{
    text.push_str("{\"body\": {\"messages\": [")?;
    push_messages(text, messages)?;
    text.push_str(
        "], \"memo\": \"\", \"timeout_height\": \"0\", \"extension_options\": [], \"non_critical_extension_options\": []}",
    )
}

/// Adds messages, a comma between two.
fn push_messages(text: &mut String, messages: &[String]) -> Result<(), AllocError>
    ensures { OnOk result (string_bytes text.new ≡ string_bytes text.old ++ flat_map listed_text (enumerate_from 0 (map string_bytes messages.now))) }
{
    for (place, message) in messages.iter().enumerate() {
        push_listed(text, place, message.as_str())?;
    }
    Ok(())
}

/// Adds the message at a place.
#[tactic(auto, using(crate::proofs::Added::added))]
fn push_listed(text: &mut String, place: usize, message: &str) -> Result<(), AllocError>
    ensures { OnOk result (string_bytes text.new ≡ string_bytes text.old ++ listed_text (place, message.now)) }
{
    if place > 0 {
        text.push_str(", ")?;
    }
    text.push_str(message)
}

/// Adds what the transaction pays.
#[tactic(auto, using(crate::proofs::Added::added), unfolding(crate::specs::Texts::fee_text))]
fn push_fee(text: &mut String, fee: &Fee) -> Result<(), AllocError>
    ensures { OnOk result (string_bytes text.new ≡ string_bytes text.old ++ fee_text (fee_view fee.now)) }
{
    push_denom(text, fee.denom)?;
    push_amount(text, fee.amount)?;
    push_gas(text, fee.gas_limit)
}

fn push_denom(text: &mut String, denom: &str) -> Result<(), AllocError>
    ensures { OnOk result (string_bytes text.new ≡ string_bytes text.old ++ denom_text denom.now) }
{
    write!(
        text,
        ", \"auth_info\": {{\"signer_infos\": [], \"fee\": {{\"amount\": [{{\"denom\": \"{denom}\", "
    )
}

fn push_amount(text: &mut String, amount: u128) -> Result<(), AllocError>
    ensures { OnOk result (string_bytes text.new ≡ string_bytes text.old ++ amount_text amount) }
{
    write!(text, "\"amount\": \"{amount}\"}}], ")
}

fn push_gas(text: &mut String, gas_limit: u64) -> Result<(), AllocError>
    ensures { OnOk result (string_bytes text.new ≡ string_bytes text.old ++ gas_text gas_limit) }
{
    write!(
        text,
        "\"gas_limit\": \"{gas_limit}\", \"payer\": \"\", \"granter\": \"\""
    )
}
