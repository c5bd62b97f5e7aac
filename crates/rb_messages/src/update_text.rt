//! The message of an update as JSON (ICS 2; ibc-go, `MsgUpdateClient`).
ghost use Rattle.std.specs.Prelude.{◌≡◌, ◌++◌, IfOk, OnOk, string_bytes};
ghost use Rattle.rb_messages.specs.Texts.{client_text, field_name, field_text, signer_text, update_message_text};

use rb_import_setup::UpdateField;
use rb_script_text::{push_name, push_text};
use std::alloc::{AllocError, Global};

/// A message that updates a client on its host by a client message, which is JSON, and that an account signs. The
/// identifier and the account have no character that JSON escapes.
#[tactic(auto, using(crate::proofs::Added::added), unfolding(crate::specs::Texts::update_message_text))]
pub(crate) fn update_message_text(
    alloc: Global,
    client: &str,
    field: UpdateField,
    client_message: &str,
    signer: &str,
) -> Result<String, AllocError>
    ensures { IfOk result (λ text. string_bytes text ≡ update_message_text client.now field client_message.now signer.now) }
{
    let mut text = String::new(alloc);
    push_client(&mut text, client)?;
    push_field(&mut text, field, client_message)?;
    push_signer(&mut text, signer)?;
    Ok(text)
}

#[tactic(auto, unfolding(crate::specs::Texts::client_text))]
fn push_client(text: &mut String, client: &str) -> Result<(), AllocError>
    ensures { OnOk result (string_bytes text.new ≡ string_bytes text.old ++ client_text client.now) }
{
    text.push_str("{")?;
    push_text(text, false, "@type", "/ibc.core.client.v1.MsgUpdateClient")?;
    push_text(text, true, "client_id", client)
}

fn field_name(field: UpdateField) -> &'static str
    ensures { result.now ≡ field_name field }
{
    match field {
        UpdateField::ClientMessage => "client_message",
        UpdateField::Header => "header",
    }
}

#[tactic(auto, using(crate::proofs::Added::added), unfolding(crate::specs::Texts::field_text))]
fn push_field(text: &mut String, field: UpdateField, message: &str) -> Result<(), AllocError>
    ensures { OnOk result (string_bytes text.new ≡ string_bytes text.old ++ field_text field message.now) }
{
    push_name(text, true, field_name(field))?;
    text.push_str(message)
}

#[tactic(auto, unfolding(crate::specs::Texts::signer_text))]
fn push_signer(text: &mut String, signer: &str) -> Result<(), AllocError>
    ensures { OnOk result (string_bytes text.new ≡ string_bytes text.old ++ signer_text signer.now) }
{
    push_text(text, true, "signer", signer)?;
    text.push_str("}")
}
