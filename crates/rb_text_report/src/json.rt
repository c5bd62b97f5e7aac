//! The clients as a member of a report's JSON. Identifiers have no character that JSON escapes.
ghost use Rattle.std.specs.Prelude.{◌≡◌, ◌++◌, map, OnOk, string_bytes};
ghost use Rattle.rb_script_text.specs.Json.{array, json_text, more_text};
ghost use Rattle.rb_text_report.specs.Lines.{clients_members, client_json, expiry_members, stored_members};

use crate::expiry::Expiry;
use crate::health::ClientHealth;
use rb_script_text::{push_boolean, push_comma, push_instant, push_name, push_text};
use std::alloc::AllocError;

/// Adds the clients as a member behind others: of each its identifier, and where it has stored a consensus state, when
/// the newest one expires, and whether it is live.
pub fn push_clients(text: &mut String, clients: &[ClientHealth]) -> Result<(), AllocError>
    ensures { OnOk result (string_bytes text.new ≡ string_bytes text.old ++ more_text (clients_members clients.now)) }
{
    push_name(text, true, "clients")?;
    push_array(text, clients)
}

fn push_array(text: &mut String, clients: &[ClientHealth]) -> Result<(), AllocError>
    ensures { OnOk result (string_bytes text.new ≡ string_bytes text.old ++ json_text (array (map client_json clients.now))) }
{
    text.push_str("[")?;
    for (place, health) in clients.iter().enumerate() {
        push_comma(text, place > 0)?;
        push_client(text, health)?;
    }
    text.push_str("]")
}

fn push_client(text: &mut String, health: &ClientHealth) -> Result<(), AllocError>
    ensures { OnOk result (string_bytes text.new ≡ string_bytes text.old ++ json_text (client_json health.now)) }
{
    text.push_str("{")?;
    push_text(text, false, "id", health.client.id.as_str())?;
    push_stored(text, health.expiry)?;
    text.push_str("}")
}

/// Adds when the newest consensus state that is stored expires, if there is one.
fn push_stored(text: &mut String, expiry: Option<Expiry>) -> Result<(), AllocError>
    ensures { OnOk result (string_bytes text.new ≡ string_bytes text.old ++ more_text (stored_members expiry)) }
{
    match expiry {
        Some(expiry) => push_expiry(text, expiry),
        None => Ok(()),
    }
}

fn push_expiry(text: &mut String, expiry: Expiry) -> Result<(), AllocError>
    ensures { OnOk result (string_bytes text.new ≡ string_bytes text.old ++ more_text (expiry_members expiry)) }
{
    push_name(text, true, "expires")?;
    text.push_str("\"")?;
    push_instant(text, expiry.expires)?;
    text.push_str("\"")?;
    push_boolean(text, true, "live", expiry.is_live())
}
