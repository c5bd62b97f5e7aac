//! Metrics in the text format of Prometheus. Identifiers have no character that a label escapes.
ghost use Rattle.std.specs.Prelude.{◌≡◌, ◌++◌, [], slice_index_or, OnOk, IfOk, string_bytes};
ghost use Rattle.std.specs.List.{flat_map};
ghost use Rattle.rb_text_report.specs.Metrics.{head, name_text, label, value_text, gauge_text, client_text};

use crate::expiry::Expiry;
use crate::health::ClientHealth;
use rb_base::ChainId;
use rb_script_text::SECOND;
use rb_script_types::ClientConfig;
use std::alloc::{AllocError, Global};

/// The gauge's name, with its help and its type.
const HEAD: &str =
    "# HELP ibcplan_client_expires_timestamp_seconds When the newest consensus state that the client has stored expires, in seconds since 1970.
# TYPE ibcplan_client_expires_timestamp_seconds gauge
";

/// A gauge for each client that has stored a consensus state: the second in which the newest one expires. The identifiers
/// of chains stand by their places.
pub fn metrics_of(
    alloc: Global,
    chains: &[ChainId],
    clients: &[ClientHealth],
) -> Result<String, AllocError>
    ensures { IfOk result (λ text. string_bytes text ≡ head ++ flat_map (client_text chains.now) clients.now) }
{
    let mut text = String::new(alloc);
    text.push_str(HEAD)?;
    for health in clients {
        push_client(&mut text, chains, health)?;
    }
    Ok(text)
}

/// The identifier of the chain at a place.
fn id_of(chains: &[ChainId], chain: usize) -> &str
    ensures { result.now ≡ slice_index_or chains.now chain [] }
{
    match chains.get(chain) {
        Some(id) => id.as_str(),
        None => "",
    }
}

fn push_client(
    text: &mut String,
    chains: &[ChainId],
    health: &ClientHealth,
) -> Result<(), AllocError>
    ensures { OnOk result (string_bytes text.new ≡ string_bytes text.old ++ client_text chains.now health.now) }
{
    match health.expiry {
        Some(expiry) => push_gauge(text, chains, &health.client, expiry),
        None => Ok(()),
    }
}

fn push_gauge(
    text: &mut String,
    chains: &[ChainId],
    client: &ClientConfig,
    expiry: Expiry,
) -> Result<(), AllocError>
    ensures { OnOk result (string_bytes text.new ≡ string_bytes text.old ++ gauge_text chains.now client.now expiry) }
{
    push_name(text, client.id.as_str())?;
    push_label(text, "chain", id_of(chains, client.tracks))?;
    push_label(text, "host", id_of(chains, client.host))?;
    push_seconds(text, expiry)
}

/// Adds the gauge's name, and the first label.
#[tactic(auto, unfolding(crate::specs::Metrics::name_text))]
fn push_name(text: &mut String, client: &str) -> Result<(), AllocError>
    ensures { OnOk result (string_bytes text.new ≡ string_bytes text.old ++ name_text client.now) }
{
    write!(
        text,
        "ibcplan_client_expires_timestamp_seconds{{client=\"{client}\""
    )
}

#[tactic(auto, unfolding(crate::specs::Metrics::label))]
fn push_label(text: &mut String, name: &str, value: &str) -> Result<(), AllocError>
    ensures { OnOk result (string_bytes text.new ≡ string_bytes text.old ++ label name.now value.now) }
{
    write!(text, ",{name}=\"{value}\"")
}

/// Adds the end of the labels, and the value.
#[tactic(auto, unfolding(crate::specs::Metrics::value_text))]
fn push_seconds(text: &mut String, expiry: Expiry) -> Result<(), AllocError>
    ensures { OnOk result (string_bytes text.new ≡ string_bytes text.old ++ value_text expiry) }
{
    let seconds = expiry.expires / SECOND;
    writeln!(text, "}} {seconds}")
}
