//! The commands that a relayer (Hermes 1.x) runs for the packet messages of a plan.
ghost use Rattle.std.specs.Prelude.{◌≡◌, ◌++◌, ◌<◌, length, OnOk, string_bytes};
ghost use Rattle.std.specs.List.{enumerate_from, flat_map};
ghost use Rattle.std.specs.Option.{option_copied, option_map_or};
ghost use Rattle.rb_script_types.specs.Config.{config_view};
ghost use Rattle.rb_text_export.specs.Commands.{acknowledge_begin, before, before_is, begin_text, command_text, end_text, is_alike, is_next, line_begin, line_end, message_text, named_counterparty, next_is, packets_text, receive_begin, run_begin, sequence_text, unnamed_text};

use crate::commands::chain_at;
use crate::words::push_option;
use rb_plan_client::Message;
use rb_scan::Kind;
use rb_script_text::kind_name;
use rb_script_types::{ChannelEnd, Config, PathConfig};
use std::alloc::AllocError;

/// Adds a line for the messages of each path and kind: the command where the script names the end of the channel that it
/// needs, or else a comment. A plan has the messages of a path and kind in a row, by rising sequence.
pub(crate) fn push_packets(
    text: &mut String,
    config: &Config,
    messages: &[Message],
) -> Result<(), AllocError>
    ensures { OnOk result (string_bytes text.new ≡ string_bytes text.old ++ packets_text (config_view config.now) messages.now) }
{
    for (place, message) in messages.iter().enumerate() {
        push_message(text, config, messages, place, message)?;
    }
    Ok(())
}

/// Adds what tells of the message at a place.
#[tactic(auto, using(crate::proofs::Added::added), unfolding(crate::specs::Commands::message_text))]
fn push_message(
    text: &mut String,
    config: &Config,
    messages: &[Message],
    place: usize,
    message: &Message,
) -> Result<(), AllocError>
    requires { place < length messages.now }
    ensures { OnOk result (string_bytes text.new ≡ string_bytes text.old ++ message_text (config_view config.now) messages.now (place, message.now)) }
{
    push_sequence(text, config, messages, place, message)?;
    push_line_end(text, messages, place, message)
}

/// Adds its sequence, where it begins a run, or ends one of several: FIRST..LAST.
fn push_sequence(
    text: &mut String,
    config: &Config,
    messages: &[Message],
    place: usize,
    message: &Message,
) -> Result<(), AllocError>
    requires { place < length messages.now }
    ensures { OnOk result (string_bytes text.new ≡ string_bytes text.old ++ sequence_text (config_view config.now) messages.now (place, message.now)) }
{
    let sequence = message.packet().sequence;
    if !follows(messages, place, message) {
        push_run_begin(text, config, messages, place, message)?;
        write!(text, "{sequence}")
    } else if !is_followed(messages, place, message) {
        write!(text, "..{sequence}")
    } else {
        Ok(())
    }
}

/// Adds a comma where a line goes on, or else the beginning of one.
fn push_run_begin(
    text: &mut String,
    config: &Config,
    messages: &[Message],
    place: usize,
    message: &Message,
) -> Result<(), AllocError>
    ensures { OnOk result (string_bytes text.new ≡ string_bytes text.old ++ run_begin (config_view config.now) messages.now place message.now) }
{
    match message_before(messages, place) {
        Some(before) if are_alike(before, message) => text.push_str(","),
        _ => push_line_begin(text, config, message),
    }
}

fn push_line_end(
    text: &mut String,
    messages: &[Message],
    place: usize,
    message: &Message,
) -> Result<(), AllocError>
    requires { place < length messages.now }
    ensures { OnOk result (string_bytes text.new ≡ string_bytes text.old ++ line_end messages.now (place, message.now)) }
{
    match messages.get(place + 1) {
        Some(next) if are_alike(message, next) => Ok(()),
        _ => text.push_str("\n"),
    }
}

/// The message before the one at a place.
fn message_before(messages: &[Message], place: usize) -> Option<&Message>
    ensures { option_copied result ≡ before messages.entry.now place }
{
    messages.get(place.checked_sub(1)?)
}

/// Whether a message goes on with the run of the one before it.
fn follows(messages: &[Message], place: usize, message: &Message) -> bool
    ensures { result ≡ before_is (λ b. is_next b message.now) messages.now place }
{
    match message_before(messages, place) {
        Some(before) => is_next(before, message),
        None => false,
    }
}

/// Whether the next message goes on with the run of this one.
fn is_followed(messages: &[Message], place: usize, message: &Message) -> bool
    requires { place < length messages.now }
    ensures { result ≡ next_is (λ n. is_next message.now n) messages.now place }
{
    match messages.get(place + 1) {
        Some(next) => is_next(message, next),
        None => false,
    }
}

/// Whether two messages are of one path and of one kind.
fn are_alike(one: &Message, other: &Message) -> bool
    ensures { result ≡ is_alike one.now other.now }
{
    one.path() == other.path() && one.packet().kind == other.packet().kind
}

/// Whether the sequence of a message is the next one after that of another of its path and kind.
fn is_next(one: &Message, other: &Message) -> bool
    ensures { result ≡ is_next one.now other.now }
{
    are_alike(one, other) && u128::from(sequence_of(one)) + 1 == u128::from(sequence_of(other))
}

fn sequence_of(message: &Message) -> u64
    ensures { result ≡ message.now.packet.sequence }
{
    message.packet().sequence.get()
}

/// Adds the beginning of the line for a message's path and kind.
fn push_line_begin(text: &mut String, config: &Config, message: &Message) -> Result<(), AllocError>
    ensures { OnOk result (string_bytes text.new ≡ string_bytes text.old ++ line_begin (config_view config.now) message.now) }
{
    let kind = message.packet().kind;
    match config.paths.get(message.path()) {
        Some(path) => push_begin(text, config, path, kind),
        None => push_unnamed(text, "", kind_name(kind)),
    }
}

fn push_begin(
    text: &mut String,
    config: &Config,
    path: &PathConfig,
    kind: Kind,
) -> Result<(), AllocError>
    ensures { OnOk result (string_bytes text.new ≡ string_bytes text.old ++ begin_text (config_view config.now) path.now kind) }
{
    match kind {
        Kind::Receive | Kind::Timeout => push_receive(text, config, path, kind),
        Kind::Acknowledge => push_acknowledge(text, config, path),
    }
}

/// Adds the command for receives, which sends a timeout of each packet that has expired.
fn push_receive(
    text: &mut String,
    config: &Config,
    path: &PathConfig,
    kind: Kind,
) -> Result<(), AllocError>
    ensures { OnOk result (string_bytes text.new ≡ string_bytes text.old ++ receive_begin (config_view config.now).chains path.now kind) }
{
    match path.channel {
        Some(channel) => push_command(
            text,
            "hermes tx packet-recv --dst-chain ",
            chain_at(config, path.destination),
            chain_at(config, path.source),
            channel.source.port.as_str(),
            channel.source.channel.as_str(),
        ),
        None => push_unnamed(text, path.id.as_str(), kind_name(kind)),
    }
}

fn push_acknowledge(text: &mut String, config: &Config, path: &PathConfig) -> Result<(), AllocError>
    ensures { OnOk result (string_bytes text.new ≡ string_bytes text.old ++ acknowledge_begin (config_view config.now).chains path.now) }
{
    match named_counterparty(path) {
        Some(end) => push_command(
            text,
            "hermes tx packet-ack --dst-chain ",
            chain_at(config, path.source),
            chain_at(config, path.destination),
            end.port.as_str(),
            end.channel.as_str(),
        ),
        None => push_unnamed(text, path.id.as_str(), kind_name(Kind::Acknowledge)),
    }
}

/// The end of a path's channel on the destination, if it is named.
fn named_counterparty(path: &PathConfig) -> Option<ChannelEnd>
    ensures { result ≡ named_counterparty path.now }
{
    path.channel?.counterparty
}

/// Adds a comment for messages of a path whose channel isn't named.
#[tactic(auto, unfolding(crate::specs::Commands::unnamed_text))]
fn push_unnamed(text: &mut String, path: &str, kind: &str) -> Result<(), AllocError>
    ensures { OnOk result (string_bytes text.new ≡ string_bytes text.old ++ unnamed_text path.now kind.now) }
{
    write!(
        text,
        "# path {path}: no command, its channel isn't named: {kind} "
    )
}

/// Adds a command: the chain that messages go to, the one that they come from, and the end of the channel there.
fn push_command(
    text: &mut String,
    command: &str,
    to: &str,
    from: &str,
    port: &str,
    channel: &str,
) -> Result<(), AllocError>
    ensures { OnOk result (string_bytes text.new ≡ string_bytes text.old ++ command_text command.now to.now from.now port.now channel.now) }
{
    push_option(text, command, to)?;
    push_option(text, " --src-chain ", from)?;
    push_end(text, port, channel)
}

fn push_end(text: &mut String, port: &str, channel: &str) -> Result<(), AllocError>
    ensures { OnOk result (string_bytes text.new ≡ string_bytes text.old ++ end_text port.now channel.now) }
{
    push_option(text, " --src-port ", port)?;
    push_option(text, " --src-channel ", channel)?;
    text.push_str(" --packet-sequences ")
}
