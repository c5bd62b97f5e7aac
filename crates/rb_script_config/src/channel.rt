//! The channel of a path.
ghost use Rattle.std.specs.Prelude.{◌≡◌, codes, IfOk};
ghost use Rattle.rb_script_types.specs.EndIds.{IsEndId};
ghost use Rattle.rb_script_toml.specs.Faults.{Gives};
ghost use Rattle.rb_script_toml.specs.Fields.{field_view, section_view, needs};
ghost use Rattle.rb_script_config.specs.Channels.{channel, channel_in, counterparty, end_at, end_id, is_end_id, is_unnamed};

use rb_script_toml::{FaultName, Field, RunError, Section};
use rb_script_types::{Channel, ChannelEnd, EndId, Version};

/// Whether a text is the identifier of a port or a channel.
fn is_end_id(text: &str) -> bool
    ensures { result ≡ is_end_id text.now }
{
    EndId::new(text).is_some()
}

/// The identifier of a port or a channel that a key holds.
#[tactic(auto, using(rb_script_toml::proofs::Steps::steps, crate::proofs::EndIds::end_ids), unfolding(crate::specs::Channels::end_id))]
fn end_text<'a>(field: &Field<'a>) -> Result<&'a str, RunError>
    ensures read { Gives (λ t. t.now) result (end_id (field_view field.now)) }
    ensures form { IfOk result (λ t. IsEndId t.now) }
{
    let text = field.text()?;
    if is_end_id(text) {
        Ok(text)
    } else {
        Err(field.fault(FaultName::BadIdentifier))
    }
}

#[tactic(auto, using(rb_script_toml::proofs::Steps::steps))]
fn needed_end_id<'a>(section: &Section<'a>, key: &'a str) -> Result<EndId, RunError>
    ensures { Gives (λ i. i) result (needs key.entry.now end_id (section_view section.now)) }
{
    let text = end_text(&section.required(key)?)?;
    Ok(EndId::new(text).unwrap())
}

/// Whether neither of an end's two keys is there.
fn is_unnamed<'a>(section: &Section<'a>, port: &'a str, channel: &'a str) -> bool
    ensures { result ≡ is_unnamed port.entry.now channel.entry.now (section_view section.now) }
{
    section.optional(port).is_none() && section.optional(channel).is_none()
}

/// An end of a channel, both of whose keys have to be there.
#[tactic(auto, using(rb_script_toml::proofs::Steps::steps), unfolding(crate::specs::Channels::end_at))]
fn end_at<'a>(
    section: &Section<'a>,
    port: &'a str,
    channel: &'a str,
) -> Result<ChannelEnd, RunError>
    ensures { Gives (λ e. e) result (end_at port.entry.now channel.entry.now (section_view section.now)) }
{
    let port = needed_end_id(section, port)?;
    let channel = needed_end_id(section, channel)?;
    Ok(ChannelEnd { port, channel })
}

/// The channel's other end, if a key of it is there.
#[tactic(auto, using(rb_script_toml::proofs::Steps::steps), unfolding(crate::specs::Channels::counterparty))]
fn counterparty(section: &Section<'_>) -> Result<Option<ChannelEnd>, RunError>
    ensures { Gives (λ e. e) result (counterparty (section_view section.now)) }
{
    if is_unnamed(section, "counterparty_port", "counterparty_channel") {
        return Ok(None);
    }
    let end = end_at(section, "counterparty_port", "counterparty_channel")?;
    Ok(Some(end))
}

/// The channel, if a key of one of its ends is there.
#[tactic(auto, using(rb_script_toml::proofs::Steps::steps), unfolding(crate::specs::Channels::channel))]
fn channel(section: &Section<'_>) -> Result<Option<Channel>, RunError>
    ensures { Gives (λ c. c) result (channel (section_view section.now)) }
{
    if is_unnamed(section, "port", "channel")
        && is_unnamed(section, "counterparty_port", "counterparty_channel")
    {
        return Ok(None);
    }
    let source = end_at(section, "port", "channel")?;
    let counterparty = counterparty(section)?;
    Ok(Some(Channel {
        source,
        counterparty,
    }))
}

/// Reads the channel of a path: `port` and `channel`, the end on its source, and `counterparty_port` and
/// `counterparty_channel`, the other end, from version 3 on. Both keys of an end are there or none, and those of the
/// other end only beside those of the source's; there is no channel where none of the keys is there. `Fault` is the
/// first of: of `port`, `channel`, `counterparty_port` and `counterparty_channel`, in this order, that it is missing
/// (`MissingKey`), no text (`WrongType`) or ill formed (`BadIdentifier`); `NoMemory` comes where a growth is refused.
#[tactic(auto, using(rb_script_toml::proofs::Steps::steps))]
pub fn read_channel(version: Version, section: &Section<'_>) -> Result<Option<Channel>, RunError>
    ensures { Gives (λ c. c) result (channel_in version (section_view section.now)) }
{
    match version {
        Version::One | Version::Two => Ok(None),
        Version::Three | Version::Four => channel(section),
    }
}
