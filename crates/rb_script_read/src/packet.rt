//! The events of packets and of paths.
ghost use Rattle.std.specs.Prelude.{◌≡◌, None, codes};
ghost use Rattle.rb_script_toml.specs.Faults.{Gives};
ghost use Rattle.rb_script_toml.specs.Fields.{field_view, section_view, only, needs, optional, or_default};
ghost use Rattle.rb_script_read.specs.Packets.{block, height_or_none, time_or_none, unless_zero, time_in, sent, sent_keys, received, ack_written, ack_keys, packet_keys, cleared, cleared_keys, closed, closed_keys};

use rb_base::{Height, Moment};
use rb_script_config::{Directory, needed_sequence, reference};
use rb_script_toml::{FaultName, Field, MAX_NUMBER, RunError, Section};
use rb_script_types::{Block, BlockHeight, Observation, PathConfig, Version};

/// The height of the block.
#[tactic(auto, using(rb_script_toml::proofs::Steps::steps))]
fn needed_block(section: &Section<'_>) -> Result<BlockHeight, RunError>
    ensures { Gives (λ b. b) result (needs (codes "height") block (section_view section.now)) }
{
    let number = section.number("height", 1, BlockHeight::MAX, FaultName::OutOfRange)?;
    Ok(BlockHeight::new(number).unwrap())
}

#[tactic(auto, using(rb_script_toml::proofs::Steps::steps), unfolding(crate::specs::Packets::height_or_none))]
fn height_or_none(field: &Field<'_>) -> Result<Option<Height>, RunError>
    ensures { Gives (λ h. h) result (height_or_none (field_view field.now)) }
{
    let number = field.number(0, MAX_NUMBER, FaultName::OutOfRange)?;
    Ok(Height::new(number))
}

#[tactic(auto, using(rb_script_toml::proofs::Steps::steps))]
fn timeout_height(section: &Section<'_>) -> Result<Option<Height>, RunError>
    ensures { Gives (λ h. h) result (or_default None height_or_none (optional (codes "timeout_height") (section_view section.now))) }
{
    match section.optional("timeout_height") {
        Some(field) => height_or_none(&field),
        None => Ok(None),
    }
}

/// The moment, if it isn't the first of 1970.
fn unless_zero(time: Moment) -> Option<Moment>
    ensures { result ≡ unless_zero time }
{
    if time.nanoseconds() == 0 {
        None
    } else {
        Some(time)
    }
}

#[tactic(auto, using(rb_script_toml::proofs::Steps::steps), unfolding(crate::specs::Packets::time_or_none))]
fn time_or_none(field: &Field<'_>) -> Result<Option<Moment>, RunError>
    ensures { Gives (λ t. t) result (time_or_none (field_view field.now)) }
{
    Ok(unless_zero(field.time()?))
}

#[tactic(auto, using(rb_script_toml::proofs::Steps::steps))]
fn timeout_time(section: &Section<'_>) -> Result<Option<Moment>, RunError>
    ensures { Gives (λ t. t) result (or_default None time_or_none (optional (codes "timeout_time") (section_view section.now))) }
{
    match section.optional("timeout_time") {
        Some(field) => time_or_none(&field),
        None => Ok(None),
    }
}

/// The time of the block, where it is told.
#[tactic(auto, using(rb_script_toml::proofs::Steps::steps))]
fn time_in(version: Version, section: &Section<'_>) -> Result<Option<Moment>, RunError>
    ensures { Gives (λ t. t) result (time_in version (section_view section.now)) }
{
    match version {
        Version::One | Version::Two | Version::Three => Ok(None),
        Version::Four => match section.optional("time") {
            Some(field) => Ok(Some(field.time()?)),
            None => Ok(None),
        },
    }
}

fn only_sent_keys(version: Version, section: &Section<'_>) -> Result<(), RunError>
    ensures { Gives (λ u. u) result (only (sent_keys version) (section_view section.now)) }
{
    match version {
        Version::One | Version::Two | Version::Three => section.only(&[
            "kind",
            "path",
            "seq",
            "height",
            "timeout_height",
            "timeout_time",
        ]),
        Version::Four => section.only(&[
            "kind",
            "path",
            "seq",
            "height",
            "time",
            "timeout_height",
            "timeout_time",
        ]),
    }
}

/// Reads that a block of the source sent a packet, and when the packet expires.
#[tactic(auto, using(rb_script_toml::proofs::Steps::steps), unfolding(crate::specs::Packets::sent))]
pub fn read_sent(
    version: Version,
    section: &Section<'_>,
    paths: &Directory<PathConfig>,
) -> Result<Observation, RunError>
    ensures { Gives (λ e. e) result (sent version paths.now (section_view section.now)) }
{
    only_sent_keys(version, section)?;
    let path = reference(section, "path", paths)?;
    let sequence = needed_sequence(section)?;
    let height = needed_block(section)?;
    let time = time_in(version, section)?;
    let timeout_height = timeout_height(section)?;
    let timeout_time = timeout_time(section)?;
    Ok(Observation::Sent {
        path,
        sequence,
        block: Block { height, time },
        timeout_height,
        timeout_time,
    })
}

fn only_packet_keys(section: &Section<'_>) -> Result<(), RunError>
    ensures { Gives (λ u. u) result (only packet_keys (section_view section.now)) }
{
    section.only(&["kind", "path", "seq", "height"])
}

/// Reads that a block of the destination received a packet.
#[tactic(auto, using(rb_script_toml::proofs::Steps::steps), unfolding(crate::specs::Packets::received))]
pub fn read_received(
    section: &Section<'_>,
    paths: &Directory<PathConfig>,
) -> Result<Observation, RunError>
    ensures { Gives (λ e. e) result (received paths.now (section_view section.now)) }
{
    only_packet_keys(section)?;
    let path = reference(section, "path", paths)?;
    let sequence = needed_sequence(section)?;
    let block = needed_block(section)?;
    Ok(Observation::Received {
        path,
        sequence,
        block,
    })
}

fn only_ack_keys(version: Version, section: &Section<'_>) -> Result<(), RunError>
    ensures { Gives (λ u. u) result (only (ack_keys version) (section_view section.now)) }
{
    match version {
        Version::One | Version::Two | Version::Three => {
            section.only(&["kind", "path", "seq", "height"])
        }
        Version::Four => section.only(&["kind", "path", "seq", "height", "time"]),
    }
}

/// Reads that a block of the destination wrote a packet's acknowledgement.
#[tactic(auto, using(rb_script_toml::proofs::Steps::steps), unfolding(crate::specs::Packets::ack_written))]
pub fn read_ack(
    version: Version,
    section: &Section<'_>,
    paths: &Directory<PathConfig>,
) -> Result<Observation, RunError>
    ensures { Gives (λ e. e) result (ack_written version paths.now (section_view section.now)) }
{
    only_ack_keys(version, section)?;
    let path = reference(section, "path", paths)?;
    let sequence = needed_sequence(section)?;
    let height = needed_block(section)?;
    let time = time_in(version, section)?;
    Ok(Observation::AckWritten {
        path,
        sequence,
        block: Block { height, time },
    })
}

fn only_cleared_keys(section: &Section<'_>) -> Result<(), RunError>
    ensures { Gives (λ u. u) result (only cleared_keys (section_view section.now)) }
{
    section.only(&["kind", "path", "seq"])
}

/// Reads that the source holds no commitment to a packet any more.
#[tactic(auto, using(rb_script_toml::proofs::Steps::steps), unfolding(crate::specs::Packets::cleared))]
pub fn read_cleared(
    section: &Section<'_>,
    paths: &Directory<PathConfig>,
) -> Result<Observation, RunError>
    ensures { Gives (λ e. e) result (cleared paths.now (section_view section.now)) }
{
    only_cleared_keys(section)?;
    let path = reference(section, "path", paths)?;
    let sequence = needed_sequence(section)?;
    Ok(Observation::Cleared { path, sequence })
}

fn only_closed_keys(section: &Section<'_>) -> Result<(), RunError>
    ensures { Gives (λ u. u) result (only closed_keys (section_view section.now)) }
{
    section.only(&["kind", "path"])
}

/// Reads that a path was closed.
#[tactic(auto, using(rb_script_toml::proofs::Steps::steps), unfolding(crate::specs::Packets::closed))]
pub fn read_closed(
    section: &Section<'_>,
    paths: &Directory<PathConfig>,
) -> Result<Observation, RunError>
    ensures { Gives (λ e. e) result (closed paths.now (section_view section.now)) }
{
    only_closed_keys(section)?;
    let path = reference(section, "path", paths)?;
    Ok(Observation::Closed { path })
}
