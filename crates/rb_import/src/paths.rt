//! The events of paths: their packets, and that they were closed.
ghost use Rattle.std.specs.Prelude.{◌≡◌, ◌++◌, OnOk, map, slice_get};
ghost use Rattle.rb_import.specs.Events.{block_of, closing, events_of, height_of, packet_by, packet_in, path_at, path_events, paths_events, time_at, unless_zero, writer_of};

use rb_base::{Height, Moment};
use rb_import_answers::{PacketEvent, PacketKind};
use rb_import_merge::{SeenPacket, SeenPath, SeenSetup};
use rb_import_setup::ImportSetup;
use rb_scan::{Order, Sequence};
use rb_script_types::{Block, BlockHeight, Observation, PathConfig};
use std::alloc::AllocError;

/// Adds the packets of each path, and that it was closed.
#[tactic(auto, unfolding(crate::specs::Events::paths_events))]
pub(crate) fn push_paths(
    events: &mut Vec<Observation>,
    setup: &ImportSetup,
    seen: &SeenSetup<'_>,
) -> Result<(), AllocError>
    ensures { OnOk result (events.new.items ≡ events.old.items ++ paths_events setup.now seen.now) }
{
    for (place, path) in setup.paths.iter().enumerate() {
        push_path_at(events, seen, place, &path.config)?;
    }
    Ok(())
}

fn push_path_at(
    events: &mut Vec<Observation>,
    seen: &SeenSetup<'_>,
    place: usize,
    path: &PathConfig,
) -> Result<(), AllocError>
    ensures { OnOk result (events.new.items ≡ events.old.items ++ events_of seen.now place path.now (slice_get seen.now.paths.items place)) }
{
    match seen.paths.get(place) {
        Some(it) => push_path(events, seen, place, path, it),
        None => Ok(()),
    }
}

#[tactic(auto, using(crate::proofs::Added::added), unfolding(crate::specs::Events::path_events))]
fn push_path(
    events: &mut Vec<Observation>,
    seen: &SeenSetup<'_>,
    place: usize,
    path: &PathConfig,
    it: &SeenPath<'_>,
) -> Result<(), AllocError>
    ensures { OnOk result (events.new.items ≡ events.old.items ++ path_events seen.now place path.now it.now) }
{
    push_packets(events, seen, place, path, it.packets.as_slice())?;
    push_closing(events, place, path, it.timed_out)
}

fn push_packets(
    events: &mut Vec<Observation>,
    seen: &SeenSetup<'_>,
    place: usize,
    path: &PathConfig,
    packets: &[SeenPacket<'_>],
) -> Result<(), AllocError>
    ensures { OnOk result (events.new.items ≡ events.old.items ++ map (packet_in seen.now place path.now) packets.now) }
{
    for packet in packets {
        events.push(packet_in(seen, place, path, packet))?;
    }
    Ok(())
}

/// The event of a packet.
fn packet_in(
    seen: &SeenSetup<'_>,
    place: usize,
    path: &PathConfig,
    packet: &SeenPacket<'_>,
) -> Observation
    ensures { result ≡ packet_in seen.now place path.now packet.now }
{
    let event = packet.event;
    let sequence = sequence_of(event);
    let block = block_of(seen, path, event);
    match event.kind {
        PacketKind::Sent => Observation::Sent {
            path: place,
            sequence,
            block,
            timeout_height: height_of(packet.expiry),
            timeout_time: timeout_time(event.timeout_time),
        },
        PacketKind::Received => Observation::Received {
            path: place,
            sequence,
            block: block.height,
        },
        PacketKind::AckWritten => Observation::AckWritten {
            path: place,
            sequence,
            block,
        },
        PacketKind::Cleared | PacketKind::TimedOut => Observation::Cleared {
            path: place,
            sequence,
        },
    }
}

fn sequence_of(event: &PacketEvent) -> Sequence
    ensures { result ≡ event.now.sequence }
{
    Sequence::new(event.sequence).unwrap()
}

/// A height, and none for 0.
fn height_of(height: u64) -> Option<Height>
    ensures { result ≡ height_of height }
{
    if 0 < height && height <= Height::MAX {
        Some(Height::new(height).unwrap())
    } else {
        None
    }
}

/// The moment of so many nanoseconds, and none for 0.
fn timeout_time(nanoseconds: u64) -> Option<Moment>
    ensures { result ≡ unless_zero nanoseconds }
{
    if nanoseconds == 0 {
        None
    } else {
        Some(Moment::new(u128::from(nanoseconds)).unwrap())
    }
}

/// The block that an event of a path's packet stands in, and its time, where a header of it was seen.
fn block_of(seen: &SeenSetup<'_>, path: &PathConfig, event: &PacketEvent) -> Block
    ensures { result ≡ block_of seen.now path.now event.now }
{
    let height = BlockHeight::new(event.block.get()).unwrap();
    let time = match writer_of(path, event.kind) {
        Some(place) => time_at(seen, place, event.block),
        None => None,
    };
    Block { height, time }
}

/// The chain whose block an event stands in, where messages wait from its time on.
fn writer_of(path: &PathConfig, kind: PacketKind) -> Option<usize>
    ensures { result ≡ writer_of path.now kind }
{
    match kind {
        PacketKind::Sent => Some(path.source),
        PacketKind::AckWritten => Some(path.destination),
        PacketKind::Received | PacketKind::Cleared | PacketKind::TimedOut => None,
    }
}

fn time_at(seen: &SeenSetup<'_>, place: usize, height: Height) -> Option<Moment>
    ensures { result ≡ time_at seen.now place height }
{
    seen.chains.get(place)?.block_time(height)
}

/// Adds that an ordered path of which a packet timed out is closed (ICS 4).
fn push_closing(
    events: &mut Vec<Observation>,
    place: usize,
    path: &PathConfig,
    timed_out: bool,
) -> Result<(), AllocError>
    ensures { OnOk result (events.new.items ≡ events.old.items ++ closing place path.now timed_out) }
{
    match path.order {
        Order::Ordered if timed_out => {
            events.push(Observation::Closed { path: place })?;
            Ok(())
        }
        Order::Ordered | Order::Unordered => Ok(()),
    }
}
