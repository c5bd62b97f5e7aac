//! The messages of a client's paths that go, and those that are ready.
ghost use Rattle.std.specs.Prelude.{◌≡◌, ◌++◌, map, IfOk, OnOk};
ghost use Rattle.std.specs.List.{flat_map};
ghost use Rattle.rb_scan.specs.Owed.{ready, ready_beyond};
ghost use Rattle.rb_plan_client.specs.Task.{message_on, is_too_big, bars_of, going_on, ready_on, too_big_by, too_big_on};

use crate::job::JobView;
use crate::message::Message;
use crate::task::PathTask;
use rb_base::Height;
use rb_scan::{Bars, Kind, PacketMsg, going, ready, ready_beyond};
use rb_script_types::RefreshTo;
use std::alloc::{AllocError, Allocator};

/// Whether a message of this kind is over the gas limit alone.
fn is_too_big<A: Allocator + Copy>(job: &JobView<A>, path: &PathTask<A>, kind: Kind) -> bool
    ensures { result ≡ is_too_big job.now.task path.now kind }
{
    let limits = job.config().limits;
    limits.gas() < path.gas().of(kind) + limits.transaction_gas()
}

/// What keeps messages of a path from going.
pub fn bars_of<A: Allocator + Copy>(job: &JobView<A>, path: &PathTask<A>) -> Bars
    ensures { result ≡ bars_of job.now.task path.now }
{
    Bars {
        receive: is_too_big(job, path, Kind::Receive),
        acknowledge: is_too_big(job, path, Kind::Acknowledge),
        timeout: is_too_big(job, path, Kind::Timeout),
        until: job.window().until(),
    }
}

/// The messages of a path that go and are ready: those that a height up to `reach` proves, and of an ORDERED path
/// none that follows one that isn't; none where there is no `reach`.
fn ready_packets<A: Allocator + Copy>(
    alloc: A,
    job: &JobView<A>,
    reach: &Option<Height>,
    path: &PathTask<A>,
) -> Result<Vec<PacketMsg, A>, AllocError>
    ensures { IfOk result (λ list. list.items ≡ ready (going_on job.now.task path.now) path.now.order reach.now) }
{
    match job.config().refresh_to {
        RefreshTo::Lowest | RefreshTo::Highest => ready(alloc, path.owed(), path.order(), *reach),
        RefreshTo::Newer => {
            let going = going(alloc, path.owed(), path.order(), &bars_of(job, path))?;
            ready(alloc, going.as_slice(), path.order(), *reach)
        }
    }
}

/// The messages of a path that go and are ready at `reach`, but not at `low`.
pub(crate) fn packets_beyond<A: Allocator + Copy>(
    alloc: A,
    job: &JobView<A>,
    low: &Option<Height>,
    reach: &Option<Height>,
    path: &PathTask<A>,
) -> Result<Vec<PacketMsg, A>, AllocError>
    ensures { IfOk result (λ list. list.items ≡ ready_beyond (going_on job.now.task path.now) path.now.order low.now reach.now) }
{
    match job.config().refresh_to {
        RefreshTo::Lowest | RefreshTo::Highest => {
            ready_beyond(alloc, path.owed(), path.order(), *low, *reach)
        }
        RefreshTo::Newer => {
            let going = going(alloc, path.owed(), path.order(), &bars_of(job, path))?;
            ready_beyond(alloc, going.as_slice(), path.order(), *low, *reach)
        }
    }
}

/// Puts the messages for packets of a path, with their gas, to the end of a list.
fn append_messages<A: Allocator + Copy>(
    path: &PathTask<A>,
    packets: &[PacketMsg],
    messages: &mut Vec<Message, A>,
) -> Result<(), AllocError>
    ensures { OnOk result (messages.new.items ≡ messages.old.items ++ map (message_on path.now) packets.now) }
{
    for packet in packets {
        messages.push(Message::new(path.path(), path.gas(), *packet))?;
    }
    Ok(())
}

/// Puts the ready messages of a path to the end of a list.
fn append_ready<A: Allocator + Copy>(
    alloc: A,
    job: &JobView<A>,
    reach: &Option<Height>,
    path: &PathTask<A>,
    messages: &mut Vec<Message, A>,
) -> Result<(), AllocError>
    ensures { OnOk result (messages.new.items ≡ messages.old.items ++ ready_on job.now.task reach.now path.now) }
{
    let packets = ready_packets(alloc, job, reach, path)?;
    append_messages(path, packets.as_slice(), messages)
}

/// The ready messages of all paths of a client that go, in their order: those that a height up to `reach` proves.
pub fn ready_messages<A: Allocator + Copy>(
    alloc: A,
    job: &JobView<A>,
    reach: &Option<Height>,
) -> Result<Vec<Message, A>, AllocError>
    ensures { IfOk result (λ messages. messages.items ≡ flat_map (ready_on job.now.task reach.now) job.now.task.paths) }
{
    let mut messages = Vec::new(alloc);
    for path in job.paths() {
        append_ready(alloc, job, reach, path, &mut messages)?;
    }
    Ok(messages)
}

/// The messages of a path that are left out and told, since they are over the gas limit alone.
fn too_big_packets<A: Allocator + Copy>(
    alloc: A,
    job: &JobView<A>,
    path: &PathTask<A>,
) -> Result<Vec<PacketMsg, A>, AllocError>
    ensures { IfOk result (λ list. list.items ≡ too_big_by job.now.task path.now job.now.task.config.refresh_to) }
{
    let mut packets = Vec::new(alloc);
    if job.config().refresh_to != RefreshTo::Newer {
        return Ok(packets);
    }
    for packet in path.owed() {
        if is_too_big(job, path, packet.kind) {
            packets.push(*packet)?;
        }
    }
    Ok(packets)
}

/// Puts those of a path to the end of a list.
fn append_too_big<A: Allocator + Copy>(
    alloc: A,
    job: &JobView<A>,
    path: &PathTask<A>,
    messages: &mut Vec<Message, A>,
) -> Result<(), AllocError>
    ensures { OnOk result (messages.new.items ≡ messages.old.items ++ too_big_on job.now.task path.now) }
{
    let packets = too_big_packets(alloc, job, path)?;
    append_messages(path, packets.as_slice(), messages)
}

/// The messages of all paths of a client that are left out and told, since they are over the gas limit alone: by
/// gain, and else none.
pub fn too_big_messages<A: Allocator + Copy>(
    alloc: A,
    job: &JobView<A>,
) -> Result<Vec<Message, A>, AllocError>
    ensures { IfOk result (λ messages. messages.items ≡ flat_map (too_big_on job.now.task) job.now.task.paths) }
{
    let mut messages = Vec::new(alloc);
    for path in job.paths() {
        append_too_big(alloc, job, path, &mut messages)?;
    }
    Ok(messages)
}
