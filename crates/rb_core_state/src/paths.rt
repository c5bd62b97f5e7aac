//! The states of the paths, by their places.
ghost use Rattle.std.specs.Prelude.{◌≡◌, ◌<◌, ℕ, List, [], length, map, slice_get, Some, None, true, IfOk, IfSome, OnOk};
ghost use Rattle.std.specs.List.{list_any};
ghost use Rattle.std.specs.Option.{option_map, option_and_then};
ghost use Rattle.rb_book.specs.Book.{Book};
ghost use Rattle.rb_scan.specs.Owed.{packet_at};
ghost use Rattle.rb_scan.specs.Path.{Path};
ghost use Rattle.rb_core_state.specs.Room.{paths_of, HasPacketRoom};
ghost use Rattle.rb_core_state.specs.Marked.{mark_by};
ghost use Rattle.rb_core_model.specs.Forgetting.{has_many_over};
ghost use Rattle.rb_core_model.specs.Over.{rest_of_path};
ghost use Rattle.rb_core_model.specs.Standing as standings;
ghost use Rattle.rb_core_model.specs.Standing.{changed_at, new_path, view_of_path, with_packet, with_mark, sent_refusal, received_refusal, written_refusal, cleared_refusal, after_message, after_messages};
ghost use Rattle.rb_core_model.specs.Refusal.{refused_if};

use crate::mark::Mark;
use crate::path::PathState;
use rb_base::Height;
use rb_plan_client::Message;
use rb_scan::{Packet, PacketMsg, Sequence};
use rb_script_types::{PathConfig, Refusal};
use std::alloc::{AllocError, Allocator};

/// The state of a path that is there.
pub(crate) fn path_in<A: Allocator>(paths: &[PathState<A>], path: usize) -> &PathState<A>
    requires { path < length paths.now }
    ensures { slice_get (paths_of paths.now) path ≡ Some result.now.path }
{
    &paths[path]
}

/// Why the sending of a packet on a path would be refused: `OutOfOrder` where its sequence is below the
/// path's first one, `Repeat` where it was sent before, `Full` where the path has 4,096 packets. None
/// where it is accepted. The rule is ICS 4's, with own limits; the destination's book plays no part.
pub fn refuse_sent<A: Allocator>(
    paths: &[PathState<A>],
    path: usize,
    sequence: Sequence,
) -> Option<Refusal>
    requires { path < length paths.now }
    ensures { (books : List Book) → result ≡ option_and_then (λ v. sent_refusal v sequence) (option_map (view_of_path books) (slice_get (paths_of paths.now) path)) }
{
    path_in(paths, path).refuse_sent(sequence)
}

/// Why the receiving of a path's packet would be refused: `OutOfOrder` where it was not sent, or the path
/// is ORDERED and a lower sequence is not finished, `Repeat` where it was received before. None where it
/// is accepted. The rule is ICS 4's; the destination's book plays no part.
pub fn refuse_received<A: Allocator>(
    paths: &[PathState<A>],
    path: usize,
    sequence: Sequence,
) -> Option<Refusal>
    requires { path < length paths.now }
    ensures { (books : List Book) → result ≡ option_and_then (λ v. received_refusal v sequence (packet_at v sequence)) (option_map (view_of_path books) (slice_get (paths_of paths.now) path)) }
{
    path_in(paths, path).refuse_received(sequence)
}

/// Why the writing of an acknowledgement of a path's packet in a block would be refused: `OutOfOrder`
/// where the packet was not received up to that block, `Repeat` where one was written before. None where
/// it is accepted. The rule is ICS 4's; the destination's book plays no part.
pub fn refuse_written<A: Allocator>(
    paths: &[PathState<A>],
    path: usize,
    sequence: Sequence,
    block: Height,
) -> Option<Refusal>
    requires { path < length paths.now }
    ensures { (books : List Book) → result ≡ option_and_then (λ v. written_refusal block (packet_at v sequence)) (option_map (view_of_path books) (slice_get (paths_of paths.now) path)) }
{
    path_in(paths, path).refuse_written(sequence, block)
}

/// Why the clearing of a path's packet would be refused: `OutOfOrder` where it was not sent, `Repeat`
/// where it was cleared before, or its acknowledgement or timeout was settled. None where it is accepted.
/// The rule is ICS 4's; the destination's book plays no part.
pub fn refuse_cleared<A: Allocator>(
    paths: &[PathState<A>],
    path: usize,
    sequence: Sequence,
) -> Option<Refusal>
    requires { path < length paths.now }
    ensures { (books : List Book) → result ≡ option_and_then (λ v. cleared_refusal (packet_at v sequence)) (option_map (view_of_path books) (slice_get (paths_of paths.now) path)) }
{
    path_in(paths, path).refuse_cleared(sequence)
}

/// Why the closing of a path's channel would be refused: `Repeat` where it is closed. None where it is
/// accepted. The destination's book plays no part.
pub fn refuse_closed<A: Allocator>(paths: &[PathState<A>], path: usize) -> Option<Refusal>
    requires { path < length paths.now }
    ensures { (books : List Book) → result ≡ option_and_then (λ (v : Path). refused_if v.closed Refusal.Repeat None) (option_map (view_of_path books) (slice_get (paths_of paths.now) path)) }
{
    path_in(paths, path).refuse_closed()
}

/// Makes room for one more packet of a path. `AllocError` where memory is refused; nothing but room has
/// changed then.
pub fn make_packet_room<A: Allocator>(
    paths: &mut Vec<PathState<A>, A>,
    path: usize,
) -> Result<(), AllocError>
    requires { path < length paths.old.items }
    ensures same { paths_of paths.new.items ≡ paths_of paths.old.items }
    ensures room { OnOk result (HasPacketRoom paths.new.items path) }
    ensures kept { (other : ℕ) → HasPacketRoom paths.old.items other → HasPacketRoom paths.new.items other }
{
    paths[path].make_room()
}

/// Puts a sent packet that is not refused in its place on its path.
pub fn put_sent<A: Allocator>(paths: &mut Vec<PathState<A>, A>, path: usize, packet: Packet)
    requires within { path < length paths.old.items }
    requires accepted { IfSome (slice_get (paths_of paths.old.items) path) (λ p. sent_refusal (view_of_path [] p) packet.sequence ≡ None) }
    requires room { HasPacketRoom paths.old.items path }
    ensures { paths_of paths.new.items ≡ changed_at (with_packet packet) (paths_of paths.old.items) path }
{
    paths[path].put_sent(packet);
}

/// Takes a packet of a path one step on, if there is one with this sequence.
pub fn put_mark<A: Allocator>(
    paths: &mut Vec<PathState<A>, A>,
    path: usize,
    sequence: Sequence,
    mark: Mark,
)
    requires { path < length paths.old.items }
    ensures { paths_of paths.new.items ≡ changed_at (with_mark (mark_by mark) sequence) (paths_of paths.old.items) path }
{
    let path = &mut paths[path];
    path.put_mark(sequence, mark);
    path.count_on();
}

/// Forgets the packets that are over at the front of each path, but for the last 256: cleared, and received,
/// too, on an ORDERED path, one after another from its first sequence on.
pub fn forget<A: Allocator>(paths: &mut Vec<PathState<A>, A>)
    ensures { paths_of paths.new.items ≡ map rest_of_path (paths_of paths.old.items) }
{
    for path in 0..paths.len() {
        paths[path].forget();
    }
}

/// The first sequences of the paths, in their order. `AllocError` where memory is refused.
pub fn firsts<A: Allocator + Copy>(
    alloc: A,
    paths: &[PathState<A>],
) -> Result<Vec<u64, A>, AllocError>
    ensures { IfOk result (λ firsts. firsts.items ≡ map (λ (p : standings.PathState). p.first) (paths_of paths.now)) }
{
    let mut firsts = Vec::with_capacity(alloc, paths.len())?;
    for path in paths {
        firsts.push(path.first().get())?;
    }
    Ok(firsts)
}

/// Whether so many packets at the front of a path would be forgotten.
fn has_many<A: Allocator>(least: usize, path: &PathState<A>) -> bool
    ensures { result ≡ has_many_over least path.now.path }
{
    least <= path.gone()
}

/// Whether so many packets at the front of some path would be forgotten.
pub(crate) fn has_many_over<A: Allocator>(least: usize, paths: &[PathState<A>]) -> bool
    ensures { result ≡ list_any (has_many_over least) (paths_of paths.now) }
{
    for path in paths {
        if has_many(least, path) {
            return true;
        }
    }
    false
}

/// Closes the channel of a path.
pub fn close<A: Allocator>(paths: &mut Vec<PathState<A>, A>, path: usize)
    requires { path < length paths.old.items }
    ensures { paths_of paths.new.items ≡ changed_at (λ p. record p { closed = true }) (paths_of paths.old.items) path }
{
    paths[path].close();
}

/// Takes in that a message was settled, if there is its path.
fn settle_message<A: Allocator>(paths: &mut Vec<PathState<A>, A>, path: usize, message: PacketMsg)
    ensures { paths_of paths.new.items ≡ changed_at (after_message message) (paths_of paths.old.items) path }
{
    if path < paths.len() {
        let state = &mut paths[path];
        state.settle(message);
        state.count_on();
    }
}

/// Takes in that messages were settled, one after another: their packets go on, and a timeout closes an
/// ORDERED path (ICS 4).
pub fn settle_messages<A: Allocator>(paths: &mut Vec<PathState<A>, A>, messages: &[Message])
    ensures { paths_of paths.new.items ≡ after_messages (paths_of paths.old.items) messages.now }
{
    for message in messages {
        settle_message(paths, message.path(), message.packet());
    }
}

/// The states of paths with these configurations before the first event. `AllocError` where memory is
/// refused.
pub fn new_paths<A: Allocator + Copy>(
    alloc: A,
    configs: &[PathConfig],
) -> Result<Vec<PathState<A>, A>, AllocError>
    ensures { IfOk result (λ paths. paths_of paths.items ≡ map new_path configs.now) }
{
    let mut paths = Vec::with_capacity(alloc, configs.len())?;
    for config in configs {
        paths.push(PathState::new(alloc, *config))?;
    }
    Ok(paths)
}

/// Equal states, in their order. `AllocError` where memory is refused.
pub fn copy_paths<A: Allocator + Copy>(
    alloc: A,
    paths: &[PathState<A>],
) -> Result<Vec<PathState<A>, A>, AllocError>
    ensures { IfOk result (λ copies. paths_of copies.items ≡ paths_of paths.now) }
{
    let mut copies = Vec::with_capacity(alloc, paths.len())?;
    for path in paths {
        copies.push(path.copy()?)?;
    }
    Ok(copies)
}
