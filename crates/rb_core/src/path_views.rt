//! What is seen of paths.
ghost use Rattle.std.specs.Prelude.{◌≡◌, is_some, slice_get, slice_index_or, IfSome, IfOk, IfErr, MatchOption, Some, None};
ghost use Rattle.rb_core_model.specs.Config.{part_for};
ghost use Rattle.rb_core.specs.State.{standing_view, state_view};
ghost use Rattle.rb_core_model.specs.Machine.{no_scans, scan_of, is_view, is_scanned, is_missed, all_scanned, seen_owed, path_view_refusal};
ghost use Rattle.rb_core_model.specs.Refused.{IsRefusal};
ghost use Rattle.rb_core_model.specs.Standing.{path_view};

use crate::state::CoreState;
use rb_base::Part;
use rb_core_model::{CoreError, Scan};
use rb_core_state::PathState;
use rb_core_state::views::{is_as_seen, view_of};
use rb_scan::{PacketMsg, PathView};
use rb_script_types::{PathConfig, Refusal};
use std::alloc::Allocator;

/// A path, if there is one at this place.
pub(crate) fn find_path<A: Allocator + Copy>(
    state: &CoreState<A>,
    path: usize,
) -> Option<&PathState<A>>
    ensures { let found = slice_get (standing_view state.now).paths path
        in MatchOption result (found ≡ None) (λ path_state. found ≡ Some path_state.now.path) }
{
    state.paths.as_slice().get(path)
}

/// The last scan of a part of a path.
fn last_scan<A: Allocator + Copy>(state: &CoreState<A>, path: usize, part: Part) -> Option<&Scan<A>>
    ensures { let view = scan_of (slice_index_or (state_view state.now).scans path no_scans) part
        in MatchOption result (view ≡ None) (λ scan. (view ≡ Some scan.now.view) × (scan.now.part ≡ part)) }
{
    match state.scans.as_slice().get(path) {
        Some(scans) => scans.of(part),
        None => None,
    }
}

/// A path as it is scanned: the view of its last scan where the path is still so. `UnknownObject` where there is
/// none at this place, `NoMemory` where a growth is refused.
pub(crate) fn path_view<A: Allocator + Copy>(
    alloc: A,
    state: &CoreState<A>,
    path: usize,
) -> Result<PathView<A>, CoreError>
    ensures view { IfOk result (λ view. path_view (standing_view state.now) path ≡ Some view) }
    ensures refused { IfErr result (λ e. IsRefusal e (path_view_refusal (state_view state.now) path)) }
{
    let Some(path_state) = find_path(state, path) else {
        return Err(CoreError::Refused(Refusal::UnknownObject));
    };
    if let Some(scan) = valid_scan(state, path, Part::Packets) {
        return Ok(scan.view().share()?);
    }
    let view = view_of(alloc, state.books.as_slice(), path_state)?;
    Ok(view)
}

/// Whether there is a path at this place, which is as it was seen.
pub(crate) fn is_view<A: Allocator + Copy>(
    state: &CoreState<A>,
    path: usize,
    view: &PathView<A>,
) -> bool
    ensures { result ≡ is_view (state_view state.now) path view.now }
{
    match find_path(state, path) {
        Some(path_state) => is_as_seen(state.books.as_slice(), path_state, view),
        None => false,
    }
}

/// The last scan of a part of a path, where the path is still as it was seen.
fn valid_scan<A: Allocator + Copy>(
    state: &CoreState<A>,
    path: usize,
    part: Part,
) -> Option<&Scan<A>>
    ensures valid { is_some result ≡ is_scanned (state_view state.now) path part }
    ensures part { IfSome result (λ scan. scan.now.part ≡ part) }
    ensures view { IfSome result (λ scan. path_view (standing_view state.now) path ≡ Some scan.now.view) }
{
    let Some(scan) = last_scan(state, path, part) else {
        return None;
    };
    if is_view(state, path, scan.view()) {
        Some(scan)
    } else {
        None
    }
}

/// Whether a part of a path was scanned as the path still is.
pub(crate) fn is_scanned<A: Allocator + Copy>(state: &CoreState<A>, path: usize, part: Part) -> bool
    ensures { result ≡ is_scanned (state_view state.now) path part }
{
    valid_scan(state, path, part).is_some()
}

/// What a part of a path is seen to owe: nothing where it has no valid scan.
pub(crate) fn seen_owed<A: Allocator + Copy>(
    state: &CoreState<A>,
    path: usize,
    part: Part,
) -> &[PacketMsg]
    ensures { result.now ≡ seen_owed (state_view state.now) path part }
{
    match valid_scan(state, path, part) {
        Some(scan) => scan.owed(),
        None => &[],
    }
}

/// The part of what a path owes that is for a client, if it is a path of the client's.
pub(crate) fn part_for(config: &PathConfig, client: usize) -> Option<Part>
    ensures { result ≡ part_for config.now client }
{
    if config.forward == client {
        Some(Part::Packets)
    } else if config.back == client {
        Some(Part::Channel)
    } else {
        None
    }
}

/// Whether a path of the client's has a part without a valid scan.
fn is_missed<A: Allocator + Copy>(
    state: &CoreState<A>,
    client: usize,
    place: usize,
    path: &PathState<A>,
) -> bool
    ensures { result ≡ is_missed (state_view state.now) client (place, path.now.path) }
{
    part_for(path.config(), client).is_some()
        && !(is_scanned(state, place, Part::Packets) && is_scanned(state, place, Part::Channel))
}

/// Whether both parts of each path of a client have a valid scan.
pub(crate) fn all_scanned<A: Allocator + Copy>(state: &CoreState<A>, client: usize) -> bool
    ensures { result ≡ all_scanned (state_view state.now) client }
{
    for (place, path) in state.paths.iter().enumerate() {
        if is_missed(state, client, place, path) {
            return false;
        }
    }
    true
}
