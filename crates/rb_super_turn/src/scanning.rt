//! Scans of paths.
ghost use Rattle.std.specs.Prelude.{◌≡◌, ◌<◌, ◌+◌, ◌*◌, true, false, Ok, Some, length, IfOk, OnOk};
ghost use Rattle.rb_core.specs.Core.{state_in};
ghost use Rattle.rb_core_model.specs.Machine.{is_scanned};
ghost use Rattle.rb_core_model.specs.Standing.{path_view};
ghost use Rattle.rb_super_turn.specs.Phases.{standing_in, HasLogRoom, IsLater, IsAllScanned, KeepsScans};

use crate::crew::Crew;
use crate::found::Found;
use crate::machine::Machine;
use crate::relayer::Relayer;
use crate::taking::{note, offer};
use rb_base::{Gate, Part, WorkItem};
use rb_core_model::{CoreError, Event, Scan, scan};
use rb_scan::PathView;
use std::alloc::{AllocError, Allocator};
use std::thread::Threads;

/// A path that is there, as it is scanned.
#[tactic(auto, using(crate::proofs::Steps::path_is_shown))]
fn view_of<A: Allocator + Copy, M: Machine<A>>(
    relayer: &Relayer<A, M>,
    path: usize,
) -> Result<PathView<A>, AllocError>
    requires { path < length relayer.now.config.paths }
    ensures { IfOk result (λ view. path_view (standing_in relayer.now) path ≡ Some view) }
{
    match relayer.path_view(path) {
        Ok(view) => Ok(view),
        Err(CoreError::Refused(_)) => unreachable!(),
        Err(CoreError::NoMemory) => Err(AllocError),
    }
}

/// The scan of a part of a path.
fn scan_of<A: Allocator + Copy>(view: PathView<A>, part: Part) -> Result<Scan<A>, AllocError>
    ensures { IfOk result (λ scan. scan ≡ record { view = view; part = part }) }
{
    scan(view, part)
}

/// Takes in the scan of a part of a path that was found, if one was, and it is of the path as it is;
/// tells whether that was so.
fn take_found<A: Allocator + Copy, M: Machine<A>, F: Found<A>>(
    relayer: &mut Relayer<A, M>,
    found: &mut F,
    path: usize,
    part: Part,
) -> Result<bool, AllocError>
    requires path { path < length relayer.old.config.paths }
    ensures standing { OnOk result (standing_in relayer.new ≡ standing_in relayer.old) }
    ensures scanned { result ≡ Ok true → is_scanned (state_in relayer.new) path part ≡ true }
    ensures others { OnOk result (KeepsScans relayer.old relayer.new) }
    ensures nothing { result ≡ Ok false → state_in relayer.new ≡ state_in relayer.old }
    ensures later { OnOk result (IsLater 1 relayer.old relayer.new) }
{
    match found.take_scan(path, part) {
        Some(scan) => {
            let reply = offer(relayer, Event::Scanned { path, scan })?;
            Ok(reply.is_some())
        }
        None => Ok(false),
    }
}

/// Scans a part of a path that has no valid scan.
fn scan_here<R: Threads + Sync, G: Gate + Sync, A: Allocator + Copy, M: Machine<A>>(
    crew: &Crew<R, G>,
    relayer: &mut Relayer<A, M>,
    path: usize,
    part: Part,
) -> Result<(), AllocError>
    requires path { path < length relayer.old.config.paths }
    requires room { HasLogRoom relayer.old 1 }
    requires unscanned { is_scanned (state_in relayer.old) path part ≡ false }
    ensures standing { OnOk result (standing_in relayer.new ≡ standing_in relayer.old) }
    ensures scanned { OnOk result (is_scanned (state_in relayer.new) path part ≡ true) }
    ensures others { OnOk result (KeepsScans relayer.old relayer.new) }
    ensures later { OnOk result (IsLater 1 relayer.old relayer.new) }
{
    let view = view_of(relayer, path)?;
    crew.before(WorkItem::Scan(path, part));
    let scan = scan_of(view, part)?;
    crew.after(WorkItem::Scan(path, part));
    note(relayer, Event::Scanned { path, scan })?;
    Ok(())
}

/// Scans a part of a path, unless it has a valid scan: by what was found, or here.
fn scan_part<R: Threads + Sync, G: Gate + Sync, A: Allocator + Copy, M: Machine<A>, F: Found<A>>(
    crew: &Crew<R, G>,
    relayer: &mut Relayer<A, M>,
    found: &mut F,
    path: usize,
    part: Part,
) -> Result<(), AllocError>
    requires path { path < length relayer.old.config.paths }
    requires room { HasLogRoom relayer.old 1 }
    ensures standing { OnOk result (standing_in relayer.new ≡ standing_in relayer.old) }
    ensures scanned { OnOk result (is_scanned (state_in relayer.new) path part ≡ true) }
    ensures others { OnOk result (KeepsScans relayer.old relayer.new) }
    ensures later { OnOk result (IsLater 1 relayer.old relayer.new) }
{
    if relayer.is_scanned(path, part) {
        return Ok(());
    }
    if take_found(relayer, found, path, part)? {
        return Ok(());
    }
    scan_here(crew, relayer, path, part)
}

/// Scans both parts of a path, unless they have valid scans.
fn scan_path<R: Threads + Sync, G: Gate + Sync, A: Allocator + Copy, M: Machine<A>, F: Found<A>>(
    crew: &Crew<R, G>,
    relayer: &mut Relayer<A, M>,
    found: &mut F,
    path: usize,
) -> Result<(), AllocError>
    requires path { path < length relayer.old.config.paths }
    requires room { HasLogRoom relayer.old 2 }
    ensures standing { OnOk result (standing_in relayer.new ≡ standing_in relayer.old) }
    ensures scanned { OnOk result ((part : Part) → is_scanned (state_in relayer.new) path part ≡ true) }
    ensures others { OnOk result (KeepsScans relayer.old relayer.new) }
    ensures later { OnOk result (IsLater 2 relayer.old relayer.new) }
{
    scan_part(crew, relayer, found, path, Part::Packets)?;
    scan_part(crew, relayer, found, path, Part::Channel)?;
    Ok(())
}

/// Scans the parts of paths that have no valid scan, in the order of the paths: by what was found,
/// where that is of the path as it is, else here. An error comes only where a growth is refused; some
/// of them may then have been taken in.
pub fn scan_all<R: Threads + Sync, G: Gate + Sync, A: Allocator + Copy, M: Machine<A>, F: Found<A>>(
    crew: &Crew<R, G>,
    relayer: &mut Relayer<A, M>,
    found: &mut F,
) -> Result<(), AllocError>
    requires room { HasLogRoom relayer.old (2 * length relayer.old.config.paths) }
    ensures standing { OnOk result (standing_in relayer.new ≡ standing_in relayer.old) }
    ensures scanned { OnOk result (IsAllScanned relayer.new) }
    ensures later { OnOk result (IsLater (2 * length relayer.old.config.paths) relayer.old relayer.new) }
{
    let paths = relayer.config().paths.len();
    for path in 0..paths {
        scan_path(crew, relayer, found, path)?;
    }
    Ok(())
}
