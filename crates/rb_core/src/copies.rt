//! New and copied parts of a core.
ghost use Rattle.std.specs.Prelude.{◌≡◌, ◌≤◌, ◌<◌, All, IfOk, Some, length, nat_le, replicate};
ghost use Rattle.std.specs.List.{list_all};
ghost use Rattle.std.specs.Arc.{arc_value};
ghost use Rattle.std.specs.Option.{option_map, option_map_or};
ghost use Rattle.rb_script_types.specs.Config.{config_view};
ghost use Rattle.rb_core.specs.State.{standing_view, state_view};
ghost use Rattle.rb_core_model.specs.Begun.{max_begun};
ghost use Rattle.rb_core_model.specs.Forgetting.{floor, floors_of, has_many_to_forget, rest, rest_at_floors};
ghost use Rattle.rb_core_model.specs.Machine.{opening, no_scans};
ghost use Rattle.rb_core_model.specs.Standing as standings;
ghost use Rattle.rb_core_state.specs.Room.{ClientWithRoom};

use crate::state::CoreState;
use rb_base::Window;
use rb_core_model::Scans;
use rb_core_state::ClientState;
use rb_core_state::books::{forget as forget_heights, new_books, share_books};
use rb_core_state::clients::{copy_clients, forget as forget_stored, new_clients};
use rb_core_state::floors::{floor, floors, has_many_to_forget as has_many};
use rb_core_state::paths::{copy_paths, forget as forget_packets, new_paths};
use rb_script_types::Config;
use std::alloc::{AllocError, Allocator};
use std::sync::Arc;

/// The most batches that a client may have opened where a core begins anew.
const MAX_BEGUN: u64 = 1 << 62;

pub(crate) fn new_plans<A: Allocator + Copy>(
    alloc: A,
    clients: usize,
) -> Result<Vec<usize, A>, AllocError>
    ensures { IfOk result (λ plans. plans.items ≡ replicate clients 0) }
{
    let mut plans = Vec::with_capacity(alloc, clients)?;
    for _ in 0..clients {
        plans.push(0)?;
    }
    Ok(plans)
}

pub(crate) fn new_scans<A: Allocator + Copy>(
    alloc: A,
    paths: usize,
) -> Result<Vec<Scans<A>, A>, AllocError>
    ensures { IfOk result (λ scans. scans.items ≡ replicate paths no_scans) }
{
    let mut scans = Vec::with_capacity(alloc, paths)?;
    for _ in 0..paths {
        scans.push(Scans::new())?;
    }
    Ok(scans)
}

/// What is known before the first event.
pub(crate) fn new_state<A: Allocator + Copy>(
    alloc: A,
    config: &Config<A>,
) -> Result<CoreState<A>, AllocError>
    requires { (1 ≤ config.now.limit) × (config.now.limit ≤ 4096) }
    ensures { IfOk result (λ state. state_view state ≡ opening (config_view config.now)) }
{
    Ok(CoreState {
        window: None,
        books: new_books(alloc, config.chains.len(), config.limit)?,
        clients: new_clients(alloc, config.clients.as_slice())?,
        paths: new_paths(alloc, config.paths.as_slice())?,
        plans: new_plans(alloc, config.clients.len())?,
        scans: new_scans(alloc, config.paths.len())?,
        front: 0,
    })
}

fn copy_scans<A: Allocator + Copy>(
    alloc: A,
    scans: &[Scans<A>],
) -> Result<Vec<Scans<A>, A>, AllocError>
    ensures { IfOk result (λ copies. copies.items ≡ scans.now) }
{
    let mut copies = Vec::with_capacity(alloc, scans.len())?;
    for scan in scans {
        copies.push(scan.copy()?)?;
    }
    Ok(copies)
}

/// The same, known apart. The books are shared.
pub(crate) fn copy_state<A: Allocator + Copy>(
    alloc: A,
    state: &CoreState<A>,
) -> Result<CoreState<A>, AllocError>
    ensures { IfOk result (λ copy. state_view copy ≡ state_view state.now) }
{
    Ok(CoreState {
        window: state.window,
        books: share_books(alloc, state.books.as_slice())?,
        clients: copy_clients(alloc, state.clients.as_slice())?,
        paths: copy_paths(alloc, state.paths.as_slice())?,
        plans: Vec::from_slice(alloc, state.plans.as_slice())?,
        scans: copy_scans(alloc, state.scans.as_slice())?,
        front: state.front,
    })
}

/// One more owner of what was known before a log, if anything was. `AllocError` where it has as many owners
/// as can be counted.
pub(crate) fn share_begun<A: Allocator>(
    begun: &Option<Arc<CoreState<A>, A>>,
) -> Result<Option<Arc<CoreState<A>, A>>, AllocError>
    ensures { IfOk result (λ shared. option_map arc_value shared ≡ option_map arc_value begun.now) }
{
    match begun {
        Some(begun) => Ok(Some(Arc::try_clone(begun)?)),
        None => Ok(None),
    }
}

/// Whether so many records of some chain lie below its floor, or so many packets at the front of some path
/// would be forgotten; none before the first window.
pub(crate) fn has_many_to_forget<A: Allocator + Copy>(state: &CoreState<A>, least: usize) -> bool
    ensures { result ≡ has_many_to_forget least (standing_view state.now) }
{
    match &state.window {
        Some(window) => has_many(
            least,
            window,
            state.books.as_slice(),
            state.clients.as_slice(),
            state.paths.as_slice(),
        ),
        None => false,
    }
}

/// The floor of a chain as a number; 0 where it has none, and before the first window.
fn floor_of<A: Allocator + Copy>(state: &CoreState<A>, chain: usize) -> u64
    requires { chain < length state.now.books.items }
    ensures { result ≡ option_map_or (λ w. floor w (standing_view state.now) chain) state.now.window 0 }
{
    let Some(window) = &state.window else {
        return 0;
    };
    let (books, clients) = (state.books.as_slice(), state.clients.as_slice());
    match floor(window, books, clients, state.paths.as_slice(), chain) {
        Some(height) => height.get(),
        None => 0,
    }
}

/// The floors of all chains, by their places.
pub(crate) fn floors_of<A: Allocator + Copy>(
    alloc: A,
    state: &CoreState<A>,
) -> Result<Vec<u64, A>, AllocError>
    ensures { IfOk result (λ floors. floors.items ≡ floors_of (standing_view state.now)) }
{
    let chains = state.books.len();
    let mut numbers = Vec::with_capacity(alloc, chains)?;
    for chain in 0..chains {
        numbers.push(floor_of(state, chain))?;
    }
    Ok(numbers)
}

/// Whether no client has opened too many batches to begin anew.
pub(crate) fn are_few<A: Allocator>(clients: &[ClientState<A>]) -> bool
    ensures { result ≡ list_all (λ (h : ClientWithRoom). nat_le h.client.batches max_begun) clients.now }
{
    clients.iter().all(|client| client.batches() <= MAX_BEGUN)
}

/// What is left of what is known from the floors on, in a window.
fn left_in<A: Allocator + Copy>(
    alloc: A,
    window: Window,
    state: CoreState<A>,
) -> Result<CoreState<A>, AllocError>
    requires { state.window ≡ Some window }
    ensures { IfOk result (λ left. standing_view left ≡ rest (floor window (standing_view state)) (standing_view state)) }
{
    let mut state = state;
    let floors = floors(
        alloc,
        &window,
        state.books.as_slice(),
        state.clients.as_slice(),
        state.paths.as_slice(),
    )?;
    forget_heights(&mut state.books, floors.as_slice())?;
    forget_stored(&mut state.clients, floors.as_slice());
    forget_packets(&mut state.paths);
    Ok(state)
}

/// What is left of what is known from the floors on; all before the first window.
fn left<A: Allocator + Copy>(alloc: A, state: CoreState<A>) -> Result<CoreState<A>, AllocError>
    ensures { IfOk result (λ left. standing_view left ≡ rest_at_floors (standing_view state)) }
{
    match state.window {
        Some(window) => left_in(alloc, window, state),
        None => Ok(state),
    }
}

/// What is left of what is known from the floors on, before the first event of a new log.
pub(crate) fn anew<A: Allocator + Copy>(
    alloc: A,
    config: &Config<A>,
    state: CoreState<A>,
) -> Result<CoreState<A>, AllocError>
    ensures state { IfOk result (λ anew. state_view anew ≡ record {
      standing = rest_at_floors (standing_view state);
      plans = replicate (length config.now.clients.items) 0;
      scans = replicate (length config.now.paths.items) no_scans;
      front = 0;
    }) }
    ensures few { IfOk result (λ anew. All (λ (c : standings.ClientState). c.batches ≤ max_begun) (standing_view anew).clients) }
{
    let mut state = left(alloc, state)?;
    if !are_few(state.clients.as_slice()) {
        return Err(AllocError);
    }
    state.plans = new_plans(alloc, config.clients.len())?;
    state.scans = new_scans(alloc, config.paths.len())?;
    state.front = 0;
    Ok(state)
}
