//! Step tables that are kept beside a core.
ghost use Rattle.std.specs.Prelude.{◌≡◌, ◌<◌, ◌∷◌, [], None, Some, length, replicate, slice_get, IfOk, IfErr, IfSome, OnOk, OnErr, MatchOption};
ghost use Rattle.std.specs.Option.{option_map};
ghost use denote.Param.Send.{Frees};
ghost use Rattle.rb_book.specs.Book.{Book};
ghost use Rattle.rb_script_types.specs.Config.{config_view};
ghost use Rattle.rb_script_types.specs.declared.config.ClientConfig.{ClientConfig};
ghost use Rattle.rb_core.specs.Core as cores;
ghost use Rattle.rb_core.specs.Core.{refusal_in, state_in};
ghost use Rattle.rb_core_model.specs.Machine.{reply_of};
ghost use Rattle.rb_core_model.specs.Refused.{IsRefusal};
ghost use Rattle.rb_core_model.specs.Replied.{reply_view};
ghost use Rattle.rb_core_model.specs.Seen.{event_view, observed};
ghost use Rattle.rb_core_model.specs.Snapshot.{followed_by};
ghost use Rattle.rb_core_model.specs.Standing.{book_at};
ghost use Rattle.rb_super_turn.specs.Phases.{standing_in};
ghost use Rattle.rb_super_turn.specs.Tables.{chain_of, with_addition, IsTableOf, AreTables};

use crate::crew::Crew;
use crate::machine::Machine;
use rb_base::Gate;
use rb_book::{BookError, ChainBook};
use rb_core_model::{CoreError, Event, Reply};
use rb_graph::{Graph, SharedGraph};
use rb_script_types::{Config, Observation};
use std::alloc::{AllocError, Allocator};
use std::thread::Threads;

/// So many numbers are kept in the rows of all tables together: with 16 bytes each, half a gigabyte.
const MOST_NUMBERS: u64 = 1 << 25;

/// A place for a table of each chain.
pub fn no_tables<A: Allocator + Copy>(
    alloc: A,
    chains: usize,
) -> Result<Vec<Option<SharedGraph<A>>, A>, AllocError>
    ensures { IfOk result (λ tables. tables.items ≡ replicate chains None) }
{
    let mut tables = Vec::with_capacity(alloc, chains)?;
    for _ in 0..chains {
        tables.push(None)?;
    }
    Ok(tables)
}

/// The table of a book.
fn table_of<R: Threads + Sync, G: Gate + Sync, A: Allocator + Copy + Send + Sync>(
    crew: &Crew<R, G>,
    alloc: A,
    book: &ChainBook<A>,
) -> Result<SharedGraph<A>, AllocError>
    requires { Frees A.Allocator A.dealloc_token }
    ensures { IfOk result (λ table. table ≡ book.now) }
{
    let copy = book.copy()?;
    let graph = crew.table(alloc, copy)?;
    let table = SharedGraph::new(alloc, graph)?;
    Ok(table)
}

/// Whether the table of a book may be kept beside those that are: all of them have no more numbers than
/// are kept.
fn has_room<A: Allocator + Copy>(tables: &[Option<SharedGraph<A>>], book: &ChainBook<A>) -> bool {
    let mut size = Graph::size_for(book);
    for place in tables {
        if let Some(table) = place {
            size = size.saturating_add(Graph::size_for(table.graph().book()));
        }
    }
    size <= MOST_NUMBERS
}

/// As many places as there are, with no table in them.
fn emptied<A: Allocator + Copy>(
    alloc: A,
    tables: &[Option<SharedGraph<A>>],
) -> Result<Vec<Option<SharedGraph<A>>, A>, AllocError>
    ensures { IfOk result (λ none. none.items ≡ replicate (length tables.now) None) }
{
    let none = no_tables(alloc, tables.len())?;
    Ok(none)
}

/// Lets the tables that are kept go where that of a book would be too many.
fn make_room<A: Allocator + Copy>(
    alloc: A,
    tables: &mut Vec<Option<SharedGraph<A>>, A>,
    book: &ChainBook<A>,
) -> Result<(), AllocError>
    ensures places { length tables.new.items ≡ length tables.old.items }
    ensures kept { (core : cores.Core) → AreTables core tables.old.items → AreTables core tables.new.items }
{
    let kept = tables.as_slice();
    if has_room(kept, book) {
        return Ok(());
    }
    let none = emptied(alloc, kept)?;
    *tables = none;
    Ok(())
}

/// The table of a chain, whose book this is: one more owner of the one that is kept. It is made
/// where there is none yet.
pub(crate) fn table_in<R: Threads + Sync, G: Gate + Sync, A: Allocator + Copy + Send + Sync>(
    crew: &Crew<R, G>,
    alloc: A,
    tables: &mut Vec<Option<SharedGraph<A>>, A>,
    chain: usize,
    book: &ChainBook<A>,
) -> Result<SharedGraph<A>, AllocError>
    requires chain { chain < length tables.old.items }
    requires right { IfSome (slice_get tables.old.items chain) (IsTableOf book.now) }
    requires alloc { Frees A.Allocator A.dealloc_token }
    ensures table { IfOk result (λ table. table ≡ book.now) }
    ensures kept { (core : cores.Core) → book.now ≡ book_at (standing_in core).books chain → AreTables core tables.old.items → AreTables core tables.new.items }
{
    if let Some(table) = &tables[chain] {
        let shared = table.share()?;
        return Ok(shared);
    }
    make_room(alloc, tables, book)?;
    let table = table_of(crew, alloc, book)?;
    let shared = table.share()?;
    tables[chain] = Some(table);
    Ok(shared)
}

/// The chain that a client tracks, if there is such a client.
fn tracked<A: Allocator + Copy>(config: &Config<A>, client: usize) -> Option<usize>
    ensures { result ≡ option_map (λ (c : ClientConfig). c.tracks) (slice_get config.now.clients.items client) }
{
    let client = config.clients.as_slice().get(client)?;
    Some(client.tracks)
}

/// The chain whose book an observation adds to, if it adds to one.
fn chain_of<A: Allocator + Copy>(config: &Config<A>, observation: &Observation<A>) -> Option<usize>
    ensures { result ≡ chain_of (config_view config.now) (observed observation.now) }
{
    match observation {
        Observation::SetSeen { chain, .. } | Observation::HeaderSeen { chain, .. } => Some(*chain),
        Observation::StoredSeen { client, .. } => tracked(config, *client),
        Observation::Sent { .. }
        | Observation::Received { .. }
        | Observation::AckWritten { .. }
        | Observation::Cleared { .. }
        | Observation::Closed { .. } => None,
    }
}

/// The chain whose book an event adds to, with what was observed of it, if it adds to one.
fn addition_of<A: Allocator + Copy>(
    config: &Config<A>,
    event: &Event<A>,
) -> Result<Option<(usize, Observation<A>)>, AllocError>
    ensures { let chain = chain_of (config_view config.now) (event_view event.now)
        in IfOk result (λ o. MatchOption o (chain ≡ None) (λ a. (chain ≡ Some a.0) × (observed a.1 ≡ event_view event.now))) }
{
    let Event::Observed(observation) = event else {
        return Ok(None);
    };
    let Some(chain) = chain_of(config, observation) else {
        return Ok(None);
    };
    let copy = observation.copy()?;
    Ok(Some((chain, copy)))
}

/// Adds to a table what was observed of its chain.
fn grow<A: Allocator + Copy>(
    table: &mut SharedGraph<A>,
    observation: Observation<A>,
) -> Result<(), BookError>
    ensures { OnOk result (table.new ≡ with_addition (observed observation) table.old) }
{
    match observation {
        Observation::SetSeen { set, .. } => table.add_set(set),
        Observation::HeaderSeen { header, .. } => table.add_header(header),
        Observation::StoredSeen { height, record, .. } => table.add_record(height, record),
        Observation::Sent { .. }
        | Observation::Received { .. }
        | Observation::AckWritten { .. }
        | Observation::Cleared { .. }
        | Observation::Closed { .. } => Ok(()),
    }
}

/// What adding to a table costs what was observed of its chain.
fn work_of<A: Allocator + Copy>(graph: &Graph<A>, observation: &Observation<A>) -> u64 {
    match observation {
        Observation::SetSeen { set, .. } => graph.work_of_set(set),
        Observation::HeaderSeen { header, .. } => graph.work_of_header(header),
        Observation::StoredSeen { height, record, .. } => graph.work_of_record(*height, record),
        Observation::Sent { .. }
        | Observation::Received { .. }
        | Observation::AckWritten { .. }
        | Observation::Cleared { .. }
        | Observation::Closed { .. } => 0,
    }
}

/// Adds to the table in a place, if there is one, what was observed of its chain. A table that can't
/// grow is let go, and so is one that has cost more to keep up than making it anew does.
fn keep_up<A: Allocator + Copy>(place: &mut Option<SharedGraph<A>>, observation: Observation<A>)
    ensures { (book : Book) → IsTableOf book place.old → IsTableOf (with_addition (observed observation) book) place.new }
{
    let Some(mut table) = place.take() else {
        return;
    };
    let work = work_of(table.graph(), &observation);
    if !table.is_worth(work) {
        return;
    }
    if grow(&mut table, observation).is_err() {
        return;
    }
    *place = Some(table);
}

/// Takes in an event, and answers as the machine does. What is observed of a chain that has a table
/// is added to the table; one that can't grow is let go. After an error nothing has changed.
pub(crate) fn take_in<A: Allocator + Copy, M: Machine<A>>(
    machine: &mut M,
    tables: &mut Vec<Option<SharedGraph<A>>, A>,
    event: Event<A>,
) -> Result<Reply, CoreError>
    requires { AreTables (M.seen_as machine.old) tables.old.items }
    ensures config { (M.seen_as machine.new).config ≡ (M.seen_as machine.old).config }
    ensures appended { OnOk result ((M.seen_as machine.new).log ≡ followed_by (M.seen_as machine.old).log (event_view event ∷ [])) }
    ensures unchanged { OnErr result ((M.seen_as machine.new).log ≡ (M.seen_as machine.old).log) }
    ensures accepted { OnOk result (refusal_in (M.seen_as machine.old) (event_view event) ≡ None) }
    ensures refused { IfErr result (λ e. IsRefusal e (refusal_in (M.seen_as machine.old) (event_view event))) }
    ensures reply { IfOk result (λ reply. reply_view reply ≡ reply_of (state_in (M.seen_as machine.old)) (event_view event)) }
    ensures tables { AreTables (M.seen_as machine.new) tables.new.items }
{
    let addition = addition_of(machine.core().config(), &event)?;
    let reply = machine.take_from(&mut Some(event))?;
    match addition {
        Some((chain, observation)) => {
            keep_up(&mut tables[chain], observation);
            Ok(reply)
        }
        None => Ok(reply),
    }
}
