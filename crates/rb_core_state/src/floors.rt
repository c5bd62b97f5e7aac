//! The floors of the chains: all that is needed lies at or above them. Each `lower_` function gives the lesser
//! of a height and of the heights that something needs.
ghost use Rattle.std.specs.Prelude.{◌≡◌, ◌<◌, ℕ, [], None, Some, count_by, filter, find, length, map, nat_le, reverse, slice_index_or, IfOk, if◌then◌else◌};
ghost use Rattle.std.specs.List.{enumerate_from, flat_map, list_any};
ghost use Rattle.std.specs.Option.{option_map, option_to_list};
ghost use Rattle.rb_book.specs.Book.{height_of, is_below};
ghost use Rattle.rb_scan.specs.Expiry as expiry;
ghost use Rattle.rb_core_model.specs.Forgetting as forgetting;
ghost use Rattle.rb_core_model.specs.Standing.{book_at};
ghost use Rattle.rb_core_state.specs.Floors.{floor_in, floor_or_none, lowered, standing_at};
ghost use Rattle.rb_core_state.specs.Room.{books_of, clients_of, paths_of};

use crate::books::book_in;
use crate::client::ClientState;
use crate::path::PathState;
use crate::paths::has_many_over;
use rb_base::{Height, Moment, Period, Window};
use rb_book::{ChainBook, SharedBook};
use rb_plan_types::Update;
use rb_scan::{Order, Packet};
use std::alloc::{AllocError, Allocator};

/// The lesser of two heights, or the only one.
fn lesser(one: Option<Height>, other: Option<Height>) -> Option<Height>
    ensures { result ≡ expiry.lesser one other }
{
    let Some(one) = one else {
        return other;
    };
    match other {
        Some(other) if other < one => Some(other),
        _ => Some(one),
    }
}

/// Whether a moment is at a limit or past it.
fn has_come(limit: Moment, moment: Moment) -> bool
    ensures { result ≡ expiry.has_come (Some limit) (Some moment) }
{
    limit <= moment
}

/// Whether a stored height is live in a window.
fn is_live<A: Allocator>(
    window: &Window,
    period: Period,
    book: &ChainBook<A>,
    height: Height,
) -> bool
    ensures { result ≡ forgetting.is_live_in window.now period book.now height }
{
    match book.record(height) {
        Some(record) => {
            let expiry = record.time().nanoseconds() + u128::from(period.nanoseconds());
            window.until().nanoseconds() < expiry
        }
        None => false,
    }
}

/// The least of a height and of one that may be needed.
fn lower_if(needed: bool, lowest: Option<Height>, need: Option<Height>) -> Option<Height>
    ensures { result ≡ lowered lowest (if needed then option_to_list need else []) }
{
    if needed { lesser(lowest, need) } else { lowest }
}

/// The least of a height and those stored ones that are live.
fn lower_by_live<A: Allocator>(
    lowest: Option<Height>,
    window: &Window,
    period: Period,
    book: &ChainBook<A>,
    stored: &[Height],
) -> Option<Height>
    ensures { result ≡ lowered lowest (filter (forgetting.is_live_in window.now period book.now) stored.now) }
{
    let mut least = lowest;
    for height in stored {
        let live = is_live(window, period, book, *height);
        least = lower_if(live, least, Some(*height));
    }
    least
}

/// The least of a height and those of updates.
fn lower_by_updates(lowest: Option<Height>, updates: &[Update]) -> Option<Height>
    ensures { result ≡ lowered lowest (map (λ u. u.height) updates.now) }
{
    let mut least = lowest;
    for update in updates {
        least = lesser(least, Some(update.height()));
    }
    least
}

/// The least of a height and those that a client needs.
fn lower_by_client<A: Allocator>(
    lowest: Option<Height>,
    window: &Window,
    book: &ChainBook<A>,
    client: &ClientState<A>,
) -> Option<Height>
    ensures { result ≡ lowered lowest (forgetting.needs_of_client window.now book.now client.now.client) }
{
    let period = client.config().options.period();
    let window = client.window(*window);
    let live = lower_by_live(lowest, &window, period, book, client.stored());
    let lowest = lesser(live, client.stored().last().copied());
    match client.batch() {
        Some(batch) => lower_by_updates(lowest, batch.updates()),
        None => lowest,
    }
}

/// The lowest height whose record is at a limit or past it. Times rise, so there is none where the last record
/// is before the limit.
fn first_late<A: Allocator>(book: &ChainBook<A>, limit: Moment) -> Option<Height>
    ensures { result ≡ forgetting.lowest_late book.now (Some limit) }
{
    let records = book.records();
    if !has_come(limit, records.last()?.record().time()) {
        return None;
    }
    let late = records
        .iter()
        .find(|known| has_come(limit, known.record().time()))?;
    Some(late.height())
}

/// The lowest height whose record is at a limit or past it, if a limit is given.
fn lowest_late<A: Allocator>(book: &ChainBook<A>, limit: Option<Moment>) -> Option<Height>
    ensures { result ≡ forgetting.lowest_late book.now limit }
{
    first_late(book, limit?)
}

/// The least of a height and of the one that may prove the timeout of a packet in flight by its time.
fn lower_by_late<A: Allocator>(
    lowest: Option<Height>,
    in_flight: bool,
    book: &ChainBook<A>,
    limit: Option<Moment>,
) -> Option<Height>
    ensures { result ≡ lowered lowest (if in_flight then option_to_list (forgetting.lowest_late book.now limit) else []) }
{
    if in_flight {
        lesser(lowest, lowest_late(book, limit))
    } else {
        lowest
    }
}

/// The least of a height and those that a packet needs at its destination.
fn lower_there<A: Allocator>(
    lowest: Option<Height>,
    book: &ChainBook<A>,
    order: Order,
    packet: &Packet,
) -> Option<Height>
    ensures { result ≡ lowered lowest (forgetting.needs_there book.now order packet.now) }
{
    let in_flight = packet.is_in_flight();
    let lowest = lower_by_late(lowest, in_flight, book, packet.timeout_time());
    match order {
        Order::Unordered => lowest,
        Order::Ordered => {
            let lowest = lower_if(in_flight, lowest, packet.timeout_height());
            lower_if(!packet.is_cleared(), lowest, packet.written_floor())
        }
    }
}

/// The least of a height and those that a packet needs at its source.
fn lower_here(lowest: Option<Height>, order: Order, packet: &Packet) -> Option<Height>
    ensures { result ≡ lowered lowest (forgetting.needs_here order packet.now) }
{
    match order {
        Order::Unordered => lowest,
        Order::Ordered => lower_if(packet.is_in_flight(), lowest, Some(packet.sent_floor())),
    }
}

/// The least of a height and those that the packets of a path need at its source, if the chain is the source.
fn lower_on_source<A: Allocator>(
    lowest: Option<Height>,
    is_source: bool,
    path: &PathState<A>,
) -> Option<Height>
    ensures { result ≡ lowered lowest (if is_source then flat_map (forgetting.needs_here path.now.path.config.order) path.now.path.packets else []) }
{
    if !is_source {
        return lowest;
    }
    lower_by_sent(lowest, path.config().order, path.packets())
}

/// The least of a height and those that packets need at their source.
fn lower_by_sent(lowest: Option<Height>, order: Order, packets: &[Packet]) -> Option<Height>
    ensures { result ≡ lowered lowest (flat_map (forgetting.needs_here order) packets.now) }
{
    let mut least = lowest;
    for packet in packets {
        least = lower_here(least, order, packet);
    }
    least
}

/// The least of a height and those that the packets of a path need at its destination, if the chain of this
/// book is the destination.
fn lower_on_destination<A: Allocator>(
    lowest: Option<Height>,
    is_destination: bool,
    book: &ChainBook<A>,
    path: &PathState<A>,
) -> Option<Height>
    ensures { result ≡ lowered lowest (if is_destination then flat_map (forgetting.needs_there book.now path.now.path.config.order) path.now.path.packets else []) }
{
    if !is_destination {
        return lowest;
    }
    lower_by_received(lowest, book, path.config().order, path.packets())
}

/// The least of a height and those that packets need at their destination.
fn lower_by_received<A: Allocator>(
    lowest: Option<Height>,
    book: &ChainBook<A>,
    order: Order,
    packets: &[Packet],
) -> Option<Height>
    ensures { result ≡ lowered lowest (flat_map (forgetting.needs_there book.now order) packets.now) }
{
    let mut least = lowest;
    for packet in packets {
        least = lower_there(least, book, order, packet);
    }
    least
}

/// The least of a height and those that a path needs on a chain.
fn lower_by_path<A: Allocator + Copy>(
    lowest: Option<Height>,
    books: &[SharedBook<A>],
    chain: usize,
    path: &PathState<A>,
) -> Option<Height>
    requires { chain < length books.now }
    ensures { result ≡ lowered lowest (forgetting.needs_of_path (books_of books.now) chain path.now.path) }
{
    if path.is_closed() {
        return lowest;
    }
    let config = path.config();
    let lowest = lower_on_source(lowest, config.source == chain, path);
    lower_on_destination(
        lowest,
        config.destination == chain,
        book_in(books, chain),
        path,
    )
}

/// The least of a height and those that a client needs, if it tracks the chain of this book.
fn lower_by_tracking<A: Allocator>(
    lowest: Option<Height>,
    is_tracked: bool,
    window: &Window,
    book: &ChainBook<A>,
    client: &ClientState<A>,
) -> Option<Height>
    ensures { result ≡ lowered lowest (if is_tracked then forgetting.needs_of_client window.now book.now client.now.client else []) }
{
    if is_tracked {
        lower_by_client(lowest, window, book, client)
    } else {
        lowest
    }
}

/// The least of a height and those that a client needs on a chain.
fn lower_on_chain<A: Allocator + Copy>(
    lowest: Option<Height>,
    window: &Window,
    books: &[SharedBook<A>],
    chain: usize,
    client: &ClientState<A>,
) -> Option<Height>
    requires { chain < length books.now }
    ensures { result ≡ lowered lowest (forgetting.needs_on window.now (books_of books.now) chain client.now.client) }
{
    let is_tracked = client.config().tracks == chain;
    lower_by_tracking(lowest, is_tracked, window, book_in(books, chain), client)
}

/// The least height that clients need on a chain.
fn lowest_of_clients<A: Allocator + Copy>(
    window: &Window,
    books: &[SharedBook<A>],
    clients: &[ClientState<A>],
    chain: usize,
) -> Option<Height>
    requires { chain < length books.now }
    ensures { result ≡ lowered None (flat_map (forgetting.needs_on window.now (books_of books.now) chain) (clients_of clients.now)) }
{
    let mut least = None;
    for client in clients {
        least = lower_on_chain(least, window, books, chain, client);
    }
    least
}

/// The least of a height and those that paths need on a chain.
fn lower_by_paths<A: Allocator + Copy>(
    lowest: Option<Height>,
    books: &[SharedBook<A>],
    paths: &[PathState<A>],
    chain: usize,
) -> Option<Height>
    requires { chain < length books.now }
    ensures { result ≡ lowered lowest (flat_map (forgetting.needs_of_path (books_of books.now) chain) (paths_of paths.now)) }
{
    let mut least = lowest;
    for path in paths {
        least = lower_by_path(least, books, chain, path);
    }
    least
}

/// The greatest height of a record at or below a height.
fn top_upto<A: Allocator>(book: &ChainBook<A>, most: Height) -> Option<Height>
    ensures { result ≡ option_map height_of (find (λ k. nat_le (height_of k) most) (reverse book.now.records)) }
{
    let top = book
        .records()
        .iter()
        .rev()
        .find(|known| known.height() <= most)?;
    Some(top.height())
}

/// The floor of a chain: the greatest height of a record at or below all that is needed there. None where
/// nothing is needed, or no record is so low.
pub fn floor<A: Allocator + Copy>(
    window: &Window,
    books: &[SharedBook<A>],
    clients: &[ClientState<A>],
    paths: &[PathState<A>],
    chain: usize,
) -> Option<Height>
    requires { chain < length books.now }
    ensures { floor_or_none result ≡ forgetting.floor window.now (standing_at window.now books.now clients.now paths.now) chain }
{
    let lowest = lowest_of_clients(window, books, clients, chain);
    match lower_by_paths(lowest, books, paths, chain) {
        Some(lowest) => top_upto(book_in(books, chain), lowest),
        None => None,
    }
}

/// The floor of a chain among the floors of all; None where it has none.
pub(crate) fn floor_at(floors: &[Option<Height>], chain: usize) -> Option<Height>
    ensures { result ≡ slice_index_or floors.now chain None }
{
    match floors.get(chain) {
        Some(floor) => *floor,
        None => None,
    }
}

/// The floor of each chain, by its place.
pub fn floors<A: Allocator + Copy>(
    alloc: A,
    window: &Window,
    books: &[SharedBook<A>],
    clients: &[ClientState<A>],
    paths: &[PathState<A>],
) -> Result<Vec<Option<Height>, A>, AllocError>
    ensures count { IfOk result (λ floors. length floors.items ≡ length books.now) }
    ensures floors { IfOk result (λ floors. (chain : ℕ)
        → floor_in floors.items chain ≡ forgetting.floor window.now (standing_at window.now books.now clients.now paths.now) chain) }
{
    let mut floors = Vec::with_capacity(alloc, books.len())?;
    for chain in 0..books.len() {
        floors.push(floor(window, books, clients, paths, chain))?;
    }
    Ok(floors)
}

/// How many records lie below a floor, if there is one.
fn lower_count<A: Allocator>(book: &ChainBook<A>, floor: Option<Height>) -> usize
    ensures { result ≡ count_by (is_below (floor_or_none floor)) book.now.records }
{
    match floor {
        Some(floor) => book.lower_count(floor),
        None => 0,
    }
}

/// Whether so many records of a chain lie below its floor.
fn has_many_below<A: Allocator + Copy>(
    least: usize,
    window: &Window,
    books: &[SharedBook<A>],
    clients: &[ClientState<A>],
    paths: &[PathState<A>],
    chain: usize,
) -> bool
    requires { chain < length books.now }
    ensures { result ≡ forgetting.has_many_below least window.now (standing_at window.now books.now clients.now paths.now) (chain, book_at (books_of books.now) chain) }
{
    let floor = floor(window, books, clients, paths, chain);
    least <= lower_count(book_in(books, chain), floor)
}

/// Whether so many records of some chain lie below its floor.
fn has_many_low<A: Allocator + Copy>(
    least: usize,
    window: &Window,
    books: &[SharedBook<A>],
    clients: &[ClientState<A>],
    paths: &[PathState<A>],
) -> bool
    ensures { result ≡ list_any (forgetting.has_many_below least window.now (standing_at window.now books.now clients.now paths.now)) (enumerate_from 0 (books_of books.now)) }
{
    for chain in 0..books.len() {
        if has_many_below(least, window, books, clients, paths, chain) {
            return true;
        }
    }
    false
}

/// Whether so many records of some chain lie below its floor, or so many packets at the front of some path
/// would be forgotten.
pub fn has_many_to_forget<A: Allocator + Copy>(
    least: usize,
    window: &Window,
    books: &[SharedBook<A>],
    clients: &[ClientState<A>],
    paths: &[PathState<A>],
) -> bool
    ensures { result ≡ forgetting.has_many_to_forget least (standing_at window.now books.now clients.now paths.now) }
{
    has_many_low(least, window, books, clients, paths) || has_many_over(least, paths)
}
