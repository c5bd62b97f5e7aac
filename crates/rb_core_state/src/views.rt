//! Paths as they are scanned for pending messages.
ghost use Rattle.std.specs.Prelude.{◌≡◌, ◌==◌, ◌&&◌, map, IfOk, MatchOption};
ghost use Rattle.std.specs.Bool.{beq};
ghost use Rattle.std.specs.Cmp.Lexicographic.{pointwise};
ghost use Rattle.std.specs.List.Sorted.{IsStrictlyIncreasing};
ghost use Rattle.rb_book.specs.Book.{height_of, time_of, heights_and_times_of};
ghost use Rattle.rb_scan.specs.Path.{heights_of as path_heights, times_of as path_times};
ghost use Rattle.rb_scan.specs.Same.{same_packet, same_path, same_record};
ghost use Rattle.rb_scan.specs.Orders.{same_order};
ghost use Rattle.rb_core_state.specs.Room.{books_of};
ghost use Rattle.rb_core_model.specs.Standing.{book_at, empty_book, view_of_path};

use crate::path::PathState;
use rb_base::{Height, Moment};
use rb_book::{RecordAt, SharedBook};
use rb_scan::{Packet, PathView};
use std::alloc::{AllocError, Allocator};

/// The book of a chain; None where there is no such chain.
pub fn find_book<A: Allocator + Copy>(
    books: &[SharedBook<A>],
    chain: usize,
) -> Option<&SharedBook<A>>
    ensures { let book = book_at (books_of books.now) chain
        in MatchOption result (book ≡ empty_book 1) (λ shared. book ≡ shared.now.book) }
{
    books.get(chain)
}

/// The records of the book of a chain; none where there is no such chain.
fn records_in<A: Allocator + Copy>(books: &[SharedBook<A>], chain: usize) -> &[RecordAt]
    ensures { result.now ≡ (book_at (books_of books.now) chain).records }
{
    match find_book(books, chain) {
        Some(shared) => shared.book().records(),
        None => &[],
    }
}

/// The heights and the times of those records, which rise.
fn times_in<A: Allocator + Copy>(
    alloc: A,
    books: &[SharedBook<A>],
    chain: usize,
) -> Result<Vec<(Height, Moment), A>, AllocError>
    ensures value { IfOk result (λ list. list.items ≡ heights_and_times_of (book_at (books_of books.now) chain)) }
    ensures heights { IfOk result (λ list. IsStrictlyIncreasing (path_heights list.items)) }
    ensures times { IfOk result (λ list. IsStrictlyIncreasing (path_times list.items)) }
{
    let Some(shared) = find_book(books, chain) else {
        return Ok(Vec::new(alloc));
    };
    let list = shared.book().heights_and_times()?;
    Ok(list)
}

/// A path as it is scanned: its order, its first sequence, its packets, whether its channel is closed,
/// and the heights and the times of its destination's records, by which packets expire (ICS 4).
/// `AllocError` where memory is refused.
pub fn view_of<A: Allocator + Copy>(
    alloc: A,
    books: &[SharedBook<A>],
    path: &PathState<A>,
) -> Result<PathView<A>, AllocError>
    ensures { IfOk result (λ view. view ≡ view_of_path (books_of books.now) path.now.path) }
{
    let config = path.config();
    let sent = Vec::from_slice(alloc, path.packets())?;
    let list = times_in(alloc, books, config.destination)?;
    PathView::new(config.order, path.first(), sent, path.is_closed(), list)
}

fn same_packets(packets: &[Packet], others: &[Packet]) -> bool
    ensures { result ≡ pointwise same_packet packets.now others.now }
{
    packets == others
}

/// Whether these are the heights and the times of records.
fn are_times_of(times: &[(Height, Moment)], records: &[RecordAt]) -> bool
    ensures { result ≡ pointwise same_record times.now (map (λ k. (height_of k, time_of k)) records.now) }
{
    if times.len() != records.len() {
        return false;
    }
    for (place, record) in records.iter().enumerate() {
        let (height, time) = times[place];
        if height != record.height() || time != record.record().time() {
            return false;
        }
    }
    true
}

/// Whether a path's order, first sequence, packets and closedness are those of a view.
fn is_sent_as_seen<A: Allocator + Copy>(path: &PathState<A>, view: &PathView<A>) -> bool
    ensures { let p = path.now.path in let v = view.now
        in result ≡ (same_order v.order p.config.order && (v.first == p.first) && beq v.closed p.closed && pointwise same_packet v.packets p.packets) }
{
    view.order() == path.config().order
        && view.first() == path.first()
        && view.is_closed() == path.is_closed()
        && same_packets(view.packets(), path.packets())
}

/// Whether a path still is as a view shows it, its destination's records among it: a scan of the view is
/// valid as long as this is so.
pub fn is_as_seen<A: Allocator + Copy>(
    books: &[SharedBook<A>],
    path: &PathState<A>,
    view: &PathView<A>,
) -> bool
    ensures { result ≡ same_path view.now (view_of_path (books_of books.now) path.now.path) }
{
    let chain = path.config().destination;
    is_sent_as_seen(path, view) && are_times_of(view.destination(), records_in(books, chain))
}
