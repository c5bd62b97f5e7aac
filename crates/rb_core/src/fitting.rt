//! Whether what is known fits: what every list of events leaves, beside what the types of its parts keep.
ghost use Rattle.std.specs.Prelude.{◌≡◌, ◌↔◌, ◌≤◌, ℕ, All, AllPairs, IfSome, IsSome, IsTrue, Some, slice_get};
ghost use Rattle.std.specs.Option.{option_copied};
ghost use Rattle.rb_base.specs.Window.{Span};
ghost use Rattle.rb_book.specs.Book.{record_at};
ghost use Rattle.rb_book.specs.Invariant.{IsBook};
ghost use Rattle.rb_book.specs.Shared.{Shared};
ghost use Rattle.rb_core.specs.Order.{comes_before, kind_place};
ghost use Rattle.rb_core.specs.State.{standing_view};
ghost use Rattle.rb_core_model.specs.Config.{part_for};
ghost use Rattle.rb_core_model.specs.Fits.{AreApart, Fits, FitsBatch, FitsClient, FitsMessage, FitsPath, IsOpenOn, part_of};
ghost use Rattle.rb_core_state.specs.Room.{PathWithRoom};
ghost use Rattle.rb_step.specs.LightClient.{Update as UpdateTo};

use crate::path_views::find_path;
use crate::state::CoreState;
use rb_base::{Part, Window};
use rb_book::{ChainBook, SharedBook};
use rb_core_state::views::find_book;
use rb_core_state::{ClientState, OpenBatch, PathState};
use rb_plan_client::Message;
use rb_plan_types::Update;
use rb_scan::{Kind, PacketMsg};
use rb_script_types::PathConfig;
use rb_step::are_known;
use std::alloc::Allocator;

// ---- what is true by types; no call changes anything

fn in_order(window: Option<Window>)
    ensures { IfSome window (λ (w : Span). w.from ≤ w.until) }
{
    if let Some(window) = window {
        window.until();
    }
}

fn are_books<A: Allocator + Copy>(books: &[SharedBook<A>])
    ensures { All (λ (s : Shared). IsBook s.book) books.now }
{
    for book in books {
        book.book().records();
    }
}

fn are_paths<A: Allocator>(paths: &[PathState<A>])
    ensures { All (λ (h : PathWithRoom). FitsPath h.path) paths.now }
{
    for path in paths {
        path.packets();
    }
}

// ---- open batches

fn are_recorded<A: Allocator + Copy>(book: &ChainBook<A>, updates: &[Update]) -> bool
    ensures { IsTrue result ↔ All (λ (u : UpdateTo). IsSome (record_at book.now u.height)) updates.now }
{
    updates
        .iter()
        .all(|update| book.record(update.height()).is_some())
}

/// The place of a kind in the order of messages.
fn place_of(kind: Kind) -> u8
    ensures { result ≡ kind_place kind }
{
    match kind {
        Kind::Receive => 0,
        Kind::Acknowledge => 1,
        Kind::Timeout => 2,
    }
}

/// Whether a message comes before another, by path, kind and sequence.
fn is_before(message: &Message, other: &Message) -> bool
    ensures { result ≡ comes_before message.now other.now }
{
    let (packet, its) = (message.packet(), other.packet());
    let (place, its_place) = (place_of(packet.kind), place_of(its.kind));
    message.path() < other.path()
        || (message.path() == other.path()
            && (place < its_place || (place == its_place && packet.sequence < its.sequence)))
}

/// Whether the messages rise, so that none stands twice.
fn are_rising(messages: &[Message]) -> bool
    ensures { IsTrue result → AllPairs AreApart messages.now }
{
    messages.is_sorted_by(
        |message: &Message, next: &Message| -> bool
            ensures { result ≡ comes_before message.now next.now }
        { is_before(message, next) },
    )
}

/// Whether the receives of a path are for the client.
fn takes_receives(config: &PathConfig, client: usize) -> bool
    ensures { IsTrue result ↔ (part_for config.now client ≡ Some Part.Packets) }
{
    config.forward == client
}

/// Whether the acknowledgements and timeouts of a path are.
fn takes_outcomes(config: &PathConfig, client: usize) -> bool
    ensures { IsTrue result ↔ (part_for config.now client ≡ Some Part.Channel) }
{
    config.forward != client && config.back == client
}

/// Whether messages of this kind of a path are.
fn is_for(config: &PathConfig, client: usize, kind: Kind) -> bool
    ensures { IsTrue result ↔ (part_for config.now client ≡ Some (part_of kind)) }
{
    match kind {
        Kind::Receive => takes_receives(config, client),
        Kind::Acknowledge | Kind::Timeout => takes_outcomes(config, client),
    }
}

/// Whether a path has this client for a message, whose packet is there, and wasn't settled, or was forgotten.
fn fits_path<A: Allocator>(path: &PathState<A>, client: usize, message: PacketMsg) -> bool
    ensures { IsTrue result ↔ ((part_for path.now.path.config client ≡ Some (part_of message.kind)) × IsOpenOn path.now.path message) }
{
    is_for(path.config(), client, message.kind) && path.is_open(message)
}

/// Whether a message's path is there, and has it.
fn fits_message<A: Allocator + Copy>(state: &CoreState<A>, client: usize, message: &Message) -> bool
    ensures { IsTrue result ↔ FitsMessage (standing_view state.now).paths client message.now }
{
    match find_path(state, message.path()) {
        Some(path) => fits_path(path, client, message.packet()),
        None => false,
    }
}

fn fit_messages<A: Allocator + Copy>(
    state: &CoreState<A>,
    client: usize,
    messages: &[Message],
) -> bool
    ensures { IsTrue result ↔ All (FitsMessage (standing_view state.now).paths client) messages.now }
{
    messages
        .iter()
        .all(|message| fits_message(state, client, message))
}

/// Whether each update's height has a record, the messages rise, and each is one for the client.
fn fits_batch<A: Allocator + Copy>(
    state: &CoreState<A>,
    client: usize,
    book: &ChainBook<A>,
    batch: &OpenBatch<A>,
) -> bool
    ensures { IsTrue result → FitsBatch (standing_view state.now) client book.now batch.now }
{
    if !are_recorded(book, batch.updates()) {
        return false;
    }
    if !are_rising(batch.messages()) {
        return false;
    }
    fit_messages(state, client, batch.messages())
}

/// The same of a batch, if there is one.
fn fits_open<A: Allocator + Copy>(
    state: &CoreState<A>,
    client: usize,
    book: &ChainBook<A>,
    batch: Option<&OpenBatch<A>>,
) -> bool
    ensures { IsTrue result → IfSome (option_copied batch.entry) (FitsBatch (standing_view state.now) client book.now) }
{
    match batch {
        Some(batch) => fits_batch(state, client, book, batch),
        None => true,
    }
}

// ---- clients

/// Whether each stored height of a client has a record, and its open batch fits.
fn fits_client<A: Allocator + Copy>(
    state: &CoreState<A>,
    place: usize,
    client: &ClientState<A>,
) -> bool
    ensures { IsTrue result → FitsClient (standing_view state.now) place client.now.client }
{
    let Some(shared) = find_book(state.books.as_slice(), client.config().tracks) else {
        return false;
    };
    let book = shared.book();
    in_order(client.own_window());
    if !are_known(client.stored(), book) {
        return false;
    }
    fits_open(state, place, book, client.batch())
}

fn fit_clients<A: Allocator + Copy>(state: &CoreState<A>) -> bool
    ensures { IsTrue result → (client : ℕ) → IfSome (slice_get (standing_view state.now).clients client) (FitsClient (standing_view state.now) client) }
{
    for (place, client) in state.clients.iter().enumerate() {
        if !fits_client(state, place, client) {
            return false;
        }
    }
    true
}

/// Whether what is known fits.
pub(crate) fn is_fitting<A: Allocator + Copy>(state: &CoreState<A>) -> bool
    ensures { IsTrue result → Fits (standing_view state.now) }
{
    in_order(state.window);
    are_books(state.books.as_slice());
    are_paths(state.paths.as_slice());
    fit_clients(state)
}
