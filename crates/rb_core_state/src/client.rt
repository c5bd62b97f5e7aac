//! The state of one client.
ghost use Rattle.std.specs.Prelude.{◌≡◌, ◌==◌, ◌≤◌, ◌<◌, ◌+◌, ◌↔◌, ℕ, filter, fold, length, nat_le, nat_lt, Some, None, IfOk, IfSome, IsTrue, OnOk, is_some, vec_len, vec_capacity};
ghost use Rattle.std.specs.List.Sorted.{IsStrictlyIncreasing};
ghost use Rattle.std.specs.Option.{option_map, option_map_or, option_copied};
ghost use Rattle.rb_core_model.specs.Begun.{max_begun};
ghost use Rattle.rb_core_model.specs.Limits.{max_events};
ghost use Rattle.rb_book.specs.Search.{IsPlace};
ghost use Rattle.rb_step.specs.LightClient.{Update};
ghost use Rattle.rb_core_model.specs.Snapshot.{client_from, snapshot_of_client};
ghost use Rattle.rb_core_model.specs.Standing as standings;
ghost use Rattle.rb_core_model.specs.Standing.{new_client, in_host_window, goes_back, goes_back_on, window_for, open_batch, settled_refusal, with_height, batch_opened, after_answer};
ghost use Rattle.rb_core_state.specs.Known.{known_client};

use crate::opened::{OpenBatch, batch_of};
use crate::snapshot::ClientSnapshot;
use rb_base::{Height, Window};
use rb_plan_client::Planned;
use rb_plan_types::Update;
use rb_script_types::{ClientConfig, Goal, Refusal};
use std::alloc::{AllocError, Allocator, Global};
use std::marker::Model;

/// Whether a window begins or ends before the present one.
pub fn goes_back(present: Option<Window>, window: Window) -> bool
    ensures { result ≡ goes_back present window }
{
    match present {
        Some(present) => window.from() < present.from() || window.until() < present.until(),
        None => false,
    }
}

/// The state of one client: its configuration, the window of its host where that has one of its own, the heights
/// that it has stored, rising, the goal that it was asked for, how many batches were opened for it, and the one that is open. A contract also sees
/// for how many more stored heights there is room.
#[derive(Drop)]
pub struct ClientState<A: Allocator = Global> {
    config: ClientConfig,
    window: Option<Window>,
    stored: Vec<Height, A>,
    asked: Option<Goal>,
    batches: u64,
    batch: Option<OpenBatch<A>>,
}

impl<A: Allocator> Model for ClientState<A> {
    ghost use Rattle.std.specs.Prelude.{◌-◌, vec_len, vec_capacity};
    ghost use Rattle.std.specs.List.Sorted.{IsStrictlyIncreasing};
    ghost use Rattle.rb_core_state.specs.Room as room;

    ghost Value = { room.ClientWithRoom };

    ghost view = { λ c. record {
      client = record { config = c.config; window = c.window; stored = c.stored.items; asked = c.asked; batches = c.batches; batch = c.batch };
      room = vec_capacity c.stored - vec_len c.stored;
    } };

    ghost invariant = { λ c. IsStrictlyIncreasing c.stored.items };
}

impl<A: Allocator> ClientState<A> {
    /// The state of a client before the first event: nothing is stored, asked or open.
    pub fn new(alloc: A, config: ClientConfig) -> ClientState<A>
        ensures { result.client ≡ new_client config }
    {
        ClientState {
            config,
            window: None,
            stored: Vec::new(alloc),
            asked: None,
            batches: 0,
            batch: None,
        }
    }

    /// The window of the client's host, where that has one of its own.
    pub fn own_window(&self) -> Option<Window>
        ensures { result ≡ self.now.client.window }
    {
        self.window
    }

    /// The client's configuration.
    pub fn config(&self) -> &ClientConfig
        ensures { result.now ≡ self.now.client.config }
    {
        &self.config
    }

    /// The window of the client, this being the common one: that of its host, or else the common one.
    pub fn window(&self, common: Window) -> Window
        ensures { result ≡ window_for common self.now.client }
    {
        self.window.unwrap_or(common)
    }

    /// Whether a window of a host goes back for the client, this being the common window.
    pub(crate) fn goes_back(&self, common: Option<Window>, host: usize, window: Window) -> bool
        ensures { result ≡ goes_back_on common host window self.now.client }
    {
        self.config.host == host && goes_back(self.window.or(common), window)
    }

    /// Takes in a window of a host, if it is the client's.
    pub(crate) fn enter(&mut self, host: usize, window: Window)
        ensures client { self.new.client ≡ in_host_window host window self.old.client }
        ensures room { self.new.room ≡ self.old.room }
    {
        if self.config.host == host {
            self.window = Some(window);
        }
    }

    /// The heights that the client has stored, rising.
    pub fn stored(&self) -> &[Height]
        ensures value { result.now ≡ self.now.client.stored }
        ensures rising { IsStrictlyIncreasing self.now.client.stored }
    {
        self.stored.as_slice()
    }

    /// The goal that the client was asked for; None where it was asked for none since its last plan.
    pub fn asked(&self) -> Option<Goal>
        ensures { result ≡ self.now.client.asked }
    {
        self.asked
    }

    /// The client's open batch; None where none is open.
    pub fn batch(&self) -> Option<&OpenBatch<A>>
        ensures { option_copied result ≡ self.now.client.batch }
    {
        self.batch.as_ref()
    }

    /// How many batches were opened for the client.
    pub fn batches(&self) -> u64
        ensures { result ≡ self.now.client.batches }
    {
        self.batches
    }

    /// Whether a batch of the client is open.
    pub fn is_held(&self) -> bool
        ensures { result ≡ is_some self.now.client.batch }
    {
        self.batch.is_some()
    }

    /// The open batch, if it has this number.
    fn open_batch(&self, number: u64) -> Option<&OpenBatch<A>>
        ensures { option_copied result ≡ open_batch self.now.client number }
    {
        let batch = self.batch.as_ref()?;
        if batch.number() == number {
            Some(batch)
        } else {
            None
        }
    }

    /// Why the settlement of a batch's first `done` transactions would be refused: `Repeat` where the
    /// batch was opened but is open no more, `OutOfOrder` where it was never opened or has fewer
    /// transactions. None where the settlement is accepted.
    pub(crate) fn refuse_settled(&self, number: u64, done: u64) -> Option<Refusal>
        ensures { result ≡ settled_refusal self.now.client number done }
    {
        match self.open_batch(number) {
            Some(batch) if (batch.transactions().len() as u64) < done => Some(Refusal::OutOfOrder),
            Some(_) => None,
            None if 1 <= number && number <= self.batches => Some(Refusal::Repeat),
            None => Some(Refusal::OutOfOrder),
        }
    }

    /// Asks for a goal.
    pub(crate) fn ask(&mut self, goal: Goal)
        ensures client { self.new.client ≡ record self.old.client { asked = Some goal } }
        ensures room { self.new.room ≡ self.old.room }
    {
        self.asked = Some(goal);
    }

    /// How many updates the open batch has.
    pub(crate) fn update_count(&self) -> usize
        ensures { result ≡ option_map_or (λ (b : standings.OpenBatch). length b.updates) self.now.client.batch 0 }
    {
        match &self.batch {
            Some(batch) => batch.updates().len(),
            None => 0,
        }
    }

    /// Makes room for so many more stored heights. `AllocError` where memory is refused.
    pub(crate) fn make_room(&mut self, count: usize) -> Result<(), AllocError>
        ensures same { self.new.client ≡ self.old.client }
        ensures room { OnOk result (count ≤ self.new.room) }
        ensures kept { (some : ℕ) → some ≤ self.old.room → some ≤ self.new.room }
    {
        self.stored.reserve(count)
    }

    /// Stores a height, which may be stored already.
    pub(crate) fn store(&mut self, height: Height)
        requires { 0 < self.old.room }
        ensures client { self.new.client ≡ record self.old.client { stored = with_height height self.old.client.stored } }
        ensures room { self.old.room ≤ self.new.room + 1 }
    {
        put_height(&mut self.stored, height);
    }

    /// Drops what was asked for, and opens the next batch, if a plan opens one, whose number is
    /// then the answer.
    pub(crate) fn open(&mut self, answer: Option<Planned<A>>) -> Option<u64>
        requires { self.old.client.batches < max_begun + max_events }
        ensures client { self.new.client ≡ after_answer answer self.old.client }
        ensures number { result ≡ option_map (λ (b : standings.OpenBatch). b.number) (batch_opened self.old.client answer) }
        ensures room { self.new.room ≡ self.old.room }
    {
        self.asked = None;
        self.batch = batch_of(self.batches + 1, answer);
        let number = self.batch.as_ref()?.number();
        self.batches = number;
        Some(number)
    }

    /// Stores the heights of updates.
    pub(crate) fn store_all(&mut self, updates: &[Update])
        requires { length updates.now ≤ self.old.room }
        ensures { self.new.client ≡ record self.old.client { stored = fold (λ heights (u : Update). with_height u.height heights) self.old.client.stored updates.now } }
    {
        put_heights(&mut self.stored, updates);
    }

    /// Forgets the stored heights below a height.
    pub(crate) fn forget(&mut self, below: Height)
        ensures client { self.new.client ≡ record self.old.client { stored = filter (λ h. nat_le below h) self.old.client.stored } }
    {
        self.stored.retain(|height| below <= *height);
    }

    /// Closes the batch that is open.
    pub(crate) fn close(&mut self) -> Option<OpenBatch<A>>
        ensures batch { result ≡ self.old.client.batch }
        ensures client { self.new.client ≡ record self.old.client { batch = None } }
        ensures room { self.new.room ≡ self.old.room }
    {
        self.batch.take()
    }
}

fn rise(heights: &[Height]) -> bool
    ensures { IsTrue result ↔ IsStrictlyIncreasing heights.now }
{
    heights.is_sorted_by(
        |lower: &Height, higher: &Height| -> bool
            ensures { result ≡ nat_lt lower.now higher.now }
        { lower < higher },
    )
}

/// The place of a height among rising ones, or else the place where it belongs.
fn place(heights: &[Height], height: Height) -> Result<usize, usize>
    requires { IsStrictlyIncreasing heights.now }
    ensures { IsPlace (λ h. h == height) (λ h. nat_lt h height) heights.now result }
{
    heights.binary_search_by_key(
        &height,
        |stored: &Height| -> Height
            ensures { result ≡ stored.now }
        { *stored },
    )
}

/// Puts a height in its place among rising ones, unless it is there already.
fn put_height<A: Allocator>(heights: &mut Vec<Height, A>, height: Height)
    requires rising { IsStrictlyIncreasing heights.old.items }
    requires room { vec_len heights.old < vec_capacity heights.old }
    ensures items { heights.new.items ≡ with_height height heights.old.items }
    ensures rising { IsStrictlyIncreasing heights.new.items }
    ensures len { vec_len heights.new ≤ vec_len heights.old + 1 }
    ensures capacity { vec_capacity heights.old ≤ vec_capacity heights.new }
{
    if let Err(place) = place(heights.as_slice(), height) {
        heights.insert(place, height).unwrap();
    }
}

/// Puts the heights of updates in their places.
fn put_heights<A: Allocator>(heights: &mut Vec<Height, A>, updates: &[Update])
    requires rising { IsStrictlyIncreasing heights.old.items }
    requires room { vec_len heights.old + length updates.now ≤ vec_capacity heights.old }
    ensures items { heights.new.items ≡ fold (λ heights (u : Update). with_height u.height heights) heights.old.items updates.now }
    ensures rising { IsStrictlyIncreasing heights.new.items }
{
    for update in updates {
        put_height(heights, update.height());
    }
}

/// An equal batch; None of None.
fn copy_batch<A: Allocator + Copy>(
    batch: &Option<OpenBatch<A>>,
) -> Result<Option<OpenBatch<A>>, AllocError>
    ensures { IfOk result (λ copy. copy ≡ batch.now) }
{
    Ok(match batch {
        Some(batch) => Some(batch.copy()?),
        None => None,
    })
}

impl<A: Allocator + Copy> ClientState<A> {
    /// An equal state, on the same allocator. `AllocError` where memory is refused.
    pub fn copy(&self) -> Result<ClientState<A>, AllocError>
        ensures { IfOk result (λ copy. copy.client ≡ self.now.client) }
    {
        Ok(ClientState {
            config: self.config,
            window: self.window,
            stored: Vec::from_slice(*self.stored.allocator(), self.stored.as_slice())?,
            asked: self.asked,
            batches: self.batches,
            batch: copy_batch(&self.batch)?,
        })
    }
    /// What is known of the client, on the same allocator. `AllocError` where memory is refused.
    pub(crate) fn snapshot(&self) -> Result<ClientSnapshot<A>, AllocError>
        ensures { IfOk result (λ known. known_client known ≡ snapshot_of_client self.now.client) }
    {
        Ok(ClientSnapshot {
            window: self.own_window(),
            stored: Vec::from_slice(*self.stored.allocator(), self.stored.as_slice())?,
            asked: self.asked,
            batches: self.batches,
            batch: copy_batch(&self.batch)?,
        })
    }

    /// The state of a client with this configuration of which this is known; None where its stored heights
    /// don't rise. `AllocError` where memory is refused.
    pub(crate) fn restored(
        alloc: A,
        config: ClientConfig,
        known: &ClientSnapshot<A>,
    ) -> Result<Option<ClientState<A>>, AllocError>
        ensures { IfOk result (λ found. IfSome found (λ state. state.client ≡ client_from config (known_client known.now))) }
    {
        if !rise(known.stored.as_slice()) {
            return Ok(None);
        }
        Ok(Some(ClientState {
            config,
            window: known.window,
            stored: Vec::from_slice(alloc, known.stored.as_slice())?,
            asked: known.asked,
            batches: known.batches,
            batch: copy_batch(&known.batch)?,
        }))
    }
}
