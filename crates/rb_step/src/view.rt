//! A client's view of the chain that it tracks.
ghost use Rattle.std.specs.Prelude.{◌≡◌, ◌<◌, ◌↔◌, nat_lt, IfOk, IsTrue, IsSome, All, Contains};
ghost use Rattle.std.specs.Option.{option_map};
ghost use Rattle.std.specs.List.Sorted.{IsStrictlyIncreasing};
ghost use Rattle.rb_book.specs.Book.{record_at};
ghost use Rattle.rb_step.specs.Fee.{fee_at, fee_limit};
ghost use Rattle.rb_step.specs.KnownStep.{step_at};
ghost use Rattle.rb_step.specs.LightClient.{IsSource};
ghost use Rattle.rb_step.specs.Sent.{sent_at, sent_view};
ghost use Rattle.rb_step.specs.View.{client_of, AreKnown, IsView};

use crate::sent::SentVotes;
use crate::step::Step;
use rb_base::{CarriedVotes, FeeTable, Height, Options, Ties, Window};
use rb_book::ChainBook;
use rb_valset::MAX_MEMBERS;
use std::alloc::{AllocError, Allocator, Global};
use std::marker::Model;

/// No step of as many votes as a set may have members, over two such sets, costs so much.
const FEE_LIMIT: u64 = 1 << 45;

/// A client in a window, over the book of the chain that it tracks: its options, its fees, the
/// heights that it has stored, the window in which it is to be updated, and the book. Stored
/// heights and book are borrowed, so that one book serves all clients of a chain.
#[derive(Drop)]
pub struct ClientView<'a, A: Allocator = Global> {
    options: Options,
    fees: FeeTable,
    stored: &'a [Height],
    window: Window,
    book: &'a ChainBook<A>,
}

impl<'a, A: Allocator> Model for ClientView<'a, A> {
    ghost use Rattle.rb_step.specs.View.{View, IsView};

    ghost Value = { View };

    ghost view = { λ v. record { options = v.options; fees = v.fees; stored = v.stored.now; window = v.window; book = v.book.now } };

    ghost invariant = { λ v. IsView (record { options = v.options; fees = v.fees; stored = v.stored.now; window = v.window; book = v.book.now }) };
}

fn rise(heights: &[Height]) -> bool
    ensures { IsTrue result ↔ IsStrictlyIncreasing heights.now }
{
    heights.is_sorted_by(
        |lower: &Height, higher: &Height| -> bool
            ensures { result ≡ nat_lt lower.now higher.now }
        { lower < higher },
    )
}

fn have_records<A: Allocator + Copy>(heights: &[Height], book: &ChainBook<A>) -> bool
    ensures { IsTrue result ↔ All (λ h. IsSome (record_at book.now h)) heights.now }
{
    heights.iter().all(|height| book.record(*height).is_some())
}

/// Whether heights rise strictly and each has a record in the book: the condition of
/// `ClientView::new`.
pub fn are_known<A: Allocator + Copy>(heights: &[Height], book: &ChainBook<A>) -> bool
    ensures { IsTrue result ↔ AreKnown book.now heights.now }
{
    rise(heights) && have_records(heights, book)
}

impl<'a, A: Allocator + Copy> ClientView<'a, A> {
    /// The view of these. The stored heights rise and each has a record in the book, as `are_known`
    /// tells.
    pub fn new(
        options: Options,
        fees: FeeTable,
        stored: &'a [Height],
        window: Window,
        book: &'a ChainBook<A>,
    ) -> ClientView<'a, A>
        requires { AreKnown book.now stored.now }
        ensures { result ≡ record { options = options; fees = fees; stored = stored.entry.now; window = window; book = book.entry.now } }
    {
        // What is true of every book and of every fee table is true of the view.
        prove!(book.records().len() <= book.limit());
        prove!(fees.charge(MAX_MEMBERS as u64, 2 * MAX_MEMBERS as u64) < FEE_LIMIT);
        ClientView {
            options,
            fees,
            stored,
            window,
            book,
        }
    }

    /// How the client judges headers.
    pub fn options(&self) -> Options
        ensures { result ≡ self.now.options }
    {
        self.options
    }

    /// Which heights come first in lists of updates that are equally cheap.
    #[tactic(auto, unfolding(crate::specs::View::client_of))]
    pub fn ties(&self) -> Ties
        ensures { result ≡ (client_of self.now).ties }
    {
        self.options.ties()
    }

    /// What an update of the client costs.
    pub fn fees(&self) -> FeeTable
        ensures { result ≡ self.now.fees }
    {
        self.fees
    }

    /// The heights that the client has stored, rising.
    pub fn stored(&self) -> &'a [Height]
        ensures value { result.now ≡ self.now.stored }
        ensures view { IsView self.now }
    {
        self.stored
    }

    /// The window in which the client is to be updated.
    pub fn window(&self) -> Window
        ensures { result ≡ self.now.window }
    {
        self.window
    }

    /// The book of the chain that the client tracks.
    pub fn book(&self) -> &'a ChainBook<A>
        ensures value { result.now ≡ self.now.book }
        ensures view { IsView self.now }
    {
        self.book
    }

    /// Whether the height is stored.
    #[tactic(auto, unfolding(crate::specs::View::client_of))]
    pub fn is_stored(&self, height: Height) -> bool
        ensures { IsTrue result ↔ Contains (client_of self.now).stored height }
    {
        let found = self.stored.binary_search(&height);
        found.is_ok()
    }

    /// Whether the record at the height is known and doesn't expire in the window.
    #[tactic(auto, unfolding(crate::specs::View::client_of))]
    pub fn is_live(&self, height: Height) -> bool
        ensures { IsTrue result ↔ (client_of self.now).IsLive height }
    {
        let Some(known) = self.book.record(height) else {
            return false;
        };
        let period = u128::from(self.options.period().nanoseconds());
        known.time().nanoseconds() + period > self.window.until().nanoseconds()
    }

    /// Whether the height is stored and live.
    pub fn is_source(&self, height: Height) -> bool
        ensures { IsTrue result ↔ IsSource (client_of self.now) height }
    {
        self.is_stored(height) && self.is_live(height)
    }

    /// The step from the record at a trusted height to the header at a height, where both are
    /// known.
    #[tactic(auto, unfolding(crate::specs::KnownStep::step_at))]
    fn step(&self, trusted: Height, height: Height) -> Option<Step<'a, A>>
        ensures { result ≡ step_at self.now.book trusted height }
    {
        let record = self.book.record(trusted)?;
        let header = self.book.header(height)?;
        let own = self.book.set(header.set_hash())?;
        Some(Step {
            trusted_height: trusted,
            trusted: record,
            next: self.book.set(record.next()),
            header,
            own,
        })
    }

    /// Whether the client accepts, at every moment of the window, the header at a height on the
    /// word of the record at a trusted height.
    #[tactic(auto, unfolding(crate::specs::View::client_of))]
    pub fn accepts(&self, trusted: Height, height: Height) -> bool
        ensures { IsTrue result ↔ (client_of self.now).Accepts trusted height }
    {
        match self.step(trusted, height) {
            Some(step) => step.is_accepted_within(&self.options, &self.window),
            None => false,
        }
    }

    /// What that update costs by a table of fees or of gas; 0 where no such step is known.
    pub fn charge(&self, table: &FeeTable, trusted: Height, height: Height) -> u64
        ensures value { result ≡ fee_at self.now.options table.now self.now.book trusted height }
        ensures bound { result < fee_limit }
    {
        match self.step(trusted, height) {
            Some(step) => step.charge(&self.options, table),
            None => 0,
        }
    }

    /// The votes that the update carries, where the client sends only those that are needed; `None` where
    /// it sends all, or no such step is known. `AllocError` where memory is wanting.
    #[tactic(auto, unfolding(crate::specs::Sent::sent_at))]
    pub fn sent_votes(
        &self,
        alloc: A,
        trusted: Height,
        height: Height,
    ) -> Result<Option<SentVotes<A>>, AllocError>
        ensures { IfOk result (λ sent. option_map sent_view sent ≡ sent_at self.now trusted height) }
    {
        match (self.options.votes(), self.step(trusted, height)) {
            (CarriedVotes::Needed, Some(step)) => Ok(Some(step.sent_votes(alloc, &self.options)?)),
            _ => Ok(None),
        }
    }

    /// The fee of that update.
    #[tactic(auto, unfolding(crate::specs::View::client_of))]
    pub fn fee(&self, trusted: Height, height: Height) -> u64
        ensures value { result ≡ (client_of self.now).fee trusted height }
        ensures bound { result < fee_limit }
    {
        self.charge(&self.fees, trusted, height)
    }
}
