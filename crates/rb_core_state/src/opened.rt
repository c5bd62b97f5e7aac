//! Open batches.
ghost use Rattle.std.specs.Prelude.{◌≡◌, IfOk};
ghost use Rattle.rb_core_model.specs.Standing.{batch_of};

use rb_base::Height;
use rb_batch::Transaction;
use rb_plan_client::{Batch, Message, Planned, Sending};
use rb_plan_types::Update;
use std::alloc::{AllocError, Allocator, Global};
use std::marker::Model;

/// A batch of a client, from when a plan opens it until it is settled: its number, its updates, its
/// packet messages, which follow them, the height at which these are proved, and the transactions that
/// carry both.
#[derive(Drop)]
pub struct OpenBatch<A: Allocator = Global> {
    number: u64,
    updates: Vec<Update, A>,
    messages: Vec<Message, A>,
    batch: Batch<A>,
}

impl<A: Allocator> Model for OpenBatch<A> {
    ghost use Rattle.rb_core_model.specs.Standing as standings;

    ghost Value = { standings.OpenBatch };

    ghost view = { λ b. record { number = b.number; proof = b.batch.proof; updates = b.updates.items; messages = b.messages.items; transactions = b.batch.transactions } };
}

impl<A: Allocator> OpenBatch<A> {
    /// The batch with this number, of these updates and messages.
    pub fn new(
        number: u64,
        updates: Vec<Update, A>,
        messages: Vec<Message, A>,
        batch: Batch<A>,
    ) -> OpenBatch<A>
        ensures { result ≡ record { number = number; proof = batch.proof; updates = updates.items; messages = messages.items; transactions = batch.transactions } }
    {
        OpenBatch {
            number,
            updates,
            messages,
            batch,
        }
    }

    /// The number of the batch, counted from 1 for each client.
    pub fn number(&self) -> u64
        ensures { result ≡ self.now.number }
    {
        self.number
    }

    /// The height at which its packet messages are proved: the greatest one that is stored and live in
    /// the client once the batch's updates are made.
    pub fn proof(&self) -> Height
        ensures { result ≡ self.now.proof }
    {
        self.batch.proof()
    }

    /// Its updates, in the order in which the client is to take them.
    pub fn updates(&self) -> &[Update]
        ensures { result.now ≡ self.now.updates }
    {
        self.updates.as_slice()
    }

    /// Its packet messages, which follow the updates.
    pub fn messages(&self) -> &[Message]
        ensures { result.now ≡ self.now.messages }
    {
        self.messages.as_slice()
    }

    /// Its transactions, in the order in which they are to be submitted. Messages are numbered from 0
    /// in them, the updates first.
    pub fn transactions(&self) -> &[Transaction]
        ensures { result.now ≡ self.now.transactions }
    {
        self.batch.transactions()
    }
}

impl<A: Allocator + Copy> OpenBatch<A> {
    /// An equal batch, on the same allocator. `AllocError` where memory is refused.
    pub fn copy(&self) -> Result<OpenBatch<A>, AllocError>
        ensures { IfOk result (λ copy. copy ≡ self.now) }
    {
        let alloc = *self.updates.allocator();
        Ok(OpenBatch {
            number: self.number,
            updates: Vec::from_slice(alloc, self.updates.as_slice())?,
            messages: Vec::from_slice(alloc, self.messages.as_slice())?,
            batch: self.batch.copy()?,
        })
    }
}

/// The batch with this number that a plan opens; None where there is no plan, or it opens no batch.
pub(crate) fn batch_of<A: Allocator>(
    number: u64,
    answer: Option<Planned<A>>,
) -> Option<OpenBatch<A>>
    ensures { result ≡ batch_of number answer }
{
    let plan = answer?.into_plan()?;
    let (updates, messages, sending) = plan.into_parts();
    match sending {
        Sending::Batched(batch) => Some(OpenBatch::new(number, updates, messages, batch)),
        Sending::Nothing | Sending::TooBig(_) => None,
    }
}
