//! In which transactions messages are sent.
ghost use Rattle.std.specs.Prelude.{◌≡◌, IfOk};

use rb_base::Height;
use rb_batch::Transaction;
use std::alloc::{AllocError, Allocator, Global};
use std::marker::Model;

/// The transactions of a plan, and the height of the proving chain whose record proves its packets.
#[derive(Drop)]
pub struct Batch<A: Allocator = Global> {
    proof: Height,
    transactions: Vec<Transaction, A>,
}

impl<A: Allocator> Model for Batch<A> {
    ghost use Rattle.rb_plan_client.specs.Draft as drafts;

    ghost Value = { drafts.Batch };

    ghost view = { λ b. record { proof = b.proof; transactions = b.transactions.items } };
}

impl<A: Allocator> Batch<A> {
    /// The batch of these transactions, with the height that proves its packets.
    pub fn new(proof: Height, transactions: Vec<Transaction, A>) -> Batch<A>
        ensures { result ≡ record { proof = proof; transactions = transactions.items } }
    {
        Batch {
            proof,
            transactions,
        }
    }

    /// The height at which its packets are proved: the greatest one that is stored and live in the
    /// client once the batch's updates are made.
    pub fn proof(&self) -> Height
        ensures { result ≡ self.now.proof }
    {
        self.proof
    }

    /// Its transactions, in the order in which they are to be submitted. Together they carry the
    /// updates, then the packet messages, each once.
    pub fn transactions(&self) -> &[Transaction]
        ensures { result.now ≡ self.now.transactions }
    {
        self.transactions.as_slice()
    }
}

impl<A: Allocator + Copy> Batch<A> {
    /// An equal batch, on the same allocator. `AllocError` where the copy is refused memory.
    pub fn copy(&self) -> Result<Batch<A>, AllocError>
        ensures { IfOk result (λ copy. copy ≡ self.now) }
    {
        let alloc = *self.transactions.allocator();
        Ok(Batch {
            proof: self.proof,
            transactions: Vec::from_slice(alloc, self.transactions.as_slice())?,
        })
    }
}

/// In which transactions the messages of a plan are sent. The messages are numbered from 0, the
/// updates first.
#[derive(Drop)]
pub enum Sending<A: Allocator = Global> {
    /// In none: there is no message, since the goal is met as it is.
    Nothing,
    /// In none: the message with this number, and no earlier one, takes more gas alone than a
    /// transaction of the client may.
    TooBig(usize),
    /// In the fewest transactions that carry them all, each as long as it can be: they open a batch.
    Batched(Batch<A>),
}
