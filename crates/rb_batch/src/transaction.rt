//! Transactions as a cut makes them.
ghost use Rattle.std.specs.Prelude.{◌≡◌, ◌+◌, ◌^◌, ◌<◌, ◌≤◌, ◌↔◌, IsTrue};
ghost use Rattle.rb_batch.specs.Cut.{shifted};

use crate::limits::Limits;
use crate::message::Msg;

/// A transaction, by the run of messages that it carries.
#[derive(Clone, Copy, PartialEq, Eq)]
pub struct Transaction {
    /// The index of its first message.
    pub first: usize,
    /// How many messages it carries.
    pub count: usize,
    /// The gas of those messages and its own.
    pub gas: u64,
}

impl Transaction {
    /// The transaction, which stands so many messages further on.
    pub(crate) fn shifted(&self, count: usize) -> Transaction
        requires { count + self.now.first < 2 ^ 64 }
        ensures { result ≡ shifted count self.now }
    {
        Transaction {
            first: count + self.first,
            count: self.count,
            gas: self.gas,
        }
    }

    /// A transaction that carries nothing yet, and will carry messages from `first` on.
    pub(crate) fn empty(first: usize, transaction_gas: u64) -> Transaction
        ensures { result ≡ record { first = first; count = 0; gas = transaction_gas } }
    {
        Transaction {
            first,
            count: 0,
            gas: transaction_gas,
        }
    }

    /// Whether the message goes into it too.
    pub(crate) fn has_room(&self, message: Msg, limits: &Limits) -> bool
        requires { self.now.gas < 2 ^ 63 }
        ensures { IsTrue result
            ↔ ((self.now.count < limits.now.count) × (self.now.gas + message ≤ limits.now.gas)) }
    {
        self.count < limits.count() && self.gas + message.gas() <= limits.gas()
    }

    /// Adds the message.
    pub(crate) fn add(&mut self, message: Msg)
        requires count { self.old.count + 1 < 2 ^ 64 }
        requires gas { self.old.gas + message < 2 ^ 64 }
        ensures { self.new
            ≡ record { first = self.old.first; count = self.old.count + 1; gas = self.old.gas + message } }
    {
        self.count += 1;
        self.gas += message.gas();
    }
}
