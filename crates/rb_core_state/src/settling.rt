//! Which messages of a batch its first transactions carry.
ghost use Rattle.std.specs.Prelude.{◌≡◌, ℕ, take, sum_by};
ghost use Rattle.rb_batch.specs.declared.transaction.Transaction.{Transaction};
ghost use Rattle.rb_core_model.specs.Standing.{count_in, settled_updates, settled_messages};

use crate::opened::OpenBatch;
use rb_batch::Transaction;
use rb_plan_client::Message;
use rb_plan_types::Update;
use std::alloc::Allocator;

/// The first items, if there are so many.
fn first<T>(items: &[T], count: u128) -> &[T]
    ensures { result.now ≡ take count items.now }
{
    if count < items.len() as u128 {
        &items[..count as usize]
    } else {
        items
    }
}

/// How many messages the first transactions carry.
fn carried(transactions: &[Transaction], done: u64) -> u128
    ensures { result ≡ sum_by (λ (t : Transaction). t.count) (take done transactions.now) }
{
    let mut count = 0;
    for transaction in first(transactions, u128::from(done)) {
        count += transaction.count as u128;
    }
    count
}

/// How many messages the first transactions of a batch carry.
fn count_in<A: Allocator>(batch: &OpenBatch<A>, done: u64) -> u128
    ensures { result ≡ count_in batch.now done }
{
    carried(batch.transactions(), done)
}

/// The updates that the first `done` transactions of a batch carry.
pub(crate) fn settled_updates<A: Allocator>(batch: &OpenBatch<A>, done: u64) -> &[Update]
    ensures { result.now ≡ settled_updates batch.now done }
{
    first(batch.updates(), count_in(batch, done))
}

/// The packet messages that the first `done` transactions of a batch carry, in their order; all of them
/// where it has no more transactions.
pub fn settled_messages<A: Allocator>(batch: &OpenBatch<A>, done: u64) -> &[Message]
    ensures { result.now ≡ settled_messages batch.now done }
{
    let updates = batch.updates().len() as u128;
    first(
        batch.messages(),
        count_in(batch, done).saturating_sub(updates),
    )
}
