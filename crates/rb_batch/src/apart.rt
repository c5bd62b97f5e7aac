//! Cuts of some messages apart from others.
ghost use Rattle.std.specs.Prelude.{◌≡◌, ◌+◌, ◌++◌, ◌<◌, ◌^◌, ℕ, length, map, IfOk, OnOk, IsErrOf};
ghost use Rattle.rb_batch.specs.Cut.{IsLeastCut, IsCutApart, IsFirstTooBig, NoneIsTooBig, shifted};

use crate::cutting::cut;
use crate::error::BatchError;
use crate::limits::Limits;
use crate::message::Msg;
use crate::transaction::Transaction;
use std::alloc::{AllocError, Allocator};

/// The least cut of messages that stand behind so many others, each transaction so many messages further on.
fn cut_behind<A: Allocator>(
    alloc: A,
    before: &[Msg],
    messages: &[Msg],
    limits: Limits,
) -> Result<Vec<Transaction, A>, BatchError>
    ensures least { IfOk result (λ transactions. IsLeastCut limits messages.now transactions.items) }
    ensures none_too_big { OnOk result (NoneIsTooBig limits messages.now) }
    ensures too_big { (index : ℕ) → NoneIsTooBig limits before.now → IsErrOf result (BatchError.TooBig index) → IsFirstTooBig limits (before.now ++ messages.now) index }
{
    match cut(alloc, messages, limits) {
        Err(BatchError::TooBig(index)) => Err(BatchError::TooBig(before.len() + index)),
        result => result,
    }
}

/// Puts transactions to the end of a list, each so many messages further on.
fn append_behind<A: Allocator>(
    transactions: &mut Vec<Transaction, A>,
    before: &[Msg],
    messages: &[Msg],
    limits: Limits,
    behind: &[Transaction],
) -> Result<(), AllocError>
    requires { IsLeastCut limits messages.now behind.now }
    ensures { OnOk result (transactions.new.items ≡ transactions.old.items ++ map (shifted (length before.now)) behind.now) }
{
    let count = before.len();
    for transaction in behind {
        transactions.push(transaction.shifted(count))?;
    }
    Ok(())
}

/// The updates cut into the fewest transactions within the limits, as `cut` has it, and behind them the
/// messages likewise: no transaction carries both. `TooBig` with the index of the first of all that is over the
/// gas limit alone, the updates first.
pub fn cut_apart<A: Allocator + Copy>(
    alloc: A,
    updates: &[Msg],
    messages: &[Msg],
    limits: Limits,
) -> Result<Vec<Transaction, A>, BatchError>
    ensures apart { IfOk result (λ transactions. IsCutApart limits updates.now messages.now transactions.items) }
    ensures too_big { (index : ℕ) → IsErrOf result (BatchError.TooBig index) → IsFirstTooBig limits (updates.now ++ messages.now) index }
{
    let mut transactions = cut(alloc, updates, limits)?;
    let behind = cut_behind(alloc, updates, messages, limits)?;
    append_behind(
        &mut transactions,
        updates,
        messages,
        limits,
        behind.as_slice(),
    )?;
    Ok(transactions)
}
