//! The least cut of messages into transactions.
ghost use Rattle.std.specs.Prelude.{ℕ, ◌↔◌, IsTrue, IfOk, OnOk, IsErrOf};
ghost use Rattle.rb_batch.specs.Limits.{IsTooBig};
ghost use Rattle.rb_batch.specs.Cut.{IsLeastCut, IsFirstTooBig, NoneIsTooBig};

use crate::error::BatchError;
use crate::limits::Limits;
use crate::message::Msg;
use crate::transaction::Transaction;
use std::alloc::Allocator;

/// The messages cut into the fewest transactions within the limits, the first as long as it can be,
/// then the second, and so on; `TooBig` with the index of the first message that is over the gas
/// limit alone, the transaction gas counted. No messages give no transaction.
pub fn cut<A: Allocator>(
    alloc: A,
    messages: &[Msg],
    limits: Limits,
) -> Result<Vec<Transaction, A>, BatchError>
    ensures least { IfOk result (λ transactions. IsLeastCut limits messages.now transactions.items) }
    ensures none_too_big { OnOk result (NoneIsTooBig limits messages.now) }
    ensures too_big { (index : ℕ) → IsErrOf result (BatchError.TooBig index) → IsFirstTooBig limits messages.now index }
{
    let transaction_gas = limits.transaction_gas();
    let mut transactions = Vec::new(alloc);
    let mut last = Transaction::empty(0, transaction_gas);
    for (index, message) in messages.iter().enumerate() {
        if is_too_big(*message, &limits) {
            return Err(BatchError::TooBig(index));
        }
        if !last.has_room(*message, &limits) {
            transactions.push(last)?;
            last = Transaction::empty(index, transaction_gas);
        }
        last.add(*message);
    }
    if last.count > 0 {
        transactions.push(last)?;
    }
    Ok(transactions)
}

/// Whether the message is over the gas limit alone.
fn is_too_big(message: Msg, limits: &Limits) -> bool
    ensures { IsTrue result ↔ IsTooBig limits.now message }
{
    message.gas() + limits.transaction_gas() > limits.gas()
}
