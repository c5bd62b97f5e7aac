//! What one transaction may carry.
ghost use Rattle.std.specs.Prelude.{◌≡◌, ◌≤◌, ◌^◌};
ghost use Rattle.rb_batch.specs.Limits.{IsLimits};

use std::marker::Model;

/// What one transaction may carry: so much gas, its own counted, and so many messages.
#[derive(Clone, Copy, PartialEq, Eq)]
pub struct Limits {
    gas: u64,
    count: usize,
    transaction_gas: u64,
}

impl Model for Limits {
    ghost use Rattle.rb_batch.specs.Limits.{TransactionLimits, IsLimits};

    ghost Value = { TransactionLimits };

    ghost view = { λ l. record { gas = l.gas; count = l.count; transaction_gas = l.transaction_gas } };

    ghost invariant = { λ l. IsLimits (record { gas = l.gas; count = l.count; transaction_gas = l.transaction_gas }) };

    ghost inverse = { λ l. record { gas = l.gas; count = l.count; transaction_gas = l.transaction_gas } };
}

impl Limits {
    /// The highest gas limit.
    pub const MAX_GAS: u64 = 1_000_000_000_000_000;

    /// The highest count limit.
    pub const MAX_COUNT: usize = 10_000;

    /// The most gas that a transaction takes for itself.
    pub const MAX_TRANSACTION_GAS: u64 = 1_000_000_000;

    /// The limits of gas (1 to 10^15) and of count (1 to 10,000) of a transaction that takes
    /// `transaction_gas` (0 to 10^9) besides its messages' gas.
    pub fn new(gas: u64, count: usize, transaction_gas: u64) -> Limits
        requires gas_from { 1 ≤ gas }
        requires gas_to { gas ≤ 10 ^ 15 }
        requires count_from { 1 ≤ count }
        requires count_to { count ≤ 10000 }
        requires transaction_gas_to { transaction_gas ≤ 10 ^ 9 }
        ensures gas { result.gas ≡ gas }
        ensures count { result.count ≡ count }
        ensures transaction_gas { result.transaction_gas ≡ transaction_gas }
    {
        Limits {
            gas,
            count,
            transaction_gas,
        }
    }

    /// The most gas of a transaction, its own counted.
    pub fn gas(&self) -> u64
        ensures value { result ≡ self.now.gas }
        ensures range { IsLimits self.now }
    {
        self.gas
    }

    /// The most messages of a transaction.
    pub fn count(&self) -> usize
        ensures value { result ≡ self.now.count }
        ensures range { IsLimits self.now }
    {
        self.count
    }

    /// The gas of a transaction besides that of its messages.
    pub fn transaction_gas(&self) -> u64
        ensures value { result ≡ self.now.transaction_gas }
        ensures range { IsLimits self.now }
    {
        self.transaction_gas
    }
}
