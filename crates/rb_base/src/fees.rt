//! What an update costs.
ghost use Rattle.std.specs.Prelude.{◌≡◌, ◌^◌, ◌*◌, ◌+◌, ◌<◌, ◌≤◌, ◌↔◌, IsErrOf};
ghost use Rattle.std.specs.Result.{OkIff};
ghost use Rattle.rb_base.specs.Fee.{Fees, charge_of, IsFeeTable};

use crate::error::BaseError;
use std::marker::Model;

/// What an update costs, in fees or in gas: a base, and so much for each vote that it carries and for each
/// validator whose power is counted.
#[derive(Clone, Copy, PartialEq, Eq)]
pub struct FeeTable {
    base: u64,
    signature: u64,
    validator: u64,
}

impl Model for FeeTable {
    ghost use Rattle.rb_base.specs.Fee.{Fees, IsFeeTable};

    ghost Value = { Fees };

    ghost view = { λ t. record { base = t.base; signature = t.signature; validator = t.validator } };

    ghost invariant = { λ t. IsFeeTable (record { base = t.base; signature = t.signature; validator = t.validator }) };

    ghost inverse = { λ f. record { base = f.base; signature = f.signature; validator = f.validator } };
}

impl FeeTable {
    /// The most that each of the three numbers may be.
    pub const MAX: u64 = 1_000_000_000;

    /// The table of these three; `FeeTooBig` where one of them is above 10^9.
    pub fn new(base: u64, signature: u64, validator: u64) -> Result<FeeTable, BaseError>
        ensures ok { let fees : Fees = record { base = base; signature = signature; validator = validator }
            in OkIff result (IsFeeTable fees) fees }
        ensures fee_too_big { let fees : Fees = record { base = base; signature = signature; validator = validator }
            in IsErrOf result BaseError.FeeTooBig ↔ (¬ IsFeeTable fees) }
    {
        if base > Self::MAX || signature > Self::MAX || validator > Self::MAX {
            return Err(BaseError::FeeTooBig);
        }
        Ok(FeeTable {
            base,
            signature,
            validator,
        })
    }

    /// What an update costs before its votes and validators.
    pub fn base(&self) -> u64
        ensures { result ≡ self.now.base }
    {
        self.base
    }

    /// What each vote that an update carries adds.
    pub fn signature(&self) -> u64
        ensures { result ≡ self.now.signature }
    {
        self.signature
    }

    /// What each validator adds whose power is counted.
    pub fn validator(&self) -> u64
        ensures { result ≡ self.now.validator }
    {
        self.validator
    }

    /// The charge for an update that carries so many votes over so many validators.
    pub fn charge(&self, commits: u64, validators: u64) -> u64
        requires commits { commits < 2 ^ 32 }
        requires validators { validators < 2 ^ 32 }
        ensures value { result ≡ charge_of self.now commits validators }
        ensures table { IsFeeTable self.now }
        ensures bound { result ≤ 10 ^ 9 * (1 + commits + validators) }
    {
        self.base + self.signature * commits + self.validator * validators
    }
}
