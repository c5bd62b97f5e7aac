//! What a client's fees are made of.
ghost use Rattle.rb_base.specs.Fee.{IsFeeTable};
ghost use Rattle.rb_explain_plan.specs.Charges.{IsChargesOf};

use rb_base::FeeTable;

/// What a client's fees are made of.
#[derive(Clone, Copy, PartialEq, Eq)]
pub struct Charges {
    pub base: u64,
    pub signature: u64,
    pub validator: u64,
}

/// The three numbers of a fee table.
pub fn charges_of(fees: &FeeTable) -> Charges
    ensures charges { IsChargesOf fees.now result }
    ensures table { IsFeeTable fees.now }
{
    Charges {
        base: fees.charge(0, 0),
        signature: fees.signature(),
        validator: fees.validator(),
    }
}
