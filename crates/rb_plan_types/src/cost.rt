//! What a list of updates costs.
ghost use Rattle.std.specs.Prelude.{◌≡◌, ◌+◌, ◌<◌, ◌^◌, ◌↔◌, IsTrue};
ghost use Rattle.rb_plan_types.specs.Order.{no_cost, after_update, IsCheaper};

/// A total fee and a number of updates, which are compared in this order.
#[derive(Clone, Copy, Debug, PartialEq, Eq)]
pub struct Cost {
    pub fee: u64,
    pub count: u64,
}

impl Cost {
    /// The cost of no update.
    pub const ZERO: Cost = Cost { fee: 0, count: 0 };

    /// The cost with one more update, of this fee.
    pub fn after_update(self, fee: u64) -> Cost
        requires fee { self.fee + fee < 2 ^ 64 }
        requires count { self.count + 1 < 2 ^ 64 }
        ensures { result ≡ after_update self fee }
    {
        Cost {
            fee: self.fee + fee,
            count: self.count + 1,
        }
    }

    /// Whether the fee is lower, or the fees are equal and the updates fewer.
    pub fn is_cheaper_than(self, other: Cost) -> bool
        ensures { IsTrue result ↔ IsCheaper self other }
    {
        self.fee < other.fee || self.fee == other.fee && self.count < other.count
    }
}
