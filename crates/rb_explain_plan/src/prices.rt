//! Lists of updates with their fees.
ghost use Rattle.std.specs.Prelude.{◌≡◌, ◌<◌, ◌^◌};
ghost use Rattle.rb_step.specs.LightClient.{total_fee};
ghost use Rattle.rb_step.specs.View.{client_of};

use rb_plan_types::Update;
use rb_step::ClientView;
use std::alloc::{Allocator, Global};

/// Updates in their order, and what they cost in all by the client's fees.
#[derive(Drop)]
pub struct PricedList<A: Allocator = Global> {
    pub updates: Vec<Update, A>,
    pub fee: u128,
}

/// The updates with their fees in all.
pub fn priced<A: Allocator + Copy>(
    view: &ClientView<'_, A>,
    updates: Vec<Update, A>,
) -> PricedList<A>
    ensures updates { result.updates.items ≡ updates.items }
    ensures fee { result.fee ≡ total_fee (client_of view.now) updates.items }
    ensures bound { result.fee < 2 ^ 127 }
{
    let fee = total_fee(view, updates.as_slice());
    PricedList { updates, fee }
}

/// What updates cost in all.
pub(crate) fn total_fee<A: Allocator + Copy>(view: &ClientView<'_, A>, updates: &[Update]) -> u128
    ensures value { result ≡ total_fee (client_of view.now) updates.now }
    ensures bound { result < 2 ^ 127 }
{
    let mut total: u128 = 0;
    for update in updates {
        total += u128::from(view.fee(update.trusted(), update.height()));
    }
    total
}
