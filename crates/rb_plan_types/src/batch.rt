//! What a batch needs beside its updates: the gas of each, and the height at which packets are proved.
ghost use Rattle.std.specs.Prelude.{◌≡◌, ◌<◌};
ghost use Rattle.rb_step.specs.Fee.{fee_at, fee_limit};
ghost use Rattle.rb_step.specs.View.{client_of};
ghost use Rattle.rb_plan_types.specs.ProofHeight.{IsProofHeight, IsLaterLive};

use crate::update::Update;
use rb_base::{FeeTable, Height};
use rb_step::ClientView;
use std::alloc::Allocator;

/// The gas of the update by a table of gas; 0 where the book doesn't know the step.
pub fn gas_of<A: Allocator + Copy>(view: &ClientView<A>, gas: &FeeTable, update: &Update) -> u64
    ensures value { result ≡ fee_at view.now.options gas.now view.now.book update.now.trusted update.now.height }
    ensures bound { result < fee_limit }
{
    view.charge(gas, update.trusted(), update.height())
}

/// The height, if it is live and above the top so far, else that top.
fn later_live<A: Allocator + Copy>(
    view: &ClientView<A>,
    top: Option<Height>,
    height: Height,
) -> Option<Height>
    ensures { IsLaterLive (client_of view.now) top height result }
{
    match top {
        Some(top) if height <= top => Some(top),
        _ if view.is_live(height) => Some(height),
        _ => top,
    }
}

/// The greatest height that the updates leave stored and live, at which a batch proves its packets;
/// None where they leave no height live.
pub fn proof_height<A: Allocator + Copy>(view: &ClientView<A>, updates: &[Update]) -> Option<Height>
    ensures { IsProofHeight (client_of view.now) updates.now result }
{
    let stored = view.stored();
    let mut top = None;
    for place in (0..stored.len()).rev() {
        top = later_live(view, top, stored[place]);
    }
    for update in updates {
        top = later_live(view, top, update.height());
    }
    top
}
