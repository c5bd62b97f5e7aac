//! What an update costs.
ghost use Rattle.std.specs.Prelude.{◌≡◌, ◌+◌, ◌≤◌, ◌<◌, length};
ghost use Rattle.std.specs.Option.{option_copied};
ghost use Rattle.rb_base.specs.Fee.{charge_of};
ghost use Rattle.rb_step.specs.Fee.{fee_limit, size_of};

use rb_base::FeeTable;
use rb_valset::ValidatorSet;
use std::alloc::Allocator;

/// What an update that carries so many votes costs by a table of fees or of gas. `next` is the set that
/// the trusted record names for the next block, if it is known, and `own` the header's own set.
pub fn charge_for<A: Allocator + Copy>(
    table: &FeeTable,
    votes: usize,
    next: Option<&ValidatorSet<A>>,
    own: &ValidatorSet<A>,
) -> u64
    requires { votes ≤ length own.now }
    ensures value { result ≡ charge_of table.now votes (length own.now + size_of (option_copied next.entry)) }
    ensures bound { result < fee_limit }
{
    let next_size = next.map_or(0, |next| next.size());
    let validators = own.size() + next_size;
    table.charge(votes as u64, validators as u64)
}
