//! Sums of the powers whose bit is set. None takes memory.
ghost use Rattle.std.specs.Prelude.{◌≡◌, ◌≤◌, ◌==◌, ℕ, length, drop, map, sum, sum_by, replicate};
ghost use Rattle.std.specs.Simd.Lanes.{sel_l};
ghost use Rattle.rb_lanes.specs.Lanes.{masked_total, member_total, bits_of, max_total};

use crate::plane::Plane;
use crate::powers::Powers;
use std::alloc::Allocator;
use std::simd::prelude::*;

/// The lanes whose byte is 1, and 0 at the others.
fn chosen(lanes: u64x8, bytes: u8x8) -> u64x8
    requires lanes { length lanes ≡ 8 }
    requires bytes { length bytes ≡ 8 }
    ensures { result ≡ sel_l (bits_of bytes) lanes (replicate 8 0) }
{
    bytes
        .cast::<u64>()
        .simd_eq(u64x8::splat(1))
        .select(lanes, u64x8::splat(0))
}

/// The sum of the powers in the columns below both lengths whose bit is set, where the first power
/// is that of the column `first`: eight columns a step, then one by one.
pub(crate) fn masked_sum_from<A: Allocator>(
    powers: &Powers<A>,
    plane: &Plane<A>,
    first: usize,
) -> u64
    ensures value { result ≡ masked_total powers.now (drop first plane.now) }
    ensures bound { result ≤ sum powers.now }
{
    let by_column = powers.as_slice();
    let bytes = plane.bytes_from(first);
    let columns = bytes.len().min(by_column.len());
    let mut chosen_powers = u64x8::splat(0);
    for step in 0..columns / 8 {
        let lanes = u64x8::from_slice(&by_column[8 * step..]);
        let lane_bytes = u8x8::from_slice(&bytes[8 * step..]);
        chosen_powers = chosen_powers.strict_add(chosen(lanes, lane_bytes));
    }
    let mut sum = chosen_powers.strict_reduce_sum();
    for column in columns / 8 * 8..columns {
        sum += by_column[column] * u64::from(bytes[column] == 1);
    }
    sum
}

/// The sum of the powers in the columns below both lengths whose bit is set, eight columns a step.
/// Columns past the shorter of the two add nothing.
pub fn masked_sum<A: Allocator>(powers: &Powers<A>, plane: &Plane<A>) -> u64
    ensures value { result ≡ masked_total powers.now plane.now }
    ensures bound { result ≤ sum powers.now }
{
    masked_sum_from(powers, plane, 0)
}

/// The same sum, one column after the other.
pub fn plain_sum<A: Allocator>(powers: &Powers<A>, plane: &Plane<A>) -> u64
    ensures value { result ≡ masked_total powers.now plane.now }
    ensures bound { result ≤ sum powers.now }
{
    let by_column = powers.as_slice();
    let mut sum = 0;
    for (column, power) in by_column.iter().enumerate() {
        if plane.get(column) {
            sum += *power;
        }
    }
    sum
}

/// The sum of the powers, each beside its column, whose column's bit is set. Each is multiplied by
/// its column's byte, so that no jump depends on a bit and scattered bits cost no more than others.
pub(crate) fn member_sum<A: Allocator>(members: &[(u32, u64)], plane: &Plane<A>) -> u64
    requires { sum_by (λ (m : ℕ × ℕ). m.1) members.now ≤ max_total }
    ensures { result ≡ member_total members.now plane.now }
{
    let mut sum = 0;
    for (column, power) in members {
        sum += *power * u64::from(plane.byte(*column as usize));
    }
    sum
}
