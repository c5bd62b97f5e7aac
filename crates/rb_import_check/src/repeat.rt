//! Heights that rise.
ghost use Rattle.std.specs.Prelude.{◌≡◌, ◌+◌, ◌<◌, ◌≤◌, length, slice_index, IfSome, IfNone};
ghost use Rattle.std.specs.List.Sorted.{IsStrictlyIncreasing};

use rb_base::Height;

/// The first place whose height isn't below the next one.
pub fn repeated(heights: &[Height]) -> Option<usize>
    ensures rising { IfNone result (IsStrictlyIncreasing heights.now) }
    ensures place { IfSome result (λ i. i + 1 < length heights.now) }
    ensures repeated { IfSome result (λ i. slice_index heights.now (i + 1) ≤ slice_index heights.now i) }
{
    for place in 1..heights.len() {
        if heights[place] <= heights[place - 1] {
            return Some(place - 1);
        }
    }
    None
}
