//! Which leaves are neighbours.
ghost use Rattle.std.specs.Prelude.{◌≡◌, map, reverse, length};
ghost use Rattle.rb_ics23.specs.Proof.{inner_view};
ghost use Rattle.rb_ics23.specs.Neighbours.{is_left_child, is_right_child, is_left_most, is_right_most, same_step, are_apart, are_neighbours};

use crate::fit::{child_size, least_prefix, most_prefix};
use crate::proof::{InnerOp, ProofSpec};

fn is_left_child(spec: ProofSpec, step: &InnerOp) -> bool
    ensures { result ≡ is_left_child spec (inner_view step.now) }
{
    least_prefix(spec) <= step.prefix.len()
        && step.prefix.len() <= most_prefix(spec)
        && step.suffix.len() == child_size(spec)
}

fn is_right_child(spec: ProofSpec, step: &InnerOp) -> bool
    ensures { result ≡ is_right_child spec (inner_view step.now) }
{
    least_prefix(spec) + child_size(spec) <= step.prefix.len()
        && step.prefix.len() <= most_prefix(spec) + child_size(spec)
        && step.suffix.is_empty()
}

/// Whether the path leads to the first leaf.
#[tactic(auto, unfolding(crate::specs::Neighbours::is_left_most))]
pub fn is_left_most(spec: ProofSpec, path: &[InnerOp]) -> bool
    ensures { result ≡ is_left_most spec (map inner_view path.now) }
{
    for step in path {
        if !is_left_child(spec, step) {
            return false;
        }
    }
    true
}

/// Whether the path leads to the last leaf.
#[tactic(auto, unfolding(crate::specs::Neighbours::is_right_most))]
pub fn is_right_most(spec: ProofSpec, path: &[InnerOp]) -> bool
    ensures { result ≡ is_right_most spec (map inner_view path.now) }
{
    for step in path {
        if !is_right_child(spec, step) {
            return false;
        }
    }
    true
}

fn same_step(a: &InnerOp, b: &InnerOp) -> bool
    ensures { result ≡ same_step (inner_view a.now) (inner_view b.now) }
{
    a.prefix == b.prefix && a.suffix == b.suffix
}

/// Whether the first path leads to the leaf just left of that of the second.
pub fn are_neighbours(spec: ProofSpec, left: &[InnerOp], right: &[InnerOp]) -> bool
    ensures { result ≡ are_neighbours spec (map inner_view left.now) (map inner_view right.now) }
{
    let Some((l, left)) = left.split_last() else {
        return false;
    };
    let Some((r, right)) = right.split_last() else {
        return false;
    };
    if same_step(l, r) {
        return are_neighbours(spec, left, right);
    }
    are_apart(spec, l, left, r, right)
}

/// Whether two steps are the children of one node, and the leaves below them are neighbours.
#[tactic(auto, unfolding(crate::specs::Neighbours::are_apart))]
fn are_apart(spec: ProofSpec, l: &InnerOp, left: &[InnerOp], r: &InnerOp, right: &[InnerOp]) -> bool
    ensures { result ≡ are_apart spec (inner_view l.now) (map inner_view left.now) (inner_view r.now) (map inner_view right.now) }
{
    is_left_child(spec, l)
        && is_right_child(spec, r)
        && is_right_most(spec, left)
        && is_left_most(spec, right)
}
