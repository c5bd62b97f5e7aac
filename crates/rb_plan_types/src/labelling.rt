//! Labels of heights.
ghost use Rattle.std.specs.Prelude.{◌≡◌, ◌<◌, ◌≤◌, ◌^◌, ◌↔◌, [], nat_lt, map, IsTrue, IfOk, IfSome, MatchOption, All, Any};
ghost use Rattle.std.specs.List.Sorted.{IsStrictlyIncreasing};
ghost use Rattle.rb_plan_types.specs.declared.labelling.Label.{Label};
ghost use Rattle.std.specs.Arc.{arc_value};
ghost use Rattle.rb_plan_types.specs.Labelling.{IsLabelling, label_of};

use crate::cost::Cost;
use rb_base::Height;
use std::alloc::{AllocError, Allocator, Global};
use std::marker::Model;
use std::sync::Arc;

/// The label of a height: what an acceptable list of updates that leaves the height stored and live
/// costs at least.
#[derive(Clone, Copy, PartialEq, Eq)]
pub struct Label {
    pub height: Height,
    pub cost: Cost,
}

/// Labels by rising height, their numbers at most 2^63 - 1. Its copies share them.
#[derive(Drop)]
pub struct Labelling<A: Allocator = Global> {
    labels: Arc<Vec<Label, A>, A>,
}

impl<A: Allocator> Model for Labelling<A> {
    ghost use Rattle.std.specs.Prelude.{List};
    ghost use Rattle.std.specs.Arc.{arc_value};
    ghost use Rattle.rb_plan_types.specs.declared.labelling.Label.{Label};

    ghost Value = { List Label };

    ghost use Rattle.rb_plan_types.specs.Labelling.{IsLabelling};

    ghost view = { λ l. (arc_value l.labels).items };

    ghost invariant = { λ l. IsLabelling (arc_value l.labels).items };
}

impl<A: Allocator> Labelling<A> {
    /// The label of the height, if it has one.
    pub fn get(&self, height: Height) -> Option<Cost>
        ensures label { result ≡ label_of self.now height }
        ensures small { IfSome result (λ c. (c.fee < 2 ^ 63) × (c.count < 2 ^ 63)) }
    {
        label_at(self.labels.as_slice(), height)
    }

    /// The labels by rising height.
    pub fn labels(&self) -> &[Label]
        ensures labels { result.now ≡ self.now }
        ensures labelling { IsLabelling self.now }
    {
        self.labels.as_slice()
    }
}

impl<A: Allocator + Copy> Labelling<A> {
    /// The labelling of these labels, in blocks of their size on the allocator of the list.
    pub fn new(labels: Vec<Label, A>) -> Result<Labelling<A>, AllocError>
        requires { IsLabelling labels.items }
        ensures { IfOk result (λ labelling. labelling ≡ labels.items) }
    {
        let alloc = *labels.allocator();
        let fitted = Vec::from_slice(alloc, labels.as_slice())?;
        Ok(Labelling {
            labels: Arc::new(alloc, fitted)?,
        })
    }
}

impl<A: Allocator> Labelling<A> {
    /// An equal labelling, which shares the labels of this one. Takes no memory; the error is
    /// that there are too many copies.
    pub fn copy(&self) -> Result<Labelling<A>, AllocError>
        ensures { IfOk result (λ labelling. labelling ≡ self.now) }
    {
        Ok(Labelling {
            labels: Arc::try_clone(&self.labels)?,
        })
    }
}

/// The greatest labelled height.
pub fn top_reachable<A: Allocator>(labelling: &Labelling<A>) -> Option<Height>
    ensures labelled { MatchOption result (labelling.now ≡ []) (λ top. Any (λ l. l.height ≡ top) labelling.now) }
    ensures greatest { IfSome result (λ top. All (λ l. l.height ≤ top) labelling.now) }
{
    labelling.labels().last().map(|label| label.height)
}

/// Whether heights rise strictly and numbers are at most 2^63 - 1: the condition of
/// `Labelling::new`.
pub fn are_labels(labels: &[Label]) -> bool
    ensures { IsTrue result ↔ IsLabelling labels.now }
{
    rise(labels) && labels.iter().all(|label| is_small(label.cost))
}

fn rise(labels: &[Label]) -> bool
    ensures { IsTrue result ↔ IsStrictlyIncreasing (map (λ (l : Label). l.height) labels.now) }
{
    labels.is_sorted_by(
        |lower: &Label, higher: &Label| -> bool
            ensures { result ≡ nat_lt lower.now.height higher.now.height }
        { lower.height < higher.height },
    )
}

fn is_small(cost: Cost) -> bool
    ensures { IsTrue result ↔ ((cost.fee < 2 ^ 63) × (cost.count < 2 ^ 63)) }
{
    cost.fee < 1 << 63 && cost.count < 1 << 63
}

/// The cost of the label of the height, by binary search.
pub(crate) fn label_at(labels: &[Label], height: Height) -> Option<Cost>
    requires { IsLabelling labels.now }
    ensures label { result ≡ label_of labels.now height }
    ensures small { IfSome result (λ c. (c.fee < 2 ^ 63) × (c.count < 2 ^ 63)) }
{
    match labels.binary_search_by_key(&height, |label| label.height) {
        Ok(place) => Some(labels[place].cost),
        Err(_) => None,
    }
}
