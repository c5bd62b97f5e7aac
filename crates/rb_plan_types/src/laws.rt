//! Laws of lists of updates and of their labels, over the definitions alone.
ghost use Rattle.rb_plan_types.specs.Laws.{SoundBounds, OrderIsTotal, AnswersAreOne, ExactIsUpward, ExactExists};

use rb_step::laws::{success_is_acceptance, views_are_orderly};

/// Every height that an acceptable list leaves stored and live has a sound label, and the list costs
/// at least that.
pub fn sound_bounds()
    ensures { SoundBounds }
{
    views_are_orderly();
}

/// The order of lists is total, and no two different lists are equal in it.
pub fn order_is_total()
    ensures { OrderIsTotal }
{}

/// There is at most one least list, and at most one exact labelling.
pub fn answers_are_one()
    ensures { AnswersAreOne }
{}

/// A labelling is exact where it is sound and each label comes from a source or from a trusted
/// height's label.
pub fn exact_is_upward()
    ensures { ExactIsUpward }
{
    views_are_orderly();
}

/// Every client has an exact labelling.
pub fn exact_exists()
    ensures { ExactExists }
{
    views_are_orderly();
    success_is_acceptance();
}
