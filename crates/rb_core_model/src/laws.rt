//! Laws of the relayer, over the definitions alone.
ghost use Rattle.rb_core_model.specs.Batches.{Batches, BatchesAreRight, MessagesAreInOneBatch, MessagesStandOnce, SettledMessagesAreGone};
ghost use Rattle.rb_core_model.specs.Examples.{Examples};
ghost use Rattle.rb_core_model.specs.Steps.{JudgedByStanding};
ghost use Rattle.rb_core_model.specs.Views.{ClientViewsAreViews};

use rb_book::laws::{finds_what_was_added, stays_a_book};
use rb_scan::laws::{
    going_receives_are_consecutive, ready_is_within_reach, ready_receives_are_consecutive,
    settled_is_not_owed,
};
use rb_step::laws::views_are_orderly;

/// Each batch that is opened has the least list of updates, the ready messages and the least cut as
/// things stand at its place in the log.
pub fn batches_are_right()
    ensures { BatchesAreRight }
{
    ready_receives_are_consecutive();
    going_receives_are_consecutive();
    ready_is_within_reach();
}

/// A packet message is in the open batch of at most one client.
pub fn messages_are_in_one_batch()
    ensures { MessagesAreInOneBatch }
{
    settled_is_not_owed();
}

/// No message stands twice in an open batch.
pub fn messages_stand_once()
    ensures { MessagesStandOnce }
{
    finds_what_was_added();
    stays_a_book();
    views_are_orderly();
}

/// A message that was settled is in no open batch any more.
pub fn settled_messages_are_gone()
    ensures { SettledMessagesAreGone }
{
    settled_is_not_owed();
}

/// What is true of the batches that are opened, whatever happens.
pub fn batches()
    ensures { Batches }
{
    batches_are_right();
    messages_are_in_one_batch();
    messages_stand_once();
    settled_messages_are_gone();
}

/// Worked cases of refusals, replies and views.
pub fn examples()
    ensures { Examples }
{}

/// What is seen of a client, whatever happened, is a view.
pub fn client_views_are_views()
    ensures { ClientViewsAreViews }
{
    finds_what_was_added();
    stays_a_book();
    views_are_orderly();
}

/// What comes from outside is judged by how things stand.
pub fn judged_by_standing()
    ensures { JudgedByStanding }
{}
