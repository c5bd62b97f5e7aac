//! Laws of what goes in time, and of how few updates do.
ghost use Rattle.rb_super.specs.Alive.{KeptAlive, TurnsFollowTheRule};
ghost use Rattle.rb_super.specs.Fewest.{UpdatesAreFewest};
ghost use Rattle.rb_super.specs.InTime.{MessagesGoInTime};
ghost use Rattle.rb_super.specs.Next.{IdleUntilNext, NextIsNext};
ghost use Rattle.rb_super.specs.Pressing.{PressingGoes};
ghost use Rattle.rb_super.specs.Prompt.{NoneWaits};
ghost use Rattle.rb_super.specs.Punctual.{UpdatesKeepDeadlines};
ghost use Rattle.rb_super.specs.Seen.{SeenIsFewest};
ghost use Rattle.rb_super.specs.Steady.{MessagesStayReady, TakenUpdatesAreFewest};
ghost use Rattle.rb_super.specs.Updates.{PressingUpdates};

use crate::laws::planned_views_are_views;
use rb_book::laws::stays_a_book;
use rb_plan_types::refresh_laws::{next_refresh, refresh_is_in_reach};
use rb_scan::laws::{all_go_along, settled_is_not_owed};

/// In each turn of a script whose messages may not wait all messages that are ready for a client that is refreshed by
/// age go at once. So it is in scripts of versions 1 and 2 (`rb_script_read::laws::early_scripts_wait_not`).
pub fn none_waits()
    ensures { NoneWaits }
{
    rb_plan_client::laws::none_waits();
    stays_a_book();
}

/// Where a message presses, all ready messages go, in a plan that can be made, however the client is refreshed,
/// unless a goal was asked for; by gain only one that has to be met exactly keeps them back.
pub fn pressing_goes()
    ensures { PressingGoes }
{
    rb_plan_client::laws::pressing_goes();
    refresh_is_in_reach();
    all_go_along();
}

/// A client without a goal has one next at the moment that is told, and not before, while nothing new is seen,
/// however it is refreshed.
pub fn next_is_next()
    ensures { NextIsNext }
{
    rb_plan_client::laws::next_is_next();
    next_refresh();
    refresh_is_in_reach();
}

/// So it is of each client that a script's turn reports as idle.
pub fn idle_until_next()
    ensures { IdleUntilNext }
{
    next_is_next();
    stays_a_book();
    planned_views_are_views();
}

/// A message that presses in a turn is in the batch that the turn opens for its client, unless that client is
/// held by an open batch, or what it was asked for keeps messages back, or nothing of its plan is sent because a
/// message is over the gas limit alone.
pub fn messages_go_in_time()
    ensures { MessagesGoInTime }
{
    pressing_goes();
}

/// A run that sends exactly where a message is seen to press, and never sees again what was ready in a sending turn, keeps
/// every deadline in the fewest turns.
pub fn seen_is_fewest()
    ensures { SeenIsFewest }
{}

/// No choice of turns that sends every message before or when it presses, and not before it is ready, has fewer turns
/// than those in which packets make a client update, where the client's batches are settled whole and its messages
/// stay ready.
pub fn updates_are_fewest()
    ensures { UpdatesAreFewest }
{
    seen_is_fewest();
    pressing_goes();
    stays_a_book();
    settled_is_not_owed();
}

/// On UNORDERED paths messages stay ready, where the client can be brought as high in the turns in which packets
/// make it update as in those before.
pub fn messages_stay_ready()
    ensures { MessagesStayReady }
{
    stays_a_book();
}

/// In a script that has no settlement, so that batches stay open until turns take them, packets make a client with
/// UNORDERED paths update in the fewest turns, where it can be brought as high in those turns as in those before.
pub fn taken_updates_are_fewest()
    ensures { TakenUpdatesAreFewest }
{
    updates_are_fewest();
    messages_stay_ready();
}

/// In a script whose turns take all batches that are open, and ask for no goal, the turns in which packets make a
/// client update keep every deadline, if no message is over the gas limit alone.
pub fn updates_keep_deadlines()
    ensures { UpdatesKeepDeadlines }
{
    seen_is_fewest();
    messages_go_in_time();
    stays_a_book();
}

/// Where a message presses, and what was asked for keeps no message back, the plan has updates, if what is known of the
/// client keeps what every view keeps (`planned_views_are_views`).
pub fn pressing_updates()
    ensures { PressingUpdates }
{
    refresh_is_in_reach();
}

/// The turns of a client that is refreshed by gain follow the rule on refreshes, by what its turns report: so all laws of
/// refreshes hold of them (`rb_plan_types::refresh_laws`).
pub fn turns_follow_the_rule()
    ensures { TurnsFollowTheRule }
{
    stays_a_book();
    refresh_is_in_reach();
    planned_views_are_views();
}

/// A client that is refreshed by gain never expires, if it is live in the first turn and can be kept in each turn after
/// which it would expire: the next turn's window ends within a third of the trusting period, a header is in reach that lives
/// beyond that end by more than a hundredth of the refresh age, no batch was open, no height was asked for exactly, and what
/// the turn plans is stored by the next one.
pub fn kept_alive()
    ensures { KeptAlive }
{
    rb_plan_types::refresh_laws::kept_alive();
    turns_follow_the_rule();
}
