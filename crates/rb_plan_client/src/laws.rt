//! Laws of what a client is to be brought to, which hold by their proofs alone.
ghost use Rattle.rb_plan_client.specs.Laws.{NoneWaits, PressingGoes, NextIsNext};

use rb_scan::laws::ready_is_within_reach;

/// Where no message may wait, all that are ready go at once, and the goal is that of all of them: so it is in
/// versions 1 and 2 of scripts.
pub fn none_waits()
    ensures { NoneWaits }
{}

/// Where a message presses and no goal was asked for, all ready messages go, in a plan that can be made.
pub fn pressing_goes()
    ensures { PressingGoes }
{
    ready_is_within_reach();
}

/// A client without a goal has one next at the moment that is told, and not before, while nothing new is seen.
pub fn next_is_next()
    ensures { NextIsNext }
{}
