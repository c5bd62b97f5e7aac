//! The rule that each step of the board keeps, and what the steps tell.
ghost use Rattle.rb_board.specs.Knowledge.{nothing_yet};
ghost use Rattle.rb_board.specs.Rule.{HasBeginnings, Sees};

use crate::replica::Replica;
use atomic_table::{Join, Split};
use crossbeam_utils::rule::{Outcome, Protocol};
use rb_core::Follower;
use rb_core_model::SharedEntry;
use std::alloc::Allocator;
use std::collections::LinkedList;
use std::marker::Model;

/// What a seat at the board knows: how the board's core is configured and what its log begins with, if
/// that is known, and the entries of a beginning of the board's log. No value of it is made.
pub(crate) struct Knows {
    origin: Option<Follower>,
    entries: LinkedList<SharedEntry>,
}

impl Model for Knows {
    ghost use Rattle.std.specs.Option.{option_map};
    ghost use Rattle.rb_board.specs.Knowledge.{Knowledge};
    ghost use Rattle.rb_board.specs.Rule.{origin_of};

    ghost Value = { Knowledge };

    ghost view = { λ k. record { origin = option_map (λ f. origin_of f.past) k.origin; entries = k.entries } };
}

/// The rule: a log is published, and what each seat knows is a beginning of it.
pub(crate) struct Published;

impl<A: Allocator> Protocol<Replica<A>, Knows> for Published {
    ghost holds = { HasBeginnings };

    ghost first = { nothing_yet };
}

/// A look at what is published.
pub(crate) struct Looks;

impl<A: Allocator> Outcome<Replica<A>, Knows> for Looks {
    ghost then = { Sees };
}

/// All that the pen's seat knows, for a desk's seat.
pub(crate) struct Tells;

impl Split<Knows> for Tells {
    ghost left = { λ v. v };

    ghost right = { λ v. v };
}

impl Join<Knows> for Tells {
    ghost both = { λ v w. w };

    ghost spent = { nothing_yet };
}
