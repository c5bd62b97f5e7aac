//! A script, explained turn by turn.
ghost use Rattle.std.specs.Prelude.{◌≡◌, ℕ, List, Option, true, map, sum_by, All, IfOk, OnOk};
ghost use denote.Param.Send.{Frees};
ghost use Rattle.rb_script_types.specs.Script.{script_view, IsReadScript};
ghost use Rattle.rb_super_turn.specs.AsEvents.{as_events, code_turn_as_events, IsTurnFor, most_events};
ghost use Rattle.rb_super_turn.specs.Phases.{standing_in, HasLogRoom};
ghost use Rattle.rb_explain.specs.Listening.{Given, given, Gives, IsGivenAll, IsGivenOne, IsGivenScript};
ghost use Rattle.rb_explain.specs.Turn.{IsExplanation};
ghost use Rattle.rb_explain.specs.Wanted.{has_turn};

use crate::turn::{TurnExplanation, explain_turn};
use crate::wanted::Wanted;
use rb_base::Gate;
use rb_script_types::{Script, Turn};
use rb_super_turn::{Crew, Relayer};
use std::alloc::{AllocError, Allocator};
use std::thread::Threads;

/// Who is told of turns that were explained, each as it comes.
pub trait Listener<A: Allocator> {
    // The explanations that it was given, in their order, each with whether it asked for the next one, where they are known.
    ghost explanations: { Self → Option (List (Given A)) };

    /// A turn that is wanted was explained: its report, and each of its clients that is wanted, by what it was where clients were
    /// planned, in as much detail as is wanted. Answers whether the next turn is to be explained. An error comes only where a growth is
    /// refused; the turn then doesn't count as explained.
    fn explained(&mut self, turn: &TurnExplanation<A>) -> Result<bool, AllocError>
        requires { IsExplanation turn.now }
        ensures { IfOk result (λ goes_on. Gives (explanations self.old) (explanations self.new) (given turn.now goes_on)) };
}

/// Tells the listener of a turn, where it is wanted; answers whether the next turn is to be explained.
fn tell<A: Allocator, L: Listener<A>>(
    wanted: &Wanted,
    turn: &TurnExplanation<A>,
    listener: &mut L,
) -> Result<bool, AllocError>
    requires { has_turn wanted.now turn.now.turn ≡ true → IsExplanation turn.now }
    ensures { IfOk result (IsGivenOne (has_turn wanted.now turn.now.turn) turn.now (L.explanations listener.old) (L.explanations listener.new)) }
{
    if wanted.has_turn(turn.turn) {
        listener.explained(turn)
    } else {
        Ok(true)
    }
}

/// Leads a relayer through turns, and tells of those that are wanted, each once it is explained.
fn explain_turns<
    R: Threads + Sync,
    G: Gate + Sync,
    A: Allocator + Copy + Send + Sync,
    L: Listener<A>,
>(
    crew: &Crew<R, G>,
    alloc: A,
    relayer: Relayer<A>,
    turns: Vec<Turn<A>, A>,
    wanted: &Wanted,
    listener: &mut L,
) -> Result<(), AllocError>
    requires turns { All (IsTurnFor relayer.config) turns.items }
    requires room { HasLogRoom relayer (sum_by (most_events relayer.config) turns.items) }
    requires alloc { Frees A.Allocator A.dealloc_token }
    ensures { OnOk result (IsGivenAll wanted.now (standing_in relayer) (map code_turn_as_events turns.items) (L.explanations listener.old) (L.explanations listener.new)) }
{
    let mut relayer = relayer;
    let mut number: usize = 0;
    for turn in turns {
        number = number.saturating_add(1);
        if wanted.ends_before(number) {
            return Ok(());
        }
        let one = explain_turn(crew, alloc, &mut relayer, number, turn, wanted)?;
        if !tell(wanted, &one, listener)? {
            return Ok(());
        }
    }
    Ok(())
}

/// Runs a script by the calling thread alone, and tells the listener of the turns that are wanted, each once it is
/// explained, in their order, until it asks for no more; nothing of a turn is kept. The gate is called as each scan and plan begins and
/// ends, and when a client's plan was taken. An error comes only where a growth is refused.
pub fn explain_script<
    R: Threads + Sync,
    G: Gate + Sync,
    A: Allocator + Copy + Send + Sync,
    L: Listener<A>,
>(
    rt: &R,
    alloc: A,
    script: Script<A>,
    wanted: &Wanted,
    gate: &G,
    listener: &mut L,
) -> Result<(), AllocError>
    requires script { IsReadScript (script_view script) }
    requires alloc { Frees A.Allocator A.dealloc_token }
    ensures { OnOk result (IsGivenScript wanted.now (as_events (script_view script)) (L.explanations listener.old) (L.explanations listener.new)) }
{
    let crew = Crew::new(rt, 0, gate);
    let Script { config, turns } = script;
    let relayer = Relayer::new(alloc, config)?;
    explain_turns(&crew, alloc, relayer, turns, wanted, listener)
}
