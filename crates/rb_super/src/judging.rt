//! The judgement of an answer that was made for a client in a turn of a script.
ghost use Rattle.std.specs.Prelude.{◌≡◌, ◌<◌, Ok, Some, None, length, take, slice_get, IfOk};
ghost use denote.Param.Send.{Frees};
ghost use Rattle.rb_core_model.specs.Standing.{batch_open};
ghost use Rattle.rb_core.specs.Core.{state_in};
ghost use Rattle.rb_core_model.specs.Machine.{client_view};
ghost use Rattle.rb_script_types.specs.declared.goal.Goal.{Goal as AnyGoal};
ghost use Rattle.rb_script_types.specs.Script.{script_view, IsReadScript};
ghost use Rattle.rb_plan_types.specs.Answer.{labels_of, claim_of, Shows};
ghost use Rattle.rb_plan_types.specs.Labelling.{IsSound, IsExact};
ghost use Rattle.rb_step.specs.View.{client_of};
ghost use Rattle.rb_super_turn.specs.Judging.{IsPlanPhase, IsWanted, IsVerdictFor, IsVerdictIn, IsRightAs, IsExactAs, IsVerdictOn, IsRightIn, IsReported};
ghost use Rattle.rb_super_turn.specs.Phases.{standing_in, HasLogRoom, IsPlannable};
ghost use Rattle.rb_super_turn.specs.Report.{Report};
ghost use Rattle.rb_super_turn.specs.AsEvents.{as_events};
ghost use Rattle.rb_super_turn.specs.Turns.{IsReportOf};

use crate::run::run_turns;
use crate::supervisor::Supervisor;
use rb_base::{Gate, OpenGate};
use rb_batch::laws::{cut_apart_is_division, cut_apart_is_one, least_cut_is_one};
use rb_cert::{Judgement, certify_par};
use rb_plan_client::JobView;
use rb_plan_types::Answer;
use rb_plan_types::laws::answers_are_one;
use rb_script_types::{Goal, Script, Turn};
use rb_step::ClientView;
use rb_super_turn::{Crew, Relayer, draft_of, view_of};
use std::alloc::{AllocError, Allocator};
use std::thread::Threads;

/// The turns before a place, and the one there.
fn turns_to<A: Allocator + Copy>(turns: Vec<Turn<A>, A>, place: usize) -> (Vec<Turn<A>, A>, Turn<A>)
    requires { place < length turns.items }
    ensures before { result.0.items ≡ take place turns.items }
    ensures there { slice_get turns.items place ≡ Some result.1 }
{
    let mut turns = turns;
    let this = turns.remove(place);
    turns.truncate(place);
    (turns, this)
}

/// The relayer where the clients of a script's turn are planned.
fn plan_phase<R: Threads + Sync, G: Gate + Sync, A: Allocator + Copy + Send + Sync>(
    crew: &Crew<R, G>,
    alloc: A,
    script: Script<A>,
    turn: usize,
) -> Result<Relayer<A>, AllocError>
    requires script { IsReadScript (script_view script) }
    requires turn { turn < length script.turns.items }
    requires alloc { Frees A.Allocator A.dealloc_token }
    ensures phase { IfOk result (λ relayer. IsPlanPhase (as_events (script_view script)) turn (standing_in relayer)) }
    ensures ready { IfOk result IsPlannable }
    ensures clients { IfOk result (λ relayer. length relayer.config.clients ≡ length script.config.clients.items) }
    ensures room { IfOk result (λ relayer. HasLogRoom relayer (length relayer.config.clients)) }
{
    let Script { config, turns } = script;
    let (earlier, this) = turns_to(turns, turn);
    let supervisor = Supervisor::new(alloc, config)?;
    let (_, begun) = run_turns(crew, alloc, supervisor, earlier)?;
    let relayer = begun.plan_phase(crew, this)?;
    Ok(relayer)
}

/// What a client is to be brought to, by the greatest height that it can be brought to.
fn wanted<R: Threads + Sync, G: Gate + Sync, A: Allocator + Copy + Send + Sync>(
    crew: &Crew<R, G>,
    alloc: A,
    relayer: &mut Relayer<A>,
    client: usize,
    job: &JobView<A>,
) -> Result<Option<Goal>, AllocError>
    requires client { client < length relayer.old.config.clients }
    requires view { client_view (state_in relayer.old) client ≡ Some job.now }
    requires alloc { Frees A.Allocator A.dealloc_token }
    ensures { IfOk result (IsWanted job.now.task) }
{
    let draft = draft_of(crew, alloc, relayer, client, job.copy()?)?;
    match draft.answer() {
        Some(planned) => Ok(Some(planned.goal())),
        None => Ok(None),
    }
}

/// The certifier's verdict on an answer, where there is a goal.
fn verdict_for<R: Threads + Sync, G: Gate + Sync, A: Allocator + Copy + Send + Sync>(
    crew: &Crew<R, G>,
    view: &ClientView<'_, A>,
    goal: Option<Goal>,
    answer: &Answer<A>,
) -> Option<Judgement>
    ensures judged { IsVerdictFor view.now goal (labels_of answer.now) (claim_of answer.now) result }
    ensures right { result ≡ Some Judgement.Yes
        → (g : AnyGoal) × (goal ≡ Some g) × IsSound (client_of view.now) (labels_of answer.now) × Shows (client_of view.now) g (claim_of answer.now) }
    ensures accepts { (g : AnyGoal) → goal ≡ Some g → IsExact (client_of view.now) (labels_of answer.now)
        → Shows (client_of view.now) g (claim_of answer.now)
        → result ≡ Some Judgement.Yes }
{
    match goal {
        Some(goal) => Some(certify_par(crew.rt(), view, goal, answer)),
        None => None,
    }
}

/// The verdict on an answer for a client that has no open batch.
fn verdict_unheld<R: Threads + Sync, G: Gate + Sync, A: Allocator + Copy + Send + Sync>(
    crew: &Crew<R, G>,
    alloc: A,
    relayer: &mut Relayer<A>,
    client: usize,
    answer: &Answer<A>,
) -> Result<Option<Judgement>, AllocError>
    requires client { client < length relayer.old.config.clients }
    requires none_open { batch_open (standing_in relayer.old) client ≡ None }
    requires ready { IsPlannable relayer.old }
    requires room { HasLogRoom relayer.old 1 }
    requires alloc { Frees A.Allocator A.dealloc_token }
    ensures judged { IfOk result (λ verdict. IsVerdictIn (standing_in relayer.old) client (labels_of answer.now) (claim_of answer.now) verdict) }
    ensures right { result ≡ Ok (Some Judgement.Yes) → IsRightAs (standing_in relayer.old) client (labels_of answer.now) (claim_of answer.now) }
    ensures accepts { IsExactAs (standing_in relayer.old) client (labels_of answer.now) (claim_of answer.now)
        → IfOk result (λ verdict. verdict ≡ Some Judgement.Yes) }
{
    let job = view_of(relayer, client)?;
    let goal = wanted(crew, alloc, relayer, client, &job)?;
    let view = job.view();
    let verdict = verdict_for(crew, &view, goal, answer);
    Ok(verdict)
}

/// The verdict on an answer for a client as things stand.
fn verdict_on<R: Threads + Sync, G: Gate + Sync, A: Allocator + Copy + Send + Sync>(
    crew: &Crew<R, G>,
    alloc: A,
    relayer: &mut Relayer<A>,
    client: usize,
    answer: &Answer<A>,
) -> Result<Option<Judgement>, AllocError>
    requires client { client < length relayer.old.config.clients }
    requires ready { IsPlannable relayer.old }
    requires room { HasLogRoom relayer.old 1 }
    requires alloc { Frees A.Allocator A.dealloc_token }
    ensures judged { IfOk result (λ verdict. IsVerdictIn (standing_in relayer.old) client (labels_of answer.now) (claim_of answer.now) verdict) }
    ensures right { result ≡ Ok (Some Judgement.Yes) → IsRightAs (standing_in relayer.old) client (labels_of answer.now) (claim_of answer.now) }
    ensures accepts { IsExactAs (standing_in relayer.old) client (labels_of answer.now) (claim_of answer.now)
        → IfOk result (λ verdict. verdict ≡ Some Judgement.Yes) }
{
    if let Some(_) = relayer.open_batch(client) {
        return Ok(None);
    }
    verdict_unheld(crew, alloc, relayer, client, answer)
}

/// Judges an answer that was made for a client in a turn, both by their places in the script: the
/// certifier's verdict for the view and the goal that a run of the script plans the client by in
/// that turn. None where the client is held or idle. `Yes` says that the labelling is sound and the
/// answer right; the answer that a report of the script has there gets `Yes`. The headers are split
/// among as many threads as there are processors. Takes memory for the run alone: an error comes only
/// where a growth is refused.
pub fn judge<R: Threads + Sync, A: Allocator + Copy + Send + Sync>(
    rt: &R,
    alloc: A,
    script: Script<A>,
    turn: usize,
    client: usize,
    answer: &Answer<A>,
) -> Result<Option<Judgement>, AllocError>
    requires script { IsReadScript (script_view script) }
    requires turn { turn < length script.turns.items }
    requires client { client < length script.config.clients.items }
    requires alloc { Frees A.Allocator A.dealloc_token }
    ensures judged { IfOk result (λ verdict. IsVerdictOn (as_events (script_view script)) turn client (labels_of answer.now) (claim_of answer.now) verdict) }
    ensures right { result ≡ Ok (Some Judgement.Yes) → IsRightIn (as_events (script_view script)) turn client (labels_of answer.now) (claim_of answer.now) }
    ensures accepts { (report : Report) → IsReportOf (as_events (script_view script)) report
        → IsReported report turn client (labels_of answer.now) (claim_of answer.now)
        → IfOk result (λ verdict. verdict ≡ Some Judgement.Yes) }
{
    answers_are_one();
    least_cut_is_one();
    cut_apart_is_division();
    cut_apart_is_one();
    let crew = Crew::new(rt, 0, &OpenGate);
    let mut relayer = plan_phase(&crew, alloc, script, turn)?;
    verdict_on(&crew, alloc, &mut relayer, client, answer)
}
