//! Turns as they come.
ghost use Rattle.std.specs.Prelude.{◌≡◌, ◌⊎◌, false, None, Err, IfErr, IsSome, IsErr, OnOk, OnErr, IfSome, MatchResult};
ghost use Rattle.rb_follow.specs.Setups.{setup_of};
ghost use Rattle.rb_follow.specs.Journals.{outs};
ghost use Rattle.rb_follow.specs.Headline.{Follows, BeginsFollowing, GoesOn, BeginsGoingOn};
ghost use Rattle.ibcplan_cli.specs.Failures.{failure_status, told_fault, is_unwritten};

use crate::host::Host;
use ibcplan_cli::{Input, ProgramError, WorkerCount};
use rb_base::{Gate, Sink};
use rb_follow::{FollowError, Form, Journal, Watcher, follow_on, follow_over};
use rb_script_toml::{Fault, FaultName};
use std::alloc::Global;
use std::io;
use std::io::Read;
use std::sync::Arc;

/// What to do where a turn can't be stored.
const UNSTORED: &str =
    "The turn that was to be stored there isn't answered. Make room, and go on with the same --journal: it has all turns that were answered.";

/// What to do where a turn of the journal isn't answered as when it was stored.
const CHANGED: &str =
    "Go on with the release of ibcplan that began this journal, and with its turns as they were written; or begin another journal (docs/OPERATING.md).";

/// Tells on standard error what the answer to a document that is refused doesn't say, unless it is to be quiet.
#[derive(Drop)]
struct Notices<'a, R> {
    rt: &'a R,
    is_quiet: bool,
}

impl<R: Eprint> Watcher for Notices<'_, R> {
    fn refused(&self, fault: &Fault) {
        if self.is_quiet {
            return;
        }
        match (fault.name, fault.path.as_str(), &fault.reason) {
            (FaultName::NotToml, _, Some(reason)) => {
                let _ = eprint!(self.rt; "{fault}\n{reason}");
            }
            (FaultName::TooManyObjects | FaultName::TooManyEvents, "-", _) => {
                let _ = eprintln!(self.rt;
                    "{fault}\nThis process takes no more of them: begin anew (docs/OPERATING.md), with the consensus states that clients have stored by now"
                );
            }
            _ => {}
        }
    }
}

/// Answers the turns that come from an input, of a relayer that a file sets up, by so many workers, through a
/// gate; each is stored in a journal before it is answered. Nothing is written where the file is refused, and a
/// beginning of the answers, or nothing, where it fails otherwise.
pub fn follow<'a, R: Host, G: Gate + Send + Sync + Drop + 'static, I: Read, J: Journal, W: Sink>(
    rt: &R,
    alloc: Global,
    setup: &Input<'a>,
    input: &mut I,
    workers: WorkerCount,
    form: Form,
    is_quiet: bool,
    gate: G,
    journal: &mut J,
    output: &mut W,
) -> Result<(), ProgramError<'a>>
    requires { W.is_broken output.old ≡ false }
    ensures followed { OnOk result (IfSome (I.remaining input.old) (λ bytes. Follows form setup.now bytes (outs (W.taken output.old) (J.documents journal.old)) (outs (W.taken output.new) (J.documents journal.new)))) }
    ensures refused { IfErr result (λ failure. failure_status failure ≡ 1 → IsErr (setup_of setup.now)) }
    ensures fault { IfErr result (λ failure. IfSome (told_fault failure) (λ fault. setup_of setup.now ≡ Err fault)) }
    ensures nothing_written { IfErr result (λ failure. failure_status failure ≡ 1 → output.new ≡ output.old) }
    ensures device { MatchResult result (λ _. W.is_broken output.new ≡ false) (λ failure. W.is_broken output.new ≡ is_unwritten failure) }
    ensures begun { OnErr result (((output.new ≡ output.old) × (J.documents journal.new ≡ J.documents journal.old)) ⊎ IfSome (I.remaining input.old) (λ bytes. BeginsFollowing form setup.now bytes (outs (W.taken output.old) (J.documents journal.old)) (outs (W.taken output.new) (J.documents journal.new)))) }
{
    let Ok(gate) = Arc::new(alloc, gate) else {
        return Err(ProgramError::NoMemory);
    };
    let workers = workers.count();
    let notices = Notices { rt, is_quiet };
    let bytes = setup.bytes();
    match follow_over(
        rt, alloc, bytes, input, form, output, workers, &gate, &notices, journal,
    ) {
        Ok(()) => Ok(()),
        Err(FollowError::Run(error)) => Err(ProgramError::of_run(error, setup)),
        Err(FollowError::Input(error)) => Err(Input::unread(error)),
        Err(FollowError::Journal(error)) => {
            let advice = journal_advice(&error);
            Err(ProgramError::of_journal(setup.name(), error, advice))
        }
    }
}

/// The same by a follower that goes on from the state of its journal, where that has one.
pub fn follow_from<
    'a,
    R: Host,
    G: Gate + Send + Sync + Drop + 'static,
    I: Read,
    J: Journal,
    W: Sink,
>(
    rt: &R,
    alloc: Global,
    setup: &Input<'a>,
    state: Option<String>,
    input: &mut I,
    workers: WorkerCount,
    form: Form,
    is_quiet: bool,
    gate: G,
    journal: &mut J,
    output: &mut W,
) -> Result<(), ProgramError<'a>>
    requires { W.is_broken output.old ≡ false }
    ensures followed { OnOk result (IfSome (I.remaining input.old) (λ bytes. (state ≡ None → Follows form setup.now bytes (outs (W.taken output.old) (J.documents journal.old)) (outs (W.taken output.new) (J.documents journal.new))) × (IsSome state → GoesOn form setup.now bytes (outs (W.taken output.old) (J.documents journal.old)) (outs (W.taken output.new) (J.documents journal.new))))) }
    ensures begun { OnErr result (((output.new ≡ output.old) × (J.documents journal.new ≡ J.documents journal.old)) ⊎ IfSome (I.remaining input.old) (λ bytes. (state ≡ None → BeginsFollowing form setup.now bytes (outs (W.taken output.old) (J.documents journal.old)) (outs (W.taken output.new) (J.documents journal.new))) × (IsSome state → BeginsGoingOn form setup.now bytes (outs (W.taken output.old) (J.documents journal.old)) (outs (W.taken output.new) (J.documents journal.new))))) }
{
    let Some(state) = state else {
        return follow(
            rt, alloc, setup, input, workers, form, is_quiet, gate, journal, output,
        );
    };
    let Ok(gate) = Arc::new(alloc, gate) else {
        return Err(ProgramError::NoMemory);
    };
    let notices = Notices { rt, is_quiet };
    match follow_on(
        rt,
        alloc,
        setup.bytes(),
        state.as_str(),
        input,
        form,
        output,
        workers.count(),
        &gate,
        &notices,
        journal,
    ) {
        Ok(()) => Ok(()),
        Err(error) => Err(failure_of(error, setup)),
    }
}

/// Why following failed.
fn failure_of<'a>(error: FollowError, setup: &Input<'a>) -> ProgramError<'a> {
    match error {
        FollowError::Run(error) => ProgramError::of_run(error, setup),
        FollowError::Input(error) => Input::unread(error),
        FollowError::Journal(error) => {
            let advice = journal_advice(&error);
            ProgramError::of_journal(setup.name(), error, advice)
        }
    }
}

/// What to do where a journal fails.
fn journal_advice(error: &io::Error) -> &'static str {
    if error.kind() == io::ErrorKind::InvalidData {
        CHANGED
    } else {
        UNSTORED
    }
}
