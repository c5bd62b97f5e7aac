//! Following an input to its end.
ghost use Rattle.std.specs.Prelude.{◌≡◌, ◌≤◌, ◌++◌, ◌∷◌, ◌↔◌, ◌⊎◌, List, ℕ, [], true, false, Ok, Err, IfOk, IfErr, IfSome, OnOk, OnErr, IsErrOf};
ghost use Rattle.std.specs.Io.KnownBytes.{Appends};
ghost use Rattle.rb_base.specs.Sink.{AppendsBeginning};
ghost use Rattle.rb_script_config.specs.Paths.{path_ids};
ghost use Rattle.rb_script_toml.specs.declared.fault.Fault.{Fault as CodeFault};
ghost use Rattle.rb_script_toml.specs.Faults.{fault_view};
ghost use Rattle.rb_text_report.specs.Written.{IsWriteError};
ghost use Rattle.rb_follow.specs.Setups.{setup_of};
ghost use Rattle.rb_follow.specs.Documents.{nothing_read, all_read, document, documents_from, last_of, documents};
ghost use Rattle.rb_follow.specs.Answers.{answer_view, answer_text, head_text, end_text};
ghost use Rattle.rb_follow.specs.Journals.{StoresAll, accepted, outs};
ghost use Rattle.rb_follow.specs.Views.{following};
ghost use Rattle.rb_follow.specs.Headline.{Told, ToldPiece, BeginsTelling, IsFollowError, Follows, BeginsFollowing, GoesOn, BeginsGoingOn};

use crate::answer::{Answer, TurnRefusal};
use crate::error::FollowError;
use crate::follower::TurnFollower;
use crate::gathering::Gathering;
use crate::journal::Journal;
use crate::labels::told;
use crate::told::{Form, head, put, put_told};
use rb_base::{Gate, Sink};
use rb_script_toml::{Fault, FaultName, RunError, fault_at};
use rb_super_turn::Crew;
use std::alloc::{AllocError, Global};
use std::io;
use std::io::Read;
use std::sync::{Arc, Wait};
use std::thread::Threads;

/// How many bytes are read at once.
const PIECE: usize = 4096;

/// Who is told of documents that are refused.
pub trait Watcher {
    /// A document was answered by this fault.
    fn refused(&self, fault: &Fault);
}

/// How answers are told.
#[derive(Clone, Copy)]
struct Teller<'a, N> {
    alloc: Global,
    form: Form,
    watcher: &'a N,
}

impl<N: Watcher> Teller<'_, N> {
    /// Writes an answer of a follower.
    #[tactic(auto, using(rb_text_report::proofs::Beginnings::beginnings))]
    fn put<G: Gate + Send + Sync + Drop + 'static, W: Sink>(
        &self,
        follower: &TurnFollower<G>,
        answer: Answer,
        writer: &mut W,
    ) -> Result<(), RunError>
        requires { W.is_broken writer.old ≡ false }
        ensures written { OnOk result (Appends (W.taken writer.old) (W.taken writer.new) (answer_text self.now.form (following follower.now).config.version (following follower.now).config.chains (path_ids (following follower.now).config.paths) (answer_view answer))) }
        ensures works { OnOk result (W.is_broken writer.new ≡ false) }
        ensures begun { OnErr result (AppendsBeginning (W.taken writer.old) (W.taken writer.new) (answer_text self.now.form (following follower.now).config.version (following follower.now).config.chains (path_ids (following follower.now).config.paths) (answer_view answer))) }
        ensures failed { IfErr result (λ e. IsWriteError e (W.is_broken writer.new)) }
    {
        let told = told(self.alloc, self.form.has_labels(), answer)?;
        let chains = follower.chains();
        let paths = follower.paths();
        put_told(
            self.alloc,
            follower.version(),
            chains,
            paths,
            &told,
            self.form,
            writer,
        )?;
        if let Answer::Refused(TurnRefusal::Fault { fault, .. }) = &told {
            self.watcher.refused(fault);
        }
        Ok(())
    }
}

/// Writes an answer of a follower, or ends it.
fn tell<R, G, W, N>(
    crew: &Crew<R, G>,
    follower: TurnFollower<G>,
    answer: Answer,
    teller: &Teller<'_, N>,
    writer: &mut W,
) -> Result<TurnFollower<G>, FollowError>
where
    R: Threads + Wait + Copy + Send + Sync + 'static,
    G: Gate + Send + Sync + Drop + 'static,
    W: Sink,
    N: Watcher,
    requires { W.is_broken writer.old ≡ false }
    ensures same { IfOk result (λ g. g ≡ follower) }
    ensures written { OnOk result (Appends (W.taken writer.old) (W.taken writer.new) (answer_text teller.now.form (following follower).config.version (following follower).config.chains (path_ids (following follower).config.paths) (answer_view answer))) }
    ensures works { OnOk result (W.is_broken writer.new ≡ false) }
    ensures begun { OnErr result (AppendsBeginning (W.taken writer.old) (W.taken writer.new) (answer_text teller.now.form (following follower).config.version (following follower).config.chains (path_ids (following follower).config.paths) (answer_view answer))) }
    ensures failed { IfErr result (λ e. IsFollowError e (W.is_broken writer.new)) }
{
    match teller.put(&follower, answer, writer) {
        Ok(()) => Ok(follower),
        Err(error) => {
            follower.stop(crew.rt());
            Err(FollowError::Run(error))
        }
    }
}

/// Stores the bytes of the document that an answer is to, if it was accepted, or ends the follower.
#[tactic(auto, using(crate::proofs::Telling::stores_none))]
fn store<R, G, J>(
    crew: &Crew<R, G>,
    follower: TurnFollower<G>,
    answer: &Answer,
    bytes: &[u8],
    journal: &mut J,
) -> Result<TurnFollower<G>, FollowError>
where
    R: Threads + Wait + Copy + Send + Sync + 'static,
    G: Gate + Send + Sync + Drop + 'static,
    J: Journal,
    ensures same { IfOk result (λ g. g ≡ follower) }
    ensures stored { OnOk result (StoresAll (J.documents journal.old) (J.documents journal.new) (accepted (document bytes.now ∷ []) (answer_view answer.now ∷ []))) }
    ensures unstored { OnErr result (J.documents journal.new ≡ J.documents journal.old) }
    ensures failed { IfErr result (λ e. IsFollowError e false) }
{
    match answer {
        Answer::Refused(_) => Ok(follower),
        Answer::Planned { .. } => match journal.store(bytes) {
            Ok(()) => Ok(follower),
            Err(error) => {
                follower.stop(crew.rt());
                Err(FollowError::Journal(error))
            }
        },
    }
}

/// Lets a long journal remember the state of a follower that has forgotten something. The document that comes was written
/// by who had the answers to those before.
fn remember<G, J>(follower: &TurnFollower<G>, journal: &mut J) -> Result<(), AllocError>
where
    G: Gate + Send + Sync + Drop + 'static,
    J: Journal,
    ensures { J.documents journal.new ≡ J.documents journal.old }
{
    if !follower.is_tidy() || !journal.is_long() {
        return Ok(());
    }
    let batches = follower.open_batches()?;
    match follower.state()? {
        Some(state) => journal.remember(Some(state.as_str()), batches),
        None => journal.remember(None, batches),
    }
    Ok(())
}

/// Whether a journal remembers a state, and no batch is open any more that is open in it.
fn is_answered<G, J>(follower: &TurnFollower<G>, journal: &J) -> bool
where
    G: Gate + Send + Sync + Drop + 'static,
    J: Journal,
{
    match journal.batches() {
        Some(batches) => !follower.has_open(batches),
        None => false,
    }
}

/// Begins a journal anew with the state that it remembers, once none of the batches is open that are open in it: so the
/// journal's turns have the answers to all open batches. Or ends the follower.
fn renew<R, G, J>(
    crew: &Crew<R, G>,
    follower: TurnFollower<G>,
    journal: &mut J,
) -> Result<TurnFollower<G>, FollowError>
where
    R: Threads + Wait + Copy + Send + Sync + 'static,
    G: Gate + Send + Sync + Drop + 'static,
    J: Journal,
    ensures same { IfOk result (λ g. g ≡ follower) }
    ensures kept { J.documents journal.new ≡ J.documents journal.old }
    ensures failed { IfErr result (λ e. IsFollowError e false) }
{
    if remember(&follower, journal).is_err() || !is_answered(&follower, journal) {
        return Ok(follower);
    }
    match journal.renew() {
        Ok(()) => Ok(follower),
        Err(error) => {
            follower.stop(crew.rt());
            Err(FollowError::Journal(error))
        }
    }
}

/// Answers the document that was gathered, after the journal has it.
fn answer_document<R, G, W, N, J>(
    crew: &Crew<R, G>,
    follower: TurnFollower<G>,
    gathering: &mut Gathering,
    teller: &Teller<'_, N>,
    journal: &mut J,
    writer: &mut W,
) -> Result<TurnFollower<G>, FollowError>
where
    R: Threads + Wait + Copy + Send + Sync + 'static,
    G: Gate + Send + Sync + Drop + 'static,
    W: Sink,
    N: Watcher,
    J: Journal,
    requires works { W.is_broken writer.old ≡ false }
    ensures works { OnOk result (W.is_broken writer.new ≡ false) }
    ensures failed { IfErr result (λ e. IsFollowError e (W.is_broken writer.new)) }
    ensures told { IfOk result (λ g. Told teller.now.form (following follower) (document (all_read gathering.old) ∷ []) (outs (W.taken writer.old) (J.documents journal.old)) (outs (W.taken writer.new) (J.documents journal.new)) (following g)) }
    ensures cleared { OnOk result (gathering.new ≡ nothing_read) }
    ensures begun { OnErr result (BeginsTelling teller.now.form (following follower) (document (all_read gathering.old) ∷ []) (outs (W.taken writer.old) (J.documents journal.old)) (outs (W.taken writer.new) (J.documents journal.new))) }
{
    let document = gathering.document();
    let follower = renew(crew, follower, journal)?;
    let (follower, answer) = follower.answer(crew, document)?;
    let stored = store(crew, follower, &answer, document, journal)?;
    gathering.clear();
    tell(crew, stored, answer, teller, writer)
}

/// Answers the documents that end in a piece of the input, and gathers what the piece has of the next.
fn answer_piece<R, G, W, N, J>(
    crew: &Crew<R, G>,
    follower: TurnFollower<G>,
    gathering: &mut Gathering,
    piece: &[u8],
    teller: &Teller<'_, N>,
    journal: &mut J,
    writer: &mut W,
) -> Result<TurnFollower<G>, FollowError>
where
    R: Threads + Wait + Copy + Send + Sync + 'static,
    G: Gate + Send + Sync + Drop + 'static,
    W: Sink,
    N: Watcher,
    J: Journal,
    requires works { W.is_broken writer.old ≡ false }
    ensures works { OnOk result (W.is_broken writer.new ≡ false) }
    ensures failed { IfErr result (λ e. IsFollowError e (W.is_broken writer.new)) }
    ensures told { IfOk result (λ g. ToldPiece teller.now.form (following follower) gathering.old piece.now gathering.new [] (outs (W.taken writer.old) (J.documents journal.old)) (outs (W.taken writer.new) (J.documents journal.new)) (following g)) }
    ensures begun { (more : List ℕ) → OnErr result (BeginsTelling teller.now.form (following follower) (documents_from gathering.old (piece.now ++ more)) (outs (W.taken writer.old) (J.documents journal.old)) (outs (W.taken writer.new) (J.documents journal.new))) }
{
    let mut follower = follower;
    let mut rest = piece;
    loop {
        match gathering.gather(rest) {
            Ok(Some(end)) => {
                follower = answer_document(crew, follower, gathering, teller, journal, writer)?;
                rest = &rest[end..];
            }
            Ok(None) => return Ok(follower),
            Err(_) => {
                follower.stop(crew.rt());
                return Err(FollowError::Run(RunError::NoMemory));
            }
        }
    }
}

/// Answers what an input that ended has after its last document: nothing, a document whose last line ends with
/// the input, or the beginning of one, which is refused.
fn answer_rest<R, G, W, N, J>(
    crew: &Crew<R, G>,
    follower: TurnFollower<G>,
    gathering: &mut Gathering,
    teller: &Teller<'_, N>,
    journal: &mut J,
    writer: &mut W,
) -> Result<TurnFollower<G>, FollowError>
where
    R: Threads + Wait + Copy + Send + Sync + 'static,
    G: Gate + Send + Sync + Drop + 'static,
    W: Sink,
    N: Watcher,
    J: Journal,
    requires works { W.is_broken writer.old ≡ false }
    ensures works { OnOk result (W.is_broken writer.new ≡ false) }
    ensures failed { IfErr result (λ e. IsFollowError e (W.is_broken writer.new)) }
    ensures told { IfOk result (λ g. Told teller.now.form (following follower) (last_of gathering.old) (outs (W.taken writer.old) (J.documents journal.old)) (outs (W.taken writer.new) (J.documents journal.new)) (following g)) }
    ensures begun { OnErr result (BeginsTelling teller.now.form (following follower) (last_of gathering.old) (outs (W.taken writer.old) (J.documents journal.old)) (outs (W.taken writer.new) (J.documents journal.new))) }
{
    if gathering.finish() {
        return answer_document(crew, follower, gathering, teller, journal, writer);
    }
    if gathering.document().is_empty() {
        return Ok(follower);
    }
    match fault_at(teller.alloc, "-", FaultName::NotToml) {
        RunError::Fault(fault) => {
            let refusal = TurnRefusal::Fault {
                number: None,
                fault,
            };
            tell(crew, follower, Answer::Refused(refusal), teller, writer)
        }
        error => {
            follower.stop(crew.rt());
            Err(FollowError::Run(error))
        }
    }
}

/// Answers the documents of an input to its end.
fn answer_all<R, G, I, W, N, J>(
    crew: &Crew<R, G>,
    follower: TurnFollower<G>,
    input: &mut I,
    teller: &Teller<'_, N>,
    journal: &mut J,
    writer: &mut W,
) -> Result<TurnFollower<G>, FollowError>
where
    R: Threads + Wait + Copy + Send + Sync + 'static,
    G: Gate + Send + Sync + Drop + 'static,
    I: Read,
    W: Sink,
    N: Watcher,
    J: Journal,
    requires works { W.is_broken writer.old ≡ false }
    ensures works { OnOk result (W.is_broken writer.new ≡ false) }
    ensures failed { IfErr result (λ e. IsFollowError e (W.is_broken writer.new)) }
    ensures told { IfOk result (λ g. IfSome (I.remaining input.old) (λ bytes. Told teller.now.form (following follower) (documents bytes) (outs (W.taken writer.old) (J.documents journal.old)) (outs (W.taken writer.new) (J.documents journal.new)) (following g))) }
    ensures begun { OnErr result (IfSome (I.remaining input.old) (λ bytes. BeginsTelling teller.now.form (following follower) (documents bytes) (outs (W.taken writer.old) (J.documents journal.old)) (outs (W.taken writer.new) (J.documents journal.new)))) }
{
    let mut follower = follower;
    let mut gathering = Gathering::new(teller.alloc);
    let mut piece = [0u8; PIECE];
    'pieces: for _ in 0..u64::MAX {
        match input.read(&mut piece) {
            Ok(count) => {
                if count == 0 {
                    let last = answer_rest(
                        crew,
                        follower,
                        &mut gathering,
                        teller,
                        journal,
                        writer,
                    )?;
                    return Ok(last);
                }
                let read = &piece[..count];
                follower = answer_piece(
                    crew,
                    follower,
                    &mut gathering,
                    read,
                    teller,
                    journal,
                    writer,
                )?;
            }
            Err(error) => {
                if error.kind() != io::ErrorKind::Interrupted {
                    follower.stop(crew.rt());
                    return Err(FollowError::Input(error));
                }
            }
        }
    }
    follower.stop(crew.rt());
    Err(FollowError::Input(io::Error::from(io::ErrorKind::FileTooLarge)))
}

/// The first line of a report, or the greeting.
fn put_head<W: Sink, G: Gate + Send + Sync + Drop + 'static>(
    follower: &TurnFollower<G>,
    form: Form,
    writer: &mut W,
) -> Result<(), RunError>
    requires { W.is_broken writer.old ≡ false }
    ensures written { OnOk result (Appends (W.taken writer.old) (W.taken writer.new) (head_text form (following follower.now).config.version)) }
    ensures works { OnOk result (W.is_broken writer.new ≡ false) }
    ensures begun { OnErr result (AppendsBeginning (W.taken writer.old) (W.taken writer.new) (head_text form (following follower.now).config.version)) }
    ensures failed { IfErr result (λ e. IsWriteError e (W.is_broken writer.new)) }
{
    put(writer, head(form, follower.version()))
}

/// Writes the first line for a follower, or ends it.
fn begin<R: Threads + Wait, G: Gate + Send + Sync + Drop + 'static, W: Sink>(
    rt: &R,
    follower: TurnFollower<G>,
    form: Form,
    writer: &mut W,
) -> Result<TurnFollower<G>, RunError>
    requires { W.is_broken writer.old ≡ false }
    ensures same { IfOk result (λ g. g ≡ follower) }
    ensures written { OnOk result (Appends (W.taken writer.old) (W.taken writer.new) (head_text form (following follower).config.version)) }
    ensures works { OnOk result (W.is_broken writer.new ≡ false) }
    ensures begun { OnErr result (AppendsBeginning (W.taken writer.old) (W.taken writer.new) (head_text form (following follower).config.version)) }
    ensures failed { IfErr result (λ e. IsWriteError e (W.is_broken writer.new)) }
{
    match put_head(&follower, form, writer) {
        Ok(()) => Ok(follower),
        Err(error) => {
            follower.stop(rt);
            Err(error)
        }
    }
}

/// The last line of a report, where lines of one are written.
fn put_end<W: Sink>(form: Form, writer: &mut W) -> Result<(), RunError>
    requires { W.is_broken writer.old ≡ false }
    ensures written { OnOk result (Appends (W.taken writer.old) (W.taken writer.new) (end_text form)) }
    ensures works { OnOk result (W.is_broken writer.new ≡ false) }
    ensures begun { OnErr result (AppendsBeginning (W.taken writer.old) (W.taken writer.new) (end_text form)) }
    ensures failed { IfErr result (λ e. IsWriteError e (W.is_broken writer.new)) }
{
    match form {
        Form::Text { .. } => put(writer, b"end\n"),
        Form::Json { .. } => Ok(()),
    }
}

/// Reads turns from an input as they come, each a document that a line `---` ends, and writes the answer to
/// each at once: its report, with the labels of heights or without, and a line `---`, or the fault for which it is
/// no turn and that line; with `Form::Json` an object on a line, behind a greeting. The first line of a report
/// stands before lines of one, and `end` behind them, where the input has ended. So what was written with labels,
/// without the lines `---` and the faults, is the report of the script that consists of the setup and the documents
/// that were no fault. From version 3 on each report is one of what is left after the turns before, which changes none as long as no event speaks of what was
/// forgotten or is refused for want of room (`laws::forgetting_changes_no_answer`). The pieces in which the input
/// comes change nothing, nor do the workers, at most 64 (with 0 the calling thread does all). The journal stores
/// each of these documents before its answer is written. `Run` is the first fault of the setup, and nothing is
/// then written; `Device`, where the writer fails, and `NoMemory`, where a growth is refused; `Input` where the
/// input fails, and `Journal` where the journal does. It may wait for the input, for workers and for the gate;
/// what is said holds if it returns. The writer must not have failed before.
pub fn follow_over<R, G, I, W, N, J>(
    rt: &R,
    alloc: Global,
    setup: &[u8],
    input: &mut I,
    form: Form,
    writer: &mut W,
    workers: usize,
    gate: &Arc<G, Global>,
    watcher: &N,
    journal: &mut J,
) -> Result<(), FollowError>
where
    R: Threads + Wait + Copy + Send + Sync + 'static,
    G: Gate + Send + Sync + Drop + 'static,
    I: Read,
    W: Sink,
    N: Watcher,
    J: Journal,
    requires works { W.is_broken writer.old ≡ false }
    requires workers { workers ≤ 64 }
    ensures followed { OnOk result (IfSome (I.remaining input.old) (λ bytes. Follows form setup.now bytes (outs (W.taken writer.old) (J.documents journal.old)) (outs (W.taken writer.new) (J.documents journal.new)))) }
    ensures fault { (f : CodeFault) → IsErrOf result (FollowError.Run (RunError.Fault f)) → setup_of setup.now ≡ Err (fault_view f) }
    ensures nothing_written { (f : CodeFault) → IsErrOf result (FollowError.Run (RunError.Fault f)) → writer.new ≡ writer.old }
    ensures device { IsErrOf result (FollowError.Run RunError.Device) ↔ (W.is_broken writer.new ≡ true) }
    ensures begun { OnErr result (((writer.new ≡ writer.old) × (J.documents journal.new ≡ J.documents journal.old)) ⊎ IfSome (I.remaining input.old) (λ bytes. BeginsFollowing form setup.now bytes (outs (W.taken writer.old) (J.documents journal.old)) (outs (W.taken writer.new) (J.documents journal.new)))) }
{
    let crew = Crew::new(rt, workers, &**gate);
    let follower = TurnFollower::new(rt, alloc, setup, workers, gate)?;
    let follower = begin(rt, follower, form, writer)?;
    let teller = Teller {
        alloc,
        form,
        watcher,
    };
    let follower = answer_all(&crew, follower, input, &teller, journal, writer)?;
    follower.stop(rt);
    put_end(form, writer)?;
    Ok(())
}

/// The follower that goes on from a state of a journal.
fn restored<R, G>(
    rt: &R,
    alloc: Global,
    setup: &[u8],
    state: &str,
    workers: usize,
    gate: &Arc<G, Global>,
) -> Result<TurnFollower<G>, FollowError>
where
    R: Threads + Wait + Copy + Send + Sync + 'static,
    G: Gate + Send + Sync + Drop + 'static,
    requires { workers ≤ 64 }
    ensures { IfOk result (λ f. setup_of setup.now ≡ Ok (following f).config) }
{
    match TurnFollower::restored(rt, alloc, setup, state, workers, gate)? {
        Some(follower) => Ok(follower),
        None => Err(FollowError::Journal(io::Error::new(
            io::ErrorKind::InvalidData,
            "its state is none of this setup",
        ))),
    }
}

/// As `follow_over`, by a follower that goes on from a state that a journal tells; `Journal` where it is none of this
/// setup, and nothing is then written.
pub fn follow_on<R, G, I, W, N, J>(
    rt: &R,
    alloc: Global,
    setup: &[u8],
    state: &str,
    input: &mut I,
    form: Form,
    writer: &mut W,
    workers: usize,
    gate: &Arc<G, Global>,
    watcher: &N,
    journal: &mut J,
) -> Result<(), FollowError>
where
    R: Threads + Wait + Copy + Send + Sync + 'static,
    G: Gate + Send + Sync + Drop + 'static,
    I: Read,
    W: Sink,
    N: Watcher,
    J: Journal,
    requires works { W.is_broken writer.old ≡ false }
    requires workers { workers ≤ 64 }
    ensures followed { OnOk result (IfSome (I.remaining input.old) (λ bytes. GoesOn form setup.now bytes (outs (W.taken writer.old) (J.documents journal.old)) (outs (W.taken writer.new) (J.documents journal.new)))) }
    ensures begun { OnErr result (((writer.new ≡ writer.old) × (J.documents journal.new ≡ J.documents journal.old)) ⊎ IfSome (I.remaining input.old) (λ bytes. BeginsGoingOn form setup.now bytes (outs (W.taken writer.old) (J.documents journal.old)) (outs (W.taken writer.new) (J.documents journal.new)))) }
{
    let crew = Crew::new(rt, workers, &**gate);
    let follower = restored(rt, alloc, setup, state, workers, gate)?;
    let follower = begin(rt, follower, form, writer)?;
    let teller = Teller {
        alloc,
        form,
        watcher,
    };
    let follower = answer_all(&crew, follower, input, &teller, journal, writer)?;
    follower.stop(rt);
    put_end(form, writer)?;
    Ok(())
}
