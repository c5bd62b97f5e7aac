//! The tasks done: files are read, results go to standard output, failures and notices to standard error.
ghost use Rattle.std.specs.Prelude.{◌≡◌, ◌⊎◌, false, IfOk, IfErr, OnErr, IfSome, MatchResult};
ghost use Rattle.rb_script_types.specs.Script.{IsReadScript, script_view};
ghost use Rattle.rb_text.specs.Reports.{BeginsReportOf};
ghost use Rattle.rb_text.specs.Verdicts.{IsFaultFor, BeginsVerdict};
ghost use Rattle.ibcplan_cli.specs.Failures.{failure_status, told_fault, is_unwritten};
ghost use Rattle.ibcplan.specs.Status.{IsPlanWritten, IsConfirmed, IsDenied};

use crate::explain::{AskedExplanation, ExplanationForm, explain};
use crate::first_text::{FirstText, first_text, last_text};
use crate::following::{follow, follow_from};
use crate::forms::{commands_of_script, json_of_script};
use crate::given::{GivenScript, given_script, script_of_text};
use crate::host::Host;
use crate::journal::{OpenedJournal, open_journal};
use crate::messages::{MessageLines, messages_of};
use crate::reporting::{plan_status, refused_events};
use ibcplan_cli::{
    Explained, Following, Given, Import, Input, Invocation, ProgramError, Progress, STANDARD_INPUT,
    ScriptOutput, ShownName, WantedTurns, WorkerCount, setup_for, status,
};
use ibcplan_folders::{HostFolders, ImportedText, WantedText, imported, wanted};
use rb_base::{Counted, Gate, Sink, write_whole};
use rb_follow::{Form, NoJournal, greeting, json_of_fault};
use rb_import_setup::NamedClient;
use rb_script_toml::RunError;
use rb_script_types::{Script, Version};
use rb_text::{certify_script, health_of_script, write_report_of};
use rb_text_report::verdict_json;
use std::alloc::Global;
use std::io;
use std::io::{Cursor, Printer, Read, Write};
use std::sync::{Arc, Wait};
use std::thread::Threads;

/// Does a request, and answers the status to end with. Where standard error is watched it says there how
/// far a long run is, and how many events were refused.
pub fn perform<R: Host>(rt: &R, request: Invocation<'_>, is_watched: bool) -> u8 {
    match outcome_of(rt, request, is_watched) {
        Ok(status) => status,
        Err(failure) => {
            let _ = eprintln!(rt; "{failure}");
            failure.status()
        }
    }
}

/// Does a request, and sends on what the writer may still hold; then what is to be told of the results stands
/// on standard error.
fn outcome_of<'a, R: Host>(
    rt: &R,
    request: Invocation<'a>,
    is_watched: bool,
) -> Result<u8, ProgramError<'a>> {
    let is_json = request.is_json();
    let mut output = Explained::new(Counted::new(io::writer(rt)));
    match done_of(rt, request, is_watched, &mut output) {
        Ok(done) => {
            flush(output.into_inner())?;
            tell(rt, is_watched, &done);
            Ok(done.status)
        }
        Err(failure) if is_json => Err(with_fault(rt.alloc(), failure, output)),
        Err(failure) => Err(failure.because_of(output.error())),
    }
}

/// The failure, of which the fault of a text was written as an object of JSON; or that it couldn't be.
fn with_fault<'a, R: Print>(
    alloc: Global,
    failure: ProgramError<'a>,
    output: Explained<Counted<Printer<'_, R>>>,
) -> ProgramError<'a> {
    let mut output = output;
    if let Err(error) = put_fault(alloc, &failure, &mut output) {
        return error.because_of(output.error());
    }
    let failure = failure.because_of(output.error());
    match (failure, flush(output.into_inner())) {
        (ProgramError::Refused { .. }, Err(error)) => error,
        (failure, _) => failure,
    }
}

/// Writes the fault of a text as an object of JSON, where that is why there is no result.
fn put_fault<'a, W: Sink>(
    alloc: Global,
    failure: &ProgramError<'a>,
    output: &mut W,
) -> Result<(), ProgramError<'a>> {
    let ProgramError::Refused { fault, .. } = failure else {
        return Ok(());
    };
    if output.failed() {
        return Ok(());
    }
    match json_of_fault(alloc, None, fault) {
        Ok(line) => write(line.as_str(), output),
        Err(_) => Err(ProgramError::NoMemory),
    }
}

/// Tells of results that were written what there is to tell.
fn tell<R: Eprint>(rt: &R, is_watched: bool, done: &Done) {
    let refused = done.refused_events;
    if is_watched && refused > 0 {
        let _ = eprintln!(rt;
            "refused events: {refused}; their lines in the report begin with 'refused event'"
        );
    }
    if let Some(notices) = &done.notices {
        let _ = eprint!(rt; "{notices}");
    }
}

/// The status to end with, and what to tell where the results were written.
#[derive(Drop)]
struct Done {
    status: u8,
    /// How many events a report that was planned tells to be refused, up to 2^64 - 1.
    refused_events: usize,
    /// Lines that tell which answers aren't there, of a script that was imported.
    notices: Option<String>,
}

impl Done {
    /// Done, with nothing to tell.
    fn quietly(status: u8) -> Done {
        Done {
            status,
            refused_events: 0,
            notices: None,
        }
    }

    /// The same of a script of which this is told; the status is its own where it isn't that all is there.
    fn of_given(self, notices: String, status: u8) -> Done {
        Done {
            status: if status == status::DONE {
                self.status
            } else {
                status
            },
            refused_events: self.refused_events,
            notices: Some(notices),
        }
    }
}

/// Reads the files of a request and does it.
fn done_of<'a, R: Host, W: Sink>(
    rt: &R,
    request: Invocation<'a>,
    is_watched: bool,
    output: &mut W,
) -> Result<Done, ProgramError<'a>>
    requires { W.is_broken output.old ≡ false }
{
    match request {
        Invocation::Script { given, wanted } => write_about(rt, given, wanted, is_watched, output),
        Invocation::Messages {
            import,
            output: made,
        } => write_messages(rt, import, made, is_watched, output),
        Invocation::Follow { setup, following } => {
            follow_input(rt, setup, following, is_watched, output)
        }
        Invocation::FollowJournal {
            setup,
            journal,
            following,
        } => follow_journal(rt, setup, journal, following, is_watched, output),
        Invocation::Import(import) => import_files(rt, import, output),
        Invocation::Setup { config, clients } => setup_file(rt, config, clients.as_slice(), output),
        Invocation::Want { setup, folder } => want_files(rt, setup, folder, output),
        Invocation::Certify {
            given,
            certificate,
            is_json,
        } => certify_files(rt, given, certificate, is_json, output),
        Invocation::CertifyInput { is_json } => certify_input(rt, is_json, output),
        Invocation::Version => write_greeting(output),
    }
}

/// Writes what is wanted about the script that is given.
fn write_about<'a, R: Host, W: Sink>(
    rt: &R,
    given: Given<'a>,
    wanted: ScriptOutput<'a>,
    is_watched: bool,
    output: &mut W,
) -> Result<Done, ProgramError<'a>>
    requires { W.is_broken output.old ≡ false }
{
    let GivenScript {
        script,
        file,
        notices,
        status,
    } = given_script(rt, given, wanted.threads())?;
    let progress = Progress::new(*rt, is_watched);
    let done = write_wanted(rt, script, file, wanted, progress, output)?;
    Ok(done.of_given(notices, status))
}

/// Writes what is wanted about the script of a file.
fn write_wanted<'a, R: Host, W: Sink>(
    rt: &R,
    script: Script,
    file: ShownName<'a>,
    wanted: ScriptOutput<'a>,
    progress: Progress<R>,
    output: &mut W,
) -> Result<Done, ProgramError<'a>>
    requires script { IsReadScript (script_view script) }
    requires works { W.is_broken output.old ≡ false }
{
    match wanted {
        ScriptOutput::Report { workers, is_strict } => plan(
            rt,
            rt.alloc(),
            script,
            workers,
            is_strict,
            progress,
            output,
        ),
        ScriptOutput::Json { workers, is_strict } => {
            write_json(rt, script, workers, is_strict, progress, output)
        }
        ScriptOutput::Commands { turns } => write_commands(
            rt, script, file, turns, progress, output,
        ),
        ScriptOutput::Explanation {
            turns,
            client,
            is_whole,
            is_json,
        } => {
            let asked = AskedExplanation {
                turns,
                client,
                form: text_form(is_whole, is_json),
            };
            write_explanation(rt, script, file, asked, progress, output)
        }
        ScriptOutput::Picture { turns, client } => {
            let asked = AskedExplanation {
                turns,
                client,
                form: ExplanationForm::Picture,
            };
            write_explanation(rt, script, file, asked, progress, output)
        }
        ScriptOutput::Health { are_metrics } => write_health(
            rt,
            script,
            are_metrics,
            progress,
            output,
        ),
    }
}

fn write_json<'a, R: Host, W: Sink>(
    rt: &R,
    script: Script,
    workers: WorkerCount,
    is_strict: bool,
    progress: Progress<R>,
    output: &mut W,
) -> Result<Done, ProgramError<'a>>
    requires script { IsReadScript (script_view script) }
    requires works { W.is_broken output.old ≡ false }
{
    let Ok(json) = json_of_script(rt, rt.alloc(), script, workers, is_strict, &progress) else {
        return Err(ProgramError::NoMemory);
    };
    write(json.text.as_str(), output)?;
    Ok(Done::quietly(json.status))
}

fn write_commands<'a, R: Host, W: Sink>(
    rt: &R,
    script: Script,
    file: ShownName<'a>,
    turns: WantedTurns,
    progress: Progress<R>,
    output: &mut W,
) -> Result<Done, ProgramError<'a>>
    requires script { IsReadScript (script_view script) }
    requires works { W.is_broken output.old ≡ false }
{
    let text = commands_of_script(rt, rt.alloc(), script, file, turns, progress)?;
    write(text.as_str(), output)?;
    Ok(Done::quietly(status::DONE))
}

fn text_form(is_whole: bool, is_json: bool) -> ExplanationForm {
    if is_json {
        ExplanationForm::Json { is_whole }
    } else {
        ExplanationForm::Text { is_whole }
    }
}

fn write_explanation<'a, R: Host, W: Sink>(
    rt: &R,
    script: Script,
    file: ShownName<'a>,
    asked: AskedExplanation<'a>,
    progress: Progress<R>,
    output: &mut W,
) -> Result<Done, ProgramError<'a>>
    requires script { IsReadScript (script_view script) }
    requires works { W.is_broken output.old ≡ false }
{
    explain(rt, rt.alloc(), script, file, asked, progress, output)?;
    Ok(Done::quietly(status::DONE))
}

fn write_health<'a, R: Host, W: Sink>(
    rt: &R,
    script: Script,
    are_metrics: bool,
    progress: Progress<R>,
    output: &mut W,
) -> Result<Done, ProgramError<'a>>
    requires script { IsReadScript (script_view script) }
    requires works { W.is_broken output.old ≡ false }
{
    let Ok(text) = health_of_script(rt, rt.alloc(), script, are_metrics, &progress) else {
        return Err(ProgramError::NoMemory);
    };
    write(text.as_str(), output)?;
    Ok(Done::quietly(status::DONE))
}

fn write_messages<'a, R: Host, W: Sink>(
    rt: &R,
    import: Import<'a>,
    made: &str,
    is_watched: bool,
    output: &mut W,
) -> Result<Done, ProgramError<'a>>
    requires { W.is_broken output.old ≡ false }
{
    let progress = Progress::new(*rt, is_watched);
    let MessageLines {
        lines,
        notices,
        status,
    } = messages_of(rt, import, made, &progress)?;
    write(lines.as_str(), output)?;
    Ok(Done {
        status,
        refused_events: 0,
        notices: Some(notices),
    })
}

fn import_files<'a, R: Host, W: Sink>(
    rt: &R,
    import: Import<'a>,
    output: &mut W,
) -> Result<Done, ProgramError<'a>>
    requires { W.is_broken output.old ≡ false }
{
    let setup = Input::read(rt, import.setup)?;
    let files = HostFolders {
        rt,
        folder: import.folder,
    };
    let ImportedText {
        script,
        notices,
        status,
    } = imported(rt, &files, &setup, import)?;
    write(script.as_str(), output)?;
    Ok(Done {
        status,
        refused_events: 0,
        notices: Some(notices),
    })
}

fn setup_file<'a, R: Host, W: Sink>(
    rt: &R,
    config: &'a str,
    clients: &[NamedClient],
    output: &mut W,
) -> Result<Done, ProgramError<'a>>
    requires { W.is_broken output.old ≡ false }
{
    let config = Input::read(rt, config)?;
    let text = setup_for(rt.alloc(), &config, clients)?;
    write(text.as_str(), output)?;
    Ok(Done::quietly(status::DONE))
}

fn want_files<'a, R: Host, W: Sink>(
    rt: &R,
    setup: &'a str,
    folder: &str,
    output: &mut W,
) -> Result<Done, ProgramError<'a>>
    requires { W.is_broken output.old ≡ false }
{
    let setup = Input::read(rt, setup)?;
    let WantedText { requests, ends } = wanted(rt, &setup, folder)?;
    write(requests.as_str(), output)?;
    Ok(Done {
        status: status::DONE,
        refused_events: 0,
        notices: Some(ends),
    })
}

fn follow_input<'a, R: Host, W: Sink>(
    rt: &R,
    setup: &'a str,
    following: Following,
    is_watched: bool,
    output: &mut W,
) -> Result<Done, ProgramError<'a>>
    requires { W.is_broken output.old ≡ false }
{
    let FirstText { text: setup, rest } = first_text(rt, setup)?;
    let progress = Progress::new(*rt, is_watched);
    let mut input = Cursor::new(rest).chain(rt.reader());
    follow(
        rt,
        rt.alloc(),
        &setup,
        &mut input,
        following.workers,
        answer_form(following),
        following.is_quiet,
        progress,
        &mut NoJournal,
        output,
    )?;
    Ok(Done::quietly(status::DONE))
}

fn follow_journal<'a, R: Host, W: Sink>(
    rt: &R,
    setup: Option<&'a str>,
    journal: &'a str,
    following: Following,
    is_watched: bool,
    output: &mut W,
) -> Result<Done, ProgramError<'a>>
    requires { W.is_broken output.old ≡ false }
{
    let (setup, rest) = match setup {
        Some(path) => {
            let FirstText { text, rest } = first_text(rt, path)?;
            (Some(text), rest)
        }
        None => (None, Vec::new(rt.alloc())),
    };
    let OpenedJournal {
        mut journal,
        state,
        setup,
        past,
    } = open_journal(rt, setup, journal)?;
    let progress = Progress::new(*rt, is_watched);
    let mut input = Cursor::new(past)
        .chain(Cursor::new(rest))
        .chain(rt.reader());
    follow_from(
        rt,
        rt.alloc(),
        &setup,
        state,
        &mut input,
        following.workers,
        answer_form(following),
        following.is_quiet,
        progress,
        &mut journal,
        output,
    )?;
    Ok(Done::quietly(status::DONE))
}

fn answer_form(following: Following) -> Form {
    let has_labels = following.has_labels;
    if following.is_json {
        Form::Json { has_labels }
    } else {
        Form::Text { has_labels }
    }
}

fn certify_files<'a, R: Host, W: Sink>(
    rt: &R,
    given: Given<'a>,
    certificate: &'a str,
    is_json: bool,
    output: &mut W,
) -> Result<Done, ProgramError<'a>>
    requires { W.is_broken output.old ≡ false }
{
    let given = given_script(rt, given, 0)?;
    let certificate = Input::read(rt, certificate)?;
    write_verdict(rt, given, &certificate, is_json, output)
}

fn certify_input<'a, R: Host, W: Sink>(
    rt: &R,
    is_json: bool,
    output: &mut W,
) -> Result<Done, ProgramError<'a>>
    requires { W.is_broken output.old ≡ false }
{
    let FirstText { text: script, rest } = first_text(rt, STANDARD_INPUT)?;
    let certificate = last_text(rt, rest)?;
    let given = script_of_text(rt, rt.alloc(), &script, 0)?;
    write_verdict(rt, given, &certificate, is_json, output)
}

/// Writes the verdict on a certificate for a script, as a line or as JSON.
fn write_verdict<'a, R: Host, W: Sink>(
    rt: &R,
    given: GivenScript<'a>,
    certificate: &Input<'a>,
    is_json: bool,
    output: &mut W,
) -> Result<Done, ProgramError<'a>>
    requires script { IsReadScript (script_view given.script) }
    requires works { W.is_broken output.old ≡ false }
{
    let alloc = rt.alloc();
    let GivenScript {
        script,
        notices,
        status,
        ..
    } = given;
    if !is_json {
        let verdict = certify(rt, alloc, script, certificate, output)?;
        return Ok(Done::quietly(verdict).of_given(notices, status));
    }
    let mut line = Counted::new(Vec::new(alloc));
    let verdict = certify(rt, alloc, script, certificate, &mut line)?;
    let line = line.into_inner();
    match verdict_json(alloc, line.as_slice()) {
        Ok(json) => write(json.as_str(), output)?,
        Err(_) => return Err(ProgramError::NoMemory),
    }
    Ok(Done::quietly(verdict).of_given(notices, status))
}

/// Writes the report of a script, by so many workers, through a gate; of a strict plan the status also tells
/// whether something in the report is refused. A beginning of the report, or nothing, is written where it fails.
fn plan<
    'a,
    R: Threads + Wait + Copy + Send + Sync + 'static,
    G: Gate + Send + Sync + Drop + 'static,
    W: Sink,
>(
    rt: &R,
    alloc: Global,
    script: Script,
    workers: WorkerCount,
    is_strict: bool,
    gate: G,
    output: &mut W,
) -> Result<Done, ProgramError<'a>>
    requires script { IsReadScript (script_view script) }
    requires works { W.is_broken output.old ≡ false }
    ensures done { IfOk result (λ done. IsPlanWritten is_strict (script_view script) (W.taken output.old) (W.taken output.new) done.status done.refused_events) }
    ensures failed { IfErr result (λ failure. failure_status failure ≡ 4) }
    ensures device { MatchResult result (λ _. W.is_broken output.new ≡ false) (λ failure. W.is_broken output.new ≡ is_unwritten failure) }
    ensures begun { OnErr result ((output.new ≡ output.old) ⊎ BeginsReportOf (script_view script) (W.taken output.old) (W.taken output.new)) }
{
    let Ok(gate) = Arc::new(alloc, gate) else {
        return Err(ProgramError::NoMemory);
    };
    match write_report_of(rt, alloc, script, output, workers.count(), &gate) {
        Ok(report) => Ok(Done {
            status: plan_status(is_strict, &report),
            refused_events: refused_events(&report),
            notices: None,
        }),
        Err(RunError::Device) => Err(ProgramError::untaken()),
        Err(_) => Err(ProgramError::NoMemory), // a script that was read has no fault
    }
}

/// Writes what `follow --json` begins with, of the newest version.
fn write_greeting<'a, W: Sink>(output: &mut W) -> Result<Done, ProgramError<'a>>
    requires { W.is_broken output.old ≡ false }
{
    match write_whole(output, greeting(Version::Four)) {
        Ok(()) => Ok(Done::quietly(status::DONE)),
        Err(_) => Err(ProgramError::untaken()),
    }
}

/// Writes a text that was made in memory.
fn write<'a, W: Sink>(text: &str, output: &mut W) -> Result<(), ProgramError<'a>>
    requires { W.is_broken output.old ≡ false }
{
    match write_whole(output, text.as_bytes()) {
        Ok(()) => Ok(()),
        Err(_) => Err(ProgramError::untaken()),
    }
}

/// Writes the verdict on the certificate that a file holds. Nothing is written where the file is refused, and a
/// beginning of the verdict's line, or nothing, where it fails otherwise.
fn certify<'a, R: Threads + Sync, W: Sink>(
    rt: &R,
    alloc: Global,
    script: Script,
    certificate: &Input<'a>,
    output: &mut W,
) -> Result<u8, ProgramError<'a>>
    requires script { IsReadScript (script_view script) }
    requires works { W.is_broken output.old ≡ false }
    ensures judged { IfOk result (λ status.
        IsConfirmed (script_view script) certificate.now (W.taken output.old) (W.taken output.new) status
        ⊎ IsDenied (script_view script) certificate.now (W.taken output.old) (W.taken output.new) status) }
    ensures fault { IfErr result (λ failure. IfSome (told_fault failure) (IsFaultFor (script_view script) certificate.now)) }
    ensures nothing_written { IfErr result (λ failure. failure_status failure ≡ 1 → output.new ≡ output.old) }
    ensures device { MatchResult result (λ _. W.is_broken output.new ≡ false) (λ failure. W.is_broken output.new ≡ is_unwritten failure) }
    ensures begun { OnErr result ((output.new ≡ output.old) ⊎ BeginsVerdict (script_view script) certificate.now (W.taken output.old) (W.taken output.new)) }
{
    match certify_script(rt, alloc, script, certificate.bytes(), output) {
        Ok(true) => Ok(status::DONE),
        Ok(false) => Ok(status::DENIED),
        Err(error) => Err(ProgramError::of_run(error, certificate)),
    }
}

/// Sends on what the writer may still hold.
fn flush<'a, R: Print>(output: Counted<Printer<'_, R>>) -> Result<(), ProgramError<'a>> {
    match output.into_inner().flush() {
        Ok(()) => Ok(()),
        Err(error) => Err(ProgramError::Unwritten { error }),
    }
}
