//! Importing: the files of a folder are read, and the script that they make is given, or written, without the clients and
//! the paths whose answers are refused.
ghost use Rattle.std.specs.Prelude.{◌≡◌, ◌∷◌, ◌++◌, [], IfOk, MatchOption, Ok, OnOk, codes, is_some, map, slice_get, string_bytes, true};
ghost use Rattle.std.specs.List.{AllZip, enumerate_from, list_any};
ghost use Rattle.std.specs.Str.{bytes_eq};
ghost use Rattle.rb_import_answers.specs.Answers.{verdicts_file};
ghost use Rattle.rb_import_answers.specs.Revisions.{IsRevision};
ghost use Rattle.rb_script_types.specs.Script.{IsReadScript, script_view};
ghost use Rattle.rb_script_read.specs.Work.{little};
ghost use Rattle.rb_import.specs.Openings.{Opens, hold_verdicts};
ghost use Rattle.ibcplan_folders.specs.Files.{IsScriptOfRest, signatures_of};
ghost use Rattle.ibcplan_folders.specs.Fleets.{AreTold, ChainHas, ChainsHave, ClientHas, ClientsHave, IsFleetOf, IsMadeBy, IsRestOf, PathsHave, path_ids};
ghost use Rattle.ibcplan_folders.specs.Leavings.{HasMore, IsLeftOf, IsMadeOfLeft, OrFailed, StaysWhole, failed};
ghost use Rattle.ibcplan_folders.specs.Folders.{AreAnswersIn, IsAnswerIn, IsFileIn, OfKnown, is_judged_in};
ghost use Rattle.ibcplan_folders.specs.LeftOut.{import_status};

use crate::answer_folders::AnswerFolders;
use crate::left_out::{Failure, Failures, Fleet, LeftOut, is_tracked};
use crate::reading::{
    FileBytes, MAX_GROUP_BYTES, Reading, Votes, out_of_memory, refused, with_answers,
};
use ibcplan_cli::{Import, Input, ProgramError};
use rb_base::ChainId;
use rb_import::{Composed, Made, compose, make};
use rb_import_answers::revision_of;
use rb_import_check::{CheckError, Saved, SavedAnswers, Signatures};
use rb_import_merge::ImportErrors;
use rb_import_notices::Notices;
use rb_import_setup::{ClientSetup, ImportSetup, PathSetup, read_setup};
use rb_script_types::Script;
use std::alloc::{AllocError, Global};
use std::io;
use std::thread::Threads;

/// The text of a script, lines that tell what is left out and which answers aren't there, and the status to end with.
#[derive(Drop)]
pub struct ImportedText {
    pub script: String,
    pub notices: String,
    pub status: u8,
}

/// A script, lines that tell what is left out and which answers aren't there, and the status to end with.
#[derive(Drop)]
pub struct MadeScript {
    pub script: Script,
    pub notices: String,
    pub status: u8,
}

/// The text of the script that a setup and the answers in a folder make.
pub fn imported<'a, R: Threads + Sync, F: AnswerFolders>(
    rt: &R,
    files: &F,
    input: &Input<'a>,
    import: Import<'_>,
) -> Result<ImportedText, ProgramError<'a>> {
    let mut left_out = LeftOut::nothing(files.alloc());
    let fleet = fleet_of(rt, files, input, import, &mut left_out)?;
    composed(files.alloc(), fleet, import, left_out)
}

/// The script that a setup and the answers in a folder make, of which `imported` gives the text.
pub fn made<'a, R: Threads + Sync, F: AnswerFolders>(
    rt: &R,
    files: &F,
    input: &Input<'a>,
    import: Import<'_>,
) -> Result<MadeScript, ProgramError<'a>>
    ensures form { IfOk result (λ made. IsReadScript (script_view made.script)) }
    ensures little { IfOk result (λ made. little (script_view made.script).config (script_view made.script).turns ≡ Ok tt) }
    ensures script { IfOk result (λ made. IsMadeBy (F.known files.now) input.now (signatures_of import.entry) made.status made.script) }
{
    let mut left_out = LeftOut::nothing(files.alloc());
    let fleet = fleet_of(rt, files, input, import, &mut left_out)?;
    scripted(files.alloc(), fleet, import, left_out)
}

/// The setup of an input, with the answers in a folder.
fn fleet_of<'a, R: Threads + Sync, F: AnswerFolders>(
    rt: &R,
    files: &F,
    input: &Input<'a>,
    import: Import<'_>,
    left_out: &mut LeftOut<'a>,
) -> Result<Fleet, ProgramError<'a>>
    ensures { IfOk result (IsFleetOf (F.known files.now) input.now (import_status left_out.new)) }
{
    match read_setup(files.alloc(), input.bytes()) {
        Ok(setup) => read_fleet(rt, files, setup, import, left_out),
        Err(error) => Err(ProgramError::of_setup(error, input)),
    }
}

/// The text of the script that a fleet makes, without the clients and the paths whose answers are refused. A round leaves
/// out all of them; each later one the largest client, where the script of the others is too big.
fn composed<'a>(
    alloc: Global,
    fleet: Fleet,
    import: Import<'_>,
    left_out: LeftOut<'a>,
) -> Result<ImportedText, ProgramError<'a>>
    ensures whole { IfOk result (λ text. text.status ≡ 0 → Opens (hold_verdicts fleet.answers) (string_bytes text.script)) }
    ensures in_part { IfOk result (λ text. is_some left_out.entry.first ≡ true → text.status ≡ 7) }
    ensures script { IfOk result (IsScriptOfRest fleet (signatures_of import.entry)) }
{
    let mut fleet = fleet;
    let mut left_out = left_out;
    'rounds: loop {
        let signatures = signatures_of(import);
        let failures = match compose(alloc, &fleet.setup, signatures, &fleet.answers) {
            Ok(composed) => return imported_text(alloc, composed, &left_out),
            Err(errors) => failures_of(alloc, &errors, import)?,
        };
        fleet = left_out.without_all(alloc, fleet, failures)?;
    }
}

/// The script of which that is the text, and which may be bigger.
#[tactic(auto, using(crate::proofs::Leaving::once))]
fn scripted<'a>(
    alloc: Global,
    fleet: Fleet,
    import: Import<'_>,
    left_out: LeftOut<'a>,
) -> Result<MadeScript, ProgramError<'a>>
    ensures in_part { IfOk result (λ made. is_some left_out.entry.first ≡ true → made.status ≡ 7) }
    ensures script { IfOk result (IsMadeOfLeft fleet (signatures_of import.entry)) }
    ensures form { IfOk result (λ made. IsReadScript (script_view made.script)) }
    ensures little { IfOk result (λ made. little (script_view made.script).config (script_view made.script).turns ≡ Ok tt) }
{
    let mut fleet = fleet;
    let mut left_out = left_out;
    'rounds: loop {
        let signatures = signatures_of(import);
        let failures = match make(alloc, &fleet.setup, signatures, &fleet.answers) {
            Ok(made) => return made_script(alloc, made, &left_out),
            Err(errors) => failures_of(alloc, &errors, import)?,
        };
        fleet = left_out.without_all(alloc, fleet, failures)?;
    }
}

/// Which votes count.
fn signatures_of(import: Import<'_>) -> Signatures
    ensures { result ≡ signatures_of import.entry }
{
    if import.is_verified {
        Signatures::Verified
    } else {
        Signatures::AsGiven
    }
}

/// A script, with what is told of its answers, and before that of what is left out, as a text of its own.
fn imported_text<'a>(
    alloc: Global,
    composed: Composed<'_>,
    left_out: &LeftOut<'_>,
) -> Result<ImportedText, ProgramError<'a>>
    ensures script { IfOk result (λ text. text.script ≡ composed.entry.text) }
    ensures status { IfOk result (λ text. text.status ≡ import_status left_out.now) }
{
    let Composed { text, notices } = composed;
    Ok(ImportedText {
        script: text,
        notices: told(alloc, &notices, left_out)?,
        status: left_out.status(),
    })
}

/// The same of the script itself.
fn made_script<'a>(
    alloc: Global,
    made: Made<'_>,
    left_out: &LeftOut<'_>,
) -> Result<MadeScript, ProgramError<'a>>
    ensures script { IfOk result (λ text. text.script ≡ made.entry.script) }
    ensures status { IfOk result (λ text. text.status ≡ import_status left_out.now) }
{
    let Made { script, notices } = made;
    Ok(MadeScript {
        script,
        notices: told(alloc, &notices, left_out)?,
        status: left_out.status(),
    })
}

/// What is told of what is left out, and behind that of the answers.
fn told<'a>(
    alloc: Global,
    notices: &Notices<'_>,
    left_out: &LeftOut<'_>,
) -> Result<String, ProgramError<'a>> {
    let lines = left_out.lines();
    match format!(in alloc; "{lines}{notices}") {
        Ok(notices) => Ok(notices),
        Err(_) => Err(ProgramError::NoMemory),
    }
}

/// Of which chains, clients and paths answers are refused, and why, as texts of their own. The error is one of the whole,
/// as the first of them is with all or nothing.
fn failures_of<'a>(
    alloc: Global,
    errors: &ImportErrors<'_>,
    import: Import<'_>,
) -> Result<Failures<'a>, ProgramError<'a>> {
    let ImportErrors::Refused(refusals) = errors else {
        return Err(ProgramError::NoMemory);
    };
    let first = failure_of(alloc, &refusals.first)?;
    if import.is_all_or_nothing {
        return Err(first.error);
    }
    let mut others = Vec::new(alloc);
    for problem in &refusals.others {
        add(&mut others, failure_of(alloc, problem)?)?;
    }
    Ok(Failures { first, others })
}

fn failure_of<'a>(
    alloc: Global,
    problem: &CheckError<'_>,
) -> Result<Failure<'a>, ProgramError<'a>> {
    let error = refused(format!(in alloc; "{problem}"));
    failure_at(alloc, problem.object, error)
}

/// A failure of the chain, the client or the path of an identifier.
fn failure_at<'a>(
    alloc: Global,
    id: &str,
    error: ProgramError<'a>,
) -> Result<Failure<'a>, ProgramError<'a>>
    ensures { IfOk result (λ failure. string_bytes failure.id ≡ id.now) }
{
    match String::from_str(alloc, id) {
        Ok(id) => Ok(Failure { id, error }),
        Err(_) => Err(ProgramError::NoMemory),
    }
}

/// A setup without answers.
fn without_answers(alloc: Global, setup: ImportSetup) -> Fleet
    ensures { result.setup ≡ setup }
{
    let answers = SavedAnswers {
        chains: Vec::new(alloc),
        clients: Vec::new(alloc),
        paths: Vec::new(alloc),
    };
    Fleet { setup, answers }
}

/// Reads the answers of the chains that clients track, of the clients and of the paths, each from the folder of its
/// identifier.
fn read_fleet<'a, R: Threads + Sync, F: AnswerFolders>(
    rt: &R,
    files: &F,
    setup: ImportSetup,
    import: Import<'_>,
    left_out: &mut LeftOut<'a>,
) -> Result<Fleet, ProgramError<'a>>
    ensures rest { IfOk result (λ fleet. IsRestOf setup fleet.setup) }
    ensures whole { IfOk result (λ fleet. StaysWhole left_out.old left_out.new setup fleet.setup) }
    ensures chains { IfOk result (ChainsHave (AreTold (F.known files.now))) }
    ensures clients { IfOk result (ClientsHave (AreTold (F.known files.now))) }
    ensures paths { IfOk result (PathsHave (AreTold (F.known files.now))) }
{
    let empty = without_answers(files.alloc(), setup);
    let chains = with_chains(rt, files, empty, import, left_out)?;
    let clients = with_clients(rt, files, chains, import, left_out)?;
    with_paths(rt, files, clients, import, left_out)
}

/// The fleet with the answers of its chains, without what goes with those that are refused.
fn with_chains<'a, R: Threads + Sync, F: AnswerFolders>(
    rt: &R,
    files: &F,
    fleet: Fleet,
    import: Import<'_>,
    left_out: &mut LeftOut<'a>,
) -> Result<Fleet, ProgramError<'a>>
    ensures rest { IfOk result (λ left. IsRestOf fleet.setup left.setup) }
    ensures whole { IfOk result (λ left. StaysWhole left_out.old left_out.new fleet.setup left.setup) }
    ensures chains { IfOk result (ChainsHave (AreTold (F.known files.now))) }
{
    let mut fleet = fleet;
    let mut failures = Vec::new(files.alloc());
    let chains = chain_answers(
        rt,
        files,
        fleet.setup.chains.as_slice(),
        &fleet.setup,
        import,
        &mut failures,
    )?;
    fleet.answers.chains = chains;
    without_all(files.alloc(), fleet, failures, left_out)
}

/// The same of its clients.
fn with_clients<'a, R: Threads + Sync, F: AnswerFolders>(
    rt: &R,
    files: &F,
    fleet: Fleet,
    import: Import<'_>,
    left_out: &mut LeftOut<'a>,
) -> Result<Fleet, ProgramError<'a>>
    requires chains { ChainsHave (AreTold (F.known files.now)) fleet }
    ensures rest { IfOk result (λ left. IsRestOf fleet.setup left.setup) }
    ensures whole { IfOk result (λ left. StaysWhole left_out.old left_out.new fleet.setup left.setup) }
    ensures chains { IfOk result (ChainsHave (AreTold (F.known files.now))) }
    ensures clients { IfOk result (ClientsHave (AreTold (F.known files.now))) }
{
    let mut fleet = fleet;
    let mut failures = Vec::new(files.alloc());
    let clients = client_answers(
        rt,
        files,
        fleet.setup.chains.as_slice(),
        fleet.setup.clients.as_slice(),
        import,
        &mut failures,
    )?;
    fleet.answers.clients = clients;
    without_all(files.alloc(), fleet, failures, left_out)
}

/// The same of its paths.
fn with_paths<'a, R: Threads + Sync, F: AnswerFolders>(
    rt: &R,
    files: &F,
    fleet: Fleet,
    import: Import<'_>,
    left_out: &mut LeftOut<'a>,
) -> Result<Fleet, ProgramError<'a>>
    requires chains { ChainsHave (AreTold (F.known files.now)) fleet }
    requires clients { ClientsHave (AreTold (F.known files.now)) fleet }
    ensures rest { IfOk result (λ left. IsRestOf fleet.setup left.setup) }
    ensures whole { IfOk result (λ left. StaysWhole left_out.old left_out.new fleet.setup left.setup) }
    ensures chains { IfOk result (ChainsHave (AreTold (F.known files.now))) }
    ensures clients { IfOk result (ClientsHave (AreTold (F.known files.now))) }
    ensures paths { IfOk result (PathsHave (AreTold (F.known files.now))) }
{
    let mut fleet = fleet;
    let mut failures = Vec::new(files.alloc());
    let paths = path_answers(
        rt,
        files,
        fleet.setup.paths.as_slice(),
        import,
        &mut failures,
    )?;
    fleet.answers.paths = paths;
    without_all(files.alloc(), fleet, failures, left_out)
}

/// The fleet without what goes with each of these failures.
#[tactic(auto, using(crate::proofs::Leaving::more_failed))]
fn without_all<'a>(
    alloc: Global,
    fleet: Fleet,
    failures: Vec<Failure<'a>>,
    left_out: &mut LeftOut<'a>,
) -> Result<Fleet, ProgramError<'a>>
    ensures left { IfOk result (IsLeftOf (failed failures.entry.items) fleet) }
    ensures whole { IfOk result (λ rest. StaysWhole left_out.old left_out.new fleet.setup rest.setup) }
{
    let mut fleet = fleet;
    for failure in failures {
        fleet = left_out.without(alloc, fleet, failure)?;
    }
    Ok(fleet)
}

/// The answers of the chains, none of one that no client tracks.
fn chain_answers<'a, R: Threads + Sync, F: AnswerFolders>(
    rt: &R,
    files: &F,
    chains: &[ChainId],
    setup: &ImportSetup,
    import: Import<'_>,
    failures: &mut Vec<Failure<'a>>,
) -> Result<Vec<Vec<Saved>>, ProgramError<'a>>
    ensures { IfOk result (λ answers. AllZip (ChainHas (OrFailed (AreTold (F.known files.now)) (failed failures.new.items)) setup.now.clients.items) (enumerate_from 0 chains.now) answers.items) }
{
    let mut answers = Vec::new(files.alloc());
    for (place, chain) in chains.iter().enumerate() {
        let is_needed = is_tracked(setup, place);
        let saved = needed_answers(rt, files, import, chain.as_str(), is_needed, failures)?;
        add(&mut answers, saved)?;
    }
    Ok(answers)
}

/// The answers of a chain, if they are needed.
fn needed_answers<'a, R: Threads + Sync, F: AnswerFolders>(
    rt: &R,
    files: &F,
    import: Import<'_>,
    id: &str,
    is_needed: bool,
    failures: &mut Vec<Failure<'a>>,
) -> Result<Vec<Saved>, ProgramError<'a>>
    ensures told { IfOk result (λ saved. is_needed ≡ true → OrFailed (AreTold (F.known files.now)) (failed failures.new.items) 0 id.now saved) }
    ensures more { OnOk result (HasMore (failed failures.old.items) (failed failures.new.items)) }
{
    if is_needed {
        answers_of(rt, files, import, id, 0, failures)
    } else {
        Ok(Vec::new(files.alloc()))
    }
}

/// The answers of clients.
fn client_answers<'a, R: Threads + Sync, F: AnswerFolders>(
    rt: &R,
    files: &F,
    chains: &[ChainId],
    clients: &[ClientSetup],
    import: Import<'_>,
    failures: &mut Vec<Failure<'a>>,
) -> Result<Vec<Vec<Saved>>, ProgramError<'a>>
    ensures { IfOk result (λ answers. AllZip (ClientHas (OrFailed (AreTold (F.known files.now)) (failed failures.new.items)) chains.now) clients.now answers.items) }
{
    let mut answers = Vec::new(files.alloc());
    for client in clients {
        let since = tracked_revision(chains, client);
        let saved = answers_of(rt, files, import, client.id.as_str(), since, failures)?;
        add(&mut answers, saved)?;
    }
    Ok(answers)
}

/// The answers of paths.
fn path_answers<'a, R: Threads + Sync, F: AnswerFolders>(
    rt: &R,
    files: &F,
    paths: &[PathSetup],
    import: Import<'_>,
    failures: &mut Vec<Failure<'a>>,
) -> Result<Vec<Vec<Saved>>, ProgramError<'a>>
    ensures { IfOk result (λ answers. AllZip (OrFailed (AreTold (F.known files.now)) (failed failures.new.items) 0) (path_ids paths.now) answers.items) }
{
    let mut answers = Vec::new(files.alloc());
    for path in paths {
        let saved = answers_of(rt, files, import, path.config.id.as_str(), 0, failures)?;
        add(&mut answers, saved)?;
    }
    Ok(answers)
}

/// The revision number of the chain, one of these, that a client tracks.
pub fn tracked_revision(chains: &[ChainId], client: &ClientSetup) -> u64
    ensures revision { MatchOption (slice_get chains.now client.now.tracks) (result ≡ 0) (λ chain. IsRevision chain result) }
{
    match chains.get(client.tracks) {
        Some(chain) => revision_of(chain.as_str()),
        None => 0,
    }
}

/// The answers of a chain, a client or a path, of a client's records those of this revision and of later ones; none where
/// they are refused, which is then a failure of it.
fn answers_of<'a, R: Threads + Sync, F: AnswerFolders>(
    rt: &R,
    files: &F,
    import: Import<'_>,
    id: &str,
    since: u64,
    failures: &mut Vec<Failure<'a>>,
) -> Result<Vec<Saved>, ProgramError<'a>>
    ensures told { IfOk result (OrFailed (AreTold (F.known files.now)) (failed failures.new.items) since id.now) }
    ensures more { OnOk result (HasMore (failed failures.old.items) (failed failures.new.items)) }
{
    match read_folder(rt, files, id, since, Votes::LeftOut) {
        Ok(saved) => Ok(saved),
        Err(error) if import.is_all_or_nothing || !is_of_answers(&error) => Err(error),
        Err(error) => {
            add(failures, failure_at(files.alloc(), id, error)?)?;
            Ok(Vec::new(files.alloc()))
        }
    }
}

/// Whether an error is one of the answers in a folder: they are refused, or aren't there.
fn is_of_answers(error: &ProgramError<'_>) -> bool {
    match error {
        ProgramError::RefusedAnswers(_) => true,
        ProgramError::UnreadableAnswers { error, .. } => error.kind() == io::ErrorKind::NotFound,
        _ => false,
    }
}

pub fn add<'a, T: Drop>(items: &mut Vec<T>, item: T) -> Result<(), ProgramError<'a>>
    ensures { OnOk result (items.new.items ≡ items.old.items ++ item ∷ []) }
{
    match items.push(item) {
        Ok(()) => Ok(()),
        Err(_) => Err(ProgramError::NoMemory),
    }
}

/// Reads the answers in the folder of an identifier, by their names.
pub fn read_folder<'a, R: Threads + Sync, F: AnswerFolders>(
    rt: &R,
    files: &F,
    id: &str,
    since: u64,
    votes: Votes,
) -> Result<Vec<Saved>, ProgramError<'a>>
    ensures { IfOk result (λ saved. OfKnown (F.known files.now) (λ known. AreAnswersIn votes since id.now known saved.items)) }
{
    let names = match files.names(id) {
        Ok(names) => names,
        Err(error) => return Err(of_folder(files, id, error)),
    };
    let reading = Reading {
        since,
        votes,
        is_judged: has_verdicts(names.as_slice()),
    };
    read_files(rt, files, id, names.as_slice(), reading)
}

/// Whether verdicts stand among files of these names.
fn has_verdicts(names: &[String]) -> bool
    ensures { result ≡ list_any (λ name. bytes_eq (string_bytes name) verdicts_file) names.now }
{
    names.iter().any(|name| name.as_str() == "verdicts.json")
}

/// The error of a folder.
pub fn of_folder<'a, F: AnswerFolders>(
    files: &F,
    folder: &str,
    error: io::Error,
) -> ProgramError<'a> {
    match files.place(folder) {
        Ok(path) => ProgramError::of_file(files.alloc(), path.as_str(), error),
        Err(_) => ProgramError::NoMemory,
    }
}

/// The error of a folder's file of this name.
pub fn of_file<'a, F: AnswerFolders>(
    files: &F,
    folder: &str,
    name: &str,
    error: io::Error,
) -> ProgramError<'a> {
    match place_in(files, folder, name) {
        Ok(file) => ProgramError::of_file(files.alloc(), file.as_str(), error),
        Err(error) => error,
    }
}

/// The path of what a folder has under a name.
pub fn path_in<'a>(alloc: Global, folder: &str, name: &str) -> Result<String, ProgramError<'a>>
    ensures { IfOk result (λ path. string_bytes path ≡ folder.now ++ codes "/" ++ name.now) }
{
    match format!(in alloc; "{folder}/{name}") {
        Ok(path) => Ok(path),
        Err(_) => Err(ProgramError::NoMemory),
    }
}

/// What to call a folder's file of this name.
fn place_in<'a, F: AnswerFolders>(
    files: &F,
    folder: &str,
    name: &str,
) -> Result<String, ProgramError<'a>> {
    match files.place(folder) {
        Ok(path) => path_in(files.alloc(), path.as_str(), name),
        Err(_) => Err(ProgramError::NoMemory),
    }
}

/// Reads the answers in files of a folder. They are read in their order; those of small files are taken together.
fn read_files<'a, R: Threads + Sync, F: AnswerFolders>(
    rt: &R,
    files: &F,
    folder: &str,
    names: &[String],
    reading: Reading,
) -> Result<Vec<Saved>, ProgramError<'a>>
    requires { OfKnown (F.known files.now) (λ known. reading.is_judged ≡ is_judged_in folder.now known) }
    ensures { IfOk result (λ saved. OfKnown (F.known files.now) (λ known. AllZip (IsAnswerIn reading.votes reading.since folder.now known) (map string_bytes names.now) saved.items)) }
{
    let mut answers = Vec::new(files.alloc());
    let mut group = Vec::new(files.alloc());
    let mut size: usize = 0;
    for name in names {
        let read = read_file(files, folder, name.as_str());
        if !fits(&read, size) {
            answers = with_answers(rt, files.alloc(), reading, answers, group.as_slice())?;
            group = Vec::new(files.alloc());
            size = 0;
        }
        let file = read?;
        size = size.saturating_add(file.bytes.len());
        add(&mut group, file)?;
    }
    with_answers(rt, files.alloc(), reading, answers, group.as_slice())
}

/// Whether a file was read that fits beside so many bytes of others.
fn fits(read: &Result<FileBytes<'_>, ProgramError<'_>>, size: usize) -> bool {
    match read {
        Ok(file) => size.saturating_add(file.bytes.len()) <= MAX_GROUP_BYTES,
        Err(_) => false,
    }
}

/// Reads a folder's file of this name.
fn read_file<'a, 'n, F: AnswerFolders>(
    files: &F,
    folder: &str,
    name: &'n str,
) -> Result<FileBytes<'n>, ProgramError<'a>>
    ensures { IfOk result (λ file. OfKnown (F.known files.now) (λ known. IsFileIn folder.now file name.now known)) }
{
    let place = place_in(files, folder, name)?;
    match files.read(folder, name) {
        Ok(bytes) => Ok(FileBytes { place, name, bytes }),
        Err(error) if error.kind() == io::ErrorKind::OutOfMemory => {
            Err(out_of_memory(files.alloc(), place.as_str()))
        }
        Err(error) => Err(ProgramError::of_file(files.alloc(), place.as_str(), error)),
    }
}
