//! The run of a script.
ghost use Rattle.std.specs.Prelude.{◌≡◌, ◌≤◌, ◌++◌, ◌∷◌, [], Ok, map, sum_by, All, IfOk, OnOk};
ghost use denote.Param.Send.{Frees};
ghost use Rattle.rb_script_types.specs.declared.config.PathConfig.{PathConfig};
ghost use Rattle.rb_script_types.specs.Config.{config_view};
ghost use Rattle.rb_script_types.specs.Script.{script_view, IsReadScript};
ghost use Rattle.rb_super_turn.specs.Judging.{Leads, IsEndOf};
ghost use Rattle.rb_super_turn.specs.Turns.{AreTurnReports, IsReportOf};
ghost use Rattle.rb_super_turn.specs.Phases.{standing_in, HasLogRoom, IsLater};
ghost use Rattle.rb_super_turn.specs.Views.{turn_report_view, report_view};
ghost use Rattle.rb_super_turn.specs.AsEvents.{code_turn_as_events, as_events, IsTurnFor, most_events};

use crate::parallel::ParallelSupervisor;
use crate::supervisor::Supervisor;
use rb_base::{Gate, PathId};
use rb_board::{Desk, Team};
use rb_core::Core;
use rb_script_types::{PathConfig, Script, Turn};
use rb_super_turn::{Crew, Report, TurnReport};
use std::alloc::{AllocError, Allocator, Global};
use std::sync::{Arc, Wait};
use std::thread::Threads;

/// The identifiers of paths.
fn path_ids<A: Allocator + Copy>(
    alloc: A,
    paths: &[PathConfig],
) -> Result<Vec<PathId, A>, AllocError>
    ensures { IfOk result (λ ids. ids.items ≡ map (λ (p : PathConfig). p.id) paths.now) }
{
    let mut ids = Vec::with_capacity(alloc, paths.len())?;
    for path in paths {
        ids.push(path.id)?;
    }
    Ok(ids)
}

/// Leads a supervisor through turns; tells what they report, and the supervisor then.
pub(crate) fn run_turns<R: Threads + Sync, G: Gate + Sync, A: Allocator + Copy + Send + Sync>(
    crew: &Crew<R, G>,
    alloc: A,
    supervisor: Supervisor<A>,
    turns: Vec<Turn<A>, A>,
) -> Result<(Vec<TurnReport<A>, A>, Supervisor<A>), AllocError>
    requires turns { All (IsTurnFor supervisor.config) turns.items }
    requires room { HasLogRoom supervisor (sum_by (most_events supervisor.config) turns.items) }
    requires alloc { Frees A.Allocator A.dealloc_token }
    ensures reports { IfOk result (λ r. AreTurnReports (standing_in supervisor) (map code_turn_as_events turns.items) (map turn_report_view r.0.items)) }
    ensures leads { IfOk result (λ r. Leads (standing_in supervisor) (map code_turn_as_events turns.items) (standing_in r.1)) }
    ensures later { IfOk result (λ r. IsLater (sum_by (most_events supervisor.config) turns.items) supervisor r.1) }
{
    let mut reports = Vec::with_capacity(alloc, turns.len())?;
    let mut supervisor = supervisor;
    for turn in turns {
        let (next, report) = supervisor.turn(crew, turn)?;
        supervisor = next;
        reports.push(report)?;
    }
    Ok((reports, supervisor))
}

/// Runs a script, turn by turn, and answers its report and the relayer after the last turn. So many threads, at most 64, make
/// the rows of step tables, the calling thread alone with 0 or 1; it does all else, and the report doesn't go by it. The gate is
/// called as each scan and plan begins and ends, and when a client's plan was taken. An error comes only where a growth is refused.
pub fn run_to_end<R: Threads + Sync, G: Gate + Sync, A: Allocator + Copy + Send + Sync>(
    rt: &R,
    alloc: A,
    script: Script<A>,
    threads: usize,
    gate: &G,
) -> Result<(Report<A>, Core<A>), AllocError>
    requires script { IsReadScript (script_view script) }
    requires threads { threads ≤ 64 }
    requires alloc { Frees A.Allocator A.dealloc_token }
    ensures version { IfOk result (λ r. r.0.version ≡ script.config.version) }
    ensures chains { IfOk result (λ r. r.0.chains.items ≡ script.config.chains.items) }
    ensures paths { IfOk result (λ r. r.0.paths.items ≡ map (λ (p : PathConfig). p.id) script.config.paths.items) }
    ensures turns { IfOk result (λ r. IsReportOf (as_events (script_view script)) (report_view r.0)) }
    ensures config { IfOk result (λ r. r.1.config ≡ config_view script.config) }
    ensures end { IfOk result (λ r. IsEndOf (as_events (script_view script)) (standing_in r.1)) }
{
    let crew = Crew::new(rt, threads, gate);
    let Script { config, turns } = script;
    let version = config.version;
    let chains = Vec::from_slice(alloc, config.chains.as_slice())?;
    let paths = path_ids(alloc, config.paths.as_slice())?;
    let supervisor = Supervisor::new(alloc, config)?;
    let (turns, ended) = run_turns(&crew, alloc, supervisor, turns)?;
    let report = Report {
        version,
        chains,
        paths,
        turns,
    };
    Ok((report, ended.stop()))
}

/// Runs a script, turn by turn, by the calling thread alone: its report. The gate is called as each
/// scan and plan begins and ends, and when a client's plan was taken.
pub fn run_script<R: Threads + Sync, G: Gate + Sync, A: Allocator + Copy + Send + Sync>(
    rt: &R,
    alloc: A,
    script: Script<A>,
    gate: &G,
) -> Result<Report<A>, AllocError>
    requires script { IsReadScript (script_view script) }
    requires alloc { Frees A.Allocator A.dealloc_token }
    ensures version { IfOk result (λ report. report.version ≡ script.config.version) }
    ensures chains { IfOk result (λ report. report.chains.items ≡ script.config.chains.items) }
    ensures paths { IfOk result (λ report. report.paths.items ≡ map (λ (p : PathConfig). p.id) script.config.paths.items) }
    ensures turns { IfOk result (λ report. IsReportOf (as_events (script_view script)) (report_view report)) }
{
    let (report, _) = run_to_end(rt, alloc, script, 0, gate)?;
    Ok(report)
}

/// Puts a report to the end of a list.
fn keep(reports: &mut Vec<TurnReport>, report: TurnReport) -> Result<(), AllocError>
    ensures { OnOk result (reports.new.items ≡ reports.old.items ++ report ∷ []) }
{
    reports.push(report)?;
    Ok(())
}

/// Goes on where a report was kept, or ends the workers.
fn or_stop<R: Threads + Wait, G: Gate + Send + Sync + Drop + 'static>(
    rt: &R,
    workers: ParallelSupervisor<G>,
    kept: Result<(), AllocError>,
) -> Result<ParallelSupervisor<G>, AllocError>
    ensures same { IfOk result (λ w. w ≡ workers) }
    ensures kept { IfOk result (λ _. kept ≡ Ok tt) }
{
    match kept {
        Ok(()) => Ok(workers),
        Err(AllocError) => {
            workers.stop(rt);
            Err(AllocError)
        }
    }
}

/// Leads a supervisor with workers through turns, and ends it; tells what they report.
fn turns_by_workers<R: Threads + Sync + Wait, G: Gate + Send + Sync + Drop + 'static>(
    crew: &Crew<R, G>,
    reports: Vec<TurnReport>,
    workers: ParallelSupervisor<G>,
    turns: Vec<Turn>,
) -> Result<Vec<TurnReport>, AllocError>
    requires empty { reports.items ≡ [] }
    requires turns { All (IsTurnFor workers.config) turns.items }
    requires room { HasLogRoom workers (sum_by (most_events workers.config) turns.items) }
    ensures { IfOk result (λ r. AreTurnReports (standing_in workers) (map code_turn_as_events turns.items) (map turn_report_view r.items)) }
{
    let mut reports = reports;
    let mut workers = workers;
    for turn in turns {
        let (next, report) = workers.turn(crew, turn)?;
        let kept = keep(&mut reports, report);
        workers = or_stop(crew.rt(), next, kept)?;
    }
    workers.stop(crew.rt());
    Ok(reports)
}

/// Runs a script, turn by turn, its scans and plans by the team that is started for so many desks, at most 64; what the
/// team doesn't find the calling thread does. The report doesn't go by what is found. The crew's gate is called as each
/// job begins and ends that the calling thread does. An error comes only where a growth is refused, to whichever thread;
/// the team has then ended.
pub fn run_by_team<R, G, F>(
    crew: &Crew<R, G>,
    alloc: Global,
    script: Script,
    desks: usize,
    start: F,
) -> Result<Report, AllocError>
where
    R: Threads + Sync + Wait,
    G: Gate + Send + Sync + Drop + 'static,
    F: FnOnce(Vec<Desk>) -> Result<Team<G>, AllocError> + Drop,
    requires script { IsReadScript (script_view script) }
    requires desks { desks ≤ 64 }
    requires start { F.IsAlwaysCallable start }
    ensures version { IfOk result (λ report. report.version ≡ script.config.version) }
    ensures chains { IfOk result (λ report. report.chains.items ≡ script.config.chains.items) }
    ensures paths { IfOk result (λ report. report.paths.items ≡ map (λ (p : PathConfig). p.id) script.config.paths.items) }
    ensures turns { IfOk result (λ report. IsReportOf (as_events (script_view script)) (report_view report)) }
{
    let Script { config, turns } = script;
    let version = config.version;
    let chains = Vec::from_slice(alloc, config.chains.as_slice())?;
    let paths = path_ids(alloc, config.paths.as_slice())?;
    let reports = Vec::with_capacity(alloc, turns.len())?;
    let team = ParallelSupervisor::new(crew.rt(), alloc, config, desks, start)?;
    let turns = turns_by_workers(crew, reports, team, turns)?;
    Ok(Report {
        version,
        chains,
        paths,
        turns,
    })
}

/// Runs a script, turn by turn, its scans and plans by so many workers in threads of their own, at most
/// 64, by fewer where no thread can be made, and by the calling thread alone where none can; with 2 or
/// more the rows of tables, too, are made by so many threads. The report doesn't go by how many there
/// are. The gate is called as each scan and plan begins and ends, as each row does that several threads
/// make, and when a client's plan was handed over or taken in. An error comes only where a growth is refused, to whichever thread; all threads have then ended.
pub fn run_by_workers<
    R: Threads + Wait + Copy + Send + Sync + 'static,
    G: Gate + Send + Sync + Drop + 'static,
>(
    rt: &R,
    alloc: Global,
    script: Script,
    workers: usize,
    gate: &Arc<G, Global>,
) -> Result<Report, AllocError>
    requires script { IsReadScript (script_view script) }
    requires workers { workers ≤ 64 }
    ensures version { IfOk result (λ report. report.version ≡ script.config.version) }
    ensures chains { IfOk result (λ report. report.chains.items ≡ script.config.chains.items) }
    ensures paths { IfOk result (λ report. report.paths.items ≡ map (λ (p : PathConfig). p.id) script.config.paths.items) }
    ensures turns { IfOk result (λ report. IsReportOf (as_events (script_view script)) (report_view report)) }
{
    let crew = Crew::new(rt, workers, &**gate);
    run_by_team(&crew, alloc, script, workers, |desks| {
        Team::start(rt, alloc, desks, gate)
    })
}
