//! The report of a script in other forms than its own: JSON, and the commands that submit its updates.
ghost use Rattle.std.specs.Prelude.{◌≡◌, IfOk, string_bytes};
ghost use Rattle.rb_script_types.specs.Script.{script_view, IsReadScript};
ghost use Rattle.rb_super_turn.specs.Views.{report_view};
ghost use Rattle.ibcplan.specs.Forms.{IsJsonOf, report_line};

use crate::reporting::plan_status;
use ibcplan_cli::{ProgramError, ShownName, Turns, WantedTurns, WorkerCount};
use rb_base::Gate;
use rb_script_types::Script;
use rb_super::run_to_end;
use rb_super_turn::Report;
use rb_text::{report_of, shares_of};
use rb_text_export::{Setting, commands_of, push_report};
use rb_text_report::{ClientHealth, healths_of, push_clients};
use std::alloc::{AllocError, Global};
use std::sync::{Arc, Wait};
use std::thread::Threads;

/// A report as JSON, and the status of a plan that writes it.
#[derive(Drop)]
pub struct JsonText {
    pub text: String,
    pub status: u8,
}

/// The report of a script as JSON, with when its clients expire; its step tables are made by so many workers where that saves time,
/// its plans by the calling thread, through a gate.
pub fn json_of_script<R: Threads + Sync, G: Gate + Sync>(
    rt: &R,
    alloc: Global,
    script: Script,
    workers: WorkerCount,
    is_strict: bool,
    gate: &G,
) -> Result<JsonText, AllocError>
    requires { IsReadScript (script_view script) }
    ensures { IfOk result (λ json. IsJsonOf is_strict (script_view script) (string_bytes json.text) json.status) }
{
    let threads = shares_of(alloc, &script)?.table_threads(workers.count());
    let (report, relayer) = run_to_end(rt, alloc, script, threads, gate)?;
    let clients = healths_of(alloc, &relayer)?;
    Ok(JsonText {
        text: json_of(alloc, &report, clients.as_slice())?,
        status: plan_status(is_strict, &report),
    })
}

/// A report as one object of JSON, with when its clients expire, and a line feed.
fn json_of(alloc: Global, report: &Report, clients: &[ClientHealth]) -> Result<String, AllocError>
    ensures { IfOk result (λ text. string_bytes text ≡ report_line report.now.version report.now.chains.items report.now.paths.items (report_view report.now) clients.now) }
{
    let mut text = String::from_str(alloc, "{")?;
    push_report(&mut text, report)?;
    push_clients(&mut text, clients)?;
    text.push_str("}\n")?;
    Ok(text)
}

/// The commands for the plans of the script of a file, of the turns that are wanted: one that is numbered has to be there; the
/// plans are made through a gate.
pub fn commands_of_script<
    'a,
    R: Threads + Wait + Copy + Send + Sync + 'static,
    G: Gate + Send + Sync + Drop + 'static,
>(
    rt: &R,
    alloc: Global,
    script: Script,
    file: ShownName<'a>,
    turns: WantedTurns,
    gate: G,
) -> Result<String, ProgramError<'a>>
    requires { IsReadScript (script_view script) }
{
    let count = script.turns.len();
    match number_of(turns, count) {
        Some(turn) if turn > count as u64 => Err(no_such_turn(turn, file, count)),
        turn => match commands_by(rt, alloc, script, turn, gate) {
            Ok(text) => Ok(text),
            Err(_) => Err(ProgramError::NoMemory),
        },
    }
}

/// The number of the turn that is wanted, from 1, of so many; none where all are.
pub(crate) fn number_of(turns: WantedTurns, count: usize) -> Option<u64> {
    match turns {
        WantedTurns::Every => None,
        WantedTurns::Last => Some(count as u64),
        WantedTurns::Numbered(turn) => Some(turn),
    }
}

/// What is wrong where the script of a file, of so many turns, doesn't have a turn.
pub(crate) fn no_such_turn<'a>(turn: u64, file: ShownName<'a>, count: usize) -> ProgramError<'a> {
    ProgramError::NoSuchTurn {
        turn,
        turns: Turns { file, count },
    }
}

fn commands_by<
    R: Threads + Wait + Copy + Send + Sync + 'static,
    G: Gate + Send + Sync + Drop + 'static,
>(rt: &R, alloc: Global, script: Script, turn: Option<u64>, gate: G) -> Result<String, AllocError>
    requires { IsReadScript (script_view script) }
{
    let setting = Setting::of(alloc, &script)?;
    let gate = Arc::new(alloc, gate)?;
    let report = report_of(rt, alloc, script, 0, &gate)?;
    commands_of(alloc, &setting, &report, turn)
}
