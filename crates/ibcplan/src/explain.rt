//! Why the plans of a script are as they are, as text, as JSON and as a picture.
ghost use Rattle.rb_script_types.specs.Script.{script_view, IsReadScript};

use crate::forms::{no_such_turn, number_of};
use crate::searching::can_search;
use ibcplan_cli::{ProgramError, ShownName, WantedTurns};
use rb_base::{Gate, Sink};
use rb_explain::{Detail, Listener, TurnExplanation, Wanted, explain_script};
use rb_explain_text::{picture_of, put, put_json, put_json_beginning, put_json_end, put_text};
use rb_script_types::{Config, Script};
use std::alloc::{AllocError, Global};
use std::thread::Threads;

/// So many lines of steps are told of a client, unless all are.
const MOST_LINES: usize = 20;

/// As what an explanation is written.
#[derive(Clone, Copy, PartialEq, Eq)]
pub enum ExplanationForm {
    /// As text; all steps, or the first ones.
    Text { is_whole: bool },
    /// As JSON; all steps to a height that can't be reached, or the first ones.
    Json { is_whole: bool },
    /// As a picture of a turn.
    Picture,
}

impl ExplanationForm {
    /// How many lines of steps are told of a client.
    fn most(self) -> usize {
        match self {
            ExplanationForm::Text { is_whole: true } | ExplanationForm::Json { is_whole: true } =>
                usize::MAX,
            _ => MOST_LINES,
        }
    }
}

/// What is asked for: turns, a client by its identifier, and in which form.
#[derive(Clone, Copy)]
pub struct AskedExplanation<'a> {
    pub turns: WantedTurns,
    pub client: Option<&'a str>,
    pub form: ExplanationForm,
}

/// The place of a client by its identifier.
fn place_of(config: &Config, id: &str) -> Option<usize> {
    config
        .clients
        .iter()
        .position(|client| client.id.as_str() == id)
}

/// The place of the client that is asked for, which has to be there; none where all are.
fn client_of<'a>(
    asked: AskedExplanation<'a>,
    config: &Config,
    file: ShownName<'a>,
) -> Result<Option<usize>, ProgramError<'a>> {
    let Some(id) = asked.client else {
        return Ok(None);
    };
    match place_of(config, id) {
        Some(client) => Ok(Some(client)),
        None => Err(ProgramError::NoSuchClient {
            client: ShownName { name: id },
            file,
        }),
    }
}

/// What is wanted of a script: a turn that is numbered, and a client that is named, have to be there. A picture is of one turn, the last
/// one where none is named.
fn wanted_of<'a>(
    alloc: Global,
    asked: AskedExplanation<'a>,
    script: &Script,
    file: ShownName<'a>,
) -> Result<Wanted, ProgramError<'a>> {
    let count = script.turns.len();
    let turns = match asked.turns {
        WantedTurns::Every if asked.form == ExplanationForm::Picture => WantedTurns::Last,
        turns => turns,
    };
    let turn = number_of(turns, count);
    match turn {
        Some(turn) if turn > count as u64 => return Err(no_such_turn(turn, file, count)),
        _ => {}
    }
    let client = client_of(asked, &script.config, file)?;
    let Ok(has_fewest) = can_search(alloc, script, turn.is_some(), client) else {
        return Err(ProgramError::NoMemory);
    };
    Ok(Wanted {
        turn: turn.map(|turn| turn as usize),
        client,
        detail: Detail {
            most: asked.form.most(),
            has_heights: asked.form == ExplanationForm::Picture,
            has_fewest,
        },
    })
}

/// Writes the explanation of the script of a file, each turn once it is explained; the plans are made through a gate. Nothing is
/// written where it hasn't what is asked for.
pub fn explain<'a, R: Threads + Sync, G: Gate + Sync + Drop, W: Sink>(
    rt: &R,
    alloc: Global,
    script: Script,
    file: ShownName<'a>,
    asked: AskedExplanation<'a>,
    gate: G,
    output: &mut W,
) -> Result<(), ProgramError<'a>>
    requires { IsReadScript (script_view script) }
{
    let wanted = wanted_of(alloc, asked, &script, file)?;
    match explain_by(rt, alloc, script, &wanted, asked.form, &gate, output) {
        Ok(true) => Ok(()),
        Ok(false) => Err(ProgramError::untaken()),
        Err(_) => Err(ProgramError::NoMemory),
    }
}

/// Writes the explanation of a script; answers whether all of it was taken.
fn explain_by<R: Threads + Sync, G: Gate + Sync, W: Sink>(
    rt: &R,
    alloc: Global,
    script: Script,
    wanted: &Wanted,
    form: ExplanationForm,
    gate: &G,
    output: &mut W,
) -> Result<bool, AllocError>
    requires { IsReadScript (script_view script) }
{
    let config = script.config.copy()?;
    if let ExplanationForm::Json { .. } = form {
        put_json_beginning(alloc, config.version, output)?;
    }
    let mut teller = Teller {
        alloc,
        config,
        form,
        count: 0,
        output,
    };
    explain_script(rt, alloc, script, wanted, gate, &mut teller)?;
    teller.end()
}

/// Writes each turn once it is explained.
#[derive(Drop)]
struct Teller<'a, W> {
    alloc: Global,
    config: Config,
    form: ExplanationForm,
    /// How many turns were explained.
    count: usize,
    output: &'a mut W,
}

impl<W: Sink> Teller<'_, W> {
    /// Writes what stands behind the last turn; answers whether all was taken.
    fn end(self) -> Result<bool, AllocError> {
        match self.form {
            ExplanationForm::Text { .. } => Ok(!self.output.failed()),
            ExplanationForm::Json { .. } => put_json_end(self.alloc, self.output),
            ExplanationForm::Picture if self.count == 0 => {
                let mut picture = picture_of(self.alloc, &self.config, None)?;
                Ok(put(&mut picture, self.output))
            }
            ExplanationForm::Picture => Ok(!self.output.failed()),
        }
    }
}

impl<W: Sink> Listener<Global> for Teller<'_, W> {
    ghost use Rattle.std.specs.Prelude.{None};

    ghost explanations = { λ _. None };

    fn explained(&mut self, turn: &TurnExplanation) -> Result<bool, AllocError> {
        let place = self.count;
        self.count = place.saturating_add(1);
        match self.form {
            ExplanationForm::Text { .. } => put_text(
                self.alloc,
                &self.config,
                turn,
                self.form.most(),
                self.output,
            ),
            ExplanationForm::Json { .. } => put_json(
                self.alloc,
                &self.config,
                turn,
                place,
                self.output,
            ),
            ExplanationForm::Picture => {
                let mut picture = picture_of(self.alloc, &self.config, Some(turn))?;
                Ok(put(&mut picture, self.output))
            }
        }
    }
}
