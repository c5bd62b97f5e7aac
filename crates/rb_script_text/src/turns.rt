//! The tables of turns.
use crate::events::push_events;
use crate::moment::clock_at;
use crate::names::{chain_name, client_name};
use rb_base::Window;
use rb_script_read::SetNames;
use rb_script_types::{Asked, Config, Goal, HostWindow, Script, Settlement, Turn};
use std::alloc::{AllocError, Global};

/// Adds the turns.
pub(crate) fn push_turns(
    alloc: Global,
    text: &mut String,
    script: &Script,
) -> Result<(), AllocError> {
    let mut names = SetNames::new(alloc);
    let turns = script.turns.as_slice();
    for (place, turn) in turns.iter().enumerate() {
        push_beginning(text, &script.config, turn)?;
        if place + 1 == turns.len() || !turn.events.is_empty() {
            push_events(
                text,
                &script.config,
                &mut names,
                place,
                turn.events.as_slice(),
            )?;
        }
        push_end(text, &script.config, turn)?;
    }
    Ok(())
}

/// Adds the windows and the goals of a turn.
fn push_beginning(text: &mut String, config: &Config, turn: &Turn) -> Result<(), AllocError> {
    text.push_str("\n[[turn]]\nfrom = \"")?;
    push_window(text, turn.window, "\"\nuntil = \"")?;
    text.push_str("\"\n")?;
    push_windows(text, config, turn.windows.as_slice())?;
    push_goals(text, config, turn.goals.as_slice())
}

/// Adds the moments of a window, with what stands between them.
fn push_window(text: &mut String, window: Window, between: &str) -> Result<(), AllocError> {
    let from = clock_at(window.from());
    let until = clock_at(window.until());
    write!(text, "{from}Z{between}{until}Z")
}

/// Adds the windows of hosts, where there are some.
fn push_windows(
    text: &mut String,
    config: &Config,
    windows: &[HostWindow],
) -> Result<(), AllocError> {
    if windows.is_empty() {
        return Ok(());
    }
    text.push_str("window = [\n")?;
    for window in windows {
        let host = chain_name(config, window.host);
        write!(text, "  {{ host = \"{host}\", from = \"")?;
        push_window(text, window.window, "\", until = \"")?;
        text.push_str("\" },\n")?;
    }
    text.push_str("]\n")
}

fn push_goals(text: &mut String, config: &Config, goals: &[Asked]) -> Result<(), AllocError> {
    text.push_str("goal = [\n")?;
    for asked in goals {
        let client = client_name(config, asked.client);
        let (key, height) = match asked.goal {
            Goal::Exactly(height) => ("exactly", height),
            Goal::AtLeast(height) => ("at_least", height),
        };
        writeln!(text, "  {{ client = \"{client}\", {key} = {height} }},")?;
    }
    text.push_str("]\n")
}

/// Adds which batches were taken.
fn push_end(text: &mut String, config: &Config, turn: &Turn) -> Result<(), AllocError> {
    push_settlements(text, config, turn.settlements.as_slice())?;
    if turn.taken {
        text.push_str("taken = true\n")
    } else {
        Ok(())
    }
}

/// Adds the settlements, where there are some.
fn push_settlements(
    text: &mut String,
    config: &Config,
    settlements: &[Settlement],
) -> Result<(), AllocError> {
    if settlements.is_empty() {
        return Ok(());
    }
    text.push_str("settle = [\n")?;
    for settlement in settlements {
        let client = client_name(config, settlement.client);
        let batch = settlement.batch;
        let done = settlement.done;
        writeln!(
            text,
            "  {{ client = \"{client}\", batch = {batch}, done = {done} }},"
        )?;
    }
    text.push_str("]\n")
}
