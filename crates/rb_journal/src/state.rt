//! The state of a follower as a text, from which another one goes on.
ghost use Rattle.std.specs.Prelude.{◌≡◌, [], IfOk, IfSome, string_bytes};
ghost use Rattle.rb_script_types.specs.Config.{config_view, IsConfig};
ghost use Rattle.rb_journal.specs.Parts.{EndsLine};

use crate::words::{Unread, Words, Written, write_all};
use rb_core::{Core, Snapshot};
use rb_script_read::{Reading, SetNames};
use rb_script_types::Config;
use std::alloc::{AllocError, Global};
use std::collections::BTreeMap;

/// What a follower goes on from, beside its setup.
#[derive(Drop)]
pub struct State {
    pub core: Core,
    pub reading: Reading,
    pub turns: usize,
    pub forgotten: Vec<u64>,
}

/// A state as a text: its words are read back in the same order.
pub fn state_text(
    alloc: Global,
    snapshot: &Snapshot,
    reading: &Reading,
    turns: usize,
    forgotten: &[u64],
) -> Result<String, AllocError>
    ensures { IfOk result (λ text. EndsLine (string_bytes text)) }
{
    let mut text = String::new(alloc);
    turns.write(&mut text)?;
    reading.room.write(&mut text)?;
    write_all(&mut text, forgotten)?;
    write_all(&mut text, reading.names.chains.as_slice())?;
    snapshot.write(&mut text)?;
    text.push_str("\n")?;
    Ok(text)
}

/// The state that a text tells. None where it isn't the text of a state that a relayer which is configured so can be in.
pub fn read_state(alloc: Global, config: Config, text: &str) -> Result<Option<State>, AllocError>
    requires { IsConfig (config_view config) }
    ensures config { IfOk result (λ found. IfSome found (λ s. s.core.config ≡ config_view config)) }
    ensures log { IfOk result (λ found. IfSome found (λ s. s.core.log.events ≡ [])) }
{
    match read_words(alloc, config, text) {
        Ok(state) => Ok(Some(state)),
        Err(Unread::Wrong) => Ok(None),
        Err(Unread::NoMemory) => Err(AllocError),
    }
}

/// The same, or why there is none.
fn read_words(alloc: Global, config: Config, text: &str) -> Result<State, Unread>
    requires { IsConfig (config_view config) }
    ensures config { IfOk result (λ s. s.core.config ≡ config_view config) }
    ensures log { IfOk result (λ s. s.core.log.events ≡ []) }
{
    let mut words = Words::of(alloc, &config, text);
    let turns = words.read::<usize>()?;
    let room = words.read::<usize>()?;
    let forgotten = words.read::<Vec<u64>>()?;
    let chains = words.read::<Vec<BTreeMap<String, [u8; 32]>>>()?;
    let snapshot = words.read::<Snapshot>()?;
    let names = SetNames { alloc, chains };
    let reading = Reading { names, room };
    let again = state_text(alloc, &snapshot, &reading, turns, forgotten.as_slice())?;
    if again.as_str() != text {
        return Err(Unread::Wrong);
    }
    match Core::restored(alloc, config, &snapshot)? {
        Some(core) => Ok(State {
            core,
            reading,
            turns,
            forgotten,
        }),
        None => Err(Unread::Wrong),
    }
}
