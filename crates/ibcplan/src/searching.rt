//! What an explanation has the time to search beside the plans.
use rb_script_read::stores_of;
use rb_script_types::Script;
use std::alloc::{AllocError, Global};

/// So much work beside the plans, in the units of fault 1032 (docs/FORMATS.md), may be asked for: some seconds.
const MOST_WORK: u64 = 1 << 28;

/// Whether the fewest updates can be searched in some seconds: those of one client, by its place, or of each; in one turn or in each.
pub fn can_search(
    alloc: Global,
    script: &Script,
    is_one_turn: bool,
    wanted: Option<usize>,
) -> Result<bool, AllocError> {
    let stores = stores_of(alloc, script)?;
    let mut work: u64 = 0;
    for (place, client) in script.config.clients.iter().enumerate() {
        let is_wanted = match wanted {
            Some(wanted) => wanted == place,
            None => true,
        };
        if is_wanted {
            if let Some(store) = stores.get(client.tracks) {
                work = work.saturating_add(store.plan_work(client.options.votes()));
            }
        }
    }
    let turns = if is_one_turn {
        1
    } else {
        script.turns.len() as u64
    };
    Ok(work.saturating_mul(turns) <= MOST_WORK)
}
