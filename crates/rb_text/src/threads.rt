//! Which threads are to do the work of a script.
ghost use Rattle.std.specs.Prelude.{◌≤◌};

use rb_script_types::{ClientConfig, Observation, Script, Turn};
use std::alloc::{AllocError, Global};

/// What it costs that a second copy of the relayer machine follows an event, in units of ten nanoseconds.
const EVENT: u64 = 100;

/// What a member of a validator set costs there, in the same units: its address is looked up and numbered.
const MEMBER: u64 = 10;

/// How many of a header's votes cost one unit: they are read when the header is judged, and again when a table's book is compared.
const VOTES: u64 = 2;

/// What it costs to hand a turn's jobs to workers, in the same units.
const TURN: u64 = 60_000;

/// What it costs that a worker plans one client of a turn: its job, what the job's answer is made of, and their places in the queues.
const CLIENT: u64 = 10_000;

/// What is spent without a thought, in the same units: a run that is over in a few milliseconds.
const LITTLE: u64 = 300_000;

/// How many powers are added to the sums of a step table's rows in one unit.
const POWERS: u64 = 5;

/// What it costs to start the threads that make one step table, and to end them, in the same units.
const STARTS: u64 = 15_000;

/// What threads are to do for a script.
#[derive(Clone, Copy)]
pub struct Shares {
    /// Whether workers are to make the plans.
    pub plans: bool,
    /// Whether several threads are to make the rows of step tables.
    pub tables: bool,
}

impl Shares {
    /// How many threads are to make the rows of a step table, where there may be so many.
    pub fn table_threads(self, threads: usize) -> usize
        ensures { result ≤ threads }
    {
        if self.tables { threads } else { 0 }
    }
}

/// How many headers and validator sets a chain has so far, and how many members its sets have together.
#[derive(Clone, Copy)]
struct StoreSize {
    headers: u64,
    sets: u64,
    members: u64,
}

impl StoreSize {
    /// What it costs to label the heights for a client, in the same units: each header can be reached from a record for each set.
    fn labelling(self) -> u64 {
        let steps = self.sets.saturating_mul(2).saturating_add(51);
        self.headers.saturating_mul(steps)
    }

    /// What it costs one thread to make the rows of the chain's step table, in the same units: each has a sum over each set.
    fn table(self) -> u64 {
        self.headers.saturating_mul(self.members) / POWERS
    }
}

/// Counts a header or a set to its chain.
fn count(stores: &mut [StoreSize], event: &Observation) {
    match event {
        Observation::SetSeen { chain, set } => {
            if let Some(store) = stores.get_mut(*chain) {
                store.sets = store.sets.saturating_add(1);
                store.members = store.members.saturating_add(set.size() as u64);
            }
        }
        Observation::HeaderSeen { chain, .. } => {
            if let Some(store) = stores.get_mut(*chain) {
                store.headers = store.headers.saturating_add(1);
            }
        }
        _ => {}
    }
}

/// What a turn saves where its clients are planned side by side: the plans of all but the dearest.
fn saved(stores: &[StoreSize], clients: &[ClientConfig]) -> u64 {
    let (mut all, mut dearest): (u64, u64) = (0, 0);
    for client in clients {
        if let Some(store) = stores.get(client.tracks) {
            let plan = store.labelling();
            all = all.saturating_add(plan);
            dearest = dearest.max(plan);
        }
    }
    all.saturating_sub(dearest)
}

/// What it costs that a second copy follows the event.
fn following(event: &Observation) -> u64 {
    let size = match event {
        Observation::SetSeen { set, .. } => (set.size() as u64).saturating_mul(MEMBER),
        Observation::HeaderSeen { header, .. } => header.votes().len() as u64 / VOTES,
        _ => 0,
    };
    size.saturating_add(EVENT)
}

/// What workers cost in a turn.
fn spent(turn: &Turn, clients: &[ClientConfig]) -> u64 {
    let mut events: u64 = 0;
    for event in turn.events.as_slice() {
        events = events.saturating_add(following(event));
    }
    let jobs = (clients.len() as u64).saturating_mul(CLIENT);
    events.saturating_add(jobs).saturating_add(TURN)
}

/// Whether threads save more in the rows of the chains' tables than it costs to start them for each: two halve the time, and more
/// save more.
fn are_tables_large(stores: &[StoreSize]) -> bool {
    let (mut rows, mut starts): (u64, u64) = (0, 0);
    for store in stores {
        rows = rows.saturating_add(store.table());
        starts = starts.saturating_add(STARTS);
    }
    starts < rows / 2
}

/// What threads are to do for a script. Workers make its plans where it has several clients, and what they save by planning these side
/// by side is more than they cost, or they cost little. Only time goes by the answer.
pub fn shares_of(alloc: Global, script: &Script) -> Result<Shares, AllocError> {
    let none = StoreSize {
        headers: 0,
        sets: 0,
        members: 0,
    };
    let mut stores = vec![in alloc; none; script.config.chains.len()]?;
    let (mut saving, mut spending): (u64, u64) = (0, 0);
    for turn in script.turns.as_slice() {
        for event in turn.events.as_slice() {
            count(stores.as_mut_slice(), event);
        }
        saving = saving.saturating_add(saved(stores.as_slice(), script.config.clients.as_slice()));
        spending = spending.saturating_add(spent(turn, script.config.clients.as_slice()));
    }
    Ok(Shares {
        plans: script.config.clients.len() > 1 && spending < saving.max(LITTLE),
        tables: are_tables_large(stores.as_slice()),
    })
}
