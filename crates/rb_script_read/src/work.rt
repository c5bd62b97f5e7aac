//! How much the turns of a script ask for.
ghost use Rattle.std.specs.Prelude.{◌≡◌, ◌+◌, ◌*◌, codes, get_or, min, set, IfOk};
ghost use Rattle.rb_script_types.specs.Script.{script_view};
ghost use Rattle.rb_script_toml.specs.Faults.{Gives, IsFault};
ghost use Rattle.rb_script_toml.specs.KeyPaths.{element};
ghost use Rattle.rb_script_types.specs.Config.{config_view};
ghost use Rattle.rb_script_read.specs.Events.{tracked_by};
ghost use Rattle.rb_script_read.specs.Work.{after_client, after_clients, after_event, after_events, after_packets, after_path, after_paths, after_tables, after_turn, carried, counted, is_little, larger_by_record, larger_by_set, little, moved_for, no_store, no_work, numbers_after, plan_work, stores_of, sums_after, walked, with_record, with_set, work_view};

use rb_base::{CarriedVotes, Height};
use rb_script_toml::{FaultName, RunError, element_path, fault_at};
use rb_script_types::{ClientConfig, Config, Observation, PathConfig, Script};
use std::alloc::{AllocError, Global};

/// So many units of work, each of some ten nanoseconds, all turns may ask for.
const MOST_WORK: u64 = 1 << 30;

/// So many units of space, each of 16 bytes, all turns may ask for.
const MOST_SPACE: u64 = 3 << 24;

/// A count goes no further than this.
const MOST_COUNTED: u64 = 1 << 32;

/// A light store takes so many validator sets.
const MAX_SETS: u64 = 1024;

/// How large the light store of a chain can be: its consensus states, its validator sets, the work of a sum
/// over each of these, the highest height of a consensus state, and the votes of its headers.
#[derive(Clone, Copy)]
pub struct StoreSize {
    records: u64,
    sets: u64,
    sums: u64,
    top: u64,
    votes: u64,
}

/// How large the light store of each chain can be, how many packets were sent, and what the turns so far
/// ask for.
#[derive(Drop)]
struct Work {
    stores: Vec<StoreSize>,
    sent: u64,
    work: u64,
    space: u64,
}

fn counted(count: u64, more: u64) -> u64
    ensures { result ≡ counted count more }
{
    count.saturating_add(more).min(MOST_COUNTED)
}

fn times(count: u64, more: u64) -> u64
    ensures { min result 4294967296 ≡ min (count * more) 4294967296 }
{
    count.saturating_mul(more)
}

/// One more, of so many at most.
fn one_more(count: u64, limit: u64) -> u64
    ensures { result ≡ min (count + 1) limit }
{
    count.saturating_add(1).min(limit)
}

impl StoreSize {
    fn new() -> StoreSize
        ensures { result ≡ no_store }
    {
        StoreSize {
            records: 0,
            sets: 0,
            sums: 0,
            top: 0,
            votes: 0,
        }
    }

    /// Larger by a set of so many members: a sum over them is a unit of work for each 32.
    fn larger_by_set(self, members: usize) -> StoreSize
        ensures { result ≡ larger_by_set members self }
    {
        StoreSize {
            sets: one_more(self.sets, MAX_SETS),
            sums: counted(self.sums, members as u64 / 32),
            ..self
        }
    }

    fn larger_by_record(self, limit: usize, height: u64, votes: usize) -> StoreSize
        ensures { result ≡ larger_by_record limit height votes self }
    {
        StoreSize {
            records: one_more(self.records, limit as u64),
            top: self.top.max(height),
            votes: counted(self.votes, votes as u64),
            ..self
        }
    }

    /// The consensus states that can have to make room for one at a height, four units of work each.
    fn moved_for(self, height: u64) -> u64
        ensures { min result 4294967296 ≡ min (moved_for height self) 4294967296 }
    {
        if height < self.top {
            self.records.saturating_mul(4)
        } else {
            0
        }
    }

    /// The work of a labelling: a label of each consensus state, and a step to it from one for each set.
    fn planned(self) -> u64
        ensures { min result 4294967296 ≡ min (self.records * (self.sets * 2 + 51)) 4294967296 }
    {
        let steps = self.sets.saturating_mul(2).saturating_add(51);
        self.records.saturating_mul(steps)
    }

    /// The work of a plan for a client whose updates carry these votes, in units of some ten nanoseconds: at most 2^32,
    /// which stands for more, too.
    pub fn plan_work(self, votes: CarriedVotes) -> u64
        ensures { result ≡ plan_work votes self }
    {
        counted(counted(0, self.planned()), self.walked(votes))
    }

    /// The work of the votes where updates carry those that they need: 60 for each vote and 50 for each
    /// consensus state, for each set, and ten times for the updates.
    fn walked(self, votes: CarriedVotes) -> u64
        ensures { min result 4294967296 ≡ min (walked votes self) 4294967296 }
    {
        match votes {
            CarriedVotes::Needed => {
                let votes = self.votes.saturating_mul(60);
                let headers = votes.saturating_add(self.records.saturating_mul(50));
                headers.saturating_mul(self.sets.saturating_add(10))
            }
            CarriedVotes::Commit | CarriedVotes::Cast => 0,
        }
    }

    /// The space of the votes that updates carry, where these carry those that they need.
    fn carried(self, votes: CarriedVotes) -> u64
        ensures { min result 4294967296 ≡ min (carried votes self) 4294967296 }
    {
        match votes {
            CarriedVotes::Needed => self.votes.saturating_mul(2),
            CarriedVotes::Commit | CarriedVotes::Cast => 0,
        }
    }

    /// Three for each consensus state: the space of its label, and the work of a scan that goes over it.
    fn thrice(self) -> u64
        ensures { min result 4294967296 ≡ min (self.records * 3) 4294967296 }
    {
        self.records.saturating_mul(3)
    }

    /// The work of making the step table anew: sums over all sets for each consensus state.
    fn summed(self) -> u64
        ensures { min result 4294967296 ≡ min (self.records * self.sums) 4294967296 }
    {
        self.records.saturating_mul(self.sums)
    }

    /// The space of the step table: two for each consensus state and set.
    fn numbers(self) -> u64
        ensures { min result 4294967296 ≡ min (self.records * self.sets * 2) 4294967296 }
    {
        self.records.saturating_mul(self.sets).saturating_mul(2)
    }
}

fn store_of(stores: &[StoreSize], chain: usize) -> StoreSize
    ensures { result ≡ get_or stores.now chain no_store }
{
    match stores.get(chain) {
        Some(store) => *store,
        None => StoreSize::new(),
    }
}

fn put_store(stores: &mut [StoreSize], chain: usize, store: StoreSize)
    ensures { stores.new ≡ set stores.old chain store }
{
    if chain < stores.len() {
        stores[chain] = store;
    }
}

/// The space with that of the step tables of all chains.
fn numbers_after(space: u64, stores: &[StoreSize]) -> u64
    ensures { result ≡ numbers_after space stores.now }
{
    let mut numbers = space;
    for store in stores {
        numbers = counted(numbers, store.numbers());
    }
    numbers
}

/// The work with that of making the step tables of all chains.
fn sums_after(work: u64, stores: &[StoreSize]) -> u64
    ensures { result ≡ sums_after work stores.now }
{
    let mut sums = work;
    for store in stores {
        sums = counted(sums, store.summed());
    }
    sums
}

/// The chain that a client follows.
fn tracked_by(clients: &[ClientConfig], client: usize) -> usize
    ensures { result ≡ tracked_by clients.now client }
{
    match clients.get(client) {
        Some(client) => client.tracks,
        None => 0,
    }
}

impl Work {
    /// Nothing, of so many chains.
    fn new(alloc: Global, chains: usize) -> Result<Work, AllocError>
        ensures { IfOk result (λ w. work_view w ≡ no_work chains) }
    {
        Ok(Work {
            stores: vec![in alloc; StoreSize::new(); chains]?,
            sent: 0,
            work: 0,
            space: 0,
        })
    }

    /// Whether the turns so far ask for no more than they may.
    fn is_little(&self) -> bool
        ensures { result ≡ is_little (work_view self.now) }
    {
        self.work <= MOST_WORK && numbers_after(self.space, self.stores.as_slice()) <= MOST_SPACE
    }

    /// Counts a set of a chain, of so many members.
    fn count_set(&mut self, chain: usize, members: usize)
        ensures { work_view self.new ≡ with_set chain members (work_view self.old) }
    {
        let store = store_of(self.stores.as_slice(), chain);
        put_store(
            self.stores.as_mut_slice(),
            chain,
            store.larger_by_set(members),
        );
    }

    /// Counts a consensus state of a chain, whose light store has so many at most, and the votes of its header.
    fn count_record(&mut self, limit: usize, chain: usize, height: Height, votes: usize)
        ensures { work_view self.new ≡ with_record limit chain height votes (work_view self.old) }
    {
        let height = height.get();
        let store = store_of(self.stores.as_slice(), chain);
        self.work = counted(self.work, store.moved_for(height));
        put_store(
            self.stores.as_mut_slice(),
            chain,
            store.larger_by_record(limit, height, votes),
        );
    }

    fn count_event(&mut self, limit: usize, clients: &[ClientConfig], event: &Observation)
        ensures { work_view self.new ≡ after_event limit clients.now (work_view self.old) event.now }
    {
        match event {
            Observation::SetSeen { chain, set } => self.count_set(*chain, set.size()),
            Observation::HeaderSeen { chain, header } => {
                self.count_record(limit, *chain, header.height(), header.votes().len());
            }
            Observation::StoredSeen { client, height, .. } => {
                let chain = tracked_by(clients, *client);
                self.count_record(limit, chain, *height, 0);
            }
            Observation::Sent { .. } => self.sent = counted(self.sent, 1),
            Observation::Received { .. }
            | Observation::AckWritten { .. }
            | Observation::Cleared { .. }
            | Observation::Closed { .. } => {}
        }
    }

    fn count_events(&mut self, limit: usize, clients: &[ClientConfig], events: &[Observation])
        ensures { work_view self.new ≡ after_events limit clients.now (work_view self.old) events.now }
    {
        for event in events {
            self.count_event(limit, clients, event);
        }
    }

    fn count_client(&mut self, client: &ClientConfig)
        ensures { work_view self.new ≡ after_client (work_view self.old) client.now }
    {
        let store = store_of(self.stores.as_slice(), client.tracks);
        let votes = client.options.votes();
        self.work = counted(counted(self.work, store.planned()), store.walked(votes));
        self.space = counted(counted(self.space, store.thrice()), store.carried(votes));
    }

    fn count_clients(&mut self, clients: &[ClientConfig])
        ensures { work_view self.new ≡ after_clients (work_view self.old) clients.now }
    {
        for client in clients {
            self.count_client(client);
        }
    }

    fn count_path(&mut self, path: &PathConfig)
        ensures { work_view self.new ≡ after_path (work_view self.old) path.now }
    {
        let store = store_of(self.stores.as_slice(), path.destination);
        self.work = counted(self.work, store.thrice());
    }

    fn count_paths(&mut self, paths: &[PathConfig])
        ensures { work_view self.new ≡ after_paths (work_view self.old) paths.now }
    {
        for path in paths {
            self.count_path(path);
        }
    }

    fn count_packets(&mut self)
        ensures { work_view self.new ≡ after_packets (work_view self.old) }
    {
        self.work = counted(self.work, times(self.sent, 36));
        self.space = counted(self.space, times(self.sent, 13));
    }

    fn count_tables(&mut self)
        ensures { work_view self.new ≡ after_tables (work_view self.old) }
    {
        self.work = sums_after(self.work, self.stores.as_slice());
    }

    /// Counts a turn with these events.
    fn count_turn(&mut self, config: &Config, events: &[Observation])
        ensures { work_view self.new ≡ after_turn (config_view config.now) (work_view self.old) events.now }
    {
        self.count_events(config.limit, config.clients.as_slice(), events);
        self.count_tables();
        self.count_clients(config.clients.as_slice());
        self.count_paths(config.paths.as_slice());
        self.count_packets();
    }
}

/// How large the light store of each chain of a script can be after all turns. `AllocError` where a growth is refused.
pub fn stores_of(alloc: Global, script: &Script) -> Result<Vec<StoreSize>, AllocError>
    ensures { IfOk result (λ stores. stores.items ≡ stores_of (script_view script.now)) }
{
    let config = &script.config;
    let mut work = Work::new(alloc, config.chains.len())?;
    for turn in script.turns.as_slice() {
        work.count_events(
            config.limit,
            config.clients.as_slice(),
            turn.events.as_slice(),
        );
    }
    Ok(work.stores)
}

fn too_much_at(alloc: Global, index: usize) -> RunError
    ensures { IsFault result FaultName.TooMuchToPlan (element (codes "turn") index) }
{
    match element_path(alloc, "turn", index) {
        Ok(path) => fault_at(alloc, path.as_str(), FaultName::TooMuchToPlan),
        Err(_) => RunError::NoMemory,
    }
}

/// Refuses the first turn of a script up to which the turns ask for more than they may: `Fault` is `TooMuchToPlan` at it.
/// `NoMemory` comes where a growth is refused.
#[tactic(auto, using(rb_script_toml::proofs::Steps::steps))]
pub fn check_work(alloc: Global, script: &Script) -> Result<(), RunError>
    ensures { Gives (λ u. u) result (little (script_view script.now).config (script_view script.now).turns) }
{
    let config = &script.config;
    let mut work = Work::new(alloc, config.chains.len())?;
    for (index, turn) in script.turns.iter().enumerate() {
        work.count_turn(config, turn.events.as_slice());
        if !work.is_little() {
            return Err(too_much_at(alloc, index));
        }
    }
    Ok(())
}
