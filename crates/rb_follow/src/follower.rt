//! A follower of turns.
ghost use Rattle.std.specs.Prelude.{◌≡◌, ◌<◌, ◌≤◌, ◌+◌, Ok, IfOk, IfErr, IfSome, OnOk};
ghost use Rattle.rb_script_types.specs.Script.{turn_view};
ghost use Rattle.rb_core_model.specs.Config.{IsSetUp};
ghost use Rattle.rb_core_model.specs.Forgetting.{floors_of};
ghost use Rattle.rb_core_model.specs.Limits.{max_events};
ghost use Rattle.rb_script_toml.specs.Faults.{Gives, Fails};
ghost use Rattle.rb_script_read.specs.Turns.{reading_view};
ghost use Rattle.rb_script_read.specs.NextTurns.{next_turn_view, reading_after};
ghost use Rattle.rb_script_config.specs.Setups.{setup_view};
ghost use Rattle.rb_script_config.specs.Paths.{path_ids};
ghost use Rattle.rb_super_turn.specs.AsEvents.{IsTurnFor};
ghost use Rattle.rb_super_turn.specs.Phases.{standing_in};
ghost use Rattle.rb_follow.specs.Setups.{setup_of};
ghost use Rattle.rb_follow.specs.Followers.{beginning, turn_after, read_turn, next_turn, refusing, number_if, max_turns, most_events, IsAnswerFor, IsAnswer, IsRight, room_again, tidied};
ghost use Rattle.rb_core.specs.Core.{state_in};
ghost use Rattle.rb_follow.specs.Drivers.{core_of};
ghost use Rattle.rb_follow.specs.Answers.{answer_view};

use crate::answer::{Answer, TurnRefusal};
use crate::driver::Driver;
use crate::numbers::{number_text, numbered};
use crate::setup::{path_ids, read_setup_text};
use crate::tidying::{check_spoken, forgets, raise};
use crate::turns::read_turn_is_turn;
use rb_base::{ChainId, Gate, PathId};
use rb_core::MAX_EVENTS;
use rb_core_model::rules::fee_tables;
use rb_journal::{State, read_state, state_text};
use rb_script_config::Setup;
use rb_script_read::{NextTurn, Reading, ReadingChange, read_turn_document};
use rb_script_toml::{FaultName, RunError, fault_at};
use rb_script_types::{MAX_ENTRIES, MAX_TURNS, Turn, Version};
use rb_super_turn::Crew;
use std::alloc::{AllocError, Global};
use std::sync::{Arc, Wait};
use std::thread::Threads;

/// The most turns of a follower in version 3.
const MOST_TURNS: usize = 10_000;

/// More turns than any run has, for later versions.
const NO_END: usize = 9_223_372_036_854_775_807;

/// A relayer that is led through turns, each read from a document of its own. A contract sees what it is set
/// up with, the turns' number, what reading them left to the next, how many events its log can have, how
/// things stand, and up to which height of each chain was forgotten (`following` in specs/Views.antt). It
/// keeps the turns' names, books and step tables, and not the turns or their reports. It is not `Drop`, as
/// workers aren't: end it by `stop`.
pub struct TurnFollower<G: Gate> {
    pub alloc: Global,
    pub setup: Setup,
    pub paths: Vec<PathId>,
    pub reading: Reading,
    pub driver: Driver<G>,
    pub turns: usize,
    pub events: usize,
    pub forgotten: Vec<u64>,
    pub workers: usize,
    pub gate: Arc<G, Global>,
    pub ghost config: { (core_of driver).config ≡ setup_view setup },
    pub ghost ids: { paths.items ≡ path_ids (setup_view setup).paths },
    pub ghost few_turns: { turns ≤ max_turns setup.version },
    pub ghost front: { (state_in (core_of driver)).front ≤ events },
    pub ghost few_events: { events ≤ max_events },
    pub ghost few_workers: { workers ≤ 64 },
}

/// The most turns of this version.
fn max_turns(version: Version) -> usize
    ensures { result ≡ max_turns version }
{
    match version {
        Version::One | Version::Two => MAX_TURNS,
        Version::Three => MOST_TURNS,
        Version::Four => NO_END,
    }
}

/// Makes room for as many entries as at first, from version 4 on.
fn make_room(version: Version, reading: &mut Reading)
    ensures { reading_view reading.new ≡ room_again version (reading_view reading.old) }
{
    match version {
        Version::One | Version::Two | Version::Three => {}
        Version::Four => reading.room = MAX_ENTRIES,
    }
}

/// The most events that a turn gives: its window and those of hosts, its goals, events and settlements, the scans
/// of both parts of each path, and a plan for each client and the taking of its batch.
fn most_events(setup: &Setup, turn: &Turn) -> u128
    ensures most { result ≡ most_events (setup_view setup.now) (turn_view turn.now) }
    ensures fits { result ≤ 147573952589676412928 }
{
    let windows = turn.windows.len() as u128;
    let goals = turn.goals.len() as u128;
    let events = turn.events.len() as u128;
    let settlements = turn.settlements.len() as u128;
    let paths = setup.paths.as_slice().len() as u128;
    let clients = setup.clients.as_slice().len() as u128;
    1 + windows + goals + events + settlements + 2 * paths + 2 * clients
}

/// How many events can have been given after one more turn, if there is room for them.
fn events_after(setup: &Setup, events: usize, turn: &Turn) -> usize
    requires { events + most_events (setup_view setup.now) (turn_view turn.now) ≤ max_events }
    ensures { result ≡ events + most_events (setup_view setup.now) (turn_view turn.now) }
{
    events + most_events(setup, turn) as usize
}

/// Reads the turn that a document holds, after so many turns, where the log can have so many events, if there is
/// room for one more, and no event of it speaks of what was forgotten.
#[tactic(auto, using(rb_script_toml::proofs::Steps::steps), unfolding(crate::specs::Followers::turn_after))]
fn read_next(
    alloc: Global,
    setup: &Setup,
    reading: &Reading,
    turns: usize,
    events: usize,
    forgotten: &[u64],
    firsts: &[u64],
    document: &[u8],
) -> Result<NextTurn, RunError>
    requires { events ≤ max_events }
    ensures read { Gives (next_turn_view (reading_view reading.now)) result (turn_after (setup_view setup.now) turns events forgotten.now firsts.now (reading_view reading.now) document.now) }
    ensures form { IfOk result (λ n. IsTurnFor (setup_view setup.now) n.turn) }
    ensures turns { OnOk result (turns < max_turns setup.now.version) }
    ensures room { IfOk result (λ n. events + most_events (setup_view setup.now) (turn_view n.turn) ≤ max_events) }
{
    if turns >= max_turns(setup.version) {
        return Err(fault_at(alloc, "-", FaultName::TooManyObjects));
    }
    let next = read_turn_document(alloc, document, setup, reading)?;
    if events as u128 + most_events(setup, &next.turn) > MAX_EVENTS as u128 {
        return Err(fault_at(alloc, "-", FaultName::TooManyEvents));
    }
    check_spoken(alloc, setup, forgotten, firsts, &next.turn)?;
    Ok(next)
}

/// Goes on behind a turn that was read, or ends the workers.
fn read_on<R: Threads + Wait, G: Gate + Send + Sync + Drop + 'static>(
    rt: &R,
    driver: Driver<G>,
    reading: Reading,
    change: ReadingChange,
) -> Result<(Driver<G>, Reading), AllocError>
    ensures same { IfOk result (λ r. r.0 ≡ driver) }
    ensures reading { IfOk result (λ r. reading_view r.1 ≡ reading_after (reading_view reading) change) }
{
    let mut reading = reading;
    match reading.take(change) {
        Ok(()) => Ok((driver, reading)),
        Err(error) => {
            driver.stop(rt);
            Err(error)
        }
    }
}

/// The floors of all chains, or the workers are ended.
fn floors_of<R: Threads + Wait, G: Gate + Send + Sync + Drop + 'static>(
    rt: &R,
    driver: Driver<G>,
) -> Result<(Driver<G>, Vec<u64>), AllocError>
    ensures same { IfOk result (λ r. r.0 ≡ driver) }
    ensures floors { IfOk result (λ r. r.1.items ≡ floors_of (standing_in (core_of driver))) }
{
    match driver.floors() {
        Ok(floors) => Ok((driver, floors)),
        Err(error) => {
            driver.stop(rt);
            Err(error)
        }
    }
}

impl<G: Gate + Send + Sync + Drop + 'static> TurnFollower<G> {
    ghost use Rattle.rb_follow.specs.Views.{following};

    /// A follower that is set up with a script without turns, with so many workers in threads of their own, at
    /// most 64, or with none: the calling thread then does all. `Fault` is the first fault of the setup,
    /// `TooManyObjects` at `turn` where it has turns; `NoMemory` comes where a growth is refused.
    pub fn new<R: Threads + Wait + Copy + Send + Sync + 'static>(
        rt: &R,
        alloc: Global,
        setup: &[u8],
        workers: usize,
        gate: &Arc<G, Global>,
    ) -> Result<TurnFollower<G>, RunError>
        requires workers { workers ≤ 64 }
        ensures begun { Gives (λ f. following f) result (beginning setup.now) }
        ensures set_up { IfOk result (λ f. IsSetUp (following f).config) }
    {
        let (setup, config) = read_setup_text(alloc, setup)?;
        fee_tables(config.clients.as_slice());
        let paths = path_ids(alloc, config.paths.as_slice())?;
        let owner = Arc::try_clone(gate)?;
        let driver = Driver::new(rt, alloc, config, workers, gate)?;
        Ok(TurnFollower {
            alloc,
            setup,
            paths,
            reading: Reading::opening(alloc),
            driver,
            turns: 0,
            events: 0,
            forgotten: Vec::new(alloc),
            workers,
            gate: owner,
        })
    }

    /// A follower that goes on from a state, as `TurnFollower::new` else; None where the text tells none that a follower
    /// which is set up so can be in.
    pub fn restored<R: Threads + Wait + Copy + Send + Sync + 'static>(
        rt: &R,
        alloc: Global,
        setup: &[u8],
        state: &str,
        workers: usize,
        gate: &Arc<G, Global>,
    ) -> Result<Option<TurnFollower<G>>, RunError>
        requires workers { workers ≤ 64 }
        ensures set_up { IfOk result (λ found. IfSome found (λ f. setup_of setup.now ≡ Ok (following f).config)) }
        ensures refused { IfErr result (λ e. Fails e (setup_of setup.now)) }
    {
        let (setup, config) = read_setup_text(alloc, setup)?;
        let paths = path_ids(alloc, config.paths.as_slice())?;
        let Some(state) = read_state(alloc, config, state)? else {
            return Ok(None);
        };
        let State {
            core,
            reading,
            turns,
            forgotten,
        } = state;
        if turns > max_turns(setup.version) {
            return Ok(None);
        }
        let owner = Arc::try_clone(gate)?;
        let driver = Driver::over(rt, alloc, core, workers, gate)?;
        Ok(Some(TurnFollower {
            alloc,
            setup,
            paths,
            reading,
            driver,
            turns,
            events: 0,
            forgotten,
            workers,
            gate: owner,
        }))
    }

    /// Whether nothing was taken in since it was set up, restored, or forgot.
    pub(crate) fn is_tidy(&self) -> bool {
        self.events == 0
    }

    /// The state of a follower that is tidy, as a text that is read back as it is; None where it isn't.
    pub(crate) fn state(&self) -> Result<Option<String>, AllocError> {
        let snapshot = self.driver.snapshot()?;
        let forgotten = self.forgotten.as_slice();
        let text = state_text(self.alloc, &snapshot, &self.reading, self.turns, forgotten)?;
        let config = self.driver.config().copy()?;
        let found = read_state(self.alloc, config, text.as_str())?;
        Ok(found.map(|_state| text))
    }

    /// The numbers of the open batches, by client; 0 where none is open.
    pub(crate) fn open_batches(&self) -> Result<Vec<u64>, AllocError> {
        let mut batches = Vec::new(self.alloc);
        for client in 0..self.setup.clients.as_slice().len() {
            batches.push(self.driver.open_batch(client))?;
        }
        Ok(batches)
    }

    /// Whether one of these batches is still open.
    pub(crate) fn has_open(&self, batches: &[u64]) -> bool {
        for (client, batch) in batches.iter().enumerate() {
            if *batch != 0 && *batch == self.driver.open_batch(client) {
                return true;
            }
        }
        false
    }

    /// The version of the setup.
    pub fn version(&self) -> Version
        ensures { result ≡ (following self.now).config.version }
    {
        self.setup.version
    }

    /// The identifiers of the chains, by their places.
    pub fn chains(&self) -> &[ChainId]
        ensures { result.now ≡ (following self.now).config.chains }
    {
        self.setup.chains.as_slice()
    }

    /// The identifiers of the paths, by their places.
    pub fn paths(&self) -> &[PathId]
        ensures { result.now ≡ path_ids (following self.now).config.paths }
    {
        self.paths.as_slice()
    }

    /// Reads the turn that a document holds behind its number, if there is room for one more, and no event of it speaks of what was
    /// forgotten.
    fn read(&self, document: &[u8]) -> Result<NextTurn, RunError>
        ensures read { Gives (next_turn_view (reading_view self.now.reading)) result (read_turn (following self.now) document.now) }
        ensures form { IfOk result (λ n. IsTurnFor (setup_view self.now.setup) n.turn) }
        ensures turns { OnOk result (self.now.turns < max_turns self.now.setup.version) }
        ensures room { IfOk result (λ n. self.now.events + most_events (setup_view self.now.setup) (turn_view n.turn) ≤ max_events) }
    {
        let firsts = self.driver.firsts()?;
        read_next(
            self.alloc,
            &self.setup,
            &self.reading,
            self.turns,
            self.events,
            self.forgotten.as_slice(),
            firsts.as_slice(),
            document,
        )
    }

    /// This follower, where what lies below the floors is forgotten, if that is worth while. An error comes
    /// only where a growth is refused, or as for `Core::begin_anew`; all workers have then ended.
    fn tidied<R: Threads + Wait + Copy + Send + Sync + 'static>(
        self,
        rt: &R,
    ) -> Result<TurnFollower<G>, AllocError>
        ensures { IfOk result (λ f. following f ≡ tidied (following self)) }
    {
        if !forgets(self.setup.version, &self.driver) {
            return Ok(self);
        }
        let TurnFollower {
            alloc,
            setup,
            paths,
            mut reading,
            driver,
            turns,
            events: _,
            forgotten,
            workers,
            gate,
        } = self;
        let (driver, mut floors) = floors_of(rt, driver)?;
        raise(forgotten.as_slice(), &mut floors);
        let driver = driver.begin_anew(rt, alloc, workers, &gate)?;
        make_room(setup.version, &mut reading);
        Ok(TurnFollower {
            alloc,
            setup,
            paths,
            reading,
            driver,
            turns,
            events: 0,
            forgotten: floors,
            workers,
            gate,
        })
    }

    /// Leads the relayer through a turn that was read.
    fn take<R: Threads + Wait + Copy + Send + Sync + 'static>(
        self,
        crew: &Crew<R, G>,
        next: NextTurn,
    ) -> Result<(TurnFollower<G>, Answer), RunError>
        requires form { IsTurnFor (setup_view self.setup) next.turn }
        requires turns { self.turns < max_turns self.setup.version }
        requires room { self.events + most_events (setup_view self.setup) (turn_view next.turn) ≤ max_events }
        ensures answer { IfOk result (λ r. IsAnswerFor (following self) (Ok (next_turn_view (reading_view self.reading) next)) (answer_view r.1) (following r.0)) }
        ensures right { OnOk result (IsRight (following self) (Ok (next_turn_view (reading_view self.reading) next))) }
        ensures memory { IfErr result (λ e. e ≡ RunError.NoMemory) }
    {
        let TurnFollower {
            alloc,
            setup,
            paths,
            reading,
            driver,
            turns,
            events,
            forgotten,
            workers,
            gate,
        } = self;
        let NextTurn { turn, change } = next;
        let events = events_after(&setup, events, &turn);
        read_turn_is_turn(&setup, &turn);
        let (driver, reading) = read_on(crew.rt(), driver, reading, change)?;
        let (driver, report) = driver.turn(crew, turn)?;
        let turns = turns + 1;
        let follower = TurnFollower {
            alloc,
            setup,
            paths,
            reading,
            driver,
            turns,
            events,
            forgotten,
            workers,
            gate,
        };
        let follower = follower.tidied(crew.rt())?;
        let number = turns as u64;
        Ok((follower, Answer::Planned { number, report }))
    }

    /// Answers a document of which this stands behind its number, if it has one; it is that of the next turn.
    fn answer_body<R: Threads + Wait + Copy + Send + Sync + 'static>(
        self,
        crew: &Crew<R, G>,
        has_number: bool,
        body: &[u8],
    ) -> Result<(TurnFollower<G>, Answer), RunError>
        ensures answer { IfOk result (λ r. IsAnswerFor (following self) (refusing (number_if has_number (self.turns + 1)) (read_turn (following self) body.now)) (answer_view r.1) (following r.0)) }
        ensures right { OnOk result (IsRight (following self) (refusing (number_if has_number (self.turns + 1)) (read_turn (following self) body.now))) }
        ensures memory { IfErr result (λ e. e ≡ RunError.NoMemory) }
    {
        match self.read(body) {
            Ok(next) => self.take(crew, next),
            Err(RunError::Fault(fault)) => {
                let number = has_number.then_some(self.turns as u64 + 1);
                Ok((self, Answer::Refused(TurnRefusal::Fault { number, fault })))
            }
            Err(_) => {
                self.stop(crew.rt());
                Err(RunError::NoMemory)
            }
        }
    }

    /// Answers a document: by the report of the turn that it holds, or by why it holds none, and then all stays as it
    /// was. Its first line may be its number, as `turn = 17`: that of the next turn, else it is `OutOfOrder`. A fault
    /// is the first of: `TooManyObjects` at `-` where there are as many turns as
    /// are allowed, those of a turn's text (`rb_script_read::read_turn_document`), `TooManyEvents` at `-` where the
    /// log has no room for all that the turn may give, and `Forgotten` at the first event that speaks of what was
    /// forgotten. An error is `NoMemory`, where a growth is refused, also to a worker, or as for `Core::begin_anew`;
    /// all workers have then ended. It may wait for workers and for the gate; what is said holds if it returns.
    pub fn answer<R: Threads + Wait + Copy + Send + Sync + 'static>(
        self,
        crew: &Crew<R, G>,
        document: &[u8],
    ) -> Result<(TurnFollower<G>, Answer), RunError>
        ensures answer { IfOk result (λ r. IsAnswer (following self) document.now (answer_view r.1) (following r.0)) }
        ensures right { OnOk result (IsRight (following self) (next_turn (following self) document.now)) }
        ensures memory { IfErr result (λ e. e ≡ RunError.NoMemory) }
    {
        let due = self.turns as u64 + 1;
        match number_text(self.alloc, due) {
            Ok(text) => match numbered(text.as_str(), document) {
                Some((has_number, body)) => self.answer_body(crew, has_number, body),
                None => Ok((self, Answer::Refused(TurnRefusal::OutOfOrder { due }))),
            },
            Err(_) => {
                self.stop(crew.rt());
                Err(RunError::NoMemory)
            }
        }
    }

    /// Ends the workers.
    pub fn stop<R: Threads + Wait>(self, rt: &R) {
        let TurnFollower {
            alloc: _,
            setup: _setup,
            paths: _paths,
            reading: _reading,
            driver,
            turns: _,
            events: _,
            forgotten: _forgotten,
            workers: _,
            gate: _gate,
        } = self;
        driver.stop(rt);
    }
}
