//! A supervisor's own calls: what it takes in and what it refuses, with the numbers that are due, that what is refused
//! changes nothing, what its log tells, and what it plans where nothing is taken in.
use crate::script::BATCHES;
use rb_base::{OpenGate, Window};
use rb_core::Core;
use rb_core_model::{CoreError, Entry, Event};
use rb_plan_client::Draft;
use rb_script_read::read_script;
use rb_script_types::{Goal, Observation, Refusal, Script, Settlement, Turn};
use rb_super::Supervisor;
use rb_super_turn::Crew;
use std::alloc::{AllocError, Global};
use std::process::Abort;
use std::test::Fail;
use std::thread::Threads;

/// Two turns of which much is refused: in the first one headers (of an unknown set, too; with too few votes, too; with a
/// vote that doesn't verify; at another time, and out of the order of times, too; out of that order alone), and what is seen
/// of a packet early or twice; in the second one the window and a settlement.
const EVENTS: &str = "version = 1
chain = [{ id = 'a' }, { id = 'b' }]
[[client]]
id = 'c0'
host = 'b'
of = 'a'
period_ns = 1000000000000
drift_ns = 10000000000
fee = [100, 1, 1]
gas = [100, 1, 1]
limits = [100000, 100, 0]
[[client]]
id = 'c1'
host = 'a'
of = 'b'
period_ns = 1000000000000
drift_ns = 10000000000
fee = [100, 1, 1]
gas = [100, 1, 1]
limits = [100000, 100, 0]
[[path]]
id = 'p0'
source = 'a'
dest = 'b'
order = 'unordered'
forward = 'c0'
back = 'c1'
gas = [5, 5, 5]
[[path]]
id = 'p1'
source = 'b'
dest = 'a'
order = 'unordered'
forward = 'c1'
back = 'c0'
gas = [5, 5, 5]
[[turn]]
from = '1970-01-01T00:03:20Z'
until = '1970-01-01T00:03:20Z'
event = [
  { kind = 'set', chain = 'a', name = 'A', validators = [
    ['a1a1a1a1a1a1a1a1a1a1a1a1a1a1a1a1a1a1a1a1a1a1a1a1a1a1a1a1a1a1a1a1', 10],
    ['a2a2a2a2a2a2a2a2a2a2a2a2a2a2a2a2a2a2a2a2a2a2a2a2a2a2a2a2a2a2a2a2', 10],
  ] },
  { kind = 'header', chain = 'a', height = 5, time = '1970-01-01T00:00:50Z', set = 'A', next = 'A', votes = 'CC' },
  { kind = 'header', chain = 'a', height = 8, time = '1970-01-01T00:01:20Z', set = 'A', next = 'A', votes = 'CC' },
  { kind = 'header', chain = 'a', height = 5, time = '1970-01-01T00:01:30Z', set = 'cccccccccccccccccccccccccccccccccccccccccccccccccccccccccccccccc', next = 'A', votes = 'B' },
  { kind = 'header', chain = 'a', height = 5, time = '1970-01-01T00:01:30Z', set = 'A', next = 'A', votes = 'B' },
  { kind = 'header', chain = 'a', height = 5, time = '1970-01-01T00:01:30Z', set = 'A', next = 'A', votes = 'CB' },
  { kind = 'header', chain = 'a', height = 5, time = '1970-01-01T00:01:30Z', set = 'A', next = 'A', votes = 'CC' },
  { kind = 'header', chain = 'a', height = 6, time = '1970-01-01T00:01:30Z', set = 'A', next = 'A', votes = 'CC' },
  { kind = 'received', path = 'p0', seq = 1, height = 6 },
  { kind = 'sent', path = 'p0', seq = 1, height = 5 },
  { kind = 'sent', path = 'p0', seq = 1, height = 5 },
  { kind = 'ack', path = 'p0', seq = 1, height = 6 },
  { kind = 'received', path = 'p0', seq = 1, height = 6 },
  { kind = 'received', path = 'p0', seq = 1, height = 6 },
  { kind = 'ack', path = 'p0', seq = 1, height = 6 },
  { kind = 'cleared', path = 'p0', seq = 1 },
  { kind = 'cleared', path = 'p0', seq = 1 },
  { kind = 'closed', path = 'p0' },
  { kind = 'closed', path = 'p0' },
]
[[turn]]
from = '1970-01-01T00:03:19Z'
until = '1970-01-01T00:03:30Z'
settle = [{ client = 'c0', batch = 1, done = 1 }]
";

/// The lines of its report that tell of refusals.
const REFUSED: &str = "turn 1
refused event 3 401 UnknownSet
refused event 4 402 WrongVerdictCount
refused event 5 403 BadVote
refused event 6 404 Conflict
refused event 7 405 TimeOrder
refused event 8 805 OutOfOrder
refused event 10 804 Repeat
refused event 11 805 OutOfOrder
refused event 13 804 Repeat
refused event 16 804 Repeat
refused event 18 804 Repeat
turn 2
refused window 806 WindowBack
refused settle 0 805 OutOfOrder
";

/// What its log tells then.
const LOG: &str = "window, set, header, header, sent, received, ack, cleared, closed, ";

/// What an entry of a log tells of.
fn word(entry: &Entry) -> &'static str {
    match entry {
        Entry::Window(_) => "window, ",
        Entry::HostWindow(_) => "host window, ",
        Entry::Asked(_) => "asked, ",
        Entry::Observed(Observation::SetSeen { .. }) => "set, ",
        Entry::Observed(Observation::HeaderSeen { .. }) => "header, ",
        Entry::Observed(Observation::StoredSeen { .. }) => "stored, ",
        Entry::Observed(Observation::Sent { .. }) => "sent, ",
        Entry::Observed(Observation::Received { .. }) => "received, ",
        Entry::Observed(Observation::AckWritten { .. }) => "ack, ",
        Entry::Observed(Observation::Cleared { .. }) => "cleared, ",
        Entry::Observed(Observation::Closed { .. }) => "closed, ",
        Entry::Scan { .. } => "scan, ",
        Entry::Plan { .. } => "plan, ",
        Entry::Settled(_) => "settled, ",
    }
}

/// What the log of a core tells of.
fn log_of(alloc: Global, core: &Core) -> Result<String, Fail> {
    let mut words = String::new(alloc);
    for entry in core.log() {
        words.push_str(word(entry.entry()))?;
    }
    Ok(words)
}

/// The line of what is refused.
fn refused_line(
    alloc: Global,
    what: &str,
    number: usize,
    refusal: Refusal,
) -> Result<String, AllocError> {
    if what == "window" {
        format!(in alloc; "refused window {refusal}\n")
    } else {
        format!(in alloc; "refused {what} {number} {refusal}\n")
    }
}

/// How many events a core has taken in, headers the first client's chain has, and packets the first path.
type Shown = (usize, usize, usize);

fn shown(core: &Core) -> Shown {
    let headers = match core.client_view(0) {
        Ok(job) => job.view().book().headers().len(),
        Err(_) => 0,
    };
    let packets = match core.path_view(0) {
        Ok(view) => view.packets().len(),
        Err(_) => 0,
    };
    (core.front(), headers, packets)
}

/// A supervisor, and the refusals so far.
#[derive(Drop)]
struct Run {
    alloc: Global,
    supervisor: Supervisor,
    refused: String,
}

impl Run {
    fn tell(&mut self, line: &str) -> Result<(), Fail> {
        self.refused.push_str(line)?;
        Ok(())
    }

    /// What was taken in is one event more.
    fn check_taken(&self, rt: &impl Abort, what: &str, before: Shown) {
        let front = before.0.saturating_add(1);
        assert!(rt; shown(self.supervisor.core()).0 == front, "{what}");
    }

    /// What was refused has changed nothing, and is told.
    fn note_refused(
        &mut self,
        rt: &impl Abort,
        (what, number): (&str, usize),
        before: Shown,
        refusal: Refusal,
    ) -> Result<(), Fail> {
        assert!(rt; shown(self.supervisor.core()) == before, "{what}");
        let line = refused_line(self.alloc, what, number, refusal)?;
        self.tell(line.as_str())
    }

    /// Takes an event in. Where it is refused nothing has changed, and that is told.
    fn enter(
        &mut self,
        rt: &impl Abort,
        what: &str,
        number: usize,
        event: Event,
    ) -> Result<(), Fail> {
        let before = shown(self.supervisor.core());
        match self.supervisor.take_in(event) {
            Ok(_) => {
                self.check_taken(rt, what, before);
                Ok(())
            }
            Err(CoreError::Refused(refusal)) => {
                self.note_refused(rt, (what, number), before, refusal)
            }
            Err(CoreError::NoMemory) => Err(Fail::from("no memory")),
        }
    }

    fn enter_events(&mut self, rt: &impl Abort, events: Vec<Observation>) -> Result<(), Fail> {
        let mut number: usize = 0;
        for event in events {
            self.enter(rt, "event", number, Event::Observed(event))?;
            number = number.saturating_add(1);
        }
        Ok(())
    }

    fn enter_settlements(
        &mut self,
        rt: &impl Abort,
        settlements: Vec<Settlement>,
    ) -> Result<(), Fail> {
        let mut number: usize = 0;
        for settlement in settlements {
            self.enter(rt, "settle", number, Event::Settled(settlement))?;
            number = number.saturating_add(1);
        }
        Ok(())
    }

    fn enter_turn(&mut self, rt: &impl Abort, turn: Turn) -> Result<(), Fail> {
        let Turn {
            window,
            events,
            settlements,
            ..
        } = turn;
        self.enter(rt, "window", 0, Event::Window(window))?;
        self.enter_events(rt, events)?;
        self.enter_settlements(rt, settlements)
    }

    fn tell_number(&mut self, number: usize) -> Result<(), Fail> {
        let line = format!(in self.alloc; "turn {number}\n")?;
        self.tell(line.as_str())
    }

    fn enter_turns(&mut self, rt: &impl Abort, turns: Vec<Turn>) -> Result<(), Fail> {
        let mut number: usize = 0;
        for turn in turns {
            number = number.saturating_add(1);
            self.tell_number(number)?;
            self.enter_turn(rt, turn)?;
        }
        Ok(())
    }

    /// What was refused, and what its log tells then.
    fn end(self) -> Result<(String, String), Fail> {
        let Run {
            alloc,
            supervisor,
            refused,
        } = self;
        let log = log_of(alloc, &supervisor.stop())?;
        Ok((refused, log))
    }
}

fn check_turns(rt: &impl Abort, run: Run, turns: Vec<Turn>) -> Result<(), Fail> {
    let mut run = run;
    run.enter_turns(rt, turns)?;
    let (refused, log) = run.end()?;
    assert!(rt;
        refused.as_str() == REFUSED && log.as_str() == LOG,
        "{log} {refused}"
    );
    Ok(())
}

#[test]
fn supervisor_refuses_in_order(rt: HostRuntime) -> Result<(), Fail> {
    let alloc = rt.alloc();
    let Script { config, turns } = read_script(alloc, EVENTS.as_bytes())?;
    let run = Run {
        alloc,
        supervisor: Supervisor::new(alloc, config)?,
        refused: String::new(alloc),
    };
    check_turns(&rt, run, turns)
}

/// What is planned for the clients in a turn of this window that tells of nothing.
fn drafts_in<R: Threads + Sync>(
    rt: &R,
    alloc: Global,
    supervisor: Supervisor,
    window: Window,
) -> Result<Vec<Draft>, Fail> {
    let core = supervisor.core();
    let config = core.config();
    if core.front() > 1_000 || config.paths.len() > 256 || config.clients.len() > 256 {
        return Err(Fail::from("too much"));
    }
    let turn = Turn {
        window,
        windows: Vec::new(alloc),
        goals: Vec::new(alloc),
        events: Vec::new(alloc),
        settlements: Vec::new(alloc),
        taken: false,
    };
    let crew = Crew::new(rt, 0, &OpenGate);
    Ok(supervisor.drafts(&crew, turn)?)
}

/// A client, the height that it is to be brought to at least, and how many updates and messages are planned.
fn told(draft: &Draft) -> Option<(usize, u64, usize, usize)> {
    let planned = draft.answer()?;
    let plan = planned.plan()?;
    match planned.goal() {
        Goal::AtLeast(height) => Some((
            draft.job().client(),
            height.get(),
            plan.updates().len(),
            plan.messages().len(),
        )),
        Goal::Exactly(_) => None,
    }
}

/// Takes in what has to be accepted.
fn accept(supervisor: &mut Supervisor, event: Event) -> Result<(), Fail> {
    match supervisor.take_in(event) {
        Ok(_) => Ok(()),
        Err(CoreError::Refused(_)) => Err(Fail::from("refused")),
        Err(CoreError::NoMemory) => Err(Fail::from("no memory")),
    }
}

fn accept_all(
    supervisor: &mut Supervisor,
    window: Window,
    events: Vec<Observation>,
) -> Result<(), Fail> {
    accept(supervisor, Event::Window(window))?;
    for event in events {
        accept(supervisor, Event::Observed(event))?;
    }
    Ok(())
}

/// The window and the observations of the first turn.
fn first_of(turns: Vec<Turn>) -> Option<(Window, Vec<Observation>)> {
    let mut turns = turns;
    turns.truncate(1);
    let Turn { window, events, .. } = turns.pop()?;
    Some((window, events))
}

/// A supervisor that has taken in the window and the observations of a script's first turn, with that window.
fn after_first_turn(alloc: Global, text: &str) -> Result<(Supervisor, Window), Fail> {
    let Script { config, turns } = read_script(alloc, text.as_bytes())?;
    let mut supervisor = Supervisor::new(alloc, config)?;
    let (window, events) = first_of(turns).ok_or("turn")?;
    accept_all(&mut supervisor, window, events)?;
    Ok((supervisor, window))
}

fn told_at(drafts: &[Draft], place: usize) -> Option<(usize, u64, usize, usize)> {
    told(drafts.get(place)?)
}

/// There are two plans, each of an update and a message.
fn check_drafts(rt: &impl Abort, drafts: &[Draft]) {
    assert!(rt; told_at(drafts, 0) == Some((0, 5, 1, 1)), "first");
    assert!(rt; told_at(drafts, 1) == Some((1, 6, 1, 1)), "second");
    assert!(rt; drafts.len() == 2, "third");
}

/// The first turn's plans, by one turn that tells of nothing after all was taken in that the first turn tells of.
#[test]
fn drafts_are_the_plans(rt: HostRuntime) -> Result<(), Fail> {
    let alloc = rt.alloc();
    let (supervisor, window) = after_first_turn(alloc, BATCHES)?;
    let drafts = drafts_in(&rt, alloc, supervisor, window)?;
    check_drafts(&rt, drafts.as_slice());
    Ok(())
}
