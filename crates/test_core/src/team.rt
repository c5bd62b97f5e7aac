//! A team whose workers' ends of the lanes are the test's: what is found early, late, twice, of another view or of no job
//! leaves each job what was found of it first, in every order.
use crate::make::assert_same;
use crate::run::{Deed, draft_of, event_of, learn, offer, start, table_of};
use crate::tell::{answer_text, reply_text};
use crossbeam_utils::sync::{Parker, Unparker};
use rb_base::{OpenGate, Part, WorkItem};
use rb_board::{Desk, Finding, Inbox, Note, Order, Team, Worker, open, work};
use rb_book::{ChainBook, Vote};
use rb_core::Core;
use rb_core_model::{Event, scan};
use rb_graph::SharedGraph;
use rb_wire::{Rx, Tx, lane};
use std::alloc::Global;
use std::process::Abort;
use std::sync::{Arc, Wait};
use std::test::Fail;
use std::thread;
use std::thread::Threads;

const THREE: &[Vote] = &[Vote::Commit, Vote::Commit, Vote::Commit, Vote::Absent];

/// A set of the first chain, a header signed by three of its four members, height 1 stored by the first client, the
/// window, and a packet on the first path that asks for height 6.
const EVENTS: &[Deed] = &[
    Deed::Set(0, 0xa1),
    Deed::Header(0, 7, 70, 0xa1, THREE),
    Deed::Stored(0, 1, 10),
    Deed::Window(200, 200),
    Deed::Sent(0, 1, 5, 0),
];

/// The core that has taken these in.
fn make_core_of(alloc: Global, events: &[Deed]) -> Option<Core> {
    let mut core = start(alloc, 12, &[])?;
    for deed in events {
        learn(&mut core, event_of(alloc, *deed)?)?;
    }
    Some(core)
}

/// The core that has taken so many of those in.
fn make_core(alloc: Global, events: usize) -> Option<Core> {
    make_core_of(alloc, EVENTS.get(..events)?)
}

fn shared_table_of(alloc: Global, book: &ChainBook) -> Option<SharedGraph> {
    let graph = table_of(alloc, book).ok()?;
    SharedGraph::new(alloc, graph).ok()
}

/// The table of the light store that a core shows a client.
fn shared_table(alloc: Global, core: &Core, client: usize) -> Option<SharedGraph> {
    let job = core.client_view(client).ok()?;
    shared_table_of(alloc, job.view().book())
}

/// What a worker is told to do: a part of a path, or a client.
#[derive(Clone, Copy)]
enum Job {
    Scan(usize, Part),
    Plan(usize),
}

impl Job {
    fn item(self) -> WorkItem {
        match self {
            Job::Scan(path, part) => WorkItem::Scan(path, part),
            Job::Plan(client) => WorkItem::Plan(client),
        }
    }

    fn order(self, alloc: Global, core: &Core) -> Option<Order> {
        let note = Note {
            front: core.front(),
        };
        match self {
            Job::Scan(path, part) => Some(Order::Scan { path, part, note }),
            Job::Plan(client) => Some(Order::Plan {
                client,
                note,
                graph: shared_table(alloc, core, client)?,
            }),
        }
    }

    /// What is found by what a core shows.
    fn find(self, alloc: Global, core: &Core) -> Option<Finding> {
        match self {
            Job::Scan(path, part) => {
                let view = core.path_view(path).ok()?;
                let scan = scan(view, part).ok()?;
                Some(Finding::Scanned { path, scan })
            }
            Job::Plan(client) => {
                let job = core.client_view(client).ok()?;
                Some(Finding::Planned(draft_of(alloc, job).ok()?))
            }
        }
    }

    /// The event of what was found, which is taken out.
    fn take(self, inbox: &mut Inbox) -> Option<Event> {
        match self {
            Job::Scan(path, part) => {
                let scan = inbox.take_scan(path, part)?;
                Some(Event::Scanned { path, scan })
            }
            Job::Plan(client) => Some(Event::Planned(inbox.take_draft(client)?)),
        }
    }
}

/// What is put into a lane.
#[derive(Clone, Copy)]
enum Put {
    /// What is found of the job, by the core as it was when the job was ordered.
    Right(Job),
    /// What is found of it by an earlier core.
    Stale(Job),
    /// A scan of the first path, as one of another path.
    Forged(usize),
    Short(WorkItem),
    Unseen(WorkItem),
}

/// What a test does, and what comes of it.
#[derive(Clone, Copy)]
enum Step {
    Order(Job),
    /// Puts it into the lane of this worker.
    Put(usize, Put),
    Wait(Job),
    /// Takes what was found of the job, and enters it into the core.
    Take(Job, &'static str),
    /// Whether the team ends well once all that was ordered has come to an end.
    Finish(bool),
}

/// The other ends of the lanes to a worker.
#[derive(Drop)]
struct Ends {
    orders: Rx<Order>,
    findings: Tx<Finding>,
}

/// A team of two workers, whose lanes' other ends are here, with the core that they look at, and an earlier one.
struct Fakes {
    alloc: Global,
    core: Core,
    earlier: Core,
    inbox: Inbox,
    team: Team<OpenGate>,
    first: Ends,
    second: Ends,
}

fn make_unparker(alloc: Global) -> Option<Unparker> {
    let parker = Parker::new(alloc).ok()?;
    parker.unparker().clone().ok()
}

/// A worker that does nothing, with the other ends of its lanes.
fn make_worker<R: Threads>(rt: &R, alloc: Global) -> Option<(Worker, Ends)> {
    let (ordered, orders) = lane(alloc, 64).ok()?;
    let (findings, found) = lane(alloc, 64).ok()?;
    let unparker = make_unparker(alloc)?;
    let thread = thread::spawn(rt, || ()).ok()?;
    let worker = Worker::over(ordered, found, unparker, thread);
    Some((worker, Ends { orders, findings }))
}

fn make_pair<R: Threads>(rt: &R, alloc: Global) -> Option<(Vec<Worker>, Ends, Ends)> {
    let mut workers = Vec::with_capacity(alloc, 2).ok()?;
    let (worker, first) = make_worker(rt, alloc)?;
    workers.push(worker).ok()?;
    let (worker, second) = make_worker(rt, alloc)?;
    workers.push(worker).ok()?;
    Some((workers, first, second))
}

fn make_team<R: Threads>(rt: &R, alloc: Global) -> Option<(Team<OpenGate>, Ends, Ends)> {
    let gate = Arc::new(alloc, OpenGate).ok()?;
    let home = Parker::new(alloc).ok()?;
    let (workers, first, second) = make_pair(rt, alloc)?;
    Some((Team::over(alloc, workers, gate, home), first, second))
}

impl Fakes {
    fn make<R: Threads>(rt: &R, alloc: Global) -> Option<Fakes> {
        let core = make_core(alloc, EVENTS.len())?;
        let earlier = make_core(alloc, 4)?;
        let (team, first, second) = make_team(rt, alloc)?;
        Some(Fakes {
            alloc,
            core,
            earlier,
            inbox: Inbox::new(alloc),
            team,
            first,
            second,
        })
    }

    fn finding(&self, put: Put) -> Option<Finding> {
        match put {
            Put::Right(job) => job.find(self.alloc, &self.core),
            Put::Stale(job) => job.find(self.alloc, &self.earlier),
            Put::Forged(path) => {
                let view = self.core.path_view(0).ok()?;
                let scan = scan(view, Part::Packets).ok()?;
                Some(Finding::Scanned { path, scan })
            }
            Put::Short(item) => Some(Finding::Short(item)),
            Put::Unseen(item) => Some(Finding::Unseen(item)),
        }
    }

    fn put(&mut self, worker: usize, put: Put) -> Option<()> {
        let finding = self.finding(put)?;
        let ends = match worker {
            0 => &mut self.first,
            _ => &mut self.second,
        };
        ends.findings.push(finding).ok()
    }

    fn order<R: Wait>(&mut self, rt: &R, job: Job) -> Option<()> {
        let order = job.order(self.alloc, &self.core)?;
        self.team.order(rt, &mut self.inbox, order).ok()
    }

    /// What is replied to what was found of the job.
    fn take(&mut self, rt: &impl Abort, job: Job) -> Option<String> {
        match job.take(&mut self.inbox) {
            Some(event) => reply_text(self.alloc, offer(rt, &mut self.core, event)?).ok(),
            None => String::from_str(self.alloc, "nothing").ok(),
        }
    }

    /// What is replied to what was found of the job is this.
    fn take_as<R: Abort>(&mut self, rt: &R, job: Job, wanted: &'static str) -> Option<()> {
        let told = self.take(rt, job)?;
        assert_same(rt, "taken", told.as_str(), wanted);
        Some(())
    }

    fn act<R: Wait + Abort>(&mut self, rt: &R, step: Step) -> Option<()> {
        match step {
            Step::Order(job) => self.order(rt, job),
            Step::Put(worker, put) => self.put(worker, put),
            Step::Wait(job) => {
                self.team.wait_for(rt, &mut self.inbox, job.item());
                Some(())
            }
            Step::Take(job, wanted) => self.take_as(rt, job, wanted),
            Step::Finish(ends_well) => {
                let finished = self.team.finish(rt, &mut self.inbox);
                assert_same(rt, "finished", finished.is_ok(), ends_well);
                Some(())
            }
        }
    }

    /// Does all this; answers how much could be done.
    fn go<R: Wait + Abort>(&mut self, rt: &R, steps: &[Step]) -> usize {
        for (place, step) in steps.iter().enumerate() {
            if self.act(rt, *step).is_none() {
                return place;
            }
        }
        steps.len()
    }

    /// Ends the team; tells how many orders came through each lane.
    fn end<R: Threads + Wait>(self, rt: &R) -> (usize, usize) {
        let Fakes {
            alloc: _,
            core: _core,
            earlier: _earlier,
            inbox: _inbox,
            team,
            first,
            second,
        } = self;
        team.stop(rt);
        (count(first), count(second))
    }
}

/// How many orders are in a lane, but for the one that ends the worker.
fn count(ends: Ends) -> usize {
    let mut ends = ends;
    let mut count: usize = 0;
    for _ in 0..64 {
        match ends.orders.pop() {
            Some(Order::Stop) | None => return count,
            Some(_) => count = count.saturating_add(1),
        }
    }
    count
}

const PACKETS: Job = Job::Scan(0, Part::Packets);

const CHANNEL: Job = Job::Scan(0, Part::Channel);

const OTHER_PACKETS: Job = Job::Scan(1, Part::Packets);

const OTHER_CHANNEL: Job = Job::Scan(1, Part::Channel);

const ODD: &[Step] = &[
    // of what isn't ordered, or is no job of a worker
    Step::Order(PACKETS),
    Step::Put(0, Put::Right(OTHER_PACKETS)),
    Step::Put(0, Put::Short(WorkItem::Plan(1))),
    Step::Put(0, Put::Short(WorkItem::Row(0))),
    Step::Put(0, Put::Unseen(WorkItem::Taken(0))),
    Step::Put(0, Put::Forged(9)),
    // the first counts
    Step::Put(0, Put::Right(PACKETS)),
    Step::Put(1, Put::Stale(PACKETS)),
    Step::Wait(PACKETS),
    Step::Take(OTHER_PACKETS, "nothing"),
    Step::Take(PACKETS, "Noted"),
    Step::Take(PACKETS, "nothing"),
    Step::Take(Job::Plan(1), "nothing"),
    // not done, then of another path, and then right
    Step::Order(OTHER_PACKETS),
    Step::Put(1, Put::Unseen(WorkItem::Scan(1, Part::Packets))),
    Step::Wait(OTHER_PACKETS),
    Step::Take(OTHER_PACKETS, "nothing"),
    Step::Order(OTHER_PACKETS),
    Step::Put(0, Put::Forged(1)),
    Step::Put(1, Put::Right(OTHER_PACKETS)),
    Step::Wait(OTHER_PACKETS),
    Step::Take(OTHER_PACKETS, "802 Stale"),
    Step::Take(OTHER_PACKETS, "nothing"),
    Step::Order(OTHER_PACKETS),
    Step::Put(0, Put::Right(OTHER_PACKETS)),
    Step::Wait(OTHER_PACKETS),
    Step::Take(OTHER_PACKETS, "Noted"),
    // of an earlier view, and twice, while another job isn't done
    Step::Order(CHANNEL),
    Step::Order(OTHER_CHANNEL),
    Step::Put(0, Put::Stale(CHANNEL)),
    Step::Put(1, Put::Right(CHANNEL)),
    Step::Wait(CHANNEL),
    Step::Put(1, Put::Right(OTHER_CHANNEL)),
    Step::Finish(true),
    Step::Take(CHANNEL, "802 Stale"),
    Step::Take(OTHER_CHANNEL, "Noted"),
    Step::Order(CHANNEL),
    Step::Put(1, Put::Right(CHANNEL)),
    Step::Wait(CHANNEL),
    Step::Take(CHANNEL, "Noted"),
    // the same of plans
    Step::Order(Job::Plan(0)),
    Step::Order(Job::Plan(1)),
    Step::Put(1, Put::Stale(Job::Plan(0))),
    Step::Put(1, Put::Right(Job::Plan(0))),
    Step::Wait(Job::Plan(0)),
    Step::Put(0, Put::Right(Job::Plan(1))),
    Step::Finish(true),
    Step::Take(Job::Plan(0), "802 Stale"),
    Step::Take(Job::Plan(1), "Noted"),
    Step::Order(Job::Plan(0)),
    Step::Put(1, Put::Right(Job::Plan(0))),
    Step::Wait(Job::Plan(0)),
    Step::Take(Job::Plan(0), "Opened(1)"),
    Step::Take(Job::Plan(0), "nothing"),
    // a growth was refused to a worker
    Step::Order(CHANNEL),
    Step::Put(1, Put::Short(WorkItem::Scan(0, Part::Channel))),
    Step::Finish(false),
];

#[test]
fn odd_findings_change_nothing(rt: HostRuntime) -> Result<(), Fail> {
    let mut fakes = Fakes::make(&rt, rt.alloc()).ok_or("team")?;
    let done = fakes.go(&rt, ODD);
    let ordered = fakes.end(&rt);
    assert!(rt;
        done == ODD.len() && ordered == (6, 5),
        "{done} {ordered:?}"
    );
    Ok(())
}

/// All orders of the parts of two paths.
const ORDERS: &[[usize; 4]] = &[
    [0, 1, 2, 3],
    [0, 1, 3, 2],
    [0, 2, 1, 3],
    [0, 2, 3, 1],
    [0, 3, 1, 2],
    [0, 3, 2, 1],
    [1, 0, 2, 3],
    [1, 0, 3, 2],
    [1, 2, 0, 3],
    [1, 2, 3, 0],
    [1, 3, 0, 2],
    [1, 3, 2, 0],
    [2, 0, 1, 3],
    [2, 0, 3, 1],
    [2, 1, 0, 3],
    [2, 1, 3, 0],
    [2, 3, 0, 1],
    [2, 3, 1, 0],
    [3, 0, 1, 2],
    [3, 0, 2, 1],
    [3, 1, 0, 2],
    [3, 1, 2, 0],
    [3, 2, 0, 1],
    [3, 2, 1, 0],
];

/// The parts of the paths, whose findings are taken in in this order, and what is replied to them.
const SCANS: &[(Job, &str)] = &[
    (PACKETS, "Noted"),
    (CHANNEL, "Noted"),
    (OTHER_PACKETS, "Noted"),
    (OTHER_CHANNEL, "Noted"),
];

/// The plans, and what is replied to them.
const PLANS: &[(Job, &str)] = &[(Job::Plan(0), "Opened(1)"), (Job::Plan(1), "Noted")];

impl Fakes {
    /// Puts what is found of a job into both lanes, and waits for it.
    fn find<R: Wait + Abort>(&mut self, rt: &R, job: Job) -> Option<()> {
        self.put(0, Put::Right(job))?;
        self.put(1, Put::Right(job))?;
        self.act(rt, Step::Wait(job))
    }

    /// Takes in what was found of a job, once.
    fn take_once<R: Abort>(&mut self, rt: &R, job: Job, wanted: &'static str) -> Option<()> {
        self.take_as(rt, job, wanted)?;
        self.take_as(rt, job, "nothing")
    }

    fn order_all<R: Wait>(&mut self, rt: &R, jobs: &[(Job, &'static str)]) -> Option<()> {
        for (job, _) in jobs {
            self.order(rt, *job)?;
        }
        Some(())
    }

    /// Finds the scans with these places, one after the other.
    fn find_scans<R: Wait + Abort>(&mut self, rt: &R, order: &[usize]) -> Option<()> {
        for place in order {
            let (job, _) = SCANS.get(*place)?;
            self.find(rt, *job)?;
        }
        Some(())
    }

    /// Finds the second plan first or not.
    fn find_plans<R: Wait + Abort>(&mut self, rt: &R, is_swapped: bool) -> Option<()> {
        self.find(rt, Job::Plan(usize::from(is_swapped)))?;
        self.find(rt, Job::Plan(usize::from(!is_swapped)))
    }

    /// Takes the jobs in, once all that was ordered has come to an end.
    fn take_all<R: Wait + Abort>(&mut self, rt: &R, jobs: &[(Job, &'static str)]) -> Option<()> {
        self.act(rt, Step::Finish(true))?;
        for (job, wanted) in jobs {
            self.take_once(rt, *job, wanted)?;
        }
        Some(())
    }

    /// Orders the scans, finds them in this order, and takes them in.
    fn scan_all<R: Wait + Abort>(&mut self, rt: &R, order: &[usize]) -> Option<()> {
        self.order_all(rt, SCANS)?;
        self.find_scans(rt, order)?;
        self.take_all(rt, SCANS)
    }

    /// Orders the plans, finds the second one first or not, and takes them in.
    fn plan_all<R: Wait + Abort>(&mut self, rt: &R, is_swapped: bool) -> Option<()> {
        self.order_all(rt, PLANS)?;
        self.find_plans(rt, is_swapped)?;
        self.take_all(rt, PLANS)
    }

    fn run<R: Wait + Abort>(&mut self, rt: &R, order: &[usize]) -> bool {
        let is_swapped = order.first() != Some(&0);
        self.scan_all(rt, order).is_some() && self.plan_all(rt, is_swapped).is_some()
    }
}

#[test]
fn findings_come_in_any_order(rt: HostRuntime) -> Result<(), Fail> {
    for order in ORDERS {
        let mut fakes = Fakes::make(&rt, rt.alloc()).ok_or("team")?;
        let is_done = fakes.run(&rt, order.as_slice());
        let ordered = fakes.end(&rt);
        assert!(rt; is_done && ordered == (3, 3), "{order:?} {ordered:?}");
    }
    Ok(())
}

/// A set, a header, and a client that is asked for a height that the header reaches.
const ASKED: &[Deed] = &[
    Deed::Set(0, 0xa1),
    Deed::Header(0, 7, 70, 0xa1, THREE),
    Deed::Stored(0, 1, 10),
    Deed::Window(200, 200),
    Deed::Asked(0, 5),
];

/// The set alone.
const WITHOUT_HEADERS: &[Deed] = &[Deed::Set(0, 0xa1), Deed::Window(200, 200)];

/// The plan that was found, as text.
fn plan_text_of(alloc: Global, finding: Option<Finding>) -> Option<String> {
    match finding? {
        Finding::Planned(draft) => answer_text(alloc, draft.answer()).ok(),
        _ => None,
    }
}

/// What a worker that looks at this desk plans for the client, by the table of this core.
fn plan_by_table_of(alloc: Global, desk: &mut Desk, core: &Core) -> Option<String> {
    let order = Job::Plan(0).order(alloc, core)?;
    plan_text_of(alloc, work(alloc, desk, order, &OpenGate))
}

/// The same by the table of a light store without headers.
fn plan_by_older_table(alloc: Global, desk: &mut Desk) -> Option<String> {
    let older = make_core_of(alloc, WITHOUT_HEADERS)?;
    plan_by_table_of(alloc, desk, &older)
}

/// What a worker plans so on the board of a core.
fn plan_on_board<R: Wait>(rt: &R, alloc: Global, core: Core) -> Option<String> {
    let (pen, mut desks) = open(rt, alloc, core, 1).ok()?;
    let text = match desks.pop() {
        Some(mut desk) => plan_by_older_table(alloc, &mut desk),
        None => None,
    };
    pen.close(rt);
    text
}

#[test]
fn a_worker_plans_by_no_other_table(rt: HostRuntime) -> Result<(), Fail> {
    let text = match make_core_of(rt.alloc(), ASKED) {
        Some(core) => plan_on_board(&rt, rt.alloc(), core).ok_or("plan")?,
        None => return Err(Fail::from("core")),
    };
    assert_same(
        &rt,
        "plan",
        text.as_str(),
        "at least 5 | 7<1 | batch 7: 0+1 111",
    );
    Ok(())
}
