//! Supervisors whose workers the test plays: they find each job in any order, twice, as it was a turn before, under another
//! path, before it is ordered or not at all, or they go; the report is the script's each time, and the supervisor does
//! what wasn't found, and no more.
ghost use Rattle.std.specs.Prelude.{◌≤◌, length};

use crate::script::{BATCHES, BATCHES_REPORT};
use crossbeam_utils::sync::{Parker, Unparker};
use rb_base::{Counted, Gate, OpenGate, Part, WorkItem};
use rb_board::{Desk, Finding, Findings, Order, Orders, Team, Worker, work};
use rb_script_read::read_script;
use rb_super::run_by_team;
use rb_super_turn::{Crew, Report};
use rb_text_report::write_report;
use rb_wire::{Rx, Tx, lane};
use std::alloc::{AllocError, Global};
use std::process::Abort;
use std::sync::atomic::{AtomicU64, Ordering};
use std::sync::{Arc, Wait};
use std::test::Fail;
use std::thread::{JoinHandle, Threads};
use std::{mem, thread};

/// Counts the scans and the plans that begin.
#[derive(Drop)]
struct Jobs {
    scans: AtomicU64,
    plans: AtomicU64,
}

impl Jobs {
    fn new() -> Jobs {
        Jobs {
            scans: AtomicU64::new(0),
            plans: AtomicU64::new(0),
        }
    }

    fn counts(&self) -> (u64, u64) {
        (
            self.scans.load(Ordering::SeqCst),
            self.plans.load(Ordering::SeqCst),
        )
    }
}

impl Gate for Jobs {
    fn before(&self, item: WorkItem) {
        match item {
            WorkItem::Scan(..) => {
                self.scans.fetch_add(1, Ordering::SeqCst);
            }
            WorkItem::Plan(_) => {
                self.plans.fetch_add(1, Ordering::SeqCst);
            }
            WorkItem::Row(_) | WorkItem::Taken(_) => {}
        }
    }

    fn after(&self, _item: WorkItem) {}
}

/// What a player does once it has its orders of a turn's scans, or of its plans.
#[derive(Clone, Copy)]
enum Deed {
    /// Hands over what is found of the job with this number in the way's order.
    Find(usize),
    /// Hands over what is found of that scan, as one of the other path.
    Forge(usize),
    /// Tells that that job wasn't done.
    Unseen(usize),
    /// Tells that a job wasn't done for want of memory.
    Short(WorkItem),
    /// Finds the jobs, and keeps that.
    Keep,
    /// Hands over the scans that were kept, or the plans.
    StaleScans,
    StalePlans,
    /// Goes.
    Leave,
}

/// What a player does with so many scans, once they were ordered, and with so many plans; in which order it takes them.
#[derive(Clone, Copy)]
struct Way {
    order: &'static [usize],
    scans: usize,
    plans: usize,
    with_scans: &'static [Deed],
    with_plans: &'static [Deed],
}

/// A worker that the test plays.
#[derive(Drop)]
struct Player {
    alloc: Global,
    desk: Desk,
    orders: Orders,
    findings: Findings,
    way: Way,
    jobs: Vec<Order>,
    old_scans: Vec<Finding>,
    old_plans: Vec<Finding>,
}

/// The job of an order.
fn item_of(order: &Order) -> WorkItem {
    match order {
        Order::Scan { path, part, .. } => WorkItem::Scan(*path, *part),
        Order::Plan { client, .. } => WorkItem::Plan(*client),
        Order::Stop => WorkItem::Row(0),
    }
}

fn copy_of(order: &Order) -> Option<Order> {
    match order {
        Order::Scan { path, part, note } => Some(Order::Scan {
            path: *path,
            part: *part,
            note: *note,
        }),
        Order::Plan {
            client,
            note,
            graph,
        } => Some(Order::Plan {
            client: *client,
            note: *note,
            graph: graph.share().ok()?,
        }),
        Order::Stop => None,
    }
}

/// A scan, as one of the other path.
fn forged(finding: Finding) -> Finding {
    match finding {
        Finding::Scanned { path, scan } => Finding::Scanned {
            path: usize::from(path == 0),
            scan,
        },
        other => other,
    }
}

impl Player {
    /// The job with this number in the way's order.
    fn job(&self, number: usize) -> Option<&Order> {
        let count = self.jobs.len();
        let mut places = self.way.order.iter().filter(|place| **place < count);
        self.jobs.get(*places.nth(number)?)
    }

    /// What is found of it.
    fn find(&mut self, number: usize) -> Option<Finding> {
        let order = copy_of(self.job(number)?)?;
        work(self.alloc, &mut self.desk, order, &OpenGate)
    }

    fn hand_over(&mut self, finding: Finding) -> Option<()> {
        self.findings.lane.push(finding).ok()?;
        self.findings.unparker.unpark();
        Some(())
    }

    fn hand_over_all(&mut self, findings: Vec<Finding>) -> Option<()> {
        for finding in findings {
            self.hand_over(finding)?;
        }
        Some(())
    }

    /// Keeps what is found of each job.
    fn keep(&mut self) -> Option<()> {
        for number in 0..self.jobs.len() {
            let finding = self.find(number)?;
            match &finding {
                Finding::Scanned { .. } => self.old_scans.push(finding).ok()?,
                _ => self.old_plans.push(finding).ok()?,
            }
        }
        Some(())
    }

    /// Hands over what is found of a job.
    fn find_and_hand_over(&mut self, number: usize) -> Option<()> {
        let finding = self.find(number)?;
        self.hand_over(finding)
    }

    /// Hands over what is found of a scan, as one of the other path.
    fn forge_and_hand_over(&mut self, number: usize) -> Option<()> {
        let finding = self.find(number)?;
        self.hand_over(forged(finding))
    }

    fn hand_over_unseen(&mut self, number: usize) -> Option<()> {
        let item = item_of(self.job(number)?);
        self.hand_over(Finding::Unseen(item))
    }

    fn hand_over_old_scans(&mut self) -> Option<()> {
        let old = mem::replace(&mut self.old_scans, Vec::new(self.alloc));
        self.hand_over_all(old)
    }

    fn hand_over_old_plans(&mut self) -> Option<()> {
        let old = mem::replace(&mut self.old_plans, Vec::new(self.alloc));
        self.hand_over_all(old)
    }

    fn act(&mut self, deed: Deed) -> Option<()> {
        match deed {
            Deed::Find(number) => self.find_and_hand_over(number),
            Deed::Forge(number) => self.forge_and_hand_over(number),
            Deed::Unseen(number) => self.hand_over_unseen(number),
            Deed::Short(item) => self.hand_over(Finding::Short(item)),
            Deed::Keep => self.keep(),
            Deed::StaleScans => self.hand_over_old_scans(),
            Deed::StalePlans => self.hand_over_old_plans(),
            Deed::Leave => None,
        }
    }

    fn act_all(&mut self, deeds: &[Deed]) -> Option<()> {
        for deed in deeds {
            self.act(*deed)?;
        }
        Some(())
    }

    /// Takes an order in; with the last one of the scans, or of the plans, it does what it is to do.
    fn take(&mut self, order: Order) -> Option<()> {
        let (count, deeds) = match &order {
            Order::Scan { .. } => (self.way.scans, self.way.with_scans),
            Order::Plan { .. } => (self.way.plans, self.way.with_plans),
            Order::Stop => return None,
        };
        self.jobs.push(order).ok()?;
        if self.jobs.len() < count {
            return Some(());
        }
        self.act_all(deeds)?;
        self.jobs.clear();
        Some(())
    }

    /// Waits for an order, and takes it in; there is room for one more in its lane then, so the supervisor is woken.
    fn step<R: Wait>(&mut self, rt: &R) -> Option<()> {
        let Some(order) = self.orders.lane.pop() else {
            self.orders.parker.park(rt);
            return Some(());
        };
        self.findings.unparker.unpark();
        self.take(order)
    }
}

/// Lets other threads go on, so that the supervisor sleeps by the end of it, if it has nothing to do.
fn linger() {
    for _ in 0..100_000 {
        thread::yield_now();
    }
}

/// Plays until it is told to end, or goes, and lingers before it lets its lanes go: that has to wake the supervisor.
fn play<R: Wait>(rt: &R, player: Player) {
    let mut player = player;
    for _ in rt.forever() {
        if player.step(rt).is_none() {
            linger();
            return;
        }
    }
}

fn make_player(alloc: Global, desk: Desk, orders: Orders, findings: Findings, way: Way) -> Player {
    Player {
        alloc,
        desk,
        orders,
        findings,
        way,
        jobs: Vec::new(alloc),
        old_scans: Vec::new(alloc),
        old_plans: Vec::new(alloc),
    }
}

/// Lets a player play in a thread of its own.
fn spawn_player<R: Wait + Threads + Copy + Send + 'static>(
    rt: &R,
    player: Player,
) -> Result<JoinHandle<()>, AllocError> {
    let runtime = *rt;
    thread::spawn(rt, move || play(&runtime, player)).map_err(|_| AllocError)
}

/// A lane for one order, with its player's end.
fn make_orders(alloc: Global) -> Result<(Tx<Order>, Orders), AllocError> {
    let (ordered, lane) = lane(alloc, 1)?;
    let parker = Parker::new(alloc)?;
    Ok((ordered, Orders { lane, parker }))
}

/// A lane for 32 findings, with its player's end, which wakes the supervisor by this.
fn make_findings(alloc: Global, home: &Unparker) -> Result<(Findings, Rx<Finding>), AllocError> {
    let (lane, findings) = lane(alloc, 32)?;
    let unparker = home.clone()?;
    Ok((Findings { lane, unparker }, findings))
}

/// Starts a player, which wakes the supervisor by this. One order and 32 findings lie in its lanes.
fn start_player<R: Wait + Threads + Copy + Send + 'static>(
    rt: &R,
    alloc: Global,
    desk: Desk,
    home: &Unparker,
    way: Way,
) -> Result<Worker, AllocError> {
    let (ordered, orders) = make_orders(alloc)?;
    let (found, findings) = make_findings(alloc, home)?;
    let unparker = orders.parker.unparker().clone()?;
    let player = make_player(alloc, desk, orders, found, way);
    let thread = spawn_player(rt, player)?;
    Ok(Worker::over(ordered, findings, unparker, thread))
}

/// A team of players, one for each desk.
fn start_team<R: Wait + Threads + Copy + Send + 'static>(
    rt: &R,
    alloc: Global,
    desks: Vec<Desk>,
    gate: &Arc<Jobs, Global>,
    ways: &[Way],
) -> Result<Team<Jobs>, AllocError> {
    let gate = Arc::try_clone(gate)?;
    let home = Parker::new(alloc)?;
    let mut workers = Vec::with_capacity(alloc, 2)?;
    for (desk, way) in desks.into_iter().zip(ways) {
        workers.push(start_player(rt, alloc, desk, home.unparker(), *way)?)?;
    }
    Ok(Team::over(alloc, workers, gate, home))
}

/// The text of a report.
fn text_of(alloc: Global, report: &Report) -> Result<String, Fail> {
    let mut writer = Counted::new(Vec::new(alloc));
    if write_report(alloc, report, &mut writer).is_err() {
        return Err(Fail::from("write"));
    }
    Ok(String::from_utf8_lossy(alloc, writer.into_inner().as_slice())?)
}

/// The script's report with so many desks, by the team that is started for them; the crew's gate is of the supervisor's jobs.
fn report_by<R, F>(
    crew: &Crew<R, Jobs>,
    alloc: Global,
    desks: usize,
    start: F,
) -> Result<String, Fail>
where
    R: Threads + Sync + Wait,
    F: FnOnce(Vec<Desk>) -> Result<Team<Jobs>, AllocError> + Drop,
    requires desks { desks ≤ 64 }
    requires start { F.IsAlwaysCallable start }
{
    let script = read_script(alloc, BATCHES.as_bytes())?;
    let report = run_by_team(crew, alloc, script, desks, start)?;
    text_of(alloc, &report)
}

/// Whether the report is the script's where players work in these ways, one or two of them, and how many scans and plans
/// the supervisor does.
fn run<R: Threads + Wait + Copy + Send + Sync + 'static>(
    rt: &R,
    alloc: Global,
    ways: &[Way],
) -> Result<(bool, (u64, u64)), Fail>
    requires { length ways.now ≤ 64 }
{
    let gate = Arc::new(alloc, Jobs::new())?;
    let own = Jobs::new();
    let crew = Crew::new(rt, 1, &own);
    let report = report_by(&crew, alloc, ways.len(), |desks| {
        start_team(rt, alloc, desks, &gate, ways)
    })?;
    Ok((report.as_str() == BATCHES_REPORT, own.counts()))
}

const FORWARDS: &[usize] = &[0, 1, 2, 3];

const SCANS: &[Deed] = &[Deed::Find(0), Deed::Find(1), Deed::Find(2), Deed::Find(3)];

const PLANS: &[Deed] = &[Deed::Find(0), Deed::Find(1)];

/// One player that finds everything.
const GOOD: Way = Way {
    order: FORWARDS,
    scans: 4,
    plans: 2,
    with_scans: SCANS,
    with_plans: PLANS,
};

/// One of two players, each of which gets the scans of a path and the plan of a client.
const HALF: Way = Way {
    order: FORWARDS,
    scans: 2,
    plans: 1,
    with_scans: &[Deed::Find(0), Deed::Find(1)],
    with_plans: &[Deed::Find(0)],
};

const LEAVE: &[Deed] = &[Deed::Leave];

/// Players, and how many scans and plans the supervisor does.
const ROWS: &[(&[Way], (u64, u64))] = &[
    // as it was a turn before
    (
        &[Way {
            with_scans: &[
                Deed::StaleScans,
                Deed::Find(0),
                Deed::Find(1),
                Deed::Find(2),
                Deed::Find(3),
                Deed::Keep,
            ],
            with_plans: &[Deed::StalePlans, Deed::Find(0), Deed::Find(1), Deed::Keep],
            ..GOOD
        }],
        (4, 2),
    ),
    // of the other path
    (
        &[Way {
            with_scans: &[
                Deed::Forge(0),
                Deed::Forge(1),
                Deed::Forge(2),
                Deed::Forge(3),
                Deed::Find(0),
                Deed::Find(1),
                Deed::Find(2),
                Deed::Find(3),
            ],
            ..GOOD
        }],
        (8, 0),
    ),
    // early, and of jobs that weren't ordered
    (
        &[Way {
            with_scans: &[
                Deed::StalePlans,
                Deed::Short(WorkItem::Row(0)),
                Deed::Short(WorkItem::Plan(1)),
                Deed::Short(WorkItem::Scan(9, Part::Packets)),
                Deed::Find(3),
                Deed::Find(2),
                Deed::Find(1),
                Deed::Find(0),
            ],
            with_plans: &[
                Deed::Short(WorkItem::Scan(1, Part::Channel)),
                Deed::Short(WorkItem::Taken(0)),
                Deed::Find(1),
                Deed::Find(0),
                Deed::Keep,
            ],
            ..GOOD
        }],
        (0, 0),
    ),
    // not at all
    (
        &[Way {
            with_scans: &[
                Deed::Unseen(3),
                Deed::Find(1),
                Deed::Unseen(2),
                Deed::Unseen(0),
            ],
            with_plans: &[Deed::Unseen(1), Deed::Unseen(0)],
            ..GOOD
        }],
        (6, 4),
    ),
    // a player that goes: with its first order, before and after it has found something, with the plans
    (
        &[Way {
            scans: 1,
            with_scans: LEAVE,
            ..GOOD
        }],
        (8, 4),
    ),
    (
        &[Way {
            scans: 1,
            with_scans: &[Deed::Find(0), Deed::Leave],
            ..GOOD
        }],
        (7, 4),
    ),
    (
        &[Way {
            with_scans: LEAVE,
            ..GOOD
        }],
        (8, 4),
    ),
    (
        &[Way {
            with_scans: &[Deed::Find(3), Deed::Find(0), Deed::Leave],
            ..GOOD
        }],
        (6, 4),
    ),
    (
        &[Way {
            with_plans: LEAVE,
            ..GOOD
        }],
        (4, 4),
    ),
    (
        &[Way {
            with_plans: &[Deed::Find(1), Deed::Leave],
            ..GOOD
        }],
        (4, 3),
    ),
    // two players, of which one goes, or both do
    (&[HALF, HALF], (0, 0)),
    (
        &[
            HALF,
            Way {
                with_scans: LEAVE,
                ..HALF
            },
        ],
        (4, 2),
    ),
    (
        &[
            Way {
                with_scans: LEAVE,
                ..HALF
            },
            HALF,
        ],
        (4, 2),
    ),
    (
        &[
            HALF,
            Way {
                with_plans: LEAVE,
                ..HALF
            },
        ],
        (2, 2),
    ),
    (
        &[
            Way {
                with_plans: LEAVE,
                ..HALF
            },
            Way {
                scans: 1,
                with_scans: LEAVE,
                ..HALF
            },
        ],
        (6, 4),
    ),
];

#[test]
fn reports_do_not_go_by_what_is_found(rt: HostRuntime) -> Result<(), Fail> {
    for (row, (ways, own)) in ROWS.iter().enumerate() {
        let given = run(&rt, rt.alloc(), *ways)?;
        assert!(rt; given == (true, *own), "{row}: {given:?}");
    }
    Ok(())
}

/// All orders of the parts of two paths; those of two clients are among them.
const ORDERS: &[&[usize]] = &[
    &[0, 1, 2, 3],
    &[0, 1, 3, 2],
    &[0, 2, 1, 3],
    &[0, 2, 3, 1],
    &[0, 3, 1, 2],
    &[0, 3, 2, 1],
    &[1, 0, 2, 3],
    &[1, 0, 3, 2],
    &[1, 2, 0, 3],
    &[1, 2, 3, 0],
    &[1, 3, 0, 2],
    &[1, 3, 2, 0],
    &[2, 0, 1, 3],
    &[2, 0, 3, 1],
    &[2, 1, 0, 3],
    &[2, 1, 3, 0],
    &[2, 3, 0, 1],
    &[2, 3, 1, 0],
    &[3, 0, 1, 2],
    &[3, 0, 2, 1],
    &[3, 1, 0, 2],
    &[3, 1, 2, 0],
    &[3, 2, 0, 1],
    &[3, 2, 1, 0],
];

/// One player that finds everything twice.
const TWICE: Way = Way {
    with_scans: &[
        Deed::Find(0),
        Deed::Find(0),
        Deed::Find(1),
        Deed::Find(1),
        Deed::Find(2),
        Deed::Find(2),
        Deed::Find(3),
        Deed::Find(3),
    ],
    with_plans: &[Deed::Find(0), Deed::Find(0), Deed::Find(1), Deed::Find(1)],
    ..GOOD
};

#[test]
fn findings_come_twice_in_any_order(rt: HostRuntime) -> Result<(), Fail> {
    for order in ORDERS {
        let way = Way {
            order: *order,
            ..TWICE
        };
        let given = run(&rt, rt.alloc(), &[way])?;
        assert!(rt; given == (true, (0, 0)), "{order:?}: {given:?}");
    }
    Ok(())
}

/// Whether the report is the script's by so many workers, how many scans and plans they do, and how many the supervisor does.
fn run_by<R: Threads + Wait + Copy + Send + Sync + 'static>(
    rt: &R,
    alloc: Global,
    workers: usize,
) -> Result<(bool, (u64, u64), (u64, u64)), Fail>
    requires { workers ≤ 64 }
{
    let gate = Arc::new(alloc, Jobs::new())?;
    let own = Jobs::new();
    let crew = Crew::new(rt, workers, &own);
    let report = report_by(&crew, alloc, workers, |desks| {
        Team::start(rt, alloc, desks, &gate)
    })?;
    Ok((
        report.as_str() == BATCHES_REPORT,
        gate.counts(),
        own.counts(),
    ))
}

#[test]
fn workers_do_all_scans_and_plans(rt: HostRuntime) -> Result<(), Fail> {
    let alloc = rt.alloc();
    let given = [
        run_by(&rt, alloc, 1)?,
        run_by(&rt, alloc, 2)?,
        run_by(&rt, alloc, 8)?,
    ];
    assert!(rt; given == [(true, (8, 4), (0, 0)); 3], "{given:?}");
    let alone = run_by(&rt, alloc, 0)?;
    assert!(rt; alone == (true, (0, 0), (8, 4)), "{alone:?}");
    Ok(())
}
