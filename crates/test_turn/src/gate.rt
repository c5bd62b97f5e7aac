//! The gate test: with 1, 2 and 8 workers each scan and each plan of two turns begins once, in a worker's thread, and the
//! second turn's tables are the first one's; what one thread does, job after job, fails it.
ghost use Rattle.std.specs.Prelude.{◌≤◌};

use crate::script::{REPORT, SCRIPT};
use rb_base::{Counted, Gate, Part, WorkItem};
use rb_text::run_over;
use std::alloc::Global;
use std::sync::atomic::{AtomicU64, Ordering};
use std::sync::{Arc, Wait};
use std::test::Fail;
use std::thread;
use std::thread::Threads;
use std::time::{Clock, Duration};

/// The turns of the script.
const TURNS: u64 = 2;

/// The headers that are seen in its first turn.
const FIRST_HEADERS: u64 = 3;

/// How often something began or ended, for each of two objects.
#[derive(Drop)]
struct Pair {
    first: AtomicU64,
    second: AtomicU64,
}

impl Pair {
    fn new() -> Pair {
        Pair {
            first: AtomicU64::new(0),
            second: AtomicU64::new(0),
        }
    }

    /// An object's count.
    fn own(&self, object: usize) -> &AtomicU64 {
        if object == 0 {
            &self.first
        } else {
            &self.second
        }
    }

    /// The other object's count.
    fn other(&self, object: usize) -> &AtomicU64 {
        if object == 0 {
            &self.second
        } else {
            &self.first
        }
    }

    /// Counts one more for an object; tells how many these are.
    fn count(&self, object: usize) -> u64 {
        let earlier = self.own(object).fetch_add(1, Ordering::SeqCst);
        earlier.saturating_add(1)
    }

    fn is_once_a_turn(&self) -> bool {
        self.first.load(Ordering::SeqCst) == TURNS && self.second.load(Ordering::SeqCst) == TURNS
    }
}

/// Counts the jobs that begin, and holds them so that a run ends well only where workers do them.
///
/// Several workers: a scan is held until the same scan of the other path has begun, and the first client's plan until the
/// second one's was taken in. One worker: each scan and plan takes a while, in which no other may be begun. Then, and with several
/// workers, the thread that takes the first client's plan is held until the second one's has begun.
#[derive(Drop)]
struct Watch<R: Clock> {
    rt: R,
    looks: u32,
    are_several: bool,
    packets: Pair,
    channels: Pair,
    plans: Pair,
    taken: Pair,
    open: AtomicU64,
    rows: AtomicU64,
    faults: AtomicU64,
}

impl<R: Clock> Watch<R> {
    fn new(rt: R, looks: u32, workers: usize) -> Watch<R> {
        Watch {
            rt,
            looks,
            are_several: workers != 1,
            packets: Pair::new(),
            channels: Pair::new(),
            plans: Pair::new(),
            taken: Pair::new(),
            open: AtomicU64::new(0),
            rows: AtomicU64::new(0),
            faults: AtomicU64::new(0),
        }
    }

    /// Notes that something went wrong.
    fn fail(&self) {
        self.faults.fetch_add(1, Ordering::SeqCst);
    }

    /// Holds the calling thread until so many are counted, for so many looks at most, and never after a fault.
    fn hold(&self, count: &AtomicU64, wanted: u64) {
        if self.faults.load(Ordering::SeqCst) != 0 {
            return;
        }
        for _ in 0..self.looks {
            if count.load(Ordering::SeqCst) >= wanted {
                return;
            }
            thread::sleep(&self.rt, Duration::from_micros(20));
        }
        self.fail();
    }

    /// Lets a job take a while, in which no other one may be begun.
    fn take_a_while(&self) {
        let others = self.open.fetch_add(1, Ordering::SeqCst);
        thread::sleep(&self.rt, Duration::from_millis(2));
        if others != 0 || self.open.load(Ordering::SeqCst) != 1 {
            self.fail();
        }
    }

    fn begin_scan(&self, path: usize, part: Part) {
        let pair = match part {
            Part::Packets => &self.packets,
            Part::Channel => &self.channels,
        };
        let number = pair.count(path);
        if self.are_several {
            self.hold(pair.other(path), number);
        } else {
            self.take_a_while();
        }
    }

    fn begin_plan(&self, client: usize) {
        let number = self.plans.count(client);
        if !self.are_several {
            self.take_a_while();
        } else if client == 0 {
            self.hold(&self.taken.second, number);
        }
    }

    fn take(&self, client: usize) {
        let number = self.taken.count(client);
        if client == 0 {
            self.hold(&self.plans.second, number);
        }
    }

    /// Each scan and plan began once a turn, by workers, and was taken in; and so many rows were made.
    fn is_passed(&self, rows: u64) -> bool {
        self.packets.is_once_a_turn()
            && self.channels.is_once_a_turn()
            && self.plans.is_once_a_turn()
            && self.taken.is_once_a_turn()
            && self.rows.load(Ordering::SeqCst) == rows
            && self.faults.load(Ordering::SeqCst) == 0
    }
}

impl<R: Clock> Gate for Watch<R> {
    fn before(&self, item: WorkItem) {
        match item {
            WorkItem::Row(_) => {
                self.rows.fetch_add(1, Ordering::SeqCst);
            }
            WorkItem::Scan(path, part) => self.begin_scan(path, part),
            WorkItem::Plan(client) => self.begin_plan(client),
            WorkItem::Taken(_) => {}
        }
    }

    fn after(&self, item: WorkItem) {
        match item {
            WorkItem::Scan(..) | WorkItem::Plan(_) => {
                self.open.fetch_sub(1, Ordering::SeqCst);
            }
            WorkItem::Taken(client) => self.take(client),
            WorkItem::Row(_) => {}
        }
    }
}

/// The report of the script, by so many workers.
fn report_by<R: Clock + Threads + Wait + Copy + Send + Sync + 'static>(
    rt: &R,
    alloc: Global,
    workers: usize,
    gate: &Arc<Watch<R>, Global>,
) -> Result<String, Fail>
    requires { workers ≤ 64 }
{
    let mut writer = Counted::new(Vec::new(alloc));
    let ran = run_over(rt, alloc, SCRIPT.as_bytes(), &mut writer, workers, gate);
    ran.map_err(|_| Fail::from("run"))?;
    Ok(String::from_utf8_lossy(alloc, writer.into_inner().as_slice())?)
}

/// Whether the script's report is the right one by so many workers, and whether the gate is passed, with so many rows.
fn run<R: Clock + Threads + Wait + Copy + Send + Sync + 'static>(
    rt: &R,
    alloc: Global,
    workers: usize,
    looks: u32,
    rows: u64,
) -> Result<(bool, bool), Fail>
    requires { workers ≤ 64 }
{
    let gate = Arc::new(alloc, Watch::new(*rt, looks, workers))?;
    let report = report_by(rt, alloc, workers, &gate)?;
    Ok((report.as_str() == REPORT, gate.is_passed(rows)))
}

/// One worker makes no rows: the calling thread makes the tables. Several make a row of each header of the first turn,
/// and none in the second turn, where the new header is added to the table. It fails after a million looks.
#[test]
fn workers_do_each_job_once(rt: HostRuntime) -> Result<(), Fail> {
    let alloc = rt.alloc();
    let given = [
        run(&rt, alloc, 1, 1_000_000, 0)?,
        run(&rt, alloc, 2, 1_000_000, FIRST_HEADERS)?,
        run(&rt, alloc, 8, 1_000_000, FIRST_HEADERS)?,
    ];
    assert!(rt; given == [(true, true); 3], "{given:?}");
    Ok(())
}

/// Without workers the report is the same, and the gate isn't passed.
#[test]
fn calling_thread_is_found_out(rt: HostRuntime) -> Result<(), Fail> {
    let given = run(&rt, rt.alloc(), 0, 100, 0)?;
    assert!(rt; given == (true, false), "{given:?}");
    Ok(())
}
