//! A worker in a thread of its own, as its supervisor has it.
use crate::desk::Desk;
use crate::finding::{Finding, Findings};
use crate::inbox::Inbox;
use crate::order::{Order, Orders};
use crate::working::worker_loop;
use crossbeam_utils::sync::{Parker, Unparker};
use rb_base::{Gate, WorkItem};
use rb_wire::{LaneFull, Rx, Tx, lane};
use std::alloc::Global;
use std::sync::{Arc, Wait};
use std::thread;
use std::thread::{JoinHandle, Threads};

/// How many orders may lie in a lane.
const ORDERS: usize = 256;

/// How many findings may lie in a lane: more than a worker can find after its last order, so that it
/// comes to its end when they are no longer taken.
const FINDINGS: usize = 512;

/// The supervisor's ends of the lanes to a worker, what wakes it, and its thread.
#[derive(Drop)]
pub struct Worker {
    orders: Tx<Order>,
    findings: Rx<Finding>,
    unparker: Unparker,
    thread: JoinHandle<()>,
}

impl Worker {
    /// A worker in this thread, at the other ends of these lanes, which is woken so. What it does is the
    /// caller's matter; it has to end when it is told to. Where it ends before, it lets its ends go and wakes
    /// its team, as `Findings` does.
    pub fn over(
        orders: Tx<Order>,
        findings: Rx<Finding>,
        unparker: Unparker,
        thread: JoinHandle<()>,
    ) -> Worker {
        Worker {
            orders,
            findings,
            unparker,
            thread,
        }
    }

    /// Starts a worker, which wakes the one that parks on `home` when it has found something; none
    /// where no thread can be made or a growth is refused.
    pub(crate) fn start<R, G>(
        rt: &R,
        alloc: Global,
        desk: Desk,
        gate: &Arc<G, Global>,
        home: &Parker,
    ) -> Option<Worker>
    where
        R: Threads + Wait + Copy + Send + 'static,
        G: Gate + Send + Sync + Drop + 'static,
    {
        let (orders, ordered) = lane(alloc, ORDERS).ok()?;
        let (found, findings) = lane(alloc, FINDINGS).ok()?;
        let parker = Parker::new(alloc).ok()?;
        let unparker = parker.unparker().clone().ok()?;
        let gate = Arc::try_clone(gate).ok()?;
        let orders_to_do = Orders {
            lane: ordered,
            parker,
        };
        let findings_to_hand_over = Findings {
            lane: found,
            unparker: home.unparker().clone().ok()?,
        };
        let runtime = *rt;
        let thread = thread::spawn(
            rt,
            move || worker_loop(
                &runtime,
                alloc,
                desk,
                orders_to_do,
                findings_to_hand_over,
                &*gate,
            ),
        )
        .ok()?;
        Some(Worker::over(orders, findings, unparker, thread))
    }

    /// Whether it has let its end of the findings' lane go: it finds nothing more.
    pub(crate) fn is_gone(&mut self) -> bool {
        self.findings.is_abandoned()
    }

    /// Sends an order, where there is room for it, and wakes the worker. One for a worker that is gone is dropped.
    pub(crate) fn order(&mut self, order: Order) -> Result<(), LaneFull<Order>> {
        if self.is_gone() {
            return Ok(());
        }
        self.orders.push(order)?;
        self.unparker.unpark();
        Ok(())
    }

    /// Takes what was found into the inbox, and tells the gate of each client's; whether there was
    /// something.
    pub(crate) fn collect<G: Gate>(&mut self, inbox: &mut Inbox, gate: &G) -> bool {
        let mut is_found = false;
        for _ in 0..FINDINGS {
            let Some(finding) = self.findings.pop() else {
                break;
            };
            is_found = true;
            if let Finding::Planned(draft) = &finding {
                gate.after(WorkItem::Taken(draft.job().client()));
            }
            inbox.put(finding);
        }
        is_found
    }

    /// Drops what was found.
    fn clear(&mut self) {
        for _ in 0..FINDINGS {
            if self.findings.pop().is_none() {
                return;
            }
        }
    }

    /// Tells the worker to end; what it has found is dropped.
    fn tell_end<R: Wait>(&mut self, rt: &R) {
        for _ in rt.forever() {
            let is_told = self.order(Order::Stop).is_ok();
            self.clear();
            if is_told {
                return;
            }
            thread::yield_now();
        }
    }

    /// Tells the worker to end, and waits for that.
    pub(crate) fn stop<R: Threads + Wait>(self, rt: &R) {
        let mut worker = self;
        worker.tell_end(rt);
        let Worker { thread, .. } = worker;
        thread.join(rt);
    }
}
