//! Workers, as their supervisor has them.
ghost use Rattle.std.specs.Prelude.{◌≤◌, length, IfOk};

use crate::desk::Desk;
use crate::inbox::Inbox;
use crate::order::Order;
use crate::worker::Worker;
use crossbeam_utils::sync::Parker;
use rb_base::{Gate, WorkItem};
use rb_wire::LaneFull;
use std::alloc::{AllocError, Global};
use std::sync::{Arc, Wait};
use std::thread::Threads;

/// Workers in threads of their own, each with a desk, and the gate that is called round each job. It
/// is not `Drop`: end it by `stop`. What they find is to be judged by who takes it in: no contract
/// says that it is there.
pub struct Team<G: Gate> {
    alloc: Global,
    workers: Vec<Worker>,
    gate: Arc<G, Global>,
    // what the supervisor sleeps on while nothing is found
    home: Parker,
}

/// Starts a worker for each desk.
fn start_workers<R, G>(
    rt: &R,
    alloc: Global,
    desks: Vec<Desk>,
    gate: &Arc<G, Global>,
    home: &Parker,
) -> Result<Vec<Worker>, AllocError>
where
    R: Threads + Wait + Copy + Send + 'static,
    G: Gate + Send + Sync + Drop + 'static,
    ensures { IfOk result (λ workers. length workers.items ≤ length desks.items) }
{
    let mut desks = desks;
    let count = desks.len();
    let mut workers = Vec::with_capacity(alloc, count)?;
    for _ in 0..count {
        let Some(desk) = desks.pop() else {
            break;
        };
        if let Some(worker) = Worker::start(rt, alloc, desk, gate, home) {
            workers.push_reserved(worker);
        }
    }
    Ok(workers)
}

impl<G: Gate> Team<G> {
    /// These workers, which wake the one that parks on `home` when they have found something. The gate is
    /// told of each plan that is taken from them.
    pub fn over(
        alloc: Global,
        workers: Vec<Worker>,
        gate: Arc<G, Global>,
        home: Parker,
    ) -> Team<G> {
        Team {
            alloc,
            workers,
            gate,
            home,
        }
    }

    /// Takes what was found into the inbox, looking at each worker once, and gives up the jobs of those that are
    /// gone and left nothing to be taken; whether a job may have come to an end.
    fn collect(&mut self, inbox: &mut Inbox) -> bool {
        let count = self.workers.len();
        let mut is_found = false;
        for (place, worker) in self.workers.iter_mut().enumerate() {
            let is_gone = worker.is_gone();
            let is_new = worker.collect(inbox, &*self.gate)
                || is_gone && inbox.give_up_jobs(place, count);
            is_found = is_new || is_found;
        }
        is_found
    }

    /// Takes what was found into the inbox; where nothing was, sleeps until something may be.
    fn wait<R: Wait>(&mut self, rt: &R, inbox: &mut Inbox) {
        if !self.collect(inbox) {
            self.home.park(rt);
        }
    }

    /// Sends an order to the worker whose job it is, if there is room for it: object k is the work of
    /// worker k modulo the number of workers. One that ends a worker, and one for a worker that is gone, is dropped.
    fn try_send(&mut self, order: Order) -> Result<(), LaneFull<Order>> {
        let count = self.workers.len();
        match order.object() {
            Some(object) if count > 0 => self.workers[object % count].order(order),
            _ => Ok(()),
        }
    }

    /// Sends an order, and takes in what was found while there is no room for it.
    fn send<R: Wait>(&mut self, rt: &R, order: Order, inbox: &mut Inbox) {
        let mut order = order;
        for _ in rt.forever() {
            match self.try_send(order) {
                Ok(()) => return,
                Err(LaneFull { item }) => order = item,
            }
            self.wait(rt, inbox);
        }
    }

    /// Gives out an order, but for one that ends a worker; what is found while there is no room for it goes
    /// into the inbox. Where there is no worker, nothing is ordered. An error comes only where a growth is refused;
    /// it is not ordered then.
    pub fn order<R: Wait>(
        &mut self,
        rt: &R,
        inbox: &mut Inbox,
        order: Order,
    ) -> Result<(), AllocError> {
        if !self.workers.is_empty() {
            inbox.expect(&order)?;
            self.send(rt, order, inbox);
        }
        Ok(())
    }

    /// Waits until the job of this name has come to an end, or its worker is gone. One that was not ordered is not waited
    /// for.
    pub fn wait_for<R: Wait>(&mut self, rt: &R, inbox: &mut Inbox, item: WorkItem) {
        for _ in rt.forever() {
            if !inbox.is_missing(item) {
                return;
            }
            self.wait(rt, inbox);
        }
    }

    /// Waits until each job that was ordered has come to an end, or its worker is gone. An error comes only where a growth
    /// was refused to a worker in one of them.
    pub fn finish<R: Wait>(&mut self, rt: &R, inbox: &mut Inbox) -> Result<(), AllocError> {
        for _ in rt.forever() {
            if inbox.is_whole() {
                break;
            }
            self.wait(rt, inbox);
        }
        if inbox.is_short() {
            return Err(AllocError);
        }
        Ok(())
    }
}

impl<G: Gate + Send + Sync + Drop + 'static> Team<G> {
    /// Starts a worker for each desk; fewer where no thread can be made or a growth is refused.
    pub fn start<R: Threads + Wait + Copy + Send + 'static>(
        rt: &R,
        alloc: Global,
        desks: Vec<Desk>,
        gate: &Arc<G, Global>,
    ) -> Result<Team<G>, AllocError> {
        let gate = Arc::try_clone(gate)?;
        let home = Parker::new(alloc)?;
        let workers = start_workers(rt, alloc, desks, &gate, &home)?;
        Ok(Team::over(alloc, workers, gate, home))
    }

    /// Tells the workers to end, and waits for that.
    pub fn stop<R: Threads + Wait>(self, rt: &R) {
        let Team {
            alloc: _,
            workers,
            gate: _gate,
            home: _home,
        } = self;
        for worker in workers {
            worker.stop(rt);
        }
    }
}
