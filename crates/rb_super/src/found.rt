//! What workers find, where they are told to look.
use rb_base::{Gate, Part, WorkItem};
use rb_board::{Inbox, Order, Team};
use rb_core_model::Scan;
use rb_plan_client::Draft;
use rb_super_turn::Found;
use std::alloc::{AllocError, Global};
use std::sync::Wait;

/// What workers find of the jobs that they were told to do. Who asks for it waits until that job has come to
/// an end, and no longer: the workers go on with the others. It is not `Drop`, as the team isn't: end it
/// by `finish`.
pub(crate) struct FoundByWorkers<'a, R, G: Gate> {
    pub(crate) rt: &'a R,
    pub(crate) team: Team<G>,
    pub(crate) inbox: Inbox,
}

impl<'a, R: Wait, G: Gate> FoundByWorkers<'a, R, G> {
    /// Tells a worker to do a job.
    pub(crate) fn order(&mut self, order: Order) -> Result<(), AllocError> {
        self.team.order(self.rt, &mut self.inbox, order)
    }

    /// Waits until each job has come to an end; gives the team back. An error comes only where a growth was refused
    /// to a worker in one of the jobs.
    pub(crate) fn finish(self) -> (Team<G>, Result<(), AllocError>) {
        let FoundByWorkers {
            rt,
            mut team,
            mut inbox,
        } = self;
        let finished = team.finish(rt, &mut inbox);
        (team, finished)
    }
}

impl<'a, R: Wait, G: Gate> Found<Global> for FoundByWorkers<'a, R, G> {
    fn take_scan(&mut self, path: usize, part: Part) -> Option<Scan> {
        self.team
            .wait_for(self.rt, &mut self.inbox, WorkItem::Scan(path, part));
        self.inbox.take_scan(path, part)
    }

    fn take_draft(&mut self, client: usize) -> Option<Draft> {
        self.team
            .wait_for(self.rt, &mut self.inbox, WorkItem::Plan(client));
        self.inbox.take_draft(client)
    }
}
