//! The findings of workers, which wait until they are asked for.
ghost use Rattle.std.specs.Prelude.{◌≡◌, IfSome};
ghost use Rattle.rb_plan_client.specs.Draft.{IsDraft};

use crate::finding::Finding;
use crate::order::Order;
use crate::slots::Slots;
use rb_base::{Part, WorkItem};
use rb_core_model::Scan;
use rb_plan_client::Draft;
use std::alloc::{AllocError, Allocator, Global};

/// What was found of the jobs that were ordered. A second finding for a job, and one for a job that
/// was not ordered, is dropped.
#[derive(Drop)]
pub struct Inbox<A: Allocator = Global> {
    // of packets, and of channels: at k for path k
    packets: Slots<Scan<A>, A>,
    channels: Slots<Scan<A>, A>,
    // at k for client k
    plans: Slots<Draft<A>, A>,
    missing: usize,
    is_short: bool,
}

impl<A: Allocator + Copy> Inbox<A> {
    /// Nothing is ordered.
    pub fn new(alloc: A) -> Inbox<A> {
        Inbox {
            packets: Slots::new(alloc),
            channels: Slots::new(alloc),
            plans: Slots::new(alloc),
            missing: 0,
            is_short: false,
        }
    }
}

impl<A: Allocator> Inbox<A> {
    /// The scans of one part, by their paths.
    fn scans(&mut self, part: Part) -> &mut Slots<Scan<A>, A> {
        match part {
            Part::Packets => &mut self.packets,
            Part::Channel => &mut self.channels,
        }
    }

    /// The job of the order is ordered.
    pub(crate) fn expect(&mut self, order: &Order<A>) -> Result<(), AllocError> {
        let is_new = match order {
            Order::Scan { path, part, .. } => self.scans(*part).expect(*path)?,
            Order::Plan { client, .. } => self.plans.expect(*client)?,
            Order::Stop => false,
        };
        self.missing = self.missing.saturating_add(usize::from(is_new));
        Ok(())
    }

    /// The job of this name was not done; tells whether it was ordered, and had not come to an end.
    fn give_up(&mut self, item: WorkItem) -> bool {
        match item {
            WorkItem::Scan(path, part) => self.scans(part).fill(path, None),
            WorkItem::Plan(client) => self.plans.fill(client, None),
            WorkItem::Row(_) | WorkItem::Taken(_) => false,
        }
    }

    /// The jobs of one of so many workers that haven't come to an end were not done; tells whether there was one.
    pub(crate) fn give_up_jobs(&mut self, worker: usize, workers: usize) -> bool {
        let scans = self.packets.give_up(worker, workers);
        let channels = self.channels.give_up(worker, workers);
        let plans = self.plans.give_up(worker, workers);
        let count = scans.saturating_add(channels).saturating_add(plans);
        self.missing = self.missing.saturating_sub(count);
        count > 0
    }

    /// Holds what was found.
    pub(crate) fn put(&mut self, finding: Finding<A>) {
        let was_ordered = match finding {
            Finding::Scanned { path, scan } => {
                let part = scan.part();
                self.scans(part).fill(path, Some(scan))
            }
            Finding::Planned(draft) => {
                let client = draft.job().client();
                self.plans.fill(client, Some(draft))
            }
            Finding::Unseen(item) => self.give_up(item),
            Finding::Short(item) => {
                let was_ordered = self.give_up(item);
                self.is_short = self.is_short || was_ordered;
                was_ordered
            }
        };
        self.missing = self.missing.saturating_sub(usize::from(was_ordered));
    }

    /// Whether the job of this name was ordered, and has not come to an end.
    pub(crate) fn is_missing(&self, item: WorkItem) -> bool {
        match item {
            WorkItem::Scan(path, Part::Packets) => self.packets.is_missing(path),
            WorkItem::Scan(path, Part::Channel) => self.channels.is_missing(path),
            WorkItem::Plan(client) => self.plans.is_missing(client),
            WorkItem::Row(_) | WorkItem::Taken(_) => false,
        }
    }

    /// Whether all that was ordered has come to an end.
    pub(crate) fn is_whole(&self) -> bool {
        self.missing == 0
    }

    /// Whether a growth was refused in a job.
    pub(crate) fn is_short(&self) -> bool {
        self.is_short
    }

    /// Takes the scan of a part of a path, if it was found.
    pub fn take_scan(&mut self, path: usize, part: Part) -> Option<Scan<A>>
        ensures { IfSome result (λ scan. scan.part ≡ part) }
    {
        let scan = self.scans(part).take(path)?;
        if scan.part() == part {
            Some(scan)
        } else {
            None
        }
    }

    /// Takes what is planned for a client, if it was found.
    pub fn take_draft(&mut self, client: usize) -> Option<Draft<A>>
        ensures client { IfSome result (λ draft. draft.job.client ≡ client) }
        ensures right { IfSome result IsDraft }
    {
        let draft = self.plans.take(client)?;
        draft.answer();
        if draft.job().client() == client {
            Some(draft)
        } else {
            None
        }
    }
}
