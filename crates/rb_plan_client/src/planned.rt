//! What is planned for a client.
ghost use Rattle.std.specs.Prelude.{◌≡◌, IfOk};
ghost use Rattle.std.specs.Option.{option_map, option_copied};
ghost use Rattle.rb_plan_client.specs.Sent.{sending_view};

use crate::batch::Sending;
use crate::message::Message;
use rb_plan_types::{Labelling, Update};
use rb_script_types::Goal;
use std::alloc::{AllocError, Allocator, Global};
use std::marker::Model;

impl<A: Allocator + Copy> Sending<A> {
    /// An equal value, on the same allocator. `AllocError` where the copy is refused memory.
    pub fn copy(&self) -> Result<Sending<A>, AllocError>
        ensures { IfOk result (λ copy. sending_view copy ≡ sending_view self.now) }
    {
        Ok(match self {
            Sending::Nothing => Sending::Nothing,
            Sending::TooBig(index) => Sending::TooBig(*index),
            Sending::Batched(batch) => Sending::Batched(batch.copy()?),
        })
    }
}

/// A plan: the least list of updates that meets a goal, the packet messages that follow them, and in
/// which transactions both are sent.
#[derive(Drop)]
pub struct Plan<A: Allocator = Global> {
    updates: Vec<Update, A>,
    messages: Vec<Message, A>,
    sending: Sending<A>,
}

impl<A: Allocator> Model for Plan<A> {
    ghost use Rattle.rb_plan_client.specs.Draft as drafts;
    ghost use Rattle.rb_plan_client.specs.Sent.{sending_view};

    ghost Value = { drafts.Plan };

    ghost view = { λ p. record { updates = p.updates.items; messages = p.messages.items; sending = sending_view p.sending } };
}

impl<A: Allocator> Plan<A> {
    /// The plan of these updates and messages, sent so.
    pub fn new(updates: Vec<Update, A>, messages: Vec<Message, A>, sending: Sending<A>) -> Plan<A>
        ensures { result ≡ record { updates = updates.items; messages = messages.items; sending = sending_view sending } }
    {
        Plan {
            updates,
            messages,
            sending,
        }
    }

    /// The updates, in the order in which the client is to take them.
    pub fn updates(&self) -> &[Update]
        ensures { result.now ≡ self.now.updates }
    {
        self.updates.as_slice()
    }

    /// The packet messages, which follow the updates.
    pub fn messages(&self) -> &[Message]
        ensures { result.now ≡ self.now.messages }
    {
        self.messages.as_slice()
    }

    /// In which transactions the updates and the messages are sent.
    pub fn sending(&self) -> &Sending<A>
        ensures { sending_view result.now ≡ self.now.sending }
    {
        &self.sending
    }

    /// The updates, the packet messages, and in which transactions they are sent.
    pub fn into_parts(self) -> (Vec<Update, A>, Vec<Message, A>, Sending<A>)
        ensures updates { result.0.items ≡ self.updates }
        ensures messages { result.1.items ≡ self.messages }
        ensures sending { sending_view result.2 ≡ self.sending }
    {
        (self.updates, self.messages, self.sending)
    }
}

impl<A: Allocator + Copy> Plan<A> {
    /// An equal plan, on the same allocator. `AllocError` where the copy is refused memory.
    pub fn copy(&self) -> Result<Plan<A>, AllocError>
        ensures { IfOk result (λ copy. copy ≡ self.now) }
    {
        let alloc = *self.updates.allocator();
        Ok(Plan {
            updates: Vec::from_slice(alloc, self.updates.as_slice())?,
            messages: Vec::from_slice(alloc, self.messages.as_slice())?,
            sending: self.sending.copy()?,
        })
    }
}

/// What is planned for a client that has a goal: the goal, the exact labelling (the least cost of each
/// height that the client can be brought to), and the plan; None where no acceptable list of updates
/// meets the goal.
#[derive(Drop)]
pub struct Planned<A: Allocator = Global> {
    goal: Goal,
    labelling: Labelling<A>,
    plan: Option<Plan<A>>,
}

impl<A: Allocator> Model for Planned<A> {
    ghost use Rattle.rb_plan_client.specs.Draft as drafts;

    ghost Value = { drafts.Planned };

    ghost view = { λ p. record { goal = p.goal; labels = p.labelling; plan = p.plan } };
}

impl<A: Allocator> Planned<A> {
    /// What is planned for a goal, by the exact labelling.
    pub fn new(goal: Goal, labelling: Labelling<A>, plan: Option<Plan<A>>) -> Planned<A>
        ensures { result ≡ record { goal = goal; labels = labelling; plan = plan } }
    {
        Planned {
            goal,
            labelling,
            plan,
        }
    }

    /// The goal: the one that was asked for, else the height that proves all ready packet messages,
    /// else the one that refreshes the client.
    pub fn goal(&self) -> Goal
        ensures { result ≡ self.now.goal }
    {
        self.goal
    }

    /// The exact labelling: each height that the client can be brought to in its window, with the
    /// least cost of the updates that bring it there.
    pub fn labelling(&self) -> &Labelling<A>
        ensures { result.now ≡ self.now.labels }
    {
        &self.labelling
    }

    /// The plan; None where no acceptable list of updates meets the goal.
    pub fn plan(&self) -> Option<&Plan<A>>
        ensures { option_copied result ≡ self.now.plan }
    {
        self.plan.as_ref()
    }

    /// The plan alone; None where no acceptable list of updates meets the goal.
    pub fn into_plan(self) -> Option<Plan<A>>
        ensures { result ≡ self.plan }
    {
        self.plan
    }
}

impl<A: Allocator + Copy> Planned<A> {
    /// An equal value, on the same allocator. `AllocError` where the copy is refused memory.
    pub fn copy(&self) -> Result<Planned<A>, AllocError>
        ensures { IfOk result (λ copy. copy ≡ self.now) }
    {
        let plan = match &self.plan {
            Some(plan) => Some(plan.copy()?),
            None => None,
        };
        Ok(Planned {
            goal: self.goal,
            labelling: self.labelling.copy()?,
            plan,
        })
    }
}
