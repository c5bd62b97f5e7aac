//! Drafts: jobs with what is planned for them.
ghost use Rattle.std.specs.Prelude.{◌≡◌, IfOk};
ghost use Rattle.std.specs.Option.{option_copied};
ghost use Rattle.rb_plan_client.specs.Draft.{IsAnswer, IsDraft, planned_updates};
ghost use Rattle.rb_plan_client.specs.Next.{IsNext};

use crate::job::JobView;
use crate::planned::Planned;
use rb_base::Moment;
use std::alloc::{AllocError, Allocator, Global};
use std::marker::Model;

/// A job with what is planned for it, None where the client has no goal, and the moment at which the client
/// has a goal next, by what is known and once that is taken. Both are right for that job, however the draft
/// came to be: a relayer that accepts it needs only to compare the job with the client as it is by then.
#[derive(Drop)]
pub struct Draft<A: Allocator = Global> {
    // apart, since drafts are handed on by value among much smaller events
    parts: Box<Parts<A>, A>,
}

/// What a draft is made of.
#[derive(Drop)]
struct Parts<A: Allocator> {
    job: JobView<A>,
    answer: Option<Planned<A>>,
    next: Option<Moment>,
}

impl<A: Allocator> Model for Draft<A> {
    ghost use Rattle.rb_plan_client.specs.Draft as drafts;

    ghost Value = { drafts.Draft };

    ghost view = { λ d. record { job = d.parts.value.job; answer = d.parts.value.answer; next = d.parts.value.next } };

    ghost invariant = { λ d. drafts.IsDraft (record { job = d.parts.value.job; answer = d.parts.value.answer; next = d.parts.value.next }) };
}

impl<A: Allocator> Draft<A> {
    /// The draft of a job, of an answer that is right for it, and of the moment at which its client has a
    /// goal next.
    pub fn new(
        alloc: A,
        job: JobView<A>,
        answer: Option<Planned<A>>,
        next: Option<Moment>,
    ) -> Result<Draft<A>, AllocError>
        requires answer { IsAnswer job.task answer }
        requires next { IsNext job.task (planned_updates answer) next }
        ensures { IfOk result (λ draft. draft ≡ record { job = job; answer = answer; next = next }) }
    {
        let parts = Box::new(alloc, Parts { job, answer, next })?;
        Ok(Draft { parts })
    }

    /// The job that the draft was made for.
    pub fn job(&self) -> &JobView<A>
        ensures { result.now ≡ self.now.job }
    {
        &self.parts.job
    }

    /// What is planned for the job, and right for it; None where the client has no goal.
    pub fn answer(&self) -> Option<&Planned<A>>
        ensures value { option_copied result ≡ self.now.answer }
        ensures right { IsDraft self.now }
    {
        self.parts.answer.as_ref()
    }

    /// The moment at which the client has a goal next; None where nothing that is known gives it one.
    pub fn next(&self) -> Option<Moment>
        ensures { result ≡ self.now.next }
    {
        self.parts.next
    }

    /// The job, what is planned for it, and when its client has a goal next.
    pub fn into_parts(self) -> (JobView<A>, Option<Planned<A>>, Option<Moment>)
        ensures job { result.0 ≡ self.job }
        ensures answer { result.1 ≡ self.answer }
        ensures next { result.2 ≡ self.next }
        ensures right { IsDraft self }
    {
        let Parts { job, answer, next } = Box::into_inner(self.parts);
        (job, answer, next)
    }
}

impl<A: Allocator + Copy> Draft<A> {
    /// An equal draft, on the same allocator, with one more owner of the job's book. `AllocError` where
    /// memory is refused, or the book has as many owners as can be counted.
    pub fn copy(&self) -> Result<Draft<A>, AllocError>
        ensures { IfOk result (λ copy. copy ≡ self.now) }
    {
        let job = self.parts.job.copy()?;
        let answer = copy_answer(self.parts.answer.as_ref())?;
        let next = self.parts.next;
        let parts = Box::new(*Box::allocator(&self.parts), Parts { job, answer, next })?;
        Ok(Draft { parts })
    }
}

/// An equal answer; None of None. `AllocError` where the copy is refused memory.
pub fn copy_answer<A: Allocator + Copy>(
    answer: Option<&Planned<A>>,
) -> Result<Option<Planned<A>>, AllocError>
    ensures { IfOk result (λ copy. copy ≡ option_copied answer.entry) }
{
    Ok(match answer {
        Some(answer) => Some(answer.copy()?),
        None => None,
    })
}
