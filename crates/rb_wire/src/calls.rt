//! What the ends of a lane do.
ghost use Rattle.std.specs.Prelude.{◌≡◌, ◌≤◌, ◌<◌, ◌+◌, [], ◌∷◌, ◌++◌, length, IfOk, IfErr, IfSome, IfNone, IsSome, IsOk, OnOk, OnErr, MatchOption};
ghost use mathlib.Core.List.{IsPrefix};
ghost use Rattle.rb_wire.specs.Lane.{sent_on, capacity_of, free_on, taken_on, seen_on, sent_in_all, max_capacity, IsLane, SameTx, SameRx, IsTokenOf, IsTokenFrom};

use crate::ends::{Finished, Rx, Tx};
use crate::refusal::{LaneFull, NoMemory};
use rtrb::{PushError, RingBuffer};
use std::alloc::{AllocError, Allocator};

/// A lane with room for so many items, from 1 to 1,024, and nothing in it. All the memory that
/// pushing and popping need is taken here: an error says that it was refused.
pub fn lane<T: Drop, A: Allocator + Copy>(
    alloc: A,
    capacity: usize,
) -> Result<(Tx<T, A>, Rx<T, A>), AllocError>
    requires some { 1 ≤ capacity }
    requires few { capacity ≤ max_capacity }
    ensures lane { IfOk result (λ ends. IsLane ends.0 ends.1) }
    ensures sent { IfOk result (λ ends. sent_on ends.0 ≡ []) }
    ensures taken { IfOk result (λ ends. (taken_on ends.1 ≡ []) × (seen_on ends.1 ≡ [])) }
    ensures capacity { IfOk result (λ ends. (capacity_of ends.0 ≡ capacity) × (free_on ends.0 ≡ capacity)) }
{
    let (producer, consumer) = RingBuffer::new(alloc, capacity)?;
    Ok((Tx { producer }, Rx { consumer, alloc }))
}

impl<T: Drop, A: Allocator> Tx<T, A> {
    /// Sends the item. 901 LaneFull hands the item back, and the lane is then as it was: only where
    /// this end knows of no free slot, and so never while fewer items than the capacity were sent.
    /// Takes no memory, and doesn't wait.
    pub fn push(&mut self, item: T) -> Result<(), LaneFull<T>>
        ensures lane { SameTx self.old self.new }
        ensures sent { OnOk result (sent_on self.new ≡ sent_on self.old ++ item ∷ []) }
        ensures room { 0 < free_on self.old → IsOk result }
        ensures used { OnOk result (free_on self.old ≤ free_on self.new + 1) }
        ensures back { IfErr result (λ refusal. refusal.item ≡ item) }
        ensures unchanged { IfErr result (λ _. sent_on self.new ≡ sent_on self.old) }
        ensures none_free { OnErr result (free_on self.new ≡ 0) }
        ensures full { IfErr result (λ _. capacity_of self.old ≤ length (sent_on self.old)) }
    {
        match self.producer.push(item) {
            Ok(()) => Ok(()),
            Err(PushError::Full(item)) => Err(LaneFull { item }),
        }
    }

    /// Ends the sending. The token shows all that was sent; there is none where no mark can be left for
    /// the other end, as where that is gone. Takes no memory, and doesn't wait.
    pub fn finish(self) -> Option<Finished<T, A>>
        ensures { IfSome result (λ token. IsTokenFrom self token) }
    {
        let Tx { producer } = self;
        let mark = producer.finish()?;
        Some(Finished { mark })
    }
}

impl<T: Drop, A: Allocator + Copy> Rx<T, A> {
    /// Takes the oldest item that this end can see, None where it sees none. Takes no memory, and
    /// doesn't wait.
    pub fn pop(&mut self) -> Option<T>
        ensures lane { SameRx self.old self.new }
        ensures taken { MatchOption result (taken_on self.new ≡ taken_on self.old)
            (λ item. taken_on self.new ≡ taken_on self.old ++ item ∷ []) }
        ensures oldest { IfSome result (λ item. IsPrefix (seen_on self.old) (item ∷ seen_on self.new)) }
        ensures none { IfNone result (seen_on self.new ≡ []) }
        ensures some { 0 < length (seen_on self.old) → IsSome result }
    {
        self.consumer.pop().ok()
    }

    /// Whether the other end is gone: what it sent before may still be there, and nothing more comes.
    /// No contract speaks of the answer. Takes no memory, and doesn't wait.
    pub fn is_abandoned(&mut self) -> bool
        ensures lane { SameRx self.old self.new }
        ensures taken { taken_on self.new ≡ taken_on self.old }
        ensures seen { IsPrefix (seen_on self.old) (seen_on self.new) }
    {
        self.consumer.is_abandoned()
    }

    /// What is left once the other end has finished, as its token shows: what was taken before,
    /// followed by this, is what was sent, in its order, whole and once. NoMemory hands the end and
    /// the token back, as they were.
    pub fn finished(self, token: Finished<T, A>) -> Result<Vec<T, A>, NoMemory<T, A>>
        requires { IsTokenOf token self }
        ensures left { IfOk result (λ left. taken_on self ++ left.items ≡ sent_in_all token) }
        ensures back { IfErr result (λ refusal. IsTokenOf refusal.token refusal.end) }
        ensures taken { IfErr result (λ refusal. taken_on refusal.end ≡ taken_on self) }
        ensures sent { IfErr result (λ refusal. sent_in_all refusal.token ≡ sent_in_all token) }
    {
        let Rx {
            mut consumer,
            alloc,
        } = self;
        let Finished { mut mark } = token;
        let count = consumer.slots_after(&mut mark);
        let Ok(mut left) = Vec::with_capacity(alloc, count) else {
            return Err(NoMemory {
                end: Rx { consumer, alloc },
                token: Finished { mark },
            });
        };
        for _ in 0..count {
            left.push_reserved(consumer.pop_known());
        }
        Ok(left)
    }
}
