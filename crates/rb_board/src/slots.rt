//! What is there of jobs of one kind.
use std::alloc::{AllocError, Allocator, Global};
use std::mem;

/// What is there of a job.
#[derive(Drop)]
enum Slot<T> {
    /// It was not ordered, or it was not done, or what was found was taken.
    Empty,
    /// It was ordered.
    Ordered,
    /// It was done.
    Found(T),
}

/// What is there of jobs, by their places.
#[derive(Drop)]
pub(crate) struct Slots<T: Drop, A: Allocator = Global> {
    slots: Vec<Slot<T>, A>,
}

fn is_ordered<T>(slot: &Slot<T>) -> bool {
    match slot {
        Slot::Ordered => true,
        Slot::Empty | Slot::Found(_) => false,
    }
}

impl<T: Drop, A: Allocator> Slots<T, A> {
    /// Nothing is ordered.
    pub(crate) fn new(alloc: A) -> Slots<T, A> {
        Slots {
            slots: Vec::new(alloc),
        }
    }

    /// The job of this place was ordered; tells whether it had not been before.
    pub(crate) fn expect(&mut self, place: usize) -> Result<bool, AllocError> {
        for _ in self.slots.len()..place.saturating_add(1) {
            self.slots.push(Slot::Empty)?;
        }
        match self.slots.get_mut(place) {
            Some(slot) if !is_ordered(slot) => {
                *slot = Slot::Ordered;
                Ok(true)
            }
            _ => Ok(false),
        }
    }

    /// Whether the job of this place was ordered, and has not come to an end.
    pub(crate) fn is_missing(&self, place: usize) -> bool {
        self.slots.get(place).is_some_and(is_ordered)
    }

    /// The job of this place has come to an end, with what was found, if it was done; tells whether
    /// it was ordered, and had not come to an end before. Else this changes nothing.
    pub(crate) fn fill(&mut self, place: usize, found: Option<T>) -> bool {
        match self.slots.get_mut(place) {
            Some(slot) if is_ordered(slot) => {
                *slot = match found {
                    Some(found) => Slot::Found(found),
                    None => Slot::Empty,
                };
                true
            }
            _ => false,
        }
    }

    /// The jobs of each `workers`th place from `worker` on that haven't come to an end were not done; tells how
    /// many they are.
    pub(crate) fn give_up(&mut self, worker: usize, workers: usize) -> usize {
        let mut count: usize = 0;
        for place in 0..self.slots.len() {
            if place.checked_rem(workers) == Some(worker) && self.fill(place, None) {
                count = count.saturating_add(1);
            }
        }
        count
    }

    /// Takes what was found at a place, if something was.
    pub(crate) fn take(&mut self, place: usize) -> Option<T> {
        let slot = self.slots.get_mut(place)?;
        match mem::replace(slot, Slot::Empty) {
            Slot::Found(found) => Some(found),
            Slot::Empty | Slot::Ordered => None,
        }
    }
}
