//! How many workers a script has.
ghost use Rattle.std.specs.Prelude.{◌≤◌};

/// A number of workers in threads of their own, up to 64.
#[derive(Clone, Copy)]
pub struct WorkerCount {
    count: usize,
    ghost bound: { count ≤ 64 },
}

impl WorkerCount {
    /// None: the calling thread does all.
    pub fn none() -> WorkerCount {
        WorkerCount { count: 0 }
    }

    /// So many workers, if they are from 1 to 64.
    pub fn new(count: usize) -> Option<WorkerCount> {
        if (1..=64).contains(&count) {
            Some(WorkerCount { count })
        } else {
            None
        }
    }

    /// How many they are.
    pub fn count(&self) -> usize
        ensures { result ≤ 64 }
    {
        self.count
    }
}
