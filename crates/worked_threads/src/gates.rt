//! Gates that workers and the threads of segments pass.
use hc_lend::Gate;
use std::sync::atomic::{AtomicBool, AtomicU64, Ordering};
use std::thread;

/// A gate that lets every worker pass.
#[derive(Drop)]
pub struct Open;

impl Gate for Open {
    fn begun(&self, _worker: usize) {}
}

/// A gate that holds the worker `holder` until the worker `other` has begun, for at most 1,000,000 turns. The worker yields in
/// each.
#[derive(Drop)]
pub struct Holds {
    holder: usize,
    other: usize,
    other_has_begun: AtomicBool,
    other_was_seen: AtomicBool,
}

impl Holds {
    /// A gate that holds one worker for another.
    pub fn of(holder: usize, other: usize) -> Holds {
        Holds {
            holder,
            other,
            other_has_begun: AtomicBool::new(false),
            other_was_seen: AtomicBool::new(false),
        }
    }

    /// True if the holder saw that the other one has begun.
    pub fn has_seen(&self) -> bool {
        self.other_was_seen.load(Ordering::SeqCst)
    }
}

impl Gate for Holds {
    fn begun(&self, worker: usize) {
        if worker == self.other {
            self.other_has_begun.store(true, Ordering::SeqCst);
        }
        if worker != self.holder {
            return;
        }
        for _ in 0..1_000_000 {
            if self.other_has_begun.load(Ordering::SeqCst) {
                self.other_was_seen.store(true, Ordering::SeqCst);
                return;
            }
            thread::yield_now();
        }
    }
}

/// A gate that holds each worker until all have begun, for at most 1,000,000 turns. The worker yields in each.
#[derive(Drop)]
pub struct Meets {
    workers: u64,
    begun: AtomicU64,
    met: AtomicU64,
}

impl Meets {
    /// Returns a gate at which `workers` workers meet.
    pub fn of(workers: u64) -> Meets {
        Meets {
            workers,
            begun: AtomicU64::new(0),
            met: AtomicU64::new(0),
        }
    }

    /// The number of workers that saw that all had begun.
    pub fn met(&self) -> u64 {
        self.met.load(Ordering::SeqCst)
    }
}

impl Gate for Meets {
    fn begun(&self, _worker: usize) {
        self.begun.fetch_add(1, Ordering::SeqCst);
        for _ in 0..1_000_000 {
            if self.begun.load(Ordering::SeqCst) == self.workers {
                self.met.fetch_add(1, Ordering::SeqCst);
                return;
            }
            thread::yield_now();
        }
    }
}

/// A gate that counts how often each of eight workers has begun.
#[derive(Drop)]
pub struct Counts {
    begun: [AtomicU64; 8],
}

impl Counts {
    /// A gate at which no worker has begun.
    pub fn of_none() -> Counts {
        Counts {
            begun: [
                AtomicU64::new(0),
                AtomicU64::new(0),
                AtomicU64::new(0),
                AtomicU64::new(0),
                AtomicU64::new(0),
                AtomicU64::new(0),
                AtomicU64::new(0),
                AtomicU64::new(0),
            ],
        }
    }

    /// True if a worker has begun exactly once.
    pub fn is_once(&self, worker: usize) -> bool {
        match self.begun.get(worker) {
            Some(count) => count.load(Ordering::SeqCst) == 1,
            None => false,
        }
    }

    /// The number of times that each of the eight has begun.
    pub fn counts(&self) -> [u64; 8] {
        let mut counts = [0; 8];
        for (to, from) in counts.iter_mut().zip(&self.begun) {
            *to = from.load(Ordering::SeqCst);
        }
        counts
    }
}

impl Gate for Counts {
    fn begun(&self, worker: usize) {
        if let Some(count) = self.begun.get(worker) {
            count.fetch_add(1, Ordering::SeqCst);
        }
    }
}
