//! A gate that two workers pass.
use hc_lend::Gate;
use std::sync::atomic::{AtomicBool, Ordering};
use std::thread;

/// A gate at which worker 0 waits for worker 1, for at most 1,000,000 turns, and yields in each.
#[derive(Drop)]
pub struct WaitsForNext {
    begun: AtomicBool,
    seen: AtomicBool,
}

impl WaitsForNext {
    /// A gate at which neither worker has begun.
    pub fn shut() -> WaitsForNext {
        WaitsForNext {
            begun: AtomicBool::new(false),
            seen: AtomicBool::new(false),
        }
    }

    /// True if worker 0 saw that worker 1 has begun.
    pub fn has_seen(&self) -> bool {
        self.seen.load(Ordering::SeqCst)
    }
}

impl Gate for WaitsForNext {
    fn begun(&self, worker: usize) {
        if worker == 1 {
            self.begun.store(true, Ordering::SeqCst);
        }
        if worker != 0 {
            return;
        }
        for _ in 0..1_000_000 {
            if self.begun.load(Ordering::SeqCst) {
                self.seen.store(true, Ordering::SeqCst);
                return;
            }
            thread::yield_now();
        }
    }
}
