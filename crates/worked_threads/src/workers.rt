//! Workers run at once, and each calls the gate once, before its work. No contract states this.
use crate::gates::{Counts, Holds, Meets};
use crate::parts::Stamp;
use hc_lend::{Gate, PartWork, Parts, each_at_once};
use std::sync::atomic::{AtomicU64, Ordering};
use std::thread::Threads;

/// True if a worker that is held for another one sees it, and both parts are worked on.
fn sees<R: Threads + Sync>(rt: &R, holder: usize, other: usize) -> bool {
    let gate = Holds::of(holder, other);
    let mut bytes = [0; 4];
    each_at_once(rt, Parts::of(&mut bytes, &[1, 3]), &Stamp, &gate);
    gate.has_seen() && bytes == [1, 2, 2, 2]
}

/// The wrong body, for two parts, which works on them in turn. Returns true if the first worker saw the second, and the bytes.
fn seen_in_turn() -> (bool, [u8; 4]) {
    let gate = Holds::of(0, 1);
    let mut bytes = [0; 4];
    let (first, rest) = Parts::of(&mut bytes, &[1, 3]).take();
    gate.begun(0);
    Stamp.work(0, first);
    let (second, _) = rest.take();
    gate.begun(1);
    Stamp.work(1, second);
    (gate.has_seen(), bytes)
}

/// A body that works on the parts one after another meets every contract. The gate shows it: whichever part comes first,
/// one of the two workers is held in vain. Each of eight workers meets all others.
#[test]
fn workers_run_at_once(rt: HostRuntime) {
    let are_seen = [sees(&rt, 0, 1), sees(&rt, 1, 0)];
    assert_eq!(rt;
        (are_seen, seen_in_turn()),
        ([true; 2], (false, [1, 2, 2, 2]))
    );
    let gate = Meets::of(8);
    let mut bytes = [0; 9];
    each_at_once(
        &rt,
        Parts::of(&mut bytes, &[1, 1, 2, 1, 0, 1, 1, 2]),
        &Stamp,
        &gate,
    );
    assert_eq!(rt; (gate.met(), bytes), (8, [1, 2, 3, 3, 4, 6, 7, 8, 8]));
}

/// Counts the parts whose worker had begun once when their work came.
#[derive(Drop)]
struct AfterGate<'a> {
    gate: &'a Counts,
    parts: AtomicU64,
}

impl PartWork for AfterGate<'_> {
    ghost leaves = { λ after part bytes. bytes };

    fn work(&self, part: usize, _bytes: &mut [u8]) {
        if self.gate.is_once(part) {
            self.parts.fetch_add(1, Ordering::SeqCst);
        }
    }
}

/// Each of eight workers calls the gate once, and before its work.
#[test]
fn each_worker_begins_once_and_before_its_work(rt: HostRuntime) {
    let gate = Counts::of_none();
    let work = AfterGate {
        gate: &gate,
        parts: AtomicU64::new(0),
    };
    let mut bytes = [5; 8];
    each_at_once(
        &rt,
        Parts::of(&mut bytes, &[1, 1, 0, 2, 1, 1, 1, 1]),
        &work,
        &gate,
    );
    let parts = work.parts.load(Ordering::SeqCst);
    assert_eq!(rt; (parts, gate.counts(), bytes), (8, [1; 8], [5; 8]));
}
