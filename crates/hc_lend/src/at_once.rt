//! Work on all parts of a slice at once, with one worker for each. A caller that fills bytes for several tasks gives each task
//! its part, and states the result of the work there.
ghost use Rattle.std.specs.Prelude.{◌≡◌, ◌+◌, ◌<◌, ◌^◌, length, sum, List, ℕ};
ghost use Rattle.std.specs.List.{concat};
ghost use Rattle.std.specs.Thread.{IsSync};
ghost use Rattle.hc_lend.specs.Work.{parts_of, worked_parts, CanWorkOnEach, CanWorkOnceBegun, HavePassed, AreWorked, CanWorkOnAll};

use crate::parts::Parts;
use std::thread::{Threads, join_mut};

/// The work on each part of a slice, by a worker of its own. Parts are numbered from 0, in order.
pub trait PartWork {
    /// Whether the part with this number and these bytes may be worked on. Every part may, unless the work says otherwise.
    ghost can_work: { Self → ℕ → List ℕ → Type 0 } = { λ _ _ _. Unit {0} };

    /// The result of the part with this number, which had these bytes.
    ghost leaves: { Self → ℕ → List ℕ → List ℕ };

    /// Works on the part with this number.
    fn work(&self, part: usize, bytes: &mut [u8])
        requires { can_work self.now part bytes.old }
        ensures { bytes.new ≡ leaves self.now part bytes.old };
}

/// The gate that each worker passes before its work.
pub trait Gate {
    /// The fact that holds once the worker with this number has passed: nothing, unless the gate says otherwise. Only `begun`
    /// gives it, so a contract that names it says that the gate was called.
    ghost passed: { Self → ℕ → Type 0 } = { λ _ _. Unit {0} };

    /// Begins the work of the part with this number. The worker may be held here, and works once this returns.
    fn begun(&self, worker: usize)
        ensures { passed self.now worker };
}

/// Works on all parts at once, with one worker for each: this thread for the last part, and a thread of its own for every
/// other. Each worker calls the gate once, with its part's number, before its work; a part need be fit for its work only after
/// that. The call returns when all workers have ended. It allocates nothing and cannot fail. Without a part it does nothing.
///
/// If the system starts no thread for a part, this thread works on it after the parts that follow. No clause says that the
/// workers run at once, or that a worker calls the gate only once.
pub fn each_at_once<R: Threads + Sync, W: PartWork + Sync, G: Gate + Sync>(
    rt: &R,
    parts: Parts<'_>,
    work: &W,
    gate: &G,
)
    requires { CanWorkOnEach (CanWorkOnceBegun (G.passed gate.now) (W.can_work work.now)) 0 parts.lengths.now parts.bytes.now }
    ensures each { parts_of parts.entry.lengths.now parts.exit.0.now
        ≡ worked_parts (W.leaves work.now) 0 parts.entry.lengths.now parts.entry.bytes.now }
    ensures whole { parts.exit.0.now
        ≡ concat (worked_parts (W.leaves work.now) 0 parts.entry.lengths.now parts.entry.bytes.now) }
    ensures passed { HavePassed (G.passed gate.now) 0 (length parts.entry.lengths.now) }
{
    let Parts { bytes, lengths } = parts;
    rest_at_once(rt, bytes, lengths, 0, work, gate);
}

/// Works on all parts at once, with one worker for each. The lengths are in bytes, and the first part has the number `first`.
fn rest_at_once<R: Threads + Sync, W: PartWork + Sync, G: Gate + Sync>(
    rt: &R,
    bytes: &mut [u8],
    lengths: &[u32],
    first: usize,
    work: &W,
    gate: &G,
)
    requires all { sum lengths.now ≡ length bytes.old }
    requires numbers { first + length lengths.now < 2 ^ 64 }
    requires can { CanWorkOnEach (CanWorkOnceBegun (G.passed gate.now) (W.can_work work.now)) first lengths.now bytes.old }
    ensures left { parts_of lengths.now bytes.new
        ≡ worked_parts (W.leaves work.now) first lengths.now bytes.old }
    ensures passed { HavePassed (G.passed gate.now) first (length lengths.now) }
{
    let Some((size, lengths)) = lengths.split_first() else {
        return;
    };
    let (part, rest) = bytes.split_at_mut(*size as usize);
    if lengths.is_empty() {
        work_alone(first, part, work, gate);
        return;
    }
    join_mut(
        rt,
        &mut ||
            requires { CanWorkOnceBegun (G.passed gate.now) (W.can_work work.now) first part.now }
            ensures { (part.exit.now ≡ W.leaves work.entry.now first part.entry.now) × G.passed gate.entry.now first }
        { work_alone(first, part, work, gate) },
        &mut ||
            requires { IsSync R.row × IsSync W.row × IsSync G.row × CanWorkOnAll (CanWorkOnceBegun (G.passed gate.now) (W.can_work work.now)) (first + 1) lengths.now rest.now }
            ensures { AreWorked (W.leaves work.entry.now) (G.passed gate.entry.now) (first + 1) lengths.entry.now rest.entry.now rest.exit.now }
        { rest_at_once(rt, rest, lengths, first + 1, work, gate) },
    );
}

/// Passes the gate as the worker of this part, and then works on its bytes.
fn work_alone<W: PartWork, G: Gate>(part: usize, bytes: &mut [u8], work: &W, gate: &G)
    requires { CanWorkOnceBegun (G.passed gate.now) (W.can_work work.now) part bytes.old }
    ensures left { bytes.new ≡ W.leaves work.now part bytes.old }
    ensures passed { G.passed gate.now part }
{
    gate.begun(part);
    work.work(part, bytes);
}
