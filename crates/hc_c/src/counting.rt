//! Counters of each datagram since the line was opened: its sendings, and the outcomes of its arrivals.
ghost use Rattle.std.specs.Prelude.{◌≡◌, ◌≢◌, IfSome, None};
ghost use Rattle.hc_c.specs.Counts.{counters_number, counters_of, judged_as};
ghost use Rattle.hc_c.specs.Handles.{HoldsAsBefore, IfServed, no_line_number};

use crate::arriving::{INPUTS, WRONG_COUNT};
use crate::handle::{Handle, with_line};
use crate::numbers::{DONE, NOTHING};
use hc_events::sending::{Named, Sending};
use hc_records::limits::{MOST_DATAGRAMS, TASKS};
use hc_records::slots::{SLOTS, slot_number};
use std::alloc::{AllocError, Global};
use std::marker::Model;

/// The counters of one datagram, in C. A counter that reaches its largest number stays there.
#[repr(C)]
#[derive(Clone, Copy)]
pub struct Counters {
    /// The frames sent with it.
    sent: u64,
    /// The arrivals with the right working counter, whose data its task reads.
    good: u64,
    /// The arrivals with a wrong working counter.
    wrong: u64,
    /// The arrivals after it was sent again.
    again: u64,
}

/// Returns the counters with one more arrival of a kind.
fn judged_as(kind: u8, counters: Counters) -> Counters
    ensures { result ≡ judged_as kind counters }
{
    let Counters {
        sent,
        good,
        wrong,
        again,
    } = counters;
    if kind == INPUTS {
        let good = good.saturating_add(1);
        Counters {
            sent,
            good,
            wrong,
            again,
        }
    } else if kind == WRONG_COUNT {
        let wrong = wrong.saturating_add(1);
        Counters {
            sent,
            good,
            wrong,
            again,
        }
    } else {
        let again = again.saturating_add(1);
        Counters {
            sent,
            good,
            wrong,
            again,
        }
    }
}

/// The counters of each datagram that a line can have.
pub struct Counts {
    counts: Vec<Counters>,
}

impl Drop for Counts {
    fn drop(self) {
        let Counts { counts: _ } = self;
    }
}

impl Model for Counts {
    ghost use Rattle.hc_c.specs.Counts.{Counts};

    ghost Value = { Counts };

    ghost view = { λ counts. counts.counts.items };
}

impl Counts {
    ghost use Rattle.std.specs.Prelude.{◌≡◌, IfOk, fold};
    ghost use Rattle.hc_c.specs.Counts.{all_counted_sent, counters_of, opening_counts, judged_as, sent_once, with_counters};

    /// Returns counters that are all zero. `AllocError` if an allocation fails; no later call allocates.
    pub fn new(alloc: Global) -> Result<Counts, AllocError>
        ensures { IfOk result (λ counts. counts ≡ opening_counts) }
    {
        let none = Counters {
            sent: 0,
            good: 0,
            wrong: 0,
            again: 0,
        };
        let counts = Vec::from_elem(alloc, none, SLOTS)?;
        Ok(Counts { counts })
    }

    /// Returns the counters of a datagram; zeros for a number that no datagram of a line can have.
    pub fn of(&self, task: u8, number: u8) -> Counters
        ensures { result ≡ counters_of self.now task number }
    {
        match self.counts.get(slot_number(task, number)) {
            Some(counters) => *counters,
            None => Counters {
                sent: 0,
                good: 0,
                wrong: 0,
                again: 0,
            },
        }
    }

    /// Replaces the counters of a datagram. A number that no datagram of a line can have is ignored.
    fn put(&mut self, task: u8, number: u8, counters: Counters)
        ensures { self.new ≡ with_counters self.old task number counters }
    {
        let slot = slot_number(task, number);
        if slot < self.counts.len() {
            self.counts[slot] = counters;
        }
    }

    /// Counts an arrival of a kind for a datagram.
    pub fn count_arrival(&mut self, kind: u8, task: u8, number: u8)
        ensures { self.new ≡ with_counters self.old task number (judged_as kind (counters_of self.old task number)) }
    {
        let slot = slot_number(task, number);
        if slot < self.counts.len() {
            self.counts[slot] = judged_as(kind, self.counts[slot]);
        }
    }

    /// Counts a sending of a datagram.
    fn count_sent(&mut self, named: Named)
        ensures { self.new ≡ sent_once self.old named }
    {
        let (task, number) = named;
        let Counters {
            sent,
            good,
            wrong,
            again,
        } = self.of(task, number);
        let sent = sent.saturating_add(1);
        self.put(
            task,
            number,
            Counters {
                sent,
                good,
                wrong,
                again,
            },
        );
    }

    /// Counts a sending of each datagram of a frame. A frame has at most 115, which bounds the recursion.
    fn count_datagrams(&mut self, datagrams: &[Named])
        ensures { self.new ≡ fold sent_once self.old datagrams.now }
    {
        let Some((named, rest)) = datagrams.split_first() else {
            return;
        };
        self.count_sent(*named);
        self.count_datagrams(rest);
    }

    /// Counts a sending of each datagram of these frames. A sending has at most 128 frames, which bounds the recursion.
    pub fn count_frames(&mut self, frames: &[Sending])
        ensures { self.new ≡ all_counted_sent self.old frames.now }
    {
        let Some((frame, rest)) = frames.split_first() else {
            return;
        };
        self.count_datagrams(frame.datagrams());
        self.count_frames(rest);
    }
}

/// Reads the counters of a task's datagram since the line was opened. Edits leave the counters, though after one the datagram
/// with that number may be another one. Returns `DONE`. It allocates nothing. Fails with one of these; then `counters` is
/// unchanged:
///
/// - `BUSY`, `CLOSED` or `MISUSED`.
/// - `NOTHING`: the task is over 7, or the number over 15.
#[unsafe(no_mangle)]
pub extern "C" fn zangjulf_counters(
    handle: &mut Handle,
    task: u8,
    datagram: u8,
    counters: &mut Counters,
) -> u8
    ensures answer { IfServed handle.old result (λ old. result ≡ counters_number task datagram) }
    ensures counters { result ≡ DONE → IfSome handle.old.holding.value (λ old. counters.new ≡ counters_of old.counts task datagram) }
    ensures unchanged { HoldsAsBefore handle.old handle.new }
    ensures unwritten { result ≢ DONE → counters.new ≡ counters.old }
    ensures closed { handle.old.holding.value ≡ None → result ≡ no_line_number handle.old.mark }
{
    with_line!(handle, |own| {
        if task < TASKS && usize::from(datagram) < MOST_DATAGRAMS {
            *counters = own.counts.of(task, datagram);
            DONE
        } else {
            NOTHING
        }
    })
}
