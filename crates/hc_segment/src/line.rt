//! The simulated line, and frames through it.
ghost use Rattle.std.specs.Prelude.{◌≡◌, ◌≤◌, ◌+◌, ◌<◌, IfOk, IfSome, OnErr, OnOk, length, map, slice_get};
ghost use Rattle.std.specs.Option.{option_copied};
ghost use Rattle.hc_machine.specs.declared.limits.TheConstants.{MEMORY_BYTES};
ghost use Rattle.hc_segment.specs.Line.{all_machines, frames_through, machines_after};
ghost use Rattle.hc_segment.specs.Machines.{opened_machines, poked};

use crate::rows::Cut;
use crate::{ChainFault, Segment, chain, fresh};
use hc_lend::Gate;
use hc_records::records::Declared;
use hc_rings::FrameBox;
use std::alloc::{AllocError, Global};
use std::marker::Model;
use std::sync::Wait;
use std::thread::Threads;

/// The machines of the slaves of a line, in its order. Contracts see it as the list of their memories.
#[derive(Drop)]
pub struct SimulatedLine {
    pub(crate) segments: Vec<Segment>,
    pub(crate) count: usize,
}

impl Model for SimulatedLine {
    ghost use Rattle.std.specs.Prelude.{ℕ, List};
    ghost use Rattle.hc_segment.specs.Segments.{IsSegmentLine, machines_in};

    ghost Value = { List (List ℕ) };

    ghost view = { machines_in };

    ghost invariant = { IsSegmentLine };
}

/// A gate that holds no segment back.
struct Open;

impl Gate for Open {
    fn begun(&self, _worker: usize) {}
}

/// The memory of a machine of these segments, counted from 0.
fn memory_in(segments: &[Segment], number: usize) -> Option<&[u8]>
    ensures bytes { option_copied result ≡ slice_get (all_machines segments.now) number }
    ensures size { IfSome result (λ memory. length memory.now ≡ MEMORY_BYTES) }
{
    let (first, others) = segments.split_first()?;
    let machines = first.machines();
    match machines.get(number) {
        Some(machine) => Some(machine.memory()),
        None => memory_in(others, number - machines.len()),
    }
}

/// Writes to the memory of a machine of a segment.
fn write_one(segment: &mut Segment, number: usize, at: usize, bytes: &[u8])
    requires machine { number < length segment.old }
    requires within { at + length bytes.now ≤ MEMORY_BYTES }
    ensures { segment.new ≡ poked number at bytes.now segment.old }
{
    segment.machines_mut()[number].write_memory(at, bytes);
}

/// Writes to the memory of a machine of these segments. The recursion is as deep as their number, at most four.
fn write_in(segments: &mut [Segment], number: usize, at: usize, bytes: &[u8])
    requires { at + length bytes.now ≤ MEMORY_BYTES }
    ensures memory { all_machines segments.new ≡ poked number at bytes.now (all_machines segments.old) }
    ensures sizes { map length segments.new ≡ map length segments.old }
{
    let Some((first, others)) = segments.split_first_mut() else {
        return;
    };
    let count = first.machines().len();
    if number < count {
        write_one(first, number, at, bytes);
    } else {
        write_in(others, number - count, at, bytes);
    }
}

impl SimulatedLine {
    /// The line at the opening of these groups: fresh machines for the slaves of those that are present. `AllocError` if an
    /// allocation failed.
    pub fn opened(alloc: Global, groups: &[Declared]) -> Result<SimulatedLine, AllocError>
        ensures { IfOk result (λ line. line ≡ opened_machines groups.now) }
    {
        let machines = fresh::opened_machines(alloc, groups)?;
        let count = machines.len();
        let cut = Cut::new(alloc, count)?;
        Ok(SimulatedLine {
            segments: cut.segments(machines),
            count,
        })
    }

    /// The number of machines.
    pub fn len(&self) -> usize
        ensures { result ≡ length self.now }
    {
        self.count
    }

    /// The memory of the machine at a position of the line, counted from 0: 12,288 bytes. None if there is no such machine.
    pub fn memory(&self, position: usize) -> Option<&[u8]>
        ensures bytes { option_copied result ≡ slice_get self.now position }
        ensures size { IfSome result (λ memory. length memory.now ≡ MEMORY_BYTES) }
    {
        memory_in(&self.segments, position)
    }

    /// Writes bytes to the memory of the machine at a position, from byte `at` on, 0 to 12,288 less their number. Any byte can
    /// be written, the alias and the registers too. Nothing is written if there is no such machine. It does not allocate.
    pub fn write_memory(&mut self, position: usize, at: usize, bytes: &[u8])
        requires { at + length bytes.now ≤ MEMORY_BYTES }
        ensures { self.new ≡ poked position at bytes.now self.old }
    {
        write_in(&mut self.segments, position, at, bytes);
    }

    /// Passes frames through the machines in order, each segment in a thread of its own, and returns them as they come back, in
    /// their order. `ChainFault` if an allocation failed: no machine has then met a frame.
    pub fn pass<R: Threads + Wait + Sync>(
        &mut self,
        rt: &R,
        alloc: Global,
        frames: Vec<FrameBox>,
    ) -> Result<Vec<FrameBox>, ChainFault>
        ensures frames { IfOk result (λ back. back.items ≡ frames_through self.old frames.items) }
        ensures machines { OnOk result (self.new ≡ machines_after self.old frames.items) }
        ensures unchanged { OnErr result (self.new ≡ self.old) }
    {
        chain(rt, alloc, &mut self.segments, frames, &Open)
    }
}
