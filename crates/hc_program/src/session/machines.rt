//! The machines of the simulated line: frames that pass them, edits that connect or disconnect them, and their memory.
ghost use Rattle.std.specs.Prelude.{◌≡◌, ◌⊎◌, ◌+◌, ◌<◌, ◌≤◌, IfOk, IfSome, OnErr, OnOk, length, option_map, slice_get};
ghost use Rattle.std.specs.Option.{option_copied, option_map_or};
ghost use Rattle.hc_events.specs.Points.{line_of, state_of};
ghost use Rattle.hc_segment.specs.Machines.{poked, machines_replaced, replacement};
ghost use Rattle.hc_segment.specs.Setup.{aliases_read, named_count};
ghost use Rattle.hc_machine.specs.declared.limits.TheConstants.{MEMORY_BYTES};
ghost use Rattle.hc_segment.specs.Line.{frames_through};
ghost use Rattle.hc_program.specs.Setups.{named, scanned};
ghost use Rattle.hc_program.specs.Standings.{passed, with_machines};

use super::Session;
use hc_records::edit::Edit;
use hc_rings::FrameBox;
use hc_segment::{ChainFault, LineEdit};
use std::alloc::{AllocError, Global};
use std::sync::Wait;
use std::thread::Threads;

impl Session {
    /// Passes frames along the line, and returns them as they come back. Returns a `ChainFault` if an allocation fails; then no
    /// machine has seen a frame.
    pub(crate) fn pass<R: Threads + Wait + Sync>(
        &mut self,
        rt: &R,
        alloc: Global,
        frames: Vec<FrameBox>,
    ) -> Result<Vec<FrameBox>, ChainFault>
        ensures back { IfOk result (λ back. back.items ≡ frames_through self.old.machines frames.items) }
        ensures next { OnOk result (self.new ≡ passed self.old frames.items) }
        ensures unchanged { OnErr result (self.new ≡ self.old) }
    {
        self.line.pass(rt, alloc, frames)
    }

    /// Reads the configured station alias of each machine along the line. Returns a `ChainFault` if an allocation fails; then
    /// no machine was read, or all were.
    pub(crate) fn scan<R: Threads + Wait + Sync>(
        &mut self,
        rt: &R,
        alloc: Global,
    ) -> Result<Vec<u16>, ChainFault>
        ensures aliases { IfOk result (λ aliases. aliases.items ≡ aliases_read self.old.machines) }
        ensures next { OnOk result (self.new ≡ scanned self.old) }
        ensures stops { OnErr result ((self.new ≡ self.old) ⊎ (self.new ≡ scanned self.old)) }
    {
        self.line.scan(rt, alloc)
    }

    /// Gives each slave of the line its station address along the line, and returns how many of the writes came back with
    /// working counter 1. Returns a `ChainFault` if an allocation fails; then no slave was written to.
    pub(crate) fn name<R: Threads + Wait + Sync>(
        &mut self,
        rt: &R,
        alloc: Global,
    ) -> Result<usize, ChainFault>
        ensures named { IfOk result (λ count. count ≡ named_count self.old.machines (line_of self.old.history)) }
        ensures next { OnOk result (self.new ≡ named self.old) }
        ensures unchanged { OnErr result (self.new ≡ self.old) }
    {
        let groups = self.master.core().plan().groups();
        self.line.name(rt, alloc, groups)
    }

    /// Returns the change of the machines for an edit, or `None` if the edit changes none. `AllocError` if an allocation fails.
    pub(crate) fn prepare(&self, alloc: Global, edit: &Edit) -> Result<Option<LineEdit>, AllocError>
        ensures replacement { IfOk result (λ ready. option_map (λ r. r.replacement) ready ≡ replacement (state_of self.now.history).groups edit.now) }
        ensures count { IfOk result (λ ready. IfSome ready (λ r. r.count ≡ length self.now.machines)) }
    {
        self.line
            .prepare(alloc, self.master.core().plan().groups(), edit)
    }

    /// Connects or disconnects machines as prepared, if anything was.
    pub(crate) fn carry_out(&mut self, ready: Option<LineEdit>)
        requires { IfSome ready (λ r. r.count ≡ length self.old.machines) }
        ensures { self.new ≡ with_machines self.old (option_map_or (λ r. machines_replaced r self.old.machines) (option_map (λ r. r.replacement) ready) self.old.machines) }
    {
        if let Some(ready) = ready {
            self.line.carry_out(ready);
        }
    }

    /// Returns the number of machines.
    pub(crate) fn machines(&self) -> usize
        ensures { result ≡ length self.now.machines }
    {
        self.line.len()
    }

    /// Returns the memory of the machine at a position of the line, or `None` if there is no such machine.
    pub(crate) fn memory(&self, position: usize) -> Option<&[u8]>
        ensures bytes { option_copied result ≡ slice_get self.now.machines position }
        ensures size { IfSome result (λ memory. length memory.now ≡ MEMORY_BYTES) }
    {
        self.line.memory(position)
    }

    /// Replaces bytes of the memory of the machine at a position, from byte `at` on.
    pub(crate) fn write_memory(&mut self, position: usize, at: usize, bytes: &[u8])
        requires { at + length bytes.now ≤ MEMORY_BYTES }
        ensures { self.new ≡ with_machines self.old (poked position at bytes.now self.old.machines) }
    {
        self.line.write_memory(position, at, bytes);
    }
}
