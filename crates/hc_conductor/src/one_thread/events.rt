//! Events of the core, as the conductor takes them. They publish and post nothing.
ghost use Rattle.std.specs.Prelude.{◌≡◌, ◌≢◌, ◌∷◌, Err, IfErr, IfOk, IfSome, None, OnErr, OnOk, Some, length};
ghost use Rattle.hc_records.specs.Lists.{lowest};
ghost use Rattle.hc_core.specs.Early.{ShowsEarly, early_ready_faults};
ghost use Rattle.hc_core.specs.Proposed.{IsProposal};
ghost use Rattle.hc_core.specs.Written.{HoldsFurther, HoldsWrite, HoldsWrites};
ghost use Rattle.hc_events.specs.Calls.{AreSentTogether, MayAnswer, arena_sent, further_into_faults, ready_into_faults, send_into_faults, write_all_into_faults, write_into_faults};
ghost use Rattle.hc_events.specs.declared.faults.CoreFault.TheVariants.{Memory};
ghost use Rattle.hc_events.specs.Entries.{Forgot, Unplugged};
ghost use Rattle.hc_events.specs.Owed.{owed_blocks};
ghost use Rattle.hc_events.specs.Ready.{with_cleared};
ghost use Rattle.hc_events.specs.Steps.{Arrives, Edits, SendsFurther, SendsReady, SendsTasks, SendsWrite, SendsWrites, clear_faults, entries_after, forget_faults, proposal, unplug_faults, with_sent};
ghost use Rattle.hc_sendings.specs.Refusals.{early_faults};
ghost use Rattle.hc_conductor.specs.Conducting.{IsConducting};
ghost use Rattle.hc_conductor.specs.Mastering.{SameTasks, master_history};

use crate::one_thread::master::Master;
use hc_core::keeping::Core;
use hc_core::writing::SentWrites;
use hc_events::answer::Answer;
use hc_events::faults::CoreFault;
use hc_events::sending::Sending;
use hc_records::edit::Edit;
use std::alloc::Global;

impl Master {
    /// Returns the core for reading: the plan by `Core::plan`, a task's image by `Core::read`, the next frames by
    /// `Core::propose`, `Core::preview` and `Core::fill`.
    pub fn core(&self) -> &Core
        ensures core { result.now ≡ self.now.conductor.core }
        ensures conducting { IsConducting self.now.conductor }
    {
        self.conductor.core()
    }

    /// Edits the line. The answer and the record are those of the core's `step`. With `Refused`, which has the fault, 1 to 13,
    /// or `Memory`, nothing has changed. Views show the edit after the next publishing.
    pub fn edit(&mut self, alloc: Global, edit: &Edit) -> Answer
        ensures answer { MayAnswer (master_history self.old) (Edits edit.now) result (master_history self.new) }
        ensures early { ShowsEarly (master_history self.old) (Edits edit.now) result }
        ensures tasks { SameTasks self.old self.new }
    {
        self.conductor.edit(alloc, edit)
    }

    /// Takes an arriving frame, any bytes. The answer and the record are those of the core's `step`. With `Refused`, which has
    /// the fault, 20 to 27, or `Memory`, nothing has changed. Views show the new data after the next publishing.
    pub fn arrive(&mut self, alloc: Global, bytes: &[u8]) -> Answer
        ensures answer { MayAnswer (master_history self.old) (Arrives bytes.now) result (master_history self.new) }
        ensures early { ShowsEarly (master_history self.old) (Arrives bytes.now) result }
        ensures tasks { SameTasks self.old self.new }
    {
        self.conductor.arrive(alloc, bytes)
    }

    /// Sends the first owed register block in a frame of its own, and returns the frame's length in bytes. The frame is at the
    /// front of `out`. It allocates nothing. Fails with the first of these; then nothing has changed:
    ///
    /// - `NothingOwed`: no block is owed.
    /// - `SerialsSpent`: no serial is left.
    /// - `Room`: `out` is too short, with the length needed in bytes.
    pub fn next_write(&mut self, out: &mut [u8]) -> Result<usize, CoreFault>
        ensures written { IfOk result (HoldsWrite (master_history self.old) out.old out.new) }
        ensures accepted { OnOk result (lowest (write_into_faults (master_history self.old) (length out.old)) ≡ None) }
        ensures entries { OnOk result (master_history self.new ≡ entries_after (master_history self.old) SendsWrite) }
        ensures tasks { SameTasks self.old self.new }
        ensures refused { IfErr result (λ fault. lowest (write_into_faults (master_history self.old) (length out.old)) ≡ Some fault) }
        ensures unchanged { OnErr result (self.new ≡ self.old) }
        ensures untouched { OnErr result (out.new ≡ out.old) }
    {
        self.conductor.next_write(out)
    }

    /// Sends the first owed register blocks in one frame, in the order in which they are owed: as many as a frame holds,
    /// whatever the length of `out`. Returns the frame's length and the number of its blocks, at most 74; the frame is at the
    /// front of `out`. It allocates nothing. The faults are those of the conductor's `next_writes`; then nothing has changed.
    pub fn next_writes(&mut self, out: &mut [u8]) -> Result<SentWrites, CoreFault>
        ensures written { IfOk result (HoldsWrites (master_history self.old) out.old out.new) }
        ensures accepted { OnOk result (lowest (write_all_into_faults (master_history self.old) (length out.old)) ≡ None) }
        ensures entries { OnOk result (master_history self.new ≡ entries_after (master_history self.old) SendsWrites) }
        ensures tasks { SameTasks self.old self.new }
        ensures refused { IfErr result (λ fault. lowest (write_all_into_faults (master_history self.old) (length out.old)) ≡ Some fault) }
        ensures unchanged { OnErr result (self.new ≡ self.old) }
        ensures untouched { OnErr result (out.new ≡ out.old) }
    {
        self.conductor.next_writes(out)
    }

    /// Sends the first owed register blocks that are not under way in one frame, in the order in which they are owed: as many
    /// as a frame holds, whatever the length of `out`. Returns the frame's length and the number of its blocks, at most 74; the
    /// frame is at the front of `out`. It allocates only if no slot for such a frame is free, as the conductor's does.
    /// The faults are those of the conductor's `next_further`; then nothing has changed.
    pub fn next_further(&mut self, alloc: Global, out: &mut [u8]) -> Result<SentWrites, CoreFault>
        ensures written { IfOk result (HoldsFurther (master_history self.old) out.old out.new) }
        ensures accepted { OnOk result (lowest (further_into_faults (master_history self.old) (length out.old)) ≡ None) }
        ensures entries { OnOk result (master_history self.new ≡ entries_after (master_history self.old) SendsFurther) }
        ensures tasks { SameTasks self.old self.new }
        ensures refused { IfErr result (λ fault. fault ≢ Memory → lowest (further_into_faults (master_history self.old) (length out.old)) ≡ Some fault) }
        ensures early { IfSome (lowest (further_into_faults (master_history self.old) (length out.old))) (λ fault. result ≡ Err fault) }
        ensures unchanged { OnErr result (self.new ≡ self.old) }
        ensures untouched { OnErr result (out.new ≡ out.old) }
    {
        self.conductor.next_further(alloc, out)
    }

    /// Notes that the slave with a station address may have lost its registers: all its blocks are owed, and answers to earlier
    /// writes confirm nothing (the core's `forget`). It allocates nothing. Fails with one of these; then nothing has changed:
    ///
    /// - `UnknownStation`: no declared slave has the address.
    /// - `Absent`: the slave is not in the line.
    pub fn forget(&mut self, station: u16) -> Result<(), CoreFault>
        ensures accepted { OnOk result (lowest (forget_faults (master_history self.old) station) ≡ None) }
        ensures entries { OnOk result (master_history self.new ≡ Forgot station ∷ master_history self.old) }
        ensures tasks { SameTasks self.old self.new }
        ensures refused { IfErr result (λ fault. lowest (forget_faults (master_history self.old) station) ≡ Some fault) }
        ensures unchanged { OnErr result (self.new ≡ self.old) }
    {
        self.conductor.forget(station)
    }

    /// Sends 1 to 8 distinct tasks. The frames stand in the arena one after another, each of its own length, and are returned
    /// in that order. The rest of the arena is unchanged. The faults are those of the conductor's `send`; then nothing is sent,
    /// nothing has changed, and the arena is unchanged.
    pub fn send(
        &mut self,
        alloc: Global,
        tasks: &[u8],
        arena: &mut [u8],
    ) -> Result<Vec<Sending>, CoreFault>
        requires { AreSentTogether tasks.now }
        ensures frames { IfOk result (λ frames. frames.items ≡ proposal (master_history self.old) tasks.now) }
        ensures sent { OnOk result (arena.new ≡ arena_sent (master_history self.old) tasks.now arena.old) }
        ensures accepted { OnOk result (lowest (send_into_faults (master_history self.old) tasks.now (length arena.old)) ≡ None) }
        ensures entries { OnOk result (master_history self.new ≡ entries_after (master_history self.old) (SendsTasks tasks.now)) }
        ensures tasks { SameTasks self.old self.new }
        ensures refused { IfErr result (λ fault. fault ≢ Memory → lowest (send_into_faults (master_history self.old) tasks.now (length arena.old)) ≡ Some fault) }
        ensures early { IfSome (lowest (early_faults (length (owed_blocks (master_history self.old))) tasks.now)) (λ fault. result ≡ Err fault) }
        ensures unchanged { OnErr result (self.new ≡ self.old) }
        ensures untouched { OnErr result (arena.new ≡ arena.old) }
    {
        self.conductor.send(alloc, tasks, arena)
    }

    /// Sends the frames of the present proposal, as the core's `propose` returned it, for callers that fill them first. It
    /// allocates nothing.
    pub fn commit(&mut self, frames: &[Sending])
        requires { IsProposal (master_history self.old) frames.now }
        ensures entries { master_history self.new ≡ with_sent (master_history self.old) frames.now }
        ensures tasks { SameTasks self.old self.new }
    {
        self.conductor.commit(frames);
    }

    /// Sends 1 to 8 distinct ready tasks, while register blocks of other tasks may be owed. The frames stand in the arena one
    /// after another, each of its own length, and are returned in that order. The rest of the arena is unchanged. The faults
    /// are those of the conductor's `send_ready`; then nothing is sent, nothing has changed, and the arena is unchanged.
    pub fn send_ready(
        &mut self,
        alloc: Global,
        tasks: &[u8],
        arena: &mut [u8],
    ) -> Result<Vec<Sending>, CoreFault>
        requires { AreSentTogether tasks.now }
        ensures frames { IfOk result (λ frames. frames.items ≡ proposal (master_history self.old) tasks.now) }
        ensures sent { OnOk result (arena.new ≡ arena_sent (master_history self.old) tasks.now arena.old) }
        ensures accepted { OnOk result (lowest (ready_into_faults (master_history self.old) tasks.now (length arena.old)) ≡ None) }
        ensures entries { OnOk result (master_history self.new ≡ entries_after (master_history self.old) (SendsReady tasks.now)) }
        ensures tasks { SameTasks self.old self.new }
        ensures refused { IfErr result (λ fault. fault ≢ Memory → lowest (ready_into_faults (master_history self.old) tasks.now (length arena.old)) ≡ Some fault) }
        ensures early { IfSome (lowest (early_ready_faults (master_history self.old) tasks.now)) (λ fault. result ≡ Err fault) }
        ensures unchanged { OnErr result (self.new ≡ self.old) }
        ensures untouched { OnErr result (arena.new ≡ arena.old) }
    {
        self.conductor.send_ready(alloc, tasks, arena)
    }

    /// Notes that the FMMUs of the declared slave with a station address are zeros, and that no write sent to it earlier can
    /// still reach it (the core's `cleared`). The blocks of a slave in the line are owed again. It allocates nothing. Fails
    /// with `UnknownStation` if no declared slave has the address; then nothing has changed.
    pub fn cleared(&mut self, station: u16) -> Result<(), CoreFault>
        ensures accepted { OnOk result (lowest (clear_faults (master_history self.old) station) ≡ None) }
        ensures entries { OnOk result (master_history self.new ≡ with_cleared (master_history self.old) station) }
        ensures tasks { SameTasks self.old self.new }
        ensures refused { IfErr result (λ fault. lowest (clear_faults (master_history self.old) station) ≡ Some fault) }
        ensures unchanged { OnErr result (self.new ≡ self.old) }
    {
        self.conductor.cleared(station)
    }

    /// Notes that the declared slave with a station address, outside the line, is off the wire (the core's `unplugged`). It
    /// allocates nothing. Fails with the first of these; then nothing has changed:
    ///
    /// - `UnknownStation`: no declared slave has the address.
    /// - `AlreadyPresent`: the slave is in the line.
    pub fn unplugged(&mut self, station: u16) -> Result<(), CoreFault>
        ensures accepted { OnOk result (lowest (unplug_faults (master_history self.old) station) ≡ None) }
        ensures entries { OnOk result (master_history self.new ≡ Unplugged station ∷ master_history self.old) }
        ensures tasks { SameTasks self.old self.new }
        ensures refused { IfErr result (λ fault. lowest (unplug_faults (master_history self.old) station) ≡ Some fault) }
        ensures unchanged { OnErr result (self.new ≡ self.old) }
    {
        self.conductor.unplugged(station)
    }
}
