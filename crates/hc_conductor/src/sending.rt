//! Sending of tasks into one arena.
ghost use Rattle.std.specs.Prelude.{◌≡◌, ◌≢◌, ◌<◌, ◌*◌, [], Err, IfErr, IfOk, IfSome, None, OnErr, OnOk, Some, length, vec_capacity};
ghost use Rattle.hc_records.specs.declared.limits.TheConstants.{MOST_DATAGRAMS, TASKS};
ghost use Rattle.hc_records.specs.Lists.{lowest};
ghost use Rattle.hc_events.specs.declared.faults.CoreFault.TheVariants.{Memory};
ghost use Rattle.hc_events.specs.Calls.{AreSentTogether, arena_sent, ready_into_faults, send_into_faults};
ghost use Rattle.hc_events.specs.Owed.{owed_blocks};
ghost use Rattle.hc_events.specs.Steps.{SendsReady, SendsTasks, entries_after, proposal, with_sent};
ghost use Rattle.hc_sendings.specs.Refusals.{early_faults};
ghost use Rattle.hc_core.specs.Early.{early_ready_faults};
ghost use Rattle.hc_core.specs.Proposed.{IsProposal};
ghost use Rattle.hc_conductor.specs.Conducting.{SameLists, core_history};

use crate::conductor::Conductor;
use hc_events::faults::CoreFault;
use hc_events::sending::Sending;
use std::alloc::Global;

impl Conductor {
    /// Sends the frames of the present proposal, as the core's `propose` returned it. It allocates nothing.
    pub fn commit(&mut self, frames: &[Sending])
        requires { IsProposal (core_history self.old) frames.now }
        ensures entries { core_history self.new ≡ with_sent (core_history self.old) frames.now }
        ensures lists { SameLists self.old self.new }
    {
        self.core.commit(frames);
    }

    /// Sends 1 to 8 distinct tasks. The frames stand in the arena one after another, each of its own length, and are returned
    /// in that order. The rest of the arena is unchanged. Fails with the first of these; then nothing is sent, nothing has
    /// changed, and the arena is unchanged:
    ///
    /// - `NoSuchTask`: a number is over 7.
    /// - `Unprogrammed`: register blocks are owed, with their number.
    /// - `SerialsSpent`: too few serials are left.
    /// - `Room`: the arena is too short, with the length needed in bytes.
    /// - `Memory`: an allocation failed. Exception: the first two are returned whatever memory does.
    pub fn send(
        &mut self,
        alloc: Global,
        tasks: &[u8],
        arena: &mut [u8],
    ) -> Result<Vec<Sending>, CoreFault>
        requires { AreSentTogether tasks.now }
        ensures frames { IfOk result (λ frames. frames.items ≡ proposal (core_history self.old) tasks.now) }
        ensures sent { OnOk result (arena.new ≡ arena_sent (core_history self.old) tasks.now arena.old) }
        ensures accepted { OnOk result (lowest (send_into_faults (core_history self.old) tasks.now (length arena.old)) ≡ None) }
        ensures entries { OnOk result (core_history self.new ≡ entries_after (core_history self.old) (SendsTasks tasks.now)) }
        ensures lists { SameLists self.old self.new }
        ensures refused { IfErr result (λ fault. fault ≢ Memory → lowest (send_into_faults (core_history self.old) tasks.now (length arena.old)) ≡ Some fault) }
        ensures early { IfSome (lowest (early_faults (length (owed_blocks (core_history self.old))) tasks.now)) (λ fault. result ≡ Err fault) }
        ensures unchanged { OnErr result (self.new ≡ self.old) }
        ensures untouched { OnErr result (arena.new ≡ arena.old) }
    {
        let mut frames = Vec::new(alloc);
        self.send_into(tasks, arena, &mut frames)?;
        Ok(frames)
    }

    /// Sends tasks as `send` does, and stores the frames in a list that is used again. The list is emptied first, and stays
    /// empty if the tasks are refused. With a capacity of 128 frames, 16 for each of the eight tasks, it needs no allocation,
    /// and the call never fails with `Memory` (this project's profile).
    pub fn send_into(
        &mut self,
        tasks: &[u8],
        arena: &mut [u8],
        frames: &mut Vec<Sending>,
    ) -> Result<(), CoreFault>
        requires { AreSentTogether tasks.now }
        ensures frames { OnOk result (frames.new.items ≡ proposal (core_history self.old) tasks.now) }
        ensures sent { OnOk result (arena.new ≡ arena_sent (core_history self.old) tasks.now arena.old) }
        ensures accepted { OnOk result (lowest (send_into_faults (core_history self.old) tasks.now (length arena.old)) ≡ None) }
        ensures entries { OnOk result (core_history self.new ≡ entries_after (core_history self.old) (SendsTasks tasks.now)) }
        ensures lists { SameLists self.old self.new }
        ensures refused { IfErr result (λ fault. fault ≢ Memory → lowest (send_into_faults (core_history self.old) tasks.now (length arena.old)) ≡ Some fault) }
        ensures early { IfSome (lowest (early_faults (length (owed_blocks (core_history self.old))) tasks.now)) (λ fault. result ≡ Err fault) }
        ensures room { IfErr result (λ fault. fault ≡ Memory → vec_capacity frames.old < MOST_DATAGRAMS * TASKS) }
        ensures unchanged { OnErr result (self.new ≡ self.old) }
        ensures untouched { OnErr result (arena.new ≡ arena.old) }
        ensures none { OnErr result (frames.new.items ≡ []) }
    {
        self.core.send_into(tasks, arena, frames)?;
        Ok(())
    }

    /// Sends 1 to 8 distinct ready tasks, while register blocks of other tasks may be owed (this project's profile). The frames
    /// stand in the arena one after another, each of its own length, and are returned in that order. The rest of the arena is
    /// unchanged. Fails with the first of these; then nothing is sent, nothing has changed, and the arena is unchanged:
    ///
    /// - `NoSuchTask`: a number is over 7.
    /// - `Waits`: a task waits. The first that does, with the number of owed blocks that concern it and of registers outside
    ///   the line that may name it.
    /// - `SerialsSpent`: too few serials are left.
    /// - `Room`: the arena is too short, with the length needed in bytes.
    /// - `Memory`: an allocation failed. Exception: the first two are returned whatever memory does.
    pub fn send_ready(
        &mut self,
        alloc: Global,
        tasks: &[u8],
        arena: &mut [u8],
    ) -> Result<Vec<Sending>, CoreFault>
        requires { AreSentTogether tasks.now }
        ensures frames { IfOk result (λ frames. frames.items ≡ proposal (core_history self.old) tasks.now) }
        ensures sent { OnOk result (arena.new ≡ arena_sent (core_history self.old) tasks.now arena.old) }
        ensures accepted { OnOk result (lowest (ready_into_faults (core_history self.old) tasks.now (length arena.old)) ≡ None) }
        ensures entries { OnOk result (core_history self.new ≡ entries_after (core_history self.old) (SendsReady tasks.now)) }
        ensures lists { SameLists self.old self.new }
        ensures refused { IfErr result (λ fault. fault ≢ Memory → lowest (ready_into_faults (core_history self.old) tasks.now (length arena.old)) ≡ Some fault) }
        ensures early { IfSome (lowest (early_ready_faults (core_history self.old) tasks.now)) (λ fault. result ≡ Err fault) }
        ensures unchanged { OnErr result (self.new ≡ self.old) }
        ensures untouched { OnErr result (arena.new ≡ arena.old) }
    {
        let mut frames = Vec::new(alloc);
        self.send_ready_into(tasks, arena, &mut frames)?;
        Ok(frames)
    }

    /// Sends ready tasks as `send_ready` does, and stores the frames in a list that is used again. The list is emptied first,
    /// and stays empty if the tasks are refused. With a capacity of 128 frames, 16 for each of the eight tasks, it needs no
    /// allocation, and the call never fails with `Memory` (this project's profile).
    pub fn send_ready_into(
        &mut self,
        tasks: &[u8],
        arena: &mut [u8],
        frames: &mut Vec<Sending>,
    ) -> Result<(), CoreFault>
        requires { AreSentTogether tasks.now }
        ensures frames { OnOk result (frames.new.items ≡ proposal (core_history self.old) tasks.now) }
        ensures sent { OnOk result (arena.new ≡ arena_sent (core_history self.old) tasks.now arena.old) }
        ensures accepted { OnOk result (lowest (ready_into_faults (core_history self.old) tasks.now (length arena.old)) ≡ None) }
        ensures entries { OnOk result (core_history self.new ≡ entries_after (core_history self.old) (SendsReady tasks.now)) }
        ensures lists { SameLists self.old self.new }
        ensures refused { IfErr result (λ fault. fault ≢ Memory → lowest (ready_into_faults (core_history self.old) tasks.now (length arena.old)) ≡ Some fault) }
        ensures early { IfSome (lowest (early_ready_faults (core_history self.old) tasks.now)) (λ fault. result ≡ Err fault) }
        ensures room { IfErr result (λ fault. fault ≡ Memory → vec_capacity frames.old < MOST_DATAGRAMS * TASKS) }
        ensures unchanged { OnErr result (self.new ≡ self.old) }
        ensures untouched { OnErr result (arena.new ≡ arena.old) }
        ensures none { OnErr result (frames.new.items ≡ []) }
    {
        self.core.send_ready_into(tasks, arena, frames)?;
        Ok(())
    }
}
