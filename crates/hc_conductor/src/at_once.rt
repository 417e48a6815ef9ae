//! Sending of tasks into one arena, with a worker for each task.
ghost use Rattle.std.specs.Prelude.{◌≡◌, ◌≢◌, ◌*◌, ◌≤◌, ◌<◌, ◌^◌, ◌++◌, All, Err, IfErr, IfOk, IfSome, None, OnErr, OnOk, Some, drop, length, sum, sum_by};
ghost use Rattle.std.specs.List.{flat_map};
ghost use Rattle.hc_records.specs.Lists.{lowest};
ghost use Rattle.hc_frames.specs.declared.limits.TheConstants.{SETUP_SERIAL};
ghost use Rattle.hc_events.specs.declared.faults.CoreFault.TheVariants.{Memory};
ghost use Rattle.hc_events.specs.Calls.{AreSentTogether, send_into_faults, arena_sent};
ghost use Rattle.hc_events.specs.Owed.{owed_blocks};
ghost use Rattle.hc_events.specs.Sendings.{sent_frame_size};
ghost use Rattle.hc_events.specs.Steps.{SendsTasks, entries_after, proposal, sent_text};
ghost use Rattle.hc_sendings.specs.Refusals.{early_faults};
ghost use Rattle.hc_core.specs.Filled.{CanBeFilled};
ghost use Rattle.hc_core.specs.Proposed.{IsProposal};
ghost use Rattle.hc_core.specs.declared.arena.TheConstants.{LARGEST_FRAME};
ghost use Rattle.hc_conductor.specs.AtOnce.{CanFillPart, part_written_at, sizes_of};
ghost use Rattle.hc_conductor.specs.Conducting.{SameLists, core_history};

use crate::conductor::Conductor;
use hc_core::keeping::Core;
use hc_events::faults::CoreFault;
use hc_events::sending::Sending;
use hc_lend::{Gate, PartWork, Parts, each_at_once};
use hc_records::limits::TASKS;
use std::alloc::Global;
use std::thread::Threads;

// Fills each task's part of frames, the parts in the order of the tasks.
#[derive(Drop)]
struct TaskParts<'a> {
    core: &'a Core,
    tasks: &'a [u8],
    frames: &'a [Sending],
}

impl PartWork for TaskParts<'_> {
    ghost can_work = { λ parts part bytes. CanFillPart parts.core.now.history parts.frames.now parts.tasks.now part bytes };

    ghost leaves = { λ parts part bytes. part_written_at parts.core.now.history parts.frames.now parts.tasks.now part };

    fn work(&self, part: usize, bytes: &mut [u8]) {
        self.core.fill_part(self.frames, self.tasks[part], bytes);
    }
}

/// Writes the size of each task's part to `sizes`, in bytes. There are at most eight tasks, which bounds the recursion.
fn put_sizes(core: &Core, frames: &[Sending], tasks: &[u8], sizes: &mut [u32])
    requires can { All (CanBeFilled core.now.history) frames.now }
    requires few { length frames.now ≤ SETUP_SERIAL }
    requires exact { length sizes.old ≡ length tasks.now }
    requires small { sum (sizes_of core.now.history frames.now tasks.now) < 2 ^ 32 }
    ensures { sizes.new ≡ sizes_of core.now.history frames.now tasks.now }
{
    let Some((task, rest)) = tasks.split_first() else {
        return;
    };
    let (first, others) = sizes.split_at_mut(1);
    first[0] = core.part_size(frames, *task) as u32;
    put_sizes(core, frames, rest, others);
}

/// Fills the frames of a proposal into an arena of exactly their size. Each task's part has a worker of its own.
fn fill_at_once<R: Threads + Sync, G: Gate + Sync>(
    rt: &R,
    core: &Core,
    tasks: &[u8],
    frames: &[Sending],
    arena: &mut [u8],
    gate: &G,
)
    requires together { AreSentTogether tasks.now }
    requires proposal { frames.now ≡ proposal core.now.history tasks.now }
    requires can { All (CanBeFilled core.now.history) frames.now }
    requires few { length frames.now ≤ SETUP_SERIAL }
    requires present { IsProposal core.now.history frames.now }
    requires most { sum_by sent_frame_size frames.now ≤ LARGEST_FRAME * length frames.now }
    requires exact { length arena.old ≡ sum_by sent_frame_size frames.now }
    ensures { arena.new ≡ flat_map (sent_text core.now.history) frames.now }
{
    // no task of a plan is over its limit, so the frames are few
    let _ = core.plan().places();
    let mut sizes = [0; TASKS as usize];
    let sizes = &mut sizes[..tasks.len()];
    put_sizes(core, frames, tasks, sizes);
    let work = TaskParts {
        core,
        tasks,
        frames,
    };
    each_at_once(rt, Parts::of(arena, sizes), &work, gate);
}

/// Fills the frames of a proposal into the first `size` bytes of the arena. Each task's part has a worker of its own. The rest
/// of the arena is unchanged.
fn fill_front_at_once<R: Threads + Sync, G: Gate + Sync>(
    rt: &R,
    core: &Core,
    tasks: &[u8],
    frames: &[Sending],
    size: usize,
    arena: &mut [u8],
    gate: &G,
)
    requires together { AreSentTogether tasks.now }
    requires proposal { frames.now ≡ proposal core.now.history tasks.now }
    requires can { All (CanBeFilled core.now.history) frames.now }
    requires few { length frames.now ≤ SETUP_SERIAL }
    requires present { IsProposal core.now.history frames.now }
    requires most { size ≤ LARGEST_FRAME * length frames.now }
    requires size { size ≡ sum_by sent_frame_size frames.now }
    requires room { size ≤ length arena.old }
    ensures { arena.new ≡ flat_map (sent_text core.now.history) frames.now ++ drop size arena.old }
{
    let (front, _) = arena.split_at_mut(size);
    fill_at_once(rt, core, tasks, frames, front, gate);
}

impl Conductor {
    /// Sends tasks with the results of `send`: answers, frames and bytes are equal. Each task's part of the arena is written by
    /// a worker of its own, all at once. Each worker calls the gate once, with its task's place among the tasks, before it
    /// writes. The call returns when all workers have ended. If the system starts no worker for a part, this thread writes it.
    /// No clause says that the workers run at once.
    pub fn send_at_once<R: Threads + Sync, G: Gate + Sync>(
        &mut self,
        rt: &R,
        alloc: Global,
        tasks: &[u8],
        arena: &mut [u8],
        gate: &G,
    ) -> Result<Vec<Sending>, CoreFault>
        requires { AreSentTogether tasks.now }
        ensures frames { IfOk result (λ frames. frames.items ≡ proposal (core_history self.old) tasks.now) }
        ensures sent { OnOk result (arena.new ≡ arena_sent (core_history self.old) tasks.now arena.old) }
        ensures accepted { OnOk result (lowest (send_into_faults (core_history self.old) tasks.now (length arena.old)) ≡ None) }
        ensures entries { OnOk result (core_history self.new ≡ entries_after (core_history self.old) (SendsTasks tasks.now)) }
        ensures lists { SameLists self.old self.new }
        ensures refused { IfErr result (λ fault. fault ≢ Memory → lowest (send_into_faults (core_history self.old) tasks.now (length arena.old)) ≡ Some fault) }
        ensures early { IfSome (lowest (early_faults (length (owed_blocks (core_history self.old))) tasks.now)) (λ fault. result ≡ Err fault) }
        ensures unchanged { OnErr result (self.new ≡ self.old) }
        ensures untouched { OnErr result (arena.new ≡ arena.old) }
    {
        let mut frames = Vec::new(alloc);
        let size = self.core.propose_within(tasks, arena.len(), &mut frames)?;
        fill_front_at_once(rt, &self.core, tasks, frames.as_slice(), size, arena, gate);
        self.commit(frames.as_slice());
        Ok(frames)
    }
}
