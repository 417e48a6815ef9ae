//! `Tally`: the number of blocks and registers that each task waits for.
ghost use Rattle.hc_owed.specs.Waiting.{CanCountIn, CanRecount, CanTakeOut, CountsIn, Recounts, TakesOut};

use crate::area::JudgedArea;
use crate::task_set::TaskSet;
use hc_records::limits::TASKS;

/// Subtracts 1 from the counts of the tasks of a set.
fn take_out(counts: &mut [u32; 8], set: TaskSet)
    requires { CanTakeOut counts.old set }
    ensures { TakesOut counts.old counts.new set }
{
    if set.is_empty() {
        return;
    }
    for task in 0..TASKS {
        if set.has(task) {
            let at = usize::from(task);
            counts[at] = counts[at] - 1;
        }
    }
}

/// Adds 1 to the counts of the tasks of a set.
fn count_in(counts: &mut [u32; 8], set: TaskSet)
    requires { CanCountIn counts.old }
    ensures { CountsIn counts.old counts.new set }
{
    if set.is_empty() {
        return;
    }
    for task in 0..TASKS {
        if set.has(task) {
            let at = usize::from(task);
            counts[at] = counts[at] + 1;
        }
    }
}

/// Subtracts 1 from the counts of the tasks of one set, and adds 1 to those of another.
#[inline(always)]
fn recount(counts: &mut [u32; 8], was: TaskSet, now: TaskSet)
    requires { CanRecount counts.old was }
    ensures { Recounts counts.old counts.new was now }
{
    if was == now {
        return;
    }
    take_out(counts, was);
    count_in(counts, now);
}

/// For each task the number of owed blocks that concern it, and the number of registers of slaves outside the line, counted
/// over areas.
#[derive(Clone, Copy, Debug)]
pub(crate) struct Tally {
    pub(crate) blocks: [u32; 8],
    pub(crate) registers: [u32; 8],
}

impl Tally {
    ghost use Rattle.std.specs.Prelude.{◌≡◌, ◌<◌, not};
    ghost use Rattle.hc_records.specs.declared.limits.TheConstants.{TASKS};
    ghost use Rattle.hc_owed.specs.Areas.{fmmu_confirmed, sync_manager_confirmed};
    ghost use Rattle.hc_owed.specs.Tally.{CanPut, Puts, counts_none};
    ghost use Rattle.hc_owed.specs.TaskSets.{tasks_where};

    /// Removes an area from the counts, and counts another area in its place.
    pub(crate) fn replace(&mut self, was: JudgedArea, now: JudgedArea)
        requires { CanPut self.old was }
        ensures { Puts self.old self.new was now }
    {
        recount(
            &mut self.blocks,
            was.sync_manager_concerns(),
            now.sync_manager_concerns(),
        );
        recount(&mut self.blocks, was.fmmu_concerns(), now.fmmu_concerns());
        recount(
            &mut self.registers,
            was.register_concerns(),
            now.register_concerns(),
        );
    }

    /// Removes the sync manager's block of an area from the counts, once a write of it was answered well: it no longer concerns
    /// a task.
    pub(crate) fn confirm_sync_manager(&mut self, was: JudgedArea)
        requires { CanPut self.old was }
        ensures { Puts self.old self.new was (sync_manager_confirmed was) }
    {
        take_out(&mut self.blocks, was.sync_manager_concerns());
    }

    /// Removes the FMMU's block of an area and its register from the counts, once a write of the block was answered well.
    /// Neither the block nor a register outside the line concerns a task any more.
    pub(crate) fn confirm_fmmu(&mut self, was: JudgedArea)
        requires { CanPut self.old was }
        ensures { Puts self.old self.new was (fmmu_confirmed was) }
    {
        take_out(&mut self.blocks, was.fmmu_concerns());
        take_out(&mut self.registers, was.register_concerns());
    }

    /// True if nothing is counted for a task, 0 to 7.
    pub(crate) fn is_free(&self, task: u8) -> bool
        requires { task < TASKS }
        ensures { result ≡ counts_none self.now task }
    {
        let at = usize::from(task);
        self.blocks[at] == 0 && self.registers[at] == 0
    }

    /// Returns the tasks with no count.
    pub(crate) fn free(&self) -> TaskSet
        ensures { result ≡ tasks_where (counts_none self.now) }
    {
        let mut set = TaskSet::none();
        for task in 0..TASKS {
            set = set.with_task(task, self.is_free(task));
        }
        set
    }
}
