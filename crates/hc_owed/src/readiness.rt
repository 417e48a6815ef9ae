//! `Readiness`: the tasks that can be sent while register blocks are owed.
ghost use Rattle.std.specs.Prelude.{◌≡◌, ℕ, ◌+◌, ◌*◌, ◌==◌, ◌<◌, ◌≤◌, IfSome, None, false, length};
ghost use Rattle.std.specs.Option.{option_map_or};
ghost use Rattle.hc_records.specs.declared.limits.TheConstants.{TASKS};
ghost use Rattle.hc_records.specs.Line.{groups_of};
ghost use Rattle.hc_records.specs.Project.{lowest_fault};
ghost use Rattle.hc_registers.specs.RankPlaces.{places};
ghost use Rattle.hc_events.specs.Ready.{names_task};
ghost use Rattle.hc_owed.specs.Readiness.{judged_at, none_unplugged, unknown_registers};
ghost use Rattle.hc_owed.specs.ReadinessSteps.{block_moved};
ghost use Rattle.hc_owed.specs.RegisterState.{nothing_known};

use crate::area::{JudgedArea, OwedPair, RegisterStatus, Turn};
use crate::owed::Owed;
use crate::tally::Tally;
use crate::task_set::TaskSet;
use hc_plan::plan::Plan;
use hc_records::limits::TASKS;
use hc_registers::blocks::Block;
use hc_registers::ranked::{Gone, RankedBlock};
use std::alloc::{AllocError, Global};
use std::marker::Model;

/// The number of logical addresses that a task has (this project's profile).
const TASK_SPAN: u32 = 0x0100_0000;

/// Returns the task, 0 to 7, with the logical address at which a block's FMMU begins, if the block is an active FMMU's. None
/// for the block of a sync manager, for an FMMU that is not active, and for addresses of no task (ETG.1000.4, 6.6).
fn named_task(block: &Block) -> Option<u8>
    ensures named { (task : ℕ) → task < TASKS → names_task task block.now.bytes ≡ option_map_or (λ own. own == task) result false }
    ensures low { IfSome result (λ task. task < TASKS) }
{
    let [a, b, c, d, _, _, _, _, _, _, _, _, active, _, _, _] = *block.bytes() else {
        return None;
    };
    let span = u32::from_le_bytes([a, b, c, d]) / TASK_SPAN;
    if active != 1 || span == 0 || span > u32::from(TASKS) {
        return None;
    }
    Some((span - 1) as u8)
}

/// Returns the state of the area with an index at the opening. Of an area in the line both blocks are owed, and the register is
/// unknown.
fn opened_area(plan: &Plan, n: usize) -> JudgedArea
    requires inside { 2 * n + 1 < length (places plan.now) }
    requires low { n < 8 * 65535 }
    requires project { lowest_fault (groups_of plan.now.groups) ≡ None }
    ensures { result ≡ judged_at nothing_known unknown_registers none_unplugged plan.now n }
{
    let rank = (n / 8 + 1) as u16;
    let number = (2 * (n % 8) + 1) as u8;
    match plan.block_of_rank(rank, number) {
        Some(found) => JudgedArea {
            own: TaskSet::of(named_task(&found.block)),
            held: TaskSet::none(),
            owed: OwedPair::Both,
            standing: RegisterStatus::Unknown,
        },
        None => JudgedArea::outside(),
    }
}

/// Returns the state of an area once one of its blocks has moved, which is now owed or not.
pub(crate) fn moved_area(moved: &RankedBlock, owes: bool, area: JudgedArea) -> JudgedArea
    requires { 1 ≤ moved.now.rank }
    ensures { result ≡ block_moved owes moved.now area }
{
    if moved.place() % 2 == 1 {
        let own = TaskSet::of(named_task(&moved.found.block));
        area.fmmu_moved(own, owes)
    } else {
        area.sync_manager_moved(owes)
    }
}

/// The state of the areas of all declared slaves, eight for each slave by rank, present or not: the tasks that each area's
/// blocks and its register keep waiting. Contracts see the list of the areas.
#[derive(Debug, Drop)]
pub struct Readiness {
    pub(crate) areas: Vec<JudgedArea>,
    // the counts of the areas for each task
    pub(crate) tally: Tally,
}

impl Model for Readiness {
    ghost use Rattle.std.specs.Prelude.{◌*◌, ◌<◌, List, length};
    ghost use Rattle.hc_owed.specs.declared.area.JudgedArea.{JudgedArea};
    ghost use Rattle.hc_owed.specs.Tally.{Tallies};

    ghost Value = { List JudgedArea };

    ghost view = { λ readiness. readiness.areas.items };

    ghost invariant = { λ readiness. Tallies readiness.areas.items readiness.tally × (length readiness.areas.items < 8 * 65536) };
}

impl Readiness {
    ghost use Rattle.std.specs.Prelude.{◌≡◌, ℕ, ◌+◌, ◌-◌, ◌*◌, ◌/◌, ◌<◌, ◌≤◌, ◌++◌, [], ◌∷◌, All, Bool, true, false, IfOk, OnOk, is_some, length, slice_get, None, Some};
    ghost use Rattle.std.specs.List.{list_any};
    ghost use Rattle.hc_records.specs.declared.limits.TheConstants.{TASKS};
    ghost use Rattle.hc_records.specs.Edits.{slave_at};
    ghost use Rattle.hc_records.specs.Line.{State, groups_of};
    ghost use Rattle.hc_records.specs.Lists.{changed_at};
    ghost use Rattle.hc_records.specs.Project.{lowest_fault};
    ghost use Rattle.hc_registers.specs.Blocks.{LineBlock};
    ghost use Rattle.hc_registers.specs.RankDifferences.{block_place};
    ghost use Rattle.hc_registers.specs.RankPlaces.{stations};
    ghost use Rattle.hc_plan.specs.Reports.{found_name};
    ghost use Rattle.hc_owed.specs.Areas.{area_after, area_written, fmmu_confirmed, sync_manager_confirmed};
    ghost use Rattle.hc_owed.specs.ChangedTasks.{HasChangedBlocks, moves_task};
    ghost use Rattle.hc_owed.specs.Laws.{known_over, known_with, known_without};
    ghost use Rattle.hc_owed.specs.Readiness.{none_unplugged, readiness_of, unknown_registers};
    ghost use Rattle.hc_owed.specs.ReadinessLaws.{AreReady, AreWaiting, ClearsSlave, ConfirmsAt, FollowsEdit, ForetellsDeclared, ForgetsSlave, SendsAt, TellsReady, UnplugsSlave, WaitsForBlocks, WaitsForRegisters};
    ghost use Rattle.hc_owed.specs.ReadinessSteps.{IsReadinessAt, IsReadinessFor, ReadinessIsEdited, area_moved, areas_moved, changed_from, held_over, held_with, held_without, only_contents, unplugged_over, unplugged_with, with_contents};
    ghost use Rattle.hc_owed.specs.RegisterState.{Knowledge, lacks, nothing_known, register_state_of};
    ghost use Rattle.hc_owed.specs.TaskSets.{has_task, tasks_where};

    /// Returns the state of a line whose slaves were just connected: each block of the line is owed, and each FMMU's register
    /// is unknown. `owed` is the state of its blocks. Fails with `AllocError` if an allocation fails. Of the later calls only
    /// `room_for` allocates.
    pub fn new(alloc: Global, plan: &Plan, owed: &Owed) -> Result<Readiness, AllocError>
        requires owed { owed.now ≡ register_state_of nothing_known plan.now }
        requires project { lowest_fault (groups_of plan.now.groups) ≡ None }
        ensures { IfOk result (λ readiness. readiness ≡ readiness_of nothing_known unknown_registers none_unplugged plan.now) }
    {
        let count = 8 * owed.slaves();
        let mut readiness = Readiness {
            areas: Vec::with_capacity(alloc, count)?,
            tally: Tally {
                blocks: [0; 8],
                registers: [0; 8],
            },
        };
        for n in 0..count {
            readiness.push(opened_area(plan, n))?;
        }
        Ok(readiness)
    }

    /// Adds an area after the others. Fails with `AllocError` if an allocation fails.
    fn push(&mut self, area: JudgedArea) -> Result<(), AllocError>
        requires { length self.old + 1 < 8 * 65536 }
        ensures { OnOk result (self.new ≡ self.old ++ area ∷ []) }
    {
        self.areas.push(area)?;
        self.tally.replace(JudgedArea::outside(), area);
        Ok(())
    }

    /// Returns the area with an index.
    fn area(&self, n: usize) -> JudgedArea
        requires { n < length self.now }
        ensures { slice_get self.now n ≡ Some result }
    {
        self.areas[n]
    }

    /// Replaces the area with an index, and counts both of its blocks and its register again.
    fn set_area(&mut self, n: usize, now: JudgedArea)
        requires { n < length self.old }
        ensures { self.new ≡ changed_at n (λ _. now) self.old }
    {
        let was = self.areas[n];
        self.tally.replace(was, now);
        self.areas[n] = now;
    }

    /// Applies an event of their slaves to the areas from index `from` on, before index `end`.
    fn turn(&mut self, from: usize, end: usize, turn: Turn)
        requires order { from ≤ end }
        requires inside { end ≤ length self.old }
        ensures { self.new ≡ changed_from (area_after turn) from (end - from) self.old }
    {
        for n in from..end {
            let area = self.area(n);
            self.set_area(n, area.after(turn));
        }
    }

    /// Records that a write of the block of an area's FMMU was sent. No count changes by it: the owed block concerns the same
    /// tasks as before, and no register in the line is counted.
    fn write_area(&mut self, n: usize, area: JudgedArea)
        requires { slice_get self.old n ≡ Some area }
        ensures { self.new ≡ changed_at n (λ _. area_written area) self.old }
    {
        self.areas[n] = area.written();
    }

    /// Records that the write of the block at a place was sent: from then on an FMMU's register may hold what the line
    /// configures.
    pub fn sent(&mut self, place: u32)
        requires { place < 2 * length self.old }
        ensures { SendsAt self.old self.new place }
    {
        if place % 2 == 1 {
            let n = place as usize / 2;
            let area = self.area(n);
            self.write_area(n, area);
        }
    }

    /// Records that a write of the block of an area's sync manager was answered well.
    fn confirm_sync_manager(&mut self, n: usize, area: JudgedArea)
        requires { slice_get self.old n ≡ Some area }
        ensures { self.new ≡ changed_at n (λ _. sync_manager_confirmed area) self.old }
    {
        self.tally.confirm_sync_manager(area);
        self.areas[n] = area.sync_manager_confirmed();
    }

    /// Records that a write of the block of an area's FMMU was answered well.
    fn confirm_fmmu(&mut self, n: usize, area: JudgedArea)
        requires { slice_get self.old n ≡ Some area }
        ensures { self.new ≡ changed_at n (λ _. fmmu_confirmed area) self.old }
    {
        self.tally.confirm_fmmu(area);
        self.areas[n] = area.fmmu_confirmed();
    }

    /// Records that the write of the block at a place was answered well, with the bytes that the present line configures: the
    /// block is no longer owed, and an FMMU's register holds these bytes alone.
    pub fn confirmed(&mut self, place: u32)
        requires { place < 2 * length self.old }
        ensures { ConfirmsAt self.old self.new place }
    {
        let n = place as usize / 2;
        let area = self.area(n);
        if place % 2 == 1 {
            self.confirm_fmmu(n, area);
        } else {
            self.confirm_sync_manager(n, area);
        }
    }

    /// Marks each block of the slave with an index by rank, from 0, as owed, if the slave is in the line, since it may have
    /// lost its registers. The bytes that its FMMUs' registers may hold stay.
    pub fn forget(&mut self, index: u16)
        requires { 8 * index + 8 ≤ length self.old }
        ensures { ForgetsSlave self.old self.new index }
    {
        let from = 8 * usize::from(index);
        self.turn(from, from + 8, Turn::Forgotten);
    }

    /// Marks the FMMUs' registers of the slave with an index by rank, from 0, as zeros: they name no task, and are not unknown.
    pub fn clear(&mut self, index: u16)
        requires { 8 * index + 8 ≤ length self.old }
        ensures { ClearsSlave self.old self.new index }
    {
        let from = 8 * usize::from(index);
        self.turn(from, from + 8, Turn::Cleared);
    }

    /// Marks the slave with an index by rank, from 0, which is outside the line, as off the wire: its registers concern no task
    /// until it is in the line again.
    pub fn unplug(&mut self, index: u16)
        requires { 8 * index + 8 ≤ length self.old }
        ensures { UnplugsSlave self.old self.new index }
    {
        let from = 8 * usize::from(index);
        self.turn(from, from + 8, Turn::Unplugs);
    }

    /// Applies the move of a block of the line with an edit, and returns the tasks that its area was in and is in now. `owed`
    /// is the state of the blocks after the edit.
    fn move_block(&mut self, owed: &Owed, moved: &RankedBlock) -> TaskSet
        requires rank { 1 ≤ moved.now.rank }
        requires area { block_place moved.now < 2 * length self.old }
        requires owed { block_place moved.now < length owed.now.owed }
        ensures moved { self.new ≡ changed_at (block_place moved.now / 2) (area_moved owed.now.owed moved.now) self.old }
        ensures tasks { (task : ℕ) → task < TASKS → has_task task result ≡ moves_task self.old task moved.now }
    {
        let place = moved.place();
        let owes = owed.is_owed(place);
        let was = self.area(place / 2);
        let now = moved_area(moved, owes, was);
        self.set_area(place / 2, now);
        was.own.with(now.own)
    }

    /// Applies the moves of blocks of the line with an edit, one after another, and returns the tasks that their areas were in
    /// and are in now.
    fn move_blocks(&mut self, owed: &Owed, moved: &[RankedBlock]) -> TaskSet
        requires ranks { All (λ block. 1 ≤ block.rank) moved.now }
        requires areas { All (λ block. block_place block < 2 * length self.old) moved.now }
        requires owed { All (λ block. block_place block < length owed.now.owed) moved.now }
        ensures moved { self.new ≡ areas_moved owed.now.owed moved.now self.old }
        ensures tasks { (task : ℕ) → task < TASKS → has_task task result ≡ list_any (moves_task self.old task) moved.now }
    {
        let mut set = TaskSet::none();
        for block in moved {
            set = set.with(self.move_block(owed, block));
        }
        set
    }

    /// Applies an accepted edit that declares nothing. `gone` are the slaves that left the line, `moved` its moved blocks, and
    /// `owed` the state of the blocks after the edit. The registers of slaves that came are unknown. The bytes that registers
    /// may hold stay, and the registers of slaves that left concern the tasks that they name from then on. Returns the tasks
    /// whose register blocks the edit changed: a block of one of the task's areas left, came, or has other bytes. It takes the
    /// time of the blocks that left and moved, and allocates nothing.
    pub fn change(&mut self, owed: &Owed, gone: Gone, moved: &[RankedBlock]) -> TaskSet
        requires { ReadinessIsEdited self.old owed.now gone moved.now }
        ensures areas { FollowsEdit self.old self.new owed.now gone moved.now }
        ensures tasks { HasChangedBlocks self.old gone moved.now result }
    {
        let left = self.tasks_left(gone);
        let from = gone.first_place() / 2;
        self.turn(from, from + 8 * usize::from(gone.slaves), Turn::Left);
        left.with(self.move_blocks(owed, moved))
    }

    /// Returns the number of owed blocks that a task, 0 to 7, waits for: those that concern it. It takes constant time.
    pub fn waiting(&self, task: u8) -> u32
        requires { task < TASKS }
        ensures { WaitsForBlocks self.now task result }
    {
        self.tally.blocks[usize::from(task)]
    }

    /// Returns the number of registers of slaves outside the line that a task, 0 to 7, waits for: those with contents that name
    /// it, except those of slaves off the wire. It takes constant time.
    pub fn outside(&self, task: u8) -> u32
        requires { task < TASKS }
        ensures { WaitsForRegisters self.now task result }
    {
        self.tally.registers[usize::from(task)]
    }

    /// True if a task, 0 to 7, waits for nothing, so that it can be sent. It takes constant time.
    pub fn is_ready(&self, task: u8) -> bool
        requires { task < TASKS }
        ensures { TellsReady self.now task result }
    {
        self.tally.is_free(task)
    }

    /// Returns the tasks that wait for nothing. It takes the time of eight tasks.
    pub fn ready(&self) -> TaskSet
        ensures { AreReady self.now result }
    {
        self.tally.free()
    }

    /// Returns the tasks that wait, each for some block or register. The same tasks wait once a group is declared. It takes the
    /// time of eight tasks.
    pub fn waiting_tasks(&self) -> TaskSet
        ensures now { AreWaiting self.now result }
        ensures declared { ForetellsDeclared self.now result }
    {
        self.tally.free().others()
    }
}
