//! The eight tasks of a line: the areas of each in a tree of sums, with its boundaries.
ghost use Rattle.std.specs.Prelude.{◌≡◌, [], IfOk, replicate};

use crate::applying::{apply_in_tasks, restore_in_tasks};
use crate::areas::SlaveAreas;
use crate::cursor::Cursor;
use crate::cuts::Cuts;
use crate::line_change::LineChange;
use crate::packing::Placed;
use crate::starts::LineStarts;
use crate::widening::{admit_all, all_widened};
use hc_bitsum::steps::Steps;
use hc_records::faults::EditFault;
use hc_records::keys::Key;
use hc_records::limits::TASKS;
use hc_records::task::Task;
use std::alloc::{AllocError, Global};
use std::marker::Model;
use std::sync::ledger::Ledger;

/// The areas and the boundaries of the eight tasks of a line.
#[derive(Debug)]
pub struct LineCuts {
    tasks: Vec<Cuts>,
}

impl Drop for LineCuts {
    fn drop(self) {
        let LineCuts { tasks: _ } = self;
    }
}

impl Model for LineCuts {
    ghost use Rattle.std.specs.Prelude.{◌≡◌, All, List, length};
    ghost use Rattle.hc_cuts.specs.Starts.{TaskCuts};

    ghost Value = { List TaskCuts };

    ghost use Rattle.hc_cuts.specs.TaskCuts.{IsCut};

    ghost view = { λ line. line.tasks.items };

    ghost invariant = { λ line. (length line.tasks.items ≡ 8) × All IsCut line.tasks.items };
}

impl LineCuts {
    ghost use Rattle.std.specs.Prelude.{◌≡◌, ◌≢◌, ◌↔◌, ℕ, ◌+◌, ◌*◌, ◌≤◌, List, [], IfErr, IfOk, IsTrue, None, OnErr, OnOk, Some, length, map, option_map, replicate};
    ghost use Rattle.hc_records.specs.Boundaries.{width_in};
    ghost use Rattle.hc_records.specs.Image.{inside};
    ghost use Rattle.hc_records.specs.Packing.{empty_front, packed};
    ghost use Rattle.hc_records.specs.declared.faults.EditFault.TheVariants.{Memory, TooManyDatagrams};
    ghost use Rattle.hc_records.specs.declared.limits.TheConstants.{MOST_DATAGRAMS, MOST_SLAVES};
    ghost use Rattle.hc_bitsum.specs.Tree.{HasRoom};
    ghost use Rattle.hc_cuts.specs.Inputs.{has_inputs};
    ghost use Rattle.hc_cuts.specs.Place.{place_of};
    ghost use Rattle.hc_cuts.specs.Starts.{most_read};
    ghost use Rattle.hc_cuts.specs.Areas.{list_by, AreaLine};
    ghost use Rattle.hc_cuts.specs.LineCursors.{AreInTasks};
    ghost use Rattle.hc_cuts.specs.TaskCuts.{IsProjectLine, over_limit_from, line_cuts, starts_by};
    ghost use Rattle.hc_cuts.specs.Recut.{recut_from, most_steps_from};
    ghost use Rattle.hc_cuts.specs.Room.{AreOfFewer, TreesCanAdmit, with_absent};
    ghost use Rattle.hc_cuts.specs.ApplyWidths.{AreStartsOf, CanRestoreWidths, CanApplyWidths, RestoresWidths, AppliesWidths};

    /// Returns the tasks of a line of this many declared slaves, at most 2,048, of which none is present.
    fn new(alloc: Global, slaves: u16) -> Result<LineCuts, AllocError>
        requires { slaves ≤ MOST_SLAVES }
        ensures { IfOk result (λ line. line ≡ line_cuts (replicate slaves [])) }
    {
        let mut tasks = Vec::with_capacity(alloc, usize::from(TASKS))?;
        for _ in 0..TASKS {
            tasks.push(Cuts::new(alloc, slaves)?)?;
        }
        Ok(LineCuts { tasks })
    }

    /// Turns the tasks of a line into those of the line that a change leads to, and returns how many spans of touched tasks are
    /// not settled. None of the old line's tasks needs more than 16 datagrams, so a turn back, by the change in the other
    /// direction, never fails. Each span that is not settled takes 1 to 104 steps, and nothing else takes any; a turn that
    /// fails takes at most 16 times 104 for each task in which a width differs. It allocates nothing. Fails with the lowest
    /// task of the new line that needs more than 16 datagrams; then nothing has changed.
    pub fn apply_widths<L: Ledger>(
        &mut self,
        change: &LineChange,
        steps: &mut Steps<L>,
    ) -> Result<u32, u8>
        requires { CanApplyWidths 8 0 self.old change.now }
        ensures applied { (old new : AreaLine) → AppliesWidths 8 0 self.old change.now old new → OnOk result (self.new ≡ line_cuts new) }
        ensures accepted { (old new : AreaLine) → AppliesWidths 8 0 self.old change.now old new → OnOk result (over_limit_from 8 0 new ≡ None) }
        ensures refused { (old new : AreaLine) → AppliesWidths 8 0 self.old change.now old new → IfErr result (λ task. over_limit_from 8 0 new ≡ Some task) }
        ensures unchanged { OnErr result (self.new ≡ self.old) }
        ensures recut { (old new : AreaLine) → AppliesWidths 8 0 self.old change.now old new → IfOk result (λ recut. recut ≡ recut_from 8 0 old new) }
        ensures steps { (old new : AreaLine) → AppliesWidths 8 0 self.old change.now old new → steps.new ≤ steps.old + most_steps_from 8 0 old new }
        ensures least { IfOk result (λ recut. steps.old + recut ≤ steps.new) }
        ensures most { IfOk result (λ recut. steps.new ≤ steps.old + most_read * recut) }
    {
        apply_in_tasks(self.tasks.as_mut_slice(), 0, change, steps)
    }

    /// Turns the tasks of a line into those of the line that a change leads to, whose boundaries are known, for example because
    /// the tasks are turned back. No boundary is searched, so it takes no steps and cannot fail. It allocates nothing.
    pub fn restore_widths(&mut self, change: &LineChange, starts: &LineStarts)
        requires { CanRestoreWidths 8 0 self.old change.now starts.now }
        ensures { (old new : AreaLine) → RestoresWidths 8 0 self.old change.now starts.now old new → self.new ≡ line_cuts new }
    {
        restore_in_tasks(self.tasks.as_mut_slice(), 0, change, starts);
    }

    /// Returns the tasks of a line, computed from nothing. Fails with `TooManyDatagrams` and the lowest task that needs more
    /// than 16, or with `Memory` if an allocation fails.
    pub fn open<'a, L: Ledger>(
        alloc: Global,
        line: &'a [SlaveAreas<'a>],
        steps: &mut Steps<L>,
    ) -> Result<LineCuts, EditFault>
        requires { IsProjectLine line.now }
        ensures cuts { IfOk result (λ cuts. cuts ≡ line_cuts line.now) }
        ensures accepted { OnOk result (over_limit_from 8 0 line.now ≡ None) }
        ensures refused { IfErr result (λ fault. fault ≢ Memory → option_map TooManyDatagrams (over_limit_from 8 0 line.now) ≡ Some fault) }
    {
        let mut cuts = LineCuts::new(alloc, line.len() as u16)?;
        let opening = LineChange::opening(line);
        match cuts.apply_widths(&opening, steps) {
            Ok(_) => Ok(cuts),
            Err(task) => Err(EditFault::TooManyDatagrams(task)),
        }
    }

    /// Returns whether the line's trees have the capacity for this many slaves (`SumTree::has_room`), so that `admit` may be
    /// called. It allocates nothing.
    pub fn has_room(&self, slaves: u16) -> bool
        ensures { (line : AreaLine) → self.now ≡ line_cuts line → IsTrue result ↔ HasRoom (length line) slaves }
    {
        self.tasks[0].has_room(slaves)
    }

    /// Extends the line to this many slaves: as many as it has, or more. `has_room` must have returned that each task's tree of
    /// sums has the capacity. The new slaves come after the line's last one. They have no areas yet, as the slaves of a group
    /// that is not present. Each other slave keeps its areas, and each task its boundaries. It allocates nothing.
    pub fn admit(&mut self, slaves: u16)
        requires { TreesCanAdmit self.old slaves }
        ensures { (line : AreaLine) (count : ℕ) → self.old ≡ line_cuts line → slaves ≡ length line + count → self.new ≡ line_cuts (with_absent count line) }
    {
        admit_all(self.tasks.as_mut_slice(), slaves);
    }

    /// Returns the tasks of the line with this many slaves, at most 2,048, in trees of their own: those after its own have no
    /// areas, as those of a group that is not present. The areas of the line are copied, and no boundary is searched. If
    /// `has_room` is false the trees are at least twice as wide as the line's own, so the tasks of a line that grows slave by
    /// slave are seldom made anew. `AllocError` if an allocation fails.
    pub fn widened(&self, alloc: Global, slaves: u16) -> Result<LineCuts, AllocError>
        requires fewer { AreOfFewer self.now slaves }
        requires most { slaves ≤ MOST_SLAVES }
        ensures { IfOk result (λ cuts. (line : AreaLine) (count : ℕ) → self.now ≡ line_cuts line → slaves ≡ length line + count → cuts ≡ line_cuts (with_absent count line)) }
    {
        let tasks = all_widened(alloc, self.tasks.as_slice(), slaves)?;
        Ok(LineCuts { tasks })
    }

    /// Returns the boundaries of a task without the last one, `Key::END`: `Key::START`, at which the first datagram begins if
    /// there is one, and the keys at which the later ones do. It allocates nothing.
    pub fn starts(&self, task: Task) -> &[Key]
        ensures starts { (line : AreaLine) → self.now ≡ line_cuts line → result.now ≡ starts_by task line }
        ensures few { length result.now ≤ MOST_DATAGRAMS }
    {
        self.tasks[task.as_index()].starts()
    }

    /// Returns whether a task has inputs. No area is read. It allocates nothing.
    pub fn has_inputs(&self, task: Task) -> bool
        ensures { (line : AreaLine) → self.now ≡ line_cuts line → result ≡ has_inputs (list_by task line) }
    {
        self.tasks[task.as_index()].has_inputs()
    }

    /// Returns the areas of a datagram of a task, with their places, in key order; none if the task has no datagram with that
    /// number. `AllocError` if an allocation fails.
    pub fn datagram(
        &self,
        alloc: Global,
        task: Task,
        number: u16,
    ) -> Result<Vec<Placed>, AllocError>
        ensures { IfOk result (λ places. (line : AreaLine) → self.now ≡ line_cuts line → places.items ≡ inside number (packed empty_front (list_by task line))) }
    {
        self.tasks[task.as_index()].datagram(alloc, number)
    }

    /// Returns the areas of a task with their places, in key order. `AllocError` if an allocation fails.
    pub fn places(&self, alloc: Global, task: Task) -> Result<Vec<Placed>, AllocError>
        ensures { IfOk result (λ places. (line : AreaLine) → self.now ≡ line_cuts line → places.items ≡ packed empty_front (list_by task line)) }
    {
        self.tasks[task.as_index()].places(alloc)
    }

    /// Returns the width in bits of an area in a task by its key, as `place` takes it; 0 if the task has no such area. It
    /// allocates nothing.
    pub fn bits(&self, task: Task, key: Key) -> u16
        ensures { (line : AreaLine) → self.now ≡ line_cuts line → result ≡ width_in (list_by task line) key }
    {
        self.tasks[task.as_index()].bits(key)
    }

    /// Returns the place of an area in a task by its key, which has the direction, the rank of the slave in the line, and the
    /// area's index in the slave's record: the datagram of the task that carries it, and its first bit there. `None` if the
    /// task has no such area. It is computed from the widths and the boundaries of the task. It allocates nothing.
    pub fn place(&self, task: Task, key: Key) -> Option<Placed>
        ensures { (line : AreaLine) → self.now ≡ line_cuts line → result ≡ place_of key (list_by task line) }
    {
        self.tasks[task.as_index()].place(key)
    }

    /// Returns a cursor before the first area of each task. It allocates nothing.
    pub(crate) fn cursors(&self) -> [Cursor; 8]
        ensures { AreInTasks self.now result }
    {
        let _tasks = &self.tasks;
        [Cursor::start(); 8]
    }

    /// Returns the place of an area in a task, as `place` does, with the help of cursors that are in the tasks, and are in them
    /// again afterwards. It allocates nothing.
    pub(crate) fn place_from(
        &self,
        cursors: &mut [Cursor; 8],
        task: Task,
        key: Key,
    ) -> Option<Placed>
        requires { AreInTasks self.now cursors.old }
        ensures place { (line : AreaLine) → self.now ≡ line_cuts line → result ≡ place_of key (list_by task line) }
        ensures in_tasks { AreInTasks self.now cursors.new }
    {
        let task = task.as_index();
        self.tasks[task].place_from(&mut cursors[task], key)
    }

    /// Returns a copy of the boundaries of the eight tasks, to be compared with later ones or restored. It allocates nothing.
    pub fn copied_starts(&self) -> LineStarts
        ensures copy { result ≡ map (λ cuts. cuts.starts) self.now }
        ensures starts { (line : AreaLine) → self.now ≡ line_cuts line → AreStartsOf line result }
    {
        LineStarts::of(self.tasks.as_slice())
    }
}
