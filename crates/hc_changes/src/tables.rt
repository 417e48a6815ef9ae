//! `changed_tasks`: the tasks whose tables an edit changes. The use of a kept datagram is in the old table; the areas of every
//! other datagram are gone over.
ghost use Rattle.std.specs.Prelude.{◌≡◌, IfOk, length, map};
ghost use Rattle.hc_records.specs.declared.limits.TheConstants.{TASKS};
ghost use Rattle.hc_records.specs.Image.{task_places, tasks};
ghost use Rattle.hc_records.specs.Line.{line_from};
ghost use Rattle.hc_places.specs.DatagramUses.{IsDatagramUse, datagram_use_in};
ghost use Rattle.hc_places.specs.Swap.{ChangesAscend, AreDifferences};
ghost use Rattle.hc_places.specs.Table.{table_of, task_table};
ghost use Rattle.hc_changes.specs.Tables.{AreOfLine, AfterEdit};

use hc_cuts::line_keeping::Before;
use hc_cuts::tasks::LineCuts;
use hc_places::datagram_uses::DatagramUse;
use hc_places::swap::ChangedTask;
use hc_places::table::{Places, TaskTable};
use hc_records::limits::TASKS;
use hc_records::task::Task;
use std::alloc::{AllocError, Global};

/// Returns the use of a datagram of a task of the new line; a kept datagram has the use that it had. Fails with `AllocError` if
/// an allocation fails.
fn datagram_use_in(
    alloc: Global,
    cuts: &LineCuts,
    old: &Places,
    before: &Before,
    task: Task,
    number: u16,
) -> Result<DatagramUse, AllocError>
    requires { AreOfLine cuts.now }
    ensures value { IfOk result (λ found. AfterEdit old.now before.now cuts.now (λ is. found ≡ datagram_use_in (task_places task (line_from 1 is)) number)) }
    ensures low { IfOk result IsDatagramUse }
{
    if before.is_unchanged(cuts, task, number) {
        return Ok(old.datagram_use(task.number(), number));
    }
    let areas = cuts.datagram(alloc, task, number)?;
    Ok(DatagramUse::of(areas.as_slice(), number))
}

/// Returns the table of a task of the new line: the old one if no width differs in the task. Fails with `AllocError` if an
/// allocation fails.
fn new_table(
    alloc: Global,
    cuts: &LineCuts,
    old: &Places,
    before: &Before,
    task: Task,
) -> Result<TaskTable, AllocError>
    requires { AreOfLine cuts.now }
    ensures { IfOk result (λ table. AfterEdit old.now before.now cuts.now (λ is. table ≡ task_table (line_from 1 is) task)) }
{
    if !before.is_touched(task) {
        // says that the task's number is below 8
        let _ = task.number();
        return Ok(old.task(task));
    }
    let mut table = TaskTable::empty();
    for number in 0..cuts.starts(task).len() {
        let datagram_use = datagram_use_in(alloc, cuts, old, before, task, number as u16)?;
        if datagram_use.length > 0 {
            table.add(task, datagram_use);
        }
    }
    Ok(table)
}

/// The tables of the eight tasks of the new line.
fn new_tables(
    alloc: Global,
    cuts: &LineCuts,
    old: &Places,
    before: &Before,
) -> Result<Vec<TaskTable>, AllocError>
    requires { AreOfLine cuts.now }
    ensures tables { IfOk result (λ tables. AfterEdit old.now before.now cuts.now (λ is. tables.items ≡ map (task_table (line_from 1 is)) tasks)) }
    ensures eight { IfOk result (λ tables. length tables.items ≡ TASKS) }
{
    let mut tables = Vec::with_capacity(alloc, usize::from(TASKS))?;
    for task in 0..TASKS {
        tables.push(new_table(alloc, cuts, old, before, Task(task))?)?;
    }
    Ok(tables)
}

/// Returns the tasks whose tables an edit changes, with their new ones, in the order of their numbers. It reads the trees of
/// the new line, the old line's table, and the state of its tasks before they were turned. A task in which no width differs
/// keeps its table. The use of a kept datagram is in the old table; the areas of every other datagram are gone over. Fails with
/// `AllocError` if an allocation fails.
pub fn changed_tasks(
    alloc: Global,
    cuts: &LineCuts,
    old: &Places,
    before: &Before,
) -> Result<Vec<ChangedTask>, AllocError>
    requires { AreOfLine cuts.now }
    ensures says { IfOk result (λ changed. AfterEdit old.now before.now cuts.now (λ is. AreDifferences old.now.tasks (table_of (line_from 1 is)).tasks changed.items)) }
    ensures ascends { IfOk result (λ changed. ChangesAscend changed.items) }
{
    let tables = new_tables(alloc, cuts, old, before)?;
    old.changed_tasks(alloc, tables.as_slice())
}
