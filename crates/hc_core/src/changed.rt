//! The tasks that an edit changes, and the edit's effect on their data and their epochs.
ghost use Rattle.std.specs.Prelude.{◌≡◌, ◌<◌, ℕ, if◌then◌else◌};
ghost use Rattle.hc_records.specs.declared.limits.TheConstants.{TASKS};
ghost use Rattle.hc_records.specs.Line.{line};
ghost use Rattle.hc_places.specs.Swap.{ChangesAscend};
ghost use Rattle.hc_places.specs.Table.{table_of};
ghost use Rattle.hc_plan.specs.Prepared.{IsPrepared};
ghost use Rattle.hc_owed.specs.TaskSets.{has_task};
ghost use Rattle.hc_events.specs.Steady.{lies_in_task};
ghost use Rattle.hc_core.specs.Changed.{EmptiesIf, EmptiesTasks, HasChangedTasks, HasTasksOfBlocks, IsOfHistory, RaisesTasks, UndatesIf, UndatesTasks, has_place, has_table, remaps};

use crate::ages::Ages;
use hc_images::inputs::Inputs;
use hc_owed::task_set::TaskSet;
use hc_places::swap::Swap;
use hc_places::table::{Place, Places};
use hc_plan::prepared::PreparedEdit;
use hc_records::edit::Edit;
use hc_records::limits::TASKS;
use hc_records::task::Task;

/// The tasks whose tables a swap changes.
fn tables_changed(swap: &Swap) -> TaskSet
    ensures { (task : ℕ) → task < TASKS → has_task task result ≡ has_table swap.now.change task }
{
    let tasks = swap.tasks();
    let mut set = TaskSet::none();
    for changed in tasks {
        set = set.with_task(changed.0.number(), true);
    }
    set
}

/// The task of a place, if there is one.
fn task_of(place: Option<Place>) -> TaskSet
    ensures { (task : ℕ) → task < TASKS → has_task task result ≡ lies_in_task task place }
{
    match place {
        Some(place) => TaskSet::of(Some(place.task)),
        None => TaskSet::none(),
    }
}

/// The tasks that a swap's variables are in, before it or after it. `places` is the table before it.
fn places_changed(places: &Places, swap: &Swap) -> TaskSet
    ensures tasks { (task : ℕ) → task < TASKS → has_task task result ≡ has_place places.now swap.now.change task }
    ensures ascends { ChangesAscend swap.now.change.rows }
{
    let rows = swap.changes();
    let mut set = TaskSet::none();
    for changed in rows {
        let was = task_of(places.old_place(changed));
        set = set.with(was.with(task_of(changed.place())));
    }
    set
}

/// True if an edit is a remap, which gives an area other PDOs.
fn remaps(edit: &Edit) -> bool
    ensures { result ≡ remaps edit.now }
{
    match edit {
        Edit::Remap { .. } => true,
        Edit::Connect(_) | Edit::Disconnect(_) | Edit::Move { .. } | Edit::Declare(_) => false,
    }
}

/// The tasks that a prepared edit changes: a datagram of the task, the place of one of its variables, or a register block of one
/// of its areas differs between the two lines. `places` is the table before the edit, and `blocks` are the tasks whose register
/// blocks it changes. A remap changes one task at most, and any other edit just the tasks of `blocks`: the swap is read only for a
/// remap that changes no block. It allocates nothing.
pub(crate) fn changed_tasks(places: &Places, edit: &PreparedEdit, blocks: TaskSet) -> TaskSet
    requires table { places.now ≡ table_of (line edit.now.old) }
    requires made { IsOfHistory edit.now }
    requires prepared { IsPrepared edit.now }
    requires blocks { HasTasksOfBlocks edit.now blocks }
    ensures { HasChangedTasks edit.now result }
{
    let swap = &edit.report().swap;
    if !blocks.is_empty() || !remaps(swap.edit()) {
        return blocks;
    }
    tables_changed(swap)
        .with(places_changed(places, swap))
        .with(blocks)
}

/// Clears the data and the ages of a task's datagrams, if the task is changed.
fn empty_task(inputs: &mut Inputs, ages: &mut Ages, task: u8, changed: TaskSet)
    requires { task < TASKS }
    ensures slots { EmptiesIf (has_task task changed) task inputs.old inputs.new }
    ensures ages { UndatesIf (has_task task changed) task ages.old ages.new }
{
    if changed.has(task) {
        inputs.clear_task(Task(task));
        ages.clear_task(Task(task));
    }
}

/// Clears the data and the ages of the datagrams of changed tasks.
pub(crate) fn empty_tasks(inputs: &mut Inputs, ages: &mut Ages, changed: TaskSet)
    ensures slots { EmptiesTasks changed inputs.old inputs.new }
    ensures ages { UndatesTasks changed ages.old ages.new }
{
    for task in 0..TASKS {
        empty_task(inputs, ages, task, changed);
    }
}

/// Returns the epoch of a task once an edit with this epoch was accepted: that one if the task is changed, otherwise its own.
fn epoch_after(own: u32, epoch: u32, changed: bool) -> u32
    ensures { result ≡ (if changed then epoch else own) }
{
    if changed { epoch } else { own }
}

/// Sets the epochs of the changed tasks to that of an accepted edit.
pub(crate) fn raise_epochs(epochs: &mut [u32; 8], epoch: u32, changed: TaskSet)
    ensures { RaisesTasks changed epoch epochs.old epochs.new }
{
    for task in 0..TASKS {
        let at = usize::from(task);
        epochs[at] = epoch_after(epochs[at], epoch, changed.has(task));
    }
}
