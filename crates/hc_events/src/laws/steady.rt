//! Laws of tasks over edits that do not change them. Each function does nothing, and its contract is a law that holds for every
//! record. Nobody calls it.
ghost use Rattle.hc_events.specs.SteadyLaws.{AcceptedPostsAreSteady, EditsMoveTaskEpochs, EditsOfOthersChangeNoTask, PostsOfTheEpochAreAlike, SameLinesChangeNoTask, SlotsAreSteady, SteadyDataFit, SteadyDataOfTheEpochAreSlots, SteadyPostsAreAccepted, SteadyPostsAreStale, TaskEpochsAreBounded, UnchangedTasksAreUndisturbed};

/// An edit that leaves the line unchanged changes no task: a remap or a move to what there is, and a declared group.
pub fn same_lines_change_no_task()
    ensures { SameLinesChangeNoTask }
{}

/// The epoch of a task is at most the present epoch.
pub fn task_epochs_are_bounded()
    ensures { TaskEpochsAreBounded }
{}

/// An edit that changes a task makes its own epoch the task's, and empties the task's steady data. Any other edit leaves
/// the task's epoch and its steady data.
pub fn edits_move_task_epochs()
    ensures { EditsMoveTaskEpochs }
{}

/// The data that a task reads of a datagram are its steady data, with the same serial, and their answer came in the present
/// epoch.
pub fn slots_are_steady()
    ensures { SlotsAreSteady }
{}

/// Steady data whose answer came in the present epoch are the data that the task reads.
pub fn steady_data_of_the_epoch_are_slots()
    ensures { SteadyDataOfTheEpochAreSlots }
{}

/// Steady data have the length that their datagram has in the present line, and an epoch from the task's epoch to the present
/// one.
pub fn steady_data_fit()
    ensures { SteadyDataFit }
{}

/// A steady post is accepted exactly if there is the task, no edit after the post's epoch changed the task, the epoch is not
/// above the present one, and the post has as many bytes as the task has outputs.
pub fn steady_posts_are_accepted()
    ensures { SteadyPostsAreAccepted }
{}

/// A steady post of a task is refused with `StalePost` exactly if its epoch is below the epoch of the last edit that changed
/// the task, or above the present epoch.
pub fn steady_posts_are_stale()
    ensures { SteadyPostsAreStale }
{}

/// A steady post of the present epoch has the answer that a post with the same bytes has, and leads to the same history.
pub fn posts_of_the_epoch_are_alike()
    ensures { PostsOfTheEpochAreAlike }
{}

/// If a post is accepted, the steady post with the same task, epoch and bytes is accepted too, and leads to the same history.
pub fn accepted_posts_are_steady()
    ensures { AcceptedPostsAreSteady }
{}

/// An accepted edit that does not change a task leaves it undisturbed. The task's datagrams, the places of its variables, the
/// register blocks of its areas, its epoch, the data that it would be sent with and its steady data are the same before and
/// after the edit. Each steady post that would have been accepted before the edit is accepted after it. If the task was ready,
/// it is ready once each slave that came is cleared.
pub fn unchanged_tasks_are_undisturbed()
    ensures { UnchangedTasksAreUndisturbed }
{}

/// In a project an edit that leaves the areas of a task, each in the same slave, does not change the task: connecting or
/// disconnecting a group without an area in the task, and a move or a remap of an area of other tasks.
pub fn edits_of_others_change_no_task()
    ensures { EditsOfOthersChangeNoTask }
{}
