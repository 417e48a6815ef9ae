//! Laws of the datagrams and tasks that an edit leaves as they were. Each function does nothing, and its contract is a law.
//! Nobody calls it.
ghost use Rattle.hc_changes.specs.Laws.{UnchangedDatagramsStay, UntouchedTasksStay};

/// A datagram that an edit keeps carries the areas that it carried, each at its bit: so its length and its
/// expected working counter stay too.
pub fn unchanged_datagrams_stay()
    ensures { UnchangedDatagramsStay }
{}

/// A task has the table that it had, if no width in its list differs between the lines of two states of a project: its
/// datagrams, their headers and expected working counters, and its parts.
pub fn untouched_tasks_stay()
    ensures { UntouchedTasksStay }
{}
