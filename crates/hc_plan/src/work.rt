//! `Work`: the part of a prepared edit that carrying it out needs, so that this allocates nothing and cannot fail.
use crate::declaring::Declaration;
use hc_cuts::starts::LineStarts;
use hc_groups::prepared::Prepared;
use hc_places::room::Room;

/// A change of the line: a group is connected or disconnected, or an area of a slave gets other PDOs or another task.
#[derive(Drop)]
pub(crate) struct LineWork {
    pub(crate) change: Prepared,
    // the boundaries of the new line's tasks
    pub(crate) starts: LineStarts,
    // for the new table's rows
    pub(crate) rows: Room,
}

/// The work of a prepared edit.
#[derive(Drop)]
pub(crate) enum Work {
    /// The line changes.
    NewLine(LineWork),
    /// An area without bits is in another task, and the line stays configured as it is.
    NewTask(Prepared),
    /// A group is declared, and the line stays.
    NewGroup(Declaration),
}
