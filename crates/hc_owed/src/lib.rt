//! The registers of the slaves. `Owed` stores the bytes that each register block is known to have, and the blocks that are
//! owed: one place for each block of a declared slave, by rank. The core asks it for the next owed block, and tells it of
//! writes, of their good answers, and of edits. The cost of an edit depends on what it changes, and that of a declared group on
//! its slaves. `Readiness` stores which tasks can be sent while blocks are owed.
#![tactic(auto)]

pub mod area;
mod changed_tasks;
pub mod edit_waits;
mod flags;
pub mod holders;
mod opening;
pub mod owed;
pub mod readiness;
pub mod readiness_room;
pub mod room;
mod stations;
mod tally;
pub mod task_set;

pub use owed::Owed;
pub use readiness::Readiness;
