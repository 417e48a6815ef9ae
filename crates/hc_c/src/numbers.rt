//! The numbers that calls return. 1 to 37, but 14 and 17, are the faults of edits and events; no call returns 30.
/// The call was carried out.
pub const DONE: u8 = 0;

/// A task of the opening line needs more than 16 datagrams.
pub const OVER_LIMIT: u8 = 12;

/// An epoch is before the last edit that changed the task, or above the present one.
pub const STALE_POST: u8 = 15;

/// An allocation failed.
pub const MEMORY: u8 = 28;

/// A slice is too short for what the call writes.
pub const ROOM: u8 = 29;

/// The answer of a sending with a task that waits for owed register blocks, or for registers of slaves outside the line;
/// nothing is sent.
pub const WAITS: u8 = 36;

/// The thing that the call asks for does not exist.
pub const NOTHING: u8 = 100;

/// The variable is an input, which takes no value.
pub const IS_INPUT: u8 = 105;

/// The value needs more bits than the variable has.
pub const TOO_WIDE: u8 = 106;

/// The base of a project's faults, 1 to 12: `PROJECT` plus the fault is returned.
pub const PROJECT: u8 = 200;

/// Another call with the handle runs.
pub const BUSY: u8 = 253;

/// A precondition of the call does not hold, or its handle was never zeroed.
pub const MISUSED: u8 = 254;

/// The handle is closed.
pub const CLOSED: u8 = 255;
