//! The library for C: functions over a handle that C stores between two calls. `include/zangjulf.h` declares them. The contract
//! of each says, over the line that the handle holds before and after, what the contract of the core's own call says.
//!
//! A precondition that C can violate is checked, and has an answer of its own (`numbers`). A closed handle is detected and
//! never dereferenced. C sets a handle to zeros before its first call; after that only these calls write it, one at a time.
#![tactic(auto)]

mod arriving;
mod beside;
mod cleared_slaves;
mod counting;
mod declaring;
mod editing;
mod embedded;
mod forgetting;
mod giving;
mod handle;
mod laws;
mod locating;
mod looking;
mod numbers;
mod opening;
mod owing;
mod posting;
mod previewing;
mod readiness;
mod reading;
mod runs;
mod seat;
mod sending;
mod sharing;
mod slave;
mod spare;
mod states;
mod too_short;
mod values;
mod version;
mod widths;
mod writing;
