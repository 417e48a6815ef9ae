//! The core: it answers the master's events, and records those that it accepts. Events are edits, posts, sendings, register
//! writes, arrivals, reports on slaves, and reads; reads are not recorded. The meaning of an event is this project's profile,
//! over frames of ETG.1000.4.
#![tactic(auto)]

mod adding;
mod ages;
mod areas;
pub mod arena;
mod arriving;
mod buffers;
mod changed;
mod choosing;
mod declaring;
mod discarding;
mod editing;
mod filling;
mod fmmus;
mod forgetting;
mod good_answers;
mod history;
pub mod keeping;
pub mod laws;
pub mod naming;
mod opening;
mod owing;
mod parting;
mod posting;
pub mod prepared;
mod reading;
mod ready;
mod sending;
mod serving;
mod steady;
mod taking;
mod text;
mod waiting;
pub mod writing;

pub use keeping::Core;
pub use prepared::CoreEdit;
