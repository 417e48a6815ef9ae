//! The frames of tasks, their bytes, and the sendings that may still be answered. The core proposes, fills and commits frames
//! with it, and judges and ends awaited frames.
#![tactic(auto)]

pub mod awaited;
pub mod filling;
mod framing;
mod further_writes;
mod judging;
mod last_sent;
mod last_writes;
pub mod parts;
pub mod proposing;
mod stored;
pub mod write_frames;
pub mod writes;
pub mod writing;

pub use awaited::Awaited;
