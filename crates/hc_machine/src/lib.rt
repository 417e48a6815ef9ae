//! The slave machine, which serves frames as a slave of the line does, so that a configuration can be held against it
//! (ETG.1000.4, 5.4 and 6.6; this project's profile of them). It rests on the reader of frames and on runs of bits. A segment
//! passes frames through a list of machines.
#![tactic(auto)]

mod commands;
mod datagrams;
mod fmmu;
mod frames;
pub mod laws;
pub mod limits;
mod logical;
mod machine;
mod memory;

pub use frames::{is_readable, serve_frame};
pub use machine::SlaveMachine;
