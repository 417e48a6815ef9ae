//! The programmed line: the blocks of a plan are written through a segment of slave machines, and a task's process data is sent
//! through them. The laws state what the blocks mean to the slaves. They also state that each bit of each variable is carried,
//! and nothing else, by a programmed line, and by a wire that carries the variable's task whatever else its FMMUs pair.
#![tactic(auto)]

pub mod carrying_laws;
mod exchanging;
pub mod holding_laws;
pub mod programmed_laws;
mod programming;
mod sending;
pub mod task_laws;

pub use exchanging::{exchange, exchange_ready};
pub use programming::program;
