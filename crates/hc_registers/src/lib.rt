//! The contents that the registers of a line's slaves are to hold: sync manager and FMMU blocks; and the working counter that a
//! datagram is expected to come back with. `ranked` has the blocks by the rank of their slaves. The plan asks for blocks, and
//! the slave machine reads their fields.
#![tactic(auto)]

pub mod blocks;
pub mod counters;
pub mod fmmu;
pub mod laws;
pub mod rank_laws;
pub mod ranked;
pub mod registers;
pub mod sync_manager;

pub use blocks::{Block, LineBlock};
pub use fmmu::Mapping;
