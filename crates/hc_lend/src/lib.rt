//! Disjoint parts of a slice, lent one after another or to a thread each.
#![tactic(auto)]

mod at_once;
mod parts;

pub use at_once::{Gate, PartWork, each_at_once};
pub use parts::Parts;
