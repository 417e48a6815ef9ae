//! The places of a line: of the areas in their datagrams, of the datagrams in the image of a task, and of the variables in
//! both. The plan configures a line with it; the core and the views look places up.
#![tactic(auto)]

mod comparing;
pub mod configure;
pub mod datagram_uses;
mod datagrams;
pub mod laws;
mod merging;
mod middle;
mod near;
pub mod room;
pub mod swap;
pub mod table;
pub mod variables;

pub use swap::Swap;
pub use table::Places;
