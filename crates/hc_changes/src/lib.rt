//! The changes of an edit to a line's configuration, given by few areas: those of the slaves that it concerns, and those in
//! datagrams that it does not keep. All other areas are configured as they were. The plan's reports and swaps are made from
//! these areas.
#![tactic(auto)]

pub mod edited_line;
pub mod finding;
pub mod laws;
pub mod maybe_moved_areas;
mod ranks;
pub mod rows;
pub mod tables;

pub use edited_line::EditedLine;
