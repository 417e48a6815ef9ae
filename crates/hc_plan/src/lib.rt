//! `Plan`: the groups of a line, of which some are present, and the configuration of the present line. The core and the program
//! ask it for datagrams, places and register blocks.
#![tactic(auto)]

mod applying;
mod area_blocks;
mod bitless;
pub mod blocks;
mod declaring;
mod edits;
pub mod laws;
mod line_widths;
mod moved_blocks;
mod opened_blocks;
mod placed_line;
pub mod plan;
pub mod prepared;
mod register_blocks;
pub mod report;
pub mod shares;
mod work;

pub use plan::Plan;
pub use report::Report;
