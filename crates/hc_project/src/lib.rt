//! The reader of project text: TOML in, a checked project out. A program that opens a line calls it once, with the bytes before
//! the commands.
#![tactic(auto)]

mod arrays;
pub mod laws;
mod levels;
mod located;
mod places;
mod reading;
mod repeats;
mod searches;
mod text;
mod values;

pub use located::{Found, locate};
pub use places::{Key, Location, Place};
pub use text::{read_group, read_project};
