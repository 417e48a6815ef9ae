//! A conductor with the seats of its eight tasks, all in one thread, for single-threaded masters and the program. A task views
//! exactly what was published last, and the posts that wait are known.
mod events;
mod learning;
pub mod master;
mod opening;
mod posts;
mod publishing;
pub mod refusals;
pub mod settings;
mod taking;
pub mod viewing;

pub use opening::open;
