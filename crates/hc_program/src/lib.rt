//! The program's run over any reader and writer: it reads project text and commands, and writes replies. `hotline` calls it
//! with standard input and output.
#![tactic(auto)]

pub mod checking;
mod commands;
pub mod engine;
mod frames;
pub mod laws;
mod opening;
mod places;
mod refusals;
mod replies;
mod session;
mod stops;
mod turn;

pub use checking::run_projectcheck;
pub use engine::{Broken, RunEnd, run_hotline};
