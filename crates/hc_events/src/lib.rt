//! Events of the core, its answers, and their meaning: events, answers, faults, sendings and changes. `specs/` defines by a
//! record of accepted entries which arrival answers which sending, which data a task reads, which data are sent, and which
//! register blocks are owed. The core keeps to it; the crates above use these types and that record alone.
#![tactic(auto)]

pub mod answer;
pub mod change;
pub mod event;
pub mod faults;
pub mod laws;
pub mod sending;
pub mod together;

pub use answer::Answer;
pub use event::Event;
pub use faults::CoreFault;
pub use sending::Sending;
