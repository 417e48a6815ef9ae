//! The conductor, which a master embeds. One thread owns it, with the core and the publisher. Each task has a seat: it views
//! what was published, posts what is to be sent, and waits for nobody.
#![tactic(auto)]

mod at_once;
pub mod conductor;
mod events;
pub mod one_thread;
mod opening;
mod publishing;
pub mod seat;
mod sending;
pub mod taking;
mod together;
pub mod view;
mod viewer;

pub use conductor::Conductor;
pub use opening::open;
