//! Seats. A task's thread reads and posts at its seat while another thread, the owner, has the line. The owner shows images and
//! takes posts. Nobody waits.

pub mod ends;
mod handle;
mod lending;
pub mod limits;
pub mod lookers;
mod looking;
mod opening;
mod placing;
mod posting;
pub mod showing;
mod taking;
mod viewing;
