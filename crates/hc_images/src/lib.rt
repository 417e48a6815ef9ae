//! The process data image. The inputs are each datagram's data of its last good answer since they were cleared, or none. The
//! outputs are values packed as they are sent, so that posting and sending copy bytes; an edit moves them to their new places.
//! The core has both, a published copy the inputs.
#![tactic(auto)]

pub mod inputs;
pub mod moves;
pub mod outputs;
mod row;
mod rows;
mod slot;

pub use inputs::Inputs;
pub use moves::Moves;
pub use outputs::Outputs;
