//! Slave machines in a row. Frames go through the machines of each segment in order, and from one segment's thread to
//! the next; what comes out is what one segment of all machines makes of them. A simulated line has a machine for each
//! slave of the line, which comes and goes with its group. The program runs one.
#![tactic(auto)]

mod chains;
mod changing;
mod faults;
mod flow;
mod fresh;
pub mod laws;
mod line;
pub mod line_laws;
mod rings;
mod rows;
mod segment;
mod setup;

pub use chains::chain;
pub use changing::LineEdit;
pub use faults::ChainFault;
pub use hc_machine::SlaveMachine;
pub use line::SimulatedLine;
pub use segment::Segment;
