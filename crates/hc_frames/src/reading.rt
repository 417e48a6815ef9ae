//! The reader of frames that return. The core and the segment call it.

mod datagrams;
mod faults;
mod fields;
mod frames;
mod returned;

pub use faults::FrameFault;
pub use fields::{long_at, word_at};
pub use frames::read_frame;
pub use returned::{Part, Parts, Returned};
