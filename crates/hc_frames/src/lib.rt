//! EtherCAT frames as bytes (ETG.1000.4, frame, header and datagram structure). The builders write exactly the bytes of
//! `specs/FrameText`, and the reader returns for every list of bytes what `specs/Arrived` defines. The core and the segment
//! call this crate. It allocates nothing.
#![tactic(auto)]

pub mod building;
mod commands;
pub mod laws;
pub mod limits;
pub mod reading;

pub use building::Room;
pub use commands::Command;
pub use reading::{FrameFault, Part, Returned, read_frame};
