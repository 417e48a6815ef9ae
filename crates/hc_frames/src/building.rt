//! Builders of frames and datagrams as they are sent. The core, the conductor's workers and the program's line call them.

use thiserror::Error;

mod datagrams;
mod frames;
mod heads;
mod loans;
mod opened;

pub use datagrams::{
    add_datagram_of, build_blank_datagram, build_datagram_of, build_write_datagram,
};
pub use frames::{
    build_alias_read, build_blank_frame, build_blank_lrw, build_fmmu_off, build_station,
    build_write, frame_size,
};
pub use heads::{add_head, build_head};
pub use loans::{build_datagram, build_lrw};
pub use opened::{Open, build_frame};

/// The slice is shorter than the frame, which needs this many bytes.
#[derive(Clone, Copy, PartialEq, Eq, Debug, Error)]
#[error("{0} bytes are needed")]
pub struct Room(pub usize);
