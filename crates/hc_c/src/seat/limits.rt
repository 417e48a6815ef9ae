//! The limits of seats.
use hc_records::limits::{MOST_DATAGRAM_BYTES, MOST_DATAGRAMS};

/// The most bytes of a task's image: those of its most datagrams.
pub const LARGEST_IMAGE: usize = MOST_DATAGRAMS * MOST_DATAGRAM_BYTES as usize;

/// The mark of the handle of an open seat: the letters "zangseat". A closed handle has the mark 0. With any other mark it is
/// not a handle.
pub const OPEN_SEAT: u64 = 0x7a61_6e67_7365_6174;
