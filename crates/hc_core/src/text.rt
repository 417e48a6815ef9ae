//! Bytes that contracts alone see.
use std::snapshot::Snapshot;

/// Bytes, the last one outermost. At run time it is a tag.
#[derive(Drop)]
pub enum Text {
    /// No byte.
    Empty,
    /// Bytes and one more.
    Then(Snapshot<Text>, Snapshot<u8>),
}

mod steps;

pub use steps::text_of;
