//! The record, entry by entry.
use crate::text::Text;
use hc_events::sending::Sending;
use hc_records::edit::Edit;
use hc_records::project::Project;
use hc_sendings::write_frames::WriteFrame;
use std::snapshot::Snapshot;

/// The record of a project: its opening, and after it the accepted events, the last entry outermost. `specs/Records` defines
/// the list of entries that it stands for. At run time it is a tag.
#[derive(Drop)]
pub enum HistoryGhost {
    /// The project was opened.
    Opened(Snapshot<Project>),
    /// An edit was accepted.
    Edited(Snapshot<HistoryGhost>, Snapshot<Edit>),
    /// A post of a task was accepted.
    Posted(Snapshot<HistoryGhost>, Snapshot<u8>, Snapshot<Text>),
    /// A frame of tasks was sent.
    Sent(Snapshot<HistoryGhost>, Snapshot<Sending>),
    /// A frame of register writes was sent.
    Wrote(Snapshot<HistoryGhost>, Snapshot<WriteFrame>),
    /// Bytes arrived.
    Came(Snapshot<HistoryGhost>, Snapshot<Text>),
    /// The registers of the slave with this station address were forgotten.
    Forgot(Snapshot<HistoryGhost>, Snapshot<u16>),
    /// The FMMUs of the slave with this station address are zero.
    Cleared(Snapshot<HistoryGhost>, Snapshot<u16>),
    /// The slave with this station address is off the wire.
    Unplugged(Snapshot<HistoryGhost>, Snapshot<u16>),
}

mod steps;
