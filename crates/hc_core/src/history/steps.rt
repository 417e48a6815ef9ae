//! The entries that the record grows by.
ghost use Rattle.std.specs.Prelude.{◌≡◌, ◌∷◌, map};
ghost use Rattle.hc_events.specs.Accepted.{just_opened};
ghost use Rattle.hc_events.specs.Arrivals.{arrival_in};
ghost use Rattle.hc_events.specs.Entries.{Cleared, Edited, Forgot, Posted, Sent, Unplugged, Wrote};
ghost use Rattle.hc_events.specs.Steps.{with_arrival, with_sent};
ghost use Rattle.hc_sendings.specs.WriteFrames.{block_of};
ghost use Rattle.hc_core.specs.Records.{history_read};

use super::HistoryGhost;
use crate::text::text_of;
use hc_events::sending::Sending;
use hc_records::edit::Edit;
use hc_records::project::Project;
use hc_sendings::write_frames::WriteFrame;
use std::snapshot::Snapshot;

impl HistoryGhost {
    /// Returns the record of a project in which nothing has happened.
    pub fn opened(project: &Project) -> HistoryGhost
        ensures { history_read result ≡ just_opened project.now }
    {
        HistoryGhost::Opened(Snapshot::of(project))
    }

    /// Returns this record with an edit after it.
    pub fn edited(&self, edit: &Edit) -> HistoryGhost
        ensures { history_read result ≡ Edited edit.now ∷ history_read self.now }
    {
        HistoryGhost::Edited(Snapshot::of(self), Snapshot::of(edit))
    }

    /// Returns this record with a task's post after it.
    pub fn posted(&self, task: u8, bytes: &[u8]) -> HistoryGhost
        ensures { history_read result ≡ Posted task bytes.now ∷ history_read self.now }
    {
        let text = text_of(bytes);
        HistoryGhost::Posted(Snapshot::of(self), Snapshot::of(&task), Snapshot::of(&text))
    }

    /// Returns this record with a frame of tasks after it.
    pub fn sent(&self, frame: &Sending) -> HistoryGhost
        ensures { history_read result ≡ Sent frame.now.datagrams ∷ history_read self.now }
    {
        HistoryGhost::Sent(Snapshot::of(self), Snapshot::of(frame))
    }

    /// Returns this record with a frame of register writes after it.
    pub fn wrote(&self, frame: &WriteFrame) -> HistoryGhost
        ensures { history_read result ≡ Wrote (map block_of frame.now.blocks) ∷ history_read self.now }
    {
        HistoryGhost::Wrote(Snapshot::of(self), Snapshot::of(frame))
    }

    /// Returns this record with an arrival after it, or unchanged if the arrival's bytes cannot be read as a frame.
    pub fn came(&self, bytes: &[u8]) -> HistoryGhost
        ensures { history_read result ≡ with_arrival (history_read self.now) (arrival_in bytes.now) }
    {
        let text = text_of(bytes);
        HistoryGhost::Came(Snapshot::of(self), Snapshot::of(&text))
    }

    /// Returns this record with a forgotten slave after it.
    pub fn forgot(&self, station: u16) -> HistoryGhost
        ensures { history_read result ≡ Forgot station ∷ history_read self.now }
    {
        HistoryGhost::Forgot(Snapshot::of(self), Snapshot::of(&station))
    }

    /// Returns this record with a cleared slave after it.
    pub fn cleared(&self, station: u16) -> HistoryGhost
        ensures { history_read result ≡ Cleared station ∷ history_read self.now }
    {
        HistoryGhost::Cleared(Snapshot::of(self), Snapshot::of(&station))
    }

    /// Returns this record with an unplugged slave after it.
    pub fn unplugged(&self, station: u16) -> HistoryGhost
        ensures { history_read result ≡ Unplugged station ∷ history_read self.now }
    {
        HistoryGhost::Unplugged(Snapshot::of(self), Snapshot::of(&station))
    }

    /// Adds frames of tasks to this record, one after another.
    pub fn sent_all(&mut self, frames: &[Sending])
        ensures { history_read self.new ≡ with_sent (history_read self.old) frames.now }
    {
        for frame in frames {
            *self = self.sent(frame);
        }
    }
}
