//! Reads of a view: its task's datagrams, after all changes of the viewed copy.
ghost use Rattle.std.specs.Prelude.{◌≡◌, IfSome, true};
ghost use Rattle.std.specs.Option.{option_copied};
ghost use Rattle.hc_places.specs.Ranges.{IsDatagram};
ghost use Rattle.hc_places.specs.Table.{datagram_in, part_in, place_in};
ghost use Rattle.hc_publish.specs.ChangesSince.{data_shown, epoch_shown, table_shown};
ghost use Rattle.hc_publish.specs.Values.{value_shown};
ghost use Rattle.hc_publish.specs.Seats.{noted_changes, known, note_origin, seat_origin};
ghost use Rattle.hc_publish.specs.Looks.{shown, view_origin};

use super::View;
use crate::publisher::Note;
use crate::seat::Seat;
use crate::view_faults::ViewFault;
use hc_places::table::{Datagram, Place};
use hc_records::records::VarId;

impl View {
    /// Returns the epoch: the number of swaps among the changes.
    pub fn epoch(&self) -> u32
        ensures { result ≡ epoch_shown self.now.changes_since }
    {
        self.reading.get().shown.epoch()
    }

    /// Returns the sizes of the task's image in bytes: first the outputs, then the inputs.
    pub fn part(&self) -> (u16, u16)
        ensures { result ≡ part_in (table_shown self.now.changes_since) self.now.task }
    {
        self.reading.get().shown.part(self.task)
    }

    /// Returns a datagram of the task by its number, or `None` if the task has fewer.
    pub fn datagram(&self, number: u8) -> Option<Datagram>
        ensures datagram { result ≡ datagram_in (table_shown self.now.changes_since) self.now.task number }
        ensures ranges { IfSome result IsDatagram }
    {
        self.reading.get().shown.datagram(self.task, number)
    }

    /// Returns the place of a variable of any task, or `None` if the line has no place for it.
    pub fn place(&self, variable: VarId) -> Option<Place>
        ensures { result ≡ place_in (table_shown self.now.changes_since) variable }
    {
        self.reading.get().shown.place(variable)
    }

    /// Lends the bytes of a datagram of the task from the published copy: those of its last good answer in the epoch. `None` if
    /// it has no good answer in the epoch, or the line has no such datagram.
    pub fn inputs(&self, datagram: u8) -> Option<&[u8]>
        ensures { option_copied result ≡ data_shown self.now.changes_since self.now.task datagram }
    {
        self.reading.get().shown.data(self.task, datagram)
    }

    /// Returns the value of an input variable of the task, from its bits in its datagram's bytes. Fails with the first of
    /// these:
    ///
    /// - `NoSuchVariable`: the line has no place for it.
    /// - `IsOutput`: it is an output.
    /// - `OtherTask`: it lies in another task.
    /// - `NotAnswered`: its datagram has no good answer in the epoch.
    pub fn value(&self, variable: VarId) -> Result<u64, ViewFault>
        ensures { result ≡ value_shown self.now.changes_since self.now.task variable }
    {
        self.reading.get().shown.value(self.task, variable)
    }

    /// Returns whether the view shows exactly what a note of its publisher carries: `true` if the publisher has not published
    /// since it made the note. After `false` nothing is known.
    pub fn is_of(&self, note: &Note) -> bool
        requires { note_origin note.now ≡ view_origin self.now }
        ensures { result ≡ true → shown self.now ≡ noted_changes note.now }
    {
        let front = &self.reading.get().front;
        front.is_within(&note.front) && note.front.is_within(front)
    }

    /// Ends the view, and returns the seat, which has seen what the view showed.
    pub fn leave(self) -> Seat
        ensures known { known result ≡ shown self }
        ensures origin { seat_origin result ≡ view_origin self }
        ensures task { result.task ≡ self.task }
    {
        let View { task, reading } = self;
        let front = reading.get().front.again();
        Seat {
            task,
            reader: reading.leave(),
            front,
        }
    }
}
