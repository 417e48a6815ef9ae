//! Reads of a task's view: its own datagrams, after all changes of the viewed copy.
ghost use Rattle.std.specs.Prelude.{◌≡◌, IfSome};
ghost use Rattle.std.specs.Option.{option_copied};
ghost use Rattle.hc_places.specs.Ranges.{IsDatagram};
ghost use Rattle.hc_places.specs.Table.{datagram_in, part_in, place_in};
ghost use Rattle.hc_publish.specs.ChangesSince.{data_shown, epoch_shown};
ghost use Rattle.hc_publish.specs.Values.{value_shown};
ghost use Rattle.hc_conductor.specs.Seats as seats;
ghost use Rattle.hc_conductor.specs.Seats.{seat_epoch, seat_known, task_seat_origin, outputs_size};
ghost use Rattle.hc_conductor.specs.Views as views;
ghost use Rattle.hc_conductor.specs.Views.{view_shown, view_task, answered_to, task_view_origin, view_table};

use super::TaskView;
use crate::seat::TaskSeat;
use crate::viewer::Viewer;
use hc_places::table::{Datagram, Place};
use hc_publish::view_faults::ViewFault;
use hc_records::records::VarId;

impl TaskView {
    /// Returns the epoch: the number of accepted edits that are shown.
    pub fn epoch(&self) -> u32
        ensures { result ≡ epoch_shown (answered_to self.now) }
    {
        self.view.epoch()
    }

    /// Returns the sizes of the task's image in bytes: first the outputs, then the inputs.
    pub fn part(&self) -> (u16, u16)
        ensures { result ≡ part_in (view_table self.now) (view_task self.now) }
    {
        self.view.part()
    }

    /// Returns a datagram of the task by its number, or `None` if the task has fewer. Its offset is that of its data in the
    /// image, and of its outputs in the bytes that `outputs` lends for the epoch.
    pub fn datagram(&self, number: u8) -> Option<Datagram>
        ensures datagram { result ≡ datagram_in (view_table self.now) (view_task self.now) number }
        ensures ranges { IfSome result IsDatagram }
    {
        self.view.datagram(number)
    }

    /// Returns the place of a variable of any task, or `None` if the line has no place for it.
    pub fn place(&self, variable: VarId) -> Option<Place>
        ensures { result ≡ place_in (view_table self.now) variable }
    {
        self.view.place(variable)
    }

    /// Lends the bytes of a datagram of the task from the published copy: those of its last good answer in the epoch. `None` if
    /// it has no good answer in the epoch, or the line has no such datagram.
    pub fn inputs(&self, datagram: u8) -> Option<&[u8]>
        ensures { option_copied result ≡ data_shown (answered_to self.now) (view_task self.now) datagram }
    {
        self.view.inputs(datagram)
    }

    /// Returns the value of an input variable of the task, from its bits in its datagram's bytes. Fails with the first of
    /// these:
    ///
    /// - `NoSuchVariable`: the line has no place for it.
    /// - `IsOutput`: it is an output.
    /// - `OtherTask`: it lies in another task.
    /// - `NotAnswered`: its datagram has no good answer in the epoch.
    pub fn value(&self, variable: VarId) -> Result<u64, ViewFault>
        ensures { result ≡ value_shown (answered_to self.now) (view_task self.now) variable }
    {
        self.view.value(variable)
    }

    /// Ends the view, and returns the seat. Its next outputs are for the epoch that the view showed. Held outputs and posts are
    /// unchanged.
    pub fn leave(self) -> TaskSeat
        ensures known { seat_known result ≡ view_shown self }
        ensures origin { task_seat_origin result ≡ task_view_origin self }
        ensures task { seats.seat_task result ≡ view_task self }
        ensures posts { seats.sender result ≡ views.view_sender self }
        ensures epoch { seat_epoch result ≡ epoch_shown (answered_to self) }
        ensures size { outputs_size result ≡ (part_in (view_table self) (view_task self)).0 }
    {
        let TaskView { view, posts } = self;
        let epoch = view.epoch();
        let (size, _) = view.part();
        let viewer = Viewer {
            seat: view.leave(),
            epoch,
            size,
        };
        TaskSeat { viewer, posts }
    }
}
