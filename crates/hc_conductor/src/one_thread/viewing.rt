//! Views of tasks.
ghost use Rattle.std.specs.Prelude.{◌≡◌, ◌<◌, IfOk};
ghost use Rattle.hc_records.specs.declared.limits.TheConstants.{TASKS};
ghost use Rattle.hc_publish.specs.Seats.{noted_changes, note_origin};
ghost use Rattle.hc_conductor.specs.Conducting.{PublishesAll};
ghost use Rattle.hc_conductor.specs.Seats.{seat_known, task_seat_origin, sender, seat_task};
ghost use Rattle.hc_conductor.specs.Views as views;
ghost use Rattle.hc_conductor.specs.Mastering.{master_history, master_shown, waiting};
ghost use Rattle.hc_conductor.specs.Viewing.{IsViewAfter, IsViewOf, value_answered};

use crate::one_thread::master::Master;
use crate::one_thread::refusals::NoEntry;
use crate::seat::TaskSeat;
use crate::view::TaskView;
use core::mem::replace_with;
use hc_publish::laws::shows_what_is_read;
use hc_publish::publisher::Note;
use hc_publish::view_faults::ViewFault;
use hc_records::records::VarId;

/// A task's view of a variable.
#[derive(Clone, Copy, Debug, PartialEq, Eq)]
pub struct Viewed {
    /// The epoch that is shown.
    pub epoch: u32,
    /// The variable's value in that epoch, or the reason for which the task gets none.
    pub value: Result<u64, ViewFault>,
}

/// Returns the value of the variable with a number in a view. Fails as `TaskView::value` does; the number 0 is
/// `NoSuchVariable`.
fn value_in(view: &TaskView, number: u32) -> Result<u64, ViewFault>
    ensures { result ≡ value_answered (views.answered_to view.now) (views.view_task view.now) number }
{
    match VarId::new(number) {
        Some(variable) => view.value(variable),
        None => Err(ViewFault::NoSuchVariable),
    }
}

/// Returns the epoch and a variable's value in what a note carries, and the seat. Fails with `NoEntry` if the seat gets no
/// view.
fn look(seat: TaskSeat, asked: (&Note, u32)) -> (TaskSeat, Result<Viewed, NoEntry>)
    requires origin { note_origin asked.0.now ≡ task_seat_origin seat }
    requires known { seat_known seat ≡ noted_changes asked.0.now }
    ensures viewed { IfOk result.1 (IsViewOf (record { groups = (task_seat_origin seat).groups; changes = seat_known seat }) (seat_task seat) asked.entry.1) }
    ensures same { (seat_known result.0 ≡ seat_known seat) × (task_seat_origin result.0 ≡ task_seat_origin seat) × (seat_task result.0 ≡ seat_task seat) }
    ensures posts { sender result.0 ≡ sender seat }
{
    let (note, number) = asked;
    match seat.view_of(note) {
        Ok(view) => {
            let viewed = Viewed {
                epoch: view.epoch(),
                value: value_in(&view, number),
            };
            (view.leave(), Ok(viewed))
        }
        Err(seat) => (seat, Err(NoEntry)),
    }
}

impl Master {
    /// Views the variable with a number as a task, 0 to 7: the epoch that is shown, and the variable's value in it or the
    /// reason for which the task gets none. The number 0 is no variable's. Once everything is published the result is what the
    /// core's record gives. It allocates nothing and waits for nobody. Fails with `NoEntry` if the seat gets no view.
    pub fn view(&mut self, task: u8, number: u32) -> Result<Viewed, NoEntry>
        requires { task < TASKS }
        ensures viewed { IfOk result (IsViewOf (master_shown self.old) task number) }
        ensures after_it { PublishesAll self.old.conductor → IfOk result (IsViewAfter (master_history self.old) task number) }
        ensures conductor { self.new.conductor ≡ self.old.conductor }
        ensures waiting { waiting self.new ≡ waiting self.old }
    {
        // what it shows once all is published
        shows_what_is_read();
        let _ = self.conductor.core().plan();
        let note = self.conductor.note();
        replace_with(&mut self.seats[usize::from(task)], (&note, number), look)
    }
}
