//! Posts of tasks.
ghost use Rattle.std.specs.Prelude.{◌≡◌, ◌≢◌, ◌<◌, ◌≤◌, [], ◌∷◌, ◌++◌, IfErr, IfOk, None, OnErr, OnOk, Some, false, length, replicate, slice_index_or, map, true};
ghost use Rattle.hc_records.specs.declared.limits.TheConstants.{TASKS};
ghost use Rattle.hc_publish.specs.ChangesSince.{IsLegal, epoch_shown, table_shown};
ghost use Rattle.hc_publish.specs.Seats.{noted_changes, note_origin};
ghost use Rattle.hc_rings.specs.Post.{post_of};
ghost use Rattle.hc_rings.specs.Ring.{SameSender, known_places, known_spares};
ghost use Rattle.hc_conductor.specs.Conducting.{SameChanges};
ghost use Rattle.hc_conductor.specs.Outputs.{SameSeat};
ghost use Rattle.hc_conductor.specs.Seats.{SeatPostsEach, seat_epoch, seat_held, seat_known, seat_posted, task_seat_origin, sender, outputs_size, seat_task};
ghost use Rattle.hc_conductor.specs.Views as views;
ghost use Rattle.hc_conductor.specs.declared.one_thread.refusals.PostRefusal.TheVariants as why;
ghost use Rattle.hc_conductor.specs.Mastering.{master_history, master_shown, waiting};
ghost use Rattle.hc_conductor.specs.Posting.{HasViewed, PostIsFilled, first_refused, ring_is_full, known_to, post_refused, with_post, IsPostRefusalOf, post_shown};

use crate::one_thread::master::Master;
use crate::one_thread::refusals::PostRefusal;
use crate::one_thread::settings::{Setting, put_settings};
use crate::seat::TaskSeat;
use crate::view::TaskView;
use core::mem::replace_with;
use hc_publish::publisher::Note;
use hc_rings::POSTS_WAITING;
use std::alloc::{AllocError, Global};

/// Returns a list of `count` zeros. `AllocError` if an allocation fails.
fn zeros(alloc: Global, count: usize) -> Result<Vec<u8>, AllocError>
    ensures { IfOk result (λ bytes. bytes.items ≡ replicate count 0) }
{
    vec![in alloc; 0; count]
}

/// Returns the bytes that a task posts in a view: its settings at their places, and 0 for every other output. Fails with the
/// reason of the first refused setting, or with `Memory` if an allocation fails.
fn filled(
    alloc: Global,
    view: &TaskView,
    task: u8,
    settings: &[Setting],
) -> Result<Vec<u8>, PostRefusal>
    requires task { task ≡ views.view_task view.now }
    requires known { task < TASKS }
    requires legal { IsLegal (views.answered_to view.now) }
    ensures filled { IfOk result (λ bytes. PostIsFilled (table_shown (views.answered_to view.now)) task settings.now bytes.items) }
    ensures refused { IfErr result (λ refusal. refusal ≢ why.Memory → first_refused (table_shown (views.answered_to view.now)) task settings.now ≡ Some refusal) }
{
    let (size, _) = view.part();
    let mut bytes = zeros(alloc, usize::from(size))?;
    if let Err(refusal) = put_settings(view, task, settings, &mut bytes) {
        return Err(refusal);
    }
    Ok(bytes)
}

/// Returns the bytes that a task posts in what a note carries, and the seat, which has then viewed it. Fails with `NoEntry` if
/// the seat gets no view, and otherwise as `filled` does.
fn fill(
    seat: TaskSeat,
    asked: (&Note, u8, &[Setting], Global),
) -> (TaskSeat, Result<Vec<u8>, PostRefusal>)
    requires origin { note_origin asked.0.now ≡ task_seat_origin seat }
    requires known { seat_known seat ≡ noted_changes asked.0.now }
    requires task { (seat_task seat ≡ asked.1) × (asked.1 < TASKS) }
    ensures filled { IfOk result.1 (λ bytes. PostIsFilled (table_shown (known_to seat)) (seat_task seat) asked.entry.2.now bytes.items) }
    ensures viewed { IfOk result.1 (λ bytes. (seat_epoch result.0 ≡ epoch_shown (known_to seat)) × (outputs_size result.0 ≡ length bytes.items)) }
    ensures refused { IfErr result.1 (IsPostRefusalOf (first_refused (table_shown (known_to seat)) (seat_task seat) asked.entry.2.now)) }
    ensures same { (seat_known result.0 ≡ seat_known seat) × (task_seat_origin result.0 ≡ task_seat_origin seat) × (seat_task result.0 ≡ seat_task seat) }
    ensures posts { sender result.0 ≡ sender seat }
{
    let (note, task, settings, alloc) = asked;
    match seat.view_of(note) {
        Ok(view) => {
            let bytes = filled(alloc, &view, task, settings);
            (view.leave(), bytes)
        }
        Err(seat) => (seat, Err(PostRefusal::NoEntry)),
    }
}

/// Posts bytes, as many as the task has outputs, in a buffer that the seat knows to be free.
#[tactic(auto, using(crate::proofs::Made::written_over))]
fn post_bytes(seat: &mut TaskSeat, bytes: &[u8])
    requires size { length bytes.now ≡ outputs_size seat.old }
    requires spare { 0 < known_spares (sender seat.old) }
    requires place { 2 ≤ known_places (sender seat.old) }
    ensures seat { SameSeat seat.old seat.new }
    ensures ring { SameSender (sender seat.old) (sender seat.new) }
    ensures posted { seat_posted seat.new ≡ seat_posted seat.old ++ post_of (seat_epoch seat.old) bytes.now ∷ [] }
    ensures held { seat_held seat.new ≡ None }
    ensures each { SeatPostsEach seat.old → SeatPostsEach seat.new }
{
    let Ok(()) = seat.hold() else { unreachable!() };
    seat.held_mut().copy_from_slice(bytes);
    let Ok(()) = seat.post() else { unreachable!() };
}

impl Master {
    /// Returns the bytes that a task, 0 to 7, posts in what is shown, which its seat has then viewed. Fails as `fill` does.
    fn filled_for(
        &mut self,
        alloc: Global,
        task: u8,
        settings: &[Setting],
    ) -> Result<Vec<u8>, PostRefusal>
        requires { task < TASKS }
        ensures filled { IfOk result (λ bytes. PostIsFilled (table_shown (master_shown self.old)) task settings.now bytes.items) }
        ensures viewed { IfOk result (λ bytes. HasViewed self.new task (epoch_shown (master_shown self.old)) (length bytes.items)) }
        ensures refused { IfErr result (IsPostRefusalOf (first_refused (table_shown (master_shown self.old)) task settings.now)) }
        ensures conductor { self.new.conductor ≡ self.old.conductor }
        ensures waiting { waiting self.new ≡ waiting self.old }
    {
        let note = self.conductor.note();
        replace_with(
            &mut self.seats[usize::from(task)],
            (&note, task, settings, alloc),
            fill,
        )
    }

    /// Posts the bytes of a task, 0 to 7, for the epoch that its seat viewed last. Fails with `NoSpare` exactly if four posts
    /// of the task wait; then nothing is posted.
    fn post_known(&mut self, task: u8, bytes: &[u8]) -> Result<(), PostRefusal>
        requires task { task < TASKS }
        requires viewed { slice_index_or (map outputs_size self.old.seats) task 0 ≡ length bytes.now }
        ensures posted { OnOk result (waiting self.new ≡ with_post task (post_of (slice_index_or (map seat_epoch self.old.seats) task 0) bytes.now) (waiting self.old)) }
        ensures room { OnOk result (ring_is_full task (waiting self.old) ≡ false) }
        ensures full { IfErr result (λ refusal. (refusal ≡ why.NoSpare) × (ring_is_full task (waiting self.old) ≡ true)) }
        ensures unchanged { OnErr result (waiting self.new ≡ waiting self.old) }
        ensures record { master_history self.new ≡ master_history self.old }
        ensures changes { SameChanges self.old.conductor self.new.conductor }
    {
        let waiting = self.conductor.posts_waiting(&mut self.seats);
        if waiting[usize::from(task)] >= POSTS_WAITING as u32 {
            return Err(PostRefusal::NoSpare);
        }
        post_bytes(&mut self.seats[usize::from(task)], bytes);
        Ok(())
    }

    /// Posts values for output variables of a task, 0 to 7, at their places in what is shown and for the epoch that is shown.
    /// Every other output is 0. If a variable is named twice its last value is posted. It waits for nobody. Fails with one of
    /// these; then nothing is posted:
    ///
    /// - For the first refused value the first of: `NoSuchVariable`, the line has no place for it (0 is no variable's number);
    ///   `IsInput`; `OtherTask`; `TooWide`, it has too few bits.
    /// - `NoSpare`: exactly if no value is refused and four posts of the task wait.
    /// - `NoEntry`: the seat gets no view.
    /// - `Memory`: an allocation failed.
    pub fn post(&mut self, alloc: Global, task: u8, settings: &[Setting]) -> Result<(), PostRefusal>
        requires { task < TASKS }
        ensures posted { OnOk result (waiting self.new ≡ with_post task (post_shown (master_shown self.old) task settings.now) (waiting self.old)) }
        ensures accepted { OnOk result (post_refused (table_shown (master_shown self.old)) task settings.now (waiting self.old) ≡ None) }
        ensures refused { IfErr result (IsPostRefusalOf (post_refused (table_shown (master_shown self.old)) task settings.now (waiting self.old))) }
        ensures unchanged { OnErr result (waiting self.new ≡ waiting self.old) }
        ensures record { master_history self.new ≡ master_history self.old }
        ensures changes { SameChanges self.old.conductor self.new.conductor }
    {
        let bytes = self.filled_for(alloc, task, settings)?;
        self.post_known(task, &bytes)
    }
}
