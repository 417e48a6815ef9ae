//! Views from a seat.
ghost use Rattle.std.specs.Prelude.{◌≡◌, ◌≤◌, ◌⊎◌, Err, IfErr, IfOk, MatchResult, Ok};
ghost use mathlib.Core.List.{IsPrefix};
ghost use Rattle.hc_publish.specs.ChangesSince.{IsLegal};
ghost use Rattle.hc_publish.specs.Seats as inner;
ghost use Rattle.hc_publish.specs.Seats.{noted_changes, note_origin};
ghost use Rattle.hc_rings.specs.declared.post_buffer.TheConstants.{LARGEST_IMAGE};
ghost use Rattle.hc_conductor.specs.Openings.{IsOpenable};
ghost use Rattle.hc_conductor.specs.Seats as seats;
ghost use Rattle.hc_conductor.specs.Seats.{SamePosts, seat_known, task_seat_origin, sender};
ghost use Rattle.hc_conductor.specs.Views.{view_shown, answered_to, task_view_origin};
ghost use Rattle.hc_conductor.specs.Views as views;

use super::TaskSeat;
use crate::view::TaskView;
use crate::viewer::Viewer;
use hc_publish::publisher::Note;
use hc_publish::seat::Seat;
use hc_publish::view::View;
use hc_rings::PostSender;

/// Returns the task's view, or, if the seat gets none, the task's seat unchanged, with the epoch that it viewed last and the
/// size of its outputs in bytes.
fn looked(
    viewed: Result<View, Seat>,
    epoch: u32,
    size: u16,
    posts: PostSender,
) -> Result<TaskView, TaskSeat>
    requires openable { MatchResult viewed (λ view. IsOpenable view.changes_since.groups) (λ seat. IsOpenable (inner.seat_origin seat).groups) }
    requires legal { IfOk viewed (λ view. IsLegal view.changes_since) }
    requires fits { size ≤ LARGEST_IMAGE }
    ensures view { IfOk result (λ view. viewed ≡ Ok view.view) }
    ensures seat { IfErr result (λ seat. viewed ≡ Err (seats.seat_of seat)) }
    ensures posts { MatchResult result (λ view. views.view_sender view ≡ posts) (λ seat. (sender seat ≡ posts) × (seats.seat_epoch seat ≡ epoch) × (seats.outputs_size seat ≡ size)) }
{
    match viewed {
        Ok(view) => Ok(TaskView { view, posts }),
        Err(seat) => Err(TaskSeat {
            viewer: Viewer { seat, epoch, size },
            posts,
        }),
    }
}

impl TaskSeat {
    /// Views what is published now: a legal list that begins with all that the seat saw or learnt. Returns the seat unchanged
    /// if there is no entry. It allocates nothing and waits for nobody.
    pub fn view(self) -> Result<TaskView, TaskSeat>
        ensures begins { MatchResult result (λ view. IsPrefix (seat_known self) (view_shown view)) (λ seat. seat_known seat ≡ seat_known self) }
        ensures legal { IfOk result (λ view. IsLegal (answered_to view)) }
        ensures origin { MatchResult result (λ view. task_view_origin view ≡ task_seat_origin self) (λ seat. task_seat_origin seat ≡ task_seat_origin self) }
        ensures task { MatchResult result (λ view. views.view_task view ≡ seats.seat_task self) (λ seat. seats.seat_task seat ≡ seats.seat_task self) }
        ensures posts { MatchResult result (λ view. views.view_sender view ≡ sender self) (SamePosts self) }
    {
        let TaskSeat { viewer, posts } = self;
        let Viewer { seat, epoch, size } = viewer;
        looked(seat.view(), epoch, size, posts)
    }

    /// Views exactly what a note of the seat's conductor carries, if that is still published: the conductor has not published
    /// since. Returns the seat unchanged if there is no entry, or if something else is published. It allocates nothing and
    /// waits for nobody.
    pub fn view_of(self, note: &Note) -> Result<TaskView, TaskSeat>
        requires { note_origin note.now ≡ task_seat_origin self }
        ensures exact { MatchResult result (λ view. view_shown view ≡ noted_changes note.now) (λ seat. seat_known seat ≡ seat_known self) }
        ensures begins { IfOk result (λ view. IsPrefix (seat_known self) (view_shown view)) }
        ensures legal { IfOk result (λ view. IsLegal (answered_to view)) }
        ensures origin { MatchResult result (λ view. task_view_origin view ≡ task_seat_origin self) (λ seat. task_seat_origin seat ≡ task_seat_origin self) }
        ensures task { MatchResult result (λ view. views.view_task view ≡ seats.seat_task self) (λ seat. seats.seat_task seat ≡ seats.seat_task self) }
        ensures posts { MatchResult result (λ view. views.view_sender view ≡ sender self) (SamePosts self) }
    {
        let TaskSeat { viewer, posts } = self;
        let Viewer { seat, epoch, size } = viewer;
        looked(seat.view_of(note), epoch, size, posts)
    }

    /// Learns what a note of the seat's conductor carries. The seat then knows the longer of the two lists, which begins with
    /// the other. It allocates nothing and waits for nobody.
    pub fn learn(&mut self, note: Note)
        requires { note_origin note ≡ task_seat_origin self.old }
        ensures one { (seat_known self.new ≡ seat_known self.old) ⊎ (seat_known self.new ≡ noted_changes note) }
        ensures own { IsPrefix (seat_known self.old) (seat_known self.new) }
        ensures changes_since { IsPrefix (noted_changes note) (seat_known self.new) }
        ensures same { (task_seat_origin self.new ≡ task_seat_origin self.old) × (seats.seat_task self.new ≡ seats.seat_task self.old) }
        ensures posts { SamePosts self.old self.new }
    {
        self.viewer.seat.learn(note);
    }
}
