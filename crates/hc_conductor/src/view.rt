//! The view of a task.
ghost use Rattle.std.specs.Prelude.{◌≤◌, ℕ};
ghost use Rattle.hc_publish.specs.ChangesSince.{table_shown};
ghost use Rattle.hc_rings.specs.declared.post_buffer.TheConstants.{LARGEST_IMAGE};
ghost use Rattle.hc_conductor.specs.Openings.{IsOpenable, output_bytes};

use hc_publish::view::View;
use hc_rings::PostSender;

mod reading;

/// A task's seat while it views the published copy. It is not `Drop`: end it by `leave`.
pub struct TaskView {
    pub(crate) view: View,
    pub(crate) posts: PostSender,
    ghost openable: { IsOpenable view.changes_since.groups },
    ghost fits: { (task : ℕ) → output_bytes (table_shown view.changes_since) task ≤ LARGEST_IMAGE },
}
