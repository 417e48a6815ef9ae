//! The seat of a task.
use crate::viewer::Viewer;
use hc_rings::PostSender;

mod outputs;
mod viewing;

/// One task's seat at a conductor, for a thread of its own. A dropped seat makes nobody wait, and its posts are still taken.
#[derive(Drop)]
pub struct TaskSeat {
    pub(crate) viewer: Viewer,
    pub(crate) posts: PostSender,
}
