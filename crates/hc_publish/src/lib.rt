//! Two published copies of what tasks read, a seat for each of eight tasks, and notes between the publisher and the seats. The
//! thread that owns the core publishes changes. Each task views what was published last, and waits for nobody. `shown` is one
//! copy: places, epoch and input image, as the core's changes make them.
#![tactic(auto)]

mod absorb;
pub mod copies;
pub mod faults;
mod history;
pub mod laws;
mod opening;
pub mod publication_log;
pub mod publisher;
pub mod rule;
pub mod seat;
pub mod shown;
pub mod view;
pub mod view_faults;

pub use faults::OpenFault;
pub use opening::open;
pub use publisher::{Kept, Note, Publisher};
pub use seat::Seat;
pub use shown::Shown;
pub use view::View;
pub use view_faults::ViewFault;
