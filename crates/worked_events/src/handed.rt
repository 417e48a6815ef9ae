//! A caller that is handed a core, whatever was done with it before. A post in the plan's epoch, with as many bytes as the
//! task's part has, is accepted. That is proved here for any core, and tested with one.
ghost use Rattle.std.specs.Prelude.{◌<◌, IsTrue};
ghost use Rattle.hc_records.specs.declared.limits.TheConstants.{TASKS};

use crate::lines::{AXIS, opened};
use hc_core::keeping::Core;
use std::test::Fail;

/// Posts bytes to a task, 0 to 7. True if the post is accepted, or the task has another number of output bytes.
fn is_posted(core: &mut Core, task: u8, bytes: &[u8]) -> bool
    requires { task < TASKS }
    ensures { IsTrue result }
{
    let plan = core.plan();
    let size = plan.places().part(task).0;
    let epoch = plan.epoch();
    bytes.len() != usize::from(size) || core.post(task, epoch, bytes).is_ok()
}

/// The core accepts a post for the plan's epoch with as many bytes as the task has outputs.
#[test]
fn a_post_of_a_task_s_size_in_the_present_epoch_is_accepted(rt: HostRuntime) -> Result<(), Fail> {
    let mut driven = opened(rt.alloc(), AXIS)?;
    assert!(rt; is_posted(&mut driven.core, 0, &[1]));
    Ok(())
}
