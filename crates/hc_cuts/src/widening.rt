//! Tasks that get more slaves, in the trees that they have or in wider ones.
ghost use Rattle.std.specs.Prelude.{◌≡◌, ◌≤◌, All, IfOk, map};
ghost use Rattle.hc_records.specs.declared.limits.TheConstants.{MOST_SLAVES};
ghost use Rattle.hc_cuts.specs.Starts.{cuts_with_slaves};
ghost use Rattle.hc_cuts.specs.Room.{HasRoomFor};

use crate::cuts::Cuts;
use std::alloc::{AllocError, Global};

/// Extends each task to this many slaves, for which its tree has the capacity.
pub(crate) fn admit_all(tasks: &mut [Cuts], slaves: u16)
    requires { All (HasRoomFor slaves) tasks.old }
    ensures { tasks.new ≡ map (cuts_with_slaves slaves) tasks.old }
{
    for task in tasks.iter_mut() {
        task.admit(slaves);
    }
}

/// Returns the tasks in trees for this many slaves.
pub(crate) fn all_widened(
    alloc: Global,
    tasks: &[Cuts],
    slaves: u16,
) -> Result<Vec<Cuts>, AllocError>
    requires few { All (λ cuts. cuts.tree.slaves ≤ slaves) tasks.now }
    requires most { slaves ≤ MOST_SLAVES }
    ensures { IfOk result (λ wider. wider.items ≡ map (cuts_with_slaves slaves) tasks.now) }
{
    let mut wider = Vec::with_capacity(alloc, tasks.len())?;
    for task in tasks {
        wider.push(task.widened(alloc, slaves)?)?;
    }
    Ok(wider)
}
