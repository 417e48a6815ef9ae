//! Opening of a master.
ghost use Rattle.std.specs.Prelude.{◌≡◌, [], IfErr, IfOk, OnOk, replicate};
ghost use Rattle.hc_records.specs.declared.limits.TheConstants.{TASKS};
ghost use Rattle.hc_events.specs.Accepted.{just_opened};
ghost use Rattle.hc_publish.specs.ChangesSince.{just_answered};
ghost use Rattle.hc_conductor.specs.Openings.{IsOpenFault, IsOpenable};
ghost use Rattle.hc_conductor.specs.Mastering.{master_shown, waiting};

use crate::one_thread::master::Master;
use hc_publish::faults::OpenFault;
use hc_records::project::Project;
use std::alloc::Global;
use std::sync::Wait;

/// Opens a project: the core has opened it, the opening is shown, and no post waits. Fails with one of these; then the project
/// is dropped:
///
/// - `TooManyDatagrams`: a task of the opening line needs more than 16 datagrams. The lowest such task is returned.
/// - `Memory`: an allocation failed.
/// - `NoSeat`: the published copies gave no seat.
pub fn open<R: Wait>(rt: &R, alloc: Global, project: Project) -> Result<Master, OpenFault>
    ensures core { IfOk result (λ master. master.conductor.core ≡ record { history = just_opened project; taken = just_opened project }) }
    ensures shown { IfOk result (λ master. master_shown master ≡ just_answered project) }
    ensures waiting { IfOk result (λ master. waiting master ≡ replicate TASKS []) }
    ensures openable { OnOk result (IsOpenable project) }
    ensures refused { IfErr result (IsOpenFault project) }
{
    let (conductor, seats) = crate::open(rt, alloc, project)?;
    Ok(Master { conductor, seats })
}
