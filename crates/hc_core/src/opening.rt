//! `Core::new`: the opening of a project's line.
ghost use Rattle.std.specs.Prelude.{◌≡◌, IfErr, IfOk, None, OnOk};
ghost use Rattle.hc_records.specs.Edits.{over_limit_task};
ghost use Rattle.hc_records.specs.Line.{line, opened};
ghost use Rattle.hc_places.specs.Layout.{NamesOverLimit};
ghost use Rattle.hc_events.specs.Accepted.{just_opened};

use crate::ages::Ages;
use crate::buffers::Buffers;
use crate::history::HistoryGhost;
use crate::keeping::Core;
use hc_images::inputs::Inputs;
use hc_images::outputs::Outputs;
use hc_owed::owed::Owed;
use hc_owed::readiness::Readiness;
use hc_plan::plan::Plan;
use hc_records::faults::EditFault;
use hc_records::project::Project;
use hc_sendings::awaited::Awaited;
use hc_sendings::write_frames::WriteFrame;
use std::alloc::Global;
use std::snapshot::Snapshot;

impl Core {
    /// Returns the core of a project at its opening. Only the mandatory group is present, the epoch and the next serial are 0,
    /// no frame is awaited, and no datagram has data. Every output value is 0, every register block is owed, and there is no
    /// change. Fails with `TooManyDatagrams` and the lowest task that needs more than 16 datagrams, or with `Memory` if an
    /// allocation fails; the project is then dropped.
    pub fn new(alloc: Global, project: Project) -> Result<Core, EditFault>
        ensures opened { IfOk result (λ core. core ≡ record { history = just_opened project; taken = just_opened project }) }
        ensures accepted { OnOk result (over_limit_task (line (opened project)) ≡ None) }
        ensures refused { IfErr result (NamesOverLimit (line (opened project))) }
    {
        let history = HistoryGhost::opened(&project);
        let plan = Plan::new(alloc, project)?;
        let awaited = Awaited::new(alloc)?;
        let inputs = Inputs::new(alloc)?;
        let owed = Owed::new(alloc, &plan)?;
        let outputs = Outputs::new(alloc, plan.places())?;
        let ages = Ages::new(alloc)?;
        let writes = WriteFrame::new(alloc)?;
        let readiness = Readiness::new(alloc, &plan, &owed)?;
        let taken = Snapshot::of(&history);
        Ok(Core {
            plan,
            serial: 0,
            awaited,
            inputs,
            ages,
            epochs: [0; 8],
            outputs,
            owed,
            readiness,
            changes: Vec::new(alloc),
            new_answer: Vec::new(alloc),
            buffers: Buffers::new(alloc),
            frames: Vec::new(alloc),
            writes,
            history,
            taken,
        })
    }
}
