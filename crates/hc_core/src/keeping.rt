//! `Core`: the state of one line, from its plan to the changes that were not taken yet.
use crate::ages::Ages;
use crate::buffers::Buffers;
use crate::history::HistoryGhost;
use hc_events::change::Change;
use hc_events::sending::Sending;
use hc_images::inputs::Inputs;
use hc_images::outputs::Outputs;
use hc_owed::owed::Owed;
use hc_owed::readiness::Readiness;
use hc_plan::plan::Plan;
use hc_sendings::awaited::Awaited;
use hc_sendings::write_frames::WriteFrame;
use std::marker::Model;
use std::snapshot::Snapshot;

/// The line, the next serial, the awaited frames, the input image and the ages of its data, the epochs of the tasks, the output
/// values, the known and the owed register blocks, and the changes that were not taken. Contracts see the history of accepted
/// events, and that record as it was when the changes were last taken.
pub struct Core {
    pub(crate) plan: Plan,
    pub(crate) serial: u64,
    pub(crate) awaited: Awaited,
    pub(crate) inputs: Inputs,
    // of each datagram's data the serial of the sending that they answer, and the epoch of the answer
    pub(crate) ages: Ages,
    // of each task the epoch of the last edit that changed it
    pub(crate) epochs: [u32; 8],
    pub(crate) outputs: Outputs,
    pub(crate) owed: Owed,
    // the tasks that wait for owed blocks and for registers outside the line
    pub(crate) readiness: Readiness,
    pub(crate) changes: Vec<Change>,
    // the changes of one arrival until all of them are there
    pub(crate) new_answer: Vec<Change>,
    pub(crate) buffers: Buffers,
    // a list for the frames of sendings by `step`, which is used again
    pub(crate) frames: Vec<Sending>,
    // the blocks of register writes while they are sent, in room that is used again
    pub(crate) writes: WriteFrame,
    pub(crate) history: HistoryGhost,
    pub(crate) taken: Snapshot<HistoryGhost>,
}

impl Drop for Core {
    fn drop(self) {
        let Core {
            plan: _,
            serial: _,
            awaited: _,
            inputs: _,
            ages: _,
            epochs: _,
            outputs: _,
            owed: _,
            readiness: _,
            changes: _,
            new_answer: _,
            buffers: _,
            frames: _,
            writes: _,
            history: _,
            taken: _,
        } = self;
    }
}

impl Model for Core {
    ghost use Rattle.hc_core.specs.Agreement.{Agrees, state_in};
    ghost use Rattle.hc_core.specs.State.{CoreState};

    ghost Value = { CoreState };

    ghost view = { state_in };

    ghost invariant = { Agrees };
}
