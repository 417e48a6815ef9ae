//! Tasks that are sent while register blocks of others are owed, over simulated slaves: a gripper that comes, that does not
//! answer, and that stays on the wire after it was disconnected.
ghost use Rattle.hc_events.specs.Calls.{AreSentTogether};

use crate::lines::opened_line;
use crate::loops::Network;
use hc_conductor::conductor::Conductor;
use hc_events::answer::{Answer, Outcome};
use hc_events::faults::CoreFault;
use hc_frames::building::build_fmmu_off;
use hc_machine::SlaveMachine;
use hc_records::edit::Edit;
use std::alloc::{AllocError, Global};
use std::sync::Wait;

/// An axis in task 0, and two grippers in task 2 that are connected one at a time.
const LINE: &str = r#"
[[slave]]
station = 1002
area = [
    { sm = 2, dir = "out", phys = 0x1100, task = 0, assigned = [0x1600], pdo = [
        { index = 0x1600, entries = [[1, 16]] },
    ] },
    { sm = 3, dir = "in", phys = 0x1180, task = 0, assigned = [0x1a00], pdo = [
        { index = 0x1a00, entries = [[11, 16]] },
    ] },
]

[[group]]
alias = 100

[[group.slave]]
station = 2001
area = [
    { sm = 2, dir = "out", phys = 0x1100, task = 2, assigned = [0x1600], pdo = [
        { index = 0x1600, entries = [[101, 8]] },
    ] },
    { sm = 3, dir = "in", phys = 0x1180, task = 2, assigned = [0x1a00], pdo = [
        { index = 0x1a00, entries = [[111, 16]] },
    ] },
]

[[group]]
alias = 200

[[group.slave]]
station = 2002
area = [
    { sm = 2, dir = "out", phys = 0x1100, task = 2, assigned = [0x1600], pdo = [
        { index = 0x1600, entries = [[201, 8]] },
    ] },
    { sm = 3, dir = "in", phys = 0x1180, task = 2, assigned = [0x1a00], pdo = [
        { index = 0x1a00, entries = [[211, 16]] },
    ] },
]
"#;

/// The groups of the two grippers, and their slaves' station addresses.
const FIRST: (u16, u16) = (100, 2001);

const SECOND: (u16, u16) = (200, 2002);

/// The first byte of a slave's outputs.
const OUTPUTS: usize = 0x1100;

/// The axis, and the grippers if they are on the wire.
#[derive(Drop)]
struct Slaves {
    axis: SlaveMachine,
    first: SlaveMachine,
    second: SlaveMachine,
    first_is_plugged: bool,
    second_is_plugged: bool,
}

impl Network for Slaves {
    fn exchange(&mut self, frame: &mut [u8]) {
        self.axis.process(frame);
        if self.first_is_plugged {
            self.first.process(frame);
        }
        if self.second_is_plugged {
            self.second.process(frame);
        }
    }
}

/// A slave with its station address, as after power-up.
fn slave(alloc: Global, station: u16) -> Result<SlaveMachine, AllocError> {
    let mut machine = SlaveMachine::new(alloc, 0)?;
    machine.write_memory(0x0010, &station.to_le_bytes());
    Ok(machine)
}

/// The slaves with both grippers unplugged.
fn simulated(alloc: Global) -> Result<Slaves, AllocError> {
    Ok(Slaves {
        axis: slave(alloc, 1002)?,
        first: slave(alloc, FIRST.1)?,
        second: slave(alloc, SECOND.1)?,
        first_is_plugged: false,
        second_is_plugged: false,
    })
}

/// True if an arrival brought the inputs of each datagram of its frame.
fn brings_inputs(answer: Answer) -> bool {
    match answer {
        Answer::Answered(outcomes) => outcomes.as_slice().iter().all(|outcome| {
            matches!(
                outcome,
                Outcome::Inputs {
                    task: _,
                    datagram: _
                }
            )
        }),
        _ => false,
    }
}

/// Sends ready tasks, and returns whether each of their datagrams had a good answer.
fn is_exchanged(
    alloc: Global,
    conductor: &mut Conductor,
    slaves: &mut Slaves,
    tasks: &[u8],
) -> Result<bool, CoreFault>
    requires { AreSentTogether tasks.now }
{
    let mut arena = [0; 256];
    let frames = conductor.send_ready(alloc, tasks, &mut arena)?;
    let mut at = 0_usize;
    for frame in frames.iter() {
        let end = at.saturating_add(frame.size());
        let Some(sent) = arena.get_mut(at..end) else {
            return Ok(false);
        };
        slaves.exchange(sent);
        if !brings_inputs(conductor.arrive(alloc, sent)) {
            return Ok(false);
        }
        at = end;
    }
    Ok(!frames.is_empty())
}

/// Writes the owed blocks that one frame holds, and returns whether each was written.
fn is_written(
    alloc: Global,
    conductor: &mut Conductor,
    slaves: &mut Slaves,
) -> Result<bool, CoreFault> {
    let mut frame = [0; 1514];
    let writes = conductor.next_writes(&mut frame)?;
    // all that is owed is in this frame, so nothing further can be sent
    if conductor.next_further(alloc, &mut [0; 1514]) != Err(CoreFault::UnderWay) {
        return Ok(false);
    }
    let Some(sent) = frame.get_mut(..writes.size) else {
        return Ok(false);
    };
    slaves.exchange(sent);
    Ok(match conductor.arrive(alloc, sent) {
        Answer::Written(blocks) => {
            let mut blocks = blocks.as_slice().iter();
            blocks.all(|block| *block == Outcome::Done)
        }
        Answer::WriteDone => true,
        _ => false,
    })
}

/// Writes zeros to a slave's FMMUs, and returns whether the slave took them.
fn is_switched_off(slaves: &mut Slaves, station: u16) -> bool {
    let mut frame = [0; 160];
    if build_fmmu_off(&mut frame, station, 8).is_err() {
        return false;
    }
    slaves.exchange(&mut frame);
    frame[26 + 128] == 1
}

/// Carries an edit out.
fn edit(alloc: Global, conductor: &mut Conductor, edit: &Edit) -> Result<(), CoreFault> {
    match conductor.edit(alloc, edit) {
        Answer::Refused(fault) => Err(fault),
        _ => Ok(()),
    }
}

/// Connects a gripper as the pages say: its FMMUs are zero, its group is connected, and its slave is cleared.
fn connect(
    alloc: Global,
    conductor: &mut Conductor,
    slaves: &mut Slaves,
    gripper: (u16, u16),
) -> Result<bool, CoreFault> {
    let is_off = is_switched_off(slaves, gripper.1);
    edit(alloc, conductor, &Edit::Connect(gripper.0))?;
    conductor.cleared(gripper.1)?;
    Ok(is_off)
}

/// A course of events on the line, from its opening on, with the axis' blocks written.
trait Story {
    /// The result of the story.
    type Shown: Drop;

    /// Carries the story out.
    fn run(
        &self,
        alloc: Global,
        conductor: &mut Conductor,
        slaves: &mut Slaves,
    ) -> Result<Self::Shown, CoreFault>;
}

/// A gripper is connected. The result is the success of each step.
#[derive(Drop)]
struct Coming;

/// A gripper does not answer for 1,000 cycles. The result is the number of cycles that exchange the axis, and of those that
/// write the gripper's blocks.
#[derive(Drop)]
struct Silence;

/// A gripper is disconnected and stays plugged, another one comes to its task, and then the first one is cleared on the wire.
#[derive(Drop)]
struct Clearing;

/// A gripper is disconnected and stays plugged, another one comes to its task, and then the first one is unplugged.
#[derive(Drop)]
struct Unplugging;

impl Story for Coming {
    type Shown = [bool; 6];

    fn run(
        &self,
        alloc: Global,
        conductor: &mut Conductor,
        slaves: &mut Slaves,
    ) -> Result<[bool; 6], CoreFault> {
        slaves.first_is_plugged = true;
        let came = connect(alloc, conductor, slaves, FIRST)?;
        let waits = is_exchanged(alloc, conductor, slaves, &[2])
            == Err(CoreFault::Waits {
                task: 2,
                blocks: 4,
                outside: 0,
            });
        let axis = is_exchanged(alloc, conductor, slaves, &[0])?;
        let written = is_written(alloc, conductor, slaves)?;
        let gripper = is_exchanged(alloc, conductor, slaves, &[2])?;
        let both = is_exchanged(alloc, conductor, slaves, &[2, 0])?;
        Ok([came, waits, axis, written, gripper, both])
    }
}

impl Story for Silence {
    type Shown = (u32, u32);

    fn run(
        &self,
        alloc: Global,
        conductor: &mut Conductor,
        slaves: &mut Slaves,
    ) -> Result<(u32, u32), CoreFault> {
        slaves.first_is_plugged = true;
        connect(alloc, conductor, slaves, FIRST)?;
        slaves.first_is_plugged = false;
        let (mut exchanged, mut written) = (0_u32, 0_u32);
        for _ in 0..1_000 {
            let is_good = is_exchanged(alloc, conductor, slaves, &[0])?;
            exchanged = exchanged.saturating_add(u32::from(is_good));
            let is_done = is_written(alloc, conductor, slaves)?;
            written = written.saturating_add(u32::from(is_done));
        }
        Ok((exchanged, written))
    }
}

/// The outputs of both grippers.
fn outputs(slaves: &Slaves) -> (Option<u8>, Option<u8>) {
    (
        slaves.first.memory().get(OUTPUTS).copied(),
        slaves.second.memory().get(OUTPUTS).copied(),
    )
}

/// The first gripper is disconnected and stays plugged with its outputs 0x5a, and the second one comes to the same task. The
/// task waits for the two registers of the first, while the axis is exchanged.
fn swap(
    alloc: Global,
    conductor: &mut Conductor,
    slaves: &mut Slaves,
) -> Result<[bool; 5], CoreFault> {
    slaves.first_is_plugged = true;
    connect(alloc, conductor, slaves, FIRST)?;
    let written = is_written(alloc, conductor, slaves)?;
    let first = is_exchanged(alloc, conductor, slaves, &[2])?;
    slaves.first.write_memory(OUTPUTS, &[0x5a]);
    slaves.second.write_memory(OUTPUTS, &[0x77]);
    edit(alloc, conductor, &Edit::Disconnect(FIRST.0))?;
    slaves.second_is_plugged = true;
    connect(alloc, conductor, slaves, SECOND)?;
    let second = is_written(alloc, conductor, slaves)?;
    let waits = is_exchanged(alloc, conductor, slaves, &[2])
        == Err(CoreFault::Waits {
            task: 2,
            blocks: 0,
            outside: 2,
        });
    let axis = is_exchanged(alloc, conductor, slaves, &[0])?;
    Ok([written, first, second, waits, axis])
}

/// The result of a change of grippers: the success of each step, and the outputs of both grippers before and after the task of
/// the second one was sent.
type Change = (
    [bool; 5],
    (Option<u8>, Option<u8>),
    bool,
    (Option<u8>, Option<u8>),
);

impl Story for Clearing {
    type Shown = Change;

    fn run(
        &self,
        alloc: Global,
        conductor: &mut Conductor,
        slaves: &mut Slaves,
    ) -> Result<Change, CoreFault> {
        let steps = swap(alloc, conductor, slaves)?;
        let before = outputs(slaves);
        let is_off = is_switched_off(slaves, FIRST.1);
        conductor.cleared(FIRST.1)?;
        let is_good = is_exchanged(alloc, conductor, slaves, &[2, 0])?;
        Ok((steps, before, is_off && is_good, outputs(slaves)))
    }
}

impl Story for Unplugging {
    type Shown = Change;

    fn run(
        &self,
        alloc: Global,
        conductor: &mut Conductor,
        slaves: &mut Slaves,
    ) -> Result<Change, CoreFault> {
        let steps = swap(alloc, conductor, slaves)?;
        let before = outputs(slaves);
        slaves.first_is_plugged = false;
        conductor.unplugged(FIRST.1)?;
        let is_good = is_exchanged(alloc, conductor, slaves, &[2, 0])?;
        Ok((steps, before, is_good, outputs(slaves)))
    }
}

/// The result of a story. None if the line is not opened, the axis' blocks are not written, or a call fails.
fn shown_by<R: Wait, S: Story>(rt: &R, alloc: Global, story: &S) -> Option<S::Shown> {
    let mut slaves = simulated(alloc).ok()?;
    let (mut conductor, seats) = opened_line(rt, alloc, LINE)?;
    drop(seats);
    let is_ready = is_written(alloc, &mut conductor, &mut slaves) == Ok(true);
    let shown = if is_ready {
        story.run(alloc, &mut conductor, &mut slaves).ok()
    } else {
        None
    };
    conductor.finish(rt);
    shown
}

/// A gripper comes, and the axis loses no cycle.
#[test]
fn a_tool_comes_without_a_lost_cycle(rt: HostRuntime) {
    assert_eq!(rt; shown_by(&rt, rt.alloc(), &Coming), Some([true; 6]));
}

/// A gripper that does not answer stops its own task alone.
#[test]
fn a_silent_tool_stops_its_own_task_alone(rt: HostRuntime) {
    assert_eq!(rt; shown_by(&rt, rt.alloc(), &Silence), Some((1_000, 0)));
}

/// A gripper that was disconnected and stays on the wire keeps its outputs, and holds its task up until it is cleared.
#[test]
fn a_plugged_tool_holds_its_task_until_it_is_cleared(rt: HostRuntime) {
    let wanted = (
        [true; 5],
        (Some(0x5a), Some(0x77)),
        true,
        (Some(0x5a), Some(0)),
    );
    assert_eq!(rt; shown_by(&rt, rt.alloc(), &Clearing), Some(wanted));
}

/// A gripper that was disconnected and stays on the wire holds its task up until it is unplugged.
#[test]
fn a_plugged_tool_holds_its_task_until_it_is_unplugged(rt: HostRuntime) {
    let wanted = (
        [true; 5],
        (Some(0x5a), Some(0x77)),
        true,
        (Some(0x5a), Some(0)),
    );
    assert_eq!(rt; shown_by(&rt, rt.alloc(), &Unplugging), Some(wanted));
}
