//! The loop that gives up a tool that does not answer, between cycles of an axis. The tool has a task of its own, so it owes
//! only its own blocks, and the axis loses no cycle.

use crate::docking::dock;
use crate::giving_up::Tool::{Docks, Leaves, Misses, Stays};
use crate::lines::{first_two, opened_line};
use crate::loops::{Network, master_cycle, task_cycle};
use hc_conductor::conductor::Conductor;
use hc_conductor::seat::TaskSeat;
use hc_events::answer::Answer;
use hc_machine::SlaveMachine;
use hc_records::edit::Edit;
use hc_records::records::VarId;
use std::alloc::{AllocError, Global};
use std::sync::Wait;

/// An axis in task 0, and a tool in task 1.
const LINE: &str = r#"
[[slave]]
station = 1002
area = [
    { sm = 2, dir = "out", phys = 0x1100, task = 0, assigned = [0x1600], pdo = [
        { index = 0x1600, entries = [[1, 16]] },
    ] },
    { sm = 3, dir = "in", phys = 0x1180, task = 0, assigned = [0x1a00], pdo = [
        { index = 0x1a00, entries = [[11, 16]] },
    ] },
]

[[group]]
alias = 100

[[group.slave]]
station = 2001
area = [
    { sm = 2, dir = "out", phys = 0x1100, task = 1, assigned = [0x1600], pdo = [
        { index = 0x1600, entries = [[101, 8]] },
    ] },
    { sm = 3, dir = "in", phys = 0x1180, task = 1, assigned = [0x1a00], pdo = [
        { index = 0x1a00, entries = [[111, 16]] },
    ] },
]
"#;

/// The alias of the tool.
const TOOL: u16 = 100;

/// The position of the axis, and the pressure of the tool.
const INPUTS: (u32, u32) = (11, 111);

/// The axis, and the tool, which answers if it has contact. The frames that are exchanged are counted.
#[derive(Drop)]
struct Slaves {
    axis: SlaveMachine,
    tool: SlaveMachine,
    has_contact: bool,
    frames: u32,
}

impl Network for Slaves {
    fn exchange(&mut self, frame: &mut [u8]) {
        self.frames = self.frames.wrapping_add(1);
        self.axis.process(frame);
        if self.has_contact {
            self.tool.process(frame);
        }
    }
}

/// A slave with its station address, and its inputs, which begin at 0x1180.
fn slave(alloc: Global, station: u16, inputs: u16) -> Result<SlaveMachine, AllocError> {
    let mut machine = SlaveMachine::new(alloc, 0)?;
    machine.write_memory(0x0010, &station.to_le_bytes());
    machine.write_memory(0x1180, &inputs.to_le_bytes());
    Ok(machine)
}

/// The change of the tool before a cycle.
#[derive(Clone, Copy, PartialEq, Eq)]
enum Tool {
    /// The tool docks, and its slave answers.
    Docks,
    /// The tool docks without contact, so that its slave answers nothing.
    Misses,
    Leaves,
    Stays,
}

/// Carries the change out. True if it succeeds: a tool docks exactly if it has contact.
fn is_changed(alloc: Global, conductor: &mut Conductor, slaves: &mut Slaves, tool: Tool) -> bool {
    if tool == Tool::Stays {
        return true;
    }
    slaves.has_contact = tool == Tool::Docks;
    if tool == Tool::Leaves {
        let answer = conductor.edit(alloc, &Edit::Disconnect(TOOL));
        return matches!(answer, Answer::Edited { .. });
    }
    let docked = dock(alloc, conductor, slaves, TOOL).ok();
    docked == Some(slaves.has_contact)
}

/// The result of a cycle: the position and the pressure as their tasks read them, the first byte of outputs of the axis, and
/// the number of frames exchanged since the cycle before.
type Shown = (Option<u64>, Option<u64>, Option<u8>, u32);

/// Both tasks' seats.
type Seats = (TaskSeat, TaskSeat);

/// A cycle of all threads, one after the other, with the axis at the given position.
fn shown<R: Wait>(
    rt: &R,
    alloc: Global,
    conductor: &mut Conductor,
    slaves: &mut Slaves,
    seats: Seats,
    inputs: &(VarId, VarId),
    at: u8,
) -> (Seats, Option<Shown>) {
    slaves.axis.write_memory(0x1180, &[at]);
    let gone = master_cycle(rt, alloc, conductor, slaves).is_ok();
    let (motion, position) = task_cycle(seats.0, inputs.0, at);
    let (tool, pressure) = task_cycle(seats.1, inputs.1, 7);
    let output = slaves.axis.memory().get(0x1100).copied();
    let shown = (position, pressure, output, slaves.frames);
    slaves.frames = 0;
    ((motion, tool), if gone { Some(shown) } else { None })
}

/// The results, cycle by cycle, with the axis at 1, 2 and so on. Its task posts the position and sees each one in its own
/// cycle. The outputs are those posted in the cycle before, but a post for the epoch before an edit is refused. Before the
/// first cycle the axis' four blocks are written. A tool docks by one frame of writes, and one without contact is given up
/// after two. A cycle takes one frame, which both datagrams share.
const ROWS: [(Tool, Shown); 9] = [
    (Stays, (Some(1), None, Some(0), 5)),
    (Stays, (Some(2), None, Some(1), 1)),
    (Misses, (Some(3), None, Some(1), 3)),
    (Stays, (Some(4), None, Some(3), 1)),
    (Docks, (Some(5), Some(1000), Some(3), 2)),
    (Stays, (Some(6), Some(1000), Some(5), 1)),
    (Leaves, (Some(7), None, Some(5), 1)),
    (Misses, (Some(8), None, Some(5), 3)),
    (Stays, (Some(9), None, Some(8), 1)),
];

/// The number of the first cycle with another result. `ROWS.len()` if there is none.
fn first_other<R: Wait>(
    rt: &R,
    alloc: Global,
    conductor: &mut Conductor,
    slaves: &mut Slaves,
    seats: Seats,
    inputs: &(VarId, VarId),
) -> usize {
    let mut seats = seats;
    let mut number: u8 = 0;
    for row in &ROWS {
        let changed = is_changed(alloc, conductor, slaves, row.0);
        let at = number.saturating_add(1);
        let (back, seen) = shown(rt, alloc, conductor, slaves, seats, inputs, at);
        if !changed || seen != Some(row.1) {
            return usize::from(number);
        }
        seats = back;
        number = at;
    }
    usize::from(number)
}

/// The number of the first cycle with another result, from the machine's opening on.
fn first_other_of<R: Wait>(rt: &R, alloc: Global) -> Option<usize> {
    let mut slaves = Slaves {
        axis: slave(alloc, 1002, 0).ok()?,
        tool: slave(alloc, 2001, 1000).ok()?,
        has_contact: false,
        frames: 0,
    };
    let inputs = (VarId::new(INPUTS.0)?, VarId::new(INPUTS.1)?);
    let (mut conductor, seats) = opened_line(rt, alloc, LINE)?;
    let number = match first_two(seats) {
        Some(seats) => Some(first_other(rt, alloc, &mut conductor, &mut slaves, seats, &inputs)),
        None => None,
    };
    conductor.finish(rt);
    number
}

/// A tool that does not answer is given up, and the axis loses no cycle.
#[test]
fn a_tool_is_given_up_without_a_lost_cycle(rt: HostRuntime) {
    assert_eq!(rt; first_other_of(&rt, rt.alloc()), Some(ROWS.len()));
}
