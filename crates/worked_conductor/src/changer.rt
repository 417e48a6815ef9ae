//! The loops of docs/use/CONDUCTOR.md on the machine with a tool changer of examples/tool_changer.toml. Its gripper is
//! connected and disconnected between cycles, and its slaves are simulated.

use crate::changer::Tool::{Comes, Goes, Stays};
use crate::lines::{first_two, opened_line};
use crate::loops::{Network, master_cycle, task_cycle};
use hc_conductor::conductor::Conductor;
use hc_conductor::seat::TaskSeat;
use hc_events::answer::Answer;
use hc_machine::SlaveMachine;
use hc_records::edit::Edit;
use hc_records::records::VarId;
use std::alloc::{AllocError, Global};
use std::sync::Wait;

/// A coupler, two axes, the machine's own inputs and outputs, three tools, and a feeder module that docks.
const CHANGER: &str = r#"
[[slave]]
station = 1001

[[slave]]
station = 1002
area = [
    { sm = 2, dir = "out", phys = 0x1100, task = 0, assigned = [0x1600], pdo = [
        { index = 0x1600, entries = [[1, 16], [2, 32]] },
        { index = 0x1601, entries = [[3, 16], [4, 32]] },
    ] },
    { sm = 3, dir = "in", phys = 0x1180, task = 0, assigned = [0x1a00], pdo = [
        { index = 0x1a00, entries = [[11, 16], [12, 32]] },
        { index = 0x1a01, entries = [[13, 16], [14, 32], [15, 16]] },
    ] },
]

[[slave]]
station = 1003
area = [
    { sm = 2, dir = "out", phys = 0x1100, task = 0, assigned = [0x1601, 0x1600], pdo = [
        { index = 0x1600, entries = [[21, 16], [22, 32]] },
        { index = 0x1601, entries = [[23, 8], [0, 8]] },
    ] },
    { sm = 3, dir = "in", phys = 0x1180, task = 0, assigned = [0x1a00], pdo = [
        { index = 0x1a00, entries = [[31, 16], [32, 32]] },
    ] },
]

[[slave]]
station = 1004
area = [
    { sm = 0, dir = "out", phys = 0x1000, task = 1, assigned = [0x1600, 0x1601, 0x1602, 0x1603], pdo = [
        { index = 0x1600, entries = [[41, 1]] },
        { index = 0x1601, entries = [[42, 1]] },
        { index = 0x1602, entries = [[43, 1]] },
        { index = 0x1603, entries = [[44, 1]] },
    ] },
    { sm = 1, dir = "in", phys = 0x1080, task = 1, assigned = [0x1a00], pdo = [
        { index = 0x1a00, entries = [[51, 1], [52, 1], [53, 1], [0, 5]] },
    ] },
]

[[group]]
alias = 100

[[group.slave]]
station = 2001
area = [
    { sm = 2, dir = "out", phys = 0x1100, task = 1, assigned = [0x1600], pdo = [
        { index = 0x1600, entries = [[101, 1], [102, 1], [0, 6]] },
    ] },
    { sm = 3, dir = "in", phys = 0x1180, task = 1, assigned = [0x1a00], pdo = [
        { index = 0x1a00, entries = [[111, 1], [112, 1], [0, 6], [113, 16]] },
    ] },
]

[[group]]
alias = 101

[[group.slave]]
station = 2101
area = [
    { sm = 2, dir = "out", phys = 0x1100, task = 0, assigned = [0x1600], pdo = [
        { index = 0x1600, entries = [[201, 16], [202, 16]] },
    ] },
    { sm = 3, dir = "in", phys = 0x1180, task = 0, assigned = [0x1a00], pdo = [
        { index = 0x1a00, entries = [[211, 16], [212, 32], [213, 16]] },
    ] },
]

[[group.slave]]
station = 2102
area = [
    { sm = 3, dir = "in", phys = 0x1180, task = 1, assigned = [0x1a01], pdo = [
        { index = 0x1a00, entries = [[214, 16]] },
        { index = 0x1a01, entries = [[215, 12], [0, 4]] },
    ] },
]

[[group]]
alias = 102

[[group.slave]]
station = 2201
area = [
    { sm = 3, dir = "in", phys = 0x1180, task = 0, assigned = [0x1a00], pdo = [
        { index = 0x1a00, entries = [[221, 1], [222, 1], [0, 6]] },
    ] },
]

[[group]]
alias = 200

[[group.slave]]
station = 3001

[[group.slave]]
station = 3002
area = [
    { sm = 2, dir = "out", phys = 0x1800, task = 1, assigned = [0x1600], pdo = [
        { index = 0x1600, entries = [[301, 16], [302, 16]] },
    ] },
    { sm = 3, dir = "in", phys = 0x1c00, task = 1, assigned = [], pdo = [
        { index = 0x1a00, entries = [[311, 16], [312, 16]] },
    ] },
]
"#;

/// The position of axis X, in task 0.
const POSITION: u32 = 12;

/// The pressure of the gripper, in task 1.
const PRESSURE: u32 = 113;

/// The slaves that are on the line, in its order.
#[derive(Drop)]
struct Slaves {
    machines: Vec<SlaveMachine>,
}

impl Network for Slaves {
    fn exchange(&mut self, frame: &mut [u8]) {
        for machine in self.machines.iter_mut() {
            machine.process(frame);
        }
    }
}

impl Slaves {
    /// A slave joins the line after the others, with its station address and its inputs, which begin at 0x1180.
    fn join(&mut self, alloc: Global, station: u16, inputs: [u8; 6]) -> Result<(), AllocError> {
        let mut machine = SlaveMachine::new(alloc, 0)?;
        machine.write_memory(0x0010, &station.to_le_bytes());
        machine.write_memory(0x1180, &inputs);
        self.machines.push(machine)?;
        Ok(())
    }

    /// A byte of a slave's memory. None if there is no such slave or byte.
    fn byte(&self, place: usize, at: usize) -> Option<u8> {
        let machine = self.machines.get(place)?;
        machine.memory().get(at).copied()
    }
}

/// The slaves that are always there. Axis X is at 74,565.
fn always_there(alloc: Global) -> Result<Slaves, AllocError> {
    let mut slaves = Slaves {
        machines: Vec::new(alloc),
    };
    slaves.join(alloc, 1001, [0; 6])?;
    slaves.join(alloc, 1002, [0x37, 0x06, 0x45, 0x23, 0x01, 0])?;
    slaves.join(alloc, 1003, [0; 6])?;
    slaves.join(alloc, 1004, [0; 6])?;
    Ok(slaves)
}

/// The change of the gripper before a cycle.
#[derive(Clone, Copy)]
enum Tool {
    Comes,
    Goes,
    Stays,
}

/// Connects the gripper, closed and with a pressure of 1,000, or disconnects it. True if the edit is accepted, or the gripper
/// stays.
fn is_changed(alloc: Global, conductor: &mut Conductor, slaves: &mut Slaves, tool: Tool) -> bool {
    let edit = match tool {
        Tool::Comes => Edit::Connect(100),
        Tool::Goes => Edit::Disconnect(100),
        Tool::Stays => return true,
    };
    let is_ready = match tool {
        Tool::Comes => slaves.join(alloc, 2001, [1, 0xe8, 0x03, 0, 0, 0]).is_ok(),
        _ => slaves.machines.pop().is_some(),
    };
    is_ready && matches!(conductor.edit(alloc, &edit), Answer::Edited { .. })
}

/// The result of a cycle: the position and the pressure as their tasks read them, and the first byte of outputs of axis X, of
/// the machine and of the gripper in the slaves' memory.
type Shown = ([Option<u64>; 2], [Option<u8>; 3]);

/// Both tasks' seats.
type Seats = (TaskSeat, TaskSeat);

/// A cycle of all threads, one after the other. Task 0 posts bytes of 5, and task 1 bytes of 0xf1.
fn shown<R: Wait>(
    rt: &R,
    alloc: Global,
    conductor: &mut Conductor,
    slaves: &mut Slaves,
    seats: Seats,
    inputs: &(VarId, VarId),
) -> (Seats, Option<Shown>) {
    let gone = master_cycle(rt, alloc, conductor, slaves).is_ok();
    let (motion, position) = task_cycle(seats.0, inputs.0, 5);
    let (slower, pressure) = task_cycle(seats.1, inputs.1, 0xf1);
    let outputs = [
        slaves.byte(1, 0x1100),
        slaves.byte(3, 0x1000),
        slaves.byte(4, 0x1100),
    ];
    let shown = ([position, pressure], outputs);
    ((motion, slower), if gone { Some(shown) } else { None })
}

/// The position of axis X.
const AT: Option<u64> = Some(74_565);

/// The results, cycle by cycle. A post of one cycle is sent in the next. A post for the epoch before an edit is refused, and
/// the axis and the machine keep their outputs. The machine has four bits of outputs, the gripper two: the other bits of a post
/// are sent as 0.
const ROWS: [(Tool, Shown); 7] = [
    (Stays, ([AT, None], [Some(0), Some(0), None])),
    (Stays, ([AT, None], [Some(5), Some(1), None])),
    (Comes, ([AT, Some(1000)], [Some(5), Some(1), Some(0)])),
    (Stays, ([AT, Some(1000)], [Some(5), Some(1), Some(1)])),
    (Goes, ([AT, None], [Some(5), Some(1), None])),
    (Comes, ([AT, Some(1000)], [Some(5), Some(1), Some(0)])),
    (Stays, ([AT, Some(1000)], [Some(5), Some(1), Some(1)])),
];

/// The number of the first cycle with another result. `ROWS.len()` if there is none.
fn first_other<R: Wait>(
    rt: &R,
    alloc: Global,
    conductor: &mut Conductor,
    slaves: &mut Slaves,
    seats: Seats,
    inputs: &(VarId, VarId),
) -> usize {
    let mut seats = seats;
    let mut number: usize = 0;
    for row in &ROWS {
        let changed = is_changed(alloc, conductor, slaves, row.0);
        let (back, seen) = shown(rt, alloc, conductor, slaves, seats, inputs);
        if !changed || seen != Some(row.1) {
            return number;
        }
        seats = back;
        number = number.saturating_add(1);
    }
    number
}

/// The number of the first cycle with another result, from the machine's opening on.
fn first_other_of<R: Wait>(rt: &R, alloc: Global) -> Option<usize> {
    let mut slaves = always_there(alloc).ok()?;
    let inputs = (VarId::new(POSITION)?, VarId::new(PRESSURE)?);
    let (mut conductor, seats) = opened_line(rt, alloc, CHANGER)?;
    let number = match first_two(seats) {
        Some(seats) => Some(first_other(rt, alloc, &mut conductor, &mut slaves, seats, &inputs)),
        None => None,
    };
    conductor.finish(rt);
    number
}

/// The loops of the master and of its tasks go on, cycle by cycle, while a gripper is connected and disconnected.
#[test]
fn both_loops_go_on_over_tool_changes(rt: HostRuntime) {
    assert_eq!(rt; first_other_of(&rt, rt.alloc()), Some(ROWS.len()));
}
