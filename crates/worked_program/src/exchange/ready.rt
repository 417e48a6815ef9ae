//! Exchanges of a task whose own blocks are written, while a tool on the wire is not: worked out by hand.
use crate::exchange::machines::{Piece, are_placed, is_placed, machine_of, segment_of};
use hc_exchange::{exchange_ready, program};
use hc_plan::plan::Plan;
use hc_project::read_project;
use hc_records::edit::Edit;
use hc_segment::{Segment, SlaveMachine};
use std::alloc::{AllocError, Global};
use std::test::Fail;

/// An axis with 2 bits of outputs and 12 of inputs in task 0, and a gripper with 8 bits of outputs in task 2.
const TOOL_CHANGER: &str = r#"
slave = [
  { station = 1001, area = [
    { sm = 2, dir = "out", phys = 0x1100, task = 0, assigned = [0x1600], pdo = [{ index = 0x1600, entries = [[1, 2]] }] },
    { sm = 3, dir = "in", phys = 0x1180, task = 0, assigned = [0x1a00], pdo = [{ index = 0x1a00, entries = [[2, 12]] }] },
  ] },
]
group = [
  { alias = 100, slave = [
    { station = 2001, area = [
      { sm = 2, dir = "out", phys = 0x1200, task = 2, assigned = [5], pdo = [{ index = 5, entries = [[3, 8]] }] },
    ] },
  ] },
]
"#;

/// The inputs of the axis.
const INPUTS: &[Piece] = &[(0, 0x1180, &[0x34, 0x0a])];

/// The frame of task 0 with serial 9 as it comes back, up to its working counter: 3 by the axis.
const RETURNED: &[u8] = &[
    255, 255, 255, 255, 255, 255, 2, 0, 0, 0, 0, 9, 0x88, 0xa4, 15, 0x10, 12, 9, 0, 0, 0, 1, 3, 0,
    0, 0, 0x02, 0x34, 0x0a, 3, 0,
];

/// The frame if a second machine takes the outputs: 2 more.
const TAKEN_TWICE: &[u8] = &[
    255, 255, 255, 255, 255, 255, 2, 0, 0, 0, 0, 9, 0x88, 0xa4, 15, 0x10, 12, 9, 0, 0, 0, 1, 3, 0,
    0, 0, 0x02, 0x34, 0x0a, 5, 0,
];

/// An FMMU that writes the first 8 bits of task 2 to 0x1200.
const IN_TASK_2: &[u8; 16] = &[0, 0, 0, 3, 1, 0, 0, 7, 0x00, 0x12, 0, 2, 1, 0, 0, 0];

/// An FMMU that writes the first 8 bits of task 0 to 0x1200.
const IN_TASK_0: &[u8; 16] = &[0, 0, 0, 1, 1, 0, 0, 7, 0x00, 0x12, 0, 2, 1, 0, 0, 0];

/// The plan at its opening, with the axis alone.
fn plan_of(alloc: Global) -> Result<Plan, Fail> {
    let project = read_project(alloc, TOOL_CHANGER.as_bytes())?;
    Ok(Plan::new(alloc, project)?)
}

/// A gripper's machine with these bytes in its first FMMU, and 0x55 in its outputs.
fn gripper(alloc: Global, fmmu: &[u8; 16]) -> Result<SlaveMachine, AllocError> {
    let mut machine = machine_of(alloc, 2001)?;
    machine.write_memory(0x0600, fmmu);
    machine.write_memory(0x1200, &[0x55]);
    Ok(machine)
}

/// The axis, programmed and with its inputs, and a tool after it on the wire.
fn wire(alloc: Global, plan: &Plan, tool: SlaveMachine) -> Result<Segment, AllocError> {
    let mut segment = segment_of(alloc, plan, INPUTS)?;
    program(plan, &mut segment);
    let mut machines = segment.into_machines();
    machines.push(tool)?;
    Ok(Segment::of(machines))
}

/// True if one frame came back, and it begins with these bytes.
fn is_returned(frames: &[Vec<u8>], wanted: &[u8]) -> bool {
    match frames {
        [frame] => is_placed(frame, 0, wanted),
        _ => false,
    }
}

/// Exchanges task 0 of a plan with the axis's outputs 2 while a tool is on the wire. True if this frame comes back, and the
/// tool's outputs are then these.
fn is_exchanged(
    alloc: Global,
    plan: &Plan,
    fmmu: &[u8; 16],
    wanted: &[u8],
    outputs: &'static [u8],
) -> Result<bool, Fail> {
    let mut segment = wire(alloc, &plan_of(alloc)?, gripper(alloc, fmmu)?)?;
    let frames = exchange_ready(alloc, plan, &mut segment, 9, 0, &[0x02])?;
    Ok(
        is_returned(&frames, wanted)
            && are_placed(&segment, &[(0, 0x1100, &[0x02]), (1, 0x1200, outputs)]),
    )
}

/// A gripper that was just docked and connected has zeros in its FMMUs: task 0 is exchanged before the gripper's blocks are
/// written.
#[test]
fn a_docked_tool_stops_no_other_task(rt: HostRuntime) -> Result<(), Fail> {
    let alloc = rt.alloc();
    let mut plan = plan_of(alloc)?;
    plan.apply(alloc, &Edit::Connect(100))?;
    assert!(rt; is_exchanged(alloc, &plan, &[0; 16], RETURNED, &[0x55])?);
    Ok(())
}

/// A gripper that was disconnected and stays on the wire with its FMMU in task 2 passes task 0, and its outputs do not change.
#[test]
fn a_plugged_tool_passes_other_tasks(rt: HostRuntime) -> Result<(), Fail> {
    let alloc = rt.alloc();
    let plan = plan_of(alloc)?;
    assert!(rt; is_exchanged(alloc, &plan, IN_TASK_2, RETURNED, &[0x55])?);
    Ok(())
}

/// A tool that has an FMMU in the task takes its outputs, and the working counter is too high: such a task is not carried.
#[test]
fn a_tool_in_the_task_takes_its_outputs(rt: HostRuntime) -> Result<(), Fail> {
    let alloc = rt.alloc();
    let plan = plan_of(alloc)?;
    assert!(rt; is_exchanged(alloc, &plan, IN_TASK_0, TAKEN_TWICE, &[0x02])?);
    Ok(())
}

/// A task without datagrams, and one over 7, bring no frame.
#[test]
fn a_task_without_datagrams_brings_nothing(rt: HostRuntime) -> Result<(), Fail> {
    let alloc = rt.alloc();
    let plan = plan_of(alloc)?;
    let mut segment = segment_of(alloc, &plan, INPUTS)?;
    let none = exchange_ready(alloc, &plan, &mut segment, 0, 2, &[255])?;
    let over = exchange_ready(alloc, &plan, &mut segment, 0, 8, &[255])?;
    assert_eq!(rt; (none.len(), over.len()), (0, 0));
    Ok(())
}

/// True if the machines of two segments have the same memories, one after another.
fn are_alike(segment: &Segment, other: &Segment) -> bool {
    match (segment.machines(), other.machines()) {
        ([axis, tool], [other_axis, other_tool]) => {
            axis.memory() == other_axis.memory() && tool.memory() == other_tool.memory()
        }
        _ => false,
    }
}

/// A ready exchange whose allocation fails leaves the machines as they were. `ci/sweep.sh` makes each allocation of this test
/// fail in turn.
#[test]
fn machines_stay_where_a_ready_exchange_is_refused(rt: HostRuntime) -> Result<(), Fail> {
    let alloc = rt.alloc();
    let plan = plan_of(alloc)?;
    let mut segment = wire(alloc, &plan, gripper(alloc, &[0; 16])?)?;
    let unused = wire(alloc, &plan, gripper(alloc, &[0; 16])?)?;
    match exchange_ready(alloc, &plan, &mut segment, 9, 0, &[0x02]) {
        Ok(frames) => assert!(rt;
            is_returned(&frames, RETURNED) && are_placed(&segment, &[(0, 0x1100, &[0x02])])
        ),
        Err(_) => assert!(rt; are_alike(&segment, &unused)),
    }
    Ok(())
}
