//! Lines that are edited, and the answers of their plans from the opening on.
use crate::opened::plan_of;
use crate::steps::Step::{At, Block, Connect, Datagrams, Disconnect, Move, Part, Remap};
use crate::steps::{Answer, Step, Wanted, first_wrong_of};
use hc_plan::plan::Plan;
use hc_plan::report::Report;
use hc_records::edit::Edit;
use hc_records::faults::EditFault;
use hc_records::records::Dir;
use std::alloc::{AllocError, Global};
use std::test::Fail;

/// Two slaves with three output areas of 3 bits.
const THREE_BITS: &str = r#"
slave = [
  { station = 1, area = [
    { sm = 0, dir = "out", phys = 0x1000, task = 0, assigned = [1], pdo = [{ index = 1, entries = [[1, 3]] }] },
    { sm = 1, dir = "out", phys = 0x1010, task = 0, assigned = [1], pdo = [{ index = 1, entries = [[2, 3]] }] },
  ] },
  { station = 2, area = [
    { sm = 0, dir = "out", phys = 0x1000, task = 0, assigned = [1], pdo = [{ index = 1, entries = [[3, 3]] }] },
  ] },
]
"#;

/// Areas of three bits share bytes.
const SHARED_BYTES: &[Step] = &[
    Datagrams(0, &[(0x0100_0000, 2, 4, 0)]),
    Part(0, (2, 0)),
    Block(
        1,
        3,
        0x0610,
        &[0, 0, 0, 1, 1, 0, 3, 5, 0x10, 0x10, 0, 2, 1, 0, 0, 0],
    ),
    Block(
        2,
        1,
        0x0600,
        &[0, 0, 0, 1, 2, 0, 6, 0, 0x00, 0x10, 0, 2, 1, 0, 0, 0],
    ),
];

/// Areas of three bits, with an input area of 1 bit, the last of the first slave.
const AND_AN_INPUT: &str = r#"
slave = [
  { station = 1, area = [
    { sm = 0, dir = "out", phys = 0x1000, task = 0, assigned = [1], pdo = [{ index = 1, entries = [[1, 3]] }] },
    { sm = 1, dir = "out", phys = 0x1010, task = 0, assigned = [1], pdo = [{ index = 1, entries = [[2, 3]] }] },
    { sm = 2, dir = "in", phys = 0x1020, task = 0, assigned = [1], pdo = [{ index = 1, entries = [[4, 1]] }] },
  ] },
  { station = 2, area = [
    { sm = 0, dir = "out", phys = 0x1000, task = 0, assigned = [1], pdo = [{ index = 1, entries = [[3, 3]] }] },
  ] },
]
"#;

/// An input begins the next byte.
const INPUT_BYTE: &[Step] = &[
    Datagrams(0, &[(0x0100_0000, 3, 5, 0)]),
    Part(0, (2, 1)),
    At(4, Some((0, 0, 16, 1, Dir::In))),
    At(5, None),
];

/// A slave with an output area of 2 bits and an input area of 12 bits, in the mandatory group.
const ONE_SLAVE: &str = r#"
slave = [
  { station = 1001, area = [
    { sm = 2, dir = "out", phys = 0x1100, task = 0, assigned = [0x1600], pdo = [{ index = 0x1600, entries = [[1, 2]] }] },
    { sm = 3, dir = "in", phys = 0x1180, task = 0, assigned = [0x1a00], pdo = [{ index = 0x1a00, entries = [[2, 12]] }] },
  ] },
]
"#;

/// The datagram of task 0 with the outputs alone.
const OUTPUTS: Wanted = (0x0100_0000, 1, 2, 0);

/// A remap to the assigned PDOs changes no width, and begins an epoch. Without PDOs the inputs have no mapping.
const REMAPPED: &[Step] = &[
    Remap(1001, 1, &[0x1a00], Ok((1, 0, 0, &[]))),
    Remap(1001, 1, &[0x1a00], Ok((2, 0, 0, &[]))),
    Remap(1001, 1, &[], Ok((3, 1, 1, &[(1001, 2), (1001, 3)]))),
    Block(1001, 2, 0x0818, &[0x80, 0x11, 0, 0, 0x20, 0, 0, 0]),
    Block(1001, 3, 0x0610, &[0; 16]),
    Datagrams(0, &[OUTPUTS]),
];

/// The outputs move to task 1. Tasks over 7, and slaves, areas and PDOs that are not declared, are refused.
const MOVED: &[Step] = &[
    Move(1001, 0, 1, Ok((1, 2, 2, &[(1001, 1), (1001, 3)]))),
    Datagrams(0, &[(0x0100_0000, 2, 1, 0)]),
    Datagrams(1, &[(0x0200_0000, 1, 2, 0)]),
    Move(1001, 0, 8, Err(EditFault::NoSuchTask)),
    Move(1001, 2, 0, Err(EditFault::NoSuchArea)),
    Move(1002, 0, 0, Err(EditFault::UnknownStation)),
    Remap(1001, 0, &[0x1601], Err(EditFault::UnknownPdo)),
    Remap(1001, 0, &[0x1600, 0x1600], Err(EditFault::RepeatedPdo)),
];

/// A slave in a group of its own, whose outputs move to task 1.
const ONE_GROUP: &str = r#"
group = [
  { alias = 100, slave = [
    { station = 1001, area = [
      { sm = 2, dir = "out", phys = 0x1100, task = 0, assigned = [0x1600], pdo = [{ index = 0x1600, entries = [[1, 2]] }] },
      { sm = 3, dir = "in", phys = 0x1180, task = 0, assigned = [0x1a00], pdo = [{ index = 0x1a00, entries = [[2, 12]] }] },
    ] },
  ] },
]
"#;

/// The four blocks of the group's slave.
const FOUR: &[(u16, u8)] = &[(1001, 0), (1001, 1), (1001, 2), (1001, 3)];

/// The group is connected, and connected again without inputs: an absent group keeps its assignments.
const SILENCED: &[Step] = &[
    Datagrams(0, &[]),
    Connect(100, Ok((1, 1, 2, FOUR))),
    At(2, Some((0, 0, 8, 12, Dir::In))),
    Remap(1001, 1, &[], Ok((2, 1, 1, &[(1001, 2), (1001, 3)]))),
    Disconnect(100, Ok((3, 1, 1, &[]))),
    Datagrams(0, &[]),
    Remap(1001, 1, &[0x1a00], Err(EditFault::Absent)),
    Connect(100, Ok((4, 1, 1, FOUR))),
    Datagrams(0, &[OUTPUTS]),
];

/// A group with nothing assigned.
const EMPTY_GROUP: &str = r#"
group = [
  { alias = 100, slave = [
    { station = 1001, area = [
      { sm = 2, dir = "out", phys = 0x1100, task = 0, assigned = [], pdo = [{ index = 0x1600, entries = [[1, 2]] }] },
      { sm = 3, dir = "in", phys = 0x1180, task = 0, assigned = [], pdo = [{ index = 0x1a00, entries = [[2, 12]] }] },
    ] },
  ] },
]
"#;

/// Areas without bits touch no task.
const EMPTY_COMES: &[Step] = &[Connect(100, Ok((1, 0, 0, FOUR)))];

/// A slave with an input area of two PDOs of 4 bits.
const TWO_PDOS: &str = r#"
slave = [
  { station = 1001, area = [
    { sm = 3, dir = "in", phys = 0x1000, task = 0, assigned = [0x1a00, 0x1a01], pdo = [
      { index = 0x1a00, entries = [[2, 4]] },
      { index = 0x1a01, entries = [[3, 4]] },
    ] },
  ] },
]
"#;

/// PDOs in another order move variables alone.
const TURNED: &[Step] = &[
    Remap(1001, 0, &[0x1a01, 0x1a00], Ok((1, 0, 2, &[]))),
    At(3, Some((0, 0, 0, 4, Dir::In))),
];

/// A slave with two PDOs to choose from and an input, a tool in two tasks, and a module.
const THREE_GROUPS: &str = r#"
slave = [
  { station = 1001, area = [
    { sm = 2, dir = "out", phys = 0x1100, task = 0, assigned = [0x1600], pdo = [
      { index = 0x1600, entries = [[1, 12]] },
      { index = 0x1601, entries = [[2, 20], [3, 1]] },
    ] },
    { sm = 3, dir = "in", phys = 0x1180, task = 0, assigned = [0x1a00], pdo = [{ index = 0x1a00, entries = [[4, 9]] }] },
  ] },
]
group = [
  { alias = 100, slave = [
    { station = 1002, area = [
      { sm = 2, dir = "out", phys = 0x1100, task = 0, assigned = [0x1600], pdo = [{ index = 0x1600, entries = [[5, 3]] }] },
      { sm = 3, dir = "in", phys = 0x1180, task = 1, assigned = [0x1a00], pdo = [{ index = 0x1a00, entries = [[6, 8]] }] },
    ] },
  ] },
  { alias = 200, slave = [
    { station = 1003, area = [
      { sm = 2, dir = "out", phys = 0x1100, task = 0, assigned = [0x1600], pdo = [{ index = 0x1600, entries = [[7, 30]] }] },
    ] },
  ] },
]
"#;

/// Groups are connected and disconnected while areas are remapped and moved.
const THREE: &[Step] = &[
    Connect(
        100,
        Ok((1, 2, 2, &[(1002, 0), (1002, 1), (1002, 2), (1002, 3)])),
    ),
    Connect(200, Ok((2, 1, 2, &[(1001, 3), (1003, 0), (1003, 1)]))),
    Remap(
        1001,
        0,
        &[0x1601],
        Ok((
            3,
            1,
            6,
            &[(1001, 0), (1001, 1), (1001, 3), (1002, 1), (1003, 1)],
        )),
    ),
    Remap(
        1001,
        0,
        &[0x1600, 0x1601],
        Ok((
            4,
            1,
            6,
            &[(1001, 0), (1001, 1), (1001, 3), (1002, 1), (1003, 1)],
        )),
    ),
    Move(1002, 0, 1, Ok((5, 2, 2, &[(1002, 1), (1002, 3)]))),
    Move(1003, 0, 2, Ok((6, 2, 2, &[(1001, 3), (1003, 1)]))),
    Remap(
        1002,
        0,
        &[],
        Ok((7, 1, 2, &[(1002, 0), (1002, 1), (1002, 3)])),
    ),
    Disconnect(100, Ok((8, 1, 1, &[]))),
    Move(1002, 1, 0, Err(EditFault::Absent)),
    Connect(
        100,
        Ok((9, 1, 1, &[(1002, 0), (1002, 1), (1002, 2), (1002, 3)])),
    ),
    Remap(1001, 0, &[0x1601, 0x1600], Ok((10, 0, 3, &[]))),
    Move(1001, 1, 7, Ok((11, 2, 1, &[(1001, 3)]))),
    Disconnect(200, Ok((12, 1, 1, &[]))),
    Connect(100, Err(EditFault::AlreadyPresent)),
    Remap(1001, 0, &[], Ok((13, 1, 3, &[(1001, 0), (1001, 1)]))),
];

/// The lines, each with its steps.
const LINES: &[(&str, &[Step])] = &[
    (THREE_BITS, SHARED_BYTES),
    (AND_AN_INPUT, INPUT_BYTE),
    (ONE_SLAVE, REMAPPED),
    (ONE_SLAVE, MOVED),
    (ONE_GROUP, SILENCED),
    (EMPTY_GROUP, EMPTY_COMES),
    (TWO_PDOS, TURNED),
    (THREE_GROUPS, THREE),
];

/// The numbers of the first line with a step that has another answer, and of the step. None if there is none.
fn first_wrong_line(alloc: Global) -> Result<Option<(usize, usize)>, Fail> {
    let mut number = 0_usize;
    for line in LINES {
        if let Some(step) = first_wrong_of(alloc, line.0, line.1)? {
            return Ok(Some((number, step)));
        }
        number = number.saturating_add(1);
    }
    Ok(None)
}

/// Each edit has the report that was worked out by hand. An edit whose allocation failed has changed nothing, and is carried
/// out again.
#[test]
fn edits_say_what_they_change(rt: HostRuntime) -> Result<(), Fail> {
    assert_eq!(rt; first_wrong_line(rt.alloc())?, None);
    Ok(())
}

/// The group is connected and disconnected, and so are the mandatory one and one that is not declared.
const EDITS: [Edit; 7] = [
    Edit::Connect(100),
    Edit::Connect(100),
    Edit::Disconnect(100),
    Edit::Disconnect(100),
    Edit::Disconnect(0),
    Edit::Connect(0),
    Edit::Connect(7),
];

/// The answers to these edits.
const ANSWERS: [Answer; 7] = [
    Ok((1, 1, 2, FOUR)),
    Err(EditFault::AlreadyPresent),
    Ok((2, 1, 2, &[])),
    Err(EditFault::NotPresent),
    Err(EditFault::Mandatory),
    Err(EditFault::AlreadyPresent),
    Err(EditFault::UnknownAlias),
];

/// True if an answer is the wanted one.
fn is_answer(answer: &Result<Report, EditFault>, wanted: &Answer) -> bool {
    match (answer, wanted) {
        (Ok(report), Ok(reported)) => {
            (report.epoch, report.recut, report.swap.places())
                == (reported.0, reported.1, reported.2)
                && report.blocks.as_slice() == reported.3
        }
        (Err(fault), Err(other)) => fault == other,
        _ => false,
    }
}

/// Runs the edits as a list. True if each has its answer. Fails if an allocation failed.
fn are_answered(plan: &mut Plan, alloc: Global) -> Result<bool, AllocError> {
    let answers = plan.run(alloc, &EDITS)?;
    for (answer, wanted) in answers.iter().zip(&ANSWERS) {
        if matches!(answer, Err(EditFault::Memory)) {
            return Err(AllocError);
        }
        if !is_answer(answer, wanted) {
            return Ok(false);
        }
    }
    Ok(answers.len() == ANSWERS.len())
}

/// A list of edits is answered edit by edit, in order. An edit that fails with `Memory` leaves the others to their own answers.
#[test]
fn a_list_of_edits_is_answered_in_its_order(rt: HostRuntime) -> Result<(), Fail> {
    let mut plan = plan_of(rt.alloc(), ONE_GROUP)?;
    assert!(rt; are_answered(&mut plan, rt.alloc())?);
    Ok(())
}
