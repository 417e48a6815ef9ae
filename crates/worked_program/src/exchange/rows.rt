//! Worked rows of one exchange each: the frame that comes back, and the slaves' memories after it.
use crate::exchange::machines::{Piece, are_placed, is_placed, segment_of};
use hc_exchange::{exchange, program};
use hc_plan::plan::Plan;
use hc_project::read_project;
use hc_segment::Segment;
use std::alloc::{AllocError, Global};
use std::test::Fail;

/// A slave with an output area of 2 bits and an input area of 12 bits.
const ONE_SLAVE: &str = r#"
slave = [
  { station = 1001, area = [
    { sm = 2, dir = "out", phys = 0x1100, task = 0, assigned = [0x1600], pdo = [{ index = 0x1600, entries = [[1, 2]] }] },
    { sm = 3, dir = "in", phys = 0x1180, task = 0, assigned = [0x1a00], pdo = [{ index = 0x1a00, entries = [[2, 12]] }] },
  ] },
]
"#;

/// Two slaves with three output areas of 3 bits, each one variable.
const THREE_BITS: &str = r#"
slave = [
  { station = 1, area = [
    { sm = 0, dir = "out", phys = 0x1000, task = 0, assigned = [1], pdo = [{ index = 1, entries = [[1, 3]] }] },
    { sm = 1, dir = "out", phys = 0x1010, task = 0, assigned = [1], pdo = [{ index = 1, entries = [[2, 3]] }] },
  ] },
  { station = 2, area = [
    { sm = 0, dir = "out", phys = 0x1000, task = 0, assigned = [1], pdo = [{ index = 1, entries = [[3, 3]] }] },
  ] },
]
"#;

/// A slave with an output area of a gap of 3 bits, a variable of 2, and a gap of 3.
const GAPS: &str = r#"
slave = [
  { station = 7, area = [
    { sm = 0, dir = "out", phys = 0x1000, task = 2, assigned = [1], pdo = [{ index = 1, entries = [[0, 3], [1, 2], [0, 3]] }] },
  ] },
]
"#;

/// One exchange: the project, bytes of the memories before, the task and its outputs, the frame that comes back up to its
/// working counter, and bytes of the memories after.
struct Row {
    project: &'static str,
    before: &'static [Piece],
    task: u8,
    outputs: &'static [u8],
    frame: &'static [u8],
    after: &'static [Piece],
}

/// The frame with the first slave's datagram as it comes back, up to its working counter.
const RETURNED: &[u8] = &[
    255, 255, 255, 255, 255, 255, 2, 0, 0, 0, 0, 4, 0x88, 0xa4, 15, 0x10, 12, 4, 0, 0, 0, 1, 3, 0,
    0, 0, 0x02, 0x34, 0x0a, 3, 0,
];

/// An output and an input; the output's byte keeps its other bits; 9 bits in three areas; gaps are 0.
const ROWS: &[Row] = &[
    Row {
        project: ONE_SLAVE,
        before: &[(0, 0x1180, &[0x34, 0x0a])],
        task: 0,
        outputs: &[0x02],
        frame: RETURNED,
        after: &[(0, 0x1100, &[0x02]), (0, 0x1180, &[0x34, 0x0a])],
    },
    Row {
        project: ONE_SLAVE,
        before: &[(0, 0x1100, &[0xfc]), (0, 0x1180, &[0x34, 0x0a])],
        task: 0,
        outputs: &[0x02],
        frame: RETURNED,
        after: &[(0, 0x1100, &[0xfe]), (0, 0x1180, &[0x34, 0x0a])],
    },
    Row {
        project: THREE_BITS,
        before: &[],
        task: 0,
        outputs: &[0xd5, 0xff],
        frame: &[
            255, 255, 255, 255, 255, 255, 2, 0, 0, 0, 0, 6, 0x88, 0xa4, 14, 0x10, 12, 6, 0, 0, 0,
            1, 2, 0, 0, 0, 0xd5, 0x01, 4, 0,
        ],
        after: &[
            (0, 0x1000, &[0x05]),
            (0, 0x1010, &[0x02]),
            (1, 0x1000, &[0x07]),
        ],
    },
    Row {
        project: GAPS,
        before: &[(0, 0x0fff, &[0xff, 0xff, 0xff])],
        task: 2,
        outputs: &[0xf7],
        frame: &[
            255, 255, 255, 255, 255, 255, 2, 0, 0, 0, 0, 2, 0x88, 0xa4, 13, 0x10, 12, 2, 0, 0, 0,
            3, 1, 0, 0, 0, 0x10, 2, 0,
        ],
        after: &[(0, 0x0fff, &[0xff, 0x10, 0xff])],
    },
];

/// True if one frame of 60 bytes came back, which begins with these bytes and ends with zeros.
fn is_frame(frames: &[Vec<u8>], wanted: &[u8]) -> bool {
    match frames {
        [frame] => {
            let zeros = [0; 60];
            frame.len() == 60
                && is_placed(frame, 0, wanted)
                && is_placed(
                    &zeros,
                    wanted.len(),
                    frame.get(wanted.len()..).unwrap_or(&[1]),
                )
        }
        _ => false,
    }
}

/// The plan of a project text at its opening.
fn plan_of(alloc: Global, text: &str) -> Result<Plan, Fail> {
    let project = read_project(alloc, text.as_bytes())?;
    Ok(Plan::new(alloc, project)?)
}

/// True if a row's exchange brings its frame and leaves its bytes.
fn is_right(alloc: Global, row: &Row) -> Result<bool, Fail> {
    let plan = plan_of(alloc, row.project)?;
    let mut segment = segment_of(alloc, &plan, row.before)?;
    let frames = exchange(alloc, &plan, &mut segment, row.task, row.outputs)?;
    Ok(is_frame(&frames, row.frame) && are_placed(&segment, row.after))
}

/// The number of the first row with another result. None if there is none.
fn first_wrong_row(alloc: Global) -> Result<Option<usize>, Fail> {
    let mut number = 0_usize;
    for row in ROWS {
        if !is_right(alloc, row)? {
            return Ok(Some(number));
        }
        number = number.saturating_add(1);
    }
    Ok(None)
}

/// An exchange brings the inputs of slaves and carries outputs to them, bit by bit as worked out by hand.
#[test]
fn exchanges_bring_inputs_and_carry_outputs(rt: HostRuntime) -> Result<(), Fail> {
    assert_eq!(rt; first_wrong_row(rt.alloc())?, None);
    Ok(())
}

/// The four blocks of the slave with the two areas.
const BLOCKS: &[Piece] = &[
    (0, 0x0810, &[0x00, 0x11, 1, 0, 0x64, 0, 1, 0]),
    (
        0,
        0x0600,
        &[0, 0, 0, 1, 1, 0, 0, 1, 0x00, 0x11, 0, 2, 1, 0, 0, 0],
    ),
    (0, 0x0818, &[0x80, 0x11, 2, 0, 0x20, 0, 1, 0]),
    (
        0,
        0x0610,
        &[1, 0, 0, 1, 2, 0, 0, 3, 0x80, 0x11, 0, 1, 1, 0, 0, 0],
    ),
];

/// The segment of a plan's line after its programming.
fn programmed(alloc: Global, plan: &Plan) -> Result<Segment, AllocError> {
    let mut segment = segment_of(alloc, plan, &[])?;
    program(plan, &mut segment);
    Ok(segment)
}

/// Programming a line leaves its four register blocks in the slave.
#[test]
fn a_line_is_programmed(rt: HostRuntime) -> Result<(), Fail> {
    let plan = plan_of(rt.alloc(), ONE_SLAVE)?;
    assert!(rt; are_placed(&programmed(rt.alloc(), &plan)?, BLOCKS));
    Ok(())
}

/// The number of frames that an exchange of a task brings, and true if the line is programmed then.
fn answers_of_nothing(alloc: Global, task: u8) -> Result<(usize, bool), Fail> {
    let plan = plan_of(alloc, ONE_SLAVE)?;
    let mut segment = segment_of(alloc, &plan, &[])?;
    let frames = exchange(alloc, &plan, &mut segment, task, &[255; 4])?;
    Ok((frames.len(), are_placed(&segment, BLOCKS)))
}

/// An exchange of a task without datagrams, or over 7, brings no frame. The line is programmed all the same.
#[test]
fn a_task_without_datagrams_answers_nothing(rt: HostRuntime) -> Result<(), Fail> {
    let alloc = rt.alloc();
    let answers = (answers_of_nothing(alloc, 1)?, answers_of_nothing(alloc, 8)?);
    assert_eq!(rt; answers, ((0, true), (0, true)));
    Ok(())
}

/// Bytes of the one slave's memory before the exchange, also in its registers.
const BEFORE: &[Piece] = &[
    (0, 0x0600, &[1, 2, 3]),
    (0, 0x1100, &[0xfc]),
    (0, 0x1180, &[0x34, 0x0a]),
];

/// True if the machines of two segments of one slave have the same memory.
fn is_untouched(segment: &Segment, unused: &Segment) -> bool {
    match (segment.machines(), unused.machines()) {
        ([machine], [other]) => machine.memory() == other.memory(),
        _ => false,
    }
}

/// An exchange whose allocation fails leaves the machines as they were. `ci/sweep.sh` makes each allocation of this test fail
/// in turn.
#[test]
fn machines_stay_where_an_exchange_is_refused(rt: HostRuntime) -> Result<(), Fail> {
    let alloc = rt.alloc();
    let plan = plan_of(alloc, ONE_SLAVE)?;
    let mut segment = segment_of(alloc, &plan, BEFORE)?;
    let unused = segment_of(alloc, &plan, BEFORE)?;
    match exchange(alloc, &plan, &mut segment, 0, &[0x02]) {
        Ok(frames) => assert!(rt;
            frames.len() == 1 && are_placed(&segment, &[(0, 0x1100, &[0xfe])])
        ),
        Err(_) => assert!(rt; is_untouched(&segment, &unused)),
    }
    Ok(())
}
