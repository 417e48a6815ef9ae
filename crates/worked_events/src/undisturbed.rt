//! Steady data, steady posts and task epochs over edits, worked out by hand. A tool that comes in a task of its own changes
//! nothing for the axis, and a move of the axis' inputs does.
use crate::answers::ANSWERED;
use crate::asked::Asked::{
    Clear, Comes, Connect, Move, Post, PostSteady, Read, ReadSteady, Send, SendReady,
};
use crate::asked::{Row, Wanted};
use crate::driven::Driven;
use crate::lines::opened;
use crate::stages::Stage::{Blocks, Rows};
use crate::stages::{Stage, first_wrong_at};
use hc_core::keeping::Core;
use hc_events::faults::CoreFault;
use hc_frames::Command;
use std::alloc::Global;
use std::test::Fail;

/// An axis in task 0 with 2 output bits and 12 input bits, and a gripper in task 2 with 8 output bits.
const LINE: &str = r#"
slave = [
  { station = 1001, area = [
    { sm = 2, dir = "out", phys = 0x1100, task = 0, assigned = [0x1600], pdo = [
      { index = 0x1600, entries = [[1, 2]] },
    ] },
    { sm = 3, dir = "in", phys = 0x1180, task = 0, assigned = [0x1a00], pdo = [
      { index = 0x1a00, entries = [[2, 12]] },
    ] },
  ] },
]
group = [
  { alias = 5, slave = [
    { station = 1002, area = [
      { sm = 2, dir = "out", phys = 0x1100, task = 2, assigned = [0x1600], pdo = [
        { index = 0x1600, entries = [[3, 8]] },
      ] },
    ] },
  ] },
]
"#;

/// The axis runs: its outputs are 2, and its answer has the inputs 0x34 and 0x0a.
const RUNNING: &[Row] = &[
    (Post(0, 0, &[2]), Wanted::Posted),
    (
        Send(&[0]),
        Wanted::Sent(&[(4, 0x0f, b"\x0c\x04\0\0\0\x01\x03\0\0\0\x02", 33)]),
    ),
    (
        Comes(4, &[(Command::Lrw, 0x0100_0000, b"\x02\x34\x0a", 3)]),
        ANSWERED,
    ),
    (Read(0), Wanted::Image(0, &[Some(b"\x02\x34\x0a")])),
    (ReadSteady(0), Wanted::Image(0, &[Some(b"\x02\x34\x0a")])),
];

/// The gripper comes. The axis still has its steady data, and its posts of the epoch before count. The gripper's do not.
const OVER_THE_EDIT: &[Row] = &[
    (Connect(5), Wanted::Edited(1, 1, 2)),
    (Clear(1002), Wanted::Cleared),
    (Read(0), Wanted::Image(1, &[None])),
    (ReadSteady(0), Wanted::Image(1, &[Some(b"\x02\x34\x0a")])),
    (ReadSteady(2), Wanted::Image(1, &[None])),
    (ReadSteady(8), Wanted::Refused(CoreFault::NoSuchTask)),
    (Post(0, 0, &[1]), Wanted::Refused(CoreFault::StalePost)),
    (PostSteady(0, 0, &[1]), Wanted::Posted),
    (
        PostSteady(0, 2, &[3]),
        Wanted::Refused(CoreFault::StalePost),
    ),
    (
        PostSteady(0, 1, &[3, 3]),
        Wanted::Refused(CoreFault::PostLength),
    ),
    (
        PostSteady(2, 0, &[9]),
        Wanted::Refused(CoreFault::StalePost),
    ),
    (PostSteady(2, 1, &[9]), Wanted::Posted),
    (
        PostSteady(8, 1, &[]),
        Wanted::Refused(CoreFault::NoSuchTask),
    ),
    (
        SendReady(&[0]),
        Wanted::Sent(&[(5, 0x0f, b"\x0c\x05\0\0\0\x01\x03\0\0\0\x01", 33)]),
    ),
];

/// The next answer brings newer data.
const ANSWERED_AGAIN: &[Row] = &[
    (
        Comes(5, &[(Command::Lrw, 0x0100_0000, b"\x01\x35\x0b", 3)]),
        ANSWERED,
    ),
    (ReadSteady(0), Wanted::Image(1, &[Some(b"\x01\x35\x0b")])),
];

/// The axis' inputs move to task 1: both tasks have no steady data, and posts from before do not count.
const MOVED: &[Row] = &[
    (Move(1001, 1, 1), Wanted::Edited(2, 2, 1)),
    (ReadSteady(0), Wanted::Image(2, &[None])),
    (ReadSteady(1), Wanted::Image(2, &[None])),
    (
        PostSteady(0, 1, &[1]),
        Wanted::Refused(CoreFault::StalePost),
    ),
    (PostSteady(0, 2, &[1]), Wanted::Posted),
    (PostSteady(2, 1, &[9]), Wanted::Posted),
];

/// Stages, each with the state of a core after it: the epochs of tasks 0, 1 and 2, and the steady data of datagram 0 of task 0
/// with their serial.
const STAGES: &[(Stage, [u32; 3], Option<(&[u8], u64)>)] = &[
    (Blocks(4), [0, 0, 0], None),
    (Rows(RUNNING), [0, 0, 0], Some((b"\x02\x34\x0a", 4))),
    (Rows(OVER_THE_EDIT), [0, 0, 1], Some((b"\x02\x34\x0a", 4))),
    (Rows(ANSWERED_AGAIN), [0, 0, 1], Some((b"\x01\x35\x0b", 5))),
    (Rows(MOVED), [2, 2, 1], None),
];

/// True if the epochs of tasks 0, 1 and 2 are these.
fn has_epochs(core: &Core, epochs: [u32; 3]) -> bool {
    [core.task_epoch(0), core.task_epoch(1), core.task_epoch(2)] == epochs
}

/// True if the steady data of datagram 0 of task 0 and their serial are these, or none.
fn has_data(core: &Core, wanted: Option<(&[u8], u64)>) -> bool {
    match (core.steady_data(0, 0), core.steady_serial(0, 0), wanted) {
        (Some(data), Some(serial), Some((bytes, number))) => data == bytes && serial == number,
        (None, None, None) => true,
        _ => false,
    }
}

/// The number of the first stage that does not hold, or after which a core has another state. The number of the stages if there
/// is none.
fn first_wrong(driven: &mut Driven, alloc: Global) -> Result<usize, Fail> {
    let mut number = 0_usize;
    for (stage, epochs, data) in STAGES {
        if first_wrong_at(driven, alloc, &[*stage])?.is_some() {
            return Ok(number);
        }
        if !has_epochs(&driven.core, *epochs) || !has_data(&driven.core, *data) {
            return Ok(number);
        }
        number = number.saturating_add(1);
    }
    Ok(number)
}

/// An edit leaves the data, the posts and the epoch of each task that it does not change.
#[test]
fn edits_leave_other_tasks_undisturbed(rt: HostRuntime) -> Result<(), Fail> {
    let mut driven = opened(rt.alloc(), LINE)?;
    assert_eq!(rt; first_wrong(&mut driven, rt.alloc())?, STAGES.len());
    Ok(())
}
